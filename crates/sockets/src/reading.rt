ghost use Rattle.std.specs.Prelude.{◌≡◌, ◌≤◌, ◌++◌, [], IfOk, OnErr, length, take};
ghost use Rattle.std.specs.Io.KnownBytes.{ReadConsumes};
ghost use Rattle.sockets.specs.Halves.{given_by, read_by};

use crate::history::History;
use crate::transfer::read_some;
use crate::{Incoming, Stream};
use std::io;
use std::io::Read;

/// A stream that is read from, and all bytes that its reads told of.
#[derive(Drop)]
pub struct Reading<S = Stream> {
    stream: S,
    gave: History,
}

impl<S: Read> Reading<S> {
    /// Nothing was read from it yet.
    pub fn new(stream: S) -> Reading<S>
        ensures gave { given_by result ≡ [] }
        ensures stream { read_by result ≡ stream }
    {
        Reading {
            stream,
            gave: History::new(),
        }
    }
}

impl<S: Read> Incoming for Reading<S> {
    ghost gave = { given_by };

    /// A read that a signal interrupts is made again.
    fn read_piece(&mut self, buffer: &mut [u8]) -> io::Result<usize>
        ensures within { IfOk result (λ n. n ≤ length buffer.new) }
        ensures size { length buffer.new ≡ length buffer.old }
        ensures gave { IfOk result (λ n. given_by self.new ≡ given_by self.old ++ take n buffer.new) }
        ensures none { OnErr result (given_by self.new ≡ given_by self.old) }
        // Where it is known what the stream is still to give, it gave just that.
        ensures stream { ReadConsumes (S.remaining (read_by self.old)) (S.remaining (read_by self.new)) result buffer.new }
    {
        let count = read_some(&mut self.stream, buffer)?;
        self.gave.add(&buffer[..count]);
        Ok(count)
    }
}
