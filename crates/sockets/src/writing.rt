ghost use Rattle.std.specs.Prelude.{◌≡◌, ◌++◌, ℕ, [], OnErr, OnOk, take};
ghost use Rattle.sockets.specs.Halves.{taken_by, written_by, Takes};

use crate::history::History;
use crate::transfer::write_front;
use crate::{Outgoing, Stream};
use std::io;
use std::io::Write;

/// A stream that is written to, and all bytes that its writes told of.
#[derive(Drop)]
pub struct Writing<S = Stream> {
    stream: S,
    took: History,
}

impl<S: Write> Writing<S> {
    /// Nothing was written to it yet.
    pub fn new(stream: S) -> Writing<S>
        ensures took { taken_by result ≡ [] }
        ensures stream { written_by result ≡ stream }
    {
        Writing {
            stream,
            took: History::new(),
        }
    }
}

impl<S: Write> Outgoing for Writing<S> {
    ghost took = { taken_by };

    /// A write that a signal interrupts is made again. Where it is known what the stream holds, that grows by the same bytes.
    fn write_piece(&mut self, bytes: &[u8]) -> io::Result<()>
        ensures all { OnOk result (Takes S.contents self.old self.new bytes.now) }
        ensures part { OnErr result ((n : ℕ) × Takes S.contents self.old self.new (take n bytes.now)) }
    {
        let (count, done) = write_front(&mut self.stream, bytes);
        self.took.add(&bytes[..count]);
        done
    }
}
