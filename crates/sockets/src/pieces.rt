ghost use Rattle.std.specs.Prelude.{◌≡◌, ◌≤◌, ◌<◌, ◌⊎◌, All, Contains, length};

use crate::Incoming;
use std::alloc::{AllocError, Global};
use std::io;

/// A client in memory, which sends pieces: a read gives bytes of one piece at most.
#[derive(Drop)]
pub struct Pieces {
    bytes: Vec<u8>,
    // behind how many bytes each piece begins
    starts: Vec<usize>,
    // how many bytes it gave
    count: usize,
    ghost within: { count ≤ length bytes.items },
}

impl Pieces {
    ghost use Rattle.std.specs.Prelude.{◌++◌, [], ◌∷◌, OnErr, OnOk};
    ghost use Rattle.sockets.specs.Memory.{all_of, given_of, starts_of};

    /// It has no pieces yet.
    pub fn new(alloc: Global) -> Pieces
        ensures all { all_of result ≡ [] }
        ensures gave { given_of result ≡ [] }
    {
        Pieces {
            bytes: Vec::new(alloc),
            starts: Vec::new(alloc),
            count: 0,
        }
    }

    /// One more piece, which is given behind all others. Where memory runs out, its bytes are those of before.
    pub fn add(&mut self, piece: &[u8]) -> Result<(), AllocError>
        ensures all { OnOk result (all_of self.new ≡ all_of self.old ++ piece.now) }
        ensures starts { OnOk result (starts_of self.new ≡ starts_of self.old ++ length (all_of self.old) ∷ []) }
        ensures none { OnErr result (all_of self.new ≡ all_of self.old) }
        ensures gave { given_of self.new ≡ given_of self.old }
    {
        self.starts.push(self.bytes.len())?;
        self.bytes.extend_from_slice(piece)
    }
}

impl Incoming for Pieces {
    ghost use Rattle.std.specs.Prelude.{◌++◌, [], IfOk, IsOk, take};
    ghost use Rattle.sockets.specs.Memory.{all_of, given_of, left_of, IsOfOnePiece, EndsPiece};

    ghost gave = { given_of };

    /// Gives the rest of a piece, or as much of it as the buffer holds. It never fails.
    fn read_piece(&mut self, buffer: &mut [u8]) -> io::Result<usize>
        ensures ok { IsOk result }
        ensures within { IfOk result (λ n. n ≤ length buffer.new) }
        ensures size { length buffer.new ≡ length buffer.old }
        ensures gave { IfOk result (λ n. given_of self.new ≡ given_of self.old ++ take n buffer.new) }
        ensures all { all_of self.new ≡ all_of self.old }
        ensures end { IfOk result (λ n. n ≡ 0 → 0 < length buffer.new → left_of self.new ≡ []) }
        ensures one { IsOfOnePiece self.old self.new }
        ensures rest { IfOk result (λ n. n < length buffer.new → EndsPiece self.new) }
    {
        let end = end_behind(self.starts.as_slice(), self.count, self.bytes.len());
        let count = buffer.len().min(end - self.count);
        buffer[..count].copy_from_slice(&self.bytes[self.count..self.count + count]);
        self.count += count;
        Ok(count)
    }
}

/// Where the piece ends that the byte behind so many belongs to.
fn end_behind(starts: &[usize], count: usize, all: usize) -> usize
    requires { count ≤ all }
    ensures within { count ≤ result }
    ensures all { result ≤ all }
    ensures some { count < all → count < result }
    ensures one { All (λ start. count < start → result ≤ start) starts.now }
    ensures rest { (result ≡ all) ⊎ Contains starts.now result }
{
    let mut end = all;
    for start in starts {
        if count < *start && *start < end {
            end = *start;
        }
    }
    end
}
