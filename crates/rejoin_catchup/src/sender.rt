//! The sender's side: which blocks were given, and which of them were written since.
ghost use Rattle.std.specs.Prelude.{◌≡◌, ◌↔◌, ◌+◌, ◌*◌, ◌<◌, ◌≤◌, List, None, Some, ℕ, false, length, drop, position, replicate, set, true, IfOk, IfSome, IsSome, IsTrue};
ghost use Rattle.local_store.specs.Installer.{with_block};
ghost use Rattle.volume.specs.Writes.{Fits, block_of, patched};
ghost use Rattle.rejoin_catchup.specs.Sending.{AreMarked, IsCopy, IsSending, due_of, gave, least_marked, piece_of};

use crate::piece::Piece;
use bytes::Bytes;
use std::alloc::{AllocError, Global};
use std::marker::Model;
use volume::{BLOCK_SIZE, Write, pieces};

/// What was given of a volume, and what is to be given still: the blocks from 0 up, and then those that were written since they
/// were given.
#[derive(Debug, Drop)]
pub struct Sender {
    given: u32,
    marks: Vec<bool>,
    /// The least block that is marked, or the number of blocks.
    least: u32,
}

impl Model for Sender {
    ghost use Rattle.std.specs.Prelude.{◌≡◌};
    ghost use Rattle.rejoin_catchup.specs.Sending.{IsSending, Sending, least_marked};

    ghost Value = { Sending };

    ghost view = { λ s. record { given = s.given; marks = s.marks.items } };

    ghost invariant = { λ s. IsSending (record { given = s.given; marks = s.marks.items }) × (s.least ≡ least_marked s.marks.items) };
}

impl Sender {
    /// Nothing is given yet of a volume of so many blocks, which are 65,536 at most.
    pub fn new(alloc: Global, blocks: u32) -> Result<Sender, AllocError>
        requires { blocks ≤ 65536 }
        ensures { IfOk result (λ s. s ≡ record { given = 0; marks = replicate blocks false }) }
    {
        let marks = vec![in alloc; false; blocks as usize]?;
        Ok(Sender {
            given: 0,
            marks,
            least: blocks,
        })
    }

    /// A write became known: each block that was given and that it touches is marked.
    pub fn written(&mut self, write: &Write)
        requires within { Fits (4096 * length self.old.marks) write.now }
        ensures marks { AreMarked write.now self.old self.new }
        ensures copies { (volume copy : List ℕ) → length volume ≡ 4096 * length self.old.marks → IsCopy self.old volume copy
            → IsCopy self.new (patched volume write.now) copy }
    {
        let given = self.given;
        for piece in pieces(write.offset(), write.len() as u32) {
            if piece.block < given {
                self.mark(piece.block);
            }
        }
    }

    /// Marks a block that was given.
    fn mark(&mut self, block: u32)
        requires { block < self.old.given }
        ensures { self.new ≡ record self.old { marks = set self.old.marks block true } }
    {
        self.marks[block as usize] = true;
        self.least = self.least.min(block);
    }

    /// The block that is to be given next: 0, 1, .. and then those that are marked, the least first. None once the copy is whole.
    pub fn due(&self) -> Option<u32>
        ensures due { result ≡ due_of self.now }
        ensures within { IfSome result (λ block. block < length self.now.marks) }
        ensures sending { IsSending self.now }
    {
        if !self.has_given_all() {
            return Some(self.given);
        }
        if (self.least as usize) < self.marks.len() {
            Some(self.least)
        } else {
            None
        }
    }

    /// The number of the volume's blocks.
    pub fn blocks(&self) -> usize
        ensures { result ≡ length self.now.marks }
    {
        self.marks.len()
    }

    /// Whether each block was given once.
    pub fn has_given_all(&self) -> bool
        ensures { IsTrue result ↔ (self.now.given ≡ length self.now.marks) }
    {
        self.given as usize == self.marks.len()
    }

    /// The next piece, of the block that is due. `bytes` are those of the volume now.
    pub fn next_block(&mut self, bytes: Bytes) -> Piece
        requires due { IsSome (due_of self.old) }
        requires whole { length bytes ≡ BLOCK_SIZE }
        ensures piece { IfSome (due_of self.old) (λ block. result ≡ piece_of self.old block bytes) }
        ensures given { self.new ≡ gave self.old }
        ensures copies { (volume copy : List ℕ) → length volume ≡ 4096 * length self.old.marks → IsCopy self.old volume copy
            → (block : ℕ) → due_of self.old ≡ Some block → bytes ≡ block_of volume block → IsCopy self.new volume (with_block copy block bytes) }
    {
        if !self.has_given_all() {
            let block = self.given;
            self.given += 1;
            return Piece::First { block, bytes };
        }
        let block = self.least;
        self.marks[block as usize] = false;
        self.least = next_mark(&self.marks, block + 1);
        Piece::Again { block, bytes }
    }

    /// The last piece, once no block is due.
    pub fn end(&self, front: u64) -> Piece
        requires whole { due_of self.now ≡ None }
        ensures piece { result ≡ Piece.End front }
        ensures whole { (volume copy : List ℕ) → length volume ≡ 4096 * length self.now.marks → IsCopy self.now volume copy → copy ≡ volume }
    {
        let _given = self.given;
        Piece::End { front }
    }
}

/// The first mark from a block on, or the number of blocks.
fn next_mark(marks: &[bool], from: u32) -> u32
    requires within { from ≤ length marks.now }
    requires few { length marks.now ≤ 65536 }
    ensures { result ≡ from + least_marked (drop from marks.now) }
{
    match first_mark(&marks[from as usize..]) {
        Some(behind) => from + behind as u32,
        None => marks.len() as u32,
    }
}

/// Where the first mark is.
fn first_mark(marks: &[bool]) -> Option<usize>
    ensures first { result ≡ position (λ marked. marked) marks.now }
    ensures within { IfSome result (λ block. block < length marks.now) }
{
    marks.iter().position(|marked| *marked)
}
