ghost use Rattle.std.specs.Prelude.{◌≡◌, ◌+◌, ◌*◌, ◌≤◌, map, All};
ghost use Rattle.std.specs.List.Sorted.{IsStrictlyIncreasing};
ghost use Rattle.std.specs.Iterator.{YieldsFirst, item_count};

use crate::geometry::BLOCK_SIZE;
use std::marker::Model;

/// What a range of the volume's bytes has in one block.
#[derive(Clone, Copy, Debug, PartialEq, Eq)]
pub struct Piece {
    /// The block's number.
    pub block: u32,
    /// Where the piece begins in the block, 0 to 4,095.
    pub start: usize,
    /// Where the piece begins in the range.
    pub from: usize,
    /// The bytes of the piece, 1 to 4,096.
    pub len: usize,
}

/// The pieces of a range that are still to come.
#[derive(Debug, Drop)]
pub struct PieceIter {
    offset: u64,
    end: u64,
    block: u32,
    left: u32,
}

impl Model for PieceIter {
    ghost use Rattle.std.specs.Prelude.{List};
    ghost use Rattle.volume.specs.declared.piece.Piece.{Piece};

    ghost Value = { List Piece };

    ghost use Rattle.volume.specs.Cursor.{pieces_left, IsCursor};

    ghost view = { pieces_left };

    ghost invariant = { IsCursor };
}

impl Iterator for PieceIter {
    type Item = Piece;

    ghost next_gives = { YieldsFirst (λ pieces. pieces) };

    ghost remaining = { item_count (λ pieces. pieces) };

    fn next(&mut self) -> Option<Piece> {
        if self.left == 0 {
            return None;
        }
        let first = u64::from(self.block) * BLOCK_SIZE;
        let start = first.max(self.offset);
        let end = (first + BLOCK_SIZE).min(self.end);
        let piece = Piece {
            block: self.block,
            start: (start - first) as usize,
            from: (start - self.offset) as usize,
            len: (end - start) as usize,
        };
        self.block += 1;
        self.left -= 1;
        Some(piece)
    }
}

ghost use Rattle.volume.specs.Pieces.{pieces_of, piece_bytes, IsPieceOf, GoInTurn};

/// The pieces of the `len` bytes from `offset` on: one in each block that they touch, blocks ascending, and none for
/// no bytes. The range lies within the largest volume.
pub fn pieces(offset: u64, len: u32) -> PieceIter
    requires { offset + len ≤ 4096 * 65536 }
    ensures pieces { result ≡ pieces_of offset len }
    ensures each { All (IsPieceOf offset len) result }
    ensures ascending { IsStrictlyIncreasing (map (λ piece. piece.block) result) }
    ensures in_turn { GoInTurn result }
    ensures whole { piece_bytes result ≡ len }
{
    first_piece(offset, len)
}

fn first_piece(offset: u64, len: u32) -> PieceIter
    requires { offset + len ≤ 4096 * 65536 }
    ensures { result ≡ pieces_of offset len }
{
    let end = offset + u64::from(len);
    let block = offset / BLOCK_SIZE;
    let past = if len == 0 {
        block
    } else {
        (end - 1) / BLOCK_SIZE + 1
    };
    PieceIter {
        offset,
        end,
        block: block as u32,
        left: (past - block) as u32,
    }
}
