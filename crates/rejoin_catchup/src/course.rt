//! The order of pieces.
ghost use Rattle.std.specs.Prelude.{◌≡◌, false};
ghost use Rattle.rejoin_catchup.specs.Course.{course_behind};

use crate::piece::Piece;

/// Which pieces a receiver takes next.
#[derive(Clone, Copy, Debug)]
pub(crate) struct Course {
    /// How many blocks the volume has.
    pub(crate) blocks: u32,
    /// The next block that is given for the first time, or the number of blocks.
    pub(crate) next: u32,
    /// The least block that may be given again.
    pub(crate) again: u32,
    /// Whether the end came.
    pub(crate) over: bool,
}

impl Course {
    /// Before the first piece.
    pub(crate) fn new(blocks: u32) -> Course
        ensures { result ≡ record { blocks = blocks; next = 0; again = 0; over = false } }
    {
        Course {
            blocks,
            next: 0,
            again: 0,
            over: false,
        }
    }

    /// Behind this piece. None where it isn't taken.
    pub(crate) fn behind(self, piece: &Piece) -> Option<Course>
        ensures { result ≡ course_behind self piece.now }
    {
        match piece {
            Piece::First { block, .. } => {
                if self.over || *block != self.next || *block >= self.blocks {
                    return None;
                }
                Some(Course {
                    next: *block + 1,
                    ..self
                })
            }
            Piece::Again { block, .. } => {
                if self.over
                    || self.next != self.blocks
                    || *block < self.again
                    || *block >= self.blocks
                {
                    return None;
                }
                Some(Course {
                    again: *block + 1,
                    ..self
                })
            }
            Piece::End { .. } => {
                if self.over || self.next != self.blocks {
                    return None;
                }
                Some(Course { over: true, ..self })
            }
        }
    }
}
