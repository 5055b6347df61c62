ghost use Rattle.std.specs.Prelude.{◌≡◌};

use board::Board;
use std::fmt;
use std::marker::Model;
use std::snapshot::Snapshot;

/// Which board's tokens are made: that which it was taken from. It has no bytes, and keeps no board alive.
#[derive(Drop)]
pub struct BoardName {
    of: Snapshot<Board>,
}

impl Model for BoardName {
    ghost use Rattle.board.specs.Seats.{BoardId};

    ghost Value = { BoardId };

    ghost view = { λ name. name.of.value };
}

impl BoardName {
    /// The name of this board.
    pub fn of(board: &Board) -> BoardName
        ensures { result ≡ board.now }
    {
        BoardName {
            of: Snapshot::of(board),
        }
    }
}

impl fmt::Debug for BoardName {
    fn fmt<W: fmt::Write>(&self, f: &mut fmt::Formatter<W>) -> fmt::Result {
        f.write_str("BoardName")
    }
}
