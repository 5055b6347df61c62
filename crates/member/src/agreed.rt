use loans::Rings;
use std::marker::Brand;

/// What the members of one cluster and their threads agree on. Each call of a program picks it.
pub trait Agreed: Rings {
    ghost use Rattle.std.specs.Prelude.{ℕ, Option};
    ghost use Rattle.board.specs.Seats.{BoardId};

    /// The board of their chain.
    ghost board: { Option BoardId };

    /// How many bytes the volume has.
    ghost size: { ℕ };
}

impl Agreed for Brand {
    ghost use Rattle.std.specs.Prelude.{None};

    ghost board = { None };

    ghost size = { 0 };
}
