use std::marker::Brand;

/// Which ring each lender has, by the lender's number. Each call of a program picks them.
pub trait Rings {
    ghost use Rattle.std.specs.Prelude.{ℕ, Option};
    ghost use Rattle.loans.specs.Rings.{Ring};

    ghost ring: { ℕ → Option Ring };
}

impl Rings for Brand {
    ghost use Rattle.std.specs.Prelude.{None};

    ghost ring = { λ number. None };
}
