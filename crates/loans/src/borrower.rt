ghost use Rattle.std.specs.Prelude.{◌≡◌};

use crate::entry::Entry;
use crate::rings::Rings;
use rtrb::Consumer;
use std::marker::{Model, PhantomData};

/// The side that borrows.
#[derive(Drop)]
pub struct Borrower<T, J: Rings> {
    pub(crate) number: u8,
    pub(crate) end: Consumer<Entry<T>>,
    pub(crate) of: PhantomData<J>,
}

impl<T, J: Rings> Model for Borrower<T, J> {
    ghost use Rattle.std.specs.Prelude.{map};
    ghost use Rattle.rtrb.specs.Ring.{received};
    ghost use Rattle.loans.specs.Rings.{IsOf};
    ghost use Rattle.loans.specs.Sides.{Side};

    ghost Value = { Side T };

    ghost view = { λ s. record { number = s.number; loans = map (λ entry. entry.loan.value) (received s.end) } };

    ghost invariant = { λ s. IsOf (J.ring s.number) s.end.end };
}

impl<T, J: Rings> Borrower<T, J> {
    /// Its lender's number.
    pub fn number(&self) -> u8
        ensures { result ≡ self.now.number }
    {
        self.number
    }
}
