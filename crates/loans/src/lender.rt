ghost use Rattle.std.specs.Prelude.{◌≡◌, ◌++◌, ◌∷◌, ◌↔◌, [], IsTrue, Some};
ghost use Rattle.loans.specs.Sides.{last_of};

use crate::borrower::Borrower;
use crate::entry::Entry;
use crate::rings::Rings;
use rtrb::Producer;
use std::marker::{Model, PhantomData};
use std::snapshot::Snapshot;

/// The side that lends.
#[derive(Drop)]
pub struct Lender<T, J: Rings> {
    pub(crate) number: u8,
    pub(crate) end: Producer<Entry<T>>,
    pub(crate) of: PhantomData<J>,
}

impl<T, J: Rings> Model for Lender<T, J> {
    ghost use Rattle.std.specs.Prelude.{◌≡◌, map};
    ghost use Rattle.rtrb.specs.Ring.{producer_capacity, sent};
    ghost use Rattle.loans.specs.Rings.{IsOf};
    ghost use Rattle.loans.specs.Sides.{Side};

    ghost Value = { Side T };

    ghost view = { λ s. record { number = s.number; loans = map (λ entry. entry.loan.value) (sent s.end) } };

    ghost invariant = { λ s. IsOf (J.ring s.number) s.end.end × (producer_capacity s.end ≡ 1) };
}

impl<T, J: Rings> Lender<T, J> {
    /// Its number.
    pub fn number(&self) -> u8
        ensures { result ≡ self.now.number }
    {
        self.number
    }

    /// Both sides remember this loan as the last one, and all else alike too, whatever lay between them before.
    pub fn lend(&mut self, borrower: &mut Borrower<T, J>, loan: &T)
        requires { borrower.old.number ≡ self.old.number }
        ensures numbers { (self.new.number ≡ self.old.number) × (borrower.new.number ≡ borrower.old.number) }
        ensures lent { self.new.loans ≡ self.old.loans ++ loan.now ∷ [] }
        ensures last { last_of self.new.loans ≡ Some loan.now }
        ensures agree { borrower.new ≡ self.new }
    {
        self.end.slots_beside(&mut borrower.end);
        if borrower.end.slots_beside(&mut self.end) > 0 {
            drop(borrower.end.pop_known());
        }
        self.end.slots_beside(&mut borrower.end);
        self.end.push_reserved(Entry {
            loan: Snapshot::of(loan),
        });
        borrower.end.slots_beside(&mut self.end);
        drop(borrower.end.pop_known());
    }

    /// Whether both sides belong together, and the borrower remembers all that was lent.
    pub fn agrees(&mut self, borrower: &mut Borrower<T, J>) -> bool
        ensures lender { self.new ≡ self.old }
        ensures borrower { borrower.new ≡ borrower.old }
        ensures agree { IsTrue result ↔ (borrower.old ≡ self.old) }
    {
        self.number == borrower.number && borrower.end.slots_beside(&mut self.end) == 0
    }
}
