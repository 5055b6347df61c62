ghost use Rattle.std.specs.Prelude.{◌≡◌, []};
ghost use Rattle.rtrb.specs.Ring.{IsPair, producer_capacity, received, sent};

use crate::borrower::Borrower;
use crate::entry::Entry;
use crate::lender::Lender;
use crate::rings::Rings;
use rtrb::{Consumer, Producer, RingBuffer};
use std::alloc::{AllocError, Global};
use std::marker::PhantomData;

/// The two sides, before the program has named them.
#[derive(Drop)]
pub struct Sides<T> {
    number: u8,
    lender: Producer<Entry<T>>,
    borrower: Consumer<Entry<T>>,
    ghost pair: { IsPair lender borrower },
    ghost room: { producer_capacity lender ≡ 1 },
    ghost none_lent: { sent lender ≡ [] },
    ghost none_borrowed: { received borrower ≡ [] },
}

impl<T> Sides<T> {
    ghost use Rattle.std.specs.Prelude.{IfOk};
    ghost use Rattle.loans.specs.Rings.{IsOf};

    /// The sides of the lender with this number, between which nothing was lent.
    pub fn new(alloc: Global, number: u8) -> Result<Sides<T>, AllocError>
        ensures { IfOk result (λ sides. sides.number ≡ number) }
    {
        let (lender, borrower) = RingBuffer::new(alloc, 1)?;
        Ok(Sides {
            number,
            lender,
            borrower,
        })
    }

    /// The sides, by the name that the program picked.
    pub fn named<J: Rings>(self) -> (Lender<T, J>, Borrower<T, J>)
        requires { IsOf (J.ring self.number) self.lender.end }
        ensures lender { result.0 ≡ record { number = self.number; loans = [] } }
        ensures borrower { result.1 ≡ record { number = self.number; loans = [] } }
    {
        let Sides {
            number,
            lender,
            borrower,
        } = self;
        (
            Lender {
                number,
                end: lender,
                of: PhantomData,
            },
            Borrower {
                number,
                end: borrower,
                of: PhantomData,
            },
        )
    }
}
