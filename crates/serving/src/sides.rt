//! The sides of the loans of all slots.
ghost use Rattle.std.specs.Prelude.{◌≡◌, ◌∷◌, [], IfOk};

use loans::Sides;
use std::alloc::{AllocError, Global};

/// The sides of each slot's loans.
#[derive(Drop)]
pub(crate) struct AllSides<T> {
    pub(crate) first: Sides<T>,
    pub(crate) second: Sides<T>,
    pub(crate) third: Sides<T>,
    pub(crate) fourth: Sides<T>,
    pub(crate) fifth: Sides<T>,
    pub(crate) sixth: Sides<T>,
    pub(crate) seventh: Sides<T>,
    pub(crate) eighth: Sides<T>,
    ghost one: { first.number ≡ 0 },
    ghost two: { second.number ≡ 1 },
    ghost three: { third.number ≡ 2 },
    ghost four: { fourth.number ≡ 3 },
    ghost five: { fifth.number ≡ 4 },
    ghost six: { sixth.number ≡ 5 },
    ghost seven: { seventh.number ≡ 6 },
    ghost eight: { eighth.number ≡ 7 },
}

impl<T> AllSides<T> {
    /// Between no two of which anything was lent.
    pub(crate) fn new(alloc: Global) -> Result<AllSides<T>, AllocError> {
        Ok(AllSides {
            first: Sides::new(alloc, 0)?,
            second: Sides::new(alloc, 1)?,
            third: Sides::new(alloc, 2)?,
            fourth: Sides::new(alloc, 3)?,
            fifth: Sides::new(alloc, 4)?,
            sixth: Sides::new(alloc, 5)?,
            seventh: Sides::new(alloc, 6)?,
            eighth: Sides::new(alloc, 7)?,
        })
    }

    /// All of them, in the slots' order.
    pub(crate) fn into_vec(self, alloc: Global) -> Result<Vec<Sides<T>>, AllocError>
        ensures { IfOk result (λ all. all.items ≡ self.first ∷ self.second ∷ self.third ∷ self.fourth ∷ self.fifth ∷ self.sixth ∷ self.seventh ∷ self.eighth ∷ []) }
    {
        let AllSides {
            first,
            second,
            third,
            fourth,
            fifth,
            sixth,
            seventh,
            eighth,
        } = self;
        let mut all = Vec::with_capacity(alloc, 8)?;
        all.push_reserved(first);
        all.push_reserved(second);
        all.push_reserved(third);
        all.push_reserved(fourth);
        all.push_reserved(fifth);
        all.push_reserved(sixth);
        all.push_reserved(seventh);
        all.push_reserved(eighth);
        Ok(all)
    }
}
