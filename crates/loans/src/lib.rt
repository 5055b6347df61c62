//! Loans: what was lent, known alike to who lends and to who borrows.
//!
//! A lender lends something by value, and keeps in mind what it was; the borrower brings it back, perhaps through other threads and
//! other locks. That what comes back is what was lent is nothing that a type says, nor a comparison at run time. So the two sides share
//! a ring of their own, into which each loan is written once: whoever has both sides knows that they remember the same.
//!
//! For the layer above: `lend` has both sides remember a loan, and where `agree` says so, both remember the same one. Which sides
//! belong together is told by a number, and by a name that the program picks once (`Rings`).
#![tactic(auto)]

mod borrower;
mod entry;
mod lender;
mod rings;
mod sides;

pub use borrower::Borrower;
pub use entry::Entry;
pub use lender::Lender;
pub use rings::Rings;
pub use sides::Sides;
