ghost use Rattle.std.specs.Prelude.{◌≡◌, Some};

use board::Seat;
use disk_model::HalvedDisk;
use loans::{Borrower, Lender};
use local_store::Loan;
use member::Agreed;

/// What a slot without a member keeps for its next one: the seat at the board, and the two sides of the loans.
#[derive(Drop)]
pub struct Spare<D: HalvedDisk, J: Agreed> {
    pub(crate) seat: Seat,
    pub(crate) lender: Lender<Loan<D::Log>, J>,
    pub(crate) borrower: Borrower<Loan<D::Log>, J>,
    ghost of_board: { J.board ≡ Some seat.board },
    ghost paired: { borrower.number ≡ lender.number },
}

impl<D: HalvedDisk, J: Agreed> Spare<D, J> {
    /// A seat, and the two sides of one number.
    pub fn new(
        seat: Seat,
        lender: Lender<Loan<D::Log>, J>,
        borrower: Borrower<Loan<D::Log>, J>,
    ) -> Spare<D, J>
        requires board { J.board ≡ Some seat.board }
        requires paired { borrower.number ≡ lender.number }
        ensures seat { result.seat ≡ seat }
        ensures lender { result.lender ≡ lender }
        ensures borrower { result.borrower ≡ borrower }
    {
        Spare {
            seat,
            lender,
            borrower,
        }
    }
}
