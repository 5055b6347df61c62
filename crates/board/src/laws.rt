//! What the board's rule says of its answers, whatever the threads did.
ghost use Rattle.board.specs.Laws.{FloorsAreBacked};

/// A floor stands on receipts: where a seat found a front, a mask and a gauge of each slot that the mask counts, the front is
/// the opening one or a raised one, the mask stood on the board, and of each of those slots a receipt of at least the floor
/// was posted, or the board opened so.
pub fn floors_are_backed()
    ensures { FloorsAreBacked }
{}
