//! The rule of the board's words and views, and what each step tells its seat.
ghost use Rattle.board.specs.Rule.{Keeps};
ghost use Rattle.board.specs.Told.{first, sits, looks, raises, gauges, posts, crews, counts_in, counts_out};

use crate::view::{Opening, View};
use atomic_table::{Play, TableRule};

/// The board's rule, which holds between any two steps.
pub struct Law;

impl TableRule<(), View, Opening> for Law {
    ghost holds = { Keeps };

    ghost first = { first };
}

/// A new seat.
pub(crate) struct Sits;

impl Play<(), View> for Sits {
    ghost then = { sits };
}

/// A load of the front.
pub(crate) struct Looks;

impl Play<(), View> for Looks {
    ghost then = { looks };
}

/// The front raised.
pub(crate) struct Raises;

impl Play<(), View> for Raises {
    ghost then = { raises };
}

/// A load of a slot's gauge.
pub(crate) struct Gauges;

impl Play<(), View> for Gauges {
    ghost then = { gauges };
}

/// A slot's gauge raised.
pub(crate) struct Posts;

impl Play<(), View> for Posts {
    ghost then = { posts };
}

/// A load of the mask.
pub(crate) struct Crews;

impl Play<(), View> for Crews {
    ghost then = { crews };
}

/// A slot's bit set in the mask.
pub(crate) struct CountsIn;

impl Play<(), View> for CountsIn {
    ghost then = { counts_in };
}

/// A slot's bit cleared in the mask.
pub(crate) struct CountsOut;

impl Play<(), View> for CountsOut {
    ghost then = { counts_out };
}
