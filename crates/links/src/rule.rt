//! The rule of a link, and what each step tells its end.
ghost use Rattle.std.specs.Prelude.{⊤, true, false, [], drop, length};
ghost use Rattle.links.specs.Rule.{known, nothing, InOrder, puts, takes, waits, compares};

use crate::view::View;
use crossbeam_channel::protocol::{Join, Lesson, Outcome, Protocol, Split};

/// What was put is what was taken, and then what the link holds.
pub struct Law;

impl<T> Protocol<T, View<T>> for Law {
    ghost holds = { λ items views. InOrder items views };

    ghost first = { known true true [] [] [] };
}

/// Two ends made of one pass, and put together again.
pub(crate) struct Ends;

impl<T> Split<View<T>> for Ends {
    ghost left = { λ v. known true false v.put [] [] };

    ghost right = { λ v. known false true [] v.taken (drop (length v.taken) v.put) };
}

impl<T> Join<View<T>> for Ends {
    ghost both = { λ v w. known true true v.put w.taken w.coming };

    ghost spent = { nothing };
}

/// An item put.
pub(crate) struct Puts;

impl<T> Outcome<T, View<T>> for Puts {
    ghost then = { λ v x w. puts v x w };
}

impl<T> Lesson<T, View<T>> for Puts {
    ghost fact = { λ v items. ⊤ };
}

/// An item taken, or none found.
pub(crate) struct Takes;

impl<T> Outcome<T, View<T>> for Takes {
    ghost then = { λ v x w. takes v x w };
}

impl<T> Lesson<T, View<T>> for Takes {
    ghost fact = { λ v items. waits v items };
}

/// Both ends seen together.
pub(crate) struct Compares;

impl<T> Lesson<T, View<T>> for Compares {
    ghost fact = { λ v items. compares v items };
}
