//! A store whose log is always there.
ghost use Rattle.std.specs.Prelude.{◌≡◌, None};

use crate::store_like::StoreLike;

/// A store that never lends out its log, so its member may end a commit, or empty the area, at any time.
pub trait NeverLends: StoreLike {
    /// Its log is there.
    ghost never_lends: { (store : Self) → (Self.about store).lent ≡ None };
}
