ghost use Rattle.std.specs.Prelude.{◌≡◌, [], None};

use chain_steps::Sent;
use std::collections::VecDeque;

/// What a member has sent by one way and is being carried to where it goes, the oldest first.
#[derive(Drop)]
pub struct Carried {
    // the message that is delivered next; none only where nothing is left
    pub(crate) next: Option<Sent>,
    // the others of its bundle, the first of them last
    pub(crate) rest: Vec<Sent>,
    pub(crate) bundles: VecDeque<Vec<Sent>>,
    ghost rest_none: { next ≡ None → rest.items ≡ [] },
    ghost bundles_none: { next ≡ None → bundles.items ≡ [] },
}
