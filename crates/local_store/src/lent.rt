//! What a store keeps while its log is lent out.
ghost use Rattle.std.specs.Prelude.{◌≡◌};
ghost use Rattle.gate_journal.specs.Batch.{batch_size};

use gate_journal::Image;
use std::snapshot::Snapshot;

/// What is needed to take the log back, and what is committed then.
#[derive(Drop)]
pub(crate) struct Lent<P, L> {
    /// What the whole disk was until its log was lent.
    pub(crate) past: P,
    /// How many bytes the whole disk has.
    pub(crate) len: u64,
    /// The front of the batch that is being journaled.
    pub(crate) front: u64,
    /// Its images, which will be pending.
    pub(crate) staged: Vec<Image>,
    /// The bytes of the batch.
    pub(crate) size: u64,
    /// The log as it was lent; contracts alone see it.
    pub(crate) was: Snapshot<L>,
    ghost sized: { size ≡ batch_size staged.items },
}
