use cluster::Witness;
use gate_journal::Slot;

/// Why a record wasn't written three times in turn.
#[derive(Clone, Copy, Debug, PartialEq, Eq)]
pub struct Unrecorded {
    /// What the configuration's store refuses.
    pub refusal: configurations::Refusal,
}

/// Where a chain's manager gets the disks of members that come back, and whom it tells what it did.
pub trait Host<D>: Witness<D> {
    /// A slot that is to join, and of which the manager wasn't told yet.
    fn wanted(&mut self) -> Option<Slot>;

    /// The disk of a slot, which may hold anything. `None` where it can't be had: the slot isn't asked for any more.
    fn disk(&mut self, slot: Slot) -> Option<D>;

    /// The chain goes on without the member at this slot.
    fn note_removal(&mut self, slot: Slot);

    /// The disk of this slot has the volume, and is a member's.
    fn note_joining(&mut self, slot: Slot);

    /// The disk of this slot isn't given the volume, since it is a member's.
    fn note_member(&mut self, slot: Slot);

    /// The disk of this slot isn't given the volume; whether it is tried again.
    fn note_failure(&mut self, slot: Slot, again: bool);

    /// No member of the chain runs any more. It is told once.
    fn note_end(&mut self);

    /// The next record can't be written: all members are stopped.
    fn note_unrecorded(&mut self, unrecorded: Unrecorded);
}
