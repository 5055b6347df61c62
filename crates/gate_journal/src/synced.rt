ghost use Rattle.std.specs.Prelude.{◌≡◌, ◌≤◌};

use crate::batch::MAX_NUMBER;
use crate::slot::Slot;
use std::marker::Model;

/// The receipt of a batch that is on the disk: whose disk, and up to which write it holds the volume.
/// It is made only after the sync that follows an opened gate.
#[derive(Debug, Drop)]
pub struct Synced {
    slot: Slot,
    front: u64,
}

impl Model for Synced {
    ghost use Rattle.std.specs.Prelude.{◌≤◌};
    ghost use Rattle.gate_journal.specs.Receipt.{Receipt};
    ghost use Rattle.gate_journal.specs.declared.batch.TheConstants.{MAX_NUMBER};

    ghost Value = { Receipt };

    ghost view = { λ s. record { slot = s.slot; front = s.front } };

    ghost invariant = { λ s. s.front ≤ MAX_NUMBER };
}

impl Synced {
    /// Made behind the sync that follows an opened gate, and nowhere else.
    pub(crate) fn new(slot: Slot, front: u64) -> Synced
        requires { front ≤ MAX_NUMBER }
        ensures slot { result.slot ≡ slot }
        ensures front { result.front ≡ front }
    {
        Synced { slot, front }
    }

    /// The slot of the member whose disk it is.
    pub fn slot(&self) -> Slot
        ensures { result ≡ self.now.slot }
    {
        self.slot
    }

    /// The number of the last write that the disk holds, at most 2^63 - 1.
    pub fn front(&self) -> u64
        ensures front { result ≡ self.now.front }
        ensures limit { result ≤ MAX_NUMBER }
    {
        self.front
    }
}
