ghost use Rattle.std.specs.Prelude.{◌≡◌, ◌↔◌, IsTrue};
ghost use Rattle.gate_journal.specs.declared.refusal.Refusal.TheVariants.{Memory, Device};

use disk_model::DiskError;
use std::alloc::{AllocError, AllocFailed};
use thiserror::Error;

/// Why a call of the journal didn't do its work.
#[derive(Clone, Copy, Debug, PartialEq, Eq, Error)]
pub enum Refusal {
    /// Memory ran out: nothing was written.
    #[error("100 Memory")]
    Memory,
    /// The batch doesn't fit into what is left of the area: nothing changed.
    #[error("121 Full")]
    Full,
    /// A device call failed before: the journal answers so until it is opened again, and leaves the disk alone.
    #[error("122 Broken")]
    Broken,
    /// The area holds no batches: an open gate isn't followed by a batch.
    #[error("123 Damaged")]
    Damaged,
    /// A device call failed in this call.
    #[error(transparent)]
    Device(DiskError),
}

impl Refusal {
    ghost use Rattle.gate_journal.specs.Refusal.{IsOfDevice, number_of};

    /// Whether it is the device's.
    pub fn is_of_device(self) -> bool
        ensures { IsTrue result ↔ IsOfDevice self }
    {
        matches!(self, Refusal::Device(_))
    }

    /// The refusal's number, but for a disk that has stopped, which has none.
    pub fn number(self) -> Option<u16>
        ensures { result ≡ number_of self }
    {
        match self {
            Refusal::Memory => Some(100),
            Refusal::Full => Some(121),
            Refusal::Broken => Some(122),
            Refusal::Damaged => Some(123),
            Refusal::Device(error) => error.number(),
        }
    }
}

impl From<AllocError> for Refusal {
    ghost from_gives = { λ _ e. e ≡ Memory };

    fn from(_: AllocError) -> Refusal {
        Refusal::Memory
    }
}

impl<T: Drop> From<AllocFailed<T>> for Refusal {
    ghost from_gives = { λ _ e. e ≡ Memory };

    fn from(_: AllocFailed<T>) -> Refusal {
        Refusal::Memory
    }
}

impl From<DiskError> for Refusal {
    ghost from_gives = { λ error e. e ≡ Device error };

    fn from(error: DiskError) -> Refusal {
        Refusal::Device(error)
    }
}
