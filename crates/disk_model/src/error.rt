// Why a device call didn't do its work.
ghost use Rattle.std.specs.Prelude.{◌≡◌};
ghost use Rattle.disk_model.specs.declared.error.DiskError.TheVariants.{Memory};

use std::alloc::{AllocError, AllocFailed};
use thiserror::Error;

/// Why a device call didn't do its work.
#[derive(Clone, Copy, Debug, PartialEq, Eq, Error)]
pub enum DiskError {
    /// Memory ran out before the call began: nothing changed.
    #[error("100 Memory")]
    Memory,
    /// The device failed in a read.
    #[error("101 ReadFault")]
    ReadFault,
    /// The device failed in a write: a stop may now leave anything in the range.
    #[error("102 WriteFault")]
    WriteFault,
    /// The device failed in a sync: nothing is made durable.
    #[error("103 SyncFault")]
    SyncFault,
    /// The disk has stopped, in this call or before it. This is no refusal, and has no number.
    #[error("stopped")]
    Stopped,
}

impl DiskError {
    ghost use Rattle.disk_model.specs.Error.{number_of};

    /// The number of a refusal.
    pub fn number(self) -> Option<u16>
        ensures { result ≡ number_of self }
    {
        match self {
            DiskError::Memory => Some(100),
            DiskError::ReadFault => Some(101),
            DiskError::WriteFault => Some(102),
            DiskError::SyncFault => Some(103),
            DiskError::Stopped => None,
        }
    }
}

impl From<AllocError> for DiskError {
    ghost from_gives = { λ _ e. e ≡ Memory };

    fn from(_: AllocError) -> Self {
        DiskError::Memory
    }
}

impl<T: Drop> From<AllocFailed<T>> for DiskError {
    ghost from_gives = { λ _ e. e ≡ Memory };

    fn from(_: AllocFailed<T>) -> Self {
        DiskError::Memory
    }
}
