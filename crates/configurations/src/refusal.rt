ghost use Rattle.std.specs.Prelude.{◌≡◌};
ghost use Rattle.configurations.specs.Refusal.{of_pair};
ghost use Rattle.configurations.specs.declared.refusal.Refusal.TheVariants.{Memory};

use disk_model::DiskError;
use std::alloc::{AllocError, AllocFailed};
use thiserror::Error;

/// Why there is no such configuration, or why it wasn't recorded or read.
#[derive(Clone, Copy, Debug, PartialEq, Eq, Error)]
pub enum Refusal {
    /// Memory ran out: nothing was written.
    #[error("100 Memory")]
    Memory,
    /// A device call failed before: the store answers so until it is opened again, and leaves the disk alone.
    #[error("122 Broken")]
    Broken,
    /// The part of the disk holds no record: neither slot is open, or the newer open one encodes none.
    #[error("161 NoRecord")]
    NoRecord,
    /// The record's epoch isn't the last one's plus 1, or the pair has no number left: nothing changed.
    #[error("162 NotNext")]
    NotNext,
    /// A chain has none of these lists of members: none, more than eight, or a slot twice.
    #[error("163 BadMembers")]
    BadMembers,
    /// A device call failed in this call.
    #[error(transparent)]
    Device(DiskError),
}

impl Refusal {
    ghost use Rattle.configurations.specs.Refusal.{number_of};

    /// The refusal's number, but for a disk that has stopped, which has none.
    pub fn number(self) -> Option<u16>
        ensures { result ≡ number_of self }
    {
        match self {
            Refusal::Memory => Some(100),
            Refusal::Broken => Some(122),
            Refusal::NoRecord => Some(161),
            Refusal::NotNext => Some(162),
            Refusal::BadMembers => Some(163),
            Refusal::Device(error) => error.number(),
        }
    }
}

impl From<AllocError> for Refusal {
    ghost from_gives = { λ _ e. e ≡ Memory };

    fn from(_: AllocError) -> Refusal {
        Refusal::Memory
    }
}

impl<T: Drop> From<AllocFailed<T>> for Refusal {
    ghost from_gives = { λ _ e. e ≡ Memory };

    fn from(_: AllocFailed<T>) -> Refusal {
        Refusal::Memory
    }
}

impl From<gate_journal::Refusal> for Refusal {
    ghost from_gives = { λ refusal e. e ≡ of_pair refusal };

    fn from(refusal: gate_journal::Refusal) -> Refusal {
        match refusal {
            gate_journal::Refusal::Memory => Refusal::Memory,
            gate_journal::Refusal::Full => Refusal::NotNext,
            gate_journal::Refusal::Broken => Refusal::Broken,
            gate_journal::Refusal::Damaged => Refusal::NoRecord,
            gate_journal::Refusal::Device(error) => Refusal::Device(error),
        }
    }
}
