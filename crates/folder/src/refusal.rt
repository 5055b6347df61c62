ghost use Rattle.std.specs.Prelude.{◌≡◌};
ghost use Rattle.folder.specs.declared.refusal.Refusal.TheVariants.{Memory};

use std::alloc::{AllocError, AllocFailed};
use thiserror::Error;

/// Why a folder wasn't formatted, or a chain doesn't go on from it.
#[derive(Clone, Copy, Debug, PartialEq, Eq, Error)]
pub enum Refusal {
    /// Memory ran out.
    #[error("100 Memory")]
    Memory,
    /// A file can't be made, since it is there already, or can't be opened.
    #[error("104 FileFault")]
    FileFault,
    /// The numbers are no sizes of a volume.
    #[error(transparent)]
    Sizes(volume::Refusal),
    /// The configuration can't be read or recorded, or no chain has so many members.
    #[error(transparent)]
    Chain(configurations::Refusal),
    /// A member's disk can't be written or read.
    #[error(transparent)]
    Store(local_store::Refusal),
    /// No disk is one that the recorded chain goes on from.
    #[error(transparent)]
    Choice(recovery::Refusal),
    /// The recorded chain has other members beside the one that would go on. To record that one alone takes them out of the
    /// chain, and nobody asked for it.
    #[error("193 OthersRecorded")]
    OthersRecorded,
}

impl Refusal {
    ghost use Rattle.folder.specs.Refusal.{number_of};

    /// The refusal's number, but for a disk that has stopped, which has none.
    pub fn number(self) -> Option<u16>
        ensures { result ≡ number_of self }
    {
        match self {
            Refusal::Memory => Some(100),
            Refusal::FileFault => Some(104),
            Refusal::Sizes(refusal) => Some(refusal.number()),
            Refusal::Chain(refusal) => refusal.number(),
            Refusal::Store(refusal) => refusal.number(),
            Refusal::Choice(refusal) => Some(refusal.number()),
            Refusal::OthersRecorded => Some(193),
        }
    }
}

impl From<AllocError> for Refusal {
    ghost from_gives = { λ _ e. e ≡ Memory };

    fn from(_: AllocError) -> Refusal {
        Refusal::Memory
    }
}

impl<T: Drop> From<AllocFailed<T>> for Refusal {
    ghost from_gives = { λ _ e. e ≡ Memory };

    fn from(_: AllocFailed<T>) -> Refusal {
        Refusal::Memory
    }
}
