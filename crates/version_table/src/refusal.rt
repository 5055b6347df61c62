ghost use Rattle.std.specs.Prelude.{◌≡◌};
ghost use Rattle.version_table.specs.declared.refusal.Refusal.TheVariants.{Memory};

use std::alloc::{AllocError, AllocFailed};
use thiserror::Error;

/// Why a write wasn't applied. The table stays as it was.
#[derive(Clone, Copy, Debug, PartialEq, Eq, Error)]
pub enum Refusal {
    /// Memory ran out.
    #[error("100 Memory")]
    Memory,
    /// The table keeps as many writes, or as much data, as it may.
    #[error("141 TableFull")]
    TableFull,
}

impl Refusal {
    ghost use Rattle.version_table.specs.Refusal.{number_of};

    /// The refusal's number.
    pub fn number(self) -> u16
        ensures { result ≡ number_of self }
    {
        match self {
            Refusal::Memory => 100,
            Refusal::TableFull => 141,
        }
    }
}

impl From<AllocError> for Refusal {
    ghost from_gives = { λ _ e. e ≡ Memory };

    fn from(_: AllocError) -> Refusal {
        Refusal::Memory
    }
}

impl<T: Drop> From<AllocFailed<T>> for Refusal {
    ghost from_gives = { λ _ e. e ≡ Memory };

    fn from(_: AllocFailed<T>) -> Refusal {
        Refusal::Memory
    }
}
