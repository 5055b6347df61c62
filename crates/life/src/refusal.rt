ghost use Rattle.std.specs.Prelude.{◌≡◌};
ghost use Rattle.life.specs.declared.refusal.Refusal.TheVariants.{Memory};

use thiserror::Error;

/// Why a world doesn't begin, or doesn't go on.
#[derive(Clone, Copy, Debug, PartialEq, Eq, Error)]
pub enum Refusal {
    /// Memory ran out.
    #[error("100 Memory")]
    Memory,
    /// No disk returned.
    #[error("191 NoneReturned")]
    NoneReturned,
    /// Disks returned, and none of them is that of a member of the recorded chain.
    #[error("192 NotInChain")]
    NotInChain,
    /// The store on the disk was refused.
    #[error(transparent)]
    Store(local_store::Refusal),
    /// The record on the configuration's disk was refused.
    #[error(transparent)]
    Config(configurations::Refusal),
}

impl From<std::alloc::AllocError> for Refusal {
    ghost from_gives = { λ _ e. e ≡ Memory };

    fn from(_: std::alloc::AllocError) -> Refusal {
        Refusal::Memory
    }
}
