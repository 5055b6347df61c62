ghost use Rattle.std.specs.Prelude.{◌≡◌};
ghost use Rattle.manager.specs.declared.refusal.Refusal.TheVariants.{Memory};

use std::alloc::AllocError;
use thiserror::Error;

/// Why a change isn't begun, or a stop isn't noted. It changes nothing.
#[derive(Clone, Copy, Debug, PartialEq, Eq, Error)]
pub enum Refusal {
    /// Memory ran out.
    #[error("100 Memory")]
    Memory,
    /// No member of the chain has this slot.
    #[error("151 NotMember")]
    NotMember,
    /// No epoch is left for the next record.
    #[error("162 NotNext")]
    NotNext,
    /// No chain has a member at this slot.
    #[error("163 BadMembers")]
    BadMembers,
    /// A change is under way, or none that can be abandoned.
    #[error("171 OneAtATime")]
    OneAtATime,
    /// The chain has no other member.
    #[error("172 LastMember")]
    LastMember,
    /// The member runs.
    #[error("173 NotStopped")]
    NotStopped,
    /// A member of the chain has this slot.
    #[error("174 SlotInUse")]
    SlotInUse,
}

impl Refusal {
    ghost use Rattle.manager.specs.Refusal.{number_of};

    /// The refusal's number.
    pub fn number(self) -> u16
        ensures { result ≡ number_of self }
    {
        match self {
            Refusal::Memory => 100,
            Refusal::NotMember => 151,
            Refusal::NotNext => 162,
            Refusal::BadMembers => 163,
            Refusal::OneAtATime => 171,
            Refusal::LastMember => 172,
            Refusal::NotStopped => 173,
            Refusal::SlotInUse => 174,
        }
    }
}

impl From<AllocError> for Refusal {
    ghost from_gives = { λ _ e. e ≡ Memory };

    fn from(_: AllocError) -> Refusal {
        Refusal::Memory
    }
}
