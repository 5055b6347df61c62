ghost use Rattle.std.specs.Prelude.{◌≡◌};
ghost use Rattle.chain_core.specs.Refusal.{number_of};

use crate::out::Served;
use thiserror::Error;

/// Why a member didn't take a step.
#[derive(Clone, Copy, Debug, PartialEq, Eq, Error)]
pub enum Refusal {
    /// Memory ran out: nothing changed.
    #[error("100 Memory")]
    Memory,
    /// No batch of the next write fits into the journal area: nothing changed, and a checkpoint makes room.
    #[error("121 Full")]
    Full,
    /// The slot isn't in the chain: nothing changed.
    #[error("151 NotMember")]
    NotMember,
    /// The message is of a later epoch: it stays in its link, and nothing changed.
    #[error("152 Early")]
    Early,
    /// The table is full, or the greatest number is used: the message stays in its link, and nothing changed.
    #[error("153 Busy")]
    Busy,
    /// The member has stopped.
    #[error("154 Stopped")]
    Stopped,
}

impl Refusal {
    /// The refusal's number.
    pub fn number(self) -> u16
        ensures { result ≡ number_of self }
    {
        match self {
            Refusal::Memory => 100,
            Refusal::Full => 121,
            Refusal::NotMember => 151,
            Refusal::Early => 152,
            Refusal::Busy => 153,
            Refusal::Stopped => 154,
        }
    }
}

/// A request that a member didn't take: its token comes back. Where the member stopped in this call, these are the replies that
/// its other tokens got.
#[must_use]
#[derive(Debug)]
pub struct Refused<T> {
    pub token: T,
    pub refusal: Refusal,
    pub replies: Vec<Served>,
}
