ghost use Rattle.std.specs.Prelude.{◌≡◌};

use thiserror::Error;

/// Why no disk was chosen.
#[derive(Clone, Copy, Debug, PartialEq, Eq, Error)]
pub enum Refusal {
    /// No disk returned.
    #[error("191 NoneReturned")]
    NoneReturned,
    /// Disks returned, and none of them is of the recorded chain.
    #[error("192 NotInChain")]
    NotInChain,
}

impl Refusal {
    ghost use Rattle.recovery.specs.Refusal.{number_of};

    /// The refusal's number.
    pub fn number(self) -> u16
        ensures { result ≡ number_of self }
    {
        match self {
            Refusal::NoneReturned => 191,
            Refusal::NotInChain => 192,
        }
    }
}
