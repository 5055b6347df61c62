ghost use Rattle.std.specs.Prelude.{◌≡◌};

use thiserror::Error;

/// Why a receiver didn't take a piece.
#[derive(Clone, Copy, Debug, PartialEq, Eq, Error)]
pub enum Refusal {
    /// The piece doesn't follow those before it: nothing changed.
    #[error("181 OutOfOrder")]
    OutOfOrder,
    /// The installation refused it.
    #[error(transparent)]
    Store(local_store::Refusal),
}

impl Refusal {
    ghost use Rattle.rejoin_catchup.specs.Refusal.{number_of};

    /// The refusal's number, but for a disk that has stopped, which has none.
    pub fn number(self) -> Option<u16>
        ensures { result ≡ number_of self }
    {
        match self {
            Refusal::OutOfOrder => Some(181),
            Refusal::Store(refusal) => refusal.number(),
        }
    }
}
