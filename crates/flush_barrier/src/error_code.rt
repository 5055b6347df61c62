ghost use Rattle.std.specs.Prelude.{◌≡◌};
ghost use Rattle.flush_barrier.specs.ErrorCode.{number_of};

use thiserror::Error;

/// The errors that a volume request can be refused with. Their numbers are those of an NBD simple
/// reply (doc/proto.md, "Error values").
#[derive(Clone, Copy, Debug, PartialEq, Eq, Error)]
pub enum ErrorCode {
    /// The member that owes the reply can't carry the request out.
    #[error("5 EIO")]
    Io,
    /// There is no memory for it.
    #[error("12 ENOMEM")]
    NoMemory,
}

impl ErrorCode {
    const EIO: u32 = 5;

    const ENOMEM: u32 = 12;

    /// The number that a reply carries; never 0.
    pub fn number(self) -> u32
        ensures { result ≡ number_of self }
    {
        match self {
            ErrorCode::Io => ErrorCode::EIO,
            ErrorCode::NoMemory => ErrorCode::ENOMEM,
        }
    }
}
