ghost use Rattle.std.specs.Prelude.{◌≡◌};

use thiserror::Error;

/// Why numbers are no geometry of a volume.
#[derive(Clone, Copy, Debug, PartialEq, Eq, Error)]
pub enum Refusal {
    /// The number of blocks isn't 1 to 65,536.
    #[error("111 BadBlocks")]
    BadBlocks,
    /// The largest payload isn't a power of two from 4,096 to 1,048,576.
    #[error("112 BadPayload")]
    BadPayload,
    /// A journal area is too small for one write of the largest payload.
    #[error("113 AreaTooSmall")]
    AreaTooSmall,
}

impl Refusal {
    ghost use Rattle.volume.specs.Refusal.{number_of};

    /// The refusal's number.
    pub fn number(self) -> u16
        ensures { result ≡ number_of self }
    {
        match self {
            Refusal::BadBlocks => 111,
            Refusal::BadPayload => 112,
            Refusal::AreaTooSmall => 113,
        }
    }
}
