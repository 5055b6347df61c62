ghost use Rattle.std.specs.Prelude.{◌≡◌, ◌↔◌, IsTrue};
ghost use Rattle.home_blocks.specs.declared.refusal.Refusal.TheVariants.{Device};

use disk_model::DiskError;
use thiserror::Error;

/// Why a call of a home didn't do its work.
#[derive(Clone, Copy, Debug, PartialEq, Eq, Error)]
pub enum Refusal {
    /// Memory ran out: nothing was written.
    #[error("100 Memory")]
    Memory,
    /// No number is left for another superblock: nothing changed.
    #[error("121 Full")]
    Full,
    /// A device call failed before: no superblock is stored until the home is opened again.
    #[error("122 Broken")]
    Broken,
    /// The disk holds no volume: no open superblock, another magic, a field out of its limits, or too few bytes.
    #[error("131 NotAVolume")]
    NotAVolume,
    /// The disk's superblock is one of another version.
    #[error("132 OtherVersion")]
    OtherVersion,
    /// A device call failed in this call.
    #[error(transparent)]
    Device(DiskError),
}

impl Refusal {
    ghost use Rattle.home_blocks.specs.Refusal.{IsOfDevice, number_of};

    /// Whether it is the device's.
    pub fn is_of_device(self) -> bool
        ensures { IsTrue result ↔ IsOfDevice self }
    {
        matches!(self, Refusal::Device(_))
    }

    /// The refusal's number, but for a disk that has stopped, which has none.
    pub fn number(self) -> Option<u16>
        ensures { result ≡ number_of self }
    {
        match self {
            Refusal::Memory => Some(100),
            Refusal::Full => Some(121),
            Refusal::Broken => Some(122),
            Refusal::NotAVolume => Some(131),
            Refusal::OtherVersion => Some(132),
            Refusal::Device(error) => error.number(),
        }
    }
}

impl From<gate_journal::Refusal> for Refusal {
    ghost use Rattle.std.specs.Prelude.{◌≡◌};
    ghost use Rattle.home_blocks.specs.Refusal.{refused_by};

    ghost from_gives = { λ refusal e. e ≡ refused_by refusal };

    fn from(refusal: gate_journal::Refusal) -> Refusal {
        match refusal {
            gate_journal::Refusal::Memory => Refusal::Memory,
            gate_journal::Refusal::Full => Refusal::Full,
            gate_journal::Refusal::Broken => Refusal::Broken,
            gate_journal::Refusal::Damaged => Refusal::NotAVolume,
            gate_journal::Refusal::Device(error) => Refusal::Device(error),
        }
    }
}
