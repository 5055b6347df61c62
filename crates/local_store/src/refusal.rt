ghost use Rattle.std.specs.Prelude.{◌≡◌, ◌↔◌, IsTrue};

use disk_model::DiskError;
use std::alloc::AllocError;
use thiserror::Error;

/// Why a call of a store didn't do its work.
#[derive(Clone, Copy, Debug, PartialEq, Eq, Error)]
pub enum Refusal {
    /// Memory ran out: nothing changed.
    #[error("100 Memory")]
    Memory,
    /// The batch doesn't fit into the journal area, or no number is left for another superblock: nothing changed.
    #[error("121 Full")]
    Full,
    /// A device call failed before: the store does nothing until it is opened again.
    #[error("122 Broken")]
    Broken,
    /// The disk holds no volume: no open superblock, another magic, a field out of its limits, too few bytes, or a damaged
    /// journal area.
    #[error("131 NotAVolume")]
    NotAVolume,
    /// The disk's superblock is one of another version.
    #[error("132 OtherVersion")]
    OtherVersion,
    /// The disk's installation was not finished.
    #[error("133 Unfinished")]
    Unfinished,
    /// The front isn't above the old one: nothing changed.
    #[error("134 Backwards")]
    Backwards,
    /// A device call failed in this call.
    #[error(transparent)]
    Device(DiskError),
}

impl Refusal {
    ghost use Rattle.local_store.specs.Refusal.{IsOfDevice, number_of};

    /// Whether it is the device's.
    pub fn is_of_device(self) -> bool
        ensures { IsTrue result ↔ IsOfDevice self }
    {
        matches!(self, Refusal::Device(_))
    }

    /// The refusal's number, but for a disk that has stopped, which has none.
    pub fn number(self) -> Option<u16>
        ensures { result ≡ number_of self }
    {
        match self {
            Refusal::Memory => Some(100),
            Refusal::Full => Some(121),
            Refusal::Broken => Some(122),
            Refusal::NotAVolume => Some(131),
            Refusal::OtherVersion => Some(132),
            Refusal::Unfinished => Some(133),
            Refusal::Backwards => Some(134),
            Refusal::Device(error) => error.number(),
        }
    }
}

impl From<AllocError> for Refusal {
    ghost use Rattle.std.specs.Prelude.{◌≡◌};
    ghost use Rattle.local_store.specs.declared.refusal.Refusal.TheVariants.{Memory};

    ghost from_gives = { λ _ e. e ≡ Memory };

    fn from(_error: AllocError) -> Refusal {
        Refusal::Memory
    }
}

impl From<DiskError> for Refusal {
    ghost use Rattle.std.specs.Prelude.{◌≡◌};
    ghost use Rattle.local_store.specs.declared.refusal.Refusal.TheVariants.{Device};

    ghost from_gives = { λ error e. e ≡ Device error };

    fn from(error: DiskError) -> Refusal {
        Refusal::Device(error)
    }
}

impl From<gate_journal::Refusal> for Refusal {
    ghost use Rattle.std.specs.Prelude.{◌≡◌};
    ghost use Rattle.local_store.specs.Refusal.{by_journal};

    ghost from_gives = { λ refusal e. e ≡ by_journal refusal };

    fn from(refusal: gate_journal::Refusal) -> Refusal {
        match refusal {
            gate_journal::Refusal::Memory => Refusal::Memory,
            gate_journal::Refusal::Full => Refusal::Full,
            gate_journal::Refusal::Broken => Refusal::Broken,
            gate_journal::Refusal::Damaged => Refusal::NotAVolume,
            gate_journal::Refusal::Device(error) => Refusal::Device(error),
        }
    }
}

impl From<home_blocks::Refusal> for Refusal {
    ghost use Rattle.std.specs.Prelude.{◌≡◌};
    ghost use Rattle.local_store.specs.Refusal.{by_home};

    ghost from_gives = { λ refusal e. e ≡ by_home refusal };

    fn from(refusal: home_blocks::Refusal) -> Refusal {
        match refusal {
            home_blocks::Refusal::Memory => Refusal::Memory,
            home_blocks::Refusal::Full => Refusal::Full,
            home_blocks::Refusal::Broken => Refusal::Broken,
            home_blocks::Refusal::NotAVolume => Refusal::NotAVolume,
            home_blocks::Refusal::OtherVersion => Refusal::OtherVersion,
            home_blocks::Refusal::Device(error) => Refusal::Device(error),
        }
    }
}
