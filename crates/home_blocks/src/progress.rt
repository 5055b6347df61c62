ghost use Rattle.std.specs.Prelude.{◌≡◌, ◌<◌, ◌↔◌, IsSome, IfSome};

/// How far a disk is installed.
#[derive(Clone, Copy, Debug, PartialEq, Eq)]
pub enum Progress {
    /// The blocks of the volume are being written home, and the disk means nothing yet.
    Installing,
    /// The disk holds a volume.
    Whole,
}

impl Progress {
    ghost use Rattle.home_blocks.specs.Progress.{progress_number};

    /// Its number, 0 or 1.
    pub fn number(self) -> u8
        ensures { result ≡ progress_number self }
    {
        match self {
            Progress::Installing => 0,
            Progress::Whole => 1,
        }
    }

    /// The progress with this number, or `None` above 1.
    pub(crate) fn from_number(number: u8) -> Option<Progress>
        ensures valid { IsSome result ↔ (number < 2) }
        ensures value { IfSome result (λ progress. progress_number progress ≡ number) }
    {
        match number {
            0 => Some(Progress::Installing),
            1 => Some(Progress::Whole),
            _ => None,
        }
    }
}
