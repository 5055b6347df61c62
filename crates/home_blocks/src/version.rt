ghost use Rattle.std.specs.Prelude.{◌≡◌, ◌≢◌, IfNone, IfSome};

/// The version of a disk's encoding.
#[derive(Clone, Copy, Debug, PartialEq, Eq)]
pub enum Version {
    /// The first one. Its disks are opened, and migrated before anything else is written on them.
    One,
    /// The one that is written.
    Two,
}

impl Version {
    ghost use Rattle.home_blocks.specs.Version.{version_number};

    /// Its number, 1 or 2.
    pub fn number(self) -> u32
        ensures { result ≡ version_number self }
    {
        match self {
            Version::One => 1,
            Version::Two => 2,
        }
    }

    /// The version with this number, or `None` for all others.
    pub(crate) fn from_number(number: u32) -> Option<Version>
        ensures value { IfSome result (λ version. number ≡ version_number version) }
        ensures none { IfNone result ((version : Version) → number ≢ version_number version) }
    {
        match number {
            1 => Some(Version::One),
            2 => Some(Version::Two),
            _ => None,
        }
    }
}
