//! How fast pending blocks go home.
ghost use Rattle.std.specs.Prelude.{◌≡◌, ◌<◌, ◌↔◌, ◌≤◌, IsTrue};
ghost use Rattle.cluster.specs.Pace.{behind_commit, behind_run};

/// The bytes of an image's record in the journal.
const IMAGE_RECORD: u64 = 4_100;

/// How many pending blocks go home for each image, once half of the area is full: so nearly none is pending when all of it is.
const HOMES_AN_IMAGE: u64 = 2;

/// The most blocks that a volume has.
const MAX_BLOCKS: u64 = 65_536;

/// The pending blocks that go home at once, where as many are owed: the most that one device call writes under the member's lock.
pub(crate) const MANY_HOMES: u32 = 64;

/// How many pending blocks of a member are to go home before more is journaled.
#[derive(Clone, Copy, Debug)]
pub(crate) struct Pace {
    owed: u64,
    ghost few: { owed ≤ 131072 },
}

impl Pace {
    /// None.
    pub(crate) fn new() -> Pace
        ensures { result.owed ≡ 0 }
    {
        Pace { owed: 0 }
    }

    /// A commit took its images from so many bytes of the area that were left, and leaves so many.
    pub(crate) fn note_commit(&mut self, before: u64, left: u64, area: u64)
        ensures { self.new.owed ≡ behind_commit before left area self.old.owed }
    {
        if left < area / 2 {
            let images = (before.saturating_sub(left) / IMAGE_RECORD).min(MAX_BLOCKS);
            self.owed = (self.owed + HOMES_AN_IMAGE * images).min(HOMES_AN_IMAGE * MAX_BLOCKS);
        }
    }

    /// Whether as many are owed as go at once.
    pub(crate) fn is_due(&self) -> bool
        ensures { IsTrue result ↔ (MANY_HOMES ≤ self.now.owed) }
    {
        self.owed >= u64::from(MANY_HOMES)
    }

    /// So many went home; where none did, none is owed.
    pub(crate) fn note_run(&mut self, homes: u32)
        ensures { self.new.owed ≡ behind_run homes self.old.owed }
    {
        self.owed = if homes == 0 {
            0
        } else {
            self.owed.saturating_sub(u64::from(homes))
        };
    }
}
