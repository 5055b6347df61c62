ghost use Rattle.std.specs.Prelude.{◌≡◌, ◌≤◌};

use crate::fields::{put, read_fields, read_u32};
use crate::{Area, Progress, Refusal, Version};
use gate_journal::{MAX_NUMBER, Slot};
use std::marker::Model;
use volume::Geometry;

/// What a superblock begins with.
const MAGIC: [u8; 8] = *b"CRAQDISK";

/// What a member's disk says of itself.
#[derive(Clone, Copy, Debug, PartialEq, Eq)]
pub struct Superblock {
    version: Version,
    progress: Progress,
    slot: Slot,
    incarnation: u64,
    geometry: Geometry,
    front: u64,
    current: Area,
}

impl Model for Superblock {
    ghost use Rattle.std.specs.Prelude.{◌≤◌};
    ghost use Rattle.gate_journal.specs.declared.batch.TheConstants.{MAX_NUMBER};
    ghost use Rattle.home_blocks.specs.Superblock.{Superblock as Said};

    ghost Value = { Said };

    ghost view = { λ s. record { version = s.version; progress = s.progress; slot = s.slot; incarnation = s.incarnation; geometry = s.geometry; front = s.front; current = s.current } };

    ghost invariant = { λ s. (s.incarnation ≤ MAX_NUMBER) × (s.front ≤ MAX_NUMBER) };

    ghost inverse = { λ v. record { version = v.version; progress = v.progress; slot = v.slot; incarnation = v.incarnation; geometry = v.geometry; front = v.front; current = v.current } };
}

impl Superblock {
    ghost use Rattle.std.specs.Prelude.{◌≡◌, ◌≤◌, ◌↔◌, Ok, IfOk, IfErr, IsErrOf, length};
    ghost use Rattle.home_blocks.specs.Refusal.{IsOfReading};
    ghost use Rattle.home_blocks.specs.Superblock.{HasOtherVersion, IsNoSuperblock, IsEncoding, IsSuperblock, Superblock as Said, marked, superblock_encoding};
    ghost use Rattle.home_blocks.specs.declared.version.Version.TheVariants.{Two};

    /// The bytes of its encoding.
    pub const SIZE: usize = 43;

    /// The superblock that says this, of version 2. The incarnation and the front are at most 2^63 - 1.
    pub fn new(
        progress: Progress,
        slot: Slot,
        incarnation: u64,
        geometry: Geometry,
        front: u64,
        current: Area,
    ) -> Superblock
        requires incarnation { incarnation ≤ MAX_NUMBER }
        requires front { front ≤ MAX_NUMBER }
        ensures { result ≡ record { version = Two; progress = progress; slot = slot; incarnation = incarnation; geometry = geometry; front = front; current = current } }
    {
        Superblock {
            version: Version::Two,
            progress,
            slot,
            incarnation,
            geometry,
            front,
            current,
        }
    }

    /// The same, of this version.
    pub(crate) fn of_version(self, version: Version) -> Superblock
        ensures { result ≡ record self { version = version } }
    {
        Superblock { version, ..self }
    }

    /// The version of the disk's encoding.
    pub fn version(&self) -> Version
        ensures { result ≡ self.now.version }
    {
        self.version
    }

    /// How far the disk is installed.
    pub fn progress(&self) -> Progress
        ensures { result ≡ self.now.progress }
    {
        self.progress
    }

    /// The slot of the member whose disk it is.
    pub fn slot(&self) -> Slot
        ensures { result ≡ self.now.slot }
    {
        self.slot
    }

    /// Which of the disks that had the slot in turn it is, at most 2^63 - 1.
    pub fn incarnation(&self) -> u64
        ensures incarnation { result ≡ self.now.incarnation }
        ensures limit { result ≤ MAX_NUMBER }
    {
        self.incarnation
    }

    /// The sizes of the volume and of the disk's parts.
    pub fn geometry(&self) -> Geometry
        ensures { result ≡ self.now.geometry }
    {
        self.geometry
    }

    /// The number of the last write before the first batch of the journal, at most 2^63 - 1.
    pub fn front(&self) -> u64
        ensures front { result ≡ self.now.front }
        ensures limit { result ≤ MAX_NUMBER }
    {
        self.front
    }

    /// The area in which the journal stands.
    pub fn current(&self) -> Area
        ensures { result ≡ self.now.current }
    {
        self.current
    }

    /// The superblock of the whole disk at this front, of at most 2^63 - 1, and this area, of version 2.
    pub(crate) fn marked(&self, front: u64, area: Area) -> Superblock
        requires { front ≤ MAX_NUMBER }
        ensures { result ≡ marked self.now front area }
    {
        Superblock {
            version: Version::Two,
            progress: Progress::Whole,
            slot: self.slot,
            incarnation: self.incarnation,
            geometry: self.geometry,
            front,
            current: area,
        }
    }

    /// The bytes that record it.
    pub fn encoded(&self) -> [u8; 43]
        ensures encoding { result ≡ superblock_encoding self.now }
        ensures is { IsSuperblock self.now }
    {
        let mut bytes = [0; Superblock::SIZE];
        put(&mut bytes, 0, &MAGIC);
        put(&mut bytes, 8, &self.version.number().to_be_bytes());
        put(&mut bytes, 12, &[self.progress.number()]);
        put(&mut bytes, 13, &[self.slot.number()]);
        put(&mut bytes, 14, &self.incarnation.to_be_bytes());
        put(&mut bytes, 22, &self.geometry.blocks.to_be_bytes());
        put(&mut bytes, 26, &self.geometry.area.to_be_bytes());
        put(&mut bytes, 30, &self.geometry.max_payload.to_be_bytes());
        put(&mut bytes, 34, &self.front.to_be_bytes());
        put(&mut bytes, 42, &[self.current.number()]);
        bytes
    }

    /// The superblock that these bytes encode, of version 1 or 2: else 132 `OtherVersion` where the magic and the number of
    /// another version stand in front, and 131 `NotAVolume` for all others.
    pub fn read(bytes: &[u8]) -> Result<Superblock, Refusal>
        ensures found { IfOk result (IsEncoding bytes.now) }
        ensures exact { (sb : Said) → IsEncoding bytes.now sb → result ≡ Ok sb }
        ensures other_version { IsErrOf result Refusal.OtherVersion ↔ HasOtherVersion bytes.now }
        ensures not_a_volume { IsErrOf result Refusal.NotAVolume ↔ IsNoSuperblock bytes.now }
        ensures told { IfErr result IsOfReading }
    {
        let Some(behind) = bytes.strip_prefix(&MAGIC) else {
            return Err(Refusal::NotAVolume);
        };
        let Some((number, fields)) = read_u32(behind) else {
            return Err(Refusal::NotAVolume);
        };
        let Some(version) = Version::from_number(number) else {
            return Err(Refusal::OtherVersion);
        };
        read_fields(version, fields).ok_or(Refusal::NotAVolume)
    }
}
