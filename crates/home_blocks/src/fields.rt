// The pieces of a superblock's encoding.
ghost use Rattle.std.specs.Prelude.{◌≡◌, ◌+◌, ◌^◌, ◌<◌, ◌≤◌, ◌++◌, length, take, IfSome, IfNone};
ghost use Rattle.byteorder.specs.Endian.{big_bytes};
ghost use Rattle.home_blocks.specs.Superblock.{IsSuperblock, Superblock as Said, fields_encoding};

use crate::{Area, Progress, Superblock, Version};
use gate_journal::{MAX_NUMBER, Slot};
use volume::Geometry;

/// Puts a field behind the first `at` bytes.
pub(crate) fn put(bytes: &mut [u8; 43], at: usize, field: &[u8])
    requires { at + length field.now ≤ 43 }
    ensures { take (at + length field.now) bytes.new ≡ take at bytes.old ++ field.now }
{
    bytes[at..at + field.len()].copy_from_slice(field);
}

/// The number in four bytes that bytes begin with, and what is behind it.
pub(crate) fn read_u32(bytes: &[u8]) -> Option<(u32, &[u8])>
    ensures read { IfSome result (λ p. bytes.now ≡ big_bytes 4 p.0 ++ p.1.now) }
    ensures fits { IfSome result (λ p. p.0 < 2 ^ 32) }
    ensures short { IfNone result (length bytes.now < 4) }
{
    let (number, behind) = bytes.split_first_chunk::<4>()?;
    Some((u32::from_be_bytes(*number), behind))
}

/// The number in eight bytes that bytes begin with, and what is behind it.
fn read_u64(bytes: &[u8]) -> Option<(u64, &[u8])>
    ensures read { IfSome result (λ p. bytes.now ≡ big_bytes 8 p.0 ++ p.1.now) }
    ensures short { IfNone result (length bytes.now < 8) }
{
    let (number, behind) = bytes.split_first_chunk::<8>()?;
    Some((u64::from_be_bytes(*number), behind))
}

/// What stands behind a superblock's header, as numbers.
#[derive(Clone, Copy)]
struct Fields {
    progress: u8,
    slot: u8,
    incarnation: u64,
    blocks: u32,
    area: u32,
    max_payload: u32,
    front: u64,
    current: u8,
}

impl Fields {
    ghost use Rattle.std.specs.Prelude.{◌≡◌, ◌≢◌, IfSome, IfNone, length};
    ghost use Rattle.home_blocks.specs.Fields.{IsOf, numbers_encoding};
    ghost use Rattle.home_blocks.specs.Superblock.{Superblock as Said};

    /// The numbers of bytes, where there are as many as there should be.
    fn read(bytes: &[u8]) -> Option<Fields>
        ensures read { IfSome result (λ fields. bytes.now ≡ numbers_encoding fields) }
        ensures none { IfNone result (length bytes.now ≢ 31) }
    {
        let (progress, behind) = bytes.split_first()?;
        let (slot, behind) = behind.split_first()?;
        let (incarnation, behind) = read_u64(behind)?;
        let (blocks, behind) = read_u32(behind)?;
        let (area, behind) = read_u32(behind)?;
        let (max_payload, behind) = read_u32(behind)?;
        let (front, behind) = read_u64(behind)?;
        let [current] = behind else {
            return None;
        };
        Some(Fields {
            progress: *progress,
            slot: *slot,
            incarnation,
            blocks,
            area,
            max_payload,
            front,
            current: *current,
        })
    }

    /// The superblock of these numbers, of this version, where each is one of its place.
    fn superblock(self, version: Version) -> Option<Superblock>
        ensures found { IfSome result (IsOf self) }
        ensures version { IfSome result (λ sb. sb.version ≡ version) }
        ensures none { IfNone result ((sb : Said) → IsOf self sb → ⊥) }
    {
        let progress = Progress::from_number(self.progress)?;
        let slot = Slot::new(self.slot)?;
        let current = Area::from_number(self.current)?;
        let geometry = Geometry::new(self.blocks, self.area, self.max_payload).ok()?;
        if self.incarnation > MAX_NUMBER || self.front > MAX_NUMBER {
            return None;
        }
        let superblock = Superblock::new(
            progress,
            slot,
            self.incarnation,
            geometry,
            self.front,
            current,
        );
        Some(superblock.of_version(version))
    }
}

/// The superblock of this version whose fields these bytes are.
pub(crate) fn read_fields(version: Version, bytes: &[u8]) -> Option<Superblock>
    ensures version { IfSome result (λ sb. sb.version ≡ version) }
    ensures found { IfSome result (λ sb. bytes.now ≡ fields_encoding sb) }
    ensures is { IfSome result IsSuperblock }
    ensures none { IfNone result ((sb : Said) → IsSuperblock sb → bytes.now ≡ fields_encoding sb → ⊥) }
{
    Fields::read(bytes)?.superblock(version)
}
