// What stands in a part of a disk, read and tested. Memory is taken for images alone that were read.
ghost use Rattle.std.specs.Prelude.{◌≡◌, ◌≢◌, ◌+◌, ◌*◌, ◌<◌, ◌≤◌, ◌++◌, [], ◌∷◌, ℕ, List, length, drop, All, IfOk, IfErr, IfSome, OnOk, IsErrOf, IsTrue, ◌↔◌};
ghost use Rattle.byteorder.specs.Endian.{big_bytes, big_from};
ghost use Rattle.disk_model.specs.Part.{inside};
ghost use Rattle.gate_journal.specs.Batch.{EncodesBatch, EncodesImage, InTurn, IsBatch, IsDamaged, IsWhole};
ghost use Rattle.gate_journal.specs.Reading.{HasNoBatch, HasNoImage, HasNoImages, HoldsAt, HoldsTo, IsFound};
ghost use Rattle.gate_journal.specs.Refusal.{HasCause, IsOfReading};
ghost use Rattle.gate_journal.specs.Runs.{OnlyReads};

use crate::batch::{
    BATCH_HEADER, Batch, IMAGE_RECORD, MARK_BIT, MARK_SIZE, MAX_BLOCKS, MAX_NUMBER, OPEN,
    are_images,
};
use crate::image::Image;
use crate::refusal::Refusal;
use byteorder::{BigEndian, ByteOrder};
use bytes::Bytes;
use disk_model::{Disk, Part};
use std::alloc::{AllocError, Global};

/// The bytes of an image with its block's number, which one call reads.
const RECORD_SIZE: usize = IMAGE_RECORD as usize;

/// How many marks stand in so many bytes.
const RECORD_MARKS: usize = RECORD_SIZE / MARK_SIZE as usize;

/// What a batch begins with, behind its gate.
#[derive(Clone, Copy)]
struct Header {
    front: u64,
    count: u32,
}

/// Reads some of a part's bytes, from `at` on.
pub(crate) fn read_array<D: Disk, const N: usize>(
    part: Part,
    disk: &mut D,
    at: u64,
) -> Result<[u8; N], Refusal>
    requires on_disk { part.start + part.len ≤ D.size disk.old }
    requires range { at + N ≤ part.len }
    ensures bytes { D.keeps_model → IfOk result (λ bytes. HoldsAt (inside part (D.gives disk.old)) at (at + N) bytes) }
    ensures reads { D.keeps_model → OnlyReads D.gives D.may_leave_now D.moment D.may_have_left_since disk.old disk.new }
    ensures size { D.size disk.new ≡ D.size disk.old }
    ensures told { IfErr result IsOfReading }
    ensures undamaged { IsErrOf result Refusal.Damaged → ⊥ }
    ensures cause { HasCause (D.failures disk.old) (D.failures disk.new) result }
    ensures most { D.most_failures disk.new ≤ D.most_failures disk.old }
{
    let mut bytes = [0; N];
    part.read(disk, at, &mut bytes)?;
    Ok(bytes)
}

/// Reads a gate.
fn read_gate<D: Disk>(part: Part, disk: &mut D, at: u64) -> Result<u8, Refusal>
    requires on_disk { part.start + part.len ≤ D.size disk.old }
    requires range { at + 1 ≤ part.len }
    ensures gate { D.keeps_model → IfOk result (λ gate. HoldsAt (inside part (D.gives disk.old)) at (at + 1) (gate ∷ [])) }
    ensures reads { D.keeps_model → OnlyReads D.gives D.may_leave_now D.moment D.may_have_left_since disk.old disk.new }
    ensures size { D.size disk.new ≡ D.size disk.old }
    ensures told { IfErr result IsOfReading }
    ensures undamaged { IsErrOf result Refusal.Damaged → ⊥ }
    ensures cause { HasCause (D.failures disk.old) (D.failures disk.new) result }
    ensures most { D.most_failures disk.new ≤ D.most_failures disk.old }
{
    let bytes: [u8; 1] = read_array(part, disk, at)?;
    Ok(bytes[0])
}

/// Reads a header.
fn read_header<D: Disk>(part: Part, disk: &mut D, at: u64) -> Result<Header, Refusal>
    requires on_disk { part.start + part.len ≤ D.size disk.old }
    requires range { at + 12 ≤ part.len }
    ensures header { D.keeps_model → IfOk result (λ h. HoldsAt (inside part (D.gives disk.old)) at (at + 12) (big_bytes 8 h.front ++ big_bytes 4 h.count)) }
    ensures reads { D.keeps_model → OnlyReads D.gives D.may_leave_now D.moment D.may_have_left_since disk.old disk.new }
    ensures size { D.size disk.new ≡ D.size disk.old }
    ensures told { IfErr result IsOfReading }
    ensures undamaged { IsErrOf result Refusal.Damaged → ⊥ }
    ensures cause { HasCause (D.failures disk.old) (D.failures disk.new) result }
    ensures most { D.most_failures disk.new ≤ D.most_failures disk.old }
{
    let bytes: [u8; 12] = read_array(part, disk, at)?;
    Ok(Header {
        front: BigEndian::read_u64(&bytes),
        count: BigEndian::read_u32(&bytes[8..]),
    })
}

/// Reads a block's number, with the bit of a mark.
fn read_number<D: Disk>(part: Part, disk: &mut D, at: u64) -> Result<u32, Refusal>
    requires on_disk { part.start + part.len ≤ D.size disk.old }
    requires range { at + MARK_SIZE ≤ part.len }
    ensures number { D.keeps_model → IfOk result (λ number. HoldsAt (inside part (D.gives disk.old)) at (at + 4) (big_bytes 4 number)) }
    ensures reads { D.keeps_model → OnlyReads D.gives D.may_leave_now D.moment D.may_have_left_since disk.old disk.new }
    ensures size { D.size disk.new ≡ D.size disk.old }
    ensures told { IfErr result IsOfReading }
    ensures undamaged { IsErrOf result Refusal.Damaged → ⊥ }
    ensures cause { HasCause (D.failures disk.old) (D.failures disk.new) result }
    ensures most { D.most_failures disk.new ≤ D.most_failures disk.old }
{
    let bytes: [u8; 4] = read_array(part, disk, at)?;
    Ok(BigEndian::read_u32(&bytes))
}

/// A block's number in a record's bytes, with the bit of a mark.
fn number_at(bytes: &[u8; RECORD_SIZE], at: usize) -> u32
    requires { at + MARK_SIZE ≤ IMAGE_RECORD }
    ensures number { HoldsAt bytes.now at (at + 4) (big_bytes 4 result) }
    ensures value { result ≡ big_from 0 4 (drop at bytes.now) }
{
    BigEndian::read_u32(&bytes[at..])
}

/// The marks that a record's bytes begin with, one after another: all of them, but at most so many.
fn marks_in(alloc: Global, bytes: &[u8; RECORD_SIZE], most: usize) -> Result<Vec<Image>, AllocError>
    ensures images { IfOk result (λ marks. HoldsTo (InTurn EncodesImage) bytes.now bytes.now 0 (MARK_SIZE * length marks.items) marks.items) }
    ensures count { IfOk result (λ marks. (length marks.items ≤ most) × (length marks.items ≤ RECORD_MARKS)) }
    ensures whole { IfOk result (λ marks. All IsWhole marks.items) }
    ensures all { IfOk result (λ marks. length marks.items < most → length marks.items < RECORD_MARKS
        → big_from 0 4 (drop (MARK_SIZE * length marks.items) bytes.now) < MARK_BIT) }
{
    let mut marks = Vec::new(alloc);
    for index in 0..most.min(RECORD_MARKS) {
        let number = number_at(bytes, 4 * index);
        if number < MARK_BIT {
            return Ok(marks);
        }
        marks.push(Image::zeros(number - MARK_BIT))?;
    }
    Ok(marks)
}

/// The images that a record's bytes begin with, and how many bytes they take: marks, one after another, at most so many, or one
/// whole image.
fn images_in(
    alloc: Global,
    bytes: &[u8; RECORD_SIZE],
    most: usize,
) -> Result<(Vec<Image>, u64), AllocError>
    requires { 0 < most }
    ensures images { IfOk result (λ r. HoldsTo (InTurn EncodesImage) bytes.now bytes.now 0 r.1 r.0.items) }
    ensures count { IfOk result (λ r. (0 < length r.0.items) × (length r.0.items ≤ most)) }
    ensures whole { IfOk result (λ r. All IsWhole r.0.items) }
    ensures within { IfOk result (λ r. r.1 ≤ IMAGE_RECORD) }
{
    let marks = marks_in(alloc, bytes, most)?;
    if !marks.is_empty() {
        let size = MARK_SIZE * marks.len() as u64;
        return Ok((marks, size));
    }
    let content = Bytes::copy_from_slice(alloc, &bytes[4..])?;
    let image = Image::new(number_at(bytes, 0), content);
    Ok((vec![in alloc; image]?, IMAGE_RECORD))
}

/// Reads the mark behind which there is no room for a whole image.
fn read_mark<D: Disk>(part: Part, disk: &mut D, at: u64) -> Result<(Image, u64), Refusal>
    requires on_disk { part.start + part.len ≤ D.size disk.old }
    requires range { at + MARK_SIZE + 1 ≤ part.len }
    requires small { part.len ≤ at + IMAGE_RECORD }
    ensures image { D.keeps_model → IfOk result (λ r. HoldsTo EncodesImage (drop at (inside part (D.gives disk.old))) (inside part (D.gives disk.old)) at r.1 r.0) }
    ensures whole { IfOk result (λ r. IsWhole r.0) }
    ensures within { IfOk result (λ r. (at < r.1) × (r.1 + 1 ≤ part.len)) }
    ensures damaged { D.keeps_model → IsErrOf result Refusal.Damaged → HasNoImage (drop at (inside part (D.gives disk.old))) }
    ensures reads { D.keeps_model → OnlyReads D.gives D.may_leave_now D.moment D.may_have_left_since disk.old disk.new }
    ensures size { D.size disk.new ≡ D.size disk.old }
    ensures told { IfErr result IsOfReading }
    ensures cause { HasCause (D.failures disk.old) (D.failures disk.new) result }
    ensures most { D.most_failures disk.new ≤ D.most_failures disk.old }
{
    let number = read_number(part, disk, at)?;
    if number < MARK_BIT {
        return Err(Refusal::Damaged);
    }
    Ok((Image::zeros(number - MARK_BIT), at + MARK_SIZE))
}

/// Reads a whole image, or marks, one after another, at most so many, and tells the place behind what it read. 123 `Damaged`:
/// there is no image with a byte behind it.
fn read_some<D: Disk>(
    alloc: Global,
    part: Part,
    disk: &mut D,
    at: u64,
    most: usize,
) -> Result<(Vec<Image>, u64), Refusal>
    requires on_disk { part.start + part.len ≤ D.size disk.old }
    requires range { at + 1 ≤ part.len }
    requires some { 0 < most }
    ensures images { D.keeps_model → IfOk result (λ r. HoldsTo (InTurn EncodesImage) (drop at (inside part (D.gives disk.old))) (inside part (D.gives disk.old)) at r.1 r.0.items) }
    ensures count { IfOk result (λ r. (0 < length r.0.items) × (length r.0.items ≤ most)) }
    ensures whole { IfOk result (λ r. All IsWhole r.0.items) }
    ensures within { IfOk result (λ r. (at ≤ r.1) × (r.1 + 1 ≤ part.len)) }
    ensures damaged { D.keeps_model → IsErrOf result Refusal.Damaged → HasNoImage (drop at (inside part (D.gives disk.old))) }
    ensures reads { D.keeps_model → OnlyReads D.gives D.may_leave_now D.moment D.may_have_left_since disk.old disk.new }
    ensures size { D.size disk.new ≡ D.size disk.old }
    ensures told { IfErr result IsOfReading }
    ensures cause { HasCause (D.failures disk.old) (D.failures disk.new) result }
    ensures most { D.most_failures disk.new ≤ D.most_failures disk.old }
{
    let room = part.len() - at;
    if room <= MARK_SIZE {
        return Err(Refusal::Damaged);
    }
    if room <= IMAGE_RECORD {
        let (mark, behind) = read_mark(part, disk, at)?;
        return Ok((vec![in alloc; mark]?, behind));
    }
    let record: [u8; RECORD_SIZE] = read_array(part, disk, at)?;
    let (images, size) = images_in(alloc, &record, most)?;
    Ok((images, at + size))
}

/// Reads so many images, one after another, and tells the place behind them. 123 `Damaged`: there are fewer with a byte behind
/// them.
fn read_images<D: Disk>(
    alloc: Global,
    part: Part,
    disk: &mut D,
    at: u64,
    count: u32,
) -> Result<(Vec<Image>, u64), Refusal>
    requires on_disk { part.start + part.len ≤ D.size disk.old }
    requires range { at + 1 ≤ part.len }
    ensures images { D.keeps_model → IfOk result (λ r. HoldsTo (InTurn EncodesImage) (drop at (inside part (D.gives disk.old))) (inside part (D.gives disk.old)) at r.1 r.0.items) }
    ensures count { IfOk result (λ r. length r.0.items ≡ count) }
    ensures whole { IfOk result (λ r. All IsWhole r.0.items) }
    ensures within { IfOk result (λ r. (at ≤ r.1) × (r.1 + 1 ≤ part.len)) }
    ensures damaged { D.keeps_model → IsErrOf result Refusal.Damaged → HasNoImages count (drop at (inside part (D.gives disk.old))) }
    ensures reads { D.keeps_model → OnlyReads D.gives D.may_leave_now D.moment D.may_have_left_since disk.old disk.new }
    ensures size { D.size disk.new ≡ D.size disk.old }
    ensures told { IfErr result IsOfReading }
    ensures cause { HasCause (D.failures disk.old) (D.failures disk.new) result }
    ensures most { D.most_failures disk.new ≤ D.most_failures disk.old }
{
    let mut images = Vec::new(alloc);
    let mut place = at;
    let mut wanted = count as usize;
    while wanted > 0 {
        let (mut more, behind) = read_some(alloc, part, disk, place, wanted)?;
        wanted -= more.len();
        images.append(&mut more)?;
        place = behind;
    }
    Ok((images, place))
}

impl Header {
    /// Whether it may be the next batch's.
    fn is_possible(self, blocks: u32, before: u64) -> bool
        ensures { IsTrue result ↔ ((before < self.front) × (self.front ≤ MAX_NUMBER) × (0 < self.count) × (self.count ≤ blocks)) }
    {
        self.front > before && self.front <= MAX_NUMBER && self.count > 0 && self.count <= blocks
    }
}

/// Reads the batch behind an open gate, and tells the place behind it. 123 `Damaged`: there is none that could stand behind one
/// of the front `before`.
fn read_body<D: Disk>(
    alloc: Global,
    part: Part,
    blocks: u32,
    disk: &mut D,
    at: u64,
    before: u64,
) -> Result<(Batch, u64), Refusal>
    requires on_disk { part.start + part.len ≤ D.size disk.old }
    requires range { at + 1 ≤ part.len }
    requires volume { blocks ≤ MAX_BLOCKS }
    ensures next { IfOk result (λ r. IsBatch blocks before r.0) }
    ensures batch { D.keeps_model → IfOk result (λ r. HoldsTo EncodesBatch (1 ∷ drop (at + 1) (inside part (D.gives disk.old))) (inside part (D.gives disk.old)) at r.1 r.0) }
    ensures within { IfOk result (λ r. (at < r.1) × (r.1 + 1 ≤ part.len)) }
    ensures damaged { D.keeps_model → IsErrOf result Refusal.Damaged → HasNoBatch blocks before (1 ∷ drop (at + 1) (inside part (D.gives disk.old))) }
    ensures reads { D.keeps_model → OnlyReads D.gives D.may_leave_now D.moment D.may_have_left_since disk.old disk.new }
    ensures size { D.size disk.new ≡ D.size disk.old }
    ensures told { IfErr result IsOfReading }
    ensures cause { HasCause (D.failures disk.old) (D.failures disk.new) result }
    ensures most { D.most_failures disk.new ≤ D.most_failures disk.old }
{
    if part.len() - at <= BATCH_HEADER {
        return Err(Refusal::Damaged);
    }
    let header = read_header(part, disk, at + 1)?;
    if !header.is_possible(blocks, before) {
        return Err(Refusal::Damaged);
    }
    let (images, end) = read_images(alloc, part, disk, at + BATCH_HEADER, header.count)?;
    if !are_images(blocks, &images) {
        return Err(Refusal::Damaged);
    }
    Ok((Batch::new(header.front, images), end))
}

/// Reads the batch at a place, and tells the place behind it; or reads the closed gate, which is `None`.
pub(crate) fn read_batch<D: Disk>(
    alloc: Global,
    part: Part,
    blocks: u32,
    disk: &mut D,
    at: u64,
    before: u64,
) -> Result<Option<(Batch, u64)>, Refusal>
    requires on_disk { part.start + part.len ≤ D.size disk.old }
    requires range { at + 1 ≤ part.len }
    requires volume { blocks ≤ MAX_BLOCKS }
    ensures next { IfOk result (λ found. IfSome found (λ r. IsBatch blocks before r.0)) }
    ensures found { D.keeps_model → IfOk result (IsFound blocks before (inside part (D.gives disk.old)) at) }
    ensures within { IfOk result (λ found. IfSome found (λ r. (at < r.1) × (r.1 + 1 ≤ part.len))) }
    ensures damaged { D.keeps_model → IsErrOf result Refusal.Damaged → IsDamaged blocks before (drop at (inside part (D.gives disk.old))) }
    ensures reads { D.keeps_model → OnlyReads D.gives D.may_leave_now D.moment D.may_have_left_since disk.old disk.new }
    ensures size { D.size disk.new ≡ D.size disk.old }
    ensures told { IfErr result IsOfReading }
    ensures cause { HasCause (D.failures disk.old) (D.failures disk.new) result }
    ensures most { D.most_failures disk.new ≤ D.most_failures disk.old }
{
    if read_gate(part, disk, at)? != OPEN {
        return Ok(None);
    }
    let found = read_body(alloc, part, blocks, disk, at, before)?;
    Ok(Some(found))
}
