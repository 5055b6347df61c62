//! Which writes one batch can take.
ghost use Rattle.std.specs.Prelude.{◌≡◌, ◌⊎◌, ℕ, ◌+◌, ◌*◌, ◌<◌, ◌≤◌, ◌&&◌, ◌||◌, false, not, nat_le, nat_lt, true, All, IfErr, IfNone, IfOk, IfSome, List, OnOk, fold, is_some, length, map};
ghost use Rattle.std.specs.BTreeSet.{contains};
ghost use Rattle.std.specs.Ordering.{nat_cmp};
ghost use Rattle.version_table.specs.Held.{applied_of, writes_upto};
ghost use Rattle.version_table.specs.Whole.{ends_whole};
ghost use Rattle.volume.specs.Writes.{Fits, block_of, patched, touches};
ghost use Rattle.disk_model.specs.Disk.{LeavesOnly};
ghost use Rattle.local_store.specs.About.{meaning_with};
ghost use Rattle.local_store.specs.Meaning.{Means};
ghost use Rattle.chain_steps.specs.Steps.{AreImagesOf, blanks};
ghost use Rattle.chain_core.specs.Node.{size_of};
ghost use Rattle.chain_core.specs.Reads.{AreUnread, HasOnlyRead};
ghost use Rattle.chain_core.specs.Groups.{IsBlank, IsGroupUpTo, IsTooMuch, IsTouchedList, MayTakeMore, TakeAtMost};

use crate::commit::Commit;
use crate::reading::{Unread, read_block_at};
use bytes::Bytes;
use gate_journal::Image;
use local_store::StoreLike;
use std::alloc::{AllocError, Global};
use std::collections::BTreeSet;
use version_table::Table;
use volume::{BLOCK_SIZE, Write};

/// The bytes that any image takes in a batch: its block's number.
const NUMBER_SIZE: u128 = 4;

/// The bytes that it takes more where it isn't of zeros.
const CONTENT_SIZE: u128 = 4_096;

/// The commit of the greatest group of writes up to the limit for which the area has room; none where it has none for the first.
/// Each kept write has bytes. The store isn't broken.
pub(crate) fn group_of<S: StoreLike>(
    alloc: Global,
    store: &mut S,
    table: &Table,
    limit: u64,
) -> Result<Option<Commit>, Unread>
    requires runs { (S.about store.old).broken ≡ false }
    requires small { (S.about store.old).geometry.blocks ≤ 65536 }
    requires inside { All (λ k. Fits (size_of (S.about store.old)) k.write) table.now.kept }
    requires bytes { All (λ k. 0 < length k.write.bytes) table.now.kept }
    requires kept { table.now.forgotten < limit }
    requires applied { limit ≤ applied_of table.now }
    ensures group { IfOk result (λ given. IfSome given (IsGroupUpTo (S.about store.old) table.now limit)) }
    ensures images { S.keeps_model → (volume : List ℕ) → S.keeps store.old volume → length volume ≡ size_of (S.about store.old)
        → IfOk result (λ given. IfSome given (λ commit. AreImagesOf volume (writes_upto table.now commit.front) commit.images)) }
    ensures none { IfOk result (λ given. IfNone given (IsTooMuch (S.about store.old) (writes_upto table.now (table.now.forgotten + 1)))) }
    ensures only_read { OnOk result (HasOnlyRead S.keeps_model S.about S.failures S.keeps S.moment S.may_have_left_since store.old store.new) }
    ensures any_moment { S.keeps_model → (volume : List ℕ) → S.keeps store.old volume → LeavesOnly S.moment S.may_have_left_since store.old store.new (Means (meaning_with (S.about store.old) volume)) }
    ensures unread { IfErr result (AreUnread S.about S.failures (HasOnlyRead S.keeps_model S.about S.failures S.keeps S.moment S.may_have_left_since store.old store.new) store.old store.new) }
{
    let left = store.left();
    let Ok(front) = group_end(alloc, table, limit, left) else {
        return Err(Unread::Memory);
    };
    if front == table.forgotten() {
        return Ok(None);
    }
    let Ok(blocks) = touched_blocks(alloc, table, front) else {
        return Err(Unread::Memory);
    };
    match images_of(alloc, store, table, &blocks, front) {
        Ok(images) => Ok(Some(Commit { front, images })),
        Err(unread) => Err(unread),
    }
}

/// The greatest front, up to the limit, such that the images of the writes above the forgotten front up to it take at most so many
/// bytes in a batch.
pub(crate) fn group_end(
    alloc: Global,
    table: &Table,
    limit: u64,
    left: u64,
) -> Result<u64, AllocError>
    requires kept { table.now.forgotten ≤ limit }
    requires applied { limit ≤ applied_of table.now }
    requires inside { All (λ k. Fits (4096 * 65536) k.write) table.now.kept }
    ensures from { IfOk result (λ end. table.now.forgotten ≤ end) }
    ensures upto { IfOk result (λ end. end ≤ limit) }
    ensures few { IfOk result (λ end. TakeAtMost left (writes_upto table.now end)) }
    ensures greatest { IfOk result (λ end. end < limit → MayTakeMore left (writes_upto table.now (end + 1))) }
{
    let mut touched = BTreeSet::new(alloc);
    let mut written = BTreeSet::new(alloc);
    let mut end = table.forgotten();
    while end < limit {
        let write = &table.get(end + 1).write;
        add_blocks(&mut touched, write)?;
        add_written(&mut written, write)?;
        let size = NUMBER_SIZE * touched.len() as u128 + CONTENT_SIZE * written.len() as u128;
        if size > u128::from(left) {
            return Ok(end);
        }
        end += 1;
    }
    Ok(end)
}

/// The blocks that the writes above the forgotten front up to this one touch, ascending.
pub(crate) fn touched_blocks(alloc: Global, table: &Table, end: u64) -> Result<Vec<u32>, AllocError>
    requires kept { table.now.forgotten ≤ end }
    requires applied { end ≤ applied_of table.now }
    requires inside { All (λ k. Fits (4096 * 65536) k.write) table.now.kept }
    ensures { IfOk result (λ blocks. IsTouchedList (writes_upto table.now end) blocks.items) }
{
    let mut blocks = BTreeSet::new(alloc);
    let mut done = table.forgotten();
    while done < end {
        add_blocks(&mut blocks, &table.get(done + 1).write)?;
        done += 1;
    }
    blocks.iter().copied().collect(alloc)
}

/// Adds the blocks that a write touches.
fn add_blocks(blocks: &mut BTreeSet<u32>, write: &Write) -> Result<(), AllocError>
    requires { Fits (4096 * 65536) write.now }
    ensures { OnOk result ((b : ℕ) → contains nat_cmp blocks.new b ≡ (contains nat_cmp blocks.old b || touches b write.now)) }
{
    let (first, past) = blocks_of(write);
    for block in first..past {
        blocks.insert(block)?;
    }
    Ok(())
}

/// Adds the blocks to which a write does more than make the whole block zeros.
fn add_written(blocks: &mut BTreeSet<u32>, write: &Write) -> Result<(), AllocError>
    requires { Fits (4096 * 65536) write.now }
    ensures { OnOk result ((b : ℕ) → contains nat_cmp blocks.new b ≡ (contains nat_cmp blocks.old b || (touches b write.now && not (blanks b write.now)))) }
{
    let (first, past) = blocks_of(write);
    for block in first..past {
        if !blanks(write, block) {
            blocks.insert(block)?;
        }
    }
    Ok(())
}

/// The blocks that a write touches: the first one, and the one behind the last.
fn blocks_of(write: &Write) -> (u32, u32)
    requires { Fits (4096 * 65536) write.now }
    ensures touched { (b : ℕ) → touches b write.now ≡ (nat_le result.0 b && nat_lt b result.1) }
    ensures order { result.0 ≤ result.1 }
    ensures some { 0 < length write.now.bytes ⊎ (result.0 ≡ result.1) }
{
    let len = write.len();
    if len == 0 {
        return (0, 0);
    }
    let first = write.offset() / BLOCK_SIZE;
    let last = (write.offset() + len - 1) / BLOCK_SIZE;
    (first as u32, last as u32 + 1)
}

/// Whether a write of some bytes makes the whole block zeros.
fn blanks(write: &Write, block: u32) -> bool
    requires inside { Fits (4096 * 65536) write.now }
    requires some { 0 < length write.now.bytes }
    ensures { result ≡ blanks block write.now }
{
    let first = u64::from(block) * BLOCK_SIZE;
    let has_whole = write.offset() <= first && first + BLOCK_SIZE <= write.offset() + write.len();
    has_whole && write.kept() == 0
}

/// The images of these blocks of the volume after `front` writes, between the durable front and the last applied write. The
/// store isn't broken. An image of a block that one write has whole shares that write's bytes, and needs no read.
pub(crate) fn images_of<S: StoreLike>(
    alloc: Global,
    store: &mut S,
    table: &Table,
    blocks: &[u32],
    front: u64,
) -> Result<Vec<Image>, Unread>
    requires runs { (S.about store.old).broken ≡ false }
    requires within { All (λ b. b < (S.about store.old).geometry.blocks) blocks.now }
    requires inside { All (λ k. Fits (size_of (S.about store.old)) k.write) table.now.kept }
    requires kept { table.now.forgotten ≤ front }
    requires applied { front ≤ applied_of table.now }
    ensures blocks { IfOk result (λ images. map (λ image. image.block) images.items ≡ blocks.now) }
    ensures blank { IfOk result (λ images. All (λ image. IsBlank (writes_upto table.now front) image) images.items) }
    ensures read { S.keeps_model → (volume : List ℕ) → S.keeps store.old volume → length volume ≡ size_of (S.about store.old)
        → IfOk result (λ images. All (λ image. image.bytes ≡ block_of (fold patched volume (writes_upto table.now front)) image.block) images.items) }
    ensures only_read { OnOk result (HasOnlyRead S.keeps_model S.about S.failures S.keeps S.moment S.may_have_left_since store.old store.new) }
    ensures any_moment { S.keeps_model → (volume : List ℕ) → S.keeps store.old volume → LeavesOnly S.moment S.may_have_left_since store.old store.new (Means (meaning_with (S.about store.old) volume)) }
    ensures unread { IfErr result (AreUnread S.about S.failures (HasOnlyRead S.keeps_model S.about S.failures S.keeps S.moment S.may_have_left_since store.old store.new) store.old store.new) }
{
    let Ok(mut images) = Vec::with_capacity(alloc, blocks.len()) else {
        return Err(Unread::Memory);
    };
    for block in blocks {
        match image_at(alloc, store, table, *block, front) {
            Ok(image) => images.push_reserved(image),
            Err(unread) => return Err(unread),
        }
    }
    Ok(images)
}

/// The image of a block of the volume after `front` writes.
fn image_at<S: StoreLike>(
    alloc: Global,
    store: &mut S,
    table: &Table,
    block: u32,
    front: u64,
) -> Result<Image, Unread>
    requires runs { (S.about store.old).broken ≡ false }
    requires block { block < (S.about store.old).geometry.blocks }
    requires inside { All (λ k. Fits (size_of (S.about store.old)) k.write) table.now.kept }
    requires kept { table.now.forgotten ≤ front }
    requires applied { front ≤ applied_of table.now }
    ensures block { IfOk result (λ image. image.block ≡ block) }
    ensures blank { IfOk result (IsBlank (writes_upto table.now front)) }
    ensures read { S.keeps_model → (volume : List ℕ) → S.keeps store.old volume → length volume ≡ size_of (S.about store.old)
        → IfOk result (λ image. image.bytes ≡ block_of (fold patched volume (writes_upto table.now front)) block) }
    ensures alone { ends_whole block (writes_upto table.now front) ≡ true → store.new ≡ store.old }
    ensures only_read { OnOk result (HasOnlyRead S.keeps_model S.about S.failures S.keeps S.moment S.may_have_left_since store.old store.new) }
    ensures any_moment { S.keeps_model → (volume : List ℕ) → S.keeps store.old volume → LeavesOnly S.moment S.may_have_left_since store.old store.new (Means (meaning_with (S.about store.old) volume)) }
    ensures unread { IfErr result (AreUnread S.about S.failures (HasOnlyRead S.keeps_model S.about S.failures S.keeps S.moment S.may_have_left_since store.old store.new) store.old store.new) }
{
    match image_of_writes(table, block, front) {
        Ok(Some(image)) => return Ok(image),
        Ok(None) => {}
        Err(_) => return Err(Unread::Memory),
    }
    let mut bytes = [0; BLOCK_SIZE as usize];
    if let Err(error) = read_block_at(store, table, block, front, &mut bytes) {
        return Err(Unread::Device(error));
    }
    match image_with(alloc, block, &bytes) {
        Ok(image) => Ok(image),
        Err(_) => Err(Unread::Memory),
    }
}

/// The image of a block after the writes up to a front, where the last of them that touches it has the whole block.
fn image_of_writes(table: &Table, block: u32, front: u64) -> Result<Option<Image>, AllocError>
    requires inside { All (λ k. Fits (4096 * 65536) k.write) table.now.kept }
    requires kept { table.now.forgotten ≤ front }
    requires applied { front ≤ applied_of table.now }
    ensures none { IfOk result (λ given. is_some given ≡ ends_whole block (writes_upto table.now front)) }
    ensures block { IfOk result (λ given. IfSome given (λ image. image.block ≡ block)) }
    ensures blank { IfOk result (λ given. IfSome given (IsBlank (writes_upto table.now front))) }
    ensures value { (volume : List ℕ) → All (Fits (length volume)) (writes_upto table.now front)
        → IfOk result (λ given. IfSome given (λ image. image.bytes ≡ block_of (fold patched volume (writes_upto table.now front)) block)) }
{
    let Some(write) = table.whole_at(block, front) else {
        return Ok(None);
    };
    match write.share_block(block)? {
        Some(bytes) => Ok(Some(Image::new(block, bytes))),
        None => Ok(Some(Image::zeros(block))),
    }
}

/// The image of a block with these bytes.
fn image_with(
    alloc: Global,
    block: u32,
    bytes: &[u8; BLOCK_SIZE as usize],
) -> Result<Image, AllocError>
    ensures { IfOk result (λ image. image ≡ record { block = block; bytes = bytes.now }) }
{
    let bytes = Bytes::copy_from_slice(alloc, bytes)?;
    Ok(Image::new(block, bytes))
}
