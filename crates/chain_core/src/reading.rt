//! Ranges of the volume, from the store and the table.
ghost use Rattle.std.specs.Prelude.{◌≡◌, ◌+◌, ◌*◌, ◌<◌, ◌≤◌, ◌↔◌, IsTrue, [], List, ℕ, false, All, IfErr, IfOk, OnOk, fold, length, map, vec_capacity};
ghost use Rattle.disk_model.specs.Disk.{LeavesOnly};
ghost use Rattle.local_store.specs.About.{meaning_with};
ghost use Rattle.local_store.specs.Meaning.{Means};
ghost use Rattle.version_table.specs.Held.{IsClean, applied_of, writes_upto};
ghost use Rattle.volume.specs.Writes.{Fits, block_of, patched};
ghost use Rattle.chain_steps.specs.Steps.{range_of};
ghost use Rattle.chain_core.specs.Node.{size_of};
ghost use Rattle.chain_core.specs.Reads.{AreBlocks, AreUnread, HasFailed, HasOnlyRead, IsBaseOf, IsUnread};

use disk_model::DiskError;
use local_store::{Refusal, StoreLike};
use std::alloc::Global;
use version_table::Table;
use volume::{BLOCK_SIZE, pieces};

/// Why a range wasn't read.
#[derive(Clone, Copy)]
pub(crate) enum Unread {
    /// Memory ran out: the store is as it was.
    Memory,
    /// The device refused a read: the store is broken.
    Device(DiskError),
}

/// The `len` bytes from `offset` on of the volume after `front` writes, between the durable front and the last applied
/// write. The store isn't broken. The payload takes one allocation, before the first read.
pub(crate) fn read_range<S: StoreLike>(
    alloc: Global,
    store: &mut S,
    table: &Table,
    offset: u64,
    len: u32,
    front: u64,
) -> Result<Vec<u8>, Unread>
    requires runs { (S.about store.old).broken ≡ false }
    requires few { (S.about store.old).geometry.blocks ≤ 65536 }
    requires within { offset + len ≤ size_of (S.about store.old) }
    requires inside { All (λ k. Fits (size_of (S.about store.old)) k.write) table.now.kept }
    requires kept { table.now.forgotten ≤ front }
    requires applied { front ≤ applied_of table.now }
    ensures read { S.keeps_model → (volume : List ℕ) → S.keeps store.old volume → length volume ≡ size_of (S.about store.old)
        → IfOk result (λ bytes. bytes.items ≡ range_of (fold patched volume (writes_upto table.now front)) offset len) }
    ensures kept { S.keeps_model → (volume : List ℕ) → S.keeps store.old volume → OnOk result (S.keeps store.new volume) }
    ensures any_moment { S.keeps_model → (volume : List ℕ) → S.keeps store.old volume → LeavesOnly S.moment S.may_have_left_since store.old store.new (Means (meaning_with (S.about store.old) volume)) }
    ensures about { OnOk result (S.about store.new ≡ S.about store.old) }
    ensures failures { OnOk result (S.failures store.new ≡ S.failures store.old) }
    ensures unread { IfErr result (IsUnread S.about S.failures store.old store.new) }
{
    let Ok(mut bytes) = Vec::with_capacity(alloc, len as usize) else {
        return Err(Unread::Memory);
    };
    match read_into(store, table, offset, len, front, &mut bytes) {
        Ok(()) => Ok(bytes),
        Err(error) => Err(Unread::Device(error)),
    }
}

/// Reads such a range into an empty list that has room for it.
fn read_into<S: StoreLike>(
    store: &mut S,
    table: &Table,
    offset: u64,
    len: u32,
    front: u64,
    bytes: &mut Vec<u8>,
) -> Result<(), DiskError>
    requires runs { (S.about store.old).broken ≡ false }
    requires few { (S.about store.old).geometry.blocks ≤ 65536 }
    requires within { offset + len ≤ size_of (S.about store.old) }
    requires inside { All (λ k. Fits (size_of (S.about store.old)) k.write) table.now.kept }
    requires kept { table.now.forgotten ≤ front }
    requires applied { front ≤ applied_of table.now }
    requires empty { bytes.old.items ≡ [] }
    requires room { len ≤ vec_capacity bytes.old }
    ensures read { S.keeps_model → (volume : List ℕ) → S.keeps store.old volume → length volume ≡ size_of (S.about store.old)
        → OnOk result (bytes.new.items ≡ range_of (fold patched volume (writes_upto table.now front)) offset len) }
    ensures kept { S.keeps_model → (volume : List ℕ) → S.keeps store.old volume → OnOk result (S.keeps store.new volume) }
    ensures any_moment { S.keeps_model → (volume : List ℕ) → S.keeps store.old volume → LeavesOnly S.moment S.may_have_left_since store.old store.new (Means (meaning_with (S.about store.old) volume)) }
    ensures about { OnOk result (S.about store.new ≡ S.about store.old) }
    ensures failures { OnOk result (S.failures store.new ≡ S.failures store.old) }
    ensures failed { IfErr result (HasFailed S.about S.failures store.old store.new) }
{
    if is_run(table, offset, len) {
        read_run(store, offset, len, bytes)
    } else {
        read_pieces(store, table, offset, len, front, bytes)
    }
}

/// Whether the range is of whole blocks, at least two.
fn are_blocks(offset: u64, len: u32) -> bool
    ensures { IsTrue result ↔ AreBlocks offset len }
{
    let len = u64::from(len);
    offset % BLOCK_SIZE == 0 && len % BLOCK_SIZE == 0 && len >= 2 * BLOCK_SIZE
}

/// Whether it is, and no kept write touches them: then the store alone has its bytes.
fn is_run(table: &Table, offset: u64, len: u32) -> bool
    requires inside { offset + len ≤ 4096 * 65536 }
    ensures { IsTrue result ↔ (AreBlocks offset len × IsClean table.now offset len table.now.forgotten) }
{
    are_blocks(offset, len) && table.is_clean(offset, len, table.forgotten())
}

/// Reads whole blocks of the store into an empty list that has room for them, by one call.
fn read_run<S: StoreLike>(
    store: &mut S,
    offset: u64,
    len: u32,
    bytes: &mut Vec<u8>,
) -> Result<(), DiskError>
    requires runs { (S.about store.old).broken ≡ false }
    requires few { (S.about store.old).geometry.blocks ≤ 65536 }
    requires within { offset + len ≤ size_of (S.about store.old) }
    requires blocks { AreBlocks offset len }
    requires empty { bytes.old.items ≡ [] }
    requires room { len ≤ vec_capacity bytes.old }
    ensures read { S.keeps_model → (volume : List ℕ) → S.keeps store.old volume → OnOk result (bytes.new.items ≡ range_of volume offset len) }
    ensures kept { S.keeps_model → (volume : List ℕ) → S.keeps store.old volume → OnOk result (S.keeps store.new volume) }
    ensures any_moment { S.keeps_model → (volume : List ℕ) → S.keeps store.old volume → LeavesOnly S.moment S.may_have_left_since store.old store.new (Means (meaning_with (S.about store.old) volume)) }
    ensures about { OnOk result (S.about store.new ≡ S.about store.old) }
    ensures failures { OnOk result (S.failures store.new ≡ S.failures store.old) }
    ensures failed { IfErr result (HasFailed S.about S.failures store.old store.new) }
{
    let Ok(()) = bytes.resize(len as usize, 0) else {
        unreachable!();
    };
    let first = (offset / BLOCK_SIZE) as u32;
    let count = len / BLOCK_SIZE as u32;
    match store.read_blocks(first, count, bytes) {
        Ok(()) => Ok(()),
        Err(Refusal::Device(error)) => Err(error),
        Err(_) => unreachable!(),
    }
}

/// Reads such a range block by block.
fn read_pieces<S: StoreLike>(
    store: &mut S,
    table: &Table,
    offset: u64,
    len: u32,
    front: u64,
    bytes: &mut Vec<u8>,
) -> Result<(), DiskError>
    requires runs { (S.about store.old).broken ≡ false }
    requires few { (S.about store.old).geometry.blocks ≤ 65536 }
    requires within { offset + len ≤ size_of (S.about store.old) }
    requires inside { All (λ k. Fits (size_of (S.about store.old)) k.write) table.now.kept }
    requires kept { table.now.forgotten ≤ front }
    requires applied { front ≤ applied_of table.now }
    requires empty { bytes.old.items ≡ [] }
    requires room { len ≤ vec_capacity bytes.old }
    ensures read { S.keeps_model → (volume : List ℕ) → S.keeps store.old volume → length volume ≡ size_of (S.about store.old)
        → OnOk result (bytes.new.items ≡ range_of (fold patched volume (writes_upto table.now front)) offset len) }
    ensures kept { S.keeps_model → (volume : List ℕ) → S.keeps store.old volume → OnOk result (S.keeps store.new volume) }
    ensures any_moment { S.keeps_model → (volume : List ℕ) → S.keeps store.old volume → LeavesOnly S.moment S.may_have_left_since store.old store.new (Means (meaning_with (S.about store.old) volume)) }
    ensures about { OnOk result (S.about store.new ≡ S.about store.old) }
    ensures failures { OnOk result (S.failures store.new ≡ S.failures store.old) }
    ensures failed { IfErr result (HasFailed S.about S.failures store.old store.new) }
{
    let mut block = [0; BLOCK_SIZE as usize];
    for piece in pieces(offset, len) {
        read_block_at(store, table, piece.block, front, &mut block)?;
        let Ok(()) = bytes.extend_from_slice(&block[piece.start..piece.start + piece.len]) else {
            unreachable!();
        };
    }
    Ok(())
}

/// The bytes of each of these ranges of the volume after `front` writes, as `read_range` reads them.
pub(crate) fn read_ranges<S: StoreLike>(
    alloc: Global,
    store: &mut S,
    table: &Table,
    ranges: &[(u64, u32)],
    front: u64,
) -> Result<Vec<Vec<u8>>, Unread>
    requires runs { (S.about store.old).broken ≡ false }
    requires few { (S.about store.old).geometry.blocks ≤ 65536 }
    requires within { All (λ range. range.0 + range.1 ≤ size_of (S.about store.old)) ranges.now }
    requires inside { All (λ k. Fits (size_of (S.about store.old)) k.write) table.now.kept }
    requires kept { table.now.forgotten ≤ front }
    requires applied { front ≤ applied_of table.now }
    ensures read { S.keeps_model → (volume : List ℕ) → S.keeps store.old volume → length volume ≡ size_of (S.about store.old)
        → IfOk result (λ all. map (λ bytes. bytes.items) all.items ≡ map (λ range. range_of (fold patched volume (writes_upto table.now front)) range.0 range.1) ranges.now) }
    ensures many { IfOk result (λ all. length all.items ≡ length ranges.now) }
    ensures only_read { OnOk result (HasOnlyRead S.keeps_model S.about S.failures S.keeps S.moment S.may_have_left_since store.old store.new) }
    ensures any_moment { S.keeps_model → (volume : List ℕ) → S.keeps store.old volume → LeavesOnly S.moment S.may_have_left_since store.old store.new (Means (meaning_with (S.about store.old) volume)) }
    ensures unread { IfErr result (AreUnread S.about S.failures (HasOnlyRead S.keeps_model S.about S.failures S.keeps S.moment S.may_have_left_since store.old store.new) store.old store.new) }
{
    let Ok(mut all) = Vec::with_capacity(alloc, ranges.len()) else {
        return Err(Unread::Memory);
    };
    for range in ranges {
        match read_range(alloc, store, table, range.0, range.1, front) {
            Ok(bytes) => all.push_reserved(bytes),
            Err(unread) => return Err(unread),
        }
    }
    Ok(all)
}

/// Reads a block of the volume after `front` writes, between the durable front and the last applied write. The store isn't
/// broken.
///
/// What the device refuses in a read: then the store is broken.
pub(crate) fn read_block_at<S: StoreLike>(
    store: &mut S,
    table: &Table,
    block: u32,
    front: u64,
    bytes: &mut [u8; BLOCK_SIZE as usize],
) -> Result<(), DiskError>
    requires runs { (S.about store.old).broken ≡ false }
    requires block { block < (S.about store.old).geometry.blocks }
    requires inside { All (λ k. Fits (size_of (S.about store.old)) k.write) table.now.kept }
    requires kept { table.now.forgotten ≤ front }
    requires applied { front ≤ applied_of table.now }
    ensures read { S.keeps_model → (volume : List ℕ) → S.keeps store.old volume → length volume ≡ size_of (S.about store.old)
        → OnOk result (bytes.new ≡ block_of (fold patched volume (writes_upto table.now front)) block) }
    ensures kept { S.keeps_model → (volume : List ℕ) → S.keeps store.old volume → OnOk result (S.keeps store.new volume) }
    ensures any_moment { S.keeps_model → (volume : List ℕ) → S.keeps store.old volume → LeavesOnly S.moment S.may_have_left_since store.old store.new (Means (meaning_with (S.about store.old) volume)) }
    ensures about { OnOk result (S.about store.new ≡ S.about store.old) }
    ensures failures { OnOk result (S.failures store.new ≡ S.failures store.old) }
    ensures failed { IfErr result (HasFailed S.about S.failures store.old store.new) }
{
    read_base(store, table, block, front, bytes)?;
    table.value_at(block, front, bytes);
    Ok(())
}

/// Reads the block that the writes up to a front are put over. It comes from the store, unless one of them has the whole block:
/// then it is zeros.
fn read_base<S: StoreLike>(
    store: &mut S,
    table: &Table,
    block: u32,
    front: u64,
    bytes: &mut [u8; BLOCK_SIZE as usize],
) -> Result<(), DiskError>
    requires runs { (S.about store.old).broken ≡ false }
    requires block { block < (S.about store.old).geometry.blocks }
    requires inside { All (λ k. Fits (size_of (S.about store.old)) k.write) table.now.kept }
    requires kept { table.now.forgotten ≤ front }
    requires applied { front ≤ applied_of table.now }
    ensures base { S.keeps_model → (volume : List ℕ) → S.keeps store.old volume → length volume ≡ size_of (S.about store.old)
        → OnOk result (IsBaseOf volume (writes_upto table.now front) block bytes.new) }
    ensures kept { S.keeps_model → (volume : List ℕ) → S.keeps store.old volume → OnOk result (S.keeps store.new volume) }
    ensures any_moment { S.keeps_model → (volume : List ℕ) → S.keeps store.old volume → LeavesOnly S.moment S.may_have_left_since store.old store.new (Means (meaning_with (S.about store.old) volume)) }
    ensures about { OnOk result (S.about store.new ≡ S.about store.old) }
    ensures failures { OnOk result (S.failures store.new ≡ S.failures store.old) }
    ensures failed { IfErr result (HasFailed S.about S.failures store.old store.new) }
{
    if table.is_whole(block, front) {
        *bytes = [0; BLOCK_SIZE as usize];
        return Ok(());
    }
    match store.read_block(block, bytes) {
        Ok(()) => Ok(()),
        Err(Refusal::Device(error)) => Err(error),
        Err(_) => unreachable!(),
    }
}
