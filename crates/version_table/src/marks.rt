// Which writes touch which block. A mark is a block and the number of a write that touches it; marks are in that order,
// so those of one block stand together, the latest last.
ghost use Rattle.std.specs.Prelude.{◌≡◌, ℕ, ◌+◌, ◌*◌, ◌<◌, ◌≤◌, ◌↔◌, true, false, IsTrue, IfSome, IfNone, OnOk, OnErr};
ghost use Rattle.version_table.specs.Marks.{IsMarked, is_marked, AreSet, AreSame, ReachesBlock};

use std::alloc::AllocError;
use std::collections::BTreeSet;
use std::ops::Range;
use volume::BLOCK_SIZE;

pub(crate) type Marks = BTreeSet<(u32, u64)>;

// The blocks of the `len` bytes from `offset` on.
pub(crate) fn blocks_of(offset: u64, len: u64) -> Range<u32>
    requires { offset + len ≤ 4096 * 65536 }
    ensures reached { (block : ℕ) → ReachesBlock offset len block ↔ ((result.start ≤ block) × (block < result.end)) }
    ensures forward { result.start ≤ result.end }
{
    let first = (offset / BLOCK_SIZE) as u32;
    if len == 0 {
        return first..first;
    }
    first..((offset + len - 1) / BLOCK_SIZE) as u32 + 1
}

// Takes the marks of a write out.
pub(crate) fn unmark(marks: &mut Marks, blocks: Range<u32>, number: u64)
    requires { blocks.start ≤ blocks.end }
    ensures { AreSet marks.old marks.new blocks.start blocks.end number false }
{
    for block in blocks.start..blocks.end {
        marks.remove(&(block, number));
    }
}

// Marks a write, which has no marks yet. A refusal leaves the marks as they were.
pub(crate) fn mark(marks: &mut Marks, blocks: Range<u32>, number: u64) -> Result<(), AllocError>
    requires forward { blocks.start ≤ blocks.end }
    requires new { (block : ℕ) → is_marked marks.old block number ≡ false }
    ensures ok { OnOk result (AreSet marks.old marks.new blocks.start blocks.end number true) }
    ensures err { OnErr result (AreSame marks.old marks.new) }
{
    for block in blocks.start..blocks.end {
        if marks.insert((block, number)).is_err() {
            unmark(marks, blocks.start..block, number);
            return Err(AllocError);
        }
    }
    Ok(())
}

// The first write from a number on that touches a block.
pub(crate) fn next_mark(marks: &Marks, block: u32, from: u64) -> Option<u64>
    ensures from { IfSome result (λ number. from ≤ number) }
    ensures marked { IfSome result (λ number. IsMarked marks.now block number) }
    ensures first { IfSome result (λ number. (m : ℕ) → from ≤ m → m < number → is_marked marks.now block m ≡ false) }
    ensures none { IfNone result ((m : ℕ) → from ≤ m → is_marked marks.now block m ≡ false) }
{
    match marks.range((block, from)..).next() {
        Some(&(marked, number)) if marked == block => Some(number),
        _ => None,
    }
}
