ghost use Rattle.std.specs.Prelude.{◌≡◌, ℕ, List, [], ◌∷◌, ◌+◌, ◌-◌, ◌*◌, ◌<◌, ◌≤◌, ◌^◌, ◌++◌, ◌↔◌, ◌⊎◌, fold, length, slice_index_or, true, All, Contains, IsTrue, is_some, IfSome, IfNone, OnOk, OnErr, IsErrOf};
ghost use Rattle.std.specs.VecDeque.Iter.{deque_iter_rest, deque_iter_steps};
ghost use Rattle.std.specs.Iterator.Runs.{YieldsRefsInOrder};
ghost use Rattle.std.specs.List.{AllWithin, list_any};
ghost use Rattle.volume.specs.Writes.{Placed, Fits, patched, block_of, IsTouched};
ghost use Rattle.version_table.specs.Whole.{ends_whole, has_whole};
ghost use Rattle.version_table.specs.declared.kept.Kept.{Kept};
ghost use Rattle.version_table.specs.Held.{Held, applied_of, with_write, forgotten_to, kept_after, writes_upto, IsFullFor, IsClean, IsNumbered};

use crate::kept::{Kept, Origin};
use crate::marks::{Marks, blocks_of, mark, next_mark, unmark};
use crate::refusal::Refusal;
use std::alloc::Global;
use std::collections::VecDeque;
use std::collections::vec_deque::Iter;
use std::marker::Model;
use volume::{BLOCK_SIZE, Write, patch};

/// The most writes that a table keeps.
pub const MAX_KEPT: usize = 1_024;

/// The most bytes that the kept writes have together, those of zeros alone not counted.
pub const MAX_DATA: u64 = 16_777_216;

/// The writes of a volume after a front, by number. Those up to the front are forgotten.
#[derive(Debug, Drop)]
pub struct Table {
    front: u64,
    kept: VecDeque<Kept>,
    data: u64,
    marks: Marks,
}

impl Model for Table {
    ghost use Rattle.version_table.specs.Held.{Held};

    ghost Value = { Held };

    ghost use Rattle.version_table.specs.Table.{IsTable};

    ghost view = { λ t. record { forgotten = t.front; kept = t.kept.items } };

    ghost invariant = { IsTable };
}

impl Table {
    /// A table that has forgotten the writes up to the number `front`, and keeps none.
    pub fn new(alloc: Global, front: u64) -> Table
        ensures { result ≡ record { forgotten = front; kept = [] } }
    {
        Table {
            front,
            kept: VecDeque::new(alloc),
            data: 0,
            marks: Marks::new(alloc),
        }
    }

    /// The number up to which writes are forgotten.
    pub fn forgotten(&self) -> u64
        ensures { result ≡ self.now.forgotten }
    {
        self.front
    }

    /// The number of the last write that was applied.
    pub fn applied(&self) -> u64
        ensures { result ≡ applied_of self.now }
    {
        self.front + self.kept.len() as u64
    }

    /// Whether `apply` of this write is refused with 141: 1,024 writes are kept already, or the kept writes and this one have
    /// more than 16,777,216 bytes, those of zeros alone not counted.
    pub fn is_full_for(&self, write: &Write) -> bool
        ensures { IsTrue result ↔ IsFullFor self.now write.now }
    {
        self.kept.len() >= MAX_KEPT || self.data + write.kept() > MAX_DATA
    }

    /// Applies the write of the number `n`, the one after `applied()`. The write lies within the largest volume. Its bytes
    /// are shared and not copied.
    ///
    /// 141 `TableFull` exactly where 1,024 writes are kept already, or the kept writes and this one have more than
    /// 16,777,216 bytes, those of zeros alone not counted. 100 `Memory`. Both leave the table as it was.
    pub fn apply(&mut self, n: u64, write: &Write, origin: Origin) -> Result<(), Refusal>
        requires next { n ≡ applied_of self.old + 1 }
        requires inside { Fits (4096 * 65536) write.now }
        ensures applied { OnOk result (self.new ≡ with_write self.old n write.now origin) }
        ensures full { IsErrOf result Refusal.TableFull ↔ IsFullFor self.old write.now }
        ensures err { OnErr result (self.new ≡ self.old) }
    {
        let data = self.data + write.kept();
        if self.kept.len() >= MAX_KEPT || data > MAX_DATA {
            return Err(Refusal::TableFull);
        }
        let write = write.clone()?;
        let blocks = blocks_of(write.offset(), write.len());
        self.kept.push_back(Kept {
            number: n,
            write,
            origin,
        })?;
        if let Err(refused) = mark(&mut self.marks, blocks, n) {
            self.kept.pop_back();
            return Err(refused.into());
        }
        self.data = data;
        Ok(())
    }

    /// The write of the number `n`, which is kept.
    pub fn get(&self, n: u64) -> &Kept
        requires kept { self.now.forgotten < n }
        requires applied { n ≤ applied_of self.now }
        ensures write { (d : Kept) → result.now ≡ slice_index_or self.now.kept (n - self.now.forgotten - 1) d }
        ensures number { result.now.number ≡ n }
    {
        &self.kept[(n - self.front - 1) as usize]
    }

    /// The kept writes above the number `n`, in order. `n` lies between the forgotten front and `applied()`.
    pub fn after(&self, n: u64) -> Iter<'_, Kept>
        requires kept { self.now.forgotten ≤ n }
        requires applied { n ≤ applied_of self.now }
        ensures writes { deque_iter_rest result ≡ kept_after self.now n }
        ensures numbered { IsNumbered self.now }
        ensures runs { YieldsRefsInOrder (deque_iter_steps {X = Kept}) deque_iter_rest }
    {
        self.kept.range((n - self.front) as usize..)
    }

    // The first write above `after` and up to `upto` that touches a block.
    fn next_touching(&self, block: u32, after: u64, upto: u64) -> Option<u64>
        requires kept { self.now.forgotten ≤ after }
        requires ordered { after ≤ upto }
        requires applied { upto ≤ applied_of self.now }
        ensures above { IfSome result (λ n. after < n) }
        ensures upto { IfSome result (λ n. n ≤ upto) }
        ensures touches { IfSome result (λ n. (d : Kept) → IsTouched (slice_index_or self.now.kept (n - self.now.forgotten - 1) d).write block) }
        ensures first { IfSome result (λ n. AllWithin (λ k. ¬ IsTouched k.write block) self.now.kept
            (after - self.now.forgotten) (n - self.now.forgotten - 1)) }
        ensures none { IfNone result (AllWithin (λ k. ¬ IsTouched k.write block) self.now.kept
            (after - self.now.forgotten) (upto - self.now.forgotten)) }
    {
        if after == upto {
            return None;
        }
        match next_mark(&self.marks, block, after + 1) {
            Some(number) if number <= upto => Some(number),
            _ => None,
        }
    }

    /// Turns `base`, a block of the volume at the forgotten front, into that block of the volume after `j` writes. `j` lies
    /// between the forgotten front and `applied()`. Only the writes that touch the block are looked at.
    pub fn value_at(&self, block: u32, j: u64, base: &mut [u8; 4_096])
        requires kept { self.now.forgotten ≤ j }
        requires applied { j ≤ applied_of self.now }
        ensures { (volume : List ℕ) → All (Fits (length volume)) (writes_upto self.now j) → block_of volume block ≡ base.old
            → block_of (fold patched volume (writes_upto self.now j)) block ≡ base.new }
    {
        let mut done = self.front;
        while let Some(number) = self.next_touching(block, done, j) {
            patch(base, &self.get(number).write, block);
            done = number;
        }
    }

    /// Whether one of the writes up to the number `j` has the whole block: then the block after them doesn't depend on what it
    /// was before. `j` lies between the forgotten front and `applied()`. Only the writes that touch the block are looked at.
    pub fn is_whole(&self, block: u32, j: u64) -> bool
        requires kept { self.now.forgotten ≤ j }
        requires applied { j ≤ applied_of self.now }
        ensures { result ≡ list_any (has_whole block) (writes_upto self.now j) }
    {
        let mut tested = self.front;
        while let Some(number) = self.next_touching(block, tested, j) {
            if has_whole(&self.get(number).write, block) {
                return true;
            }
            tested = number;
        }
        false
    }

    /// The last of the writes up to the number `j` that touches the block, where it has the whole block: then the block after them is
    /// the write's own. `j` lies between the forgotten front and `applied()`. Only the writes that touch the block are looked at.
    pub fn whole_at(&self, block: u32, j: u64) -> Option<&Write>
        requires kept { self.now.forgotten ≤ j }
        requires applied { j ≤ applied_of self.now }
        ensures there { is_some result ≡ ends_whole block (writes_upto self.now j) }
        ensures whole { IfSome result (λ w. has_whole block w.now ≡ true) }
        ensures one { IfSome result (λ w. Contains (writes_upto self.now j) w.now) }
        ensures value { IfSome result (λ w. (volume : List ℕ) → All (Fits (length volume)) (writes_upto self.now j)
            → block_of (fold patched volume (writes_upto self.now j)) block ≡ block_of (patched volume w.now) block) }
    {
        let mut last = self.front;
        while let Some(number) = self.next_touching(block, last, j) {
            last = number;
        }
        if last == self.front {
            return None;
        }
        let write = &self.get(last).write;
        has_whole(write, block).then_some(write)
    }

    /// Whether no write above the number `k` touches a block of the `len` bytes from `offset` on. They lie within the
    /// largest volume, and `k` between the forgotten front and `applied()`.
    pub fn is_clean(&self, offset: u64, len: u32, k: u64) -> bool
        requires inside { offset + len ≤ 4096 * 65536 }
        requires kept { self.now.forgotten ≤ k }
        requires applied { k ≤ applied_of self.now }
        ensures { IsTrue result ↔ IsClean self.now offset len k }
    {
        let blocks = blocks_of(offset, u64::from(len));
        for block in blocks.start..blocks.end {
            if self.next_touching(block, k, self.applied()).is_some() {
                return false;
            }
        }
        true
    }

    // Forgets the first write.
    fn forget_first(&mut self)
        requires { 0 < length self.old.kept }
        ensures { self.new ≡ forgotten_to self.old (self.old.forgotten + 1) }
    {
        let Some(kept) = self.kept.pop_front() else {
            return;
        };
        let blocks = blocks_of(kept.write.offset(), kept.write.len());
        unmark(&mut self.marks, blocks, kept.number);
        self.data -= kept.write.kept();
        self.front += 1;
    }

    /// Forgets the writes up to the number `d`, which lies between the forgotten front and `applied()`.
    pub fn forget_to(&mut self, d: u64)
        requires kept { self.old.forgotten ≤ d }
        requires applied { d ≤ applied_of self.old }
        ensures { self.new ≡ forgotten_to self.old d }
    {
        while self.forgotten() < d {
            self.forget_first();
        }
    }
}

// Whether a write, which ends below 2^64 bytes, has the whole block.
fn has_whole(write: &Write, block: u32) -> bool
    requires { write.now.offset + length write.now.bytes < 2 ^ 64 }
    ensures { result ≡ has_whole block write.now }
{
    let first = u64::from(block) * BLOCK_SIZE;
    write.offset() <= first && first + BLOCK_SIZE <= write.offset() + write.len()
}
