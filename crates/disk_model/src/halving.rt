// A content that is cut in two, and two that are put together.
ghost use Rattle.std.specs.Prelude.{◌≡◌, ◌≤◌, ◌<◌, ◌+◌, ℕ, List, [], ◌++◌, length, take, drop, get_or, true, false, All, IfOk};
ghost use Rattle.disk_model.specs.Content.{unsynced_in, ranges_from, AreMarked, IsImage};
ghost use Rattle.disk_model.specs.Halves.{AreHalves};
ghost use Rattle.disk_model.specs.Waiting.{waiting_now};

use crate::content::{Content, Extent};
use crate::era::Run;
use std::alloc::{AllocError, Global};

impl Content {
    // These bytes, to which nothing was done yet. Those that are marked wait for a sync.
    fn begin(alloc: Global, bytes: &[u8], marks: &[bool]) -> Result<Self, AllocError>
        requires { length marks.now ≤ length bytes.now }
        ensures bytes { IfOk result (λ new. new.bytes.items ≡ bytes.now) }
        ensures log { IfOk result (λ new. new.log.items ≡ []) }
        ensures waiting { IfOk result (λ new. waiting_now new ≡ ranges_from 0 marks.now) }
    {
        let base = bytes.to_vec(alloc)?;
        let bytes = bytes.to_vec(alloc)?;
        let loose = marks.to_vec(alloc)?;
        Ok(Content::begun(alloc, base, bytes, loose))
    }

    // The same, of bytes that are there twice. Marks of nothing aren't kept.
    fn begun(alloc: Global, base: Vec<u8>, bytes: Vec<u8>, loose: Vec<bool>) -> Self
        requires same { base.items ≡ bytes.items }
        requires short { length loose.items ≤ length bytes.items }
        ensures bytes { result.bytes.items ≡ bytes.items }
        ensures log { result.log.items ≡ [] }
        ensures waiting { waiting_now result ≡ ranges_from 0 loose.items }
    {
        let loose = if is_marked(&loose) {
            loose
        } else {
            Vec::new(alloc)
        };
        Content {
            base,
            loose,
            log: Vec::new(alloc),
            bytes,
            waits: true,
            unsynced: Vec::new(alloc),
        }
    }

    /// The two halves of it, each of which begins now. The marks say what waits.
    pub fn halves(
        &self,
        alloc: Global,
        border: usize,
        marks: &mut [bool],
    ) -> Result<(Content, Content), AllocError>
        requires within { border ≤ length self.now.bytes.items }
        requires marks { length marks.old ≡ length self.now.bytes.items }
        ensures home { IfOk result (λ r. length r.0.bytes.items ≡ border) }
        ensures log { IfOk result (λ r. border + length r.1.bytes.items ≡ length self.now.bytes.items) }
        ensures begin { IfOk result (λ r. (r.0.log.items ≡ []) × (r.1.log.items ≡ [])) }
        ensures halves { IfOk result (λ r. AreHalves border self.now.bytes.items r.0.bytes.items r.1.bytes.items
            (IsImage self.now.bytes.items (waiting_now self.now)) (IsImage r.0.bytes.items (waiting_now r.0)) (IsImage r.1.bytes.items (waiting_now r.1))) }
        ensures marks { length marks.new ≡ length marks.old }
    {
        mark(self, marks);
        let home = Content::begin(alloc, &self.bytes[..border], &marks[..border])?;
        let log = Content::begin(alloc, &self.bytes[border..], &marks[border..])?;
        Ok((home, log))
    }

    /// The whole of two halves, which begins now. It takes no memory but this room, whose contents don't matter.
    pub fn joined(
        alloc: Global,
        home: &Content,
        log: &Content,
        mut base: Vec<u8>,
        mut bytes: Vec<u8>,
        mut marks: Vec<bool>,
    ) -> Self
        requires base { length home.now.bytes.items + length log.now.bytes.items ≡ length base.items }
        requires bytes { length home.now.bytes.items + length log.now.bytes.items ≡ length bytes.items }
        requires marks { length home.now.bytes.items + length log.now.bytes.items ≡ length marks.items }
        ensures bytes { result.bytes.items ≡ home.now.bytes.items ++ log.now.bytes.items }
        ensures begins { result.log.items ≡ [] }
        ensures halves { AreHalves (length home.now.bytes.items) result.bytes.items home.now.bytes.items log.now.bytes.items
            (IsImage result.bytes.items (waiting_now result)) (IsImage home.now.bytes.items (waiting_now home.now)) (IsImage log.now.bytes.items (waiting_now log.now)) }
    {
        join(&mut base, &home.bytes, &log.bytes);
        join(&mut bytes, &home.bytes, &log.bytes);
        mark_both(home, log, &mut marks);
        Content::begun(alloc, base, bytes, marks)
    }

    /// Its calls, and the room of its bytes.
    pub fn into_run(self) -> (Run, Vec<u8>)
        ensures run { result.0 ≡ record { base = self.base; loose = self.loose; log = self.log } }
        ensures bytes { result.1 ≡ self.bytes }
    {
        let Content {
            base,
            loose,
            log,
            bytes,
            ..
        } = self;
        (Run { base, loose, log }, bytes)
    }
}

/// Puts one list behind another, in the place of those that are there.
pub fn join<T: Copy + Drop>(whole: &mut Vec<T>, home: &[T], log: &[T])
    requires { length home.now + length log.now ≡ length whole.old.items }
    ensures { whole.new.items ≡ home.now ++ log.now }
{
    let (front, back) = whole.split_at_mut(home.len());
    front.copy_from_slice(home);
    back.copy_from_slice(log);
}

// Whether there is a mark.
fn is_marked(marks: &[bool]) -> bool
    ensures { result ≡ false → ranges_from 0 marks.now ≡ [] }
{
    for mark in marks {
        if *mark {
            return true;
        }
    }
    false
}

// Marks what waits of two contents, one behind the other.
fn mark_both(home: &Content, log: &Content, marks: &mut Vec<bool>)
    requires { length home.now.bytes.items + length log.now.bytes.items ≡ length marks.old.items }
    ensures size { length marks.new.items ≡ length marks.old.items }
    ensures home { AreMarked (waiting_now home.now) (take (length home.now.bytes.items) marks.new.items) }
    ensures log { AreMarked (waiting_now log.now) (drop (length home.now.bytes.items) marks.new.items) }
{
    let (front, back) = marks.split_at_mut(home.bytes.len());
    mark(home, front);
    mark(log, back);
}

// Marks the bytes that wait for a sync, and no other.
fn mark(content: &Content, marks: &mut [bool])
    requires { length marks.old ≡ length content.now.bytes.items }
    ensures size { length marks.new ≡ length marks.old }
    ensures marked { AreMarked (waiting_now content.now) marks.new }
{
    mark_first(marks, content.waits, &content.loose);
    mark_ranges(marks, &content.unsynced);
}

// Marks what waited at the beginning, if it still does.
fn mark_first(marks: &mut [bool], waits: bool, loose: &[bool])
    requires { length loose.now ≤ length marks.old }
    ensures size { length marks.new ≡ length marks.old }
    ensures marked { AreMarked (unsynced_in waits loose.now []) marks.new }
{
    marks.fill(false);
    if waits {
        marks[..loose.len()].copy_from_slice(loose);
    }
}

// Marks these ranges too.
fn mark_ranges(marks: &mut [bool], ranges: &[Extent])
    requires { All (λ range. range.at + range.len ≤ length marks.old) ranges.now }
    ensures size { length marks.new ≡ length marks.old }
    ensures marked { (before : List Extent) → AreMarked before marks.old → AreMarked (before ++ ranges.now) marks.new }
{
    for range in ranges {
        mark_range(marks, range.at as usize, range.len as usize);
    }
}

fn mark_range(marks: &mut [bool], at: usize, len: usize)
    requires { at + len ≤ length marks.old }
    ensures size { length marks.new ≡ length marks.old }
    ensures inside { (k : ℕ) → at ≤ k → k < at + len → get_or marks.new k true ≡ true }
    ensures before { (k : ℕ) → k < at → get_or marks.new k true ≡ get_or marks.old k true }
    ensures after { (k : ℕ) → at + len ≤ k → get_or marks.new k true ≡ get_or marks.old k true }
{
    marks[at..at + len].fill(true);
}
