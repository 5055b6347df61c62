// What a disk in memory holds, and the calls by which it came to hold it.
ghost use Rattle.std.specs.Prelude.{◌≡◌, ◌≤◌, ◌+◌, [], ◌∷◌, ◌++◌, length, replicate, All, OnOk, OnErr};
ghost use Rattle.std.specs.Option.{ForSome};
ghost use Rattle.disk_model.specs.Content.{shown_after, unsynced_after, unsynced_in, ranges_from, filled, left_by};
ghost use Rattle.disk_model.specs.Disk.{put};
ghost use Rattle.disk_model.specs.There.{there_or};

use std::alloc::{AllocError, Global};

// What a cut leaves in a range that wasn't synced, if it leaves nothing of it.
const FILLED: u8 = 0xff;

/// A call that changed what a disk gives, or what a stop may leave.
#[derive(Drop)]
pub enum Change {
    /// These bytes were put in place. A stop may leave anything in the range, which is at least as long.
    Write { at: u64, bytes: Vec<u8>, len: u64 },
    /// All is durable.
    Sync,
}

/// What a cut leaves in the ranges that weren't synced.
#[derive(Clone, Copy, Debug, PartialEq, Eq)]
pub enum Cut {
    /// All that was written.
    All,
    /// Nothing of it: each such byte is `ff`.
    None,
}

/// A range of bytes.
#[derive(Clone, Copy, Debug, PartialEq, Eq)]
pub struct Extent {
    pub at: u64,
    pub len: u64,
}

/// The bytes of a disk in memory.
#[derive(Drop)]
pub struct Content {
    /// The bytes at the beginning.
    pub base: Vec<u8>,
    /// Which of them waited for a sync then. Those that have no mark here didn't.
    pub loose: Vec<bool>,
    /// The calls since then.
    pub log: Vec<Change>,
    /// What a read gives.
    pub bytes: Vec<u8>,
    /// Whether what waited at the beginning still waits.
    pub waits: bool,
    /// The ranges that were written since the last sync, or since the beginning.
    pub unsynced: Vec<Extent>,
    ghost replayed: { bytes.items ≡ shown_after base.items log.items },
    ghost ranges: { unsynced_in waits loose.items unsynced.items ≡ unsynced_after (ranges_from 0 loose.items) log.items },
    ghost size: { length bytes.items ≡ length base.items },
    ghost within: { All (λ range. range.at + range.len ≤ length bytes.items) unsynced.items },
    ghost short: { length loose.items ≤ length bytes.items },
}

impl Content {
    ghost use Rattle.std.specs.Prelude.{IfOk};
    ghost use Rattle.disk_model.specs.Content.{AddsWrite};
    ghost use Rattle.disk_model.specs.Kept.{IsSame};
    ghost use Rattle.disk_model.specs.Waiting.{waiting_first, waiting_now};
    ghost use Rattle.disk_model.specs.declared.content.Change.TheVariants.{Sync};

    /// Zeros, to which nothing was done.
    pub fn zeros(alloc: Global, len: usize) -> Result<Self, AllocError>
        ensures base { IfOk result (λ new. new.base.items ≡ replicate len 0) }
        ensures log { IfOk result (λ new. new.log.items ≡ []) }
        ensures waiting { IfOk result (λ new. waiting_now new ≡ []) }
    {
        Ok(Content {
            base: vec![in alloc; 0; len]?,
            loose: Vec::new(alloc),
            log: Vec::new(alloc),
            bytes: vec![in alloc; 0; len]?,
            waits: false,
            unsynced: Vec::new(alloc),
        })
    }

    /// Puts bytes in place, in a range of `len` bytes that a stop may leave as anything. At an `Err` nothing changed.
    pub fn write(
        &mut self,
        alloc: Global,
        at: u64,
        bytes: &[u8],
        len: u64,
    ) -> Result<(), AllocError>
        requires range { at + len ≤ length self.old.bytes.items }
        requires within { length bytes.now ≤ len }
        ensures base { self.new.base.items ≡ self.old.base.items }
        ensures first { waiting_first self.new ≡ waiting_first self.old }
        ensures log { OnOk result (AddsWrite self.old.log.items self.new.log.items at bytes.now len) }
        ensures bytes { OnOk result (self.new.bytes.items ≡ put self.old.bytes.items at bytes.now) }
        ensures unsynced { OnOk result (waiting_now self.new ≡ waiting_now self.old ++ record { at = at; len = len } ∷ []) }
        ensures err { OnErr result (IsSame self.old self.new) }
    {
        let written = bytes.to_vec(alloc)?;
        self.log.reserve(1)?;
        self.unsynced.reserve(1)?;
        replace(&mut self.bytes, at as usize, bytes);
        self.log
            .push(Change::Write {
                at,
                bytes: written,
                len,
            })
            .unwrap();
        self.unsynced.push(Extent { at, len }).unwrap();
        Ok(())
    }

    /// Makes all durable. At an `Err` nothing changed.
    pub fn sync(&mut self) -> Result<(), AllocError>
        ensures base { self.new.base.items ≡ self.old.base.items }
        ensures first { waiting_first self.new ≡ waiting_first self.old }
        ensures log { OnOk result (self.new.log.items ≡ self.old.log.items ++ Sync ∷ []) }
        ensures bytes { OnOk result (self.new.bytes.items ≡ self.old.bytes.items) }
        ensures unsynced { OnOk result (waiting_now self.new ≡ []) }
        ensures err { OnErr result (IsSame self.old self.new) }
    {
        self.log.push(Change::Sync)?;
        self.waits = false;
        self.unsynced.clear();
        Ok(())
    }

    /// Begins again with what a stop leaves: of these bytes, or else of its own.
    pub fn cut(&mut self, there: Option<Vec<u8>>, cut: Cut)
        requires { ForSome there (λ v. length v.items ≡ length self.old.bytes.items) }
        ensures bytes { self.new.bytes.items ≡ left_by cut (there_or there self.old.bytes.items) (waiting_now self.old) }
        ensures size { length self.new.bytes.items ≡ length self.old.bytes.items }
        ensures base { self.new.base.items ≡ self.new.bytes.items }
        ensures log { self.new.log.items ≡ [] }
        ensures unsynced { waiting_now self.new ≡ [] }
    {
        leave(
            &mut self.bytes,
            there,
            cut,
            self.waits,
            &self.loose,
            &self.unsynced,
        );
        self.base.copy_from_slice(&self.bytes);
        self.loose.clear();
        self.log.clear();
        self.waits = false;
        self.unsynced.clear();
    }
}

// Leaves what a cut leaves.
fn leave(
    bytes: &mut Vec<u8>,
    there: Option<Vec<u8>>,
    cut: Cut,
    waits: bool,
    loose: &[bool],
    ranges: &[Extent],
)
    requires size { ForSome there (λ v. length v.items ≡ length bytes.old.items) }
    requires short { length loose.now ≤ length bytes.old.items }
    requires within { All (λ range. range.at + range.len ≤ length bytes.old.items) ranges.now }
    ensures bytes { bytes.new.items ≡ left_by cut (there_or there bytes.old.items) (unsynced_in waits loose.now ranges.now) }
    ensures size { length bytes.new.items ≡ length bytes.old.items }
{
    if let Some(there) = there {
        *bytes = there;
    }
    if cut == Cut::None {
        fill_all(bytes, waits, loose, ranges);
    }
}

// Fills what waits: what does since the beginning, and these ranges.
fn fill_all(bytes: &mut Vec<u8>, waits: bool, loose: &[bool], ranges: &[Extent])
    requires short { length loose.now ≤ length bytes.old.items }
    requires within { All (λ range. range.at + range.len ≤ length bytes.old.items) ranges.now }
    ensures bytes { bytes.new.items ≡ filled bytes.old.items (unsynced_in waits loose.now ranges.now) }
    ensures size { length bytes.new.items ≡ length bytes.old.items }
{
    fill_first(bytes, waits, loose);
    fill(bytes, ranges);
}

// Fills what waited at the beginning, if it still does.
fn fill_first(bytes: &mut Vec<u8>, waits: bool, loose: &[bool])
    requires { length loose.now ≤ length bytes.old.items }
    ensures bytes { bytes.new.items ≡ filled bytes.old.items (unsynced_in waits loose.now []) }
    ensures size { length bytes.new.items ≡ length bytes.old.items }
{
    if waits {
        fill_marked(bytes, loose);
    }
}

// Fills each of the bytes that are marked.
fn fill_marked(bytes: &mut Vec<u8>, marks: &[bool])
    requires { length marks.now ≤ length bytes.old.items }
    ensures bytes { bytes.new.items ≡ filled bytes.old.items (ranges_from 0 marks.now) }
    ensures size { length bytes.new.items ≡ length bytes.old.items }
{
    for at in 0..marks.len() {
        if marks[at] {
            fill_range(bytes, at, 1);
        }
    }
}

// Fills each of the ranges.
fn fill(bytes: &mut Vec<u8>, ranges: &[Extent])
    requires { All (λ range. range.at + range.len ≤ length bytes.old.items) ranges.now }
    ensures bytes { bytes.new.items ≡ filled bytes.old.items ranges.now }
    ensures size { length bytes.new.items ≡ length bytes.old.items }
{
    for range in ranges {
        fill_range(bytes, range.at as usize, range.len as usize);
    }
}

fn fill_range(bytes: &mut Vec<u8>, at: usize, len: usize)
    requires { at + len ≤ length bytes.old.items }
    ensures { bytes.new.items ≡ put bytes.old.items at (replicate len 255) }
{
    bytes[at..at + len].fill(FILLED);
}

/// Puts bytes in the place of those that are there.
pub fn replace(bytes: &mut Vec<u8>, at: usize, new: &[u8])
    requires { at + length new.now ≤ length bytes.old.items }
    ensures { bytes.new.items ≡ put bytes.old.items at new.now }
{
    bytes[at..at + new.len()].copy_from_slice(new);
}
