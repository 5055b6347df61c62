// A disk in memory, which fails and stops where its script says so.
ghost use Rattle.std.specs.Prelude.{◌≡◌, ◌+◌, ◌≤◌, [], ◌∷◌, ◌++◌, length, replicate, IfOk, OnOk, OnErr, true, false, is_some, ◌||◌, IsNone};
ghost use Rattle.std.specs.Vec.{vec_len, vec_capacity};
ghost use Rattle.std.specs.List.{slice_range};
ghost use Rattle.std.specs.Option.{ForSome};
ghost use Rattle.disk_model.specs.Content.{left_by, AddsWrite, IsImage};
ghost use Rattle.disk_model.specs.Disk.{put, Elapses, NothingNew, Only};
ghost use Rattle.disk_model.specs.Kept.{IsSame};
ghost use Rattle.disk_model.specs.There.{there_or};
ghost use Rattle.disk_model.specs.Waiting.{waiting_first, waiting_now};

use crate::content::{Content, Cut, replace};
use crate::era::Era;
use crate::halving::join;
use crate::script::{Fate, Turns};
use crate::{Disk, DiskError, Event, HalvedDisk, Script};
use std::alloc::{AllocError, Global};
use std::mem;

/// A disk in memory. It keeps all that was written since it was new or last cut, and its bytes at each time that its log was
/// lent and put back, so that what a stop at any moment may have left is a fact about it.
#[derive(Drop)]
pub struct MemDisk {
    alloc: Global,
    // all that it was before its log was last put back
    eras: Vec<Era>,
    content: Content,
    // what is there, once it has stopped: a write may have been cut short
    there: Option<Vec<u8>>,
    turns: Turns,
    ghost left: { ForSome there (λ v. IsImage content.bytes.items (waiting_now content) v.items) },
}

impl MemDisk {
    ghost use Rattle.disk_model.specs.Event.{counted_from};
    ghost use Rattle.disk_model.specs.Memory.{bytes_of, given_of, size_of, may_be_left, moment_of, left_since, failures_of, unsynced_of, calls_of, script_of, has_stopped, IsAsBefore};
    ghost use Rattle.disk_model.specs.Memory.{is_stop, given, reached, sync_of, still_unsynced};

    /// A disk of zeros, all of it durable.
    pub fn new(alloc: Global, len: u64, script: Script) -> Result<Self, AllocError>
        ensures bytes { IfOk result (λ disk. bytes_of disk ≡ replicate len 0) }
        ensures gives { IfOk result (λ disk. given_of disk ≡ replicate len 0) }
        ensures size { IfOk result (λ disk. size_of disk ≡ len) }
        ensures durable { IfOk result (λ disk. Only (given_of disk) (may_be_left disk)) }
        ensures unsynced { IfOk result (λ disk. unsynced_of disk ≡ []) }
        ensures calls { IfOk result (λ disk. calls_of disk ≡ 0) }
        ensures script { IfOk result (λ disk. script_of disk ≡ script) }
        ensures runs { IfOk result (λ disk. has_stopped disk ≡ false) }
        ensures failures { IfOk result (λ disk. failures_of disk ≡ 0) }
    {
        Ok(MemDisk {
            alloc,
            eras: Vec::new(alloc),
            content: Content::zeros(alloc, len as usize)?,
            there: None,
            turns: Turns {
                script,
                calls: 0,
                failures: 0,
            },
        })
    }

    /// Adds an entry to the script, whose calls are counted from now: call 1 is the next one, and call 0 never comes.
    pub fn arm(&mut self, event: Event) -> Result<(), AllocError>
        ensures ok { OnOk result (script_of self.new ≡ script_of self.old ++ counted_from (calls_of self.old) event ∷ []) }
        ensures err { OnErr result (script_of self.new ≡ script_of self.old) }
        ensures stays { IsAsBefore self.old self.new }
        ensures leaves { NothingNew (may_be_left self.old) (may_be_left self.new) }
        ensures time { Elapses (moment_of self.old) (moment_of self.new)
            (left_since self.old) (left_since self.new) (may_be_left self.new) }
    {
        let counted = event.counted_from(self.turns.calls);
        self.turns.script.push(counted)
    }

    /// Forgets what the script has still to come: nothing more happens to the disk but what its calls do. A disk that has
    /// stopped stays so.
    pub fn disarm(&mut self)
        ensures script { script_of self.new ≡ [] }
        ensures stays { IsAsBefore self.old self.new }
        ensures leaves { NothingNew (may_be_left self.old) (may_be_left self.new) }
        ensures time { Elapses (moment_of self.old) (moment_of self.new)
            (left_since self.old) (left_since self.new) (may_be_left self.new) }
    {
        self.turns.script = Script::new(self.alloc);
    }

    /// Makes it a disk as newly opened, with a content that a stop now may leave. What the script has still to come
    /// stays, and its calls count on.
    pub fn cut(&mut self, cut: Cut)
        ensures bytes { bytes_of self.new ≡ left_by cut (bytes_of self.old) (unsynced_of self.old) }
        ensures left { may_be_left self.old (bytes_of self.new) }
        ensures only { Only (bytes_of self.new) (may_be_left self.new) }
        ensures gives { given_of self.new ≡ bytes_of self.new }
        ensures size { size_of self.new ≡ size_of self.old }
        ensures unsynced { unsynced_of self.new ≡ [] }
        ensures runs { has_stopped self.new ≡ false }
        ensures calls { calls_of self.new ≡ calls_of self.old }
        ensures script { script_of self.new ≡ script_of self.old }
        ensures failures { failures_of self.new ≡ failures_of self.old }
    {
        let there = self.there.take();
        self.eras.clear();
        self.content.cut(there, cut);
    }

    /// What is there now: what a read gives, or what the disk stopped with.
    pub fn bytes(&self) -> &[u8]
        ensures { result.now ≡ bytes_of self.now }
    {
        match &self.there {
            Some(there) => there,
            None => &self.content.bytes,
        }
    }

    /// How many calls it has served, reads, writes and syncs alike. What is asked of a stopped disk isn't counted.
    pub fn calls(&self) -> u64
        ensures { result ≡ calls_of self.now }
    {
        self.turns.calls
    }

    /// Whether it has stopped.
    pub fn is_stopped(&self) -> bool
        ensures { result ≡ has_stopped self.now }
    {
        self.there.is_some()
    }

    // Does to the bytes what becomes of a write.
    fn put(&mut self, fate: Fate, at: u64, bytes: &[u8]) -> Result<(), AllocError>
        requires runs { IsNone self.old.there }
        requires range { at + length bytes.now ≤ length self.old.content.bytes.items }
        ensures turns { self.new.turns ≡ self.old.turns }
        ensures eras { self.new.eras ≡ self.old.eras }
        ensures base { self.new.content.base.items ≡ self.old.content.base.items }
        ensures first { waiting_first self.new.content ≡ waiting_first self.old.content }
        ensures log { OnOk result (AddsWrite self.old.content.log.items self.new.content.log.items at (given fate bytes.now) (length bytes.now)) }
        ensures bytes { OnOk result (self.new.content.bytes.items ≡ put self.old.content.bytes.items at (given fate bytes.now)) }
        ensures unsynced { OnOk result (waiting_now self.new.content ≡ waiting_now self.old.content ++ record { at = at; len = length bytes.now } ∷ []) }
        ensures there { OnOk result (bytes_of self.new ≡ put self.old.content.bytes.items at (reached fate bytes.now)) }
        ensures stopped { OnOk result (has_stopped self.new ≡ is_stop fate) }
        ensures content_err { OnErr result (IsSame self.old.content self.new.content) }
        ensures there_err { OnErr result (IsNone self.new.there) }
    {
        let len = bytes.len() as u64;
        match fate {
            Fate::Works => self.content.write(self.alloc, at, bytes, len)?,
            Fate::Fails => self.content.write(self.alloc, at, &[], len)?,
            Fate::Stops(reach) => {
                let kept = bytes.len().min(reach as usize);
                let mut there = self.content.bytes.to_vec(self.alloc)?;
                replace(&mut there, at as usize, &bytes[..kept]);
                self.content.write(self.alloc, at, &[], len)?;
                self.there = Some(there);
            }
        }
        Ok(())
    }

    // Does to the bytes what becomes of a sync.
    fn make_durable(&mut self, fate: Fate) -> Result<(), AllocError>
        requires runs { IsNone self.old.there }
        ensures turns { self.new.turns ≡ self.old.turns }
        ensures eras { self.new.eras ≡ self.old.eras }
        ensures base { self.new.content.base.items ≡ self.old.content.base.items }
        ensures first { waiting_first self.new.content ≡ waiting_first self.old.content }
        ensures log { OnOk result (self.new.content.log.items ≡ self.old.content.log.items ++ sync_of fate) }
        ensures bytes { self.new.content.bytes.items ≡ self.old.content.bytes.items }
        ensures unsynced { OnOk result (waiting_now self.new.content ≡ still_unsynced fate (waiting_now self.old.content)) }
        ensures there { bytes_of self.new ≡ self.old.content.bytes.items }
        ensures stopped { OnOk result (has_stopped self.new ≡ is_stop fate) }
        ensures content_err { OnErr result (IsSame self.old.content self.new.content) }
        ensures there_err { OnErr result (IsNone self.new.there) }
    {
        match fate {
            Fate::Works => self.content.sync()?,
            Fate::Fails => {}
            Fate::Stops(_) => self.stop()?,
        }
        Ok(())
    }

    // What is there of this half and of the log, where one of them has stopped.
    fn there_beside(&self, log: &MemDisk, mut there: Vec<u8>) -> Option<Vec<u8>>
        requires { size_of self.now + size_of log.now ≡ length there.items }
        ensures some { is_some result ≡ (has_stopped self.now || has_stopped log.now) }
        ensures bytes { ForSome result (λ v. v.items ≡ bytes_of self.now ++ bytes_of log.now) }
    {
        if !self.is_stopped() && !log.is_stopped() {
            return None;
        }
        join(&mut there, self.bytes(), log.bytes());
        Some(there)
    }

    // Stops where it is.
    fn stop(&mut self) -> Result<(), AllocError>
        ensures turns { self.new.turns ≡ self.old.turns }
        ensures eras { self.new.eras ≡ self.old.eras }
        ensures content { self.new.content ≡ self.old.content }
        ensures bytes { OnOk result (bytes_of self.new ≡ self.old.content.bytes.items) }
        ensures stopped { OnOk result (has_stopped self.new ≡ true) }
        ensures err { OnErr result (self.new.there ≡ self.old.there) }
    {
        self.there = Some(self.content.bytes.to_vec(self.alloc)?);
        Ok(())
    }
}

impl Disk for MemDisk {
    ghost use Rattle.std.specs.Prelude.{◌≡◌, ◌≢◌, ◌+◌, ◌≤◌, [], length, refl, is_ok, if◌then◌else◌, OnOk, OnErr, IsErrOf};
    ghost use Rattle.std.specs.List.{slice_range};
    ghost use Rattle.disk_model.specs.Disk.{Elapses, Follows, Holds, NothingNew, Only, Torn};
    ghost use Rattle.disk_model.specs.Error.{HasCause};
    ghost use Rattle.disk_model.specs.Memory.{bytes_of, given_of, size_of, may_be_left, moment_of, left_since, failures_of, most_failures_of, unsynced_of, calls_of, script_of, has_stopped, IsServed, IsAsBefore, IsWritten};
    ghost use Rattle.disk_model.specs.Counts.{within_by};
    ghost use Rattle.disk_model.specs.EraLaws.{counts_later, only_later};
    ghost use Rattle.disk_model.specs.Images.{is_image};
    ghost use Rattle.disk_model.specs.Waiting.{waiting_first, waiting_now};

    ghost keeps_model = { Unit {0} };

    ghost size = { size_of };

    ghost gives = { given_of };

    ghost may_leave_now = { may_be_left };

    ghost moment = { moment_of };

    ghost may_have_left_since = { left_since };

    ghost failures = { failures_of };

    ghost most_failures = { most_failures_of };

    ghost calls_made = { calls_of };

    ghost within_most = { λ d. within_by (script_of d) (has_stopped d) (failures_of d) };

    ghost gives_size = { λ _ d. refl };

    ghost leaves_size = { λ _ d c left. left.size };

    ghost leaves_gives = { λ _ d. is_image d.content.bytes.items (waiting_now d.content) };

    ghost counts_now = { λ _ d t c le left. counts_later d.eras.items d.content.base.items d.content.bytes.items (waiting_first d.content) d.content.log.items (waiting_now d.content) d.content.replayed d.content.ranges t c le left };

    ghost only_now = { λ _ d c left. only_later d.eras.items d.content.base.items d.content.bytes.items (waiting_first d.content) d.content.log.items (waiting_now d.content) d.content.replayed d.content.ranges c left };

    fn len(&self) -> u64 {
        self.content.bytes.len() as u64
    }

    fn read(&mut self, at: u64, bytes: &mut [u8]) -> Result<(), DiskError>
        requires { at + length bytes.old ≤ size_of self.old }
        ensures size { size_of self.new ≡ size_of self.old }
        ensures read { OnOk result (bytes.new ≡ slice_range (given_of self.old) at (at + length bytes.old)) }
        ensures gives { given_of self.new ≡ given_of self.old }
        ensures leaves { NothingNew (may_be_left self.old) (may_be_left self.new) }
        ensures time { Elapses (moment_of self.old) (moment_of self.new)
            (left_since self.old) (left_since self.new) (may_be_left self.new) }
        ensures cause { HasCause DiskError.ReadFault (failures_of self.old) (failures_of self.new) result }
        ensures most { most_failures_of self.new ≤ most_failures_of self.old }
        ensures calls { calls_of self.new ≤ calls_of self.old + 1 }
        ensures served { result ≢ Err DiskError.Memory → IsServed DiskError.ReadFault self.old self.new result }
        ensures memory { IsErrOf result DiskError.Memory → IsAsBefore self.old self.new }
        ensures unsynced { unsynced_of self.new ≡ unsynced_of self.old }
        ensures bytes { bytes_of self.new ≡ bytes_of self.old }
        ensures script { script_of self.new ≡ script_of self.old }
    {
        let has_stopped = self.is_stopped();
        let fate = self.turns.begin(has_stopped)?;
        match fate {
            Fate::Works => {
                let from = at as usize;
                bytes.copy_from_slice(&self.content.bytes[from..from + bytes.len()]);
            }
            Fate::Fails => {}
            Fate::Stops(_) => self.stop()?,
        }
        self.turns.end(fate, DiskError::ReadFault)
    }

    fn write_at(&mut self, at: u64, bytes: &[u8]) -> Result<(), DiskError>
        requires { at + length bytes.now ≤ size_of self.old }
        ensures size { size_of self.new ≡ size_of self.old }
        ensures gives { OnOk result (Holds (given_of self.old) at bytes.now (given_of self.new)) }
        ensures failed { OnErr result (Torn at (length bytes.now) (given_of self.old) (given_of self.new)) }
        // What a read gives is never torn here: a write that isn't done leaves it as it was.
        ensures exact { OnErr result (given_of self.new ≡ given_of self.old) }
        ensures unwritten { IsErrOf result DiskError.Memory → given_of self.new ≡ given_of self.old }
        ensures leaves { Follows (Torn at (length bytes.now)) (may_be_left self.old) (may_be_left self.new) }
        ensures time { Elapses (moment_of self.old) (moment_of self.new)
            (left_since self.old) (left_since self.new) (may_be_left self.new) }
        ensures cause { HasCause DiskError.WriteFault (failures_of self.old) (failures_of self.new) result }
        ensures most { most_failures_of self.new ≤ most_failures_of self.old }
        ensures calls { calls_of self.new ≤ calls_of self.old + 1 }
        ensures served { result ≢ Err DiskError.Memory → IsServed DiskError.WriteFault self.old self.new result }
        ensures memory { IsErrOf result DiskError.Memory → IsAsBefore self.old self.new }
        ensures written { result ≢ Err DiskError.Memory → IsWritten self.old self.new at bytes.now }
        ensures script { script_of self.new ≡ script_of self.old }
    {
        let has_stopped = self.is_stopped();
        let fate = self.turns.begin(has_stopped)?;
        self.put(fate, at, bytes)?;
        self.turns.end(fate, DiskError::WriteFault)
    }

    fn sync(&mut self) -> Result<(), DiskError>
        ensures size { size_of self.new ≡ size_of self.old }
        ensures durable { OnOk result (Only (given_of self.old) (may_be_left self.new)) }
        ensures gives { given_of self.new ≡ given_of self.old }
        ensures leaves { NothingNew (may_be_left self.old) (may_be_left self.new) }
        ensures time { Elapses (moment_of self.old) (moment_of self.new)
            (left_since self.old) (left_since self.new) (may_be_left self.new) }
        ensures cause { HasCause DiskError.SyncFault (failures_of self.old) (failures_of self.new) result }
        ensures most { most_failures_of self.new ≤ most_failures_of self.old }
        ensures calls { calls_of self.new ≤ calls_of self.old + 1 }
        ensures served { result ≢ Err DiskError.Memory → IsServed DiskError.SyncFault self.old self.new result }
        ensures memory { IsErrOf result DiskError.Memory → IsAsBefore self.old self.new }
        ensures synced { unsynced_of self.new ≡ (if is_ok result then [] else unsynced_of self.old) }
        ensures bytes { bytes_of self.new ≡ bytes_of self.old }
        ensures script { script_of self.new ≡ script_of self.old }
    {
        let has_stopped = self.is_stopped();
        let fate = self.turns.begin(has_stopped)?;
        self.make_durable(fate)?;
        self.turns.end(fate, DiskError::SyncFault)
    }
}

/// What a disk in memory was until its log was lent, and room for the whole that it will be again.
#[derive(Drop)]
pub struct MemPast {
    eras: Vec<Era>,
    content: Content,
    border: u64,
    // room for the bytes of its next beginning, for the marks of those that wait, and for what is there if it has stopped
    base: Vec<u8>,
    marks: Vec<bool>,
    there: Vec<u8>,
    ghost room: { vec_len eras + 2 ≤ vec_capacity eras },
    ghost within: { border ≤ length content.bytes.items },
    ghost base_size: { length base.items ≡ length content.bytes.items },
    ghost marks_size: { length marks.items ≡ length content.bytes.items },
    ghost there_size: { length there.items ≡ length content.bytes.items },
}

// A range of what is there, once the disk has stopped.
fn there_between(
    alloc: Global,
    there: &Option<Vec<u8>>,
    from: usize,
    to: usize,
) -> Result<Option<Vec<u8>>, AllocError>
    requires order { from ≤ to }
    requires within { ForSome there.now (λ v. to ≤ length v.items) }
    ensures some { IfOk result (λ r. is_some r ≡ is_some there.now) }
    ensures bytes { IfOk result (λ r. ForSome r (λ v. v.items ≡ slice_range (there_or there.now []) from to)) }
{
    match there {
        Some(there) => Ok(Some(there[from..to].to_vec(alloc)?)),
        None => Ok(None),
    }
}

/// The script goes out with the log, and comes back with it. While the log is lent, the entries count the log's calls, on from
/// those that the whole had served. The home half's calls are counted on its own, from 0, and added once the log is back; an
/// entry that they pass over doesn't come any more. What is armed at the home half while the log is away counts its calls,
/// and is forgotten once the log is back. Where the disk has stopped, so has each half.
impl HalvedDisk for MemDisk {
    ghost use Rattle.std.specs.Prelude.{◌≡◌, ◌+◌, ◌-◌, ◌^◌, ◌≤◌, ◌++◌, ◌||◌, [], length, min, max, IfErr};
    ghost use Rattle.disk_model.specs.Halves.{AreHalves, IsPast, IsUntouched, Rejoins};
    ghost use Rattle.disk_model.specs.Eras.{moments_of, LeftSince};
    ghost use Rattle.disk_model.specs.Memory.{bytes_of, given_of, size_of, may_be_left, moment_of, left_since, failures_of, most_failures_of, unsynced_of, calls_of, script_of, has_stopped, IsAsBefore};

    type Log = MemDisk;

    type Past = MemPast;

    ghost left_before = { λ p. LeftSince p.eras.items p.content.base.items (waiting_first p.content) p.content.log.items };

    ghost until = { λ p. moments_of p.eras.items + length p.content.log.items };

    ghost cut_at = { λ p. p.border };

    ghost whole = { λ p. length p.content.bytes.items };

    ghost log_keeps = { λ keeps. keeps };

    fn lend_log(&mut self, border: u64) -> Result<(MemDisk, MemPast), DiskError>
        requires { border ≤ size_of self.old }
        ensures home { IfOk result (λ r. size_of self.new ≡ border) }
        ensures log { IfOk result (λ r. border + size_of r.0 ≡ size_of self.old) }
        ensures sizes { IfOk result (λ r. (r.1.border ≡ border) × (length r.1.content.bytes.items ≡ size_of self.old)) }
        ensures halves { IfOk result (λ r. AreHalves border (given_of self.old) (given_of self.new) (given_of r.0)
            (may_be_left self.old) (may_be_left self.new) (may_be_left r.0)) }
        ensures begins { IfOk result (λ r. (moment_of self.new ≡ 0) × (moment_of r.0 ≡ 0)) }
        ensures past { IfOk result (λ r. IsPast (moments_of r.1.eras.items + length r.1.content.log.items) (moment_of self.old)
            (LeftSince r.1.eras.items r.1.content.base.items (waiting_first r.1.content) r.1.content.log.items) (left_since self.old)) }
        ensures failures { IfOk result (λ r. (failures_of self.new ≡ failures_of self.old) × (failures_of r.0 ≡ failures_of self.old)) }
        ensures most { IfOk result (λ r. (most_failures_of self.new ≤ most_failures_of self.old) × (most_failures_of r.0 ≤ most_failures_of self.old)) }
        ensures bytes { IfOk result (λ r. bytes_of self.old ≡ bytes_of self.new ++ bytes_of r.0) }
        ensures script { IfOk result (λ r. (script_of self.new ≡ []) × (script_of r.0 ≡ script_of self.old)) }
        ensures calls { IfOk result (λ r. (calls_of self.new ≡ 0) × (calls_of r.0 ≡ calls_of self.old)) }
        ensures stopped { IfOk result (λ r. (has_stopped self.new ≡ has_stopped self.old) × (has_stopped r.0 ≡ has_stopped self.old)) }
        ensures err { OnErr result ((size_of self.new ≡ size_of self.old) × (failures_of self.new ≡ failures_of self.old) × (most_failures_of self.new ≤ most_failures_of self.old)) }
        ensures unlent { OnErr result (IsUntouched (given_of self.old) (given_of self.new) (may_be_left self.old) (may_be_left self.new)
            (moment_of self.old) (moment_of self.new) (left_since self.old) (left_since self.new)) }
        ensures as_before { OnErr result (IsAsBefore self.old self.new) }
        ensures armed { OnErr result (script_of self.new ≡ script_of self.old) }
        ensures told { IfErr result (λ e. e ≡ DiskError.Memory) }
    {
        let alloc = self.alloc;
        let (at, len) = (border as usize, self.content.bytes.len());
        let mut marks = vec![in alloc; false; len]?;
        let (home, log) = self.content.halves(alloc, at, &mut marks)?;
        let home_there = there_between(alloc, &self.there, 0, at)?;
        let log_there = there_between(alloc, &self.there, at, len)?;
        let base = vec![in alloc; 0; len]?;
        let there = vec![in alloc; 0; len]?;
        self.eras.reserve(2)?;
        let past = MemPast {
            eras: mem::replace(&mut self.eras, Vec::new(alloc)),
            content: mem::replace(&mut self.content, home),
            border,
            base,
            marks,
            there,
        };
        self.there = home_there;
        let log = MemDisk {
            alloc,
            eras: Vec::new(alloc),
            content: log,
            there: log_there,
            turns: self.turns.lend(alloc),
        };
        Ok((log, past))
    }

    fn return_log(&mut self, log: MemDisk, past: MemPast)
        requires home { size_of self.old ≡ past.border }
        requires log { past.border + size_of log ≡ length past.content.bytes.items }
        ensures size { size_of self.new ≡ length past.content.bytes.items }
        ensures halves { AreHalves past.border (given_of self.new) (given_of self.old) (given_of log)
            (may_be_left self.new) (may_be_left self.old) (may_be_left log) }
        ensures time { Rejoins (moments_of past.eras.items + length past.content.log.items) (moment_of self.new)
            (LeftSince past.eras.items past.content.base.items (waiting_first past.content) past.content.log.items) (left_since self.new)
            past.border (left_since self.old 0) (left_since log 0) }
        ensures bytes { bytes_of self.new ≡ bytes_of self.old ++ bytes_of log }
        // A disk of which a half has stopped has stopped as a whole.
        ensures stopped { has_stopped self.new ≡ (has_stopped self.old || has_stopped log) }
        ensures script { script_of self.new ≡ script_of log }
        ensures calls { calls_of self.new ≡ min (calls_of log + calls_of self.old) (2 ^ 64 - 1) }
        ensures failures { failures_of self.new ≡ max (failures_of self.old) (failures_of log) }
        ensures most { most_failures_of self.new ≤ max (most_failures_of self.old) (most_failures_of log) }
    {
        let MemPast {
            mut eras,
            content: was,
            border,
            base,
            marks,
            there,
        } = past;
        let (run, bytes) = was.into_run();
        let there = self.there_beside(&log, there);
        let whole = Content::joined(self.alloc, &self.content, &log.content, base, bytes, marks);
        let MemDisk {
            eras: log_eras,
            content: log_content,
            turns,
            ..
        } = log;
        let home_eras = mem::replace(&mut self.eras, Vec::new(self.alloc));
        let (home_run, _) = mem::replace(&mut self.content, whole).into_run();
        let (log_run, _) = log_content.into_run();
        eras.push_reserved(Era::Whole(run));
        eras.push_reserved(Era::Halved {
            border,
            home: home_eras,
            home_run,
            log: log_eras,
            log_run,
        });
        self.eras = eras;
        self.there = there;
        self.turns.rejoin(turns);
    }
}
