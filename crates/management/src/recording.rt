//! The next record is written.
ghost use Rattle.std.specs.Prelude.{◌≡◌, ◌↔◌, ◌+◌, ◌≤◌, false, true, IfErr, IfOk, IsErrOf, IsTrue, MatchBool, Ok, OnErr, OnOk};
ghost use Rattle.disk_model.specs.Disk.{LeavesOnly};
ghost use Rattle.disk_model.specs.Part.{inside};
ghost use Rattle.gate_journal.specs.Runs.{OnlyReads};
ghost use Rattle.configurations.specs.Refusal.{HasCause, IsOfDevice};
ghost use Rattle.configurations.specs.Store.{HoldsOldOrNew, IsSettledConfig, recorded};
ghost use Rattle.manager.specs.Manager.{coming_record, next_of};
ghost use Rattle.manager.specs.Orders.{is_record};
ghost use Rattle.management.specs.Management.{IsDurable, IsKept};
ghost use Rattle.management.specs.Recording.{HasRecorded, IsOfWriting, IsRefused};

use crate::management::Management;
use configurations::{ConfigStore, Member, Record, Refusal, records_are_one};
use disk_model::Disk;
use gate_journal::{MAX_NUMBER, PAIR_SIZE};
use std::alloc::Global;

impl<C: Disk + Drop> Management<C> {
    /// Where the next order is to write a record: it goes to the disk, and is the chain. A store that a fault broke before is opened again
    /// first: where the record stands there already, that is all. `false` where that isn't the next order: nothing changed.
    ///
    /// 100 `Memory`, 162 `NotNext` where the store has no number left, and what the device refuses: the order stays the next one. After a
    /// refusal of the device the store is broken, the disk has the record before or this one, and its writing has begun. 161 `NoRecord`, and
    /// 162 too, where a store is opened again on a disk that others wrote.
    pub fn record(&mut self) -> Result<bool, Refusal>
        ensures due { IfOk result (λ was. was ≡ is_record (next_of self.old.manager)) }
        ensures recorded { IfOk result (λ was. was ≡ true → HasRecorded self.old self.new) }
        ensures durable { C.keeps_model → IfOk result (λ was. was ≡ true → IsDurable C.gives C.may_leave_now self.new) }
        ensures idle { IfOk result (λ was. was ≡ false → self.new ≡ self.old) }

        // A stop at any moment of the call leaves the record that was there, or the one that is to be written.
        ensures any_moment { C.keeps_model → LeavesOnly C.moment C.may_have_left_since self.old.disk self.new.disk
            (λ c. HoldsOldOrNew self.old.manager.chain (coming_record self.old.manager) (inside self.old.config.pair.part c)) }

        ensures refused { IfErr result (IsRefused self.old self.new) }
        ensures told { IfErr result IsOfWriting }
        ensures no_record { C.keeps_model → ¬ IsErrOf result Refusal.NoRecord }
        ensures strange { IsErrOf result Refusal.NoRecord → self.old.config.pair.broken ≡ true }
        ensures not_next { C.keeps_model → IsErrOf result Refusal.NotNext → MAX_NUMBER ≤ self.new.config.pair.number }
        ensures no_number { self.old.config.pair.broken ≡ false → IsErrOf result Refusal.NotNext → MAX_NUMBER ≤ self.old.config.pair.number }
        ensures cause { HasCause (C.failures self.old.disk) (C.failures self.new.disk) result }
        ensures most { C.most_failures self.new.disk ≤ C.most_failures self.old.disk }
    {
        let Some(next) = self.manager.record(self.alloc)? else {
            return Ok(false);
        };
        if let Err(refusal) = put(self.alloc, &mut self.config, &mut self.disk, next) {
            if let Refusal::Device(_) = refusal {
                // It may stand there, so its joining can't be abandoned any more.
                self.manager.begin();
            }
            return Err(refusal);
        }
        self.manager.done();
        Ok(true)
    }
}

/// Puts the next record on the disk. A broken store is opened again first; where the record stands there already, that is all.
fn put<C: Disk>(
    alloc: Global,
    config: &mut ConfigStore,
    disk: &mut C,
    next: Record,
) -> Result<(), Refusal>
    requires pair { config.old.pair.part.len ≡ PAIR_SIZE }
    requires on_disk { config.old.pair.part.start + config.old.pair.part.len ≤ C.size disk.old }
    requires next { next.epoch ≡ config.old.current.epoch + 1 }

    ensures current { OnOk result (config.new.current ≡ next) }
    ensures runs { OnOk result (config.new.pair.broken ≡ false) }
    ensures recorded { config.old.pair.broken ≡ false → OnOk result (config.new ≡ recorded config.old next) }
    ensures kept { C.keeps_model → IsKept config.old next (C.gives disk.old) (C.may_leave_now disk.old)
        → IsKept config.new next (C.gives disk.new) (C.may_leave_now disk.new) }
    ensures any_moment { C.keeps_model → IsKept config.old next (C.gives disk.old) (C.may_leave_now disk.old)
        → LeavesOnly C.moment C.may_have_left_since disk.old disk.new (λ c. HoldsOldOrNew config.old.current next (inside config.old.pair.part c)) }
    ensures part { config.new.pair.part ≡ config.old.pair.part }
    ensures size { C.size disk.new ≡ C.size disk.old }

    ensures still { OnErr result (config.new.current ≡ config.old.current) }
    ensures device { IfErr result (λ r. IsOfDevice r → config.new.pair.broken ≡ true) }
    ensures others { IfErr result (λ r. ¬ IsOfDevice r → config.new.pair.broken ≡ true → config.new ≡ config.old) }
    ensures unchanged { config.old.pair.broken ≡ false → IfErr result (λ r. ¬ IsOfDevice r → (config.new ≡ config.old) × (disk.new ≡ disk.old)) }
    ensures told { IfErr result IsOfWriting }
    ensures no_record { C.keeps_model → IsKept config.old next (C.gives disk.old) (C.may_leave_now disk.old) → ¬ IsErrOf result Refusal.NoRecord }
    ensures strange { IsErrOf result Refusal.NoRecord → config.old.pair.broken ≡ true }
    ensures not_next { C.keeps_model → IsKept config.old next (C.gives disk.old) (C.may_leave_now disk.old)
        → IsErrOf result Refusal.NotNext → MAX_NUMBER ≤ config.new.pair.number }
    ensures no_number { config.old.pair.broken ≡ false → IsErrOf result Refusal.NotNext → MAX_NUMBER ≤ config.old.pair.number }
    ensures cause { HasCause (C.failures disk.old) (C.failures disk.new) result }
    ensures most { C.most_failures disk.new ≤ C.most_failures disk.old }
{
    if open_if_broken(alloc, config, disk, &next)? {
        return Ok(());
    }
    config.record(alloc, disk, next)
}

/// Opens the store again, where it is broken. Whether the next record stands there already.
fn open_if_broken<C: Disk>(
    alloc: Global,
    config: &mut ConfigStore,
    disk: &mut C,
    next: &Record,
) -> Result<bool, Refusal>
    requires pair { config.old.pair.part.len ≡ PAIR_SIZE }
    requires on_disk { config.old.pair.part.start + config.old.pair.part.len ≤ C.size disk.old }

    ensures found { IfOk result (λ is_next. MatchBool is_next (config.new.current ≡ next.now) (config.new.current ≡ config.old.current)) }
    ensures runs { OnOk result (config.new.pair.broken ≡ false) }
    ensures part { config.new.pair.part ≡ config.old.pair.part }
    ensures settled { C.keeps_model → IsKept config.old next.now (C.gives disk.old) (C.may_leave_now disk.old)
        → OnOk result (IsSettledConfig config.new (C.gives disk.new) (C.may_leave_now disk.new)) }
    ensures reads { C.keeps_model → OnlyReads C.gives C.may_leave_now C.moment C.may_have_left_since disk.old disk.new }
    ensures size { C.size disk.new ≡ C.size disk.old }
    ensures unbroken { config.old.pair.broken ≡ false → (result ≡ Ok false) × ((config.new ≡ config.old) × (disk.new ≡ disk.old)) }

    ensures as_before { OnErr result (config.new ≡ config.old) }
    ensures told { IfErr result IsOfWriting }
    ensures known { C.keeps_model → IsKept config.old next.now (C.gives disk.old) (C.may_leave_now disk.old)
        → ¬ IsErrOf result Refusal.NoRecord × ¬ IsErrOf result Refusal.NotNext }
    ensures cause { HasCause (C.failures disk.old) (C.failures disk.new) result }
    ensures most { C.most_failures disk.new ≤ C.most_failures disk.old }
{
    if !config.is_broken() {
        return Ok(false);
    }
    records_are_one();
    let opened = ConfigStore::open(alloc, disk, config.part())?;
    let is_next = are_one(opened.current(), next);
    if !is_next && !are_one(opened.current(), config.current()) {
        return Err(Refusal::NotNext);
    }
    *config = opened;
    Ok(is_next)
}

/// Whether two records are one.
fn are_one(one: &Record, other: &Record) -> bool
    ensures { IsTrue result ↔ (one.now ≡ other.now) }
{
    one.epoch() == other.epoch() && are_same(one.members(), other.members())
}

/// Whether two chains have the same members.
fn are_same(one: &[Member], other: &[Member]) -> bool
    ensures { IsTrue result ↔ (one.now ≡ other.now) }
{
    one == other
}
