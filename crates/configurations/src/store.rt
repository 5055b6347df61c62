// The record of a chain on a disk.
ghost use Rattle.std.specs.Prelude.{◌≡◌, ◌+◌, ◌<◌, ◌≤◌, ◌↔◌, true, false, IfOk, IfErr, IsErrOf, IsTrue, OnOk};
ghost use Rattle.disk_model.specs.Disk.{LeavesOnly, Only};
ghost use Rattle.disk_model.specs.Part.{inside, TouchesOnly};
ghost use Rattle.gate_journal.specs.Runs.{OnlyReads};
ghost use Rattle.configurations.specs.Refusal.{HasCause, IsOfBeginning, IsOfCreating, IsOfDevice, IsOfOpening, IsOfRecording};
ghost use Rattle.configurations.specs.Store.{HoldsNone, HoldsOldOrNew, HoldsOldOrNext, HoldsRecord, IsBeingMade, IsNext, IsSettledConfig, begun, created, failed, recorded};

use crate::{Epoch, Record, Refusal};
use disk_model::{Disk, Part};
use gate_journal::{
    GatedPair, MAX_NUMBER, PAIR_SIZE, Slot, pair_readings_are_one, stores_leave_old_or_new,
};
use std::alloc::Global;
use std::marker::Model;

/// The record of a chain in a part of a disk, of 8,192 bytes: the payload of a pair, so that the part always holds the
/// old record or the new. Each call is lent the disk.
#[derive(Debug, Drop)]
pub struct ConfigStore {
    pair: GatedPair,
    current: Record,
}

impl Model for ConfigStore {
    ghost use Rattle.configurations.specs.Store.{State};

    ghost Value = { State };

    ghost view = { λ s. record { pair = s.pair; current = s.current } };
}

/// The slot in the pair's receipts, which are dropped.
fn receipt_slot() -> Slot
    ensures { result ≡ 0 }
{
    Slot::new(0).unwrap()
}

impl ConfigStore {
    /// A store in a part of a disk, which may hold anything, with this first record. The part has 8,192 bytes, within the
    /// disk. After it the whole disk is durable.
    ///
    /// 100 `Memory`, which changes nothing, and what the device refuses. Until it is done, an open slot of the part encodes
    /// what stood there behind an open gate, whole or in part, or nothing, or the part holds the record.
    pub fn create<D: Disk>(
        alloc: Global,
        disk: &mut D,
        part: Part,
        first: Record,
    ) -> Result<ConfigStore, Refusal>
        requires pair { part.len ≡ PAIR_SIZE }
        requires on_disk { part.start + part.len ≤ D.size disk.old }

        ensures store { IfOk result (λ s. s ≡ created part first) }
        ensures settled { D.keeps_model → IfOk result (λ s. IsSettledConfig s (D.gives disk.new) (D.may_leave_now disk.new)) }
        ensures whole { D.keeps_model → OnOk result (Only (D.gives disk.new) (D.may_leave_now disk.new)) }
        ensures any_moment { D.keeps_model → LeavesOnly D.moment D.may_have_left_since disk.old disk.new (IsBeingMade part first (D.may_leave_now disk.old)) }
        ensures frame { D.keeps_model → TouchesOnly D.gives D.may_leave_now D.moment D.may_have_left_since part disk.old disk.new }
        ensures size { D.size disk.new ≡ D.size disk.old }
        ensures told { IfErr result IsOfCreating }
        ensures unchanged { IfErr result (λ r. ¬ IsOfDevice r → disk.new ≡ disk.old) }
        ensures cause { HasCause (D.failures disk.old) (D.failures disk.new) result }
        ensures most { D.most_failures disk.new ≤ D.most_failures disk.old }
        ensures calls { D.calls_made disk.new ≤ D.calls_made disk.old + 12 }
    {
        let payload = first.encoded(alloc)?;
        let (pair, _receipt) = GatedPair::create(disk, part, &payload, receipt_slot(), 0)?;
        Ok(ConfigStore {
            pair,
            current: first,
        })
    }

    /// The store in a part of a disk, which may hold anything, with the record that the part holds. The part has 8,192
    /// bytes, within the disk. It syncs, and then reads; after it the whole disk is durable.
    ///
    /// 161 `NoRecord` exactly where the part holds none: neither slot is open, or the newer open one encodes none.
    /// 100 `Memory`, and what the device refuses. All leave the part as it was.
    pub fn open<D: Disk>(alloc: Global, disk: &mut D, part: Part) -> Result<ConfigStore, Refusal>
        requires pair { part.len ≡ PAIR_SIZE }
        requires on_disk { part.start + part.len ≤ D.size disk.old }

        ensures part { IfOk result (λ s. s.pair.part ≡ part) }
        ensures runs { IfOk result (λ s. s.pair.broken ≡ false) }
        ensures found { D.keeps_model → IfOk result (λ s. HoldsRecord s.current (inside part (D.gives disk.old))) }
        ensures settled { D.keeps_model → IfOk result (λ s. IsSettledConfig s (D.gives disk.new) (D.may_leave_now disk.new)) }
        ensures none { D.keeps_model → IsErrOf result Refusal.NoRecord → HoldsNone (inside part (D.gives disk.old)) }
        ensures whole { D.keeps_model → OnOk result (Only (D.gives disk.new) (D.may_leave_now disk.new)) }
        ensures reads { D.keeps_model → OnlyReads D.gives D.may_leave_now D.moment D.may_have_left_since disk.old disk.new }
        ensures frame { D.keeps_model → TouchesOnly D.gives D.may_leave_now D.moment D.may_have_left_since part disk.old disk.new }
        ensures size { D.size disk.new ≡ D.size disk.old }
        ensures told { IfErr result IsOfOpening }
        ensures cause { HasCause (D.failures disk.old) (D.failures disk.new) result }
        ensures most { D.most_failures disk.new ≤ D.most_failures disk.old }
    {
        pair_readings_are_one();
        let (pair, payload) = GatedPair::load(alloc, disk, part)?;
        let Some(payload) = payload else {
            return Err(Refusal::NoRecord);
        };
        let Some(current) = Record::read(alloc, &payload)? else {
            return Err(Refusal::NoRecord);
        };
        Ok(ConfigStore { pair, current })
    }

    /// The record that the part holds: the last one that was recorded.
    pub fn current(&self) -> &Record
        ensures { result.now ≡ self.now.current }
    {
        &self.current
    }

    /// The part of the disk that it stands in.
    pub fn part(&self) -> Part
        ensures { result ≡ self.now.pair.part }
    {
        self.pair.part()
    }

    /// Whether a device call failed: then nothing is recorded, and each call is refused with 122, until it is opened again.
    pub fn is_broken(&self) -> bool
        ensures { result ≡ self.now.pair.broken }
    {
        self.pair.is_broken()
    }

    /// Whether `end_record` may be called, as after `begin_record`.
    pub fn is_begun(&self) -> bool
        ensures { result ≡ self.now.pair.is_closed }
    {
        self.pair.is_begun()
    }

    /// Whether a record of this epoch may be recorded: 122 `Broken` exactly where a device call failed before, else
    /// 162 `NotNext` exactly where it isn't the next.
    fn may_record(&self, epoch: Epoch) -> Result<(), Refusal>
        ensures ok { OnOk result ((self.now.pair.broken ≡ false) × IsNext self.now epoch) }
        ensures broken { IsErrOf result Refusal.Broken ↔ (self.now.pair.broken ≡ true) }
        ensures not_next { IsErrOf result Refusal.NotNext ↔ ((self.now.pair.broken ≡ false) × ¬ IsNext self.now epoch) }
        ensures told { IfErr result IsOfBeginning }
        ensures own { IfErr result (λ r. ¬ IsOfDevice r) }
    {
        if self.pair.is_broken() {
            return Err(Refusal::Broken);
        }
        let is_next = epoch.number() == self.current.epoch().number() + 1;
        if !is_next || self.pair.number() == MAX_NUMBER {
            return Err(Refusal::NotNext);
        }
        Ok(())
    }

    /// The first half of recording a record of this epoch, by two device calls: the gate of the slot that it goes into is
    /// closed; a sync. After it the whole disk is durable. The store's part lies within the disk.
    ///
    /// 122 `Broken` exactly where a device call failed before; else 162 `NotNext` exactly where the epoch isn't the last
    /// one's plus 1 or the pair has no number left: these change nothing. After a refusal of the device the store is
    /// broken. Whatever happens, the part holds the record that it held.
    pub fn begin_record<D: Disk>(&mut self, disk: &mut D, next: Epoch) -> Result<(), Refusal>
        requires { self.old.pair.part.start + self.old.pair.part.len ≤ D.size disk.old }

        ensures ok { OnOk result (self.new ≡ begun self.old) }
        ensures next { OnOk result (IsNext self.old next) }
        ensures settled { D.keeps_model → IsSettledConfig self.old (D.gives disk.old) (D.may_leave_now disk.old)
            → OnOk result (IsSettledConfig self.new (D.gives disk.new) (D.may_leave_now disk.new)) }
        ensures whole { D.keeps_model → OnOk result (Only (D.gives disk.new) (D.may_leave_now disk.new)) }

        // A stop at any moment of the call leaves the record that the part held.
        ensures any_moment { D.keeps_model → IsSettledConfig self.old (D.gives disk.old) (D.may_leave_now disk.old)
            → LeavesOnly D.moment D.may_have_left_since disk.old disk.new (λ c. HoldsRecord self.old.current (inside self.old.pair.part c)) }
        ensures frame { D.keeps_model → TouchesOnly D.gives D.may_leave_now D.moment D.may_have_left_since self.old.pair.part disk.old disk.new }
        ensures size { D.size disk.new ≡ D.size disk.old }

        ensures broken { IsErrOf result Refusal.Broken ↔ (self.old.pair.broken ≡ true) }
        ensures not_next { IsErrOf result Refusal.NotNext ↔ ((self.old.pair.broken ≡ false) × ¬ IsNext self.old next) }
        ensures told { IfErr result IsOfBeginning }
        ensures unchanged { IfErr result (λ r. ¬ IsOfDevice r → (self.new ≡ self.old) × (disk.new ≡ disk.old)) }
        ensures device { IfErr result (λ r. IsOfDevice r → self.new ≡ failed self.old) }
        ensures cause { HasCause (D.failures disk.old) (D.failures disk.new) result }
        ensures most { D.most_failures disk.new ≤ D.most_failures disk.old }
        ensures calls { D.calls_made disk.new ≤ D.calls_made disk.old + 2 }
    {
        stores_leave_old_or_new();
        self.may_record(next)?;
        self.pair.begin_store(disk)?;
        Ok(())
    }

    /// The second half of recording, by four device calls: the record behind the closed gate; a sync; the opened gate;
    /// a sync. After it the whole disk is durable. The store's part lies within the disk; the gate is closed, as
    /// `begin_record` leaves it.
    ///
    /// 122 and 162 as at `begin_record`, and then 100 `Memory`: these change nothing. After a refusal of the device the
    /// store is broken, and the part holds the old record or the new.
    pub fn end_record<D: Disk>(
        &mut self,
        alloc: Global,
        disk: &mut D,
        next: Record,
    ) -> Result<(), Refusal>
        requires on_disk { self.old.pair.part.start + self.old.pair.part.len ≤ D.size disk.old }
        requires begun { self.old.pair.is_closed ≡ true }

        ensures ok { OnOk result (self.new ≡ recorded self.old next) }
        ensures next { OnOk result (IsNext self.old next.epoch) }
        ensures settled { D.keeps_model → IsSettledConfig self.old (D.gives disk.old) (D.may_leave_now disk.old)
            → OnOk result (IsSettledConfig self.new (D.gives disk.new) (D.may_leave_now disk.new)) }
        ensures whole { D.keeps_model → OnOk result (Only (D.gives disk.new) (D.may_leave_now disk.new)) }

        // A stop at any moment of the call leaves the old record or the new.
        ensures any_moment { D.keeps_model → IsSettledConfig self.old (D.gives disk.old) (D.may_leave_now disk.old)
            → LeavesOnly D.moment D.may_have_left_since disk.old disk.new (λ c. HoldsOldOrNew self.old.current next (inside self.old.pair.part c)) }
        ensures frame { D.keeps_model → TouchesOnly D.gives D.may_leave_now D.moment D.may_have_left_since self.old.pair.part disk.old disk.new }
        ensures size { D.size disk.new ≡ D.size disk.old }

        ensures broken { IsErrOf result Refusal.Broken ↔ (self.old.pair.broken ≡ true) }
        ensures not_next { IsErrOf result Refusal.NotNext ↔ ((self.old.pair.broken ≡ false) × ¬ IsNext self.old next.epoch) }
        ensures told { IfErr result IsOfRecording }
        ensures unchanged { IfErr result (λ r. ¬ IsOfDevice r → (self.new ≡ self.old) × (disk.new ≡ disk.old)) }
        ensures device { IfErr result (λ r. IsOfDevice r → self.new ≡ failed self.old) }
        ensures cause { HasCause (D.failures disk.old) (D.failures disk.new) result }
        ensures most { D.most_failures disk.new ≤ D.most_failures disk.old }
        ensures calls { D.calls_made disk.new ≤ D.calls_made disk.old + 4 }
    {
        stores_leave_old_or_new();
        self.may_record(next.epoch())?;
        let payload = next.encoded(alloc)?;
        let _receipt = self.pair.end_store(disk, &payload, receipt_slot(), 0)?;
        self.current = next;
        Ok(())
    }

    /// Records the next record, by the six device calls of `begin_record` and `end_record`. After it the whole disk is
    /// durable. The store's part lies within the disk.
    ///
    /// 122 `Broken` exactly where a device call failed before; else 162 `NotNext` exactly where the record's epoch isn't
    /// the last one's plus 1 or the pair has no number left; else 100 `Memory`: these change nothing. After a refusal of
    /// the device the store is broken, and the part holds the old record or the new.
    pub fn record<D: Disk>(
        &mut self,
        alloc: Global,
        disk: &mut D,
        next: Record,
    ) -> Result<(), Refusal>
        requires { self.old.pair.part.start + self.old.pair.part.len ≤ D.size disk.old }

        ensures ok { OnOk result (self.new ≡ recorded self.old next) }
        ensures next { OnOk result (IsNext self.old next.epoch) }
        ensures settled { D.keeps_model → IsSettledConfig self.old (D.gives disk.old) (D.may_leave_now disk.old)
            → OnOk result (IsSettledConfig self.new (D.gives disk.new) (D.may_leave_now disk.new)) }
        ensures whole { D.keeps_model → OnOk result (Only (D.gives disk.new) (D.may_leave_now disk.new)) }

        // A stop at any moment of the call leaves the old record or the new, with the number of the last store or the next.
        ensures any_moment { D.keeps_model → IsSettledConfig self.old (D.gives disk.old) (D.may_leave_now disk.old)
            → LeavesOnly D.moment D.may_have_left_since disk.old disk.new (λ c. HoldsOldOrNew self.old.current next (inside self.old.pair.part c)) }
        ensures numbered { D.keeps_model → IsSettledConfig self.old (D.gives disk.old) (D.may_leave_now disk.old)
            → LeavesOnly D.moment D.may_have_left_since disk.old disk.new (λ c. HoldsOldOrNext self.old next (inside self.old.pair.part c)) }
        ensures frame { D.keeps_model → TouchesOnly D.gives D.may_leave_now D.moment D.may_have_left_since self.old.pair.part disk.old disk.new }
        ensures size { D.size disk.new ≡ D.size disk.old }

        ensures broken { IsErrOf result Refusal.Broken ↔ (self.old.pair.broken ≡ true) }
        ensures not_next { IsErrOf result Refusal.NotNext ↔ ((self.old.pair.broken ≡ false) × ¬ IsNext self.old next.epoch) }
        ensures told { IfErr result IsOfRecording }
        ensures unchanged { IfErr result (λ r. ¬ IsOfDevice r → (self.new ≡ self.old) × (disk.new ≡ disk.old)) }
        ensures device { IfErr result (λ r. IsOfDevice r → self.new ≡ record self.old { pair = record self.old.pair { is_closed = self.new.pair.is_closed; broken = true } }) }
        ensures cause { HasCause (D.failures disk.old) (D.failures disk.new) result }
        ensures most { D.most_failures disk.new ≤ D.most_failures disk.old }
        ensures calls { D.calls_made disk.new ≤ D.calls_made disk.old + 6 }
    {
        stores_leave_old_or_new();
        self.may_record(next.epoch())?;
        let payload = next.encoded(alloc)?;
        let _receipt = self.pair.store(disk, &payload, receipt_slot(), 0)?;
        self.current = next;
        Ok(())
    }
}
