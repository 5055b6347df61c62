// A payload that is replaced as a whole, in two slots behind gates.
ghost use Rattle.std.specs.Prelude.{◌≡◌, ◌≢◌, ◌+◌, ◌-◌, ◌*◌, ◌^◌, ◌<◌, ◌≤◌, ◌↔◌, List, Option, Some, None, ℕ, true, false, length, replicate, IfOk, IfErr, OnOk, OnErr, IsErrOf};
ghost use Rattle.disk_model.specs.Disk.{Holds, LeavesOnly, Only};
ghost use Rattle.disk_model.specs.Part.{inside, TouchesOnly};
ghost use Rattle.gate_journal.specs.Pair.{HoldsClosing, HoldsStored, IsBeingMade, IsCleared, IsPayloadOf, IsSettledPair, IsTornIn, Pair, Slots, closing, entry_encoding, last_number, newest, next_slot, slot_bytes, stored, with_entry};
ghost use Rattle.gate_journal.specs.PairSlot.{entry_behind};
ghost use Rattle.gate_journal.specs.Reading.{HoldsAt};
ghost use Rattle.gate_journal.specs.Refusal.{HasCause, IsOfDevice, IsOfLoading, IsOfStoring, IsOfWriting};
ghost use Rattle.gate_journal.specs.Runs.{OnlyReads};

use crate::batch::{CLOSED, MAX_NUMBER};
use crate::pair_slot::{
    EntryHead, HEAD_NUMBERS, MAX_PAYLOAD, SLOT_SIZE, close_gate, read_head, read_payload,
    write_entry,
};
use crate::refusal::Refusal;
use crate::slot::Slot;
use crate::synced::Synced;
use disk_model::{Disk, DiskError, Part};
use std::alloc::Global;
use std::marker::Model;

/// The bytes of a pair.
pub const PAIR_SIZE: u64 = 8_192;

/// A payload in a part of a disk, of 8,192 bytes: two slots behind gates, of which the newer open one counts. A store
/// goes into the other slot, so the part always holds the old payload or the new. Each call is lent the disk.
#[derive(Debug, Drop)]
pub struct GatedPair {
    part: Part,
    number: u64,
    into: u64,
    is_closed: bool,
    other_is_closed: bool,
    broken: bool,
}

impl Model for GatedPair {
    ghost use Rattle.std.specs.Prelude.{◌≡◌, ◌<◌, ◌≤◌};
    ghost use Rattle.gate_journal.specs.Pair.{Pair};
    ghost use Rattle.gate_journal.specs.declared.batch.TheConstants.{MAX_NUMBER};
    ghost use Rattle.gate_journal.specs.declared.pair.TheConstants.{PAIR_SIZE};

    ghost Value = { Pair };

    ghost view = { λ p. record { part = p.part; number = p.number; into = p.into; is_closed = p.is_closed; other_is_closed = p.other_is_closed; broken = p.broken } };

    ghost invariant = { λ p. (p.part.len ≡ PAIR_SIZE) × (p.number ≤ MAX_NUMBER) × (p.into < 2) };
}

/// The part of slot 0 or 1.
fn slot_part(part: Part, slot: u64) -> Part
    requires pair { part.len ≡ PAIR_SIZE }
    requires slot { slot < 2 }
    ensures start { result.start ≡ part.start + SLOT_SIZE * slot }
    ensures len { result.len ≡ SLOT_SIZE }
{
    Part::new(part.start() + SLOT_SIZE * slot, SLOT_SIZE)
}

/// The slot that the next store goes into.
fn next_of(first: Option<EntryHead>, second: Option<EntryHead>) -> u64
    ensures next { (one other : List ℕ) → result ≡ next_slot (record { first = entry_behind first one; second = entry_behind second other }) }
    ensures within { result < 2 }
{
    match (first, second) {
        (None, _) => 0,
        (Some(_), None) => 1,
        (Some(one), Some(other)) => { if one.number < other.number { 0 } else { 1 } }
    }
}

/// The number of an entry, 0 where there is none.
fn number_of(entry: Option<EntryHead>) -> u64
    requires { (head : EntryHead) → entry ≡ Some head → head.number ≤ MAX_NUMBER }
    ensures number { (bytes : List ℕ) → result ≡ last_number (entry_behind entry bytes) }
    ensures limit { result ≤ MAX_NUMBER }
{
    match entry {
        None => 0,
        Some(head) => head.number,
    }
}

/// The payload of an entry, `None` where there is none.
fn read_newest<D: Disk>(
    alloc: Global,
    part: Part,
    disk: &mut D,
    entry: Option<EntryHead>,
) -> Result<Option<Vec<u8>>, Refusal>
    requires slot { part.len ≡ SLOT_SIZE }
    requires on_disk { part.start + part.len ≤ D.size disk.old }
    requires fits { (head : EntryHead) → entry ≡ Some head → head.len ≤ MAX_PAYLOAD }
    ensures payload { D.keeps_model → IfOk result (IsPayloadOf (entry_behind entry (inside part (D.gives disk.old)))) }
    ensures reads { D.keeps_model → OnlyReads D.gives D.may_leave_now D.moment D.may_have_left_since disk.old disk.new }
    ensures size { D.size disk.new ≡ D.size disk.old }
    ensures told { IfErr result IsOfLoading }
    ensures cause { HasCause (D.failures disk.old) (D.failures disk.new) result }
    ensures most { D.most_failures disk.new ≤ D.most_failures disk.old }
{
    let Some(head) = entry else {
        return Ok(None);
    };
    let payload = read_payload(alloc, part, disk, head.len)?;
    Ok(Some(payload))
}

/// Writes the same bytes at the same place of both slots, and syncs.
fn write_both<D: Disk>(part: Part, disk: &mut D, at: u64, bytes: &[u8]) -> Result<(), DiskError>
    requires pair { part.len ≡ PAIR_SIZE }
    requires on_disk { part.start + part.len ≤ D.size disk.old }
    requires range { at + length bytes.now ≤ SLOT_SIZE }
    ensures first { D.keeps_model → OnOk result (Holds (slot_bytes 0 (inside part (D.gives disk.old))) at bytes.now (slot_bytes 0 (inside part (D.gives disk.new)))) }
    ensures second { D.keeps_model → OnOk result (Holds (slot_bytes 1 (inside part (D.gives disk.old))) at bytes.now (slot_bytes 1 (inside part (D.gives disk.new)))) }
    ensures whole { D.keeps_model → OnOk result (Only (D.gives disk.new) (D.may_leave_now disk.new)) }
    ensures any_moment { D.keeps_model → LeavesOnly D.moment D.may_have_left_since disk.old disk.new
        (λ c. IsTornIn part 0 at (length bytes.now) (D.may_leave_now disk.old) c × IsTornIn part 1 at (length bytes.now) (D.may_leave_now disk.old) c) }
    ensures frame { D.keeps_model → TouchesOnly D.gives D.may_leave_now D.moment D.may_have_left_since part disk.old disk.new }
    ensures size { D.size disk.new ≡ D.size disk.old }
    ensures told { IfErr result (λ e. e ≢ DiskError.ReadFault) }
    ensures later { D.failures disk.old ≤ D.failures disk.new }
    ensures done { OnOk result (D.failures disk.new ≡ D.failures disk.old) }
    ensures cause { IfErr result (λ e. e ≢ DiskError.Memory → D.failures disk.old < D.failures disk.new) }
    ensures most { D.most_failures disk.new ≤ D.most_failures disk.old }
    ensures calls { D.calls_made disk.new ≤ D.calls_made disk.old + 3 }
{
    slot_part(part, 0).write_at(disk, at, bytes)?;
    slot_part(part, 1).write_at(disk, at, bytes)?;
    part.sync(disk)
}

/// Clears both slots: zeros in the places of number and length, a sync, closed gates, a sync. So no payload from before
/// is ever the newer one.
fn clear<D: Disk>(part: Part, disk: &mut D) -> Result<(), DiskError>
    requires pair { part.len ≡ PAIR_SIZE }
    requires on_disk { part.start + part.len ≤ D.size disk.old }
    ensures first { D.keeps_model → OnOk result (HoldsAt (slot_bytes 0 (inside part (D.gives disk.new))) 0 13 (replicate 13 0)) }
    ensures second { D.keeps_model → OnOk result (HoldsAt (slot_bytes 1 (inside part (D.gives disk.new))) 0 13 (replicate 13 0)) }
    ensures whole { D.keeps_model → OnOk result (Only (D.gives disk.new) (D.may_leave_now disk.new)) }
    ensures any_moment { D.keeps_model → LeavesOnly D.moment D.may_have_left_since disk.old disk.new
        (λ c. IsCleared part 0 (D.may_leave_now disk.old) c × IsCleared part 1 (D.may_leave_now disk.old) c) }
    ensures frame { D.keeps_model → TouchesOnly D.gives D.may_leave_now D.moment D.may_have_left_since part disk.old disk.new }
    ensures size { D.size disk.new ≡ D.size disk.old }
    ensures told { IfErr result (λ e. e ≢ DiskError.ReadFault) }
    ensures later { D.failures disk.old ≤ D.failures disk.new }
    ensures done { OnOk result (D.failures disk.new ≡ D.failures disk.old) }
    ensures cause { IfErr result (λ e. e ≢ DiskError.Memory → D.failures disk.old < D.failures disk.new) }
    ensures most { D.most_failures disk.new ≤ D.most_failures disk.old }
    ensures calls { D.calls_made disk.new ≤ D.calls_made disk.old + 6 }
{
    write_both(part, disk, 1, &[0; HEAD_NUMBERS])?;
    write_both(part, disk, 0, &[CLOSED])
}

impl GatedPair {
    /// A pair in a part of a disk, which may hold anything, with this payload of at most 4,083 bytes. The part has 8,192
    /// bytes, within the disk. It clears both slots, and stores number 1 into slot 0; the receipt is of this slot of the
    /// chain and this front, which is at most 2^63 - 1. After it the whole disk is durable.
    ///
    /// It is refused by the device alone. Until it is done, an open slot of the part holds a payload that stood there
    /// behind an open gate, whole or in part, or an empty one, or slot 0 holds the new payload and slot 1 nothing.
    pub fn create<D: Disk>(
        disk: &mut D,
        part: Part,
        payload: &[u8],
        slot: Slot,
        front: u64,
    ) -> Result<(GatedPair, Synced), Refusal>
        requires pair { part.len ≡ PAIR_SIZE }
        requires on_disk { part.start + part.len ≤ D.size disk.old }
        requires fits { length payload.now ≤ MAX_PAYLOAD }
        requires limit { front ≤ MAX_NUMBER }

        ensures pair { IfOk result (λ r. r.0 ≡ record { part = part; number = 1; into = 1; is_closed = true; other_is_closed = false; broken = false }) }
        ensures receipt { IfOk result (λ r. r.1 ≡ record { slot = slot; front = front }) }
        ensures settled { D.keeps_model → IfOk result (λ r. IsSettledPair r.0 (record { first = Some (record { number = 1; payload = payload.now }); second = None }) (D.gives disk.new) (D.may_leave_now disk.new)) }
        ensures cleared { D.keeps_model → OnOk result (HoldsAt (slot_bytes 1 (inside part (D.gives disk.new))) 0 13 (replicate 13 0)) }
        ensures whole { D.keeps_model → OnOk result (Only (D.gives disk.new) (D.may_leave_now disk.new)) }
        ensures any_moment { D.keeps_model → LeavesOnly D.moment D.may_have_left_since disk.old disk.new (IsBeingMade part payload.now (D.may_leave_now disk.old)) }
        ensures frame { D.keeps_model → TouchesOnly D.gives D.may_leave_now D.moment D.may_have_left_since part disk.old disk.new }
        ensures size { D.size disk.new ≡ D.size disk.old }
        ensures told { IfErr result IsOfWriting }
        ensures cause { HasCause (D.failures disk.old) (D.failures disk.new) result }
        ensures most { D.most_failures disk.new ≤ D.most_failures disk.old }
        ensures calls { D.calls_made disk.new ≤ D.calls_made disk.old + 12 }
    {
        clear(part, disk)?;
        let mut pair = GatedPair {
            part,
            number: 0,
            into: 0,
            is_closed: true,
            other_is_closed: true,
            broken: false,
        };
        let receipt = pair.store(disk, payload, slot, front)?;
        Ok((pair, receipt))
    }

    /// The pair in a part of a disk, which may hold anything, and its payload: that of the newer open slot, or `None` where
    /// neither is open. The part has 8,192 bytes, within the disk. It syncs, and then reads; after it the whole disk is
    /// durable.
    ///
    /// 100 `Memory`, and what the device refuses. Both leave the part as it was.
    pub fn load<D: Disk>(
        alloc: Global,
        disk: &mut D,
        part: Part,
    ) -> Result<(GatedPair, Option<Vec<u8>>), Refusal>
        requires pair { part.len ≡ PAIR_SIZE }
        requires on_disk { part.start + part.len ≤ D.size disk.old }

        ensures part { IfOk result (λ r. r.0.part ≡ part) }
        ensures runs { IfOk result (λ r. r.0.broken ≡ false) }
        ensures settled { D.keeps_model → IfOk result (λ r. (slots : Slots) × IsSettledPair r.0 slots (D.gives disk.new) (D.may_leave_now disk.new) × IsPayloadOf (newest slots) r.1) }
        ensures whole { D.keeps_model → OnOk result (Only (D.gives disk.new) (D.may_leave_now disk.new)) }
        ensures reads { D.keeps_model → OnlyReads D.gives D.may_leave_now D.moment D.may_have_left_since disk.old disk.new }
        ensures frame { D.keeps_model → TouchesOnly D.gives D.may_leave_now D.moment D.may_have_left_since part disk.old disk.new }
        ensures size { D.size disk.new ≡ D.size disk.old }
        ensures told { IfErr result IsOfLoading }
        ensures cause { HasCause (D.failures disk.old) (D.failures disk.new) result }
        ensures most { D.most_failures disk.new ≤ D.most_failures disk.old }
    {
        part.sync(disk)?;
        let first = read_head(slot_part(part, 0), disk)?;
        let second = read_head(slot_part(part, 1), disk)?;
        let into = next_of(first.entry, second.entry);
        let order = if into == 0 {
            (second, first)
        } else {
            (first, second)
        };
        let (newer, older) = order;
        let payload = read_newest(alloc, slot_part(part, 1 - into), disk, newer.entry)?;
        let pair = GatedPair {
            part,
            number: number_of(newer.entry),
            into,
            is_closed: older.is_closed,
            other_is_closed: newer.is_closed,
            broken: false,
        };
        Ok((pair, payload))
    }

    /// The part of the disk that it stands in.
    pub fn part(&self) -> Part
        ensures { result ≡ self.now.part }
    {
        self.part
    }

    /// The number of the last store, 0 where there was none.
    pub fn number(&self) -> u64
        ensures number { result ≡ self.now.number }
        ensures limit { result ≤ MAX_NUMBER }
    {
        self.number
    }

    /// Whether a device call failed: then each store is refused with 122, until it is loaded again.
    pub fn is_broken(&self) -> bool
        ensures { result ≡ self.now.broken }
    {
        self.broken
    }

    /// Whether the gate of the slot that the next store goes into is closed, as `begin_store` leaves it.
    pub fn is_begun(&self) -> bool
        ensures { result ≡ self.now.is_closed }
    {
        self.is_closed
    }

    /// Whether a store may go on: 122 `Broken` exactly where a device call failed before, else 121 `Full` exactly where
    /// no number is left.
    fn may_store(&self) -> Result<(), Refusal>
        ensures ok { OnOk result ((self.now.broken ≡ false) × (self.now.number < MAX_NUMBER)) }
        ensures broken { IsErrOf result Refusal.Broken ↔ (self.now.broken ≡ true) }
        ensures full { IsErrOf result Refusal.Full ↔ ((self.now.broken ≡ false) × (self.now.number ≡ MAX_NUMBER)) }
        ensures told { IfErr result IsOfStoring }
        ensures own { IfErr result (λ r. ¬ IsOfDevice r) }
    {
        if self.broken {
            return Err(Refusal::Broken);
        }
        if self.number == MAX_NUMBER {
            return Err(Refusal::Full);
        }
        Ok(())
    }

    /// The first half of a store, by two device calls: the gate of the slot that it goes into is closed, if it is open;
    /// a sync. After it the whole disk is durable. The pair's part lies within the disk.
    ///
    /// 122 `Broken` exactly where a device call failed before; else 121 `Full` exactly where the last number is 2^63 - 1:
    /// these change nothing. After a refusal of the device the pair is broken, and the part holds what it held, with that
    /// slot or without.
    pub fn begin_store<D: Disk>(&mut self, disk: &mut D) -> Result<(), Refusal>
        requires { self.old.part.start + self.old.part.len ≤ D.size disk.old }

        ensures ok { OnOk result (self.new ≡ record self.old { is_closed = true }) }
        ensures settled { D.keeps_model → (slots : Slots) → IsSettledPair self.old slots (D.gives disk.old) (D.may_leave_now disk.old)
            → OnOk result (IsSettledPair self.new (with_entry self.old.into None slots) (D.gives disk.new) (D.may_leave_now disk.new)) }
        ensures bytes { D.keeps_model → OnOk result (Holds (slot_bytes self.old.into (inside self.old.part (D.gives disk.old))) 0 (closing self.old.is_closed)
            (slot_bytes self.old.into (inside self.old.part (D.gives disk.new)))) }
        ensures other { D.keeps_model → slot_bytes (1 - self.old.into) (inside self.old.part (D.gives disk.new)) ≡ slot_bytes (1 - self.old.into) (inside self.old.part (D.gives disk.old)) }
        ensures whole { D.keeps_model → OnOk result (Only (D.gives disk.new) (D.may_leave_now disk.new)) }

        // A stop at any moment of the call leaves what the part held, with the slot that is closed or without.
        ensures any_moment { D.keeps_model → (slots : Slots) → IsSettledPair self.old slots (D.gives disk.old) (D.may_leave_now disk.old)
            → LeavesOnly D.moment D.may_have_left_since disk.old disk.new (λ c. HoldsClosing slots self.old.into (inside self.old.part c)) }
        ensures frame { D.keeps_model → TouchesOnly D.gives D.may_leave_now D.moment D.may_have_left_since self.old.part disk.old disk.new }
        ensures size { D.size disk.new ≡ D.size disk.old }

        ensures broken { IsErrOf result Refusal.Broken ↔ (self.old.broken ≡ true) }
        ensures full { IsErrOf result Refusal.Full ↔ ((self.old.broken ≡ false) × (self.old.number ≡ MAX_NUMBER)) }
        ensures told { IfErr result IsOfStoring }
        ensures unchanged { IfErr result (λ r. ¬ IsOfDevice r → (self.new ≡ self.old) × (disk.new ≡ disk.old)) }
        ensures device { IfErr result (λ r. IsOfDevice r → self.new ≡ record self.old { broken = true }) }
        ensures cause { HasCause (D.failures disk.old) (D.failures disk.new) result }
        ensures most { D.most_failures disk.new ≤ D.most_failures disk.old }
        ensures calls { D.calls_made disk.new ≤ D.calls_made disk.old + 2 }
    {
        self.may_store()?;
        if let Err(error) = self.close_next(disk) {
            self.broken = true;
            return Err(Refusal::Device(error));
        }
        self.is_closed = true;
        Ok(())
    }

    /// The two device calls of `begin_store`.
    fn close_next<D: Disk>(&self, disk: &mut D) -> Result<(), DiskError>
        requires { self.now.part.start + self.now.part.len ≤ D.size disk.old }
        ensures settled { D.keeps_model → (slots : Slots) → IsSettledPair self.now slots (D.gives disk.old) (D.may_leave_now disk.old)
            → OnOk result (IsSettledPair (record self.now { is_closed = true }) (with_entry self.now.into None slots) (D.gives disk.new) (D.may_leave_now disk.new)) }
        ensures bytes { D.keeps_model → OnOk result (Holds (slot_bytes self.now.into (inside self.now.part (D.gives disk.old))) 0 (closing self.now.is_closed)
            (slot_bytes self.now.into (inside self.now.part (D.gives disk.new)))) }
        ensures other { D.keeps_model → slot_bytes (1 - self.now.into) (inside self.now.part (D.gives disk.new)) ≡ slot_bytes (1 - self.now.into) (inside self.now.part (D.gives disk.old)) }
        ensures whole { D.keeps_model → OnOk result (Only (D.gives disk.new) (D.may_leave_now disk.new)) }
        ensures any_moment { D.keeps_model → (slots : Slots) → IsSettledPair self.now slots (D.gives disk.old) (D.may_leave_now disk.old)
            → LeavesOnly D.moment D.may_have_left_since disk.old disk.new (λ c. HoldsClosing slots self.now.into (inside self.now.part c)) }
        ensures frame { D.keeps_model → TouchesOnly D.gives D.may_leave_now D.moment D.may_have_left_since self.now.part disk.old disk.new }
        ensures size { D.size disk.new ≡ D.size disk.old }
        ensures told { IfErr result (λ e. e ≢ DiskError.ReadFault) }
        ensures later { D.failures disk.old ≤ D.failures disk.new }
        ensures done { OnOk result (D.failures disk.new ≡ D.failures disk.old) }
        ensures cause { IfErr result (λ e. e ≢ DiskError.Memory → D.failures disk.old < D.failures disk.new) }
        ensures most { D.most_failures disk.new ≤ D.most_failures disk.old }
        ensures calls { D.calls_made disk.new ≤ D.calls_made disk.old + 2 }
    {
        close_gate(slot_part(self.part, self.into), disk, self.is_closed)
    }

    /// The second half of a store, by four device calls: number, length and payload behind the closed gate; a sync; the
    /// opened gate; a sync. After it the whole disk is durable. The receipt is of this slot and front, which is at most
    /// 2^63 - 1. The payload has at most 4,083 bytes; the pair's part lies within the disk; the gate is closed, as
    /// `begin_store` leaves it.
    ///
    /// 122 and 121 as at `begin_store`. After a refusal of the device the pair is broken, and the part holds what it held,
    /// with the new payload or without.
    pub fn end_store<D: Disk>(
        &mut self,
        disk: &mut D,
        payload: &[u8],
        slot: Slot,
        front: u64,
    ) -> Result<Synced, Refusal>
        requires on_disk { self.old.part.start + self.old.part.len ≤ D.size disk.old }
        requires begun { self.old.is_closed ≡ true }
        requires fits { length payload.now ≤ MAX_PAYLOAD }
        requires limit { front ≤ MAX_NUMBER }

        ensures receipt { IfOk result (λ receipt. receipt ≡ record { slot = slot; front = front }) }
        ensures ok { OnOk result (self.new ≡ stored self.old) }
        ensures settled { D.keeps_model → (slots : Slots) → IsSettledPair self.old slots (D.gives disk.old) (D.may_leave_now disk.old)
            → OnOk result (IsSettledPair self.new (with_entry self.old.into (Some (record { number = self.old.number + 1; payload = payload.now })) slots) (D.gives disk.new) (D.may_leave_now disk.new)) }
        ensures bytes { D.keeps_model → OnOk result (HoldsAt (slot_bytes self.old.into (inside self.old.part (D.gives disk.new))) 0 (13 + length payload.now)
            (entry_encoding (record { number = self.old.number + 1; payload = payload.now }))) }
        ensures other { D.keeps_model → slot_bytes (1 - self.old.into) (inside self.old.part (D.gives disk.new)) ≡ slot_bytes (1 - self.old.into) (inside self.old.part (D.gives disk.old)) }
        ensures whole { D.keeps_model → OnOk result (Only (D.gives disk.new) (D.may_leave_now disk.new)) }

        // A stop at any moment of the call leaves what the part held, with the new payload or without.
        ensures any_moment { D.keeps_model → (slots : Slots) → IsSettledPair self.old slots (D.gives disk.old) (D.may_leave_now disk.old)
            → LeavesOnly D.moment D.may_have_left_since disk.old disk.new
            (λ c. HoldsStored slots self.old.into (record { number = self.old.number + 1; payload = payload.now }) (inside self.old.part c)) }
        ensures frame { D.keeps_model → TouchesOnly D.gives D.may_leave_now D.moment D.may_have_left_since self.old.part disk.old disk.new }
        ensures size { D.size disk.new ≡ D.size disk.old }

        ensures broken { IsErrOf result Refusal.Broken ↔ (self.old.broken ≡ true) }
        ensures full { IsErrOf result Refusal.Full ↔ ((self.old.broken ≡ false) × (self.old.number ≡ MAX_NUMBER)) }
        ensures told { IfErr result IsOfStoring }
        ensures unchanged { IfErr result (λ r. ¬ IsOfDevice r → (self.new ≡ self.old) × (disk.new ≡ disk.old)) }
        ensures device { IfErr result (λ r. IsOfDevice r → self.new ≡ record self.old { broken = true }) }
        ensures cause { HasCause (D.failures disk.old) (D.failures disk.new) result }
        ensures most { D.most_failures disk.new ≤ D.most_failures disk.old }
        ensures calls { D.calls_made disk.new ≤ D.calls_made disk.old + 4 }
    {
        self.may_store()?;
        if let Err(error) = self.write_next(disk, payload) {
            self.broken = true;
            return Err(Refusal::Device(error));
        }
        self.number += 1;
        self.into = 1 - self.into;
        self.is_closed = self.other_is_closed;
        self.other_is_closed = false;
        Ok(Synced::new(slot, front))
    }

    /// The four device calls of `end_store`.
    fn write_next<D: Disk>(&self, disk: &mut D, payload: &[u8]) -> Result<(), DiskError>
        requires on_disk { self.now.part.start + self.now.part.len ≤ D.size disk.old }
        requires begun { self.now.is_closed ≡ true }
        requires number { self.now.number < MAX_NUMBER }
        requires fits { length payload.now ≤ MAX_PAYLOAD }
        ensures settled { D.keeps_model → (slots : Slots) → IsSettledPair self.now slots (D.gives disk.old) (D.may_leave_now disk.old)
            → OnOk result (IsSettledPair (stored self.now) (with_entry self.now.into (Some (record { number = self.now.number + 1; payload = payload.now })) slots) (D.gives disk.new) (D.may_leave_now disk.new)) }
        ensures bytes { D.keeps_model → OnOk result (HoldsAt (slot_bytes self.now.into (inside self.now.part (D.gives disk.new))) 0 (13 + length payload.now)
            (entry_encoding (record { number = self.now.number + 1; payload = payload.now }))) }
        ensures other { D.keeps_model → slot_bytes (1 - self.now.into) (inside self.now.part (D.gives disk.new)) ≡ slot_bytes (1 - self.now.into) (inside self.now.part (D.gives disk.old)) }
        ensures whole { D.keeps_model → OnOk result (Only (D.gives disk.new) (D.may_leave_now disk.new)) }
        ensures any_moment { D.keeps_model → (slots : Slots) → IsSettledPair self.now slots (D.gives disk.old) (D.may_leave_now disk.old)
            → LeavesOnly D.moment D.may_have_left_since disk.old disk.new
            (λ c. HoldsStored slots self.now.into (record { number = self.now.number + 1; payload = payload.now }) (inside self.now.part c)) }
        ensures frame { D.keeps_model → TouchesOnly D.gives D.may_leave_now D.moment D.may_have_left_since self.now.part disk.old disk.new }
        ensures size { D.size disk.new ≡ D.size disk.old }
        ensures told { IfErr result (λ e. e ≢ DiskError.ReadFault) }
        ensures later { D.failures disk.old ≤ D.failures disk.new }
        ensures done { OnOk result (D.failures disk.new ≡ D.failures disk.old) }
        ensures cause { IfErr result (λ e. e ≢ DiskError.Memory → D.failures disk.old < D.failures disk.new) }
        ensures most { D.most_failures disk.new ≤ D.most_failures disk.old }
        ensures calls { D.calls_made disk.new ≤ D.calls_made disk.old + 4 }
    {
        let part = slot_part(self.part, self.into);
        write_entry(part, disk, self.number + 1, payload)
    }

    /// Replaces the payload, by the six device calls of `begin_store` and `end_store`, and gives the receipt of this slot
    /// and front, which is at most 2^63 - 1. After it the whole disk is durable. The payload has at most 4,083 bytes; the
    /// pair's part lies within the disk.
    ///
    /// 122 `Broken` exactly where a device call failed before; else 121 `Full` exactly where the last number is 2^63 - 1:
    /// these change nothing. After a refusal of the device the pair is broken, and the part holds the old payload or the
    /// new.
    pub fn store<D: Disk>(
        &mut self,
        disk: &mut D,
        payload: &[u8],
        slot: Slot,
        front: u64,
    ) -> Result<Synced, Refusal>
        requires on_disk { self.old.part.start + self.old.part.len ≤ D.size disk.old }
        requires fits { length payload.now ≤ MAX_PAYLOAD }
        requires limit { front ≤ MAX_NUMBER }

        ensures receipt { IfOk result (λ receipt. receipt ≡ record { slot = slot; front = front }) }
        ensures ok { OnOk result (self.new ≡ stored self.old) }
        ensures settled { D.keeps_model → (slots : Slots) → IsSettledPair self.old slots (D.gives disk.old) (D.may_leave_now disk.old)
            → OnOk result (IsSettledPair self.new (with_entry self.old.into (Some (record { number = self.old.number + 1; payload = payload.now })) slots) (D.gives disk.new) (D.may_leave_now disk.new)) }
        ensures bytes { D.keeps_model → OnOk result (HoldsAt (slot_bytes self.old.into (inside self.old.part (D.gives disk.new))) 0 (13 + length payload.now)
            (entry_encoding (record { number = self.old.number + 1; payload = payload.now }))) }
        ensures other { D.keeps_model → slot_bytes (1 - self.old.into) (inside self.old.part (D.gives disk.new)) ≡ slot_bytes (1 - self.old.into) (inside self.old.part (D.gives disk.old)) }
        ensures whole { D.keeps_model → OnOk result (Only (D.gives disk.new) (D.may_leave_now disk.new)) }

        // A stop at any moment of the call leaves the other slot as it was, and in this one what it held, nothing, or the
        // new payload: so the old payload or the new.
        ensures any_moment { D.keeps_model → (slots : Slots) → IsSettledPair self.old slots (D.gives disk.old) (D.may_leave_now disk.old)
            → LeavesOnly D.moment D.may_have_left_since disk.old disk.new
            (λ c. HoldsStored slots self.old.into (record { number = self.old.number + 1; payload = payload.now }) (inside self.old.part c)) }
        ensures frame { D.keeps_model → TouchesOnly D.gives D.may_leave_now D.moment D.may_have_left_since self.old.part disk.old disk.new }
        ensures size { D.size disk.new ≡ D.size disk.old }

        ensures broken { IsErrOf result Refusal.Broken ↔ (self.old.broken ≡ true) }
        ensures full { IsErrOf result Refusal.Full ↔ ((self.old.broken ≡ false) × (self.old.number ≡ MAX_NUMBER)) }
        ensures told { IfErr result IsOfStoring }
        ensures unchanged { IfErr result (λ r. ¬ IsOfDevice r → (self.new ≡ self.old) × (disk.new ≡ disk.old)) }
        ensures device { IfErr result (λ r. IsOfDevice r → self.new ≡ record self.old { is_closed = self.new.is_closed; broken = true }) }
        ensures cause { HasCause (D.failures disk.old) (D.failures disk.new) result }
        ensures most { D.most_failures disk.new ≤ D.most_failures disk.old }
        ensures calls { D.calls_made disk.new ≤ D.calls_made disk.old + 6 }
    {
        self.begin_store(disk)?;
        self.end_store(disk, payload, slot, front)
    }
}
