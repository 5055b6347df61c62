// One of the two slots of a pair: a gate, and behind it a number, the payload's length and the payload.
ghost use Rattle.std.specs.Prelude.{◌≡◌, ◌≢◌, ◌⊎◌, ◌+◌, ◌*◌, ◌^◌, ◌<◌, ◌≤◌, ◌∷◌, ◌++◌, List, Option, Some, None, true, false, length, take, drop, IfOk, IfErr, OnOk, IsErrOf};
ghost use Rattle.std.specs.Option.{SomeIff};
ghost use Rattle.disk_model.specs.Disk.{Holds, LeavesOnly, Only};
ghost use Rattle.disk_model.specs.Part.{inside, LeftInside, TouchesOnly};
ghost use Rattle.gate_journal.specs.Pair.{Entry, HasGate, HoldsSlot, closing, entry_body, entry_encoding};
ghost use Rattle.gate_journal.specs.Reading.{HoldsAt};
ghost use Rattle.gate_journal.specs.Refusal.{HasCause, IsOfLoading};
ghost use Rattle.gate_journal.specs.Runs.{OnlyReads};
ghost use Rattle.gate_journal.specs.PairSlot.{IsHeadOf};

use crate::batch::{CLOSED, MAX_NUMBER, OPEN};
use crate::durable::write_durably;
use crate::reading::read_array;
use crate::refusal::Refusal;
use byteorder::{BigEndian, ByteOrder};
use disk_model::{Disk, DiskError, Part};
use std::alloc::Global;

/// The bytes of a slot.
pub(crate) const SLOT_SIZE: u64 = 4_096;

/// The bytes of a slot behind its gate.
const BODY_SIZE: usize = 4_095;

/// The bytes of a slot before its payload: a gate, a number and a length.
const HEAD_SIZE: usize = 13;

/// The bytes of the number and the length.
pub(crate) const HEAD_NUMBERS: usize = 12;

/// The most bytes of a payload.
pub const MAX_PAYLOAD: usize = 4_083;

/// What a slot begins with.
#[derive(Clone, Copy)]
pub(crate) struct Head {
    pub(crate) is_closed: bool,
    pub(crate) entry: Option<EntryHead>,
}

/// The number of an entry, and how many bytes its payload has.
#[derive(Clone, Copy)]
pub(crate) struct EntryHead {
    pub(crate) number: u64,
    pub(crate) len: u32,
}

impl EntryHead {
    /// The head, if it is an entry's: else the slot counts as closed.
    fn if_possible(self) -> Option<EntryHead>
        ensures { SomeIff result ((self.number ≤ MAX_NUMBER) × (self.len ≤ MAX_PAYLOAD)) self }
    {
        if self.number <= MAX_NUMBER && self.len as usize <= MAX_PAYLOAD {
            Some(self)
        } else {
            None
        }
    }
}

/// Closes the gate of a slot, and syncs. A closed one isn't rewritten: a write of no bytes stands in its place.
pub(crate) fn close_gate<D: Disk>(
    part: Part,
    disk: &mut D,
    is_closed: bool,
) -> Result<(), DiskError>
    requires slot { part.len ≡ SLOT_SIZE }
    requires on_disk { part.start + part.len ≤ D.size disk.old }
    ensures closed { D.keeps_model → HasGate is_closed (inside part (D.gives disk.old)) → OnOk result (HasGate true (inside part (D.gives disk.new))) }
    ensures bytes { D.keeps_model → OnOk result (Holds (inside part (D.gives disk.old)) 0 (closing is_closed) (inside part (D.gives disk.new))) }
    ensures whole { D.keeps_model → OnOk result (Only (D.gives disk.new) (D.may_leave_now disk.new)) }
    ensures any_moment { D.keeps_model → (entry : Option Entry) → HoldsSlot entry (inside part (D.gives disk.old))
        → HasGate is_closed (inside part (D.gives disk.old)) → Only (inside part (D.gives disk.old)) (LeftInside part (D.may_leave_now disk.old))
        → LeavesOnly D.moment D.may_have_left_since disk.old disk.new
        (λ c. HoldsSlot entry (inside part c) ⊎ HoldsSlot None (inside part c)) }
    ensures frame { D.keeps_model → TouchesOnly D.gives D.may_leave_now D.moment D.may_have_left_since part disk.old disk.new }
    ensures size { D.size disk.new ≡ D.size disk.old }
    ensures told { IfErr result (λ e. e ≢ DiskError.ReadFault) }
    ensures later { D.failures disk.old ≤ D.failures disk.new }
    ensures done { OnOk result (D.failures disk.new ≡ D.failures disk.old) }
    ensures cause { IfErr result (λ e. e ≢ DiskError.Memory → D.failures disk.old < D.failures disk.new) }
    ensures most { D.most_failures disk.new ≤ D.most_failures disk.old }
    ensures calls { D.calls_made disk.new ≤ D.calls_made disk.old + 2 }
{
    if is_closed {
        write_durably(part, disk, 0, &[])
    } else {
        write_durably(part, disk, 0, &[CLOSED])
    }
}

/// The body of an entry, and zeros behind it.
fn encoded_body(number: u64, payload: &[u8]) -> [u8; BODY_SIZE]
    requires { length payload.now ≤ MAX_PAYLOAD }
    ensures { take (12 + length payload.now) result ≡ entry_body number payload.now }
{
    let mut body = [0; BODY_SIZE];
    BigEndian::write_u64(&mut body, number);
    BigEndian::write_u32(&mut body[8..], payload.len() as u32);
    body[12..12 + payload.len()].copy_from_slice(payload);
    body
}

/// Writes an entry into a slot whose gate is closed by four device calls: what is behind the gate; a sync; the opened
/// gate; a sync.
pub(crate) fn write_entry<D: Disk>(
    part: Part,
    disk: &mut D,
    number: u64,
    payload: &[u8],
) -> Result<(), DiskError>
    requires slot { part.len ≡ SLOT_SIZE }
    requires on_disk { part.start + part.len ≤ D.size disk.old }
    requires fits { length payload.now ≤ MAX_PAYLOAD }
    requires limit { number ≤ MAX_NUMBER }
    ensures bytes { D.keeps_model → OnOk result (HoldsAt (inside part (D.gives disk.new)) 0 (13 + length payload.now)
        (entry_encoding (record { number = number; payload = payload.now }))) }
    ensures whole { D.keeps_model → OnOk result (Only (D.gives disk.new) (D.may_leave_now disk.new)) }
    ensures any_moment { D.keeps_model → HasGate true (inside part (D.gives disk.old)) → Only (inside part (D.gives disk.old)) (LeftInside part (D.may_leave_now disk.old))
        → LeavesOnly D.moment D.may_have_left_since disk.old disk.new
        (λ c. HoldsSlot None (inside part c) ⊎ HoldsSlot (Some (record { number = number; payload = payload.now })) (inside part c)) }
    ensures frame { D.keeps_model → TouchesOnly D.gives D.may_leave_now D.moment D.may_have_left_since part disk.old disk.new }
    ensures size { D.size disk.new ≡ D.size disk.old }
    ensures told { IfErr result (λ e. e ≢ DiskError.ReadFault) }
    ensures later { D.failures disk.old ≤ D.failures disk.new }
    ensures done { OnOk result (D.failures disk.new ≡ D.failures disk.old) }
    ensures cause { IfErr result (λ e. e ≢ DiskError.Memory → D.failures disk.old < D.failures disk.new) }
    ensures most { D.most_failures disk.new ≤ D.most_failures disk.old }
    ensures calls { D.calls_made disk.new ≤ D.calls_made disk.old + 4 }
{
    let body = encoded_body(number, payload);
    write_durably(part, disk, 1, &body[..12 + payload.len()])?;
    write_durably(part, disk, 0, &[OPEN])
}

/// Reads what a slot begins with.
pub(crate) fn read_head<D: Disk>(part: Part, disk: &mut D) -> Result<Head, Refusal>
    requires slot { part.len ≡ SLOT_SIZE }
    requires on_disk { part.start + part.len ≤ D.size disk.old }
    ensures head { D.keeps_model → IfOk result (λ head. IsHeadOf head (inside part (D.gives disk.old))) }
    ensures limit { IfOk result (λ head. (entry : EntryHead) → head.entry ≡ Some entry → (entry.number ≤ MAX_NUMBER) × (entry.len ≤ MAX_PAYLOAD)) }
    ensures reads { D.keeps_model → OnlyReads D.gives D.may_leave_now D.moment D.may_have_left_since disk.old disk.new }
    ensures size { D.size disk.new ≡ D.size disk.old }
    ensures told { IfErr result IsOfLoading }
    ensures cause { HasCause (D.failures disk.old) (D.failures disk.new) result }
    ensures most { D.most_failures disk.new ≤ D.most_failures disk.old }
{
    let bytes: [u8; HEAD_SIZE] = read_array(part, disk, 0)?;
    if bytes[0] != OPEN {
        return Ok(Head {
            is_closed: true,
            entry: None,
        });
    }
    let entry = EntryHead {
        number: BigEndian::read_u64(&bytes[1..]),
        len: BigEndian::read_u32(&bytes[9..]),
    };
    Ok(Head {
        is_closed: false,
        entry: entry.if_possible(),
    })
}

/// Reads so many bytes of a payload.
pub(crate) fn read_payload<D: Disk>(
    alloc: Global,
    part: Part,
    disk: &mut D,
    len: u32,
) -> Result<Vec<u8>, Refusal>
    requires slot { part.len ≡ SLOT_SIZE }
    requires on_disk { part.start + part.len ≤ D.size disk.old }
    requires fits { len ≤ MAX_PAYLOAD }
    ensures payload { D.keeps_model → IfOk result (λ payload. payload.items ≡ take len (drop 13 (inside part (D.gives disk.old)))) }
    ensures reads { D.keeps_model → OnlyReads D.gives D.may_leave_now D.moment D.may_have_left_since disk.old disk.new }
    ensures size { D.size disk.new ≡ D.size disk.old }
    ensures told { IfErr result IsOfLoading }
    ensures cause { HasCause (D.failures disk.old) (D.failures disk.new) result }
    ensures most { D.most_failures disk.new ≤ D.most_failures disk.old }
{
    let mut payload = vec![in alloc; 0; len as usize]?;
    part.read(disk, HEAD_SIZE as u64, &mut payload)?;
    Ok(payload)
}
