//! Laws of what an area or a pair holds, for callers that argue about whole areas. The functions do nothing.

ghost use Rattle.std.specs.Prelude.{◌≡◌, ◌+◌, ◌-◌, ◌^◌, ◌≤◌, ℕ, List, Some, None, length};
ghost use Rattle.gate_journal.specs.Batch.{AreImages, Batch, HoldsBatches};
ghost use Rattle.gate_journal.specs.Image.{Image as Imaged};
ghost use Rattle.gate_journal.specs.Pair.{Entry, HoldsPair, Slots, last_number, newest, next_slot, with_entry};

use crate::batch::{MAX_BLOCKS, MAX_NUMBER};
use crate::pair::PAIR_SIZE;
use crate::pair_slot::MAX_PAYLOAD;

/// Bytes have one reading at most.
pub fn readings_are_one()
    ensures { (blocks before : ℕ) (some others : List Batch) (area : List ℕ) →
        HoldsBatches blocks before some area → HoldsBatches blocks before others area → some ≡ others }
{}

/// No batch has more images than the volume has blocks.
pub fn batches_are_small()
    ensures { (blocks : ℕ) (images : List Imaged) → AreImages blocks images → length images ≤ blocks }
{}

/// The bytes of a pair have one reading at most.
pub fn pair_readings_are_one()
    ensures { (some others : Slots) (bytes : List ℕ) → HoldsPair some bytes → HoldsPair others bytes → some ≡ others }
{}

/// What a store may leave holds the payload from before it, or the new one: the slot that it goes into, emptied, leaves
/// the newer entry as it was, and an entry with the next number is the newer one there.
pub fn stores_leave_old_or_new()
    ensures old { (slots : Slots) → newest (with_entry (next_slot slots) None slots) ≡ newest slots }
    ensures new { (slots : Slots) (new : Entry) → new.number ≡ last_number (newest slots) + 1
        → newest (with_entry (next_slot slots) (Some new) slots) ≡ Some new }
{}

/// The limits are those of the format.
pub fn limits_are_the_formats()
    ensures number { MAX_NUMBER ≡ 2 ^ 63 - 1 }
    ensures payload { MAX_PAYLOAD ≡ 4096 - 13 }
    ensures pair { PAIR_SIZE ≡ 2 ^ 13 }
    ensures blocks { MAX_BLOCKS ≡ 2 ^ 16 }
{}
