// What no clause says of a pair: the calls of the device, and stops that were really played.
ghost use Rattle.std.specs.Prelude.{◌≡◌, ◌+◌, ◌≤◌};
ghost use Rattle.disk_model.specs.Memory.{size_of};

use crate::comparing::{same, same_at};
use crate::disks::{new_disk, stretch};
use disk_model::{Cut, Disk, DiskError, Event, MemDisk, Part};
use gate_journal::{GatedPair, PAIR_SIZE, Refusal, Slot};
use std::alloc::Global;
use std::process::Abort;

#[test]
fn a_new_pair(rt: HostRuntime) {
    let slot = Slot::new(2).expect(&rt, "a slot");
    let part = Part::new(3, PAIR_SIZE);
    let mut disk = new_disk(&rt, rt.alloc(), 3 + PAIR_SIZE);
    let (pair, receipt) = GatedPair::create(&mut disk, part, b"one", slot, 5).expect(&rt, "a pair");
    same(&rt, (receipt.slot(), receipt.front()), (slot, 5));
    same(&rt, (pair.part(), pair.number()), (part, 1));
    same(&rt, (pair.is_broken(), pair.is_begun()), (false, true));
    same(&rt, disk.calls(), 12);
}

#[test]
fn pair_bytes(rt: HostRuntime) {
    let slot = Slot::new(2).expect(&rt, "a slot");
    let part = Part::new(3, PAIR_SIZE);
    let mut disk = new_disk(&rt, rt.alloc(), 3 + PAIR_SIZE);
    let (mut pair, _) = GatedPair::create(&mut disk, part, b"one", slot, 5).expect(&rt, "a pair");
    same(
        &rt,
        stretch(&disk, 3, 16),
        b"\x01\0\0\0\0\0\0\0\x01\0\0\0\x03one".as_slice(),
    );
    same(&rt, stretch(&disk, 4_099, 13), [0; 13].as_slice());
    let receipt = pair
        .store(&mut disk, b"two!", slot, 9)
        .expect(&rt, "the pair stores");
    same(&rt, receipt.front(), 9);
    same(
        &rt,
        stretch(&disk, 4_099, 17),
        b"\x01\0\0\0\0\0\0\0\x02\0\0\0\x04two!".as_slice(),
    );
}

#[test]
fn pair_calls(rt: HostRuntime) {
    let slot = Slot::new(2).expect(&rt, "a slot");
    let part = Part::new(3, PAIR_SIZE);
    let mut disk = new_disk(&rt, rt.alloc(), 3 + PAIR_SIZE);
    let (mut pair, _) = GatedPair::create(&mut disk, part, b"one", slot, 5).expect(&rt, "a pair");
    let _receipt = pair
        .store(&mut disk, b"two!", slot, 9)
        .expect(&rt, "the pair stores");
    same(&rt, (disk.calls(), pair.number()), (18, 2));
    pair.begin_store(&mut disk)
        .expect(&rt, "the store is begun");
    same(&rt, (disk.calls(), pair.is_begun()), (20, true));
}

// A stop in a call of a third `store`, after so many bytes of it, and whether the new payload is found then, where a cut
// left all that was written, and where it left none of what no sync had reached.
const STOPS: [(u64, u64, bool, bool); 9] = [
    (1, 0, false, false),
    (1, 1, false, false),
    (2, 0, false, false),
    (3, 0, false, false),
    (3, 8, false, false),
    (4, 0, false, false),
    (5, 0, false, false),
    (5, 1, true, false),
    (6, 0, true, false),
];

// Stops the third `store`, cuts, loads, and says whether the new payload is found: else it is the old one.
fn is_new_after(rt: &impl Abort, alloc: Global, slot: Slot, event: Event, cut: Cut) -> bool {
    let part = Part::new(0, PAIR_SIZE);
    let mut disk = new_disk(rt, alloc, PAIR_SIZE);
    let (mut pair, _) = GatedPair::create(&mut disk, part, b"one", slot, 1).expect(rt, "a pair");
    let _second = pair
        .store(&mut disk, b"two", slot, 2)
        .expect(rt, "the pair stores");
    disk.arm(event).expect(rt, "memory");
    let told = pair.store(&mut disk, b"three", slot, 3);
    same(rt, told.err(), Some(Refusal::Device(DiskError::Stopped)));
    let again = pair.store(&mut disk, b"four", slot, 4);
    same(rt, again.err(), Some(Refusal::Broken));
    disk.cut(cut);
    let (_, payload) = GatedPair::load(alloc, &mut disk, part).expect(rt, "the pair loads");
    let payload = payload.expect(rt, "a payload");
    let is_new = payload.as_slice() == b"three".as_slice();
    if !is_new {
        same(rt, payload.as_slice(), b"two".as_slice());
    }
    is_new
}

#[test]
fn pair_stops(rt: HostRuntime) {
    let slot = Slot::new(3).expect(&rt, "a slot");
    for (call, bytes, after_all, after_none) in &STOPS {
        let event = Event::StopAt {
            call: *call,
            bytes: *bytes,
        };
        let found = (
            is_new_after(&rt, rt.alloc(), slot, event, Cut::All),
            is_new_after(&rt, rt.alloc(), slot, event, Cut::None),
        );
        same_at(&rt, found, (*after_all, *after_none), event);
    }
}

// A slot's gate, number and length, behind which stands the slot's own number in each byte.
type SlotHead = (u8, u64, u32);

// Two slots; which one counts and how many bytes its payload has; and what a store is refused with.
const SLOTS: [(SlotHead, SlotHead, Option<(u8, usize)>, Option<Refusal>); 10] = [
    ((1, 1, 3), (0, 2, 3), Some((0, 3)), None),
    ((1, 1, 3), (1, 2, 3), Some((1, 3)), None),
    ((1, 2, 3), (1, 2, 3), Some((0, 3)), None),
    ((1, 1, 3), (0xff, 2, 3), Some((0, 3)), None),
    ((1, 1, 3), (1, 0x8000_0000_0000_0000, 3), Some((0, 3)), None),
    (
        (1, 1, 3),
        (1, 0x7fff_ffff_ffff_ffff, 3),
        Some((1, 3)),
        Some(Refusal::Full),
    ),
    ((1, 1, 3), (1, 2, 4_084), Some((0, 3)), None),
    ((1, 1, 3), (1, 2, 4_083), Some((1, 4_083)), None),
    ((1, 1, 0), (1, 0, 3), Some((0, 0)), None),
    ((0, 1, 3), (2, 2, 3), None, None),
];

// Writes a slot.
fn put_slot(rt: &impl Abort, disk: &mut MemDisk, part: Part, at: u64, head: SlotHead, byte: u8)
    requires on_disk { part.start + part.len ≤ size_of disk.old }
    requires range { at + 4096 ≤ part.len }
    ensures { size_of disk.new ≡ size_of disk.old }
{
    let (gate, number, len) = head;
    part.write_at(disk, at, &[byte; 4_096])
        .expect(rt, "the disk writes");
    part.write_at(disk, at, &[gate])
        .expect(rt, "the disk writes");
    part.write_at(disk, at + 1, &number.to_be_bytes())
        .expect(rt, "the disk writes");
    part.write_at(disk, at + 9, &len.to_be_bytes())
        .expect(rt, "the disk writes");
}

// Writes these slots, loads, and says what was found; then stores, says what that is refused with, and finds it.
fn found_and_told(
    rt: &impl Abort,
    alloc: Global,
    first: SlotHead,
    second: SlotHead,
) -> (Option<(Option<u8>, usize)>, Option<Refusal>) {
    let slot = Slot::new(0).expect(rt, "a slot");
    let part = Part::new(0, PAIR_SIZE);
    let mut disk = new_disk(rt, alloc, PAIR_SIZE);
    put_slot(rt, &mut disk, part, 0, first, 0);
    put_slot(rt, &mut disk, part, 4_096, second, 1);
    let (mut pair, payload) = GatedPair::load(alloc, &mut disk, part).expect(rt, "the pair loads");
    let is = payload
        .as_ref()
        .map(|payload| (payload.first().copied(), payload.len()));
    let told = pair.store(&mut disk, b"new", slot, 1).err();
    if told.is_none() {
        let (_, payload) = GatedPair::load(alloc, &mut disk, part).expect(rt, "the pair loads");
        let payload = payload.expect(rt, "a payload");
        same(rt, payload.as_slice(), b"new".as_slice());
    }
    (is, told)
}

#[test]
fn pair_loads(rt: HostRuntime) {
    for (first, second, found, told) in &SLOTS {
        let wanted = found.map(|(byte, len)| ((len > 0).then_some(byte), len));
        let is = found_and_told(&rt, rt.alloc(), *first, *second);
        same_at(&rt, is, (wanted, *told), (first, second));
    }
}
