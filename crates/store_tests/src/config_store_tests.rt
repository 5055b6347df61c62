// What no clause says of a store: the bytes, the calls of the device, and stops that were really played.
use super::configurations_tests::record;
use crate::comparing::{prints, same, same_at};
use crate::disks::new_disk;
use configurations::{ConfigStore, Epoch, Refusal};
use disk_model::{Cut, Disk, DiskError, Event, Part};
use gate_journal::PAIR_SIZE;
use std::alloc::Global;
use std::process::Abort;

// The members of a fresh chain of three.
const THREE: [(u8, u64); 3] = [(0, 1), (1, 1), (2, 1)];

// What a slot begins with that holds the first record of a fresh chain of three.
const FIRST: [u8; 61] =
    *b"\x01\0\0\0\0\0\0\0\x01\0\0\0\x30CRAQCONF\x00\x00\x00\x01\x00\x00\x00\x00\x00\x00\x00\x01\x03\x00\x00\x00\x00\x00\x00\x00\x00\x01\x01\x00\x00\x00\x00\x00\x00\x00\x01\x02\x00\x00\x00\x00\x00\x00\x00\x01";

#[test]
fn a_first_record(rt: HostRuntime) {
    let alloc = rt.alloc();
    let part = Part::new(3, PAIR_SIZE);
    let mut disk = new_disk(&rt, alloc, 3 + PAIR_SIZE);
    let first = record(&rt, alloc, 1, &THREE);
    let store = ConfigStore::create(alloc, &mut disk, part, first).expect(&rt, "a store");
    same(
        &rt,
        (store.part(), store.current().epoch().number()),
        (part, 1),
    );
    same(&rt, disk.calls(), 12);
    let mut bytes = [9; 61];
    part.read(&mut disk, 0, &mut bytes)
        .expect(&rt, "the disk reads");
    same(&rt, bytes, FIRST);
}

#[test]
fn records(rt: HostRuntime) {
    let alloc = rt.alloc();
    let part = Part::new(3, PAIR_SIZE);
    let mut disk = new_disk(&rt, alloc, 3 + PAIR_SIZE);
    let first = record(&rt, alloc, 1, &THREE);
    let mut store = ConfigStore::create(alloc, &mut disk, part, first).expect(&rt, "a store");
    let epoch = Epoch::new(2).expect(&rt, "an epoch");
    store
        .begin_record(&mut disk, epoch)
        .expect(&rt, "the record is begun");
    same(&rt, (disk.calls(), store.is_begun()), (14, true));
    let second = record(&rt, alloc, 2, &THREE[1..]);
    store
        .end_record(alloc, &mut disk, second)
        .expect(&rt, "the record is ended");
    same(&rt, disk.calls(), 18);
}

#[test]
fn the_last_record_is_opened(rt: HostRuntime) {
    let alloc = rt.alloc();
    let part = Part::new(3, PAIR_SIZE);
    let mut disk = new_disk(&rt, alloc, 3 + PAIR_SIZE);
    let first = record(&rt, alloc, 1, &THREE);
    let mut store = ConfigStore::create(alloc, &mut disk, part, first).expect(&rt, "a store");
    let second = record(&rt, alloc, 2, &THREE[2..]);
    store
        .record(alloc, &mut disk, second)
        .expect(&rt, "the record is kept");
    same(&rt, disk.calls(), 18);
    let opened = ConfigStore::open(alloc, &mut disk, part).expect(&rt, "a store");
    let wanted = record(&rt, alloc, 2, &THREE[2..]);
    same(&rt, opened.current().epoch(), wanted.epoch());
    same(&rt, opened.current().members(), wanted.members());
}

// What a record of this epoch is refused with behind the first, and how many device calls it makes.
fn told_behind_the_first(rt: &impl Abort, alloc: Global, epoch: u64) -> (Option<Refusal>, u64) {
    let part = Part::new(0, PAIR_SIZE);
    let mut disk = new_disk(rt, alloc, PAIR_SIZE);
    let first = record(rt, alloc, 1, &THREE);
    let mut store = ConfigStore::create(alloc, &mut disk, part, first).expect(rt, "a store");
    let told = store.record(alloc, &mut disk, record(rt, alloc, epoch, &THREE));
    (told.err(), disk.calls())
}

#[test]
fn not_next(rt: HostRuntime) {
    for (epoch, told, calls) in &[
        (0, Some(Refusal::NotNext), 12),
        (1, Some(Refusal::NotNext), 12),
        (2, None, 18),
        (3, Some(Refusal::NotNext), 12),
    ] {
        let is = told_behind_the_first(&rt, rt.alloc(), *epoch);
        same_at(&rt, is, (*told, *calls), epoch);
    }
}

#[test]
fn nothing_recorded(rt: HostRuntime) {
    let alloc = rt.alloc();
    let part = Part::new(0, PAIR_SIZE);
    let mut disk = new_disk(&rt, alloc, PAIR_SIZE);
    let blank = ConfigStore::open(alloc, &mut disk, part).err();
    same(&rt, blank, Some(Refusal::NoRecord));
    let first = record(&rt, alloc, 1, &THREE);
    let store = ConfigStore::create(alloc, &mut disk, part, first).expect(&rt, "a store");
    same(&rt, store.current().members().len(), 3);
    part.write_at(&mut disk, 13, b"CRAQDISK")
        .expect(&rt, "the disk writes");
    let other = ConfigStore::open(alloc, &mut disk, part).err();
    same(&rt, other, Some(Refusal::NoRecord));
}

#[test]
fn refusals_in_words(rt: HostRuntime) {
    for (refusal, number, text) in &[
        (Refusal::Memory, 100, "100 Memory"),
        (Refusal::Broken, 122, "122 Broken"),
        (Refusal::NoRecord, 161, "161 NoRecord"),
        (Refusal::NotNext, 162, "162 NotNext"),
        (Refusal::Device(DiskError::SyncFault), 103, "103 SyncFault"),
    ] {
        same(&rt, refusal.number(), Some(*number));
        prints(&rt, rt.alloc(), refusal, text);
    }
}

// A stop in a call of a third record, after so many bytes of it, and whether this record is found then, where a cut left
// all that was written, and where it left none of what no sync had reached.
const STOPS: [(u64, u64, bool, bool); 9] = [
    (1, 0, false, false),
    (1, 1, false, false),
    (2, 0, false, false),
    (3, 0, false, false),
    (3, 8, false, false),
    (4, 0, false, false),
    (5, 0, false, false),
    (5, 1, true, false),
    (6, 0, true, false),
];

// Stops the third record, cuts, opens, and says which epoch is found.
fn epoch_after(rt: &impl Abort, alloc: Global, event: Event, cut: Cut) -> u64 {
    let part = Part::new(0, PAIR_SIZE);
    let mut disk = new_disk(rt, alloc, PAIR_SIZE);
    let first = record(rt, alloc, 1, &THREE);
    let mut store = ConfigStore::create(alloc, &mut disk, part, first).expect(rt, "a store");
    let second = record(rt, alloc, 2, &THREE[1..]);
    store
        .record(alloc, &mut disk, second)
        .expect(rt, "the record is kept");
    disk.arm(event).expect(rt, "memory");
    let told = store.record(alloc, &mut disk, record(rt, alloc, 3, &THREE[2..]));
    same(rt, told.err(), Some(Refusal::Device(DiskError::Stopped)));
    let again = store.record(alloc, &mut disk, record(rt, alloc, 3, &THREE[2..]));
    same(rt, again.err(), Some(Refusal::Broken));
    disk.cut(cut);
    let opened = ConfigStore::open(alloc, &mut disk, part).expect(rt, "a store");
    opened.current().epoch().number()
}

#[test]
fn stops(rt: HostRuntime) {
    for (call, bytes, after_all, after_none) in &STOPS {
        let event = Event::StopAt {
            call: *call,
            bytes: *bytes,
        };
        let found = (
            epoch_after(&rt, rt.alloc(), event, Cut::All),
            epoch_after(&rt, rt.alloc(), event, Cut::None),
        );
        let epoch = |is_new: bool| if is_new { 3 } else { 2 };
        same_at(&rt, found, (epoch(*after_all), epoch(*after_none)), event);
    }
}
