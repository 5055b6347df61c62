//! A recovery is broken off at each device call of each disk in turn, and done again.
use crate::disks::{ALL, Folder, OWED, byte_at, new_folder};
use crate::recovering::recover_all;
use configurations::{ConfigStore, Member};
use disk_model::{Cut, Disk, Event, MemDisk, Part};
use gate_journal::{IMAGE_SIZE, PAIR_SIZE, Slot};
use local_store::{Store, StoreLike};
use std::alloc::Global;
use std::fmt::Debug;
use std::process::Abort;

/// The number that stands for the configuration's disk, among those of slots.
const CONFIG: u8 = 3;

/// What is tried.
#[derive(Clone, Copy, Debug)]
struct Case {
    /// What a cut leaves of all disks.
    first: Cut,
    /// The disk that stops or fails.
    number: u8,
    /// At which of its calls.
    event: Event,
    /// What a cut leaves of all disks then.
    then: Cut,
}

#[test]
fn a_recovery_that_stops_anywhere_is_done_again(rt: HostRuntime) {
    for bytes in [0, 1, u64::MAX] {
        try_all(&rt, rt.alloc(), Some(bytes));
    }
}

#[test]
fn a_recovery_whose_device_fails_anywhere_is_done_again(rt: HostRuntime) {
    try_all(&rt, rt.alloc(), None);
}

/// At each device call a recovery stops, with so many bytes of a write in place, or else it fails.
fn try_all(rt: &impl Abort, alloc: Global, stop: Option<u64>) {
    for first in [Cut::None, Cut::All] {
        for (number, call) in all_calls(rt, alloc, first) {
            let event = match stop {
                Some(bytes) => Event::StopAt { call, bytes },
                None => Event::FailAt { call },
            };
            for then in [Cut::None, Cut::All] {
                let case = Case {
                    first,
                    number,
                    event,
                    then,
                };
                try_one(rt, alloc, case);
            }
        }
    }
}

/// Both are the same; else the test ends, and tells both and the case.
fn same_at<T: PartialEq + Debug + Drop>(rt: &impl Abort, found: T, wanted: T, at: Case) {
    assert_eq!(rt; found, wanted, "at {at:?}");
}

/// Each call of each disk that a recovery makes where nothing disturbs it.
fn all_calls(rt: &impl Abort, alloc: Global, first: Cut) -> Vec<(u8, u64)> {
    let mut all = Vec::new(alloc);
    let ending = recover_all(rt, alloc, new_folder(rt, alloc, first));
    assert!(rt; ending.whole);
    for number in 0..=CONFIG {
        let before = calls(&new_folder(rt, alloc, first), number);
        for call in 1..=calls(&ending.left, number).saturating_sub(before) {
            all.push((number, call)).expect(rt, "memory");
        }
    }
    all
}

/// How many calls one of the disks has served.
fn calls(folder: &Folder, number: u8) -> u64 {
    for (slot, disk) in &folder.slots {
        if slot.number() == number {
            return disk.calls();
        }
    }
    folder.config.calls()
}

/// This happens to one of the disks.
fn arm(rt: &impl Abort, folder: &mut Folder, number: u8, event: Event) {
    for (slot, disk) in folder.slots.iter_mut() {
        if slot.number() == number {
            return disk.arm(event).expect(rt, "memory");
        }
    }
    folder.config.arm(event).expect(rt, "memory");
}

/// A recovery is broken off, and done again.
fn try_one(rt: &impl Abort, alloc: Global, case: Case) {
    let mut folder = new_folder(rt, alloc, case.first);
    arm(rt, &mut folder, case.number, case.event);
    let first = recover_all(rt, alloc, folder);
    same_at(rt, first.whole, false, case);
    let (recorded, folder) = all_hold(rt, alloc, first.left, OWED, case);
    if let Some((alone, _)) = first.source {
        same_at(rt, recorded.first(), Some(&alone), case);
    }
    let second = recover_all(rt, alloc, folder);
    same_at(rt, second.whole, true, case);
    let (source, front) = second.source.expect(rt, "a source");
    same_at(rt, (recorded.contains(&source), front), (true, ALL), case);
    let (recorded, folder) = all_hold(rt, alloc, second.left, ALL, case);
    same_at(rt, recorded.len(), folder.slots.len(), case);
}

/// All disks are cut. Then that of each recorded member is there, and means the volume behind at least so many of the writes. The slots of the
/// recorded chain, in its order.
fn all_hold(
    rt: &impl Abort,
    alloc: Global,
    folder: Folder,
    least: u64,
    case: Case,
) -> (Vec<Slot>, Folder) {
    let Folder {
        mut config,
        mut slots,
    } = folder;
    config.cut(case.then);
    config.disarm();
    for (_, disk) in slots.iter_mut() {
        disk.cut(case.then);
        disk.disarm();
    }
    let mut recorded = Vec::new(alloc);
    for member in members(rt, alloc, &mut config) {
        let place = slots.iter().position(|(slot, _)| *slot == member.slot);
        let place = place.expect(rt, "its disk");
        assert!(rt; place < slots.len());
        let (slot, disk) = slots.remove(place);
        let disk = holds(rt, alloc, member, disk, least, case);
        slots.push((slot, disk)).expect(rt, "memory");
        recorded.push(slot).expect(rt, "memory");
    }
    (recorded, Folder { config, slots })
}

/// The members of the chain that the configuration's disk has recorded.
fn members(rt: &impl Abort, alloc: Global, config: &mut MemDisk) -> Vec<Member> {
    assert!(rt; PAIR_SIZE <= config.len());
    let part = Part::new(0, PAIR_SIZE);
    let store = ConfigStore::open(alloc, config, part).expect(rt, "a record");
    Vec::from_slice(alloc, store.current().members()).expect(rt, "memory")
}

/// A disk is this member's, and means the volume behind at least so many of the writes.
fn holds(
    rt: &impl Abort,
    alloc: Global,
    member: Member,
    disk: MemDisk,
    least: u64,
    case: Case,
) -> MemDisk {
    let Ok(mut store) = Store::open(alloc, disk) else {
        panic!(rt; "no store at {case:?}")
    };
    let is = (store.slot(), store.incarnation());
    same_at(rt, is, (member.slot, member.incarnation.number()), case);
    let front = store.front();
    same_at(rt, least <= front && front <= ALL, true, case);
    for block in 0..8 {
        assert!(rt; block < store.geometry().blocks);
        let mut found = [0xee; IMAGE_SIZE];
        store
            .read_block(block, &mut found)
            .expect(rt, "the disk reads");
        same_at(rt, found == [byte_at(front, block); IMAGE_SIZE], true, case);
    }
    store.into_disk()
}
