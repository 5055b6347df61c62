// A disk of version 1 that is brought to version 2, and stops at each of its device calls.
ghost use Rattle.std.specs.Prelude.{◌<◌};

use crate::comparing::{same, same_at};
use crate::disks::{new_disk, stretch};
use crate::local_store_tests::{SECOND, two};
use disk_model::{Cut, Disk, DiskError, Event, MemDisk};
use gate_journal::{IMAGE_SIZE, Slot};
use home_blocks::{Version, disk_size};
use local_store::{Refusal, Store, StoreLike};
use std::alloc::Global;
use std::process::Abort;
use volume::Geometry;

// The bytes that each device call of the migration of two pending blocks writes: a sync writes none, and neither does the
// closing of a gate that is closed.
const WRITES: [u64; 11] = [4_096, 4_096, 0, 1, 0, 0, 0, 55, 0, 1, 0];

// The store on a disk.
fn opened(rt: &impl Abort, alloc: Global, disk: MemDisk) -> Store<MemDisk> {
    let Ok(store) = Store::open(alloc, disk) else {
        panic!(rt; "no store")
    };
    store
}

// The store on a disk of version 1, of 8 blocks and areas of 8,214 bytes, at front 1: the first two blocks are pending.
fn first(rt: &impl Abort, alloc: Global) -> Store<MemDisk> {
    let slot = Slot::new(0).expect(rt, "a slot");
    let geometry = Geometry::new(8, 8_214, 4_096).expect(rt, "a geometry");
    let disk = new_disk(rt, alloc, disk_size(geometry));
    let Ok(mut store) = Store::format(alloc, disk, slot, 1, geometry) else {
        panic!(rt; "no store")
    };
    assert!(rt; store.geometry().blocks == 8);
    let images = two(rt, alloc, 7, 8);
    let _receipt = store.commit(alloc, 1, &images).expect(rt, "a receipt");
    let mut disk = store.into_disk();
    assert!(rt; disk.len() > 24);
    disk.write_at(24, b"\x01").expect(rt, "the disk writes");
    disk.sync().expect(rt, "the disk syncs");
    opened(rt, alloc, disk)
}

// The byte of which the block consists.
fn read(rt: &impl Abort, store: &mut Store<MemDisk>, block: u32) -> u8 {
    assert!(rt; block < store.geometry().blocks);
    let mut bytes = [0xee; IMAGE_SIZE];
    store.read_block(block, &mut bytes).expect(rt, "a block");
    same_at(rt, bytes, [bytes[0]; IMAGE_SIZE], block);
    bytes[0]
}

#[test]
fn a_disk_of_version_one_is_migrated(rt: HostRuntime) {
    let alloc = rt.alloc();
    let mut store = first(&rt, alloc);
    same(&rt, (store.version(), store.front()), (Version::One, 1));
    let before = store.disk().calls();
    store.migrate().expect(&rt, "it is migrated");
    same(&rt, store.disk().calls(), before.saturating_add(11));
    same(&rt, (store.version(), store.front()), (Version::Two, 1));
    same(&rt, stretch(store.disk(), 4_096, 56), SECOND.as_slice());
    same(&rt, read(&rt, &mut store, 1), 8);
}

// Stops a migration, cuts, and opens: the front and the volume are the old ones, whichever version the disk has.
fn stops_at(rt: &impl Abort, alloc: Global, event: Event, cut: Cut) {
    let mut store = first(rt, alloc);
    store.arm(event).expect(rt, "memory");
    let stopped = Refusal::Device(DiskError::Stopped);
    same_at(rt, store.migrate().err(), Some(stopped), event);
    let mut disk = store.into_disk();
    disk.cut(cut);
    let mut store = opened(rt, alloc, disk);
    same_at(rt, store.front(), 1, event);
    for (block, byte) in [7, 8, 0, 0, 0, 0, 0, 0].iter().enumerate() {
        same_at(rt, read(rt, &mut store, block as u32), *byte, event);
    }
}

#[test]
fn a_migration_stops(rt: HostRuntime) {
    for (len, call) in WRITES.iter().zip(1..=11) {
        for bytes in [0, 1, len / 2, *len] {
            let event = Event::StopAt { call, bytes };
            stops_at(&rt, rt.alloc(), event, Cut::All);
            stops_at(&rt, rt.alloc(), event, Cut::None);
        }
    }
}
