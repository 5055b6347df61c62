//! The disks of a folder, in memory, whose chain has three members.
use bytes::Bytes;
use configurations::{ConfigStore, Epoch, Incarnation, Member, Record};
use disk_model::{Cut, MemDisk, Part, Script};
use gate_journal::{IMAGE_SIZE, Image, PAIR_SIZE, Slot};
use home_blocks::{Version, disk_size};
use local_store::{Store, StoreLike};
use std::alloc::Global;
use std::process::Abort;
use volume::Geometry;

/// What is written, one after another: a block, each byte of which is this one.
const WRITES: [(u32, u8); 4] = [(0, 0xa1), (4, 0xb2), (0, 0), (7, 0xd4)];

/// How many of the writes each disk holds: a write with FUA may have been answered up to there.
pub(crate) const OWED: u64 = 3;

/// How many that of slot 1 holds.
pub(crate) const ALL: u64 = 4;

/// The disks of a folder.
#[derive(Drop)]
pub(crate) struct Folder {
    /// The configuration's.
    pub(crate) config: MemDisk,
    /// Those of slots.
    pub(crate) slots: Vec<(Slot, MemDisk)>,
}

/// The byte of which a block consists behind so many of the writes.
pub(crate) fn byte_at(front: u64, block: u32) -> u8 {
    let mut byte = 0;
    for (_, (at, written)) in (0..front).zip(&WRITES) {
        if *at == block {
            byte = *written;
        }
    }
    byte
}

/// The disks of the slots 0 to 2, as such a cut leaves them. That of slot 1 alone holds the last write.
pub(crate) fn new_folder(rt: &impl Abort, alloc: Global, cut: Cut) -> Folder {
    let mut slots = Vec::new(alloc);
    let mut members = Vec::new(alloc);
    for (number, front) in [(0, OWED), (1, ALL), (2, OWED)] {
        let slot = Slot::new(number).expect(rt, "a slot");
        let incarnation = Incarnation::new(1).expect(rt, "an incarnation");
        members
            .push(Member { slot, incarnation })
            .expect(rt, "memory");
        let mut disk = disk_of(rt, alloc, slot, front);
        disk.cut(cut);
        slots.push((slot, disk)).expect(rt, "memory");
    }
    let epoch = Epoch::new(1).expect(rt, "an epoch");
    let first = Record::new(epoch, members).expect(rt, "a record");
    let mut config = MemDisk::new(alloc, PAIR_SIZE, Script::new(alloc)).expect(rt, "memory");
    let part = Part::new(0, PAIR_SIZE);
    ConfigStore::create(alloc, &mut config, part, first).expect(rt, "a disk");
    Folder { config, slots }
}

/// The disk of a slot, which holds so many of the writes. One block is on its way home.
fn disk_of(rt: &impl Abort, alloc: Global, slot: Slot, front: u64) -> MemDisk {
    let geometry = Geometry::new(8, 12_400, 4_096).expect(rt, "a geometry");
    let new = MemDisk::new(alloc, disk_size(geometry), Script::new(alloc)).expect(rt, "memory");
    let Ok(mut store) = Store::format(alloc, new, slot, 1, geometry) else {
        panic!(rt; "no store")
    };
    for (number, (block, byte)) in (1..=front).zip(&WRITES) {
        let bytes = Bytes::copy_from_slice(alloc, &[*byte; IMAGE_SIZE]).expect(rt, "memory");
        let images = [Image::new(*block, bytes)];
        assert!(rt; *block < store.geometry().blocks && number <= ALL);
        assert!(rt; matches!(store.version(), Version::Two) && !store.is_lent());
        store.commit(alloc, number, &images).expect(rt, "a receipt");
    }
    assert!(rt; matches!(store.version(), Version::Two));
    assert!(rt; matches!(store.tick(), Ok(Some(_))));
    store.into_disk()
}
