// What no clause says: the bytes of the format, the calls of the device, and stops that were really played.
ghost use Rattle.std.specs.Prelude.{◌≡◌, ◌≤◌, ◌<◌};
ghost use Rattle.disk_model.specs.Memory.{size_of};
ghost use Rattle.gate_journal.specs.Batch.{AreImages};
ghost use Rattle.home_blocks.specs.Places.{disk_size_of};
ghost use Rattle.local_store.specs.Store.{geometry_of};

use crate::comparing::{prints, same, same_at};
use crate::disks::{new_disk, stretch};
use crate::images::image;
use disk_model::{Cut, Disk, DiskError, Event, MemDisk};
use flusher::{Plan, Run};
use gate_journal::{IMAGE_SIZE, Image, MAX_NUMBER, Slot, Synced};
use home_blocks::disk_size;
use local_store::{Contents, Refusal, Store};
use std::alloc::Global;
use std::process::Abort;
use volume::Geometry;

// The least area of payloads of 4,096 bytes, which a batch of two blocks fills, and one with room for a block behind it.
const LEAST: u32 = 8_214;

const ROOMY: u32 = 12_327;

// Two superblocks of version 2, slot 0 and incarnation 1, of 8 blocks, areas of 8,214 bytes and payloads of 4,096: the first one,
// of front 0 and area 0, and a second one, of front 1 and area 1.
const FIRST: [u8; 56] =
    *b"\x01\0\0\0\0\0\0\0\x01\0\0\0\x2bCRAQDISK\0\0\0\x02\x01\0\0\0\0\0\0\0\0\x01\0\0\0\x08\0\0\x20\x16\0\0\x10\0\0\0\0\0\0\0\0\0\0";

pub(crate) const SECOND: [u8; 56] =
    *b"\x01\0\0\0\0\0\0\0\x02\0\0\0\x2bCRAQDISK\0\0\0\x02\x01\0\0\0\0\0\0\0\0\x01\0\0\0\x08\0\0\x20\x16\0\0\x10\0\0\0\0\0\0\0\0\x01\x01";

// A store and its disk.
#[derive(Drop)]
struct Rig {
    alloc: Global,
    disk: MemDisk,
    store: Contents,
    plan: Plan,
}

// Formats the disk for slot 0, incarnation 1.
fn format(
    rt: &impl Abort,
    alloc: Global,
    disk: &mut MemDisk,
    area: u32,
) -> Result<Contents, Refusal> {
    let slot = Slot::new(0).expect(rt, "a slot");
    let geometry = Geometry::new(8, area, 4_096).expect(rt, "a geometry");
    assert!(rt; disk_size(geometry) <= disk.len());
    Contents::format(alloc, disk, slot, 1, geometry)
}

// A new disk, formatted.
fn formatted(rt: &impl Abort, alloc: Global, area: u32) -> Rig {
    let len = 40_960 + 2 * u64::from(area);
    let mut disk = new_disk(rt, alloc, len);
    let store = format(rt, alloc, &mut disk, area).expect(rt, "a store");
    Rig {
        alloc,
        disk,
        store,
        plan: Plan::new(),
    }
}

// The blocks 0 and 1.
pub(crate) fn two(rt: &impl Abort, alloc: Global, first: u8, second: u8) -> [Image; 2]
    ensures { AreImages 8 result }
{
    [image(rt, alloc, 0, first), image(rt, alloc, 1, second)]
}

// The block 1.
fn one(rt: &impl Abort, alloc: Global, byte: u8) -> [Image; 1]
    ensures { AreImages 8 result }
{
    [image(rt, alloc, 1, byte)]
}

// The store's disk is long enough, for its 8 blocks.
fn fits(rt: &impl Abort, store: &Contents, disk: &MemDisk)
    ensures room { disk_size_of (geometry_of store.now) ≤ size_of disk.now }
    ensures blocks { (geometry_of store.now).blocks ≡ 8 }
{
    let geometry = store.geometry();
    assert!(rt; geometry.blocks == 8 && disk_size(geometry) <= disk.len());
}

impl Rig {
    fn commit(&mut self, rt: &impl Abort, front: u64, images: &[Image]) -> Result<Synced, Refusal>
        requires images { AreImages 8 images.now }
        requires limit { front ≤ MAX_NUMBER }
    {
        fits(rt, &self.store, &self.disk);
        self.store.commit(self.alloc, &mut self.disk, front, images)
    }

    fn tick(&mut self, rt: &impl Abort) -> Result<Option<u32>, Refusal> {
        fits(rt, &self.store, &self.disk);
        self.store.tick(&mut self.disk, &mut self.plan)
    }

    fn tick_run(&mut self, rt: &impl Abort) -> Result<Option<Run>, Refusal> {
        fits(rt, &self.store, &self.disk);
        self.store.tick_run(&mut self.disk, &mut self.plan, 8)
    }

    fn checkpoint(&mut self, rt: &impl Abort) -> Result<(), Refusal> {
        fits(rt, &self.store, &self.disk);
        self.store.checkpoint(&mut self.disk)
    }

    // The byte of which the block consists.
    fn read(&mut self, rt: &impl Abort, block: u32) -> Result<u8, Refusal>
        requires { block < 8 }
    {
        fits(rt, &self.store, &self.disk);
        let mut bytes = [0xee; IMAGE_SIZE];
        self.store.read_block(&mut self.disk, block, &mut bytes)?;
        same_at(rt, bytes, [bytes[0]; IMAGE_SIZE], block);
        Ok(bytes[0])
    }

    // The byte of which each of three blocks consists, which are read together.
    fn read_three(&mut self, rt: &impl Abort, first: u32) -> [u8; 3]
        requires { first < 6 }
    {
        fits(rt, &self.store, &self.disk);
        let mut bytes = [0xee; 3 * IMAGE_SIZE];
        self.store
            .read_blocks(&mut self.disk, first, 3, &mut bytes)
            .expect(rt, "the store reads");
        let blocks = [bytes[0], bytes[IMAGE_SIZE], bytes[2 * IMAGE_SIZE]];
        for (block, byte) in bytes.chunks(IMAGE_SIZE).zip(blocks) {
            same_at(rt, block, [byte; IMAGE_SIZE].as_slice(), first);
        }
        blocks
    }
}

// The store that the disk holds.
fn opened(alloc: Global, mut disk: MemDisk) -> Result<Rig, Refusal> {
    match Contents::open(alloc, &mut disk) {
        Ok(store) => Ok(Rig {
            alloc,
            disk,
            store,
            plan: Plan::new(),
        }),
        Err(refusal) => Err(refusal),
    }
}

// A disk that was used: each byte of it is 238.
fn used(rt: &impl Abort, alloc: Global) -> MemDisk {
    let bytes = vec![in alloc; 0xee; 57_388].expect(rt, "memory");
    let mut disk = new_disk(rt, alloc, 57_388);
    disk.write_at(0, &bytes).expect(rt, "the disk writes");
    disk.sync().expect(rt, "the disk syncs");
    disk
}

// The disk's bytes from a place on are zeros, so many.
fn are_zeros(disk: &MemDisk, at: usize, len: usize) -> bool {
    let bytes = stretch(disk, at, len);
    bytes.len() == len && bytes.iter().all(|byte| *byte == 0)
}

#[test]
fn format_writes_the_row(rt: HostRuntime) {
    let alloc = rt.alloc();
    let mut disk = used(&rt, alloc);
    let _store = format(&rt, alloc, &mut disk, LEAST).expect(&rt, "a store");
    disk.cut(Cut::None);
    same(&rt, stretch(&disk, 0, 56), FIRST.as_slice());
    same(
        &rt,
        (are_zeros(&disk, 4_096, 13), are_zeros(&disk, 8_192, 32_768)),
        (true, true),
    );
    same(&rt, stretch(&disk, 40_960, 2), b"\0\xee".as_slice());
}

#[test]
fn a_formatted_disk_is_opened(rt: HostRuntime) {
    let alloc = rt.alloc();
    let mut disk = used(&rt, alloc);
    let _store = format(&rt, alloc, &mut disk, LEAST).expect(&rt, "a store");
    disk.cut(Cut::None);
    let mut rig = opened(alloc, disk).expect(&rt, "a store");
    same(
        &rt,
        Ok(rig.store.geometry()),
        Geometry::new(8, LEAST, 4_096),
    );
    for block in 0..8 {
        same(&rt, rig.read(&rt, block), Ok(0));
    }
    let receipt = rig
        .commit(&rt, MAX_NUMBER, &two(&rt, alloc, 1, 2))
        .expect(&rt, "a receipt");
    same(
        &rt,
        (receipt.slot().number(), receipt.front()),
        (0, MAX_NUMBER),
    );
}

// What a commit of blocks 0 and 1 writes into an area of 8,214 bytes behind 40,960: at each place these bytes.
const BATCH: [(usize, &[u8]); 5] = [
    (40_960, b"\x01\0\0\0\0\0\0\0\x01\0\0\0\x02\0\0\0\0"),
    (40_977, &[7; IMAGE_SIZE]),
    (45_073, b"\0\0\0\x01"),
    (45_077, &[8; IMAGE_SIZE]),
    (49_173, b"\0"),
];

#[test]
fn a_commit_writes_its_batch(rt: HostRuntime) {
    let alloc = rt.alloc();
    let mut rig = formatted(&rt, alloc, LEAST);
    same(&rt, rig.disk.calls(), 22);
    let images = two(&rt, alloc, 7, 8);
    let _receipt = rig.commit(&rt, 1, &images).expect(&rt, "a receipt");
    same(&rt, rig.disk.calls(), 26);
    for (at, bytes) in &BATCH {
        same_at(&rt, stretch(&rig.disk, *at, bytes.len()), *bytes, at);
    }
}

#[test]
fn a_checkpoint_writes_a_superblock(rt: HostRuntime) {
    let alloc = rt.alloc();
    let mut rig = formatted(&rt, alloc, LEAST);
    let images = two(&rt, alloc, 7, 8);
    let _receipt = rig.commit(&rt, 1, &images).expect(&rt, "a receipt");
    rig.checkpoint(&rt).expect(&rt, "a checkpoint");
    same(&rt, rig.disk.calls(), 37);
    same(&rt, stretch(&rig.disk, 4_096, 56), SECOND.as_slice());
    let images = one(&rt, alloc, 9);
    let _receipt = rig.commit(&rt, 2, &images).expect(&rt, "a receipt");
    same(
        &rt,
        stretch(&rig.disk, 49_174, 9),
        b"\x01\0\0\0\0\0\0\0\x02".as_slice(),
    );
}

// A store behind a checkpoint and a commit of block 1.
fn checkpointed(rt: &impl Abort, alloc: Global) -> Rig {
    let mut rig = formatted(rt, alloc, LEAST);
    let images = two(rt, alloc, 7, 8);
    let _receipt = rig.commit(rt, 1, &images).expect(rt, "a receipt");
    rig.checkpoint(rt).expect(rt, "a checkpoint");
    let images = one(rt, alloc, 9);
    let _receipt = rig.commit(rt, 2, &images).expect(rt, "a receipt");
    same(rt, rig.disk.calls(), 41);
    rig
}

// A pending block, and two that are home.
#[test]
fn reads_are_counted(rt: HostRuntime) {
    let mut rig = checkpointed(&rt, rt.alloc());
    for (block, byte, calls) in [(1, 9, 41), (0, 7, 42), (7, 0, 43)] {
        same(
            &rt,
            (rig.read(&rt, block), rig.disk.calls()),
            (Ok(byte), calls),
        );
    }
}

// Runs with a pending block inside, with one in front, and with none.
#[test]
fn runs_are_counted(rt: HostRuntime) {
    let mut rig = checkpointed(&rt, rt.alloc());
    for (first, bytes, calls) in [(0, [7, 9, 0], 42), (1, [9, 0, 0], 43), (5, [0; 3], 44)] {
        same(
            &rt,
            (rig.read_three(&rt, first), rig.disk.calls()),
            (bytes, calls),
        );
    }
}

#[test]
fn ticks_are_counted(rt: HostRuntime) {
    let mut rig = checkpointed(&rt, rt.alloc());
    for (given, calls) in &[(Some(1), 42), (None, 42)] {
        same(&rt, (rig.tick(&rt), rig.disk.calls()), (Ok(*given), *calls));
    }
    same(&rt, (rig.read(&rt, 1), rig.disk.calls()), (Ok(9), 43));
    rig.checkpoint(&rt).expect(&rt, "a checkpoint");
    same(&rt, (rig.disk.calls(), rig.store.front()), (52, 2));
}

// What is put over the bytes of a new disk with the first superblock, at which place; and the front that the disk means,
// or what `open` says of it.
const DISKS: [(u64, &[u8], Result<u64, Refusal>); 14] = [
    (56, b"", Ok(0)),
    (0, &[0; 56], Err(Refusal::NotAVolume)),
    (0, b"\0", Err(Refusal::NotAVolume)),
    (13, b"K", Err(Refusal::NotAVolume)),
    (24, b"\0", Err(Refusal::OtherVersion)),
    (24, b"\x01", Ok(0)),
    (24, b"\x03", Err(Refusal::OtherVersion)),
    (25, b"\0", Err(Refusal::Unfinished)),
    (25, b"\x02", Err(Refusal::NotAVolume)),
    (54, b"\x06\x01", Ok(6)),
    (55, b"\x02", Err(Refusal::NotAVolume)),
    (40_960, b"\xff\0\0\0\0\0\0\0\x07\0\0\0\0", Ok(0)),
    (40_960, b"\x01\0\0\0\0\0\0\0\x07\0\0\0\x01", Ok(7)),
    (
        40_960,
        b"\x01\0\0\0\0\0\0\0\x07\0\0\0\0",
        Err(Refusal::NotAVolume),
    ),
];

#[test]
fn opens(rt: HostRuntime) {
    let alloc = rt.alloc();
    for (at, bytes, wanted) in &DISKS {
        let mut disk = new_disk(&rt, alloc, 57_388);
        disk.write_at(0, &FIRST).expect(&rt, "the disk writes");
        assert!(rt; *at <= 40_960 && bytes.len() <= 56);
        disk.write_at(*at, *bytes).expect(&rt, "the disk writes");
        let is = Contents::open(alloc, &mut disk).map(|store| store.front());
        same_at(&rt, is, *wanted, (at, bytes));
    }
}

// Whether a commit of block 1 at each of these fronts is refused so.
fn are_refused(rt: &impl Abort, rig: &mut Rig, fronts: &[(u64, Refusal)]) {
    let images = one(rt, rig.alloc, 9);
    for (front, told) in fronts {
        assert!(rt; *front <= MAX_NUMBER);
        let is = rig.commit(rt, *front, &images).err();
        same_at(rt, is, Some(*told), front);
    }
}

#[test]
fn refusals(rt: HostRuntime) {
    let alloc = rt.alloc();
    let mut rig = formatted(&rt, alloc, LEAST);
    are_refused(&rt, &mut rig, &[(0, Refusal::Backwards)]);
    let images = two(&rt, alloc, 7, 8);
    let _receipt = rig.commit(&rt, 4, &images).expect(&rt, "a receipt");
    are_refused(
        &rt,
        &mut rig,
        &[
            (3, Refusal::Backwards),
            (4, Refusal::Backwards),
            (5, Refusal::Full),
        ],
    );
    rig.checkpoint(&rt).expect(&rt, "a checkpoint");
    are_refused(&rt, &mut rig, &[(4, Refusal::Backwards)]);
    let images = one(&rt, alloc, 9);
    let _receipt = rig.commit(&rt, 5, &images).expect(&rt, "a receipt");
}

const TEXTS: [(Refusal, Option<u16>, &str); 9] = [
    (Refusal::Memory, Some(100), "100 Memory"),
    (Refusal::Full, Some(121), "121 Full"),
    (Refusal::Broken, Some(122), "122 Broken"),
    (Refusal::NotAVolume, Some(131), "131 NotAVolume"),
    (Refusal::OtherVersion, Some(132), "132 OtherVersion"),
    (Refusal::Unfinished, Some(133), "133 Unfinished"),
    (Refusal::Backwards, Some(134), "134 Backwards"),
    (
        Refusal::Device(DiskError::WriteFault),
        Some(102),
        "102 WriteFault",
    ),
    (Refusal::Device(DiskError::Stopped), None, "stopped"),
];

#[test]
fn refusals_in_words(rt: HostRuntime) {
    for (refusal, number, text) in &TEXTS {
        same(&rt, refusal.number(), *number);
        prints(&rt, rt.alloc(), refusal, text);
    }
}

// A call of a store.
#[derive(Clone, Copy, Debug, PartialEq, Eq)]
enum Doing {
    Commit,
    Tick,
    Run,
    Checkpoint,
    Read,
}

// Does it: a commit is of block 1 at front 2, a run of 8 blocks at most, and a read of block 7.
fn refused(rt: &impl Abort, rig: &mut Rig, doing: Doing) -> Option<Refusal> {
    let images = one(rt, rig.alloc, 9);
    match doing {
        Doing::Commit => rig.commit(rt, 2, &images).err(),
        Doing::Tick => rig.tick(rt).err(),
        Doing::Run => rig.tick_run(rt).err(),
        Doing::Checkpoint => rig.checkpoint(rt).err(),
        Doing::Read => rig.read(rt, 7).err(),
    }
}

// A store behind a commit of blocks 0 and 1 at front 1.
fn committed(rt: &impl Abort, alloc: Global) -> Rig {
    let mut rig = formatted(rt, alloc, ROOMY);
    let images = two(rt, alloc, 7, 8);
    let _receipt = rig.commit(rt, 1, &images).expect(rt, "a receipt");
    rig
}

const ALL: [Doing; 5] = [
    Doing::Commit,
    Doing::Tick,
    Doing::Run,
    Doing::Checkpoint,
    Doing::Read,
];

#[test]
fn faults(rt: HostRuntime) {
    for (doing, call, fault) in &[
        (Doing::Commit, 1, DiskError::WriteFault),
        (Doing::Commit, 4, DiskError::SyncFault),
        (Doing::Tick, 1, DiskError::WriteFault),
        (Doing::Run, 1, DiskError::WriteFault),
        (Doing::Checkpoint, 2, DiskError::WriteFault),
        (Doing::Checkpoint, 11, DiskError::SyncFault),
        (Doing::Read, 1, DiskError::ReadFault),
    ] {
        let mut rig = committed(&rt, rt.alloc());
        let before = rig.disk.calls();
        rig.disk
            .arm(Event::FailAt { call: *call })
            .expect(&rt, "memory");
        let told = refused(&rt, &mut rig, *doing);
        same_at(&rt, told, Some(Refusal::Device(*fault)), (doing, call));
        for again in &ALL {
            same_at(
                &rt,
                refused(&rt, &mut rig, *again),
                Some(Refusal::Broken),
                again,
            );
        }
        same(&rt, rig.disk.calls(), before.saturating_add(*call));
    }
}

// What a disk means that was cut: the front, and the byte of which each block consists.
fn found(rt: &impl Abort, alloc: Global, disk: MemDisk) -> Result<(u64, [u8; 8]), Refusal> {
    let mut rig = opened(alloc, disk)?;
    let mut blocks = [0; 8];
    for block in 0..8 {
        blocks[block as usize] = rig.read(rt, block).expect(rt, "the store reads");
    }
    Ok((rig.store.front(), blocks))
}

// The bytes that each device call of `format`, and of the other calls behind a commit of blocks 0 and 1, writes: a sync
// writes none, and neither does the closing of a gate that is closed.
const FORMAT: [u64; 22] = [
    4_096, 4_096, 4_096, 4_096, 4_096, 4_096, 4_096, 4_096, 1, 0, 12, 12, 0, 1, 1, 0, 0, 0, 55, 0,
    1, 0,
];

const WRITES: [(Doing, &[u64]); 4] = [
    (Doing::Commit, &[4_113, 0, 1, 0]),
    (Doing::Tick, &[4_096]),
    (Doing::Run, &[8_192]),
    (
        Doing::Checkpoint,
        &[4_096, 4_096, 0, 1, 0, 0, 0, 55, 0, 1, 0],
    ),
];

// Stops `format` of a used disk, cuts, and finds.
fn format_stopped(
    rt: &impl Abort,
    alloc: Global,
    event: Event,
    cut: Cut,
) -> Result<(u64, [u8; 8]), Refusal> {
    let mut disk = used(rt, alloc);
    disk.arm(event).expect(rt, "memory");
    let told = format(rt, alloc, &mut disk, LEAST);
    same(rt, told.err(), Some(Refusal::Device(DiskError::Stopped)));
    disk.cut(cut);
    found(rt, alloc, disk)
}

// Whether a volume of zeros is found behind a stop where the last gate's byte was written and kept, and else none.
fn format_stops_at(rt: &impl Abort, alloc: Global, call: u64, bytes: u64) {
    let event = Event::StopAt { call, bytes };
    let is_open = call == 22 || call == 21 && bytes > 0;
    let wanted = if is_open {
        Ok((0, [0; 8]))
    } else {
        Err(Refusal::NotAVolume)
    };
    let is = format_stopped(rt, alloc, event, Cut::All);
    same_at(rt, is, wanted, event);
    let is = format_stopped(rt, alloc, event, Cut::None);
    same_at(rt, is, Err(Refusal::NotAVolume), event);
}

#[test]
fn format_stops(rt: HostRuntime) {
    for (len, call) in FORMAT.iter().zip(1..=22) {
        for bytes in [0, 1, len / 2, *len] {
            format_stops_at(&rt, rt.alloc(), call, bytes);
        }
    }
}

// Stops the call behind a commit of blocks 0 and 1 at front 1, cuts, and finds.
fn stopped(
    rt: &impl Abort,
    alloc: Global,
    doing: Doing,
    event: Event,
    cut: Cut,
) -> Result<(u64, [u8; 8]), Refusal> {
    let mut rig = committed(rt, alloc);
    rig.disk.arm(event).expect(rt, "memory");
    let told = refused(rt, &mut rig, doing);
    same(rt, told, Some(Refusal::Device(DiskError::Stopped)));
    rig.disk.cut(cut);
    found(rt, alloc, rig.disk)
}

// Whether what is found behind a stop is the old state, or the new one where the gate's byte was written and kept.
fn stops_at(rt: &impl Abort, alloc: Global, doing: Doing, call: u64, bytes: u64) {
    let (old, new) = ((1, [7, 8, 0, 0, 0, 0, 0, 0]), (2, [7, 9, 0, 0, 0, 0, 0, 0]));
    let event = Event::StopAt { call, bytes };
    let is_new = doing == Doing::Commit && (call == 4 || call == 3 && bytes > 0);
    let wanted = if is_new { new } else { old };
    let is = stopped(rt, alloc, doing, event, Cut::All);
    same_at(rt, is, Ok(wanted), (doing, event));
    let is = stopped(rt, alloc, doing, event, Cut::None);
    same_at(rt, is, Ok(old), (doing, event));
}

#[test]
fn stops(rt: HostRuntime) {
    for (doing, writes) in &WRITES {
        for (len, call) in writes.iter().zip(1..=11) {
            for bytes in [0, 1, len / 2, *len] {
                stops_at(&rt, rt.alloc(), *doing, call, bytes);
            }
        }
    }
}

// A commit, a tick and an opening, each of which memory may run out in: the answer is that, or the right one.
#[test]
fn no_memory(rt: HostRuntime) {
    let alloc = rt.alloc();
    let mut rig = formatted(&rt, alloc, ROOMY);
    let images = two(&rt, alloc, 7, 8);
    let before = rig.disk.calls();
    let front = match rig.commit(&rt, 1, &images) {
        Ok(receipt) => receipt.front(),
        Err(Refusal::Memory) => {
            same(&rt, (rig.disk.calls(), rig.store.front()), (before, 0));
            same(&rt, rig.read(&rt, 1), Ok(0));
            rig.commit(&rt, 1, &images).expect(&rt, "a receipt").front()
        }
        Err(refusal) => {
            same(&rt, refusal, Refusal::Device(DiskError::Memory));
            let again = rig.commit(&rt, 1, &images).err();
            same(&rt, again, Some(Refusal::Broken));
            0
        }
    };
    let blocks = if front == 1 {
        [7, 8, 0, 0, 0, 0, 0, 0]
    } else {
        [0; 8]
    };
    let is = found(&rt, alloc, rig.disk);
    if is != Err(Refusal::Memory) && is != Err(Refusal::Device(DiskError::Memory)) {
        same(&rt, is, Ok((front, blocks)));
    }
}
