// What no clause says: the bytes of the format, the calls of the device, and stops that were really played.
ghost use Rattle.std.specs.Prelude.{◌≡◌, ◌+◌, ◌≤◌};

use crate::comparing::{prints, same, same_at};
use crate::disks::new_disk;
use crate::images::{image, is_of};
use disk_model::{Cut, Disk, DiskError, Event, Part};
use gate_journal::{Batch, IMAGE_SIZE, Image, Journal, MAX_NUMBER, Refusal, Slot, Synced};
use std::alloc::Global;
use std::process::Abort;

// Appends what the journal takes.
fn append<D: Disk>(
    rt: &impl Abort,
    alloc: Global,
    journal: &mut Journal,
    disk: &mut D,
    front: u64,
    images: &[Image],
) -> Result<Synced, Refusal>
    requires { journal.old.part.start + journal.old.part.len ≤ D.size disk.old }
    ensures part { journal.new.part ≡ journal.old.part }
    ensures size { D.size disk.new ≡ D.size disk.old }
{
    assert!(rt; journal.are_images(images) && journal.front() < front && front <= MAX_NUMBER);
    journal.append(&mut Vec::new(alloc), disk, front, images)
}

// An image of zeros takes 4 bytes of a batch, and any other 4,100; a clone has the same bytes.
#[test]
fn an_image_and_its_clone(rt: HostRuntime) {
    let alloc = rt.alloc();
    for (byte, is_zeros, size) in [(0, true, 4), (7, false, 4_100)] {
        let copy = image(&rt, alloc, 3, byte).clone().expect(&rt, "memory");
        let told = (copy.block(), copy.is_zeros(), copy.size());
        same_at(&rt, told, (3, is_zeros, size), byte);
        let mut bytes = [1; IMAGE_SIZE];
        copy.copy_to(&mut bytes);
        same_at(&rt, bytes, [byte; IMAGE_SIZE], byte);
    }
}

// A stop in a call of `append`, after so many bytes of it, and how many batches are found then, where a cut left all
// that was written, and where it left none of what no sync had reached.
const STOPS: [(u64, u64, usize, usize); 8] = [
    (1, 0, 1, 1),
    (1, 1, 1, 1),
    (1, 2056, 1, 1),
    (1, 4113, 1, 1),
    (2, 0, 1, 1),
    (3, 0, 1, 1),
    (3, 1, 2, 1),
    (4, 0, 2, 1),
];

// Two batches of an image, and the gate behind them.
const TWO: u64 = 8_227;

// Stops the second `append`, cuts, opens, and says how many batches are found, of which each is what was appended.
fn found_after(rt: &impl Abort, alloc: Global, slot: Slot, event: Event, cut: Cut) -> usize {
    let part = Part::new(5, TWO);
    let mut disk = new_disk(rt, alloc, 5 + TWO);
    let mut journal = Journal::create(&mut disk, part, slot, 4, 6).expect(rt, "a journal");
    same(rt, disk.calls(), 2);
    let images = [image(rt, alloc, 0, 7)];
    let told = append(rt, alloc, &mut journal, &mut disk, 9, &images);
    let receipt = told.expect(rt, "a receipt");
    same(rt, (receipt.front(), disk.calls()), (9, 6));
    disk.arm(event).expect(rt, "memory");
    let images = [image(rt, alloc, 3, 8)];
    let told = append(rt, alloc, &mut journal, &mut disk, 11, &images);
    same(rt, told.err(), Some(Refusal::Device(DiskError::Stopped)));
    let again = append(rt, alloc, &mut journal, &mut disk, 11, &images);
    same(rt, again.err(), Some(Refusal::Broken));
    disk.cut(cut);

    let (_, batches) = Journal::open(alloc, &mut disk, part, slot, 4, 6).expect(rt, "a journal");
    let wanted = [(9, 0, 7), (11, 3, 8)];
    for (batch, (front, block, byte)) in batches.iter().zip(wanted) {
        same(rt, batch.front(), front);
        is_of(rt, batch.images(), block, byte);
    }
    batches.len()
}

#[test]
fn stops(rt: HostRuntime) {
    let slot = Slot::new(3).expect(&rt, "a slot");
    for (call, bytes, after_all, after_none) in &STOPS {
        let event = Event::StopAt {
            call: *call,
            bytes: *bytes,
        };
        let found = (
            found_after(&rt, rt.alloc(), slot, event, Cut::All),
            found_after(&rt, rt.alloc(), slot, event, Cut::None),
        );
        same_at(&rt, found, (*after_all, *after_none), event);
    }
}

// What `append` is refused with where a device call of it fails; then the journal is broken.
fn append_fails(rt: &impl Abort, alloc: Global, call: u64) -> Option<Refusal> {
    let slot = Slot::new(0).expect(rt, "a slot");
    let part = Part::new(0, TWO);
    let mut disk = new_disk(rt, alloc, TWO);
    let mut journal = Journal::create(&mut disk, part, slot, 1, 0).expect(rt, "a journal");
    disk.arm(Event::FailAt { call }).expect(rt, "memory");
    let images = [image(rt, alloc, 0, 1)];
    let told = append(rt, alloc, &mut journal, &mut disk, 1, &images);
    let again = journal.read_all(alloc, &mut disk);
    same(rt, again.err(), Some(Refusal::Broken));
    same(rt, Some(disk.calls()), call.checked_add(2));
    told.err()
}

// What `read_all` is refused with where a device call of it fails; then the journal is broken.
fn read_fails(rt: &impl Abort, alloc: Global, call: u64) -> Option<Refusal> {
    let slot = Slot::new(0).expect(rt, "a slot");
    let part = Part::new(0, TWO);
    let mut disk = new_disk(rt, alloc, TWO);
    let mut journal = Journal::create(&mut disk, part, slot, 1, 0).expect(rt, "a journal");
    let images = [image(rt, alloc, 0, 1)];
    let told = append(rt, alloc, &mut journal, &mut disk, 1, &images);
    let _receipt = told.expect(rt, "a receipt");
    let batches = journal.read_all(alloc, &mut disk).expect(rt, "the batches");
    same(rt, (batches.len(), disk.calls()), (1, 10));
    disk.arm(Event::FailAt { call }).expect(rt, "memory");
    let told = journal.read_all(alloc, &mut disk).err();
    same(rt, journal.is_broken(), true);
    told
}

#[test]
fn faults(rt: HostRuntime) {
    for (call, fault) in &[
        (1, DiskError::WriteFault),
        (2, DiskError::SyncFault),
        (3, DiskError::WriteFault),
        (4, DiskError::SyncFault),
    ] {
        let told = append_fails(&rt, rt.alloc(), *call);
        same_at(&rt, told, Some(Refusal::Device(*fault)), call);
        let told = read_fails(&rt, rt.alloc(), *call);
        same_at(&rt, told, Some(Refusal::Device(DiskError::ReadFault)), call);
    }
}

// An open gate, a front, a count, and blocks of zeros under these numbers.
fn encode(rt: &impl Abort, bytes: &mut Vec<u8>, front: u64, count: u32, blocks: &[u32]) {
    bytes.push(1).expect(rt, "memory");
    bytes
        .extend_from_slice(&front.to_be_bytes())
        .expect(rt, "memory");
    bytes
        .extend_from_slice(&count.to_be_bytes())
        .expect(rt, "memory");
    for block in blocks {
        bytes
            .extend_from_slice(&block.to_be_bytes())
            .expect(rt, "memory");
        bytes.extend_from_slice(&[0; 4_096]).expect(rt, "memory");
    }
}

// What `open` says of an area with these bytes at its front, for 4 blocks behind the front 6: the last front.
fn opened(rt: &impl Abort, alloc: Global, area: u32, bytes: &[u8]) -> Result<u64, Refusal> {
    let part = Part::new(0, u64::from(area));
    let mut disk = new_disk(rt, alloc, u64::from(area));
    disk.write_at(0, &bytes[..bytes.len().min(area as usize)])
        .expect(rt, "the disk writes");
    let slot = Slot::new(0).expect(rt, "a slot");
    match Journal::open(alloc, &mut disk, part, slot, 4, 6) {
        Ok((journal, _batches)) => Ok(journal.front()),
        Err(refusal) => Err(refusal),
    }
}

// A first batch of the front 7 with block 1, and a second: its front, its count and its blocks; the area's length; and
// the last front, where it isn't damage. Two such batches have 8,226 bytes.
const SECONDS: [(u64, u32, &[u32], u32, Option<u64>); 14] = [
    (8, 1, &[3], 8_227, Some(8)),
    (8, 1, &[3], 8_226, None),
    (8, 1, &[3], 8_225, None),
    (8, 1, &[3], 4_127, None),
    (8, 1, &[3], 4_114, None),
    (8, 2, &[3, 0], 12_327, Some(8)),
    (8, 2, &[3, 3], 12_327, None),
    (8, 2, &[3, 4], 12_327, None),
    (8, 0, &[], 8_227, None),
    (8, 0xffff_ffff, &[3], 8_227, None),
    (7, 1, &[3], 8_227, None),
    (
        0x7fff_ffff_ffff_ffff,
        1,
        &[3],
        8_227,
        Some(0x7fff_ffff_ffff_ffff),
    ),
    (0x8000_0000_0000_0000, 1, &[3], 8_227, None),
    (0xffff_ffff_ffff_ffff, 1, &[3], 8_227, None),
];

#[test]
fn damage(rt: HostRuntime) {
    let alloc = rt.alloc();
    for (front, count, blocks, area, last) in &SECONDS {
        let mut bytes = Vec::new(alloc);
        encode(&rt, &mut bytes, 7, 1, &[1]);
        encode(&rt, &mut bytes, *front, *count, blocks);
        let is = opened(&rt, alloc, *area, &bytes);
        same_at(&rt, is, last.ok_or(Refusal::Damaged), (front, count, area));
    }
    // Any byte but 1 closes a gate, and no byte is no gate.
    same(&rt, opened(&rt, alloc, 1, &[0xff]), Ok(6));
    same(&rt, opened(&rt, alloc, 1, &[1]), Err(Refusal::Damaged));
    same(&rt, opened(&rt, alloc, 0, &[]), Err(Refusal::Damaged));
}

// The batch of a block of zeros behind an empty volume, and the closed gate behind it: what `zero` of block 0 leaves.
const MARK: [u8; 18] = *b"\x01\0\0\0\0\0\0\0\x01\0\0\0\x01\x80\0\0\0\0";

// A block of zeros is written as a mark, so that an area takes it that has no room for a whole one.
#[test]
fn a_mark_is_written(rt: HostRuntime) {
    let alloc = rt.alloc();
    let slot = Slot::new(0).expect(&rt, "a slot");
    let part = Part::new(0, 18);
    let mut disk = new_disk(&rt, alloc, 18);
    let mut journal = Journal::create(&mut disk, part, slot, 8, 0).expect(&rt, "a journal");
    same(&rt, journal.left(), 4);
    let whole = [image(&rt, alloc, 0, 1)];
    let told = append(&rt, alloc, &mut journal, &mut disk, 1, &whole);
    same(&rt, told.err(), Some(Refusal::Full));
    let zeros = [image(&rt, alloc, 0, 0)];
    let told = append(&rt, alloc, &mut journal, &mut disk, 1, &zeros);
    let _receipt = told.expect(&rt, "a receipt");
    same(&rt, journal.left(), 0);
    let mut bytes = [0; 18];
    disk.read(0, &mut bytes).expect(&rt, "the disk reads");
    same(&rt, bytes, MARK);
    let (_, batches) = Journal::open(alloc, &mut disk, part, slot, 8, 0).expect(&rt, "a journal");
    let read: Option<&Batch> = batches.first();
    is_of(&rt, read.map(Batch::images).unwrap_or_default(), 0, 0);
}

// Marks behind a first batch of the front 7 with a whole block 1 of zeros: a second's front, its count and its numbers; the
// area's length; and the last front, where it isn't damage.
const MARKS: [(u64, u32, &[u32], u32, Option<u64>); 7] = [
    (8, 1, &[0x8000_0003], 4_131, Some(8)),
    (8, 1, &[0x8000_0003], 4_130, None),
    (8, 2, &[0x8000_0003, 0x8000_0001], 4_135, Some(8)),
    (8, 2, &[0x8000_0003, 0x8000_0003], 4_135, None),
    (8, 1, &[0x8000_0004], 4_131, None),
    (8, 1, &[3], 4_131, None),
    (8, 2, &[0x8000_0003], 4_131, None),
];

#[test]
fn marks_are_read(rt: HostRuntime) {
    let alloc = rt.alloc();
    for (front, count, numbers, area, last) in &MARKS {
        let mut bytes = Vec::new(alloc);
        encode(&rt, &mut bytes, 7, 1, &[1]);
        encode(&rt, &mut bytes, *front, *count, &[]);
        for number in *numbers {
            bytes
                .extend_from_slice(&number.to_be_bytes())
                .expect(&rt, "memory");
        }
        let is = opened(&rt, alloc, *area, &bytes);
        same_at(&rt, is, last.ok_or(Refusal::Damaged), (front, count, area));
    }
}

#[test]
fn full(rt: HostRuntime) {
    let alloc = rt.alloc();
    let slot = Slot::new(7).expect(&rt, "a slot");
    for (area, left, told, behind) in [
        (13, 0, Some(Refusal::Full), 0),
        (4_113, 4_099, Some(Refusal::Full), 4_099),
        (4_114, 4_100, None, 0),
        (8_213, 8_199, None, 4_086),
        (8_214, 8_200, None, 4_087),
    ] {
        let part = Part::new(0, area);
        let mut disk = new_disk(&rt, alloc, area);
        let mut journal = Journal::create(&mut disk, part, slot, 1, 0).expect(&rt, "a journal");
        same_at(&rt, journal.left(), left, area);
        let images = [image(&rt, alloc, 0, 1)];
        let first = append(&rt, alloc, &mut journal, &mut disk, MAX_NUMBER, &images);
        same_at(&rt, first.err(), told, area);
        same_at(&rt, journal.left(), behind, area);
        same(&rt, journal.part(), part);
    }
}

#[test]
fn numbers(rt: HostRuntime) {
    for (refusal, number, text) in &[
        (Refusal::Memory, Some(100), "100 Memory"),
        (Refusal::Full, Some(121), "121 Full"),
        (Refusal::Broken, Some(122), "122 Broken"),
        (Refusal::Damaged, Some(123), "123 Damaged"),
        (
            Refusal::Device(DiskError::SyncFault),
            Some(103),
            "103 SyncFault",
        ),
    ] {
        same(&rt, refusal.number(), *number);
        prints(&rt, rt.alloc(), refusal, text);
    }
}
