// Worked rows, and each call once over a disk in memory.
use crate::comparing::{prints, same};
use crate::disks::new_disk;
use gate_journal::{GatedPair, PAIR_SIZE, Slot};
use home_blocks::{
    Area, Home, Progress, Refusal, Superblock, Version, area_part, disk_size, home_part,
    superblock_part,
};
use std::process::Abort;
use volume::Geometry;

// The superblock of version 2, slot 2, incarnation 1, 8 blocks, areas of 8,214 bytes and payloads of 4,096, at front 0 and area 0.
const ROW: [u8; Superblock::SIZE] =
    *b"CRAQDISK\0\0\0\x02\x01\x02\0\0\0\0\0\0\0\x01\0\0\0\x08\0\0\x20\x16\0\0\x10\0\0\0\0\0\0\0\0\0\0";

// The same superblock, and one of a disk that is being installed.
fn superblock(rt: &impl Abort, progress: Progress) -> Superblock {
    let slot = Slot::new(2).expect(rt, "a slot");
    let geometry = Geometry::new(8, 8_214, 4_096).expect(rt, "a geometry");
    Superblock::new(progress, slot, 1, geometry, 0, Area::First)
}

#[test]
fn a_superblock(rt: HostRuntime) {
    let row = superblock(&rt, Progress::Whole);
    same(&rt, row.encoded(), ROW);
    same(&rt, Superblock::read(&ROW), Ok(row));
    same(
        &rt,
        (row.progress(), row.slot().number(), row.incarnation()),
        (Progress::Whole, 2, 1),
    );
    same(&rt, row.version(), Version::Two);
    same(
        &rt,
        (row.front(), row.current(), row.current().other()),
        (0, Area::First, Area::Second),
    );
    let mut other = ROW;
    other[11] = 1;
    same(
        &rt,
        Superblock::read(&other).map(|first| first.version()),
        Ok(Version::One),
    );
    other[11] = 3;
    same(
        &rt,
        Superblock::read(&other).err(),
        Some(Refusal::OtherVersion),
    );
    other[7] = b'!';
    same(
        &rt,
        Superblock::read(&other).err(),
        Some(Refusal::NotAVolume),
    );
}

#[test]
fn places(rt: HostRuntime) {
    let geometry = superblock(&rt, Progress::Whole).geometry();
    same(&rt, disk_size(geometry), 57_388);
    let (superblock, home) = (superblock_part(), home_part(geometry));
    same(&rt, (superblock.start(), superblock.len()), (0, 8_192));
    same(&rt, (home.start(), home.len()), (8_192, 32_768));
    let (first, second) = (
        area_part(geometry, Area::First),
        area_part(geometry, Area::Second),
    );
    same(&rt, (first.start(), first.len()), (40_960, 8_214));
    same(&rt, (second.start(), second.len()), (49_174, 8_214));
}

#[test]
fn a_home(rt: HostRuntime) {
    let alloc = rt.alloc();
    let fresh = superblock(&rt, Progress::Installing);
    let mut disk = new_disk(&rt, alloc, disk_size(fresh.geometry()));
    let (mut home, receipt) = Home::create(&mut disk, fresh).expect(&rt, "a home");
    same(&rt, (receipt.slot(), receipt.front()), (fresh.slot(), 0));
    same(&rt, (home.superblock(), home.is_broken()), (fresh, false));
    assert!(rt; home.superblock().geometry().blocks == 8);

    home.write_home(&mut disk, 7, &[5; 4_096])
        .expect(&rt, "the disk writes");
    home.sync_home(&mut disk).expect(&rt, "the disk syncs");
    let receipt = home
        .mark(&mut disk, 9, Area::Second)
        .expect(&rt, "the home is marked");
    same(&rt, (receipt.slot(), receipt.front()), (fresh.slot(), 9));

    let home = Home::open(alloc, &mut disk).expect(&rt, "a home");
    let (slot, geometry) = (fresh.slot(), fresh.geometry());
    let marked = Superblock::new(Progress::Whole, slot, 1, geometry, 9, Area::Second);
    same(&rt, home.superblock(), marked);
    assert!(rt; home.superblock().geometry().blocks == 8);
    let mut bytes = [9; 4_096];
    home.read_home(&mut disk, 7, &mut bytes)
        .expect(&rt, "the disk reads");
    same(&rt, bytes, [5; 4_096]);
    home.read_home(&mut disk, 6, &mut bytes)
        .expect(&rt, "the disk reads");
    same(&rt, bytes, [0; 4_096]);
}

// Two blocks that were written and one that was not, by one device call.
#[test]
fn a_run(rt: HostRuntime) {
    let alloc = rt.alloc();
    let fresh = superblock(&rt, Progress::Whole);
    let mut disk = new_disk(&rt, alloc, disk_size(fresh.geometry()));
    let (home, _) = Home::create(&mut disk, fresh).expect(&rt, "a home");
    assert!(rt; home.superblock().geometry().blocks == 8);
    home.write_home(&mut disk, 5, &[5; 4_096])
        .expect(&rt, "the disk writes");
    home.write_home(&mut disk, 6, &[6; 4_096])
        .expect(&rt, "the disk writes");
    let before = disk.calls();
    let mut bytes = [9; 12_288];
    home.read_blocks(&mut disk, 5, &mut bytes)
        .expect(&rt, "the disk reads");
    same(&rt, disk.calls(), before.saturating_add(1));
    for (block, byte) in bytes.chunks(4_096).zip([5, 6, 0]) {
        same(&rt, block, [byte; 4_096].as_slice());
    }
}

#[test]
fn no_room(rt: HostRuntime) {
    let alloc = rt.alloc();
    let mut disk = new_disk(&rt, alloc, PAIR_SIZE - 1);
    same(
        &rt,
        Home::open(alloc, &mut disk).err(),
        Some(Refusal::NotAVolume),
    );
}

#[test]
fn no_homes(rt: HostRuntime) {
    let alloc = rt.alloc();
    let mut short = new_disk(&rt, alloc, 57_387);
    same(
        &rt,
        Home::open(alloc, &mut short).err(),
        Some(Refusal::NotAVolume),
    );
    let slot = Slot::new(2).expect(&rt, "a slot");
    let part = superblock_part();
    let (mut pair, _) = GatedPair::create(&mut short, part, &ROW, slot, 0).expect(&rt, "a pair");
    same(
        &rt,
        Home::open(alloc, &mut short).err(),
        Some(Refusal::NotAVolume),
    );
    let _receipt = pair
        .store(&mut short, b"CRAQDISK\0\0\0\x03", slot, 0)
        .expect(&rt, "the pair stores");
    same(
        &rt,
        Home::open(alloc, &mut short).err(),
        Some(Refusal::OtherVersion),
    );
    same(&rt, Refusal::OtherVersion.number(), Some(132));
    prints(&rt, alloc, &Refusal::NotAVolume, "131 NotAVolume");
}
