// Each call once over a disk in memory, with the calls of the device counted.
ghost use Rattle.std.specs.Prelude.{◌≡◌, ◌≤◌};
ghost use Rattle.disk_model.specs.Memory.{size_of};
ghost use Rattle.home_blocks.specs.Places.{disk_size_of};

use crate::comparing::same;
use crate::disks::new_disk;
use block_cache::Cache;
use disk_model::MemDisk;
use gate_journal::Slot;
use home_blocks::{Area, Home, Progress, Superblock, disk_size};
use std::alloc::Global;
use std::process::Abort;
use volume::Geometry;

// A disk with a home of 8 blocks, of which block 7 holds fives.
fn home_with_fives(rt: &impl Abort, alloc: Global) -> (MemDisk, Home)
    ensures room { disk_size_of result.1.superblock.geometry ≤ size_of result.0 }
    ensures blocks { result.1.superblock.geometry.blocks ≡ 8 }
{
    let geometry = Geometry::new(8, 8_214, 4_096).expect(rt, "a geometry");
    let slot = Slot::new(2).expect(rt, "a slot");
    let superblock = Superblock::new(Progress::Whole, slot, 1, geometry, 0, Area::First);
    let mut disk = new_disk(rt, alloc, disk_size(geometry));
    let (home, _) = Home::create(&mut disk, superblock).expect(rt, "a home");
    home.write_home(&mut disk, 7, &[5; 4_096])
        .expect(rt, "the disk writes");
    (disk, home)
}

#[test]
fn a_read(rt: HostRuntime) {
    let (mut disk, home) = home_with_fives(&rt, rt.alloc());
    let mut cache = Cache::new(rt.alloc()).expect(&rt, "memory");
    same(&rt, (cache.is_empty(), cache.contains(7)), (true, false));
    let mut bytes = [9; 4_096];
    cache
        .read(&mut disk, &home, 7, &mut bytes)
        .expect(&rt, "the disk reads");
    same(&rt, bytes, [5; 4_096]);
    same(&rt, (cache.contains(7), cache.len()), (false, 0));
    cache
        .read(&mut disk, &home, 7, &mut bytes)
        .expect(&rt, "the disk reads");
    same(&rt, bytes, [5; 4_096]);
    same(&rt, (cache.contains(7), cache.len()), (true, 1));
    let calls = disk.calls();
    let mut again = [9; 4_096];
    cache
        .read(&mut disk, &home, 7, &mut again)
        .expect(&rt, "the cache reads");
    same(&rt, again, [5; 4_096]);
    same(&rt, disk.calls(), calls);
}

#[test]
fn a_write(rt: HostRuntime) {
    let (mut disk, home) = home_with_fives(&rt, rt.alloc());
    let mut cache = Cache::new(rt.alloc()).expect(&rt, "memory");
    let mut bytes = [9; 4_096];
    cache
        .read(&mut disk, &home, 7, &mut bytes)
        .expect(&rt, "the disk reads");
    cache
        .read(&mut disk, &home, 7, &mut bytes)
        .expect(&rt, "the disk reads");
    home.write_home(&mut disk, 7, &[6; 4_096])
        .expect(&rt, "the disk writes");
    cache.renew(7, &[6; 4_096]);
    cache
        .read(&mut disk, &home, 7, &mut bytes)
        .expect(&rt, "the cache reads");
    same(&rt, bytes, [6; 4_096]);
    cache.forget(7);
    same(&rt, cache.contains(7), false);
}
