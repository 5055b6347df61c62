//! How long it takes to open an area that one batch fills.
//!
//! The batch has each block once, from the last one down, so that nothing but the journal's own test tells that none
//! stands twice. Untimed it has 16 images; timed it has 65,536, and the milliseconds are printed.
ghost use Rattle.std.specs.Prelude.{◌≡◌, ◌+◌, ◌*◌, ◌≤◌, OnOk};
ghost use Rattle.disk_model.specs.Memory.{size_of};

use crate::report::{now, since};
use disk_model::{Disk, DiskError, MemDisk, Part, Script};
use gate_journal::{Batch, IMAGE_SIZE, Journal, MAX_BLOCKS, Slot};
use std::io;
use std::time::Duration;

/// The bytes of a batch before its images.
const HEAD: u64 = 13;

/// The bytes of an image with its block's number.
const IMAGE_RECORD: u64 = IMAGE_SIZE as u64 + 4;

/// An open gate, and the batch's front, 1.
const OPEN: &[u8] = b"\x01\0\0\0\0\0\0\0\x01";

/// The images of the untimed batch.
const FEW: u32 = 16;

/// Opens such an area, and prints what was there.
pub(crate) fn run(rt: &HostRuntime, timed: bool) -> anyhow::Result<()> {
    let count = if timed { MAX_BLOCKS } else { FEW };
    let script = Script::new(rt.alloc());
    let mut disk = MemDisk::new(rt.alloc(), area_of(count), script)?;
    let opened = write_and_open(rt, &mut disk, count, timed);
    drop(disk);
    opened
}

/// The bytes of an area with a batch of so many images.
fn area_of(count: u32) -> u64
    ensures { result ≡ 4100 * count + 14 }
{
    HEAD + IMAGE_RECORD * u64::from(count) + 1
}

/// Makes the disk such an area, opens it, and prints what was there.
fn write_and_open(
    rt: &HostRuntime,
    disk: &mut MemDisk,
    count: u32,
    timed: bool,
) -> anyhow::Result<()>
    requires few { count ≤ 65536 }
    requires room { size_of disk.old ≡ 4100 * count + 14 }
{
    write_batch(disk, count)?;
    let (part, slot) = (Part::new(0, area_of(count)), Slot::new(0).unwrap());
    let start = now(rt);
    let (journal, batches) = Journal::open(rt.alloc(), disk, part, slot, MAX_BLOCKS, 0)?;
    let took = since(rt, start);
    let printed = print(rt, &batches, journal.front(), took, timed);
    drop(batches);
    Ok(printed?)
}

/// Writes a batch of so many images, the last block first.
fn write_batch(disk: &mut MemDisk, count: u32) -> Result<(), DiskError>
    requires few { count ≤ 65536 }
    requires room { size_of disk.old ≡ 4100 * count + 14 }
    ensures { OnOk result (size_of disk.new ≡ size_of disk.old) }
{
    disk.write_at(0, OPEN)?;
    disk.write_at(9, &count.to_be_bytes())?;
    for index in 0..count {
        let at = HEAD + IMAGE_RECORD * u64::from(index);
        disk.write_at(at, &(count - 1 - index).to_be_bytes())?;
    }
    disk.sync()
}

/// Prints the one batch that was there, and how long it took.
fn print(
    rt: &HostRuntime,
    batches: &[Batch],
    front: u64,
    took: Duration,
    timed: bool,
) -> io::Result<()> {
    let images = match batches {
        [batch] => batch.images().len(),
        _ => 0,
    };
    if !timed {
        return println!(rt; "opened {images} images at front {front}");
    }
    let milliseconds = took.as_millis();
    println!(rt; "opened {images} images at front {front}\nin {milliseconds} ms")
}
