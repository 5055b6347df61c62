//! Disks in memory that tests write on.
ghost use Rattle.std.specs.Prelude.{◌≡◌};
ghost use Rattle.disk_model.specs.Memory.{size_of};

use disk_model::{MemDisk, Script};
use std::alloc::Global;
use std::process::Abort;

/// A new disk of zeros.
pub(crate) fn new_disk(rt: &impl Abort, alloc: Global, len: u64) -> MemDisk
    ensures { size_of result ≡ len }
{
    MemDisk::new(alloc, len, Script::new(alloc)).expect(rt, "memory")
}

/// The disk's bytes from a place on: none where it has less.
pub(crate) fn stretch(disk: &MemDisk, at: usize, len: usize) -> &[u8] {
    disk.bytes()
        .get(at..at.saturating_add(len))
        .unwrap_or_default()
}
