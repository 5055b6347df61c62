//! A disk, as everything above it sees it: what a read gives, what a stop may leave, and the disks that meet this.
//! Its contract for the layer above: the three facts of each device call, and what they come to on a part of a disk.
//! What the bytes of a disk mean is left to the crates above, and so is what follows a failed call.
#![tactic(auto)]

mod content;
mod disk;
mod era;
mod error;
mod file;
mod halves;
mod halving;
mod memory;
mod part;
mod raw_file;
mod script;

pub use content::Cut;
pub use disk::Disk;
pub use error::DiskError;
pub use file::{FileDisk, FileDiskOn, FilePast};
pub use halves::{HalvedDisk, write_beside_log};
pub use memory::{MemDisk, MemPast};
pub use part::Part;
pub use raw_file::RawFile;
pub use script::{Event, Script};
