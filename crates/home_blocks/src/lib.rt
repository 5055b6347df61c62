//! The superblock and the home region of a member's disk: what the disk says of itself, and the blocks of the volume.
//!
//! Its contract for the layers above: while a home is settled, a stop at any moment of a `mark` leaves the disk with the
//! old superblock or the new, and after Ok it is settled with the new one; `open` finds exactly the superblock that the
//! newer open slot of the disk holds, of which there is one at most; a read gives a block of the home region, and a
//! write goes into that block alone. What the journal areas hold, and which blocks of the home region count, is left to
//! those layers.
#![tactic(auto)]

mod area;
mod fields;
mod home;
mod laws;
mod places;
mod progress;
mod refusal;
mod superblock;
mod version;

pub use area::Area;
pub use home::Home;
pub use laws::{disks_have_one_answer, encodings_differ, superblocks_are_one};
pub use places::{area_part, disk_size, home_part, superblock_part};
pub use progress::Progress;
pub use refusal::Refusal;
pub use superblock::Superblock;
pub use version::Version;
