//! A disk on its way into a chain: the orders of its joining, one after another, while writes go on.
//!
//! Its contract for the layers above: whatever state of the one volume the world stood for and whichever it stands for then, the disk has a
//! copy of the volume at the front that was noted, but for the blocks that are due; and it is counted only where it has the volume at
//! the front that the tail holds, so that counting it is of the one volume.
#![tactic(auto)]

mod attaching;
mod candidate;
mod counting;
mod giving;
mod refused;
mod whole;

pub use candidate::Candidate;
pub use giving::Gave;
pub use refused::Refused;
pub use whole::Whole;
