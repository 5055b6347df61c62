//! How a disk gets the volume of a chain's member while writes go on, a block at a time, and becomes one that may join the chain.
//!
//! Its contract for the layers above: where a copying notes each front that its member comes to know, its disk has a copy of the volume
//! there, but for the blocks that are due; once none is, the disk means that volume, and its store may be counted in. What the member
//! does meanwhile, and when it holds a front, is left to those layers.
#![tactic(auto)]

mod copying;
mod filling;
mod giving;
mod noting;
mod rebuilding;
mod refusal;
mod standing;

pub use copying::Copying;
pub use rebuilding::{NotRebuilt, rebuild};
pub use refusal::NotGiven;
