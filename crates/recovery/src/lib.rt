//! Recovery: from which of the disks that returned the volume is taken.
//!
//! Its contract for the layers above: the source is a member of the recorded chain, none of those that returned has a
//! greater front, and ties are settled by the chain and then by the list.
//! What the disks hold, and what is recorded before any of them is written, is left to those layers.
#![tactic(auto)]

mod choice;
mod refusal;
mod returned;
mod search;

pub use choice::choose;
pub use refusal::Refusal;
pub use returned::{Returned, Source};
