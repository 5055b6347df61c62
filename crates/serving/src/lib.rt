//! A chain that runs in threads, from its first member on, with its manager and its clients.
//!
//! It goes on from one disk, the source of a recovery. All threads stand in one scope: a committer for each slot, the clients, who takes
//! orders from outside, and the manager, which is the calling thread. Its contract for the layer above: the chain begins with a store that runs, whose record stands on the
//! configuration's disk; all else is in the crates below. Where disks come from, and what clients are, is left to that layer.
#![tactic(auto)]

mod control;
mod play;
mod refusal;
mod running;
mod sides;

pub use control::{Control, slot_in};
pub use play::Play;
pub use refusal::Refusal;
pub use running::{Source, run, serve};
