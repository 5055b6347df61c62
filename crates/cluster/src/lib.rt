//! A chain of members in threads: each in its slot behind a lock, with what it sends, what its clients ask, and who commits for it.
//!
//! No thread and no channel stands between members: who makes a message carries it on. A thread locks a member, makes one call of it, pays
//! what that calls for, and lets go; while a disk is journaled, no lock is held. Its contract for the layers above: each call of `Seated` is the
//! member's call of that name, its replies are given, and go to the sessions that they are for. When a chain changes, and who asks, is left
//! to those layers.
#![tactic(auto)]

mod asking;
mod carriage;
mod carried;
mod carrying;
mod changes;
mod changing;
mod cluster;
mod commits;
mod committing;
mod copying;
mod exported;
mod giving;
mod messages;
mod pace;
mod passing;
mod pause;
mod places;
mod refusal;
mod requests;
mod running;
mod seated;
mod slot;

pub use carried::Carried;
pub use changes::Witness;
pub use cluster::Cluster;
pub use copying::NotGiven;
pub use passing::Delivered;
pub use pause::{NoPause, Pause, Point};
pub use refusal::Refusal;
pub use running::{Crew, start_all};
pub use seated::Seated;
