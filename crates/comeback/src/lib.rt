//! How a chain comes back whole from the disks of a folder: the source of its recovery goes on alone, and each other disk is rebuilt from the
//! chain and joins it, one after another.
//!
//! Its contract for the layers above: once the source goes on, its member alone is recorded, durably, and the chain has the volume that the
//! source's store keeps; the other disks were only read. Behind each disk that is rebuilt the recorded chain has one member more, and every
//! member's store keeps that volume. Which disks return, and which of them is the source, is `folder`'s; a client's requests are left to
//! those layers.
#![tactic(auto)]

mod recovering;
mod returning;

pub use recovering::{Recovered, Unrecovered, recover};
pub use returning::{Comeback, Ended};
