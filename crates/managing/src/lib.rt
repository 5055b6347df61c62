//! The manager of a chain whose members run in threads: it removes members that stopped, and has disks join, while clients are served.
//!
//! It stands in one thread, and does one thing after another: it takes the next order of `management`, has `cluster` or a disk carry it out, and
//! counts it as done. No lock is held while a disk is written. Its contract for the layer above: orders are carried out in their turn, since
//! `management` takes no other; a member is seated only once a record has it. When to go on, and where disks come from, is left to the host.
#![tactic(auto)]

mod beginning;
mod host;
mod joiner;
mod managing;
mod orders;
mod preparing;
mod spare;
mod whole;

pub use beginning::{Beginning, Begun};
pub use host::{Host, Unrecorded};
pub use managing::Managing;
pub use spare::Spare;
