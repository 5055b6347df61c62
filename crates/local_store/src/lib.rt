//! The store: one disk that means a member's slot, incarnation, front and volume.
//!
//! Its contract for the layers above: while a store keeps a volume, a stop at any moment of a `tick`, a `tick_run` or a
//! `checkpoint` leaves a disk that means that front and volume, and at any moment of a `commit` these or the new ones;
//! after Ok it keeps the volume that the call says. `open` finds what a disk means. While a `LendingStore` has lent its log out with
//! a commit, reads and ticks go on on the home half, and a stop leaves the old front or the new. What the numbers of the fronts
//! stand for, and which blocks a write touches, is left to those layers.
#![tactic(auto)]

mod arming;
mod contents;
mod given;
mod homing;
mod installer;
mod laws;
mod lend;
mod lending;
mod lending_store;
mod lent;
mod never_lends;
mod pending;
mod plain;
mod refusal;
mod store;
mod store_like;

pub use contents::Contents;
pub use installer::Installer;
pub use laws::{batches_go_over, disks_mean_one, halves_mean, meanings_are_opened};
pub use lending::{CommitWork, Journaled, Loan};
pub use lending_store::LendingStore;
pub use never_lends::NeverLends;
pub use plain::PlainStore;
pub use refusal::Refusal;
pub use store::Store;
pub use store_like::StoreLike;
