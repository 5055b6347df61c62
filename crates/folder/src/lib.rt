//! A folder of a chain's disks: `config.disk`, and `slot0.disk` up to `slot7.disk`.
//!
//! Its contract for the layers above: a formatted disk means a volume of zeros at front 0, and the configuration's disk
//! has the first record. `restart` goes on from the disk that the rule of recovery chooses by what the disks mean; the
//! chain of that disk alone is recorded, in the next epoch, before anything else is written, and the store keeps what the
//! disk meant. Where that leaves other members out of the chain, `restart` does it only if it is asked to. `format_disks`
//! formats the members' disks, and makes the first record last. Both are for disks of any kind: `open` and `format` only
//! find and make a folder's files, as `FileDisk`s. What a file really holds is a premise of the disk model; who joins the
//! chain again, and what is written from then on, is left to those layers.
#![tactic(auto)]

mod chosen;
mod failure;
mod files;
mod formatting;
mod found;
mod layout;
mod names;
mod refusal;
mod restarting;

pub use failure::Failure;
pub use files::{FolderDisks, format, open, open_slot};
pub use formatting::{Unformatted, config_part, format_config, format_disks, format_member};
pub use layout::Layout;
pub use names::FileName;
pub use refusal::Refusal;
pub use restarting::{Opened, Refused, restart};
