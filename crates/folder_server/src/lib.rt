//! The chain of a folder, as a server of the Network Block Device protocol has it.
//!
//! Its contract for the layer above: `begin_from` goes on from the source among a folder's disks, over disks of any kind: it is recorded alone,
//! and its store keeps what its disk meant. `serve_begun` serves that chain, and has the folder's other disks join it, or those that are asked
//! for while it is served. Words, sockets that are made, and what is printed before are left to the program.
#![tactic(auto)]

mod beginning;
mod hosting;
mod serving_folder;
mod unserved;

pub use beginning::{Begun, Unbegun, begin_from};
pub use serving_folder::{Words, serve_begun};
pub use unserved::Unserved;
