//! Management: the manager of a chain whose members run in threads, with its record on a disk and its seat at the board.
//!
//! Its contract for the layer above: each order is carried out in its turn, and what isn't the next order changes nothing. A slot is
//! counted out, and a member told, only while the record without that slot, or with that member, stands on the disk and nothing else may
//! be left there; a joiner is counted before its record is begun. A stop at any moment leaves the record that stood there, or the one
//! that was to be written, also where a device call has failed.
//!
//! Left to others: to notice who has stopped, to tell the members, and the orders by which a joiner is prepared.
#![tactic(auto)]

mod carrying;
mod counting;
mod management;
mod recording;

pub use management::Management;
