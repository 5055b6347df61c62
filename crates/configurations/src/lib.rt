//! Configurations: which members a chain has, in which epoch, and the bytes and the disk that record it.
//!
//! Its contract for the layers above: a record's bytes are one encoding, which no other record has, and what is read
//! from bytes is exactly the record that they encode. While a store is settled, a stop at any moment of a call leaves its
//! part of the disk with the old record or the new; after Ok it is settled with the new one. `open` finds exactly the
//! record that a part holds, of which there is one at most.
//! When an epoch ends, and who is told, is left to those layers.
#![tactic(auto)]

mod epoch;
mod laws;
mod member;
mod reading;
mod record;
mod refusal;
mod store;

pub use epoch::Epoch;
pub use laws::{encodings_differ, numbers_are_one, records_are_one};
pub use member::{Incarnation, Member};
pub use record::{MAX_MEMBERS, Record};
pub use refusal::Refusal;
pub use store::ConfigStore;
