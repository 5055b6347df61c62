//! A journal of batches on a disk: a batch is a front and whole images of blocks, behind a gate. And a pair: a payload
//! that is replaced as a whole, in two slots behind gates.
//!
//! Its contract for the layers above: while a journal is settled, a stop at any moment of an `append` leaves its part
//! with the batches from before it, with the new one or without; after Ok it is settled with the new one, and `open` and
//! `read_all` find exactly the batches that a part holds, of which there is one list at most. While a pair is settled, a
//! stop at any moment of a `store` leaves its part with the old payload or the new; after Ok it is settled with the new
//! one. After Ok of each of these calls the whole disk is durable. What the blocks and payloads mean, and when a batch may
//! be overwritten, is left to the layers above.
#![tactic(auto)]

mod batch;
mod durable;
mod image;
mod journal;
mod laws;
mod pair;
mod pair_slot;
mod reading;
mod refusal;
mod slot;
mod synced;
mod walking;

pub use batch::{Batch, IMAGE_SIZE, MAX_BLOCKS, MAX_NUMBER, batch_size};
pub use image::{Content, Image};
pub use journal::Journal;
pub use laws::{
    batches_are_small, limits_are_the_formats, pair_readings_are_one, readings_are_one,
    stores_leave_old_or_new,
};
pub use pair::{GatedPair, PAIR_SIZE};
pub use pair_slot::MAX_PAYLOAD;
pub use refusal::Refusal;
pub use slot::Slot;
pub use synced::Synced;
