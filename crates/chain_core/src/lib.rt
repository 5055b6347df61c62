//! One member of a chain: a value whose calls are exactly its steps.
//!
//! Its contract for the layers above: each call of a `Node` leaves the state, sends the messages and gives the replies that
//! `chain_steps` says of its step, and its store keeps the volume at the durable front. What a step finds on the board it
//! keeps until it goes on with it, or changes otherwise. A member that can't go on stops: it refuses all its tokens, and keeps
//! why.
//! Who takes which step when, and how links carry messages, is left to the layers above.
#![tactic(auto)]

mod arming;
mod clients;
mod commit;
mod commits;
mod delivering;
mod desk;
mod fronts;
mod groups;
mod holding;
mod lending;
mod node;
mod out;
mod reading;
mod reads;
mod refusal;
mod turning;

pub use node::Node;
pub use out::{Out, Served};
pub use refusal::{Refusal, Refused};
