//! The manager: removes stopped members of a chain and joins new ones, one change at a time, by orders.
//!
//! Its contract for the layers above: each call is one function on what the manager knows, and a refusal changes nothing.
//! What is left to do is always a rest of one change's orders, so that a member is counted out, and members are told,
//! only after a durable record, and a joiner is recorded once it is counted in. The record under way has the next epoch,
//! and members that a chain can have; whoever is counted out isn't among them.
//! Who carries the orders out, where records are written, and how a stop is noticed, is left to those layers.
#![tactic(auto)]

mod change;
mod manager;
mod order;
mod refusal;

pub use manager::{Manager, managers_are};
pub use order::Order;
pub use refusal::Refusal;
