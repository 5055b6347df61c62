//! A chain of members at slots, over their stores: its board, its record, and the links between the slots.
//!
//! Its contract for the layers above: each call changes one member as that member's step says, with the links by what it took and
//! sent, or the board, or the record; and whatever state of the one volume the chain stood for, what the call did can happen in such a chain (`Happens` of
//! `chain_model`), with its replies as the events that clients see. So what clients see of all calls together is one volume.
//! Which call comes when, when a record is written, and how sessions put the replies out, is left to the layers above.
#![tactic(auto)]

mod arming;
mod chain;
mod commits;
mod forgetting;
mod fronts;
mod holding;
mod joining;
mod links;
mod lone_board;
mod member;
mod messages;
mod muster;
mod musters;
mod opening;
mod recording;
mod requests;
mod stopping;

pub use chain::Chain;
