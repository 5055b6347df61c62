//! A bounded link between two threads: one sender puts items, and one receiver takes them in order.
//!
//! For the layer above: what was taken is a prefix of what was put, each item once, whatever the threads do. The
//! sender is seen as the list of all that it put, and the receiver as the list of all that it took and of what it saw
//! to come. `put` waits while the link is full, and `take` while it is empty. An end that is dropped closes the link:
//! then an item that can't be put is handed back.
//!
//! Left to others: what the items are, and that a thread gets on. Nothing is proved of when a call returns, nor that the
//! other end has gone where a link is found closed.
//!
//! Some mistakes are no programs, and are refused by the types:
//! - two senders or two receivers of one link: an end is neither `Clone` nor `Copy`;
//! - an end of no link: its fields are private, and only `pair` makes one.
#![tactic(auto)]

mod receiving;
mod refusal;
mod relay;
mod rule;
mod sending;
mod view;

pub use receiving::Receiving;
pub use refusal::Refusal;
pub use relay::Relay;
pub use sending::Sending;
