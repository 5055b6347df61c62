//! A member as threads share it: its node, and what it has sent and nobody has fetched yet.
//!
//! It stands behind one lock. A thread does nothing but lock it, make one call, and let go: so each change of it is one step of the
//! chain. Its contract for the layer above: each call is the node's call of that name, what that sends is the last bundle of the outbox,
//! and its replies come out; `fetch` takes out what goes by a link, in the order in which it was sent. All members behind their locks are of
//! one board, and of one size, which the program names once (`Agreed`). When who calls what, and that replies reach their
//! sessions, is left to the layer above.
#![tactic(auto)]

mod agreed;
mod answering;
mod asking;
mod commits;
mod due;
mod lending;
mod managing;
mod member;
mod outbox;
mod passing;

pub use agreed::Agreed;
pub use due::Due;
pub use member::Member;
pub use outbox::Route;
