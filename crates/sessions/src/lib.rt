//! The sessions of clients in threads, over the volume of a chain.
//!
//! For the layer above: `attend` serves one client to the end, in the calling thread and one more, and `Clients::serve` all that come in, so many
//! at once as there are seats, until as many as were wanted have ended, or another thread closes them. What a client took is at any moment the beginning of what its session has put out lawfully: that
//! is so of each `Talk`, whoever has its lock. A reply goes to the session whose request it answers, and what is asked lies in the volume
//! and is owed at its board. No two sessions that are served at once have the same seat, and no two have one number.
//!
//! Left to others: the volume and the threads of its chain, and that replies come. That the bytes which are read are those that the session
//! is fed is not said, since a lock stands between; nothing is proved of when a call returns.
#![tactic(auto)]

mod attended;
mod attending;
mod refusal;
mod seating;
mod seats;
mod serving;
mod talk;

pub use attending::{HangsUp, Limits, attend};
pub use refusal::Refusal;
pub use seats::{SEATS, Seats};
pub use serving::Clients;
pub use talk::Talk;
