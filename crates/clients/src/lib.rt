//! The sessions of all clients of a chain: they begin, take bytes, end, take replies and hand out what waits.
//!
//! Its contract for the layer above: each call reaches the one session of its number and no other. What a piece asks of the volume
//! comes out as demands, for the member at which the client is; and what a call is in the model of the one volume is said with it: which
//! requests are sent, taken up or given up, which replies are put out, and how each session's history goes on, so that all that a
//! session puts out stays lawful. Which member takes a demand, and which call comes when, is left to the layer above.
#![tactic(auto)]

mod client;
mod clients;
mod delivered;
mod laws;
mod output;

pub use clients::Clients;
pub use delivered::Delivered;
pub use laws::sessions_are_lawful;
pub use output::Output;
