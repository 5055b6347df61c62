//! Scripts: each line is steps of a `World` over disks in memory, or makes, stops, cuts and recovers one; what they put out is printed.
//!
//! Its contract for the layer above: `sim_on` plays a script from a reader to a writer, the same each time. What the steps do, and what
//! holds of them, is said by `life` and `world`.
#![tactic(auto)]

mod acts;
mod again;
mod client;
mod eras;
mod managing;
mod manual;
mod printed;
mod refusal;
mod rounds;
mod script;
mod sessions;
mod sim;
mod steps;
mod trace;

pub use client::NEGOTIATION;
pub use manual::{COMMANDS, Usage};
pub use refusal::Refusal;
pub use sim::{Sim, sim_on, tell_on};
pub use trace::Telling;
