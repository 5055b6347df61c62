//! A session with one NBD client: bytes in, demands and bytes out.
//!
//! Its contract for the layer above: in whatever pieces a client's text comes, the session asks of the volume and puts
//! out the same, and what it puts out is lawful by Negotiation and Transcript for all that came in. Demands lie inside
//! the volume and carry tokens of their session and its board; 64 of them may be owed a reply, which come in any order,
//! and further requests wait. Every other request is answered here; a refused call leaves the session as it was. What
//! becomes of a demand is left to the layer above, which hands the token's reply back.
#![tactic(auto)]

mod answer;
mod demand;
mod inbox;
mod intake;
mod laws;
mod phase;
mod refusal;
mod session;
mod wanted;

pub use demand::Demand;
pub use laws::{cuttings_agree, feeds_are_lawful};
pub use refusal::Refusal;
pub use session::Session;
