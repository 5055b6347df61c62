//! What a chain exports: its volume, as the threads of sessions ask of it.
//!
//! Its contract for both sides: each demand is taken by a member, whose replies come by the session's mailbox, or is refused at once with a
//! reply to that very demand, with 12 or 5. Which member takes it, how, and how many at once, is left to the chain; when demands are sent, to
//! the sessions.
#![tactic(auto)]

mod exported;

pub use exported::Volume;
