//! The world of a volume: a chain of members over their stores, and the sessions of its clients.
//!
//! Its contract for the layer above: each call is one thing that a client, a member, the board or the record does. It changes the chain as the chain's
//! own call says, and each reply comes to its session, once and in order. Whatever state of the one volume the world stood for, what the
//! call did can happen in such a world, bytes to bytes: what clients see, what each session was fed, handed out and asked. So what clients
//! see of all calls together is one volume. Which call comes when is left to the layer above.
#![tactic(auto)]

mod arming;
mod asking;
mod forgetting;
mod holding;
mod joiner;
mod joining;
mod management;
mod members;
mod orders;
mod queue;
mod reception;
mod recording;
mod taking;
mod telling;
mod told;
mod world;

pub use management::Management;
pub use told::Told;
pub use world::World;
