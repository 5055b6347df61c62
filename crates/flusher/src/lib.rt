//! In which order pending blocks are written home: round and round, so that none waits for ever.
//!
//! Its contract for the layer above: each call gives the least pending block above the last one given, or else the least
//! of all, and none exactly where none is pending; or the run of pending blocks that begins with it.
//! Which blocks are pending, and what is written of them, is left to that layer.
#![tactic(auto)]

mod plan;

pub use plan::{Plan, Run};
