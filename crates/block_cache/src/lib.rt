//! A cache of blocks of the home region.
//!
//! Its contract for the layer above: while a cache agrees with the home region, a read gives the home's block, without
//! a device call where the cache keeps it; and it goes on to agree, over reads, and over writes of which it is told.
//! Which blocks are read, and what stands in the journal in place of a home block, is left to that layer.
#![tactic(auto)]

mod cache;

pub use cache::{CAPACITY, Cache};
