//! The volume: blocks of 4,096 bytes, and what a write does to them.
//!
//! Its contract for the layers above: the pieces of a write, each patched into its block, are the write; and the laws
//! of volumes after many writes.
//! Where the bytes are kept, and when a write counts, is left to those layers.
#![tactic(auto)]

mod geometry;
mod laws;
mod piece;
mod refusal;
mod write;

pub use geometry::{
    BLOCK_SIZE, Geometry, MAX_BLOCKS, MAX_MAX_PAYLOAD, MIN_MAX_PAYLOAD, least_area,
};
pub use laws::{
    blocks_follow_their_writes, blocks_make_the_volume, pieces_are_the_whole, ranges_read_back,
    volumes_keep_their_size, writes_go_in_turn,
};
pub use piece::{Piece, PieceIter, pieces};
pub use refusal::Refusal;
pub use write::{Body, Write, patch};
