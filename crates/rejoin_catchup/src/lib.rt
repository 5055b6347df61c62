//! How a new member of a chain gets the volume while writes go on: the sender's side, and the receiver's.
//!
//! Its contract for the layers above: while the bytes that a sender is handed are those of the volume, and it is told of
//! each write, the copy that its pieces make has each block that was given and not written since; once no block is due,
//! the copy is the volume. A receiver takes the pieces in this order alone, and puts them on its disk, which means nothing
//! until the end: then it means the copy, at the end's front. Where the blocks are read, which front the end has, and how
//! pieces reach the receiver, is left to those layers.
#![tactic(auto)]

mod course;
mod piece;
mod ready;
mod receiver;
mod refusal;
mod sender;

pub use piece::Piece;
pub use ready::Ready;
pub use receiver::Receiver;
pub use refusal::Refusal;
pub use sender::Sender;
