//! What one member of a chain does: its state, its messages, the tokens that wait at it, and each of its steps as a
//! definition.
//!
//! Its contract for the layers above: `specs/Steps.antt` says of each step what becomes of the member's state, which
//! messages go to whom, and who is answered in which order. A step knows no client and no disk, and of the board only what
//! it found there. The types here are those that these definitions speak of; a token that waits is answered, refused or
//! abandoned once.
//! Who takes which step when, and how links carry messages, is left to the layers above.
#![tactic(auto)]

mod asked;
mod cause;
mod found;
mod message;
mod place;
mod tokens;
mod waiting;

pub use asked::AskedRead;
pub use cause::Cause;
pub use found::Found;
pub use message::{Envelope, Message, Sent};
pub use place::{Place, incarnation_in};
pub use tokens::Tokens;
pub use waiting::{Due, Waiting, WriteToken};
