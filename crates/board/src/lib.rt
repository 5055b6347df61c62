//! The board of a chain: the committed front, the mask of counted slots, and the durable front of
//! each slot, on ten atomic words that any number of threads step on at once.
//!
//! For the layer above: a call is one exchange on one word. It waits for nobody, takes no memory and
//! always succeeds; its seat's view grows by one step, which says what that exchange found. Whatever
//! the threads do, what is found was there: the front and the gauges are what the board opened with
//! or what some seat raised or posted, and never sink for one seat; a mask is what the counting seat
//! had made of it. On a board with one seat each answer is exactly what the opening words and that
//! seat's steps give.
//!
//! Left to others: which slots are counted and when, what the receipts stand for, that a seat that
//! raised, posted or counted is kept until the board is given up, and the order between two seats.
//!
//! Some mistakes are no programs, and are refused by the types:
//! - a mask read before the front, or a gauge before the mask: `crew` takes a `Front`, and `gauge`
//!   a `&Crew`;
//! - a front, crew, gauge or floor made of a number: their fields are private, and only the board's
//!   calls and `Floor`'s make one;
//! - one lock for the whole board: its calls have no leave to wait.
//!
//! Others are refused by a condition on the caller: a seat, front, crew or gauge of another board,
//! a front or crew that another seat found, and a slot counted by any seat but the counting one.
#![tactic(auto)]

mod board;
mod evidence;
mod floor;
mod gauges;
mod laws;
mod opening;
mod refusal;
mod rule;
mod seat;
mod view;

pub use board::Board;
pub use evidence::{Crew, Front, Gauge};
pub use floor::Floor;
pub use gauges::Gauges;
pub use laws::floors_are_backed;
pub use refusal::Refusal;
pub use seat::Seat;
pub use view::{Opening, Step, View};
