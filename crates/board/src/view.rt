//! What a seat has done on the board. It stands in contracts alone: no value of these types but
//! `Opening` is made.
use std::collections::LinkedList;

/// What a board opens with: its ten words, and how many seats it has.
#[derive(Debug, Drop)]
pub struct Opening {
    pub words: [u64; 10],
    pub seats: usize,
}

/// One step of a seat: its kind, its argument, and what it found.
pub enum Step {
    /// The front raised to at least the first number, and the front that was left.
    Raise(u64, u64),
    /// The slot's gauge raised to at least the second number, and the gauge that was left.
    Post(u8, u64, u64),
    /// The front that was found.
    Look(u64),
    /// The mask that was found.
    Crew(u8),
    /// The slot's gauge that was found.
    Gauge(u8, u64),
    /// The slot counted from now on.
    CountIn(u8),
    /// The slot counted no longer.
    CountOut(u8),
}

/// What a seat knows: what its board opened with, whether it is the counting seat, and its own
/// steps in order.
pub struct View {
    pub opening: Opening,
    pub counts: bool,
    pub steps: LinkedList<Step>,
}
