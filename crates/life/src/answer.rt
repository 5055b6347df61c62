use clients::Output;
use world::Told;

/// The number of the refusal where memory runs out.
pub const MEMORY: u16 = 100;

/// What became of a step.
#[must_use]
#[derive(Debug, Drop)]
pub enum Answer {
    /// It was taken, and clients were told this.
    Taken(Told),
    /// It was taken, and this went out to the client.
    HandedOut(Output),
    /// It was refused with this number.
    Refused(u16),
    /// There is no such step now: nothing changed.
    Skipped,
}
