use gate_journal::Slot as Place;
use std::sync::Wait;

/// Where a thread of a chain stands, with no lock held.
#[derive(Clone, Copy, Debug, PartialEq, Eq)]
pub enum Point {
    /// It is about to deliver messages to the member at this slot.
    Delivering(Place),
    /// It is about to look whether a commit is due there.
    Committing(Place),
    /// A commit there has ended, and its receipt is posted.
    Posted(Place),
    /// The member there took messages, and raised the front where it may.
    Raised(Place),
}

/// What a thread does where it stands: a test holds it up there.
pub trait Pause {
    /// It stands there.
    fn at<R: Wait>(&self, rt: &R, point: Point);
}

/// Goes on at once.
#[derive(Clone, Copy, Debug)]
pub struct NoPause;

impl Pause for NoPause {
    fn at<R: Wait>(&self, _rt: &R, _point: Point) {}
}
