use configurations::Member;

/// A disk that returned after a stop.
#[derive(Clone, Copy, Debug, PartialEq, Eq)]
pub enum Returned {
    /// A disk that was opened.
    Opened {
        /// Which disk it is.
        member: Member,
        /// The number of the last write that its volume has.
        front: u64,
    },
    /// A disk that can't be opened.
    Unopened,
}

/// The disk that a chain goes on from.
#[derive(Clone, Copy, Debug, PartialEq, Eq)]
pub struct Source {
    /// Its place in the list of those that returned, from 0.
    pub place: usize,
}
