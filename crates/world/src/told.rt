use clients::Output;

/// What the clients were told in a call.
#[must_use]
#[derive(Debug, Drop)]
pub enum Told {
    /// What went out with the replies, in the order in which they were given: a session may stand there more than once.
    Out(Vec<Output>),
    /// The same, but memory for some reply ran out: the session of each such reply has ended without it.
    Lost(Vec<Output>),
    /// Memory for the list of it ran out. The replies came to their sessions all the same, and wait there until they are handed out; a
    /// session without memory for one has ended without it.
    Withheld,
}
