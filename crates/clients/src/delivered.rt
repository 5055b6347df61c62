/// What became of a reply.
#[must_use]
#[derive(Clone, Copy, Debug, PartialEq, Eq)]
pub enum Delivered {
    /// Its session took it, and puts it out behind what waits, if it owes one.
    ToSession,
    /// There is no such session, or it has ended: the reply was dropped.
    Dropped,
    /// Its session had no memory for it, and has ended without it.
    OutOfMemory,
}
