use bytes::BytesMut;
use flush_barrier::SessionId;

/// What goes out to a client.
#[must_use]
#[derive(Debug, Drop)]
pub struct Output {
    /// The client's session.
    pub session: SessionId,
    /// The bytes, in order; from now on they are the caller's.
    pub bytes: BytesMut,
    /// Whether the session has ended with them, which is told once.
    pub closed: bool,
}
