use crate::Stream;

/// What ends a connection, whoever has its halves.
#[derive(Drop)]
pub struct HangUp {
    pub(crate) stream: Stream,
}

impl HangUp {
    /// Shuts both ways down, so that the system wakes a half that waits. What has come may still be read.
    pub fn hang_up(&self) {
        // It may be shut down already.
        let _ = self.stream.shut_down();
    }
}
