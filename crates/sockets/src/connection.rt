ghost use Rattle.std.specs.Prelude.{◌≡◌, [], IfOk};
ghost use Rattle.sockets.specs.Halves.{given_by, taken_by};

use crate::{HangUp, Reading, Stream, Writing};
use std::io;
use std::net::TcpStream;
use std::os::unix::net::UnixStream;
use std::time::Duration;

/// A client's stream, TCP or Unix domain.
#[derive(Drop)]
pub struct Connection {
    stream: Stream,
}

impl Connection {
    /// A read or a write that has waited so long fails from now on.
    pub fn wait_at_most(&self, patience: Duration) -> io::Result<()> {
        self.stream.wait_at_most(patience)
    }

    /// Its two halves, for a thread each, and what ends both. The stream is closed once all three are dropped.
    pub fn halves(self) -> io::Result<(Reading, Writing, HangUp)>
        ensures gave { IfOk result (λ halves. given_by halves.0 ≡ []) }
        ensures took { IfOk result (λ halves. taken_by halves.1 ≡ []) }
    {
        let Connection { stream } = self;
        let reading = Reading::new(stream.try_clone()?);
        let writing = Writing::new(stream.try_clone()?);
        Ok((reading, writing, HangUp { stream }))
    }
}

impl From<TcpStream> for Connection {
    fn from(stream: TcpStream) -> Connection {
        // It only makes small replies quicker.
        let _ = stream.set_nodelay(true);
        Connection {
            stream: Stream::Tcp(stream),
        }
    }
}

impl From<UnixStream> for Connection {
    fn from(stream: UnixStream) -> Connection {
        Connection {
            stream: Stream::Unix(stream),
        }
    }
}
