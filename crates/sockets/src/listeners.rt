//! Several sockets at which clients come in.
ghost use Rattle.std.specs.Prelude.{◌<◌, ◌≤◌, vec_len};
ghost use Rattle.sockets.specs.declared.listeners.TheConstants.{MOST_LISTENERS};

use crate::{Connection, Listener};
use libc::types::pollfd;
use std::io;
use std::io::ErrorKind;
use std::sync::{Mutex, Wait};

/// How many sockets there are at most.
pub const MOST_LISTENERS: usize = 16;

/// Sockets at which clients come in: at least one.
#[derive(Drop)]
pub struct Listeners {
    all: Vec<Listener>,
    closed: Mutex<bool>,
    ghost some: { 0 < vec_len all },
    ghost few: { vec_len all ≤ MOST_LISTENERS },
}

impl Listeners {
    /// These sockets: 1 to 16.
    pub fn new(all: Vec<Listener>) -> Listeners
        requires some { 0 < vec_len all }
        requires few { vec_len all ≤ MOST_LISTENERS }
    {
        Listeners {
            all,
            closed: Mutex::new(false),
        }
    }

    /// The next client of any of them. It waits while none has come. Each call asks another one first, by the number of the client that is
    /// to come: so none of them is passed over while others have clients. Where the system refuses a client, the next call may give another;
    /// once they are closed, it refuses each.
    pub fn accept<R: Wait>(&self, rt: &R, number: u64) -> io::Result<Connection> {
        for _ in rt.forever() {
            // A Unix domain socket that is shut down says that nobody has come.
            if *self.closed.lock(rt) {
                return Err(io::Error::from(ErrorKind::ConnectionAborted));
            }
            for turn in 0..self.all.len() {
                let place = (number as usize % self.all.len() + turn) % self.all.len();
                if let Some(connection) = self.all[place].next()? {
                    return Ok(connection);
                }
            }
            self.wait();
        }
        unreachable!()
    }

    /// Nobody comes in any more: whoever waits for a client wakes.
    pub fn close<R: Wait>(&self, rt: &R) {
        *self.closed.lock(rt) = true;
        for listener in &self.all {
            listener.close();
        }
    }

    /// Waits until a client has come, or they are closed.
    fn wait(&self) {
        let mut asked = [pollfd {
            fd: -1,
            events: libc::net::POLLIN,
            revents: 0,
        }; MOST_LISTENERS];
        for (one, listener) in asked.iter_mut().zip(self.all.iter()) {
            one.fd = listener.descriptor();
        }
        // Where a signal interrupts it, each is asked once more.
        let _ = libc::net::poll(&mut asked, -1);
    }
}
