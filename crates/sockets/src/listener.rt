ghost use Rattle.std.specs.Prelude.{◌≡◌, IfErr};
ghost use Rattle.sockets.specs.Refusal.{number_of};

use crate::{Connection, Refusal};
use std::io;
use std::io::ErrorKind;
use std::net::{IpAddr, Net, SocketAddr, TcpListener, TcpStream};
use std::os::fd::AsRawFd;
use std::os::unix::net::UnixListener;
use std::rt::Files;

/// A socket at which clients come in.
#[derive(Drop)]
pub struct Listener {
    socket: Socket,
}

#[derive(Drop)]
enum Socket {
    Tcp(TcpListener),
    Unix(UnixListener),
}

impl Listener {
    /// Listens at this port of this address. 302 `ListenFault` where the system refuses it.
    pub fn at_port<R: Net<Listener = TcpListener, Stream = TcpStream>>(
        rt: &R,
        addr: IpAddr,
        port: u16,
    ) -> Result<Listener, Refusal>
        ensures { IfErr result (λ e. number_of e ≡ 302) }
    {
        match TcpListener::bind(rt, SocketAddr::new(addr, port)) {
            Ok(listener) => Listener::at(Socket::Tcp(listener)),
            Err(reason) => Err(Refusal::ListenFault(reason)),
        }
    }

    /// Listens at a path where no file is yet. The file that this makes stays when the listener is dropped. 302
    /// `ListenFault` where the system refuses it.
    pub fn at_path<R: Files + Net>(rt: &R, path: &str) -> Result<Listener, Refusal>
        ensures { IfErr result (λ e. number_of e ≡ 302) }
    {
        match UnixListener::bind(rt, path) {
            Ok(listener) => Listener::at(Socket::Unix(listener)),
            Err(reason) => Err(Refusal::ListenFault(reason)),
        }
    }

    /// At a socket that is bound: asking it for a client doesn't wait.
    fn at(socket: Socket) -> Result<Listener, Refusal>
        ensures { IfErr result (λ e. number_of e ≡ 302) }
    {
        match socket.ask_only() {
            Ok(()) => Ok(Listener { socket }),
            Err(reason) => Err(Refusal::ListenFault(reason)),
        }
    }

    /// The next client, if one has come: it doesn't wait.
    pub(crate) fn next(&self) -> io::Result<Option<Connection>> {
        match self.socket.accept() {
            Ok(connection) => Ok(Some(connection)),
            Err(reason) if reason.kind() == ErrorKind::WouldBlock => Ok(None),
            Err(reason) => Err(reason),
        }
    }

    /// Nobody comes in any more: whoever waits for a client wakes.
    pub(crate) fn close(&self) {
        // It may be shut down already.
        let _ = libc::net::shutdown(self.descriptor(), libc::net::SHUT_RDWR);
    }

    /// What the system calls it.
    pub(crate) fn descriptor(&self) -> i32 {
        match &self.socket {
            Socket::Tcp(listener) => listener.as_raw_fd(),
            Socket::Unix(listener) => listener.as_raw_fd(),
        }
    }
}

impl Socket {
    /// From now on `accept` doesn't wait.
    fn ask_only(&self) -> io::Result<()> {
        match self {
            Socket::Tcp(listener) => listener.set_nonblocking(true),
            Socket::Unix(listener) => listener.set_nonblocking(true),
        }
    }

    fn accept(&self) -> io::Result<Connection> {
        match self {
            Socket::Tcp(listener) => {
                let (stream, _) = listener.accept()?;
                Ok(Connection::from(stream))
            }
            Socket::Unix(listener) => {
                let (stream, _) = listener.accept()?;
                Ok(Connection::from(stream))
            }
        }
    }
}
