//! Where the clients of a served chain come in, and who asks its manager for something.
use clap::{Arg, ArgAction, ArgMatches, Command, value_parser};
use serving::Control;
use sockets::{Listener, Listeners, MOST_LISTENERS};
use std::alloc::{AllocError, AllocFailed, Global};
use std::fmt;
use std::fs::{self, File, Files};
use std::io::{self, ErrorKind, Write};
use std::net::{IpAddr, Net, SocketAddr, TcpListener, TcpStream};

/// The address at which a port is served where no other is named.
const LOOPBACK: &str = "127.0.0.1";

/// The words that say where clients come in.
pub(crate) fn words<'a>(command: Command<'a>, alloc: Global) -> Result<Command<'a>, AllocError> {
    let port = Arg::new(alloc, "port")
        .long("port")
        .value_name("P")
        .required_unless_present("unix")?
        .action(ArgAction::Set)
        .value_parser(value_parser!(u16).range(1..=65_535))
        .help("The port");
    let bind = Arg::new(alloc, "bind")
        .long("bind")
        .value_name("ADDR")
        .action(ArgAction::Append)
        .default_value(LOOPBACK)
        .help("The address of the port; may be given several times");
    let unix = Arg::new(alloc, "unix")
        .long("unix")
        .value_name("PATH")
        .action(ArgAction::Set)
        .help("A Unix domain socket, which is made there");
    command.arg(port)?.arg(bind)?.arg(unix)
}

/// Why nobody can come in. It prints the refusal, the address, and the system's reason, where there is one.
#[derive(Debug, Drop)]
pub(crate) enum Unheard {
    /// The system refuses this address.
    Port(IpAddr, u16, io::Error),
    /// It refuses this path.
    Path(io::Error),
    /// A word is no address.
    NoAddress,
    /// There are more addresses than can be served at once.
    TooMany,
    /// Memory ran out.
    Memory,
}

impl fmt::Display for Unheard {
    fn fmt<W: fmt::Write>(&self, f: &mut fmt::Formatter<W>) -> fmt::Result {
        match self {
            Unheard::Port(ip, port, reason) => {
                let address = SocketAddr::new(*ip, *port);
                write!(f, "302 ListenFault {address}: {reason}")
            }
            Unheard::Path(reason) => write!(f, "302 ListenFault: {reason}"),
            Unheard::NoAddress => f.write_str("302 ListenFault: --bind wants an IP address"),
            Unheard::TooMany => write!(
                f,
                "302 ListenFault: there are more than {MOST_LISTENERS} addresses"
            ),
            Unheard::Memory => f.write_str("100 Memory"),
        }
    }
}

impl From<AllocError> for Unheard {
    fn from(_: AllocError) -> Unheard {
        Unheard::Memory
    }
}

impl<T: Drop> From<AllocFailed<T>> for Unheard {
    fn from(_: AllocFailed<T>) -> Unheard {
        Unheard::Memory
    }
}

/// Listens where the words say. 302 `ListenFault` where the system refuses it, or an address is none.
pub(crate) fn listen_all<R>(rt: &R, matches: &ArgMatches<'_>) -> Result<Listeners, Unheard>
where
    R: Files<File = File> + Net<Listener = TcpListener, Stream = TcpStream> + AllocGlobal,
{
    let mut all = Vec::new(rt.alloc());
    if let Some(port) = matches.get_one::<u16>("port") {
        for text in matches.get_strs("bind").unwrap_or(&[]) {
            all.push(listen_at_port(rt, text, port)?)?;
        }
    }
    if let Some(path) = matches.get_str("unix") {
        match Listener::at_path(rt, path) {
            Ok(listener) => all.push(listener)?,
            Err(sockets::Refusal::ListenFault(reason)) => return Err(Unheard::Path(reason)),
        }
    }
    if all.is_empty() || all.len() > MOST_LISTENERS {
        return Err(Unheard::TooMany);
    }
    Ok(Listeners::new(all))
}

/// Listens at a port of the address that a word names.
fn listen_at_port<R>(rt: &R, text: &str, port: u16) -> Result<Listener, Unheard>
where
    R: Net<Listener = TcpListener, Stream = TcpStream>,
{
    let Ok(ip) = text.parse::<IpAddr>() else {
        return Err(Unheard::NoAddress);
    };
    match Listener::at_port(rt, ip, port) {
        Ok(listener) => Ok(listener),
        Err(sockets::Refusal::ListenFault(reason)) => Err(Unheard::Port(ip, port, reason)),
    }
}

/// Prints where so many bytes are served.
pub(crate) fn print_places<O: Write>(
    matches: &ArgMatches<'_>,
    size: u64,
    output: &mut O,
) -> io::Result<()> {
    if let Some(port) = matches.get_one::<u16>("port") {
        for text in matches.get_strs("bind").unwrap_or(&[]) {
            writeln!(output, "serving {size} bytes at {text}:{port}")?;
        }
    }
    if let Some(path) = matches.get_str("unix") {
        writeln!(output, "serving {size} bytes at {path}")?;
    }
    output.flush()
}

/// The path of the socket at which a folder's server takes orders.
pub(crate) fn control_path(alloc: Global, dir: &str) -> Result<String, AllocError> {
    let mut path = String::new(alloc);
    path.push_str(dir)?;
    path.push_str("/control.socket")?;
    Ok(path)
}

/// Where the server of a folder takes orders. A socket that an earlier server has left there is removed: the folder is this one's now.
pub(crate) fn listen_for_orders<R>(rt: &R, path: &str) -> Result<Control, io::Error>
where
    R: Files<File = File> + Net<Listener = TcpListener, Stream = TcpStream> + AllocGlobal,
{
    match fs::remove_file(rt, path) {
        Ok(()) => {}
        Err(reason) if reason.kind() == ErrorKind::NotFound => {}
        Err(reason) => return Err(reason),
    }
    let listener = match Listener::at_path(rt, path) {
        Ok(listener) => listener,
        Err(sockets::Refusal::ListenFault(reason)) => return Err(reason),
    };
    let listeners = Vec::from_array(rt.alloc(), [listener])?;
    Ok(Control::new(Some(Listeners::new(listeners))))
}
