//! `rejoin DIR SLOT`: a disk comes back into the chain of a folder that is served.
use crate::fault::Fault;
use crate::listening::control_path;
use clap::{Arg, ArgAction, ArgMatches, Command, value_parser};
use simulator::Refusal;
use std::alloc::{AllocError, Global};
use std::io::{self, Read, Write};
use std::net::Net;
use std::os::unix::net::UnixStream;
use std::time::Duration;

/// The seconds in which a server takes an order.
const PATIENCE: u64 = 10;

/// What a server answers to an order that it takes.
const ASKED: &[u8] = b"asked\n";

/// The words of the command.
pub(crate) fn words<'a>(alloc: Global) -> Result<Command<'a>, AllocError> {
    let dir = Arg::new(alloc, "DIR")
        .required(true)
        .action(ArgAction::Set)
        .help("The folder, which is served");
    let slot = Arg::new(alloc, "SLOT")
        .required(true)
        .action(ArgAction::Set)
        .value_parser(value_parser!(u8).range(0..=7))
        .help("The slot: 0 to 7");
    Command::new(alloc, "rejoin")
        .about(
            "Asks the server of a folder to open a slot's file anew, and to have it join the chain",
        )
        .after_help(
            "The file is overwritten with the chain's volume. How far it is stands in the server's log, and it prints `rebuilt SLOT` at the end.",
        )
        .arg(dir)?
        .arg(slot)
}

/// Asks the server of the folder that the words name to have a slot join the chain. 104 `FileFault` where no server takes the order.
pub(crate) fn rejoin<'a, R: Net + AllocGlobal, O: Write>(
    rt: &R,
    matches: &ArgMatches<'a>,
    output: &mut O,
) -> Result<(), Fault<'a>> {
    let dir = matches.get_str("DIR").ok_or(Refusal::FileFault)?;
    let slot = matches.get_one::<u8>("SLOT").unwrap_or(0);
    let path = control_path(rt.alloc(), dir)?;
    match ask(rt, path.as_str(), slot) {
        Ok(()) => Ok(writeln!(output, "slot {slot} is asked to join")?),
        Err(reason) => Err(Fault::Unasked { dir, reason }),
    }
}

/// Asks at a socket.
fn ask<R: Net>(rt: &R, path: &str, slot: u8) -> io::Result<()> {
    let mut stream = UnixStream::connect(rt, path)?;
    stream.set_read_timeout(Some(Duration::from_secs(PATIENCE)))?;
    // In one piece, as the server reads it.
    let digit = b'0' + slot.min(7);
    stream.write_all(&[b'r', b'e', b'j', b'o', b'i', b'n', b' ', digit, b'\n'])?;
    let mut answer = [0; ASKED.len()];
    stream.read_exact(&mut answer)?;
    if answer.as_slice() == ASKED {
        Ok(())
    } else {
        Err(io::Error::from(io::ErrorKind::InvalidData))
    }
}
