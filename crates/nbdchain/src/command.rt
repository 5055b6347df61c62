//! The program's words.
ghost use Rattle.std.specs.Prelude.{◌≤◌};

use crate::fault::Fault;
use crate::formatting::{self, format_folder};
use crate::playing::{self, play_file, print_commands};
use crate::recovering::{self, recover_folder};
use crate::rejoining::{self, rejoin};
use crate::serving_folder::{self, serve_folder};
use clap::error::ErrorKind;
use clap::{Arg, ArgAction, ArgMatches, Command, Error};
use log::Log;
use simulator::{Refusal, sim_on};
use std::alloc::{AllocError, Global};
use std::fs::{File, Files};
use std::io::{BufRead, Write};
use std::net::{Net, TcpListener, TcpStream};
use std::sync::Wait;
use std::thread::Threads;

/// The version of the program.
const VERSION: &str = "0.1.0";

/// The status after success.
const SUCCESS: u8 = 0;

/// The status after a refusal.
const REFUSED: u8 = 1;

/// The status after a fault of the words.
const WORD_FAULT: u8 = 2;

/// The program: its words, its streams and its status. `format DIR` makes a folder of disks, `recover DIR` brings its chain back whole, and
/// `serve DIR` serves it; `rejoin DIR SLOT` asks its server to have a disk join it.
/// `sim FILE` plays a script, and no words play the script on the input. A refusal goes to `errors`, status 1, and so does a
/// fault of the words, status 2.
pub fn command<R, I: BufRead, O: Write, E: Write>(
    rt: &R,
    words: &[&str],
    input: &mut I,
    output: &mut O,
    errors: &mut E,
) -> u8
where
    R: Files<File = File>
        + Net<Listener = TcpListener, Stream = TcpStream>
        + AllocGlobal
        + Threads
        + Wait
        + Log
        + Print
        + Copy
        + Sync,
    ensures { result ≤ 2 }
{
    let alloc = rt.alloc();
    let Ok(program) = program(alloc) else {
        return refused(&Fault::Own(Refusal::Memory), errors);
    };
    let played = match program.try_get_matches_from(words) {
        Ok(matches) => play_words(rt, &matches, input, output, errors),
        Err(fault) if fault.kind() == ErrorKind::OutOfMemory => Err(Fault::Own(Refusal::Memory)),
        Err(fault) if fault.use_stderr() => return word_fault(&fault, errors),
        Err(help) => print(&help, output),
    };
    let done = match (played, output.flush()) {
        (Ok(()), Err(reason)) => Err(Fault::from(reason)),
        (played, _) => played,
    };
    match done {
        Ok(()) => SUCCESS,
        Err(fault) => refused(&fault, errors),
    }
}

/// What the program takes.
fn program<'a>(alloc: Global) -> Result<Command<'a>, AllocError> {
    let version = Arg::new(alloc, "version")
        .short('V')
        .long("version")
        .action(ArgAction::SetTrue)
        .help("Print version");
    Command::new(alloc, "nbdchain")
        .about("A replicated virtual disk. Without words, plays the script on the input.")
        .arg(version)?
        .subcommand(formatting::words(alloc)?)?
        .subcommand(recovering::words(alloc)?)?
        .subcommand(serving_folder::words(alloc)?)?
        .subcommand(rejoining::words(alloc)?)?
        .subcommand(playing::words(alloc)?)?
        .subcommand(playing::script_words(alloc)?)
}

/// Does what the words ask for.
fn play_words<'a, R, I: BufRead, O: Write, E: Write>(
    rt: &R,
    matches: &ArgMatches<'a>,
    input: &mut I,
    output: &mut O,
    errors: &mut E,
) -> Result<(), Fault<'a>>
where
    R: Files<File = File>
        + Net<Listener = TcpListener, Stream = TcpStream>
        + AllocGlobal
        + Threads
        + Wait
        + Log
        + Print
        + Copy
        + Sync,
{
    if matches.get_flag("version") {
        return Ok(writeln!(output, "nbdchain {VERSION}")?);
    }
    match matches.subcommand() {
        Some(("format", format)) => format_folder(rt, format, output),
        Some(("recover", recover)) => recover_folder(rt, recover, output),
        Some(("serve", serve)) => serve_folder(rt, serve, output),
        Some(("rejoin", slot)) => rejoin(rt, slot, output),
        Some(("script", _)) => Ok(print_commands(output)?),
        Some((_, sim)) => Ok(play_file(rt, sim, output, errors)?),
        None => Ok(sim_on(rt.alloc(), input, output)?),
    }
}

/// Prints a refusal, in a line; the status. Where nobody reads any more what the program prints, it ends quietly.
pub(crate) fn refused<E: Write>(fault: &Fault<'_>, errors: &mut E) -> u8
    ensures { result ≤ 2 }
{
    if matches!(fault, Fault::Own(Refusal::ClosedPipe)) {
        return REFUSED;
    }
    // There is nowhere left to tell that it can't be told.
    let _ = writeln!(errors, "nbdchain: {fault}");
    REFUSED
}

/// Prints the help that the words ask for.
fn print<'a, O: Write>(help: &Error, output: &mut O) -> Result<(), Fault<'a>> {
    Ok(write!(output, "{help}")?)
}

/// Prints a fault of the words; the status.
fn word_fault<E: Write>(fault: &Error, errors: &mut E) -> u8
    ensures { result ≤ 2 }
{
    // There is nowhere left to tell that it can't be told.
    let _ = write!(errors, "{fault}");
    WORD_FAULT
}
