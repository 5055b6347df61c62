//! `serve DIR`: the chain of a folder, for clients of the Network Block Device protocol.
//!
//! The source of the recovery goes on at once, alone, and is served; the folder's other disks are rebuilt meanwhile, and join it.
use crate::fault::Fault;
use crate::listening::{self, control_path, listen_all, listen_for_orders, print_places};
use clap::{Arg, ArgAction, ArgMatches, Command, value_parser};
use configurations::Epoch;
use folder::FolderDisks;
use folder_server::{Unbegun, Words, begin_from, serve_begun};
use gate_journal::Slot;
use local_store::StoreLike;
use log::{Log, info};
use serving::Control;
use simulator::Refusal;
use std::alloc::{AllocError, Global};
use std::fs::{self, File, Files};
use std::io::{self, Write};
use std::net::{Net, TcpListener, TcpStream};
use std::sync::Wait;
use std::thread::Threads;

/// An example of the command.
const EXAMPLE: &str = "Example, with a client's line:
  nbdchain serve disk --port 10809
  nbdcopy disk.img nbd://127.0.0.1:10809";

/// The words of the command.
pub(crate) fn words<'a>(alloc: Global) -> Result<Command<'a>, AllocError> {
    let dir = Arg::new(alloc, "DIR")
        .required(true)
        .action(ArgAction::Set)
        .help("The folder, which was formatted");
    let sessions = Arg::new(alloc, "sessions")
        .long("sessions")
        .value_name("K")
        .action(ArgAction::Set)
        .value_parser(value_parser!(u32))
        .default_value("0")
        .help("It ends after so many sessions; 0 is never");
    let alone = Arg::new(alloc, "alone")
        .long("alone")
        .action(ArgAction::SetTrue)
        .help(
            "Goes on with one disk, and leaves the others out of the chain; else they are rebuilt",
        );
    let command = Command::new(alloc, "serve")
        .about("Serves the chain of a folder by NBD")
        .after_help(EXAMPLE)
        .arg(dir)?;
    listening::words(command, alloc)?.arg(sessions)?.arg(alone)
}

/// Serves the folder that the words name, so many sessions.
///
/// 302 `ListenFault` where binding fails, with nothing written to the folder, or accepting. Else as `folder::open`, and as
/// `folder::restart`, which records the source alone, with the next epoch, before anything else is written. And what stopped the chain's
/// last member, where none runs any more.
pub(crate) fn serve_folder<'a, R, O: Write>(
    rt: &R,
    matches: &ArgMatches<'a>,
    output: &mut O,
) -> Result<(), Fault<'a>>
where
    R: Files<File = File>
        + Net<Listener = TcpListener, Stream = TcpStream>
        + AllocGlobal
        + Threads
        + Wait
        + Log
        + Print
        + Sync,
{
    let dir = matches.get_str("DIR").ok_or(Refusal::FileFault)?;
    info!(rt; "opening the disks of {dir}");
    let FolderDisks {
        config,
        slots,
        disks,
    } = match folder::open(rt, dir) {
        Ok(files) => files,
        Err(failure) => return Err(Fault::Folder { dir, failure }),
    };
    // A port that can't be had is no reason to record another chain.
    let listeners = match listen_all(rt, matches) {
        Ok(listeners) => listeners,
        Err(fault) => return Err(Fault::Listen(fault)),
    };
    let begun = match begin_from(rt.alloc(), config, disks) {
        Ok(begun) => begun,
        Err(Unbegun::Refused(refused)) => {
            let failure = refused.failure(&slots);
            return Err(Fault::Folder { dir, failure });
        }
        Err(Unbegun::Unmigrated { refusal, opened }) => {
            let failure = opened.failure(refusal);
            return Err(Fault::Folder { dir, failure });
        }
    };
    let size = begun.source.store.geometry().size();
    print_source(begun.source.store.slot(), begun.front, begun.epoch, output)?;
    print_places(matches, size, output)?;
    let words = Words {
        listeners,
        sessions: u64::from(matches.get_one::<u32>("sessions").unwrap_or(0)),
        alone: matches.get_flag("alone"),
    };
    let path = control_path(rt.alloc(), dir)?;
    let control = orders_at(rt, path.as_str());
    let served = serve_begun(rt, dir, &slots, begun, words, &control);
    // Whoever asks from now on is told that nobody is there.
    let _ = fs::remove_file(rt, path.as_str());
    match served {
        Ok(()) => Ok(()),
        Err(unserved) => Err(Fault::Unserved { dir, unserved }),
    }
}

/// Where the server takes orders: nowhere, where the system refuses the socket.
fn orders_at<R>(rt: &R, path: &str) -> Control
where
    R: Files<File = File> + Net<Listener = TcpListener, Stream = TcpStream> + AllocGlobal + Log,
{
    match listen_for_orders(rt, path) {
        Ok(control) => control,
        Err(reason) => {
            info!(rt; "no orders are taken at {path}: {reason}");
            Control::new(None)
        }
    }
}

/// Prints the source and its chain.
fn print_source<O: Write>(slot: Slot, front: u64, epoch: Epoch, output: &mut O) -> io::Result<()> {
    let (slot, epoch) = (slot.number(), epoch.number());
    writeln!(output, "source {slot} front {front}")?;
    writeln!(output, "epoch {epoch} chain {slot}")
}
