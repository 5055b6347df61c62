//! `recover DIR`: a chain comes back whole from the disks of a folder.
use crate::fault::{Fault, Standstill};
use clap::{Arg, ArgAction, ArgMatches, Command};
use comeback::{Comeback, Recovered, Unrecovered, recover};
use configurations::Record;
use disk_model::FileDisk;
use folder::{Failure, FileName, FolderDisks};
use gate_journal::Slot;
use joining::NotRebuilt;
use local_store::Store;
use log::{Log, info};
use manager::Order;
use simulator::Refusal;
use std::alloc::{AllocError, Global};
use std::fs::{File, Files};
use std::io::Write;

/// An example of the command.
const EXAMPLE: &str =
    "Example: the chain of the folder goes on from the disk that has most, and the others get what that has:
  nbdchain recover disk";

/// The words of the command.
pub(crate) fn words<'a>(alloc: Global) -> Result<Command<'a>, AllocError> {
    let dir = Arg::new(alloc, "DIR")
        .required(true)
        .action(ArgAction::Set)
        .help("The folder, which was formatted");
    Command::new(alloc, "recover")
        .about("Goes on from one disk of a folder, and rebuilds each other of its length")
        .after_help(EXAMPLE)
        .arg(dir)
}

/// Recovers the folder that the words name: the chain goes on from its source, and each other slot file of the source's length is rebuilt and
/// joins the chain, slots ascending. Prints the source with its front, each slot that is rebuilt, and the chain then.
///
/// What `folder::open`, `comeback::recover` and `Comeback::rebuild` refuse. It can be killed at any moment, and run again.
pub(crate) fn recover_folder<'a, R, O: Write>(
    rt: &R,
    matches: &ArgMatches<'a>,
    output: &mut O,
) -> Result<(), Fault<'a>>
where
    R: Files<File = File> + AllocGlobal + Log + Copy,
{
    let dir = matches.get_str("DIR").ok_or(Refusal::FileFault)?;
    info!(rt; "opening the disks of {dir}");
    let FolderDisks {
        config,
        slots,
        disks,
    } = match folder::open(rt, dir) {
        Ok(files) => files,
        Err(failure) => return Err(Fault::Folder { dir, failure }),
    };
    let Recovered {
        mut comeback,
        place,
        source,
        front,
        others,
    } = match recover(rt.alloc(), config, disks) {
        Ok(recovered) => recovered,
        Err(unrecovered) => return Err(fault_of(dir, &slots, unrecovered)),
    };
    let source = source.number();
    let done = match writeln!(output, "source {source} front {front}") {
        Ok(()) => rebuild_others(rt, dir, &mut comeback, &slots, place, others, output),
        Err(error) => Err(Fault::from(error)),
    };
    comeback.end();
    done
}

/// Why nothing goes on, with the file that is at fault.
fn fault_of<'a>(dir: &'a str, slots: &[Slot], unrecovered: Unrecovered<FileDisk>) -> Fault<'a> {
    match unrecovered {
        Unrecovered::Refused(refused) => {
            let failure = refused.failure(slots);
            Fault::Folder { dir, failure }
        }
        Unrecovered::Unmigrated { refusal, opened } => {
            let failure = opened.failure(refusal);
            Fault::Folder { dir, failure }
        }
        Unrecovered::Memory => Fault::Own(Refusal::Memory),
    }
}

/// The disks but that at a place are rebuilt, one after another, each at its slot; then the chain is printed.
fn rebuild_others<'a, R, O: Write>(
    rt: &R,
    dir: &'a str,
    comeback: &mut Comeback<Store<FileDisk>, FileDisk>,
    slots: &[Slot],
    place: usize,
    others: Vec<FileDisk>,
    output: &mut O,
) -> Result<(), Fault<'a>>
where
    R: AllocGlobal + Log + Copy,
{
    let mut others = others.into_iter();
    for (at, slot) in slots.iter().enumerate() {
        if at == place {
            continue;
        }
        let Some(disk) = others.next() else {
            break;
        };
        let number = slot.number();
        match comeback.rebuild(*slot, disk) {
            Ok(true) => writeln!(output, "rebuilt {number}")?,
            Ok(false) => {
                info!(rt; "slot{number}.disk hasn't the source's length: it is passed over");
            }
            Err(refusal) => return Err(unrebuilt(dir, *slot, refusal)),
        }
    }
    print_chain(comeback.recorded(), output)
}

/// Why a disk isn't rebuilt, with its file, or that of the configuration.
fn unrebuilt<'a>(dir: &'a str, slot: Slot, refusal: NotRebuilt<FileDisk>) -> Fault<'a> {
    let (file, refusal) = match refusal {
        NotRebuilt::Disk(refusal, _) => (FileName::Slot(slot), folder::Refusal::Store(refusal)),
        NotRebuilt::Config(refusal) => (FileName::Config, folder::Refusal::Chain(refusal)),
        NotRebuilt::Memory => (FileName::Slot(slot), folder::Refusal::Memory),
        NotRebuilt::Manager(refusal, _) => return Fault::Unrebuilt(
            slot,
            Standstill::Manager(refusal),
        ),
        NotRebuilt::TailStopped | NotRebuilt::OutOfOrder(Order::Idle) => {
            return Fault::Unrebuilt(slot, Standstill::TailStopped);
        }
        NotRebuilt::OutOfOrder(_) => return Fault::Unrebuilt(slot, Standstill::OutOfOrder),
    };
    let failure = Failure {
        refusal,
        file,
        reason: None,
    };
    Fault::Folder { dir, failure }
}

/// Prints the epoch of a chain, and its slots.
fn print_chain<'a, O: Write>(recorded: &Record, output: &mut O) -> Result<(), Fault<'a>> {
    let epoch = recorded.epoch().number();
    write!(output, "epoch {epoch} chain")?;
    for member in recorded.members() {
        let slot = member.slot.number();
        write!(output, " {slot}")?;
    }
    Ok(writeln!(output)?)
}
