//! `format DIR`: a folder of disks of zeros.
use crate::fault::Fault;
use clap::{Arg, ArgAction, ArgMatches, Command, value_parser};
use folder::Layout;
use log::{Log, info};
use simulator::Refusal;
use std::alloc::{AllocError, Global};
use std::fs::{File, Files};
use std::io::Write;

/// An example of the command.
const EXAMPLE: &str = "Example: a disk of 64 MiB, kept by one member:
  mkdir disk
  nbdchain format disk --blocks 16384 --max-payload 1048576 --area 16777216 --members 1";

/// The bytes of a mebibyte.
const MEBIBYTE: u64 = 1_048_576;

/// The mebibytes from which on the log tells that they are written.
const LARGE: u64 = 64;

/// The words of the command.
pub(crate) fn words<'a>(alloc: Global) -> Result<Command<'a>, AllocError> {
    let dir = Arg::new(alloc, "DIR")
        .required(true)
        .action(ArgAction::Set)
        .help("The folder, which is there");
    Command::new(alloc, "format")
        .about("Makes the disks of a chain in a folder. Nothing is overwritten.")
        .after_help(EXAMPLE)
        .arg(dir)?
        .arg(number(
            alloc,
            "blocks",
            "N",
            "The volume's blocks of 4,096 bytes: 1 to 65,536",
        ))?
        .arg(number(
            alloc,
            "max-payload",
            "P",
            "The most bytes of a request: a power of two, 4,096 to 1,048,576",
        ))?
        .arg(number(
            alloc,
            "area",
            "A",
            "The bytes of a journal area: at least 14 + 4,100 * (P / 4,096 + 1)",
        ))?
        .arg(number(alloc, "members", "M", "The members: 1 to 8"))
}

/// An option that takes a number.
fn number<'a>(alloc: Global, name: &'a str, value: &'a str, help: &'a str) -> Arg<'a> {
    Arg::new(alloc, name)
        .long(name)
        .value_name(value)
        .required(true)
        .action(ArgAction::Set)
        .value_parser(value_parser!(u32))
        .help(help)
}

/// Formats the folder that the words name.
///
/// 111 to 113 and 163, in this order, where the numbers are no layout: then no file is touched. Else as `folder::format`.
pub(crate) fn format_folder<'a, R: Files<File = File> + AllocGlobal + Log, O: Write>(
    rt: &R,
    matches: &ArgMatches<'a>,
    output: &mut O,
) -> Result<(), Fault<'a>> {
    let dir = matches.get_str("DIR").ok_or(Refusal::FileFault)?;
    let blocks = number_of(matches, "blocks");
    let max_payload = number_of(matches, "max-payload");
    let area = number_of(matches, "area");
    let members = number_of(matches, "members");
    let layout = match Layout::new(blocks, max_payload, area, members) {
        Ok(layout) => layout,
        Err(refusal) => return Err(Fault::Layout(refusal)),
    };
    let mebibytes = (layout.disk_size() / MEBIBYTE).saturating_mul(u64::from(members));
    if mebibytes >= LARGE {
        info!(rt; "writing {mebibytes} MiB of zeros to {dir}");
    }
    match folder::format(rt, dir, layout) {
        Ok(()) => Ok(writeln!(output, "formatted {members} members, {blocks} blocks")?),
        Err(failure) => Err(Fault::Folder { dir, failure }),
    }
}

/// The number of an option that the words always have.
fn number_of(matches: &ArgMatches, name: &str) -> u32 {
    matches.get_one::<u32>(name).unwrap_or(0)
}
