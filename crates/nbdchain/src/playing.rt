//! `sim FILE`: plays a script over disks in memory. `script`: the commands of scripts.
use clap::{Arg, ArgAction, ArgMatches, Command};
use simulator::{COMMANDS, Refusal, Telling, tell_on};
use std::alloc::{AllocError, Global};
use std::fs::{File, Files};
use std::io::{BufReader, Write};

/// An example of the command.
const EXAMPLE: &str = "Example, a write with FUA to a chain of three:
  printf '%s\\n' 'new 3 8 4096' 'session 1 1' 'fua 1 1 0 aa' run state > first.script
  nbdchain sim first.script --trace
The commands of scripts: nbdchain script";

/// The words of `sim`.
pub(crate) fn words<'a>(alloc: Global) -> Result<Command<'a>, AllocError> {
    let file = Arg::new(alloc, "FILE")
        .required(true)
        .action(ArgAction::Set)
        .help("The script");
    let trace = Arg::new(alloc, "trace")
        .long("trace")
        .action(ArgAction::SetTrue)
        .help("Tells each step, and how far the chain is, on standard error");
    let explain = Arg::new(alloc, "explain")
        .long("explain")
        .action(ArgAction::SetTrue)
        .help("Tells what a line has wrong that is 301, on standard error");
    let again = Arg::new(alloc, "again")
        .long("again")
        .action(ArgAction::SetTrue)
        .help(
            "Lives all of it once more as one life, and tells whether that is answered as before, on standard error",
        );
    Command::new(alloc, "sim")
        .about("Plays a script over disks in memory")
        .after_help(EXAMPLE)
        .arg(file)?
        .arg(trace)?
        .arg(again)?
        .arg(explain)
}

/// The words of `script`.
pub(crate) fn script_words<'a>(alloc: Global) -> Result<Command<'a>, AllocError> {
    Ok(Command::new(alloc, "script").about("Prints the commands of scripts"))
}

/// Plays the script in a file.
pub(crate) fn play_file<R: Files<File = File> + AllocGlobal, O: Write, E: Write>(
    rt: &R,
    sim: &ArgMatches,
    output: &mut O,
    errors: &mut E,
) -> Result<(), Refusal> {
    let path = sim.get_str("FILE").ok_or(Refusal::FileFault)?;
    let telling = Telling {
        steps: sim.get_flag("trace"),
        mistakes: sim.get_flag("explain"),
        again: sim.get_flag("again"),
    };
    let file = File::open(rt, path)?;
    let mut reader = BufReader::new(rt.alloc(), file)?;
    tell_on(rt.alloc(), &mut reader, output, telling, errors)
}

/// Prints the commands of scripts.
pub(crate) fn print_commands<O: Write>(output: &mut O) -> Result<(), Refusal> {
    for usage in &COMMANDS {
        let (words, does) = (usage.words, usage.does);
        writeln!(output, "{words:<14} {does}")?;
    }
    Ok(writeln!(
        output,
        "S: a session's number. M, A, B: members' slots. C: a cookie. O: an offset, L: a length, in bytes. H: bytes in hexadecimal."
    )?)
}
