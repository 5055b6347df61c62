//! `nbdchain`: a replicated virtual disk for clients of the Network Block Device protocol.
//!
//! `format` makes a folder of disks, `recover` brings its chain back whole, and `serve` serves it: what a folder's disks mean is `folder`'s,
//! how others are rebuilt from one is `comeback`'s, and the chain that clients are served by is `folder_server`'s. `sim` plays a script over disks in memory, by `simulator`.
#![tactic(auto)]

use crate::fault::Fault;
use log::Log;
use std::env::{self, Env};
use std::fs::{File, Files};
use std::io::{self, BufReader, BufWriter, Write};
use std::net::{Net, TcpListener, TcpStream};
use std::process::ExitCode;
use std::sync::Wait;
use std::thread::Threads;

mod command;
mod fault;
mod formatting;
mod listening;
mod playing;
mod recovering;
mod rejoining;
mod serving_folder;

pub use command::command;
use command::refused;
pub use simulator::{Refusal, sim_on};

fn main(rt: HostRuntime) -> ExitCode {
    let mut errors = rt.stderr();
    let status = match command_on(&rt, &mut errors) {
        Ok(status) => status,
        Err(refusal) => refused(&Fault::Own(refusal), &mut errors),
    };
    ExitCode::from(status)
}

/// The program on its own words and streams: its status.
fn command_on<R, E: Write>(rt: &R, errors: &mut E) -> Result<u8, Refusal>
where
    R: Env
        + Input
        + Print
        + Files<File = File>
        + Net<Listener = TcpListener, Stream = TcpStream>
        + AllocGlobal
        + Threads
        + Wait
        + Log
        + Copy
        + Sync,
{
    let alloc = rt.alloc();
    let words: Vec<String> = env::args(rt)?.collect(alloc)?;
    let mut input = BufReader::new(alloc, rt.reader())?;
    let mut output = BufWriter::new(alloc, io::writer(rt))?;
    let words: Vec<&str> = words.iter().map(|word| word.as_str()).collect(alloc)?;
    Ok(command(rt, &words, &mut input, &mut output, errors))
}
