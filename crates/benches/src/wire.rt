//! How long a session takes for what comes in and goes out.
//!
//! It feeds a session requests in pieces, answers each demand, the last one first, and takes the output. Untimed it plays
//! each load once and prints the bytes that went out; timed it plays each load many times, and prints seconds a GiB of
//! payload and nanoseconds a request.
ghost use Rattle.std.specs.Prelude.{◌≡◌, All};
ghost use Rattle.nbd_session.specs.Demand.{owed_by};

use crate::report::{now, repeated, since};
use board::Board;
use bytes::Bytes;
use flush_barrier::{ErrorCode, Reply, SessionId};
use nbd_session::{Demand, Refusal, Session};
use std::alloc::{AllocError, Global};
use std::io;
use std::time::Duration;

/// The bytes of the volume.
const SIZE: u64 = 268_435_456;

/// The longest payload.
const MIB: u32 = 1_048_576;

/// The bytes of a block.
const BLOCK: u32 = 4_096;

const SESSION: SessionId = SessionId(1);

/// Client flags without zeros, and GO.
const HELLO: &[u8] = b"\0\0\0\x03IHAVEOPT\0\0\0\x07\0\0\0\x06\0\0\0\0\0\0";

/// The magic, no flags, and the type of a READ.
const READ: &[u8] = b"\x25\x60\x95\x13\0\0\0\0";

/// The same of a WRITE.
const WRITE: &[u8] = b"\x25\x60\x95\x13\0\0\0\x01";

/// Requests that are sent again and again.
#[derive(Clone, Copy)]
struct Load {
    name: &'static str,
    /// The requests are WRITEs, and not READs.
    has_payload: bool,
    /// The bytes of each request's range.
    length: u32,
    /// How many requests are in flight at once.
    at_once: u32,
    /// The most bytes that come in at once.
    piece: usize,
    /// The rounds that are timed: all their requests move 1 GiB.
    rounds: u32,
}

const LOADS: [Load; 7] = [
    Load {
        name: "WRITEs of 1 MiB in pieces of 64 KiB",
        has_payload: true,
        length: MIB,
        at_once: 1,
        piece: 65_536,
        rounds: 1_024,
    },
    Load {
        name: "64 WRITEs of 4 KiB in one piece",
        has_payload: true,
        length: BLOCK,
        at_once: 64,
        piece: 1_048_576,
        rounds: 4_096,
    },
    Load {
        name: "READs of 1 MiB",
        has_payload: false,
        length: MIB,
        at_once: 1,
        piece: 1_048_576,
        rounds: 1_024,
    },
    Load {
        name: "READs of 4 KiB, 1 in flight",
        has_payload: false,
        length: BLOCK,
        at_once: 1,
        piece: 1_048_576,
        rounds: 262_144,
    },
    Load {
        name: "READs of 4 KiB, 4 in flight",
        has_payload: false,
        length: BLOCK,
        at_once: 4,
        piece: 1_048_576,
        rounds: 65_536,
    },
    Load {
        name: "READs of 4 KiB, 16 in flight",
        has_payload: false,
        length: BLOCK,
        at_once: 16,
        piece: 1_048_576,
        rounds: 16_384,
    },
    Load {
        name: "READs of 4 KiB, 64 in flight",
        has_payload: false,
        length: BLOCK,
        at_once: 64,
        piece: 1_048_576,
        rounds: 4_096,
    },
];

/// Plays each load, and prints what it came to.
pub(crate) fn run(rt: &HostRuntime, timed: bool) -> anyhow::Result<()> {
    for load in &LOADS {
        play(rt, *load, timed)?;
    }
    Ok(())
}

/// Plays a load through a session of its own, and prints what it came to.
fn play(rt: &HostRuntime, load: Load, timed: bool) -> anyhow::Result<()> {
    let (board, seats) = Board::new(rt.alloc(), 0, 1, [0; 8], 1)?;
    drop(seats);
    let session = Session::new(rt.alloc(), &board, SESSION, SIZE, MIB, 0);
    drop(board);
    let mut session = session?;
    let played = play_in(rt, &mut session, load, timed);
    drop(session);
    played
}

/// Plays a load through the session, and prints what it came to.
fn play_in(rt: &HostRuntime, session: &mut Session, load: Load, timed: bool) -> anyhow::Result<()> {
    let sevens = repeated(rt.alloc(), 7, load.length as usize)?;
    let mut text = Vec::new(rt.alloc());
    let rounds = if timed { load.rounds } else { 1 };
    let played = play_rounds(rt, session, load, &mut text, &sevens, rounds);
    drop(text);
    drop(sevens);
    let (out, took) = played?;
    Ok(print(rt, load, out, took, timed)?)
}

/// Plays so many rounds behind a greeting: how many bytes went out, and how long the rounds took.
fn play_rounds(
    rt: &HostRuntime,
    session: &mut Session,
    load: Load,
    text: &mut Vec<u8>,
    sevens: &Bytes,
    rounds: u32,
) -> Result<(usize, Duration), Refusal> {
    write_requests(text, load, sevens)?;
    let mut out = round(session, rt.alloc(), HELLO, HELLO.len(), sevens)?;
    let start = now(rt);
    for _ in 0..rounds {
        out = out.saturating_add(round(session, rt.alloc(), text, load.piece, sevens)?);
    }
    Ok((out, since(rt, start)))
}

/// Prints what a load came to: bytes out, or the seconds of a GiB and the nanoseconds of a request.
fn print(rt: &HostRuntime, load: Load, out: usize, took: Duration, timed: bool) -> io::Result<()> {
    let name = load.name;
    if !timed {
        return println!(rt; "{name}: {out} bytes out");
    }
    let (millis, requests) = (took.as_millis(), load.rounds.saturating_mul(load.at_once));
    let each = took.as_nanos() / u128::from(requests).max(1);
    let (seconds, rest) = (millis / 1_000, millis % 1_000);
    println!(rt; "{name}: {seconds}.{rest:03} s a GiB, {each} ns a request")
}

/// Writes the requests of one round, each at its own place. A WRITE has these sevens.
fn write_requests(text: &mut Vec<u8>, load: Load, sevens: &[u8]) -> Result<(), AllocError> {
    for cookie in 0..load.at_once {
        let offset = u64::from(cookie) * u64::from(load.length);
        text.extend_from_slice(if load.has_payload { WRITE } else { READ })?;
        text.extend_from_slice(&u64::from(cookie).to_be_bytes())?;
        text.extend_from_slice(&offset.to_be_bytes())?;
        text.extend_from_slice(&load.length.to_be_bytes())?;
        if load.has_payload {
            text.extend_from_slice(sevens)?;
        }
    }
    Ok(())
}

/// Feeds the text in pieces, and answers the demands of each: how many bytes went out.
fn round(
    session: &mut Session,
    alloc: Global,
    text: &[u8],
    piece: usize,
    answer: &Bytes,
) -> Result<usize, Refusal> {
    let mut out = 0_usize;
    for piece in text.chunks(piece.max(1)) {
        let demands = session.feed(piece)?;
        if !answer_all(session, alloc, demands, answer) {
            return Err(Refusal::Memory);
        }
        out = out.saturating_add(session.output().len());
    }
    Ok(out)
}

/// Answers the demands, the last one first. False where there was no memory for a reply.
fn answer_all(session: &mut Session, alloc: Global, demands: Vec<Demand>, answer: &Bytes) -> bool
    requires { All (λ demand. (owed_by demand).session ≡ session.old.id) demands.items }
    ensures { session.new.id ≡ session.old.id }
{
    let mut demands = demands;
    let mut answered = true;
    while let Some(demand) = demands.pop() {
        answered = session.done(reply_to(alloc, demand, answer)).is_ok() && answered;
    }
    demands.destroy_empty();
    answered
}

/// The reply to a demand: READs are answered with these bytes, WRITEs as done.
fn reply_to(alloc: Global, demand: Demand, answer: &Bytes) -> Reply
    ensures { result.session ≡ (owed_by demand).session }
{
    match demand {
        Demand::Read {
            token,
            offset: _,
            length: _,
        } => match answer.clone() {
            Ok(bytes) => token.settle(bytes),
            Err(_) => token.refuse(alloc, ErrorCode::NoMemory),
        },
        Demand::Write { token, write: _ } => token.settle(alloc),
        Demand::Fua { token, write: _ } => token.refuse(alloc, ErrorCode::Io),
        Demand::Flush { token } => token.refuse(alloc, ErrorCode::Io),
    }
}
