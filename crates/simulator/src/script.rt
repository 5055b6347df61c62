//! The lines of a script.
use crate::client::{ClientRequest, RequestKind};
use disk_model::Cut;
use flush_barrier::SessionId;
use std::alloc::{AllocError, AllocFailed, Global};
use std::str;
use thiserror::Error;

/// A command of a script. A member is given by its slot's number, which may be above 7.
#[derive(Drop)]
pub enum ScriptCommand {
    /// `new M N P`: a chain of M members, N blocks, payloads of up to P bytes.
    New {
        members: u64,
        blocks: u32,
        max_payload: u32,
    },
    /// `connect S M`: a session at a member.
    Connect {
        session: SessionId,
        member: u64,
    },
    /// `session S M`: a session at a member that has negotiated by GO.
    Session {
        session: SessionId,
        member: u64,
    },
    /// `write S C O H`, `fua S C O H`, `read S C O L`, `flush S C`, `zero S C O L`, `fzero S C O L`: a request from a session's
    /// client.
    Request {
        session: SessionId,
        request: ClientRequest,
    },
    /// `take M`, `raise M` and the like: steps of a member.
    Act {
        act: MemberAct,
        member: u64,
    },
    /// `pass A B`: a member takes the first message on its way from another.
    Pass {
        from: u64,
        to: u64,
    },
    /// `bytes S H ..`: bytes from a session's client.
    Bytes {
        session: SessionId,
        piece: Vec<u8>,
    },
    /// `run`: rounds until one changes nothing.
    Run,
    /// `remove M`: the manager begins the removal of a stopped member.
    Remove {
        member: u64,
    },
    /// `join S`: it begins the joining of a new disk at a slot.
    Join {
        slot: u64,
    },
    /// `abandon`: it abandons the joining under way.
    Abandon,
    /// `order`, `orders`: the manager's next order is carried out; or all of them.
    Order {
        all: bool,
    },
    /// `stopat M K N`, `stopat config K N`: the world stops in the K-th device call of a disk from now on, after N bytes.
    StopAt {
        disk: NamedDisk,
        call: u64,
        bytes: u64,
    },
    /// `fail M K`, `fail config K`: the K-th device call of a disk from now on fails, once.
    Fail {
        disk: NamedDisk,
        call: u64,
    },
    /// `cut all`, `cut none`: everything stops; what wasn't synced is as written, or all `ff`.
    Cut {
        cut: Cut,
    },
    /// `return`, `return M ..`: the disks of these slots come back, and the chain goes on from one of them.
    Return {
        slots: Vec<u64>,
    },
    /// `state`: prints the epoch, the committed front and the chain.
    State,
}

/// A disk, as a script names it.
#[derive(Clone, Copy)]
pub enum NamedDisk {
    /// That of the configuration.
    Config,
    /// That of the member at the slot of a number.
    Member(u64),
}

/// What a member is told to do.
#[derive(Clone, Copy)]
pub enum MemberAct {
    /// It takes the oldest waiting demand of its sessions.
    Take,
    /// The head takes the write at the front of the submit link from it.
    Number,
    /// The tail raises the front, and takes it.
    Raise,
    /// It builds the images of the next writes to be journaled, at most so many.
    Begin { most: u64 },
    /// It journals them.
    End,
    /// Both, for one write, with a checkpoint first where it doesn't fit.
    Commit,
    /// It posts its last receipt.
    Post,
    /// Its store writes the next pending block home.
    Tick,
    /// Its store writes all pending blocks home, and changes the journal area.
    Checkpoint,
    /// It looks up the front and goes on with it; the front is kept for the mask.
    Front,
    /// The mask is looked up behind the kept front.
    Crew,
    /// The gauges are looked up, and it answers with the floor.
    Settle,
    /// The three of them.
    Floor,
    /// It stops.
    Stop,
}

/// Why a line is no command.
#[derive(Clone, Copy, Debug, PartialEq, Eq, Error)]
pub enum LineError {
    /// Memory ran out.
    #[error("out of memory")]
    Memory,
    /// The line is no command of the table with its words.
    #[error("no command")]
    Malformed,
    /// The line isn't UTF-8, and no comment.
    #[error("not UTF-8")]
    NotText,
}

impl From<AllocError> for LineError {
    fn from(_: AllocError) -> LineError {
        LineError::Memory
    }
}

impl<T: Drop> From<AllocFailed<T>> for LineError {
    fn from(_: AllocFailed<T>) -> LineError {
        LineError::Memory
    }
}

/// The command of a line, without its newline; `None` for an empty line and a comment, which begins with `#`.
/// Words are separated by one space, numbers are decimal digits alone, bytes are lower-case hexadecimal.
pub fn parse(alloc: Global, line: &[u8]) -> Result<Option<ScriptCommand>, LineError> {
    if line.is_empty() || line.starts_with(b"#") {
        return Ok(None);
    }
    let text = str::from_utf8(line).map_err(|_| LineError::NotText)?;
    let words: Vec<&str> = text.split(' ').collect(alloc)?;
    command_of(alloc, &words).map(Some)
}

/// The command of these words.
fn command_of(alloc: Global, words: &[&str]) -> Result<ScriptCommand, LineError> {
    match words {
        ["new" | "connect" | "session", ..] => beginning(words),
        ["write" | "fua" | "read" | "flush" | "zero" | "fzero", ..] => {
            request_command(alloc, words)
        }
        ["bytes", session, first, others @ ..] => Ok(ScriptCommand::Bytes {
            session: SessionId(number(session)?),
            piece: joined(alloc, first, others)?,
        }),
        ["run"] => Ok(ScriptCommand::Run),
        ["state"] => Ok(ScriptCommand::State),
        ["remove", member] => Ok(ScriptCommand::Remove {
            member: number(member)?,
        }),
        ["join", slot] => Ok(ScriptCommand::Join {
            slot: number(slot)?,
        }),
        ["abandon"] => Ok(ScriptCommand::Abandon),
        ["order"] => Ok(ScriptCommand::Order { all: false }),
        ["orders"] => Ok(ScriptCommand::Order { all: true }),
        ["fail" | "stopat" | "cut" | "return", ..] => crash_command(alloc, words),
        _ => chain_command(words),
    }
}

/// A step of a member, or of two.
fn chain_command(words: &[&str]) -> Result<ScriptCommand, LineError> {
    match words {
        ["bgroup", member, most] => Ok(ScriptCommand::Act {
            act: MemberAct::Begin {
                most: number(most)?,
            },
            member: number(member)?,
        }),
        ["pass", from, to] => Ok(ScriptCommand::Pass {
            from: number(from)?,
            to: number(to)?,
        }),
        [act, member] => Ok(ScriptCommand::Act {
            act: member_act(act)?,
            member: number(member)?,
        }),
        _ => Err(LineError::Malformed),
    }
}

/// A world or a session begins.
fn beginning(words: &[&str]) -> Result<ScriptCommand, LineError> {
    match words {
        ["new", members, blocks, max_payload] => Ok(ScriptCommand::New {
            members: number(members)?,
            blocks: length(blocks)?,
            max_payload: length(max_payload)?,
        }),
        ["connect", session, member] => Ok(ScriptCommand::Connect {
            session: SessionId(number(session)?),
            member: number(member)?,
        }),
        ["session", session, member] => Ok(ScriptCommand::Session {
            session: SessionId(number(session)?),
            member: number(member)?,
        }),
        _ => Err(LineError::Malformed),
    }
}

/// A request from a session's client. What has no payload is read first, so that no fault finds one to drop.
fn request_command(alloc: Global, words: &[&str]) -> Result<ScriptCommand, LineError> {
    match words {
        ["write", session, cookie, offset, payload] => {
            let head = head_of(RequestKind::Write, session, cookie, offset)?;
            request(head, bytes(alloc, payload)?)
        }
        ["fua", session, cookie, offset, payload] => {
            let head = head_of(RequestKind::Fua, session, cookie, offset)?;
            request(head, bytes(alloc, payload)?)
        }
        ["read", session, cookie, offset, len] => {
            let head = head_of(RequestKind::Read, session, cookie, offset)?;
            bare_request(alloc, head, len)
        }
        ["zero", session, cookie, offset, len] => {
            let head = head_of(RequestKind::Zero, session, cookie, offset)?;
            bare_request(alloc, head, len)
        }
        ["fzero", session, cookie, offset, len] => {
            let head = head_of(RequestKind::ForcedZero, session, cookie, offset)?;
            bare_request(alloc, head, len)
        }
        ["flush", session, cookie] => {
            let head = head_of(RequestKind::Flush, session, cookie, "0")?;
            Ok(head.with(0, Vec::new(alloc)))
        }
        _ => Err(LineError::Malformed),
    }
}

/// A command of faults, crashes and recovery.
fn crash_command(alloc: Global, words: &[&str]) -> Result<ScriptCommand, LineError> {
    match words {
        ["fail", disk, call] => Ok(ScriptCommand::Fail {
            disk: named_disk(disk)?,
            call: number(call)?,
        }),
        ["stopat", disk, call, bytes] => Ok(ScriptCommand::StopAt {
            disk: named_disk(disk)?,
            call: number(call)?,
            bytes: number(bytes)?,
        }),
        ["cut", "all"] => Ok(ScriptCommand::Cut { cut: Cut::All }),
        ["cut", "none"] => Ok(ScriptCommand::Cut { cut: Cut::None }),
        ["return", slots @ ..] => Ok(ScriptCommand::Return {
            slots: numbers(alloc, slots)?,
        }),
        _ => Err(LineError::Malformed),
    }
}

/// The disk of this name.
fn named_disk(word: &str) -> Result<NamedDisk, LineError> {
    match word {
        "config" => Ok(NamedDisk::Config),
        _ => Ok(NamedDisk::Member(number(word)?)),
    }
}

/// What a request has beside its length and its payload.
#[derive(Clone, Copy)]
struct RequestHead {
    kind: RequestKind,
    session: SessionId,
    cookie: u64,
    offset: u64,
}

impl RequestHead {
    /// The request with this length and payload.
    fn with(self, length: u32, payload: Vec<u8>) -> ScriptCommand {
        let RequestHead {
            kind,
            session,
            cookie,
            offset,
        } = self;
        ScriptCommand::Request {
            session,
            request: ClientRequest {
                kind,
                cookie,
                offset,
                length,
                payload,
            },
        }
    }
}

/// The head of a request, from its words.
fn head_of(
    kind: RequestKind,
    session: &str,
    cookie: &str,
    offset: &str,
) -> Result<RequestHead, LineError> {
    Ok(RequestHead {
        kind,
        session: SessionId(number(session)?),
        cookie: number(cookie)?,
        offset: number(offset)?,
    })
}

/// A request that is as long as its payload.
fn request(head: RequestHead, payload: Vec<u8>) -> Result<ScriptCommand, LineError> {
    if payload.len() > u32::MAX as usize {
        return Err(LineError::Malformed);
    }
    let length = payload.len() as u32;
    Ok(head.with(length, payload))
}

/// A request of that many bytes, which carries none.
fn bare_request(alloc: Global, head: RequestHead, len: &str) -> Result<ScriptCommand, LineError> {
    let length = length(len)?;
    Ok(head.with(length, Vec::new(alloc)))
}

/// What a member is told by this word.
fn member_act(word: &str) -> Result<MemberAct, LineError> {
    match word {
        "take" => Ok(MemberAct::Take),
        "number" => Ok(MemberAct::Number),
        "raise" => Ok(MemberAct::Raise),
        "begin" => Ok(MemberAct::Begin { most: 1 }),
        "end" => Ok(MemberAct::End),
        "commit" => Ok(MemberAct::Commit),
        "post" => Ok(MemberAct::Post),
        "tick" => Ok(MemberAct::Tick),
        "checkpoint" => Ok(MemberAct::Checkpoint),
        "front" => Ok(MemberAct::Front),
        "crew" => Ok(MemberAct::Crew),
        "settle" => Ok(MemberAct::Settle),
        "floor" => Ok(MemberAct::Floor),
        "stop" => Ok(MemberAct::Stop),
        _ => Err(LineError::Malformed),
    }
}

/// A number below 2^64.
fn number(word: &str) -> Result<u64, LineError> {
    digits(word)?.parse().map_err(|_| LineError::Malformed)
}

/// A length, or a number of blocks: below 2^32.
fn length(word: &str) -> Result<u32, LineError> {
    digits(word)?.parse().map_err(|_| LineError::Malformed)
}

/// The word, where it is digits alone.
fn digits(word: &str) -> Result<&str, LineError> {
    if word.bytes().all(|b| b.is_ascii_digit()) {
        Ok(word)
    } else {
        Err(LineError::Malformed)
    }
}

/// The bytes of some words of hexadecimal digits, each of whole bytes.
fn joined(alloc: Global, first: &str, others: &[&str]) -> Result<Vec<u8>, LineError> {
    let mut piece = bytes(alloc, first)?;
    for word in others {
        piece.extend_from_slice(&bytes(alloc, word)?)?;
    }
    Ok(piece)
}

/// The numbers that these words are.
fn numbers(alloc: Global, words: &[&str]) -> Result<Vec<u64>, LineError> {
    let mut numbers = Vec::new(alloc);
    for word in words {
        numbers.push(number(word)?)?;
    }
    Ok(numbers)
}

/// The bytes of a word, at least one, in lower-case digits.
fn bytes(alloc: Global, word: &str) -> Result<Vec<u8>, LineError> {
    if word.is_empty() || word.bytes().any(|b| b.is_ascii_uppercase()) {
        return Err(LineError::Malformed);
    }
    hex::decode(alloc, word).map_err(|e| match e {
        hex::FromHexError::OutOfMemory => LineError::Memory,
        _ => LineError::Malformed,
    })
}
