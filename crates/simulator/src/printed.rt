//! What a command of a script prints.
use crate::refusal::Refusal;
use byteorder::{BigEndian, ByteOrder};
use flush_barrier::SessionId;
use gate_journal::Slot;
use manager::Order;
use std::alloc::Global;
use std::collections::BTreeMap;
use std::io::Write;

/// The bytes of a reply before the data of a READ.
const REPLY_HEADER: usize = 16;

/// The number of the refusal of a member that has stopped. It isn't printed.
const STOPPED: u16 = 154;

/// What a raw session put out during a command.
#[derive(Drop)]
struct Line {
    bytes: Vec<u8>,
    closed: bool,
}

/// What a command prints: replies to clients that the script speaks for, faults and refusals as they came, and then what raw
/// sessions were sent, by session number.
#[derive(Drop)]
pub(crate) struct Printed {
    alloc: Global,
    text: Vec<u8>,
    lines: BTreeMap<SessionId, Line>,
}

impl Printed {
    /// Nothing yet.
    pub(crate) fn new(alloc: Global) -> Printed {
        Printed {
            alloc,
            text: Vec::new(alloc),
            lines: BTreeMap::new(alloc),
        }
    }

    /// Adds what a raw session put out.
    pub(crate) fn add_raw(
        &mut self,
        session: SessionId,
        bytes: &[u8],
        closed: bool,
    ) -> Result<(), Refusal> {
        let line = self.lines.entry(session)?.or_insert(Line {
            bytes: Vec::new(self.alloc),
            closed: false,
        });
        line.bytes.extend_from_slice(bytes)?;
        line.closed = line.closed || closed;
        Ok(())
    }

    /// Adds the line of an order of the manager.
    pub(crate) fn add_order(&mut self, order: Order) -> Result<(), Refusal> {
        Ok(writeln!(self.text, "order {order}")?)
    }

    /// Adds the line of a reply, whose bytes end with the data of a READ that was done. Fewer bytes than a header's are none.
    pub(crate) fn add_reply(&mut self, session: SessionId, reply: &[u8]) -> Result<(), Refusal> {
        if reply.len() < REPLY_HEADER {
            return Ok(());
        }
        let session = session.0;
        let error = BigEndian::read_u32(&reply[4..]);
        let cookie = BigEndian::read_u64(&reply[8..]);
        write!(self.text, "reply {session} {cookie} {error}")?;
        if reply.len() > REPLY_HEADER {
            let digits = hex::encode(self.alloc, &reply[REPLY_HEADER..])?;
            write!(self.text, " {digits}")?;
        }
        Ok(writeln!(self.text)?)
    }

    /// Adds the lines of replies without data, one behind another.
    pub(crate) fn add_bare_replies(
        &mut self,
        session: SessionId,
        replies: &[u8],
    ) -> Result<(), Refusal> {
        for reply in replies.chunks(REPLY_HEADER) {
            self.add_reply(session, reply)?;
        }
        Ok(())
    }

    /// Adds that a device's fault stopped a member, before the replies that come of it.
    pub(crate) fn add_fault(&mut self, member: Slot, number: u16) -> Result<(), Refusal> {
        let member = member.number();
        Ok(writeln!(self.text, "fault {member} {number}")?)
    }

    /// Adds a refusal, but for that of a member that has stopped.
    pub(crate) fn add_refusal(&mut self, number: u16) -> Result<(), Refusal> {
        if number == STOPPED {
            return Ok(());
        }
        Ok(writeln!(self.text, "refused {number}")?)
    }

    /// Prints what came, and then `out S H` for each raw session that put bytes out, and `closed S` for each that ended.
    pub(crate) fn print<W: Write>(&self, writer: &mut W) -> Result<(), Refusal> {
        writer.write_all(&self.text)?;
        for (session, line) in &self.lines {
            let number = session.0;
            if !line.bytes.is_empty() {
                let digits = hex::encode(self.alloc, line.bytes.as_slice())?;
                writeln!(writer, "out {number} {digits}")?;
            }
            if line.closed {
                writeln!(writer, "closed {number}")?;
            }
        }
        Ok(())
    }
}
