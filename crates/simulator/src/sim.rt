//! `nbdchain sim`: plays a script over disks in memory.
use crate::again::Kept;
use crate::printed::Printed;
use crate::refusal::Refusal;
use crate::script::{ScriptCommand, parse};
use crate::sessions::Speaker;
use crate::trace::Telling;
use disk_model::{Event, MemDisk};
use flush_barrier::SessionId;
use gate_journal::Slot;
use life::{ManagedWorld, SlotDisk};
use local_store::Store;
use std::alloc::Global;
use std::collections::BTreeMap;
use std::io::{BufRead, Write};

/// The most members of a chain.
const MAX_MEMBERS: u8 = 8;

/// Plays a script: what its commands print goes to the writer. It ends at the first line that is no command, or not in
/// its place, with 301; 104 where the reader or the writer fails, or a line isn't text.
pub fn sim_on<R: BufRead, W: Write>(
    alloc: Global,
    reader: &mut R,
    writer: &mut W,
) -> Result<(), Refusal> {
    let telling = Telling {
        steps: false,
        mistakes: false,
        again: false,
    };
    let mut untold: Vec<u8> = Vec::new(alloc);
    tell_on(alloc, reader, writer, telling, &mut untold)
}

/// Plays a script as `sim_on` does, and tells of it what is asked for.
pub fn tell_on<R: BufRead, W: Write, T: Write>(
    alloc: Global,
    reader: &mut R,
    writer: &mut W,
    telling: Telling,
    told: &mut T,
) -> Result<(), Refusal> {
    let mut sim = Sim::new(alloc);
    sim.is_kept = telling.again;
    if telling.steps {
        sim.notes = Some(Vec::new(alloc));
    }
    let result = play_lines(&mut sim, reader, writer, telling, told);
    sim.end();
    result
}

fn play_lines<R: BufRead, W: Write, T: Write>(
    sim: &mut Sim,
    reader: &mut R,
    writer: &mut W,
    telling: Telling,
    told: &mut T,
) -> Result<(), Refusal> {
    let mut text = Vec::new(sim.alloc);
    for number in 1..u64::MAX {
        text.clear();
        if reader.read_until(b'\n', &mut text)? == 0 {
            break;
        }
        let line = text.strip_suffix(b"\n").unwrap_or(&text);
        sim.tell_line(number, line, writer, telling, told)?;
    }
    sim.tell_again(told)
}

/// Up to which write a tail raised the front, in which epoch.
#[derive(Clone, Copy, PartialEq, Eq)]
pub(crate) struct Raise {
    pub(crate) epoch: u64,
    pub(crate) number: u64,
}

/// A script that is played: its world, once there is one. It has no `Drop`: `end` ends it.
pub struct Sim {
    pub(crate) alloc: Global,
    pub(crate) begun: bool,
    /// The world and its manager.
    pub(crate) managed: Option<ManagedWorld<Store<MemDisk>, MemDisk>>,
    /// For each slot at which a tail raised the front: the epoch, and the number of the write up to which it did last.
    pub(crate) raised: BTreeMap<Slot, Raise>,
    /// A device call met its stop: nothing goes on until a cut.
    pub(crate) stopped: bool,
    /// What a cut left, until a recovery.
    pub(crate) left: Vec<SlotDisk<MemDisk>>,
    /// The configuration's disk, which it left.
    pub(crate) config_left: Option<MemDisk>,
    pub(crate) speakers: BTreeMap<SessionId, Speaker>,
    /// What is to happen at a device call of the disk that is attached next, if anything is.
    pub(crate) awaited: Option<Event>,
    /// The members whose devices' faults were told.
    pub(crate) faulty: Vec<Slot>,
    /// What is to be told of the steps since the last command, where they are told.
    pub(crate) notes: Option<Vec<u8>>,
    /// Whether what is played is kept, to be lived once more.
    pub(crate) is_kept: bool,
    pub(crate) kept: Option<Kept>,
}

impl Sim {
    /// A script before its first line.
    pub fn new(alloc: Global) -> Sim {
        Sim {
            alloc,
            begun: false,
            managed: None,
            raised: BTreeMap::new(alloc),
            stopped: false,
            left: Vec::new(alloc),
            config_left: None,
            speakers: BTreeMap::new(alloc),
            awaited: None,
            faulty: Vec::new(alloc),
            notes: None,
            is_kept: false,
            kept: None,
        }
    }

    /// Ends the script: its world is abandoned.
    pub fn end(self) {
        let Sim {
            alloc: _,
            begun: _,
            managed,
            raised: _,
            stopped: _,
            left: _,
            config_left: _,
            speakers: _,
            awaited: _,
            faulty: _,
            notes: _,
            is_kept: _,
            kept: _,
        } = self;
        if let Some(managed) = managed {
            managed.abandon();
        }
    }

    /// Plays the line of this number, counted from 1, without its newline: what its command prints goes to the writer.
    ///
    /// 301 where it is no command, or not in its place; 104 where the writer fails, or the line isn't text; 100 `Memory`.
    pub fn play_line<W: Write>(
        &mut self,
        number: u64,
        line: &[u8],
        writer: &mut W,
    ) -> Result<(), Refusal> {
        match parse(self.alloc, line) {
            Ok(None) => Ok(()),
            Ok(Some(command)) => self.play(number, command, writer),
            Err(error) => Err(Refusal::at(number, error)),
        }
    }

    /// Plays the line of this number, and tells of it what is asked for.
    fn tell_line<W: Write, T: Write>(
        &mut self,
        number: u64,
        line: &[u8],
        writer: &mut W,
        telling: Telling,
        told: &mut T,
    ) -> Result<(), Refusal> {
        if telling.steps && !line.is_empty() {
            told.write_all(line)?;
            writeln!(told)?;
        }
        let played = self.play_line(number, line, writer);
        self.note_chain()?;
        self.tell_notes(told)?;
        if telling.mistakes && matches!(played, Err(Refusal::BadScript { .. })) {
            self.tell_mistake(number, line, told)?;
        }
        played
    }

    /// Plays the command of a line. The first command is `new`, and no later one is.
    fn play<W: Write>(
        &mut self,
        line: u64,
        command: ScriptCommand,
        writer: &mut W,
    ) -> Result<(), Refusal> {
        let is_first = !self.begun;
        match command {
            ScriptCommand::New {
                members,
                blocks,
                max_payload,
            } if is_first => match u8::try_from(members) {
                Ok(members) if members > 0 && members <= MAX_MEMBERS => {
                    self.begun = true;
                    self.begin(members, blocks, max_payload, writer)
                }
                _ => Err(Refusal::BadScript { line }),
            },
            ScriptCommand::New { .. } => Err(Refusal::BadScript { line }),
            _ if is_first => Err(Refusal::BadScript { line }),
            ScriptCommand::Cut { cut } => self.cut(cut),
            _ if self.stopped => Ok(()),
            ScriptCommand::Return { slots } => self.recover(&slots, writer),
            ScriptCommand::State => self.state(writer),
            ScriptCommand::StopAt { disk, call, bytes } => {
                self.arm(disk, Event::StopAt { call, bytes })
            }
            ScriptCommand::Fail { disk, call } => self.arm(disk, Event::FailAt { call }),
            command => self.show(command, writer),
        }
    }

    /// Plays the steps of a command, and prints what they put out and their refusal.
    fn show<W: Write>(&mut self, command: ScriptCommand, writer: &mut W) -> Result<(), Refusal> {
        let mut printed = Printed::new(self.alloc);
        let shown = &mut printed;
        match command {
            ScriptCommand::Connect { session, member } => self.connect(session, member, shown)?,
            ScriptCommand::Session { session, member } => self.session(session, member, shown)?,
            ScriptCommand::Request { session, request } => {
                let piece = request.encoded(self.alloc)?;
                self.bytes(session, piece, shown)?;
            }
            ScriptCommand::Bytes { session, piece } => self.bytes(session, piece, shown)?,
            ScriptCommand::Act { act, member } => self.act(act, member, shown)?,
            ScriptCommand::Pass { from, to } => self.pass(from, to, shown)?,
            ScriptCommand::Run => self.run(shown)?,
            ScriptCommand::Remove { member } => self.remove(member, shown)?,
            ScriptCommand::Join { slot } => self.join(slot, shown)?,
            ScriptCommand::Abandon => self.abandon(shown)?,
            ScriptCommand::Order { all } => self.carry_out(all, shown)?,
            ScriptCommand::Return { slots } => drop(slots),
            ScriptCommand::New { .. }
            | ScriptCommand::StopAt { .. }
            | ScriptCommand::Fail { .. }
            | ScriptCommand::Cut { .. }
            | ScriptCommand::State => {}
        }
        printed.print(writer)?;
        self.tell_stop(writer)
    }

    /// Prints that a device call met its stop, if one did.
    pub(crate) fn tell_stop<W: Write>(&self, writer: &mut W) -> Result<(), Refusal> {
        if self.stopped {
            writeln!(writer, "stopped")?;
        }
        Ok(())
    }

    /// A disk that a cut left: the members', in the order of their places, and then those that were outside; until a recovery.
    pub fn disk_left(&self, nth: usize) -> Option<&MemDisk> {
        Some(&self.left.get(nth)?.disk)
    }

    /// The slot of the member at a place, if there is one.
    pub(crate) fn slot(&self, at: usize) -> Option<Slot> {
        let world = &self.managed.as_ref()?.world;
        if at < world.len() {
            Some(world.slot(at))
        } else {
            None
        }
    }

    /// The place of the recorded chain's head, if there is a chain.
    pub(crate) fn head(&self) -> Option<usize> {
        let world = &self.managed.as_ref()?.world;
        let head = world.recorded().members().first()?.slot;
        self.place(u64::from(head.number()))
    }

    /// The place of the member at the slot of a number, if there is one.
    pub(crate) fn place(&self, member: u64) -> Option<usize> {
        let world = &self.managed.as_ref()?.world;
        (0..world.len()).find(|&at| at < world.len()
            && u64::from(world.slot(at).number()) == member)
    }
}
