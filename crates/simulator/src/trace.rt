//! What is told of a script beside what it prints: its steps, and what a line has wrong.
use crate::manual::mistake_of;
use crate::refusal::Refusal;
use crate::sim::Sim;
use life::{Act, Answer, ManagerAct, Step};
use std::fmt;
use std::io::Write;
use world::Told;

/// What is told of a script beside what it prints.
#[derive(Clone, Copy, Debug, PartialEq, Eq)]
pub struct Telling {
    /// Each step with what became of it, and behind each command how far the chain is.
    pub steps: bool,
    /// What the line has wrong at which the script ends.
    pub mistakes: bool,
    /// Whether the script, lived once more as one life, is answered as it was.
    pub again: bool,
}

/// A step, as a line tells it.
#[derive(Drop)]
struct Named<'a>(&'a Step);

impl fmt::Display for Named<'_> {
    fn fmt<W: fmt::Write>(&self, f: &mut fmt::Formatter<W>) -> fmt::Result {
        match self.0 {
            Step::Connect { session, at } => {
                let session = session.0;
                write!(f, "session {session} begins at place {at}")
            }
            Step::Bytes { session, piece } => {
                let (session, len) = (session.0, piece.len());
                write!(f, "session {session} is fed {len} bytes")
            }
            Step::End { session } => {
                let session = session.0;
                write!(f, "session {session} has no more input")
            }
            Step::HandOut { session } => {
                let session = session.0;
                write!(f, "what waits for session {session} goes out")
            }
            Step::Member {
                at,
                act: Act::Number { from },
            } => {
                let from = from.number();
                write!(f, "number what comes from slot {from} at place {at}")
            }
            Step::Member {
                at,
                act: Act::Pass { from },
            } => {
                let from = from.number();
                write!(f, "take what comes from slot {from} at place {at}")
            }
            Step::Member { at, act } => {
                let name = name_of(*act);
                write!(f, "{name} at place {at}")
            }
        }
    }
}

/// What a member's act is called.
fn name_of(act: Act) -> &'static str {
    match act {
        Act::Take => "take",
        Act::Number { .. } => "number",
        Act::Pass { .. } => "take a message",
        Act::Look => "look the front up",
        Act::AnswerFront => "go on with the front",
        Act::Raise => "raise the front",
        Act::Raised => "go on with the raised front",
        Act::FindFront => "look the front up for a crew",
        Act::Crew => "look the mask up",
        Act::Gauge => "look a gauge up",
        Act::Settle => "answer with the floor",
        Act::BeginCommits { .. } => "begin a commit",
        Act::EndCommit => "end the commit",
        Act::Post => "post the receipt",
        Act::Tick => "write a block home",
        Act::Checkpoint => "checkpoint",
        Act::Stop => "stop",
    }
}

/// What an act of the manager is called.
fn name_of_act(act: ManagerAct) -> &'static str {
    match act {
        ManagerAct::Remove { .. } => "begin a removal",
        ManagerAct::Join { .. } => "begin a joining",
        ManagerAct::Forget { .. } => "forget a member",
        ManagerAct::Attach { .. } => "attach a disk",
        ManagerAct::Copy => "give the next block",
        ManagerAct::Hold => "hold the front",
        ManagerAct::Rest => "give a block again, or the end",
        ManagerAct::CountIn => "count the disk",
        ManagerAct::Abandon => "abandon the joining",
        ManagerAct::BeginRecord => "begin the record",
        ManagerAct::EndRecord => "write the record",
        ManagerAct::CountOut => "count the slot out",
        ManagerAct::Tell => "tell a member the record",
    }
}

/// What a refusal of a step means.
fn meaning_of(number: u16) -> &'static str {
    match number {
        100 => "out of memory",
        121 => "the batch doesn't fit into the journal area",
        152 => "its message is of a later epoch",
        153 => "the table is full",
        154 => "the member has stopped",
        201 => "the session is over",
        _ => "refused",
    }
}

/// An answer, as a line tells it.
#[derive(Drop)]
struct Became<'a>(&'a Answer);

impl fmt::Display for Became<'_> {
    fn fmt<W: fmt::Write>(&self, f: &mut fmt::Formatter<W>) -> fmt::Result {
        match self.0 {
            Answer::Taken(Told::Out(outputs)) => {
                let count = outputs.len();
                match count {
                    0 => write!(f, "taken"),
                    1 => write!(f, "taken, with a reply"),
                    _ => write!(f, "taken, with {count} replies"),
                }
            }
            Answer::Taken(Told::Lost(_)) => {
                write!(
                    f,
                    "taken; memory for a reply ran out, and its session ended"
                )
            }
            Answer::Taken(Told::Withheld) => write!(f, "taken; memory for its replies ran out"),
            Answer::HandedOut(output) => {
                let len = output.bytes.len();
                write!(f, "taken, {len} bytes")
            }
            Answer::Refused(number) => {
                let meaning = meaning_of(*number);
                write!(f, "refused {number}, {meaning}")
            }
            Answer::Skipped => write!(f, "skipped: there is no such step now"),
        }
    }
}

impl Sim {
    /// Notes a step and what became of it, where steps are told.
    pub(crate) fn note_step(&mut self, step: &Step, answer: &Answer) -> Result<(), Refusal> {
        if let Some(notes) = &mut self.notes {
            let (step, became) = (Named(step), Became(answer));
            writeln!(notes, "  {step}: {became}")?;
        }
        Ok(())
    }

    /// Notes an act of the manager and what became of it, where steps are told.
    pub(crate) fn note_act(&mut self, act: ManagerAct, answer: &Answer) -> Result<(), Refusal> {
        if let Some(notes) = &mut self.notes {
            let (name, became) = (name_of_act(act), Became(answer));
            writeln!(notes, "  manager: {name}: {became}")?;
        }
        Ok(())
    }

    /// Notes how far the chain is, where steps are told: its front, and of each member the durable front d, the known commit k, the last
    /// applied write L, and how many calls its device has had.
    pub(crate) fn note_chain(&mut self) -> Result<(), Refusal> {
        let (Some(notes), Some(managed)) = (&mut self.notes, &mut self.managed) else {
            return Ok(());
        };
        let front = managed.world.front();
        let world = &managed.world;
        write!(notes, "  front {front}:")?;
        for at in 0..world.len() {
            let slot = world.slot(at).number();
            let (durable, known, applied) = (world.durable(at), world.known(at), world.applied(at));
            let calls = world.store(at).disk().calls();
            let arrow = if at == 0 { "" } else { " ->" };
            write!(
                notes,
                "{arrow} slot {slot} d {durable} k {known} L {applied} calls {calls}"
            )?;
        }
        Ok(writeln!(notes)?)
    }

    /// Tells what was noted, which is gone then.
    pub(crate) fn tell_notes<T: Write>(&mut self, told: &mut T) -> Result<(), Refusal> {
        if let Some(notes) = &mut self.notes {
            told.write_all(notes)?;
            notes.clear();
        }
        Ok(())
    }

    /// Tells what the line of a number has wrong.
    pub(crate) fn tell_mistake<T: Write>(
        &self,
        number: u64,
        line: &[u8],
        told: &mut T,
    ) -> Result<(), Refusal> {
        let mistake = mistake_of(line, !self.begun);
        Ok(writeln!(told, "line {number}: {mistake}")?)
    }
}
