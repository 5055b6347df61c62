//! `run`: rounds over the members until one changes nothing.
use crate::printed::Printed;
use crate::refusal::Refusal;
use crate::sim::{Raise, Sim};
use crate::steps::Outcome;
use flush_barrier::SessionId;
use gate_journal::Slot;
use life::{Act, ManagedWorld, Step};

/// The most writes of a commit in a round.
const GROUP: u64 = 1_024;

/// How far a running member has come.
#[derive(Clone, Copy)]
pub(crate) struct Progress {
    applied: u64,
    known: u64,
    durable: u64,
    is_tail: bool,
}

impl Sim {
    /// Plays rounds until one changes nothing, and adds what they put out. Refusals aren't told.
    pub(crate) fn run(&mut self, printed: &mut Printed) -> Result<(), Refusal> {
        for _ in 0..u64::MAX {
            if !self.round(printed)? {
                break;
            }
        }
        Ok(())
    }

    /// Plays one round over the members of the recorded chain, from the head to the tail: whether it changed anything.
    fn round(&mut self, printed: &mut Printed) -> Result<bool, Refusal> {
        let mut places = Vec::new(self.alloc);
        if let Some(ManagedWorld { world, .. }) = &self.managed {
            for member in world.recorded().members() {
                if let Some(at) = self.place(u64::from(member.slot.number())) {
                    places.push(at)?;
                }
            }
        }
        let mut changed = false;
        for at in places {
            changed = self.turn(at, printed)? || changed;
        }
        Ok(changed && !self.stopped)
    }

    /// Plays what one member has to do, while it runs: whether it changed anything.
    fn turn(&mut self, at: usize, printed: &mut Printed) -> Result<bool, Refusal> {
        let fed = self.go_on(at, printed)?;
        let took = self.repeat(at, Act::Take, printed)?;
        let numbered = self.head() == Some(at) && self.number_all(at, printed)?;
        let passed = self.pass_all(at, printed)?;
        let raised = self.raise_all(at, printed)?;
        let committed = self.commit_all(at, printed)?;
        let answered = self.runs(at) && matches!(self.floor(at, printed)?, Outcome::Heard);
        Ok(fed || took || numbered || passed || raised || committed || answered)
    }

    /// Whether the member at a place runs.
    fn runs(&self, at: usize) -> bool {
        self.progress(at).is_some()
    }

    /// How far the member at a place has come, if it runs.
    pub(crate) fn progress(&self, at: usize) -> Option<Progress> {
        let world = &self.managed.as_ref()?.world;
        if self.stopped || at >= world.len() || world.cause(at).is_some() {
            return None;
        }
        Some(Progress {
            applied: world.applied(at),
            known: world.known(at),
            durable: world.durable(at),
            is_tail: world
                .recorded()
                .members()
                .last()
                .is_some_and(|tail| tail.slot == world.slot(at)),
        })
    }

    /// The sessions of a member go on with the input that they kept: whether one put anything out.
    fn go_on(&mut self, at: usize, printed: &mut Printed) -> Result<bool, Refusal> {
        if !self.runs(at) {
            return Ok(false);
        }
        let mut sessions: Vec<SessionId> = Vec::new(self.alloc);
        for (session, speaker) in &self.speakers {
            if self.slot(at) == Some(speaker.slot) {
                sessions.push(*session)?;
            }
        }
        let mut put_out = false;
        for session in sessions {
            let piece = Vec::new(self.alloc);
            self.step(Step::Bytes { session, piece }, printed)?;
            let handed = self.step(Step::HandOut { session }, printed)?;
            put_out = put_out || handed.is_taken();
        }
        Ok(put_out)
    }

    /// While the member at a place runs, an act of it is played until it isn't taken: whether it was.
    fn repeat(&mut self, at: usize, act: Act, printed: &mut Printed) -> Result<bool, Refusal> {
        for count in 0..u64::MAX {
            if !self.runs(at) || !self.step_at(at, act, printed)?.is_taken() {
                return Ok(count > 0);
            }
        }
        Ok(true)
    }

    /// The head, at a place, numbers the writes that come from each member, from slot 0 up: whether there were any.
    fn number_all(&mut self, at: usize, printed: &mut Printed) -> Result<bool, Refusal> {
        let mut numbered = false;
        for from in self.slots()? {
            numbered = self.repeat(at, Act::Number { from }, printed)? || numbered;
        }
        Ok(numbered)
    }

    /// The member at a place takes the messages that come from each member, from slot 0 up: whether there were any.
    fn pass_all(&mut self, at: usize, printed: &mut Printed) -> Result<bool, Refusal> {
        let mut passed = false;
        for from in self.slots()? {
            passed = self.repeat(at, Act::Pass { from }, printed)? || passed;
        }
        Ok(passed)
    }

    /// The slots at which members are, from 0 up.
    fn slots(&self) -> Result<Vec<Slot>, Refusal> {
        let mut slots = Vec::new(self.alloc);
        for number in 0..Slot::COUNT {
            match Slot::new(number) {
                Some(slot) if self.place(u64::from(number)).is_some() => slots.push(slot)?,
                _ => {}
            }
        }
        Ok(slots)
    }

    /// The tail raises the front to its last applied write and takes it, unless it has done that in this epoch, or holds the front: whether it
    /// did.
    fn raise_all(&mut self, at: usize, printed: &mut Printed) -> Result<bool, Refusal> {
        let is_behind = self
            .progress(at)
            .is_some_and(|member| member.is_tail && member.applied > 0)
            && self.last_raise(at) != self.next_raise(at);
        if !is_behind {
            return Ok(false);
        }
        self.raise(at, printed)?;
        Ok(self.last_raise(at) == self.next_raise(at))
    }

    /// Up to which write the tail at a place would raise the front.
    fn next_raise(&self, at: usize) -> Option<Raise> {
        let world = &self.managed.as_ref()?.world;
        if at >= world.len() {
            return None;
        }
        Some(Raise {
            epoch: world.recorded().epoch().number(),
            number: world.applied(at),
        })
    }

    /// Up to which write the member at a place raised it last, if it did.
    fn last_raise(&self, at: usize) -> Option<Raise> {
        let slot = self.slot(at)?;
        self.raised.get(&slot).copied()
    }

    /// Notes that the member at a place raised the front.
    pub(crate) fn note_raised(&mut self, at: usize) -> Result<(), Refusal> {
        if let (Some(slot), Some(raise)) = (self.slot(at), self.next_raise(at)) {
            self.raised.insert(slot, raise)?;
        }
        Ok(())
    }

    /// The member commits the known writes that aren't durable yet, and posts each receipt: whether there were any.
    fn commit_all(&mut self, at: usize, printed: &mut Printed) -> Result<bool, Refusal> {
        for count in 0..u64::MAX {
            let is_behind = self
                .progress(at)
                .is_some_and(|member| member.durable < member.known);
            if !is_behind {
                return Ok(count > 0);
            }
            self.commit(at, GROUP, printed)?;
            self.step_at(at, Act::Post, printed)?;
        }
        Ok(true)
    }
}
