//! Commands of members.
use crate::printed::Printed;
use crate::refusal::Refusal;
use crate::script::MemberAct;
use crate::sim::Sim;
use crate::steps::Outcome;
use life::Act;

/// The number of the refusal of a batch that doesn't fit into the journal area.
const FULL: u16 = 121;

impl Sim {
    /// The member at the slot of a number does what it is told. One that is none does nothing.
    pub(crate) fn act(
        &mut self,
        act: MemberAct,
        member: u64,
        printed: &mut Printed,
    ) -> Result<(), Refusal> {
        let Some(at) = self.place(member) else {
            return Ok(());
        };
        let outcome = match act {
            MemberAct::Take => self.step_at(at, Act::Take, printed)?,
            MemberAct::Number => self.number(at, printed)?,
            MemberAct::Raise => self.raise(at, printed)?,
            MemberAct::Begin { most } => self.step_at(at, Act::BeginCommits { most }, printed)?,
            MemberAct::End => self.step_at(at, Act::EndCommit, printed)?,
            MemberAct::Commit => self.commit(at, 1, printed)?,
            MemberAct::Post => self.step_at(at, Act::Post, printed)?,
            MemberAct::Tick => self.step_at(at, Act::Tick, printed)?,
            MemberAct::Checkpoint => self.step_at(at, Act::Checkpoint, printed)?,
            MemberAct::Front => self.front(at, printed)?,
            MemberAct::Crew => self.step_at(at, Act::Crew, printed)?,
            MemberAct::Settle => self.settle(at, printed)?,
            MemberAct::Floor => self.floor(at, printed)?,
            MemberAct::Stop => self.step_at(at, Act::Stop, printed)?,
        };
        outcome.show(printed)
    }

    /// The head takes the first write that comes from the member at a place.
    pub(crate) fn number(&mut self, at: usize, printed: &mut Printed) -> Result<Outcome, Refusal> {
        match (self.slot(at), self.head()) {
            (Some(from), Some(head)) => self.step_at(head, Act::Number { from }, printed),
            _ => Ok(Outcome::Skipped),
        }
    }

    /// The member at a slot takes the first message that comes from the member at another. One that is none does nothing.
    pub(crate) fn pass(
        &mut self,
        from: u64,
        to: u64,
        printed: &mut Printed,
    ) -> Result<(), Refusal> {
        let (Some(from), Some(to)) = (self.place(from), self.place(to)) else {
            return Ok(());
        };
        let Some(from) = self.slot(from) else {
            return Ok(());
        };
        self.step_at(to, Act::Pass { from }, printed)?.show(printed)
    }

    /// The tail raises the front, and takes it.
    pub(crate) fn raise(&mut self, at: usize, printed: &mut Printed) -> Result<Outcome, Refusal> {
        if self.step_at(at, Act::Raise, printed)?.is_taken() {
            self.note_raised(at)?;
        }
        self.step_at(at, Act::Raised, printed)
    }

    /// A commit of at most so many writes is begun, behind a checkpoint where they don't fit, and ended.
    pub(crate) fn commit(
        &mut self,
        at: usize,
        most: u64,
        printed: &mut Printed,
    ) -> Result<Outcome, Refusal> {
        let begun = self.step_at(at, Act::BeginCommits { most }, printed)?;
        if matches!(begun, Outcome::Refused(FULL)) {
            self.step_at(at, Act::Checkpoint, printed)?;
            self.step_at(at, Act::BeginCommits { most }, printed)?;
        }
        self.step_at(at, Act::EndCommit, printed)
    }

    /// The member looks the front up and goes on with it, and keeps it for its crew.
    pub(crate) fn front(&mut self, at: usize, printed: &mut Printed) -> Result<Outcome, Refusal> {
        self.step_at(at, Act::Look, printed)?;
        let answered = self.step_at(at, Act::AnswerFront, printed)?;
        self.step_at(at, Act::FindFront, printed)?;
        Ok(answered)
    }

    /// The member looks the gauges of its crew up, and answers with their floor.
    pub(crate) fn settle(&mut self, at: usize, printed: &mut Printed) -> Result<Outcome, Refusal> {
        for _ in 0..u64::MAX {
            if !self.step_at(at, Act::Gauge, printed)?.is_taken() {
                break;
            }
        }
        self.step_at(at, Act::Settle, printed)
    }

    /// The three of them: whether the front or the floor answered anything.
    pub(crate) fn floor(&mut self, at: usize, printed: &mut Printed) -> Result<Outcome, Refusal> {
        let answered = self.front(at, printed)?;
        self.step_at(at, Act::Crew, printed)?;
        let settled = self.settle(at, printed)?;
        if matches!(answered, Outcome::Heard) {
            return Ok(answered);
        }
        Ok(settled)
    }
}
