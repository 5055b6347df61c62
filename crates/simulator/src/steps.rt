//! Steps of the world, and what they put out.
use crate::printed::Printed;
use crate::refusal::Refusal;
use crate::sim::Sim;
use chain_steps::Cause;
use clients::Output;
use disk_model::DiskError;
use life::{Act, Answer, Deed, ManagedWorld, Step};
use world::Told;

/// What became of a step.
#[derive(Clone, Copy)]
pub(crate) enum Outcome {
    /// It was taken, and nobody was sent anything.
    Quiet,
    /// It was taken, and a client was sent something.
    Heard,
    /// It was refused with this number.
    Refused(u16),
    /// There was no such step.
    Skipped,
}

impl Outcome {
    /// Whether the step was taken.
    pub(crate) fn is_taken(self) -> bool {
        matches!(self, Outcome::Quiet | Outcome::Heard)
    }

    /// Adds the refusal, if it is one.
    pub(crate) fn show(self, printed: &mut Printed) -> Result<(), Refusal> {
        match self {
            Outcome::Refused(number) => printed.add_refusal(number),
            Outcome::Quiet | Outcome::Heard | Outcome::Skipped => Ok(()),
        }
    }
}

impl Sim {
    /// Plays a step, and adds what it puts out; of one in which a device call meets its stop, nothing. There is no step
    /// without a world, or behind such a stop.
    pub(crate) fn step(&mut self, step: Step, printed: &mut Printed) -> Result<Outcome, Refusal> {
        let Some(managed) = &mut self.managed else {
            return Ok(Outcome::Skipped);
        };
        if self.stopped {
            return Ok(Outcome::Skipped);
        }
        let answer = life::play(self.alloc, &mut managed.world, &step);
        managed.note();
        self.note_step(&step, &answer)?;
        self.look_at_devices(printed)?;
        let is_stopped = self.stopped;
        if let Some(kept) = &mut self.kept {
            let answer = if is_stopped { None } else { Some(&answer) };
            kept.add_deed(Deed::Step(step), answer)?;
        }
        self.add_answer(answer, printed)
    }

    /// Adds what an answer put out; where a device call met its stop, nothing.
    pub(crate) fn add_answer(
        &self,
        answer: Answer,
        printed: &mut Printed,
    ) -> Result<Outcome, Refusal> {
        match answer {
            _ if self.stopped => Ok(Outcome::Skipped),
            Answer::Taken(told) => self.add_told(told, printed),
            Answer::HandedOut(output) => {
                self.add_output(&output, printed)?;
                Ok(Outcome::Heard)
            }
            Answer::Refused(number) => Ok(Outcome::Refused(number)),
            Answer::Skipped => Ok(Outcome::Skipped),
        }
    }

    /// Adds what clients were told.
    pub(crate) fn add_told(&self, told: Told, printed: &mut Printed) -> Result<Outcome, Refusal> {
        match told {
            Told::Out(outputs) => {
                let mut outcome = Outcome::Quiet;
                for output in outputs {
                    outcome = Outcome::Heard;
                    self.add_reply(&output, printed)?;
                }
                Ok(outcome)
            }
            Told::Lost(outputs) => {
                drop(outputs);
                Err(Refusal::Memory)
            }
            Told::Withheld => Err(Refusal::Memory),
        }
    }

    /// The member at a place acts.
    pub(crate) fn step_at(
        &mut self,
        at: usize,
        act: Act,
        printed: &mut Printed,
    ) -> Result<Outcome, Refusal> {
        self.step(Step::Member { at, act }, printed)
    }

    /// Sees whether a device call met its stop, and adds the fault of a member's device that wasn't told before.
    fn look_at_devices(&mut self, printed: &mut Printed) -> Result<(), Refusal> {
        let Some(ManagedWorld { world, .. }) = &self.managed else {
            return Ok(());
        };
        for at in 0..world.len() {
            let (slot, cause) = (world.slot(at), world.cause(at));
            if world.store(at).disk().is_stopped() {
                self.stopped = true;
            }
            match cause {
                Some(Cause::Device(fault)) if !self.faulty.contains(&slot) => {
                    self.faulty.push(slot)?;
                    if let Some(number) = fault.number() {
                        printed.add_fault(slot, number)?;
                    }
                }
                _ => {}
            }
        }
        Ok(())
    }

    /// Adds the reply that a member gave.
    fn add_reply(&self, output: &Output, printed: &mut Printed) -> Result<(), Refusal> {
        if self.is_spoken_for(output.session) {
            printed.add_reply(output.session, &output.bytes)
        } else {
            printed.add_raw(output.session, &output.bytes, output.closed)
        }
    }

    /// Adds what waited in a session. Behind a negotiation these are replies without data, since a member's reply doesn't wait.
    fn add_output(&self, output: &Output, printed: &mut Printed) -> Result<(), Refusal> {
        if self.is_spoken_for(output.session) {
            printed.add_bare_replies(output.session, &output.bytes)
        } else {
            printed.add_raw(output.session, &output.bytes, output.closed)
        }
    }
}
