//! Commands of the manager.
use crate::printed::Printed;
use crate::refusal::Refusal;
use crate::sim::Sim;
use crate::steps::Outcome;
use disk_model::Event;
use gate_journal::Slot;
use life::{Act, Answer, Deed, MEMORY, ManagerAct};
use manager::Order;

impl Sim {
    /// A device call to come of the configuration's disk fails, or the world stops in it.
    pub(crate) fn arm_config(&mut self, call: u64, event: Event) -> Result<(), Refusal> {
        match &mut self.managed {
            Some(managed) if call > 0 => {
                managed.management.arm(event)?;
                match &mut self.kept {
                    Some(kept) => kept.add_event(Deed::ArmConfig { event }),
                    None => Ok(()),
                }
            }
            _ => Ok(()),
        }
    }

    /// The manager does something. Of what meets its stop at a device call, nothing is added. It does nothing without a world, or behind such
    /// a stop.
    fn manage(&mut self, act: ManagerAct, printed: &mut Printed) -> Result<Outcome, Refusal> {
        let Some(managed) = &mut self.managed else {
            return Ok(Outcome::Skipped);
        };
        if self.stopped {
            return Ok(Outcome::Skipped);
        }
        let answer = life::manage(self.alloc, managed, act);
        managed.note();
        let is_stopped = life::has_met_stop(managed);
        self.stopped = is_stopped;
        self.note_act(act, &answer)?;
        if let Some(kept) = &mut self.kept {
            let answer = if is_stopped { None } else { Some(&answer) };
            kept.add_deed(Deed::Manage(act), answer)?;
        }
        match answer {
            Answer::Refused(MEMORY) => Err(Refusal::Memory),
            answer => self.add_answer(answer, printed),
        }
    }

    /// The manager begins the removal of the stopped member at a slot, or refuses it.
    pub(crate) fn remove(&mut self, member: u64, printed: &mut Printed) -> Result<(), Refusal> {
        self.manage(ManagerAct::Remove { slot: member }, printed)?
            .show(printed)
    }

    /// It begins the joining of a new disk at a slot, or refuses it.
    pub(crate) fn join(&mut self, slot: u64, printed: &mut Printed) -> Result<(), Refusal> {
        self.awaited = None;
        self.manage(ManagerAct::Join { slot }, printed)?
            .show(printed)
    }

    /// It abandons the joining under way, or refuses that.
    pub(crate) fn abandon(&mut self, printed: &mut Printed) -> Result<(), Refusal> {
        self.manage(ManagerAct::Abandon, printed)?.show(printed)
    }

    /// Carries out the manager's next order, or all of them, until one isn't done.
    pub(crate) fn carry_out(&mut self, all: bool, printed: &mut Printed) -> Result<(), Refusal> {
        for _ in 0..u64::MAX {
            if !self.carry_out_next(printed)? || !all {
                break;
            }
        }
        Ok(())
    }

    /// Carries out the next order: whether there was one, and it was done.
    fn carry_out_next(&mut self, printed: &mut Printed) -> Result<bool, Refusal> {
        let Some(managed) = &self.managed else {
            return Ok(false);
        };
        let order = managed.management.next();
        if self.stopped || order == Order::Idle {
            return Ok(false);
        }
        printed.add_order(order)?;
        match order {
            Order::Record => self.record(printed),
            Order::CountOut(_) => self.carry(ManagerAct::CountOut, printed),
            Order::Tell(_) => self.carry(ManagerAct::Tell, printed),
            Order::Attach(slot) => self.attach(slot, printed),
            Order::Copy(_) => self.give_all(ManagerAct::Copy, order, printed),
            Order::Hold(_) => self.carry(ManagerAct::Hold, printed),
            Order::Rest(_) => self.give_all(ManagerAct::Rest, order, printed),
            Order::CountIn(_) => self.carry(ManagerAct::CountIn, printed),
            Order::Idle => Ok(false),
        }
    }

    /// A new disk is attached at a slot. A member that stands there was removed: what is asked of it is refused, and it is forgotten.
    fn attach(&mut self, slot: Slot, printed: &mut Printed) -> Result<bool, Refusal> {
        if let Some(at) = self.place(u64::from(slot.number())) {
            self.take_all(at, printed)?;
            self.manage(ManagerAct::Forget { at }, printed)?;
            self.faulty.retain(|faulty| *faulty != slot);
        }
        let event = self.awaited.take();
        self.carry(ManagerAct::Attach { event }, printed)
    }

    /// Whether a disk is attached at the slot next.
    pub(crate) fn awaits(&self, slot: u64) -> bool {
        let Some(managed) = &self.managed else {
            return false;
        };
        match managed.management.next() {
            Order::Attach(awaited) => u64::from(awaited.number()) == slot,
            _ => false,
        }
    }

    /// The member at a place takes all that its sessions ask.
    fn take_all(&mut self, at: usize, printed: &mut Printed) -> Result<(), Refusal> {
        for _ in 0..u64::MAX {
            if !self.step_at(at, Act::Take, printed)?.is_taken() {
                break;
            }
        }
        Ok(())
    }

    /// An order is carried out by one act: whether that was done. A refusal is added.
    fn carry(&mut self, act: ManagerAct, printed: &mut Printed) -> Result<bool, Refusal> {
        let outcome = self.manage(act, printed)?;
        outcome.show(printed)?;
        Ok(outcome.is_taken())
    }

    /// One by which a disk is given something is carried out by as many as it takes.
    fn give_all(
        &mut self,
        act: ManagerAct,
        order: Order,
        printed: &mut Printed,
    ) -> Result<bool, Refusal> {
        for _ in 0..u64::MAX {
            if !self.carry(act, printed)? {
                return Ok(false);
            }
            if !self.is_next(order) {
                return Ok(true);
            }
        }
        Ok(false)
    }

    /// Whether this is the manager's next order.
    fn is_next(&self, order: Order) -> bool {
        self.managed
            .as_ref()
            .is_some_and(|managed| managed.management.next() == order)
    }

    /// The next record is written, and is the recorded one: whether that was done. A refusal is added.
    fn record(&mut self, printed: &mut Printed) -> Result<bool, Refusal> {
        self.manage(ManagerAct::BeginRecord, printed)?;
        self.carry(ManagerAct::EndRecord, printed)
    }
}
