//! What the chain's manager asks of its members.
use crate::cluster::Cluster;
use crate::pause::NoPause;
use crate::seated::Seated;
use chain_steps::Cause;
use configurations::Record;
use disk_model::HalvedDisk;
use gate_journal::Slot as Place;
use local_store::StoreLike;
use mail::{Bell, Given};
use member::Agreed;
use std::alloc::AllocError;
use std::mem;
use std::sync::Wait;

/// Who is told why a member has stopped.
pub trait Witness<D> {
    /// The member at this slot has stopped. This is its disk, or while its log is lent, the home of it.
    fn note_stop(&mut self, place: Place, cause: Cause, disk: &D);
}

impl<D: HalvedDisk + Drop, J: Agreed> Cluster<D, J> {
    /// Rings as a member is seen to have stopped, and is closed with the crew.
    pub fn changes(&self) -> &Bell {
        &self.changes
    }

    /// Whether a member sits there that has stopped.
    pub fn has_stopped<R: Wait>(&self, rt: &R, place: Place) -> bool {
        match &*self.at(place).seated.lock(rt) {
            Some(seated) => seated.has_stopped(),
            None => false,
        }
    }

    /// Tells why the member there has stopped, if one sits there, and it has. Its lock is held meanwhile.
    pub fn show_stop<R: Wait, W: Witness<D>>(&self, rt: &R, place: Place, witness: &mut W) {
        if let Some(seated) = &*self.at(place).seated.lock(rt)
            && let Some(cause) = seated.member().node().stopped()
        {
            witness.note_stop(place, cause, seated.store().disk());
        }
    }

    /// Tells the member there its chain's next record, and carries what it sends then, and what waits elsewhere for one that was told. False
    /// where no member sits there, or it doesn't take the record, since it has stopped or isn't in the chain. Where memory runs out it isn't
    /// told.
    pub fn tell<R: Wait>(&self, rt: &R, place: Place, chain: Record) -> Result<bool, AllocError> {
        let mut given = Given::new(self.alloc);
        let told = self.tell_under(rt, place, &mut given, chain);
        self.mail.post(rt, given);
        self.carry(rt, place, &NoPause);
        self.carry_stuck(rt, &NoPause);
        told
    }

    fn tell_under<R: Wait>(
        &self,
        rt: &R,
        place: Place,
        given: &mut Given,
        chain: Record,
    ) -> Result<bool, AllocError> {
        if !given.make_room(3) {
            return Err(AllocError);
        }
        let slot = self.at(place);
        let Some(seated) = &mut *slot.seated.lock(rt) else {
            return Ok(false);
        };
        let told = seated.told(given, chain).is_ok();
        seated.raise(given, &self.board);
        self.settle(rt, slot, seated, given);
        Ok(told)
    }

    /// A slot is counted no longer: floors may have risen.
    pub fn let_floors_rise<R: Wait>(&self, rt: &R) {
        self.tell_floors(rt);
    }

    /// Stops the member there, if one sits there. Where memory runs out it isn't stopped.
    pub fn stop<R: Wait>(&self, rt: &R, place: Place) -> Result<(), AllocError> {
        let mut given = Given::new(self.alloc);
        let stopped = self.stop_under(rt, place, &mut given);
        self.mail.post(rt, given);
        self.changes.ring(rt);
        stopped
    }

    fn stop_under<R: Wait>(
        &self,
        rt: &R,
        place: Place,
        given: &mut Given,
    ) -> Result<(), AllocError> {
        if !given.make_room(1) {
            return Err(AllocError);
        }
        if let Some(seated) = &mut *self.at(place).seated.lock(rt) {
            seated.stop(given);
        }
        Ok(())
    }

    /// Seats a member, for the one that sat there.
    pub fn put_in<R: Wait>(
        &self,
        rt: &R,
        place: Place,
        seated: Seated<D, J>,
    ) -> Option<Seated<D, J>> {
        mem::replace(&mut *self.at(place).seated.lock(rt), Some(seated))
    }

    /// Takes the member there out, if it has stopped and its log isn't on its way.
    pub fn take_out<R: Wait>(&self, rt: &R, place: Place) -> Option<Seated<D, J>> {
        let mut there = self.at(place).seated.lock(rt);
        match &*there {
            Some(seated) if seated.has_stopped() && !seated.store().is_lent() => there.take(),
            _ => None,
        }
    }
}
