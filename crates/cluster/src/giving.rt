//! What the chain's manager has a tail give to a joiner.
ghost use Rattle.std.specs.Prelude.{IfOk, IfSome};
ghost use Rattle.rejoin_catchup.specs.Course.{IsWhole, IsWithin};

use crate::cluster::Cluster;
use crate::copying::NotGiven;
use crate::pause::NoPause;
use disk_model::HalvedDisk;
use gate_journal::Slot as Place;
use mail::Given;
use member::Agreed;
use rejoin_catchup::Piece;
use std::sync::Wait;

impl<D: HalvedDisk + Drop, J: Agreed> Cluster<D, J> {
    /// The member there begins to give its volume to a joiner. False where none sits there, or memory runs out.
    pub fn begin_copy<R: Wait>(&self, rt: &R, place: Place) -> bool {
        match &mut *self.at(place).seated.lock(rt) {
            Some(seated) => seated.begin_copy(self.alloc).is_ok(),
            None => false,
        }
    }

    /// The next piece for the joiner: of the blocks that weren't given yet, or where `again` says so, of those that were written since, too.
    /// `None` where none of these is due.
    pub fn give_next<R: Wait>(
        &self,
        rt: &R,
        place: Place,
        again: bool,
    ) -> Result<Option<Piece>, NotGiven>
        ensures { IfOk result (λ r. IfSome r (λ piece. IsWhole piece × IsWithin piece)) }
    {
        let mut given = Given::new(self.alloc);
        let next = self.give_next_under(rt, place, &mut given, again);
        self.mail.post(rt, given);
        next
    }

    fn give_next_under<R: Wait>(
        &self,
        rt: &R,
        place: Place,
        given: &mut Given,
        again: bool,
    ) -> Result<Option<Piece>, NotGiven>
        ensures { IfOk result (λ r. IfSome r (λ piece. IsWhole piece × IsWithin piece)) }
    {
        if !given.make_room(2) {
            return Err(NotGiven::Memory);
        }
        let slot = self.at(place);
        let Some(seated) = &mut *slot.seated.lock(rt) else {
            return Err(NotGiven::Stopped);
        };
        if !again && seated.has_given_all() {
            return Ok(None);
        }
        let next = seated.give_next(given);
        self.settle_floor(rt, slot, seated, given);
        next
    }

    /// The member there holds the front for the joiner. Whether it does.
    pub fn hold<R: Wait>(&self, rt: &R, place: Place) -> bool {
        let mut given = Given::new(self.alloc);
        let holds = self.hold_under(rt, place, &mut given);
        self.mail.post(rt, given);
        self.carry(rt, place, &NoPause);
        holds
    }

    fn hold_under<R: Wait>(&self, rt: &R, place: Place, given: &mut Given) -> bool {
        if !given.make_room(2) {
            return false;
        }
        let slot = self.at(place);
        let Some(seated) = &mut *slot.seated.lock(rt) else {
            return false;
        };
        seated.hold(given, &self.board);
        self.settle(rt, slot, seated, given);
        seated.member().node().holds()
    }

    /// The end, once no block is due: what was given is the volume at the front that the member there holds.
    pub fn end_copy<R: Wait>(&self, rt: &R, place: Place) -> Result<Piece, NotGiven>
        ensures { IfOk result (λ piece. IsWhole piece × IsWithin piece) }
    {
        match &mut *self.at(place).seated.lock(rt) {
            Some(seated) => seated.end_copy(),
            None => Err(NotGiven::Stopped),
        }
    }

    /// The member there gives nothing any more.
    pub fn drop_copy<R: Wait>(&self, rt: &R, place: Place) {
        if let Some(seated) = &mut *self.at(place).seated.lock(rt) {
            seated.drop_copy();
        }
    }
}
