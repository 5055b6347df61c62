//! The chain, as the threads of sessions ask of it.
ghost use Rattle.std.specs.Prelude.{◌≡◌, All, Some};
ghost use Rattle.export.specs.Volume.{HasTaken, IsForVolume};

use crate::cluster::Cluster;
use crate::pause::NoPause;
use crate::places::Places;
use board::Board;
use disk_model::HalvedDisk;
use export::Volume;
use flush_barrier::Reply;
use gate_journal::Slot as Place;
use mail::MailRoom;
use member::Agreed;
use nbd_session::Demand;
use std::sync::Wait;

impl<D: HalvedDisk + Drop, J: Agreed> Volume for Cluster<D, J> {
    ghost board = { J.board };

    ghost size = { J.size };

    fn send<R: Wait>(&self, rt: &R, place: Place, demands: &mut Vec<Demand>) -> Option<Reply> {
        self.take_pausing(rt, place, demands, &NoPause)
    }

    fn member<R: Wait>(&self, rt: &R, n: u64) -> Place {
        self.nth_member(rt, n)
    }

    fn mail(&self) -> &MailRoom {
        &self.mail
    }

    fn board(&self) -> &Board {
        &self.board
    }

    fn size(&self) -> u64 {
        self.size
    }
}

impl<D: HalvedDisk + Drop, J: Agreed> Cluster<D, J> {
    /// The n-th of the members that run, in the slots' order, modulo their number. Slot 0 where none runs.
    fn nth_member<R: Wait>(&self, rt: &R, n: u64) -> Place {
        let mut members = self.running(rt);
        for _ in 0..n % u64::from(members.len().max(1)) {
            members.take();
        }
        match (members.take(), Place::new(0)) {
            (Some(place), _) | (None, Some(place)) => place,
            (None, None) => unreachable!(),
        }
    }

    /// The slots whose members run.
    fn running<R: Wait>(&self, rt: &R) -> Places {
        let mut running = Places::none();
        for number in 0..Place::COUNT {
            if let Some(place) = Place::new(number)
                && self.runs_at(rt, place)
            {
                running.add(place);
            }
        }
        running
    }

    /// Whether a member sits there that runs.
    fn runs_at<R: Wait>(&self, rt: &R, place: Place) -> bool {
        match &*self.at(place).seated.lock(rt) {
            Some(seated) => !seated.has_stopped(),
            None => false,
        }
    }
}
