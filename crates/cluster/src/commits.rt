//! How commits go, and what makes room for them.
ghost use Rattle.std.specs.Prelude.{◌≤◌, ◌+◌};

use crate::cluster::Cluster;
use crate::pace::{MANY_HOMES, Pace};
use crate::pause::{Pause, Point};
use chain_core::Refusal;
use disk_model::HalvedDisk;
use gate_journal::Slot as Place;
use local_store::{CommitWork, Journaled, StoreLike};
use mail::Given;
use member::Agreed;
use std::sync::Wait;
use std::thread;

/// How many writes a commit takes at most.
const MOST: u64 = 1_024;

impl<D: HalvedDisk + Drop, J: Agreed> Cluster<D, J> {
    /// Commits at a slot, until its bell is closed and nothing is to be committed; and pauses at its points.
    pub(crate) fn commit_all<R: Wait, P: Pause>(&self, rt: &R, place: Place, pause: &P) {
        let slot = self.at(place);
        let mut buffer = Vec::new(self.alloc);
        let mut pace = Pace::new();
        for _ in rt.forever() {
            let count = slot.bell.count(rt);
            // What became due before the bell was closed is seen by a look that begins behind that.
            let is_closed = slot.bell.is_closed(rt);
            let was_due = self.commit_once(rt, place, &mut buffer, &mut pace, pause);
            self.pace_homes(rt, place, &mut pace);
            if was_due {
                continue;
            }
            if is_closed {
                break;
            }
            slot.bell.wait_past(rt, count);
        }
    }

    /// Journals a commit, if one is due, and ends it; or makes room for one. Whether there was anything to do.
    fn commit_once<R: Wait, P: Pause>(
        &self,
        rt: &R,
        place: Place,
        buffer: &mut Vec<u8>,
        pace: &mut Pace,
        pause: &P,
    ) -> bool {
        let mut given = Given::new(self.alloc);
        let mut behind = Given::new(self.alloc);
        if !given.make_room(3) || !behind.make_room(2) {
            // Memory ran out: it is tried again.
            self.mail.post(rt, given);
            self.mail.post(rt, behind);
            thread::yield_now();
            return true;
        }
        pause.at(rt, Point::Committing(place));
        let begun = self.begin(rt, place, &mut given);
        self.mail.post(rt, given);
        let was_due = match begun {
            Ok(Some(work)) => {
                // No lock is held while the disk writes and syncs.
                let done = work.journal(buffer);
                self.finish(rt, place, &mut behind, done, pace, pause);
                true
            }
            Err(Refusal::Full) => self.make_room(rt, place),
            Ok(None) | Err(_) => false,
        };
        self.mail.post(rt, behind);
        was_due
    }

    /// Begins a commit, and lends it out; and pays what waits for a floor.
    fn begin<R: Wait>(
        &self,
        rt: &R,
        place: Place,
        given: &mut Given,
    ) -> Result<Option<CommitWork<D::Log, J>>, Refusal>
        requires room { 3 ≤ given.old.room }
    {
        let slot = self.at(place);
        let Some(seated) = &mut *slot.seated.lock(rt) else {
            return Ok(None);
        };
        let begun = seated.begin(given, MOST);
        self.settle_floor(rt, slot, seated, given);
        begun
    }

    /// Ends a commit, and tells all that a floor may have risen, and that a table may have room.
    fn finish<R: Wait, P: Pause>(
        &self,
        rt: &R,
        place: Place,
        given: &mut Given,
        done: Journaled<D::Log, J>,
        pace: &mut Pace,
        pause: &P,
    )
        requires room { 2 ≤ given.old.room }
    {
        self.finish_under(rt, place, given, done, pace);
        pause.at(rt, Point::Posted(place));
        self.tell_floors(rt);
        self.carry_stuck(rt, pause);
    }

    fn finish_under<R: Wait>(
        &self,
        rt: &R,
        place: Place,
        given: &mut Given,
        done: Journaled<D::Log, J>,
        pace: &mut Pace,
    )
        requires room { 2 ≤ given.old.room }
    {
        let slot = self.at(place);
        if let Some(seated) = &mut *slot.seated.lock(rt) {
            let before = seated.store().left();
            // What isn't this member's commit is of one that has left: its log goes with it.
            let _ = seated.finish(given, &self.board, done);
            let area = u64::from(seated.store().geometry().area);
            pace.note_commit(before, seated.store().left(), area);
            self.settle_floor(rt, slot, seated, given);
        }
    }

    /// A floor may have risen: who waits for one looks.
    pub(crate) fn tell_floors<R: Wait>(&self, rt: &R) {
        for slot in &self.slots {
            slot.tell_floor(rt);
        }
    }

    /// Writes pending blocks home as many are owed, and lets the lock go between device calls.
    fn pace_homes<R: Wait>(&self, rt: &R, place: Place, pace: &mut Pace) {
        for _ in rt.forever() {
            if !pace.is_due() {
                break;
            }
            pace.note_run(self.write_homes(rt, place));
        }
    }

    /// Writes all pending blocks home, as many at once as go, and then empties the journal area. Whether it did.
    fn make_room<R: Wait>(&self, rt: &R, place: Place) -> bool {
        for _ in rt.forever() {
            if self.write_homes(rt, place) == 0 {
                break;
            }
        }
        self.empty_area(rt, place)
    }

    /// Writes pending blocks home, by one device call: how many.
    fn write_homes<R: Wait>(&self, rt: &R, place: Place) -> u32 {
        let mut given = Given::new(self.alloc);
        let homes = self.write_homes_under(rt, place, &mut given);
        self.mail.post(rt, given);
        homes
    }

    fn write_homes_under<R: Wait>(&self, rt: &R, place: Place, given: &mut Given) -> u32 {
        if !given.make_room(2) {
            return 0;
        }
        let slot = self.at(place);
        let Some(seated) = &mut *slot.seated.lock(rt) else {
            return 0;
        };
        let homes = match seated.tick_run(given, MANY_HOMES) {
            Ok(Some(run)) => run.count,
            Ok(None) | Err(_) => 0,
        };
        self.settle_floor(rt, slot, seated, given);
        homes
    }

    /// Makes a checkpoint, which writes home what is pending still. Whether it did.
    fn empty_area<R: Wait>(&self, rt: &R, place: Place) -> bool {
        let mut given = Given::new(self.alloc);
        let emptied = self.empty_area_under(rt, place, &mut given);
        self.mail.post(rt, given);
        emptied
    }

    fn empty_area_under<R: Wait>(&self, rt: &R, place: Place, given: &mut Given) -> bool {
        if !given.make_room(2) {
            return false;
        }
        let slot = self.at(place);
        let Some(seated) = &mut *slot.seated.lock(rt) else {
            return false;
        };
        let emptied = seated.checkpoint(given).unwrap_or(false);
        self.settle_floor(rt, slot, seated, given);
        emptied
    }
}
