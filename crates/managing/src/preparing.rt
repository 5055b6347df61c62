//! Joinings, until the record.
ghost use Rattle.rejoin_catchup.specs.Course.{IsWhole, IsWithin};

use crate::host::Host;
use crate::joiner::Joiner;
use crate::managing::Managing;
use crate::spare::Spare;
use cluster::{Cluster, NotGiven};
use disk_model::{Disk, HalvedDisk};
use gate_journal::Slot;
use local_store::Store;
use manager::{Order, Refusal};
use member::Agreed;
use rejoin_catchup::Piece;
use std::sync::Wait;
use std::{mem, thread};

/// How many pieces are given before the manager looks at anything else.
const PIECES: u32 = 64;

/// What came of giving pieces.
#[derive(Clone, Copy, Debug, PartialEq, Eq)]
enum Gave {
    /// Some were given, and more are due.
    Some,
    /// None is due.
    All,
    /// The member gives no more.
    NotGiven,
    /// The joiner's disk takes no more.
    NotTaken,
}

impl<D: HalvedDisk + Drop, J: Agreed, C: Disk + Drop, H: Host<D>> Managing<Store<D>, D, J, C, H> {
    /// Begins the joining of a slot, once who sat there before is gone. Whether it did.
    pub(crate) fn begin_joining<R: Wait>(
        &mut self,
        rt: &R,
        cluster: &Cluster<D, J>,
        slot: Slot,
    ) -> bool {
        if self.is_member(slot) {
            self.wanted[usize::from(slot.number())] = false;
            self.host.note_member(slot);
            return false;
        }
        if !self.is_free(rt, cluster, slot) {
            return false;
        }
        match self.management.join(slot) {
            Ok(()) => {
                self.joining = Some(slot);
                true
            }
            Err(Refusal::Memory) => {
                thread::yield_now();
                true
            }
            Err(_) => false,
        }
    }

    /// Whether nobody sits at a slot, and there is a seat for the next one: a member that has stopped is taken out, and what it leaves is the
    /// next one's.
    fn is_free<R: Wait>(&mut self, rt: &R, cluster: &Cluster<D, J>, slot: Slot) -> bool {
        let number = usize::from(slot.number());
        if let Some(seated) = cluster.take_out(rt, slot) {
            let (store, seat) = seated.end();
            // Its disk is closed.
            let (_, lender, borrower) = store.into_parts();
            if let Some(borrower) = borrower {
                self.spares[number] = Some(Spare::new(seat, lender, borrower));
            }
        }
        self.spares[number].is_some()
    }

    /// The joiner's disk begins to take the volume, and the tail to give it.
    pub(crate) fn attach<R: Wait>(&mut self, rt: &R, cluster: &Cluster<D, J>, slot: Slot) -> bool {
        let Some(disk) = self.host.disk(slot) else {
            return self.give_up(slot, false);
        };
        let incarnation = self.management.chain().epoch().number().saturating_add(1);
        let Some(joiner) = Joiner::start(self.alloc, disk, slot, incarnation, self.geometry) else {
            return self.give_up(slot, false);
        };
        self.joiner = joiner;
        let begun = self.tail().is_some_and(|tail| cluster.begin_copy(rt, tail));
        if !begun {
            return self.give_up(slot, true);
        }
        self.management.prepared(Order::Attach(slot))
    }

    /// The joiner is given blocks; once each was given, the order is carried out.
    pub(crate) fn copy<R: Wait>(&mut self, rt: &R, cluster: &Cluster<D, J>, slot: Slot) -> bool {
        match self.give_some(rt, cluster, false) {
            Gave::Some => true,
            Gave::All => self.management.prepared(Order::Copy(slot)),
            Gave::NotGiven => self.give_up(slot, true),
            Gave::NotTaken => self.give_up(slot, false),
        }
    }

    /// The tail holds the front.
    pub(crate) fn hold<R: Wait>(&mut self, rt: &R, cluster: &Cluster<D, J>, slot: Slot) -> bool {
        let holds = self.tail().is_some_and(|tail| cluster.hold(rt, tail));
        if holds {
            self.management.prepared(Order::Hold(slot))
        } else {
            self.give_up(slot, true)
        }
    }

    /// The joiner is given the blocks that were written meanwhile, and then the end.
    pub(crate) fn give_rest<R: Wait>(
        &mut self,
        rt: &R,
        cluster: &Cluster<D, J>,
        slot: Slot,
    ) -> bool {
        match self.give_some(rt, cluster, true) {
            Gave::Some => true,
            Gave::All => self.give_end(rt, cluster, slot),
            Gave::NotGiven => self.give_up(slot, true),
            Gave::NotTaken => self.give_up(slot, false),
        }
    }

    /// The joiner is given the end: it has the volume at the front that the tail holds.
    fn give_end<R: Wait>(&mut self, rt: &R, cluster: &Cluster<D, J>, slot: Slot) -> bool {
        let Some(tail) = self.tail() else {
            return self.give_up(slot, true);
        };
        match cluster.end_copy(rt, tail) {
            Ok(end) => {
                if !self.take(end) {
                    return self.give_up(slot, false);
                }
                self.management.prepared(Order::Rest(slot))
            }
            Err(_) => self.give_up(slot, true),
        }
    }

    /// The joiner is counted, behind its receipt.
    pub(crate) fn count_in(&mut self, cluster: &Cluster<D, J>, slot: Slot) -> bool {
        let Joiner::Ready(whole, receipt) = mem::replace(&mut self.joiner, Joiner::Nobody) else {
            return self.give_up(slot, true);
        };
        if self.management.count_in(cluster.board(), receipt).is_err() {
            return self.give_up(slot, true);
        }
        self.joiner = Joiner::Counted(whole);
        true
    }

    /// The joiner is given a piece: whether it took it.
    fn take(&mut self, piece: Piece) -> bool
        requires whole { IsWhole piece }
        requires within { IsWithin piece }
    {
        match mem::replace(&mut self.joiner, Joiner::Nobody).take(
            self.alloc,
            piece,
            self.geometry.blocks,
        ) {
            Some(joiner) => {
                self.joiner = joiner;
                true
            }
            None => false,
        }
    }

    /// Gives some of the pieces that are due: those that weren't given yet, or where `again` says so, those that were written since, too.
    fn give_some<R: Wait>(&mut self, rt: &R, cluster: &Cluster<D, J>, again: bool) -> Gave {
        let Some(tail) = self.tail() else {
            return Gave::NotGiven;
        };
        for _ in 0..PIECES {
            match cluster.give_next(rt, tail, again) {
                Ok(Some(piece)) => {
                    if !self.take(piece) {
                        return Gave::NotTaken;
                    }
                }
                Ok(None) => return Gave::All,
                Err(NotGiven::Memory) => {
                    // It is tried again.
                    thread::yield_now();
                    return Gave::Some;
                }
                Err(NotGiven::Stopped | NotGiven::Lost) => return Gave::NotGiven,
            }
        }
        Gave::Some
    }

    /// Whether the joining under way can't go on: a member of the chain has stopped, or the joiner has.
    pub(crate) fn is_disturbed(&self) -> bool {
        let Some(joining) = self.joining else {
            return false;
        };
        self.management.can_abandon() && (self.management.is_stopped(joining) || self.has_stopped())
    }

    /// The joiner at a slot gets no further; whether it is tried again.
    fn give_up(&mut self, slot: Slot, again: bool) -> bool {
        self.wanted[usize::from(slot.number())] = again;
        self.host.note_failure(slot, again);
        // It is abandoned next.
        self.management.stopped(slot).is_ok()
    }

    /// Abandons the joining under way: its disk is closed.
    pub(crate) fn abandon<R: Wait>(&mut self, rt: &R, cluster: &Cluster<D, J>) -> bool {
        match self.management.abandon_join() {
            Ok(()) => {
                self.joiner = Joiner::Nobody;
                if let Some(tail) = self.tail() {
                    cluster.drop_copy(rt, tail);
                }
                true
            }
            Err(Refusal::Memory) => {
                thread::yield_now();
                true
            }
            Err(_) => false,
        }
    }
}
