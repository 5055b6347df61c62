//! A disk that joins: the board counts it, it is recorded, and then it is a member's.
ghost use Rattle.std.specs.Prelude.{◌≡◌, ◌↔◌, ◌<◌, false, true, length, IfErr, IfNone, IfOk, IfSome, IsTrue, OnErr};
ghost use Rattle.chain.specs.Joining.{IsCopyAt};
ghost use Rattle.chain_core.specs.Node.{IsRunning};
ghost use Rattle.clients.specs.Clients.{no_one};
ghost use Rattle.world.specs.Joining.{HasBegunWithJoiner, HasEndedWithJoiner, HasGivenUp, HasJoined, IsKept, MayBeginWithJoiner, MayEndWithJoiner, MayJoin};
ghost use Rattle.world.specs.World.{IsOfOneVolume};

use crate::joiner::Joiner;
use crate::queue::Queue;
use crate::world::World;
use chain_core::Refusal;
use configurations::Record;
use gate_journal::Synced;
use local_store::StoreLike;
use std::alloc::AllocError;

impl<S: StoreLike + Drop> World<S> {
    /// A store's disk joins: its receipt is posted, and the board counts its slot. Nobody else joins, the member at a place holds the
    /// store's front, and all that run were told the recorded chain, and hold if they are its tail. The incarnation is above all that
    /// were recorded, nobody stands at the slot, and no record is being written. The store isn't broken, its disk is of version 2, its
    /// log is there, and it keeps a volume of its size.
    ///
    /// The store and the receipt come back where that isn't so: nothing changed.
    pub(crate) fn count_in(
        &mut self,
        at: usize,
        store: S,
        receipt: Synced,
    ) -> Result<(), (S, Synced)>
        requires within { at < length self.old.chain.members }
        requires runs { IsRunning (S.about store) (record { premise = S.keeps_model; keeps = S.keeps store }) }
        ensures joined { IfOk result (λ _. MayJoin S.about at store receipt self.old × HasJoined store receipt self.old self.new) }
        ensures back { IfErr result (λ given. ¬ MayJoin S.about at store receipt self.old × ((given.0 ≡ store) × ((given.1 ≡ receipt) × (self.new ≡ self.old)))) }

        // Where the disk has a copy of what the holder has.
        ensures one_volume { S.keeps_model → IsCopyAt S.keeps at store self.old.chain
            → IfOk result (λ _. IsOfOneVolume S.about S.keeps S.may_leave_now no_one no_one self.old self.new) }
    {
        if self.joiner.is_some() {
            return Err((store, receipt));
        }
        match self.chain.count_in(at, &store, receipt) {
            Ok(()) => {
                self.joiner = Some(Joiner::new(store));
                Ok(())
            }
            Err(receipt) => Err((store, receipt)),
        }
    }

    /// Who joins is given up: the store comes back. `None` where nobody joins, or a record is being written: nothing changed.
    pub(crate) fn give_up(&mut self) -> Option<S>
        ensures given { IfSome result (λ store. HasGivenUp store self.old self.new) }
        ensures runs { IfSome result (λ store. IsRunning (S.about store) (record { premise = S.keeps_model; keeps = S.keeps store })) }
        ensures idle { IfNone result (IsKept self.old × (self.new ≡ self.old)) }
        ensures one_volume { S.keeps_model → IsOfOneVolume S.about S.keeps S.may_leave_now no_one no_one self.old self.new }
    {
        if self.chain.is_writing() {
            return None;
        }
        match self.joiner.take() {
            Some(joiner) => Some(joiner.into_store()),
            None => None,
        }
    }

    /// The next record is being written, in which who joins is behind the recorded members. It has the epoch behind the recorded one's,
    /// which is the incarnation of who joins; no other one is being written; and the store has the volume's sizes. `false` where that
    /// isn't so, or nobody joins: nothing changed.
    pub(crate) fn begin_join(&mut self, next: Record) -> bool
        ensures begun { result ≡ true → MayBeginWithJoiner S.about next self.old × HasBegunWithJoiner next self.old self.new }
        ensures idle { result ≡ false → ¬ MayBeginWithJoiner S.about next self.old × (self.new ≡ self.old) }
        ensures one_volume { S.keeps_model → IsOfOneVolume S.about S.keeps S.may_leave_now no_one no_one self.old self.new }
    {
        match &self.joiner {
            Some(joiner) => self.chain.begin_join(joiner.store(), next),
            None => false,
        }
    }

    /// Whether somebody joins, and the record with it is being written.
    pub(crate) fn may_end_join(&self) -> bool
        ensures { IsTrue result ↔ MayEndWithJoiner S.about self.now }
    {
        match &self.joiner {
            Some(joiner) => self.chain.may_end_join(joiner.store()),
            None => false,
        }
    }

    /// The record with who joins is durable: it is the recorded one, and who joined is a member, which was told it, and for which nothing
    /// waits. `false` where no such record was being written: nothing changed. 100 where memory runs out: nothing changed, and it can be
    /// tried again.
    pub(crate) fn end_join(&mut self) -> Result<bool, AllocError>
        ensures ended { IfOk result (λ done. done ≡ true → MayEndWithJoiner S.about self.old × HasEndedWithJoiner S.about self.old self.new) }
        ensures idle { IfOk result (λ done. done ≡ false → ¬ MayEndWithJoiner S.about self.old × (self.new ≡ self.old)) }
        ensures err { OnErr result (self.new ≡ self.old) }
        ensures one_volume { S.keeps_model → IsOfOneVolume S.about S.keeps S.may_leave_now no_one no_one self.old self.new }
    {
        self.queues.reserve(1)?;
        let Some(joiner) = self.joiner.take() else {
            return Ok(false);
        };
        match self.chain.end_join(joiner.into_store()) {
            Ok(()) => {
                self.queues.push_reserved(Queue::new(self.alloc));
                Ok(true)
            }
            Err((refusal, store)) => {
                self.joiner = Some(Joiner::new(store));
                match refusal {
                    Refusal::Memory => Err(AllocError),
                    _ => Ok(false),
                }
            }
        }
    }
}
