//! The record of the chain, and whom it tells.
ghost use Rattle.std.specs.Prelude.{◌≡◌, ◌⊎◌, ◌↔◌, ◌<◌, None, false, length, true, IfErr, IfOk, IsOk, IsTrue};
ghost use Rattle.chain.specs.Recording.{HaltsAt, HasBegunRecord, HasCountedOut, HasEndedRecord, IsLeftOut, IsToldAt, IsUntoldAt, MayBegin, MayEnd};
ghost use Rattle.clients.specs.Clients.{no_one};
ghost use Rattle.world.specs.Management.{IsLeftOutAlone, MayEndAlone};
ghost use Rattle.world.specs.Telling.{Answers, Moves, handed_in};
ghost use Rattle.world.specs.World.{IsOfOneVolume};

use crate::telling::tell;
use crate::told::Told;
use crate::world::World;
use chain_core::Refusal;
use configurations::Record;
use gate_journal::Slot;
use local_store::StoreLike;
use std::alloc::{AllocError, Global};

impl<S: StoreLike + Drop> World<S> {
    /// The next record is being written. It has the epoch behind the recorded one's, and its members without one that has stopped, or
    /// just its members; and no other one is being written. `false` where that isn't so: nothing changed.
    pub(crate) fn begin_record(&mut self, next: Record) -> bool
        ensures begun { result ≡ true → Moves self.old self.new (λ old new. MayBegin old next × HasBegunRecord next old new) }
        ensures idle { result ≡ false → ¬ MayBegin self.old.chain next × (self.new ≡ self.old) }
        ensures one_volume { S.keeps_model → IsOfOneVolume S.about S.keeps S.may_leave_now no_one no_one self.old self.new }
    {
        self.chain.begin_record(next)
    }

    /// The record that was being written is durable: it is the recorded one. All members that run were told the one before it, and nobody
    /// joins. `false` where that isn't so, or none was being written that may come next: nothing changed.
    pub(crate) fn end_record(&mut self) -> bool
        ensures ended { result ≡ true → Moves self.old self.new (λ old new. MayEnd old × HasEndedRecord old new) }
        ensures idle { result ≡ false → ¬ MayEndAlone self.old × (self.new ≡ self.old) }
        ensures one_volume { S.keeps_model → IsOfOneVolume S.about S.keeps S.may_leave_now no_one no_one self.old self.new }
    {
        self.joiner.is_none() && self.chain.end_record()
    }

    /// A copy of the record that is being written, if one is.
    pub(crate) fn writing(&self, alloc: Global) -> Result<Option<Record>, AllocError>
        ensures value { IfOk result (λ found. found ≡ self.now.chain.writing) }
        ensures none { self.now.chain.writing ≡ None → IsOk result }
    {
        self.chain.writing(alloc)
    }

    /// Whether the record that is being written, if one is, may be recorded, and nobody joins.
    pub(crate) fn may_end(&self) -> bool
        ensures { IsTrue result ↔ MayEndAlone self.now }
    {
        self.joiner.is_none() && self.chain.may_end()
    }

    /// The board counts the slot no longer. No member of the recorded chain is at it, no record is being written, and nobody joins. `false`
    /// where that isn't so: nothing changed.
    pub(crate) fn count_out(&mut self, slot: Slot) -> bool
        ensures out { result ≡ true → Moves self.old self.new (λ old new. IsLeftOut old slot × HasCountedOut slot old new) }
        ensures idle { result ≡ false → ¬ IsLeftOutAlone self.old slot × (self.new ≡ self.old) }
        ensures one_volume { S.keeps_model → IsOfOneVolume S.about S.keeps S.may_leave_now no_one no_one self.old self.new }
    {
        self.joiner.is_none() && self.chain.count_out(slot)
    }

    /// The member at a place is told the recorded chain, if it is newer than the one it was told: a head refuses its writes without a
    /// number that were submitted before, and sends again what it doesn't know to be committed. Where memory runs out, it stops.
    ///
    /// 154 `Stopped` once it stopped; 151 `NotMember` where it isn't in the recorded chain by its slot and incarnation: nothing changed.
    pub(crate) fn tell(&mut self, at: usize) -> Result<Told, Refusal>
        requires { at < length self.old.chain.members }
        ensures told { IfOk result (λ told. Answers told self.old self.new (λ replies old new. IsToldAt at old new replies ⊎ HaltsAt at old new replies)) }
        ensures refused { IfErr result (λ r. Moves self.old self.new (λ old new. IsUntoldAt at old new r)) }
        ensures one_volume { S.keeps_model → IsOfOneVolume S.about S.keeps S.may_leave_now no_one (handed_in (λ told. told) result) self.old self.new }
    {
        match self.chain.tell(at) {
            Ok(replies) => Ok(tell(self.alloc, &mut self.clients, replies)),
            Err(refusal) => Err(refusal),
        }
    }
}
