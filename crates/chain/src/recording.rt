//! The record, whom the board counts by it, and whom it tells.
ghost use Rattle.std.specs.Prelude.{◌≡◌, ◌⊎◌, ◌↔◌, ◌+◌, ◌<◌, ◌++◌, [], All, None, false, true, IfErr, IfOk, IsOk, IsTrue, drop, is_some, length, take};
ghost use Rattle.chain_core.specs.Node.{IsInside, size_of};
ghost use Rattle.chain_core.specs.Refusal.{number_of};
ghost use Rattle.chain_steps.specs.Node.{Refused, epoch_of};
ghost use Rattle.chain_steps.specs.Steps.{told};
ghost use Rattle.chain.specs.Chain.{IsOfOneVolume, IsOfOneVolumeAlone};
ghost use Rattle.chain.specs.Commits.{replies_of};
ghost use Rattle.chain.specs.Recording.{HaltsAt, HasBegunRecord, HasCountedOut, HasEndedRecord, HasRunOut, HasStoppedThere, IsLeftOut, IsNextOf, IsToldAt, IsToldTo, IsUntoldAt, IsWithoutOne, MayBegin, MayEnd, next_in};

use crate::chain::Chain;
use crate::member::Member;
use crate::messages::send;
use crate::opening::copy_of;
use chain_core::{Node, Out, Refusal, Served};
use chain_steps::{Cause, Envelope, Place, incarnation_in};
use configurations::{Epoch, Member as Recorded, Record};
use gate_journal::Slot;
use local_store::StoreLike;
use std::alloc::{AllocError, Global};
use std::collections::VecDeque;
use std::mem;

/// A record once more, and whom the member at a slot tells in it, or itself.
fn next_of(alloc: Global, chain: &Record, slot: Slot) -> Result<(Record, Slot), AllocError>
    ensures copy { IfOk result (λ next. next.0 ≡ chain.now) }
    ensures to { IfOk result (λ next. next.1 ≡ next_in chain.now slot) }
{
    let place = Place::new(slot, copy_of(alloc, chain)?);
    let to = place.successor().unwrap_or(slot);
    Ok((copy_of(alloc, chain)?, to))
}

/// A member is told a record; what it sends goes on a link.
fn tell<S: StoreLike + Drop>(
    node: &mut Node<S>,
    chain: Record,
    to: &mut VecDeque<Envelope>,
) -> Result<Vec<Served>, Refusal>
    ensures told { IfOk result (λ replies. IsToldTo chain node.old node.new to.old.items to.new.items replies.items ⊎ HasRunOut node.old node.new to.old.items to.new.items replies.items) }
    ensures refused { IfErr result (λ r. (told chain node.old.state ≡ Refused (number_of r)) × ((node.new ≡ node.old) × (to.new.items ≡ to.old.items))) }
    ensures inside { All (λ envelope. IsInside (size_of (S.about node.old.store)) envelope.message) to.old.items → All (λ envelope. IsInside (size_of (S.about node.old.store)) envelope.message) to.new.items }
{
    if node.stopped().is_some() {
        return Err(Refusal::Stopped);
    }
    node.sound();
    if to
        .reserve((node.applied() - node.known() + 1) as usize)
        .is_err()
    {
        return Ok(node.stop_by(Cause::Memory).replies);
    }
    let Out { messages, replies } = node.told(chain)?;
    send(messages, to);
    Ok(replies)
}

/// Whether two members are the same.
fn is_same(one: &Recorded, other: &Recorded) -> bool
    ensures { IsTrue result ↔ (one.now ≡ other.now) }
{
    one.slot == other.slot && one.incarnation == other.incarnation
}

/// Whether two chains have the same members.
pub(crate) fn are_same(one: &[Recorded], other: &[Recorded]) -> bool
    ensures { IsTrue result ↔ (one.now ≡ other.now) }
{
    if one.len() != other.len() {
        return false;
    }
    for at in 0..one.len() {
        if !is_same(&one[at], &other[at]) {
            return false;
        }
    }
    true
}

/// Whether each member at a slot has stopped.
fn have_stopped<S: StoreLike + Drop>(members: &[Member<S>], slot: Slot) -> bool
    ensures { IsTrue result ↔ HasStoppedThere slot members.now }
{
    members.iter().all(|member| member.has_stopped_at(slot))
}

/// Whether each member that runs was told a chain of an epoch.
pub(crate) fn are_told<S: StoreLike + Drop>(members: &[Member<S>], epoch: Epoch) -> bool
    ensures { IsTrue result ↔ All (λ m. m.node.state.stopped ≡ None → epoch_of m.node.state ≡ epoch) members.now }
{
    members.iter().all(|member| member.is_told(epoch))
}

/// Whether members are those of a chain but for the one at a place.
fn is_without(members: &[Recorded], chain: &[Recorded], at: usize) -> bool
    requires { at < length chain.now }
    ensures { IsTrue result ↔ (members.now ≡ take at chain.now ++ drop (at + 1) chain.now) }
{
    members.len() + 1 == chain.len()
        && are_same(&members[..at], &chain[..at])
        && are_same(&members[at..], &chain[at + 1..])
}

impl<S: StoreLike + Drop> Chain<S> {
    /// The next record is being written. It has the epoch behind the recorded one's, and its members without one that has stopped, or
    /// just its members; and no other one is being written. `false` where that isn't so: nothing changed.
    pub fn begin_record(&mut self, next: Record) -> bool
        ensures begun { result ≡ true → MayBegin self.old next × HasBegunRecord next self.old self.new }
        ensures idle { result ≡ false → ¬ MayBegin self.old next × (self.new ≡ self.old) }
        ensures one_volume { S.keeps_model → IsOfOneVolume S.about S.keeps S.may_leave_now self.old self.new [] }
    {
        if self.writing.is_some() || !self.is_next(&next) {
            return false;
        }
        self.writing = Some(next);
        true
    }

    /// The record that was being written is durable: it is the recorded one. All members that run were told the one before it. `false`
    /// where that isn't so, or none was being written that may come next: nothing changed.
    pub fn end_record(&mut self) -> bool
        ensures ended { result ≡ true → MayEnd self.old × HasEndedRecord self.old self.new }
        ensures idle { result ≡ false → ¬ MayEnd self.old × (self.new ≡ self.old) }
        ensures one_volume { S.keeps_model → IsOfOneVolumeAlone S.about S.keeps S.may_leave_now self.old self.new [] }
    {
        if !self.may_end() {
            return false;
        }
        if let Some(next) = self.writing.take() {
            self.before = mem::replace(&mut self.recorded, next);
        }
        true
    }

    /// A copy of the record that is being written, if one is.
    pub fn writing(&self, alloc: Global) -> Result<Option<Record>, AllocError>
        ensures value { IfOk result (λ found. found ≡ self.now.writing) }
        ensures none { self.now.writing ≡ None → IsOk result }
    {
        match &self.writing {
            Some(next) => Ok(Some(copy_of(alloc, next)?)),
            None => Ok(None),
        }
    }

    /// Whether a record is being written.
    pub fn is_writing(&self) -> bool
        ensures { result ≡ is_some self.now.writing }
    {
        self.writing.is_some()
    }

    /// Whether the record that is being written, if one is, may be recorded.
    pub fn may_end(&self) -> bool
        ensures { IsTrue result ↔ MayEnd self.now }
    {
        match &self.writing {
            Some(next) => self.is_next(next) && are_told(&self.members, self.recorded.epoch()),
            None => false,
        }
    }

    /// The board counts the slot no longer. No member of the recorded chain is at it, and no record is being written. `false` where that
    /// isn't so: nothing changed.
    pub fn count_out(&mut self, slot: Slot) -> bool
        ensures out { result ≡ true → IsLeftOut self.old slot × HasCountedOut slot self.old self.new }
        ensures idle { result ≡ false → ¬ IsLeftOut self.old slot × (self.new ≡ self.old) }
        ensures one_volume { S.keeps_model → IsOfOneVolumeAlone S.about S.keeps S.may_leave_now self.old self.new [] }
    {
        if self.writing.is_some() || incarnation_in(&self.recorded, slot).is_some() {
            return false;
        }
        self.board.count_out(slot);
        true
    }

    /// Whether a record may come next.
    fn is_next(&self, next: &Record) -> bool
        ensures { IsTrue result ↔ IsNextOf self.now next.now }
    {
        if next.epoch().number() != self.recorded.epoch().number() + 1 {
            return false;
        }
        are_same(next.members(), self.recorded.members()) || self.leaves_one_out(next)
    }

    /// Whether a record has the recorded members without one that has stopped.
    fn leaves_one_out(&self, next: &Record) -> bool
        ensures { IsTrue result ↔ IsWithoutOne self.now next.now }
    {
        let recorded = self.recorded.members();
        for at in 0..recorded.len() {
            if is_without(next.members(), recorded, at)
                && have_stopped(&self.members, recorded[at].slot)
            {
                return true;
            }
        }
        false
    }

    /// The member at a place is told the recorded chain, if it is newer than the one it was told: a head refuses its writes without a
    /// number that were submitted before, and sends again what it doesn't know to be committed.
    ///
    /// 154 `Stopped` once it stopped: nothing changed. Else it stops where memory runs out, whatever the record is. Else 151 `NotMember`
    /// where it isn't in the recorded chain by its slot and incarnation: nothing changed.
    pub fn tell(&mut self, at: usize) -> Result<Vec<Served>, Refusal>
        requires { at < length self.old.members }
        ensures told { IfOk result (λ replies. IsToldAt at self.old self.new replies.items ⊎ HaltsAt at self.old self.new replies.items) }
        ensures refused { IfErr result (IsUntoldAt at self.old self.new) }
        ensures one_volume { S.keeps_model → IsOfOneVolume S.about S.keeps S.may_leave_now self.old self.new (replies_of (λ replies. replies.items) result) }
    {
        if self.members[at].cause().is_some() {
            return Err(Refusal::Stopped);
        }
        let slot = self.members[at].slot();
        let Ok((chain, to)) = next_of(self.alloc, &self.recorded, slot) else {
            return Ok(self.members[at].node.stop_by(Cause::Memory).replies);
        };
        let mut link = VecDeque::new(self.alloc);
        self.links.exchange(slot, to, &mut link);
        let told = tell(&mut self.members[at].node, chain, &mut link);
        self.links.exchange(slot, to, &mut link);
        told
    }
}
