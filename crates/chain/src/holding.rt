//! A front that is held for a joiner.
ghost use Rattle.std.specs.Prelude.{◌≡◌, ◌⊎◌, ◌*◌, ◌-◌, ◌<◌, ◌≤◌, List, ℕ, true, false, length, slice_get, IfErr, IfNone, IfOk, IfSome};
ghost use Rattle.disk_model.specs.Disk.{LeavesOnly};
ghost use Rattle.local_store.specs.About.{meaning_with};
ghost use Rattle.local_store.specs.Meaning.{Means};
ghost use Rattle.volume.specs.Writes.{Fits, patched};
ghost use Rattle.chain_steps.specs.Node.{durable_of, is_stopped, last_of};
ghost use Rattle.chain_steps.specs.Steps.{volume_at};
ghost use Rattle.chain.specs.Chain.{Changes, IsOfOneVolume, RestsAt};
ghost use Rattle.chain.specs.Commits.{LeavesAt};
ghost use Rattle.chain.specs.Holding.{HasReadBlock, HoldsAt, HoldsTo, MayNotHold, StopsReading, may_hold, replies_lost};
ghost use Rattle.chain.specs.Member.{HasCalled};
ghost use Rattle.chain.specs.Musters.{LacksAt};

use crate::chain::Chain;
use crate::lone_board::LoneBoard;
use crate::member::Member;
use bytes::Bytes;
use chain_core::{Out, Served};
use chain_steps::{Cause, Envelope};
use configurations::Record;
use local_store::StoreLike;
use std::collections::VecDeque;
use volume::Write;

impl<S: StoreLike + Drop> Member<S> {
    /// Whether it was told this recorded chain, and is its tail.
    pub(crate) fn may_hold(&self, recorded: &Record) -> bool
        ensures { result ≡ may_hold recorded.now self.now.node.state }
    {
        self.node.place().epoch() == recorded.epoch() && self.node.place().is_tail()
    }

    /// The tail of this recorded chain looks the committed front up, takes it as its known commit, and holds it for a joiner: its plain
    /// writes up to it are answered, and the one before it is told along a link. `None` where it is another member, or once stopped:
    /// nothing changed. Where memory runs out, it stops.
    pub(crate) fn hold(
        &mut self,
        board: &mut LoneBoard,
        recorded: &Record,
        to: &mut VecDeque<Envelope>,
    ) -> Option<Vec<Served>>
        requires { self.old.node.state.board ≡ board.old.id }
        ensures held { IfSome result (λ replies. HoldsTo recorded.now board.old.words.front replies.items to.old.items to.new.items self.old self.new) }
        ensures idle { IfNone result (((is_stopped self.old.node.state ≡ true) ⊎ MayNotHold recorded.now self.old) × (self.new ≡ self.old) × (to.new.items ≡ to.old.items)) }
        ensures board { board.new ≡ board.old }
    {
        if self.node.stopped().is_some() {
            return None;
        }
        if !self.may_hold(recorded) {
            return None;
        }
        board.look_for(&mut self.node);
        if to.reserve(1).is_err() {
            return Some(self.node.stop_by(Cause::Memory).replies);
        }
        let Out {
            mut messages,
            replies,
        } = self.node.hold();
        if let Some(sent) = messages.pop() {
            to.push_back_reserved(sent.envelope);
        }
        Some(replies)
    }

    /// A block of the volume at its known commit. `Ok(None)` once stopped: nothing changed. Where memory runs out, or the device refuses
    /// the read, it stops, and `Err` has what it answered.
    pub(crate) fn held_block(&mut self, block: u32) -> Result<Option<Bytes>, Vec<Served>>
        requires { block < (S.about self.old.node.store).geometry.blocks }
        ensures given { IfOk result (λ given. IfSome given (λ bytes. HasReadBlock S.keeps_model S.about S.failures S.keeps S.moment S.may_have_left_since block bytes self.old self.new)) }
        ensures idle { IfOk result (λ given. IfNone given ((is_stopped self.old.node.state ≡ true) × (self.new ≡ self.old))) }
        ensures stopped { IfErr result (λ replies. HasCalled (StopsReading S.keeps_model S.about S.failures S.keeps S.moment S.may_have_left_since) replies.items self.old self.new) }
        ensures any_moment { S.keeps_model → (volume : List ℕ) → S.keeps self.old.node.store volume
            → LeavesOnly S.moment S.may_have_left_since self.old.node.store self.new.node.store (Means (meaning_with (S.about self.old.node.store) volume)) }
    {
        if self.cause().is_some() {
            return Ok(None);
        }
        match self.node.held_block(block) {
            Ok(bytes) => Ok(Some(bytes)),
            Err(out) => Err(out.replies),
        }
    }
}

impl<S: StoreLike + Drop> Chain<S> {
    /// The member at a place, the tail of the recorded chain, looks the committed front up, takes it as its known commit, and holds it for
    /// a joiner: it doesn't raise before it is told the next record. Its plain writes up to the front are answered, and the one before
    /// it is told. `None` where another member is at the place, or one that wasn't told the recorded chain, or once it stopped: nothing
    /// changed. It stops where memory runs out, or the front is above its last write, which none is in a chain.
    pub fn hold(&mut self, at: usize) -> Option<Vec<Served>>
        requires { at < length self.old.members }
        ensures held { IfSome result (λ replies. HoldsAt at replies.items self.old self.new) }
        ensures idle { IfNone result (RestsAt at self.old self.new ⊎ LacksAt at self.old self.new (MayNotHold self.old.recorded)) }
        ensures one_volume { S.keeps_model → IfSome result (λ replies. IsOfOneVolume S.about S.keeps S.may_leave_now self.old self.new replies.items) }
    {
        let slot = self.members[at].slot();
        let to = self.members[at].node.place().predecessor().unwrap_or(slot);
        let mut link = VecDeque::new(self.alloc);
        self.links.exchange(slot, to, &mut link);
        let replies = self.members[at].hold(&mut self.board, &self.recorded, &mut link);
        self.links.exchange(slot, to, &mut link);
        replies
    }

    /// A block of the volume at the known commit of the member at a place. `Ok(None)` once it stopped: nothing changed. Where memory runs
    /// out, or its device refuses the read, it stops in the call: `Err` has what it answered.
    pub fn held_block(&mut self, at: usize, block: u32) -> Result<Option<Bytes>, Vec<Served>>
        requires within { at < length self.old.members }
        requires block { block < self.old.geometry.blocks }
        ensures given { IfOk result (λ given. IfSome given (λ bytes. Changes at self.old self.new (HasReadBlock S.keeps_model S.about S.failures S.keeps S.moment S.may_have_left_since block bytes))) }
        ensures idle { IfOk result (λ given. IfNone given (RestsAt at self.old self.new)) }
        ensures stopped { IfErr result (λ replies. Changes at self.old self.new (HasCalled (StopsReading S.keeps_model S.about S.failures S.keeps S.moment S.may_have_left_since) replies.items)) }

        // A stop at any moment of the call leaves what the member was shown with.
        ensures any_moment { S.keeps_model → LeavesAt S.about S.keeps S.may_leave_now S.moment S.may_have_left_since at self.old self.new }
        ensures one_volume { S.keeps_model → IsOfOneVolume S.about S.keeps S.may_leave_now self.old self.new (replies_lost (λ replies. replies.items) result) }
    {
        self.members[at].held_block(block)
    }

    /// The write of the number `n`, which the member at a place keeps: it lies above its durable front, and not above that of its last
    /// applied write.
    pub fn kept_write(&self, at: usize, n: u64) -> &Write
        requires within { at < length self.now.members }
        requires kept { IfSome (slice_get self.now.members at) (λ m. (durable_of m.node.state < n) × (n ≤ last_of m.node.state)) }
        ensures after { IfSome (slice_get self.now.members at) (λ m. (volume : List ℕ) → volume_at volume m.node.state n ≡ patched (volume_at volume m.node.state (n - 1)) result.now) }
        ensures inside { Fits (4096 * self.now.geometry.blocks) result.now }
    {
        self.members[at].node.kept_write(n)
    }
}
