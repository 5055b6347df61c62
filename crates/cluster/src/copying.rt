//! What a tail gives a joiner of its volume, a block at a time, while it goes on.
ghost use Rattle.std.specs.Prelude.{◌≡◌, ◌≢◌, ◌⊎◌, ◌≤◌, ◌+◌, List, ℕ, Err, None, Some, IfErr, IfNone, IfOk, IfSome, IsSomeAnd, IsTrue, OnErr, OnOk, length, true, ◌↔◌};
ghost use Rattle.std.specs.Option.{ForSome};
ghost use Rattle.chain_core.specs.Reads.{HasOnlyRead};
ghost use Rattle.member_copy.specs.MemberCopy.{first_copy};
ghost use Rattle.rejoin_catchup.specs.Course.{IsWhole, IsWithin};
ghost use Rattle.rejoin_catchup.specs.Sending.{due_of};
ghost use Rattle.cluster.specs.Copies.{GoesOnCopying, HasEnded, HasGivenPiece, HasNotedIfCopied, IsOfSize, NotesCopy};

use crate::seated::Seated;
use disk_model::HalvedDisk;
use local_store::{LendingStore, StoreLike};
use mail::Given;
use member::{Agreed, Member};
use member_copy::MemberCopy;
use rejoin_catchup::Piece;
use std::alloc::{AllocError, Global};

/// Why nothing is given to a joiner.
#[derive(Clone, Copy, Debug, PartialEq, Eq)]
pub enum NotGiven {
    /// The member has stopped.
    Stopped,
    /// Nothing was begun, or the member went on unnoted; or it doesn't hold the front, or blocks are due, where the end is asked for.
    Lost,
    /// There is no memory for the replies that the member may give: nothing changed.
    Memory,
}

impl<D: HalvedDisk + Drop, J: Agreed> Seated<D, J> {
    /// Begins to give its volume to a joiner, in place of what was given to another.
    pub fn begin_copy(&mut self, alloc: Global) -> Result<(), AllocError>
        ensures begun { OnOk result (self.new.copy ≡ Some (first_copy self.old.member.node.state.known (⟦<LendingStore<D, J> as StoreLike>⟧.about self.old.member.node.store).geometry.blocks)) }
        ensures same { (self.new.member ≡ self.old.member) × (self.new.seat ≡ self.old.seat) }
        ensures unchanged { OnErr result (self.new.copy ≡ self.old.copy) }
    {
        self.copy = Some(MemberCopy::begin(alloc, self.member.node())?);
        Ok(())
    }

    /// Whether each block was given once.
    pub fn has_given_all(&self) -> bool
        ensures { IsTrue result ↔ IsSomeAnd self.now.copy (λ copy. copy.sender.given ≡ length copy.sender.marks) }
    {
        match &self.copy {
            Some(copy) => copy.has_given_all(),
            None => false,
        }
    }

    /// Nothing is given any more.
    pub fn drop_copy(&mut self)
        ensures { (self.new.member ≡ self.old.member) × (self.new.seat ≡ self.old.seat) × (self.new.copy ≡ None) }
    {
        self.copy = None;
    }

    /// The block that is due, as it is at the member's known commit, which is noted. `None` where none is due.
    pub fn give_next(&mut self, given: &mut Given) -> Result<Option<Piece>, NotGiven>
        requires room { 1 ≤ given.old.room }
        ensures piece { IfOk result (λ r. IfSome r (λ piece. HasGivenPiece ⟦<LendingStore<D, J> as StoreLike>⟧.keeps_model ⟦<LendingStore<D, J> as StoreLike>⟧.keeps self.old.member.node piece self.old.copy self.new.copy)) }
        ensures copies { ⟦<LendingStore<D, J> as StoreLike>⟧.keeps_model → (volume : List ℕ) → ⟦<LendingStore<D, J> as StoreLike>⟧.keeps self.old.member.node.store volume
            → IfOk result (λ r. IfSome r (λ piece. GoesOnCopying volume self.old.member.node.state piece self.old.copy self.new.copy)) }
        ensures takeable { IfOk result (λ r. IfSome r (λ piece. IsWhole piece × IsWithin piece)) }
        ensures none { IfOk result (λ r. IfNone r (HasNotedIfCopied self.old.member.node.state self.old.copy self.new.copy × ForSome self.new.copy (λ copy. due_of copy.sender ≡ None) × (self.new.member ≡ self.old.member))) }
        ensures only_read { OnOk result ((self.new.member.node.state ≡ self.old.member.node.state)
            × ((self.new.member ≡ self.old.member) ⊎ HasOnlyRead ⟦<LendingStore<D, J> as StoreLike>⟧.keeps_model ⟦<LendingStore<D, J> as StoreLike>⟧.about ⟦<LendingStore<D, J> as StoreLike>⟧.failures ⟦<LendingStore<D, J> as StoreLike>⟧.keeps ⟦<LendingStore<D, J> as StoreLike>⟧.moment ⟦<LendingStore<D, J> as StoreLike>⟧.may_have_left_since self.old.member.node.store self.new.member.node.store)
            × (given.new.replies ≡ given.old.replies)) }
        ensures refused { IfErr result (λ e. (e ≡ NotGiven.Stopped) ⊎ (e ≡ NotGiven.Lost)) }
        ensures stopped { result ≡ Err NotGiven.Stopped → self.new.member.node.state.stopped ≢ None }
        ensures lost { result ≡ Err NotGiven.Lost → (self.new.member ≡ self.old.member) × (given.new.replies ≡ given.old.replies)
            × HasNotedIfCopied self.old.member.node.state self.old.copy self.new.copy × ForSome self.new.copy (λ copy. copy.broken ≡ true) }
        ensures seat { self.new.seat ≡ self.old.seat }
        ensures room { given.old.room ≤ given.new.room + 1 }
    {
        note_known(&mut self.copy, &self.member);
        let Some(copy) = &mut self.copy else {
            return Err(NotGiven::Lost);
        };
        if copy.is_broken() {
            return Err(NotGiven::Lost);
        }
        let Some(block) = copy.due() else {
            return Ok(None);
        };
        if self.member.node().stopped().is_some() {
            return Err(NotGiven::Stopped);
        }
        match self.member.held_block(block) {
            Ok(bytes) => Ok(Some(copy.give(bytes))),
            Err(replies) => {
                given.add(replies);
                Err(NotGiven::Stopped)
            }
        }
    }

    /// The end, once no block is due, and the member holds its front: what was given is the volume at that front. Nothing is given any more.
    pub fn end_copy(&mut self) -> Result<Piece, NotGiven>
        ensures same { (self.new.member ≡ self.old.member) × (self.new.seat ≡ self.old.seat) }
        ensures ended { IfOk result (λ piece. (self.new.copy ≡ None) × (self.old.member.node.state.holds ≡ true)
            × HasEnded self.old.member.node.state piece self.old.copy) }
        ensures takeable { IfOk result (λ piece. IsWhole piece × IsWithin piece) }
    {
        note_known(&mut self.copy, &self.member);
        let holds = self.member.node().holds();
        match self.copy.take() {
            Some(copy) if holds && copy.is_whole() && !copy.is_broken() => Ok(copy.end()),
            _ => Err(NotGiven::Lost),
        }
    }
}

/// What a member came to know is noted: of the blocks that were given, those that were written since are due again.
pub(crate) fn note_known<D: HalvedDisk + Drop, J: Agreed>(
    copy: &mut Option<MemberCopy>,
    member: &Member<LendingStore<D, J>, J>,
)
    requires size { IsOfSize J.size copy.old }
    ensures size { IsOfSize J.size copy.new }
    ensures noted { HasNotedIfCopied member.now.node.state copy.old copy.new }
    ensures copies { (volume : List ℕ) → NotesCopy volume member.now.node.state copy.old copy.new }
{
    if let Some(copy) = copy {
        copy.note(member.node());
    }
}
