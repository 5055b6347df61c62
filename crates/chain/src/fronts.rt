//! Fronts.
ghost use Rattle.std.specs.Prelude.{◌≡◌, ◌⊎◌, ◌<◌, ◌≤◌, ◌+◌, ℕ, Some, List, false, true, [], length, max, IfNone, IfSome};
ghost use Rattle.disk_model.specs.Disk.{LeavesOnly};
ghost use Rattle.local_store.specs.About.{meaning_with};
ghost use Rattle.local_store.specs.Meaning.{Means};
ghost use Rattle.chain_steps.specs.Node.{durable_of, is_stopped, last_of};
ghost use Rattle.board.specs.Seats.{FoundFront};
ghost use Rattle.chain.specs.Chain.{Changes, IsOfOneVolume, RestsAt};
ghost use Rattle.chain.specs.Commits.{LeavesAt};
ghost use Rattle.chain.specs.Fronts.{HasAnswered, HasKnown, HasLooked, HasNoLooked, HasNoRaised, HasRaised, KnowsTo, MayNotRaise, RaisesAt};
ghost use Rattle.chain.specs.Musters.{LacksAt};
ghost use Rattle.chain.specs.LoneBoard.{raised};

use crate::chain::Chain;
use crate::lone_board::LoneBoard;
use crate::member::Member;
use chain_core::{Out, Served};
use chain_steps::{Cause, Envelope, Found};
use local_store::StoreLike;
use std::collections::VecDeque;

impl<S: StoreLike + Drop> Member<S> {
    /// Looks the committed front up, and keeps it. Once stopped, nothing changes.
    pub(crate) fn look(&mut self, board: &mut LoneBoard) -> bool
        requires { self.old.node.state.board ≡ board.old.id }
        ensures looked { result ≡ true → HasLooked board.old.words.front self.old self.new }
        ensures stopped { result ≡ false → (is_stopped self.old.node.state ≡ true) × (self.new ≡ self.old) }
        ensures board { board.new ≡ board.old }
    {
        if self.node.stopped().is_some() {
            return false;
        }
        board.look_for(&mut self.node);
        true
    }

    /// Raises the committed front to its last applied write if it is below, and keeps the front that is there then. Once stopped,
    /// nothing changes.
    pub(crate) fn raise(&mut self, board: &mut LoneBoard) -> bool
        requires { self.old.node.state.board ≡ board.old.id }
        ensures raised { result ≡ true → HasRaised (max board.old.words.front (last_of self.old.node.state)) self.old self.new }
        ensures words { result ≡ true → board.new ≡ record board.old { words = raised board.old.words (last_of self.old.node.state) } }
        ensures stopped { result ≡ false → (is_stopped self.old.node.state ≡ true) × (self.new ≡ self.old) × (board.new ≡ board.old) }
    {
        if self.node.stopped().is_some() {
            return false;
        }
        board.raise_for(&mut self.node);
        true
    }

    /// Goes on with the front that it looked up. `None` where none is kept, or once stopped: nothing changed. Where memory runs out, or
    /// the device refuses a read, it stops.
    pub(crate) fn answer_front(&mut self) -> Option<Vec<Served>>
        ensures answered { IfSome result (λ replies. HasAnswered S.keeps_model S.about S.failures S.keeps S.moment S.may_have_left_since replies.items self.old self.new) }
        ensures idle { IfNone result (((is_stopped self.old.node.state ≡ true) ⊎ HasNoLooked self.old) × (self.new ≡ self.old)) }
        ensures front { IfSome result (λ replies. (S.about self.old.node.store).front ≡ durable_of self.old.node.state) }
        ensures any_moment { S.keeps_model → (volume : List ℕ) → S.keeps self.old.node.store volume
            → IfSome result (λ replies. LeavesOnly S.moment S.may_have_left_since self.old.node.store self.new.node.store (Means (meaning_with (S.about self.old.node.store) volume))) }
    {
        if self.node.stopped().is_some() {
            return None;
        }
        if self.node.looked_front().is_none() {
            return None;
        }
        self.node.sound();
        Some(self.node.answer_front().replies)
    }

    /// Takes the front that it raised as its known commit: its plain writes up to it are answered, and the one before it is told
    /// along a link. `None` where none is kept, or once stopped: nothing changed. Where memory runs out, it stops.
    pub(crate) fn raised(&mut self, to: &mut VecDeque<Envelope>) -> Option<Vec<Served>>
        ensures known { IfSome result (λ replies. KnowsTo replies.items to.old.items to.new.items self.old self.new) }
        ensures above { IfSome result (λ replies. (front : FoundFront) → self.old.node.state.found ≡ Some (Found.Raised front) → self.old.node.state.known ≤ front.number) }
        ensures idle { IfNone result (((is_stopped self.old.node.state ≡ true) ⊎ HasNoRaised self.old) × (self.new ≡ self.old) × (to.new.items ≡ to.old.items)) }
    {
        if self.node.stopped().is_some() {
            return None;
        }
        if self.node.raised_front().is_none() {
            return None;
        }
        self.node.sound();
        if to.reserve(1).is_err() {
            return Some(self.node.stop_by(Cause::Memory).replies);
        }
        let Out {
            mut messages,
            replies,
        } = self.node.raised();
        if let Some(sent) = messages.pop() {
            to.push_back_reserved(sent.envelope);
        }
        Some(replies)
    }
}

impl<S: StoreLike + Drop> Chain<S> {
    /// The member at a place looks the committed front up, and keeps it. Once it stopped, nothing changes.
    pub fn look(&mut self, at: usize) -> bool
        requires { at < length self.old.members }
        ensures looked { result ≡ true → Changes at self.old self.new (HasLooked self.old.words.front) }
        ensures stopped { result ≡ false → RestsAt at self.old self.new }
        ensures one_volume { S.keeps_model → IsOfOneVolume S.about S.keeps S.may_leave_now self.old self.new [] }
    {
        self.members[at].look(&mut self.board)
    }

    /// The member at a place, a tail that has its Turn and holds the front for no joiner, raises the committed front to its last applied
    /// write if it is below, and keeps the front that is there then. Where another member is at the place, nothing changes; nor once
    /// it stopped.
    pub fn raise(&mut self, at: usize) -> bool
        requires { at < length self.old.members }
        ensures raised { result ≡ true → RaisesAt at self.old self.new }
        ensures idle { result ≡ false → LacksAt at self.old self.new MayNotRaise ⊎ RestsAt at self.old self.new }
        ensures one_volume { S.keeps_model → IsOfOneVolume S.about S.keeps S.may_leave_now self.old self.new [] }
    {
        if self.members[at].cause().is_none() && !self.members[at].node.may_raise() {
            return false;
        }
        self.members[at].raise(&mut self.board)
    }

    /// The member at a place goes on with the front that it looked up. `None` where it keeps none, or once it stopped: nothing changed.
    /// Where memory runs out, or its device refuses a read, it stops.
    pub fn answer_front(&mut self, at: usize) -> Option<Vec<Served>>
        requires { at < length self.old.members }
        ensures answered { IfSome result (λ replies. Changes at self.old self.new (HasAnswered S.keeps_model S.about S.failures S.keeps S.moment S.may_have_left_since replies.items)) }
        ensures idle { IfNone result (RestsAt at self.old self.new ⊎ LacksAt at self.old self.new HasNoLooked) }

        // A stop at any moment of the call leaves what the member was shown with.
        ensures any_moment { S.keeps_model → LeavesAt S.about S.keeps S.may_leave_now S.moment S.may_have_left_since at self.old self.new }
        ensures one_volume { S.keeps_model → IfSome result (λ replies. IsOfOneVolume S.about S.keeps S.may_leave_now self.old self.new replies.items) }
    {
        self.members[at].answer_front()
    }

    /// The member at a place takes the front that it raised as its known commit: its plain writes up to it are answered, and the one
    /// before it is told. `None` where it keeps none, or once it stopped: nothing changed. It stops where memory runs out, or the front is
    /// above its last write, which none is in a chain.
    pub fn raised(&mut self, at: usize) -> Option<Vec<Served>>
        requires { at < length self.old.members }
        ensures known { IfSome result (λ replies. HasKnown at replies.items self.old self.new) }
        ensures idle { IfNone result (RestsAt at self.old self.new ⊎ LacksAt at self.old self.new HasNoRaised) }
        ensures one_volume { S.keeps_model → IfSome result (λ replies. IsOfOneVolume S.about S.keeps S.may_leave_now self.old self.new replies.items) }
    {
        let slot = self.members[at].slot();
        let to = self.members[at].node.place().predecessor().unwrap_or(slot);
        let mut link = VecDeque::new(self.alloc);
        self.links.exchange(slot, to, &mut link);
        let replies = self.members[at].raised(&mut link);
        self.links.exchange(slot, to, &mut link);
        replies
    }
}
