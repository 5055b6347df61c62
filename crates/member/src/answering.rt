//! Fronts and floors.
ghost use Rattle.std.specs.Prelude.{◌≡◌, ◌≢◌, ◌⊎◌, ◌≤◌, [], List, ℕ, None, Some, ◌↔◌, IsTrue};
ghost use Rattle.board.specs.Seats.{IsAlone, IsRuled, stepped};
ghost use Rattle.board.specs.Steps.{NeverBack};
ghost use Rattle.board.specs.declared.view.Step.TheVariants.{Look, Raise};
ghost use Rattle.disk_model.specs.Disk.{LeavesOnly};
ghost use Rattle.local_store.specs.About.{meaning_with};
ghost use Rattle.local_store.specs.Meaning.{Means};
ghost use Rattle.chain_steps.specs.Node.{last_of};
ghost use Rattle.chain_steps.specs.Steps.{answer_floor, answer_front, raised, stop};
ghost use Rattle.chain_steps.specs.declared.cause.Cause.TheVariants as causes;
ghost use Rattle.chain_steps.specs.declared.found.Found.TheVariants as found;
ghost use Rattle.chain_core.specs.Node.{IsStepOrStop, Keeps, may_raise};
ghost use Rattle.chain_core.specs.Reads.{HasBrokenOff, HasOnlyRead, IsStepOver, IsStepTo};
ghost use Rattle.member.specs.Posted.{HasAnswered, HasPosted, OrRanOut};

use crate::agreed::Agreed;
use crate::member::Member;
use board::{Board, Floor, Seat};
use chain_core::{Out, Served};
use chain_steps::Cause;
use local_store::StoreLike;
use std::alloc::Global;

impl<S: StoreLike + Drop, J: Agreed> Member<S, J> {
    /// Looks the board's front up, and keeps it until it is gone on with, or the member changes otherwise: it has this number.
    pub fn look(&mut self, board: &Board, seat: &mut Seat) -> u64
        requires of_board { J.board ≡ Some board.now }
        requires of_seat { seat.old.board ≡ board.now }
        ensures kept { Keeps found.Looked board.now seat.old.number result self.old.node self.new.node }
        ensures step { seat.new ≡ stepped seat.old (Look result) }
        ensures never_back { NeverBack 0 seat.old.steps result }
        ensures alone { IsAlone seat.new 0 result }
        ensures ruled { IsRuled seat.new }
        ensures unsent { self.new.outbox ≡ self.old.outbox }
    {
        self.node.look(board, seat)
    }

    /// Goes on with a front that was looked up: the READs that wait are answered, all at the greater of it and the known
    /// commit, and the FLUSHes that wait are bound to it. Where no such front is kept, or the member has stopped, nothing changes.
    /// Where memory runs out, or the device refuses a read, it stops, and no READ is answered.
    pub fn answer_front(&mut self, alloc: Global) -> Vec<Served>
        ensures stopped { self.old.node.state.stopped ≢ None → (self.new ≡ self.old) × (result.items ≡ []) }
        ensures answered { self.old.node.state.stopped ≡ None → HasAnswered (λ old new out. (HasOnlyRead S.keeps_model S.about S.failures S.keeps S.moment S.may_have_left_since old.store new.store
            × (IsStepOver S.keeps_model (S.keeps old.store) new.state out (λ volume. answer_front volume old.state) ⊎ IsStepTo new.state out (stop causes.Memory old.state)))
            ⊎ HasBrokenOff S.about S.failures old new out) self.old self.new result.items }
        ensures any_moment { S.keeps_model → (volume : List ℕ) → S.keeps self.old.node.store volume → self.old.node.state.stopped ≡ None
            → LeavesOnly S.moment S.may_have_left_since self.old.node.store self.new.node.store (Means (meaning_with (S.about self.old.node.store) volume)) }
    {
        if self.node.stopped().is_some() {
            return Vec::new(alloc);
        }
        let Out {
            messages: _,
            replies,
        } = self.node.answer_front();
        replies
    }

    /// Whether it is a tail that may raise the front, and runs.
    pub fn may_raise(&self) -> bool
        ensures { IsTrue result ↔ ((self.now.node.state.stopped ≡ None) × IsTrue (may_raise self.now.node.state)) }
    {
        self.node.stopped().is_none() && self.node.may_raise()
    }

    /// Raises the board's front to the last applied write, and keeps the front that is there then, of this number. The member is a tail
    /// that may raise.
    pub fn raise(&mut self, board: &Board, seat: &mut Seat) -> u64
        requires of_board { J.board ≡ Some board.now }
        requires of_seat { seat.old.board ≡ board.now }
        requires may { IsTrue (may_raise self.old.node.state) }
        ensures kept { Keeps found.Raised board.now seat.old.number result self.old.node self.new.node }
        ensures step { seat.new ≡ stepped seat.old (Raise (last_of self.old.node.state) result) }
        ensures raised { last_of self.old.node.state ≤ result }
        ensures never_back { NeverBack 0 seat.old.steps result }
        ensures alone { IsAlone seat.new 0 result }
        ensures ruled { IsRuled seat.new }
        ensures unsent { self.new.outbox ≡ self.old.outbox }
    {
        self.node.raise(board, seat)
    }

    /// The tail takes the front that it raised as its known commit: its plain writes up to it are answered, and its predecessor
    /// is told. Where no raised front is kept, nothing changes. Where memory runs out, the member stops.
    pub fn raised(&mut self) -> Vec<Served>
        ensures { HasPosted (OrRanOut (λ old new out. IsStepOrStop old new out (raised old.state))) self.old self.new result.items }
    {
        if !self.outbox.make_room() {
            return self.node.stop_by(Cause::Memory).replies;
        }
        let Out { messages, replies } = self.node.raised();
        self.outbox.post(messages);
        replies
    }

    /// Answers the writes with FUA that the floor reaches, and then the FLUSHes. The floor is one of the member's board. Where
    /// memory runs out, the member stops.
    pub fn answer_floor(&mut self, floor: &Floor) -> Vec<Served>
        requires { J.board ≡ Some floor.now.board }
        ensures { HasAnswered (λ old new out. IsStepOrStop old new out (answer_floor floor.now.front old.state)) self.old self.new result.items }
    {
        let Out {
            messages: _,
            replies,
        } = self.node.answer_floor(floor);
        replies
    }
}
