//! Requests of clients.
ghost use Rattle.std.specs.Prelude.{◌≡◌, ◌<◌, ◌≤◌, ◌+◌, ◌++◌, None, Some, length, IfErr, OnOk};
ghost use Rattle.gate_journal.specs.declared.batch.TheConstants.{MAX_NUMBER};
ghost use Rattle.version_table.specs.Held.{IsClean};
ghost use Rattle.volume.specs.Writes.{Fits};
ghost use Rattle.chain_steps.specs.Steps.{flush, read_asked, read_at_once, stop, submit};
ghost use Rattle.chain_steps.specs.Waiting.{board_of};
ghost use Rattle.chain_steps.specs.declared.cause.Cause.TheVariants as causes;
ghost use Rattle.chain_core.specs.Node.{IsRefusedBy, IsStep, turned_away};
ghost use Rattle.chain_core.specs.Reads.{HasOnlyRead, IsReadRefused, IsStepOver};
ghost use Rattle.member.specs.Posted.{HasAnswered, HasPosted};
ghost use Rattle.cluster.specs.Gives.{AsksFront, GoesOn, HasAsked, HasGiven, HasLookedIfAsked, HasRefused};

use crate::seated::Seated;
use board::Board;
use chain_core::{Refusal, Refused};
use chain_steps::WriteToken;
use disk_model::HalvedDisk;
use flush_barrier::{OwedFlush, OwedRead};
use local_store::{LendingStore, StoreLike};
use mail::Given;
use member::Agreed;
use std::alloc::Global;
use volume::Write;

impl<D: HalvedDisk + Drop, J: Agreed> Seated<D, J> {
    /// `Member::submit`: its replies are given, also where the token comes back.
    pub fn write(
        &mut self,
        alloc: Global,
        given: &mut Given,
        token: WriteToken,
        write: Write,
    ) -> Result<(), (WriteToken, Refusal)>
        requires room { 1 ≤ given.old.room }
        requires of_board { J.board ≡ Some (board_of token) }
        requires inside { Fits J.size write }
        requires some { 0 < length write.bytes }
        ensures submitted { OnOk result (HasGiven (λ old new replies. HasPosted (λ old new out. IsStep old new out (submit token write old.state)) old new replies) self.old.member self.new.member given.old.replies given.new.replies) }
        ensures away { OnOk result (turned_away self.old.member.node.state ≡ None) }
        ensures back { IfErr result (λ r. r.0 ≡ token) }
        ensures refused { IfErr result (λ r. HasRefused (λ replies. IsRefusedBy (MAX_NUMBER < self.old.member.node.state.ticket) (stop causes.LastTicket self.old.member.node.state) self.old.member.node self.new.member.node replies r.1) given.old.replies given.new.replies) }
        ensures unsent { IfErr result (λ r. self.new.member.outbox ≡ self.old.member.outbox) }
        ensures seat { self.new.seat ≡ self.old.seat }
        ensures room { given.old.room ≤ given.new.room + 1 }
    {
        match self.member.submit(alloc, token, write) {
            Ok(replies) => {
                given.add(replies);
                Ok(())
            }
            Err(refused) => Err(take_back(given, refused)),
        }
    }

    /// `Member::read`, and where a token waits for a front then, one is looked up, and gone on with.
    pub fn read(
        &mut self,
        alloc: Global,
        given: &mut Given,
        board: &Board,
        token: OwedRead,
        offset: u64,
        length: u32,
    ) -> Result<(), (OwedRead, Refusal)>
        requires room { 2 ≤ given.old.room }
        requires board { J.board ≡ Some board.now }
        requires some { 0 < length }
        requires within { offset + length ≤ J.size }
        requires of_board { J.board ≡ Some token.board }
        ensures away { OnOk result (turned_away self.old.member.node.state ≡ None) }
        ensures at_once { IsClean self.old.member.node.state.table offset length self.old.member.node.state.known
            → OnOk result (HasAsked (HasAnswered (λ old new out. IsStepOver ⟦<LendingStore<D, J> as StoreLike>⟧.keeps_model (⟦<LendingStore<D, J> as StoreLike>⟧.keeps old.store) new.state out (λ volume. read_at_once volume offset length token old.state)))
            (HasLookedIfAsked (HasAnswered (GoesOn ⟦<LendingStore<D, J> as StoreLike>⟧.keeps_model ⟦<LendingStore<D, J> as StoreLike>⟧.about ⟦<LendingStore<D, J> as StoreLike>⟧.failures ⟦<LendingStore<D, J> as StoreLike>⟧.keeps ⟦<LendingStore<D, J> as StoreLike>⟧.moment ⟦<LendingStore<D, J> as StoreLike>⟧.may_have_left_since)) board.now self.old.seat.number) self.old.member self.new.member given.old.replies given.new.replies) }
        ensures waits { ¬ IsClean self.old.member.node.state.table offset length self.old.member.node.state.known
            → OnOk result (HasAsked (HasAnswered (λ old new out. IsStep old new out (read_asked offset length token old.state)))
            (HasLookedIfAsked (HasAnswered (GoesOn ⟦<LendingStore<D, J> as StoreLike>⟧.keeps_model ⟦<LendingStore<D, J> as StoreLike>⟧.about ⟦<LendingStore<D, J> as StoreLike>⟧.failures ⟦<LendingStore<D, J> as StoreLike>⟧.keeps ⟦<LendingStore<D, J> as StoreLike>⟧.moment ⟦<LendingStore<D, J> as StoreLike>⟧.may_have_left_since)) board.now self.old.seat.number) self.old.member self.new.member given.old.replies given.new.replies) }
        ensures answered { OnOk result (AsksFront self.new.member → ⊥) }
        ensures back { IfErr result (λ r. r.0 ≡ token) }
        ensures refused { IfErr result (λ r. HasRefused (λ replies. IsReadRefused ⟦<LendingStore<D, J> as StoreLike>⟧.about ⟦<LendingStore<D, J> as StoreLike>⟧.failures (HasOnlyRead ⟦<LendingStore<D, J> as StoreLike>⟧.keeps_model ⟦<LendingStore<D, J> as StoreLike>⟧.about ⟦<LendingStore<D, J> as StoreLike>⟧.failures ⟦<LendingStore<D, J> as StoreLike>⟧.keeps ⟦<LendingStore<D, J> as StoreLike>⟧.moment ⟦<LendingStore<D, J> as StoreLike>⟧.may_have_left_since self.old.member.node.store self.new.member.node.store)
            (IsClean self.old.member.node.state.table offset length self.old.member.node.state.known) self.old.member.node self.new.member.node replies r.1) given.old.replies given.new.replies) }
        ensures unsent { IfErr result (λ r. self.new.member.outbox ≡ self.old.member.outbox) }
        ensures room { given.old.room ≤ given.new.room + 2 }
    {
        match self.member.read(token, offset, length) {
            Ok(replies) => given.add(replies),
            Err(refused) => return Err(take_back(given, refused)),
        }
        self.answer_front(alloc, given, board);
        Ok(())
    }

    /// `Member::flush`, and a front is looked up for it, and gone on with: it is bound to that front.
    pub fn flush(
        &mut self,
        alloc: Global,
        given: &mut Given,
        board: &Board,
        token: OwedFlush,
    ) -> Result<(), (OwedFlush, Refusal)>
        requires room { 2 ≤ given.old.room }
        requires board { J.board ≡ Some board.now }
        requires of_board { J.board ≡ Some token.board }
        ensures away { OnOk result (turned_away self.old.member.node.state ≡ None) }
        ensures taken { OnOk result (HasAsked (HasAnswered (λ old new out. IsStep old new out (flush token old.state)))
            (HasLookedIfAsked (HasAnswered (GoesOn ⟦<LendingStore<D, J> as StoreLike>⟧.keeps_model ⟦<LendingStore<D, J> as StoreLike>⟧.about ⟦<LendingStore<D, J> as StoreLike>⟧.failures ⟦<LendingStore<D, J> as StoreLike>⟧.keeps ⟦<LendingStore<D, J> as StoreLike>⟧.moment ⟦<LendingStore<D, J> as StoreLike>⟧.may_have_left_since)) board.now self.old.seat.number) self.old.member self.new.member given.old.replies given.new.replies) }
        ensures bound { OnOk result (AsksFront self.new.member → ⊥) }
        ensures back { IfErr result (λ r. r.0 ≡ token) }
        ensures refused { IfErr result (λ r. HasRefused (λ replies. IsRefusedBy ⊥ (flush token self.old.member.node.state) self.old.member.node self.new.member.node replies r.1) given.old.replies given.new.replies) }
        ensures unsent { IfErr result (λ r. self.new.member.outbox ≡ self.old.member.outbox) }
        ensures room { given.old.room ≤ given.new.room + 2 }
    {
        match self.member.flush(token) {
            Ok(replies) => given.add(replies),
            Err(refused) => return Err(take_back(given, refused)),
        }
        self.answer_front(alloc, given, board);
        Ok(())
    }

    /// Where a token waits for a front, one is looked up, and gone on with. None waits then.
    pub(crate) fn answer_front(&mut self, alloc: Global, given: &mut Given, board: &Board)
        requires room { 1 ≤ given.old.room }
        requires board { J.board ≡ Some board.now }
        ensures looked { HasLookedIfAsked (HasAnswered (GoesOn ⟦<LendingStore<D, J> as StoreLike>⟧.keeps_model ⟦<LendingStore<D, J> as StoreLike>⟧.about ⟦<LendingStore<D, J> as StoreLike>⟧.failures ⟦<LendingStore<D, J> as StoreLike>⟧.keeps ⟦<LendingStore<D, J> as StoreLike>⟧.moment ⟦<LendingStore<D, J> as StoreLike>⟧.may_have_left_since)) board.now self.old.seat.number self.old.member self.new.member given.old.replies given.new.replies }
        ensures answered { AsksFront self.new.member → ⊥ }
        ensures room { given.old.room ≤ given.new.room + 1 }
    {
        if self.member.due().front {
            self.member.look(board, &mut self.seat);
            given.add(self.member.answer_front(alloc));
        }
    }
}

/// The token that wasn't taken, and why; the replies that its member gave meanwhile are given.
fn take_back<T>(given: &mut Given, refused: Refused<T>) -> (T, Refusal)
    requires room { 1 ≤ given.old.room }
    ensures token { result.0 ≡ refused.token }
    ensures refusal { result.1 ≡ refused.refusal }
    ensures replies { given.new.replies ≡ given.old.replies ++ refused.replies.items }
    ensures room { given.old.room ≤ given.new.room + 1 }
{
    let Refused {
        token,
        refusal,
        replies,
    } = refused;
    given.add(replies);
    (token, refusal)
}
