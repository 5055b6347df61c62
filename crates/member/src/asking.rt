//! Requests of clients.
ghost use Rattle.std.specs.Prelude.{◌≡◌, ◌<◌, ◌≤◌, ◌+◌, List, ℕ, None, Some, length, IfErr, IfOk, IsTrue, ◌↔◌, OnOk};
ghost use Rattle.disk_model.specs.Disk.{LeavesOnly};
ghost use Rattle.gate_journal.specs.declared.batch.TheConstants.{MAX_NUMBER};
ghost use Rattle.local_store.specs.About.{meaning_with};
ghost use Rattle.local_store.specs.Meaning.{Means};
ghost use Rattle.version_table.specs.Held.{IsClean};
ghost use Rattle.volume.specs.Writes.{Fits};
ghost use Rattle.chain_steps.specs.Steps.{flush, read_asked, read_at_once, stop, submit};
ghost use Rattle.chain_steps.specs.Waiting.{board_of};
ghost use Rattle.chain_steps.specs.declared.cause.Cause.TheVariants as causes;
ghost use Rattle.chain_core.specs.Node.{IsRefusedBy, IsStep, turned_away};
ghost use Rattle.chain_core.specs.Reads.{HasOnlyRead, IsReadRefused, IsStepOver};
ghost use Rattle.member.specs.Posted.{HasAnswered, HasPosted};

use crate::agreed::Agreed;
use crate::member::Member;
use chain_core::{Out, Refusal, Refused, Served};
use chain_steps::WriteToken;
use flush_barrier::{OwedFlush, OwedRead};
use local_store::StoreLike;
use std::alloc::Global;
use volume::Write;

impl<S: StoreLike + Drop, J: Agreed> Member<S, J> {
    /// Sends a write to the head, and keeps its token under the next ticket. The write lies in the volume, and has at least one byte.
    ///
    /// 154 `Stopped`, 151 `NotMember`, 100 `Memory`: the token comes back, and nothing changed. Where the greatest ticket is
    /// used, the member stops: the token comes back with 154, and the other tokens' refusals with it.
    pub fn submit(
        &mut self,
        alloc: Global,
        token: WriteToken,
        write: Write,
    ) -> Result<Vec<Served>, Refused<WriteToken>>
        requires of_board { J.board ≡ Some (board_of token) }
        requires inside { Fits J.size write }
        requires some { 0 < length write.bytes }
        ensures away { OnOk result (turned_away self.old.node.state ≡ None) }
        ensures ticket { OnOk result (self.old.node.state.ticket ≤ MAX_NUMBER) }
        ensures submitted { IfOk result (λ replies. HasPosted (λ old new out. IsStep old new out (submit token write old.state)) self.old self.new replies.items) }
        ensures back { IfErr result (λ r. r.token ≡ token) }
        ensures refused { IfErr result (λ r. IsRefusedBy (MAX_NUMBER < self.old.node.state.ticket) (stop causes.LastTicket self.old.node.state) self.old.node self.new.node r.replies.items r.refusal) }
        ensures unsent { IfErr result (λ r. self.new.outbox ≡ self.old.outbox) }
    {
        let has_room = self.outbox.make_room();
        if !has_room && self.takes_requests() {
            return Err(Refused {
                token,
                refusal: Refusal::Memory,
                replies: Vec::new(alloc),
            });
        }
        let Out { messages, replies } = self.node.submit(token, write)?;
        self.outbox.post(messages);
        Ok(replies)
    }

    /// Takes a READ of `length` bytes from `offset` on, at least one, in the volume. Where no write above the known commit
    /// touches a block of them, it is answered at once, at the known commit; else it waits for a front.
    ///
    /// 154 `Stopped`, 151 `NotMember`, 100 `Memory`: the token comes back, and nothing changed, but that the store may have been
    /// read where memory ran out. Where the device refuses, the member stops: the token comes back with 154, and the other tokens'
    /// refusals with it.
    pub fn read(
        &mut self,
        token: OwedRead,
        offset: u64,
        length: u32,
    ) -> Result<Vec<Served>, Refused<OwedRead>>
        requires some { 0 < length }
        requires within { offset + length ≤ J.size }
        requires of_board { J.board ≡ Some token.board }
        ensures away { OnOk result (turned_away self.old.node.state ≡ None) }
        ensures at_once { IsClean self.old.node.state.table offset length self.old.node.state.known
            → IfOk result (λ replies. HasAnswered (λ old new out. IsStepOver S.keeps_model (S.keeps old.store) new.state out (λ volume. read_at_once volume offset length token old.state)) self.old self.new replies.items) }
        ensures waits { ¬ IsClean self.old.node.state.table offset length self.old.node.state.known
            → IfOk result (λ replies. HasAnswered (λ old new out. IsStep old new out (read_asked offset length token old.state)) self.old self.new replies.items) }
        ensures kept { S.keeps_model → (volume : List ℕ) → S.keeps self.old.node.store volume → OnOk result (S.keeps self.new.node.store volume) }
        ensures any_moment { S.keeps_model → (volume : List ℕ) → S.keeps self.old.node.store volume
            → LeavesOnly S.moment S.may_have_left_since self.old.node.store self.new.node.store (Means (meaning_with (S.about self.old.node.store) volume)) }
        ensures about { OnOk result (S.about self.new.node.store ≡ S.about self.old.node.store) }
        ensures failures { OnOk result (S.failures self.new.node.store ≡ S.failures self.old.node.store) }
        ensures back { IfErr result (λ r. r.token ≡ token) }
        ensures refused { IfErr result (λ r. IsReadRefused S.about S.failures (HasOnlyRead S.keeps_model S.about S.failures S.keeps S.moment S.may_have_left_since self.old.node.store self.new.node.store)
            (IsClean self.old.node.state.table offset length self.old.node.state.known) self.old.node self.new.node r.replies.items r.refusal) }
        ensures unsent { self.new.outbox ≡ self.old.outbox }
    {
        let out = match self.node.read(token, offset, length) {
            Ok(out) => out,
            Err(refused) => return Err(refused),
        };
        Ok(out.replies)
    }

    /// Takes a FLUSH, which waits for the first front that is looked up behind it.
    ///
    /// 154 `Stopped`, 151 `NotMember`, 100 `Memory`: the token comes back, and nothing changed.
    pub fn flush(&mut self, token: OwedFlush) -> Result<Vec<Served>, Refused<OwedFlush>>
        requires of_board { J.board ≡ Some token.board }
        ensures away { OnOk result (turned_away self.old.node.state ≡ None) }
        ensures waits { IfOk result (λ replies. HasAnswered (λ old new out. IsStep old new out (flush token old.state)) self.old self.new replies.items) }
        ensures back { IfErr result (λ r. r.token ≡ token) }
        ensures refused { IfErr result (λ r. IsRefusedBy ⊥ (flush token self.old.node.state) self.old.node self.new.node r.replies.items r.refusal) }
        ensures unsent { self.new.outbox ≡ self.old.outbox }
    {
        let Out {
            messages: _,
            replies,
        } = self.node.flush(token)?;
        Ok(replies)
    }

    /// Whether it takes requests: it runs, and is in the chain that it was told.
    pub fn takes_requests(&self) -> bool
        ensures { IsTrue result ↔ (turned_away self.now.node.state ≡ None) }
    {
        self.node.stopped().is_none() && self.node.place().is_member()
    }
}
