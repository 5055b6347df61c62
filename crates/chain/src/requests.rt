//! Requests.
ghost use Rattle.std.specs.Prelude.{◌≡◌, ◌⊎◌, ◌<◌, ◌≤◌, ◌+◌, ◌++◌, ℕ, List, All, None, [], length, map, IfErr, IfOk, OnErr, OnOk};
ghost use Rattle.disk_model.specs.Disk.{LeavesOnly};
ghost use Rattle.gate_journal.specs.declared.batch.TheConstants.{MAX_NUMBER};
ghost use Rattle.local_store.specs.About.{meaning_with};
ghost use Rattle.local_store.specs.Meaning.{Means};
ghost use Rattle.volume.specs.Writes.{Fits};
ghost use Rattle.chain_steps.specs.Steps.{flush, stop, submit};
ghost use Rattle.chain_steps.specs.Waiting.{board_of};
ghost use Rattle.chain_core.specs.Node.{IsRefusedBy, size_of};
ghost use Rattle.chain.specs.Asking.{HasFlushed, HasPleaAt, HasRead, HasSubmitted, IsTurnedAway, IsUnnumbered, IsUnreadAt, ReadsSo, TakesOfOneVolume, asked_by, flush_by, read_by};
ghost use Rattle.chain.specs.Chain.{Changes, IsOfOneVolume, bytes_of};
ghost use Rattle.chain.specs.Commits.{LeavesAt};

use crate::chain::Chain;
use crate::member::Member;
use crate::messages::send;
use chain_core::{Node, Out, Refusal, Refused, Served};
use chain_steps::{Cause, Envelope, WriteToken};
use flush_barrier::{OwedFlush, OwedRead};
use gate_journal::MAX_NUMBER;
use local_store::StoreLike;
use std::alloc::Global;
use std::collections::VecDeque;
use volume::Write;

/// A node submits a write along a link. Where the link can't grow, nothing changes.
fn submit_to<S: StoreLike + Drop>(
    alloc: Global,
    node: &mut Node<S>,
    link: &mut VecDeque<Envelope>,
    token: WriteToken,
    write: Write,
) -> Result<(), Refused<WriteToken>>
    requires of_board { board_of token ≡ node.old.state.board }
    ensures runs { OnOk result (node.old.state.stopped ≡ None) }
    ensures ticket { OnOk result (node.old.state.ticket ≤ MAX_NUMBER) }
    ensures node { OnOk result (node.new ≡ record { store = node.old.store; state = (submit token write node.old.state).node }) }
    ensures link { OnOk result (link.new.items ≡ link.old.items ++ map (λ sent. sent.envelope) (submit token write node.old.state).out.messages) }
    ensures back { IfErr result (λ r. r.token ≡ token) }
    ensures still { OnErr result (link.new.items ≡ link.old.items) }
    ensures refused { IfErr result (λ r. IsRefusedBy (MAX_NUMBER < node.old.state.ticket) (stop Cause.LastTicket node.old.state) node.old node.new r.replies.items r.refusal
        ⊎ ((r.refusal ≡ Refusal.Memory) × (node.old.state.stopped ≡ None) × (node.new ≡ node.old) × (r.replies.items ≡ []))) }
{
    if node.stopped().is_none() && link.reserve(1).is_err() {
        return Err(Refused {
            token,
            refusal: Refusal::Memory,
            replies: Vec::new(alloc),
        });
    }
    let Out {
        messages,
        replies: _,
    } = node.submit(token, write)?;
    send(messages, link);
    Ok(())
}

impl<S: StoreLike + Drop> Member<S> {
    /// Takes a FLUSH.
    pub(crate) fn flush(&mut self, token: OwedFlush) -> Result<(), Refused<OwedFlush>>
        requires of_board { token.board ≡ self.old.node.state.board }
        ensures flushed { OnOk result (HasFlushed token self.old self.new) }
        ensures back { IfErr result (λ r. r.token ≡ token) }
        ensures refused { IfErr result (λ r. IsTurnedAway ⊥ (flush token self.old.node.state) r.replies.items r.refusal self.old self.new) }
    {
        let Out {
            messages: _,
            replies: _,
        } = self.node.flush(token)?;
        Ok(())
    }

    /// Takes a READ.
    pub(crate) fn read(
        &mut self,
        token: OwedRead,
        offset: u64,
        len: u32,
    ) -> Result<Vec<Served>, Refused<OwedRead>>
        requires some { 0 < len }
        requires within { offset + len ≤ size_of (S.about self.old.node.store) }
        requires of_board { token.board ≡ self.old.node.state.board }
        ensures read { IfOk result (λ replies. HasRead (ReadsSo S.keeps_model S.about S.keeps S.moment S.may_have_left_since offset len token) replies.items self.old self.new) }
        ensures back { IfErr result (λ r. r.token ≡ token) }
        ensures refused { IfErr result (λ r. IsUnreadAt S.keeps_model S.about S.failures S.keeps S.moment S.may_have_left_since offset len r.replies.items r.refusal self.old self.new) }
        ensures any_moment { S.keeps_model → (volume : List ℕ) → S.keeps self.old.node.store volume
            → LeavesOnly S.moment S.may_have_left_since self.old.node.store self.new.node.store (Means (meaning_with (S.about self.old.node.store) volume)) }
        ensures inside { All (λ k. Fits (size_of (S.about self.old.node.store)) k.write) self.old.node.state.table.kept }
    {
        self.node.sound();
        let out = match self.node.read(token, offset, len) {
            Ok(out) => out,
            Err(refused) => return Err(refused),
        };
        let Out {
            messages: _,
            replies,
        } = out;
        Ok(replies)
    }
}

impl<S: StoreLike + Drop> Chain<S> {
    /// The member at a place sends a write of its sessions to the head, and keeps its token under the next ticket. The write has at
    /// least one byte, and lies in the volume; the token is of the chain's board, and has no number.
    ///
    /// 154 `Stopped`, 100 `Memory`: the token comes back, and nothing changed. Where the greatest ticket is
    /// used, the member stops: the token comes back with 154, and the other tokens' refusals with it.
    pub fn submit(
        &mut self,
        at: usize,
        token: WriteToken,
        write: Write,
    ) -> Result<(), Refused<WriteToken>>
        requires at { at < length self.old.members }
        requires of_board { board_of token ≡ self.old.id }
        requires unnumbered { IsUnnumbered token }
        requires inside { Fits (bytes_of self.old) write }
        requires some { 0 < length write.bytes }
        ensures submitted { OnOk result (HasSubmitted at token write self.old self.new) }
        ensures back { IfErr result (λ r. r.token ≡ token) }
        ensures refused { IfErr result (λ r. Changes at self.old self.new (λ old new. IsTurnedAway (MAX_NUMBER < old.node.state.ticket) (stop Cause.LastTicket old.node.state) r.replies.items r.refusal old new)) }
        ensures pleads { IfErr result (λ r. HasPleaAt at self.new r.refusal) }
        ensures takes { S.keeps_model → OnOk result (TakesOfOneVolume S.about S.keeps S.may_leave_now at (asked_by token write) self.old self.new []) }
        ensures one_volume { S.keeps_model → IfErr result (λ r. IsOfOneVolume S.about S.keeps S.may_leave_now self.old self.new r.replies.items) }
    {
        let slot = self.members[at].slot();
        let head = self.members[at].node.place().head();
        let mut link = VecDeque::new(self.alloc);
        self.submits.exchange(slot, head, &mut link);
        let taken = submit_to(
            self.alloc,
            &mut self.members[at].node,
            &mut link,
            token,
            write,
        );
        self.submits.exchange(slot, head, &mut link);
        taken
    }

    /// The member at a place takes a FLUSH of its sessions, which waits for the first front that is looked up behind it. The token
    /// is of the chain's board, and has no number.
    ///
    /// 154 `Stopped`, 100 `Memory`: the token comes back, and nothing changed.
    pub fn flush(&mut self, at: usize, token: OwedFlush) -> Result<(), Refused<OwedFlush>>
        requires at { at < length self.old.members }
        requires of_board { token.board ≡ self.old.id }
        requires unnumbered { token.number ≡ None }
        ensures flushed { OnOk result (Changes at self.old self.new (HasFlushed token)) }
        ensures back { IfErr result (λ r. r.token ≡ token) }
        ensures refused { IfErr result (λ r. Changes at self.old self.new (λ old new. IsTurnedAway ⊥ (flush token old.node.state) r.replies.items r.refusal old new)) }
        ensures pleads { IfErr result (λ r. HasPleaAt at self.new r.refusal) }
        ensures takes { S.keeps_model → OnOk result (TakesOfOneVolume S.about S.keeps S.may_leave_now at (flush_by token) self.old self.new []) }
        ensures one_volume { S.keeps_model → IfErr result (λ r. IsOfOneVolume S.about S.keeps S.may_leave_now self.old self.new r.replies.items) }
    {
        self.members[at].flush(token)
    }

    /// The member at a place takes a READ of its sessions, of `len` bytes from `offset` on, at least one, in the volume. Where no
    /// write above its known commit touches a block of them, it is answered at once, at the known commit; else it waits for the first
    /// front that is looked up behind it. The token is of the chain's board.
    ///
    /// 154 `Stopped`, 100 `Memory`: the token comes back, and nothing changed, but that the store may have been read
    /// where memory ran out. Where the device refuses, the member stops: the token comes back with 154, and the other tokens' refusals
    /// with it.
    pub fn read(
        &mut self,
        at: usize,
        token: OwedRead,
        offset: u64,
        len: u32,
    ) -> Result<Vec<Served>, Refused<OwedRead>>
        requires at { at < length self.old.members }
        requires of_board { token.board ≡ self.old.id }
        requires some { 0 < len }
        requires inside { offset + len ≤ bytes_of self.old }
        ensures read { IfOk result (λ replies. Changes at self.old self.new (HasRead (ReadsSo S.keeps_model S.about S.keeps S.moment S.may_have_left_since offset len token) replies.items)) }
        ensures back { IfErr result (λ r. r.token ≡ token) }
        ensures refused { IfErr result (λ r. Changes at self.old self.new (IsUnreadAt S.keeps_model S.about S.failures S.keeps S.moment S.may_have_left_since offset len r.replies.items r.refusal)) }
        ensures pleads { IfErr result (λ r. HasPleaAt at self.new r.refusal) }

        // A stop at any moment of the call leaves what the member was shown with.
        ensures any_moment { S.keeps_model → LeavesAt S.about S.keeps S.may_leave_now S.moment S.may_have_left_since at self.old self.new }
        ensures takes { S.keeps_model → IfOk result (λ replies. TakesOfOneVolume S.about S.keeps S.may_leave_now at (read_by token offset len) self.old self.new replies.items) }
        ensures one_volume { S.keeps_model → IfErr result (λ r. IsOfOneVolume S.about S.keeps S.may_leave_now self.old self.new r.replies.items) }
    {
        self.members[at].read(token, offset, len)
    }
}
