//! READs.
ghost use Rattle.std.specs.Prelude.{◌≡◌, ◌⊎◌, ◌+◌, ◌<◌, ◌≤◌, [], List, ℕ, Some, None, filter, length, map, IfErr, IfOk, OnOk};
ghost use Rattle.board.specs.Seats.{FoundFront};
ghost use Rattle.disk_model.specs.Disk.{LeavesOnly};
ghost use Rattle.local_store.specs.About.{meaning_with};
ghost use Rattle.local_store.specs.Meaning.{Means};
ghost use Rattle.version_table.specs.Held.{IsClean};
ghost use Rattle.chain_steps.specs.Node.{durable_of, last_of};
ghost use Rattle.chain_steps.specs.Steps.{answer_front, asked_bytes, looked_front, range_of, read_asked, read_at_once, stop, volume_at};
ghost use Rattle.chain_steps.specs.Waiting.{is_read};
ghost use Rattle.chain_steps.specs.declared.found.Found.TheVariants.{Looked};
ghost use Rattle.chain_core.specs.Node.{IsStep, IsStepOrStop, size_of, turned_away};
ghost use Rattle.chain_core.specs.Reads.{AreUnreadBy, HasBrokenOff, HasOnlyRead, IsReadRefused, IsStepOver, IsStepTo, IsUnreadBy, answer_with};

use crate::node::Node;
use crate::out::{Out, Served};
use crate::reading::{Unread, read_range, read_ranges};
use crate::refusal::{Refusal, Refused};
use bytes::Bytes;
use chain_steps::{Cause, Found};
use flush_barrier::OwedRead;
use local_store::StoreLike;
use std::alloc::{AllocError, Global};
use tail_query::{Plan, front_of, plan};

impl<S: StoreLike + Drop> Node<S> {
    /// Takes a READ of `length` bytes from `offset` on, at least one, in the volume. Where no write above the known commit
    /// touches a block of them, it is answered at once, at the known commit; else it waits for a front.
    ///
    /// 154 `Stopped`, 151 `NotMember`, 100 `Memory`: the token comes back, and nothing changed, but that the store may have been
    /// read where memory ran out. Where the device refuses, the member stops: the token comes back with 154, and the other tokens' refusals with it.
    pub fn read(
        &mut self,
        token: OwedRead,
        offset: u64,
        length: u32,
    ) -> Result<Out, Refused<OwedRead>>
        requires some { 0 < length }
        requires within { offset + length ≤ size_of (S.about self.old.store) }
        requires of_board { token.board ≡ self.old.state.board }
        ensures away { OnOk result (turned_away self.old.state ≡ None) }
        ensures at_once { IsClean self.old.state.table offset length self.old.state.known
            → IfOk result (λ out. IsStepOver S.keeps_model (S.keeps self.old.store) self.new.state out (λ volume. read_at_once volume offset length token self.old.state)) }
        ensures waits { ¬ IsClean self.old.state.table offset length self.old.state.known
            → IfOk result (λ out. IsStep self.old self.new out (read_asked offset length token self.old.state)) }
        ensures kept { S.keeps_model → (volume : List ℕ) → S.keeps self.old.store volume → OnOk result (S.keeps self.new.store volume) }
        ensures any_moment { S.keeps_model → (volume : List ℕ) → S.keeps self.old.store volume → LeavesOnly S.moment S.may_have_left_since self.old.store self.new.store (Means (meaning_with (S.about self.old.store) volume)) }
        ensures about { OnOk result (S.about self.new.store ≡ S.about self.old.store) }
        ensures failures { OnOk result (S.failures self.new.store ≡ S.failures self.old.store) }
        ensures back { IfErr result (λ r. r.token ≡ token) }
        ensures refused { IfErr result (λ r. IsReadRefused S.about S.failures (HasOnlyRead S.keeps_model S.about S.failures S.keeps S.moment S.may_have_left_since self.old.store self.new.store) (IsClean self.old.state.table offset length self.old.state.known) self.old self.new r.replies.items r.refusal) }
    {
        if let Some(refusal) = self.turned_away() {
            return Err(self.refused(token, refusal));
        }
        match plan(&self.table, offset, length, self.known) {
            Plan::Local => self.read_at_once(token, offset, length),
            Plan::Ask => self.read_asked(token, offset, length),
        }
    }

    /// Answers a clean READ.
    fn read_at_once(
        &mut self,
        token: OwedRead,
        offset: u64,
        length: u32,
    ) -> Result<Out, Refused<OwedRead>>
        requires runs { turned_away self.old.state ≡ None }
        requires within { offset + length ≤ size_of (S.about self.old.store) }
        requires clean { IsClean self.old.state.table offset length self.old.state.known }
        ensures answered { IfOk result (λ out. IsStepOver S.keeps_model (S.keeps self.old.store) self.new.state out (λ volume. read_at_once volume offset length token self.old.state)) }
        ensures kept { S.keeps_model → (volume : List ℕ) → S.keeps self.old.store volume → OnOk result (S.keeps self.new.store volume) }
        ensures any_moment { S.keeps_model → (volume : List ℕ) → S.keeps self.old.store volume → LeavesOnly S.moment S.may_have_left_since self.old.store self.new.store (Means (meaning_with (S.about self.old.store) volume)) }
        ensures about { OnOk result (S.about self.new.store ≡ S.about self.old.store) }
        ensures failures { OnOk result (S.failures self.new.store ≡ S.failures self.old.store) }
        ensures back { IfErr result (λ r. r.token ≡ token) }
        ensures refused { IfErr result (λ r. IsReadRefused S.about S.failures (HasOnlyRead S.keeps_model S.about S.failures S.keeps S.moment S.may_have_left_since self.old.store self.new.store) (IsClean self.old.state.table offset length self.old.state.known) self.old self.new r.replies.items r.refusal) }
    {
        let Ok(mut replies) = Vec::with_capacity(self.alloc, 1) else {
            return Err(self.refused(token, Refusal::Memory));
        };
        match self.range(offset, length, self.known) {
            Ok(bytes) => match Bytes::from_vec(bytes) {
                Ok(payload) => {
                    replies.push_reserved(Served::new(token.settle(payload)));
                    Ok(Out {
                        messages: Vec::new(self.alloc),
                        replies,
                    })
                }
                Err(_) => Err(self.refused(token, Refusal::Memory)),
            },
            Err(Unread::Memory) => Err(self.refused(token, Refusal::Memory)),
            Err(Unread::Device(error)) => {
                let Out {
                    messages: _,
                    replies,
                } = self.stop_by(Cause::Device(error));
                Err(Refused {
                    token,
                    refusal: Refusal::Stopped,
                    replies,
                })
            }
        }
    }

    /// Keeps a dirty READ.
    fn read_asked(
        &mut self,
        token: OwedRead,
        offset: u64,
        length: u32,
    ) -> Result<Out, Refused<OwedRead>>
        requires within { offset + length ≤ size_of (S.about self.old.store) }
        requires of_board { token.board ≡ self.old.state.board }
        ensures waits { IfOk result (λ out. IsStep self.old self.new out (read_asked offset length token self.old.state)) }
        ensures store { self.new.store ≡ self.old.store }
        ensures back { IfErr result (λ r. r.token ≡ token) }
        ensures refused { IfErr result (λ r. (r.refusal ≡ Refusal.Memory) × (r.replies.items ≡ []) × (self.new ≡ self.old)) }
    {
        match self.desk.push_read(token, offset, length) {
            Ok(()) => {
                self.found = None;
                Ok(self.nothing())
            }
            Err(token) => Err(self.refused(token, Refusal::Memory)),
        }
    }

    /// The `len` bytes from `offset` on of the volume after `front` writes, between the durable front and the last applied
    /// write. Where the device refuses, the member has stopped, and its tokens are still to be refused.
    pub(crate) fn range(&mut self, offset: u64, len: u32, front: u64) -> Result<Vec<u8>, Unread>
        requires runs { self.old.state.stopped ≡ None }
        requires within { offset + len ≤ size_of (S.about self.old.store) }
        requires kept { durable_of self.old.state ≤ front }
        requires applied { front ≤ last_of self.old.state }
        ensures read { S.keeps_model → (volume : List ℕ) → S.keeps self.old.store volume → IfOk result (λ bytes. bytes.items ≡ range_of (volume_at volume self.old.state front) offset len) }
        ensures kept { S.keeps_model → (volume : List ℕ) → S.keeps self.old.store volume → OnOk result (S.keeps self.new.store volume) }
        ensures any_moment { S.keeps_model → (volume : List ℕ) → S.keeps self.old.store volume → LeavesOnly S.moment S.may_have_left_since self.old.store self.new.store (Means (meaning_with (S.about self.old.store) volume)) }
        ensures about { OnOk result (S.about self.new.store ≡ S.about self.old.store) }
        ensures failures { OnOk result (S.failures self.new.store ≡ S.failures self.old.store) }
        ensures state { OnOk result (self.new.state ≡ self.old.state) }
        ensures unread { IfErr result (IsUnreadBy S.about S.failures self.old self.new) }
    {
        let unread = match read_range(
            self.alloc,
            &mut self.store,
            &self.table,
            offset,
            len,
            front,
        ) {
            Ok(bytes) => return Ok(bytes),
            Err(unread) => unread,
        };
        if let Unread::Device(error) = unread {
            self.stopped = Some(Cause::Device(error));
            self.commit = None;
        }
        Err(unread)
    }

    /// Goes on with a front that was looked up: the READs that wait are answered, all at the greater of it and the known
    /// commit, and the FLUSHes that wait are bound to it. Where no such front is kept, nothing changes. The member hasn't
    /// stopped. Where memory runs out, or the device refuses a read, it stops, and no READ is answered.
    pub fn answer_front(&mut self) -> Out
        requires { self.old.state.stopped ≡ None }
        ensures step { (HasOnlyRead S.keeps_model S.about S.failures S.keeps S.moment S.may_have_left_since self.old.store self.new.store
            × (IsStepOver S.keeps_model (S.keeps self.old.store) self.new.state result (λ volume. answer_front volume self.old.state)
            ⊎ IsStepTo self.new.state result (stop Cause.Memory self.old.state)))
            ⊎ HasBrokenOff S.about S.failures self.old self.new result }
        ensures any_moment { S.keeps_model → (volume : List ℕ) → S.keeps self.old.store volume → LeavesOnly S.moment S.may_have_left_since self.old.store self.new.store (Means (meaning_with (S.about self.old.store) volume)) }
    {
        let Some(front) = self.looked_front() else {
            return self.nothing();
        };
        if front > self.table.applied() {
            return self.stop_by(Cause::Disorder);
        }
        match self.payloads(front_of(front, self.known)) {
            Ok(payloads) => self.answer_with(payloads),
            Err(Unread::Memory) => self.stop_by(Cause::Memory),
            Err(Unread::Device(error)) => self.stop_by(Cause::Device(error)),
        }
    }

    /// The front that was looked up and is kept, if there is one.
    pub fn looked_front(&self) -> Option<u64>
        ensures { result ≡ looked_front self.now.state.found }
    {
        let Some(found) = &self.found else {
            return None;
        };
        match found {
            Found::Looked(front) => Some(front.number()),
            Found::Raised(_) => None,
        }
    }

    /// The bytes that each READ asks for, in order, of the volume after `front` writes, between the durable front and the last
    /// applied write. Where the device refuses, the member has stopped, and its tokens are still to be refused.
    fn payloads(&mut self, front: u64) -> Result<Vec<Vec<u8>>, Unread>
        requires runs { self.old.state.stopped ≡ None }
        requires kept { durable_of self.old.state ≤ front }
        requires applied { front ≤ last_of self.old.state }
        ensures read { S.keeps_model → (volume : List ℕ) → S.keeps self.old.store volume
            → IfOk result (λ all. map (λ bytes. bytes.items) all.items ≡ map (asked_bytes (volume_at volume self.old.state front)) (filter is_read self.old.state.waiting)) }
        ensures many { IfOk result (λ all. length all.items ≡ length (filter is_read self.old.state.waiting)) }
        ensures only_read { OnOk result (HasOnlyRead S.keeps_model S.about S.failures S.keeps S.moment S.may_have_left_since self.old.store self.new.store) }
        ensures state { OnOk result (self.new.state ≡ self.old.state) }
        ensures any_moment { S.keeps_model → (volume : List ℕ) → S.keeps self.old.store volume → LeavesOnly S.moment S.may_have_left_since self.old.store self.new.store (Means (meaning_with (S.about self.old.store) volume)) }
        ensures unread { IfErr result (AreUnreadBy S.about S.failures (HasOnlyRead S.keeps_model S.about S.failures S.keeps S.moment S.may_have_left_since self.old.store self.new.store) self.old self.new) }
    {
        let Ok(ranges) = self.desk.asked(self.alloc) else {
            return Err(Unread::Memory);
        };
        match read_ranges(self.alloc, &mut self.store, &self.table, &ranges, front) {
            Ok(all) => Ok(all),
            Err(unread) => match unread {
                Unread::Memory => Err(unread),
                Unread::Device(error) => {
                    self.stopped = Some(Cause::Device(error));
                    self.commit = None;
                    Err(unread)
                }
            },
        }
    }

    /// Answers the READs with these bytes, and binds the FLUSHes to the front that was looked up.
    fn answer_with(&mut self, payloads: Vec<Vec<u8>>) -> Out
        requires { length payloads.items ≡ length (filter is_read self.old.state.waiting) }
        ensures store { self.new.store ≡ self.old.store }
        ensures answered { (front : FoundFront) → self.old.state.found ≡ Some (Looked front)
            → IsStepOrStop self.old self.new result (answer_with (map (λ bytes. bytes.items) payloads.items) front.number self.old.state) }
    {
        let Ok(mut replies) = Vec::with_capacity(self.alloc, payloads.len()) else {
            return self.stop_by(Cause::Memory);
        };
        let Ok(payloads) = shared(self.alloc, payloads) else {
            return self.stop_by(Cause::Memory);
        };
        let Some(found) = &self.found else {
            return self.nothing();
        };
        let Found::Looked(front) = found else {
            return self.nothing();
        };
        self.desk.answer_reads(payloads, &mut replies);
        self.desk.bind(front);
        self.found = None;
        Out {
            messages: Vec::new(self.alloc),
            replies,
        }
    }
}

/// The same bytes, to be shared.
fn shared(alloc: Global, payloads: Vec<Vec<u8>>) -> Result<Vec<Bytes>, AllocError>
    ensures { IfOk result (λ all. all.items ≡ map (λ bytes. bytes.items) payloads.items) }
{
    let mut all = Vec::with_capacity(alloc, payloads.len())?;
    for bytes in payloads {
        all.push(Bytes::from_vec(bytes)?)?;
    }
    Ok(all)
}
