//! A disk that joins: the board counts it, it is recorded, and then it is a member's.
ghost use Rattle.std.specs.Prelude.{◌≡◌, ◌≢◌, ◌⊎◌, ◌↔◌, ◌<◌, ◌++◌, ◌∷◌, [], All, List, ℕ, None, false, true, IfErr, IfOk, IsTrue, length};
ghost use Rattle.chain_core.specs.Node.{size_of};
ghost use Rattle.configurations.specs.Record.{AreMembers};
ghost use Rattle.local_store.specs.About.{IsOfVersionTwo};
ghost use Rattle.chain.specs.Joining.{HasCountedIn, HasEndedJoin, HoldsAsTail, IsCopyAt, IsNobody, IsOfOneVolumeJoining, IsNew, IsOfStore, IsSettled, IsWithOne, MayBeginJoin, MayCountIn, MayEndJoin, receipt_of};
ghost use Rattle.chain.specs.Recording.{HasBegunRecord};

use crate::chain::Chain;
use crate::member::Member;
use crate::opening::copy_of;
use crate::recording::{are_same, are_told};
use chain_core::Refusal;
use configurations::{Member as Recorded, Record};
use gate_journal::{Slot, Synced};
use local_store::StoreLike;
use std::mem;
use volume::Geometry;

/// Whether each member that runs holds the front, if it is a tail.
fn are_holding<S: StoreLike + Drop>(members: &[Member<S>]) -> bool
    ensures { IsTrue result ↔ All (λ m. HoldsAsTail m.node.state) members.now }
{
    members.iter().all(|member| member.holds_as_tail())
}

/// Whether two volumes have the same sizes.
fn have_same_sizes(one: Geometry, other: Geometry) -> bool
    ensures { IsTrue result ↔ (one ≡ other) }
{
    one == other
}

/// Whether a receipt is that of all that a store's disk holds.
fn is_own<S: StoreLike + Drop>(receipt: &Synced, store: &S) -> bool
    ensures { IsTrue result ↔ (receipt.now ≡ receipt_of S.about store.now) }
{
    receipt.slot() == store.slot() && receipt.front() == store.front()
}

/// Whether nobody stands at a slot.
fn is_free<S: StoreLike + Drop>(members: &[Member<S>], slot: Slot) -> bool
    ensures { IsTrue result ↔ All (λ m. m.node.state.place.slot ≢ slot) members.now }
{
    members.iter().all(|member| member.slot() != slot)
}

/// Whether members are those of a chain, and one more behind them, of a slot and an incarnation.
fn is_with(members: &[Recorded], chain: &[Recorded], slot: Slot, incarnation: u64) -> bool
    ensures { IsTrue result ↔ (members.now ≡ chain.now ++ record { slot = slot; incarnation = incarnation } ∷ []) }
{
    if members.len() != chain.len() + 1 {
        return false;
    }
    let last = members[chain.len()];
    last.slot == slot
        && last.incarnation.number() == incarnation
        && are_same(&members[..chain.len()], chain)
}

impl<S: StoreLike + Drop> Chain<S> {
    /// The receipt of a store's disk, which joins, is posted, and the board counts its slot. The member at a place holds the store's front,
    /// and all that run were told the recorded chain, and hold if they are its tail. The incarnation is above all that were recorded,
    /// nobody stands at the slot, and no record is being written. The receipt comes back where that isn't so: nothing changed.
    pub fn count_in(&mut self, at: usize, store: &S, receipt: Synced) -> Result<(), Synced>
        requires { at < length self.old.members }
        ensures counted { IfOk result (λ _. MayCountIn S.about at store.now receipt self.old × HasCountedIn receipt self.old self.new) }
        ensures back { IfErr result (λ given. ¬ MayCountIn S.about at store.now receipt self.old × ((given ≡ receipt) × (self.new ≡ self.old))) }

        // Where the disk has a copy of what the holder has, it is the joiner's from then on.
        ensures one_volume { S.keeps_model → IsCopyAt S.keeps at store.now self.old
            → IfOk result (λ _. IsOfOneVolumeJoining S.about S.keeps S.may_leave_now IsNobody (IsOfStore S.about S.keeps store.now) [] self.old self.new) }
    {
        if !self.may_count_in(at, store, &receipt) {
            return Err(receipt);
        }
        let slot = receipt.slot();
        self.board.post(receipt);
        self.board.count_in(slot);
        Ok(())
    }

    /// The next record is being written, in which the store's disk, which joins, is behind the recorded members. It has the epoch behind
    /// the recorded one's, which is the disk's incarnation, and no other one is being written; and the store has the volume's sizes.
    /// `false` where that isn't so: nothing changed.
    pub fn begin_join(&mut self, store: &S, next: Record) -> bool
        ensures begun { result ≡ true → MayBeginJoin S.about store.now next self.old × HasBegunRecord next self.old self.new }
        ensures idle { result ≡ false → ¬ MayBeginJoin S.about store.now next self.old × (self.new ≡ self.old) }
        ensures one_volume { S.keeps_model → result ≡ true
            → IsOfOneVolumeJoining S.about S.keeps S.may_leave_now (IsOfStore S.about S.keeps store.now) (IsOfStore S.about S.keeps store.now) [] self.old self.new }
    {
        if self.writing.is_some() || !self.adds(store, &next) {
            return false;
        }
        self.writing = Some(next);
        true
    }

    /// The record with the store's disk is durable: it is the recorded one, and whose store it is is a member, which was told it. The
    /// store isn't broken, its disk is of version 2, its log is there, and it keeps a volume of its size.
    ///
    /// 151 `NotMember` where no such record was being written. Else 100 `Memory`, so that it can be tried again. The store comes back,
    /// and nothing changed.
    pub fn end_join(&mut self, store: S) -> Result<(), (Refusal, S)>
        requires runs { (S.about store).broken ≡ false }
        requires version { IsOfVersionTwo (S.about store) }
        requires here { (S.about store).lent ≡ None }
        requires keeps { S.keeps_model → (volume : List ℕ) × S.keeps store volume × (length volume ≡ size_of (S.about store)) }
        ensures ended { IfOk result (λ _. MayEndJoin S.about store self.old × HasEndedJoin S.about store self.old self.new) }
        ensures refused { IfErr result (λ e. ((e.0 ≡ Refusal.NotMember) × ¬ MayEndJoin S.about store self.old) ⊎ ((e.0 ≡ Refusal.Memory) × MayEndJoin S.about store self.old)) }
        ensures back { IfErr result (λ e. (e.1 ≡ store) × (self.new ≡ self.old)) }
        ensures one_volume { S.keeps_model → IfOk result (λ _. IsOfOneVolumeJoining S.about S.keeps S.may_leave_now (IsOfStore S.about S.keeps store) IsNobody ([] ∷ []) self.old self.new) }
    {
        let Some(next) = self.writing.take() else {
            return Err((Refusal::NotMember, store));
        };
        if !self.adds(&store, &next) {
            self.writing = Some(next);
            return Err((Refusal::NotMember, store));
        }
        let Ok(told) = copy_of(self.alloc, &next) else {
            self.writing = Some(next);
            return Err((Refusal::Memory, store));
        };
        if self.members.reserve(1).is_err() {
            self.writing = Some(next);
            return Err((Refusal::Memory, store));
        }
        self.youngest = store.incarnation();
        self.before = mem::replace(&mut self.recorded, next);
        let member = Member::join(self.alloc, self.board.board(), told, store);
        self.members.push_reserved(member);
        Ok(())
    }

    /// Whether the record with a store's disk behind the recorded members is being written.
    pub fn may_end_join(&self, store: &S) -> bool
        ensures { IsTrue result ↔ MayEndJoin S.about store.now self.now }
    {
        match &self.writing {
            Some(next) => self.adds(store, next),
            None => false,
        }
    }

    /// Whether a store's disk may be counted, whose front the member at a place holds.
    fn may_count_in(&self, at: usize, store: &S, receipt: &Synced) -> bool
        requires { at < length self.now.members }
        ensures { IsTrue result ↔ MayCountIn S.about at store.now receipt.now self.now }
    {
        if !self.is_settled() {
            return false;
        }
        if !self.is_new(store) {
            return false;
        }
        if !is_own(receipt, store) {
            return false;
        }
        self.members[at].is_holding(store.front())
    }

    /// Whether no record is being written, and each member that runs was told the recorded chain, and holds the front if it is its tail.
    fn is_settled(&self) -> bool
        ensures { IsTrue result ↔ IsSettled self.now }
    {
        if self.writing.is_some() {
            return false;
        }
        if !are_told(&self.members, self.recorded.epoch()) {
            return false;
        }
        are_holding(&self.members)
    }

    /// Whether a store's disk has an incarnation above all that were recorded, and a slot at which nobody stands.
    fn is_new(&self, store: &S) -> bool
        ensures { IsTrue result ↔ IsNew S.about store.now self.now }
    {
        self.youngest < store.incarnation() && is_free(&self.members, store.slot())
    }

    /// Whether a record has the recorded members, and a store's disk behind them.
    fn adds(&self, store: &S, next: &Record) -> bool
        ensures added { IsTrue result ↔ IsWithOne S.about store.now self.now next.now }
        ensures were { AreMembers self.now.recorded.members }
        ensures are { AreMembers next.now.members }
    {
        let recorded = self.recorded.members();
        let members = next.members();
        let epoch = next.epoch().number();
        if !have_same_sizes(store.geometry(), self.geometry) {
            return false;
        }
        if epoch != self.recorded.epoch().number() + 1 {
            return false;
        }
        if store.incarnation() != epoch {
            return false;
        }
        is_with(members, recorded, store.slot(), epoch)
    }
}
