//! Commits, and what the store does beside them.
ghost use Rattle.std.specs.Prelude.{◌≡◌, ◌⊎◌, ◌<◌, ◌↔◌, [], false, length, true, List, None, ℕ, IfErr, IfNone, IfOk, IfSome, IsErrOf};
ghost use Rattle.std.specs.Option.{ForSome};
ghost use Rattle.disk_model.specs.Disk.{LeavesOnly};
ghost use Rattle.gate_journal.specs.declared.batch.TheConstants.{MAX_NUMBER};
ghost use Rattle.local_store.specs.About.{meaning_with};
ghost use Rattle.local_store.specs.Meaning.{Means};
ghost use Rattle.chain_core.specs.Node.{IsUnderWay};
ghost use Rattle.chain_steps.specs.Node.{is_stopped};
ghost use Rattle.chain.specs.Chain.{Changes, IsOfOneVolume, RestsAt};
ghost use Rattle.chain.specs.Commits.{EndsAt, HasBegunCommits, HasCheckpointed, HasEndedCommit, HasNoCommit, HasNoGroup, HasNoNumber, HasNoReceipt, HasPosted, HasTicked, IsOutOfTurn, IsUsedUpAt, LeavesAt, MeansEither, PostsAt, PostsNone, replies_of};
ghost use Rattle.chain.specs.Musters.{LacksAt};
ghost use Rattle.chain.specs.Passing.{replies_in};
ghost use Rattle.chain.specs.Member.{HasCalled};

use crate::chain::Chain;
use crate::lone_board::LoneBoard;
use crate::member::Member;
use chain_core::{Out, Refusal, Served};
use local_store::NeverLends;

impl<S: NeverLends + Drop> Member<S> {
    /// Writes the next pending block of the store home, and gives its number.
    pub(crate) fn tick(&mut self) -> Result<(Vec<Served>, Option<u32>), Refusal>
        ensures done { IfOk result (λ r. HasCalled (λ old new out. HasTicked S.keeps_model S.about S.is_pending S.failures S.keeps old new out r.1) r.0.items self.old self.new) }
        ensures any_moment { S.keeps_model → (volume : List ℕ) → S.keeps self.old.node.store volume
            → LeavesOnly S.moment S.may_have_left_since self.old.node.store self.new.node.store (Means (meaning_with (S.about self.old.node.store) volume)) }
        ensures refused { IfErr result (λ r. (r ≡ Refusal.Stopped) × (is_stopped self.old.node.state ≡ true) × (self.new ≡ self.old)) }
    {
        let (out, home) = self.node.tick()?;
        let Out {
            messages: _,
            replies,
        } = out;
        Ok((replies, home))
    }

    /// Writes all pending blocks of the store home, and empties the journal area.
    pub(crate) fn checkpoint(&mut self) -> Result<Vec<Served>, Refusal>
        ensures done { IfOk result (λ replies. HasCalled (HasCheckpointed S.keeps_model S.about S.is_pending S.failures S.keeps) replies.items self.old self.new) }
        ensures any_moment { S.keeps_model → (volume : List ℕ) → S.keeps self.old.node.store volume
            → LeavesOnly S.moment S.may_have_left_since self.old.node.store self.new.node.store (Means (meaning_with (S.about self.old.node.store) volume)) }
        ensures full { IsErrOf result Refusal.Full ↔ ((self.old.node.state.stopped ≡ None) × ((S.about self.old.node.store).stores ≡ MAX_NUMBER)) }
        ensures refused { IfErr result (λ r. ((r ≡ Refusal.Full) × HasNoNumber S.about S.is_pending S.keeps self.old self.new)
            ⊎ ((r ≡ Refusal.Stopped) × (is_stopped self.old.node.state ≡ true) × (self.new ≡ self.old))) }
    {
        if self.node.stopped().is_some() {
            return Err(Refusal::Stopped);
        }
        match self.node.checkpoint() {
            Ok(out) => {
                let Out {
                    messages: _,
                    replies,
                } = out;
                Ok(replies)
            }
            Err(refusal) => Err(refusal),
        }
    }

    /// Begins a commit of the greatest group of known writes, at most so many, for whose blocks the
    /// journal area has room. `None` out of turn: nothing changed.
    pub(crate) fn begin_commits(&mut self, most: u64) -> Result<Option<Vec<Served>>, Refusal>
        requires { 0 < most }
        ensures done { IfOk result (λ begun. IfSome begun (λ replies. HasCalled (HasBegunCommits S.keeps_model S.about S.failures S.keeps S.moment S.may_have_left_since most) replies.items self.old self.new)) }
        ensures idle { IfOk result (λ begun. IfNone begun (IsOutOfTurn self.old × (self.new ≡ self.old))) }
        ensures any_moment { S.keeps_model → (volume : List ℕ) → S.keeps self.old.node.store volume
            → LeavesOnly S.moment S.may_have_left_since self.old.node.store self.new.node.store (Means (meaning_with (S.about self.old.node.store) volume)) }
        ensures refused { IfErr result (λ r. ((r ≡ Refusal.Full) × HasNoGroup S.keeps_model S.about S.failures S.keeps S.moment S.may_have_left_since most self.old self.new)
            ⊎ ((r ≡ Refusal.Stopped) × (is_stopped self.old.node.state ≡ true) × (self.new ≡ self.old))) }
    {
        if self.node.stopped().is_some() {
            return Err(Refusal::Stopped);
        }
        if !self.node.can_begin() {
            return Ok(None);
        }
        let out = match self.node.begin_commits(most) {
            Ok(out) => out,
            Err(refusal) => return Err(refusal),
        };
        let Out {
            messages: _,
            replies,
        } = out;
        Ok(Some(replies))
    }

    /// Ends the commit under way, and keeps its receipt: an older one that wasn't posted is gone.
    /// `None` where none is under way, or once stopped: nothing changed.
    pub(crate) fn end_commit(&mut self) -> Option<Vec<Served>>
        ensures done { IfSome result (λ replies. HasEndedCommit S.keeps_model S.about S.is_pending S.failures S.keeps replies.items self.old self.new) }
        ensures any_moment { S.keeps_model → (volume : List ℕ) → S.keeps self.old.node.store volume
            → LeavesOnly S.moment S.may_have_left_since self.old.node.store self.new.node.store (MeansEither S.about self.old volume) }
        ensures idle { IfNone result (((is_stopped self.old.node.state ≡ true) ⊎ HasNoCommit self.old) × (self.new ≡ self.old)) }
        ensures under_way { ForSome self.old.node.state.commit (IsUnderWay (S.about self.old.node.store) self.old.node.state) }
    {
        self.node.sound();
        if self.node.stopped().is_some() {
            return None;
        }
        if !self.node.has_commit() {
            return None;
        }
        let (out, given) = self.node.end_commit();
        let Out {
            messages: _,
            replies,
        } = out;
        let Some(receipt) = given else {
            return Some(replies);
        };
        self.receipt = Some(receipt);
        Some(replies)
    }

    /// Posts the receipt that it kept, which is gone then. `false` where there is none, or it has
    /// stopped.
    pub(crate) fn post(&mut self, board: &mut LoneBoard) -> bool
        ensures posted { result ≡ true → HasPosted self.old self.new board.old board.new }
        ensures none { result ≡ false → HasNoReceipt self.old × (self.new ≡ self.old) × (board.new ≡ board.old) }
    {
        if self.node.stopped().is_some() {
            return false;
        }
        let Some(receipt) = self.receipt.take() else {
            return false;
        };
        board.post(receipt);
        true
    }
}

impl<S: NeverLends + Drop> Chain<S> {
    /// The store of the member at a place writes its next pending block home, whose number is
    /// given; `None` where nothing is pending, or the member stopped.
    ///
    /// 154 `Stopped` once stopped: nothing changed. Where the disk refuses, the member stops.
    pub fn tick(&mut self, at: usize) -> Result<(Vec<Served>, Option<u32>), Refusal>
        requires { at < length self.old.members }
        ensures done { IfOk result (λ r. Changes at self.old self.new (HasCalled (λ old new out. HasTicked S.keeps_model S.about S.is_pending S.failures S.keeps old new out r.1) r.0.items)) }
        ensures refused { IfErr result (λ r. (r ≡ Refusal.Stopped) × RestsAt at self.old self.new) }

        // A stop at any moment of the call leaves what the member was shown with.
        ensures any_moment { S.keeps_model → LeavesAt S.about S.keeps S.may_leave_now S.moment S.may_have_left_since at self.old self.new }
        ensures one_volume { S.keeps_model → IsOfOneVolume S.about S.keeps S.may_leave_now self.old self.new (replies_of (λ r. r.0.items) result) }
    {
        self.members[at].tick()
    }

    /// The store of the member at a place writes all its pending blocks home, and empties its
    /// journal area.
    ///
    /// 154 `Stopped` once stopped: nothing changed. Else 121 `Full` exactly where no number is left
    /// for another superblock: of the store nothing changed that is told. Where the disk refuses,
    /// the member stops.
    pub fn checkpoint(&mut self, at: usize) -> Result<Vec<Served>, Refusal>
        requires { at < length self.old.members }
        ensures done { IfOk result (λ replies. Changes at self.old self.new (HasCalled (HasCheckpointed S.keeps_model S.about S.is_pending S.failures S.keeps) replies.items)) }
        ensures full { IsErrOf result Refusal.Full ↔ IsUsedUpAt S.about at self.old }
        ensures refused { IfErr result (λ r. ((r ≡ Refusal.Full) × Changes at self.old self.new (HasNoNumber S.about S.is_pending S.keeps))
            ⊎ ((r ≡ Refusal.Stopped) × RestsAt at self.old self.new)) }

        // A stop at any moment of the call leaves what the member was shown with.
        ensures any_moment { S.keeps_model → LeavesAt S.about S.keeps S.may_leave_now S.moment S.may_have_left_since at self.old self.new }
        ensures one_volume { S.keeps_model → IsOfOneVolume S.about S.keeps S.may_leave_now self.old self.new (replies_of (λ r. r.items) result) }
    {
        self.members[at].checkpoint()
    }

    /// The member at a place begins a commit of the greatest group of known writes, at most so
    /// many, at least one, for whose blocks its journal area has room. `None` out of turn: nothing
    /// changed. Where memory runs out or the disk refuses, it stops.
    ///
    /// 154 `Stopped` once stopped: nothing changed. Else 121 `Full` where it is the turn and no
    /// group fits: a checkpoint makes room.
    pub fn begin_commits(&mut self, at: usize, most: u64) -> Result<Option<Vec<Served>>, Refusal>
        requires within { at < length self.old.members }
        requires most { 0 < most }
        ensures done { IfOk result (λ begun. IfSome begun (λ replies. Changes at self.old self.new (HasCalled (HasBegunCommits S.keeps_model S.about S.failures S.keeps S.moment S.may_have_left_since most) replies.items))) }
        ensures idle { IfOk result (λ begun. IfNone begun (LacksAt at self.old self.new IsOutOfTurn)) }
        ensures refused { IfErr result (λ r. ((r ≡ Refusal.Full) × Changes at self.old self.new (HasNoGroup S.keeps_model S.about S.failures S.keeps S.moment S.may_have_left_since most))
            ⊎ ((r ≡ Refusal.Stopped) × RestsAt at self.old self.new)) }

        // A stop at any moment of the call leaves what the member was shown with.
        ensures any_moment { S.keeps_model → LeavesAt S.about S.keeps S.may_leave_now S.moment S.may_have_left_since at self.old self.new }
        ensures one_volume { S.keeps_model → IsOfOneVolume S.about S.keeps S.may_leave_now self.old self.new (replies_in (λ replies. replies.items) result) }
    {
        self.members[at].begin_commits(most)
    }

    /// The member at a place ends the commit under way, and keeps its receipt until it is posted: an
    /// older one is gone. `None` where none is under way, or once it stopped: nothing changed. Where
    /// memory runs out or the disk refuses, it stops.
    pub fn end_commit(&mut self, at: usize) -> Option<Vec<Served>>
        requires { at < length self.old.members }
        ensures ended { IfSome result (λ replies. Changes at self.old self.new (HasEndedCommit S.keeps_model S.about S.is_pending S.failures S.keeps replies.items)) }
        ensures idle { IfNone result (RestsAt at self.old self.new ⊎ LacksAt at self.old self.new HasNoCommit) }

        // A stop at any moment of the call leaves what the member was shown with, or what the commit makes of it.
        ensures any_moment { S.keeps_model → EndsAt S.about S.keeps S.may_leave_now S.moment S.may_have_left_since at self.old self.new }
        ensures one_volume { S.keeps_model → IfSome result (λ replies. IsOfOneVolume S.about S.keeps S.may_leave_now self.old self.new replies.items) }
    {
        self.members[at].end_commit()
    }

    /// The member at a place posts the receipt that it kept, which is gone then. `false` where
    /// there is none, or it has stopped.
    pub fn post(&mut self, at: usize) -> bool
        requires { at < length self.old.members }
        ensures posted { result ≡ true → PostsAt at self.old self.new }
        ensures none { result ≡ false → PostsNone at self.old self.new }
        ensures one_volume { S.keeps_model → IsOfOneVolume S.about S.keeps S.may_leave_now self.old self.new [] }
    {
        self.members[at].post(&mut self.board)
    }
}
