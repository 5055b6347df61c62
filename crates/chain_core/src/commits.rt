//! Commits, and what the store does beside them.
ghost use Rattle.std.specs.Prelude.{◌≡◌, ◌≢◌, ◌⊎◌, ◌↔◌, ℕ, ◌<◌, ◌≤◌, List, Any, None, true, IfErr, IfNone, IfOk, IfSome, IsErrOf, IsSomeAnd, IsTrue, OnErr, OnOk, is_some};
ghost use Rattle.disk_model.specs.Disk.{LeavesOnly};
ghost use Rattle.disk_model.specs.declared.error.DiskError.TheVariants.{ReadFault, WriteFault};
ghost use Rattle.disk_model.specs.Error.{MayTell};
ghost use Rattle.gate_journal.specs.declared.batch.TheConstants.{MAX_NUMBER};
ghost use Rattle.gate_journal.specs.Image.{Image as Imaged};
ghost use Rattle.local_store.specs.About.{HasNeighbours, HasRoom, IsOneLess, IsWithoutRun, meaning_with, one_checkpoint_more};
ghost use Rattle.local_store.specs.Meaning.{Means};
ghost use Rattle.chain_steps.specs.Node.{is_stopped};
ghost use Rattle.chain_steps.specs.Steps.{Begins, CanBegin, IsGroup, silent, volume_at};
ghost use Rattle.chain_core.specs.Node.{IsStep};
ghost use Rattle.chain_core.specs.Commits.{HasBegun, HasEnded, HasRunOut, HasStoppedBy, HasWorked, IsCause, cause_of};
ghost use Rattle.chain_core.specs.Reads.{HasOnlyRead};

use crate::groups::group_of;
use crate::node::Node;
use crate::out::Out;
use crate::reading::Unread;
use crate::refusal::Refusal;
use chain_steps::Cause;
use flusher::Run;
use gate_journal::Synced;
use local_store::{Refusal as StoreRefusal, StoreLike};

impl<S: StoreLike + Drop> Node<S> {
    /// Ends the commit under way: its front is the durable one, and the receipt says so. Where none is under way, nothing
    /// changes. Where memory runs out or the disk refuses, the member stops, and there is no receipt. The log is there.
    pub fn end_commit(&mut self) -> (Out, Option<Synced>)
        requires here { (S.about self.old.store).lent ≡ None }
        ensures idle { IfNone self.old.state.commit (IsStep self.old self.new result.0 (silent self.old.state) × (result.1 ≡ None)) }
        ensures ended { IfSome self.old.state.commit (λ commit. IfSome result.1 (HasEnded S.about self.old self.new result.0 commit)) }
        ensures stopped { IfSome self.old.state.commit (λ commit. IfNone result.1
            (HasRunOut S.about self.old self.new result.0 ⊎ HasStoppedBy S.about S.failures (λ error. error ≢ ReadFault) self.old self.new result.0)) }
        ensures pends { IfSome self.old.state.commit (λ commit. IfSome result.1 (λ receipt. (b : ℕ) → S.is_pending self.new.store b ↔ (S.is_pending self.old.store b ⊎ Any (λ image. image.block ≡ b) commit.images))) }
        ensures still { IfSome self.old.state.commit (λ commit. IfNone result.1 ((b : ℕ) → S.is_pending self.new.store b ↔ S.is_pending self.old.store b)) }
        ensures kept { S.keeps_model → (volume : List ℕ) → S.keeps self.old.store volume → IfSome result.1 (λ receipt. S.keeps self.new.store (volume_at volume self.old.state receipt.front)) }

        ensures failures { IfSome result.1 (λ receipt. S.failures self.new.store ≡ S.failures self.old.store) }

        // A stop at any moment of the call leaves what means the old front and volume, or those of the commit.
        ensures any_moment { S.keeps_model → (volume : List ℕ) → S.keeps self.old.store volume → LeavesOnly S.moment S.may_have_left_since self.old.store self.new.store
            (λ c. Means (meaning_with (S.about self.old.store) volume) c
            ⊎ IsSomeAnd self.old.state.commit (λ commit. Means (meaning_with (record (S.about self.old.store) { front = commit.front }) (volume_at volume self.old.state commit.front)) c)) }
    {
        let Some(commit) = self.commit.take() else {
            return (self.nothing(), None);
        };
        match self.store.commit(self.alloc, commit.front, &commit.images) {
            Ok(receipt) => {
                self.found = None;
                self.table.forget_to(commit.front);
                (self.nothing(), Some(receipt))
            }
            Err(refusal) => {
                let cause = cause_of(refusal);
                self.stopped = Some(cause);
                (self.stop_by(cause), None)
            }
        }
    }

    /// Whether a commit is under way.
    pub fn has_commit(&self) -> bool
        ensures { result ≡ is_some self.now.state.commit }
    {
        self.commit.is_some()
    }

    /// Whether it is the turn of a commit: none is under way, and there is a known write that isn't durable.
    pub fn can_begin(&self) -> bool
        ensures { IsTrue result ↔ CanBegin self.now.state }
    {
        self.commit.is_none() && self.table.forgotten() < self.known
    }

    /// Begins a commit of the greatest group of known writes, at most so many, at least one, for whose blocks the journal area has
    /// room. Out of turn nothing changes. Where memory runs out or the disk refuses, the member stops.
    ///
    /// 154 `Stopped` once stopped; else 121 `Full` where it is the turn and no group fits: a checkpoint makes room.
    pub fn begin_commits(&mut self, most: u64) -> Result<Out, Refusal>
        requires most { 0 < most }
        ensures runs { OnOk result (self.old.state.stopped ≡ None) }
        ensures idle { ¬ CanBegin self.old.state → IfOk result (λ out. IsStep self.old self.new out (silent self.old.state)) }
        ensures begun { S.keeps_model → (volume : List ℕ) → S.keeps self.old.store volume → CanBegin self.old.state
            → OnOk result (self.new.state.stopped ≡ None → Begins (HasRoom (S.about self.old.store)) volume most self.old.state self.new.state) }
        ensures worked { CanBegin self.old.state → IfOk result (λ out. HasBegun (HasOnlyRead S.keeps_model S.about S.failures S.keeps S.moment S.may_have_left_since self.old.store self.new.store) self.old self.new out
            ⊎ HasRunOut S.about self.old self.new out ⊎ HasStoppedBy S.about S.failures (MayTell ReadFault) self.old self.new out) }
        ensures kept { S.keeps_model → (volume : List ℕ) → S.keeps self.old.store volume → self.new.state.stopped ≡ None → S.keeps self.new.store volume }

        // A stop at any moment of the call leaves what means what it meant.
        ensures any_moment { S.keeps_model → (volume : List ℕ) → S.keeps self.old.store volume → LeavesOnly S.moment S.may_have_left_since self.old.store self.new.store (Means (meaning_with (S.about self.old.store) volume)) }
        ensures full { IsErrOf result Refusal.Full → CanBegin self.old.state × ((volume : List ℕ) (q : ℕ) (images : List Imaged) → IsGroup (HasRoom (S.about self.old.store)) volume most self.old.state q images → ⊥) }
        ensures stopped { IsErrOf result Refusal.Stopped ↔ (is_stopped self.old.state ≡ true) }
        ensures refused { IfErr result (λ r. (r ≡ Refusal.Full) ⊎ (r ≡ Refusal.Stopped)) }
        ensures unchanged { OnErr result ((self.new.state ≡ self.old.state) × HasOnlyRead S.keeps_model S.about S.failures S.keeps S.moment S.may_have_left_since self.old.store self.new.store) }
    {
        if self.stopped.is_some() {
            return Err(Refusal::Stopped);
        }
        let durable = self.table.forgotten();
        if self.commit.is_some() || durable == self.known {
            return Ok(self.nothing());
        }
        let limit = durable + most.min(self.known - durable);
        match group_of(self.alloc, &mut self.store, &self.table, limit) {
            Ok(Some(commit)) => {
                self.commit = Some(commit);
                self.found = None;
                Ok(self.nothing())
            }
            Ok(None) => Err(Refusal::Full),
            Err(Unread::Memory) => Ok(self.stop_by(Cause::Memory)),
            Err(Unread::Device(error)) => {
                let cause = Cause::Device(error);
                self.commit = None;
                self.stopped = Some(cause);
                Ok(self.stop_by(cause))
            }
        }
    }

    /// Begins a commit of the next known write, as `begin_commits` does.
    pub fn begin_commit(&mut self) -> Result<Out, Refusal>
        ensures runs { OnOk result (self.old.state.stopped ≡ None) }
        ensures idle { ¬ CanBegin self.old.state → IfOk result (λ out. IsStep self.old self.new out (silent self.old.state)) }
        ensures begun { S.keeps_model → (volume : List ℕ) → S.keeps self.old.store volume → CanBegin self.old.state
            → OnOk result (self.new.state.stopped ≡ None → Begins (HasRoom (S.about self.old.store)) volume 1 self.old.state self.new.state) }
        ensures worked { CanBegin self.old.state → IfOk result (λ out. HasBegun (HasOnlyRead S.keeps_model S.about S.failures S.keeps S.moment S.may_have_left_since self.old.store self.new.store) self.old self.new out
            ⊎ HasRunOut S.about self.old self.new out ⊎ HasStoppedBy S.about S.failures (MayTell ReadFault) self.old self.new out) }
        ensures kept { S.keeps_model → (volume : List ℕ) → S.keeps self.old.store volume → self.new.state.stopped ≡ None → S.keeps self.new.store volume }

        // A stop at any moment of the call leaves what means what it meant.
        ensures any_moment { S.keeps_model → (volume : List ℕ) → S.keeps self.old.store volume → LeavesOnly S.moment S.may_have_left_since self.old.store self.new.store (Means (meaning_with (S.about self.old.store) volume)) }
        ensures full { IsErrOf result Refusal.Full → CanBegin self.old.state × ((volume : List ℕ) (q : ℕ) (images : List Imaged) → IsGroup (HasRoom (S.about self.old.store)) volume 1 self.old.state q images → ⊥) }
        ensures stopped { IsErrOf result Refusal.Stopped ↔ (is_stopped self.old.state ≡ true) }
        ensures refused { IfErr result (λ r. (r ≡ Refusal.Full) ⊎ (r ≡ Refusal.Stopped)) }
        ensures unchanged { OnErr result ((self.new.state ≡ self.old.state) × HasOnlyRead S.keeps_model S.about S.failures S.keeps S.moment S.may_have_left_since self.old.store self.new.store) }
    {
        self.begin_commits(1)
    }

    /// Writes the next pending block home, and gives its number; `None` where nothing is pending, or the member stopped.
    ///
    /// 154 `Stopped` once stopped: nothing changed. Where the disk refuses, the member stops.
    pub fn tick(&mut self) -> Result<(Out, Option<u32>), Refusal>
        ensures runs { OnOk result (self.old.state.stopped ≡ None) }
        ensures worked { IfOk result (λ done. HasWorked S.about (S.about self.old.store) self.old self.new done.0
            ⊎ ((done.1 ≡ None) × HasStoppedBy S.about S.failures (MayTell WriteFault) self.old self.new done.0)) }
        ensures home { IfOk result (λ done. IfSome done.1 (λ block. IsOneLess block (S.is_pending self.old.store) (S.is_pending self.new.store))) }
        ensures none { IfOk result (λ done. self.new.state.stopped ≡ None → IfNone done.1 ((b : ℕ) → S.is_pending self.old.store b → ⊥)) }
        ensures still { OnOk result (is_stopped self.new.state ≡ true → (b : ℕ) → S.is_pending self.new.store b ↔ S.is_pending self.old.store b) }
        ensures kept { S.keeps_model → (volume : List ℕ) → S.keeps self.old.store volume → OnOk result (self.new.state.stopped ≡ None → S.keeps self.new.store volume) }

        ensures failures { OnOk result (self.new.state.stopped ≡ None → S.failures self.new.store ≡ S.failures self.old.store) }

        // A stop at any moment of the call leaves what means what it meant.
        ensures any_moment { S.keeps_model → (volume : List ℕ) → S.keeps self.old.store volume → LeavesOnly S.moment S.may_have_left_since self.old.store self.new.store (Means (meaning_with (S.about self.old.store) volume)) }
        ensures refused { IfErr result (λ r. (r ≡ Refusal.Stopped) × (is_stopped self.old.state ≡ true) × (self.new ≡ self.old)) }
    {
        if self.stopped.is_some() {
            return Err(Refusal::Stopped);
        }
        match self.store.tick() {
            Ok(given) => Ok((self.nothing(), given)),
            Err(StoreRefusal::Device(error)) => {
                let cause = Cause::Device(error);
                self.commit = None;
                self.stopped = Some(cause);
                Ok((self.stop_by(cause), None))
            }
            Err(_) => unreachable!(),
        }
    }

    /// Writes the next pending block home, and those behind it without a gap, at most so many, at least one, by one device
    /// call, and gives the run; `None` where nothing is pending, or the member stopped.
    ///
    /// 154 `Stopped` once stopped; else 100 `Memory` where there is no room for the run's bytes, of which one block needs
    /// none: these change nothing. Where the disk refuses, the member stops.
    pub fn tick_run(&mut self, most: u32) -> Result<(Out, Option<Run>), Refusal>
        requires { 0 < most }
        ensures runs { OnOk result (self.old.state.stopped ≡ None) }
        ensures worked { IfOk result (λ done. HasWorked S.about (S.about self.old.store) self.old self.new done.0
            ⊎ ((done.1 ≡ None) × HasStoppedBy S.about S.failures (MayTell WriteFault) self.old self.new done.0)) }
        ensures home { IfOk result (λ done. IfSome done.1 (λ run. IsWithoutRun most run (S.is_pending self.old.store) (S.is_pending self.new.store))) }
        ensures none { IfOk result (λ done. self.new.state.stopped ≡ None → IfNone done.1 ((b : ℕ) → S.is_pending self.old.store b → ⊥)) }
        ensures still { OnOk result (is_stopped self.new.state ≡ true → (b : ℕ) → S.is_pending self.new.store b ↔ S.is_pending self.old.store b) }
        ensures kept { S.keeps_model → (volume : List ℕ) → S.keeps self.old.store volume → OnOk result (self.new.state.stopped ≡ None → S.keeps self.new.store volume) }

        ensures failures { OnOk result (self.new.state.stopped ≡ None → S.failures self.new.store ≡ S.failures self.old.store) }

        // A stop at any moment of the call leaves what means what it meant.
        ensures any_moment { S.keeps_model → (volume : List ℕ) → S.keeps self.old.store volume → LeavesOnly S.moment S.may_have_left_since self.old.store self.new.store (Means (meaning_with (S.about self.old.store) volume)) }
        ensures memory { IsErrOf result Refusal.Memory → (1 < most) × HasNeighbours (S.is_pending self.old.store) }
        ensures stopped { IsErrOf result Refusal.Stopped ↔ (is_stopped self.old.state ≡ true) }
        ensures refused { IfErr result (λ r. (r ≡ Refusal.Memory) ⊎ (r ≡ Refusal.Stopped)) }
        ensures unchanged { OnErr result ((self.new.state ≡ self.old.state) × (S.about self.new.store ≡ S.about self.old.store)
            × ((volume : List ℕ) → S.keeps self.old.store volume → S.keeps self.new.store volume) × ((b : ℕ) → S.is_pending self.new.store b ↔ S.is_pending self.old.store b)) }
    {
        if self.stopped.is_some() {
            return Err(Refusal::Stopped);
        }
        match self.store.tick_run(most) {
            Ok(given) => Ok((self.nothing(), given)),
            Err(StoreRefusal::Memory) => Err(Refusal::Memory),
            Err(StoreRefusal::Device(error)) => {
                let cause = Cause::Device(error);
                self.commit = None;
                self.stopped = Some(cause);
                let out = self.stop_by(cause);
                Ok((out, None))
            }
            Err(_) => unreachable!(),
        }
    }

    /// Writes all pending blocks home, and empties the journal area. After it nothing is pending, unless the member stopped. The
    /// log is there.
    ///
    /// 154 `Stopped` once stopped; else 121 `Full` exactly where no number is left for another superblock: these change
    /// nothing. Where the disk refuses, the member stops.
    pub fn checkpoint(&mut self) -> Result<Out, Refusal>
        requires here { (S.about self.old.store).lent ≡ None }
        ensures runs { OnOk result (self.old.state.stopped ≡ None) }
        ensures worked { IfOk result (λ out. HasWorked S.about (one_checkpoint_more (S.about self.old.store)) self.old self.new out
            ⊎ HasStoppedBy S.about S.failures (λ error. error ≢ ReadFault) self.old self.new out) }
        ensures empty { OnOk result (self.new.state.stopped ≡ None → (b : ℕ) → S.is_pending self.new.store b → ⊥) }
        ensures kept { S.keeps_model → (volume : List ℕ) → S.keeps self.old.store volume → OnOk result (self.new.state.stopped ≡ None → S.keeps self.new.store volume) }

        ensures failures { OnOk result (self.new.state.stopped ≡ None → S.failures self.new.store ≡ S.failures self.old.store) }

        // A stop at any moment of the call leaves what means what it meant.
        ensures any_moment { S.keeps_model → (volume : List ℕ) → S.keeps self.old.store volume → LeavesOnly S.moment S.may_have_left_since self.old.store self.new.store (Means (meaning_with (S.about self.old.store) volume)) }
        ensures full { IsErrOf result Refusal.Full ↔ ((self.old.state.stopped ≡ None) × ((S.about self.old.store).stores ≡ MAX_NUMBER)) }
        ensures stopped { IsErrOf result Refusal.Stopped ↔ (is_stopped self.old.state ≡ true) }
        ensures refused { IfErr result (λ r. (r ≡ Refusal.Full) ⊎ (r ≡ Refusal.Stopped)) }
        ensures unchanged { OnErr result ((self.new.state ≡ self.old.state) × (S.about self.new.store ≡ S.about self.old.store)
            × ((volume : List ℕ) → S.keeps self.old.store volume → S.keeps self.new.store volume) × ((b : ℕ) → S.is_pending self.new.store b ↔ S.is_pending self.old.store b)) }
    {
        if self.stopped.is_some() {
            return Err(Refusal::Stopped);
        }
        match self.store.checkpoint() {
            Ok(()) => Ok(self.nothing()),
            Err(StoreRefusal::Full) => Err(Refusal::Full),
            Err(StoreRefusal::Device(error)) => {
                let cause = Cause::Device(error);
                self.commit = None;
                self.stopped = Some(cause);
                Ok(self.stop_by(cause))
            }
            Err(_) => unreachable!(),
        }
    }
}

/// Why a member stops whose store refused so.
pub(crate) fn cause_of(refusal: StoreRefusal) -> Cause
    requires { IsCause refusal }
    ensures { result ≡ cause_of refusal }
{
    match refusal {
        StoreRefusal::Memory => Cause::Memory,
        StoreRefusal::Device(error) => Cause::Device(error),
        _ => unreachable!(),
    }
}
