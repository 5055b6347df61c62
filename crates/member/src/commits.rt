//! Commits, and what the store does beside them.
ghost use Rattle.std.specs.Prelude.{◌≡◌, ◌≢◌, ◌⊎◌, ◌↔◌, ◌<◌, ℕ, List, None, Some, true, IfErr, IfNone, IfOk, IfSome, IsErrOf, IsOk, OnErr, OnOk};
ghost use Rattle.disk_model.specs.Disk.{LeavesOnly};
ghost use Rattle.disk_model.specs.Error.{MayTell};
ghost use Rattle.disk_model.specs.declared.error.DiskError.TheVariants.{ReadFault, WriteFault};
ghost use Rattle.gate_journal.specs.Image.{Image as Imaged};
ghost use Rattle.gate_journal.specs.declared.batch.TheConstants.{MAX_NUMBER};
ghost use Rattle.local_store.specs.About.{HasNeighbours, HasRoom, IsWithoutRun, meaning_with, one_checkpoint_more};
ghost use Rattle.local_store.specs.Meaning.{Means};
ghost use Rattle.chain_steps.specs.Node.{is_stopped};
ghost use Rattle.chain_steps.specs.Steps.{Begins, CanBegin, IsGroup, silent};
ghost use Rattle.chain_core.specs.Commits.{HasBegun, HasRunOut, HasStoppedBy, HasWorked};
ghost use Rattle.chain_core.specs.Node.{IsStep};
ghost use Rattle.chain_core.specs.Reads.{HasOnlyRead};
ghost use Rattle.member.specs.Posted.{HasAnswered};

use crate::agreed::Agreed;
use crate::member::Member;
use chain_core::{Out, Refusal, Served};
use flusher::Run;
use local_store::StoreLike;

impl<S: StoreLike + Drop, J: Agreed> Member<S, J> {
    /// Begins a commit of the greatest group of known writes, at most so many, at least one, for whose blocks the journal area has
    /// room. Out of turn nothing changes. Where memory runs out or the disk refuses, the member stops.
    ///
    /// 154 `Stopped` once stopped; else 121 `Full` where it is the turn and no group fits: a checkpoint makes room.
    pub fn begin_commits(&mut self, most: u64) -> Result<Vec<Served>, Refusal>
        requires most { 0 < most }
        ensures idle { ¬ CanBegin self.old.node.state → IfOk result (λ replies. HasAnswered (λ old new out. IsStep old new out (silent old.state)) self.old self.new replies.items) }
        ensures begun { S.keeps_model → (volume : List ℕ) → S.keeps self.old.node.store volume → CanBegin self.old.node.state
            → OnOk result (self.new.node.state.stopped ≡ None → Begins (HasRoom (S.about self.old.node.store)) volume most self.old.node.state self.new.node.state) }
        ensures worked { CanBegin self.old.node.state → IfOk result (λ replies. HasAnswered (λ old new out. HasBegun (HasOnlyRead S.keeps_model S.about S.failures S.keeps S.moment S.may_have_left_since old.store new.store) old new out
            ⊎ HasRunOut S.about old new out ⊎ HasStoppedBy S.about S.failures (MayTell ReadFault) old new out) self.old self.new replies.items) }
        ensures kept { S.keeps_model → (volume : List ℕ) → S.keeps self.old.node.store volume → self.new.node.state.stopped ≡ None → S.keeps self.new.node.store volume }
        ensures any_moment { S.keeps_model → (volume : List ℕ) → S.keeps self.old.node.store volume
            → LeavesOnly S.moment S.may_have_left_since self.old.node.store self.new.node.store (Means (meaning_with (S.about self.old.node.store) volume)) }
        ensures full { IsErrOf result Refusal.Full → CanBegin self.old.node.state
            × ((volume : List ℕ) (q : ℕ) (images : List Imaged) → IsGroup (HasRoom (S.about self.old.node.store)) volume most self.old.node.state q images → ⊥) }
        ensures stopped { IsErrOf result Refusal.Stopped ↔ (is_stopped self.old.node.state ≡ true) }
        ensures refused { IfErr result (λ r. (r ≡ Refusal.Full) ⊎ (r ≡ Refusal.Stopped)) }
        ensures unchanged { OnErr result ((self.new.node.state ≡ self.old.node.state)
            × HasOnlyRead S.keeps_model S.about S.failures S.keeps S.moment S.may_have_left_since self.old.node.store self.new.node.store) }
        ensures unsent { self.new.outbox ≡ self.old.outbox }
    {
        let out = match self.node.begin_commits(most) {
            Ok(out) => out,
            Err(refusal) => return Err(refusal),
        };
        Ok(out.replies)
    }

    /// Writes the next pending block home, and those behind it without a gap, at most so many, at least one, by one device
    /// call, and gives the run; `None` where nothing is pending, or the member stopped.
    ///
    /// 154 `Stopped` once stopped; else 100 `Memory` where there is no room for the run's bytes, of which one block needs
    /// none: these change nothing. Where the disk refuses, the member stops.
    pub fn tick_run(&mut self, most: u32) -> Result<(Vec<Served>, Option<Run>), Refusal>
        requires { 0 < most }
        ensures worked { IfOk result (λ done. HasAnswered (λ old new out. HasWorked S.about (S.about old.store) old new out
            ⊎ ((done.1 ≡ None) × HasStoppedBy S.about S.failures (MayTell WriteFault) old new out)) self.old self.new done.0.items) }
        ensures home { IfOk result (λ done. IfSome done.1 (λ run. IsWithoutRun most run (S.is_pending self.old.node.store) (S.is_pending self.new.node.store))) }
        ensures none { IfOk result (λ done. self.new.node.state.stopped ≡ None → IfNone done.1 ((b : ℕ) → S.is_pending self.old.node.store b → ⊥)) }
        ensures kept { S.keeps_model → (volume : List ℕ) → S.keeps self.old.node.store volume → OnOk result (self.new.node.state.stopped ≡ None → S.keeps self.new.node.store volume) }
        ensures any_moment { S.keeps_model → (volume : List ℕ) → S.keeps self.old.node.store volume
            → LeavesOnly S.moment S.may_have_left_since self.old.node.store self.new.node.store (Means (meaning_with (S.about self.old.node.store) volume)) }
        ensures memory { IsErrOf result Refusal.Memory → (1 < most) × HasNeighbours (S.is_pending self.old.node.store) }
        ensures stopped { IsErrOf result Refusal.Stopped ↔ (is_stopped self.old.node.state ≡ true) }
        ensures refused { IfErr result (λ r. (r ≡ Refusal.Memory) ⊎ (r ≡ Refusal.Stopped)) }
        ensures unchanged { OnErr result ((self.new.node.state ≡ self.old.node.state) × (S.about self.new.node.store ≡ S.about self.old.node.store)
            × ((volume : List ℕ) → S.keeps self.old.node.store volume → S.keeps self.new.node.store volume)) }
        ensures unsent { self.new.outbox ≡ self.old.outbox }
    {
        let (out, run) = self.node.tick_run(most)?;
        let Out {
            messages: _,
            replies,
        } = out;
        Ok((replies, run))
    }

    /// Writes all pending blocks home, and empties the journal area. After it nothing is pending, unless the member stopped. `None`
    /// exactly where its log is lent out: nothing changed.
    ///
    /// 154 `Stopped` once stopped; else 121 `Full` exactly where no number is left for another superblock: these change
    /// nothing. Where the disk refuses, the member stops.
    pub fn checkpoint(&mut self) -> Result<Option<Vec<Served>>, Refusal>
        ensures lent { (S.about self.old.node.store).lent ≢ None → IsOk result × IfOk result (λ done. done ≡ None) × (self.new ≡ self.old) }
        ensures home { (S.about self.old.node.store).lent ≡ None → IfOk result (λ done. IfNone done ⊥) }
        ensures worked { IfOk result (λ done. IfSome done (λ replies. HasAnswered (λ old new out. HasWorked S.about (one_checkpoint_more (S.about old.store)) old new out
            ⊎ HasStoppedBy S.about S.failures (λ error. error ≢ ReadFault) old new out) self.old self.new replies.items)) }
        ensures empty { IfOk result (λ done. IfSome done (λ replies. self.new.node.state.stopped ≡ None → (b : ℕ) → S.is_pending self.new.node.store b → ⊥)) }
        ensures kept { S.keeps_model → (volume : List ℕ) → S.keeps self.old.node.store volume → OnOk result (self.new.node.state.stopped ≡ None → S.keeps self.new.node.store volume) }
        ensures any_moment { S.keeps_model → (volume : List ℕ) → S.keeps self.old.node.store volume → (S.about self.old.node.store).lent ≡ None
            → LeavesOnly S.moment S.may_have_left_since self.old.node.store self.new.node.store (Means (meaning_with (S.about self.old.node.store) volume)) }
        ensures full { (S.about self.old.node.store).lent ≡ None → IsErrOf result Refusal.Full ↔ ((self.old.node.state.stopped ≡ None) × ((S.about self.old.node.store).stores ≡ MAX_NUMBER)) }
        ensures refused { IfErr result (λ r. (r ≡ Refusal.Full) ⊎ ((r ≡ Refusal.Stopped) × (is_stopped self.old.node.state ≡ true))) }
        ensures unchanged { OnErr result ((self.new.node.state ≡ self.old.node.state) × (S.about self.new.node.store ≡ S.about self.old.node.store)
            × ((volume : List ℕ) → S.keeps self.old.node.store volume → S.keeps self.new.node.store volume)) }
        ensures unsent { self.new.outbox ≡ self.old.outbox }
    {
        if self.node.store().is_lent() {
            return Ok(None);
        }
        let Out {
            messages: _,
            replies,
        } = self.node.checkpoint()?;
        Ok(Some(replies))
    }
}
