//! A commit that is lent out: it is journaled on its own, while the member goes on.
ghost use Rattle.std.specs.Prelude.{◌≡◌, ◌≢◌, ◌⊎◌, ◌↔◌, ℕ, ◌<◌, List, Any, None, Some, IfErr, IfNone, IfOk, IfSome, IsNone, IsSome, MatchResult, OnErr, OnOk, max, true};
ghost use Rattle.disk_model.specs.declared.error.DiskError.{DiskError};
ghost use Rattle.disk_model.specs.declared.error.DiskError.TheVariants.{Memory, ReadFault};
ghost use Rattle.local_store.specs.About.{one_commit_more};
ghost use Rattle.local_store.specs.Away.{IsLogOf};
ghost use Rattle.local_store.specs.Refusal.{by_journal};
ghost use Rattle.chain_steps.specs.Steps.{silent, volume_at};
ghost use Rattle.chain_steps.specs.declared.cause.Cause.TheVariants as causes;
ghost use Rattle.chain_core.specs.Commits.{cause_of};
ghost use Rattle.chain_core.specs.Node.{IsStep};
ghost use Rattle.chain_core.specs.Lending.{CanLend, HasFinished, HasHalted, HasLent, HasTakenBack};

use crate::commits::cause_of;
use crate::node::Node;
use crate::out::Out;
use disk_model::HalvedDisk;
use gate_journal::Synced;
use loans::Rings;
use local_store::{CommitWork, Journaled, LendingStore, StoreLike};

impl<D: HalvedDisk + Drop, J: Rings> Node<LendingStore<D, J>> {
    /// Lends out the log, with the commit under way, which is to be journaled on it. Until it is back, the member goes on at its durable
    /// front. `None` where no commit is under way, or it is lent: nothing changes; and where memory runs out: the member stops.
    pub fn lend_commit(&mut self) -> (Out, Option<CommitWork<D::Log, J>>)
        ensures idle { ¬ CanLend ⟦<LendingStore<D, J> as StoreLike>⟧.about self.old → IsStep self.old self.new result.0 (silent self.old.state) × (result.1 ≡ None) }
        ensures lent { IfSome result.1 (λ work. HasLent ⟦<LendingStore<D, J> as StoreLike>⟧.about self.old self.new result.0 work.loan) }
        ensures side { IfSome result.1 (λ work. work.side ≡ self.new.store.lender) }
        ensures memory { CanLend ⟦<LendingStore<D, J> as StoreLike>⟧.about self.old → IfNone result.1 (HasHalted ⟦<LendingStore<D, J> as StoreLike>⟧.about (⟦<LendingStore<D, J> as StoreLike>⟧.about self.old.store) causes.Memory self.old self.new result.0) }
        ensures kept { D.keeps_model → (volume : List ℕ) → ⟦<LendingStore<D, J> as StoreLike>⟧.keeps self.old.store volume → ⟦<LendingStore<D, J> as StoreLike>⟧.keeps self.new.store volume }
        ensures still { (b : ℕ) → ⟦<LendingStore<D, J> as StoreLike>⟧.is_pending self.new.store b ↔ ⟦<LendingStore<D, J> as StoreLike>⟧.is_pending self.old.store b }
        ensures failures { (D.failures self.new.store.disk ≡ D.failures self.old.store.disk) × IfSome result.1 (λ work. D.Log.failures work.loan.log ≡ D.failures self.old.store.disk) }
    {
        if self.store.is_lent() {
            return (self.nothing(), None);
        }
        let Some(commit) = &self.commit else {
            return (self.nothing(), None);
        };
        match self
            .store
            .lend_commit(self.alloc, commit.front, &commit.images)
        {
            Ok(work) => (self.nothing(), Some(work)),
            Err(refusal) => {
                let cause = cause_of(refusal);
                self.commit = None;
                self.stopped = Some(cause);
                (self.stop_by(cause), None)
            }
        }
    }

    /// Takes the log back, and ends the commit that was lent: its front is the durable one, and the receipt says so. Where memory ran out
    /// or the disk refused, the member stops; where it has stopped meanwhile, its store is broken then. There is no receipt then.
    ///
    /// What isn't the commit that was lent comes back: nothing changes.
    pub fn finish_commit(
        &mut self,
        done: Journaled<D::Log, J>,
    ) -> Result<(Out, Option<Synced>), Journaled<D::Log, J>>
        ensures own { OnOk result (IfSome self.old.store.lent (λ l. IsLogOf self.old.store.contents l (D.Log.size done.log) done.outcome) × IsSome self.old.store.lent × (done.side ≡ self.old.store.lender)) }
        ensures strange { OnErr result (IfSome self.old.store.lent (λ l. IsLogOf self.old.store.contents l (D.Log.size done.log) done.outcome) → IsSome self.old.store.lent → done.side ≢ self.old.store.lender) }
        ensures back { IfErr result (λ strange. strange ≡ done) }
        ensures same { OnErr result ((self.new.state ≡ self.old.state) × (⟦<LendingStore<D, J> as StoreLike>⟧.about self.new.store ≡ ⟦<LendingStore<D, J> as StoreLike>⟧.about self.old.store)
            × ((volume : List ℕ) → ⟦<LendingStore<D, J> as StoreLike>⟧.keeps self.old.store volume → ⟦<LendingStore<D, J> as StoreLike>⟧.keeps self.new.store volume)) }
        ensures finished { IfOk result (λ r. IfSome r.1 (HasFinished ⟦<LendingStore<D, J> as StoreLike>⟧.about self.old self.new r.0)) }
        ensures stopped { self.old.state.stopped ≢ None → IfOk result (λ r. (r.1 ≡ None) × HasTakenBack ⟦<LendingStore<D, J> as StoreLike>⟧.about self.old self.new r.0) }
        ensures refused { self.old.state.stopped ≡ None → IfOk result (λ r. IfNone r.1 (
            HasHalted ⟦<LendingStore<D, J> as StoreLike>⟧.about (record (⟦<LendingStore<D, J> as StoreLike>⟧.about self.old.store) { lent = None }) causes.Memory self.old self.new r.0
            ⊎ ((error : DiskError) × (error ≢ ReadFault) × (error ≢ Memory → D.Log.failures done.loan.log < D.failures self.new.store.disk)
            × HasHalted ⟦<LendingStore<D, J> as StoreLike>⟧.about (record (⟦<LendingStore<D, J> as StoreLike>⟧.about self.old.store) { broken = true; lent = None }) (causes.Device error) self.old self.new r.0))) }
        // Of a member that runs, what came of the commit is what the journal told of it.
        ensures answer { self.old.state.stopped ≡ None → IfOk result (λ r. MatchResult done.outcome (λ receipt. r.1 ≡ Some receipt) (λ refusal. (r.1 ≡ None) × (self.new.state.stopped ≡ Some (cause_of (by_journal refusal))))) }
        ensures kept { D.keeps_model → (volume : List ℕ) → ⟦<LendingStore<D, J> as StoreLike>⟧.keeps self.old.store volume
            → IfOk result (λ r. IfSome r.1 (λ receipt. ⟦<LendingStore<D, J> as StoreLike>⟧.keeps self.new.store (volume_at volume self.old.state receipt.front))) }
        ensures failures { OnOk result (D.failures self.new.store.disk ≡ max (D.failures self.old.store.disk) (D.Log.failures done.log)) }
    {
        let mut done = done;
        if !self.store.is_log_of(&mut done) {
            return Err(done);
        }
        if self.stopped.is_some() {
            self.store.take_back(done);
            return Ok((self.nothing(), None));
        }
        match self.store.finish_commit(done) {
            Ok(receipt) => {
                self.table.forget_to(receipt.front());
                self.commit = None;
                self.found = None;
                Ok((self.nothing(), Some(receipt)))
            }
            Err(refusal) => {
                let cause = cause_of(refusal);
                self.commit = None;
                self.stopped = Some(cause);
                Ok((self.stop_by(cause), None))
            }
        }
    }
}
