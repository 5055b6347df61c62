//! A commit that is lent out: it is journaled on its own, while the member goes on.
ghost use Rattle.std.specs.Prelude.{◌≡◌, ◌≢◌, ◌⊎◌, ◌<◌, ℕ, List, None, true, IfErr, IfNone, IfOk, IfSome, IsSome, MatchResult, OnErr, OnOk, max, ◌↔◌};
ghost use Rattle.disk_model.specs.declared.error.DiskError.{DiskError};
ghost use Rattle.disk_model.specs.declared.error.DiskError.TheVariants.{Memory, ReadFault};
ghost use Rattle.local_store.specs.Away.{IsLogOf};
ghost use Rattle.local_store.specs.Refusal.{by_journal};
ghost use Rattle.chain_steps.specs.Steps.{silent, volume_at};
ghost use Rattle.chain_steps.specs.declared.cause.Cause.TheVariants as causes;
ghost use Rattle.chain_core.specs.Commits.{cause_of};
ghost use Rattle.chain_core.specs.Lending.{CanLend, HasFinished, HasHalted, HasLent, HasTakenBack};
ghost use Rattle.chain_core.specs.Node.{IsStep};
ghost use Rattle.member.specs.Posted.{HasAnswered};

use crate::agreed::Agreed;
use crate::member::Member;
use chain_core::{Out, Served};
use disk_model::HalvedDisk;
use gate_journal::Synced;
use local_store::{CommitWork, Journaled, LendingStore, StoreLike};

impl<D: HalvedDisk + Drop, J: Agreed> Member<LendingStore<D, J>, J> {
    /// Lends out the log, with the commit under way, which is to be journaled on it. Until it is back, the member goes on at its durable
    /// front. `None` where no commit is under way, or it is lent: nothing changes; and where memory runs out: the member stops.
    pub fn lend_commit(&mut self) -> (Vec<Served>, Option<CommitWork<D::Log, J>>)
        ensures idle { ¬ CanLend ⟦<LendingStore<D, J> as StoreLike>⟧.about self.old.node → HasAnswered (λ old new out. IsStep old new out (silent old.state)) self.old self.new result.0.items × (result.1 ≡ None) }
        ensures lent { IfSome result.1 (λ work. HasAnswered (λ old new out. HasLent ⟦<LendingStore<D, J> as StoreLike>⟧.about old new out work.loan) self.old self.new result.0.items) }
        ensures side { IfSome result.1 (λ work. work.side ≡ self.new.node.store.lender) }
        ensures memory { CanLend ⟦<LendingStore<D, J> as StoreLike>⟧.about self.old.node
            → IfNone result.1 (HasAnswered (λ old new out. HasHalted ⟦<LendingStore<D, J> as StoreLike>⟧.about (⟦<LendingStore<D, J> as StoreLike>⟧.about old.store) causes.Memory old new out) self.old self.new result.0.items) }
        ensures kept { D.keeps_model → (volume : List ℕ) → ⟦<LendingStore<D, J> as StoreLike>⟧.keeps self.old.node.store volume → ⟦<LendingStore<D, J> as StoreLike>⟧.keeps self.new.node.store volume }
        ensures still { (b : ℕ) → ⟦<LendingStore<D, J> as StoreLike>⟧.is_pending self.new.node.store b ↔ ⟦<LendingStore<D, J> as StoreLike>⟧.is_pending self.old.node.store b }
        ensures failures { (D.failures self.new.node.store.disk ≡ D.failures self.old.node.store.disk) × IfSome result.1 (λ work. D.Log.failures work.loan.log ≡ D.failures self.old.node.store.disk) }
    {
        let (out, work) = self.node.lend_commit();
        let Out {
            messages: _,
            replies,
        } = out;
        (replies, work)
    }

    /// Takes the log back, and ends the commit that was lent: its front is the durable one, and the receipt says so. Where memory ran out
    /// or the disk refused, the member stops; where it has stopped meanwhile, its store is broken then. There is no receipt then.
    ///
    /// What isn't the commit that was lent comes back: nothing changes.
    pub fn finish_commit(
        &mut self,
        done: Journaled<D::Log, J>,
    ) -> Result<(Vec<Served>, Option<Synced>), Journaled<D::Log, J>>
        ensures own { OnOk result (IfSome self.old.node.store.lent (λ l. IsLogOf self.old.node.store.contents l (D.Log.size done.log) done.outcome) × IsSome self.old.node.store.lent × (done.side ≡ self.old.node.store.lender)) }
        ensures strange { OnErr result (IfSome self.old.node.store.lent (λ l. IsLogOf self.old.node.store.contents l (D.Log.size done.log) done.outcome) → IsSome self.old.node.store.lent → done.side ≢ self.old.node.store.lender) }
        ensures back { IfErr result (λ strange. strange ≡ done) }
        ensures same { OnErr result ((self.new.node.state ≡ self.old.node.state) × (self.new.outbox ≡ self.old.outbox) × (⟦<LendingStore<D, J> as StoreLike>⟧.about self.new.node.store ≡ ⟦<LendingStore<D, J> as StoreLike>⟧.about self.old.node.store)) }
        ensures kept_old { (volume : List ℕ) → ⟦<LendingStore<D, J> as StoreLike>⟧.keeps self.old.node.store volume → OnErr result (⟦<LendingStore<D, J> as StoreLike>⟧.keeps self.new.node.store volume) }
        ensures finished { IfOk result (λ r. IfSome r.1 (λ receipt. HasAnswered (λ old new out. HasFinished ⟦<LendingStore<D, J> as StoreLike>⟧.about old new out receipt) self.old self.new r.0.items)) }
        ensures stopped { self.old.node.state.stopped ≢ None → IfOk result (λ r. (r.1 ≡ None) × HasAnswered (HasTakenBack ⟦<LendingStore<D, J> as StoreLike>⟧.about) self.old self.new r.0.items) }
        ensures refused { self.old.node.state.stopped ≡ None → IfOk result (λ r. IfNone r.1 (
            HasAnswered (λ old new out. HasHalted ⟦<LendingStore<D, J> as StoreLike>⟧.about (record (⟦<LendingStore<D, J> as StoreLike>⟧.about old.store) { lent = None }) causes.Memory old new out
            ⊎ ((error : DiskError) × (error ≢ ReadFault) × (error ≢ Memory → D.Log.failures done.loan.log < D.failures new.store.disk)
            × HasHalted ⟦<LendingStore<D, J> as StoreLike>⟧.about (record (⟦<LendingStore<D, J> as StoreLike>⟧.about old.store) { broken = true; lent = None }) (causes.Device error) old new out)) self.old self.new r.0.items)) }
        // Of a member that runs, what came of the commit is what the journal told of it.
        ensures answer { self.old.node.state.stopped ≡ None → IfOk result (λ r. MatchResult done.outcome (λ receipt. r.1 ≡ Some receipt) (λ refusal. (r.1 ≡ None) × (self.new.node.state.stopped ≡ Some (cause_of (by_journal refusal))))) }
        ensures kept { D.keeps_model → (volume : List ℕ) → ⟦<LendingStore<D, J> as StoreLike>⟧.keeps self.old.node.store volume
            → IfOk result (λ r. IfSome r.1 (λ receipt. ⟦<LendingStore<D, J> as StoreLike>⟧.keeps self.new.node.store (volume_at volume self.old.node.state receipt.front))) }
        ensures failures { OnOk result (D.failures self.new.node.store.disk ≡ max (D.failures self.old.node.store.disk) (D.Log.failures done.log)) }
    {
        let (out, receipt) = self.node.finish_commit(done)?;
        let Out {
            messages: _,
            replies,
        } = out;
        Ok((replies, receipt))
    }
}
