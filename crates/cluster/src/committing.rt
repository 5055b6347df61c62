//! Commits, the floors that they raise, and what makes room for them.
ghost use Rattle.std.specs.Prelude.{◌≡◌, ◌≢◌, ◌⊎◌, ◌<◌, ◌≤◌, ◌+◌, ℕ, List, None, Some, IfErr, IfNone, IfOk, IfSome, IsErrOf, Ok, OnErr, true, false};
ghost use Rattle.board.specs.Seats.{Posted};
ghost use Rattle.disk_model.specs.Error.{MayTell};
ghost use Rattle.disk_model.specs.declared.error.DiskError.TheVariants.{ReadFault, WriteFault};
ghost use Rattle.gate_journal.specs.Image.{Image as Imaged};
ghost use Rattle.gate_journal.specs.Receipt.{Receipt};
ghost use Rattle.gate_journal.specs.declared.batch.TheConstants.{MAX_NUMBER};
ghost use Rattle.local_store.specs.About.{HasRoom, IsWithoutRun, one_checkpoint_more};
ghost use Rattle.chain_steps.specs.Steps.{CanBegin, IsGroup, silent};
ghost use Rattle.chain_core.specs.Commits.{HasStoppedBy, HasWorked};
ghost use Rattle.chain_core.specs.Lending.{CanLend, HasFinished};
ghost use Rattle.chain_core.specs.Node.{IsSound, IsStep};
ghost use Rattle.member.specs.Posted.{HasAnswered};
ghost use Rattle.cluster.specs.Commits.{Begins, HasLentNext, IsDue};
ghost use Rattle.cluster.specs.Copies.{HasNotedIfCopied};
ghost use Rattle.cluster.specs.Gives.{AsksFloor, HasGiven, HasLookedAndPaid};

use crate::copying::note_known;
use crate::seated::Seated;
use board::{Board, Floor};
use chain_core::Refusal;
use disk_model::HalvedDisk;
use flusher::Run;
use local_store::{CommitWork, Journaled, LendingStore, StoreLike};
use mail::Given;
use member::Agreed;

impl<D: HalvedDisk + Drop, J: Agreed> Seated<D, J> {
    /// Begins a commit of the greatest group of known writes, at most so many, at least one, where one is due, and lends it out; or lends
    /// out the one that is under way. `None`, where none is due and none waits to be lent: nothing changed; or where the member stopped,
    /// since memory ran out, or the device refused a read.
    ///
    /// 121 `Full` where one is due, and no group fits: a checkpoint makes room.
    pub fn begin(
        &mut self,
        given: &mut Given,
        most: u64,
    ) -> Result<Option<CommitWork<D::Log, J>>, Refusal>
        requires room { 2 ≤ given.old.room }
        requires most { 0 < most }
        ensures lent { IfOk result (λ r. IfSome r (λ work. HasLentNext (Begins ⟦<LendingStore<D, J> as StoreLike>⟧.keeps_model ⟦<LendingStore<D, J> as StoreLike>⟧.about ⟦<LendingStore<D, J> as StoreLike>⟧.failures ⟦<LendingStore<D, J> as StoreLike>⟧.keeps ⟦<LendingStore<D, J> as StoreLike>⟧.moment ⟦<LendingStore<D, J> as StoreLike>⟧.may_have_left_since) ⟦<LendingStore<D, J> as StoreLike>⟧.about work.loan self.old.member self.new.member given.old.replies given.new.replies)) }
        ensures nothing { IfOk result (λ r. IfNone r (self.new.member.node.state.stopped ≡ None → ¬ CanBegin self.old.member.node.state × ¬ CanLend ⟦<LendingStore<D, J> as StoreLike>⟧.about self.old.member.node
            × HasGiven (HasAnswered (λ old new out. IsStep old new out (silent old.state))) self.old.member self.new.member given.old.replies given.new.replies)) }
        ensures full { IsErrOf result Refusal.Full → CanBegin self.old.member.node.state
            × ((volume : List ℕ) (q : ℕ) (images : List Imaged) → IsGroup (HasRoom (⟦<LendingStore<D, J> as StoreLike>⟧.about self.old.member.node.store)) volume most self.old.member.node.state q images → ⊥) }
        ensures refused { IfErr result (λ r. r ≡ Refusal.Full) }
        ensures unchanged { OnErr result ((self.new.member.node.state ≡ self.old.member.node.state) × (given.new.replies ≡ given.old.replies)) }
        ensures seat { self.new.seat ≡ self.old.seat }
        ensures room { given.old.room ≤ given.new.room + 2 }
    {
        match self.begin_if_due(given, most) {
            Ok(_) => {
                let (replies, work) = self.member.lend_commit();
                given.add(replies);
                Ok(work)
            }
            Err(refusal) => Err(refusal),
        }
    }

    /// Begins a commit of the greatest group of known writes, at most so many, where one is due. Whether one was.
    fn begin_if_due(&mut self, given: &mut Given, most: u64) -> Result<bool, Refusal>
        requires room { 1 ≤ given.old.room }
        requires most { 0 < most }
        ensures due { IfOk result (λ was. was ≡ true → IsDue self.old.member × HasGiven (HasAnswered (Begins ⟦<LendingStore<D, J> as StoreLike>⟧.keeps_model ⟦<LendingStore<D, J> as StoreLike>⟧.about ⟦<LendingStore<D, J> as StoreLike>⟧.failures ⟦<LendingStore<D, J> as StoreLike>⟧.keeps ⟦<LendingStore<D, J> as StoreLike>⟧.moment ⟦<LendingStore<D, J> as StoreLike>⟧.may_have_left_since)) self.old.member self.new.member given.old.replies given.new.replies) }
        ensures idle { IfOk result (λ was. was ≡ false → ¬ IsDue self.old.member × (self.new.member ≡ self.old.member) × (given.new.replies ≡ given.old.replies)) }
        ensures sound { IsSound (⟦<LendingStore<D, J> as StoreLike>⟧.about self.old.member.node.store) (record { premise = ⟦<LendingStore<D, J> as StoreLike>⟧.keeps_model; keeps = ⟦<LendingStore<D, J> as StoreLike>⟧.keeps self.old.member.node.store }) self.old.member.node.state }
        ensures full { IfErr result (λ r. (r ≡ Refusal.Full) × CanBegin self.old.member.node.state
            × ((volume : List ℕ) (q : ℕ) (images : List Imaged) → IsGroup (HasRoom (⟦<LendingStore<D, J> as StoreLike>⟧.about self.old.member.node.store)) volume most self.old.member.node.state q images → ⊥)) }
        ensures unchanged { OnErr result ((self.new.member.node.state ≡ self.old.member.node.state) × (given.new.replies ≡ given.old.replies)) }
        ensures seat { self.new.seat ≡ self.old.seat }
        ensures copy { self.new.copy ≡ self.old.copy }
        ensures room { given.old.room ≤ given.new.room + 1 }
    {
        self.member.sound();
        if self.member.due().commit {
            match self.member.begin_commits(most) {
                Ok(replies) => {
                    given.add(replies);
                    Ok(true)
                }
                Err(refusal) => Err(refusal),
            }
        } else {
            Ok(false)
        }
    }

    /// `Member::tick_run`: writes the next pending blocks home, by one device call.
    pub fn tick_run(&mut self, given: &mut Given, most: u32) -> Result<Option<Run>, Refusal>
        requires room { 1 ≤ given.old.room }
        requires most { 0 < most }
        ensures worked { IfOk result (λ run. HasGiven (HasAnswered (λ old new out. HasWorked ⟦<LendingStore<D, J> as StoreLike>⟧.about (⟦<LendingStore<D, J> as StoreLike>⟧.about old.store) old new out
            ⊎ ((run ≡ None) × HasStoppedBy ⟦<LendingStore<D, J> as StoreLike>⟧.about ⟦<LendingStore<D, J> as StoreLike>⟧.failures (MayTell WriteFault) old new out))) self.old.member self.new.member given.old.replies given.new.replies) }
        ensures home { IfOk result (λ done. IfSome done (λ run. IsWithoutRun most run (⟦<LendingStore<D, J> as StoreLike>⟧.is_pending self.old.member.node.store) (⟦<LendingStore<D, J> as StoreLike>⟧.is_pending self.new.member.node.store))) }
        ensures none { IfOk result (λ run. self.new.member.node.state.stopped ≡ None → IfNone run ((b : ℕ) → ⟦<LendingStore<D, J> as StoreLike>⟧.is_pending self.old.member.node.store b → ⊥)) }
        ensures refused { IfErr result (λ r. (r ≡ Refusal.Memory) ⊎ (r ≡ Refusal.Stopped)) }
        ensures unchanged { OnErr result ((self.new.member.node.state ≡ self.old.member.node.state) × (given.new.replies ≡ given.old.replies)) }
        ensures seat { self.new.seat ≡ self.old.seat }
        ensures room { given.old.room ≤ given.new.room + 1 }
    {
        let (replies, run) = self.member.tick_run(most)?;
        given.add(replies);
        Ok(run)
    }

    /// `Member::checkpoint`: writes all pending blocks home, and empties the journal area. False exactly where its log is lent out.
    pub fn checkpoint(&mut self, given: &mut Given) -> Result<bool, Refusal>
        requires room { 1 ≤ given.old.room }
        ensures worked { IfOk result (λ done. done ≡ true → HasGiven (HasAnswered (λ old new out. HasWorked ⟦<LendingStore<D, J> as StoreLike>⟧.about (one_checkpoint_more (⟦<LendingStore<D, J> as StoreLike>⟧.about old.store)) old new out
            ⊎ HasStoppedBy ⟦<LendingStore<D, J> as StoreLike>⟧.about ⟦<LendingStore<D, J> as StoreLike>⟧.failures (λ error. error ≢ ReadFault) old new out)) self.old.member self.new.member given.old.replies given.new.replies) }
        ensures empty { IfOk result (λ done. done ≡ true → self.new.member.node.state.stopped ≡ None → (b : ℕ) → ⟦<LendingStore<D, J> as StoreLike>⟧.is_pending self.new.member.node.store b → ⊥) }
        ensures lent { IfOk result (λ done. done ≡ false → ((⟦<LendingStore<D, J> as StoreLike>⟧.about self.old.member.node.store).lent ≢ None) × (self.new.member ≡ self.old.member) × (given.new.replies ≡ given.old.replies)) }
        ensures full { IsErrOf result Refusal.Full → (⟦<LendingStore<D, J> as StoreLike>⟧.about self.old.member.node.store).stores ≡ MAX_NUMBER }
        ensures refused { IfErr result (λ r. (r ≡ Refusal.Full) ⊎ ((r ≡ Refusal.Stopped) × (self.old.member.node.state.stopped ≢ None))) }
        ensures unchanged { OnErr result ((self.new.member.node.state ≡ self.old.member.node.state) × (given.new.replies ≡ given.old.replies)) }
        ensures seat { self.new.seat ≡ self.old.seat }
        ensures room { given.old.room ≤ given.new.room + 1 }
    {
        match self.member.checkpoint() {
            Ok(Some(replies)) => {
                given.add(replies);
                Ok(true)
            }
            Ok(None) => Ok(false),
            Err(refusal) => Err(refusal),
        }
    }

    /// Ends the commit that was lent, and posts its receipt. Whether it was journaled. What isn't the commit that was lent comes back. What a
    /// joiner is given is noted first, since the member commits further.
    pub fn finish(
        &mut self,
        given: &mut Given,
        board: &Board,
        done: Journaled<D::Log, J>,
    ) -> Result<bool, Journaled<D::Log, J>>
        requires room { 1 ≤ given.old.room }
        requires board { J.board ≡ Some board.now }
        ensures posted { IfOk result (λ was. was ≡ true → (receipt : Receipt) × (done.outcome ≡ Ok receipt) × Posted receipt self.old.seat self.new.seat
            × HasGiven (HasAnswered (λ old new out. HasFinished ⟦<LendingStore<D, J> as StoreLike>⟧.about old new out receipt)) self.old.member self.new.member given.old.replies given.new.replies) }
        ensures stopped { IfOk result (λ was. was ≡ false → self.new.member.node.state.stopped ≢ None) }
        ensures back { IfErr result (λ strange. strange ≡ done) }
        ensures same { OnErr result ((self.new.member.node.state ≡ self.old.member.node.state) × (given.new.replies ≡ given.old.replies) × (self.new.seat ≡ self.old.seat)) }
        ensures noted { HasNotedIfCopied self.old.member.node.state self.old.copy self.new.copy }
        ensures room { given.old.room ≤ given.new.room + 1 }
    {
        note_known(&mut self.copy, &self.member);
        let (replies, receipt) = self.member.finish_commit(done)?;
        given.add(replies);
        match receipt {
            Some(receipt) => {
                board.post(&mut self.seat, receipt);
                Ok(true)
            }
            None => Ok(false),
        }
    }

    /// Where a token waits for a floor, one is looked up, and what it reaches is answered.
    pub fn pay(&mut self, given: &mut Given, board: &Board)
        requires room { 1 ≤ given.old.room }
        requires board { J.board ≡ Some board.now }
        ensures paid { AsksFloor self.old.member → HasLookedAndPaid self.new.seat self.old.member self.new.member given.old.replies given.new.replies }
        ensures idle { ¬ AsksFloor self.old.member → (self.new.member ≡ self.old.member) × (given.new.replies ≡ given.old.replies) }
        ensures room { given.old.room ≤ given.new.room + 1 }
    {
        if self.member.due().floor {
            let front = board.look(&mut self.seat);
            let crew = board.crew(&mut self.seat, front);
            let floor = Floor::read(board, &mut self.seat, crew);
            given.add(self.member.answer_floor(&floor));
        }
    }
}
