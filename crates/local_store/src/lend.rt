//! How a store lends its log out, with a commit that is to be journaled, and takes it back.
ghost use Rattle.std.specs.Prelude.{◌≡◌, ◌≢◌, ◌⊎◌, ◌+◌, ◌<◌, ◌≤◌, ◌↔◌, ℕ, List, None, Some, true, false, length, max, Any, IfOk, IfErr, OnOk, OnErr, IsErrOf, IsNone, IsSome, IfSome, IsTrue, MatchResult, Ok, Err};
ghost use Rattle.std.specs.Option.{ForSome};
ghost use Rattle.disk_model.specs.Disk.{LeavesOnly};
ghost use Rattle.disk_model.specs.Halves.{IsPast, Rejoins};
ghost use Rattle.flusher.specs.Plan.{IsPending};
ghost use Rattle.gate_journal.specs.Batch.{AreImages};
ghost use Rattle.gate_journal.specs.Journal.{IsSettled, behind_border};
ghost use Rattle.home_blocks.specs.Places.{border_of};
ghost use Rattle.local_store.specs.About.{IsOfVersionTwo, IsTooMuch, about_of, one_commit_more};
ghost use Rattle.local_store.specs.Away.{IsCommitOf, IsKeptOver, IsLogOf, batch_of, lending_in};
ghost use Rattle.local_store.specs.Meaning.{Means};
ghost use Rattle.local_store.specs.Overlay.{with_images};
ghost use Rattle.local_store.specs.Refusal.{HasCause, IsCaused, IsOfCommitting, IsOfDevice, by_journal};
ghost use Rattle.local_store.specs.Store.{IsStored, committed, geometry_of, meaning_after, meaning_in};

use crate::lending::{CommitWork, Journaled, Loan};
use crate::lending_store::LendingStore;
use crate::lent::Lent;
use crate::pending::stage;
use crate::refusal::Refusal;
use crate::store_like::StoreLike;
use disk_model::{Disk, HalvedDisk};
use gate_journal::{Image, MAX_NUMBER, Synced};
use loans::Rings;
use std::alloc::Global;
use std::snapshot::Snapshot;

impl<D: HalvedDisk + Drop, J: Rings> LendingStore<D, J> {
    /// Lends out the log, with a commit that is to be journaled on it: whole blocks are to be put into the volume, as by
    /// `commit`. The images are at least one, each of a block of the volume, no block twice; the front is at most 2^63 - 1;
    /// the log is there. Until the log is back, the store reads and ticks on its home half alone, at the old front.
    ///
    /// 122 `Broken` exactly where a device call failed before; else 134 `Backwards` exactly where the front isn't above the
    /// old one; else 121 `Full` exactly where the batch doesn't fit into the area; else 100 `Memory`: these change nothing.
    pub fn lend_commit(
        &mut self,
        alloc: Global,
        front: u64,
        images: &[Image],
    ) -> Result<CommitWork<D::Log, J>, Refusal>
        requires images { AreImages (geometry_of self.old.contents).blocks images.now }
        requires limit { front ≤ MAX_NUMBER }
        requires version { IsOfVersionTwo (about_of self.old.contents) }
        requires here { IsNone self.old.lent }

        ensures wrote { IfOk result (λ work. work.loan.batch ≡ record { front = front; images = images.now }) }
        ensures journal { IfOk result (λ work. work.loan.journal ≡ behind_border self.old.contents.journal (border_of (geometry_of self.old.contents))) }
        ensures slot { IfOk result (λ work. work.loan.journal.slot ≡ self.old.contents.home.superblock.slot) }
        ensures size { IfOk result (λ work. border_of (geometry_of self.old.contents) + D.Log.size work.loan.log ≡ D.size self.old.disk) }
        ensures lent { OnOk result (IsSome self.new.lent) }
        ensures was { IfOk result (λ work. IfSome self.new.lent (λ l. work.loan ≡ lending_in self.new.contents l)) }
        ensures side { IfOk result (λ work. work.side ≡ self.new.lender) }
        ensures batch { OnOk result (batch_of self.new.lent ≡ record { front = front; images = images.now }) }
        ensures same { self.new.contents ≡ self.old.contents }

        ensures about { OnOk result (⟦<LendingStore<D, J> as StoreLike>⟧.about self.new ≡ record (⟦<LendingStore<D, J> as StoreLike>⟧.about self.old) { lent = Some (record { front = front; images = images.now }) }) }
        ensures kept { D.keeps_model → (volume : List ℕ) → ⟦<LendingStore<D, J> as StoreLike>⟧.keeps self.old volume → ⟦<LendingStore<D, J> as StoreLike>⟧.keeps self.new volume }

        // The journal is settled on the store's batches, and the store keeps its volume over them.
        ensures log { D.keeps_model → (volume : List ℕ) (was : IsStored self.old.contents volume (D.gives self.old.disk) (D.may_leave_now self.old.disk))
            → IfOk result (λ work. IsSettled work.loan.journal was.batches (D.Log.gives work.loan.log) (D.Log.may_leave_now work.loan.log)
            × ForSome self.new.lent (λ l. IsKeptOver self.new.contents volume was.batches (D.gives self.new.disk) (D.may_leave_now self.new.disk) (D.left_before l.past (D.until l.past)))) }
        ensures at_rest { D.keeps_model → (volume : List ℕ) → IsStored self.old.contents volume (D.gives self.old.disk) (D.may_leave_now self.old.disk)
            → OnErr result (LeavesOnly D.moment D.may_have_left_since self.old.disk self.new.disk (Means (meaning_in self.old.contents volume))) }

        // What the whole was until then, and the beginning of the halves' times.
        ensures len { IfSome self.new.lent (λ l. l.len ≡ D.size self.old.disk) }
        ensures past { D.keeps_model → IfSome self.new.lent (λ l. IsPast (D.until l.past) (D.moment self.old.disk) (D.left_before l.past) (D.may_have_left_since self.old.disk)) }
        ensures begins { D.keeps_model → IfOk result (λ work. (D.moment self.new.disk ≡ 0) × (D.Log.moment work.loan.log ≡ 0)) }
        ensures failures { (D.failures self.new.disk ≡ D.failures self.old.disk) × IfOk result (λ work. D.Log.failures work.loan.log ≡ D.failures self.old.disk) }

        ensures broken { IsErrOf result Refusal.Broken ↔ (self.old.contents.broken ≡ true) }
        ensures backwards { IsErrOf result Refusal.Backwards ↔ ((self.old.contents.broken ≡ false) × (front ≤ self.old.contents.journal.front)) }
        ensures full { IsErrOf result Refusal.Full ↔ ((self.old.contents.broken ≡ false) × (self.old.contents.journal.front < front) × IsTooMuch (about_of self.old.contents) images.now) }
        ensures told { IfErr result IsOfCommitting }
        ensures own { IfErr result (λ r. ¬ IsOfDevice r) }
        ensures here { OnErr result (IsNone self.new.lent) }
    {
        let size = self.contents.may_commit(front, images)?;
        let staged = stage(alloc, images)?;
        let images = stage(alloc, images)?;
        let border = self.contents.border();
        let len = self.disk.len();
        let Some(mut side) = self.borrower.take() else {
            unreachable!()
        };
        let (log, past) = match self.disk.lend_log(border) {
            Ok(lent) => lent,
            Err(_) => {
                self.borrower = Some(side);
                return Err(Refusal::Memory);
            }
        };
        let loan = Loan {
            journal: self.contents.twin(),
            front,
            images,
            log,
        };
        self.lent = Some(Lent {
            past,
            len,
            front,
            staged,
            size,
            was: Snapshot::of(&loan.log),
        });
        self.lender.lend(&mut side, &loan);
        Ok(CommitWork { loan, side })
    }

    /// Whether this is the commit that was lent, done or refused: a log is lent, the borrower remembers the same loan, the log is as long,
    /// and a receipt is of the member's slot and the front that was to be journaled. Nothing changes.
    pub fn is_log_of(&mut self, done: &mut Journaled<D::Log, J>) -> bool
        ensures contents { self.new.contents ≡ self.old.contents }
        ensures disk { self.new.disk ≡ self.old.disk }
        ensures away { self.new.lent ≡ self.old.lent }
        ensures lender { self.new.lender ≡ self.old.lender }
        ensures about { ⟦<LendingStore<D, J> as StoreLike>⟧.about self.new ≡ ⟦<LendingStore<D, J> as StoreLike>⟧.about self.old }
        ensures kept { (volume : List ℕ) → ⟦<LendingStore<D, J> as StoreLike>⟧.keeps self.old volume → ⟦<LendingStore<D, J> as StoreLike>⟧.keeps self.new volume }
        ensures done { done.new ≡ done.old }
        ensures is { IsTrue result ↔ (IsSome self.old.lent × IfSome self.old.lent (λ l. IsLogOf self.old.contents l (D.Log.size done.old.log) done.old.outcome) × (done.old.side ≡ self.old.lender)) }
        ensures own { IsTrue result → IfSome self.old.lent (λ l. IsCommitOf self.old.contents l done.old) }
    {
        let Some(lent) = &self.lent else {
            return false;
        };
        let is_as_long = lent.len - self.contents.border() == done.log.len();
        is_as_long
            && done.is_of(self.contents.slot(), lent.front)
            && self.lender.agrees(&mut done.side)
    }

    /// Takes the log back. Where its commit was journaled, the store has the new front and volume, and the receipt is
    /// handed on.
    ///
    /// 122 `Broken` exactly where a device call of the store failed meanwhile; else 100 `Memory`, as the commit was refused:
    /// the store is at its old front; else what the device refused: then the store is broken, and the disk means the old
    /// front or the new.
    pub fn finish_commit(&mut self, done: Journaled<D::Log, J>) -> Result<Synced, Refusal>
        requires lent { IsSome self.old.lent }
        requires log { IfSome self.old.lent (λ l. IsLogOf self.old.contents l (D.Log.size done.log) done.outcome) }
        requires own { IfSome self.old.lent (λ l. IsCommitOf self.old.contents l done) }
        requires paired { done.side.number ≡ self.old.lender.number }

        ensures back { IsNone self.new.lent }
        ensures receipt { IfOk result (λ receipt. receipt ≡ record { slot = self.old.contents.home.superblock.slot; front = (batch_of self.old.lent).front }) }
        ensures ok { OnOk result (self.new.contents ≡ committed self.old.contents (batch_of self.old.lent).front (batch_of self.old.lent).images) }
        ensures about { OnOk result (⟦<LendingStore<D, J> as StoreLike>⟧.about self.new
            ≡ record (one_commit_more (⟦<LendingStore<D, J> as StoreLike>⟧.about self.old) (batch_of self.old.lent).front (batch_of self.old.lent).images) { lent = None }) }
        ensures pends { OnOk result ((b : ℕ) → IsPending self.new.contents.pending b ↔ (IsPending self.old.contents.pending b ⊎ Any (λ image. image.block ≡ b) (batch_of self.old.lent).images)) }

        // The store keeps its volume with the images; where memory ran out, as it was.
        ensures kept { D.keeps_model → (volume : List ℕ) → ⟦<LendingStore<D, J> as StoreLike>⟧.keeps self.old volume
            → OnOk result (⟦<LendingStore<D, J> as StoreLike>⟧.keeps self.new (with_images volume (batch_of self.old.lent).images)) }
        ensures kept_old { D.keeps_model → (volume : List ℕ) → ⟦<LendingStore<D, J> as StoreLike>⟧.keeps self.old volume
            → IsErrOf result Refusal.Memory → ⟦<LendingStore<D, J> as StoreLike>⟧.keeps self.new volume }

        ensures answer { self.old.contents.broken ≡ false → MatchResult done.outcome (λ receipt. result ≡ Ok receipt) (λ refusal. result ≡ Err (by_journal refusal)) }
        ensures broken { IsErrOf result Refusal.Broken ↔ (self.old.contents.broken ≡ true) }
        ensures memory { IsErrOf result Refusal.Memory → self.new.contents ≡ self.old.contents }
        ensures err { IfErr result (λ r. r ≢ Refusal.Memory → self.new.contents ≡ record self.old.contents { broken = true }) }
        ensures told { IfErr result IsOfCommitting }
        ensures cause { IfErr result (IsCaused (D.Log.failures done.loan.log) (D.failures self.new.disk)) }
        ensures time { D.keeps_model → ForSome self.old.lent (λ l. Rejoins (D.until l.past) (D.moment self.new.disk) (D.left_before l.past) (D.may_have_left_since self.new.disk)
            (D.cut_at l.past) (D.may_have_left_since self.old.disk 0) (D.Log.may_have_left_since done.log 0)) }
        ensures failures { D.failures self.new.disk ≡ max (D.failures self.old.disk) (D.Log.failures done.log) }
    {
        let Some(lent) = self.lent.take() else {
            return Err(Refusal::Broken);
        };
        let (log, outcome, side) = done.taken();
        self.disk.return_log(log, lent.past);
        self.borrower = Some(side);
        if self.contents.is_broken() {
            return Err(Refusal::Broken);
        }
        match outcome {
            Ok(receipt) => {
                self.contents.add(lent.front, lent.staged, lent.size);
                Ok(receipt)
            }
            Err(gate_journal::Refusal::Memory) => Err(Refusal::Memory),
            Err(refusal) => {
                self.contents.give_up();
                Err(Refusal::from(refusal))
            }
        }
    }

    /// Takes the log back without its commit, as for a member that has stopped: the store is broken from then on, and the
    /// disk means the old front or the new.
    pub fn take_back(&mut self, done: Journaled<D::Log, J>)
        requires lent { IsSome self.old.lent }
        requires log { IfSome self.old.lent (λ l. IsLogOf self.old.contents l (D.Log.size done.log) done.outcome) }
        requires own { IfSome self.old.lent (λ l. IsCommitOf self.old.contents l done) }
        requires paired { done.side.number ≡ self.old.lender.number }
        ensures back { IsNone self.new.lent }
        ensures contents { self.new.contents ≡ record self.old.contents { broken = true } }
        ensures about { ⟦<LendingStore<D, J> as StoreLike>⟧.about self.new ≡ record (⟦<LendingStore<D, J> as StoreLike>⟧.about self.old) { broken = true; lent = None } }
        ensures time { D.keeps_model → ForSome self.old.lent (λ l. Rejoins (D.until l.past) (D.moment self.new.disk) (D.left_before l.past) (D.may_have_left_since self.new.disk)
            (D.cut_at l.past) (D.may_have_left_since self.old.disk 0) (D.Log.may_have_left_since done.log 0)) }
        ensures failures { D.failures self.new.disk ≡ max (D.failures self.old.disk) (D.Log.failures done.log) }
    {
        let Some(lent) = self.lent.take() else {
            return;
        };
        let (log, _, side) = done.taken();
        self.disk.return_log(log, lent.past);
        self.borrower = Some(side);
        self.contents.give_up();
    }

    /// Commits by the three calls, one after another: it answers and keeps what `commit` does.
    pub fn commit_in_three(
        &mut self,
        alloc: Global,
        front: u64,
        images: &[Image],
    ) -> Result<Synced, Refusal>
        requires images { AreImages (geometry_of self.old.contents).blocks images.now }
        requires limit { front ≤ MAX_NUMBER }
        requires version { IsOfVersionTwo (about_of self.old.contents) }
        requires here { IsNone self.old.lent }
        ensures receipt { IfOk result (λ receipt. receipt ≡ record { slot = self.old.contents.home.superblock.slot; front = front }) }
        ensures ok { OnOk result (self.new.contents ≡ committed self.old.contents front images.now) }
        ensures back { IsNone self.new.lent }
        ensures pends { OnOk result ((b : ℕ) → IsPending self.new.contents.pending b ↔ (IsPending self.old.contents.pending b ⊎ Any (λ image. image.block ≡ b) images.now)) }
        ensures kept { D.keeps_model → (volume : List ℕ) → ⟦<LendingStore<D, J> as StoreLike>⟧.keeps self.old volume → OnOk result (⟦<LendingStore<D, J> as StoreLike>⟧.keeps self.new (with_images volume images.now)) }

        // A stop at any moment of the three leaves what means the old front and volume, or the new ones.
        ensures any_moment { D.keeps_model → (volume : List ℕ) → ⟦<LendingStore<D, J> as StoreLike>⟧.keeps self.old volume → LeavesOnly D.moment D.may_have_left_since self.old.disk self.new.disk
            (λ c. Means (meaning_in self.old.contents volume) c ⊎ Means (meaning_after self.old.contents volume front images.now) c) }
        ensures broken { IsErrOf result Refusal.Broken ↔ (self.old.contents.broken ≡ true) }
        ensures backwards { IsErrOf result Refusal.Backwards ↔ ((self.old.contents.broken ≡ false) × (front ≤ self.old.contents.journal.front)) }
        ensures full { IsErrOf result Refusal.Full ↔ ((self.old.contents.broken ≡ false) × (self.old.contents.journal.front < front) × IsTooMuch (about_of self.old.contents) images.now) }
        ensures told { IfErr result IsOfCommitting }
        ensures unchanged { IfErr result (λ r. ¬ IsOfDevice r → self.new.contents ≡ self.old.contents) }
        ensures device { IfErr result (λ r. IsOfDevice r → self.new.contents ≡ record self.old.contents { broken = true }) }
        ensures cause { HasCause (D.failures self.old.disk) (D.failures self.new.disk) result }
    {
        let work = self.lend_commit(alloc, front, images)?;
        let done = work.journal(&mut Vec::new(alloc));
        self.finish_commit(done)
    }
}
