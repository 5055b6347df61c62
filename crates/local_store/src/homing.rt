//! How pending blocks are brought home, and the area is emptied.
ghost use Rattle.std.specs.Prelude.{◌≡◌, ◌≢◌, ◌+◌, ◌-◌, ◌*◌, ◌^◌, ◌<◌, ◌≤◌, ◌↔◌, ℕ, List, Some, None, true, false, length, IfOk, IfErr, IfNone, IfSome, OnOk, OnErr, IsErrOf};
ghost use Rattle.disk_model.specs.Disk.{LeavesOnly, put};
ghost use Rattle.gate_journal.specs.Batch.{Batch};
ghost use Rattle.gate_journal.specs.Pair.{stored};
ghost use Rattle.block_cache.specs.Cache.{Agrees};
ghost use Rattle.flusher.specs.Plan.{IsNext, IsPending, IsRun, IsWithin, NonePending};
ghost use Rattle.home_blocks.specs.Area as areas;
ghost use Rattle.home_blocks.specs.Places.{border_of, disk_size_of};
ghost use Rattle.home_blocks.specs.Superblock.{marked};
ghost use Rattle.local_store.specs.About.{HasNeighbours, IsWithoutRun};
ghost use Rattle.local_store.specs.Lending.{HoldsHome, IsHomeKept};
ghost use Rattle.local_store.specs.Meaning.{Means};
ghost use Rattle.local_store.specs.Pending.{AreCleared, count_pending};
ghost use Rattle.local_store.specs.Refusal.{HasCause, IsOfCheckpoint, IsOfDevice, IsOfTicking, IsOfTickingRun};
ghost use Rattle.local_store.specs.Store.{IsAllHome, IsEmptied, IsFreshJournal, IsOfSuperblock, IsSameButForPending, IsStored, State, geometry_of, meaning_in, with_home};

use crate::contents::Contents;
use crate::refusal::Refusal;
use block_cache::Cache;
use disk_model::Disk;
use flusher::{Plan, Run};
use gate_journal::{Journal, MAX_NUMBER};
use home_blocks::{Home, area_part};
use volume::BLOCK_SIZE;

impl Contents {
    /// Writes the next pending block home, by one device call, and gives its number; `None` exactly where nothing is
    /// pending. The plan says which is the next.
    ///
    /// 122 `Broken` exactly where a device call failed before: this changes nothing, the plan neither. After a refusal of
    /// the device the store is broken, and the disk means what it meant.
    pub fn tick<D: Disk>(&mut self, disk: &mut D, plan: &mut Plan) -> Result<Option<u32>, Refusal>
        requires on_disk { border_of (geometry_of self.old) ≤ D.size disk.old }

        ensures home { IfOk result (λ given. IfSome given (λ block. IsNext plan.old (IsPending self.old.pending) block × (self.new ≡ with_home self.old block self.new.cache) × (plan.new ≡ Some block))) }
        ensures none { IfOk result (λ given. IfNone given ((self.new ≡ self.old) × (disk.new ≡ disk.old) × NonePending (IsPending self.old.pending))) }
        ensures stored { D.keeps_model → (volume : List ℕ) → IsStored self.old volume (D.gives disk.old) (D.may_leave_now disk.old)
            → OnOk result (IsStored self.new volume (D.gives disk.new) (D.may_leave_now disk.new)) }

        // A stop at any moment of the call leaves a disk that means what it meant.
        ensures any_moment { D.keeps_model → (volume : List ℕ) → IsStored self.old volume (D.gives disk.old) (D.may_leave_now disk.old)
            → LeavesOnly D.moment D.may_have_left_since disk.old disk.new (Means (meaning_in self.old volume)) }

        // The same of a disk that has its home half at least.
        ensures home_kept { D.keeps_model → (volume : List ℕ) (batches : List Batch) → IsHomeKept self.old volume batches (D.gives disk.old) (D.may_leave_now disk.old)
            → OnOk result (IsHomeKept self.new volume batches (D.gives disk.new) (D.may_leave_now disk.new)) }
        ensures home_moment { D.keeps_model → (volume : List ℕ) (batches : List Batch) → IsHomeKept self.old volume batches (D.gives disk.old) (D.may_leave_now disk.old)
            → LeavesOnly D.moment D.may_have_left_since disk.old disk.new (HoldsHome self.old volume batches) }
        ensures same { IsSameButForPending self.old self.new }
        ensures size { D.size disk.new ≡ D.size disk.old }
        ensures calls { D.calls_made disk.new ≤ D.calls_made disk.old + 1 }
        ensures broken { IsErrOf result Refusal.Broken ↔ (self.old.broken ≡ true) }
        ensures told { IfErr result IsOfTicking }
        ensures unchanged { IfErr result (λ r. ¬ IsOfDevice r → (self.new ≡ self.old) × (disk.new ≡ disk.old) × (plan.new ≡ plan.old)) }
        ensures device { IfErr result (λ r. IsOfDevice r → self.new ≡ record self.old { cache = self.new.cache; broken = true }) }
        ensures cause { HasCause (D.failures disk.old) (D.failures disk.new) result }
    {
        if self.broken {
            return Err(Refusal::Broken);
        }
        let Some(block) = self.next_pending(plan) else {
            return Ok(None);
        };
        self.bring_home(disk, block)?;
        Ok(Some(block))
    }

    /// The next pending block, by the plan.
    fn next_pending(&mut self, plan: &mut Plan) -> Option<u32>
        ensures next { IfSome result (IsNext plan.old (IsPending self.old.pending)) }
        ensures given { IfSome result (λ block. plan.new ≡ Some block) }
        ensures within { IfSome result (λ block. block < (geometry_of self.old).blocks) }
        ensures none { result ≡ None → NonePending (IsPending self.old.pending) }
        ensures unchanged { IfNone result (plan.new ≡ plan.old) }
        ensures same { self.new ≡ self.old }
    {
        self.pending.next(plan)
    }

    /// Writes a block home, by one device call, if it is pending.
    fn bring_home<D: Disk>(&mut self, disk: &mut D, block: u32) -> Result<(), Refusal>
        requires on_disk { border_of (geometry_of self.old) ≤ D.size disk.old }
        requires block { block < (geometry_of self.old).blocks }
        requires runs { self.old.broken ≡ false }
        ensures ok { OnOk result (self.new ≡ with_home self.old block self.new.cache) }
        ensures stored { D.keeps_model → (volume : List ℕ) → IsStored self.old volume (D.gives disk.old) (D.may_leave_now disk.old)
            → OnOk result (IsStored self.new volume (D.gives disk.new) (D.may_leave_now disk.new)) }
        ensures any_moment { D.keeps_model → (volume : List ℕ) → IsStored self.old volume (D.gives disk.old) (D.may_leave_now disk.old)
            → LeavesOnly D.moment D.may_have_left_since disk.old disk.new (Means (meaning_in self.old volume)) }
        ensures home_kept { D.keeps_model → (volume : List ℕ) (batches : List Batch) → IsHomeKept self.old volume batches (D.gives disk.old) (D.may_leave_now disk.old)
            → OnOk result (IsHomeKept self.new volume batches (D.gives disk.new) (D.may_leave_now disk.new)) }
        ensures home_moment { D.keeps_model → (volume : List ℕ) (batches : List Batch) → IsHomeKept self.old volume batches (D.gives disk.old) (D.may_leave_now disk.old)
            → LeavesOnly D.moment D.may_have_left_since disk.old disk.new (HoldsHome self.old volume batches) }
        ensures size { D.size disk.new ≡ D.size disk.old }
        ensures calls { D.calls_made disk.new ≤ D.calls_made disk.old + 1 }
        ensures pays { OnOk result (D.calls_made disk.new + count_pending self.new.pending ≤ D.calls_made disk.old + count_pending self.old.pending) }
        ensures told { IfErr result IsOfTicking }
        ensures own { IfErr result IsOfDevice }
        ensures err { OnErr result (self.new ≡ record self.old { cache = self.new.cache; broken = true }) }
        ensures cause { HasCause (D.failures disk.old) (D.failures disk.new) result }
        ensures most { D.most_failures disk.new ≤ D.most_failures disk.old }
    {
        let Some(image) = self.pending.get(block) else {
            return Ok(());
        };
        let mut bytes = [0; BLOCK_SIZE as usize];
        image.copy_to(&mut bytes);
        if let Err(error) = self.home.write_home(disk, block, &bytes) {
            self.cache.forget(block);
            self.broken = true;
            return Err(Refusal::Device(error));
        }
        self.cache.renew(block, &bytes);
        self.pending.drop_block(block);
        Ok(())
    }

    /// Writes the next pending block home, and those behind it without a gap, at most so many, by one device call; gives the
    /// run; `None` exactly where nothing is pending. The plan says which is the next.
    ///
    /// 122 `Broken` exactly where a device call failed before; 100 `Memory` where there is no room for the run's bytes, of
    /// which one block needs none: these change nothing, the plan neither. After a refusal of the device the store is broken,
    /// and the disk means what it meant.
    pub fn tick_run<D: Disk>(
        &mut self,
        disk: &mut D,
        plan: &mut Plan,
        most: u32,
    ) -> Result<Option<Run>, Refusal>
        requires on_disk { border_of (geometry_of self.old) ≤ D.size disk.old }
        requires some { 0 < most }

        ensures next { IfOk result (λ given. IfSome given (λ run. IsNext plan.old (IsPending self.old.pending) run.first)) }
        ensures home { IfOk result (λ given. IfSome given (λ run. IsWithoutRun most run (IsPending self.old.pending) (IsPending self.new.pending))) }
        ensures given { IfOk result (λ given. IfSome given (λ run. plan.new ≡ Some (run.first + run.count - 1))) }
        ensures none { IfOk result (λ given. IfNone given ((self.new ≡ self.old) × (disk.new ≡ disk.old) × (plan.new ≡ plan.old) × NonePending (IsPending self.old.pending))) }
        ensures ok { OnOk result (self.new ≡ record self.old { pending = self.new.pending; cache = self.new.cache }) }
        ensures stored { D.keeps_model → (volume : List ℕ) → IsStored self.old volume (D.gives disk.old) (D.may_leave_now disk.old)
            → OnOk result (IsStored self.new volume (D.gives disk.new) (D.may_leave_now disk.new)) }

        // A stop at any moment of the call leaves a disk that means what it meant.
        ensures any_moment { D.keeps_model → (volume : List ℕ) → IsStored self.old volume (D.gives disk.old) (D.may_leave_now disk.old)
            → LeavesOnly D.moment D.may_have_left_since disk.old disk.new (Means (meaning_in self.old volume)) }

        // The same of a disk that has its home half at least.
        ensures home_kept { D.keeps_model → (volume : List ℕ) (batches : List Batch) → IsHomeKept self.old volume batches (D.gives disk.old) (D.may_leave_now disk.old)
            → OnOk result (IsHomeKept self.new volume batches (D.gives disk.new) (D.may_leave_now disk.new)) }
        ensures home_moment { D.keeps_model → (volume : List ℕ) (batches : List Batch) → IsHomeKept self.old volume batches (D.gives disk.old) (D.may_leave_now disk.old)
            → LeavesOnly D.moment D.may_have_left_since disk.old disk.new (HoldsHome self.old volume batches) }
        ensures same { IsSameButForPending self.old self.new }
        ensures size { D.size disk.new ≡ D.size disk.old }
        ensures calls { D.calls_made disk.new ≤ D.calls_made disk.old + 1 }
        ensures broken { IsErrOf result Refusal.Broken ↔ (self.old.broken ≡ true) }
        ensures memory { IsErrOf result Refusal.Memory → (1 < most) × HasNeighbours (IsPending self.old.pending) }
        ensures told { IfErr result IsOfTickingRun }
        ensures unchanged { IfErr result (λ r. ¬ IsOfDevice r → (self.new ≡ self.old) × (disk.new ≡ disk.old) × (plan.new ≡ plan.old)) }
        ensures device { IfErr result (λ r. IsOfDevice r → self.new ≡ record self.old { cache = self.new.cache; broken = true }) }
        ensures cause { HasCause (D.failures disk.old) (D.failures disk.new) result }
    {
        if self.broken {
            return Err(Refusal::Broken);
        }
        let mut next = *plan;
        let Some(run) = self.next_run(&mut next, most) else {
            return Ok(None);
        };
        self.bring_run_home(disk, run)?;
        *plan = next;
        Ok(Some(run))
    }

    /// The next run of pending blocks, by the plan.
    fn next_run(&mut self, plan: &mut Plan, most: u32) -> Option<Run>
        requires { 0 < most }
        ensures next { IfSome result (λ run. IsNext plan.old (IsPending self.old.pending) run.first) }
        ensures run { IfSome result (λ run. IsRun most (IsPending self.old.pending) run.first run.count) }
        ensures given { IfSome result (λ run. plan.new ≡ Some (run.first + run.count - 1)) }
        ensures within { IfSome result (λ run. run.first + run.count ≤ (geometry_of self.old).blocks) }
        ensures none { result ≡ None → NonePending (IsPending self.old.pending) }
        ensures same { self.new ≡ self.old }
    {
        self.pending.next_run(plan, most)
    }

    /// Writes a run of pending blocks home, by one device call. One block needs no memory.
    fn bring_run_home<D: Disk>(&mut self, disk: &mut D, run: Run) -> Result<(), Refusal>
        requires on_disk { border_of (geometry_of self.old) ≤ D.size disk.old }
        requires some { 0 < run.count }
        requires within { run.first + run.count ≤ (geometry_of self.old).blocks }
        requires pending { (b : ℕ) → IsWithin run.first run.count b → IsPending self.old.pending b }
        requires runs { self.old.broken ≡ false }
        ensures ok { OnOk result (self.new ≡ record self.old { pending = self.new.pending; cache = self.new.cache }) }
        ensures cleared { OnOk result (AreCleared run.first run.count self.old.pending self.new.pending) }
        ensures stored { D.keeps_model → (volume : List ℕ) → IsStored self.old volume (D.gives disk.old) (D.may_leave_now disk.old)
            → OnOk result (IsStored self.new volume (D.gives disk.new) (D.may_leave_now disk.new)) }
        ensures any_moment { D.keeps_model → (volume : List ℕ) → IsStored self.old volume (D.gives disk.old) (D.may_leave_now disk.old)
            → LeavesOnly D.moment D.may_have_left_since disk.old disk.new (Means (meaning_in self.old volume)) }
        ensures home_kept { D.keeps_model → (volume : List ℕ) (batches : List Batch) → IsHomeKept self.old volume batches (D.gives disk.old) (D.may_leave_now disk.old)
            → OnOk result (IsHomeKept self.new volume batches (D.gives disk.new) (D.may_leave_now disk.new)) }
        ensures home_moment { D.keeps_model → (volume : List ℕ) (batches : List Batch) → IsHomeKept self.old volume batches (D.gives disk.old) (D.may_leave_now disk.old)
            → LeavesOnly D.moment D.may_have_left_since disk.old disk.new (HoldsHome self.old volume batches) }
        ensures size { D.size disk.new ≡ D.size disk.old }
        ensures calls { D.calls_made disk.new ≤ D.calls_made disk.old + 1 }
        ensures memory { IsErrOf result Refusal.Memory → 1 < run.count }
        ensures runs { ¬ IsErrOf result Refusal.Broken }
        ensures told { IfErr result IsOfTickingRun }
        ensures unchanged { IfErr result (λ r. ¬ IsOfDevice r → (self.new ≡ self.old) × (disk.new ≡ disk.old)) }
        ensures device { IfErr result (λ r. IsOfDevice r → self.new ≡ record self.old { cache = self.new.cache; broken = true }) }
        ensures cause { HasCause (D.failures disk.old) (D.failures disk.new) result }
    {
        if run.count == 1 {
            return self.bring_home(disk, run.first);
        }
        self.bring_joined_home(disk, run)
    }

    /// Writes a run of pending blocks home, joined in one buffer, by one device call.
    fn bring_joined_home<D: Disk>(&mut self, disk: &mut D, run: Run) -> Result<(), Refusal>
        requires on_disk { border_of (geometry_of self.old) ≤ D.size disk.old }
        requires within { run.first + run.count ≤ (geometry_of self.old).blocks }
        requires pending { (b : ℕ) → IsWithin run.first run.count b → IsPending self.old.pending b }
        requires runs { self.old.broken ≡ false }
        ensures ok { OnOk result (self.new ≡ record self.old { pending = self.new.pending; cache = self.new.cache }) }
        ensures cleared { OnOk result (AreCleared run.first run.count self.old.pending self.new.pending) }
        ensures stored { D.keeps_model → (volume : List ℕ) → IsStored self.old volume (D.gives disk.old) (D.may_leave_now disk.old)
            → OnOk result (IsStored self.new volume (D.gives disk.new) (D.may_leave_now disk.new)) }
        ensures any_moment { D.keeps_model → (volume : List ℕ) → IsStored self.old volume (D.gives disk.old) (D.may_leave_now disk.old)
            → LeavesOnly D.moment D.may_have_left_since disk.old disk.new (Means (meaning_in self.old volume)) }
        ensures home_kept { D.keeps_model → (volume : List ℕ) (batches : List Batch) → IsHomeKept self.old volume batches (D.gives disk.old) (D.may_leave_now disk.old)
            → OnOk result (IsHomeKept self.new volume batches (D.gives disk.new) (D.may_leave_now disk.new)) }
        ensures home_moment { D.keeps_model → (volume : List ℕ) (batches : List Batch) → IsHomeKept self.old volume batches (D.gives disk.old) (D.may_leave_now disk.old)
            → LeavesOnly D.moment D.may_have_left_since disk.old disk.new (HoldsHome self.old volume batches) }
        ensures size { D.size disk.new ≡ D.size disk.old }
        ensures calls { D.calls_made disk.new ≤ D.calls_made disk.old + 1 }
        ensures runs { ¬ IsErrOf result Refusal.Broken }
        ensures told { IfErr result IsOfTickingRun }
        ensures unchanged { IfErr result (λ r. ¬ IsOfDevice r → (self.new ≡ self.old) × (disk.new ≡ disk.old)) }
        ensures device { IfErr result (λ r. IsOfDevice r → self.new ≡ record self.old { broken = true }) }
        ensures cause { HasCause (D.failures disk.old) (D.failures disk.new) result }
    {
        self.pending.join(run.first, run.count, &mut self.run)?;
        if let Err(error) = self.home.write_run(disk, run.first, &self.run) {
            // A broken store reads nothing, so the cache is left as it is.
            self.broken = true;
            return Err(Refusal::Device(error));
        }
        renew_run(&mut self.cache, run.first, run.count, &self.run);
        self.pending.drop_run(run.first, run.count);
        Ok(())
    }

    /// Writes all pending blocks home, and makes the other area the current one: one device call a pending block and nine
    /// more. After it nothing is pending, and the area is empty.
    ///
    /// 122 `Broken` exactly where a device call failed before; else 121 `Full` exactly where no number is left for another
    /// superblock: these change nothing. After a refusal of the device the store is broken, and the disk means what it
    /// meant.
    pub fn checkpoint<D: Disk>(&mut self, disk: &mut D) -> Result<(), Refusal>
        requires on_disk { disk_size_of (geometry_of self.old) ≤ D.size disk.old }

        ensures ok { OnOk result (IsEmptied self.old self.new) }
        ensures stored { D.keeps_model → (volume : List ℕ) → IsStored self.old volume (D.gives disk.old) (D.may_leave_now disk.old)
            → OnOk result (IsStored self.new volume (D.gives disk.new) (D.may_leave_now disk.new)) }

        // A stop at any moment of the call leaves a disk that means what it meant.
        ensures any_moment { D.keeps_model → (volume : List ℕ) → IsStored self.old volume (D.gives disk.old) (D.may_leave_now disk.old)
            → LeavesOnly D.moment D.may_have_left_since disk.old disk.new (Means (meaning_in self.old volume)) }
        ensures size { D.size disk.new ≡ D.size disk.old }
        ensures calls { D.calls_made disk.new ≤ D.calls_made disk.old + count_pending self.old.pending + 9 }

        ensures broken { IsErrOf result Refusal.Broken ↔ (self.old.broken ≡ true) }
        ensures full { IsErrOf result Refusal.Full ↔ ((self.old.broken ≡ false) × (self.old.home.pair.number ≡ MAX_NUMBER)) }
        ensures told { IfErr result IsOfCheckpoint }
        ensures unchanged { IfErr result (λ r. ¬ IsOfDevice r → (self.new ≡ self.old) × (disk.new ≡ disk.old)) }
        ensures device { IfErr result (λ r. IsOfDevice r → (self.new.broken ≡ true) × IsSameButForPending self.old self.new) }
        ensures cause { HasCause (D.failures disk.old) (D.failures disk.new) result }
        ensures most { D.most_failures disk.new ≤ D.most_failures disk.old }
    {
        if self.broken {
            return Err(Refusal::Broken);
        }
        if self.home.is_full() {
            return Err(Refusal::Full);
        }
        self.bring_all_home(disk)?;
        self.change_area(disk)
    }

    /// Writes all pending blocks home, ascending, by one device call each.
    fn bring_all_home<D: Disk>(&mut self, disk: &mut D) -> Result<(), Refusal>
        requires on_disk { disk_size_of (geometry_of self.old) ≤ D.size disk.old }
        requires runs { self.old.broken ≡ false }
        ensures home { OnOk result (IsAllHome self.new) }
        ensures same { OnOk result (self.new ≡ record self.old { pending = self.new.pending; cache = self.new.cache }) }
        ensures stored { D.keeps_model → (volume : List ℕ) → IsStored self.old volume (D.gives disk.old) (D.may_leave_now disk.old)
            → OnOk result (IsStored self.new volume (D.gives disk.new) (D.may_leave_now disk.new)) }
        ensures any_moment { D.keeps_model → (volume : List ℕ) → IsStored self.old volume (D.gives disk.old) (D.may_leave_now disk.old)
            → LeavesOnly D.moment D.may_have_left_since disk.old disk.new (Means (meaning_in self.old volume)) }
        ensures size { D.size disk.new ≡ D.size disk.old }
        ensures calls { D.calls_made disk.new ≤ D.calls_made disk.old + count_pending self.old.pending + 1 }
        ensures pays { OnOk result (D.calls_made disk.new ≤ D.calls_made disk.old + count_pending self.old.pending) }
        ensures told { IfErr result IsOfTicking }
        ensures own { IfErr result IsOfDevice }
        ensures err { OnErr result (self.new ≡ record self.old { pending = self.new.pending; cache = self.new.cache; broken = true }) }
        ensures cause { HasCause (D.failures disk.old) (D.failures disk.new) result }
        ensures most { D.most_failures disk.new ≤ D.most_failures disk.old }
    {
        let geometry = self.home.superblock().geometry();
        for block in 0..geometry.blocks {
            self.bring_home(disk, block)?;
        }
        Ok(())
    }

    /// Makes the other area the current one, empty, once all blocks are home: a sync; the closed gate and a sync; the six
    /// calls of a new superblock.
    fn change_area<D: Disk>(&mut self, disk: &mut D) -> Result<(), Refusal>
        requires on_disk { disk_size_of (geometry_of self.old) ≤ D.size disk.old }
        requires runs { self.old.broken ≡ false }
        requires number { self.old.home.pair.number ≢ MAX_NUMBER }
        requires home { IsAllHome self.old }
        ensures ok { OnOk result (IsEmptied self.old self.new) }
        ensures stored { D.keeps_model → (volume : List ℕ) → IsStored self.old volume (D.gives disk.old) (D.may_leave_now disk.old)
            → OnOk result (IsStored self.new volume (D.gives disk.new) (D.may_leave_now disk.new)) }
        ensures any_moment { D.keeps_model → (volume : List ℕ) → IsStored self.old volume (D.gives disk.old) (D.may_leave_now disk.old)
            → LeavesOnly D.moment D.may_have_left_since disk.old disk.new (Means (meaning_in self.old volume)) }
        ensures size { D.size disk.new ≡ D.size disk.old }
        ensures calls { D.calls_made disk.new ≤ D.calls_made disk.old + 9 }
        ensures told { IfErr result IsOfCheckpoint }
        ensures own { IfErr result IsOfDevice }
        ensures err { OnErr result ((self.new.broken ≡ true) × IsSameButForPending self.old self.new) }
        ensures cause { HasCause (D.failures disk.old) (D.failures disk.new) result }
        ensures most { D.most_failures disk.new ≤ D.most_failures disk.old }
    {
        match other_area(&mut self.home, disk, self.journal.front()) {
            Ok(journal) => {
                self.journal = journal;
                Ok(())
            }
            Err(refusal) => {
                self.broken = true;
                Err(refusal)
            }
        }
    }
}

/// Tells the cache of a run of blocks that was written home.
fn renew_run(cache: &mut Cache, first: u32, count: u32, bytes: &[u8])
    requires within { first + count < 2 ^ 32 }
    requires whole { length bytes.now ≡ 4096 * count }
    ensures { (home : List ℕ) → 4096 * (first + count) ≤ length home → Agrees cache.old home → Agrees cache.new (put home (4096 * first) bytes.now) }
{
    for i in 0..count {
        let start = i as usize * BLOCK_SIZE as usize;
        cache.renew(first + i, &bytes[start..start + BLOCK_SIZE as usize]);
    }
}

/// The empty journal in the other area, which the superblock names from then on.
fn other_area<D: Disk>(home: &mut Home, disk: &mut D, front: u64) -> Result<Journal, Refusal>
    requires on_disk { disk_size_of home.old.superblock.geometry ≤ D.size disk.old }
    requires limit { front ≤ MAX_NUMBER }
    requires runs { home.old.pair.broken ≡ false }
    requires number { home.old.pair.number ≢ MAX_NUMBER }
    ensures fresh { IfOk result (IsFreshJournal home.old.superblock front) }
    ensures home { OnOk result (home.new ≡ record { pair = stored home.old.pair; superblock = marked home.old.superblock front (areas.other_area home.old.superblock.current) }) }
    ensures kept { OnErr result ((home.new.superblock ≡ home.old.superblock) × (home.new.pair.number ≡ home.old.pair.number)) }
    ensures stored { D.keeps_model → (store : State) (volume : List ℕ) → store.journal.front ≡ front → IsOfSuperblock (record store { home = home.old }) → IsAllHome (record store { home = home.old })
        → IsStored (record store { home = home.old }) volume (D.gives disk.old) (D.may_leave_now disk.old)
        → IfOk result (λ journal. IsStored (record store { home = home.new; journal = journal }) volume (D.gives disk.new) (D.may_leave_now disk.new)) }
    ensures any_moment { D.keeps_model → (store : State) (volume : List ℕ) → store.journal.front ≡ front → IsOfSuperblock (record store { home = home.old }) → IsAllHome (record store { home = home.old })
        → IsStored (record store { home = home.old }) volume (D.gives disk.old) (D.may_leave_now disk.old)
        → LeavesOnly D.moment D.may_have_left_since disk.old disk.new (Means (meaning_in (record store { home = home.old }) volume)) }
    ensures size { D.size disk.new ≡ D.size disk.old }
    ensures calls { D.calls_made disk.new ≤ D.calls_made disk.old + 9 }
    ensures told { IfErr result IsOfCheckpoint }
    ensures own { IfErr result IsOfDevice }
    ensures cause { HasCause (D.failures disk.old) (D.failures disk.new) result }
    ensures most { D.most_failures disk.new ≤ D.most_failures disk.old }
{
    let superblock = home.superblock();
    let geometry = superblock.geometry();
    let area = superblock.current().other();
    home.sync_home(disk)?;
    let part = area_part(geometry, area);
    let journal = Journal::create(disk, part, superblock.slot(), geometry.blocks, front)?;
    home.mark(disk, front, area)?;
    Ok(journal)
}
