//! A store that owns its disk.
ghost use Rattle.std.specs.Prelude.{◌≡◌, ◌⊎◌, ◌↔◌, ◌+◌, ◌*◌, ◌≤◌, ℕ, List, None, false, true, replicate, IfOk, IfErr, IsErrOf, OnOk};
ghost use Rattle.disk_model.specs.Disk.{LeavesOnly};
ghost use Rattle.flusher.specs.Plan.{IsPending};
ghost use Rattle.home_blocks.specs.Home.{IsNoVolume, IsOtherVersion};
ghost use Rattle.home_blocks.specs.Places.{disk_size_of};
ghost use Rattle.gate_journal.specs.Runs.{OnlyReads};
ghost use Rattle.home_blocks.specs.declared.version.Version.TheVariants.{One, Two};
ghost use Rattle.local_store.specs.About.{about_of, migrated};
ghost use Rattle.local_store.specs.Meaning.{HasDamagedArea, IsUnfinished, Means};
ghost use Rattle.local_store.specs.Pending.{count_pending};
ghost use Rattle.local_store.specs.Refusal.{HasCause, IsCaused, IsNotOfDevice, IsOfCheckpoint, IsOfDevice, IsOfFormatting, IsOfOpening};
ghost use Rattle.local_store.specs.Store.{IsStored, geometry_of, meaning_in};

use crate::contents::Contents;
use crate::never_lends::NeverLends;
use crate::refusal::Refusal;
use crate::store_like::StoreLike;
use disk_model::Disk;
use flusher::{Plan, Run};
use gate_journal::{Image, MAX_NUMBER, Slot, Synced};
use home_blocks::Version;
use std::alloc::Global;
use volume::Geometry;

/// One disk that keeps a volume, for the member at a slot.
#[derive(Drop)]
pub struct Store<D: Disk> {
    pub(crate) disk: D,
    pub(crate) contents: Contents,
    pub(crate) plan: Plan,
    ghost room: { disk_size_of (geometry_of contents) ≤ D.size disk },
}

impl<D: Disk + Drop> Store<D> {
    /// Formats a disk of at least `disk_size(geometry)` bytes, which may hold anything: after it the disk means a volume of
    /// zeros at front 0. The incarnation is at most 2^63 - 1.
    ///
    /// It is refused for memory, with nothing written, and by the device. Both hand the disk back. It is for a disk that nobody
    /// needs any more, as `Contents::format` is.
    pub fn format(
        alloc: Global,
        disk: D,
        slot: Slot,
        incarnation: u64,
        geometry: Geometry,
    ) -> Result<Store<D>, (Refusal, D)>
        requires on_disk { disk_size_of geometry ≤ D.size disk }
        requires limit { incarnation ≤ MAX_NUMBER }
        ensures about { IfOk result (λ s. about_of s.contents ≡ record { version = Two; slot = slot; incarnation = incarnation; geometry = geometry; front = 0; used = 0; stores = 1; broken = false; lent = None }) }
        ensures stored { D.keeps_model → IfOk result (λ s. IsStored s.contents (replicate (4096 * geometry.blocks) 0) (D.gives s.disk) (D.may_leave_now s.disk)) }
        ensures unchanged { IfErr result (λ e. e.0 ≡ Refusal.Memory → e.1 ≡ disk) }
        ensures size { IfErr result (λ e. D.size e.1 ≡ D.size disk) }
        ensures told { IfErr result (λ e. IsOfFormatting e.0) }
        ensures cause { IfErr result (λ e. IsCaused (D.failures disk) (D.failures e.1) e.0) }
        ensures done { IfOk result (λ s. D.failures s.disk ≡ D.failures disk) }
        ensures most { IfOk result (λ s. D.most_failures s.disk ≤ D.most_failures disk) }
        // Where the disk can't fail any more, the refusal isn't the device's.
        ensures calm { IfErr result (λ e. D.failures disk ≡ D.most_failures disk → IsNotOfDevice e.0) }
    {
        let mut disk = disk;
        match Contents::format(alloc, &mut disk, slot, incarnation, geometry) {
            Ok(contents) => Ok(Store {
                disk,
                contents,
                plan: Plan::new(),
            }),
            Err(refusal) => Err((refusal, disk)),
        }
    }

    /// The store on a disk of any length, which may hold anything. It syncs, and then reads; after it the whole disk is
    /// durable.
    ///
    /// 131 `NotAVolume` where the disk holds no superblock, or one of version 1 with the greatest number, is too short for it,
    /// or its current area is damaged; 132 `OtherVersion` where its version isn't 1 or 2; 133 `Unfinished` where its
    /// installation was not finished; 100 `Memory`, and what the device refuses. All hand the disk back, as it was.
    pub fn open(alloc: Global, disk: D) -> Result<Store<D>, (Refusal, D)>
        ensures stored { D.keeps_model → IfOk result (λ s. (volume : List ℕ) × IsStored s.contents volume (D.gives s.disk) (D.may_leave_now s.disk) × Means (meaning_in s.contents volume) (D.gives disk)) }
        ensures runs { IfOk result (λ s. s.contents.broken ≡ false) }
        ensures not_a_volume { D.keeps_model → IfErr result (λ e. e.0 ≡ Refusal.NotAVolume → IsNoVolume (D.gives disk) ⊎ HasDamagedArea (D.gives disk)) }
        ensures other_version { D.keeps_model → IfErr result (λ e. e.0 ≡ Refusal.OtherVersion → IsOtherVersion (D.gives disk)) }
        ensures unfinished { D.keeps_model → IfErr result (λ e. e.0 ≡ Refusal.Unfinished → IsUnfinished (D.gives disk)) }
        ensures reads { D.keeps_model → IfOk result (λ s. OnlyReads D.gives D.may_leave_now D.moment D.may_have_left_since disk s.disk) }
        ensures back { D.keeps_model → IfErr result (λ e. OnlyReads D.gives D.may_leave_now D.moment D.may_have_left_since disk e.1) }
        ensures size { IfErr result (λ e. D.size e.1 ≡ D.size disk) }
        ensures told { IfErr result (λ e. IsOfOpening e.0) }
        ensures cause { IfErr result (λ e. IsCaused (D.failures disk) (D.failures e.1) e.0) }
        ensures done { IfOk result (λ s. D.failures s.disk ≡ D.failures disk) }
        ensures most { IfOk result (λ s. D.most_failures s.disk ≤ D.most_failures disk) }
        // Where the disk can't fail any more, the refusal isn't the device's.
        ensures calm { IfErr result (λ e. D.failures disk ≡ D.most_failures disk → IsNotOfDevice e.0) }
    {
        let mut disk = disk;
        match Contents::open(alloc, &mut disk) {
            Ok(contents) => Ok(Store {
                disk,
                contents,
                plan: Plan::new(),
            }),
            Err(refusal) => Err((refusal, disk)),
        }
    }

    /// Brings its disk to version 2, whichever it has: all pending blocks go home, and the other area becomes the current one,
    /// by one device call a pending block and nine more. After it nothing is pending, and the area is empty.
    ///
    /// 122 `Broken` exactly where a device call failed before; else 121 `Full` exactly where no number is left for another
    /// superblock, which a disk of version 1 always has: these change nothing. After a refusal of the device the store is
    /// broken, and the disk means what it meant.
    pub fn migrate(&mut self) -> Result<(), Refusal>
        ensures ok { OnOk result (about_of self.new.contents ≡ migrated (about_of self.old.contents)) }
        ensures empty { OnOk result ((b : ℕ) → IsPending self.new.contents.pending b → ⊥) }
        ensures kept { D.keeps_model → (volume : List ℕ) → IsStored self.old.contents volume (D.gives self.old.disk) (D.may_leave_now self.old.disk)
            → OnOk result (IsStored self.new.contents volume (D.gives self.new.disk) (D.may_leave_now self.new.disk)) }

        // A stop at any moment of the call leaves what means what it meant.
        ensures any_moment { D.keeps_model → (volume : List ℕ) → IsStored self.old.contents volume (D.gives self.old.disk) (D.may_leave_now self.old.disk)
            → LeavesOnly D.moment D.may_have_left_since self.old.disk self.new.disk (Means (meaning_in self.old.contents volume)) }
        ensures calls { D.calls_made self.new.disk ≤ D.calls_made self.old.disk + count_pending self.old.contents.pending + 9 }
        ensures size { D.size self.new.disk ≡ D.size self.old.disk }
        ensures broken { IsErrOf result Refusal.Broken ↔ (self.old.contents.broken ≡ true) }
        ensures full { IsErrOf result Refusal.Full ↔ ((self.old.contents.broken ≡ false) × ((about_of self.old.contents).stores ≡ MAX_NUMBER)) }
        ensures migrates { D.keeps_model → (about_of self.old.contents).version ≡ One → (volume : List ℕ) → IsStored self.old.contents volume (D.gives self.old.disk) (D.may_leave_now self.old.disk)
            → ¬ IsErrOf result Refusal.Full }
        ensures told { IfErr result IsOfCheckpoint }
        ensures unchanged { IfErr result (λ r. ¬ IsOfDevice r → (self.new.contents ≡ self.old.contents) × (self.new.disk ≡ self.old.disk)) }
        ensures device { IfErr result (λ r. IsOfDevice r → about_of self.new.contents ≡ record (about_of self.old.contents) { broken = true }) }
        ensures cause { HasCause (D.failures self.old.disk) (D.failures self.new.disk) result }
        ensures most { D.most_failures self.new.disk ≤ D.most_failures self.old.disk }
        // Where the disk can't fail any more, the refusal isn't the device's.
        ensures calm { IfErr result (λ r. D.most_failures self.old.disk ≤ D.failures self.old.disk → IsNotOfDevice r) }
    {
        let disk = &mut self.disk;
        self.contents.checkpoint(disk)
    }

    /// Its disk.
    pub fn disk(&self) -> &D
        ensures { result.now ≡ self.now.disk }
    {
        &self.disk
    }

    /// The disk, as the store leaves it.
    pub fn into_disk(self) -> D
        ensures { result ≡ self.disk }
    {
        let Store {
            disk,
            contents: _,
            plan: _,
        } = self;
        disk
    }
}

impl<D: Disk + Drop> StoreLike for Store<D> {
    ghost use Rattle.std.specs.Prelude.{◌≡◌, ◌⊎◌, ◌+◌, ◌*◌, ◌<◌, ◌≤◌, ◌↔◌, ℕ, List, None, true, false, length, take, drop, is_some, Any, IfOk, IfErr, IfNone, IfSome, OnOk, OnErr, IsErrOf};
    ghost use Rattle.flusher.specs.Plan.{IsPending};
    ghost use Rattle.local_store.specs.Kept.{one_volume, stored_means};

    ghost keeps_model = { D.keeps_model };

    ghost about = { λ s. about_of s.contents };

    ghost keeps = { λ s volume. IsStored s.contents volume (D.gives s.disk) (D.may_leave_now s.disk) };

    ghost is_pending = { λ s. IsPending s.contents.pending };

    ghost may_leave_now = { λ s. D.may_leave_now s.disk };

    ghost moment = { λ s. D.moment s.disk };

    ghost may_have_left_since = { λ s. D.may_have_left_since s.disk };

    ghost failures = { λ s. D.failures s.disk };

    ghost means_now = { λ keeps s volume c kept left. stored_means kept.stands kept c left };

    ghost keeps_one = { λ keeps s one other kept too. one_volume kept too };

    ghost counts_now = { λ keeps s t c le left. D.counts_now keeps s.disk t c le left };

    ghost only_now = { λ keeps s c left. D.only_now keeps s.disk c left };

    ghost keeps_size = { λ keeps s volume kept. kept.region.waits.size };

    fn version(&self) -> Version {
        self.contents.version()
    }

    fn slot(&self) -> Slot {
        self.contents.slot()
    }

    fn incarnation(&self) -> u64 {
        self.contents.incarnation()
    }

    fn geometry(&self) -> Geometry {
        self.contents.geometry()
    }

    fn front(&self) -> u64 {
        self.contents.front()
    }

    fn left(&self) -> u64 {
        self.contents.left()
    }

    fn is_broken(&self) -> bool {
        self.contents.is_broken()
    }

    fn is_lent(&self) -> bool {
        false
    }

    fn read_block(&mut self, block: u32, bytes: &mut [u8]) -> Result<(), Refusal> {
        self.contents.read_block(&mut self.disk, block, bytes)
    }

    fn read_blocks(&mut self, first: u32, count: u32, bytes: &mut [u8]) -> Result<(), Refusal> {
        self.contents
            .read_blocks(&mut self.disk, first, count, bytes)
    }

    fn commit(&mut self, alloc: Global, front: u64, images: &[Image]) -> Result<Synced, Refusal> {
        self.contents.commit(alloc, &mut self.disk, front, images)
    }

    fn tick(&mut self) -> Result<Option<u32>, Refusal> {
        self.contents.tick(&mut self.disk, &mut self.plan)
    }

    fn tick_run(&mut self, most: u32) -> Result<Option<Run>, Refusal> {
        self.contents.tick_run(&mut self.disk, &mut self.plan, most)
    }

    fn checkpoint(&mut self) -> Result<(), Refusal> {
        self.contents.checkpoint(&mut self.disk)
    }
}

impl<D: Disk + Drop> NeverLends for Store<D> {
    ghost use Rattle.std.specs.Prelude.{refl};

    ghost never_lends = { λ store. refl };
}
