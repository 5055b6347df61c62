//! What a member's disk holds, as its store knows it. Each call is lent the disk.
ghost use Rattle.std.specs.Prelude.{◌≡◌, ◌⊎◌, ◌+◌, ◌-◌, ◌*◌, ◌^◌, ◌<◌, ◌≤◌, ◌↔◌, ℕ, List, Some, None, true, false, length, take, drop, All, Any, replicate, IfOk, IfErr, OnOk, OnErr, IsErrOf, IsSome};
ghost use Rattle.disk_model.specs.Disk.{LeavesOnly, Only, put};
ghost use Rattle.gate_journal.specs.Batch.{AreImages, Batch, batch_size};
ghost use Rattle.gate_journal.specs.Journal as journals;
ghost use Rattle.gate_journal.specs.Pair.{stored};
ghost use Rattle.block_cache.specs.Cache.{IsCached};
ghost use Rattle.flusher.specs.Plan.{IsPending};
ghost use Rattle.home_blocks.specs.Home.{IsNoVolume, IsOtherVersion};
ghost use Rattle.home_blocks.specs.Places as places;
ghost use Rattle.home_blocks.specs.Places.{border_of, disk_size_of};
ghost use Rattle.gate_journal.specs.Runs.{OnlyReads};
ghost use Rattle.disk_model.specs.Part.{inside};
ghost use Rattle.volume.specs.Writes.{block_of};
ghost use Rattle.home_blocks.specs.declared.version.Version.TheVariants.{Two};
ghost use Rattle.local_store.specs.About.{HasNoRoom, HasRoom, IsTooMuch, about_of};
ghost use Rattle.local_store.specs.Lending.{HoldsHome, IsHomeKept};
ghost use Rattle.local_store.specs.Meaning.{HasDamagedArea, IsUnfinished, Means};
ghost use Rattle.local_store.specs.Overlay.{with_images};
ghost use Rattle.local_store.specs.Pending.{held};
ghost use Rattle.local_store.specs.Refusal.{HasCause, IsCaused, IsOfCommitting, IsOfDevice, IsOfFormatting, IsOfOpening, IsOfReading, IsOfTicking};
ghost use Rattle.local_store.specs.Store.{IsSameButForPending, IsStored, State, committed, geometry_of, meaning_after, meaning_in};

use crate::pending::{Pending, stage};
use crate::refusal::Refusal;
use block_cache::Cache;
use disk_model::Disk;
use gate_journal::{Image, Journal, MAX_NUMBER, Slot, Synced, batch_size, batches_are_small};
use home_blocks::{Area, Home, Progress, Superblock, Version, area_part, home_part};
use std::alloc::Global;
use std::marker::Model;
use volume::{BLOCK_SIZE, Geometry};

/// The superblock, the home region and the current area of a disk of at least `disk_size(geometry)` bytes, and the images
/// that are not yet home.
#[derive(Drop)]
pub struct Contents {
    pub(crate) home: Home,
    pub(crate) journal: Journal,
    pub(crate) pending: Pending,
    pub(crate) cache: Cache,
    pub(crate) broken: bool,
    /// Where a batch is put together.
    pub(crate) batch: Vec<u8>,
    /// Where a run is.
    pub(crate) run: Vec<u8>,
}

impl Model for Contents {
    ghost use Rattle.local_store.specs.Store.{IsSound, State};

    ghost Value = { State };

    ghost view = { λ s. record { home = s.home; journal = s.journal; pending = s.pending; cache = s.cache; broken = s.broken } };

    ghost invariant = { λ s. IsSound (record { home = s.home; journal = s.journal; pending = s.pending; cache = s.cache; broken = s.broken }) };
}

impl Contents {
    /// Formats a disk of at least `disk_size(geometry)` bytes, which may hold anything: after it the disk means a volume of
    /// zeros at front 0. The incarnation is at most 2^63 - 1. It writes each block of the home region, a closed gate to the
    /// first area, a sync, and creates the superblock's pair: one device call a block, and fourteen more.
    ///
    /// It is refused for memory, with nothing written, and by the device. It is for a disk that nobody needs any more: until it
    /// is done, one that kept a volume may be left with that volume, some of its blocks zeros.
    pub fn format<D: Disk>(
        alloc: Global,
        disk: &mut D,
        slot: Slot,
        incarnation: u64,
        geometry: Geometry,
    ) -> Result<Contents, Refusal>
        requires on_disk { disk_size_of geometry ≤ D.size disk.old }
        requires limit { incarnation ≤ MAX_NUMBER }

        ensures about { IfOk result (λ s. about_of s ≡ record { version = Two; slot = slot; incarnation = incarnation; geometry = geometry; front = 0; used = 0; stores = 1; broken = false; lent = None }) }
        ensures stored { D.keeps_model → IfOk result (λ s. IsStored s (replicate (4096 * geometry.blocks) 0) (D.gives disk.new) (D.may_leave_now disk.new)) }
        ensures size { D.size disk.new ≡ D.size disk.old }
        ensures calls { D.calls_made disk.new ≤ D.calls_made disk.old + geometry.blocks + 14 }
        ensures told { IfErr result IsOfFormatting }
        ensures unchanged { IsErrOf result Refusal.Memory → disk.new ≡ disk.old }
        ensures cause { HasCause (D.failures disk.old) (D.failures disk.new) result }
        ensures most { D.most_failures disk.new ≤ D.most_failures disk.old }
    {
        let pending = Pending::new(alloc, geometry.blocks)?;
        let cache = Cache::new(alloc)?;
        write_zeros(disk, geometry)?;
        let part = area_part(geometry, Area::First);
        let journal = Journal::create(disk, part, slot, geometry.blocks, 0)?;
        let superblock = Superblock::new(
            Progress::Whole,
            slot,
            incarnation,
            geometry,
            0,
            Area::First,
        );
        let (home, _) = Home::create(disk, superblock)?;
        Ok(Contents {
            home,
            journal,
            pending,
            cache,
            broken: false,
            batch: Vec::new(alloc),
            run: Vec::new(alloc),
        })
    }

    /// What a disk of any length holds, which may be anything. It syncs, and then reads; after it the whole disk is durable.
    ///
    /// 131 `NotAVolume` where the disk holds no superblock, or one of version 1 with the greatest number, is too short for it,
    /// or its current area is damaged; 132 `OtherVersion` where its version isn't 1 or 2; 133 `Unfinished` where its
    /// installation was not finished; 100 `Memory`, and what the device refuses. All leave the disk as it was.
    #[tactic(auto, using(crate::proofs::Refusals::home_other_version))]
    pub fn open<D: Disk>(alloc: Global, disk: &mut D) -> Result<Contents, Refusal>
        ensures stored { D.keeps_model → IfOk result (λ s. (volume : List ℕ) × IsStored s volume (D.gives disk.new) (D.may_leave_now disk.new) × Means (meaning_in s volume) (D.gives disk.old)) }
        ensures room { IfOk result (λ s. disk_size_of (geometry_of s) ≤ D.size disk.old) }
        ensures runs { IfOk result (λ s. s.broken ≡ false) }

        ensures not_a_volume { D.keeps_model → IsErrOf result Refusal.NotAVolume → IsNoVolume (D.gives disk.old) ⊎ HasDamagedArea (D.gives disk.old) }
        ensures other_version { D.keeps_model → IsErrOf result Refusal.OtherVersion → IsOtherVersion (D.gives disk.old) }
        ensures unfinished { D.keeps_model → IsErrOf result Refusal.Unfinished → IsUnfinished (D.gives disk.old) }

        ensures whole { D.keeps_model → OnOk result (Only (D.gives disk.new) (D.may_leave_now disk.new)) }
        ensures reads { D.keeps_model → OnlyReads D.gives D.may_leave_now D.moment D.may_have_left_since disk.old disk.new }
        ensures size { D.size disk.new ≡ D.size disk.old }
        ensures told { IfErr result IsOfOpening }
        ensures cause { HasCause (D.failures disk.old) (D.failures disk.new) result }
        ensures most { D.most_failures disk.new ≤ D.most_failures disk.old }
    {
        let home = match Home::open(alloc, disk) {
            Ok(home) => home,
            Err(refusal) => return Err(Refusal::from(refusal)),
        };
        let superblock = home.superblock();
        match superblock.progress() {
            Progress::Installing => return Err(Refusal::Unfinished),
            Progress::Whole => {}
        }
        let geometry = superblock.geometry();
        let part = area_part(geometry, superblock.current());
        let opened = match Journal::open(
            alloc,
            disk,
            part,
            superblock.slot(),
            geometry.blocks,
            superblock.front(),
        ) {
            Ok(opened) => opened,
            Err(refusal) => return Err(Refusal::from(refusal)),
        };
        let (journal, batches) = opened;
        let pending = Pending::of(alloc, geometry.blocks, &batches)?;
        let cache = Cache::new(alloc)?;
        Ok(Contents {
            home,
            journal,
            pending,
            cache,
            broken: false,
            batch: Vec::new(alloc),
            run: Vec::new(alloc),
        })
    }

    /// Reads a block of the volume, of 4,096 bytes: by no device call where it is pending or in the cache, else by one.
    ///
    /// 122 `Broken` exactly where a device call failed before; and what the device refuses: then the store is broken.
    pub fn read_block<D: Disk>(
        &mut self,
        disk: &mut D,
        block: u32,
        bytes: &mut [u8],
    ) -> Result<(), Refusal>
        requires on_disk { border_of (geometry_of self.old) ≤ D.size disk.old }
        requires block { block < (geometry_of self.old).blocks }
        requires whole { length bytes.old ≡ BLOCK_SIZE }

        ensures read { D.keeps_model → (volume : List ℕ) → IsStored self.old volume (D.gives disk.old) (D.may_leave_now disk.old)
            → OnOk result (bytes.new ≡ block_of volume block) }
        ensures stored { D.keeps_model → (volume : List ℕ) → IsStored self.old volume (D.gives disk.old) (D.may_leave_now disk.old)
            → OnOk result (IsStored self.new volume (D.gives disk.new) (D.may_leave_now disk.new)) }
        ensures ok { OnOk result (self.new ≡ record self.old { cache = self.new.cache }) }

        // The same of a disk that has its home half at least.
        ensures home_read { D.keeps_model → (volume : List ℕ) (batches : List Batch) → IsHomeKept self.old volume batches (D.gives disk.old) (D.may_leave_now disk.old)
            → OnOk result (bytes.new ≡ block_of volume block) }
        ensures home_kept { D.keeps_model → (volume : List ℕ) (batches : List Batch) → IsHomeKept self.old volume batches (D.gives disk.old) (D.may_leave_now disk.old)
            → OnOk result (IsHomeKept self.new volume batches (D.gives disk.new) (D.may_leave_now disk.new)) }
        ensures home_moment { D.keeps_model → (volume : List ℕ) (batches : List Batch) → IsHomeKept self.old volume batches (D.gives disk.old) (D.may_leave_now disk.old)
            → LeavesOnly D.moment D.may_have_left_since disk.old disk.new (HoldsHome self.old volume batches) }
        ensures cached { IsCached self.old.cache block → disk.new ≡ disk.old }
        ensures reads { D.keeps_model → OnlyReads D.gives D.may_leave_now D.moment D.may_have_left_since disk.old disk.new }
        ensures pending { IsSome (held self.old.pending block) → disk.new ≡ disk.old }
        ensures same { IsSameButForPending self.old self.new }
        ensures size { D.size disk.new ≡ D.size disk.old }
        ensures calls { D.calls_made disk.new ≤ D.calls_made disk.old + 1 }
        ensures broken { IsErrOf result Refusal.Broken ↔ (self.old.broken ≡ true) }
        ensures told { IfErr result IsOfReading }
        ensures err { OnErr result (self.new ≡ record self.old { cache = self.new.cache; broken = true }) }
        ensures cause { HasCause (D.failures disk.old) (D.failures disk.new) result }
    {
        if self.broken {
            return Err(Refusal::Broken);
        }
        if let Some(image) = self.pending.get(block) {
            image.copy_to(bytes);
            return Ok(());
        }
        if let Err(error) = self.cache.read(disk, &self.home, block, bytes) {
            self.broken = true;
            return Err(Refusal::Device(error));
        }
        Ok(())
    }

    /// Reads a run of blocks of the volume, by one device call: the pending ones are put over what it gave. The cache has what
    /// the home region has, so it isn't asked.
    ///
    /// 122 `Broken` exactly where a device call failed before; and what the device refuses: then the store is broken.
    pub fn read_blocks<D: Disk>(
        &mut self,
        disk: &mut D,
        first: u32,
        count: u32,
        bytes: &mut [u8],
    ) -> Result<(), Refusal>
        requires on_disk { border_of (geometry_of self.old) ≤ D.size disk.old }
        requires within { first + count ≤ (geometry_of self.old).blocks }
        requires whole { length bytes.old ≡ 4096 * count }

        ensures read { D.keeps_model → (volume : List ℕ) → IsStored self.old volume (D.gives disk.old) (D.may_leave_now disk.old)
            → OnOk result (bytes.new ≡ take (4096 * count) (drop (4096 * first) volume)) }
        ensures stored { D.keeps_model → (volume : List ℕ) → IsStored self.old volume (D.gives disk.old) (D.may_leave_now disk.old)
            → OnOk result (IsStored self.new volume (D.gives disk.new) (D.may_leave_now disk.new)) }
        ensures ok { OnOk result (self.new ≡ self.old) }
        ensures reads { D.keeps_model → OnlyReads D.gives D.may_leave_now D.moment D.may_have_left_since disk.old disk.new }

        // The same of a disk that has its home half at least.
        ensures home_read { D.keeps_model → (volume : List ℕ) (batches : List Batch) → IsHomeKept self.old volume batches (D.gives disk.old) (D.may_leave_now disk.old)
            → OnOk result (bytes.new ≡ take (4096 * count) (drop (4096 * first) volume)) }
        ensures home_kept { D.keeps_model → (volume : List ℕ) (batches : List Batch) → IsHomeKept self.old volume batches (D.gives disk.old) (D.may_leave_now disk.old)
            → OnOk result (IsHomeKept self.new volume batches (D.gives disk.new) (D.may_leave_now disk.new)) }
        ensures home_moment { D.keeps_model → (volume : List ℕ) (batches : List Batch) → IsHomeKept self.old volume batches (D.gives disk.old) (D.may_leave_now disk.old)
            → LeavesOnly D.moment D.may_have_left_since disk.old disk.new (HoldsHome self.old volume batches) }
        ensures same { IsSameButForPending self.old self.new }
        ensures size { D.size disk.new ≡ D.size disk.old }
        ensures calls { D.calls_made disk.new ≤ D.calls_made disk.old + 1 }
        ensures broken { IsErrOf result Refusal.Broken ↔ (self.old.broken ≡ true) }
        ensures told { IfErr result IsOfReading }
        ensures err { OnErr result (self.new ≡ record self.old { broken = true }) }
        ensures cause { HasCause (D.failures disk.old) (D.failures disk.new) result }
    {
        if self.broken {
            return Err(Refusal::Broken);
        }
        if let Err(error) = self.home.read_blocks(disk, first, bytes) {
            self.broken = true;
            return Err(Refusal::Device(error));
        }
        self.pending.put_over(first, count, bytes);
        Ok(())
    }

    /// The sizes of the volume and of the disk's parts.
    pub fn geometry(&self) -> Geometry
        ensures { result ≡ geometry_of self.now }
    {
        self.home.superblock().geometry()
    }

    /// The slot of the member whose disk it is.
    pub fn slot(&self) -> Slot
        ensures { result ≡ self.now.home.superblock.slot }
    {
        self.home.superblock().slot()
    }

    /// The version of the disk.
    pub fn version(&self) -> Version
        ensures { result ≡ (about_of self.now).version }
    {
        self.home.superblock().version()
    }

    /// Which of the disks that had the slot in turn it is, at most 2^63 - 1.
    pub fn incarnation(&self) -> u64
        ensures incarnation { result ≡ self.now.home.superblock.incarnation }
        ensures limit { result ≤ MAX_NUMBER }
    {
        self.home.superblock().incarnation()
    }

    /// How many bytes the images of the next batch may take, at least one: of zeros 4, of other bytes 4,100.
    pub fn left(&self) -> u64
        ensures left { (size : ℕ) → 0 < size → size ≤ result → HasRoom (about_of self.now) size }
        ensures too_much { (size : ℕ) → result < size → HasNoRoom (about_of self.now) size }
    {
        self.journal.left()
    }

    /// Whether a device call failed: then each call is refused with 122, until the disk is opened again.
    pub fn is_broken(&self) -> bool
        ensures { result ≡ self.now.broken }
    {
        self.broken
    }

    /// The number of the last write that the disk holds.
    pub fn front(&self) -> u64
        ensures front { result ≡ self.now.journal.front }
        ensures limit { result ≤ MAX_NUMBER }
    {
        self.journal.front()
    }

    /// Where the log half of its disk begins: with the first area.
    pub(crate) fn border(&self) -> u64
        ensures { result ≡ border_of (geometry_of self.now) }
    {
        area_part(self.geometry(), Area::First).start()
    }

    /// Its journal as the log half sees it.
    pub(crate) fn twin(&self) -> Journal
        ensures twin { result ≡ journals.behind_border self.now.journal (border_of (geometry_of self.now)) }
        ensures slot { result.slot ≡ self.now.home.superblock.slot }
        ensures blocks { result.blocks ≡ (geometry_of self.now).blocks }
        ensures area { result.part.len ≡ (geometry_of self.now).area }
        ensures within { border_of (geometry_of self.now) + (result.part.start + result.part.len) ≤ disk_size_of (geometry_of self.now) }
        ensures runs { self.now.broken ≡ false → result.broken ≡ false }
    {
        self.journal.behind(self.border())
    }

    /// Has one batch more, which was journaled on the log half and has so many bytes: its images are pending from now on. They
    /// are of blocks of the volume, and the batch fits.
    pub(crate) fn add(&mut self, front: u64, staged: Vec<Image>, size: u64)
        requires images { All (λ image. image.block < (geometry_of self.old).blocks) staged.items }
        requires size { size ≡ batch_size staged.items }
        requires fits { journals.Fits self.old.journal staged.items }
        requires limit { front ≤ MAX_NUMBER }
        ensures ok { self.new ≡ committed self.old front staged.items }
        ensures pends { (b : ℕ) → IsPending self.new.pending b ↔ (IsPending self.old.pending b ⊎ Any (λ image. image.block ≡ b) staged.items) }
    {
        self.journal.note(front, size);
        self.pending.keep(staged);
    }

    /// Is broken from now on: a device call failed in the log half.
    pub(crate) fn give_up(&mut self)
        ensures { self.new ≡ record self.old { broken = true } }
    {
        self.broken = true;
    }

    /// Whether a commit of these images may go on: then the bytes of their batch.
    pub(crate) fn may_commit(&self, front: u64, images: &[Image]) -> Result<u64, Refusal>
        requires { AreImages (geometry_of self.now).blocks images.now }
        ensures size { IfOk result (λ size. size ≡ batch_size images.now) }
        ensures runs { OnOk result ((self.now.broken ≡ false) × (self.now.journal.front < front)) }
        ensures fits { OnOk result (journals.Fits self.now.journal images.now) }
        ensures broken { IsErrOf result Refusal.Broken ↔ (self.now.broken ≡ true) }
        ensures backwards { IsErrOf result Refusal.Backwards ↔ ((self.now.broken ≡ false) × (front ≤ self.now.journal.front)) }
        ensures full { IsErrOf result Refusal.Full ↔ ((self.now.broken ≡ false) × (self.now.journal.front < front) × IsTooMuch (about_of self.now) images.now) }
        ensures told { IfErr result IsOfCommitting }
        ensures own { IfErr result (λ r. ¬ IsOfDevice r) }
        ensures cause { IfErr result (λ r. (n : ℕ) → IsCaused n n r) }
    {
        if self.broken {
            return Err(Refusal::Broken);
        }
        if front <= self.front() {
            return Err(Refusal::Backwards);
        }
        batches_are_small();
        let size = batch_size(images);
        if !self.journal.fits(size) {
            return Err(Refusal::Full);
        }
        Ok(size)
    }

    /// Puts whole blocks into the volume, and gives the receipt of the member's slot and this front, by the four device
    /// calls of an append. The images are at least one, each of a block of the volume, no block twice; the front is at most
    /// 2^63 - 1.
    ///
    /// 122 `Broken` exactly where a device call failed before; else 134 `Backwards` exactly where the front isn't above the
    /// old one; else 121 `Full` exactly where the batch doesn't fit into the area; else 100 `Memory`: these change nothing.
    /// After a refusal of the device the store is broken, and the disk means the old front or the new.
    pub fn commit<D: Disk>(
        &mut self,
        alloc: Global,
        disk: &mut D,
        front: u64,
        images: &[Image],
    ) -> Result<Synced, Refusal>
        requires on_disk { disk_size_of (geometry_of self.old) ≤ D.size disk.old }
        requires images { AreImages (geometry_of self.old).blocks images.now }
        requires limit { front ≤ MAX_NUMBER }

        ensures receipt { IfOk result (λ receipt. receipt ≡ record { slot = self.old.home.superblock.slot; front = front }) }
        ensures ok { OnOk result (self.new ≡ committed self.old front images.now) }
        ensures pends { OnOk result ((b : ℕ) → IsPending self.new.pending b ↔ (IsPending self.old.pending b ⊎ Any (λ image. image.block ≡ b) images.now)) }
        ensures stored { D.keeps_model → (volume : List ℕ) → IsStored self.old volume (D.gives disk.old) (D.may_leave_now disk.old)
            → OnOk result (IsStored self.new (with_images volume images.now) (D.gives disk.new) (D.may_leave_now disk.new)) }

        // A stop at any moment of the call leaves a disk that means the old front and volume, or the new ones.
        ensures any_moment { D.keeps_model → (volume : List ℕ) → IsStored self.old volume (D.gives disk.old) (D.may_leave_now disk.old)
            → LeavesOnly D.moment D.may_have_left_since disk.old disk.new
            (λ c. Means (meaning_in self.old volume) c ⊎ Means (meaning_after self.old volume front images.now) c) }
        ensures size { D.size disk.new ≡ D.size disk.old }
        ensures calls { D.calls_made disk.new ≤ D.calls_made disk.old + 4 }

        ensures broken { IsErrOf result Refusal.Broken ↔ (self.old.broken ≡ true) }
        ensures backwards { IsErrOf result Refusal.Backwards ↔ ((self.old.broken ≡ false) × (front ≤ self.old.journal.front)) }
        ensures full { IsErrOf result Refusal.Full ↔ ((self.old.broken ≡ false) × (self.old.journal.front < front) × IsTooMuch (about_of self.old) images.now) }
        ensures told { IfErr result IsOfCommitting }
        ensures unchanged { IfErr result (λ r. ¬ IsOfDevice r → (self.new ≡ self.old) × (disk.new ≡ disk.old)) }
        ensures device { IfErr result (λ r. IsOfDevice r → self.new ≡ record self.old { journal = record self.old.journal { broken = true }; broken = true }) }
        ensures cause { HasCause (D.failures disk.old) (D.failures disk.new) result }
    {
        self.may_commit(front, images)?;
        let staged = stage(alloc, images)?;
        let receipt = match self.journal.append(&mut self.batch, disk, front, images) {
            Ok(receipt) => receipt,
            Err(refusal) => {
                self.broken = refusal.is_of_device();
                return Err(Refusal::from(refusal));
            }
        };
        self.pending.keep(staged);
        Ok(receipt)
    }
}

/// Writes zeros to every block of the home region.
fn write_zeros<D: Disk>(disk: &mut D, geometry: Geometry) -> Result<(), Refusal>
    requires on_disk { disk_size_of geometry ≤ D.size disk.old }
    ensures zeros { D.keeps_model → OnOk result (inside (places.home_part geometry) (D.gives disk.new) ≡ replicate (4096 * geometry.blocks) 0) }
    ensures size { D.size disk.new ≡ D.size disk.old }
    ensures calls { D.calls_made disk.new ≤ D.calls_made disk.old + geometry.blocks }
    ensures told { IfErr result IsOfTicking }
    ensures own { IfErr result IsOfDevice }
    ensures cause { HasCause (D.failures disk.old) (D.failures disk.new) result }
    ensures most { D.most_failures disk.new ≤ D.most_failures disk.old }
{
    let part = home_part(geometry);
    let zeros = [0; BLOCK_SIZE as usize];
    for block in 0..geometry.blocks {
        part.write_at(disk, BLOCK_SIZE * u64::from(block), &zeros)?;
    }
    Ok(())
}
