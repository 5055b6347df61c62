//! A store in memory, for tests, and as the plain program beside a store on a disk.
ghost use Rattle.std.specs.Prelude.{◌≡◌, ◌⊎◌, ◌+◌, ◌*◌, ◌<◌, ◌≤◌, ◌↔◌, ℕ, None, false, replicate, length, Any, IfErr, IfOk};
ghost use Rattle.flusher.specs.Plan.{IsPending};
ghost use Rattle.disk_model.specs.Memory.{failures_of, size_of};
ghost use Rattle.gate_journal.specs.Batch.{AreImages};
ghost use Rattle.gate_journal.specs.declared.batch.TheConstants.{MAX_NUMBER};
ghost use Rattle.home_blocks.specs.declared.version.Version.TheVariants.{Two};
ghost use Rattle.local_store.specs.Overlay.{with_images};
ghost use Rattle.local_store.specs.Pending.{AreCleared};
ghost use Rattle.local_store.specs.Refusal.{HasCause, IsOfStamping};

use crate::refusal::Refusal;
use crate::store_like::StoreLike;
use disk_model::{MemDisk, Part, Script};
use flusher::{Plan, Run};
use gate_journal::{Image, Journal, MAX_NUMBER, Slot, Synced, batch_size, batches_are_small};
use home_blocks::Version;
use std::alloc::{AllocError, Global};
use std::marker::Model;
use volume::{BLOCK_SIZE, Geometry};

/// The bytes that a batch takes beside its images, the closed gate behind it included.
const BATCH_FRAME: u64 = 14;

/// The most bytes that an image takes in a batch.
const IMAGE_RECORD: u64 = 4_100;

/// The bytes of a journal area with room for one image.
const STAMP_AREA: u64 = BATCH_FRAME + IMAGE_RECORD;

/// A volume in memory, with its front. It fills its journal area, has pending blocks and refuses as a store on a disk does, and
/// nothing of it outlives the program. A receipt is made by a journal alone: so each commit appends a batch to a new one, on a
/// disk in memory that holds nothing else.
#[derive(Drop)]
pub struct PlainStore {
    slot: Slot,
    incarnation: u64,
    geometry: Geometry,
    front: u64,
    used: u64,
    stores: u64,
    broken: bool,
    volume: Vec<u8>,
    pending: Vec<Option<()>>,
    plan: Plan,
    stamps: MemDisk,
}

impl Model for PlainStore {
    ghost use Rattle.std.specs.Prelude.{◌≤◌, None};
    ghost use Rattle.disk_model.specs.Memory.{failures_of, size_of};
    ghost use Rattle.home_blocks.specs.declared.version.Version.TheVariants.{Two};
    ghost use Rattle.local_store.specs.Plain.{IsPlain, Plain};

    ghost Value = { Plain };

    ghost view = { λ s. record {
      about = record { version = Two; slot = s.slot; incarnation = s.incarnation; geometry = s.geometry; front = s.front; used = s.used; stores = s.stores; broken = s.broken; lent = None };
      volume = s.volume.items;
      pending = s.pending.items;
      failures = failures_of s.stamps;
    } };

    ghost invariant = { λ s. IsPlain (record {
      about = record { version = Two; slot = s.slot; incarnation = s.incarnation; geometry = s.geometry; front = s.front; used = s.used; stores = s.stores; broken = s.broken; lent = None };
      volume = s.volume.items;
      pending = s.pending.items;
      failures = failures_of s.stamps;
    }) × (4114 ≤ size_of s.stamps) };
}

impl PlainStore {
    /// A volume of zeros at front 0, for a member. The incarnation is at most 2^63 - 1.
    pub fn new(
        alloc: Global,
        slot: Slot,
        incarnation: u64,
        geometry: Geometry,
    ) -> Result<PlainStore, AllocError>
        requires { incarnation ≤ MAX_NUMBER }
        ensures about { IfOk result (λ s. s.about ≡ record { version = Two; slot = slot; incarnation = incarnation; geometry = geometry; front = 0; used = 0; stores = 1; broken = false; lent = None }) }
        ensures volume { IfOk result (λ s. s.volume ≡ replicate (4096 * geometry.blocks) 0) }
    {
        let blocks = geometry.blocks as usize;
        Ok(PlainStore {
            slot,
            incarnation,
            geometry,
            front: 0,
            used: 0,
            stores: 1,
            broken: false,
            volume: vec![in alloc; 0; blocks * BLOCK_SIZE as usize]?,
            pending: vec![in alloc; None; blocks]?,
            plan: Plan::new(),
            stamps: MemDisk::new(alloc, STAMP_AREA, Script::new(alloc))?,
        })
    }
}

/// Puts whole blocks into a volume.
fn put(volume: &mut [u8], pending: &mut [Option<()>], images: &[Image])
    requires size { length volume.old ≡ 4096 * length pending.old }
    requires images { AreImages (length pending.old) images.now }
    ensures volume { volume.new ≡ with_images volume.old images.now }
    ensures size { length volume.new ≡ length volume.old }
    ensures table { length pending.new ≡ length pending.old }
    ensures pends { (b : ℕ) → IsPending pending.new b ↔ (IsPending pending.old b ⊎ Any (λ image. image.block ≡ b) images.now) }
{
    for image in images {
        let block = image.block() as usize;
        let start = block * BLOCK_SIZE as usize;
        image.copy_to(&mut volume[start..start + BLOCK_SIZE as usize]);
        pending[block] = Some(());
    }
}

/// The blocks of a run are pending no more.
fn clear(pending: &mut [Option<()>], run: Run)
    requires { run.first + run.count ≤ length pending.old }
    ensures { AreCleared run.first run.count pending.old pending.new }
{
    for i in 0..run.count {
        pending[run.first as usize + i as usize] = None;
    }
}

/// The receipt of the slot and the front, made by a journal on the disk.
fn stamp(
    alloc: Global,
    disk: &mut MemDisk,
    slot: Slot,
    before: u64,
    front: u64,
) -> Result<Synced, Refusal>
    requires on_disk { 4114 ≤ size_of disk.old }
    requires rises { before < front }
    requires limit { front ≤ MAX_NUMBER }
    ensures receipt { IfOk result (λ receipt. receipt ≡ record { slot = slot; front = front }) }
    ensures told { IfErr result IsOfStamping }
    ensures size { size_of disk.new ≡ size_of disk.old }
    ensures cause { HasCause (failures_of disk.old) (failures_of disk.new) result }
{
    batches_are_small();
    let area = Part::new(0, STAMP_AREA);
    let mut journal = Journal::create(disk, area, slot, 1, before)?;
    Ok(journal.append(&mut Vec::new(alloc), disk, front, &[Image::zeros(0)])?)
}

impl StoreLike for PlainStore {
    ghost use Rattle.std.specs.Prelude.{◌≡◌, ◌⊎◌, ◌+◌, ◌*◌, ◌<◌, ◌≤◌, ◌↔◌, ℕ, List, None, true, false, length, take, drop, is_some, Any, IfOk, IfErr, IfNone, IfSome, OnOk, OnErr, IsErrOf, ⊤};
    ghost use Rattle.flusher.specs.Plan.{IsPending};
    ghost use Rattle.local_store.specs.Plain.{KeepsPlain, MeansPlain, keeps_one_plain, means_plain};

    ghost keeps_model = { ⊤ };

    ghost about = { λ s. s.about };

    ghost keeps = { KeepsPlain };

    ghost is_pending = { λ s. IsPending s.pending };

    ghost may_leave_now = { MeansPlain };

    ghost moment = { λ s. 0 };

    ghost may_have_left_since = { λ s t. MeansPlain s };

    ghost failures = { λ s. s.failures };

    ghost means_now = { λ keeps s volume c kept left. means_plain s volume c kept left };

    ghost keeps_one = { λ keeps s one other kept too. keeps_one_plain s one other kept too };

    ghost counts_now = { λ keeps s t c le left. left };

    ghost only_now = { λ keeps s c left. left };

    ghost keeps_size = { λ keeps s volume kept. kept.size };

    fn version(&self) -> Version {
        let _ = &self.broken;
        Version::Two
    }

    fn slot(&self) -> Slot {
        self.slot
    }

    fn incarnation(&self) -> u64 {
        self.incarnation
    }

    fn geometry(&self) -> Geometry {
        self.geometry
    }

    fn front(&self) -> u64 {
        self.front
    }

    fn left(&self) -> u64 {
        u64::from(self.geometry.area).saturating_sub(self.used + BATCH_FRAME)
    }

    fn is_broken(&self) -> bool {
        self.broken
    }

    fn is_lent(&self) -> bool {
        let _ = &self.broken;
        false
    }

    fn read_block(&mut self, block: u32, bytes: &mut [u8]) -> Result<(), Refusal> {
        if self.broken {
            return Err(Refusal::Broken);
        }
        let start = block as usize * BLOCK_SIZE as usize;
        bytes.copy_from_slice(&self.volume[start..start + BLOCK_SIZE as usize]);
        Ok(())
    }

    fn read_blocks(&mut self, first: u32, count: u32, bytes: &mut [u8]) -> Result<(), Refusal> {
        if self.broken {
            return Err(Refusal::Broken);
        }
        let start = first as usize * BLOCK_SIZE as usize;
        let len = count as usize * BLOCK_SIZE as usize;
        bytes.copy_from_slice(&self.volume[start..start + len]);
        Ok(())
    }

    fn commit(&mut self, alloc: Global, front: u64, images: &[Image]) -> Result<Synced, Refusal> {
        if self.broken {
            return Err(Refusal::Broken);
        }
        if front <= self.front {
            return Err(Refusal::Backwards);
        }
        batches_are_small();
        let size = batch_size(images);
        if u64::from(self.geometry.area) - self.used <= size {
            return Err(Refusal::Full);
        }
        match stamp(alloc, &mut self.stamps, self.slot, self.front, front) {
            Ok(receipt) => {
                put(&mut self.volume, &mut self.pending, images);
                self.front = front;
                self.used += size;
                Ok(receipt)
            }
            Err(refusal) => {
                self.broken = refusal.is_of_device();
                Err(refusal)
            }
        }
    }

    fn tick(&mut self) -> Result<Option<u32>, Refusal> {
        if self.broken {
            return Err(Refusal::Broken);
        }
        let Some(block) = self.plan.next(&self.pending) else {
            return Ok(None);
        };
        self.pending[block as usize] = None;
        Ok(Some(block))
    }

    fn tick_run(&mut self, most: u32) -> Result<Option<Run>, Refusal> {
        if self.broken {
            return Err(Refusal::Broken);
        }
        let Some(run) = self.plan.next_run(&self.pending, most) else {
            return Ok(None);
        };
        clear(&mut self.pending, run);
        Ok(Some(run))
    }

    fn checkpoint(&mut self) -> Result<(), Refusal> {
        if self.broken {
            return Err(Refusal::Broken);
        }
        if self.stores == MAX_NUMBER {
            return Err(Refusal::Full);
        }
        self.pending.fill(None);
        self.used = 0;
        self.stores += 1;
        Ok(())
    }
}
