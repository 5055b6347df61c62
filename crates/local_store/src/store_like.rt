//! A store, as the layers above see it.
ghost use Rattle.std.specs.Prelude.{◌≡◌, ◌⊎◌, ◌+◌, ◌*◌, ◌<◌, ◌≤◌, ◌↔◌, ℕ, List, None, true, false, length, take, drop, is_some, Any, IfOk, IfErr, IfNone, IfSome, OnOk, OnErr, IsErrOf};
ghost use Rattle.disk_model.specs.Disk.{LeavesOnly};
ghost use Rattle.gate_journal.specs.Batch.{AreImages};
ghost use Rattle.local_store.specs.About.{About, HasNeighbours, HasNoRoom, HasRoom, IsOfVersionTwo, IsOneLess, IsTooMuch, IsWithoutRun, meaning_then, meaning_with, one_checkpoint_more, one_commit_more};
ghost use Rattle.local_store.specs.Meaning.{Means};
ghost use Rattle.local_store.specs.Overlay.{with_images};
ghost use Rattle.local_store.specs.Refusal.{HasCause, IsOfCheckpoint, IsOfCommitting, IsOfDevice, IsOfReading, IsOfTicking, IsOfTickingRun};
ghost use Rattle.volume.specs.Writes.{block_of};

use crate::refusal::Refusal;
use flusher::Run;
use gate_journal::{Image, MAX_NUMBER, Slot, Synced};
use home_blocks::Version;
use std::alloc::Global;
use volume::{BLOCK_SIZE, Geometry};

/// A store of one volume, for a member. What is said of its volume, and of what a stop leaves, stands under the premise
/// `keeps_model`; what it tells of itself stands outside it. Whatever writes asks for a disk of version 2.
pub trait StoreLike {
    /// The premise: what such a store is kept on keeps the disk model.
    ghost keeps_model: { Type 0 };

    /// What it tells of itself.
    ghost about: { Self → About };

    /// It keeps this volume.
    ghost keeps: { Self → List ℕ → Type 0 };

    /// The block's image is in the current area and not yet home.
    ghost is_pending: { Self → ℕ → Type 0 };

    /// What a stop now may leave.
    ghost may_leave_now: { Self → List ℕ → Type 0 };

    /// The moment, as a number that doesn't fall.
    ghost moment: { Self → ℕ };

    /// What a stop at some moment from that one on may have left.
    ghost may_have_left_since: { Self → ℕ → List ℕ → Type 0 };

    /// How often the device has failed.
    ghost failures: { Self → ℕ };

    /// The version of its disk.
    fn version(&self) -> Version
        ensures { result ≡ (about self.now).version };

    /// The slot of the member whose store it is.
    fn slot(&self) -> Slot
        ensures { result ≡ (about self.now).slot };

    /// Which of the disks that had the slot in turn it is, at most 2^63 - 1.
    fn incarnation(&self) -> u64
        ensures incarnation { result ≡ (about self.now).incarnation }
        ensures limit { result ≤ MAX_NUMBER };

    /// The sizes of the volume.
    fn geometry(&self) -> Geometry
        ensures { result ≡ (about self.now).geometry };

    /// The number of the last write that the store holds, at most 2^63 - 1.
    fn front(&self) -> u64
        ensures front { result ≡ (about self.now).front }
        ensures limit { result ≤ MAX_NUMBER };

    /// How many bytes the images of the next batch may take, at least one: of zeros 4, of other bytes 4,100.
    fn left(&self) -> u64
        ensures left { (size : ℕ) → 0 < size → size ≤ result → HasRoom (about self.now) size }
        ensures too_much { (size : ℕ) → result < size → HasNoRoom (about self.now) size };

    /// Whether a device call failed, or a commit was given up: then each call is refused with 122.
    fn is_broken(&self) -> bool
        ensures { result ≡ (about self.now).broken };

    /// Whether the log is lent out: then nothing can be committed, and the area can't be emptied.
    fn is_lent(&self) -> bool
        ensures lent { result ≡ is_some (about self.now).lent }
        ensures here { result ≡ false → (about self.now).lent ≡ None };

    /// Reads a block of the volume, of 4,096 bytes.
    ///
    /// 122 `Broken` exactly where a device call failed before; and what the device refuses: then the store is broken.
    fn read_block(&mut self, block: u32, bytes: &mut [u8]) -> Result<(), Refusal>
        requires block { block < (about self.old).geometry.blocks }
        requires whole { length bytes.old ≡ BLOCK_SIZE }
        ensures read { keeps_model → (volume : List ℕ) → keeps self.old volume → OnOk result (bytes.new ≡ block_of volume block) }
        ensures kept { keeps_model → (volume : List ℕ) → keeps self.old volume → OnOk result (keeps self.new volume) }
        ensures any_moment { keeps_model → (volume : List ℕ) → keeps self.old volume → LeavesOnly moment may_have_left_since self.old self.new (Means (meaning_with (about self.old) volume)) }
        ensures ok { OnOk result (about self.new ≡ about self.old) }
        ensures still { (b : ℕ) → is_pending self.new b ↔ is_pending self.old b }
        ensures broken { IsErrOf result Refusal.Broken ↔ ((about self.old).broken ≡ true) }
        ensures told { IfErr result IsOfReading }
        ensures err { OnErr result (about self.new ≡ record (about self.old) { broken = true }) }
        ensures cause { HasCause (failures self.old) (failures self.new) result };

    /// Reads a run of blocks of the volume.
    ///
    /// 122 `Broken` exactly where a device call failed before; and what the device refuses: then the store is broken.
    fn read_blocks(&mut self, first: u32, count: u32, bytes: &mut [u8]) -> Result<(), Refusal>
        requires within { first + count ≤ (about self.old).geometry.blocks }
        requires whole { length bytes.old ≡ 4096 * count }
        ensures read { keeps_model → (volume : List ℕ) → keeps self.old volume → OnOk result (bytes.new ≡ take (4096 * count) (drop (4096 * first) volume)) }
        ensures kept { keeps_model → (volume : List ℕ) → keeps self.old volume → OnOk result (keeps self.new volume) }
        ensures any_moment { keeps_model → (volume : List ℕ) → keeps self.old volume → LeavesOnly moment may_have_left_since self.old self.new (Means (meaning_with (about self.old) volume)) }
        ensures ok { OnOk result (about self.new ≡ about self.old) }
        ensures still { (b : ℕ) → is_pending self.new b ↔ is_pending self.old b }
        ensures broken { IsErrOf result Refusal.Broken ↔ ((about self.old).broken ≡ true) }
        ensures told { IfErr result IsOfReading }
        ensures err { OnErr result (about self.new ≡ record (about self.old) { broken = true }) }
        ensures cause { HasCause (failures self.old) (failures self.new) result };

    /// Puts whole blocks into the volume, durably, and gives the receipt of the member's slot and this front. The images
    /// are at least one, each of a block of the volume, no block twice; the front is at most 2^63 - 1.
    ///
    /// 122 `Broken` exactly where a device call failed before; else 134 `Backwards` exactly where the front isn't above the
    /// old one; else 121 `Full` exactly where the batch doesn't fit into the area; else 100 `Memory`: these change nothing.
    /// After a refusal of the device the store is broken.
    fn commit(&mut self, alloc: Global, front: u64, images: &[Image]) -> Result<Synced, Refusal>
        requires images { AreImages (about self.old).geometry.blocks images.now }
        requires limit { front ≤ MAX_NUMBER }
        requires version { IsOfVersionTwo (about self.old) }
        requires here { (about self.old).lent ≡ None }
        ensures receipt { IfOk result (λ receipt. receipt ≡ record { slot = (about self.old).slot; front = front }) }
        ensures ok { OnOk result (about self.new ≡ one_commit_more (about self.old) front images.now) }
        ensures pends { OnOk result ((b : ℕ) → is_pending self.new b ↔ (is_pending self.old b ⊎ Any (λ image. image.block ≡ b) images.now)) }
        ensures still { OnErr result ((b : ℕ) → is_pending self.new b ↔ is_pending self.old b) }
        ensures kept { keeps_model → (volume : List ℕ) → keeps self.old volume → OnOk result (keeps self.new (with_images volume images.now)) }

        // A stop at any moment of the call leaves what means the old front and volume, or the new ones.
        ensures any_moment { keeps_model → (volume : List ℕ) → keeps self.old volume → LeavesOnly moment may_have_left_since self.old self.new
            (λ c. Means (meaning_with (about self.old) volume) c ⊎ Means (meaning_then (about self.old) volume front images.now) c) }
        ensures broken { IsErrOf result Refusal.Broken ↔ ((about self.old).broken ≡ true) }
        ensures backwards { IsErrOf result Refusal.Backwards ↔ (((about self.old).broken ≡ false) × (front ≤ (about self.old).front)) }
        ensures full { IsErrOf result Refusal.Full ↔ (((about self.old).broken ≡ false) × ((about self.old).front < front) × IsTooMuch (about self.old) images.now) }
        ensures told { IfErr result IsOfCommitting }
        ensures unchanged { IfErr result (λ r. ¬ IsOfDevice r → (about self.new ≡ about self.old) × ((volume : List ℕ) → keeps self.old volume → keeps self.new volume) × ((b : ℕ) → is_pending self.new b ↔ is_pending self.old b)) }
        ensures device { IfErr result (λ r. IsOfDevice r → about self.new ≡ record (about self.old) { broken = true }) }
        ensures cause { HasCause (failures self.old) (failures self.new) result };

    /// Writes the next pending block home, and gives its number; `None` exactly where nothing is pending.
    ///
    /// 122 `Broken` exactly where a device call failed before; and what the device refuses: then the store is broken.
    fn tick(&mut self) -> Result<Option<u32>, Refusal>
        requires version { IsOfVersionTwo (about self.old) }
        ensures home { IfOk result (λ given. IfSome given (λ block. IsOneLess block (is_pending self.old) (is_pending self.new))) }
        ensures none { IfOk result (λ given. IfNone given ((b : ℕ) → is_pending self.old b → ⊥)) }
        ensures ok { OnOk result (about self.new ≡ about self.old) }
        ensures kept { keeps_model → (volume : List ℕ) → keeps self.old volume → OnOk result (keeps self.new volume) }

        // A stop at any moment of the call leaves what means what it meant.
        ensures any_moment { keeps_model → (volume : List ℕ) → keeps self.old volume → LeavesOnly moment may_have_left_since self.old self.new (Means (meaning_with (about self.old) volume)) }
        ensures still { OnErr result ((b : ℕ) → is_pending self.new b ↔ is_pending self.old b) }
        ensures broken { IsErrOf result Refusal.Broken ↔ ((about self.old).broken ≡ true) }
        ensures told { IfErr result IsOfTicking }
        ensures err { OnErr result (about self.new ≡ record (about self.old) { broken = true }) }
        ensures cause { HasCause (failures self.old) (failures self.new) result };

    /// Writes the next pending block home, and those behind it without a gap, at most so many, by one device call; gives the
    /// run; `None` exactly where nothing is pending.
    ///
    /// 122 `Broken` exactly where a device call failed before; 100 `Memory` where there is no room for the run's bytes, of
    /// which one block needs none: nothing changed; and what the device refuses: then the store is broken.
    fn tick_run(&mut self, most: u32) -> Result<Option<Run>, Refusal>
        requires most { 0 < most }
        requires version { IsOfVersionTwo (about self.old) }
        ensures home { IfOk result (λ given. IfSome given (λ run. IsWithoutRun most run (is_pending self.old) (is_pending self.new))) }
        ensures none { IfOk result (λ given. IfNone given ((b : ℕ) → is_pending self.old b → ⊥)) }
        ensures ok { OnOk result (about self.new ≡ about self.old) }
        ensures kept { keeps_model → (volume : List ℕ) → keeps self.old volume → OnOk result (keeps self.new volume) }

        // A stop at any moment of the call leaves what means what it meant.
        ensures any_moment { keeps_model → (volume : List ℕ) → keeps self.old volume → LeavesOnly moment may_have_left_since self.old self.new (Means (meaning_with (about self.old) volume)) }
        ensures still { OnErr result ((b : ℕ) → is_pending self.new b ↔ is_pending self.old b) }
        ensures broken { IsErrOf result Refusal.Broken ↔ ((about self.old).broken ≡ true) }
        ensures memory { IsErrOf result Refusal.Memory → (1 < most) × HasNeighbours (is_pending self.old) }
        ensures told { IfErr result IsOfTickingRun }
        ensures unchanged { IfErr result (λ r. ¬ IsOfDevice r → (about self.new ≡ about self.old) × ((volume : List ℕ) → keeps self.old volume → keeps self.new volume) × ((b : ℕ) → is_pending self.new b ↔ is_pending self.old b)) }
        ensures err { IfErr result (λ r. IsOfDevice r → about self.new ≡ record (about self.old) { broken = true }) }
        ensures cause { HasCause (failures self.old) (failures self.new) result };

    /// Writes all pending blocks home, and empties the area. After it nothing is pending.
    ///
    /// 122 `Broken` exactly where a device call failed before; else 121 `Full` exactly where no number is left for another
    /// superblock: these change nothing. After a refusal of the device the store is broken.
    fn checkpoint(&mut self) -> Result<(), Refusal>
        requires version { IsOfVersionTwo (about self.old) }
        requires here { (about self.old).lent ≡ None }
        ensures ok { OnOk result (about self.new ≡ one_checkpoint_more (about self.old)) }
        ensures empty { OnOk result ((b : ℕ) → is_pending self.new b → ⊥) }
        ensures kept { keeps_model → (volume : List ℕ) → keeps self.old volume → OnOk result (keeps self.new volume) }

        // A stop at any moment of the call leaves what means what it meant.
        ensures any_moment { keeps_model → (volume : List ℕ) → keeps self.old volume → LeavesOnly moment may_have_left_since self.old self.new (Means (meaning_with (about self.old) volume)) }
        ensures broken { IsErrOf result Refusal.Broken ↔ ((about self.old).broken ≡ true) }
        ensures full { IsErrOf result Refusal.Full ↔ (((about self.old).broken ≡ false) × ((about self.old).stores ≡ MAX_NUMBER)) }
        ensures told { IfErr result IsOfCheckpoint }
        ensures unchanged { IfErr result (λ r. ¬ IsOfDevice r → (about self.new ≡ about self.old) × ((volume : List ℕ) → keeps self.old volume → keeps self.new volume) × ((b : ℕ) → is_pending self.new b ↔ is_pending self.old b)) }
        ensures device { IfErr result (λ r. IsOfDevice r → about self.new ≡ record (about self.old) { broken = true }) }
        ensures cause { HasCause (failures self.old) (failures self.new) result };

    /// Whatever a stop now leaves means what the store keeps.
    ghost means_now: { keeps_model → (store : Self) (volume c : List ℕ) → keeps store volume → may_leave_now store c → Means (meaning_with (about store) volume) c };

    /// A store keeps one volume at most.
    ghost keeps_one: { keeps_model → (store : Self) (one other : List ℕ) → keeps store one → keeps store other → one ≡ other };

    /// This moment is one of those since an earlier one.
    ghost counts_now: { keeps_model → (store : Self) (t : ℕ) (c : List ℕ) → t ≤ moment store → may_leave_now store c → may_have_left_since store t c };

    /// Since this moment there is no other.
    ghost only_now: { keeps_model → (store : Self) (c : List ℕ) → may_have_left_since store (moment store) c → may_leave_now store c };

    /// The volume is as long as it tells.
    ghost keeps_size: { keeps_model → (store : Self) (volume : List ℕ) → keeps store volume → length volume ≡ 4096 * (about store).geometry.blocks };
}
