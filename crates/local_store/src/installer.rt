//! The installation of a member's disk, block by block.
ghost use Rattle.std.specs.Prelude.{◌≡◌, ◌≢◌, ◌⊎◌, ◌+◌, ◌*◌, ◌<◌, ◌≤◌, ◌↔◌, ℕ, List, All, true, false, length, replicate, set, IfOk, IfErr, IsErrOf, IsTrue, OnErr, OnOk};
ghost use Rattle.disk_model.specs.Disk.{LeavesOnly, Only};
ghost use Rattle.disk_model.specs.Part.{inside};
ghost use Rattle.home_blocks.specs.Places as places;
ghost use Rattle.home_blocks.specs.Places.{disk_size_of};
ghost use Rattle.local_store.specs.Installer.{HasGiven, HasNone, IsInstalling, IsNotMeant, MeansNothing, finished_meaning, unfinished, with_block};
ghost use Rattle.local_store.specs.Meaning.{Means};
ghost use Rattle.local_store.specs.Refusal.{HasCause, IsCaused, IsNotOfDevice, IsOfDevice, IsOfFinishing, IsOfFormatting, IsOfTicking};

use crate::given::Given;
use crate::refusal::Refusal;
use disk_model::Disk;
use gate_journal::{Journal, MAX_NUMBER, Slot, Synced, pair_readings_are_one};
use home_blocks::{Area, Home, Progress, Superblock, area_part};
use std::alloc::Global;
use volume::{BLOCK_SIZE, Geometry};

/// A disk that gets the blocks of a volume, in any order, each at least once; of a block that is given again, the last
/// one counts. Until it is finished, a stop leaves nothing that means a volume of its incarnation.
#[derive(Drop)]
pub struct Installer<D: Disk> {
    disk: D,
    home: Home,
    given: Given,
    broken: bool,
    ghost room: { disk_size_of home.superblock.geometry ≤ D.size disk },
    ghost table: { length given ≡ home.superblock.geometry.blocks },
    ghost stores: { home.pair.number ≡ 1 },
    ghost runs: { home.pair.broken ≡ false },
}

impl<D: Disk + Drop> Installer<D> {
    /// Begins on a disk of at least `disk_size(geometry)` bytes, which may hold anything: after the twelve device calls of
    /// the superblock's pair the disk says that its installation isn't finished. The incarnation is at most 2^63 - 1. No
    /// block is given yet.
    ///
    /// 100 `Memory`, with nothing written; and what the device refuses. Both hand the disk back.
    pub fn start(
        alloc: Global,
        disk: D,
        slot: Slot,
        incarnation: u64,
        geometry: Geometry,
    ) -> Result<Installer<D>, (Refusal, D)>
        requires on_disk { disk_size_of geometry ≤ D.size disk }
        requires limit { incarnation ≤ MAX_NUMBER }

        ensures superblock { IfOk result (λ s. s.home.superblock ≡ unfinished slot incarnation geometry) }
        ensures none { IfOk result (λ s. s.given ≡ replicate geometry.blocks false) }
        ensures runs { IfOk result (λ s. s.broken ≡ false) }
        ensures installing { D.keeps_model → IfOk result (λ s. IsInstalling s.home (D.gives s.disk) (D.may_leave_now s.disk)) }
        ensures given { (volume : List ℕ) → length volume ≡ 4096 * geometry.blocks → IfOk result (λ s. HasGiven geometry s.given volume (D.gives s.disk)) }

        // Where nothing that may be left at first shows a superblock of the slot and incarnation, a stop at any moment of the
        // call leaves what means no volume of them.
        ensures any_moment { D.keeps_model → ((c : List ℕ) → D.may_leave_now disk c → HasNone slot incarnation c)
            → IfOk result (λ s. LeavesOnly D.moment D.may_have_left_since disk s.disk (IsNotMeant slot incarnation)) }
        ensures any_moment_refused { D.keeps_model → ((c : List ℕ) → D.may_leave_now disk c → HasNone slot incarnation c)
            → IfErr result (λ e. LeavesOnly D.moment D.may_have_left_since disk e.1 (IsNotMeant slot incarnation)) }

        ensures calls { IfOk result (λ s. D.calls_made s.disk ≤ D.calls_made disk + 12) }
        ensures calls_refused { IfErr result (λ e. D.calls_made e.1 ≤ D.calls_made disk + 12) }
        ensures size { IfOk result (λ s. D.size s.disk ≡ D.size disk) }
        ensures size_refused { IfErr result (λ e. D.size e.1 ≡ D.size disk) }
        ensures unchanged { IfErr result (λ e. e.0 ≡ Refusal.Memory → e.1 ≡ disk) }
        ensures told { IfErr result (λ e. IsOfFormatting e.0) }
        ensures done { IfOk result (λ s. D.failures s.disk ≡ D.failures disk) }
        ensures cause { IfErr result (λ e. IsCaused (D.failures disk) (D.failures e.1) e.0) }
        // Where the disk can't fail any more, the refusal isn't the device's.
        ensures calm { IfErr result (λ e. D.failures disk ≡ D.most_failures disk → IsNotOfDevice e.0) }
    {
        // A law that the proof needs: the call does nothing.
        pair_readings_are_one();
        let Ok(given) = Given::none(alloc, geometry.blocks) else {
            return Err((Refusal::Memory, disk));
        };
        let mut disk = disk;
        let superblock = Superblock::new(
            Progress::Installing,
            slot,
            incarnation,
            geometry,
            0,
            Area::First,
        );
        match Home::create(&mut disk, superblock) {
            Ok((home, _)) => Ok(Installer {
                disk,
                home,
                given,
                broken: false,
            }),
            Err(refusal) => Err((Refusal::from(refusal), disk)),
        }
    }

    /// Writes a block of the volume home, of 4,096 bytes, by one device call. It may have been given before.
    ///
    /// 122 `Broken` exactly where a device call failed before; and what the device refuses: then the installer is broken,
    /// and the block counts as it did.
    pub fn block(&mut self, block: u32, bytes: &[u8]) -> Result<(), Refusal>
        requires block { block < self.old.home.superblock.geometry.blocks }
        requires whole { length bytes.now ≡ BLOCK_SIZE }

        ensures marks { OnOk result (self.new.given ≡ set self.old.given block true) }
        ensures unmarked { OnErr result (self.new.given ≡ self.old.given) }
        ensures given { D.keeps_model → (volume : List ℕ) → HasGiven self.old.home.superblock.geometry self.old.given volume (D.gives self.old.disk)
            → OnOk result (HasGiven self.new.home.superblock.geometry self.new.given (with_block volume block bytes.now) (D.gives self.new.disk)) }
        ensures installing { D.keeps_model → IsInstalling self.old.home (D.gives self.old.disk) (D.may_leave_now self.old.disk)
            → IsInstalling self.new.home (D.gives self.new.disk) (D.may_leave_now self.new.disk) }

        // A stop at any moment of the call leaves what means nothing.
        ensures any_moment { D.keeps_model → IsInstalling self.old.home (D.gives self.old.disk) (D.may_leave_now self.old.disk)
            → LeavesOnly D.moment D.may_have_left_since self.old.disk self.new.disk MeansNothing }

        ensures home { self.new.home ≡ self.old.home }
        ensures calls { D.calls_made self.new.disk ≤ D.calls_made self.old.disk + 1 }
        ensures size { D.size self.new.disk ≡ D.size self.old.disk }
        ensures runs { OnOk result (self.new.broken ≡ false) }
        ensures broken { IsErrOf result Refusal.Broken ↔ (self.old.broken ≡ true) }
        ensures told { IfErr result IsOfTicking }
        ensures unchanged { IfErr result (λ r. ¬ IsOfDevice r → self.new ≡ self.old) }
        ensures device { IfErr result (λ r. IsOfDevice r → self.new.broken ≡ true) }
        ensures cause { HasCause (D.failures self.old.disk) (D.failures self.new.disk) result }
    {
        // A law that the proof needs: the call does nothing.
        pair_readings_are_one();
        if self.broken {
            return Err(Refusal::Broken);
        }
        if let Err(error) = self.home.write_home(&mut self.disk, block, bytes) {
            self.broken = true;
            return Err(Refusal::Device(error));
        }
        self.given.mark(block);
        Ok(())
    }

    /// Whether each block was given.
    pub fn is_complete(&self) -> bool
        ensures { IsTrue result ↔ All IsTrue self.now.given }
    {
        self.given.is_all()
    }

    /// The disk, as the installer leaves it.
    pub fn into_disk(self) -> D
        ensures { result ≡ self.disk }
    {
        let Installer {
            disk,
            home: _,
            given: _,
            broken: _,
        } = self;
        disk
    }

    /// Finishes the installation at a front of at most 2^63 - 1, once each block was given: a sync; the first area's gate,
    /// closed, and a sync; the six calls of the whole disk's superblock. It gives the receipt of the slot and this front.
    ///
    /// 122 `Broken` exactly where a device call failed before, with nothing written; and what the device refuses. Both hand
    /// the disk back, which means nothing, or what it should.
    pub fn finish(self, front: u64) -> Result<(Synced, D), (Refusal, D)>
        requires complete { All IsTrue self.given }
        requires limit { front ≤ MAX_NUMBER }

        ensures receipt { IfOk result (λ r. r.0 ≡ record { slot = self.home.superblock.slot; front = front }) }
        ensures means { D.keeps_model → IsInstalling self.home (D.gives self.disk) (D.may_leave_now self.disk)
            → (volume : List ℕ) → HasGiven self.home.superblock.geometry self.given volume (D.gives self.disk)
            → IfOk result (λ r. Means (finished_meaning self.home.superblock front volume) (D.gives r.1)) }
        ensures leaves { D.keeps_model → IsInstalling self.home (D.gives self.disk) (D.may_leave_now self.disk)
            → (volume : List ℕ) → HasGiven self.home.superblock.geometry self.given volume (D.gives self.disk)
            → IfOk result (λ r. (c : List ℕ) → D.may_leave_now r.1 c → Means (finished_meaning self.home.superblock front volume) c) }
        ensures whole { D.keeps_model → IfOk result (λ r. Only (D.gives r.1) (D.may_leave_now r.1)) }

        // A stop at any moment of the call leaves what means nothing, or the volume at the front.
        ensures any_moment { D.keeps_model → IsInstalling self.home (D.gives self.disk) (D.may_leave_now self.disk)
            → (volume : List ℕ) → HasGiven self.home.superblock.geometry self.given volume (D.gives self.disk)
            → IfOk result (λ r. LeavesOnly D.moment D.may_have_left_since self.disk r.1 (λ c. MeansNothing c ⊎ Means (finished_meaning self.home.superblock front volume) c)) }
        ensures any_moment_refused { D.keeps_model → IsInstalling self.home (D.gives self.disk) (D.may_leave_now self.disk)
            → (volume : List ℕ) → HasGiven self.home.superblock.geometry self.given volume (D.gives self.disk)
            → IfErr result (λ e. LeavesOnly D.moment D.may_have_left_since self.disk e.1 (λ c. MeansNothing c ⊎ Means (finished_meaning self.home.superblock front volume) c)) }

        ensures calls { IfOk result (λ r. D.calls_made r.1 ≤ D.calls_made self.disk + 9) }
        ensures calls_refused { IfErr result (λ e. D.calls_made e.1 ≤ D.calls_made self.disk + 9) }
        ensures size { IfOk result (λ r. D.size r.1 ≡ D.size self.disk) }
        ensures size_refused { IfErr result (λ e. D.size e.1 ≡ D.size self.disk) }
        ensures runs { OnOk result (self.broken ≡ false) }
        ensures broken { IfErr result (λ e. (e.0 ≡ Refusal.Broken) ↔ (self.broken ≡ true)) }
        ensures unchanged { IfErr result (λ e. e.0 ≡ Refusal.Broken → e.1 ≡ self.disk) }
        ensures told { IfErr result (λ e. IsOfFinishing e.0) }
        ensures done { IfOk result (λ r. D.failures r.1 ≡ D.failures self.disk) }
        ensures cause { IfErr result (λ e. IsCaused (D.failures self.disk) (D.failures e.1) e.0) }
    {
        let Installer {
            mut disk,
            mut home,
            given: _,
            broken,
        } = self;
        if broken {
            return Err((Refusal::Broken, disk));
        }
        match finish_home(&mut home, &mut disk, front) {
            Ok(receipt) => Ok((receipt, disk)),
            Err(refusal) => Err((refusal, disk)),
        }
    }
}

/// The nine device calls of `finish`: after them the disk means its home region, at the front.
fn finish_home<D: Disk>(home: &mut Home, disk: &mut D, front: u64) -> Result<Synced, Refusal>
    requires on_disk { disk_size_of home.old.superblock.geometry ≤ D.size disk.old }
    requires limit { front ≤ MAX_NUMBER }
    requires runs { home.old.pair.broken ≡ false }
    requires number { home.old.pair.number ≢ MAX_NUMBER }
    ensures receipt { IfOk result (λ receipt. receipt ≡ record { slot = home.old.superblock.slot; front = front }) }
    ensures means { D.keeps_model → IsInstalling home.old (D.gives disk.old) (D.may_leave_now disk.old)
        → OnOk result (Means (finished_meaning home.old.superblock front (inside (places.home_part home.old.superblock.geometry) (D.gives disk.old))) (D.gives disk.new)) }
    ensures whole { D.keeps_model → OnOk result (Only (D.gives disk.new) (D.may_leave_now disk.new)) }
    ensures any_moment { D.keeps_model → IsInstalling home.old (D.gives disk.old) (D.may_leave_now disk.old)
        → LeavesOnly D.moment D.may_have_left_since disk.old disk.new
        (λ c. MeansNothing c ⊎ Means (finished_meaning home.old.superblock front (inside (places.home_part home.old.superblock.geometry) (D.gives disk.old))) c) }
    ensures calls { D.calls_made disk.new ≤ D.calls_made disk.old + 9 }
    ensures size { D.size disk.new ≡ D.size disk.old }
    ensures told { IfErr result IsOfFinishing }
    ensures own { IfErr result IsOfDevice }
    ensures cause { HasCause (D.failures disk.old) (D.failures disk.new) result }
{
    // A law that the proof needs: the call does nothing.
    pair_readings_are_one();
    let superblock = home.superblock();
    let geometry = superblock.geometry();
    home.sync_home(disk)?;
    let part = area_part(geometry, Area::First);
    Journal::create(disk, part, superblock.slot(), geometry.blocks, front)?;
    Ok(home.mark(disk, front, Area::First)?)
}
