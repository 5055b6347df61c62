// The superblock and the home region of a member's disk.
ghost use Rattle.std.specs.Prelude.{◌≡◌, ◌⊎◌, ◌+◌, ◌*◌, ◌<◌, ◌≤◌, ◌↔◌, List, ℕ, true, false, length, take, drop, IfOk, IfErr, OnOk, OnErr, IsErrOf, IsTrue};
ghost use Rattle.disk_model.specs.Disk.{Elapses, Follows, Holds, LeavesOnly, NothingNew, Only, Torn};
ghost use Rattle.disk_model.specs.Error as disk_error;
ghost use Rattle.disk_model.specs.Part.{inside, LeftInside, TouchesOnly};
ghost use Rattle.gate_journal.specs.Pair.{IsBeingMade, stored};
ghost use Rattle.gate_journal.specs.Runs.{OnlyReads};
ghost use Rattle.home_blocks.specs.Home.{CanMigrate, HoldsSuperblock, IsNoVolume, IsOtherVersion, IsSettledHome, IsVolume, State};
ghost use Rattle.home_blocks.specs.Places as places;
ghost use Rattle.home_blocks.specs.Places.{border_of, disk_size_of, home_block};
ghost use Rattle.home_blocks.specs.Refusal.{HasCause, IsOfDevice, IsOfMarking, IsOfOpening, IsOfWriting};
ghost use Rattle.home_blocks.specs.Superblock.{marked, superblock_encoding};

use crate::{Area, Refusal, Superblock, Version, disk_size, home_part, superblock_part};
use disk_model::{Disk, DiskError};
use gate_journal::{GatedPair, MAX_NUMBER, PAIR_SIZE, Synced, stores_leave_old_or_new};
use std::alloc::Global;
use std::marker::Model;
use volume::BLOCK_SIZE;

/// The superblock and the home region of a member's disk. Each call is lent the disk, which has at least
/// `disk_size(geometry)` bytes; for those that read or write the home region alone, the bytes below the first area are
/// enough.
#[derive(Debug, Drop)]
pub struct Home {
    pair: GatedPair,
    superblock: Superblock,
}

impl Model for Home {
    ghost use Rattle.std.specs.Prelude.{◌≡◌};
    ghost use Rattle.home_blocks.specs.Home.{State};
    ghost use Rattle.home_blocks.specs.Places.{superblock_part};

    ghost Value = { State };

    ghost view = { λ h. record { pair = h.pair; superblock = h.superblock } };

    ghost invariant = { λ h. h.pair.part ≡ superblock_part };
}

impl Home {
    /// A home on a disk that may hold anything, with this superblock, which is stored as the first one. The receipt is of
    /// the superblock's slot and front. After it the whole disk is durable.
    ///
    /// It is refused by the device alone. Until it is done, an open slot holds a payload that stood there behind an open
    /// gate, whole or in part, or an empty one, or the new superblock.
    pub fn create<D: Disk>(disk: &mut D, superblock: Superblock) -> Result<(Home, Synced), Refusal>
        requires { disk_size_of superblock.geometry ≤ D.size disk.old }

        ensures home { IfOk result (λ r. r.0 ≡ record {
          pair = record { part = places.superblock_part; number = 1; into = 1; is_closed = true; other_is_closed = false; broken = false };
          superblock = superblock;
        }) }
        ensures receipt { IfOk result (λ r. r.1 ≡ record { slot = superblock.slot; front = superblock.front }) }
        ensures settled { D.keeps_model → IfOk result (λ r. IsSettledHome r.0 (D.gives disk.new) (D.may_leave_now disk.new)) }
        ensures whole { D.keeps_model → OnOk result (Only (D.gives disk.new) (D.may_leave_now disk.new)) }
        ensures any_moment { D.keeps_model → LeavesOnly D.moment D.may_have_left_since disk.old disk.new (IsBeingMade places.superblock_part (superblock_encoding superblock) (D.may_leave_now disk.old)) }
        ensures frame { D.keeps_model → TouchesOnly D.gives D.may_leave_now D.moment D.may_have_left_since places.superblock_part disk.old disk.new }
        ensures size { D.size disk.new ≡ D.size disk.old }
        ensures told { IfErr result IsOfWriting }
        ensures cause { HasCause (D.failures disk.old) (D.failures disk.new) result }
        ensures most { D.most_failures disk.new ≤ D.most_failures disk.old }
        ensures calls { D.calls_made disk.new ≤ D.calls_made disk.old + 12 }
    {
        let payload = superblock.encoded();
        let (slot, front) = (superblock.slot(), superblock.front());
        let made = GatedPair::create(disk, superblock_part(), &payload, slot, front)?;
        let (pair, receipt) = made;
        Ok((Home { pair, superblock }, receipt))
    }

    /// The home on a disk of any length that may hold anything. It syncs, and then reads; after it the whole disk is
    /// durable.
    ///
    /// 131 `NotAVolume` where the disk has no room for a superblock, no slot is open, the payload of the newer one is no
    /// superblock's, it is one of version 1 with the greatest number, or the disk is too short for it; 132 `OtherVersion`
    /// where that payload begins with the number of a version that isn't 1 or 2; 100 `Memory`, and what the device refuses.
    /// All leave the disk as it was.
    pub fn open<D: Disk>(alloc: Global, disk: &mut D) -> Result<Home, Refusal>
        ensures volume { D.keeps_model → IfOk result (λ home. IsVolume home.superblock (D.gives disk.old)) }
        ensures other_version { D.keeps_model → IsErrOf result Refusal.OtherVersion → IsOtherVersion (D.gives disk.old) }
        ensures not_a_volume { D.keeps_model → IsErrOf result Refusal.NotAVolume → IsNoVolume (D.gives disk.old) }

        ensures runs { IfOk result (λ home. home.pair.broken ≡ false) }
        ensures room { IfOk result (λ home. disk_size_of home.superblock.geometry ≤ D.size disk.old) }
        ensures settled { D.keeps_model → IfOk result (λ home. IsSettledHome home (D.gives disk.new) (D.may_leave_now disk.new)) }
        ensures whole { D.keeps_model → OnOk result (Only (D.gives disk.new) (D.may_leave_now disk.new)) }
        ensures reads { D.keeps_model → OnlyReads D.gives D.may_leave_now D.moment D.may_have_left_since disk.old disk.new }
        ensures size { D.size disk.new ≡ D.size disk.old }
        ensures told { IfErr result IsOfOpening }
        ensures cause { HasCause (D.failures disk.old) (D.failures disk.new) result }
        ensures most { D.most_failures disk.new ≤ D.most_failures disk.old }
    {
        if disk.len() < PAIR_SIZE {
            return Err(Refusal::NotAVolume);
        }
        let loaded = GatedPair::load(alloc, disk, superblock_part())?;
        let (pair, payload) = loaded;
        let Some(payload) = payload else {
            return Err(Refusal::NotAVolume);
        };
        let superblock = Superblock::read(&payload)?;
        if !can_migrate(superblock, &pair) {
            return Err(Refusal::NotAVolume);
        }
        if disk.len() < disk_size(superblock.geometry()) {
            return Err(Refusal::NotAVolume);
        }
        Ok(Home { pair, superblock })
    }

    /// What the disk says of itself.
    pub fn superblock(&self) -> Superblock
        ensures { result ≡ self.now.superblock }
    {
        self.superblock
    }

    /// Whether a device call of `mark` failed: then each `mark` is refused with 122, until the home is opened again.
    pub fn is_broken(&self) -> bool
        ensures { result ≡ self.now.pair.broken }
    {
        self.pair.is_broken()
    }

    /// Whether no number is left for another superblock: then `mark` is refused with 121, if the home isn't broken.
    pub fn is_full(&self) -> bool
        ensures { IsTrue result ↔ (self.now.pair.number ≡ MAX_NUMBER) }
    {
        self.pair.number() == MAX_NUMBER
    }

    /// Reads a block of the home region, of 4,096 bytes.
    pub fn read_home<D: Disk>(
        &self,
        disk: &mut D,
        block: u32,
        bytes: &mut [u8],
    ) -> Result<(), DiskError>
        requires on_disk { border_of self.now.superblock.geometry ≤ D.size disk.old }
        requires block { block < self.now.superblock.geometry.blocks }
        requires whole { length bytes.old ≡ BLOCK_SIZE }

        ensures read { D.keeps_model → OnOk result (bytes.new ≡ home_block (D.gives disk.old) self.now.superblock.geometry block) }
        ensures reads { D.keeps_model → OnlyReads D.gives D.may_leave_now D.moment D.may_have_left_since disk.old disk.new }
        ensures size { D.size disk.new ≡ D.size disk.old }
        ensures cause { disk_error.HasCause DiskError.ReadFault (D.failures disk.old) (D.failures disk.new) result }
        ensures calls { D.calls_made disk.new ≤ D.calls_made disk.old + 1 }
    {
        let part = home_part(self.superblock.geometry());
        part.read(disk, BLOCK_SIZE * u64::from(block), bytes)
    }

    /// Reads as many bytes of the home region as there is room for, from a block on, by one device call.
    pub fn read_blocks<D: Disk>(
        &self,
        disk: &mut D,
        first: u32,
        bytes: &mut [u8],
    ) -> Result<(), DiskError>
        requires on_disk { border_of self.now.superblock.geometry ≤ D.size disk.old }
        requires within { 4096 * first + length bytes.old ≤ 4096 * self.now.superblock.geometry.blocks }

        ensures read { D.keeps_model → OnOk result (bytes.new ≡ take (length bytes.old) (drop (4096 * first) (inside (places.home_part self.now.superblock.geometry) (D.gives disk.old)))) }
        ensures reads { D.keeps_model → OnlyReads D.gives D.may_leave_now D.moment D.may_have_left_since disk.old disk.new }
        ensures size { D.size disk.new ≡ D.size disk.old }
        ensures cause { disk_error.HasCause DiskError.ReadFault (D.failures disk.old) (D.failures disk.new) result }
        ensures calls { D.calls_made disk.new ≤ D.calls_made disk.old + 1 }
    {
        let part = home_part(self.superblock.geometry());
        part.read(disk, BLOCK_SIZE * u64::from(first), bytes)
    }

    /// Writes over a block of the home region, of 4,096 bytes. Until a sync, a stop may leave any bytes in it.
    ///
    /// 102 `WriteFault`: some of it may be written, so a read may give any bytes in the block, and a stop may leave any.
    /// 100 `Memory`: nothing changed.
    pub fn write_home<D: Disk>(
        &self,
        disk: &mut D,
        block: u32,
        bytes: &[u8],
    ) -> Result<(), DiskError>
        requires on_disk { border_of self.now.superblock.geometry ≤ D.size disk.old }
        requires block { block < self.now.superblock.geometry.blocks }
        requires whole { length bytes.now ≡ BLOCK_SIZE }

        ensures gives { D.keeps_model → OnOk result (Holds (inside (places.home_part self.now.superblock.geometry) (D.gives disk.old)) (4096 * block) bytes.now
            (inside (places.home_part self.now.superblock.geometry) (D.gives disk.new))) }
        ensures failed { D.keeps_model → OnErr result (Torn (4096 * block) 4096 (inside (places.home_part self.now.superblock.geometry) (D.gives disk.old))
            (inside (places.home_part self.now.superblock.geometry) (D.gives disk.new))) }
        ensures leaves { D.keeps_model → Follows (Torn (4096 * block) 4096) (LeftInside (places.home_part self.now.superblock.geometry) (D.may_leave_now disk.old))
            (LeftInside (places.home_part self.now.superblock.geometry) (D.may_leave_now disk.new)) }
        ensures unwritten { D.keeps_model → IsErrOf result DiskError.Memory → D.gives disk.new ≡ D.gives disk.old }
        ensures memory { D.keeps_model → IsErrOf result DiskError.Memory → NothingNew (D.may_leave_now disk.old) (D.may_leave_now disk.new) }

        ensures frame { D.keeps_model → TouchesOnly D.gives D.may_leave_now D.moment D.may_have_left_since (places.home_part self.now.superblock.geometry) disk.old disk.new }
        ensures time { D.keeps_model → Elapses (D.moment disk.old) (D.moment disk.new)
            (D.may_have_left_since disk.old) (D.may_have_left_since disk.new) (D.may_leave_now disk.new) }
        ensures size { D.size disk.new ≡ D.size disk.old }
        ensures cause { disk_error.HasCause DiskError.WriteFault (D.failures disk.old) (D.failures disk.new) result }
        ensures most { D.most_failures disk.new ≤ D.most_failures disk.old }
        ensures calls { D.calls_made disk.new ≤ D.calls_made disk.old + 1 }
    {
        self.write_run(disk, block, bytes)
    }

    /// Writes over as many bytes of the home region as there are, from a block on, by one device call. Until a sync, a stop
    /// may leave any bytes in their places.
    ///
    /// 102 `WriteFault`: some of it may be written, so a read may give any bytes in these places, and a stop may leave any.
    /// 100 `Memory`: nothing changed.
    pub fn write_run<D: Disk>(
        &self,
        disk: &mut D,
        first: u32,
        bytes: &[u8],
    ) -> Result<(), DiskError>
        requires on_disk { border_of self.now.superblock.geometry ≤ D.size disk.old }
        requires within { 4096 * first + length bytes.now ≤ 4096 * self.now.superblock.geometry.blocks }

        ensures gives { D.keeps_model → OnOk result (Holds (inside (places.home_part self.now.superblock.geometry) (D.gives disk.old)) (4096 * first) bytes.now
            (inside (places.home_part self.now.superblock.geometry) (D.gives disk.new))) }
        ensures failed { D.keeps_model → OnErr result (Torn (4096 * first) (length bytes.now) (inside (places.home_part self.now.superblock.geometry) (D.gives disk.old))
            (inside (places.home_part self.now.superblock.geometry) (D.gives disk.new))) }
        ensures leaves { D.keeps_model → Follows (Torn (4096 * first) (length bytes.now)) (LeftInside (places.home_part self.now.superblock.geometry) (D.may_leave_now disk.old))
            (LeftInside (places.home_part self.now.superblock.geometry) (D.may_leave_now disk.new)) }
        ensures unwritten { D.keeps_model → IsErrOf result DiskError.Memory → D.gives disk.new ≡ D.gives disk.old }
        ensures memory { D.keeps_model → IsErrOf result DiskError.Memory → NothingNew (D.may_leave_now disk.old) (D.may_leave_now disk.new) }

        ensures frame { D.keeps_model → TouchesOnly D.gives D.may_leave_now D.moment D.may_have_left_since (places.home_part self.now.superblock.geometry) disk.old disk.new }
        ensures time { D.keeps_model → Elapses (D.moment disk.old) (D.moment disk.new)
            (D.may_have_left_since disk.old) (D.may_have_left_since disk.new) (D.may_leave_now disk.new) }
        ensures size { D.size disk.new ≡ D.size disk.old }
        ensures cause { disk_error.HasCause DiskError.WriteFault (D.failures disk.old) (D.failures disk.new) result }
        ensures most { D.most_failures disk.new ≤ D.most_failures disk.old }
        ensures calls { D.calls_made disk.new ≤ D.calls_made disk.old + 1 }
    {
        let part = home_part(self.superblock.geometry());
        part.write_at(disk, BLOCK_SIZE * u64::from(first), bytes)
    }

    /// Syncs the disk. After it, a stop leaves what a read gives, of the home region and of all else.
    pub fn sync_home<D: Disk>(&self, disk: &mut D) -> Result<(), DiskError>
        ensures durable { D.keeps_model → OnOk result (Only (D.gives disk.old) (D.may_leave_now disk.new)) }
        ensures gives { D.keeps_model → D.gives disk.new ≡ D.gives disk.old }
        ensures leaves { D.keeps_model → NothingNew (D.may_leave_now disk.old) (D.may_leave_now disk.new) }
        ensures reads { D.keeps_model → OnlyReads D.gives D.may_leave_now D.moment D.may_have_left_since disk.old disk.new }
        ensures time { D.keeps_model → Elapses (D.moment disk.old) (D.moment disk.new)
            (D.may_have_left_since disk.old) (D.may_have_left_since disk.new) (D.may_leave_now disk.new) }
        ensures size { D.size disk.new ≡ D.size disk.old }
        ensures cause { disk_error.HasCause DiskError.SyncFault (D.failures disk.old) (D.failures disk.new) result }
        ensures most { D.most_failures disk.new ≤ D.most_failures disk.old }
        ensures calls { D.calls_made disk.new ≤ D.calls_made disk.old + 1 }
    {
        home_part(self.superblock.geometry()).sync(disk)
    }

    /// Stores the superblock of the whole disk with this front, of at most 2^63 - 1, and this area, by the six device calls
    /// of a store, and gives the receipt of the superblock's slot and this front. It is of version 2, whichever the old one
    /// is of. After it the whole disk is durable.
    ///
    /// 122 `Broken` exactly where a device call of `mark` failed before; else 121 `Full` exactly where no number is left
    /// for another superblock: these change nothing. After a refusal of the device the home is broken, and the disk holds
    /// the old superblock or the new.
    pub fn mark<D: Disk>(&mut self, disk: &mut D, front: u64, area: Area) -> Result<Synced, Refusal>
        requires on_disk { disk_size_of self.old.superblock.geometry ≤ D.size disk.old }
        requires limit { front ≤ MAX_NUMBER }

        ensures receipt { IfOk result (λ receipt. receipt ≡ record { slot = self.old.superblock.slot; front = front }) }
        ensures ok { OnOk result (self.new ≡ record { pair = stored self.old.pair; superblock = marked self.old.superblock front area }) }
        ensures settled { D.keeps_model → IsSettledHome self.old (D.gives disk.old) (D.may_leave_now disk.old)
            → OnOk result (IsSettledHome self.new (D.gives disk.new) (D.may_leave_now disk.new)) }
        ensures whole { D.keeps_model → OnOk result (Only (D.gives disk.new) (D.may_leave_now disk.new)) }

        // A stop at any moment of the call leaves the old superblock or the new.
        ensures any_moment { D.keeps_model → IsSettledHome self.old (D.gives disk.old) (D.may_leave_now disk.old)
            → LeavesOnly D.moment D.may_have_left_since disk.old disk.new (λ c. HoldsSuperblock self.old.superblock c ⊎ HoldsSuperblock (marked self.old.superblock front area) c) }
        ensures frame { D.keeps_model → TouchesOnly D.gives D.may_leave_now D.moment D.may_have_left_since places.superblock_part disk.old disk.new }
        ensures size { D.size disk.new ≡ D.size disk.old }

        ensures broken { IsErrOf result Refusal.Broken ↔ (self.old.pair.broken ≡ true) }
        ensures full { IsErrOf result Refusal.Full ↔ ((self.old.pair.broken ≡ false) × (self.old.pair.number ≡ MAX_NUMBER)) }
        ensures told { IfErr result IsOfMarking }
        ensures unchanged { IfErr result (λ r. ¬ IsOfDevice r → (self.new ≡ self.old) × (disk.new ≡ disk.old)) }
        ensures device { IfErr result (λ r. IsOfDevice r → self.new ≡ record self.old { pair = record self.old.pair { is_closed = self.new.pair.is_closed; broken = true } }) }
        ensures cause { HasCause (D.failures disk.old) (D.failures disk.new) result }
        ensures most { D.most_failures disk.new ≤ D.most_failures disk.old }
        ensures calls { D.calls_made disk.new ≤ D.calls_made disk.old + 6 }
    {
        let superblock = self.superblock.marked(front, area);
        let payload = superblock.encoded();
        // A law that the proof needs: the call does nothing.
        stores_leave_old_or_new();
        let receipt = self.pair.store(disk, &payload, superblock.slot(), front)?;
        self.superblock = superblock;
        Ok(receipt)
    }
}

/// Whether a number is left for a superblock of version 2, where this one, the pair's last, is of version 1.
fn can_migrate(superblock: Superblock, pair: &GatedPair) -> bool
    ensures { IsTrue result ↔ CanMigrate superblock pair.now.number }
{
    match superblock.version() {
        Version::One => pair.number() != MAX_NUMBER,
        Version::Two => true,
    }
}
