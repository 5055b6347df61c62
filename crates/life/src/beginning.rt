//! How a world begins.
ghost use Rattle.std.specs.Prelude.{◌≡◌, ◌≢◌, ◌*◌, ◌<◌, ◌≤◌, ℕ, List, [], All, IfErr, IfOk, IfSome, None, false, length, map, replicate, slice_get};
ghost use Rattle.std.specs.List.{AllPairs, range_with_len};
ghost use Rattle.chain.specs.Opening.{AreEven, recorded_in};
ghost use Rattle.chain_core.specs.Node.{size_of};
ghost use Rattle.configurations.specs.Store.{IsSettledConfig, created};
ghost use Rattle.disk_model.specs.Memory.{given_of, has_stopped, may_be_left, size_of as disk_size_of};
ghost use Rattle.life.specs.Begun.{AllGo, AreOnDisks, BeginsWith, first_about, stores_of};
ghost use Rattle.life.specs.Headline.{first_record};
ghost use Rattle.life.specs.Managed.{IsAtRest, config_part};
ghost use Rattle.life.specs.Refusal.{IsOfMemory};
ghost use Rattle.local_store.specs.About.{IsOfVersionTwo};
ghost use Rattle.volume.specs.Writes.{volume_of};

use crate::managed::ManagedWorld;
use crate::refusal::Refusal;
use candidate::Candidate;
use chain::Chain;
use configurations::{ConfigStore, Epoch, Incarnation, Member, Record};
use disk_model::{MemDisk, Part, Script};
use gate_journal::{PAIR_SIZE, Slot};
use home_blocks::disk_size;
use local_store::{Store, StoreLike};
use std::alloc::{AllocError, Global};
use volume::Geometry;
use world::{Management, World};

/// The epoch of a chain's first record.
const FIRST_EPOCH: u64 = 1;

/// The part of the configuration's disk in which the record stands.
pub(crate) fn config_part() -> Part
    ensures { result ≡ config_part }
{
    Part {
        start: 0,
        len: PAIR_SIZE,
    }
}

/// The incarnation of a disk that was formatted.
const FIRST_INCARNATION: u64 = 1;

/// A world of so many members, 1 to 8, at the slots from 0 up, over new disks in memory, with a volume of zeros and without clients; and
/// its manager, with the first record on a new disk.
///
/// 100 `Memory`, and only that: nothing is armed on a new disk.
pub fn begin(
    alloc: Global,
    geometry: Geometry,
    members: u8,
) -> Result<ManagedWorld<Store<MemDisk>, MemDisk>, Refusal>
    requires some { 0 < members }
    requires few { members ≤ 8 }
    ensures many { IfOk result (λ managed. length managed.world.chain.members ≡ members) }
    ensures slots { IfOk result (λ managed. map ⟦<Store<MemDisk> as StoreLike>⟧.about (stores_of managed.world) ≡ map (first_about geometry) (range_with_len 0 members)) }
    ensures disks { IfOk result (λ managed. AreOnDisks ⟦<Store<MemDisk> as StoreLike>⟧.about managed.world) }
    ensures go { IfOk result (AllGo (λ s. s.disk)) }
    ensures recorded { IfOk result (λ managed. managed.world.chain.recorded ≡ first_record members) }
    ensures rests { IfOk result IsAtRest }
    ensures outside { IfOk result (λ managed. managed.outside ≡ []) }
    ensures begins { IfOk result (λ managed. BeginsWith ⟦<Store<MemDisk> as StoreLike>⟧.about ⟦<Store<MemDisk> as StoreLike>⟧.keeps ⟦<Store<MemDisk> as StoreLike>⟧.may_leave_now
        geometry 0 (volume_of (4096 * geometry.blocks) []) managed.world) }
    ensures refused { IfErr result IsOfMemory }
{
    let stores = first_stores(alloc, geometry, members)?;
    let epoch = Epoch::new(FIRST_EPOCH).unwrap();
    let (config, disk) = first_config(alloc, record_of(alloc, epoch, &stores)?)?;
    let chain = record_of(alloc, epoch, &stores)?;
    let world = world_of(alloc, epoch, stores)?;
    Ok(ManagedWorld {
        world,
        management: Management::new(alloc, chain, config, disk),
        candidate: Candidate::Nobody,
        outside: Vec::new(alloc),
    })
}

/// The store of the configuration on a new disk, with this first record.
fn first_config(alloc: Global, first: Record) -> Result<(ConfigStore, MemDisk), Refusal>
    ensures store { IfOk result (λ r. r.0 ≡ created config_part first) }
    ensures settled { IfOk result (λ r. IsSettledConfig r.0 (given_of r.1) (may_be_left r.1)) }
    ensures size { IfOk result (λ r. disk_size_of r.1 ≡ 8192) }
    ensures go { IfOk result (λ r. has_stopped r.1 ≡ false) }
    ensures refused { IfErr result IsOfMemory }
{
    let mut disk = MemDisk::new(alloc, PAIR_SIZE, Script::new(alloc))?;
    match ConfigStore::create(alloc, &mut disk, config_part(), first) {
        Ok(config) => Ok((config, disk)),
        Err(refusal) => Err(Refusal::Config(refusal)),
    }
}

/// The stores of so many members, at the slots from 0 up, on new disks.
fn first_stores(
    alloc: Global,
    geometry: Geometry,
    members: u8,
) -> Result<Vec<Store<MemDisk>>, Refusal>
    requires few { members ≤ 8 }
    ensures about { IfOk result (λ stores. map ⟦<Store<MemDisk> as StoreLike>⟧.about stores.items ≡ map (first_about geometry) (range_with_len 0 members)) }
    ensures kept { IfOk result (λ stores. All (λ s. ⟦<Store<MemDisk> as StoreLike>⟧.keeps s (replicate (4096 * geometry.blocks) 0)) stores.items) }
    ensures go { IfOk result (λ stores. All (λ s. has_stopped s.disk ≡ false) stores.items) }
    ensures refused { IfErr result IsOfMemory }
{
    let mut stores = Vec::with_capacity(alloc, usize::from(members))?;
    for number in 0..members {
        stores.push_reserved(first_store(alloc, geometry, number)?);
    }
    Ok(stores)
}

/// The store of the member at the slot of this number, on a new disk.
fn first_store(alloc: Global, geometry: Geometry, number: u8) -> Result<Store<MemDisk>, Refusal>
    requires { number < 8 }
    ensures about { IfOk result (λ s. ⟦<Store<MemDisk> as StoreLike>⟧.about s ≡ first_about geometry number) }
    ensures kept { IfOk result (λ s. ⟦<Store<MemDisk> as StoreLike>⟧.keeps s (replicate (4096 * geometry.blocks) 0)) }
    ensures go { IfOk result (λ s. has_stopped s.disk ≡ false) }
    ensures refused { IfErr result IsOfMemory }
{
    let slot = Slot::new(number).unwrap();
    let disk = MemDisk::new(alloc, disk_size(geometry), Script::new(alloc))?;
    match Store::format(alloc, disk, slot, FIRST_INCARNATION, geometry) {
        Ok(store) => Ok(store),
        Err((refusal, _)) => Err(Refusal::Store(refusal)),
    }
}

/// The world of the chain of these stores' members, in this order, recorded with this epoch, without clients. The stores are one to eight,
/// not broken, of slots of their own, at one front, with volumes of the same sizes, on disks of version 2.
pub(crate) fn world_of<S: StoreLike + Drop>(
    alloc: Global,
    epoch: Epoch,
    stores: Vec<S>,
) -> Result<World<S>, AllocError>
    requires some { 0 < length stores.items }
    requires few { length stores.items ≤ 8 }
    requires slots { AllPairs (λ one other. (S.about one).slot ≢ (S.about other).slot) stores.items }
    requires given { All (λ s. 0 < (S.about s).incarnation) stores.items }
    requires even { AreEven S.about stores.items }
    requires runs { All (λ s. (S.about s).broken ≡ false) stores.items }
    requires version { All (λ s. IsOfVersionTwo (S.about s)) stores.items }
    requires here { All (λ s. (S.about s).lent ≡ None) stores.items }
    requires keeps { S.keeps_model → All (λ s. (volume : List ℕ) × S.keeps s volume × (length volume ≡ size_of (S.about s))) stores.items }
    ensures many { IfOk result (λ world. length world.chain.members ≡ length stores.items) }
    ensures recorded { IfOk result (λ world. world.chain.recorded ≡ record { epoch = epoch; members = map (recorded_in S.about) stores.items }) }
    ensures idle { IfOk result (λ world. world.chain.writing ≡ None) }
    ensures nobody { IfOk result (λ world. world.joiner ≡ None) }
    ensures stores { IfOk result (λ world. stores_of world ≡ stores.items) }
    ensures disks { IfOk result (AreOnDisks S.about) }
    ensures begins { S.keeps_model → IfOk result (λ world. IfSome (slice_get stores.items 0) (λ first. (volume : List ℕ) → All (λ s. S.keeps s volume) stores.items
        → BeginsWith S.about S.keeps S.may_leave_now (S.about first).geometry (S.about first).front volume world)) }
{
    let record = record_of(alloc, epoch, &stores)?;
    let Ok(chain) = Chain::new(alloc, record, stores) else {
        return Err(AllocError);
    };
    match World::new(alloc, chain) {
        Ok(world) => Ok(world),
        Err(chain) => {
            drop(chain.abandon());
            Err(AllocError)
        }
    }
}

/// The record of this epoch, of the members whose stores these are, one to eight, of slots of their own.
pub(crate) fn record_of<S: StoreLike>(
    alloc: Global,
    epoch: Epoch,
    stores: &[S],
) -> Result<Record, AllocError>
    requires some { 0 < length stores.now }
    requires few { length stores.now ≤ 8 }
    requires slots { AllPairs (λ one other. (S.about one).slot ≢ (S.about other).slot) stores.now }
    ensures { IfOk result (λ r. r ≡ record { epoch = epoch; members = map (recorded_in S.about) stores.now }) }
{
    match Record::new(epoch, members_of(alloc, stores)?) {
        Ok(record) => Ok(record),
        Err(_) => unreachable!(),
    }
}

/// The members whose stores these are, as they are recorded.
fn members_of<S: StoreLike>(alloc: Global, stores: &[S]) -> Result<Vec<Member>, AllocError>
    ensures { IfOk result (λ members. members.items ≡ map (recorded_in S.about) stores.now) }
{
    let mut members = Vec::with_capacity(alloc, stores.len())?;
    for store in stores {
        members.push_reserved(member_of(store));
    }
    Ok(members)
}

/// The member whose store this is, as it is recorded.
pub(crate) fn member_of<S: StoreLike>(store: &S) -> Member
    ensures { result ≡ recorded_in S.about store.now }
{
    Member {
        slot: store.slot(),
        incarnation: Incarnation::new(store.incarnation()).unwrap(),
    }
}
