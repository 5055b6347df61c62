//! A chain of one goes on.
ghost use Rattle.std.specs.Prelude.{◌≡◌, ◌≢◌, ◌⊎◌, ◌+◌, ◌<◌, ◌≤◌, ◌∷◌, [], ℕ, All, List, IfErr, IfOk, IfSome, IsErrOf, None, OnOk, false, insert, length, true, vec_capacity, vec_len};
ghost use Rattle.std.specs.List.{AllZip};
ghost use Rattle.configurations.specs.Record.{Record};
ghost use Rattle.configurations.specs.Refusal.{HasCause, IsCaused as IsConfigCaused, IsOfOpening as IsOfConfigOpening};
ghost use Rattle.configurations.specs.Store.{HoldsNone, HoldsOldOrNext, IsSettledConfig, recorded};
ghost use Rattle.configurations.specs.declared.refusal.Refusal.TheVariants as config_refusals;
ghost use Rattle.disk_model.specs.Memory.{failures_of, given_of, has_stopped, may_be_left, most_failures_of, size_of};
ghost use Rattle.disk_model.specs.Part.{inside};
ghost use Rattle.gate_journal.specs.declared.batch.TheConstants.{MAX_NUMBER};
ghost use Rattle.chain.specs.Opening.{recorded_in};
ghost use Rattle.chain_model.specs.View.{is_in};
ghost use Rattle.life.specs.Begun.{AllGo, AreOnDisks, BeginsWith, HasVersionTwo, MeansStill, stores_of};
ghost use Rattle.life.specs.Managed.{IsLast, StandsOn, config_part};
ghost use Rattle.life.specs.Recovered.{AreCausedBy, AreStrangers, HasBrokenOff, HasChain, IsBack, IsRead, IsRecordedAlone, IsStranger, IsUnwritten, MayReturn, NoneReturns, OneHasStopped, RecordsStill, Recovers, RecoversFrom, alone_behind};
ghost use Rattle.life.specs.Refusal.{IsCausedBy, IsCausedByConfig, IsOfCalm, IsOfRecord, IsOfRecovering, IsOfReturning, IsStopOf, IsStopOfConfig};
ghost use Rattle.local_store.specs.About.{IsOfVersionTwo, meaning_with, migrated};
ghost use Rattle.local_store.specs.Meaning.{Meaning, Means};
ghost use Rattle.local_store.specs.Refusal.{IsCaused, IsNotOfDevice, IsOfDevice};

use crate::beginning::{config_part, member_of, world_of};
use crate::choosing::choose_among;
use crate::managed::{ManagedWorld, SlotDisk};
use crate::refusal::Refusal;
use candidate::Candidate;
use chain_steps::incarnation_in;
use configurations::{ConfigStore, Epoch, Record, numbers_are_one, records_are_one};
use disk_model::{Disk, DiskError, MemDisk};
use gate_journal::PAIR_SIZE;
use home_blocks::{Version, superblocks_are_one};
use local_store::{Store, StoreLike, disks_mean_one, meanings_are_opened};
use std::alloc::{AllocError, Global};
use world::{Management, World};

/// Why a chain doesn't go on, with the disks.
#[derive(Drop)]
pub struct Refused {
    /// The refusal.
    pub refusal: Refusal,
    /// The disks of the slots, in their order; without the source's where memory ran out once its store was open.
    pub disks: Vec<SlotDisk<MemDisk>>,
    /// The configuration's.
    pub config: MemDisk,
}

/// Why the member of a disk doesn't go on alone.
#[derive(Drop)]
pub(crate) struct NotAlone {
    pub(crate) refusal: Refusal,
    /// `None` where memory ran out once its store was open.
    pub(crate) disk: Option<MemDisk>,
    pub(crate) config: MemDisk,
}

/// Of these disks those at the places `returned` come back, and the chain goes on from one of them, the source, by the record on the
/// configuration's disk: from that of a recorded member, by slot and incarnation, with the greatest front; ties go to the earlier in the chain. The
/// member goes on alone, without clients, at the front that the disk means, with the volume there. It is recorded alone, with the next epoch; then a
/// disk of version 1 is migrated. The other disks are outside, and nothing is written to them. A disk that `Store::open` refuses with 131 to 133,
/// or whose incarnation is 0, is no member's.
///
/// 191 `NoneReturned` where none of the disks comes back. 192 `NotInChain` where none that does is a recorded member's. 161 `NoRecord` where there is
/// no record, 162 `NotNext` where none can follow it. In each of these cases no disk was written. 100 `Memory`; and what a device refuses, only
/// where it can fail. A recovery that was broken off can be cut, and done again.
pub fn recover(
    alloc: Global,
    disks: Vec<SlotDisk<MemDisk>>,
    returned: &[usize],
    config: MemDisk,
) -> Result<ManagedWorld<Store<MemDisk>, MemDisk>, Refused>
    ensures alone { IfOk result (λ managed. length managed.world.chain.members ≡ 1) }
    ensures disks { IfOk result (λ managed. AreOnDisks ⟦<Store<MemDisk> as StoreLike>⟧.about managed.world) }
    ensures go { IfOk result (AllGo (λ s. s.disk)) }
    ensures goes_on { IfOk result (RecoversFrom ⟦<Store<MemDisk> as StoreLike>⟧.about ⟦<Store<MemDisk> as StoreLike>⟧.keeps ⟦<Store<MemDisk> as StoreLike>⟧.may_leave_now returned.now disks.items config) }
    ensures next { IfOk result (λ managed. (r : Record) → StandsOn (given_of config) r → managed.world.chain.recorded.epoch ≡ r.epoch + 1) }
    ensures refused { IfErr result (λ e. IsOfRecovering e.refusal) }
    ensures none { IfErr result (λ e. e.refusal ≡ Refusal.NoneReturned → NoneReturns returned.now (length disks.items)) }
    ensures some { IfErr result (λ e. e.refusal ≡ Refusal.NotInChain → ¬ NoneReturns returned.now (length disks.items)) }
    ensures strangers { IfErr result (λ e. e.refusal ≡ Refusal.NotInChain → AreStrangers returned.now disks.items config) }
    ensures missing { IfErr result (λ e. e.refusal ≡ Refusal.Config config_refusals.NoRecord → (size_of config < 8192) ⊎ HoldsNone (inside config_part (given_of config))) }
    ensures last { IfErr result (λ e. e.refusal ≡ Refusal.Config config_refusals.NotNext → IsLast (given_of config)) }
    ensures returning { IfErr result (λ e. HasChain config → IsOfReturning e.refusal) }
    // No disk was written, but that of the configuration where the source was chosen, and then that of the source behind its record.
    ensures order { IfErr result (λ e. (AllZip IsRead disks.items e.disks.items × IsUnwritten config e.config) ⊎ HasBrokenOff returned.now disks.items config e.refusal e.disks.items e.config) }
    // A refusal is a device's only where that failed meanwhile, or met its stop.
    ensures cause { IfErr result (λ e. AreCausedBy disks.items e.disks.items e.refusal ⊎ OneHasStopped e.disks.items e.refusal) }
    ensures config_cause { IfErr result (λ e. IsCausedByConfig (failures_of config) (failures_of e.config) e.refusal ⊎ IsStopOfConfig e.config e.refusal) }
    ensures calm { HasChain config → All (λ d. failures_of d.disk ≡ most_failures_of d.disk) disks.items → failures_of config ≡ most_failures_of config → IfErr result (λ e. (e.refusal ≡ Refusal.NoneReturned) ⊎ IsOfCalm e.refusal) }
{
    disks_mean_one();
    records_are_one();
    let mut config = config;
    let (choice, disks) = choose_among(alloc, disks, returned, &mut config);
    let place = match choice {
        Ok(place) => place,
        Err(refusal) => {
            return Err(Refused {
                refusal,
                disks,
                config,
            });
        }
    };
    let mut others = disks;
    let source = others.remove(place);
    go_on_from(alloc, source, others, place, config)
}

/// The chain goes on from this disk, which was at a place among the others; these are outside.
fn go_on_from(
    alloc: Global,
    source: SlotDisk<MemDisk>,
    others: Vec<SlotDisk<MemDisk>>,
    place: usize,
    config: MemDisk,
) -> Result<ManagedWorld<Store<MemDisk>, MemDisk>, Refused>
    requires within { place ≤ length others.items }
    requires room { vec_len others < vec_capacity others }
    ensures alone { IfOk result (λ managed. length managed.world.chain.members ≡ 1) }
    ensures disks { IfOk result (λ managed. AreOnDisks ⟦<Store<MemDisk> as StoreLike>⟧.about managed.world) }
    ensures go { IfOk result (AllGo (λ s. s.disk)) }
    ensures goes_on { IfOk result (Recovers ⟦<Store<MemDisk> as StoreLike>⟧.about ⟦<Store<MemDisk> as StoreLike>⟧.keeps ⟦<Store<MemDisk> as StoreLike>⟧.may_leave_now source.disk config) }
    ensures next { IfOk result (λ managed. (r : Record) → StandsOn (given_of config) r → managed.world.chain.recorded.epoch ≡ r.epoch + 1) }
    ensures outside { IfOk result (λ managed. managed.outside ≡ others.items) }
    ensures refused { IfErr result (λ e. IsOfRecovering e.refusal) }
    ensures none { IfErr result (λ e. e.refusal ≢ Refusal.NoneReturned) }
    ensures strangers { IfErr result (λ e. e.refusal ≡ Refusal.NotInChain → IsStranger source.disk config) }
    ensures missing { IfErr result (λ e. e.refusal ≡ Refusal.Config config_refusals.NoRecord → (size_of config < 8192) ⊎ HoldsNone (inside config_part (given_of config))) }
    ensures last { IfErr result (λ e. e.refusal ≡ Refusal.Config config_refusals.NotNext → IsLast (given_of config)) }
    ensures returning { IfErr result (λ e. MayReturn source.disk config → IsOfReturning e.refusal) }
    ensures records { IfErr result (λ e. RecordsStill source.disk config e.config) }
    ensures back { IfErr result (λ e. ((now : MemDisk) × (e.disks.items ≡ insert others.items place (record { slot = source.slot; disk = now }))
        × IsBack source.disk config now e.config × (IsCausedBy (failures_of source.disk) (failures_of now) e.refusal ⊎ IsStopOf now e.refusal)) ⊎ ((e.disks.items ≡ others.items) × (e.refusal ≡ Refusal.Memory))) }
    ensures config_cause { IfErr result (λ e. IsCausedByConfig (failures_of config) (failures_of e.config) e.refusal ⊎ IsStopOfConfig e.config e.refusal) }
    ensures calm { IfErr result (λ e. MayReturn source.disk config → failures_of source.disk ≡ most_failures_of source.disk → failures_of config ≡ most_failures_of config → IsOfCalm e.refusal) }
{
    let SlotDisk { slot, disk } = source;
    let mut disks = others;
    match go_on_alone(alloc, disk, config) {
        Ok(managed) => Ok(with_outside(managed, disks)),
        Err(alone) => {
            let NotAlone {
                refusal,
                disk,
                config,
            } = alone;
            if let Some(disk) = disk {
                put_back(&mut disks, place, SlotDisk { slot, disk });
            }
            Err(Refused {
                refusal,
                disks,
                config,
            })
        }
    }
}

/// The world and its manager, with these disks outside.
pub(crate) fn with_outside(
    managed: ManagedWorld<Store<MemDisk>, MemDisk>,
    outside: Vec<SlotDisk<MemDisk>>,
) -> ManagedWorld<Store<MemDisk>, MemDisk>
    ensures { result ≡ record managed { outside = outside.items } }
{
    let mut managed = managed;
    managed.outside = outside;
    managed
}

/// Puts a disk back to its place.
fn put_back(disks: &mut Vec<SlotDisk<MemDisk>>, place: usize, disk: SlotDisk<MemDisk>)
    requires within { place ≤ length disks.old.items }
    requires room { vec_len disks.old < vec_capacity disks.old }
    ensures { disks.new.items ≡ insert disks.old.items place disk }
{
    match disks.insert(place, disk) {
        Ok(()) => {}
        Err(_) => unreachable!(),
    }
}

/// The member of a disk goes on alone, without clients, by the record on the configuration's disk: at the front that the disk means, with the
/// volume there. It is recorded alone, with the next epoch; then a disk of version 1 is migrated.
///
/// 192 `NotInChain` where the record hasn't the disk's member, by slot and incarnation: neither disk was written. 161 `NoRecord` where there
/// is no record, 162 `NotNext` where none can follow it, and what `ConfigStore::open` and `record` refuse. What `Store::open` and
/// `Store::migrate` refuse; 131 `NotAVolume` also for an incarnation of 0, which no member's disk is given; and 100 `Memory`. A refusal is the
/// device's only where its disk can fail.
pub(crate) fn go_on_alone(
    alloc: Global,
    disk: MemDisk,
    config: MemDisk,
) -> Result<ManagedWorld<Store<MemDisk>, MemDisk>, NotAlone>
    ensures alone { IfOk result (λ managed. length managed.world.chain.members ≡ 1) }
    ensures disks { IfOk result (λ managed. AreOnDisks ⟦<Store<MemDisk> as StoreLike>⟧.about managed.world) }
    ensures go { IfOk result (AllGo (λ s. s.disk)) }
    ensures goes_on { IfOk result (Recovers ⟦<Store<MemDisk> as StoreLike>⟧.about ⟦<Store<MemDisk> as StoreLike>⟧.keeps ⟦<Store<MemDisk> as StoreLike>⟧.may_leave_now disk config) }
    ensures next { IfOk result (λ managed. (r : Record) → StandsOn (given_of config) r → managed.world.chain.recorded.epoch ≡ r.epoch + 1) }
    ensures refused { IfErr result (λ e. IsOfRecovering e.refusal) }
    ensures none { IfErr result (λ e. e.refusal ≢ Refusal.NoneReturned) }
    ensures strangers { IfErr result (λ e. e.refusal ≡ Refusal.NotInChain → IsStranger disk config × (IfSome e.disk (IsUnwritten disk) × IsUnwritten config e.config)) }
    ensures missing { IfErr result (λ e. e.refusal ≡ Refusal.Config config_refusals.NoRecord → (size_of config < 8192) ⊎ HoldsNone (inside config_part (given_of config))) }
    ensures last { IfErr result (λ e. e.refusal ≡ Refusal.Config config_refusals.NotNext → IsLast (given_of config)) }
    ensures returning { IfErr result (λ e. MayReturn disk config → IsOfReturning e.refusal) }
    ensures cause { IfErr result (λ e. IfSome e.disk (λ back. IsCausedBy (failures_of disk) (failures_of back) e.refusal ⊎ IsStopOf back e.refusal)) }
    ensures config_cause { IfErr result (λ e. IsCausedByConfig (failures_of config) (failures_of e.config) e.refusal ⊎ IsStopOfConfig e.config e.refusal) }
    ensures calm { IfErr result (λ e. MayReturn disk config → failures_of disk ≡ most_failures_of disk → failures_of config ≡ most_failures_of config → IsOfCalm e.refusal) }
    // The member's disk isn't written before the record of this member alone is durable; and one of version 2 was only read.
    ensures order { IfErr result (λ e. IfSome e.disk (IsUnwritten disk) ⊎ IsRecordedAlone disk config e.config) }
    ensures back { IfErr result (λ e. HasVersionTwo (given_of disk) → IfSome e.disk (IsUnwritten disk)) }
    // A recovery that was broken off can be cut, and done again: what is left means what the disk meant, and has the record or the next one.
    ensures again { IfErr result (λ e. IfSome e.disk (MeansStill disk)) }
    ensures records { IfErr result (λ e. RecordsStill disk config e.config) }
    ensures size { IfErr result (λ e. IfSome e.disk (λ back. size_of back ≡ size_of disk)) }
    ensures config_size { IfErr result (λ e. size_of e.config ≡ size_of config) }
    ensures gone { IfErr result (λ e. e.disk ≡ None → e.refusal ≡ Refusal.Memory) }
{
    disks_mean_one();
    meanings_are_opened();
    superblocks_are_one();
    records_are_one();
    numbers_are_one();
    let mut config = config;
    let found = match open_config(alloc, &mut config) {
        Ok(found) => found,
        Err(refusal) => {
            return Err(NotAlone {
                refusal: Refusal::Config(refusal),
                disk: Some(disk),
                config,
            });
        }
    };
    let store = match Store::open(alloc, disk) {
        Ok(store) => store,
        Err((refusal, disk)) => {
            return Err(NotAlone {
                refusal: Refusal::Store(refusal),
                disk: Some(disk),
                config,
            });
        }
    };
    if store.incarnation() == 0 {
        return Err(NotAlone {
            refusal: Refusal::Store(local_store::Refusal::NotAVolume),
            disk: Some(store.into_disk()),
            config,
        });
    }
    if !has_member(found.current(), &store) {
        return Err(NotAlone {
            refusal: Refusal::NotInChain,
            disk: Some(store.into_disk()),
            config,
        });
    }
    let found = match record_alone(alloc, found, &mut config, &store) {
        Ok(found) => found,
        Err(refusal) => {
            return Err(NotAlone {
                refusal: Refusal::Config(refusal),
                disk: Some(store.into_disk()),
                config,
            });
        }
    };
    let store = match ready(store) {
        Ok(store) => store,
        Err((refusal, disk)) => {
            return Err(NotAlone {
                refusal: Refusal::Store(refusal),
                disk: Some(disk),
                config,
            });
        }
    };
    match alone(alloc, found.current().epoch(), store) {
        Ok((world, chain)) => Ok(ManagedWorld {
            world,
            management: Management::new(alloc, chain, found, config),
            candidate: Candidate::Nobody,
            outside: Vec::new(alloc),
        }),
        Err(_) => Err(NotAlone {
            refusal: Refusal::Memory,
            disk: None,
            config,
        }),
    }
}

/// The record on the configuration's disk, which it only reads and syncs. 161 `NoRecord` also where the disk is too short.
pub(crate) fn open_config(
    alloc: Global,
    config: &mut MemDisk,
) -> Result<ConfigStore, configurations::Refusal>
    ensures part { IfOk result (λ s. s.pair.part ≡ config_part) }
    ensures stands { IfOk result (λ s. StandsOn (given_of config.old) s.current) }
    ensures settled { IfOk result (λ s. IsSettledConfig s (given_of config.new) (may_be_left config.new)) }
    ensures long { IfOk result (λ _. 8192 ≤ size_of config.new) }
    ensures none { IsErrOf result config_refusals.NoRecord → (size_of config.old < 8192) ⊎ HoldsNone (inside config_part (given_of config.old)) }
    ensures reads { IsUnwritten config.old config.new }
    ensures told { IfErr result IsOfConfigOpening }
    ensures size { size_of config.new ≡ size_of config.old }
    ensures cause { HasCause (failures_of config.old) (failures_of config.new) result }
    ensures most { most_failures_of config.new ≤ most_failures_of config.old }
{
    if config.len() < PAIR_SIZE {
        return Err(configurations::Refusal::NoRecord);
    }
    ConfigStore::open(alloc, config, config_part())
}

/// Whether a record has a store's member.
fn has_member<S: StoreLike>(chain: &Record, store: &S) -> bool
    ensures { result ≡ is_in chain.now (S.about store.now).slot (S.about store.now).incarnation }
{
    match incarnation_in(chain, store.slot()) {
        Some(recorded) => recorded.number() == store.incarnation(),
        None => false,
    }
}

/// The member of a store is recorded alone, with the next epoch.
fn record_alone(
    alloc: Global,
    found: ConfigStore,
    config: &mut MemDisk,
    store: &Store<MemDisk>,
) -> Result<ConfigStore, configurations::Refusal>
    requires part { found.pair.part ≡ config_part }
    requires long { 8192 ≤ size_of config.old }
    requires settled { IsSettledConfig found (given_of config.old) (may_be_left config.old) }
    requires given { 0 < (⟦<Store<MemDisk> as StoreLike>⟧.about store.now).incarnation }
    ensures recorded { IfOk result (λ s. s ≡ recorded found (alone_behind found.current (recorded_in ⟦<Store<MemDisk> as StoreLike>⟧.about store.now))) }
    ensures settled { IfOk result (λ s. IsSettledConfig s (given_of config.new) (may_be_left config.new)) }
    ensures go { OnOk result (has_stopped config.new ≡ false) }
    ensures told { IfErr result IsOfRecord }
    ensures found { IfErr result (λ r. r ≢ config_refusals.NoRecord) }
    ensures last { IsErrOf result config_refusals.NotNext → (MAX_NUMBER ≤ found.current.epoch) ⊎ (MAX_NUMBER ≤ found.pair.number) }
    ensures still { (c : List ℕ) → may_be_left config.new c → HoldsOldOrNext found (alone_behind found.current (recorded_in ⟦<Store<MemDisk> as StoreLike>⟧.about store.now)) (inside config_part c) }
    ensures cause { IfErr result (λ r. IsConfigCaused (failures_of config.old) (failures_of config.new) r ⊎ ((r ≡ config_refusals.Device DiskError.Stopped) × (has_stopped config.new ≡ true))) }
    ensures calm { IfErr result (λ r. most_failures_of config.old ≤ failures_of config.old → IsOfCalm (Refusal.Config r)) }
    ensures size { size_of config.new ≡ size_of config.old }
{
    let Some(epoch) = Epoch::new(found.current().epoch().number() + 1) else {
        return Err(configurations::Refusal::NotNext);
    };
    let next = alone_record(alloc, epoch, store)?;
    let mut found = found;
    found.record(alloc, config, next)?;
    if config.is_stopped() {
        return Err(configurations::Refusal::Device(DiskError::Stopped));
    }
    Ok(found)
}

/// The record of a store's member alone.
fn alone_record<S: StoreLike>(alloc: Global, epoch: Epoch, store: &S) -> Result<Record, AllocError>
    ensures { IfOk result (λ r. r ≡ record { epoch = epoch; members = recorded_in S.about store.now ∷ [] }) }
{
    let mut members = Vec::with_capacity(alloc, 1)?;
    members.push_reserved(member_of(store));
    match Record::new(epoch, members) {
        Ok(record) => Ok(record),
        Err(_) => unreachable!(),
    }
}

/// The store on a disk of version 2 that runs: one of version 1 is migrated.
///
/// What the device refuses hands the disk back, which means what it meant.
fn ready(store: Store<MemDisk>) -> Result<Store<MemDisk>, (local_store::Refusal, MemDisk)>
    requires runs { (⟦<Store<MemDisk> as StoreLike>⟧.about store).broken ≡ false }
    requires here { (⟦<Store<MemDisk> as StoreLike>⟧.about store).lent ≡ None }
    requires keeps { (volume : List ℕ) × ⟦<Store<MemDisk> as StoreLike>⟧.keeps store volume }
    ensures version { IfOk result (λ s. IsOfVersionTwo (⟦<Store<MemDisk> as StoreLike>⟧.about s)) }
    ensures about { IfOk result (λ s. (⟦<Store<MemDisk> as StoreLike>⟧.about s ≡ ⟦<Store<MemDisk> as StoreLike>⟧.about store)
        ⊎ (⟦<Store<MemDisk> as StoreLike>⟧.about s ≡ migrated (⟦<Store<MemDisk> as StoreLike>⟧.about store))) }
    ensures kept { IfOk result (λ s. (volume : List ℕ) → ⟦<Store<MemDisk> as StoreLike>⟧.keeps store volume → ⟦<Store<MemDisk> as StoreLike>⟧.keeps s volume) }
    ensures go { IfOk result (λ s. has_stopped s.disk ≡ false) }
    ensures device { IfErr result (λ e. IsOfDevice e.0) }
    ensures means { IfErr result (λ e. (volume : List ℕ) → ⟦<Store<MemDisk> as StoreLike>⟧.keeps store volume
        → (c : List ℕ) → may_be_left e.1 c → Means (meaning_with (⟦<Store<MemDisk> as StoreLike>⟧.about store) volume) c) }
    ensures untouched { IsOfVersionTwo (⟦<Store<MemDisk> as StoreLike>⟧.about store) → IfErr result (λ e. e.1 ≡ store.disk) }
    ensures size { IfErr result (λ e. size_of e.1 ≡ size_of store.disk) }
    ensures cause { IfErr result (λ e. IsCaused (failures_of store.disk) (failures_of e.1) e.0 ⊎ IsStopOf e.1 (Refusal.Store e.0)) }
    // Where the disk can't fail any more, the refusal isn't the device's.
    ensures calm { IfErr result (λ e. most_failures_of store.disk ≤ failures_of store.disk → IsNotOfDevice e.0) }
{
    let mut store = store;
    match store.version() {
        Version::Two => {}
        Version::One => {
            if let Err(refusal) = store.migrate() {
                return Err((refusal, store.into_disk()));
            }
        }
    }
    if store.disk().is_stopped() {
        let refusal = local_store::Refusal::Device(DiskError::Stopped);
        return Err((refusal, store.into_disk()));
    }
    Ok(store)
}

/// The world of a store's member alone, recorded with this epoch, and its record.
fn alone<S: StoreLike + Drop>(
    alloc: Global,
    epoch: Epoch,
    store: S,
) -> Result<(World<S>, Record), AllocError>
    requires given { 0 < (S.about store).incarnation }
    requires runs { (S.about store).broken ≡ false }
    requires version { IsOfVersionTwo (S.about store) }
    requires here { (S.about store).lent ≡ None }
    requires keeps { S.keeps_model → (volume : List ℕ) × S.keeps store volume }
    ensures alone { IfOk result (λ r. length r.0.chain.members ≡ 1) }
    ensures recorded { IfOk result (λ r. r.0.chain.recorded ≡ record { epoch = epoch; members = recorded_in S.about store ∷ [] }) }
    ensures chain { IfOk result (λ r. r.1 ≡ r.0.chain.recorded) }
    ensures idle { IfOk result (λ r. r.0.chain.writing ≡ None) }
    ensures nobody { IfOk result (λ r. r.0.joiner ≡ None) }
    ensures store { IfOk result (λ r. stores_of r.0 ≡ store ∷ []) }
    ensures disks { IfOk result (λ r. AreOnDisks S.about r.0) }
    ensures begins { S.keeps_model → IfOk result (λ r. (volume : List ℕ) → S.keeps store volume
        → BeginsWith S.about S.keeps S.may_leave_now (S.about store).geometry (S.about store).front volume r.0) }
{
    let chain = alone_record(alloc, epoch, &store)?;
    let mut stores = Vec::with_capacity(alloc, 1)?;
    stores.push_reserved(store);
    Ok((world_of(alloc, epoch, stores)?, chain))
}
