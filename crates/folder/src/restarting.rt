//! How a chain goes on from the disks of a folder.
ghost use Rattle.std.specs.Prelude.{◌≡◌, ◌⊎◌, ◌+◌, ◌<◌, ◌≤◌, ◌↔◌, ℕ, List, [], ◌∷◌, false, None, Some, length, map, slice_get, IfErr, IfNone, IfOk, IfSome, IsErrOf, OnOk};
ghost use Rattle.std.specs.List.{AllZip, remove};
ghost use Rattle.configurations.specs.Refusal as chain;
ghost use Rattle.configurations.specs.Store.{HoldsOldOrNew, HoldsRecord, IsSettledConfig, recorded};
ghost use Rattle.configurations.specs.declared.refusal.Refusal.TheVariants.{Broken, NoRecord, NotNext};
ghost use Rattle.disk_model.specs.Disk.{LeavesOnly};
ghost use Rattle.disk_model.specs.Part.{inside};
ghost use Rattle.gate_journal.specs.Runs.{OnlyReads};
ghost use Rattle.recovery.specs.declared.refusal.Refusal.TheVariants.{NoneReturned, NotInChain};
ghost use Rattle.configurations.specs.Record.{Record as Recorded};
ghost use Rattle.folder.specs.Chain.{HasNoRecord, HasRecord, MayGoOn, alone_after, config_part as the_part};
ghost use Rattle.folder.specs.Disks.{NoneIsReturned};
ghost use Rattle.folder.specs.Found.{IsFault, IsRunning, member_in};
ghost use Rattle.folder.specs.Refusal.{IsCausedBy, IsOfRestarting};
ghost use Rattle.folder.specs.Restart.{GoesOn, IsAnswered, IsAtEnd, IsRecordedOver, SourceLeavesOut};

use crate::Refusal;
use crate::chosen::{choose_allowed, take_store};
use crate::formatting::config_part;
use crate::found::{all_disks, find_all};
use configurations::{ConfigStore, Epoch, Member, Record, records_are_one};
use disk_model::Disk;
use gate_journal::{MAX_NUMBER, PAIR_SIZE, Slot};
use home_blocks::Version;
use local_store::{Store, StoreLike, disks_mean_one};
use std::alloc::Global;

/// A chain of one that goes on.
#[derive(Drop)]
pub struct Opened<D: Disk> {
    /// The configuration's disk.
    pub config: D,
    /// The store of the record on it.
    pub configs: ConfigStore,
    /// What it has recorded: the source alone.
    pub record: Record,
    /// The place of the source among the disks that returned.
    pub place: usize,
    /// The store of the source.
    pub store: Store<D>,
    /// The other disks that returned, in their order.
    pub others: Vec<D>,
}

/// Why a chain doesn't go on.
#[derive(Drop)]
pub struct Refused<D> {
    /// The refusal.
    pub refusal: Refusal,
    /// The configuration's disk.
    pub config: D,
    /// The disks that returned, in their order.
    pub disks: Vec<D>,
    /// The place of the disk that is at fault, where it isn't that of the configuration.
    pub fault: Option<usize>,
}

impl<D: Drop> Refused<D> {
    ghost use Rattle.std.specs.Prelude.{◌≡◌, None};

    /// A refusal in which no disk that returned is at fault.
    fn alone(refusal: Refusal, config: D, disks: Vec<D>) -> Refused<D>
        ensures { result ≡ record { refusal = refusal; config = config; disks = disks; fault = None } }
    {
        Refused {
            refusal,
            config,
            disks,
            fault: None,
        }
    }
}

/// A chain of one goes on: the recorded chain is read from the configuration's disk, each disk that returned is opened,
/// the rule of recovery chooses the source among them, and the source alone is recorded, with the next epoch. Nothing else
/// is written: the disks that returned are only read, and all are handed back. Where the recorded chain has other members,
/// that takes them out of it, and it is done only where `alone` asks for it.
///
/// 161 `NoRecord`: the configuration's disk has no record. 191 `NoneReturned`: it has one, and no disk returned. 192
/// `NotInChain`: none of the disks is the recorded chain's. 193 `OthersRecorded`, with nothing written: there is a source,
/// the chain has other members, and `alone` doesn't ask to leave them out. 162 `NotNext`: no epoch or no number is left. 100
/// `Memory`, and what a device refuses. The configuration's disk is handed back, with the record that it had or with the
/// next.
pub fn restart<D: Disk + Drop>(
    alloc: Global,
    config: D,
    disks: Vec<D>,
    alone: bool,
) -> Result<Opened<D>, Refused<D>>
    ensures goes_on { D.keeps_model → IfOk result (λ o. GoesOn ⟦<Store<D> as StoreLike>⟧.about ⟦<Store<D> as StoreLike>⟧.keeps
        (D.gives config) (map D.gives disks.items) o.place o.store o.record) }
    ensures settled { D.keeps_model → IfOk result (λ o. IsSettledConfig o.configs (D.gives o.config) (D.may_leave_now o.config)) }
    ensures reads { D.keeps_model → IfOk result (λ o. IfSome (slice_get disks.items o.place)
        (λ disk. OnlyReads D.gives D.may_leave_now D.moment D.may_have_left_since disk o.store.disk)) }
    ensures others { D.keeps_model → IfOk result (λ o. AllZip (OnlyReads D.gives D.may_leave_now D.moment D.may_have_left_since)
        (remove disks.items o.place) o.others.items) }
    ensures records { IfOk result (λ o. (o.configs.current ≡ o.record) × (o.configs.pair.part ≡ the_part)) }
    ensures alone { IfOk result (λ o. o.record.members ≡ member_in (⟦<Store<D> as StoreLike>⟧.about o.store) ∷ []) }
    ensures running { IfOk result (λ o. IsRunning ⟦<Store<D> as StoreLike>⟧.about o.store) }
    ensures room { IfOk result (λ o. the_part.len ≤ D.size o.config) }

    // A stop at any moment of the call leaves the configuration's disk as it was, or with the source's record.
    ensures any_moment { D.keeps_model → IfOk result (λ o. LeavesOnly D.moment D.may_have_left_since config o.config
        (IsRecordedOver (D.may_leave_now config) (D.gives config) (map D.gives disks.items))) }
    ensures back { D.keeps_model → IfErr result (λ e. LeavesOnly D.moment D.may_have_left_since config e.config
        (IsRecordedOver (D.may_leave_now config) (D.gives config) (map D.gives disks.items))) }

    // All disks that returned are handed back, and were only read.
    ensures all_back { D.keeps_model → IfErr result (λ e. AllZip (OnlyReads D.gives D.may_leave_now D.moment D.may_have_left_since)
        disks.items e.disks.items) }
    ensures as_many { IfErr result (λ e. length e.disks.items ≡ length disks.items) }

    ensures no_record { D.keeps_model → IfErr result (λ e. e.refusal ≡ Refusal.Chain NoRecord → HasNoRecord (D.size config) (D.gives config)) }
    ensures none_returned { IfErr result (λ e. e.refusal ≡ Refusal.Choice NoneReturned → disks.items ≡ []) }
    ensures none_returned_to { D.keeps_model → IfErr result (λ e. e.refusal ≡ Refusal.Choice NoneReturned
        → (old : Recorded) × HasRecord old (D.gives config)) }
    ensures strangers { D.keeps_model → IfErr result (λ e. e.refusal ≡ Refusal.Choice NotInChain
        → (old : Recorded) × HasRecord old (D.gives config) × NoneIsReturned old.members (map D.gives disks.items)) }
    ensures not_next { D.keeps_model → IfErr result (λ e. e.refusal ≡ Refusal.Chain NotNext → IsAtEnd (D.gives config)) }

    // Nobody is left out of the chain unasked. Where it is refused for that, the configuration's disk was only read, too.
    ensures others_recorded { D.keeps_model → IfErr result (λ e. e.refusal ≡ Refusal.OthersRecorded
        → SourceLeavesOut alone (D.gives config) (map D.gives disks.items)) }
    ensures unrecorded { D.keeps_model → IfErr result (λ e. e.refusal ≡ Refusal.OthersRecorded
        → OnlyReads D.gives D.may_leave_now D.moment D.may_have_left_since config e.config) }
    ensures allowed { D.keeps_model → IfOk result (λ o. (old : Recorded) × HasRecord old (D.gives config) × MayGoOn alone old) }

    // And the other way round.
    ensures refused { D.keeps_model → IfErr result (λ e. IsAnswered alone (D.size config) (D.gives config) (map D.gives disks.items) (Some e.refusal)) }
    ensures done { D.keeps_model → IfOk result (λ o. IsAnswered alone (D.size config) (D.gives config) (map D.gives disks.items) None) }

    ensures told { IfErr result (λ e. IsOfRestarting e.refusal) }
    ensures fault { IfErr result (λ e. IfSome e.fault (λ place. IsFault D.failures disks.items e.disks.items place e.refusal)) }
    ensures cause { IfErr result (λ e. IfNone e.fault (IsCausedBy (D.failures config) (D.failures e.config) e.refusal)) }
{
    disks_mean_one();
    records_are_one();
    let mut config = config;
    let mut configs = match open_config(alloc, &mut config) {
        Ok(configs) => configs,
        Err(refusal) => return Err(Refused::alone(Refusal::Chain(refusal), config, disks)),
    };
    let Ok(room) = Vec::with_capacity(alloc, disks.len()) else {
        return Err(Refused::alone(Refusal::Memory, config, disks));
    };
    let Ok(back) = Vec::with_capacity(alloc, disks.len()) else {
        return Err(Refused::alone(Refusal::Memory, config, disks));
    };
    let found = match find_all(alloc, disks, room) {
        Ok(found) => found,
        Err(unfound) => {
            return Err(Refused {
                refusal: Refusal::Store(unfound.fault.refusal),
                config,
                disks: all_disks(unfound.each, back),
                fault: Some(unfound.fault.place),
            });
        }
    };
    let chosen = match choose_allowed(alloc, configs.current(), &found, alone) {
        Ok(chosen) => chosen,
        Err(refusal) => return Err(Refused::alone(refusal, config, all_disks(found, back))),
    };
    match record_alone(alloc, &mut configs, &mut config, chosen.member) {
        Ok(record) => {
            let (store, others) = take_store(found, chosen.place, back);
            Ok(Opened {
                config,
                configs,
                record,
                place: chosen.place,
                store,
                others,
            })
        }
        Err(refusal) => {
            let disks = all_disks(found, back);
            Err(Refused::alone(Refusal::Chain(refusal), config, disks))
        }
    }
}

/// The store of the record on the configuration's disk, of any length. It syncs, and then reads.
///
/// 161 `NoRecord` where there is none, or no room for one. 100 `Memory`, and what the device refuses.
fn open_config<D: Disk>(alloc: Global, disk: &mut D) -> Result<ConfigStore, configurations::Refusal>
    ensures part { IfOk result (λ s. s.pair.part ≡ the_part) }
    ensures runs { IfOk result (λ s. s.pair.broken ≡ false) }
    ensures found { D.keeps_model → IfOk result (λ s. HasRecord s.current (D.gives disk.old)) }
    ensures room { OnOk result (the_part.len ≤ D.size disk.new) }
    ensures settled { D.keeps_model → IfOk result (λ s. IsSettledConfig s (D.gives disk.new) (D.may_leave_now disk.new)) }
    ensures none { D.keeps_model → IsErrOf result NoRecord
        → HasNoRecord (D.size disk.old) (D.gives disk.old) }
    ensures reads { D.keeps_model → OnlyReads D.gives D.may_leave_now D.moment D.may_have_left_since disk.old disk.new }
    ensures size { D.size disk.new ≡ D.size disk.old }
    ensures told { IfErr result chain.IsOfOpening }
    ensures cause { chain.HasCause (D.failures disk.old) (D.failures disk.new) result }
{
    if disk.len() < PAIR_SIZE {
        return Err(configurations::Refusal::NoRecord);
    }
    ConfigStore::open(alloc, disk, config_part())
}

/// Records a member alone, with the next epoch; the record that is recorded then.
///
/// 162 `NotNext` where no epoch or no number is left, and 100 `Memory`: these change nothing. And what the device refuses:
/// the part has the old record or the new.
fn record_alone<D: Disk>(
    alloc: Global,
    configs: &mut ConfigStore,
    disk: &mut D,
    member: Member,
) -> Result<Record, configurations::Refusal>
    requires part { configs.old.pair.part ≡ the_part }
    requires runs { configs.old.pair.broken ≡ false }
    requires room { the_part.len ≤ D.size disk.old }
    ensures record { IfOk result (λ r. r ≡ alone_after configs.old.current member) }
    ensures recorded { OnOk result (configs.new ≡ recorded configs.old (alone_after configs.old.current member)) }
    ensures settled { D.keeps_model → IsSettledConfig configs.old (D.gives disk.old) (D.may_leave_now disk.old)
        → OnOk result (IsSettledConfig configs.new (D.gives disk.new) (D.may_leave_now disk.new)) }
    ensures any_moment { D.keeps_model → IsSettledConfig configs.old (D.gives disk.old) (D.may_leave_now disk.old)
        → LeavesOnly D.moment D.may_have_left_since disk.old disk.new
        (λ c. HoldsOldOrNew configs.old.current (alone_after configs.old.current member) (inside the_part c)) }
    ensures size { D.size disk.new ≡ D.size disk.old }
    ensures not_next { IsErrOf result NotNext → (MAX_NUMBER ≤ configs.old.current.epoch) ⊎ (MAX_NUMBER ≤ configs.old.pair.number) }
    ensures told { IfErr result chain.IsOfRecording }
    ensures never_broken { ¬ IsErrOf result Broken }
    ensures cause { chain.HasCause (D.failures disk.old) (D.failures disk.new) result }
{
    let record = alone_behind(alloc, configs.current(), &member)?;
    let copy = alone_behind(alloc, configs.current(), &member)?;
    configs.record(alloc, disk, record)?;
    Ok(copy)
}

/// The record behind this one that has a member alone.
///
/// 162 `NotNext` where no epoch is left, and 100 `Memory`.
fn alone_behind(
    alloc: Global,
    old: &Record,
    member: &Member,
) -> Result<Record, configurations::Refusal>
    ensures alone { IfOk result (λ r. r ≡ alone_after old.now member.now) }
    ensures not_next { IsErrOf result NotNext → MAX_NUMBER ≤ old.now.epoch }
    ensures told { IfErr result chain.IsOfRecording }
    ensures never_broken { ¬ IsErrOf result Broken }
    ensures own { IfErr result (λ r. ¬ chain.IsOfDevice r) }
{
    let epoch = old.epoch().number();
    if epoch == Epoch::MAX {
        return Err(configurations::Refusal::NotNext);
    }
    let members = Vec::from_slice(alloc, &[*member])?;
    match Record::new(Epoch::new(epoch + 1).unwrap(), members) {
        Ok(record) => Ok(record),
        Err(_) => unreachable!(),
    }
}

impl<D: Disk + Drop> Opened<D> {
    ghost use Rattle.std.specs.Prelude.{◌≡◌, ◌⊎◌, ℕ, List, true, IfErr, IsOk, OnErr, OnOk};
    ghost use Rattle.disk_model.specs.Disk.{LeavesOnly};
    ghost use Rattle.folder.specs.Found.{IsRunning};
    ghost use Rattle.local_store.specs.About.{IsOfVersionTwo, meaning_with, migrated};
    ghost use Rattle.local_store.specs.Meaning.{Means};
    ghost use Rattle.local_store.specs.Refusal as store;

    /// Brings the source's disk to version 2, if it is one of version 1: its record is durable by then. Nothing else changes,
    /// and of a disk of version 2 nothing at all.
    ///
    /// What the device refuses: then the store is broken, all else that it tells is as before, and its disk means what it meant.
    pub fn migrate(&mut self) -> Result<(), local_store::Refusal>
        requires running { IsRunning ⟦<Store<D> as StoreLike>⟧.about self.old.store }
        requires keeps { D.keeps_model → (volume : List ℕ) × ⟦<Store<D> as StoreLike>⟧.keeps self.old.store volume }
        ensures same { self.new ≡ record self.old { store = self.new.store } }
        ensures version { OnOk result (IsOfVersionTwo (⟦<Store<D> as StoreLike>⟧.about self.new.store)) }
        ensures about { OnOk result ((⟦<Store<D> as StoreLike>⟧.about self.new.store ≡ ⟦<Store<D> as StoreLike>⟧.about self.old.store)
            ⊎ (⟦<Store<D> as StoreLike>⟧.about self.new.store ≡ migrated (⟦<Store<D> as StoreLike>⟧.about self.old.store))) }
        ensures untouched { IsOfVersionTwo (⟦<Store<D> as StoreLike>⟧.about self.old.store) → IsOk result × (self.new ≡ self.old) }
        ensures err { D.keeps_model → OnErr result (⟦<Store<D> as StoreLike>⟧.about self.new.store ≡ record (⟦<Store<D> as StoreLike>⟧.about self.old.store) { broken = true }) }
        ensures kept { D.keeps_model → (volume : List ℕ) → ⟦<Store<D> as StoreLike>⟧.keeps self.old.store volume → OnOk result (⟦<Store<D> as StoreLike>⟧.keeps self.new.store volume) }

        // A stop at any moment of the call leaves what means what it meant.
        ensures any_moment { D.keeps_model → (volume : List ℕ) → ⟦<Store<D> as StoreLike>⟧.keeps self.old.store volume
            → LeavesOnly D.moment D.may_have_left_since self.old.store.disk self.new.store.disk (Means (meaning_with (⟦<Store<D> as StoreLike>⟧.about self.old.store) volume)) }
        ensures told { D.keeps_model → IfErr result store.IsOfDevice }
        ensures cause { IfErr result (store.IsCaused (D.failures self.old.store.disk) (D.failures self.new.store.disk)) }
    {
        match self.store.version() {
            Version::One => self.store.migrate(),
            Version::Two => Ok(()),
        }
    }

    /// The slot of the source.
    pub fn source(&self) -> Slot
        ensures { result ≡ (⟦<Store<D> as StoreLike>⟧.about self.now.store).slot }
    {
        self.store.slot()
    }

    /// The number of the last write that the source holds.
    pub fn front(&self) -> u64
        ensures { result ≡ (⟦<Store<D> as StoreLike>⟧.about self.now.store).front }
    {
        self.store.front()
    }

    /// The epoch of the chain that goes on.
    pub fn epoch(&self) -> Epoch
        ensures { result ≡ self.now.record.epoch }
    {
        self.record.epoch()
    }
}
