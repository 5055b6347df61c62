//! Which of the disks that return a chain goes on from.
ghost use Rattle.std.specs.Prelude.{◌≡◌, ◌⊎◌, ◌<◌, ◌≤◌, ◌↔◌, true, All, IfErr, IfOk, IsErrOf, IsTrue, OnOk, length};
ghost use Rattle.std.specs.List.{AllZip};
ghost use Rattle.chain.specs.Opening.{recorded_in};
ghost use Rattle.configurations.specs.Record.{AreMembers, Record};
ghost use Rattle.configurations.specs.Store.{HoldsNone};
ghost use Rattle.configurations.specs.declared.refusal.Refusal.TheVariants as config_refusals;
ghost use Rattle.disk_model.specs.Memory.{failures_of, given_of, most_failures_of, size_of};
ghost use Rattle.disk_model.specs.Part.{inside};
ghost use Rattle.life.specs.Managed.{config_part};
ghost use Rattle.life.specs.Recovered.{AreCausedBy, AreOpenedWell, AreSeen, AreStrangers, HasChain, IsChosen, IsRead, IsReadWell, IsSeenAs, IsSeenIf, IsUnwritten, IsWellAt, NoneReturns, StandsThere, is_opened};
ghost use Rattle.life.specs.Refusal.{IsCausedByConfig, IsOfCalmChoice, IsOfChoosing, IsOfLooking, IsOfMemory, IsOfReopening};
ghost use Rattle.local_store.specs.Refusal.{IsCaused, IsNotOfDevice};
ghost use Rattle.recovery.specs.Choice.{IsSource, NoneRecorded};

use crate::beginning::member_of;
use crate::managed::SlotDisk;
use crate::recovering::open_config;
use crate::refusal::Refusal;
use configurations::Record;
use disk_model::MemDisk;
use local_store::{Store, StoreLike, disks_mean_one, meanings_are_opened};
use recovery::{Returned, choose};
use std::alloc::Global;

/// The place of the source among these disks, of which those at the places `returned` come back: by the rule of recovery, and the record on the
/// configuration's disk. Each of them is opened and closed again; one that `Store::open` refuses with 131 to 133, or that is of incarnation 0, is
/// no member's. All disks are handed back: they were read and synced at most.
///
/// 191 `NoneReturned`: none of them comes back. 192 `NotInChain`: some do, and none is a member's of the recorded chain. 161 `NoRecord` where there
/// is no record; 100 `Memory`, and what a device refuses.
pub(crate) fn choose_among(
    alloc: Global,
    disks: Vec<SlotDisk<MemDisk>>,
    returned: &[usize],
    config: &mut MemDisk,
) -> (Result<usize, Refusal>, Vec<SlotDisk<MemDisk>>)
    ensures chosen { IfOk result.0 (λ place. (r : Record) × StandsThere config.old r × IsChosen returned.now disks.items r place) }
    ensures none { IsErrOf result.0 Refusal.NoneReturned → NoneReturns returned.now (length disks.items) }
    ensures some { IsErrOf result.0 Refusal.NotInChain → ¬ NoneReturns returned.now (length disks.items) }
    ensures strangers { IsErrOf result.0 Refusal.NotInChain → AreStrangers returned.now disks.items config.old }
    ensures missing { IsErrOf result.0 (Refusal.Config config_refusals.NoRecord) → (size_of config.old < 8192) ⊎ HoldsNone (inside config_part (given_of config.old)) }
    ensures told { IfErr result.0 IsOfChoosing }
    ensures back { AllZip IsRead disks.items result.1.items }
    ensures well { IfOk result.0 (IsWellAt disks.items result.1.items) }
    ensures reads { IsUnwritten config.old config.new }
    ensures size { size_of config.new ≡ size_of config.old }
    ensures config_well { OnOk result.0 (failures_of config.new ≡ failures_of config.old) }
    ensures config_most { most_failures_of config.new ≤ most_failures_of config.old }
    // A refusal is a device's only where that failed meanwhile.
    ensures cause { IfErr result.0 (AreCausedBy disks.items result.1.items) }
    ensures config_cause { IfErr result.0 (IsCausedByConfig (failures_of config.old) (failures_of config.new)) }
    ensures calm { HasChain config.old → All (λ d. failures_of d.disk ≡ most_failures_of d.disk) disks.items → failures_of config.old ≡ most_failures_of config.old → IfErr result.0 IsOfCalmChoice }
{
    let found = match open_config(alloc, config) {
        Ok(found) => found,
        Err(refusal) => return (Err(Refusal::Config(refusal)), disks),
    };
    if none_returns(returned, disks.len()) {
        return (Err(Refusal::NoneReturned), disks);
    }
    let (seen, disks) = look_at_all(alloc, disks, returned);
    let choice = match seen {
        Ok(seen) => source_among(found.current(), &seen),
        Err(refusal) => Err(refusal),
    };
    (choice, disks)
}

/// Whether no disk of so many comes back.
fn none_returns(returned: &[usize], many: usize) -> bool
    ensures { IsTrue result ↔ NoneReturns returned.now many }
{
    for place in 0..many {
        if returned.contains(&place) {
            return false;
        }
    }
    true
}

/// The place of the source among the disks that were seen so. 192 `NotInChain` where none is a member's of the chain.
fn source_among(chain: &Record, seen: &[Returned]) -> Result<usize, Refusal>
    ensures members { AreMembers chain.now.members }
    ensures source { IfOk result (IsSource chain.now.members seen.now) }
    ensures none { IfErr result (λ r. (r ≡ Refusal.NotInChain) × NoneRecorded chain.now.members seen.now) }
{
    let _ = chain.members();
    match choose(chain, seen) {
        Ok(source) => Ok(source.place),
        Err(_) => Err(Refusal::NotInChain),
    }
}

/// What these disks are, of which those at the places `returned` come back. All are handed back: they were read and synced at most.
fn look_at_all(
    alloc: Global,
    disks: Vec<SlotDisk<MemDisk>>,
    returned: &[usize],
) -> (Result<Vec<Returned>, Refusal>, Vec<SlotDisk<MemDisk>>)
    ensures seen { IfOk result.0 (λ seen. AreSeen returned.now disks.items seen.items) }
    ensures back { AllZip IsRead disks.items result.1.items }
    ensures well { IfOk result.0 (λ seen. AreOpenedWell disks.items result.1.items seen.items) }
    ensures told { IfErr result.0 IsOfLooking }
    ensures cause { IfErr result.0 (AreCausedBy disks.items result.1.items) }
    ensures calm { All (λ d. failures_of d.disk ≡ most_failures_of d.disk) disks.items → IfErr result.0 IsOfMemory }
{
    let Ok(mut seen) = Vec::with_capacity(alloc, disks.len()) else {
        return (Err(Refusal::Memory), disks);
    };
    let Ok(mut back) = Vec::with_capacity(alloc, disks.len()) else {
        return (Err(Refusal::Memory), disks);
    };
    let mut refused = None;
    for disk in disks {
        let returns = refused.is_none() && returned.contains(&back.len());
        let (found, disk) = look_at(alloc, disk, returns);
        back.push_reserved(disk);
        match found {
            Ok(found) => seen.push_reserved(found),
            Err(refusal) => refused = Some(refusal),
        }
    }
    match refused {
        Some(refusal) => (Err(Refusal::Store(refusal)), back),
        None => (Ok(seen), back),
    }
}

/// What a disk is, if it comes back: then it is opened, and closed again.
fn look_at(
    alloc: Global,
    disk: SlotDisk<MemDisk>,
    returns: bool,
) -> (Result<Returned, local_store::Refusal>, SlotDisk<MemDisk>)
    ensures seen { IfOk result.0 (IsSeenIf returns disk.disk) }
    ensures back { IsRead disk result.1 }
    ensures well { IfOk result.0 (λ seen. is_opened seen ≡ true → IsReadWell disk result.1) }
    ensures told { IfErr result.0 IsOfReopening }
    ensures cause { IfErr result.0 (IsCaused (failures_of disk.disk) (failures_of result.1.disk)) }
    ensures calm { failures_of disk.disk ≡ most_failures_of disk.disk → IfErr result.0 IsNotOfDevice }
{
    if !returns {
        return (Ok(Returned::Unopened), disk);
    }
    let SlotDisk { slot, disk } = disk;
    let (seen, disk) = open_and_close(alloc, disk);
    (seen, SlotDisk { slot, disk })
}

/// What a disk is. One that can't be opened, and one of incarnation 0, is no member's.
fn open_and_close(alloc: Global, disk: MemDisk) -> (Result<Returned, local_store::Refusal>, MemDisk)
    ensures seen { IfOk result.0 (IsSeenAs disk) }
    ensures reads { IsUnwritten disk result.1 }
    ensures well { IfOk result.0 (λ seen. is_opened seen ≡ true → (failures_of result.1 ≡ failures_of disk) × (most_failures_of result.1 ≤ most_failures_of disk)) }
    ensures told { IfErr result.0 IsOfReopening }
    ensures cause { IfErr result.0 (IsCaused (failures_of disk) (failures_of result.1)) }
    ensures calm { failures_of disk ≡ most_failures_of disk → IfErr result.0 IsNotOfDevice }
{
    disks_mean_one();
    meanings_are_opened();
    match Store::open(alloc, disk) {
        Ok(store) => (Ok(seen_as(&store)), store.into_disk()),
        Err((refusal, disk)) => match refusal {
            local_store::Refusal::NotAVolume
            | local_store::Refusal::OtherVersion
            | local_store::Refusal::Unfinished => (Ok(Returned::Unopened), disk),
            refusal => (Err(refusal), disk),
        },
    }
}

/// What the disk of a store is.
fn seen_as<S: StoreLike>(store: &S) -> Returned
    ensures none { (S.about store.now).incarnation ≡ 0 → result ≡ Returned.Unopened }
    ensures member { 0 < (S.about store.now).incarnation → result ≡ Returned.Opened (recorded_in S.about store.now) (S.about store.now).front }
{
    if store.incarnation() == 0 {
        return Returned::Unopened;
    }
    Returned::Opened {
        member: member_of(store),
        front: store.front(),
    }
}
