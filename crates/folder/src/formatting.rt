//! How the disks of a folder are formatted.
ghost use Rattle.std.specs.Prelude.{◌≡◌, ◌⊎◌, ◌<◌, ◌≤◌, ℕ, List, All, length, IfErr, IfNone, IfOk, IfSome, IsErrOf, IsSome, OnOk};
ghost use Rattle.configurations.specs.Refusal as chain;
ghost use Rattle.disk_model.specs.Disk.{LeavesOnly};
ghost use Rattle.home_blocks.specs.Places.{disk_size_of};
ghost use Rattle.local_store.specs.Meaning.{Means};
ghost use Rattle.local_store.specs.Refusal as store;
ghost use Rattle.local_store.specs.declared.refusal.Refusal.TheVariants.{Memory};
ghost use Rattle.folder.specs.Chain as records;
ghost use Rattle.folder.specs.Chain.{HasRecord, IsBeingRecorded};
ghost use Rattle.folder.specs.Disks.{blank_meaning};
ghost use Rattle.folder.specs.Files.{AreBlank};
ghost use Rattle.folder.specs.Found.{IsFault};
ghost use Rattle.folder.specs.Refusal.{IsCausedBy, IsOfFormatting};

use crate::{Layout, Refusal};
use configurations::{ConfigStore, Epoch, Incarnation, Member, Record};
use disk_model::{Disk, Part};
use gate_journal::{PAIR_SIZE, Slot};
use local_store::Contents;
use std::alloc::{AllocError, Global};
use volume::Geometry;

/// The incarnation of a disk that was formatted.
const FIRST_INCARNATION: u64 = 1;

/// The epoch of a folder that was formatted.
const FIRST_EPOCH: u64 = 1;

/// The part of the configuration's disk that has the record: its first 8,192 bytes.
pub fn config_part() -> Part
    ensures { result ≡ records.config_part }
{
    Part::new(0, PAIR_SIZE)
}

/// Why the disks of a folder weren't formatted.
#[derive(Debug, Drop)]
pub struct Unformatted {
    /// The refusal.
    pub refusal: Refusal,
    /// The place of the member's disk that is at fault, where it isn't that of the configuration.
    pub fault: Option<usize>,
}

/// Formats the disks of a folder: those of its members, at the slots from 0 up, and then that of the configuration. So the
/// first record stands only where the members' disks are formatted.
///
/// 100 `Memory`, and what a device refuses: then the configuration's disk is as it was, unless all others are formatted. It
/// is for disks that nobody needs any more.
pub fn format_disks<D: Disk>(
    alloc: Global,
    config: &mut D,
    disks: &mut [D],
    layout: Layout,
) -> Result<(), Unformatted>
    requires room { PAIR_SIZE ≤ D.size config.old }
    requires as_many { length disks.old ≡ layout.members }
    requires long { All (λ disk. disk_size_of layout.geometry ≤ D.size disk) disks.old }
    ensures members { D.keeps_model → OnOk result (AreBlank D.may_leave_now layout.geometry disks.new) }
    ensures recorded { D.keeps_model → OnOk result ((c : List ℕ) → D.may_leave_now config.new c → HasRecord (records.first_record layout.members) c) }

    // The record is made last.
    ensures last { D.keeps_model → (config.new ≡ config.old) ⊎ AreBlank D.may_leave_now layout.geometry disks.new }
    ensures any_moment { D.keeps_model → LeavesOnly D.moment D.may_have_left_since config.old config.new
        (IsBeingRecorded (records.first_record layout.members) (D.may_leave_now config.old)) }

    ensures told { IfErr result (λ e. IsOfFormatting e.refusal) }
    ensures fault { IfErr result (λ e. IfSome e.fault (λ place. IsFault D.failures disks.old disks.new place e.refusal)) }
    ensures cause { IfErr result (λ e. IfNone e.fault (IsCausedBy (D.failures config.old) (D.failures config.new) e.refusal)) }
{
    format_members(alloc, disks, layout.geometry)?;
    match format_config(alloc, config, layout.members) {
        Ok(()) => Ok(()),
        Err(refusal) => Err(Unformatted {
            refusal: Refusal::Chain(refusal),
            fault: None,
        }),
    }
}

/// Formats the members' disks, at most 8, at the slots from 0 up.
///
/// 100 `Memory`, and what a device refuses: its place is told.
fn format_members<D: Disk>(
    alloc: Global,
    disks: &mut [D],
    geometry: Geometry,
) -> Result<(), Unformatted>
    requires few { length disks.old ≤ 8 }
    requires long { All (λ disk. disk_size_of geometry ≤ D.size disk) disks.old }
    ensures blank { D.keeps_model → OnOk result (AreBlank D.may_leave_now geometry disks.new) }
    ensures told { IfErr result (λ e. IsOfFormatting e.refusal) }
    ensures place { IfErr result (λ e. IsSome e.fault) }
    ensures fault { IfErr result (λ e. IfSome e.fault (λ place. IsFault D.failures disks.old disks.new place e.refusal)) }
{
    for place in 0..disks.len() {
        let slot = slot_of(place as u8);
        if let Err(refusal) = format_member(alloc, &mut disks[place], slot, geometry) {
            return Err(Unformatted {
                refusal: Refusal::Store(refusal),
                fault: Some(place),
            });
        }
    }
    Ok(())
}

/// Formats the disk of the configuration, of at least 8,192 bytes: after it a stop leaves the first record, of epoch 1,
/// with so many members, 1 to 8, at the slots from 0 up.
///
/// 100 `Memory`, which changes nothing, and what the device refuses. It is for a disk that nobody needs any more.
pub fn format_config<D: Disk>(
    alloc: Global,
    disk: &mut D,
    members: u8,
) -> Result<(), configurations::Refusal>
    requires some { 0 < members }
    requires few { members ≤ 8 }
    requires room { PAIR_SIZE ≤ D.size disk.old }
    ensures gives { D.keeps_model → OnOk result (HasRecord (records.first_record members) (D.gives disk.new)) }
    ensures leaves { D.keeps_model
        → OnOk result ((c : List ℕ) → D.may_leave_now disk.new c → HasRecord (records.first_record members) c) }
    ensures any_moment { D.keeps_model → LeavesOnly D.moment D.may_have_left_since disk.old disk.new
        (IsBeingRecorded (records.first_record members) (D.may_leave_now disk.old)) }
    ensures size { D.size disk.new ≡ D.size disk.old }
    ensures told { IfErr result chain.IsOfCreating }
    ensures unchanged { IfErr result (λ r. ¬ chain.IsOfDevice r → disk.new ≡ disk.old) }
    ensures cause { chain.HasCause (D.failures disk.old) (D.failures disk.new) result }
{
    let first = first_record(alloc, members)?;
    ConfigStore::create(alloc, disk, config_part(), first)?;
    Ok(())
}

/// Formats the disk of the member at a slot, of at least `disk_size(geometry)` bytes: after it a stop leaves a volume of
/// zeros at front 0.
///
/// 100 `Memory`, which changes nothing, and what the device refuses. It is for a disk that nobody needs any more.
pub fn format_member<D: Disk>(
    alloc: Global,
    disk: &mut D,
    slot: Slot,
    geometry: Geometry,
) -> Result<(), local_store::Refusal>
    requires { disk_size_of geometry ≤ D.size disk.old }
    ensures gives { D.keeps_model → OnOk result (Means (blank_meaning slot geometry) (D.gives disk.new)) }
    ensures leaves { D.keeps_model
        → OnOk result ((c : List ℕ) → D.may_leave_now disk.new c → Means (blank_meaning slot geometry) c) }
    ensures size { D.size disk.new ≡ D.size disk.old }
    ensures told { IfErr result store.IsOfFormatting }
    ensures unchanged { IsErrOf result Memory → disk.new ≡ disk.old }
    ensures cause { store.HasCause (D.failures disk.old) (D.failures disk.new) result }
{
    Contents::format(alloc, disk, slot, FIRST_INCARNATION, geometry)?;
    Ok(())
}

/// The record of so many members, 1 to 8, at the slots from 0 up, whose disks were formatted.
fn first_record(alloc: Global, members: u8) -> Result<Record, AllocError>
    requires some { 0 < members }
    requires few { members ≤ 8 }
    ensures { IfOk result (λ r. r ≡ records.first_record members) }
{
    let mut chain = Vec::new(alloc);
    for number in 0..members {
        chain.push(first_member(number))?;
    }
    match Record::new(Epoch::new(FIRST_EPOCH).unwrap(), chain) {
        Ok(record) => Ok(record),
        Err(_) => unreachable!(),
    }
}

/// The member at the slot of this number, below 8, whose disk was formatted.
fn first_member(number: u8) -> Member
    requires { number < 8 }
    ensures { result ≡ records.first_member number }
{
    Member {
        slot: slot_of(number),
        incarnation: Incarnation::new(FIRST_INCARNATION).unwrap(),
    }
}

/// The slot of a number below 8.
pub(crate) fn slot_of(number: u8) -> Slot
    requires { number < 8 }
    ensures { result ≡ number }
{
    Slot::new(number).unwrap()
}
