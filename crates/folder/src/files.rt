//! A folder of files, as disks. No contract can say what a file holds: what is done with the disks is done with disks of
//! any kind, by `restart` and `format_disks`.
ghost use Rattle.std.specs.Prelude.{◌≡◌, ◌⊎◌, ◌<◌, ◌≤◌, [], ◌∷◌, ◌++◌, All, Err, None, Ok, Some, IfErr, IfNone, IfOk, IfSome, IsErrAnd, OnOk, length, slice_get};
ghost use Rattle.std.specs.List.{range_with_len};
ghost use Rattle.disk_model.specs.File.{file_len};
ghost use Rattle.home_blocks.specs.Places.{disk_size_of};
ghost use Rattle.folder.specs.Files.{AreAscendingFrom, AreOpenings, IsFailureAmong, IsNotFound, OthersAreAbsent, disks_there, slots_there};
ghost use Rattle.folder.specs.Refusal.{IsOfFiles, IsOfFormatting};

use crate::formatting::{format_disks, slot_of};
use crate::restarting::{Opened, Refused};
use crate::{Failure, FileName, Layout, Refusal};
use disk_model::FileDisk;
use gate_journal::{PAIR_SIZE, Slot};
use local_store::{Store, StoreLike};
use std::alloc::{AllocError, Global};
use std::fs::{self, File, Files};
use std::io::{self, ErrorKind};

/// The disks of a folder: that of the configuration, and those of members, each with its slot.
#[derive(Drop)]
pub struct FolderDisks<D> {
    /// The configuration's disk.
    pub config: D,
    /// The slots of the members' disks, ascending.
    pub slots: Vec<Slot>,
    /// The members' disks, as many.
    pub disks: Vec<D>,
}

/// Formats a folder that is there: makes `config.disk` and the disks of the members, formats these, and records the first
/// chain last, as `format_disks` has it. Nothing is overwritten.
///
/// 104 `FileFault`, before any file is made, where one of them is there already, and where the system refuses one: the
/// files that were made stay. 100 `Memory`, and what a device refuses.
pub fn format<R: Files<File = File> + AllocGlobal>(
    rt: &R,
    dir: &str,
    layout: Layout,
) -> Result<(), Failure>
    ensures told { IfErr result (λ f. IsOfFormatting f.refusal) }
{
    for number in 0..layout.members {
        require_none(rt, dir, &FileName::Slot(slot_of(number)))?;
    }
    require_none(rt, dir, &FileName::Config)?;
    let mut files = create_all(rt, dir, layout)?;
    match format_disks(rt.alloc(), &mut files.config, &mut files.disks, layout) {
        Ok(()) => Ok(()),
        Err(unformatted) => Err(files.failure(unformatted.refusal, unformatted.fault)),
    }
}

/// Opens a folder's files: `config.disk`, and of the members' disks each that is there. The files are locked for as long as
/// the answer lives. `restart` goes on from them.
///
/// 104 `FileFault` where `config.disk` isn't there or the system refuses a file. 100 `Memory`.
pub fn open<R: Files<File = File> + AllocGlobal>(
    rt: &R,
    dir: &str,
) -> Result<FolderDisks<FileDisk>, Failure>
    ensures as_many { IfOk result (λ f. length f.slots.items ≡ length f.disks.items) }
    ensures ascending { IfOk result (λ f. AreAscendingFrom 0 f.slots.items) }
    ensures told { IfErr result (λ f. IsOfFiles f.refusal) }
{
    let config = open_file(rt, dir, &FileName::Config)?;
    let openings = open_slots(rt, dir)?;
    gather(rt.alloc(), config, openings)
}

/// Opens the disk of a slot, which has to be there. Its file is locked for as long as the answer lives.
///
/// 104 `FileFault` where it isn't there or the system refuses it. 100 `Memory`.
pub fn open_slot<R: Files<File = File> + AllocGlobal>(
    rt: &R,
    dir: &str,
    slot: Slot,
) -> Result<FileDisk, Failure>
    ensures told { IfErr result (λ f. IsOfFiles f.refusal) }
    ensures file { IfErr result (λ f. f.file ≡ FileName.Slot slot) }
{
    open_file(rt, dir, &FileName::Slot(slot))
}

/// Refuses a file that is there.
fn require_none<R: Files<File = File> + AllocGlobal>(
    rt: &R,
    dir: &str,
    file: &FileName,
) -> Result<(), Failure>
    ensures told { IfErr result (λ f. IsOfFiles f.refusal) }
    ensures file { IfErr result (λ f. f.file ≡ file.now) }
{
    let Ok(path) = file.path(rt.alloc(), dir) else {
        return Err(Failure::of_memory(*file));
    };
    match fs::exists(rt, path.as_str()) {
        Ok(false) => Ok(()),
        Ok(true) => {
            let reason = io::Error::from(ErrorKind::AlreadyExists);
            Err(Failure::of_file(*file, reason))
        }
        Err(reason) => Err(Failure::of_file(*file, reason)),
    }
}

/// Makes the files of a layout: that of the configuration, and those of the members, at the slots from 0 up.
fn create_all<R: Files<File = File> + AllocGlobal>(
    rt: &R,
    dir: &str,
    layout: Layout,
) -> Result<FolderDisks<FileDisk>, Failure>
    ensures config { IfOk result (λ f. file_len f.config ≡ PAIR_SIZE) }
    ensures slots { IfOk result (λ f. f.slots.items ≡ range_with_len 0 layout.members) }
    ensures as_many { IfOk result (λ f. length f.disks.items ≡ layout.members) }
    ensures long { IfOk result (λ f. All (λ disk. disk_size_of layout.geometry ≤ file_len disk) f.disks.items) }
    ensures told { IfErr result (λ f. IsOfFiles f.refusal) }
{
    let mut files = FolderDisks {
        config: create(rt, dir, &FileName::Config, PAIR_SIZE)?,
        slots: Vec::new(rt.alloc()),
        disks: Vec::new(rt.alloc()),
    };
    for number in 0..layout.members {
        let file = FileName::Slot(slot_of(number));
        let disk = create(rt, dir, &file, layout.disk_size())?;
        let Ok(()) = files.add(slot_of(number), disk) else {
            return Err(Failure::of_memory(file));
        };
    }
    Ok(files)
}

/// Makes a file of zeros.
fn create<R: Files<File = File> + AllocGlobal>(
    rt: &R,
    dir: &str,
    file: &FileName,
    len: u64,
) -> Result<FileDisk, Failure>
    ensures len { IfOk result (λ disk. file_len disk ≡ len) }
    ensures told { IfErr result (λ f. IsOfFiles f.refusal) }
    ensures file { IfErr result (λ f. f.file ≡ file.now) }
{
    let Ok(path) = file.path(rt.alloc(), dir) else {
        return Err(Failure::of_memory(*file));
    };
    match FileDisk::create(rt, path.as_str(), len) {
        Ok(disk) => Ok(disk),
        Err(reason) => Err(Failure::of_file(*file, reason)),
    }
}

/// Opens a file that has to be there.
fn open_file<R: Files<File = File> + AllocGlobal>(
    rt: &R,
    dir: &str,
    file: &FileName,
) -> Result<FileDisk, Failure>
    ensures told { IfErr result (λ f. IsOfFiles f.refusal) }
    ensures file { IfErr result (λ f. f.file ≡ file.now) }
{
    let Ok(path) = file.path(rt.alloc(), dir) else {
        return Err(Failure::of_memory(*file));
    };
    match FileDisk::open(rt, path.as_str()) {
        Ok(disk) => Ok(disk),
        Err(reason) => Err(Failure::of_file(*file, reason)),
    }
}

/// Opens the file of each slot: what came of it, slot by slot.
fn open_slots<R: Files<File = File> + AllocGlobal>(
    rt: &R,
    dir: &str,
) -> Result<Vec<Result<FileDisk, Failure>>, Failure>
    ensures all { IfOk result (λ openings. length openings.items ≡ Slot.COUNT) }
    ensures each { IfOk result (λ openings. AreOpenings 0 openings.items) }
    ensures told { IfErr result (λ f. IsOfFiles f.refusal) }
{
    let mut openings = Vec::new(rt.alloc());
    for number in 0..Slot::COUNT {
        let file = FileName::Slot(slot_of(number));
        let Ok(()) = openings.push(open_file(rt, dir, &file)) else {
            return Err(Failure::of_memory(file));
        };
    }
    Ok(openings)
}

/// The disks of a folder, of what came of opening the files of its slots: each that is there. Every other isn't there.
///
/// It fails as the first file did that failed in another way, and for memory.
fn gather<D: Drop>(
    alloc: Global,
    config: D,
    openings: Vec<Result<D, Failure>>,
) -> Result<FolderDisks<D>, Failure>
    requires few { length openings.items ≤ 8 }
    requires each { AreOpenings 0 openings.items }
    ensures config { IfOk result (λ f. f.config ≡ config) }
    ensures disks { IfOk result (λ f. f.disks.items ≡ disks_there openings.items) }
    ensures slots { IfOk result (λ f. f.slots.items ≡ slots_there 0 openings.items) }
    ensures others { OnOk result (OthersAreAbsent openings.items) }
    ensures as_many { IfOk result (λ f. length f.slots.items ≡ length f.disks.items) }
    ensures ascending { IfOk result (λ f. AreAscendingFrom 0 f.slots.items) }
    ensures failed { IfErr result (λ f. (f.refusal ≡ Refusal.Memory) ⊎ IsFailureAmong openings.items f) }
    ensures told { IfErr result (λ f. IsOfFiles f.refusal) }
{
    let mut files = FolderDisks {
        config,
        slots: Vec::new(alloc),
        disks: Vec::new(alloc),
    };
    let mut number = 0;
    for opened in openings {
        files.take(slot_of(number), opened)?;
        number += 1;
    }
    Ok(files)
}

/// The disk of a file that was opened, or none where the system said that there is no such file.
fn if_there<D: Drop>(opened: Result<D, Failure>) -> Result<Option<D>, Failure>
    ensures there { IfOk result (λ one. IfSome one (λ disk. opened ≡ Ok disk)) }
    ensures absent { IfOk result (λ one. IfNone one (IsErrAnd opened IsNotFound)) }
    ensures failed { IfErr result (λ failure. (opened ≡ Err failure) × ¬ IsNotFound failure) }
{
    match opened {
        Ok(disk) => Ok(Some(disk)),
        Err(failure) => {
            if failure.is_not_found() {
                Ok(None)
            } else {
                Err(failure)
            }
        }
    }
}

impl<D: Drop> FolderDisks<D> {
    ghost use Rattle.std.specs.Prelude.{◌≡◌, ◌⊎◌, [], ◌∷◌, ◌++◌, Err, IfErr, OnOk};
    ghost use Rattle.folder.specs.Files.{IsNotFound, disks_there, slots_there};

    /// What came of opening the file of a slot: its disk, if it is there.
    ///
    /// It fails as the file did, unless that isn't there, and for memory.
    fn take(&mut self, slot: Slot, opened: Result<D, Failure>) -> Result<(), Failure>
        ensures config { self.new.config ≡ self.old.config }
        ensures disks { OnOk result (self.new.disks.items ≡ self.old.disks.items ++ disks_there (opened ∷ [])) }
        ensures slots { OnOk result (self.new.slots.items ≡ self.old.slots.items ++ slots_there slot (opened ∷ [])) }
        ensures other { OnOk result (IfErr opened IsNotFound) }
        ensures failed { IfErr result (λ f. (f.refusal ≡ Refusal.Memory) ⊎ ((opened ≡ Err f) × ¬ IsNotFound f)) }
    {
        match if_there(opened) {
            Ok(Some(disk)) => {
                if self.add(slot, disk).is_err() {
                    return Err(Failure::of_memory(FileName::Slot(slot)));
                }
                Ok(())
            }
            Ok(None) => Ok(()),
            Err(failure) => Err(failure),
        }
    }

    /// A member's disk more.
    fn add(&mut self, slot: Slot, disk: D) -> Result<(), AllocError>
        ensures config { self.new.config ≡ self.old.config }
        ensures slot { OnOk result (self.new.slots.items ≡ self.old.slots.items ++ slot ∷ []) }
        ensures disk { OnOk result (self.new.disks.items ≡ self.old.disks.items ++ disk ∷ []) }
    {
        self.slots.push(slot)?;
        self.disks.push(disk)?;
        Ok(())
    }
}

impl FolderDisks<FileDisk> {
    ghost use Rattle.std.specs.Prelude.{◌≡◌, IfNone, IfSome, slice_get};

    /// A refusal at one of the disks, by its place, or at that of the configuration.
    fn failure(&self, refusal: Refusal, fault: Option<usize>) -> Failure
        ensures refusal { result.refusal ≡ refusal }
        ensures member { IfSome fault (λ place. IfSome (slice_get self.now.slots.items place) (λ slot. result.file ≡ FileName.Slot slot)) }
        ensures config { IfNone fault (result.file ≡ FileName.Config) }
    {
        blamed(&self.slots, refusal, fault, &self.config, &self.disks)
    }
}

impl Opened<FileDisk> {
    ghost use Rattle.std.specs.Prelude.{◌≡◌};

    /// What a refusal of the source's store tells of its file.
    pub fn failure(&self, refusal: local_store::Refusal) -> Failure
        ensures refusal { result.refusal ≡ Refusal.Store refusal }
        ensures source { result.file ≡ FileName.Slot (⟦<Store<FileDisk> as StoreLike>⟧.about self.now.store).slot }
    {
        let file = FileName::Slot(self.source());
        Failure::of_disk(file, Refusal::Store(refusal), self.store.disk())
    }
}

impl Refused<FileDisk> {
    ghost use Rattle.std.specs.Prelude.{◌≡◌, IfNone, IfSome, slice_get};

    /// What it tells of the files of these slots.
    pub fn failure(&self, slots: &[Slot]) -> Failure
        ensures refusal { result.refusal ≡ self.now.refusal }
        ensures member { IfSome self.now.fault (λ place. IfSome (slice_get slots.now place) (λ slot. result.file ≡ FileName.Slot slot)) }
        ensures config { IfNone self.now.fault (result.file ≡ FileName.Config) }
    {
        blamed(slots, self.refusal, self.fault, &self.config, &self.disks)
    }
}

/// Which file a refusal is of, and what the system said of it.
fn blamed(
    slots: &[Slot],
    refusal: Refusal,
    fault: Option<usize>,
    config: &FileDisk,
    disks: &[FileDisk],
) -> Failure
    ensures refusal { result.refusal ≡ refusal }
    ensures member { IfSome fault (λ place. IfSome (slice_get slots.now place) (λ slot. result.file ≡ FileName.Slot slot)) }
    ensures config { IfNone fault (result.file ≡ FileName.Config) }
{
    let Some(place) = fault else {
        return Failure::of_disk(FileName::Config, refusal, config);
    };
    let file = match slots.get(place) {
        Some(slot) => FileName::Slot(*slot),
        None => FileName::Config,
    };
    Failure::of_disk(file, refusal, disks.get(place).unwrap_or(config))
}
