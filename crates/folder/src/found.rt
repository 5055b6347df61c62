//! The disks that returned, opened.
ghost use Rattle.std.specs.Prelude.{◌≡◌, ℕ, List, [], ◌≤◌, All, map, length, vec_capacity, IfErr, IfNone, IfOk, IfSome, IsNone, IsSome};
ghost use Rattle.std.specs.List.{AllZip};
ghost use Rattle.gate_journal.specs.Runs.{OnlyReads};
ghost use Rattle.local_store.specs.Refusal.{IsCaused};
ghost use Rattle.folder.specs.Found.{IsFault, IsFound, MayRun, disk_in};
ghost use Rattle.folder.specs.Refusal.{IsOfFinding};

use crate::Refusal;
use disk_model::Disk;
use local_store::{Store, StoreLike, disks_mean_one, meanings_are_opened};
use std::alloc::Global;

/// What was found on a disk that returned.
#[derive(Drop)]
pub(crate) enum OnDisk<S, D> {
    /// The store of the volume that it means.
    Volume(S),
    /// No volume: the disk.
    Nothing(D),
}

/// The first of the disks that couldn't be read: its place, and why.
#[derive(Drop)]
pub(crate) struct Fault {
    pub(crate) place: usize,
    pub(crate) refusal: local_store::Refusal,
}

/// All disks that returned, and which of them couldn't be read. Those before it were opened, and those behind it weren't.
#[derive(Drop)]
pub(crate) struct Unfound<D: Disk> {
    pub(crate) each: Vec<OnDisk<Store<D>, D>>,
    pub(crate) fault: Fault,
}

/// What is on each disk that returned: its store, or nothing where the disk means no volume of an incarnation that disks
/// are given. They are only read. There is room for what is found.
///
/// 100 `Memory`, and what a device refuses.
pub(crate) fn find_all<D: Disk + Drop>(
    alloc: Global,
    disks: Vec<D>,
    room: Vec<OnDisk<Store<D>, D>>,
) -> Result<Vec<OnDisk<Store<D>, D>>, Unfound<D>>
    requires empty { room.items ≡ [] }
    requires enough { length disks.items ≤ vec_capacity room }
    ensures found { D.keeps_model → IfOk result (λ found. AllZip
        (IsFound ⟦<Store<D> as StoreLike>⟧.about ⟦<Store<D> as StoreLike>⟧.keeps) (map D.gives disks.items) found.items) }
    ensures reads { D.keeps_model → IfOk result (λ found. AllZip
        (λ disk one. OnlyReads D.gives D.may_leave_now D.moment D.may_have_left_since disk (disk_in one (λ s. s.disk))) disks.items found.items) }
    ensures running { IfOk result (λ found. All (MayRun ⟦<Store<D> as StoreLike>⟧.about) found.items) }
    ensures as_many { IfOk result (λ found. length found.items ≡ length disks.items) }
    ensures back { D.keeps_model → IfErr result (λ e. AllZip
        (λ disk one. OnlyReads D.gives D.may_leave_now D.moment D.may_have_left_since disk (disk_in one (λ s. s.disk))) disks.items e.each.items) }
    ensures all_back { IfErr result (λ e. length e.each.items ≡ length disks.items) }
    ensures told { IfErr result (λ e. IsOfFinding (Refusal.Store e.fault.refusal)) }
    ensures fault { IfErr result (λ e. IsFault D.failures disks.items (map (λ one. disk_in one (λ s. s.disk)) e.each.items) e.fault.place (Refusal.Store e.fault.refusal)) }
{
    let mut found = room;
    let mut fault = None;
    for disk in disks {
        let place = found.len();
        found.push_reserved(find_next(alloc, disk, place, &mut fault));
    }
    match fault {
        None => Ok(found),
        Some(fault) => Err(Unfound { each: found, fault }),
    }
}

/// What is on the disk at this place, unless a disk before it couldn't be read: then it is left alone.
fn find_next<D: Disk + Drop>(
    alloc: Global,
    disk: D,
    place: usize,
    fault: &mut Option<Fault>,
) -> OnDisk<Store<D>, D>
    ensures found { D.keeps_model → IsNone fault.new
        → IsFound ⟦<Store<D> as StoreLike>⟧.about ⟦<Store<D> as StoreLike>⟧.keeps (D.gives disk) result }
    ensures reads { D.keeps_model → OnlyReads D.gives D.may_leave_now D.moment D.may_have_left_since disk (disk_in result (λ s. s.disk)) }
    ensures running { MayRun ⟦<Store<D> as StoreLike>⟧.about result }
    ensures first { IsNone fault.new → IsNone fault.old }
    ensures kept { IsSome fault.old → fault.new ≡ fault.old }
    ensures told { IsNone fault.old → IfSome fault.new (λ f. IsOfFinding (Refusal.Store f.refusal)) }
    ensures place { IsNone fault.old → IfSome fault.new (λ f. f.place ≡ place) }
    ensures cause { IsNone fault.old → IfSome fault.new (λ f. IsCaused (D.failures disk) (D.failures (disk_in result (λ s. s.disk))) f.refusal) }
{
    if fault.is_some() {
        return OnDisk::Nothing(disk);
    }
    match find(alloc, disk) {
        Ok(one) => one,
        Err((refusal, disk)) => {
            *fault = Some(Fault { place, refusal });
            OnDisk::Nothing(disk)
        }
    }
}

/// What is on a disk that returned: its store, or nothing where the disk means no volume of an incarnation that disks are
/// given. It is only read.
///
/// What it is refused with hands the disk back: out of memory, and what the device refuses.
fn find<D: Disk + Drop>(
    alloc: Global,
    disk: D,
) -> Result<OnDisk<Store<D>, D>, (local_store::Refusal, D)>
    ensures found { D.keeps_model
        → IfOk result (IsFound ⟦<Store<D> as StoreLike>⟧.about ⟦<Store<D> as StoreLike>⟧.keeps (D.gives disk)) }
    ensures reads { D.keeps_model → IfOk result
        (λ one. OnlyReads D.gives D.may_leave_now D.moment D.may_have_left_since disk (disk_in one (λ s. s.disk))) }
    ensures back { D.keeps_model → IfErr result
        (λ e. OnlyReads D.gives D.may_leave_now D.moment D.may_have_left_since disk e.1) }
    ensures running { IfOk result (MayRun ⟦<Store<D> as StoreLike>⟧.about) }
    ensures told { IfErr result (λ e. IsOfFinding (Refusal.Store e.0)) }
    ensures cause { IfErr result (λ e. IsCaused (D.failures disk) (D.failures e.1) e.0) }
{
    meanings_are_opened();
    disks_mean_one();
    match Store::open(alloc, disk) {
        Ok(store) => {
            if store.incarnation() == 0 {
                Ok(OnDisk::Nothing(store.into_disk()))
            } else {
                Ok(OnDisk::Volume(store))
            }
        }
        Err((refusal, disk)) => match refusal {
            local_store::Refusal::NotAVolume
            | local_store::Refusal::OtherVersion
            | local_store::Refusal::Unfinished => Ok(OnDisk::Nothing(disk)),
            _ => Err((refusal, disk)),
        },
    }
}

/// The disks on which this was found, in their order. There is room for them.
pub(crate) fn all_disks<D: Disk + Drop>(found: Vec<OnDisk<Store<D>, D>>, room: Vec<D>) -> Vec<D>
    requires empty { room.items ≡ [] }
    requires enough { length found.items ≤ vec_capacity room }
    ensures { result.items ≡ map (λ one. disk_in one (λ s. s.disk)) found.items }
{
    let mut disks = room;
    for one in found {
        disks.push_reserved(one.into_disk());
    }
    disks
}

impl<D: Disk + Drop> OnDisk<Store<D>, D> {
    ghost use Rattle.std.specs.Prelude.{◌≡◌};
    ghost use Rattle.folder.specs.Found.{disk_in};

    /// The disk.
    fn into_disk(self) -> D
        ensures { result ≡ disk_in self (λ s. s.disk) }
    {
        match self {
            OnDisk::Volume(store) => store.into_disk(),
            OnDisk::Nothing(disk) => disk,
        }
    }
}
