//! The choice of the disk that a chain goes on from.
ghost use Rattle.std.specs.Prelude.{◌≡◌, ◌≢◌, ◌+◌, ◌≤◌, ℕ, [], false, All, Some, map, length, slice_get, vec_capacity, IfErr, IfOk, IsErrOf, IsTrue, OnOk};
ghost use Rattle.std.specs.List.{remove};
ghost use Rattle.recovery.specs.Choice.{IsSource, NoneRecorded};
ghost use Rattle.recovery.specs.declared.refusal.Refusal.TheVariants.{NoneReturned, NotInChain};
ghost use Rattle.folder.specs.Chain.{LeavesOut, MayGoOn};
ghost use Rattle.folder.specs.Found.{IsLeavingOut, IsMemberAt, IsRunning, IsVolumeAt, MayRun, disk_in, member_in, returned_as};
ghost use Rattle.folder.specs.Refusal.{IsOfAllowing, IsOfChoosing};

use crate::Refusal;
use crate::found::{OnDisk, all_disks};
use configurations::{Incarnation, Member, Record};
use disk_model::Disk;
use local_store::{Store, StoreLike};
use recovery::{Returned, choose};
use std::alloc::{AllocError, Global};

/// The place of a disk among those that returned, and the member whose it is.
#[derive(Drop)]
pub(crate) struct Chosen {
    pub(crate) place: usize,
    pub(crate) member: Member,
}

/// The disk that the recorded chain goes on from, as `choose_from` has it. Where the chain has other members, it goes on only
/// if it was asked to go on alone.
///
/// 193 `OthersRecorded`, behind the choice: the chain has other members, and nobody asked. Else as `choose_from`.
pub(crate) fn choose_allowed<S: StoreLike + Drop, D: Drop>(
    alloc: Global,
    recorded: &Record,
    found: &[OnDisk<S, D>],
    alone: bool,
) -> Result<Chosen, Refusal>
    requires { All (MayRun S.about) found.now }
    ensures member { IfOk result (λ c. IsMemberAt S.about found.now c.place c.member) }
    ensures source { IfOk result (λ c. IsSource recorded.now.members (map (returned_as S.about) found.now) c.place) }
    ensures allowed { OnOk result (MayGoOn alone recorded.now) }
    ensures others { IsErrOf result Refusal.OthersRecorded → IsLeavingOut S.about alone recorded.now found.now }
    ensures none { IsErrOf result (Refusal.Choice NoneReturned) → found.now ≡ [] }
    ensures some { IsErrOf result (Refusal.Choice NotInChain) → found.now ≢ [] }
    ensures strangers { IsErrOf result (Refusal.Choice NotInChain)
        → NoneRecorded recorded.now.members (map (returned_as S.about) found.now) }
    ensures told { IfErr result IsOfAllowing }
{
    let chosen = choose_from(alloc, recorded, found)?;
    if leaves_out(alone, recorded) {
        return Err(Refusal::OthersRecorded);
    }
    Ok(chosen)
}

/// Whether to go on with one member would leave others of the chain out unasked.
fn leaves_out(alone: bool, recorded: &Record) -> bool
    ensures out { IsTrue result → LeavesOut alone recorded.now }
    ensures allowed { result ≡ false → MayGoOn alone recorded.now }
{
    !alone && recorded.members().len() > 1
}

/// The disk that the recorded chain goes on from, by the rule of recovery.
///
/// 191 `NoneReturned`: no disk returned. 192 `NotInChain`: none of them is a disk of the chain. 100 `Memory`.
pub(crate) fn choose_from<S: StoreLike + Drop, D: Drop>(
    alloc: Global,
    recorded: &Record,
    found: &[OnDisk<S, D>],
) -> Result<Chosen, Refusal>
    requires { All (MayRun S.about) found.now }
    ensures member { IfOk result (λ c. IsMemberAt S.about found.now c.place c.member) }
    ensures source { IfOk result (λ c. IsSource recorded.now.members (map (returned_as S.about) found.now) c.place) }
    ensures none { IsErrOf result (Refusal.Choice NoneReturned) → found.now ≡ [] }
    ensures some { IsErrOf result (Refusal.Choice NotInChain) → found.now ≢ [] }
    ensures strangers { IsErrOf result (Refusal.Choice NotInChain)
        → NoneRecorded recorded.now.members (map (returned_as S.about) found.now) }
    ensures told { IfErr result IsOfChoosing }
{
    let returned = all_returned(alloc, found)?;
    let source = match choose(recorded, &returned) {
        Ok(source) => source,
        Err(refusal) => return Err(Refusal::Choice(refusal)),
    };
    let place = source.place;
    match &found[place] {
        OnDisk::Volume(store) => Ok(Chosen {
            place,
            member: member_of(store),
        }),
        OnDisk::Nothing(_) => unreachable!(),
    }
}

/// The store at a place, and the other disks, in their order. There is room for them.
pub(crate) fn take_store<D: Disk + Drop>(
    found: Vec<OnDisk<Store<D>, D>>,
    place: usize,
    room: Vec<D>,
) -> (Store<D>, Vec<D>)
    requires there { IsVolumeAt found.items place }
    requires empty { room.items ≡ [] }
    requires enough { length found.items ≤ vec_capacity room }
    ensures store { slice_get found.items place ≡ Some (OnDisk.Volume result.0) }
    ensures others { result.1.items ≡ map (λ one. disk_in one (λ s. s.disk)) (remove found.items place) }
{
    let mut found = found;
    match found.remove(place) {
        OnDisk::Volume(store) => (store, all_disks(found, room)),
        OnDisk::Nothing(_) => unreachable!(),
    }
}

/// What is told of the disks to the rule of recovery.
fn all_returned<S: StoreLike, D>(
    alloc: Global,
    found: &[OnDisk<S, D>],
) -> Result<Vec<Returned>, AllocError>
    requires { All (MayRun S.about) found.now }
    ensures { IfOk result (λ returned. returned.items ≡ map (returned_as S.about) found.now) }
{
    let mut returned = Vec::new(alloc);
    for one in found {
        returned.push(returned_by(one))?;
    }
    Ok(returned)
}

/// What is told of a disk to the rule of recovery.
fn returned_by<S: StoreLike, D>(found: &OnDisk<S, D>) -> Returned
    requires { MayRun S.about found.now }
    ensures { result ≡ returned_as S.about found.now }
{
    match found {
        OnDisk::Volume(store) => Returned::Opened {
            member: member_of(store),
            front: store.front(),
        },
        OnDisk::Nothing(_) => Returned::Unopened,
    }
}

/// The member whose store this is.
fn member_of<S: StoreLike>(store: &S) -> Member
    requires { IsRunning S.about store.now }
    ensures { result ≡ member_in (S.about store.now) }
{
    Member {
        slot: store.slot(),
        incarnation: Incarnation::new(store.incarnation()).unwrap(),
    }
}
