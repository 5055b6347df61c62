//! Everything stops.
ghost use Rattle.std.specs.Prelude.{◌≡◌, ◌++◌, ◌+◌, ◌≤◌, IfOk, IfSome, List, OnOk, vec_capacity, vec_len};
ghost use Rattle.std.specs.List.{AllZip};
ghost use Rattle.std.specs.Option.{option_to_list};
ghost use Rattle.chain_core.specs.Node.{IsRunning};
ghost use Rattle.life.specs.Aside.{IsRefusedLeft, IsSetAside, IsStoreLeft};
ghost use Rattle.life.specs.Begun.{IsCut};
ghost use Rattle.life.specs.Plays.{AreCut, IsCutAt, IsCutOutside};
ghost use Rattle.life.specs.Recovered.{IsCutAnew};

use crate::managed::{ManagedWorld, SlotDisk};
use candidate::{Candidate, Refused};
use disk_model::{Cut, MemDisk};
use local_store::{Store, StoreLike, disks_mean_one};
use std::alloc::{AllocError, Global};

/// The disks that a cut left.
#[derive(Drop)]
pub struct Disks {
    /// Those of the slots: the members', in the order of their places, then that of who joins, if somebody does, then those outside, and what is
    /// left of the one on its way.
    pub slots: Vec<SlotDisk<MemDisk>>,
    /// The configuration's.
    pub config: MemDisk,
}

/// Everything stops: the members' disks, in the order of their places, behind them that of who joins, if somebody does, those outside, what is
/// left of the one on its way, and the configuration's, each with the content that the cut leaves, which is one that a stop now may leave.
///
/// Where memory runs out, the disks are dropped.
pub fn cut(
    alloc: Global,
    managed: ManagedWorld<Store<MemDisk>, MemDisk>,
    cut: Cut,
) -> Result<Disks, AllocError>
    ensures { IfOk result (λ disks. AreCut ⟦<Store<MemDisk> as StoreLike>⟧.about ⟦<Store<MemDisk> as StoreLike>⟧.may_leave_now (λ s. s.disk) cut managed disks.slots.items disks.config) }
{
    let ManagedWorld {
        world,
        management,
        candidate,
        outside,
    } = managed;
    let config = cut_one(management.into_disk(), cut);
    let next = world.recorded().epoch().number() + 1;
    let left = left_of(candidate, next);
    let given = with_left(outside, left);
    let (stores, joiner) = world.abandon()?;
    let outside = given?;
    let mut slots = cut_all(alloc, stores, cut)?;
    cut_joiner(&mut slots, joiner, cut)?;
    let mut outside = cut_outside(outside, cut);
    slots.append(&mut outside)?;
    Ok(Disks { slots, config })
}

/// Those outside, and behind them what is left of another.
fn with_left(
    outside: Vec<SlotDisk<MemDisk>>,
    left: Option<SlotDisk<MemDisk>>,
) -> Result<Vec<SlotDisk<MemDisk>>, AllocError>
    ensures { IfOk result (λ disks. disks.items ≡ outside.items ++ option_to_list left) }
{
    let mut outside = outside;
    outside.reserve(1)?;
    put_outside(&mut outside, left);
    Ok(outside)
}

/// What is left of one stands behind those outside from now on. There is room for it.
pub(crate) fn put_outside(outside: &mut Vec<SlotDisk<MemDisk>>, left: Option<SlotDisk<MemDisk>>)
    requires { vec_len outside.old + 1 ≤ vec_capacity outside.old }
    ensures items { outside.new.items ≡ outside.old.items ++ option_to_list left }
    ensures len { vec_len outside.new ≤ vec_len outside.old + 1 }
    ensures capacity { vec_capacity outside.new ≡ vec_capacity outside.old }
{
    if let Some(disk) = left {
        outside.push_reserved(disk);
    }
}

/// What is left of the disk on its way when its joining ends early, where this is the next epoch: a disk that was being given the volume; and
/// one of that incarnation, which no record has then, that has the volume, or refused something behind its start. Any other is dropped.
pub(crate) fn left_of(
    candidate: Candidate<Store<MemDisk>, MemDisk>,
    next: u64,
) -> Option<SlotDisk<MemDisk>>
    ensures { IsSetAside ⟦<Store<MemDisk> as StoreLike>⟧.about ⟦<Store<MemDisk> as StoreLike>⟧.may_leave_now next candidate result }
{
    match candidate {
        Candidate::Copying(copying) => Some(SlotDisk {
            slot: copying.member().slot,
            disk: copying.into_disk(),
        }),
        Candidate::Whole(whole) => {
            let (store, _) = whole.into_parts();
            left_of_store(Some(store), next)
        }
        Candidate::Refused(refused) => left_of_refused(refused, next),
        Candidate::Nobody => None,
        Candidate::Counted => None,
    }
}

/// Its disk, if there is a store, of this incarnation.
pub(crate) fn left_of_store(store: Option<Store<MemDisk>>, next: u64) -> Option<SlotDisk<MemDisk>>
    requires runs { IfSome store (λ store. IsRunning (⟦<Store<MemDisk> as StoreLike>⟧.about store) (record { premise = ⟦<Store<MemDisk> as StoreLike>⟧.keeps_model; keeps = ⟦<Store<MemDisk> as StoreLike>⟧.keeps store })) }
    ensures { IsStoreLeft ⟦<Store<MemDisk> as StoreLike>⟧.about ⟦<Store<MemDisk> as StoreLike>⟧.may_leave_now next store result }
{
    disks_mean_one();
    let Some(store) = store else {
        return None;
    };
    if store.incarnation() != next {
        return None;
    }
    Some(SlotDisk {
        slot: store.slot(),
        disk: store.into_disk(),
    })
}

/// The disk that refused, if it is known whose it is, and of this incarnation.
fn left_of_refused(refused: Refused<MemDisk>, next: u64) -> Option<SlotDisk<MemDisk>>
    ensures { IsRefusedLeft next refused.member refused.disk result }
{
    let (member, disk) = refused.into_parts();
    let Some(member) = member else {
        return None;
    };
    if member.incarnation.number() != next {
        return None;
    }
    Some(SlotDisk {
        slot: member.slot,
        disk,
    })
}

/// The disks of these stores, cut.
fn cut_all(
    alloc: Global,
    stores: Vec<Store<MemDisk>>,
    cut: Cut,
) -> Result<Vec<SlotDisk<MemDisk>>, AllocError>
    ensures { IfOk result (λ disks. AllZip (IsCutAt ⟦<Store<MemDisk> as StoreLike>⟧.about ⟦<Store<MemDisk> as StoreLike>⟧.may_leave_now (λ s. s.disk) cut) stores.items disks.items) }
{
    let mut disks = Vec::with_capacity(alloc, stores.len())?;
    for store in stores {
        disks.push_reserved(cut_store(store, cut));
    }
    Ok(disks)
}

/// That of who joins, behind these.
fn cut_joiner(
    disks: &mut Vec<SlotDisk<MemDisk>>,
    joiner: Option<Store<MemDisk>>,
    cut: Cut,
) -> Result<(), AllocError>
    ensures { OnOk result ((left : List (SlotDisk MemDisk)) × (disks.new.items ≡ disks.old.items ++ left)
        × AllZip (IsCutAt ⟦<Store<MemDisk> as StoreLike>⟧.about ⟦<Store<MemDisk> as StoreLike>⟧.may_leave_now (λ s. s.disk) cut) (option_to_list joiner) left) }
{
    if let Some(store) = joiner {
        disks.push(cut_store(store, cut))?;
    }
    Ok(())
}

/// The disk of a store, cut.
fn cut_store(store: Store<MemDisk>, cut: Cut) -> SlotDisk<MemDisk>
    ensures { IsCutAt ⟦<Store<MemDisk> as StoreLike>⟧.about ⟦<Store<MemDisk> as StoreLike>⟧.may_leave_now (λ s. s.disk) cut store result }
{
    SlotDisk {
        slot: store.slot(),
        disk: cut_one(store.into_disk(), cut),
    }
}

/// The disks outside, cut.
fn cut_outside(outside: Vec<SlotDisk<MemDisk>>, cut: Cut) -> Vec<SlotDisk<MemDisk>>
    ensures { AllZip (IsCutOutside cut) outside.items result.items }
{
    let mut disks = outside;
    for disk in disks.iter_mut() {
        cut_slot(disk, cut);
    }
    disks
}

/// One of them.
fn cut_slot(slot: &mut SlotDisk<MemDisk>, cut: Cut)
    ensures { IsCutOutside cut slot.old slot.new }
{
    slot.disk.cut(cut);
}

/// A disk, cut.
fn cut_one(disk: MemDisk, cut: Cut) -> MemDisk
    ensures { IsCut cut disk result }
{
    let mut disk = disk;
    disk.cut(cut);
    disk
}

/// Disks are cut once more, and nothing is armed at them any more.
pub(crate) fn cut_again(disks: Vec<SlotDisk<MemDisk>>, cut: Cut) -> Vec<SlotDisk<MemDisk>>
    ensures { AllZip (IsCutAnew cut) disks.items result.items }
{
    let mut disks = disks;
    for disk in disks.iter_mut() {
        cut_anew(disk, cut);
    }
    disks
}

/// One of them.
fn cut_anew(disk: &mut SlotDisk<MemDisk>, cut: Cut)
    ensures { IsCutAnew cut disk.old disk.new }
{
    disk.disk.cut(cut);
    disk.disk.disarm();
}
