//! A disk is admitted into the chain: the orders of a joining, as a list holds them.
ghost use Rattle.std.specs.Prelude.{◌≡◌, ◌+◌, ◌≤◌, false, true, vec_capacity, vec_len};
ghost use Rattle.candidate.specs.Orders.{handed_gave};
ghost use Rattle.clients.specs.Clients.{no_one};
ghost use Rattle.life.specs.Aside.{GrowsOutside};
ghost use Rattle.life.specs.Calls.{AttachesNew, Forgets};
ghost use Rattle.life.specs.Does.{Manages, TellsGave, TellsRefused};
ghost use Rattle.life.specs.Lived.{IsOfOneVolumeIn, KeepsCopyIn};
ghost use Rattle.life.specs.Played.{handed_of};

use crate::answer::{Answer, MEMORY};
use crate::cutting::{left_of, left_of_store, put_outside};
use crate::managed::{ManagedWorld, SlotDisk};
use crate::playing::{done, silent, told};
use crate::step::ManagerAct;
use candidate::{Candidate, Gave};
use disk_model::{Event, MemDisk, Script};
use home_blocks::disk_size;
use local_store::{Refusal, Store, StoreLike};
use manager::Order;
use std::alloc::Global;
use std::mem;

/// The joining of a disk at a slot begins.
pub(crate) fn join(
    alloc: Global,
    managed: &mut ManagedWorld<Store<MemDisk>, MemDisk>,
    slot: u64,
) -> Answer
    ensures does { Manages ⟦<Store<MemDisk> as StoreLike>⟧.keeps_model ⟦<Store<MemDisk> as StoreLike>⟧.about ⟦<Store<MemDisk> as StoreLike>⟧.keeps ⟦<Store<MemDisk> as StoreLike>⟧.is_pending ⟦<Store<MemDisk> as StoreLike>⟧.may_leave_now ⟦<Store<MemDisk> as StoreLike>⟧.moment ⟦<Store<MemDisk> as StoreLike>⟧.may_have_left_since ⟦<Store<MemDisk> as StoreLike>⟧.failures
        (ManagerAct.Join slot) result managed.old managed.new }
    ensures outside { managed.new.outside ≡ managed.old.outside }
    ensures one_volume { IsOfOneVolumeIn ⟦<Store<MemDisk> as StoreLike>⟧.about ⟦<Store<MemDisk> as StoreLike>⟧.keeps ⟦<Store<MemDisk> as StoreLike>⟧.may_leave_now
        no_one (handed_of result) managed.old managed.new }
    ensures copy { KeepsCopyIn ⟦<Store<MemDisk> as StoreLike>⟧.about ⟦<Store<MemDisk> as StoreLike>⟧.keeps ⟦<Store<MemDisk> as StoreLike>⟧.may_leave_now managed.old managed.new }
{
    match managed.management.join(&managed.world, slot) {
        Ok(()) => silent(alloc),
        Err(refusal) => Answer::Refused(refusal.number()),
    }
}

/// A removed member is forgotten.
pub(crate) fn forget(
    alloc: Global,
    managed: &mut ManagedWorld<Store<MemDisk>, MemDisk>,
    at: usize,
) -> Answer
    ensures does { Manages ⟦<Store<MemDisk> as StoreLike>⟧.keeps_model ⟦<Store<MemDisk> as StoreLike>⟧.about ⟦<Store<MemDisk> as StoreLike>⟧.keeps ⟦<Store<MemDisk> as StoreLike>⟧.is_pending ⟦<Store<MemDisk> as StoreLike>⟧.may_leave_now ⟦<Store<MemDisk> as StoreLike>⟧.moment ⟦<Store<MemDisk> as StoreLike>⟧.may_have_left_since ⟦<Store<MemDisk> as StoreLike>⟧.failures
        (ManagerAct.Forget at) result managed.old managed.new }
    ensures outside { managed.new.outside ≡ managed.old.outside }
    ensures one_volume { IsOfOneVolumeIn ⟦<Store<MemDisk> as StoreLike>⟧.about ⟦<Store<MemDisk> as StoreLike>⟧.keeps ⟦<Store<MemDisk> as StoreLike>⟧.may_leave_now
        no_one (handed_of result) managed.old managed.new }
    ensures copy { KeepsCopyIn ⟦<Store<MemDisk> as StoreLike>⟧.about ⟦<Store<MemDisk> as StoreLike>⟧.keeps ⟦<Store<MemDisk> as StoreLike>⟧.may_leave_now managed.old managed.new }
{
    let forgotten = forget_at(managed, at);
    done(alloc, forgotten)
}

/// If it may be, and no disk is on its way.
fn forget_at(managed: &mut ManagedWorld<Store<MemDisk>, MemDisk>, at: usize) -> bool
    ensures forgets { Forgets at result managed.old managed.new }
    ensures outside { managed.new.outside ≡ managed.old.outside }
    ensures one_volume { IsOfOneVolumeIn ⟦<Store<MemDisk> as StoreLike>⟧.about ⟦<Store<MemDisk> as StoreLike>⟧.keeps ⟦<Store<MemDisk> as StoreLike>⟧.may_leave_now
        no_one no_one managed.old managed.new }
    ensures copy { KeepsCopyIn ⟦<Store<MemDisk> as StoreLike>⟧.about ⟦<Store<MemDisk> as StoreLike>⟧.keeps ⟦<Store<MemDisk> as StoreLike>⟧.may_leave_now managed.old managed.new }
{
    if at >= managed.world.len() {
        return false;
    }
    if !managed.is_alone() {
        return false;
    }
    let Some(store) = managed.world.forget(at) else {
        return false;
    };
    drop(store);
    true
}

/// A new disk, just long enough, is attached, at one of whose device calls this is to happen, if anything is.
pub(crate) fn attach(
    alloc: Global,
    managed: &mut ManagedWorld<Store<MemDisk>, MemDisk>,
    event: Option<Event>,
) -> Answer
    ensures does { Manages ⟦<Store<MemDisk> as StoreLike>⟧.keeps_model ⟦<Store<MemDisk> as StoreLike>⟧.about ⟦<Store<MemDisk> as StoreLike>⟧.keeps ⟦<Store<MemDisk> as StoreLike>⟧.is_pending ⟦<Store<MemDisk> as StoreLike>⟧.may_leave_now ⟦<Store<MemDisk> as StoreLike>⟧.moment ⟦<Store<MemDisk> as StoreLike>⟧.may_have_left_since ⟦<Store<MemDisk> as StoreLike>⟧.failures
        (ManagerAct.Attach event) result managed.old managed.new }
    ensures outside { managed.new.outside ≡ managed.old.outside }
    ensures one_volume { IsOfOneVolumeIn ⟦<Store<MemDisk> as StoreLike>⟧.about ⟦<Store<MemDisk> as StoreLike>⟧.keeps ⟦<Store<MemDisk> as StoreLike>⟧.may_leave_now
        no_one (handed_of result) managed.old managed.new }
    ensures copy { KeepsCopyIn ⟦<Store<MemDisk> as StoreLike>⟧.about ⟦<Store<MemDisk> as StoreLike>⟧.keeps ⟦<Store<MemDisk> as StoreLike>⟧.may_leave_now managed.old managed.new }
{
    match attach_new(alloc, managed, event) {
        Ok(attached) => done(alloc, attached),
        Err(refusal) => refused(refusal),
    }
}

/// If that is the next order.
fn attach_new(
    alloc: Global,
    managed: &mut ManagedWorld<Store<MemDisk>, MemDisk>,
    event: Option<Event>,
) -> Result<bool, Refusal>
    ensures attaches { AttachesNew result managed.old managed.new }
    ensures outside { managed.new.outside ≡ managed.old.outside }
    ensures world { managed.new.world ≡ managed.old.world }
    ensures copy { KeepsCopyIn ⟦<Store<MemDisk> as StoreLike>⟧.about ⟦<Store<MemDisk> as StoreLike>⟧.keeps ⟦<Store<MemDisk> as StoreLike>⟧.may_leave_now managed.old managed.new }
{
    let Order::Attach(_) = managed.management.next() else {
        return Ok(false);
    };
    let len = disk_size(managed.world.geometry());
    let mut disk = MemDisk::new(alloc, len, Script::new(alloc))?;
    if let Some(event) = event {
        disk.arm(event)?;
    }
    managed
        .candidate
        .attach(alloc, &managed.world, &mut managed.management, disk)
}

/// The disk is given the next block.
pub(crate) fn copy(alloc: Global, managed: &mut ManagedWorld<Store<MemDisk>, MemDisk>) -> Answer
    ensures does { Manages ⟦<Store<MemDisk> as StoreLike>⟧.keeps_model ⟦<Store<MemDisk> as StoreLike>⟧.about ⟦<Store<MemDisk> as StoreLike>⟧.keeps ⟦<Store<MemDisk> as StoreLike>⟧.is_pending ⟦<Store<MemDisk> as StoreLike>⟧.may_leave_now ⟦<Store<MemDisk> as StoreLike>⟧.moment ⟦<Store<MemDisk> as StoreLike>⟧.may_have_left_since ⟦<Store<MemDisk> as StoreLike>⟧.failures
        ManagerAct.Copy result managed.old managed.new }
    ensures outside { managed.new.outside ≡ managed.old.outside }
    ensures one_volume { IsOfOneVolumeIn ⟦<Store<MemDisk> as StoreLike>⟧.about ⟦<Store<MemDisk> as StoreLike>⟧.keeps ⟦<Store<MemDisk> as StoreLike>⟧.may_leave_now
        no_one (handed_of result) managed.old managed.new }
    ensures copy { KeepsCopyIn ⟦<Store<MemDisk> as StoreLike>⟧.about ⟦<Store<MemDisk> as StoreLike>⟧.keeps ⟦<Store<MemDisk> as StoreLike>⟧.may_leave_now managed.old managed.new }
{
    let gave = managed
        .candidate
        .copy(&mut managed.world, &mut managed.management);
    gave_so(alloc, gave)
}

/// The tail holds the front.
pub(crate) fn hold(managed: &mut ManagedWorld<Store<MemDisk>, MemDisk>) -> Answer
    ensures does { Manages ⟦<Store<MemDisk> as StoreLike>⟧.keeps_model ⟦<Store<MemDisk> as StoreLike>⟧.about ⟦<Store<MemDisk> as StoreLike>⟧.keeps ⟦<Store<MemDisk> as StoreLike>⟧.is_pending ⟦<Store<MemDisk> as StoreLike>⟧.may_leave_now ⟦<Store<MemDisk> as StoreLike>⟧.moment ⟦<Store<MemDisk> as StoreLike>⟧.may_have_left_since ⟦<Store<MemDisk> as StoreLike>⟧.failures
        ManagerAct.Hold result managed.old managed.new }
    ensures outside { managed.new.outside ≡ managed.old.outside }
    ensures one_volume { IsOfOneVolumeIn ⟦<Store<MemDisk> as StoreLike>⟧.about ⟦<Store<MemDisk> as StoreLike>⟧.keeps ⟦<Store<MemDisk> as StoreLike>⟧.may_leave_now
        no_one (handed_of result) managed.old managed.new }
    ensures copy { KeepsCopyIn ⟦<Store<MemDisk> as StoreLike>⟧.about ⟦<Store<MemDisk> as StoreLike>⟧.keeps ⟦<Store<MemDisk> as StoreLike>⟧.may_leave_now managed.old managed.new }
{
    told(
        managed
            .candidate
            .hold(&mut managed.world, &mut managed.management),
    )
}

/// The disk is given the next block of the rest, or the end.
pub(crate) fn rest(alloc: Global, managed: &mut ManagedWorld<Store<MemDisk>, MemDisk>) -> Answer
    ensures does { Manages ⟦<Store<MemDisk> as StoreLike>⟧.keeps_model ⟦<Store<MemDisk> as StoreLike>⟧.about ⟦<Store<MemDisk> as StoreLike>⟧.keeps ⟦<Store<MemDisk> as StoreLike>⟧.is_pending ⟦<Store<MemDisk> as StoreLike>⟧.may_leave_now ⟦<Store<MemDisk> as StoreLike>⟧.moment ⟦<Store<MemDisk> as StoreLike>⟧.may_have_left_since ⟦<Store<MemDisk> as StoreLike>⟧.failures
        ManagerAct.Rest result managed.old managed.new }
    ensures outside { managed.new.outside ≡ managed.old.outside }
    ensures one_volume { IsOfOneVolumeIn ⟦<Store<MemDisk> as StoreLike>⟧.about ⟦<Store<MemDisk> as StoreLike>⟧.keeps ⟦<Store<MemDisk> as StoreLike>⟧.may_leave_now
        no_one (handed_of result) managed.old managed.new }
    ensures copy { KeepsCopyIn ⟦<Store<MemDisk> as StoreLike>⟧.about ⟦<Store<MemDisk> as StoreLike>⟧.keeps ⟦<Store<MemDisk> as StoreLike>⟧.may_leave_now managed.old managed.new }
{
    let gave = managed
        .candidate
        .rest(alloc, &mut managed.world, &mut managed.management);
    gave_so(alloc, gave)
}

/// The disk is counted.
pub(crate) fn count_in(alloc: Global, managed: &mut ManagedWorld<Store<MemDisk>, MemDisk>) -> Answer
    ensures does { Manages ⟦<Store<MemDisk> as StoreLike>⟧.keeps_model ⟦<Store<MemDisk> as StoreLike>⟧.about ⟦<Store<MemDisk> as StoreLike>⟧.keeps ⟦<Store<MemDisk> as StoreLike>⟧.is_pending ⟦<Store<MemDisk> as StoreLike>⟧.may_leave_now ⟦<Store<MemDisk> as StoreLike>⟧.moment ⟦<Store<MemDisk> as StoreLike>⟧.may_have_left_since ⟦<Store<MemDisk> as StoreLike>⟧.failures
        ManagerAct.CountIn result managed.old managed.new }
    ensures outside { managed.new.outside ≡ managed.old.outside }
    ensures one_volume { IsOfOneVolumeIn ⟦<Store<MemDisk> as StoreLike>⟧.about ⟦<Store<MemDisk> as StoreLike>⟧.keeps ⟦<Store<MemDisk> as StoreLike>⟧.may_leave_now
        no_one (handed_of result) managed.old managed.new }
    ensures copy { KeepsCopyIn ⟦<Store<MemDisk> as StoreLike>⟧.about ⟦<Store<MemDisk> as StoreLike>⟧.keeps ⟦<Store<MemDisk> as StoreLike>⟧.may_leave_now managed.old managed.new }
{
    let counted = managed
        .candidate
        .count_in(&mut managed.world, &mut managed.management);
    done(alloc, counted)
}

/// The joining under way is abandoned.
pub(crate) fn abandon(alloc: Global, managed: &mut ManagedWorld<Store<MemDisk>, MemDisk>) -> Answer
    ensures does { Manages ⟦<Store<MemDisk> as StoreLike>⟧.keeps_model ⟦<Store<MemDisk> as StoreLike>⟧.about ⟦<Store<MemDisk> as StoreLike>⟧.keeps ⟦<Store<MemDisk> as StoreLike>⟧.is_pending ⟦<Store<MemDisk> as StoreLike>⟧.may_leave_now ⟦<Store<MemDisk> as StoreLike>⟧.moment ⟦<Store<MemDisk> as StoreLike>⟧.may_have_left_since ⟦<Store<MemDisk> as StoreLike>⟧.failures
        ManagerAct.Abandon result managed.old managed.new }
    ensures outside { GrowsOutside managed.old managed.new }
    ensures one_volume { IsOfOneVolumeIn ⟦<Store<MemDisk> as StoreLike>⟧.about ⟦<Store<MemDisk> as StoreLike>⟧.keeps ⟦<Store<MemDisk> as StoreLike>⟧.may_leave_now
        no_one (handed_of result) managed.old managed.new }
    ensures copy { KeepsCopyIn ⟦<Store<MemDisk> as StoreLike>⟧.about ⟦<Store<MemDisk> as StoreLike>⟧.keeps ⟦<Store<MemDisk> as StoreLike>⟧.may_leave_now managed.old managed.new }
{
    let may = managed.management.can_abandon();
    if !make_room(&mut managed.outside, may) {
        return Answer::Refused(MEMORY);
    }
    let next = managed.world.recorded().epoch().number() + 1;
    match managed.management.abandon_join(&mut managed.world) {
        Ok(store) => {
            let candidate = mem::replace(&mut managed.candidate, Candidate::Nobody);
            put_outside(&mut managed.outside, left_of(candidate, next));
            put_outside(&mut managed.outside, left_of_store(store, next));
            silent(alloc)
        }
        Err(refusal) => Answer::Refused(refusal.number()),
    }
}

/// Makes room for two more outside, where it may be needed. `false` where memory for that runs out.
fn make_room(outside: &mut Vec<SlotDisk<MemDisk>>, may: bool) -> bool
    ensures items { outside.new.items ≡ outside.old.items }
    ensures room { result ≡ true → may ≡ true → vec_len outside.new + 2 ≤ vec_capacity outside.new }
    ensures needed { result ≡ false → may ≡ true }
{
    outside.reserve(2).is_ok() || !may
}

/// What tells that a disk was given something, or not.
fn gave_so(alloc: Global, gave: Result<Gave, Refusal>) -> Answer
    ensures tells { TellsGave gave result }
    ensures handed { handed_of result ≡ handed_gave gave }
{
    match gave {
        Ok(Gave::Nothing) => Answer::Skipped,
        Ok(Gave::Piece) => silent(alloc),
        Ok(Gave::Stopped(told)) => Answer::Taken(told),
        Err(refusal) => refused(refusal),
    }
}

/// What tells that a disk was refused.
fn refused(refusal: Refusal) -> Answer
    ensures tells { TellsRefused refusal result }
    ensures none { handed_of result ≡ no_one }
{
    match refusal.number() {
        Some(number) => Answer::Refused(number),
        // The disk met its stop: this is no answer any more.
        None => Answer::Skipped,
    }
}
