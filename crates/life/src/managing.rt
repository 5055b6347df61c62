//! The manager's acts, as a list holds them.
ghost use Rattle.std.specs.Prelude.{◌≡◌, false};
ghost use Rattle.clients.specs.Clients.{no_one};
ghost use Rattle.life.specs.Aside.{GrowsOutside};
ghost use Rattle.life.specs.Calls.{BeginsNext, EndsNext, EndsWithJoiner};
ghost use Rattle.life.specs.Does.{Manages, is_abandon};
ghost use Rattle.life.specs.Lived.{IsOfOneVolumeIn, KeepsCopyIn};
ghost use Rattle.life.specs.Played.{handed_of};

use crate::admitting::{abandon, attach, copy, count_in, forget, hold, join, rest};
use crate::answer::{Answer, MEMORY};
use crate::managed::ManagedWorld;
use crate::playing::{done, silent, told};
use crate::step::ManagerAct;
use candidate::Candidate;
use configurations::Refusal;
use disk_model::MemDisk;
use local_store::{Store, StoreLike};
use std::alloc::{AllocError, Global};
use std::mem;

/// The manager does one thing: the call of `Management` that it names. Where that isn't the next order, or it may not be carried out now, it is
/// skipped, and nothing changed.
pub fn manage(
    alloc: Global,
    managed: &mut ManagedWorld<Store<MemDisk>, MemDisk>,
    act: ManagerAct,
) -> Answer
    ensures does { Manages ⟦<Store<MemDisk> as StoreLike>⟧.keeps_model ⟦<Store<MemDisk> as StoreLike>⟧.about ⟦<Store<MemDisk> as StoreLike>⟧.keeps ⟦<Store<MemDisk> as StoreLike>⟧.is_pending ⟦<Store<MemDisk> as StoreLike>⟧.may_leave_now ⟦<Store<MemDisk> as StoreLike>⟧.moment ⟦<Store<MemDisk> as StoreLike>⟧.may_have_left_since ⟦<Store<MemDisk> as StoreLike>⟧.failures
        act result managed.old managed.new }
    ensures outside { GrowsOutside managed.old managed.new }
    ensures outside_stay { is_abandon act ≡ false → managed.new.outside ≡ managed.old.outside }
    ensures one_volume { IsOfOneVolumeIn ⟦<Store<MemDisk> as StoreLike>⟧.about ⟦<Store<MemDisk> as StoreLike>⟧.keeps ⟦<Store<MemDisk> as StoreLike>⟧.may_leave_now
        no_one (handed_of result) managed.old managed.new }
    ensures copy { KeepsCopyIn ⟦<Store<MemDisk> as StoreLike>⟧.about ⟦<Store<MemDisk> as StoreLike>⟧.keeps ⟦<Store<MemDisk> as StoreLike>⟧.may_leave_now managed.old managed.new }
{
    match act {
        ManagerAct::Remove { slot } => remove(alloc, managed, slot),
        ManagerAct::Join { slot } => join(alloc, managed, slot),
        ManagerAct::Forget { at } => forget(alloc, managed, at),
        ManagerAct::Attach { event } => attach(alloc, managed, event),
        ManagerAct::Copy => copy(alloc, managed),
        ManagerAct::Hold => hold(managed),
        ManagerAct::Rest => rest(alloc, managed),
        ManagerAct::CountIn => count_in(alloc, managed),
        ManagerAct::Abandon => abandon(alloc, managed),
        ManagerAct::BeginRecord => begin_record(alloc, managed),
        ManagerAct::EndRecord => end_record(alloc, managed),
        ManagerAct::CountOut => {
            let is_out = managed.management.count_out(&mut managed.world);
            done(alloc, is_out)
        }
        ManagerAct::Tell => told(managed.management.tell(&mut managed.world)),
    }
}

/// It begins a removal.
fn remove(alloc: Global, managed: &mut ManagedWorld<Store<MemDisk>, MemDisk>, slot: u64) -> Answer
    ensures does { Manages ⟦<Store<MemDisk> as StoreLike>⟧.keeps_model ⟦<Store<MemDisk> as StoreLike>⟧.about ⟦<Store<MemDisk> as StoreLike>⟧.keeps ⟦<Store<MemDisk> as StoreLike>⟧.is_pending ⟦<Store<MemDisk> as StoreLike>⟧.may_leave_now ⟦<Store<MemDisk> as StoreLike>⟧.moment ⟦<Store<MemDisk> as StoreLike>⟧.may_have_left_since ⟦<Store<MemDisk> as StoreLike>⟧.failures
        (ManagerAct.Remove slot) result managed.old managed.new }
    ensures outside { managed.new.outside ≡ managed.old.outside }
    ensures one_volume { IsOfOneVolumeIn ⟦<Store<MemDisk> as StoreLike>⟧.about ⟦<Store<MemDisk> as StoreLike>⟧.keeps ⟦<Store<MemDisk> as StoreLike>⟧.may_leave_now
        no_one (handed_of result) managed.old managed.new }
    ensures copy { KeepsCopyIn ⟦<Store<MemDisk> as StoreLike>⟧.about ⟦<Store<MemDisk> as StoreLike>⟧.keeps ⟦<Store<MemDisk> as StoreLike>⟧.may_leave_now managed.old managed.new }
{
    match managed.management.remove(&managed.world, slot) {
        Ok(()) => silent(alloc),
        Err(refusal) => Answer::Refused(refusal.number()),
    }
}

/// The next record is being written.
fn begin_record(alloc: Global, managed: &mut ManagedWorld<Store<MemDisk>, MemDisk>) -> Answer
    ensures does { Manages ⟦<Store<MemDisk> as StoreLike>⟧.keeps_model ⟦<Store<MemDisk> as StoreLike>⟧.about ⟦<Store<MemDisk> as StoreLike>⟧.keeps ⟦<Store<MemDisk> as StoreLike>⟧.is_pending ⟦<Store<MemDisk> as StoreLike>⟧.may_leave_now ⟦<Store<MemDisk> as StoreLike>⟧.moment ⟦<Store<MemDisk> as StoreLike>⟧.may_have_left_since ⟦<Store<MemDisk> as StoreLike>⟧.failures
        ManagerAct.BeginRecord result managed.old managed.new }
    ensures outside { managed.new.outside ≡ managed.old.outside }
    ensures one_volume { IsOfOneVolumeIn ⟦<Store<MemDisk> as StoreLike>⟧.about ⟦<Store<MemDisk> as StoreLike>⟧.keeps ⟦<Store<MemDisk> as StoreLike>⟧.may_leave_now
        no_one (handed_of result) managed.old managed.new }
    ensures copy { KeepsCopyIn ⟦<Store<MemDisk> as StoreLike>⟧.about ⟦<Store<MemDisk> as StoreLike>⟧.keeps ⟦<Store<MemDisk> as StoreLike>⟧.may_leave_now managed.old managed.new }
{
    match begin_next(managed) {
        Ok(begun) => done(alloc, begun),
        Err(_) => Answer::Refused(MEMORY),
    }
}

/// With the disk that was counted, if one was.
fn begin_next(managed: &mut ManagedWorld<Store<MemDisk>, MemDisk>) -> Result<bool, AllocError>
    ensures begins { BeginsNext ⟦<Store<MemDisk> as StoreLike>⟧.about result managed.old managed.new }
    ensures outside { managed.new.outside ≡ managed.old.outside }
    ensures one_volume { IsOfOneVolumeIn ⟦<Store<MemDisk> as StoreLike>⟧.about ⟦<Store<MemDisk> as StoreLike>⟧.keeps ⟦<Store<MemDisk> as StoreLike>⟧.may_leave_now
        no_one no_one managed.old managed.new }
    ensures copy { KeepsCopyIn ⟦<Store<MemDisk> as StoreLike>⟧.about ⟦<Store<MemDisk> as StoreLike>⟧.keeps ⟦<Store<MemDisk> as StoreLike>⟧.may_leave_now managed.old managed.new }
{
    if managed.is_counted() {
        managed.management.begin_join(&mut managed.world)
    } else {
        managed.management.begin_record(&mut managed.world)
    }
}

/// It is the recorded chain.
fn end_record(alloc: Global, managed: &mut ManagedWorld<Store<MemDisk>, MemDisk>) -> Answer
    ensures does { Manages ⟦<Store<MemDisk> as StoreLike>⟧.keeps_model ⟦<Store<MemDisk> as StoreLike>⟧.about ⟦<Store<MemDisk> as StoreLike>⟧.keeps ⟦<Store<MemDisk> as StoreLike>⟧.is_pending ⟦<Store<MemDisk> as StoreLike>⟧.may_leave_now ⟦<Store<MemDisk> as StoreLike>⟧.moment ⟦<Store<MemDisk> as StoreLike>⟧.may_have_left_since ⟦<Store<MemDisk> as StoreLike>⟧.failures
        ManagerAct.EndRecord result managed.old managed.new }
    ensures outside { managed.new.outside ≡ managed.old.outside }
    ensures one_volume { IsOfOneVolumeIn ⟦<Store<MemDisk> as StoreLike>⟧.about ⟦<Store<MemDisk> as StoreLike>⟧.keeps ⟦<Store<MemDisk> as StoreLike>⟧.may_leave_now
        no_one (handed_of result) managed.old managed.new }
    ensures copy { KeepsCopyIn ⟦<Store<MemDisk> as StoreLike>⟧.about ⟦<Store<MemDisk> as StoreLike>⟧.keeps ⟦<Store<MemDisk> as StoreLike>⟧.may_leave_now managed.old managed.new }
{
    match end_next(managed) {
        Ok(ended) => done(alloc, ended),
        Err(refusal) => match refusal.number() {
            Some(number) => Answer::Refused(number),
            // The configuration's disk met its stop: this is no answer any more.
            None => Answer::Skipped,
        },
    }
}

/// The disk that was counted, if one was, is a member's then.
fn end_next(managed: &mut ManagedWorld<Store<MemDisk>, MemDisk>) -> Result<bool, Refusal>
    ensures ends { EndsNext ⟦<Store<MemDisk> as StoreLike>⟧.about result managed.old managed.new }
    ensures outside { managed.new.outside ≡ managed.old.outside }
    ensures one_volume { IsOfOneVolumeIn ⟦<Store<MemDisk> as StoreLike>⟧.about ⟦<Store<MemDisk> as StoreLike>⟧.keeps ⟦<Store<MemDisk> as StoreLike>⟧.may_leave_now
        no_one no_one managed.old managed.new }
    ensures copy { KeepsCopyIn ⟦<Store<MemDisk> as StoreLike>⟧.about ⟦<Store<MemDisk> as StoreLike>⟧.keeps ⟦<Store<MemDisk> as StoreLike>⟧.may_leave_now managed.old managed.new }
{
    if managed.is_counted() {
        end_join(managed)
    } else {
        managed.management.end_record(&mut managed.world)
    }
}

/// The record with the disk that was counted is the recorded chain: none is on its way any more.
fn end_join(managed: &mut ManagedWorld<Store<MemDisk>, MemDisk>) -> Result<bool, Refusal>
    ensures ends { EndsWithJoiner ⟦<Store<MemDisk> as StoreLike>⟧.about result managed.old managed.new }
    ensures outside { managed.new.outside ≡ managed.old.outside }
    ensures one_volume { IsOfOneVolumeIn ⟦<Store<MemDisk> as StoreLike>⟧.about ⟦<Store<MemDisk> as StoreLike>⟧.keeps ⟦<Store<MemDisk> as StoreLike>⟧.may_leave_now
        no_one no_one managed.old managed.new }
    ensures copy { KeepsCopyIn ⟦<Store<MemDisk> as StoreLike>⟧.about ⟦<Store<MemDisk> as StoreLike>⟧.keeps ⟦<Store<MemDisk> as StoreLike>⟧.may_leave_now managed.old managed.new }
{
    match managed.management.end_join(&mut managed.world) {
        Ok(ended) => {
            if ended {
                drop(mem::replace(&mut managed.candidate, Candidate::Nobody));
            }
            Ok(ended)
        }
        Err(refusal) => Err(refusal),
    }
}
