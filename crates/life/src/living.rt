//! Whole lives.
ghost use Rattle.std.specs.Prelude.{◌≡◌, ◌⊎◌, ◌<◌, ◌≤◌, ◌↔◌, ℕ, false, All, IfErr, IfOk, IsTrue, List, OnOk, length, zip};
ghost use Rattle.clients.specs.Clients.{no_one};
ghost use Rattle.configurations.specs.Record.{Record};
ghost use Rattle.configurations.specs.declared.refusal.Refusal.TheVariants as config_refusals;
ghost use Rattle.disk_model.specs.Disk.{Only};
ghost use Rattle.disk_model.specs.Memory.{given_of, may_be_left};
ghost use Rattle.flush_barrier.specs.declared.session_id.SessionId.{SessionId};
ghost use Rattle.disk_model.specs.declared.memory.MemDisk.{MemDisk};
ghost use Rattle.std.specs.List.{AllZip};
ghost use Rattle.life.specs.Aside.{GrowsOutside};
ghost use Rattle.life.specs.Begun.{AllGo, AreOnDisks};
ghost use Rattle.life.specs.Does.{Does, DoesDeed, DoesIt, IsArmed, IsConfigArmed, is_abandoning};
ghost use Rattle.life.specs.Headline.{BreaksOff, EndsAtReturn, EraLeads, IsOneLife};
ghost use Rattle.life.specs.Lived.{AreOfOneVolume, IsFresh, IsOfOneVolumeIn, KeepsCopyIn};
ghost use Rattle.life.specs.Managed.{AreDated, IsAtRest, NoImpostor};
ghost use Rattle.life.specs.Played.{fed_by, fed_by_step, handed_by, handed_by_step};
ghost use Rattle.life.specs.Plays.{DeedsLead, HasMetStop, MemberMetStop, RefusedByStop};
ghost use Rattle.life.specs.Recovered.{GivesOnly, HasChain, IsAtItsEnd, IsChosen, IsNoChoice, IsNoReturn, IsStill, IsStranger, MayReturn, Recovers, RecoversFrom, StandsThere};
ghost use Rattle.life.specs.Refusal.{IsOfMemory};
ghost use Rattle.nbd_session.specs.declared.answer.Export.{Export};
ghost use Rattle.world_model.specs.Machine.{State};
ghost use Rattle.world.specs.World.{IsOfOneVolume};

use crate::answer::{Answer, MEMORY};
use crate::beginning::begin;
use crate::choosing::choose_among;
use crate::cutting::{Disks, cut, cut_again};
use crate::era::{Answers, Deed, Era};
use crate::managed::{ManagedWorld, SlotDisk};
use crate::managing::manage;
use crate::playing::play;
use crate::recovering::{NotAlone, go_on_alone, with_outside};
use crate::refusal::Refusal;
use crate::step::Step;
use candidate::Candidate;
use chain_model::{
    chains_begin_again, each_disk_has_what_is_owed, lives_are_of_one_volume, refusals_have_pleas,
};
use clients::sessions_are_lawful;
use configurations::{numbers_are_one, records_are_one};
use disk_model::{Cut, Event, MemDisk};
use local_store::{Store, StoreLike, disks_mean_one};
use std::alloc::{AllocError, Global};
use volume::Geometry;
use world::{Told, World};

/// What became of a life.
pub struct Lived {
    /// The world that goes on, and its manager.
    pub managed: ManagedWorld<Store<MemDisk>, MemDisk>,
    /// The answers, for each era in the order of its deeds.
    pub answers: Vec<Answers>,
}

/// A chain of so many members, 1 to 8, lives through these eras. It begins over new disks, with a volume of zeros. In each era its
/// deeds are played, one after another, until a device call meets its stop; then everything stops, and the chain goes on from the
/// source of the disks that return, by the record on the configuration's; the others are outside then. The deed in which a stop was met has no answer any more, and no deed behind it is
/// played.
///
/// What was armed and wasn't met before a cut counts the calls of the recovery behind it; and a recovery in which the device fails or
/// stops is done again, after another cut, with nothing armed any more. No clause tells this: they say from which disk a life goes on.
///
/// 191 `NoneReturned` where an era returns no disk; 192 `NotInChain` where it returns none of a member of the chain that was left recorded; 162
/// `NotNext` where no record can follow; and 100 `Memory`.
pub fn live(alloc: Global, geometry: Geometry, members: u8, eras: &[Era]) -> Result<Lived, Refusal>
    requires some { 0 < members }
    requires few { members ≤ 8 }
    ensures all { IfOk result (λ lived. AllZip (λ era answers. length answers.items.items ≤ length era.deeds.items) eras.now lived.answers.items) }
    ensures one_life { IfOk result (λ lived. IsOneLife ⟦<Store<MemDisk> as StoreLike>⟧.keeps_model ⟦<Store<MemDisk> as StoreLike>⟧.about ⟦<Store<MemDisk> as StoreLike>⟧.keeps ⟦<Store<MemDisk> as StoreLike>⟧.is_pending ⟦<Store<MemDisk> as StoreLike>⟧.may_leave_now ⟦<Store<MemDisk> as StoreLike>⟧.moment ⟦<Store<MemDisk> as StoreLike>⟧.may_have_left_since ⟦<Store<MemDisk> as StoreLike>⟧.failures (λ s. s.disk)
        geometry members eras.now lived.answers.items lived.managed) }
    ensures refused { IfErr result (BreaksOff ⟦<Store<MemDisk> as StoreLike>⟧.keeps_model ⟦<Store<MemDisk> as StoreLike>⟧.about ⟦<Store<MemDisk> as StoreLike>⟧.keeps ⟦<Store<MemDisk> as StoreLike>⟧.is_pending ⟦<Store<MemDisk> as StoreLike>⟧.may_leave_now ⟦<Store<MemDisk> as StoreLike>⟧.moment ⟦<Store<MemDisk> as StoreLike>⟧.may_have_left_since ⟦<Store<MemDisk> as StoreLike>⟧.failures (λ s. s.disk)
        geometry members eras.now) }
{
    chains_begin_again();
    let mut answers = Vec::with_capacity(alloc, eras.len())?;
    let mut managed = begin(alloc, geometry, members)?;
    for era in eras {
        let (told, next) = live_era(alloc, managed, era)?;
        answers.push_reserved(Answers { items: told });
        managed = next;
    }
    Ok(Lived { managed, answers })
}

/// One era, and how it goes on.
fn live_era(
    alloc: Global,
    managed: ManagedWorld<Store<MemDisk>, MemDisk>,
    era: &Era,
) -> Result<(Vec<Answer>, ManagedWorld<Store<MemDisk>, MemDisk>), Refusal>
    requires fresh { (export : Export) × (s : State) × IsFresh ⟦<Store<MemDisk> as StoreLike>⟧.about ⟦<Store<MemDisk> as StoreLike>⟧.keeps ⟦<Store<MemDisk> as StoreLike>⟧.may_leave_now export.size export managed.world s }
    requires disks { AreOnDisks ⟦<Store<MemDisk> as StoreLike>⟧.about managed.world }
    requires go { AllGo (λ s. s.disk) managed }
    requires rests { IsAtRest managed }
    requires impostors { NoImpostor managed }
    requires dated { AreDated ⟦<Store<MemDisk> as StoreLike>⟧.about managed }
    ensures disks { IfOk result (λ lived. AreOnDisks ⟦<Store<MemDisk> as StoreLike>⟧.about lived.1.world) }
    ensures go { IfOk result (λ lived. AllGo (λ s. s.disk) lived.1) }
    ensures rests { IfOk result (λ lived. IsAtRest lived.1) }
    ensures impostors { IfOk result (λ lived. NoImpostor lived.1) }
    ensures dated { IfOk result (λ lived. AreDated ⟦<Store<MemDisk> as StoreLike>⟧.about lived.1) }
    ensures all { IfOk result (λ lived. length lived.0.items ≤ length era.now.deeds.items) }
    ensures lived { IfOk result (λ lived. (export : Export) (s : State) → IsFresh ⟦<Store<MemDisk> as StoreLike>⟧.about ⟦<Store<MemDisk> as StoreLike>⟧.keeps ⟦<Store<MemDisk> as StoreLike>⟧.may_leave_now export.size export managed.world s
        → (t : State) × EraLeads ⟦<Store<MemDisk> as StoreLike>⟧.keeps_model ⟦<Store<MemDisk> as StoreLike>⟧.about ⟦<Store<MemDisk> as StoreLike>⟧.keeps ⟦<Store<MemDisk> as StoreLike>⟧.is_pending ⟦<Store<MemDisk> as StoreLike>⟧.may_leave_now ⟦<Store<MemDisk> as StoreLike>⟧.moment ⟦<Store<MemDisk> as StoreLike>⟧.may_have_left_since ⟦<Store<MemDisk> as StoreLike>⟧.failures (λ s. s.disk)
        export era.now lived.0.items managed s lived.1 t
        × IsFresh ⟦<Store<MemDisk> as StoreLike>⟧.about ⟦<Store<MemDisk> as StoreLike>⟧.keeps ⟦<Store<MemDisk> as StoreLike>⟧.may_leave_now export.size export lived.1.world t) }
    ensures refused { IfErr result (EndsAtReturn ⟦<Store<MemDisk> as StoreLike>⟧.keeps_model ⟦<Store<MemDisk> as StoreLike>⟧.about ⟦<Store<MemDisk> as StoreLike>⟧.keeps ⟦<Store<MemDisk> as StoreLike>⟧.is_pending ⟦<Store<MemDisk> as StoreLike>⟧.may_leave_now ⟦<Store<MemDisk> as StoreLike>⟧.moment ⟦<Store<MemDisk> as StoreLike>⟧.may_have_left_since ⟦<Store<MemDisk> as StoreLike>⟧.failures (λ s. s.disk)
        era.now managed) }
{
    disks_mean_one();
    chains_begin_again();
    each_disk_has_what_is_owed();
    lives_are_of_one_volume();
    refusals_have_pleas();
    sessions_are_lawful();
    records_are_one();
    let mut managed = managed;
    managed.sound();
    let told = match play_all(alloc, &mut managed, &era.deeds) {
        Ok(told) => told,
        Err(_) => {
            drop(cut(alloc, managed, era.cut));
            return Err(Refusal::Memory);
        }
    };
    managed.sound();
    let disks = cut(alloc, managed, era.cut)?;
    let next = go_on(alloc, disks, &era.returned, era.cut)?;
    Ok((told, next))
}

/// Plays the deeds of an era, one after another, up to one in which a device call meets its stop; what that one told is dropped.
fn play_all(
    alloc: Global,
    managed: &mut ManagedWorld<Store<MemDisk>, MemDisk>,
    deeds: &[Deed],
) -> Result<Vec<Answer>, AllocError>
    requires go { HasMetStop (λ s. s.disk) managed.old → ⊥ }
    requires nobody { managed.old.candidate ≡ Candidate.Nobody }
    ensures all { IfOk result (λ answers. length answers.items ≤ length deeds.now) }
    ensures plays { IfOk result (λ answers. DeedsLead ⟦<Store<MemDisk> as StoreLike>⟧.keeps_model ⟦<Store<MemDisk> as StoreLike>⟧.about ⟦<Store<MemDisk> as StoreLike>⟧.keeps ⟦<Store<MemDisk> as StoreLike>⟧.is_pending ⟦<Store<MemDisk> as StoreLike>⟧.may_leave_now ⟦<Store<MemDisk> as StoreLike>⟧.moment ⟦<Store<MemDisk> as StoreLike>⟧.may_have_left_since ⟦<Store<MemDisk> as StoreLike>⟧.failures (λ s. s.disk)
        deeds.now answers.items managed.old managed.new) }
    ensures outside { OnOk result (GrowsOutside managed.old managed.new) }
    ensures pass { IfOk result (λ answers. (dropped : SessionId → List ℕ) × AreOfOneVolume ⟦<Store<MemDisk> as StoreLike>⟧.about ⟦<Store<MemDisk> as StoreLike>⟧.keeps ⟦<Store<MemDisk> as StoreLike>⟧.may_leave_now
        (zip deeds.now answers.items) dropped managed.old.world managed.new.world) }
{
    lives_are_of_one_volume();
    managed.sound();
    let mut answers = Vec::with_capacity(alloc, deeds.len())?;
    for deed in deeds {
        managed.sound();
        let answer = play_deed(alloc, managed, deed);
        managed.sound();
        if has_met_stop(managed) {
            return Ok(answers);
        }
        answers.push_reserved(answer);
    }
    Ok(answers)
}

/// Whether a device call met its stop, of a member's disk, the configuration's, or the one on its way, which refused that call then.
pub fn has_met_stop(managed: &ManagedWorld<Store<MemDisk>, MemDisk>) -> bool
    ensures { IsTrue result ↔ HasMetStop (λ s. s.disk) managed.now }
{
    managed.management.disk().is_stopped()
        || member_met_stop(&managed.world)
        || refused_by_stop(&managed.candidate)
}

/// Whether the disk on its way did, and refused that call.
fn refused_by_stop(candidate: &Candidate<Store<MemDisk>, MemDisk>) -> bool
    ensures { IsTrue result ↔ RefusedByStop candidate.now }
{
    match candidate {
        Candidate::Refused(refused) => refused.disk().is_stopped(),
        _ => false,
    }
}

/// Whether the disk of a member did.
fn member_met_stop(world: &World<Store<MemDisk>>) -> bool
    ensures { IsTrue result ↔ MemberMetStop (λ s. s.disk) world.now }
{
    for at in 0..world.len() {
        if world.store(at).disk().is_stopped() {
            return true;
        }
    }
    false
}

/// Does one deed; then what the member came to know, whose volume the disk on its way is given, is noted.
fn play_deed(
    alloc: Global,
    managed: &mut ManagedWorld<Store<MemDisk>, MemDisk>,
    deed: &Deed,
) -> Answer
    ensures does { DoesDeed ⟦<Store<MemDisk> as StoreLike>⟧.keeps_model ⟦<Store<MemDisk> as StoreLike>⟧.about ⟦<Store<MemDisk> as StoreLike>⟧.keeps ⟦<Store<MemDisk> as StoreLike>⟧.is_pending ⟦<Store<MemDisk> as StoreLike>⟧.may_leave_now ⟦<Store<MemDisk> as StoreLike>⟧.moment ⟦<Store<MemDisk> as StoreLike>⟧.may_have_left_since ⟦<Store<MemDisk> as StoreLike>⟧.failures (λ s. s.disk)
        deed.now result managed.old managed.new }
    ensures outside { GrowsOutside managed.old managed.new }
    ensures one_volume { IsOfOneVolumeIn ⟦<Store<MemDisk> as StoreLike>⟧.about ⟦<Store<MemDisk> as StoreLike>⟧.keeps ⟦<Store<MemDisk> as StoreLike>⟧.may_leave_now
        (fed_by deed.now result) (handed_by deed.now result) managed.old managed.new }
    ensures copy { KeepsCopyIn ⟦<Store<MemDisk> as StoreLike>⟧.about ⟦<Store<MemDisk> as StoreLike>⟧.keeps ⟦<Store<MemDisk> as StoreLike>⟧.may_leave_now managed.old managed.new }
{
    let answer = do_deed(alloc, managed, deed);
    managed.note();
    answer
}

/// Does it.
fn do_deed(
    alloc: Global,
    managed: &mut ManagedWorld<Store<MemDisk>, MemDisk>,
    deed: &Deed,
) -> Answer
    ensures does { DoesIt ⟦<Store<MemDisk> as StoreLike>⟧.keeps_model ⟦<Store<MemDisk> as StoreLike>⟧.about ⟦<Store<MemDisk> as StoreLike>⟧.keeps ⟦<Store<MemDisk> as StoreLike>⟧.is_pending ⟦<Store<MemDisk> as StoreLike>⟧.may_leave_now ⟦<Store<MemDisk> as StoreLike>⟧.moment ⟦<Store<MemDisk> as StoreLike>⟧.may_have_left_since ⟦<Store<MemDisk> as StoreLike>⟧.failures (λ s. s.disk)
        deed.now result managed.old managed.new }
    ensures outside { GrowsOutside managed.old managed.new }
    ensures outside_stay { is_abandoning deed.now ≡ false → managed.new.outside ≡ managed.old.outside }
    ensures one_volume { IsOfOneVolumeIn ⟦<Store<MemDisk> as StoreLike>⟧.about ⟦<Store<MemDisk> as StoreLike>⟧.keeps ⟦<Store<MemDisk> as StoreLike>⟧.may_leave_now
        (fed_by deed.now result) (handed_by deed.now result) managed.old managed.new }
    ensures copy { KeepsCopyIn ⟦<Store<MemDisk> as StoreLike>⟧.about ⟦<Store<MemDisk> as StoreLike>⟧.keeps ⟦<Store<MemDisk> as StoreLike>⟧.may_leave_now managed.old managed.new }
{
    match deed {
        Deed::Step(step) => take_step(alloc, managed, step),
        Deed::Manage(act) => manage(alloc, managed, *act),
        Deed::Arm { at, event } => arm_member(alloc, managed, *at, *event),
        Deed::ArmConfig { event } => arm_config(alloc, managed, *event),
    }
}

/// A step of the world.
fn take_step(
    alloc: Global,
    managed: &mut ManagedWorld<Store<MemDisk>, MemDisk>,
    step: &Step,
) -> Answer
    ensures does { Does ⟦<Store<MemDisk> as StoreLike>⟧.keeps_model ⟦<Store<MemDisk> as StoreLike>⟧.about ⟦<Store<MemDisk> as StoreLike>⟧.keeps ⟦<Store<MemDisk> as StoreLike>⟧.is_pending ⟦<Store<MemDisk> as StoreLike>⟧.may_leave_now ⟦<Store<MemDisk> as StoreLike>⟧.moment ⟦<Store<MemDisk> as StoreLike>⟧.may_have_left_since ⟦<Store<MemDisk> as StoreLike>⟧.failures step.now result managed.old.world managed.new.world }
    ensures management { managed.new.management ≡ managed.old.management }
    ensures candidate { managed.new.candidate ≡ managed.old.candidate }
    ensures outside { managed.new.outside ≡ managed.old.outside }
    ensures one_volume { IsOfOneVolume ⟦<Store<MemDisk> as StoreLike>⟧.about ⟦<Store<MemDisk> as StoreLike>⟧.keeps ⟦<Store<MemDisk> as StoreLike>⟧.may_leave_now
        (fed_by_step step.now result) (handed_by_step step.now result) managed.old.world managed.new.world }
{
    play(alloc, &mut managed.world, step)
}

/// Something is to happen at a device call to come, of the member at a place.
fn arm_member(
    alloc: Global,
    managed: &mut ManagedWorld<Store<MemDisk>, MemDisk>,
    at: usize,
    event: Event,
) -> Answer
    ensures does { IsArmed ⟦<Store<MemDisk> as StoreLike>⟧.about ⟦<Store<MemDisk> as StoreLike>⟧.keeps ⟦<Store<MemDisk> as StoreLike>⟧.is_pending ⟦<Store<MemDisk> as StoreLike>⟧.may_leave_now ⟦<Store<MemDisk> as StoreLike>⟧.failures (λ s. s.disk)
        at event result managed.old.world managed.new.world }
    ensures management { managed.new.management ≡ managed.old.management }
    ensures candidate { managed.new.candidate ≡ managed.old.candidate }
    ensures outside { managed.new.outside ≡ managed.old.outside }
    ensures one_volume { IsOfOneVolume ⟦<Store<MemDisk> as StoreLike>⟧.about ⟦<Store<MemDisk> as StoreLike>⟧.keeps ⟦<Store<MemDisk> as StoreLike>⟧.may_leave_now
        no_one no_one managed.old.world managed.new.world }
{
    arm(alloc, &mut managed.world, at, event)
}

/// Of the member at a place in a world that has no manager here.
fn arm(alloc: Global, world: &mut World<Store<MemDisk>>, at: usize, event: Event) -> Answer
    ensures does { IsArmed ⟦<Store<MemDisk> as StoreLike>⟧.about ⟦<Store<MemDisk> as StoreLike>⟧.keeps ⟦<Store<MemDisk> as StoreLike>⟧.is_pending ⟦<Store<MemDisk> as StoreLike>⟧.may_leave_now ⟦<Store<MemDisk> as StoreLike>⟧.failures (λ s. s.disk)
        at event result world.old world.new }
    ensures one_volume { IsOfOneVolume ⟦<Store<MemDisk> as StoreLike>⟧.about ⟦<Store<MemDisk> as StoreLike>⟧.keeps ⟦<Store<MemDisk> as StoreLike>⟧.may_leave_now
        no_one no_one world.old world.new }
{
    if at >= world.len() {
        return Answer::Skipped;
    }
    match world.arm(at, event) {
        Ok(()) => Answer::Taken(Told::Out(Vec::new(alloc))),
        Err(_) => Answer::Refused(MEMORY),
    }
}

/// Something is to happen at a device call to come, of the configuration's disk.
fn arm_config(
    alloc: Global,
    managed: &mut ManagedWorld<Store<MemDisk>, MemDisk>,
    event: Event,
) -> Answer
    ensures does { IsConfigArmed event result managed.old managed.new }
    ensures outside { managed.new.outside ≡ managed.old.outside }
    ensures one_volume { IsOfOneVolume ⟦<Store<MemDisk> as StoreLike>⟧.about ⟦<Store<MemDisk> as StoreLike>⟧.keeps ⟦<Store<MemDisk> as StoreLike>⟧.may_leave_now
        no_one no_one managed.old.world managed.new.world }
{
    match managed.management.arm(event) {
        Ok(()) => Answer::Taken(Told::Out(Vec::new(alloc))),
        Err(_) => Answer::Refused(MEMORY),
    }
}

/// The chain goes on from the source of the disks that return. A recovery in which a device fails or stops is done again, after another cut, with
/// nothing armed any more.
fn go_on(
    alloc: Global,
    disks: Disks,
    returned: &[usize],
    cut: Cut,
) -> Result<ManagedWorld<Store<MemDisk>, MemDisk>, Refusal>
    requires only { All GivesOnly disks.slots.items }
    requires only_config { Only (given_of disks.config) (may_be_left disks.config) }
    requires chain { HasChain disks.config }
    ensures alone { IfOk result (λ managed. length managed.world.chain.members ≡ 1) }
    ensures disks { IfOk result (λ managed. AreOnDisks ⟦<Store<MemDisk> as StoreLike>⟧.about managed.world) }
    ensures go { IfOk result (AllGo (λ s. s.disk)) }
    ensures goes_on { IfOk result (RecoversFrom ⟦<Store<MemDisk> as StoreLike>⟧.about ⟦<Store<MemDisk> as StoreLike>⟧.keeps ⟦<Store<MemDisk> as StoreLike>⟧.may_leave_now returned.now disks.slots.items disks.config) }
    ensures refused { IfErr result (IsNoReturn returned.now disks.slots.items disks.config) }
{
    disks_mean_one();
    records_are_one();
    let Disks { slots, mut config } = disks;
    let (choice, mut slots) = choose_again(alloc, slots, returned, &mut config, cut);
    let SlotDisk { slot: _, disk } = slots.remove(choice?);
    let managed = go_on_again(alloc, disk, config, cut)?;
    Ok(with_outside(managed, slots))
}

/// The place of the source among disks of which nothing else may be left than what they give; so it is of those that come back too, and they
/// give the same.
fn choose_again(
    alloc: Global,
    disks: Vec<SlotDisk<MemDisk>>,
    returned: &[usize],
    config: &mut MemDisk,
    cut: Cut,
) -> (Result<usize, Refusal>, Vec<SlotDisk<MemDisk>>)
    requires only { All GivesOnly disks.items }
    requires only_config { Only (given_of config.old) (may_be_left config.old) }
    requires chain { HasChain config.old }
    ensures chosen { IfOk result.0 (λ place. (r : Record) × StandsThere config.old r × IsChosen returned.now disks.items r place) }
    ensures refused { IfErr result.0 (IsNoChoice returned.now disks.items config.old) }
    ensures back { AllZip IsStill disks.items result.1.items }
    ensures same { given_of config.new ≡ given_of config.old }
    ensures only { Only (given_of config.new) (may_be_left config.new) }
{
    let (choice, disks) = choose_among(alloc, disks, returned, config);
    if choice.is_ok() {
        return (choice, disks);
    }
    let disks = cut_again(disks, cut);
    config.cut(cut);
    config.disarm();
    choose_among(alloc, disks, returned, config)
}

/// The chain goes on from a disk of a member, by the record on the configuration's, where nothing else may be left than what they give. A
/// recovery in which a device fails or stops is done again, after another cut, with nothing armed any more.
fn go_on_again(
    alloc: Global,
    disk: MemDisk,
    config: MemDisk,
    cut: Cut,
) -> Result<ManagedWorld<Store<MemDisk>, MemDisk>, Refusal>
    requires returns { MayReturn disk config }
    requires only { Only (given_of disk) (may_be_left disk) }
    requires only_config { Only (given_of config) (may_be_left config) }
    ensures alone { IfOk result (λ managed. length managed.world.chain.members ≡ 1) }
    ensures disks { IfOk result (λ managed. AreOnDisks ⟦<Store<MemDisk> as StoreLike>⟧.about managed.world) }
    ensures go { IfOk result (AllGo (λ s. s.disk)) }
    ensures goes_on { IfOk result (Recovers ⟦<Store<MemDisk> as StoreLike>⟧.about ⟦<Store<MemDisk> as StoreLike>⟧.keeps ⟦<Store<MemDisk> as StoreLike>⟧.may_leave_now disk config) }
    ensures refused { IfErr result (λ r. IsOfMemory r ⊎ (((r ≡ Refusal.NotInChain) × IsStranger disk config) ⊎ ((r ≡ Refusal.Config config_refusals.NotNext) × IsAtItsEnd config))) }
{
    disks_mean_one();
    records_are_one();
    numbers_are_one();
    let NotAlone {
        refusal,
        disk,
        config,
    } = match go_on_alone(alloc, disk, config) {
        Ok(managed) => return Ok(managed),
        Err(alone) => alone,
    };
    let Some(mut disk) = disk else {
        return Err(refusal);
    };
    let mut config = config;
    disk.cut(cut);
    disk.disarm();
    config.cut(cut);
    config.disarm();
    match go_on_alone(alloc, disk, config) {
        Ok(managed) => Ok(managed),
        Err(again) => {
            let NotAlone {
                refusal,
                disk,
                config,
            } = again;
            drop(disk);
            drop(config);
            Err(refusal)
        }
    }
}
