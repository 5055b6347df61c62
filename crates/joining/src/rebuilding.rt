//! A disk is rebuilt from the tail of a chain, and joins the chain, while nothing else goes on.
ghost use Rattle.std.specs.Prelude.{◌≡◌, ◌≢◌, ◌*◌, ◌≤◌, ◌↔◌, List, false, length, suc, true, ℕ, IfErr, IfOk, IsTrue, OnErr, OnOk};
ghost use Rattle.chain_core.specs.Node.{IsRunning};
ghost use Rattle.home_blocks.specs.Places.{disk_size_of};
ghost use Rattle.joining.specs.Rebuilding.{AllKeep, HasOneMore, IsBeforeCopying, IsBehindCopying, IsLeft, IsQuiet, IsRebuilt, IsSteady, KeepStill};
ghost use Rattle.joining.specs.Refusing.{LeavesConfig, RefusesCopying, RefusesEntering, RefusesRebuilding};
ghost use Rattle.manager.specs.Manager.{done_of, next_of};
ghost use Rattle.world.specs.Joining.{HoldsNobody, is_of_copying};

use crate::copying::Copying;
use crate::filling::fill;
use crate::refusal::NotGiven;
use configurations::{Epoch, MAX_MEMBERS};
use disk_model::Disk;
use gate_journal::{Slot, Synced};
use local_store::{Store, StoreLike};
use manager::Order;
use std::alloc::Global;
use world::{Management, World};

/// Why a disk wasn't rebuilt. The recorded chain is as it was, and nothing is under way in it.
#[derive(Drop)]
pub enum NotRebuilt<D> {
    /// The manager refuses to begin, and noted who has stopped; or the recorded epoch is the greatest. The world and the disk are as they were.
    Manager(manager::Refusal, D),
    /// The disk that was to be rebuilt refuses to begin, a block, the end, or to be opened.
    Disk(local_store::Refusal, D),
    /// Nobody stands as the chain's tail, or who stands as it has stopped.
    TailStopped,
    /// The configuration's disk refuses the record. The disk that was rebuilt is counted, and joins.
    Config(configurations::Refusal),
    /// Memory ran out before the record was begun. The disk that was rebuilt is counted, and joins.
    Memory,
    /// This order of the manager's comes next, and can't be carried out: `Hold`, `CountIn` or `Record`. Or none comes, `Idle`, since by what the
    /// manager noted the tail has stopped: then nothing was done.
    OutOfOrder(Order),
}

/// Rebuilds a disk of at least `disk_size` bytes of the chain's geometry, which may hold anything, from the chain's tail, and has it join the
/// chain at a slot behind the tail: the orders of the manager's joining are carried out, one after another, and all members are told. In the
/// chain nothing is under way, and nothing else goes on meanwhile. The disk's incarnation is the next epoch.
pub fn rebuild<D: Disk + Drop, C: Disk + Drop>(
    alloc: Global,
    world: &mut World<Store<D>>,
    management: &mut Management<C>,
    slot: Slot,
    disk: D,
) -> Result<(), NotRebuilt<D>>
    requires quiet { IsQuiet world.old.chain }
    requires on_disk { disk_size_of world.old.chain.geometry ≤ D.size disk }
    ensures one_more { OnOk result (HasOneMore slot world.old.chain world.new.chain) }
    ensures quiet { OnOk result (IsQuiet world.new.chain) }

    // The members that there were keep what they kept, and the new one has it too.
    ensures keep { D.keeps_model → (volume : List ℕ) → length volume ≡ 4096 * world.old.chain.geometry.blocks
        → AllKeep ⟦<Store<D> as StoreLike>⟧.keeps volume world.old.chain → OnOk result (AllKeep ⟦<Store<D> as StoreLike>⟧.keeps volume world.new.chain) }
    ensures refused { IfErr result (RefusesRebuilding D.keeps_model ⟦<Store<D> as StoreLike>⟧.about ⟦<Store<D> as StoreLike>⟧.keeps D.gives D.failures C.failures
        slot disk management.old management.new world.old world.new) }

    // A refusal leaves the members and the recorded chain, and nothing under way; and each store keeps what it kept, unless the tail stops. Of the
    // management only the manager changes, unless the configuration's disk refuses.
    ensures left { OnErr result (IsLeft world.old.chain world.new.chain) }
    ensures kept { D.keeps_model → IfErr result (λ e. e ≢ NotRebuilt.TailStopped → KeepStill ⟦<Store<D> as StoreLike>⟧.keeps world.old.chain world.new.chain) }
    ensures config { IfErr result (λ e. LeavesConfig e management.old management.new) }
{
    let Some(epoch) = Epoch::new(world.recorded().epoch().number() + 1) else {
        return Err(NotRebuilt::Manager(manager::Refusal::NotNext, disk));
    };
    if let Err(refusal) = management.join(world, u64::from(slot.number())) {
        return Err(NotRebuilt::Manager(refusal, disk));
    }
    if is_idle(management) {
        return Err(NotRebuilt::OutOfOrder(Order::Idle));
    }
    let (store, receipt) = copy_volume(alloc, world, management, slot, epoch, disk)?;
    enter(world, management, slot, store, receipt)?;
    tell_all(world, management);
    Ok(())
}

/// Whether no order comes.
fn is_idle<C: Disk + Drop>(management: &Management<C>) -> bool
    ensures { IsTrue result ↔ (next_of management.now.manager ≡ Order.Idle) }
{
    matches!(management.next(), Order::Idle)
}

/// The orders up to the one by which the disk is counted: it is attached, the volume is copied onto it, the tail holds the front, and the disk's
/// installation ends.
fn copy_volume<D: Disk + Drop, C: Disk + Drop>(
    alloc: Global,
    world: &mut World<Store<D>>,
    management: &mut Management<C>,
    slot: Slot,
    epoch: Epoch,
    disk: D,
) -> Result<(Store<D>, Synced), NotRebuilt<D>>
    requires quiet { IsQuiet world.old.chain }
    requires on_disk { disk_size_of world.old.chain.geometry ≤ D.size disk }
    requires next { epoch ≡ suc world.old.chain.recorded.epoch }
    requires orders { IsBeforeCopying slot management.old.manager }
    ensures steady { IsSteady world.old.chain world.new.chain }
    ensures keep { D.keeps_model → OnOk result (KeepStill ⟦<Store<D> as StoreLike>⟧.keeps world.old.chain world.new.chain) }
    ensures runs { IfOk result (λ r. IsRunning (⟦<Store<D> as StoreLike>⟧.about r.0) (record { premise = D.keeps_model; keeps = ⟦<Store<D> as StoreLike>⟧.keeps r.0 })) }
    ensures copied { D.keeps_model → (volume : List ℕ) → length volume ≡ 4096 * world.old.chain.geometry.blocks
        → AllKeep ⟦<Store<D> as StoreLike>⟧.keeps volume world.old.chain → IfOk result (λ r. ⟦<Store<D> as StoreLike>⟧.keeps r.0 volume) }
    ensures rebuilt { D.keeps_model → (volume : List ℕ) → length volume ≡ 4096 * world.old.chain.geometry.blocks
        → AllKeep ⟦<Store<D> as StoreLike>⟧.keeps volume world.old.chain → IfOk result (λ r. IsRebuilt ⟦<Store<D> as StoreLike>⟧.about slot world.old.chain r.0 r.1) }
    ensures orders { OnOk result (IsBehindCopying slot management.new.manager) }
    ensures management { management.new ≡ record management.old { manager = management.new.manager } }
    ensures kept { D.keeps_model → IfErr result (λ e. e ≢ NotRebuilt.TailStopped → KeepStill ⟦<Store<D> as StoreLike>⟧.keeps world.old.chain world.new.chain) }
    ensures refused { IfErr result (RefusesCopying D.keeps_model ⟦<Store<D> as StoreLike>⟧.keeps D.gives D.failures slot disk management.new world.old world.new) }
{
    let Some(at) = world.tail() else {
        return Err(NotRebuilt::TailStopped);
    };
    let mut copying = match Copying::start(alloc, world, at, disk, slot, epoch.number()) {
        Ok(copying) => copying,
        Err((refusal, disk)) => return Err(NotRebuilt::Disk(refusal, disk)),
    };
    gave(management);
    match fill(&mut copying, world) {
        Ok(()) => {}
        Err(NotGiven::Stopped(_)) => return Err(NotRebuilt::TailStopped),
        Err(NotGiven::Refused(refusal)) => {
            return Err(NotRebuilt::Disk(refusal, copying.into_disk()));
        }
    }
    gave(management);
    // Nothing is written meanwhile: the front that is held is the one that was noted, and no block is due again.
    if !hold(world, management) {
        return Err(NotRebuilt::OutOfOrder(Order::Hold(slot)));
    }
    gave(management);
    match copying.finish(alloc) {
        Ok(given) => Ok(given),
        Err((refusal, disk)) => Err(NotRebuilt::Disk(refusal, disk)),
    }
}

/// The next order asks for something of the joiner's disk alone, and that was done.
fn gave<C: Disk + Drop>(management: &mut Management<C>)
    requires { is_of_copying (next_of management.old.manager) ≡ true }
    ensures { management.new ≡ record management.old { manager = done_of management.old.manager } }
{
    if !management.gave() {
        unreachable!();
    }
}

/// The tail holds the front. `false` where it doesn't: nothing changed.
fn hold<S: StoreLike + Drop, C: Disk + Drop>(
    world: &mut World<S>,
    management: &mut Management<C>,
) -> bool
    requires quiet { IsQuiet world.old.chain }
    ensures steady { IsSteady world.old.chain world.new.chain }
    ensures keep { KeepStill S.keeps world.old.chain world.new.chain }
    ensures held { result ≡ true → management.new ≡ record management.old { manager = done_of management.old.manager } }
    ensures idle { result ≡ false → HoldsNobody management.old world.old × ((management.new ≡ management.old) × (world.new ≡ world.old)) }
{
    management.hold(world).is_some()
}

/// The disk is counted, the record with it is written, and its member is in the chain.
fn enter<D: Disk + Drop, C: Disk + Drop>(
    world: &mut World<Store<D>>,
    management: &mut Management<C>,
    slot: Slot,
    store: Store<D>,
    receipt: Synced,
) -> Result<(), NotRebuilt<D>>
    requires quiet { IsQuiet world.old.chain }
    requires orders { IsBehindCopying slot management.old.manager }
    requires runs { IsRunning (⟦<Store<D> as StoreLike>⟧.about store) (record { premise = D.keeps_model; keeps = ⟦<Store<D> as StoreLike>⟧.keeps store }) }
    ensures one_more { OnOk result (HasOneMore slot world.old.chain world.new.chain) }
    ensures quiet { OnOk result (IsQuiet world.new.chain) }
    ensures keep { (volume : List ℕ) → ⟦<Store<D> as StoreLike>⟧.keeps store volume
        → AllKeep ⟦<Store<D> as StoreLike>⟧.keeps volume world.old.chain → OnOk result (AllKeep ⟦<Store<D> as StoreLike>⟧.keeps volume world.new.chain) }
    ensures refused { IfErr result (RefusesEntering ⟦<Store<D> as StoreLike>⟧.about C.failures slot store receipt management.old management.new world.new) }
    ensures left { OnErr result (IsLeft world.old.chain world.new.chain) }
    ensures members { OnErr result (world.new.chain.members ≡ world.old.chain.members) }
    ensures config { IfErr result (λ e. LeavesConfig e management.old management.new) }
{
    match management.count_in(world, store, receipt) {
        Ok(()) => {}
        Err(_) => return Err(NotRebuilt::OutOfOrder(Order::CountIn(slot))),
    }
    match management.begin_join(world) {
        Ok(true) => {}
        Ok(false) => return Err(NotRebuilt::OutOfOrder(Order::Record)),
        Err(_) => return Err(NotRebuilt::Memory),
    }
    match management.end_join(world) {
        Ok(true) => Ok(()),
        Ok(false) => unreachable!(),
        Err(refusal) => Err(NotRebuilt::Config(refusal)),
    }
}

/// All members that are to be told the record are told it.
fn tell_all<S: StoreLike + Drop, C: Disk + Drop>(
    world: &mut World<S>,
    management: &mut Management<C>,
)
    requires quiet { IsQuiet world.old.chain }
    ensures steady { IsSteady world.old.chain world.new.chain }
    ensures keep { KeepStill S.keeps world.old.chain world.new.chain }
{
    for _ in 0..MAX_MEMBERS {
        if !tell_next(world, management) {
            return;
        }
    }
}

/// The next member is told the record, if one is to be.
fn tell_next<S: StoreLike + Drop, C: Disk + Drop>(
    world: &mut World<S>,
    management: &mut Management<C>,
) -> bool
    requires quiet { IsQuiet world.old.chain }
    ensures steady { IsSteady world.old.chain world.new.chain }
    ensures keep { KeepStill S.keeps world.old.chain world.new.chain }
{
    management.tell(world).is_some()
}
