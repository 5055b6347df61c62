//! The manager of a world carries its orders out.
ghost use Rattle.std.specs.Prelude.{◌≡◌, ◌≢◌, ◌⊎◌, ◌+◌, ◌∷◌, ◌++◌, ◌<◌, ◌≤◌, [], None, Some, false, length, replicate, true, IfErr, IfNone, IfOk, IfSome, IsErrOf, IsOk, OnErr, OnOk};
ghost use Rattle.configurations.specs.Refusal.{HasCause, IsOfDevice, IsOfRecording};
ghost use Rattle.configurations.specs.Store.{HoldsRecord, IsSettledConfig};
ghost use Rattle.disk_model.specs.Disk.{LeavesOnly, NothingNew};
ghost use Rattle.disk_model.specs.Event.{counted_from};
ghost use Rattle.disk_model.specs.Memory.{IsAsBefore, calls_of, may_be_left, script_of};
ghost use Rattle.disk_model.specs.Part.{inside};
ghost use Rattle.manager.specs.Manager.{next_of, removal_of, why_no_removal};
ghost use Rattle.manager.specs.Orders.{is_record};
ghost use Rattle.manager.specs.declared.refusal.Refusal.TheVariants as managers;
ghost use Rattle.clients.specs.Clients.{no_one};
ghost use Rattle.world.specs.Management.{BeginsNone, CountsNone, CountsOut, EndsNone, HasBegun, HasEnded, HasNobody, HoldsWritten, IsMemberAt, TellsNext, TellsNobody, TellsSlot, noted};
ghost use Rattle.world.specs.Telling.{handed_some};
ghost use Rattle.world.specs.World.{IsOfOneVolume};

use crate::told::Told;
use crate::world::World;
use configurations::{ConfigStore, Record, Refusal};
use disk_model::{Disk, Event, MemDisk};
use gate_journal::Slot;
use local_store::StoreLike;
use manager::{Manager, Order};
use std::alloc::{AllocError, Global};
use std::marker::Model;

/// The manager of a world, and the disk of its configuration, on which the record stands.
#[derive(Drop)]
pub struct Management<D: Disk> {
    pub(crate) alloc: Global,
    pub(crate) manager: Manager,
    pub(crate) config: ConfigStore,
    pub(crate) disk: D,
}

impl<D: Disk> Model for Management<D> {
    ghost use Rattle.world.specs.Management.{IsOnDisk, Managing};

    ghost Value = { Managing D };

    ghost view = { λ m. record { manager = m.manager; config = m.config; disk = m.disk } };

    ghost invariant = { λ m. IsOnDisk D.size (record { manager = m.manager; config = m.config; disk = m.disk }) };
}

impl<D: Disk + Drop> Management<D> {
    /// The manager of a chain, whose record this is, of which no member has stopped, with no change under way. The record stands in a
    /// part of the disk.
    pub fn new(alloc: Global, chain: Record, config: ConfigStore, disk: D) -> Management<D>
        requires { config.pair.part.start + config.pair.part.len ≤ D.size disk }
        ensures manager { result.manager ≡ record { chain = chain; stopped = replicate 8 false; joining = None; coming = chain.members; begun = false; left = [] } }
        ensures config { result.config ≡ config }
        ensures disk { result.disk ≡ disk }
    {
        Management {
            alloc,
            manager: Manager::new(alloc, chain),
            config,
            disk,
        }
    }

    /// Does nothing: its clause is what holds of every manager.
    pub fn sound(&self)
        ensures { self.now.config.pair.part.start + self.now.config.pair.part.len ≤ D.size self.now.disk }
    {
        let _ = &self.disk;
    }

    /// The next order.
    pub fn next(&self) -> Order
        ensures { result ≡ next_of self.now.manager }
    {
        self.manager.next()
    }

    /// The configuration's disk.
    pub fn disk(&self) -> &D
        ensures { result.now ≡ self.now.disk }
    {
        &self.disk
    }

    /// Gives the manager up, and the configuration's disk back.
    pub fn into_disk(self) -> D
        ensures { result ≡ self.disk }
    {
        let Management {
            alloc: _,
            manager: _,
            config: _,
            disk,
        } = self;
        disk
    }

    /// The manager notes who has stopped of the world's chain, and begins the removal of the stopped member at a slot. 171
    /// `OneAtATime` while a change is under way, 151 `NotMember` for a slot that isn't in the chain, 172 `LastMember` where the chain
    /// has no other, 173 `NotStopped` while the member runs, 162 `NotNext` where the chain's epoch is the greatest, in this order, and
    /// 100 `Memory` after these.
    pub fn remove<S: StoreLike + Drop>(
        &mut self,
        world: &World<S>,
        slot: u64,
    ) -> Result<(), manager::Refusal>
        ensures done { OnOk result (self.new ≡ record self.old { manager = removal_of slot (noted world.now.chain self.old.manager) }) }
        ensures ok { IsOk result → why_no_removal slot (noted world.now.chain self.old.manager) ≡ None }
        ensures refused { IfErr result (λ e. e ≢ managers.Memory → why_no_removal slot (noted world.now.chain self.old.manager) ≡ Some e) }
        ensures memory { IsErrOf result managers.Memory → why_no_removal slot (noted world.now.chain self.old.manager) ≡ None }
        ensures only_noted { OnErr result (self.new ≡ record self.old { manager = noted world.now.chain self.old.manager }) }
    {
        self.note(world);
        self.manager.remove(self.alloc, slot)
    }

    /// The manager notes who has stopped of the world's chain.
    pub(crate) fn note<S: StoreLike + Drop>(&mut self, world: &World<S>)
        ensures { self.new ≡ record self.old { manager = noted world.now.chain self.old.manager } }
    {
        for at in 0..world.len() {
            if world.is_recorded(at) && world.cause(at).is_some() {
                match self.manager.stopped(u64::from(world.slot(at).number())) {
                    // 151: the manager's chain has no such slot.
                    Ok(()) | Err(_) => {}
                }
            }
        }
    }

    /// Where the next order is to write a record: it is being written from now on. `false` where that isn't the next order, or it may not
    /// come next, or is being written already: nothing changed. 100 where memory runs out.
    pub fn begin_record<S: StoreLike + Drop>(
        &mut self,
        world: &mut World<S>,
    ) -> Result<bool, AllocError>
        ensures begun { IfOk result (λ done. done ≡ true → HasBegun self.old self.new world.old world.new) }
        ensures idle { IfOk result (λ done. done ≡ false → BeginsNone self.old world.old × ((self.new ≡ self.old) × (world.new ≡ world.old))) }
        ensures err { OnErr result ((self.new ≡ self.old) × (world.new ≡ world.old)) }
        ensures one_volume { S.keeps_model → IsOfOneVolume S.about S.keeps S.may_leave_now no_one no_one world.old world.new }
    {
        let Some(next) = self.manager.record(self.alloc)? else {
            return Ok(false);
        };
        if !world.begin_record(next) {
            return Ok(false);
        }
        self.manager.begin();
        Ok(true)
    }

    /// The record that is being written goes to the disk, by six device calls, and is the recorded one. `false` where no record is the next
    /// order, none is being written that may be recorded, or somebody joins: nothing changed.
    ///
    /// What `ConfigStore::record` refuses: the record is being written still. After a refusal of the device it may stand on the disk, or
    /// the one before; and then each such order is refused with 122.
    pub fn end_record<S: StoreLike + Drop>(&mut self, world: &mut World<S>) -> Result<bool, Refusal>
        ensures ended { IfOk result (λ done. done ≡ true → HasEnded self.old self.new world.old world.new) }
        ensures settled { D.keeps_model → IsSettledConfig self.old.config (D.gives self.old.disk) (D.may_leave_now self.old.disk)
            → OnOk result (IsSettledConfig self.new.config (D.gives self.new.disk) (D.may_leave_now self.new.disk)) }
        ensures idle { IfOk result (λ done. done ≡ false → EndsNone self.old world.old × ((self.new ≡ self.old) × (world.new ≡ world.old))) }
        ensures world { OnErr result (world.new ≡ world.old) }
        ensures manager { OnErr result (self.new.manager ≡ self.old.manager) }
        ensures unchanged { IfErr result (λ r. ¬ IsOfDevice r → self.new ≡ self.old) }
        ensures told { IfErr result IsOfRecording }
        ensures cause { HasCause (D.failures self.old.disk) (D.failures self.new.disk) result }
        ensures device { IfErr result (λ r. IsOfDevice r → self.new.config ≡ record self.old.config { pair = record self.old.config.pair { is_closed = self.new.config.pair.is_closed; broken = true } }) }
        ensures broken { self.old.config.pair.broken ≡ true → IfErr result (λ r. ¬ IsOfDevice r) × IfOk result (λ done. done ≡ false) }
        ensures attempted { IfErr result (λ r. IsOfDevice r → (next : Record) → world.old.chain.writing ≡ Some next → self.old.config.current.epoch ≢ next.epoch) }

        // A stop at any moment of the call leaves the record that was there, or the one that is being written.
        ensures any_moment { D.keeps_model → IsSettledConfig self.old.config (D.gives self.old.disk) (D.may_leave_now self.old.disk)
            → LeavesOnly D.moment D.may_have_left_since self.old.disk self.new.disk (λ c. HoldsRecord self.old.config.current (inside self.old.config.pair.part c)
            ⊎ HoldsWritten world.old.chain.writing (inside self.old.config.pair.part c)) }
        ensures one_volume { S.keeps_model → IsOfOneVolume S.about S.keeps S.may_leave_now no_one no_one world.old world.new }
    {
        if !self.next_is_record() || !world.may_end() {
            return Ok(false);
        }
        let Some(next) = world.writing(self.alloc)? else {
            return Ok(false);
        };
        self.config.record(self.alloc, &mut self.disk, next)?;
        self.manager.done();
        Ok(world.end_record())
    }

    /// Whether the next order is to write a record.
    pub(crate) fn next_is_record(&self) -> bool
        ensures { result ≡ is_record (next_of self.now.manager) }
    {
        matches!(self.next(), Order::Record)
    }

    /// Where the next order is to count a slot out: the board counts it no longer. `false` where that isn't the next order, somebody is
    /// recorded at the slot, or somebody joins: nothing changed.
    pub fn count_out<S: StoreLike + Drop>(&mut self, world: &mut World<S>) -> bool
        ensures out { result ≡ true → CountsOut self.old self.new world.old world.new }
        ensures idle { result ≡ false → CountsNone self.old world.old × ((self.new ≡ self.old) × (world.new ≡ world.old)) }
        ensures one_volume { S.keeps_model → IsOfOneVolume S.about S.keeps S.may_leave_now no_one no_one world.old world.new }
    {
        let Order::CountOut(slot) = self.next() else {
            return false;
        };
        if !world.count_out(slot) {
            return false;
        }
        self.manager.done();
        true
    }

    /// Where the next order is to tell a member: the recorded member at its slot is told the record, if it runs. `None` where that isn't the
    /// next order: nothing changed.
    pub fn tell<S: StoreLike + Drop>(&mut self, world: &mut World<S>) -> Option<Told>
        ensures told { IfSome result (λ told. TellsNext told self.old self.new world.old world.new) }
        ensures idle { IfNone result (TellsNobody self.old × ((self.new ≡ self.old) × (world.new ≡ world.old))) }
        ensures one_volume { S.keeps_model → IsOfOneVolume S.about S.keeps S.may_leave_now no_one (handed_some result) world.old world.new }
    {
        let Order::Tell(slot) = self.next() else {
            return None;
        };
        let told = tell_slot(self.alloc, world, slot);
        self.manager.done();
        Some(told)
    }
}

/// The recorded member at a slot is told the record, if there is one, and it runs.
fn tell_slot<S: StoreLike + Drop>(alloc: Global, world: &mut World<S>, slot: Slot) -> Told
    ensures told { TellsSlot slot result world.old world.new }
    ensures one_volume { S.keeps_model → IsOfOneVolume S.about S.keeps S.may_leave_now no_one (handed_some (Some result)) world.old world.new }
{
    let Some(at) = member_at(world, slot) else {
        return Told::Out(Vec::new(alloc));
    };
    match world.tell(at) {
        Ok(told) => told,
        Err(_) => Told::Out(Vec::new(alloc)),
    }
}

/// The place of the recorded member at a slot, if there is one.
pub(crate) fn member_at<S: StoreLike + Drop>(world: &World<S>, slot: Slot) -> Option<usize>
    ensures there { IfSome result (IsMemberAt world.now.chain slot) }
    ensures within { IfSome result (λ at. at < length world.now.chain.members) }
    ensures nobody { IfNone result (HasNobody world.now.chain slot) }
{
    for at in 0..world.len() {
        if world.slot(at) == slot && world.is_recorded(at) {
            return Some(at);
        }
    }
    None
}

impl Management<MemDisk> {
    /// Adds an entry to the script of the configuration's disk, whose calls are counted from now: call 1 is the next one, and call 0 never
    /// comes. Nothing else changes.
    pub fn arm(&mut self, event: Event) -> Result<(), AllocError>
        ensures ok { OnOk result (script_of self.new.disk ≡ script_of self.old.disk ++ counted_from (calls_of self.old.disk) event ∷ []) }
        ensures err { OnErr result (script_of self.new.disk ≡ script_of self.old.disk) }
        ensures stays { IsAsBefore self.old.disk self.new.disk }
        ensures leaves { NothingNew (may_be_left self.old.disk) (may_be_left self.new.disk) }
        ensures manager { self.new.manager ≡ self.old.manager }
        ensures config { self.new.config ≡ self.old.config }
    {
        self.disk.arm(event)
    }
}
