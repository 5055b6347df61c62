//! The manager, and the changes that it is asked for.
ghost use Rattle.std.specs.Prelude.{◌≡◌, ◌≢◌, ◌↔◌, ◌+◌, ◌≤◌, None, Some, true, IfErr, IfOk, IsErrOf, IsOk, IsTrue, OnErr, OnOk};
ghost use Rattle.std.specs.Result.{result_err};
ghost use Rattle.configurations.specs.Store.{IsSettledConfig};
ghost use Rattle.manager.specs.Manager.{abandoned, is_stopped as is_stopped_at, joining_of, next_of, removal_of, stopped_at, why_no_abandoning, why_no_joining, why_no_removal, why_not_stopped};
ghost use Rattle.manager.specs.declared.refusal.Refusal.TheVariants.{Memory};
ghost use Rattle.management.specs.Management.{IsManaging, manager_of};

use board::Seat;
use configurations::{ConfigStore, Record};
use disk_model::Disk;
use gate_journal::{PAIR_SIZE, Slot};
use manager::{Manager, Order, Refusal};
use std::alloc::{AllocError, Global};
use std::marker::Model;

/// The manager of a chain, the disk on which its record stands, and the seat by which it counts slots at the chain's board.
#[derive(Drop)]
pub struct Management<C: Disk> {
    pub(crate) alloc: Global,
    pub(crate) manager: Manager,
    pub(crate) config: ConfigStore,
    pub(crate) disk: C,
    pub(crate) seat: Seat,
}

impl<C: Disk> Model for Management<C> {
    ghost use Rattle.management.specs.Management.{IsManaging, Managing};

    ghost Value = { Managing C };

    ghost view = { λ m. record { manager = m.manager; config = m.config; disk = m.disk; seat = m.seat } };

    ghost invariant = { λ m. IsManaging C.keeps_model C.size C.gives C.may_leave_now (record { manager = m.manager; config = m.config; disk = m.disk; seat = m.seat }) };
}

impl<C: Disk + Drop> Management<C> {
    /// The manager of the chain whose record a store holds in a part of this disk, of which nobody is stopped, with no change under way. The
    /// seat is the counting one.
    pub fn new(
        alloc: Global,
        config: ConfigStore,
        disk: C,
        seat: Seat,
    ) -> Result<Management<C>, AllocError>
        requires pair { config.pair.part.len ≡ PAIR_SIZE }
        requires on_disk { config.pair.part.start + config.pair.part.len ≤ C.size disk }
        requires settled { C.keeps_model → IsSettledConfig config (C.gives disk) (C.may_leave_now disk) }
        requires counting { seat.counts ≡ true }
        ensures { IfOk result (λ m. m ≡ record { manager = manager_of config.current; config = config; disk = disk; seat = seat }) }
    {
        let chain = copy_of(alloc, config.current())?;
        Ok(Management {
            alloc,
            manager: Manager::new(alloc, chain),
            config,
            disk,
            seat,
        })
    }

    /// Does nothing: its clause is what holds between two calls.
    pub fn sound(&self)
        ensures { IsManaging C.keeps_model C.size C.gives C.may_leave_now self.now }
    {
        let _ = &self.disk;
    }

    /// The next order.
    pub fn next(&self) -> Order
        ensures { result ≡ next_of self.now.manager }
    {
        self.manager.next()
    }

    /// The chain: the last record.
    pub fn chain(&self) -> &Record
        ensures { result.now ≡ self.now.manager.chain }
    {
        self.config.current()
    }

    /// The chain once more, for a member that is told it.
    pub fn chain_copy(&self) -> Result<Record, AllocError>
        ensures { IfOk result (λ chain. chain ≡ self.now.manager.chain) }
    {
        copy_of(self.alloc, self.config.current())
    }

    /// Whether the member at a slot is stopped.
    pub fn is_stopped(&self, slot: Slot) -> bool
        ensures { result ≡ is_stopped_at slot self.now.manager.stopped }
    {
        self.manager.is_stopped(u64::from(slot.number()))
    }

    /// The member at this slot, or the joiner, has stopped. 151 `NotMember` for a slot of neither.
    pub fn stopped(&mut self, slot: Slot) -> Result<(), Refusal>
        ensures done { OnOk result (self.new ≡ record self.old { manager = stopped_at slot self.old.manager }) }
        ensures why { result_err result ≡ why_not_stopped slot self.old.manager }
        ensures as_before { OnErr result (self.new ≡ self.old) }
    {
        self.manager.stopped(u64::from(slot.number()))
    }

    /// Begins the removal of the stopped member at a slot. 171 `OneAtATime` while a change is under way, 151 `NotMember` for a slot that
    /// isn't in the chain, 172 `LastMember` where the chain has no other, 173 `NotStopped` while the member runs, 162 `NotNext` where the
    /// chain's epoch is the greatest, in this order, and 100 `Memory` after these.
    pub fn remove(&mut self, slot: Slot) -> Result<(), Refusal>
        ensures done { OnOk result (self.new ≡ record self.old { manager = removal_of slot self.old.manager }) }
        ensures ok { IsOk result → why_no_removal slot self.old.manager ≡ None }
        ensures refused { IfErr result (λ e. e ≢ Memory → why_no_removal slot self.old.manager ≡ Some e) }
        ensures memory { IsErrOf result Memory → why_no_removal slot self.old.manager ≡ None }
        ensures as_before { OnErr result (self.new ≡ self.old) }
    {
        self.manager.remove(self.alloc, u64::from(slot.number()))
    }

    /// Begins the joining of a new member at a slot, behind the tail. 171 `OneAtATime` while a change is under way, 174 `SlotInUse` for the
    /// slot of a member, 162 `NotNext` where the chain's epoch is the greatest, in this order, and 100 `Memory` after these.
    pub fn join(&mut self, slot: Slot) -> Result<(), Refusal>
        ensures done { OnOk result (self.new ≡ record self.old { manager = joining_of slot self.old.manager }) }
        ensures ok { IsOk result → why_no_joining slot self.old.manager ≡ None }
        ensures refused { IfErr result (λ e. e ≢ Memory → why_no_joining slot self.old.manager ≡ Some e) }
        ensures memory { IsErrOf result Memory → why_no_joining slot self.old.manager ≡ None }
        ensures as_before { OnErr result (self.new ≡ self.old) }
    {
        self.manager.join(self.alloc, u64::from(slot.number()))
    }

    /// Whether the joining under way, if one is, may be abandoned.
    pub fn can_abandon(&self) -> bool
        ensures { IsTrue result ↔ (why_no_abandoning self.now.manager ≡ None) }
    {
        self.manager.can_abandon()
    }

    /// Abandons the joining under way. 171 `OneAtATime` where none is under way, or its record may stand on the disk, and 100 `Memory` after
    /// this.
    pub fn abandon_join(&mut self) -> Result<(), Refusal>
        ensures done { OnOk result (self.new ≡ record self.old { manager = abandoned self.old.manager }) }
        ensures ok { IsOk result → why_no_abandoning self.old.manager ≡ None }
        ensures refused { IfErr result (λ e. e ≢ Memory → why_no_abandoning self.old.manager ≡ Some e) }
        ensures memory { IsErrOf result Memory → why_no_abandoning self.old.manager ≡ None }
        ensures as_before { OnErr result (self.new ≡ self.old) }
    {
        self.manager.abandon_join(self.alloc)
    }

    /// Gives the manager up: the disk, and the seat.
    pub fn into_parts(self) -> (C, Seat)
        ensures disk { result.0 ≡ self.disk }
        ensures seat { result.1 ≡ self.seat }
    {
        let Management {
            alloc: _,
            manager: _,
            config: _,
            disk,
            seat,
        } = self;
        (disk, seat)
    }
}

/// The record once more.
fn copy_of(alloc: Global, chain: &Record) -> Result<Record, AllocError>
    ensures { IfOk result (λ copy. copy ≡ chain.now) }
{
    let members = Vec::from_slice(alloc, chain.members())?;
    match Record::new(chain.epoch(), members) {
        Ok(copy) => Ok(copy),
        Err(_) => unreachable!(),
    }
}
