//! The manager of a world carries the orders of a joining out.
ghost use Rattle.std.specs.Prelude.{◌≡◌, ◌≢◌, ◌⊎◌, ◌↔◌, None, Some, false, true, IfErr, IfNone, IfOk, IfSome, IsErrOf, IsOk, IsTrue, OnErr, OnOk, ℕ};
ghost use Rattle.chain.specs.Joining.{IsCopyAt};
ghost use Rattle.chain_core.specs.Node.{IsRunning};
ghost use Rattle.configurations.specs.Record.{Record};
ghost use Rattle.configurations.specs.Refusal.{HasCause, IsOfDevice, IsOfRecording};
ghost use Rattle.configurations.specs.Store.{HoldsOldOrNew, HoldsRecord, IsNext, IsSettledConfig};
ghost use Rattle.disk_model.specs.Disk.{LeavesOnly};
ghost use Rattle.disk_model.specs.Part.{inside};
ghost use Rattle.manager.specs.Manager.{abandoned, done_of, joining_of, next_of, why_no_abandoning, why_no_joining};
ghost use Rattle.manager.specs.declared.refusal.Refusal.TheVariants as managers;
ghost use Rattle.clients.specs.Clients.{no_one};
ghost use Rattle.world.specs.Joining.{BeginsJoin, BeginsNoJoin, CountsIn, CountsNobody, EndsJoin, EndsNoJoin, GivesUp, HasOnlyRecorded, HasRecorded, HoldsNext, HoldsNobody, IsTailAt, is_of_copying};
ghost use Rattle.world.specs.Management.{HoldsWritten, noted};
ghost use Rattle.world.specs.Telling.{handed_some};
ghost use Rattle.world.specs.World.{IsOfOneVolume};

use crate::management::Management;
use crate::told::Told;
use crate::world::World;
use configurations::{Record, Refusal};
use disk_model::Disk;
use gate_journal::Synced;
use local_store::StoreLike;
use manager::Order;
use std::alloc::AllocError;

impl<D: Disk + Drop> Management<D> {
    /// The manager notes who has stopped of the world's chain, and begins the joining of a disk at a slot, behind the tail. 171
    /// `OneAtATime` while a change is under way, 163 `BadMembers` for a slot above 7, 174 `SlotInUse` for the slot of a member, 162
    /// `NotNext` where the chain's epoch is the greatest, in this order, and 100 `Memory` after these.
    pub fn join<S: StoreLike + Drop>(
        &mut self,
        world: &World<S>,
        slot: u64,
    ) -> Result<(), manager::Refusal>
        ensures done { OnOk result (self.new ≡ record self.old { manager = joining_of slot (noted world.now.chain self.old.manager) }) }
        ensures ok { IsOk result → why_no_joining slot (noted world.now.chain self.old.manager) ≡ None }
        ensures refused { IfErr result (λ e. e ≢ managers.Memory → why_no_joining slot (noted world.now.chain self.old.manager) ≡ Some e) }
        ensures memory { IsErrOf result managers.Memory → why_no_joining slot (noted world.now.chain self.old.manager) ≡ None }
        ensures only_noted { OnErr result (self.new ≡ record self.old { manager = noted world.now.chain self.old.manager }) }
    {
        self.note(world);
        self.manager.join(self.alloc, slot)
    }

    /// Whether the joining under way, if one is, may be abandoned.
    pub fn can_abandon(&self) -> bool
        ensures { IsTrue result ↔ (why_no_abandoning self.now.manager ≡ None) }
    {
        self.manager.can_abandon()
    }

    /// The manager abandons the joining under way, and who joins is given up: the store comes back, if its disk was counted. 171
    /// `OneAtATime` where no joining is under way, or its record was begun, and 100 `Memory` after this.
    pub fn abandon_join<S: StoreLike + Drop>(
        &mut self,
        world: &mut World<S>,
    ) -> Result<Option<S>, manager::Refusal>
        ensures done { OnOk result (self.new ≡ record self.old { manager = abandoned self.old.manager }) }
        ensures given_up { IfOk result (λ given. GivesUp given world.old world.new) }
        ensures runs { IfOk result (λ given. IfSome given (λ store. IsRunning (S.about store) (record { premise = S.keeps_model; keeps = S.keeps store }))) }
        ensures ok { IsOk result → why_no_abandoning self.old.manager ≡ None }
        ensures refused { IfErr result (λ e. e ≢ managers.Memory → why_no_abandoning self.old.manager ≡ Some e) }
        ensures memory { IsErrOf result managers.Memory → why_no_abandoning self.old.manager ≡ None }
        ensures unchanged { OnErr result ((self.new ≡ self.old) × (world.new ≡ world.old)) }
        ensures one_volume { S.keeps_model → IsOfOneVolume S.about S.keeps S.may_leave_now no_one no_one world.old world.new }
    {
        self.manager.abandon_join(self.alloc)?;
        Ok(world.give_up())
    }

    /// Where the next order is to attach a joiner, to copy to it, or to give it the rest: whoever has the joiner's disk carried it out. `false`
    /// where another order is the next: nothing changed.
    pub fn gave(&mut self) -> bool
        ensures gave { result ≡ true → is_of_copying (next_of self.old.manager) ≡ true × (self.new ≡ record self.old { manager = done_of self.old.manager }) }
        ensures idle { result ≡ false → is_of_copying (next_of self.old.manager) ≡ false × (self.new ≡ self.old) }
    {
        let is_of_copying = matches!(
            self.next(),
            Order::Attach(_) | Order::Copy(_) | Order::Rest(_)
        );
        if is_of_copying {
            self.manager.done();
        }
        is_of_copying
    }

    /// Where the next order is to hold: the recorded chain's tail takes the committed front, and holds it for the joiner. `None` where that
    /// isn't the next order, or nobody stands as the tail, or the tail wasn't told the recorded chain, or has stopped: nothing changed.
    pub fn hold<S: StoreLike + Drop>(&mut self, world: &mut World<S>) -> Option<Told>
        ensures held { IfSome result (λ told. HoldsNext told self.old self.new world.old world.new) }
        ensures idle { IfNone result (HoldsNobody self.old world.old × ((self.new ≡ self.old) × (world.new ≡ world.old))) }
        ensures one_volume { S.keeps_model → IsOfOneVolume S.about S.keeps S.may_leave_now no_one (handed_some result) world.old world.new }
    {
        let Order::Hold(_) = self.next() else {
            return None;
        };
        let at = world.tail()?;
        let told = world.hold(at)?;
        self.manager.done();
        Some(told)
    }

    /// Where the next order is to count the slot of a store's disk, and the recorded chain's tail holds the store's front: the receipt is
    /// posted, the slot is counted, and the disk joins. The store isn't broken, its disk is of version 2, its log is there, and it keeps a
    /// volume of its size.
    ///
    /// The store and the receipt come back where that isn't so, as at `Chain::count_in`, or somebody joins already: nothing changed.
    pub fn count_in<S: StoreLike + Drop>(
        &mut self,
        world: &mut World<S>,
        store: S,
        receipt: Synced,
    ) -> Result<(), (S, Synced)>
        requires { IsRunning (S.about store) (record { premise = S.keeps_model; keeps = S.keeps store }) }
        ensures counted { IfOk result (λ _. CountsIn S.about store receipt self.old self.new world.old world.new) }
        ensures idle { IfErr result (λ given. CountsNobody S.about store receipt self.old world.old × ((given.0 ≡ store) × ((given.1 ≡ receipt) × ((self.new ≡ self.old) × (world.new ≡ world.old))))) }

        // Where the disk has a copy of what the tail has.
        ensures one_volume { S.keeps_model → ((at : ℕ) → IsTailAt world.old.chain at → IsCopyAt S.keeps at store world.old.chain)
            → IsOfOneVolume S.about S.keeps S.may_leave_now no_one no_one world.old world.new }
    {
        let Order::CountIn(slot) = self.next() else {
            return Err((store, receipt));
        };
        if slot != store.slot() {
            return Err((store, receipt));
        }
        let Some(at) = world.tail() else {
            return Err((store, receipt));
        };
        world.count_in(at, store, receipt)?;
        self.manager.done();
        Ok(())
    }

    /// Where the next order is to write a record, and who joins is in it behind the recorded members: it is being written from now on.
    /// `false` where that isn't the next order, nobody joins, it may not come next, or one is being written already: nothing changed.
    /// 100 where memory runs out.
    pub fn begin_join<S: StoreLike + Drop>(
        &mut self,
        world: &mut World<S>,
    ) -> Result<bool, AllocError>
        ensures begun { IfOk result (λ done. done ≡ true → BeginsJoin S.about self.old self.new world.old world.new) }
        ensures idle { IfOk result (λ done. done ≡ false → BeginsNoJoin S.about self.old world.old × ((self.new ≡ self.old) × (world.new ≡ world.old))) }
        ensures err { OnErr result ((self.new ≡ self.old) × (world.new ≡ world.old)) }
        ensures one_volume { S.keeps_model → IsOfOneVolume S.about S.keeps S.may_leave_now no_one no_one world.old world.new }
    {
        let Some(next) = self.manager.record(self.alloc)? else {
            return Ok(false);
        };
        if !world.begin_join(next) {
            return Ok(false);
        }
        self.manager.begin();
        Ok(true)
    }

    /// The record with who joins goes to the disk, by six device calls, unless it stands there since an earlier try, and is the recorded
    /// one: who joined is a member, which was told it. `false` where no record is the next order, or none with who joins is being
    /// written: nothing changed.
    ///
    /// What `ConfigStore::record` refuses: the record is being written still. After a refusal of the device it may stand on the disk, or
    /// the one before. 122 comes only where a device call failed before, and 162 only where the record isn't the next one for the disk.
    /// 100 may come once the record stands on the disk: the order can be carried out again.
    pub fn end_join<S: StoreLike + Drop>(&mut self, world: &mut World<S>) -> Result<bool, Refusal>
        ensures ended { IfOk result (λ done. done ≡ true → EndsJoin S.about self.old self.new world.old world.new) }
        ensures settled { D.keeps_model → IsSettledConfig self.old.config (D.gives self.old.disk) (D.may_leave_now self.old.disk)
            → OnOk result (IsSettledConfig self.new.config (D.gives self.new.disk) (D.may_leave_now self.new.disk)) }
        ensures settled_still { D.keeps_model → IsSettledConfig self.old.config (D.gives self.old.disk) (D.may_leave_now self.old.disk)
            → IfErr result (λ r. ¬ IsOfDevice r → IsSettledConfig self.new.config (D.gives self.new.disk) (D.may_leave_now self.new.disk)) }
        ensures idle { IfOk result (λ done. done ≡ false → EndsNoJoin S.about self.old world.old × ((self.new ≡ self.old) × (world.new ≡ world.old))) }
        ensures world { OnErr result (world.new ≡ world.old) }
        ensures manager { OnErr result (self.new.manager ≡ self.old.manager) }
        ensures unchanged { IfErr result (λ r. ¬ IsOfDevice r → (self.new ≡ self.old) ⊎ HasOnlyRecorded self.old self.new world.old) }
        ensures told { IfErr result IsOfRecording }
        ensures cause { HasCause (D.failures self.old.disk) (D.failures self.new.disk) result }
        ensures device { IfErr result (λ r. IsOfDevice r → self.new.config ≡ record self.old.config { pair = record self.old.config.pair { is_closed = self.new.config.pair.is_closed; broken = true } }) }
        ensures broken { IsErrOf result Refusal.Broken → self.old.config.pair.broken ≡ true }
        ensures untouched { self.old.config.pair.broken ≡ true → (self.new.config ≡ self.old.config) × (self.new.disk ≡ self.old.disk) }
        ensures attempted { IfErr result (λ r. IsOfDevice r → (next : Record) → world.old.chain.writing ≡ Some next → self.old.config.current.epoch ≢ next.epoch) }
        ensures not_next { IsErrOf result Refusal.NotNext → (next : Record) → world.old.chain.writing ≡ Some next → ¬ IsNext self.old.config next.epoch }

        // A stop at any moment of the call leaves the record that was there, or the one that is being written.
        ensures any_moment { D.keeps_model → IsSettledConfig self.old.config (D.gives self.old.disk) (D.may_leave_now self.old.disk)
            → LeavesOnly D.moment D.may_have_left_since self.old.disk self.new.disk (λ c. HoldsRecord self.old.config.current (inside self.old.config.pair.part c)
            ⊎ HoldsWritten world.old.chain.writing (inside self.old.config.pair.part c)) }
        ensures one_volume { S.keeps_model → IsOfOneVolume S.about S.keeps S.may_leave_now no_one no_one world.old world.new }
    {
        if !self.next_is_record() || !world.may_end_join() {
            return Ok(false);
        }
        let Some(next) = world.writing(self.alloc)? else {
            return Ok(false);
        };
        self.record_once(next)?;
        if !world.end_join()? {
            return Ok(false);
        }
        self.manager.done();
        Ok(true)
    }

    /// A record goes to the disk, by six device calls, unless one of its epoch stands there.
    fn record_once(&mut self, next: Record) -> Result<(), Refusal>
        ensures recorded { OnOk result (HasRecorded next self.old self.new) }
        ensures settled { D.keeps_model → IsSettledConfig self.old.config (D.gives self.old.disk) (D.may_leave_now self.old.disk)
            → OnOk result (IsSettledConfig self.new.config (D.gives self.new.disk) (D.may_leave_now self.new.disk)) }
        ensures manager { self.new.manager ≡ self.old.manager }
        ensures unchanged { IfErr result (λ r. ¬ IsOfDevice r → self.new ≡ self.old) }
        ensures told { IfErr result IsOfRecording }
        ensures cause { HasCause (D.failures self.old.disk) (D.failures self.new.disk) result }
        ensures device { IfErr result (λ r. IsOfDevice r → self.new.config ≡ record self.old.config { pair = record self.old.config.pair { is_closed = self.new.config.pair.is_closed; broken = true } }) }
        ensures broken { IsErrOf result Refusal.Broken → self.old.config.pair.broken ≡ true }
        ensures untouched { self.old.config.pair.broken ≡ true → (self.new.config ≡ self.old.config) × (self.new.disk ≡ self.old.disk) }
        ensures attempted { IfErr result (λ r. IsOfDevice r → self.old.config.current.epoch ≢ next.epoch) }
        ensures not_next { IsErrOf result Refusal.NotNext → ¬ IsNext self.old.config next.epoch }
        ensures any_moment { D.keeps_model → IsSettledConfig self.old.config (D.gives self.old.disk) (D.may_leave_now self.old.disk)
            → LeavesOnly D.moment D.may_have_left_since self.old.disk self.new.disk (λ c. HoldsOldOrNew self.old.config.current next (inside self.old.config.pair.part c)) }
    {
        if self.config.current().epoch() == next.epoch() {
            return Ok(());
        }
        self.config.record(self.alloc, &mut self.disk, next)
    }
}
