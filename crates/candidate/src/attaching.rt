//! A disk is attached, and later it is counted.
ghost use Rattle.std.specs.Prelude.{◌≡◌, ◌+◌, ◌≤◌, List, ℕ, length, suc, true, IfErr, IfOk};
ghost use Rattle.candidate.specs.Copies.{BeginsAt, HasCopy};
ghost use Rattle.candidate.specs.Orders.{Attaches, OfRefused};
ghost use Rattle.chain.specs.Chain.{bytes_of};
ghost use Rattle.chain_model.specs.Chain.{StandsFor};
ghost use Rattle.chain_model.specs.View.{View};
ghost use Rattle.home_blocks.specs.Places.{disk_size_of};
ghost use Rattle.local_store.specs.Refusal.{IsCaused};
ghost use Rattle.manager.specs.Manager.{next_of};
ghost use Rattle.manager.specs.declared.order.Order.TheVariants as orders;
ghost use Rattle.world.specs.World.{Shows};
ghost use Rattle.world_model.specs.Machine.{State};

use crate::candidate::Candidate;
use crate::refused::Refused;
use chain_model::each_disk_has_what_is_owed;
use configurations::Epoch;
use disk_model::Disk;
use joining::Copying;
use local_store::{Refusal, Store, StoreLike};
use manager::Order;
use std::alloc::Global;
use world::{Management, World};

impl<D: Disk + Drop> Candidate<Store<D>, D> {
    /// Where the next order is to attach a disk, and none is on its way: this one, of at least `disk_size` bytes of the volume's geometry,
    /// which may hold anything, will be given the volume of the recorded chain's tail, for the order's slot and, as its incarnation, the
    /// next epoch. What it meant is gone. `Ok(false)` where another order is the next, or nobody stands as the tail, or no epoch can
    /// follow: the disk is dropped, and nothing changed.
    ///
    /// What `Installer::start` refuses: then it gets no further.
    pub fn attach<C: Disk + Drop>(
        &mut self,
        alloc: Global,
        world: &World<Store<D>>,
        management: &mut Management<C>,
        disk: D,
    ) -> Result<bool, Refusal>
        requires on_disk { disk_size_of world.now.chain.geometry ≤ D.size disk }
        ensures attaches { Attaches result self.old self.new management.old management.new world.now }
        ensures size { IfErr result (λ e. OfRefused self.new (λ given. D.size given ≡ D.size disk)) }
        ensures cause { IfErr result (λ e. OfRefused self.new (λ given. IsCaused (D.failures disk) (D.failures given) e)) }
        ensures unchanged { IfErr result (λ e. e ≡ Refusal.Memory → OfRefused self.new (λ given. given ≡ disk)) }
        ensures begins { D.keeps_model → (slot : ℕ) → next_of management.old.manager ≡ orders.Attach slot → (volume : List ℕ) → length volume ≡ bytes_of world.now.chain
            → IfOk result (λ done. done ≡ true → BeginsAt D.gives D.may_leave_now slot world.now.chain volume self.new) }

        // Whatever state of the one volume the world stands for.
        ensures copy { D.keeps_model → (v : View) (s : State) → Shows ⟦<Store<D> as StoreLike>⟧.about ⟦<Store<D> as StoreLike>⟧.keeps ⟦<Store<D> as StoreLike>⟧.may_leave_now world.now v → StandsFor (bytes_of world.now.chain) v s
            → HasCopy D.gives D.may_leave_now ⟦<Store<D> as StoreLike>⟧.about ⟦<Store<D> as StoreLike>⟧.keeps (bytes_of world.now.chain) s (suc world.now.chain.recorded.epoch) self.old
            → HasCopy D.gives D.may_leave_now ⟦<Store<D> as StoreLike>⟧.about ⟦<Store<D> as StoreLike>⟧.keeps (bytes_of world.now.chain) s (suc world.now.chain.recorded.epoch) self.new }
    {
        each_disk_has_what_is_owed();
        world.sound();
        let Order::Attach(slot) = management.next() else {
            return Ok(false);
        };
        let Candidate::Nobody = self else {
            return Ok(false);
        };
        let Some(at) = world.tail() else {
            return Ok(false);
        };
        let Some(epoch) = Epoch::new(world.recorded().epoch().number() + 1) else {
            return Ok(false);
        };
        match Copying::start(alloc, world, at, disk, slot, epoch.number()) {
            Ok(copying) => {
                *self = Candidate::Copying(copying);
                management.gave();
                Ok(true)
            }
            Err((refusal, disk)) => {
                *self = Candidate::Refused(Refused::at_once(disk));
                Err(refusal)
            }
        }
    }
}
