//! The tail holds the front, and the disk is counted.
ghost use Rattle.std.specs.Prelude.{◌≡◌, ℕ, true};
ghost use Rattle.candidate.specs.Copies.{IsOfOneVolumeCopied, KeepsCopy};
ghost use Rattle.candidate.specs.Orders.{Counts, Holds};
ghost use Rattle.clients.specs.Clients.{no_one};
ghost use Rattle.world.specs.Telling.{handed_some};
ghost use Rattle.world.specs.World.{IsOfOneVolume};

use crate::candidate::Candidate;
use crate::whole::Whole;
use chain_model::each_disk_has_what_is_owed;
use disk_model::Disk;
use local_store::{Store, StoreLike};
use std::mem;
use world::{Management, Told, World};

impl<D: Disk + Drop> Candidate<Store<D>, D> {
    /// Where the next order is to hold: the recorded chain's tail takes the committed front, and holds it, as `Management::hold` does; what it
    /// knows then is noted.
    pub fn hold<C: Disk + Drop>(
        &mut self,
        world: &mut World<Store<D>>,
        management: &mut Management<C>,
    ) -> Option<Told>
        ensures holds { Holds result self.old self.new management.old management.new world.old world.new }
        ensures one_volume { D.keeps_model → IsOfOneVolume ⟦<Store<D> as StoreLike>⟧.about ⟦<Store<D> as StoreLike>⟧.keeps ⟦<Store<D> as StoreLike>⟧.may_leave_now no_one (handed_some result) world.old world.new }
        ensures copy { D.keeps_model → (incarnation : ℕ) → KeepsCopy D.gives D.may_leave_now ⟦<Store<D> as StoreLike>⟧.about ⟦<Store<D> as StoreLike>⟧.keeps ⟦<Store<D> as StoreLike>⟧.may_leave_now incarnation self.old self.new world.old world.new }
    {
        let told = management.hold(world);
        self.note(world);
        told
    }

    /// Where the next order is to count the disk, its incarnation is the next epoch, and it has the volume at the front that the tail holds: its
    /// receipt is posted, its slot is counted, and the world has its store. `false` where that isn't so, as `Management::count_in` has it:
    /// nothing changed.
    pub fn count_in<C: Disk + Drop>(
        &mut self,
        world: &mut World<Store<D>>,
        management: &mut Management<C>,
    ) -> bool
        ensures counts { Counts ⟦<Store<D> as StoreLike>⟧.about result self.old self.new management.old management.new world.old world.new }
        ensures one_volume { D.keeps_model → (incarnation : ℕ) → IsOfOneVolumeCopied D.gives D.may_leave_now ⟦<Store<D> as StoreLike>⟧.about ⟦<Store<D> as StoreLike>⟧.keeps ⟦<Store<D> as StoreLike>⟧.may_leave_now no_one no_one incarnation self.old world.old world.new }
        ensures copy { D.keeps_model → (incarnation : ℕ) → KeepsCopy D.gives D.may_leave_now ⟦<Store<D> as StoreLike>⟧.about ⟦<Store<D> as StoreLike>⟧.keeps ⟦<Store<D> as StoreLike>⟧.may_leave_now incarnation self.old self.new world.old world.new }
    {
        each_disk_has_what_is_owed();
        world.sound();
        let whole = match mem::replace(self, Candidate::Counted) {
            Candidate::Whole(whole) => whole,
            other => {
                *self = other;
                return false;
            }
        };
        let (store, receipt) = whole.into_parts();
        if store.incarnation() != world.recorded().epoch().number() + 1 {
            *self = Candidate::Whole(Whole::new(store, receipt));
            return false;
        }
        match management.count_in(world, store, receipt) {
            Ok(()) => true,
            Err((store, receipt)) => {
                *self = Candidate::Whole(Whole::new(store, receipt));
                false
            }
        }
    }
}
