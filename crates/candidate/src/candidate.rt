//! A disk on its way into a chain.
ghost use Rattle.std.specs.Prelude.{◌≡◌, ℕ, true};
ghost use Rattle.candidate.specs.Copies.{HasCopy};
ghost use Rattle.candidate.specs.Orders.{Notes, has_given_all, is_filled};
ghost use Rattle.chain.specs.Chain.{bytes_of};
ghost use Rattle.chain_model.specs.Chain.{StandsFor};
ghost use Rattle.chain_model.specs.View.{View};
ghost use Rattle.world.specs.World.{Shows};
ghost use Rattle.world_model.specs.Machine.{State};

use crate::refused::Refused;
use crate::whole::Whole;
use chain_model::each_disk_has_what_is_owed;
use disk_model::Disk;
use joining::Copying;
use local_store::{Store, StoreLike};
use world::World;

/// A disk on its way into a chain.
#[derive(Drop)]
pub enum Candidate<S: StoreLike, D: Disk> {
    /// None is.
    Nobody,
    /// It is given the volume of the chain's tail.
    Copying(Copying<D>),
    /// It has the volume, and may be counted.
    Whole(Whole<S>),
    /// It is counted: the world has its store.
    Counted,
    /// It refused to be installed, or something that it was given: it gets no further.
    Refused(Refused<D>),
}

impl<D: Disk + Drop> Candidate<Store<D>, D> {
    /// What the member whose volume the disk is given came to know is noted, as `Copying::note` does, where that member is in the recorded
    /// chain. It is to be noted behind each step of the world.
    pub fn note(&mut self, world: &World<Store<D>>)
        ensures noted { Notes world.now.chain self.old self.new }

        // Whatever state of the one volume the world stands for.
        ensures copy { D.keeps_model → (incarnation : ℕ) (v : View) (s : State) → Shows ⟦<Store<D> as StoreLike>⟧.about ⟦<Store<D> as StoreLike>⟧.keeps ⟦<Store<D> as StoreLike>⟧.may_leave_now world.now v → StandsFor (bytes_of world.now.chain) v s
            → HasCopy D.gives D.may_leave_now ⟦<Store<D> as StoreLike>⟧.about ⟦<Store<D> as StoreLike>⟧.keeps (bytes_of world.now.chain) s incarnation self.old
            → HasCopy D.gives D.may_leave_now ⟦<Store<D> as StoreLike>⟧.about ⟦<Store<D> as StoreLike>⟧.keeps (bytes_of world.now.chain) s incarnation self.new }
    {
        each_disk_has_what_is_owed();
        world.sound();
        let Candidate::Copying(copying) = self else {
            return;
        };
        if copying.is_of_recorded(world) {
            copying.note(world);
        }
    }

    /// Whether each block was given once.
    pub(crate) fn has_given_all(&self) -> bool
        ensures { result ≡ has_given_all self.now }
    {
        match self {
            Candidate::Copying(copying) => copying.has_given_all(),
            _ => false,
        }
    }

    /// Whether it is given the volume, and no block is due.
    pub(crate) fn is_filled(&self) -> bool
        ensures { result ≡ is_filled self.now }
    {
        match self {
            Candidate::Copying(copying) => copying.is_whole(),
            _ => false,
        }
    }
}
