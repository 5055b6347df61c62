//! The disk is given the volume, a block at a time, and at last the end.
ghost use Rattle.std.specs.Prelude.{◌≡◌, ◌*◌, ℕ, true, IfErr};
ghost use Rattle.candidate.specs.Copies.{HasCopy, KeepsCopy};
ghost use Rattle.candidate.specs.Orders.{Copies, Finishes, Gives, LedOn, Rests, Spoils, handed_gave, is_filled};
ghost use Rattle.clients.specs.Clients.{no_one};
ghost use Rattle.joining.specs.Copying.{Seen};
ghost use Rattle.local_store.specs.Refusal.{IsCaused};
ghost use Rattle.world.specs.World.{IsOfOneVolume};
ghost use Rattle.world_model.specs.Machine.{State};

use crate::candidate::Candidate;
use crate::refused::Refused;
use crate::whole::Whole;
use chain_model::each_disk_has_what_is_owed;
use disk_model::Disk;
use joining::NotGiven;
use local_store::{Refusal, Store, StoreLike};
use manager::Order;
use std::alloc::Global;
use std::mem;
use world::{Management, Told, World};

/// What became of a step by which a disk is given something.
#[must_use]
#[derive(Debug, Drop)]
pub enum Gave {
    /// Nothing was given: it isn't the turn of that, or the member has stopped.
    Nothing,
    /// A block, or the end.
    Piece,
    /// Nothing: the member stopped in the call, and clients were told this.
    Stopped(Told),
}

impl<D: Disk + Drop> Candidate<Store<D>, D> {
    /// Where the next order is to copy: the disk is given the next block, as it is at what the tail knows. Once each block was given, the order
    /// is carried out.
    ///
    /// What the disk refuses, and 122 `Broken` where the member went on unnoted: then it gets no further.
    pub fn copy<C: Disk + Drop>(
        &mut self,
        world: &mut World<Store<D>>,
        management: &mut Management<C>,
    ) -> Result<Gave, Refusal>
        ensures copies { Copies D.keeps_model ⟦<Store<D> as StoreLike>⟧.about ⟦<Store<D> as StoreLike>⟧.failures ⟦<Store<D> as StoreLike>⟧.keeps ⟦<Store<D> as StoreLike>⟧.moment ⟦<Store<D> as StoreLike>⟧.may_have_left_since
            result self.old self.new management.old management.new world.old world.new }
        ensures cause { IfErr result (λ e. LedOn (λ was now. IsCaused (D.failures was) (D.failures now) e) self.old self.new) }
        ensures copy { D.keeps_model → (incarnation : ℕ) → KeepsCopy D.gives D.may_leave_now ⟦<Store<D> as StoreLike>⟧.about ⟦<Store<D> as StoreLike>⟧.keeps ⟦<Store<D> as StoreLike>⟧.may_leave_now incarnation self.old self.new world.old world.new }
        ensures one_volume { D.keeps_model → IsOfOneVolume ⟦<Store<D> as StoreLike>⟧.about ⟦<Store<D> as StoreLike>⟧.keeps ⟦<Store<D> as StoreLike>⟧.may_leave_now no_one (handed_gave result) world.old world.new }
    {
        let Order::Copy(_) = management.next() else {
            return Ok(Gave::Nothing);
        };
        let gave = self.give(world)?;
        if self.has_given_all() {
            management.gave();
        }
        Ok(gave)
    }

    /// Where the next order is to give the rest: the disk is given the next block that is due again; once none is, its installation ends, and
    /// the order is carried out.
    ///
    /// What the disk refuses, and 122 `Broken` where the member went on unnoted: then it gets no further.
    pub fn rest<C: Disk + Drop>(
        &mut self,
        alloc: Global,
        world: &mut World<Store<D>>,
        management: &mut Management<C>,
    ) -> Result<Gave, Refusal>
        ensures rests { Rests D.keeps_model ⟦<Store<D> as StoreLike>⟧.about ⟦<Store<D> as StoreLike>⟧.failures ⟦<Store<D> as StoreLike>⟧.keeps ⟦<Store<D> as StoreLike>⟧.moment ⟦<Store<D> as StoreLike>⟧.may_have_left_since
            result self.old self.new management.old management.new world.old world.new }
        ensures cause { IfErr result (λ e. LedOn (λ was now. IsCaused (D.failures was) (D.failures now) e) self.old self.new) }
        ensures copy { D.keeps_model → (incarnation : ℕ) → KeepsCopy D.gives D.may_leave_now ⟦<Store<D> as StoreLike>⟧.about ⟦<Store<D> as StoreLike>⟧.keeps ⟦<Store<D> as StoreLike>⟧.may_leave_now incarnation self.old self.new world.old world.new }
        ensures one_volume { D.keeps_model → IsOfOneVolume ⟦<Store<D> as StoreLike>⟧.about ⟦<Store<D> as StoreLike>⟧.keeps ⟦<Store<D> as StoreLike>⟧.may_leave_now no_one (handed_gave result) world.old world.new }
    {
        let Order::Rest(_) = management.next() else {
            return Ok(Gave::Nothing);
        };
        if !self.is_filled() {
            return self.give(world);
        }
        self.finish(alloc)?;
        management.gave();
        Ok(Gave::Piece)
    }

    /// The disk is given the block that is due.
    fn give(&mut self, world: &mut World<Store<D>>) -> Result<Gave, Refusal>
        ensures gives { Gives D.keeps_model ⟦<Store<D> as StoreLike>⟧.about ⟦<Store<D> as StoreLike>⟧.failures ⟦<Store<D> as StoreLike>⟧.keeps ⟦<Store<D> as StoreLike>⟧.moment ⟦<Store<D> as StoreLike>⟧.may_have_left_since
            result self.old self.new world.old world.new }
        ensures cause { IfErr result (λ e. LedOn (λ was now. IsCaused (D.failures was) (D.failures now) e) self.old self.new) }
        ensures copy { D.keeps_model → (incarnation : ℕ) → KeepsCopy D.gives D.may_leave_now ⟦<Store<D> as StoreLike>⟧.about ⟦<Store<D> as StoreLike>⟧.keeps ⟦<Store<D> as StoreLike>⟧.may_leave_now incarnation self.old self.new world.old world.new }
        ensures one_volume { D.keeps_model → IsOfOneVolume ⟦<Store<D> as StoreLike>⟧.about ⟦<Store<D> as StoreLike>⟧.keeps ⟦<Store<D> as StoreLike>⟧.may_leave_now no_one (handed_gave result) world.old world.new }
    {
        each_disk_has_what_is_owed();
        world.sound();
        let Candidate::Copying(copying) = self else {
            return Ok(Gave::Nothing);
        };
        if !copying.is_noted(world) {
            return Ok(Gave::Nothing);
        }
        match copying.give(world) {
            Ok(true) => Ok(Gave::Piece),
            Ok(false) => Ok(Gave::Nothing),
            Err(NotGiven::Stopped(None)) => Ok(Gave::Nothing),
            Err(NotGiven::Stopped(Some(told))) => Ok(Gave::Stopped(told)),
            Err(NotGiven::Refused(refusal)) => {
                self.refuse();
                Err(refusal)
            }
        }
    }

    /// The disk that was being given the volume gets no further.
    fn refuse(&mut self)
        requires { (c : Seen D) × (self.old ≡ Candidate.Copying c) }
        ensures { Spoils self.old self.new }
    {
        let Candidate::Copying(copying) = mem::replace(self, Candidate::Nobody) else {
            unreachable!();
        };
        *self = Candidate::Refused(Refused::of(copying.member(), copying.into_disk()));
    }

    /// Its installation ends, where no block is due.
    fn finish(&mut self, alloc: Global) -> Result<(), Refusal>
        requires { is_filled self.old ≡ true }
        ensures finishes { Finishes result self.old self.new }
        ensures cause { IfErr result (λ e. LedOn (λ was now. IsCaused (D.failures was) (D.failures now) e) self.old self.new) }
        ensures copy { D.keeps_model → (incarnation size : ℕ) (s : State) → HasCopy D.gives D.may_leave_now ⟦<Store<D> as StoreLike>⟧.about ⟦<Store<D> as StoreLike>⟧.keeps size s incarnation self.old
            → HasCopy D.gives D.may_leave_now ⟦<Store<D> as StoreLike>⟧.about ⟦<Store<D> as StoreLike>⟧.keeps size s incarnation self.new }
    {
        let Candidate::Copying(copying) = mem::replace(self, Candidate::Nobody) else {
            unreachable!();
        };
        let member = copying.member();
        match copying.finish(alloc) {
            Ok((store, receipt)) => {
                *self = Candidate::Whole(Whole::new(store, receipt));
                Ok(())
            }
            Err((refusal, disk)) => {
                *self = Candidate::Refused(Refused::of(member, disk));
                Err(refusal)
            }
        }
    }
}
