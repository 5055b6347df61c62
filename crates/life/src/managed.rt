ghost use Rattle.std.specs.Prelude.{◌≡◌, ◌↔◌, ◌+◌, ◌≤◌, All, IsTrue};
ghost use Rattle.candidate.specs.Orders.{Notes};
ghost use Rattle.candidate.specs.declared.candidate.Candidate.TheVariants.{Nobody};
ghost use Rattle.chain.specs.Chain.{bytes_of};
ghost use Rattle.chain.specs.Member.{HasOwnDisk};
ghost use Rattle.chain_model.specs.Chain.{StandsFor};
ghost use Rattle.chain_model.specs.View.{View};
ghost use Rattle.clients.specs.Clients.{AreSessions};
ghost use Rattle.life.specs.Calls.{is_counted};
ghost use Rattle.life.specs.Lived.{HasCopyIn};
ghost use Rattle.world.specs.World.{IsJoined, Shows};
ghost use Rattle.world_model.specs.Machine.{State};

use candidate::Candidate;
use disk_model::{Disk, MemDisk};
use gate_journal::Slot;
use local_store::{Store, StoreLike};
use std::marker::Model;
use world::{Management, World};

/// The disk of a slot.
#[derive(Debug, Drop)]
pub struct SlotDisk<D> {
    /// The slot.
    pub slot: Slot,
    /// Its disk.
    pub disk: D,
}

/// A world and its manager, whose configuration stands on a disk. It has no `Drop`, since it holds tokens: `cut` ends it.
pub struct ManagedWorld<S: StoreLike, D: Disk> {
    /// The world.
    pub world: World<S>,
    /// Its manager, with the configuration's disk.
    pub management: Management<D>,
    /// The disk on its way into the chain, if one is.
    pub candidate: Candidate<S, D>,
    /// The disks outside the chain: of members that a recovery left out, and of joinings that ended early. Nothing is written to them.
    pub outside: Vec<SlotDisk<D>>,
}

impl<S: StoreLike, D: Disk> Model for ManagedWorld<S, D> {
    ghost use Rattle.life.specs.Managed.{ManagedOver};

    ghost Value = { ManagedOver S D };

    ghost view = { λ m. record { world = m.world; management = m.management; candidate = m.candidate; outside = m.outside.items } };
}

impl<S: StoreLike + Drop, D: Disk + Drop> ManagedWorld<S, D> {
    /// Gives it up: what waits for clients is gone, the tokens are abandoned, and the disks are dropped.
    pub fn abandon(self) {
        let ManagedWorld {
            world,
            management: _,
            candidate: _,
            outside: _,
        } = self;
        let _stores = world.abandon();
    }

    /// Whether the disk on its way was counted.
    pub(crate) fn is_counted(&self) -> bool
        ensures { result ≡ is_counted self.now.candidate }
    {
        matches!(self.candidate, Candidate::Counted)
    }

    /// Whether no disk is on its way.
    pub(crate) fn is_alone(&self) -> bool
        ensures { IsTrue result ↔ (self.now.candidate ≡ Nobody) }
    {
        match &self.candidate {
            Candidate::Nobody => true,
            Candidate::Copying(_)
            | Candidate::Whole(_)
            | Candidate::Counted
            | Candidate::Refused(_) => false,
        }
    }

    /// Does nothing: its clauses are what holds of every world and its manager.
    pub(crate) fn sound(&self)
        ensures joined { IsJoined self.now.world }
        ensures sessions { AreSessions self.now.world.sessions }
        ensures disks { All (HasOwnDisk S.about) self.now.world.chain.members }
        ensures on_disk { self.now.management.config.pair.part.start + self.now.management.config.pair.part.len ≤ D.size self.now.management.disk }
    {
        self.world.sound();
        self.management.sound();
    }
}

impl ManagedWorld<Store<MemDisk>, MemDisk> {
    /// What the member came to know, whose volume the disk on its way is given, is noted. It is to be noted behind each step of the world.
    pub fn note(&mut self)
        ensures noted { Notes self.old.world.chain self.old.candidate self.new.candidate }
        ensures same { self.new ≡ record self.old { candidate = self.new.candidate } }
        ensures copy { (v : View) (s : State) → Shows ⟦<Store<MemDisk> as StoreLike>⟧.about ⟦<Store<MemDisk> as StoreLike>⟧.keeps ⟦<Store<MemDisk> as StoreLike>⟧.may_leave_now self.old.world v → StandsFor (bytes_of self.old.world.chain) v s
            → HasCopyIn ⟦<Store<MemDisk> as StoreLike>⟧.about ⟦<Store<MemDisk> as StoreLike>⟧.keeps (bytes_of self.old.world.chain) s self.old → HasCopyIn ⟦<Store<MemDisk> as StoreLike>⟧.about ⟦<Store<MemDisk> as StoreLike>⟧.keeps (bytes_of self.old.world.chain) s self.new }
    {
        self.candidate.note(&self.world);
    }
}
