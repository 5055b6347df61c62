//! What is to happen to the disk of a member, where that is in memory.
ghost use Rattle.std.specs.Prelude.{◌≡◌, ◌<◌, length, OnErr, OnOk};
ghost use Rattle.local_store.specs.Arming.{IsAsItWas};
ghost use Rattle.chain.specs.Arming.{HasArmed, HasNewScript, HasOldScript};
ghost use Rattle.chain.specs.Chain.{Changes};
ghost use Rattle.clients.specs.Clients.{no_one};
ghost use Rattle.world.specs.Telling.{Moves};
ghost use Rattle.world.specs.World.{IsOfOneVolume};

use crate::world::World;
use disk_model::{Event, MemDisk};
use local_store::{Store, StoreLike};
use std::alloc::AllocError;

impl World<Store<MemDisk>> {
    /// Adds an entry to the script of the disk of the member at a place, whose calls are counted from now: call 1 is the next one,
    /// and call 0 never comes. Nothing else changes.
    pub fn arm(&mut self, at: usize, event: Event) -> Result<(), AllocError>
        requires { at < length self.old.chain.members }
        ensures ok { OnOk result (Moves self.old self.new (λ old new. Changes at old new (HasNewScript (λ s. s.disk) event))) }
        ensures err { OnErr result (Moves self.old self.new (λ old new. Changes at old new (HasOldScript (λ s. s.disk)))) }
        ensures armed { Moves self.old self.new (λ old new. Changes at old new (HasArmed (IsAsItWas ⟦<Store<MemDisk> as StoreLike>⟧.about ⟦<Store<MemDisk> as StoreLike>⟧.keeps ⟦<Store<MemDisk> as StoreLike>⟧.is_pending
            ⟦<Store<MemDisk> as StoreLike>⟧.may_leave_now ⟦<Store<MemDisk> as StoreLike>⟧.failures))) }
        ensures one_volume { IsOfOneVolume ⟦<Store<MemDisk> as StoreLike>⟧.about ⟦<Store<MemDisk> as StoreLike>⟧.keeps ⟦<Store<MemDisk> as StoreLike>⟧.may_leave_now no_one no_one self.old self.new }
    {
        self.chain.arm(at, event)
    }
}
