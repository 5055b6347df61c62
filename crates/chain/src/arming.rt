//! What is to happen to the disk of a member, where that is in memory.
ghost use Rattle.std.specs.Prelude.{◌<◌, [], length, OnErr, OnOk};
ghost use Rattle.local_store.specs.Arming.{IsAsItWas};
ghost use Rattle.chain.specs.Arming.{HasArmed, HasNewScript, HasOldScript};
ghost use Rattle.chain.specs.Chain.{Changes, IsOfOneVolume};

use crate::chain::Chain;
use crate::member::Member;
use disk_model::{Event, MemDisk};
use local_store::{Store, StoreLike};
use std::alloc::AllocError;

impl Member<Store<MemDisk>> {
    /// Adds an entry to the script of its disk.
    pub(crate) fn arm(&mut self, event: Event) -> Result<(), AllocError>
        ensures ok { OnOk result (HasNewScript (λ s. s.disk) event self.old self.new) }
        ensures err { OnErr result (HasOldScript (λ s. s.disk) self.old self.new) }
        ensures armed { HasArmed (IsAsItWas ⟦<Store<MemDisk> as StoreLike>⟧.about ⟦<Store<MemDisk> as StoreLike>⟧.keeps ⟦<Store<MemDisk> as StoreLike>⟧.is_pending
            ⟦<Store<MemDisk> as StoreLike>⟧.may_leave_now ⟦<Store<MemDisk> as StoreLike>⟧.failures) self.old self.new }
    {
        self.node.arm(event)
    }
}

impl Chain<Store<MemDisk>> {
    /// Adds an entry to the script of the disk of the member at a place, whose calls are counted from now: call 1 is the next one,
    /// and call 0 never comes. Nothing else changes.
    pub fn arm(&mut self, at: usize, event: Event) -> Result<(), AllocError>
        requires { at < length self.old.members }
        ensures ok { OnOk result (Changes at self.old self.new (HasNewScript (λ s. s.disk) event)) }
        ensures err { OnErr result (Changes at self.old self.new (HasOldScript (λ s. s.disk))) }
        ensures armed { Changes at self.old self.new (HasArmed (IsAsItWas ⟦<Store<MemDisk> as StoreLike>⟧.about ⟦<Store<MemDisk> as StoreLike>⟧.keeps ⟦<Store<MemDisk> as StoreLike>⟧.is_pending
            ⟦<Store<MemDisk> as StoreLike>⟧.may_leave_now ⟦<Store<MemDisk> as StoreLike>⟧.failures)) }
        ensures one_volume { IsOfOneVolume ⟦<Store<MemDisk> as StoreLike>⟧.about ⟦<Store<MemDisk> as StoreLike>⟧.keeps ⟦<Store<MemDisk> as StoreLike>⟧.may_leave_now self.old self.new [] }
    {
        self.members[at].arm(event)
    }
}
