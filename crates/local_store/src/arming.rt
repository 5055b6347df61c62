//! What is to happen to a store's disk that is in memory.
ghost use Rattle.std.specs.Prelude.{◌≡◌, ◌++◌, ◌∷◌, [], OnErr, OnOk};
ghost use Rattle.disk_model.specs.Event.{counted_from};
ghost use Rattle.disk_model.specs.Memory.{calls_of, script_of};
ghost use Rattle.local_store.specs.Arming.{IsAsItWas};

use crate::store::Store;
use crate::store_like::StoreLike;
use disk_model::{Event, MemDisk};
use std::alloc::AllocError;

impl Store<MemDisk> {
    /// Adds an entry to the script of its disk, whose calls are counted from now: call 1 is the next one, and call 0 never comes.
    pub fn arm(&mut self, event: Event) -> Result<(), AllocError>
        ensures ok { OnOk result (script_of self.new.disk ≡ script_of self.old.disk ++ counted_from (calls_of self.old.disk) event ∷ []) }
        ensures err { OnErr result (script_of self.new.disk ≡ script_of self.old.disk) }
        ensures stays { IsAsItWas ⟦<Store<MemDisk> as StoreLike>⟧.about ⟦<Store<MemDisk> as StoreLike>⟧.keeps ⟦<Store<MemDisk> as StoreLike>⟧.is_pending
            ⟦<Store<MemDisk> as StoreLike>⟧.may_leave_now ⟦<Store<MemDisk> as StoreLike>⟧.failures self.old self.new }
    {
        self.disk.arm(event)
    }
}
