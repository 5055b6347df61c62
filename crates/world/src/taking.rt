//! A member takes the demands of its sessions.
ghost use Rattle.std.specs.Prelude.{◌≡◌, ◌<◌, [], length, IfNone, IfSome, Some, slice_get};
ghost use Rattle.chain.specs.Commits.{LeavesAt};
ghost use Rattle.clients.specs.Clients.{no_one};
ghost use Rattle.world.specs.Taking.{Takes, asks_floor};
ghost use Rattle.world.specs.Telling.{handed_some};
ghost use Rattle.world.specs.World.{IsOfOneVolume};

use crate::asking::{Taken, ask};
use crate::telling::tell_with;
use crate::told::Told;
use crate::world::World;
use local_store::StoreLike;

impl<S: StoreLike + Drop> World<S> {
    /// Whether the demand that the member at a place takes next asks for a floor: a write with FUA, or a FLUSH.
    pub fn asks_floor(&self, at: usize) -> bool
        requires { at < length self.now.chain.members }
        ensures { IfSome (slice_get self.now.queues at) (λ queue. result ≡ asks_floor queue) }
    {
        self.queues[at].asks_floor()
    }

    /// The member at a place takes the first demand of its sessions: a READ of a clean range is answered at once, another READ and a FLUSH
    /// wait, and a write goes to the head. A demand that it refuses is answered with 12 where memory ran out, else with 5. `None` where no
    /// demand waits.
    pub fn take(&mut self, at: usize) -> Option<Told>
        requires { at < length self.old.chain.members }
        ensures taken { IfSome result (λ told. Takes S.keeps_model S.about S.failures S.keeps S.moment S.may_have_left_since at told self.old self.new) }
        ensures none { IfNone result ((slice_get self.old.queues at ≡ Some []) × (self.new ≡ self.old)) }

        // A stop at any moment of the call leaves what the member was shown with.
        ensures any_moment { S.keeps_model → IfSome result (λ told. LeavesAt S.about S.keeps S.may_leave_now S.moment S.may_have_left_since at self.old.chain self.new.chain) }
        ensures one_volume { S.keeps_model → IsOfOneVolume S.about S.keeps S.may_leave_now no_one (handed_some result) self.old self.new }
    {
        let demand = self.queues[at].take()?;
        let Taken { replies, refused } = ask(self.alloc, &mut self.chain, at, demand);
        Some(tell_with(self.alloc, &mut self.clients, replies, refused))
    }
}
