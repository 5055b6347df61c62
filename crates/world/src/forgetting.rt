//! A member that was removed is forgotten: a disk may join at its slot then.
ghost use Rattle.std.specs.Prelude.{◌≡◌, ◌<◌, length, IfNone, IfSome};
ghost use Rattle.clients.specs.Clients.{no_one};
ghost use Rattle.world.specs.Forgetting.{HasForgotten, MayForget};
ghost use Rattle.world.specs.World.{IsOfOneVolume};

use crate::world::World;
use local_store::StoreLike;

impl<S: StoreLike + Drop> World<S> {
    /// The member at a place is forgotten, and its store comes back. Its sessions end; those of members at later places move up with these.
    /// Nobody is recorded at its slot, nothing waits at it or for it, and there are others. All that run were told the recorded chain.
    /// `None` where that isn't so: nothing changed.
    pub fn forget(&mut self, at: usize) -> Option<S>
        requires { at < length self.old.chain.members }
        ensures forgotten { IfSome result (λ store. MayForget at self.old × HasForgotten at store self.old self.new) }
        ensures idle { IfNone result (¬ MayForget at self.old × (self.new ≡ self.old)) }
        ensures one_volume { S.keeps_model → IsOfOneVolume S.about S.keeps S.may_leave_now no_one no_one self.old self.new }
    {
        if !self.queues[at].is_empty() {
            return None;
        }
        let store = self.chain.forget(at)?;
        self.queues.remove(at).abandon();
        self.clients.leave(at);
        Some(store)
    }
}
