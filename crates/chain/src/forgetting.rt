//! A member that was removed is forgotten: another one may stand at its slot then.
ghost use Rattle.std.specs.Prelude.{◌≡◌, ◌↔◌, ◌<◌, IfNone, IfSome, IsTrue, length};
ghost use Rattle.chain_core.specs.Node.{IsIdle};
ghost use Rattle.chain.specs.Forgetting.{HasForgotten, IsOfOneVolumeForgetting, MayForget};

use crate::chain::Chain;
use crate::member::Member;
use crate::recording::are_told;
use chain_steps::incarnation_in;
use local_store::StoreLike;

impl<S: StoreLike + Drop> Member<S> {
    /// Whether nothing waits at it.
    fn is_idle(&self) -> bool
        ensures { IsTrue result ↔ IsIdle self.now.node.state }
    {
        self.node.is_idle()
    }
}

impl<S: StoreLike + Drop> Chain<S> {
    /// The member at a place is forgotten, and its store comes back; those at later places move up. Nobody is recorded at its slot, nothing
    /// waits at it, and there are others. All that run were told the recorded chain. `None` where that isn't so: nothing changed.
    pub fn forget(&mut self, at: usize) -> Option<S>
        requires { at < length self.old.members }
        ensures forgotten { IfSome result (λ store. MayForget at self.old × HasForgotten at store self.old self.new) }
        ensures idle { IfNone result (¬ MayForget at self.old × (self.new ≡ self.old)) }

        // Where none of its sessions' demands waits for it.
        ensures one_volume { S.keeps_model → IfSome result (λ store. IsOfOneVolumeForgetting S.about S.keeps S.may_leave_now at self.old self.new) }
    {
        if !self.may_forget(at) {
            return None;
        }
        Some(self.members.remove(at).abandon())
    }

    /// Whether the member at a place may be forgotten.
    pub fn may_forget(&self, at: usize) -> bool
        requires { at < length self.now.members }
        ensures { IsTrue result ↔ MayForget at self.now }
    {
        let member = &self.members[at];
        if incarnation_in(&self.recorded, member.slot()).is_some() {
            return false;
        }
        if !member.is_idle() || self.members.len() == 1 {
            return false;
        }
        are_told(&self.members, self.recorded.epoch())
    }
}
