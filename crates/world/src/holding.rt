//! A front that is held for a joiner, and what the joiner is given.
ghost use Rattle.std.specs.Prelude.{◌≡◌, ◌⊎◌, ◌*◌, ◌-◌, ◌<◌, ◌≤◌, List, ℕ, length, slice_get, IfErr, IfNone, IfOk, IfSome};
ghost use Rattle.chain_steps.specs.Node.{durable_of, last_of};
ghost use Rattle.chain_steps.specs.Steps.{volume_at};
ghost use Rattle.volume.specs.Writes.{Fits, patched};
ghost use Rattle.chain.specs.Chain.{Changes, RestsAt};
ghost use Rattle.chain.specs.Commits.{LeavesAt};
ghost use Rattle.chain.specs.Holding.{HasReadBlock, HoldsAt, MayNotHold, StopsReading};
ghost use Rattle.chain.specs.Member.{HasCalled};
ghost use Rattle.chain.specs.Musters.{LacksAt};
ghost use Rattle.clients.specs.Clients.{no_one};
ghost use Rattle.world.specs.Joining.{HasNoTail, IsTailAt};
ghost use Rattle.world.specs.Telling.{Answers, Moves, handed_lost, handed_some};
ghost use Rattle.world.specs.World.{IsOfOneVolume};

use crate::management::member_at;
use crate::telling::tell;
use crate::told::Told;
use crate::world::World;
use bytes::Bytes;
use local_store::StoreLike;
use volume::Write;

impl<S: StoreLike + Drop> World<S> {
    /// The place of the recorded chain's tail, if it stands anywhere.
    pub fn tail(&self) -> Option<usize>
        ensures there { IfSome result (IsTailAt self.now.chain) }
        ensures within { IfSome result (λ at. at < length self.now.chain.members) }
        ensures nobody { IfNone result (HasNoTail self.now.chain) }
    {
        let members = self.recorded().members();
        let tail = members[members.len() - 1];
        member_at(self, tail.slot)
    }

    /// The member at a place, the tail of the recorded chain, looks the committed front up, takes it as its known commit, and holds it for
    /// a joiner: it doesn't raise before it is told the next record. `None` where another member is at the place, or one that wasn't told
    /// the recorded chain, or once it stopped: nothing changed. Where memory runs out, it stops.
    pub fn hold(&mut self, at: usize) -> Option<Told>
        requires { at < length self.old.chain.members }
        ensures held { IfSome result (λ told. Answers told self.old self.new (HoldsAt at)) }
        ensures idle { IfNone result (Moves self.old self.new (λ old new. RestsAt at old new ⊎ LacksAt at old new (MayNotHold old.recorded))) }
        ensures one_volume { S.keeps_model → IsOfOneVolume S.about S.keeps S.may_leave_now no_one (handed_some result) self.old self.new }
    {
        let replies = self.chain.hold(at)?;
        Some(tell(self.alloc, &mut self.clients, replies))
    }

    /// A block of the volume at the known commit of the member at a place. `Ok(None)` once it stopped: nothing changed. Where memory runs
    /// out, or its device refuses the read, it stops in the call: `Err` has what was told then.
    pub fn held_block(&mut self, at: usize, block: u32) -> Result<Option<Bytes>, Told>
        requires within { at < length self.old.chain.members }
        requires block { block < self.old.chain.geometry.blocks }
        ensures given { IfOk result (λ given. IfSome given (λ bytes. Moves self.old self.new (λ old new. Changes at old new (HasReadBlock S.keeps_model S.about S.failures S.keeps S.moment S.may_have_left_since block bytes)))) }
        ensures idle { IfOk result (λ given. IfNone given (Moves self.old self.new (RestsAt at))) }
        ensures stopped { IfErr result (λ told. Answers told self.old self.new (λ replies old new. Changes at old new (HasCalled (StopsReading S.keeps_model S.about S.failures S.keeps S.moment S.may_have_left_since) replies))) }

        // A stop at any moment of the call leaves what the member was shown with.
        ensures any_moment { S.keeps_model → LeavesAt S.about S.keeps S.may_leave_now S.moment S.may_have_left_since at self.old.chain self.new.chain }
        ensures one_volume { S.keeps_model → IsOfOneVolume S.about S.keeps S.may_leave_now no_one (handed_lost result) self.old self.new }
    {
        match self.chain.held_block(at, block) {
            Ok(given) => Ok(given),
            Err(replies) => Err(tell(self.alloc, &mut self.clients, replies)),
        }
    }

    /// The write of the number `n`, which the member at a place keeps: it lies above its durable front, and not above that of its last
    /// applied write.
    pub fn kept_write(&self, at: usize, n: u64) -> &Write
        requires within { at < length self.now.chain.members }
        requires kept { IfSome (slice_get self.now.chain.members at) (λ m. (durable_of m.node.state < n) × (n ≤ last_of m.node.state)) }
        ensures after { IfSome (slice_get self.now.chain.members at) (λ m. (volume : List ℕ) → volume_at volume m.node.state n ≡ patched (volume_at volume m.node.state (n - 1)) result.now) }
        ensures inside { Fits (4096 * self.now.chain.geometry.blocks) result.now }
    {
        self.chain.kept_write(at, n)
    }
}
