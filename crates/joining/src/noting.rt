//! What a member came to know is noted.
ghost use Rattle.std.specs.Prelude.{◌≡◌, ◌*◌, ◌<◌, ◌≤◌, List, ℕ, false, length, slice_get, IfSome};
ghost use Rattle.chain_steps.specs.Node.{durable_of, last_of};
ghost use Rattle.chain_steps.specs.Steps.{volume_at};
ghost use Rattle.rejoin_catchup.specs.Sending.{IsCopy};
ghost use Rattle.home_blocks.specs.Superblock.{Superblock};
ghost use Rattle.joining.specs.Copying.{HasMarked, HasNoted, IsCopyOf, IsFor};

use crate::copying::Copying;
use disk_model::Disk;
use local_store::StoreLike;
use rejoin_catchup::Sender;
use world::World;

impl<D: Disk + Drop> Copying<D> {
    /// Notes the member's known commit: of the blocks that were given, those that the writes up to it touch are due again. It is to be
    /// noted before the member commits further than was noted before; and while blocks are given again, the member knows no more, since
    /// it holds the front. Where that isn't so, the copying is broken.
    pub fn note<S: StoreLike + Drop>(&mut self, world: &World<S>)
        requires is_for { IsFor world.now.chain self.old }
        ensures noted { IfSome (slice_get world.now.chain.members self.old.at) (λ m. HasNoted m.node.state self.old self.new) }
        ensures is_for { IsFor world.now.chain self.new }
        ensures copies { IfSome (slice_get world.now.chain.members self.old.at) (λ m. self.new.broken ≡ false → D.keeps_model
            → (volume : List ℕ) → length (volume_at volume m.node.state self.old.front) ≡ 4096 * length self.old.sender.marks
            → (sb : Superblock) → IsCopyOf D.gives D.may_leave_now sb (volume_at volume m.node.state self.old.front) self.old
            → IsCopyOf D.gives D.may_leave_now sb (volume_at volume m.node.state m.node.state.known) self.new) }
    {
        let known = world.known(self.at);
        if known == self.front {
            return;
        }
        if self.rests || self.front < world.durable(self.at) || known < self.front {
            self.broken = true;
            self.front = known;
            return;
        }
        mark_writes(&mut self.sender, world, self.at, self.front, known);
        self.front = known;
    }
}

/// Of the blocks that were given, those that the writes of the member at a place touch from behind one front up to another are marked.
fn mark_writes<S: StoreLike + Drop>(
    sender: &mut Sender,
    world: &World<S>,
    at: usize,
    from: u64,
    to: u64,
)
    requires within { at < length world.now.chain.members }
    requires blocks { length sender.old.marks ≡ world.now.chain.geometry.blocks }
    requires kept { IfSome (slice_get world.now.chain.members at) (λ m. (durable_of m.node.state ≤ from) × (to ≤ last_of m.node.state)) }
    requires ahead { from ≤ to }
    ensures marked { IfSome (slice_get world.now.chain.members at) (λ m. HasMarked m.node.state from to sender.old sender.new) }
    ensures copies { IfSome (slice_get world.now.chain.members at) (λ m. (volume copy : List ℕ) → length (volume_at volume m.node.state from) ≡ 4096 * length sender.old.marks
        → IsCopy sender.old (volume_at volume m.node.state from) copy → IsCopy sender.new (volume_at volume m.node.state to) copy) }
{
    let mut noted = from;
    while noted < to {
        sender.written(world.kept_write(at, noted + 1));
        noted += 1;
    }
}
