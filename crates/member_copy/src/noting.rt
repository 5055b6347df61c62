//! What a member came to know is noted.
ghost use Rattle.std.specs.Prelude.{◌≡◌, ◌*◌, ◌≤◌, List, ℕ, false, length, true};
ghost use Rattle.chain_steps.specs.Node.{durable_of, last_of};
ghost use Rattle.chain_steps.specs.Steps.{volume_at};
ghost use Rattle.rejoin_catchup.specs.Sending.{IsCopy};
ghost use Rattle.member_copy.specs.MemberCopy.{IsOf};
ghost use Rattle.member_copy.specs.Noting.{HasMarked, HasNoted, IsLost};

use crate::member_copy::MemberCopy;
use chain_core::Node;
use local_store::StoreLike;
use rejoin_catchup::Sender;

impl MemberCopy {
    /// Notes the member's known commit: of the blocks that were given, those that the writes up to it touch are due again. It is to be
    /// noted before the member commits further than was noted before; and while blocks are given again, the member knows no more, since
    /// it holds the front. Where that isn't so, the copy is broken.
    pub fn note<S: StoreLike + Drop>(&mut self, node: &Node<S>)
        requires is_of { IsOf (S.about node.now.store) self.old }
        ensures noted { HasNoted node.now.state self.old self.new }
        ensures unchanged { node.now.state.known ≡ self.old.front → self.new ≡ self.old }
        ensures lost { IsLost node.now.state self.old → self.new ≡ record self.old { front = node.now.state.known; broken = true } }
        ensures is_of { IsOf (S.about node.now.store) self.new }
        ensures copies { self.new.broken ≡ false → (volume copy : List ℕ) → length (volume_at volume node.now.state self.old.front) ≡ 4096 * length self.old.sender.marks
            → IsCopy self.old.sender (volume_at volume node.now.state self.old.front) copy → IsCopy self.new.sender (volume_at volume node.now.state node.now.state.known) copy }
    {
        node.sound();
        let known = node.known();
        if known == self.front {
            return;
        }
        if self.rests || self.front < node.durable() || known < self.front {
            self.broken = true;
            self.front = known;
            return;
        }
        mark_writes(&mut self.sender, node, self.front, known);
        self.front = known;
    }
}

/// Of the blocks that were given, those that the member's writes touch from behind one front up to another are marked.
fn mark_writes<S: StoreLike + Drop>(sender: &mut Sender, node: &Node<S>, from: u64, to: u64)
    requires blocks { length sender.old.marks ≡ (S.about node.now.store).geometry.blocks }
    requires kept { durable_of node.now.state ≤ from }
    requires applied { to ≤ last_of node.now.state }
    requires ahead { from ≤ to }
    ensures marked { HasMarked node.now.state from to sender.old sender.new }
    ensures copies { (volume copy : List ℕ) → length (volume_at volume node.now.state from) ≡ 4096 * length sender.old.marks
        → IsCopy sender.old (volume_at volume node.now.state from) copy → IsCopy sender.new (volume_at volume node.now.state to) copy }
{
    let mut noted = from;
    while noted < to {
        sender.written(node.kept_write(noted + 1));
        noted += 1;
    }
}
