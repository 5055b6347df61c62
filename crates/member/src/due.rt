//! What is to be done for a member.
ghost use Rattle.std.specs.Prelude.{◌↔◌, IsTrue};

use crate::agreed::Agreed;
use crate::member::Member;
use local_store::StoreLike;

/// What is to be done for a member, as it stands.
#[derive(Clone, Copy, Debug, PartialEq, Eq)]
pub struct Due {
    /// It has sent something on to its successor that nobody has fetched yet.
    pub on: bool,
    /// It has sent something back to its predecessor.
    pub back: bool,
    /// It has sent something to the head.
    pub to_head: bool,
    /// It runs, and it is the turn of a commit.
    pub commit: bool,
    /// It runs, and a token waits at it for a front to be looked up.
    pub front: bool,
    /// It runs, and a token waits at it for a floor.
    pub floor: bool,
}

impl<S: StoreLike + Drop, J: Agreed> Member<S, J> {
    ghost use Rattle.member.specs.Due.{IsDue};

    /// What is to be done for it, as it stands: all of it, and nothing else.
    pub fn due(&self) -> Due
        ensures { IsDue self.now result }
    {
        let runs = self.node.stopped().is_none();
        Due {
            on: !self.outbox.on.is_empty(),
            back: !self.outbox.back.is_empty(),
            to_head: !self.outbox.to_head.is_empty(),
            commit: runs && self.node.can_begin(),
            front: runs && self.node.asks_front(),
            floor: runs && self.node.asks_floor(),
        }
    }
}
