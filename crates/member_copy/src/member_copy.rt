//! What was given of a member's volume.
ghost use Rattle.std.specs.Prelude.{◌≡◌, ◌↔◌, ◌<◌, ◌≤◌, List, None, ℕ, length, IfOk, IfSome, IsTrue};
ghost use Rattle.rejoin_catchup.specs.Sending.{IsCopy, IsSending, due_of};
ghost use Rattle.member_copy.specs.MemberCopy.{IsOf, first_copy};

use chain_core::Node;
use gate_journal::MAX_NUMBER;
use local_store::StoreLike;
use rejoin_catchup::Sender;
use std::alloc::{AllocError, Global};
use std::marker::Model;

/// What was given of a member's volume, and what is to be given still: the blocks from 0 up, each as it is at the member's known commit then,
/// and once each was given, those again that were written since. It is broken once the member goes on unnoted.
#[derive(Debug, Drop)]
pub struct MemberCopy {
    /// The member's known commit, when it was noted last.
    pub(crate) front: u64,
    pub(crate) sender: Sender,
    /// Whether a block was given again.
    pub(crate) rests: bool,
    pub(crate) broken: bool,
}

impl Model for MemberCopy {
    ghost use Rattle.std.specs.Prelude.{◌≤◌};
    ghost use Rattle.gate_journal.specs.declared.batch.TheConstants.{MAX_NUMBER};
    ghost use Rattle.member_copy.specs.MemberCopy.{Seen};

    ghost Value = { Seen };

    ghost view = { λ c. record { front = c.front; sender = c.sender; rests = c.rests; broken = c.broken } };

    ghost invariant = { λ c. c.front ≤ MAX_NUMBER };
}

impl MemberCopy {
    /// Begins to copy the volume of a member: nothing is given yet, and the member's known commit is noted.
    pub fn begin<S: StoreLike + Drop>(
        alloc: Global,
        node: &Node<S>,
    ) -> Result<MemberCopy, AllocError>
        ensures begun { IfOk result (λ c. c ≡ first_copy node.now.state.known (S.about node.now.store).geometry.blocks) }
        ensures is_of { IfOk result (IsOf (S.about node.now.store)) }

        // Every block is due, so whichever volume it is.
        ensures copies { (volume copy : List ℕ) → length copy ≡ length volume → IfOk result (λ c. IsCopy c.sender volume copy) }
    {
        node.sound();
        let blocks = node.store().geometry().blocks;
        let sender = Sender::new(alloc, blocks)?;
        Ok(MemberCopy {
            front: node.known(),
            sender,
            rests: false,
            broken: false,
        })
    }

    /// Whether it is of as many blocks as this member's volume has.
    pub fn is_of<S: StoreLike + Drop>(&self, node: &Node<S>) -> bool
        ensures { IsTrue result ↔ IsOf (S.about node.now.store) self.now }
    {
        self.sender.blocks() == node.store().geometry().blocks as usize
    }

    /// The block that is to be given next: 0, 1, .. and then those that are due again, the least first. None once the copy is whole.
    pub fn due(&self) -> Option<u32>
        ensures due { result ≡ due_of self.now.sender }
        ensures within { IfSome result (λ block. block < length self.now.sender.marks) }
        ensures sending { IsSending self.now.sender }
    {
        self.sender.due()
    }

    /// Whether no block is due.
    pub fn is_whole(&self) -> bool
        ensures { IsTrue result ↔ (due_of self.now.sender ≡ None) }
    {
        self.due().is_none()
    }

    /// Whether each block was given once.
    pub fn has_given_all(&self) -> bool
        ensures { IsTrue result ↔ (self.now.sender.given ≡ length self.now.sender.marks) }
    {
        self.sender.has_given_all()
    }

    /// The member's known commit, when it was noted last: at most 2^63 - 1.
    pub fn front(&self) -> u64
        ensures front { result ≡ self.now.front }
        ensures limit { result ≤ MAX_NUMBER }
    {
        self.front
    }

    /// Whether the member went on unnoted: then nothing more is given.
    pub fn is_broken(&self) -> bool
        ensures { result ≡ self.now.broken }
    {
        self.broken
    }
}
