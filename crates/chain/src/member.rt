//! A member, and what of the board it has in use.
ghost use Rattle.std.specs.Prelude.{◌≡◌, ◌≢◌, ◌↔◌, IsTrue, None};
ghost use Rattle.chain_steps.specs.Node.{durable_of, epoch_of, last_of};

use crate::muster::Muster;
use board::Front;
use chain_core::Node;
use chain_steps::Cause;
use configurations::Epoch;
use gate_journal::{Slot, Synced};
use local_store::StoreLike;
use std::marker::Model;

/// A member of a chain, with what of the board it has in use.
pub struct Member<S: StoreLike> {
    pub(crate) node: Node<S>,
    /// A front that was looked up for a crew.
    pub(crate) front: Option<Front>,
    /// A crew, and its gauges as far as they are looked up.
    pub(crate) muster: Option<Muster>,
    /// The receipt of a commit that isn't posted yet.
    pub(crate) receipt: Option<Synced>,
}

impl<S: StoreLike> Model for Member<S> {
    ghost use Rattle.chain.specs.Member.{Linked};

    ghost Value = { Linked S };

    ghost view = { λ m. record {
      node = m.node;
      front = m.front;
      muster = m.muster;
      receipt = m.receipt;
    } };
}

impl<S: StoreLike + Drop> Member<S> {
    ghost use Rattle.chain.specs.Joining.{HoldsAsTail, IsHolding};
    ghost use Rattle.chain.specs.Member.{HasOwnDisk, IsInOrder, KeepsInside};
    ghost use Rattle.chain_core.specs.Node.{size_of};

    /// Does nothing: its clauses are what holds of every member.
    pub(crate) fn sound(&self)
        ensures own { HasOwnDisk S.about self.now }
        ensures inside { KeepsInside (size_of (S.about self.now.node.store)) self.now }
    {
        self.node.sound();
    }

    /// Its slot.
    pub(crate) fn slot(&self) -> Slot
        ensures { result ≡ self.now.node.state.place.slot }
    {
        self.node.place().slot()
    }

    /// The incarnation of its disk.
    pub(crate) fn incarnation(&self) -> u64
        ensures { result ≡ self.now.node.state.incarnation }
    {
        self.node.incarnation()
    }

    /// Whether it was told a chain of an epoch, if it runs.
    pub(crate) fn is_told(&self, epoch: Epoch) -> bool
        ensures { IsTrue result ↔ (self.now.node.state.stopped ≡ None → epoch_of self.now.node.state ≡ epoch) }
    {
        self.cause().is_some() || self.node.place().epoch() == epoch
    }

    /// Whether it holds the front, if it runs and is a tail.
    pub(crate) fn holds_as_tail(&self) -> bool
        ensures { IsTrue result ↔ HoldsAsTail self.now.node.state }
    {
        self.cause().is_some() || !self.node.place().is_tail() || self.node.holds()
    }

    /// Whether it runs, and holds this front for a joiner.
    pub(crate) fn is_holding(&self, front: u64) -> bool
        ensures { IsTrue result ↔ IsHolding front self.now.node.state }
    {
        self.cause().is_none() && self.node.holds() && self.known() == front
    }

    /// Whether it has stopped, if it is at a slot.
    pub(crate) fn has_stopped_at(&self, slot: Slot) -> bool
        ensures { IsTrue result ↔ (self.now.node.state.place.slot ≡ slot → self.now.node.state.stopped ≢ None) }
    {
        self.slot() != slot || self.cause().is_some()
    }

    /// Why it stopped. `None` while it runs.
    pub(crate) fn cause(&self) -> Option<Cause>
        ensures { result ≡ self.now.node.state.stopped }
    {
        self.node.stopped()
    }

    /// Its store.
    pub(crate) fn store(&self) -> &S
        ensures { result.now ≡ self.now.node.store }
    {
        self.node.store()
    }

    /// Its durable front.
    pub(crate) fn durable(&self) -> u64
        ensures { result ≡ durable_of self.now.node.state }
    {
        self.node.durable()
    }

    /// Its known commit.
    pub(crate) fn known(&self) -> u64
        ensures known { result ≡ self.now.node.state.known }
        ensures order { IsInOrder self.now.node.state }
    {
        self.node.sound();
        self.node.known()
    }

    /// The number of its last applied write.
    pub(crate) fn applied(&self) -> u64
        ensures { result ≡ last_of self.now.node.state }
    {
        self.node.applied()
    }

    /// Gives the member up, and its store back. The tokens that wait are abandoned.
    pub(crate) fn abandon(self) -> S
        ensures { result ≡ self.node.store }
    {
        let Member {
            node,
            front: _,
            muster: _,
            receipt: _,
        } = self;
        node.abandon()
    }
}
