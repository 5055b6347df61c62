ghost use Rattle.std.specs.Prelude.{◌≡◌, [], map};
ghost use Rattle.chain_core.specs.Node.{IsSound};
ghost use Rattle.member.specs.Posted.{IsAgreed, box_of, none_sent, with_box};

use crate::agreed::Agreed;
use crate::outbox::{Outbox, Route};
use chain_core::Node;
use chain_steps::Sent;
use local_store::StoreLike;
use std::alloc::Global;
use std::collections::VecDeque;
use std::marker::{Model, PhantomData};

/// A member of a chain, and what it has sent and nobody has fetched yet. It has no `Drop` while tokens wait: `abandon` ends it.
pub struct Member<S: StoreLike, J: Agreed> {
    pub(crate) node: Node<S>,
    pub(crate) outbox: Outbox,
    pub(crate) of: PhantomData<J>,
}

impl<S: StoreLike, J: Agreed> Model for Member<S, J> {
    ghost use Rattle.member.specs.Boxes.{boxes_of};
    ghost use Rattle.member.specs.Posted.{IsAgreed, Posted};

    ghost Value = { Posted S };

    ghost view = { λ m. record { node = m.node; outbox = boxes_of m.outbox } };

    ghost invariant = { λ m. IsAgreed S.about J.board J.size m.node };
}

impl<S: StoreLike + Drop, J: Agreed> Member<S, J> {
    /// The member of this node, which has sent nothing.
    pub fn new(alloc: Global, node: Node<S>) -> Member<S, J>
        requires { IsAgreed S.about J.board J.size node }
        ensures { result ≡ record { node = node; outbox = none_sent } }
    {
        Member {
            node,
            outbox: Outbox::new(alloc),
            of: PhantomData,
        }
    }

    /// Its node, to be asked.
    pub fn node(&self) -> &Node<S>
        ensures node { result.now ≡ self.now.node }
        ensures agreed { IsAgreed S.about J.board J.size self.now.node }
    {
        &self.node
    }

    /// Does nothing: its clause is what holds of every member.
    pub fn sound(&self)
        ensures { IsSound (S.about self.now.node.store) (record { premise = S.keeps_model; keeps = S.keeps self.now.node.store }) self.now.node.state }
    {
        self.node.sound();
    }

    /// Takes out what it has sent by a way, the oldest first. The list is empty before.
    pub fn fetch(&mut self, route: Route, bundles: &mut VecDeque<Vec<Sent>>)
        requires { bundles.old.items ≡ [] }
        ensures fetched { map (λ bundle. bundle.items) bundles.new.items ≡ box_of route self.old.outbox }
        ensures left { self.new ≡ record self.old { outbox = with_box route [] self.old.outbox } }
    {
        self.outbox.exchange(route, bundles);
    }

    /// Gives the member up, and its store back. The tokens that wait are abandoned, and what it sent is gone.
    pub fn abandon(self) -> S
        ensures { result ≡ self.node.store }
    {
        let Member {
            node,
            outbox: _,
            of: _,
        } = self;
        node.abandon()
    }
}
