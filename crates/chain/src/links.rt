//! Links.
ghost use Rattle.std.specs.Prelude.{◌≡◌, ◌+◌, ◌*◌, ◌<◌, ◌∷◌, [], List, IfNone, IfOk, IfSome, length, map, replicate, slice_set};
ghost use Rattle.chain_steps.specs.declared.message.Envelope.{Envelope};
ghost use Rattle.chain.specs.Links.{link_at};

use chain_steps::Envelope;
use gate_journal::Slot;
use std::alloc::{AllocError, Global};
use std::collections::VecDeque;
use std::marker::Model;
use std::mem;

/// How many slots there are.
const SLOTS: usize = 8;

/// A link from each slot to each, first in, first out.
#[derive(Drop)]
pub(crate) struct Links {
    /// That from one slot to another stands at the place `8 * from + to`.
    queues: Vec<VecDeque<Envelope>>,
}

impl Model for Links {
    ghost Value = { List (List Envelope) };

    ghost view = { λ links. map (λ queue. queue.items) links.queues.items };

    ghost invariant = { λ links. length (map (λ queue. queue.items) links.queues.items) ≡ 64 };
}

impl Links {
    /// Links on which nothing is.
    pub(crate) fn new(alloc: Global) -> Result<Links, AllocError>
        ensures { IfOk result (λ links. links ≡ replicate 64 []) }
    {
        let mut queues = Vec::with_capacity(alloc, SLOTS * SLOTS)?;
        while queues.len() < SLOTS * SLOTS {
            queues.push_reserved(VecDeque::new(alloc));
        }
        Ok(Links { queues })
    }

    /// Where the link from one slot to another stands.
    fn place_of(from: Slot, to: Slot) -> usize
        ensures place { result ≡ 8 * from + to }
        ensures within { result < 64 }
    {
        SLOTS * usize::from(from.number()) + usize::from(to.number())
    }

    /// The first message on the link from one slot to another.
    pub(crate) fn first(&self, from: Slot, to: Slot) -> Option<&Envelope>
        ensures none { IfNone result (link_at self.now from to ≡ []) }
        ensures some { IfSome result (λ first. (rest : List Envelope) × (link_at self.now from to ≡ first.now ∷ rest)) }
    {
        self.queues[Links::place_of(from, to)].front()
    }

    /// Exchanges what is on the link from one slot to another with a queue.
    pub(crate) fn exchange(&mut self, from: Slot, to: Slot, queue: &mut VecDeque<Envelope>)
        ensures link { self.new ≡ slice_set self.old (8 * from + to) queue.old.items }
        ensures was { queue.new.items ≡ link_at self.old from to }
        ensures from { from < 8 }
        ensures to { to < 8 }
    {
        mem::swap(&mut self.queues[Links::place_of(from, to)], queue);
    }
}
