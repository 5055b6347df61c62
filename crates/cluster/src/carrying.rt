//! What is carried, as its threads use it.
ghost use Rattle.std.specs.Prelude.{◌≡◌, ◌∷◌, [], IfNone, IfSome, IsTrue, ◌↔◌};
ghost use Rattle.mail.specs.Given.{flat};
ghost use Rattle.cluster.specs.Carried.{left_of, order_of};

use crate::carried::Carried;
use chain_steps::Sent;
use gate_journal::Slot;
use std::alloc::Global;
use std::collections::VecDeque;
use std::mem;

impl Carried {
    /// Nothing.
    pub fn new(alloc: Global) -> Carried
        ensures { order_of result ≡ [] }
    {
        Carried {
            next: None,
            rest: Vec::new(alloc),
            bundles: VecDeque::new(alloc),
        }
    }

    /// Whether nothing is left to be delivered.
    pub fn is_empty(&self) -> bool
        ensures { IsTrue result ↔ (order_of self.now ≡ []) }
    {
        self.next.is_none()
    }

    /// The message that is to be delivered next.
    pub fn next(&self) -> Option<&Sent>
        ensures some { IfSome result (λ sent. order_of self.now ≡ sent.now ∷ left_of (order_of self.now)) }
        ensures none { IfNone result (order_of self.now ≡ []) }
    {
        self.next.as_ref()
    }

    /// It was delivered.
    pub fn take_next(&mut self, alloc: Global)
        ensures { order_of self.new ≡ left_of (order_of self.old) }
    {
        match self.rest.pop() {
            Some(next) => self.next = Some(next),
            None => {
                let bundles = mem::replace(&mut self.bundles, VecDeque::new(alloc));
                *self = Carried::of(bundles, alloc);
            }
        }
    }

    /// Takes all out that is for a slot, before the first that is for another.
    pub fn skip(&mut self, alloc: Global, to: Slot) {
        while let Some(sent) = self.next() {
            if sent.to != to {
                break;
            }
            self.take_next(alloc);
        }
    }

    /// These bundles, in place of what was left.
    pub fn take_up(&mut self, bundles: VecDeque<Vec<Sent>>, alloc: Global)
        ensures { order_of self.new ≡ flat (λ bundle. bundle.items) bundles.items }
    {
        *self = Carried::of(bundles, alloc);
    }

    /// These bundles.
    fn of(bundles: VecDeque<Vec<Sent>>, alloc: Global) -> Carried
        ensures { order_of result ≡ flat (λ bundle. bundle.items) bundles.items }
    {
        let mut bundles = bundles;
        while let Some(mut bundle) = bundles.pop_front() {
            bundle.reverse();
            if let Some(next) = bundle.pop() {
                return Carried {
                    next: Some(next),
                    rest: bundle,
                    bundles,
                };
            }
        }
        Carried::new(alloc)
    }
}
