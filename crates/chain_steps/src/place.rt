ghost use Rattle.std.specs.Prelude.{◌≡◌, ◌<◌, ◌≤◌, length, IfSome};
ghost use Rattle.chain_steps.specs.Place.{incarnation_in, place_in};

use configurations::{Epoch, Incarnation, Member, Record};
use gate_journal::Slot;
use std::marker::Model;

/// A slot, and the chain in which it stands or doesn't.
#[derive(Debug, Drop)]
pub struct Place {
    slot: Slot,
    chain: Record,
}

impl Model for Place {
    ghost use Rattle.chain_steps.specs.Place.{Standing};

    ghost Value = { Standing };

    ghost view = { λ place. record { slot = place.slot; chain = place.chain } };
}

impl Place {
    ghost use Rattle.std.specs.Prelude.{◌≡◌, ◌<◌, ◌≤◌, length, IfSome, Some};
    ghost use Rattle.chain_steps.specs.Place.{head_of, incarnation_in, is_head, is_member, is_of, is_tail, place_in, predecessor_of, slot_at, successor_of};

    /// The slot in the chain.
    pub fn new(slot: Slot, chain: Record) -> Place
        ensures { result ≡ record { slot = slot; chain = chain } }
    {
        Place { slot, chain }
    }

    /// The slot.
    pub fn slot(&self) -> Slot
        ensures { result ≡ self.now.slot }
    {
        self.slot
    }

    /// The chain's epoch.
    pub fn epoch(&self) -> Epoch
        ensures { result ≡ self.now.chain.epoch }
    {
        self.chain.epoch()
    }

    /// Where a slot stands in the chain, counted from the head, if it does.
    fn place_of(&self, slot: Slot) -> Option<usize>
        ensures place { result ≡ place_in self.now.chain slot }
        ensures within { IfSome result (λ at. at < length self.now.chain.members) }
        ensures few { length self.now.chain.members ≤ 8 }
    {
        place_in(&self.chain, slot)
    }

    /// Whether the member of this incarnation stands in the chain, at its slot.
    pub fn is_of(&self, incarnation: u64) -> bool
        ensures { result ≡ is_of self.now incarnation }
    {
        match self.incarnation_of(self.slot) {
            Some(recorded) => recorded.number() == incarnation,
            None => false,
        }
    }

    /// Whether the slot is the chain's.
    pub fn is_member(&self) -> bool
        ensures { result ≡ is_member self.now }
    {
        self.place_of(self.slot).is_some()
    }

    /// The head's slot.
    pub fn head(&self) -> Slot
        ensures { head_of self.now.chain ≡ Some result }
    {
        self.chain.members()[0].slot
    }

    /// Whether the slot is the head's.
    pub fn is_head(&self) -> bool
        ensures { result ≡ is_head self.now }
    {
        matches!(self.place_of(self.slot), Some(0))
    }

    /// Whether the slot is the tail's.
    pub fn is_tail(&self) -> bool
        ensures { result ≡ is_tail self.now }
    {
        self.is_member() && self.successor().is_none()
    }

    /// The slot behind this one, on the way to the tail.
    pub fn successor(&self) -> Option<Slot>
        ensures { result ≡ successor_of self.now }
    {
        let at = self.place_of(self.slot)?;
        self.at(at + 1)
    }

    /// The slot before this one, on the way to the head.
    pub fn predecessor(&self) -> Option<Slot>
        ensures { result ≡ predecessor_of self.now }
    {
        match self.place_of(self.slot)? {
            0 => None,
            at => self.at(at - 1),
        }
    }

    /// The incarnation of the member at a slot, if the slot is the chain's.
    pub fn incarnation_of(&self, slot: Slot) -> Option<Incarnation>
        ensures { result ≡ incarnation_in self.now.chain slot }
    {
        incarnation_in(&self.chain, slot)
    }

    /// The slot at a place, counted from the head.
    fn at(&self, place: usize) -> Option<Slot>
        ensures { result ≡ slot_at self.now.chain place }
    {
        self.chain.members().get(place).map(|m| m.slot)
    }
}

/// Where a slot stands in a chain, counted from the head, if it does.
fn place_in(chain: &Record, slot: Slot) -> Option<usize>
    ensures place { result ≡ place_in chain.now slot }
    ensures within { IfSome result (λ at. at < length chain.now.members) }
    ensures few { length chain.now.members ≤ 8 }
{
    chain.members().iter().position(|m| m.slot == slot)
}

/// The incarnation of the member that a chain has at a slot, if the slot is the chain's.
pub fn incarnation_in(chain: &Record, slot: Slot) -> Option<Incarnation>
    ensures { result ≡ incarnation_in chain.now slot }
{
    place_in(chain, slot)
        .and_then(|at| chain.members().get(at))
        .map(|m| m.incarnation)
}
