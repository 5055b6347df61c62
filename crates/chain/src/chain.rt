ghost use Rattle.std.specs.Prelude.{◌≡◌, ◌<◌, All, IfSome, length, slice_get};
ghost use Rattle.chain_steps.specs.Node.{durable_of, is_stopped, last_of};
ghost use Rattle.chain_model.specs.View.{is_in};
ghost use Rattle.chain.specs.Chain.{bytes_of};
ghost use Rattle.chain.specs.Member.{HasOwnDisk, IsInOrder, KeepsInside};

use crate::links::Links;
use crate::lone_board::LoneBoard;
use crate::member::Member;
use board::Board;
use chain_steps::{Cause, incarnation_in};
use configurations::Record;
use gate_journal::Slot;
use local_store::StoreLike;
use std::alloc::Global;
use std::marker::Model;
use volume::Geometry;

/// A chain of members at slots, whose record changes. It has no `Drop`, since it holds tokens: `abandon` ends it.
pub struct Chain<S: StoreLike> {
    pub(crate) alloc: Global,
    pub(crate) board: LoneBoard,
    /// The recorded chain.
    pub(crate) recorded: Record,
    /// The one that was recorded before it.
    pub(crate) before: Record,
    /// The record that is being written.
    pub(crate) writing: Option<Record>,
    /// The greatest incarnation that was recorded since it began.
    pub(crate) youngest: u64,
    pub(crate) geometry: Geometry,
    /// Whoever stands at the slots: a member that was removed too.
    pub(crate) members: Vec<Member<S>>,
    /// The chain links.
    pub(crate) links: Links,
    /// The submit links.
    pub(crate) submits: Links,
}

impl<S: StoreLike> Model for Chain<S> {
    ghost use Rattle.chain.specs.Chain.{Chained, IsFormed};

    ghost Value = { Chained S };

    ghost view = { λ c. record {
      id = c.board.id;
      seat = c.board.seat;
      words = c.board.words;
      recorded = c.recorded;
      before = c.before;
      writing = c.writing;
      youngest = c.youngest;
      geometry = c.geometry;
      members = c.members.items;
      links = c.links;
      submits = c.submits;
    } };

    ghost invariant = { λ c. IsFormed S.about (record {
      id = c.board.id;
      seat = c.board.seat;
      words = c.board.words;
      recorded = c.recorded;
      before = c.before;
      writing = c.writing;
      youngest = c.youngest;
      geometry = c.geometry;
      members = c.members.items;
      links = c.links;
      submits = c.submits;
    }) };
}

impl<S: StoreLike + Drop> Chain<S> {
    /// Does nothing: its clauses are what holds of all members.
    pub fn sound(&self)
        ensures own { All (HasOwnDisk S.about) self.now.members }
        ensures inside { All (KeepsInside (bytes_of self.now)) self.now.members }
    {
        for member in &self.members {
            member.sound();
        }
    }

    /// How many members it has, those too that were removed.
    pub fn len(&self) -> usize
        ensures { result ≡ length self.now.members }
    {
        self.members.len()
    }

    /// The sizes of its volume.
    pub fn geometry(&self) -> Geometry
        ensures { result ≡ self.now.geometry }
    {
        self.geometry
    }

    /// The recorded chain.
    pub fn recorded(&self) -> &Record
        ensures { result.now ≡ self.now.recorded }
    {
        &self.recorded
    }

    /// Whether the member at a place is in the recorded chain, by its slot and incarnation.
    pub fn is_recorded(&self, at: usize) -> bool
        requires { at < length self.now.members }
        ensures { IfSome (slice_get self.now.members at) (λ m. result ≡ is_in self.now.recorded m.node.state.place.slot m.node.state.incarnation) }
    {
        match incarnation_in(&self.recorded, self.members[at].slot()) {
            Some(recorded) => recorded.number() == self.members[at].incarnation(),
            None => false,
        }
    }

    /// Its board.
    pub fn board(&self) -> &Board
        ensures { result.now ≡ self.now.id }
    {
        self.board.board()
    }

    /// The committed front.
    pub fn front(&mut self) -> u64
        ensures front { result ≡ self.old.words.front }
        ensures unchanged { self.new ≡ self.old }
    {
        self.board.look().number()
    }

    /// The slot of the member at a place.
    pub fn slot(&self, at: usize) -> Slot
        requires { at < length self.now.members }
        ensures { IfSome (slice_get self.now.members at) (λ m. result ≡ m.node.state.place.slot) }
    {
        self.members[at].slot()
    }

    /// Why the member at a place stopped. `None` while it runs.
    pub fn cause(&self, at: usize) -> Option<Cause>
        requires { at < length self.now.members }
        ensures { IfSome (slice_get self.now.members at) (λ m. result ≡ m.node.state.stopped) }
    {
        self.members[at].cause()
    }

    /// The store of the member at a place.
    pub fn store(&self, at: usize) -> &S
        requires { at < length self.now.members }
        ensures { IfSome (slice_get self.now.members at) (λ m. result.now ≡ m.node.store) }
    {
        self.members[at].store()
    }

    /// The durable front of the member at a place.
    pub fn durable(&self, at: usize) -> u64
        requires { at < length self.now.members }
        ensures { IfSome (slice_get self.now.members at) (λ m. result ≡ durable_of m.node.state) }
    {
        self.members[at].durable()
    }

    /// The known commit of the member at a place.
    pub fn known(&self, at: usize) -> u64
        requires { at < length self.now.members }
        ensures known { IfSome (slice_get self.now.members at) (λ m. result ≡ m.node.state.known) }
        ensures order { IfSome (slice_get self.now.members at) (λ m. IsInOrder m.node.state) }
    {
        self.members[at].known()
    }

    /// The number of the last write that the member at a place has applied.
    pub fn applied(&self, at: usize) -> u64
        requires { at < length self.now.members }
        ensures { IfSome (slice_get self.now.members at) (λ m. result ≡ last_of m.node.state) }
    {
        self.members[at].applied()
    }

    /// Whether the member at a place has stopped.
    pub fn is_stopped(&self, at: usize) -> bool
        requires { at < length self.now.members }
        ensures { IfSome (slice_get self.now.members at) (λ m. result ≡ is_stopped m.node.state) }
    {
        self.members[at].cause().is_some()
    }
}
