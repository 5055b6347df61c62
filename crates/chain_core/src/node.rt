ghost use Rattle.std.specs.Prelude.{◌≡◌, ◌↔◌, ◌≤◌, ◌+◌, [], List, ℕ, length, true, false, None, IfSome, IsTrue};
ghost use Rattle.chain_steps.specs.Node.{NodeState, durable_of, last_of};
ghost use Rattle.chain_steps.specs.Steps.{stop};
ghost use Rattle.local_store.specs.About.{IsOfVersionTwo};
ghost use Rattle.chain_core.specs.Node.{IsIdle, IsSound, IsStep, Seen, first_state, may_raise, size_of};

use crate::commit::Commit;
use crate::desk::Desk;
use crate::out::{Out, Served};
use board::Board;
use chain_steps::{Cause, Found, Place};
use configurations::Record;
use flush_barrier::BoardName;
use local_store::StoreLike;
use std::alloc::Global;
use std::marker::Model;
use version_table::Table;

/// A member of a chain, over a store of its own. It has no `Drop` while tokens wait: `abandon` ends it.
pub struct Node<S: StoreLike> {
    pub(crate) alloc: Global,
    pub(crate) board: BoardName,
    pub(crate) place: Place,
    pub(crate) incarnation: u64,
    pub(crate) stopped: Option<Cause>,
    pub(crate) turned: bool,
    pub(crate) holds: bool,
    pub(crate) store: S,
    pub(crate) table: Table,
    pub(crate) known: u64,
    pub(crate) ticket: u64,
    pub(crate) desk: Desk,
    pub(crate) found: Option<Found>,
    pub(crate) commit: Option<Commit>,
}

impl<S: StoreLike> Model for Node<S> {
    ghost Value = { Seen S };

    ghost view = { λ n. record {
      store = n.store;
      state = record {
        board = n.board;
        place = n.place;
        incarnation = n.incarnation;
        stopped = n.stopped;
        turned = n.turned;
        holds = n.holds;
        table = n.table;
        known = n.known;
        ticket = n.ticket;
        waiting = n.desk;
        found = n.found;
        commit = n.commit;
      };
    } };

    ghost invariant = { λ n. IsSound (S.about n.store) (record { premise = S.keeps_model; keeps = S.keeps n.store }) (record {
      board = n.board;
      place = n.place;
      incarnation = n.incarnation;
      stopped = n.stopped;
      turned = n.turned;
      holds = n.holds;
      table = n.table;
      known = n.known;
      ticket = n.ticket;
      waiting = n.desk;
      found = n.found;
      commit = n.commit;
    }) };
}

impl<S: StoreLike + Drop> Node<S> {
    /// The member whose store this is, in a chain that starts: all that the store holds is known, and no token waits. The
    /// store isn't broken, its disk is of version 2, its log is there, and it keeps a volume of its size.
    pub fn new(alloc: Global, board: &Board, chain: Record, store: S) -> Node<S>
        requires runs { (S.about store).broken ≡ false }
        requires version { IsOfVersionTwo (S.about store) }
        requires here { (S.about store).lent ≡ None }
        requires keeps { S.keeps_model → (volume : List ℕ) × S.keeps store volume × (length volume ≡ size_of (S.about store)) }
        ensures store { result.store ≡ store }
        ensures state { result.state ≡ first_state board.now chain true (S.about store) }
    {
        Node::begin(alloc, board, chain, store, true)
    }

    /// The member whose store this is, in a chain that it joins: as in one that starts, but that its Turn hasn't come.
    pub fn join(alloc: Global, board: &Board, chain: Record, store: S) -> Node<S>
        requires runs { (S.about store).broken ≡ false }
        requires version { IsOfVersionTwo (S.about store) }
        requires here { (S.about store).lent ≡ None }
        requires keeps { S.keeps_model → (volume : List ℕ) × S.keeps store volume × (length volume ≡ size_of (S.about store)) }
        ensures store { result.store ≡ store }
        ensures state { result.state ≡ first_state board.now chain false (S.about store) }
    {
        Node::begin(alloc, board, chain, store, false)
    }

    /// The member whose store this is, with its Turn or without.
    fn begin(alloc: Global, board: &Board, chain: Record, store: S, turned: bool) -> Node<S>
        requires runs { (S.about store).broken ≡ false }
        requires version { IsOfVersionTwo (S.about store) }
        requires here { (S.about store).lent ≡ None }
        requires keeps { S.keeps_model → (volume : List ℕ) × S.keeps store volume × (length volume ≡ size_of (S.about store)) }
        ensures store { result.store ≡ store }
        ensures state { result.state ≡ first_state board.now chain turned (S.about store) }
    {
        let front = store.front();
        let _sizes = store.geometry();
        Node {
            alloc,
            board: BoardName::of(board),
            place: Place::new(store.slot(), chain),
            incarnation: store.incarnation(),
            stopped: None,
            turned,
            holds: false,
            table: Table::new(alloc, front),
            known: front,
            ticket: 1,
            desk: Desk::new(alloc),
            found: None,
            commit: None,
            store,
        }
    }

    /// Does nothing: its clause is what holds of every member.
    pub fn sound(&self)
        ensures { IsSound (S.about self.now.store) (record { premise = S.keeps_model; keeps = S.keeps self.now.store }) self.now.state }
    {
        let _ = &self.known;
    }

    /// Its store.
    pub fn store(&self) -> &S
        ensures { result.now ≡ self.now.store }
    {
        &self.store
    }

    /// Its slot, and the chain that it was told.
    pub fn place(&self) -> &Place
        ensures { result.now ≡ self.now.state.place }
    {
        &self.place
    }

    /// The incarnation of its disk.
    pub fn incarnation(&self) -> u64
        ensures { result ≡ self.now.state.incarnation }
    {
        self.incarnation
    }

    /// Whether it may raise the front: its Turn has come, it holds the front for no joiner, and it is the tail of the chain that
    /// it was told.
    pub fn may_raise(&self) -> bool
        ensures { result ≡ may_raise self.now.state }
    {
        self.turned && !self.holds && self.place.is_tail()
    }

    /// Whether it holds the front for a joiner.
    pub fn holds(&self) -> bool
        ensures { result ≡ self.now.state.holds }
    {
        self.holds
    }

    /// Why it stopped, if it did.
    pub fn stopped(&self) -> Option<Cause>
        ensures { result ≡ self.now.state.stopped }
    {
        self.stopped
    }

    /// Whether nothing waits at it: no token, and no front that it found.
    pub fn is_idle(&self) -> bool
        ensures { IsTrue result ↔ IsIdle self.now.state }
    {
        self.desk.is_empty() && self.found.is_none()
    }

    /// The number of its durable front's last write.
    pub fn durable(&self) -> u64
        ensures { result ≡ durable_of self.now.state }
    {
        self.table.forgotten()
    }

    /// Its known commit.
    pub fn known(&self) -> u64
        ensures { result ≡ self.now.state.known }
    {
        self.known
    }

    /// The number of its last applied write.
    pub fn applied(&self) -> u64
        ensures { result ≡ last_of self.now.state }
    {
        self.table.applied()
    }

    /// Stops it, since it was told to.
    pub fn stop(&mut self) -> Out
        ensures { IsStep self.old self.new result (stop Cause.Told self.old.state) }
    {
        self.stop_by(Cause::Told)
    }

    /// Stops it for this cause: all its tokens are refused with EIO, in the order in which they were taken.
    pub fn stop_by(&mut self, cause: Cause) -> Out
        ensures step { IsStep self.old self.new result (stop cause self.old.state) }
        ensures board { self.new.state.board ≡ self.old.state.board }
    {
        self.stopped = Some(cause);
        self.found = None;
        self.commit = None;
        Out {
            messages: Vec::new(self.alloc),
            replies: self.desk.refuse_all(self.alloc),
        }
    }

    /// Gives the member up, and its store back. The tokens that wait are abandoned.
    pub fn abandon(self) -> S
        ensures { result ≡ self.store }
    {
        let Node {
            alloc: _,
            board: _,
            place: _,
            incarnation: _,
            stopped: _,
            turned: _,
            holds: _,
            store,
            table: _,
            known: _,
            ticket: _,
            desk,
            found: _,
            commit: _,
        } = self;
        desk.abandon();
        store
    }
}
