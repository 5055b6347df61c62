//! A client and its session.
ghost use Rattle.std.specs.Prelude.{◌≡◌, ◌<◌, ◌≤◌, ◌↔◌, true, false, length, map, All, IfOk, IfSome, IsErrOf, IsTrue, List, None, OnErr};
ghost use Rattle.nbd_codec.specs.declared.constants.TheConstants.{MAX_IN_FLIGHT as most};
ghost use Rattle.nbd_session.specs.Begun.{greeted};
ghost use Rattle.nbd_session.specs.Demand.{asked_by};
ghost use Rattle.nbd_session.specs.Lawful.{History, fed_and_asked};
ghost use Rattle.nbd_session.specs.Progress.{is_over};
ghost use Rattle.world_model.specs.Event.{ClientEvent};

use crate::delivered::Delivered;
use crate::output::Output;
use board::Board;
use flush_barrier::{Reply, SessionId};
use nbd_session::{Demand, Refusal, Session};
use std::alloc::{AllocError, Global};
use std::marker::Model;

/// A client: its session, at the member at a place of the chain, and whether the session's end was told.
#[derive(Debug, Drop)]
pub(crate) struct Client {
    id: SessionId,
    session: Session,
    at: usize,
    told: bool,
}

impl Model for Client {
    ghost use Rattle.std.specs.Prelude.{◌≡◌};
    ghost use Rattle.clients.specs.Clients.{Client as Seen};

    ghost Value = { Seen };

    ghost view = { λ c. record { session = c.session; at = c.at; told = c.told } };

    ghost invariant = { λ c. c.session.id ≡ c.id };
}

impl Client {
    ghost use Rattle.clients.specs.Calls.{EndsInput, HasNothing, IsDemandOf, IsHanded, IsSameClient, TakesPiece, TakesReply, closes, without};
    ghost use Rattle.clients.specs.Clients.{Goes};

    /// A client whose session's greeting waits to go out.
    pub(crate) fn new(
        alloc: Global,
        board: &Board,
        id: SessionId,
        at: usize,
        size: u64,
        max_payload: u32,
        area: u32,
    ) -> Result<Client, AllocError>
        ensures { IfOk result (λ c. c ≡ record {
          session = greeted board.now id (record { size = size; max_payload = max_payload; area = area });
          at = at;
          told = false;
        }) }
    {
        let session = Session::new(alloc, board, id, size, max_payload, area)?;
        Ok(Client {
            id,
            session,
            at,
            told: false,
        })
    }

    /// The number of its session.
    pub(crate) fn id(&self) -> SessionId
        ensures { result ≡ self.now.session.id }
    {
        self.id
    }

    /// The place of its member.
    pub(crate) fn at(&self) -> usize
        ensures { result ≡ self.now.at }
    {
        self.at
    }

    /// Whether its session takes more input now.
    pub(crate) fn wants(&self) -> bool
        ensures { IsTrue result ↔ (is_over self.now.session.phase ≡ false) × (self.now.session.in_flight < most) }
    {
        self.session.wants()
    }

    /// Its session takes a piece.
    pub(crate) fn feed(&mut self, piece: &[u8]) -> Result<Vec<Demand>, Refusal>
        ensures fed { IfOk result (λ demands. TakesPiece piece.now self.old.at demands.items self.old self.new) }
        ensures demands { IfOk result (λ demands.
            All (IsDemandOf self.old.session.id self.old.session.board self.old.session.export.size) demands.items) }
        ensures few { IfOk result (λ demands. length demands.items ≤ most) }
        ensures same { IsSameClient self.old self.new }
        ensures lawful { IfOk result (λ demands. (history : History) → Goes self.old.session history →
            Goes self.new.session (fed_and_asked history piece.now (map asked_by demands.items))) }
        ensures over { IsErrOf result Refusal.SessionOver ↔ (is_over self.old.session.phase ≡ true) }
        ensures err { OnErr result (self.new ≡ self.old) }
    {
        self.session.feed(piece)
    }

    /// Its input has ended. `false` where the session takes none: nothing changed.
    pub(crate) fn end(&mut self) -> bool
        ensures ended { result ≡ true → EndsInput self.old self.new }
        ensures idle { result ≡ false → (is_over self.old.session.phase ≡ true) × (self.new ≡ self.old) }
    {
        if self.session.is_over() {
            return false;
        }
        self.session.end_of_input();
        true
    }

    /// The member at a place is gone: its session ends, if it is at that, and it is at place 0 then; one at a place behind it moves up.
    pub(crate) fn leave(&mut self, place: usize)
        ensures { self.new ≡ without place self.old }
    {
        if self.at == place {
            self.end();
            self.at = 0;
        } else if self.at > place {
            self.at -= 1;
        }
    }

    /// Takes the reply to one of its demands. A session without memory for it ends.
    pub(crate) fn take_reply(&mut self, reply: Reply) -> Delivered
        requires { reply.session ≡ self.old.session.id }
        ensures { (events : List ClientEvent) × TakesReply reply result self.old self.new events }
    {
        let ended = self.session.closed();
        if self.session.done(reply).is_err() {
            self.session.give_up();
            return Delivered::OutOfMemory;
        }
        if ended {
            Delivered::Dropped
        } else {
            Delivered::ToSession
        }
    }

    /// What waits to go out, and the session's end if it wasn't told yet. `None` where neither is so.
    pub(crate) fn put_out(&mut self) -> Option<Output>
        ensures out { IfSome result (λ output. IsHanded output self.old self.new) }
        ensures nothing { result ≡ None → HasNothing self.old self.new }
    {
        let closed = self.closes();
        let bytes = self.session.output();
        self.told = self.told || closed;
        if bytes.is_empty() && !closed {
            return None;
        }
        Some(Output {
            session: self.id,
            bytes,
            closed,
        })
    }

    /// Whether its session has ended, which wasn't told yet.
    fn closes(&self) -> bool
        ensures { result ≡ closes self.now }
    {
        self.session.closed() && !self.told
    }
}
