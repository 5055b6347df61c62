ghost use Rattle.std.specs.Prelude.{◌≡◌, ◌<◌, ◌≤◌, ◌↔◌, [], true, false, length, map, slice_get, All, IfOk, IfSome, IsErrOf, IsSome, IsTrue, List, None, OnErr};
ghost use Rattle.nbd_codec.specs.declared.constants.TheConstants.{MAX_IN_FLIGHT as most};
ghost use Rattle.nbd_session.specs.Demand.{asked_by};
ghost use Rattle.nbd_session.specs.Progress.{is_over};
ghost use Rattle.world_model.specs.Event.{ClientEvent};

use crate::client::Client;
use crate::delivered::Delivered;
use crate::output::Output;
use board::Board;
use flush_barrier::{BoardName, Reply, SessionId};
use nbd_session::{Demand, Refusal, feeds_are_lawful};
use std::alloc::{AllocError, Global};
use std::marker::Model;

/// The sessions of a chain's clients, in the order in which they began. One that has ended stays.
#[derive(Debug, Drop)]
pub struct Clients {
    alloc: Global,
    board: BoardName,
    size: u64,
    max_payload: u32,
    area: u32,
    clients: Vec<Client>,
}

impl Model for Clients {
    ghost use Rattle.clients.specs.Clients.{AreSessions, Sessions};

    ghost Value = { Sessions };

    ghost view = { λ c. record {
      board = c.board;
      export = record { size = c.size; max_payload = c.max_payload; area = c.area };
      clients = c.clients.items;
    } };

    ghost invariant = { λ c. AreSessions (record {
      board = c.board;
      export = record { size = c.size; max_payload = c.max_payload; area = c.area };
      clients = c.clients.items;
    }) };
}

impl Clients {
    ghost use Rattle.clients.specs.Calls.{AreAtPlaces, Begins, Changes, Delivers, Ends, IsDemandOf, PutsOut, StayOver, TakesPiece, bytes_out, without};
    ghost use Rattle.clients.specs.Clients.{AreSessions, GoOn, HasClient, no_one, of_session, place_of};

    /// No sessions of a board's chain. They will be at an export of `size` bytes that takes payloads of up to `max_payload` bytes, and
    /// zeros that fit into a journal area of `area` bytes.
    pub fn new(alloc: Global, board: &Board, size: u64, max_payload: u32, area: u32) -> Clients
        ensures { result ≡ record {
          board = board.now;
          export = record { size = size; max_payload = max_payload; area = area };
          clients = [];
        } }
    {
        Clients {
            alloc,
            board: BoardName::of(board),
            size,
            max_payload,
            area,
            clients: Vec::new(alloc),
        }
    }

    /// A client begins a session with this number at the member at a place, and its greeting waits. `false` where there is a session
    /// of this number: nothing changed. Where memory runs out, nothing changed.
    pub fn connect(&mut self, board: &Board, id: SessionId, at: usize) -> Result<bool, AllocError>
        requires { board.now ≡ self.old.board }
        ensures begins { IfOk result (λ begun. begun ≡ true → Begins id at self.old self.new) }
        ensures known { IfOk result (λ begun. begun ≡ false → IsSome (place_of id self.old.clients) × (self.new ≡ self.old)) }
        ensures err { OnErr result (self.new ≡ self.old) }
        ensures stay_over { StayOver self.old.clients self.new.clients }
        ensures lawful { IfOk result (λ begun. begun ≡ true → GoOn self.old.clients self.new.clients no_one no_one no_one []) }
    {
        if self.position(id).is_some() {
            return Ok(false);
        }
        let (size, max_payload, area) = (self.size, self.max_payload, self.area);
        let client = Client::new(self.alloc, board, id, at, size, max_payload, area)?;
        self.clients.push(client)?;
        Ok(true)
    }

    /// The session takes the next piece of its client's bytes, which may be empty, and goes on with what it kept: the place of the
    /// client's member, and the demands that are whole now. `None` where there is no such session: nothing changed.
    ///
    /// 100 `Memory`: nothing of the piece was taken. 201 `SessionOver`: the session takes no more input. Either changed nothing.
    pub fn feed(
        &mut self,
        id: SessionId,
        piece: &[u8],
    ) -> Option<Result<(usize, Vec<Demand>), Refusal>>
        ensures fed { IfSome result (λ fed. IfOk fed (λ r. Changes id self.old self.new (TakesPiece piece.now r.0 r.1.items))) }
        ensures demands { IfSome result (λ fed. IfOk fed (λ r. All (IsDemandOf id self.old.board self.old.export.size) r.1.items)) }
        ensures few { IfSome result (λ fed. IfOk fed (λ r. length r.1.items ≤ most)) }
        ensures none { result ≡ None → (place_of id self.old.clients ≡ None) × (self.new ≡ self.old) }
        ensures known { IfSome result (λ fed. IsSome (place_of id self.old.clients)) }
        ensures over { IfSome result (λ fed. IsErrOf fed Refusal.SessionOver ↔
            HasClient id self.old.clients (λ client. is_over client.session.phase ≡ true)) }
        ensures err { IfSome result (λ fed. OnErr fed (self.new ≡ self.old)) }
        ensures places { AreAtPlaces self.old self.new }
        ensures stay_over { StayOver self.old.clients self.new.clients }
        ensures lawful { IfSome result (λ fed. IfOk fed (λ r.
            GoOn self.old.clients self.new.clients (of_session id piece.now) no_one (of_session id (map asked_by r.1.items)) [])) }
    {
        let place = self.position(id)?;
        let client = &mut self.clients[place];
        let at = client.at();
        match client.feed(piece) {
            Ok(demands) => Some(Ok((at, demands))),
            Err(refusal) => Some(Err(refusal)),
        }
    }

    /// The client's input has ended, and with it the session. `false` where there is no such session, or it takes no input: nothing
    /// changed.
    pub fn end(&mut self, id: SessionId) -> bool
        ensures ended { result ≡ true → Ends id self.old self.new }
        ensures idle { result ≡ false →
            (HasClient id self.old.clients (λ client. is_over client.session.phase ≡ false) → ⊥) × (self.new ≡ self.old) }
        ensures places { AreAtPlaces self.old self.new }
        ensures stay_over { StayOver self.old.clients self.new.clients }
        ensures lawful { GoOn self.old.clients self.new.clients no_one no_one no_one [] }
    {
        feeds_are_lawful();
        match self.position(id) {
            Some(place) => self.clients[place].end(),
            None => false,
        }
    }

    /// The member at a place is gone, whatever its clients asked was answered, and those behind it move up. The sessions of its clients end as
    /// with their input, and are at place 0 then.
    pub fn leave(&mut self, place: usize)
        ensures left { self.new ≡ record self.old { clients = map (without place) self.old.clients } }
        ensures stay_over { StayOver self.old.clients self.new.clients }
        ensures lawful { GoOn self.old.clients self.new.clients no_one no_one no_one [] }
    {
        feeds_are_lawful();
        for client in self.clients.iter_mut() {
            client.leave(place);
        }
    }

    /// A reply comes to the session of its demand, which puts it out where one is owed. Where there is no such session, or it has ended,
    /// the reply is dropped. Where memory runs out, and only there, the session ends without it.
    pub fn reply(&mut self, reply: Reply) -> Delivered
        ensures { (events : List ClientEvent) × Delivers reply result self.old self.new events }
    {
        feeds_are_lawful();
        match self.position(reply.session()) {
            Some(place) => self.clients[place].take_reply(reply),
            None => Delivered::Dropped,
        }
    }

    /// What waits for the session's client: bytes, and its end where that wasn't told. `None` where nothing waits, or there is no such
    /// session.
    pub fn put_out(&mut self, id: SessionId) -> Option<Output>
        ensures out { PutsOut id self.old result self.new }
        ensures places { AreAtPlaces self.old self.new }
        ensures stay_over { StayOver self.old.clients self.new.clients }
        ensures lawful { GoOn self.old.clients self.new.clients no_one (of_session id (bytes_out result)) no_one [] }
    {
        feeds_are_lawful();
        let place = self.position(id)?;
        self.clients[place].put_out()
    }

    /// Whether there is such a session and it takes more input now.
    pub fn wants(&self, id: SessionId) -> bool
        ensures { IsTrue result ↔
            HasClient id self.now.clients (λ client. (is_over client.session.phase ≡ false) × (client.session.in_flight < most)) }
    {
        match self.position(id) {
            Some(place) => self.clients[place].wants(),
            None => false,
        }
    }

    /// The place of the member at which the session's client is. `None` where there is no such session.
    pub fn at(&self, id: SessionId) -> Option<usize>
        ensures found { IfSome result (λ at. HasClient id self.now.clients (λ client. client.at ≡ at)) }
        ensures none { result ≡ None → place_of id self.now.clients ≡ None }
    {
        let place = self.position(id)?;
        Some(self.clients[place].at())
    }

    /// Does nothing: its clause is what holds of all sessions.
    pub fn sound(&self)
        ensures { AreSessions self.now }
    {
        let _ = &self.clients;
    }

    /// How many sessions there are, with those that have ended.
    pub fn len(&self) -> usize
        ensures { result ≡ length self.now.clients }
    {
        self.clients.len()
    }

    /// Whether there are none.
    pub fn is_empty(&self) -> bool
        ensures { IsTrue result ↔ (self.now.clients ≡ []) }
    {
        self.clients.is_empty()
    }

    /// The number of a session, by the order in which they began.
    pub fn id(&self, nth: usize) -> SessionId
        requires { nth < length self.now.clients }
        ensures { IfSome (slice_get self.now.clients nth) (λ client. result ≡ client.session.id) }
    {
        self.clients[nth].id()
    }

    /// Where the client of the session stands.
    fn position(&self, id: SessionId) -> Option<usize>
        ensures place { result ≡ place_of id self.now.clients }
        ensures within { IfSome result (λ place. place < length self.now.clients) }
    {
        self.clients.iter().position(|client| client.id() == id)
    }
}
