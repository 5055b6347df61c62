//! Clients come, send bytes, take what waits for them, and go.
ghost use Rattle.std.specs.Prelude.{◌≡◌, ◌<◌, ◌↔◌, [], false, true, length, IfErr, IfNone, IfOk, IfSome, IsErrOf, IsSome, IsTrue, None, OnErr, slice_get};
ghost use Rattle.nbd_codec.specs.declared.constants.TheConstants.{MAX_IN_FLIGHT as most};
ghost use Rattle.nbd_session.specs.Progress.{is_over};
ghost use Rattle.clients.specs.Calls.{Begins, Ends, PutsOut};
ghost use Rattle.clients.specs.Clients.{HasClient, no_one, of_session, place_of};
ghost use Rattle.world.specs.Reception.{Feeds, IsFed, Receives, fed_in, given_to};
ghost use Rattle.world.specs.World.{IsOfOneVolume};

use crate::queue::{Queue, put_behind};
use crate::world::World;
use clients::{Clients, Output};
use flush_barrier::SessionId;
use local_store::StoreLike;
use nbd_codec::constants::MAX_IN_FLIGHT;
use nbd_session::Refusal;
use std::alloc::AllocError;

impl<S: StoreLike + Drop> World<S> {
    /// A client begins a session with this number at the member at a place; the greeting waits to be handed out. `false` where there was
    /// a session of this number before: nothing changed. Where memory runs out, nothing changed.
    pub fn connect(&mut self, id: SessionId, at: usize) -> Result<bool, AllocError>
        requires { at < length self.old.chain.members }
        ensures begins { IfOk result (λ begun. begun ≡ true → Receives self.old self.new (Begins id at)) }
        ensures known { IfOk result (λ begun. begun ≡ false → IsSome (place_of id self.old.sessions.clients) × (self.new ≡ self.old)) }
        ensures err { OnErr result (self.new ≡ self.old) }
        ensures one_volume { IsOfOneVolume S.about S.keeps S.may_leave_now no_one no_one self.old self.new }
    {
        self.clients.connect(self.chain.board(), id, at)
    }

    /// The session takes the next piece of its client's bytes, which may be empty, and goes on with what it kept; what it asks of the
    /// volume waits for its member. `None` where there is no such session: nothing changed.
    ///
    /// 100 `Memory`: nothing of the piece was taken. 201 `SessionOver`: the session takes no more input. Either changed nothing.
    pub fn feed(&mut self, id: SessionId, piece: &[u8]) -> Option<Result<(), Refusal>>
        ensures fed { IfSome result (λ fed. IfOk fed (λ _. Feeds id piece.now self.old self.new)) }
        ensures none { IfNone result ((place_of id self.old.sessions.clients ≡ None) × (self.new ≡ self.old)) }
        ensures known { IfSome result (λ fed. IsSome (place_of id self.old.sessions.clients)) }
        ensures over { IfSome result (λ fed. IsErrOf fed Refusal.SessionOver → HasClient id self.old.sessions.clients (λ client. is_over client.session.phase ≡ true)) }
        ensures err { IfSome result (λ fed. OnErr fed (self.new ≡ self.old)) }
        ensures one_volume { IsOfOneVolume S.about S.keeps S.may_leave_now (fed_in id piece.now result) no_one self.old self.new }
    {
        let at = self.clients.at(id)?;
        feed_to(&mut self.clients, &mut self.queues[at], id, piece)
    }

    /// The client's input has ended, and with it the session. `false` where there is no such session, or it takes no input: nothing
    /// changed.
    pub fn end(&mut self, id: SessionId) -> bool
        ensures ended { result ≡ true → Receives self.old self.new (Ends id) }
        ensures idle { result ≡ false → (HasClient id self.old.sessions.clients (λ client. is_over client.session.phase ≡ false) → ⊥) × (self.new ≡ self.old) }
        ensures one_volume { IsOfOneVolume S.about S.keeps S.may_leave_now no_one no_one self.old self.new }
    {
        self.clients.end(id)
    }

    /// What waits for the session's client is handed out: bytes, and the session's end where that wasn't told. `None` where nothing waits,
    /// or there is no such session.
    pub fn hand_out(&mut self, id: SessionId) -> Option<Output>
        ensures out { Receives self.old self.new (λ old new. PutsOut id old result new) }
        ensures one_volume { IsOfOneVolume S.about S.keeps S.may_leave_now no_one (given_to id result) self.old self.new }
    {
        self.clients.put_out(id)
    }

    /// Whether there is such a session and it takes more input now.
    pub fn wants(&self, id: SessionId) -> bool
        ensures { IsTrue result ↔ HasClient id self.now.sessions.clients (λ client. (is_over client.session.phase ≡ false) × (client.session.in_flight < most)) }
    {
        self.clients.wants(id)
    }

    /// How many sessions began. One that has ended stays.
    pub fn sessions(&self) -> usize
        ensures { result ≡ length self.now.sessions.clients }
    {
        self.clients.len()
    }

    /// The number of a session, by the order in which they began.
    pub fn session(&self, nth: usize) -> SessionId
        requires { nth < length self.now.sessions.clients }
        ensures { IfSome (slice_get self.now.sessions.clients nth) (λ client. result ≡ client.session.id) }
    {
        self.clients.id(nth)
    }
}

/// The session takes a piece, and what it asks waits behind what is in the queue.
fn feed_to(
    clients: &mut Clients,
    queue: &mut Queue,
    id: SessionId,
    piece: &[u8],
) -> Option<Result<(), Refusal>>
    ensures fed { IfSome result (λ fed. IfOk fed (λ _. IsFed id piece.now clients.old clients.new queue.old queue.new)) }
    ensures none { IfNone result ((place_of id clients.old.clients ≡ None) × (clients.new ≡ clients.old) × (queue.new ≡ queue.old)) }
    ensures over { IfSome result (λ fed. IsErrOf fed Refusal.SessionOver → HasClient id clients.old.clients (λ client. is_over client.session.phase ≡ true)) }
    ensures err { IfSome result (λ fed. OnErr fed ((clients.new ≡ clients.old) × (queue.new ≡ queue.old))) }
{
    if queue.demands.reserve(MAX_IN_FLIGHT).is_err() {
        return Some(Err(Refusal::Memory));
    }
    match clients.feed(id, piece)? {
        Ok((_, demands)) => {
            put_behind(&mut queue.demands, demands);
            Some(Ok(()))
        }
        Err(refusal) => Some(Err(refusal)),
    }
}
