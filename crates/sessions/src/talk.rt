//! A session, together with where its output goes.
ghost use Rattle.std.specs.Prelude.{◌≡◌, ◌+◌, ◌<◌, ◌↔◌, ℕ, [], true, false, length, map, All, IfOk, IsErrOf, IsOk, IsTrue, OnErr, OnOk};
ghost use Rattle.board.specs.Seats.{BoardId};
ghost use Rattle.nbd_session.specs.Demand.{IsUnnumbered, asked_by, owed_by};
ghost use Rattle.nbd_session.specs.Lawful.{History, NeedsMore, fed_and_asked, handed_out, nothing, replied};
ghost use Rattle.nbd_session.specs.Progress.{is_over, phase_at_end};
ghost use Rattle.nbd_session.specs.Replies.{answered, reply_seen};
ghost use Rattle.nbd_session.specs.Session.{Feeds};
ghost use Rattle.nbd_session.specs.declared.phase.Phase.TheVariants.{Over};

use chain_core::Served;
use export::Volume;
use flush_barrier::{Reply, SessionId};
use nbd_codec::constants::MAX_IN_FLIGHT;
use nbd_session::{Demand, Refusal, Session, feeds_are_lawful};
use sockets::Outgoing;
use std::alloc::{AllocError, Global};
use std::io;
use std::marker::Model;
use std::snapshot::Snapshot;

/// A session with a client of a volume, and the half of the connection that takes what it puts out. Its two threads share it behind one
/// lock: what the client took is at any moment what the session has put out lawfully.
#[derive(Drop)]
pub struct Talk<V: Volume, O: Outgoing> {
    id: SessionId,
    session: Session,
    outgoing: O,
    failed: bool,
    // the volume, for contracts alone: it takes no memory, and may go to any thread
    of: Snapshot<V>,
}

impl<V: Volume, O: Outgoing> Model for Talk<V, O> {
    ghost use Rattle.std.specs.Prelude.{◌≡◌};
    ghost use Rattle.sessions.specs.Talk.{IsTalk, Talking};

    ghost Value = { Talking };

    ghost view = { λ t. record { session = t.session; took = O.took t.outgoing; failed = t.failed } };

    ghost invariant = { λ t. (t.session.id ≡ t.id) × IsTalk V.board V.size (record { session = t.session; took = O.took t.outgoing; failed = t.failed }) };
}

impl<V: Volume, O: Outgoing> Talk<V, O> {
    ghost use Rattle.export.specs.Volume.{IsForVolume};
    ghost use Rattle.sessions.specs.Talk.{HasAnsweredAll, IsHistoryOf, IsLawfulOutput, TakesIn, begun, broken_off, given_up, handed};

    /// A talk over the whole volume, with payloads of up to `max_payload` bytes, and zeros that fit into a journal area of `area` bytes. The
    /// greeting waits to go out.
    pub fn new(
        alloc: Global,
        volume: &V,
        id: SessionId,
        max_payload: u32,
        area: u32,
        outgoing: O,
    ) -> Result<Talk<V, O>, AllocError>
    where
        O: Drop,
        requires { O.took outgoing ≡ [] }
        ensures begun { IfOk result (λ talk. talk ≡ begun talk.session.board id (record { size = V.size; max_payload = max_payload; area = area })) }
        ensures board { IfOk result (λ talk. V.board ≡ Some talk.session.board) }
        ensures history { IfOk result (λ talk. IsHistoryOf talk nothing) }
    {
        let (board, size) = (volume.board(), volume.size());
        Ok(Talk {
            id,
            session: Session::new(alloc, board, id, size, max_payload, area)?,
            outgoing,
            failed: false,
            of: Snapshot::of(volume),
        })
    }

    /// Takes the next piece of the client's bytes, as `Session::feed`: the demands that it makes.
    ///
    /// 201 `SessionOver`: the session takes no more input, and nothing has changed. 100 `Memory`: the session is given up.
    pub fn feed(&mut self, piece: &[u8]) -> Result<Vec<Demand>, Refusal>
        ensures over { IsErrOf result Refusal.SessionOver ↔ (is_over self.old.session.phase ≡ true) }
        ensures same { IsErrOf result Refusal.SessionOver → self.new ≡ self.old }
        ensures memory { IsErrOf result Refusal.Memory → self.new ≡ given_up self.old }
        ensures feeds { IfOk result (λ demands. Feeds self.old.session piece.now self.new.session (map asked_by demands.items)) }
        ensures lawful { (history : History) → IsHistoryOf self.old history →
            IfOk result (λ demands. IsHistoryOf self.new (fed_and_asked history piece.now (map asked_by demands.items))) }
        ensures takes_all { OnOk result (is_over self.new.session.phase ≡ false → self.new.session.in_flight < MAX_IN_FLIGHT →
            NeedsMore self.new.session.phase self.new.session.export.max_payload self.new.session.kept) }
        ensures for_volume { IfOk result (λ demands. All (IsForVolume V.board V.size) demands.items) }
        ensures whose { IfOk result (λ demands. All (λ demand. (owed_by demand).session ≡ self.old.session.id) demands.items) }
        ensures unnumbered { IfOk result (λ demands. All IsUnnumbered demands.items) }
        ensures in_flight { IfOk result (λ demands. self.new.session.in_flight ≡ self.old.session.in_flight + length demands.items) }
        ensures took { self.new.took ≡ self.old.took }
        ensures failed { self.new.failed ≡ self.old.failed }
    {
        feeds_are_lawful();
        match self.session.feed(piece) {
            Ok(demands) => Ok(demands),
            Err(Refusal::SessionOver) => Err(Refusal::SessionOver),
            Err(Refusal::Memory) => {
                self.session.give_up();
                Err(Refusal::Memory)
            }
        }
    }

    /// Puts the reply to a demand of this session behind what waits, as `Session::done`. Where memory runs out for it, the session is given
    /// up.
    pub fn answer(&mut self, reply: Reply) -> Result<(), AllocError>
        requires { reply.session ≡ self.old.session.id }
        ensures ok { OnOk result (self.new ≡ record self.old { session = answered self.old.session (reply_seen reply) }) }
        ensures lawful { (history : History) → IsHistoryOf self.old history →
            OnOk result (IsHistoryOf self.new (replied self.old.session history (reply_seen reply))) }
        ensures err { OnErr result (self.new ≡ given_up self.old) }
        ensures over { self.old.session.phase ≡ Over → IsOk result }
    {
        feeds_are_lawful();
        match self.session.done(reply) {
            Ok(()) => Ok(()),
            Err(_) => {
                self.session.give_up();
                Err(AllocError)
            }
        }
    }

    /// Writes all that waits to the client. Where a write fails, the client took a part of it, and the session has ended: from then on nothing
    /// waits, and nothing is written.
    pub fn put_out(&mut self) -> io::Result<()>
        ensures all { OnOk result (self.new ≡ handed self.old) }
        ensures part { OnErr result ((n : ℕ) × (self.new ≡ broken_off n self.old)) }
        ensures idle { self.old.session.output ≡ [] → IsOk result }
        ensures history { (history : History) → IsHistoryOf self.old history → IsHistoryOf self.new (handed_out self.old.session history) }
        ensures lawful { IsLawfulOutput V.size self.new.took }
    {
        feeds_are_lawful();
        let bytes = self.session.output();
        if bytes.is_empty() {
            return Ok(());
        }
        match self.outgoing.write_piece(&bytes) {
            Ok(()) => Ok(()),
            Err(reason) => {
                self.session.give_up();
                self.failed = true;
                Err(reason)
            }
        }
    }

    /// The client's input has ended, as `Session::end_of_input`.
    pub fn end_of_input(&mut self)
        ensures ended { self.new ≡ record self.old { session = record self.old.session { phase = phase_at_end self.old.session.phase; kept = [] } } }
        ensures history { (history : History) → IsHistoryOf self.old history → IsHistoryOf self.new history }
    {
        feeds_are_lawful();
        self.session.end_of_input();
    }

    /// The session can't go on, as `Session::give_up`: it ends, and nothing goes out but what waits.
    pub fn give_up(&mut self)
        ensures given_up { self.new ≡ given_up self.old }
        ensures history { (history : History) → IsHistoryOf self.old history → IsHistoryOf self.new history }
    {
        feeds_are_lawful();
        self.session.give_up();
    }

    /// Takes a piece as `feed` does, and puts out what waits: what the session asks. An empty piece goes on with what was kept. Where the
    /// session can't go on, it has ended.
    pub fn take_in(&mut self, alloc: Global, piece: &[u8]) -> Vec<Demand>
        ensures takes_in { TakesIn piece.now result.items self.old self.new }
        ensures for_volume { All (IsForVolume V.board V.size) result.items }
        ensures whose { All (λ demand. (owed_by demand).session ≡ self.old.session.id) result.items }
    {
        let demands = match self.feed(piece) {
            Ok(demands) => demands,
            Err(_) => Vec::new(alloc),
        };
        let _ = self.put_out();
        demands
    }

    /// Answers each reply, in order. Where memory runs out for one, the session has ended.
    pub fn answer_all(&mut self, replies: Vec<Served>)
        requires { All (λ reply. reply.session ≡ self.old.session.id) replies.items }
        ensures answered { HasAnsweredAll replies.items self.old self.new }
        ensures id { self.new.session.id ≡ self.old.session.id }
    {
        for served in replies {
            let _ = self.answer(served.reply());
        }
    }

    /// Ends it: the half that took what it put out.
    pub fn end(self) -> O
        ensures took { O.took result ≡ self.took }
        ensures lawful { IsLawfulOutput V.size self.took }
    {
        feeds_are_lawful();
        let Talk {
            id: _,
            session: _,
            outgoing,
            failed: _,
            of: _,
        } = self;
        outgoing
    }

    /// The session's number.
    pub fn id(&self) -> SessionId
        ensures { result ≡ self.now.session.id }
    {
        self.id
    }

    /// Whether the session takes more input now.
    pub fn wants(&self) -> bool
        ensures { IsTrue result ↔ (is_over self.now.session.phase ≡ false) × (self.now.session.in_flight < MAX_IN_FLIGHT) }
    {
        self.session.wants()
    }

    /// Whether the session takes no more input.
    pub fn is_over(&self) -> bool
        ensures { result ≡ is_over self.now.session.phase }
    {
        self.session.is_over()
    }

    /// Whether the session has ended, with nothing more to go out but what waits.
    pub fn closed(&self) -> bool
        ensures { IsTrue result ↔ (self.now.session.phase ≡ Over) }
    {
        self.session.closed()
    }
}
