ghost use Rattle.std.specs.Prelude.{◌≡◌, ◌+◌, ◌<◌, ◌≤◌, ◌^◌, ◌↔◌, ◌++◌, [], true, false, length, drop, map, IsTrue, IsOk, IfOk, IfErr, IfSome, OnOk, OnErr, IsErrOf, MatchOption, All, option_map, None, vec_capacity, vec_len};
ghost use Rattle.std.specs.Option.{option_to_list};
ghost use Rattle.nbd_codec.specs.Handshake.{greeting_encoding};
ghost use Rattle.nbd_codec.specs.Reply.{encoding};
ghost use Rattle.nbd_session.specs.Demand.{IsAskedInside, IsUnnumbered, asked_by, demand_of, owed_by};
ghost use Rattle.nbd_session.specs.Intake.{IsIntake, IsSound, behind, loaded_view, progress_of, wanted_view};
ghost use Rattle.nbd_session.specs.Lawful.{History, NeedsMore, HasHistory, fed_and_asked, handed_out, most_kept, nothing, replied};
ghost use Rattle.nbd_session.specs.Replies.{answered, error_of, reply_seen};
ghost use Rattle.nbd_session.specs.Session.{Feeds, Settles};
ghost use Rattle.nbd_session.specs.Progress.{IsPhase, is_over, phase_after, phase_at_end, progress_in};
ghost use Rattle.nbd_session.specs.declared.phase.Phase.TheVariants.{Greeted, Over};

use crate::answer::Export;
use crate::demand::Demand;
use crate::inbox::Inbox;
use crate::intake::{Intake, flags_intake, option_intake, request_intake, skip_intake};
use crate::laws::feeds_are_lawful;
use crate::phase::Phase;
use crate::refusal::Refusal;
use crate::wanted::{Loaded, Wanted};
use board::Board;
use bytes::BytesMut;
use flush_barrier::{BoardName, ErrorCode, Reply, SessionId};
use nbd_codec::constants::{MAX_IN_FLIGHT, REQUEST_HEADER, REQUEST_WRITE};
use nbd_codec::{NbdError, SimpleReply, greeting, write_reply};
use std::alloc::{AllocError, Global};
use std::marker::Model;
use std::mem;

/// A session with one client, from the greeting to its end.
#[derive(Debug, Drop)]
pub struct Session {
    alloc: Global,
    board: BoardName,
    id: SessionId,
    export: Export,
    phase: Phase,
    in_flight: usize,
    kept: Inbox,
    output: BytesMut,
}

impl Model for Session {
    ghost use Rattle.std.specs.Prelude.{◌≤◌};
    ghost use Rattle.nbd_codec.specs.Findings.{AreBytes};
    ghost use Rattle.nbd_codec.specs.declared.constants.TheConstants.{MAX_IN_FLIGHT as most};
    ghost use Rattle.nbd_session.specs.Progress.{IsPhase};
    ghost use Rattle.nbd_session.specs.Session.{State};

    ghost Value = { State };

    ghost view = { λ s. record { board = s.board; id = s.id; export = s.export; phase = s.phase; in_flight = s.in_flight; kept = s.kept; output = s.output.items } };

    ghost invariant = { λ s. (s.in_flight ≤ most) × IsPhase s.phase × AreBytes s.kept };
}

impl Session {
    ghost use Rattle.nbd_session.specs.Session.{Grows, Overruns, course_of, left_to_use, limit_in_flight, step, used_from};

    /// A session at a member of the board's chain, with an export of `size` bytes that takes payloads of up to
    /// `max_payload` bytes, and zeros that fit into a journal area of `area` bytes. The greeting waits to go out.
    pub fn new(
        alloc: Global,
        board: &Board,
        id: SessionId,
        size: u64,
        max_payload: u32,
        area: u32,
    ) -> Result<Session, AllocError>
        ensures session { IfOk result (λ s. s ≡ record { board = board.now; id = id; export = record { size = size; max_payload = max_payload; area = area }; phase = Greeted; in_flight = 0; kept = []; output = greeting_encoding }) }
        ensures lawful { IfOk result (λ s. HasHistory s nothing) }
    {
        let mut output = BytesMut::new(alloc);
        output.extend_from_slice(&greeting())?;
        Ok(Session {
            alloc,
            board: BoardName::of(board),
            id,
            export: Export {
                size,
                max_payload,
                area,
            },
            phase: Phase::Greeted,
            in_flight: 0,
            kept: Inbox::new(alloc),
            output,
        })
    }

    /// Takes the next piece of the client's bytes, which may be empty, and goes on with what was kept: answers the
    /// demands that are whole now, up to the limit in flight, with tokens of its board. Further input is kept.
    ///
    /// 100 `Memory`: nothing of the piece was taken, and no token was made. 201 `SessionOver`: the session takes no
    /// more input. Either leaves the session as it was.
    pub fn feed(&mut self, piece: &[u8]) -> Result<Vec<Demand>, Refusal>
        ensures over { IsErrOf result Refusal.SessionOver ↔ (is_over self.old.phase ≡ true) }
        ensures err { OnErr result (self.new ≡ self.old) }
        ensures feeds { IfOk result (λ demands. Feeds self.old piece.now self.new (map asked_by demands.items)) }
        ensures lawful { (history : History) → HasHistory self.old history →
            IfOk result (λ demands. HasHistory self.new (fed_and_asked history piece.now (map asked_by demands.items))) }
        ensures takes_all { OnOk result (is_over self.new.phase ≡ false → self.new.in_flight < MAX_IN_FLIGHT →
            NeedsMore self.new.phase self.new.export.max_payload self.new.kept) }
        ensures keeps_little { OnOk result (is_over self.new.phase ≡ false → self.new.in_flight < MAX_IN_FLIGHT →
            length self.new.kept < most_kept self.new.phase self.new.export.max_payload) }
        ensures export { self.new.export ≡ self.old.export }
        ensures id { self.new.id ≡ self.old.id }
        ensures board { self.new.board ≡ self.old.board }
        ensures inside { IfOk result (λ demands. All (λ demand. IsAskedInside self.old.export.size (asked_by demand)) demands.items) }
        ensures whose { IfOk result (λ demands. All (λ demand. (owed_by demand).session ≡ self.old.id) demands.items) }
        ensures of_board { IfOk result (λ demands. All (λ demand. (owed_by demand).board ≡ self.old.board) demands.items) }
        ensures unnumbered { IfOk result (λ demands. All IsUnnumbered demands.items) }
        ensures in_flight { IfOk result (λ demands. self.new.in_flight ≡ self.old.in_flight + length demands.items) }
        ensures limit { self.new.in_flight ≤ MAX_IN_FLIGHT }
    {
        if self.is_over() {
            return Err(Refusal::SessionOver);
        }
        feeds_are_lawful();
        let (kept, output, phase) = (self.kept.len(), self.output.len(), self.phase);
        match self.take_in(piece) {
            Ok(demands) => Ok(demands),
            Err(error) => {
                self.kept.truncate(kept);
                self.output.truncate(output);
                self.phase = phase;
                Err(error.into())
            }
        }
    }

    /// Puts out the reply to a demand of this session, unless none is owed or the session has ended. Where memory runs
    /// out, the reply comes back and nothing has changed.
    pub fn done(&mut self, reply: Reply) -> Result<(), Reply>
        requires { reply.session ≡ self.old.id }
        ensures ok { OnOk result (self.new ≡ answered self.old (reply_seen reply)) }
        ensures lawful { (history : History) → HasHistory self.old history →
            OnOk result (HasHistory self.new (replied self.old history (reply_seen reply))) }
        ensures back { IfErr result (λ r. r ≡ reply) }
        ensures err { OnErr result (self.new ≡ self.old) }
        ensures over { self.old.phase ≡ Over → IsOk result }
        ensures export { self.new.export ≡ self.old.export }
        ensures id { self.new.id ≡ self.old.id }
        ensures board { self.new.board ≡ self.old.board }
    {
        if self.phase != Phase::Over && self.in_flight > 0 && self.put_out(&reply).is_err() {
            return Err(reply);
        }
        self.in_flight = self.in_flight.saturating_sub(1);
        self.enter(self.phase, self.in_flight);
        Ok(())
    }

    /// Whether the session takes more input now: it hasn't ended, and fewer requests are in flight than may be. Where it
    /// takes none for the limit alone, `feed` still keeps what comes.
    pub fn wants(&self) -> bool
        ensures { IsTrue result ↔ (is_over self.now.phase ≡ false) × (self.now.in_flight < MAX_IN_FLIGHT) }
    {
        !self.is_over() && self.in_flight < MAX_IN_FLIGHT
    }

    /// The client's input has ended: nothing more comes in. After a DISC the replies that are owed still go out; otherwise
    /// the session ends. It is to be told while the session wants more: at the limit, requests and a DISC that were kept end
    /// with it.
    pub fn end_of_input(&mut self)
        ensures { self.new ≡ record self.old { phase = phase_at_end self.old.phase; kept = [] } }
    {
        if self.phase == Phase::Leaving {
            self.kept.clear();
        } else {
            self.give_up();
        }
    }

    /// The session can't go on, as where a reply finds no memory: it ends, and nothing goes out that doesn't wait in
    /// `output` already.
    pub fn give_up(&mut self)
        ensures { self.new ≡ record self.old { phase = Over; kept = [] } }
    {
        self.phase = Phase::Over;
        self.kept.clear();
    }

    /// The bytes that wait to go out to the client; from now on they are the caller's.
    pub fn output(&mut self) -> BytesMut
        ensures bytes { result.items ≡ self.old.output }
        ensures none_left { self.new ≡ record self.old { output = [] } }
        ensures lawful { (history : History) → HasHistory self.old history → HasHistory self.new (handed_out self.old history) }
    {
        mem::replace(&mut self.output, BytesMut::new(self.alloc))
    }

    /// Whether the session has ended, with nothing more to put out but what `output` hands out.
    pub fn closed(&self) -> bool
        ensures { IsTrue result ↔ (self.now.phase ≡ Over) }
    {
        self.phase == Phase::Over
    }

    /// Whether the session takes no more input: a `feed` is refused with 201.
    pub fn is_over(&self) -> bool
        ensures { result ≡ is_over self.now.phase }
    {
        matches!(self.phase, Phase::Leaving | Phase::Over)
    }

    /// Takes a piece, goes through the input and makes the demands. An error may leave a piece more in the input, more
    /// that waits to go out, and another phase.
    fn take_in(&mut self, piece: &[u8]) -> Result<Vec<Demand>, AllocError>
        ensures err { OnErr result (Overruns self.old self.new) }
        ensures made { IfOk result (λ demands. demands.items ≡ map (demand_of self.old.board self.old.id) (map asked_by demands.items)) }
        ensures feeds { IfOk result (λ demands. Feeds self.old piece.now self.new (map asked_by demands.items)) }
        ensures inside { IfOk result (λ demands. All (IsAskedInside self.old.export.size) (map asked_by demands.items)) }
        ensures same { (self.new.export ≡ self.old.export) × (self.new.id ≡ self.old.id) × (self.new.board ≡ self.old.board) }
        ensures in_flight { IfOk result (λ demands. self.new.in_flight ≡ self.old.in_flight + length demands.items) }
    {
        let lacking = self.lacking();
        self.kept.expect(lacking + piece.len());
        self.kept.push(piece)?;
        let (used, wanted) = self.read_on()?;
        let demands = self.demand(used, &wanted)?;
        Ok(demands)
    }

    /// How many bytes the WRITE at the front of the input still lacks, as far as that is known.
    fn lacking(&self) -> usize
        ensures { result ≤ REQUEST_HEADER + self.now.export.max_payload }
    {
        let input = self.kept.as_slice();
        if self.phase != Phase::Transmitting || input.len() < REQUEST_HEADER {
            return 0;
        }
        let kind = u16::from_be_bytes([input[6], input[7]]);
        let length = u32::from_be_bytes([input[24], input[25], input[26], input[27]]);
        if kind != REQUEST_WRITE || length > self.export.max_payload {
            return 0;
        }
        (REQUEST_HEADER + length as usize).saturating_sub(input.len())
    }

    /// Goes through the input until as many requests are in flight as may be, the input runs short or the session ends:
    /// how many bytes are used up, and the requests for the volume that stand in them.
    fn read_on(&mut self) -> Result<(usize, Vec<Wanted>), AllocError>
        ensures grows { Grows self.old self.new }
        ensures used { IfOk result (λ r. r.0 ≤ length self.old.kept) }
        ensures sound { IfOk result (λ r. All (IsSound self.old.export.size self.old.kept r.0) r.1.items) }
        ensures settles { IfOk result (λ r. Settles limit_in_flight (course_of self.old) (used_from self.new r.0 (map (wanted_view self.old.kept) r.1.items))) }
        ensures limit { IfOk result (λ r. self.old.in_flight + length r.1.items ≤ MAX_IN_FLIGHT) }
    {
        let mut used = 0;
        let mut wanted = Vec::new(self.alloc);
        while self.in_flight + wanted.len() < MAX_IN_FLIGHT {
            match self.next_request(used, &mut wanted)? {
                Some(next) => used = next,
                None => break,
            }
        }
        Ok((used, wanted))
    }

    /// Goes one step through the input behind its first `used` bytes, if there is one: how many bytes are used up then. A
    /// request for the volume joins those that are wanted.
    fn next_request(
        &mut self,
        used: usize,
        wanted: &mut Vec<Wanted>,
    ) -> Result<Option<usize>, AllocError>
        requires within { used ≤ length self.old.kept }
        requires free { self.old.in_flight + length wanted.old.items < MAX_IN_FLIGHT }
        requires sound { All (IsSound self.old.export.size self.old.kept used) wanted.old.items }
        ensures grows { Grows self.old self.new }
        ensures steps { IfOk result (λ r. MatchOption r
            ((self.new ≡ self.old) × (wanted.new.items ≡ wanted.old.items) × (progress_in self.old.export self.old.phase (drop used self.old.kept) ≡ None))
            (λ next. step limit_in_flight (used_from self.old used (map (wanted_view self.old.kept) wanted.old.items)) ≡ used_from self.new next (map (wanted_view self.old.kept) wanted.new.items))) }
        ensures within { IfOk result (λ r. IfSome r (λ next. next ≤ length self.old.kept)) }
        ensures advances { IfOk result (λ r. IfSome r (λ next. left_to_use self.new next < left_to_use self.old used)) }
        ensures sound { IfOk result (λ r. IfSome r (λ next. All (IsSound self.old.export.size self.old.kept next) wanted.new.items)) }
        ensures limit { OnOk result (self.old.in_flight + length wanted.new.items ≤ MAX_IN_FLIGHT) }
    {
        let came = self.kept.len();
        let Some(intake) = self.intake(used) else {
            return Ok(None);
        };
        let Intake {
            phase,
            used: count,
            answer,
            wanted: request,
        } = intake;
        answer.put(self.export, &mut self.output)?;
        self.enter(phase, self.in_flight + wanted.len());
        if self.is_over() {
            return Ok(Some(came));
        }
        add(wanted, request, used)?;
        Ok(Some(used + count))
    }

    /// What comes next in the input behind its first `used` bytes, or `None` where more is needed or nothing more is taken.
    #[tactic(auto, unfolding(crate::specs::Progress::progress_in))]
    fn intake(&self, used: usize) -> Option<Intake>
        requires { used ≤ length self.now.kept }
        ensures exact { option_map (progress_of self.now.export (drop used self.now.kept)) result ≡ progress_in self.now.export self.now.phase (drop used self.now.kept) }
        ensures intake { IfSome result (IsIntake self.now.export.size (drop used self.now.kept)) }
    {
        let input = &self.kept.as_slice()[used..];
        match self.phase {
            Phase::Greeted => flags_intake(self.export, input),
            Phase::Negotiating { no_zeroes } => option_intake(self.export, no_zeroes, input),
            Phase::Skipping {
                no_zeroes,
                option,
                left,
            } => skip_intake(self.export, no_zeroes, option, left, input),
            Phase::Transmitting => request_intake(self.export, input),
            Phase::Leaving | Phase::Over => None,
        }
    }

    /// Takes the first `used` bytes of the input away, and makes a demand of each request that stands in them; or leaves
    /// all as it was.
    fn demand(&mut self, used: usize, wanted: &[Wanted]) -> Result<Vec<Demand>, AllocError>
        requires used { used ≤ length self.old.kept }
        requires sound { All (IsSound self.old.export.size self.old.kept used) wanted.now }
        requires limit { self.old.in_flight + length wanted.now ≤ MAX_IN_FLIGHT }
        ensures made { IfOk result (λ demands. demands.items ≡ map (demand_of self.old.board self.old.id) (map (wanted_view self.old.kept) wanted.now)) }
        ensures ok { OnOk result (self.new ≡ record self.old { in_flight = self.old.in_flight + length wanted.now; kept = drop used self.old.kept }) }
        ensures err { OnErr result (self.new ≡ self.old) }
    {
        let mut demands = Vec::with_capacity(self.alloc, wanted.len())?;
        match self.kept.hand_on(used, wanted) {
            Ok(loaded) => {
                make(&mut demands, loaded, &self.board, self.id);
                self.in_flight += wanted.len();
                Ok(demands)
            }
            Err(error) => {
                demands.destroy_empty();
                Err(error)
            }
        }
    }

    /// Enters a phase in which so many replies are owed: a session that its client left ends with the last of them.
    fn enter(&mut self, phase: Phase, owed: usize)
        requires { IsPhase phase }
        ensures { self.new ≡ record self.old { phase = phase_after phase owed } }
    {
        self.phase = if phase == Phase::Leaving && owed == 0 {
            Phase::Over
        } else {
            phase
        };
    }

    /// Puts a reply to a demand at the end of what goes out, or leaves all as it was.
    fn put_out(&mut self, reply: &Reply) -> Result<(), AllocError>
        ensures ok { OnOk result (self.new ≡ record self.old { output = self.old.output ++ encoding (reply_seen reply.now) }) }
        ensures err { OnErr result (self.new ≡ self.old) }
    {
        let outcome = match reply.error() {
            None => Ok(reply.payload()),
            Some(code) => Err(nbd_error(code)),
        };
        let cookie = reply.cookie();
        write_reply(&mut self.output, &SimpleReply { cookie, outcome })
    }
}

/// Adds a request, if there is one, where so many bytes stand before its input.
fn add(wanted: &mut Vec<Wanted>, request: Option<Wanted>, before: usize) -> Result<(), AllocError>
    requires ordered { IfSome request (λ w. w.start ≤ w.end) }
    requires fits { IfSome request (λ w. before + w.end < 2 ^ 64) }
    ensures { OnOk result (wanted.new.items ≡ wanted.old.items ++ option_to_list (option_map (behind before) request)) }
{
    if let Some(request) = request {
        wanted.push(request.behind(before))?;
    }
    Ok(())
}

/// Makes the demands, with tokens of the board.
fn make(demands: &mut Vec<Demand>, loaded: Vec<Loaded>, board: &BoardName, session: SessionId)
    requires { vec_len demands.old + vec_len loaded ≤ vec_capacity demands.old }
    ensures { demands.new.items ≡ demands.old.items ++ map (demand_of board.now session) (map loaded_view loaded.items) }
{
    for request in loaded {
        demands.push_reserved(request.into_demand(board, session));
    }
}

/// The error on the wire.
fn nbd_error(code: ErrorCode) -> NbdError
    ensures { result ≡ error_of code }
{
    match code {
        ErrorCode::Io => NbdError::Io,
        ErrorCode::NoMemory => NbdError::NoMemory,
    }
}
