ghost use Rattle.std.specs.Prelude.{◌≡◌, ◌+◌, ◌<◌, ◌≤◌, ◌^◌, ◌++◌, ◌∷◌, [], length, map, take, drop, slice_range, All, IfOk, IfSome, OnOk, OnErr};
ghost use Rattle.nbd_session.specs.Intake.{loaded_view, wanted_view};

use crate::wanted::{Loaded, Wanted};
use bytes::Bytes;
use std::alloc::{AllocError, Global};
use std::marker::Model;
use std::mem;

/// The input that a session has kept: one growing buffer, read behind its first `start` bytes.
#[derive(Debug, Drop)]
pub(crate) struct Inbox {
    alloc: Global,
    bytes: Vec<u8>,
    start: usize,
}

impl Model for Inbox {
    ghost use Rattle.std.specs.Prelude.{ℕ, ◌≤◌, List, drop, length};

    ghost Value = { List ℕ };

    ghost view = { λ inbox. drop inbox.start inbox.bytes.items };

    ghost invariant = { λ inbox. inbox.start ≤ length inbox.bytes.items };
}

impl Inbox {
    /// No input.
    pub(crate) fn new(alloc: Global) -> Inbox
        ensures { result ≡ [] }
    {
        Inbox {
            alloc,
            bytes: Vec::new(alloc),
            start: 0,
        }
    }

    /// The bytes.
    pub(crate) fn as_slice(&self) -> &[u8]
        ensures { result.now ≡ self.now }
    {
        &self.bytes[self.start..]
    }

    /// How many bytes there are.
    pub(crate) fn len(&self) -> usize
        ensures { result ≡ length self.now }
    {
        self.bytes.len() - self.start
    }

    /// Makes room for so many bytes more, if there is memory for it.
    pub(crate) fn expect(&mut self, more: usize)
        ensures { self.new ≡ self.old }
    {
        self.close_gap();
        let _ = self.bytes.reserve(more);
    }

    /// Adds a piece at the end.
    pub(crate) fn push(&mut self, piece: &[u8]) -> Result<(), AllocError>
        ensures ok { OnOk result (self.new ≡ self.old ++ piece.now) }
        ensures err { OnErr result (self.new ≡ self.old) }
    {
        self.bytes.extend_from_slice(piece)
    }

    /// Moves the input to the front of the buffer, unless that moves more bytes than were used up before it.
    fn close_gap(&mut self)
        ensures { self.new ≡ self.old }
    {
        let len = self.len();
        if len <= self.start {
            self.bytes.copy_within(self.start.., 0);
            self.bytes.truncate(len);
            self.start = 0;
        }
    }

    /// Keeps the first bytes alone.
    pub(crate) fn truncate(&mut self, len: usize)
        requires { len ≤ length self.old }
        ensures { self.new ≡ take len self.old }
    {
        self.bytes.truncate(self.start + len);
    }

    /// Drops all bytes.
    pub(crate) fn clear(&mut self)
        ensures { self.new ≡ [] }
    {
        self.bytes.clear();
        self.start = 0;
    }

    /// Takes the first `used` bytes away, and hands on the requests that stand in them, each with its payload. A payload
    /// is copied, unless the buffer has at most twice its bytes: then it is handed on with the buffer.
    pub(crate) fn hand_on(
        &mut self,
        used: usize,
        wanted: &[Wanted],
    ) -> Result<Vec<Loaded>, AllocError>
        requires used { used ≤ length self.old }
        requires within { All (λ w. (w.start ≤ w.end) × (w.end ≤ used)) wanted.now }
        ensures loaded { IfOk result (λ loaded. map loaded_view loaded.items ≡ map (wanted_view self.old) wanted.now) }
        ensures rest { OnOk result (self.new ≡ drop used self.old) }
        ensures err { OnErr result (self.new ≡ self.old) }
    {
        if let Some(place) = self.bulk_of(wanted) {
            return self.hand_on_bulk(used, &wanted[..place], wanted[place], &wanted[place + 1..]);
        }
        let mut loaded = Vec::with_capacity(self.alloc, wanted.len())?;
        self.copy(wanted, &mut loaded)?;
        self.start += used;
        Ok(loaded)
    }

    /// The same where one request's payload is handed on with the buffer.
    fn hand_on_bulk(
        &mut self,
        used: usize,
        before: &[Wanted],
        bulk: Wanted,
        behind: &[Wanted],
    ) -> Result<Vec<Loaded>, AllocError>
        requires used { used ≤ length self.old }
        requires before { All (λ w. (w.start ≤ w.end) × (w.end ≤ used)) before.now }
        requires bulk { (bulk.start ≤ bulk.end) × (bulk.end ≤ used) }
        requires behind { All (λ w. (w.start ≤ w.end) × (w.end ≤ used)) behind.now }
        ensures loaded { IfOk result (λ loaded. map loaded_view loaded.items
            ≡ map (wanted_view self.old) before.now ++ wanted_view self.old bulk ∷ map (wanted_view self.old) behind.now) }
        ensures rest { OnOk result (self.new ≡ drop used self.old) }
        ensures err { OnErr result (self.new ≡ self.old) }
    {
        let Wanted {
            cookie,
            ask,
            start,
            end,
        } = bulk;
        let mut loaded = Vec::new(self.alloc);
        self.copy(before, &mut loaded)?;
        loaded.push(Loaded {
            cookie,
            ask,
            payload: Bytes::new(),
        })?;
        self.copy(behind, &mut loaded)?;
        let payload = self.cut(start, end, used)?;
        loaded[before.len()] = Loaded {
            cookie,
            ask,
            payload,
        };
        Ok(loaded)
    }

    /// The place of a request whose payload is at least half of the buffer, if there is one.
    fn bulk_of(&self, wanted: &[Wanted]) -> Option<usize>
        ensures { IfSome result (λ place. place < length wanted.now) }
    {
        let room = self.bytes.capacity();
        for (place, request) in wanted.iter().enumerate() {
            let len = request.end.saturating_sub(request.start);
            if room.saturating_sub(len) <= len {
                return Some(place);
            }
        }
        None
    }

    /// Adds the requests, each with a copy of its payload.
    fn copy(&self, wanted: &[Wanted], loaded: &mut Vec<Loaded>) -> Result<(), AllocError>
        requires { All (λ w. (w.start ≤ w.end) × (w.end ≤ length self.now)) wanted.now }
        ensures { OnOk result (map loaded_view loaded.new.items ≡ map loaded_view loaded.old.items ++ map (wanted_view self.now) wanted.now) }
    {
        let input = self.as_slice();
        for request in wanted {
            let payload = Bytes::copy_from_slice(self.alloc, &input[request.start..request.end])?;
            loaded.push(Loaded {
                cookie: request.cookie,
                ask: request.ask,
                payload,
            })?;
        }
        Ok(())
    }

    #[tactic(auto, using(crate::proofs::Requests::range_of_buffer))]
    /// Takes the first `used` bytes away, and hands on those from `start` to `end` with the buffer that they lie in.
    fn cut(&mut self, start: usize, end: usize, used: usize) -> Result<Bytes, AllocError>
        requires { (start ≤ end) × (end ≤ used) × (used ≤ length self.old) }
        ensures bytes { IfOk result (λ bytes. bytes ≡ slice_range self.old start end) }
        ensures rest { OnOk result (self.new ≡ drop used self.old) }
        ensures err { OnErr result (self.new ≡ self.old) }
    {
        let rest = Vec::from_slice(self.alloc, &self.bytes[self.start + used..])?;
        match Bytes::from_vec(mem::replace(&mut self.bytes, rest)) {
            Ok(mut bytes) => {
                bytes.truncate(self.start + end);
                bytes.advance(self.start + start);
                self.start = 0;
                Ok(bytes)
            }
            Err(failed) => {
                self.bytes = failed.value;
                Err(AllocError)
            }
        }
    }
}
