//! The seats of sessions, as threads share them, and the connections of those that have one.
ghost use Rattle.std.specs.Prelude.{◌≡◌, IfOk, vec_len};
ghost use Rattle.sessions.specs.declared.seats.TheConstants.{SEATS};

use crate::attending::HangsUp;
use crate::{SEATS, Seats};
use flush_barrier::SessionId;
use mail::Bell;
use sockets::HangUp;
use std::alloc::{AllocError, Global};
use std::sync::{Mutex, Wait};

/// Where a session with a seat is hung up, while it is connected.
type Line = Mutex<Option<HangUp>>;

/// The seats, as threads share them.
#[derive(Drop)]
pub(crate) struct Seating {
    seats: Mutex<Seats>,
    freed: Bell,
    // by the seats' places
    lines: Vec<Line>,
    closed: Mutex<bool>,
    ghost all: { vec_len lines ≡ SEATS },
}

impl Seating {
    /// Free seats.
    pub(crate) fn new(alloc: Global) -> Result<Seating, AllocError> {
        let mut lines = Vec::with_capacity(alloc, SEATS)?;
        for _ in 0..SEATS {
            lines.push_reserved(Mutex::new(None));
        }
        Ok(Seating {
            seats: Mutex::new(Seats::new()),
            freed: Bell::new(),
            lines,
            closed: Mutex::new(false),
        })
    }

    /// Takes a seat, as `Seats::take`; it waits until one is free.
    pub(crate) fn take<R: Wait>(&self, rt: &R) -> SessionId {
        for _ in rt.forever() {
            let count = self.freed.count(rt);
            let taken = self.seats.lock(rt).take();
            if let Some(number) = taken {
                return SessionId(number);
            }
            self.freed.wait_past(rt, count);
        }
        unreachable!()
    }

    /// The session leaves its seat, as `Seats::give_back`, and its connection is let go.
    pub(crate) fn give_back<R: Wait>(&self, rt: &R, id: SessionId) {
        *self.line(id).lock(rt) = None;
        let SessionId(number) = id;
        self.seats.lock(rt).give_back(number);
        self.freed.ring(rt);
    }

    /// The session of a seat is connected. Where all were hung up meanwhile, so is this one.
    pub(crate) fn connect<R: Wait>(&self, rt: &R, id: SessionId, connected: HangUp) {
        *self.line(id).lock(rt) = Some(connected);
        if self.is_closed(rt) {
            hang_up(rt, self.line(id));
        }
    }

    /// All sessions are hung up, those too that connect from now on.
    pub(crate) fn close<R: Wait>(&self, rt: &R) {
        *self.closed.lock(rt) = true;
        for line in &self.lines {
            hang_up(rt, line);
        }
    }

    /// Whether all were hung up.
    pub(crate) fn is_closed<R: Wait>(&self, rt: &R) -> bool {
        *self.closed.lock(rt)
    }

    /// The line of a session that has a seat.
    fn line(&self, id: SessionId) -> &Line {
        let SessionId(number) = id;
        &self.lines[number as usize % SEATS]
    }
}

/// Nothing more comes in or goes out by a line, if one is connected.
fn hang_up<R: Wait>(rt: &R, line: &Line) {
    if let Some(connected) = &*line.lock(rt) {
        connected.hang_up();
    }
}

/// A session that has a seat, as its own threads hang it up.
#[derive(Drop)]
pub(crate) struct Seated<'s> {
    pub(crate) seating: &'s Seating,
    pub(crate) id: SessionId,
}

impl HangsUp for Seated<'_> {
    fn hang_up<R: Wait>(&self, rt: &R) {
        hang_up(rt, self.seating.line(self.id));
    }
}
