use crate::asked::AskedRequest;
use crate::contents::{contents, range};
use crate::lists::{
    find_asked, find_waiting, is_at, is_untaken, last_answered_in, mark_answered, stop_waiting,
};
use crate::request::Request;
use crate::taken::TakenWrite;
use flush_barrier::SessionId;
use std::alloc::{AllocError, Global};
use std::marker::Model;
use volume::Write;

/// The machine, as plainly as it can be kept: each step searches its lists from the front, and a READ works the whole
/// volume out anew.
#[derive(Drop)]
pub struct Machine {
    alloc: Global,
    taken: Vec<TakenWrite>,
    owed: usize,
    sent: Vec<AskedRequest>,
    waiting: Vec<u64>,
    events: u64,
}

impl Model for Machine {
    ghost use Rattle.world_model.specs.Machine.{State};

    ghost Value = { State };

    ghost view = { λ m. record { taken = m.taken.items; owed = m.owed; sent = m.sent.items; waiting = m.waiting.items; events = m.events } };
}

impl Machine {
    ghost use Rattle.std.specs.Prelude.{◌≡◌, ◌↔◌, ◌-◌, ◌<◌, ◌≤◌, ◌^◌, IsTrue, IfOk, IfSome, None, Some, OnErr, OnOk, is_some};
    ghost use Rattle.flush_barrier.specs.declared.error_code.ErrorCode.{ErrorCode};
    ghost use Rattle.world_model.specs.Machine.{AnswerFlush, AnswerFua, AnswerRead, AnswerWrite, Refuse, Restart, Send, after, start};
    ghost use Rattle.world_model.specs.Steps.{ShowsRead, Tried, TriedOn, taking};

    /// The machine before anything happened.
    pub fn new(alloc: Global) -> Self
        ensures { result ≡ start }
    {
        Machine {
            alloc,
            taken: Vec::new(alloc),
            owed: 0,
            sent: Vec::new(alloc),
            waiting: Vec::new(alloc),
            events: 0,
        }
    }

    /// Whether the events can be counted no further.
    pub fn is_full(&self) -> bool
        ensures { IsTrue result ↔ (2 ^ 64 - 1 ≤ self.now.events) }
    {
        self.events == u64::MAX
    }

    /// A request is sent: its name. It isn't full.
    pub fn send(
        &mut self,
        session: SessionId,
        cookie: u64,
        request: Request,
    ) -> Result<u64, AllocError>
        requires { self.old.events < 2 ^ 64 - 1 }
        ensures name { IfOk result (λ name. name ≡ self.old.events) }
        ensures sent { OnOk result (self.new ≡ after self.old (Send session cookie request)) }
        ensures err { OnErr result (self.new ≡ self.old) }
    {
        let name = self.events;
        let mark = self.taken.len();
        let due = last_answered_in(&self.taken);
        self.waiting.push(name)?;
        let asked = AskedRequest::new(name, session, cookie, request, mark, due);
        if self.sent.push(asked).is_err() {
            self.waiting.pop();
            return Err(AllocError);
        }
        self.events += 1;
        Ok(name)
    }

    /// The write of the request of this name is taken: whether it may be.
    pub fn take(&mut self, name: u64) -> Result<bool, AllocError>
        ensures step { IfOk result (λ done. Tried self.old (taking self.old name) done self.new) }
        ensures err { OnErr result (self.new ≡ self.old) }
    {
        let Some(asked) = find_asked(&self.sent, name) else {
            return Ok(false);
        };
        let Some(write) = asked.request().written() else {
            return Ok(false);
        };
        if !is_untaken(&self.taken, name) {
            return Ok(false);
        }
        let write = write.clone()?;
        self.taken.push(TakenWrite::new(name, write))?;
        Ok(true)
    }

    /// A write without FUA, taken at this place, is answered: whether it may be. It isn't full.
    pub fn answer_write(&mut self, name: u64, place: usize) -> bool
        requires { self.old.events < 2 ^ 64 - 1 }
        ensures { TriedOn self.old name (λ asked. AnswerWrite asked place) result self.new }
    {
        let Some(asked) = find_waiting(&self.sent, &self.waiting, name) else {
            return false;
        };
        if !asked.request().is_plain() {
            return false;
        }
        if !is_at(&self.taken, name, place) {
            return false;
        }
        mark_answered(&mut self.taken, place);
        stop_waiting(&mut self.waiting, name);
        self.events += 1;
        true
    }

    /// A write with FUA, taken at this place, is answered, and all up to it is owed: whether it may be. It isn't full.
    pub fn answer_fua(&mut self, name: u64, place: usize) -> bool
        requires { self.old.events < 2 ^ 64 - 1 }
        ensures { TriedOn self.old name (λ asked. AnswerFua asked place) result self.new }
    {
        let Some(asked) = find_waiting(&self.sent, &self.waiting, name) else {
            return false;
        };
        if !asked.request().is_fua() {
            return false;
        }
        if !is_at(&self.taken, name, place) {
            return false;
        }
        mark_answered(&mut self.taken, place);
        self.owed = self.owed.max(place);
        stop_waiting(&mut self.waiting, name);
        self.events += 1;
        true
    }

    /// A FLUSH is answered, and all is owed that was answered when it was sent: whether it may be. It isn't full.
    pub fn answer_flush(&mut self, name: u64) -> bool
        requires { self.old.events < 2 ^ 64 - 1 }
        ensures { TriedOn self.old name (λ asked. AnswerFlush asked) result self.new }
    {
        let Some(asked) = find_waiting(&self.sent, &self.waiting, name) else {
            return false;
        };
        if !asked.request().is_flush() {
            return false;
        }
        self.owed = self.owed.max(asked.due());
        stop_waiting(&mut self.waiting, name);
        self.events += 1;
        true
    }

    /// A READ is answered from the volume of `size` bytes after the first `front` writes: its bytes, if it may be. It isn't full.
    pub fn answer_read(
        &mut self,
        size: usize,
        name: u64,
        front: usize,
    ) -> Result<Option<Vec<u8>>, AllocError>
        requires { self.old.events < 2 ^ 64 - 1 }
        ensures step { IfOk result (λ read.
            TriedOn self.old name (λ asked. AnswerRead asked front) (is_some read) self.new) }
        ensures shows { IfOk result (λ read.
            IfSome read (λ bytes. ShowsRead size self.old name front bytes.items)) }
        ensures err { OnErr result (self.new ≡ self.old) }
    {
        let Some(asked) = find_waiting(&self.sent, &self.waiting, name) else {
            return Ok(None);
        };
        let Some((offset, len)) = asked.request().range() else {
            return Ok(None);
        };
        if front < asked.mark() || front > self.taken.len() {
            return Ok(None);
        }
        let volume = contents(self.alloc, size, &self.taken[..front])?;
        let bytes = range(self.alloc, &volume, offset, len)?;
        stop_waiting(&mut self.waiting, name);
        self.events += 1;
        Ok(Some(bytes))
    }

    /// The request of this name is refused, with whatever error: whether it may be. It isn't full.
    pub fn refuse(&mut self, name: u64) -> bool
        requires { self.old.events < 2 ^ 64 - 1 }
        ensures { (error : ErrorCode) →
            TriedOn self.old name (λ asked. Refuse asked error) result self.new }
    {
        let Some(_asked) = find_waiting(&self.sent, &self.waiting, name) else {
            return false;
        };
        stop_waiting(&mut self.waiting, name);
        self.events += 1;
        true
    }

    /// Writes are lost from a front on, with all that waits: whether they may be.
    pub fn restart(&mut self, front: usize) -> bool
        ensures { Tried self.old (Some (Restart front)) result self.new }
    {
        if front < self.owed || front > self.taken.len() {
            return false;
        }
        self.taken.truncate(front);
        self.sent.clear();
        self.waiting.clear();
        true
    }
}
