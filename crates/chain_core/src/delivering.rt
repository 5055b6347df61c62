//! Messages.
ghost use Rattle.std.specs.Prelude.{◌≡◌, ◌<◌, ◌≤◌, ◌+◌, [], true, false, length, max, IfOk, IfErr, OnErr, if◌then◌else◌};
ghost use Rattle.gate_journal.specs.declared.batch.TheConstants.{MAX_NUMBER};
ghost use Rattle.volume.specs.Writes.{Fits};
ghost use Rattle.chain_steps.specs.Node.{Refused, durable_of, last_of};
ghost use Rattle.chain_steps.specs.Place.{successor_of};
ghost use Rattle.chain_steps.specs.Steps.{ack, apply, deliver, is_full, know, number, put, send, told_number};
ghost use Rattle.chain_steps.specs.declared.message.Message.TheVariants.{Put};
ghost use Rattle.chain_core.specs.Node.{IsDelivered, IsInside, IsStep, IsStepOrStop, size_of};
ghost use Rattle.chain_core.specs.Refusal.{number_of};

use crate::node::Node;
use crate::out::Out;
use crate::refusal::Refusal;
use chain_steps::{Cause, Due, Envelope, Message, Sent};
use gate_journal::{MAX_NUMBER, Slot};
use local_store::StoreLike;
use std::alloc::AllocError;
use version_table::Origin;
use volume::Write;

impl<S: StoreLike + Drop> Node<S> {
    /// Takes a message from the member at a slot. Its write lies in the volume, and has at least one byte.
    ///
    /// 154 `Stopped` once stopped; a message of an older epoch is dropped, one of a later is 152 `Early`; 153 `Busy` where the
    /// write finds no place in the table, or the greatest number is used. A refused message stays at the front of its link, and
    /// nothing changed. Where memory runs out, the member stops.
    pub fn deliver(&mut self, from: Slot, envelope: &Envelope) -> Result<Out, Refusal>
        requires { IsInside (size_of (S.about self.old.store)) envelope.now.message }
        ensures taken { IfOk result (λ out. IsDelivered self.old self.new out (deliver from envelope.now self.old.state)) }
        ensures refused { IfErr result (λ r. (deliver from envelope.now self.old.state ≡ Refused (number_of r)) × (self.new ≡ self.old)) }
        ensures board { self.new.state.board ≡ self.old.state.board }
    {
        if self.stopped.is_some() {
            return Err(Refusal::Stopped);
        }
        if envelope.epoch < self.place.epoch() {
            return Ok(self.nothing());
        }
        if self.place.epoch() < envelope.epoch {
            return Err(Refusal::Early);
        }
        match &envelope.message {
            Message::Put {
                number,
                origin,
                write,
            } => self.put(*number, *origin, write),
            Message::Ack { front } => Ok(self.ack(*front)),
            Message::Turn { .. } => Ok(self.take_turn()),
            Message::Submit { ticket, write } => self.number(from, *ticket, write),
        }
    }

    /// Nothing is sent, and nobody is told.
    pub(crate) fn nothing(&self) -> Out
        ensures { result ≡ record { messages = []; replies = [] } }
    {
        Out {
            messages: Vec::new(self.alloc),
            replies: Vec::new(self.alloc),
        }
    }

    /// The message for a member, if there is one.
    pub(crate) fn send(&self, to: Option<Slot>, message: Message) -> Result<Vec<Sent>, AllocError>
        ensures { IfOk result (λ sent. sent.items ≡ send to message self.now.state) }
    {
        let Some(to) = to else {
            return Ok(Vec::new(self.alloc));
        };
        let envelope = Envelope {
            epoch: self.place.epoch(),
            message,
        };
        Ok(vec![in self.alloc; Sent { to, envelope }]?)
    }

    /// The write for the successor, once this epoch's Turn has come.
    fn send_on(&self, n: u64, origin: Origin, write: &Write) -> Result<Vec<Sent>, AllocError>
        ensures { IfOk result (λ sent. sent.items ≡ (if self.now.state.turned then send (successor_of self.now.state.place) (Put n origin write.now) self.now.state else [])) }
    {
        if !self.turned {
            return Ok(Vec::new(self.alloc));
        }
        let message = Message::Put {
            number: n,
            origin,
            write: write.clone()?,
        };
        self.send(self.place.successor(), message)
    }

    /// Whether the write finds no place, or no number is left.
    fn is_full(&self, write: &Write) -> bool
        ensures { result ≡ is_full write.now self.now.state }
    {
        self.table.is_full_for(write) || self.table.applied() >= MAX_NUMBER
    }

    /// A Put.
    fn put(&mut self, n: u64, origin: Origin, write: &Write) -> Result<Out, Refusal>
        requires inside { Fits (size_of (S.about self.old.store)) write.now }
        requires some { 0 < length write.now.bytes }
        ensures taken { IfOk result (λ out. IsDelivered self.old self.new out (put n origin write.now self.old.state)) }
        ensures refused { IfErr result (λ r. (put n origin write.now self.old.state ≡ Refused (number_of r)) × (self.new ≡ self.old)) }
        ensures board { self.new.state.board ≡ self.old.state.board }
    {
        let applied = self.table.applied();
        if n <= applied {
            return Ok(self.nothing());
        }
        if n > applied + 1 {
            return Ok(self.stop_by(Cause::Disorder));
        }
        if self.is_full(write) {
            return Err(Refusal::Busy);
        }
        Ok(self.apply(n, origin, write))
    }

    /// A write that the head numbers.
    fn number(&mut self, from: Slot, ticket: u64, write: &Write) -> Result<Out, Refusal>
        requires inside { Fits (size_of (S.about self.old.store)) write.now }
        requires some { 0 < length write.now.bytes }
        ensures taken { IfOk result (λ out. IsDelivered self.old self.new out (number from ticket write.now self.old.state)) }
        ensures refused { IfErr result (λ r. (number from ticket write.now self.old.state ≡ Refused (number_of r)) × (self.new ≡ self.old)) }
        ensures board { self.new.state.board ≡ self.old.state.board }
    {
        if !self.place.is_head() {
            return Ok(self.stop_by(Cause::Disorder));
        }
        let Some(incarnation) = self.place.incarnation_of(from) else {
            return Ok(self.stop_by(Cause::Disorder));
        };
        if self.is_full(write) {
            return Err(Refusal::Busy);
        }
        let origin = Origin {
            slot: from.number(),
            incarnation: incarnation.number(),
            ticket,
        };
        let next = self.table.applied() + 1;
        Ok(self.apply(next, origin, write))
    }

    /// The write becomes the last applied one.
    fn apply(&mut self, n: u64, origin: Origin, write: &Write) -> Out
        requires inside { Fits (size_of (S.about self.old.store)) write.now }
        requires some { 0 < length write.now.bytes }
        requires next { n ≡ last_of self.old.state + 1 }
        requires room { is_full write.now self.old.state ≡ false }
        ensures step { IsStepOrStop self.old self.new result (apply n origin write.now self.old.state) }
        ensures board { self.new.state.board ≡ self.old.state.board }
    {
        let Ok(messages) = self.send_on(n, origin, write) else {
            return self.stop_by(Cause::Memory);
        };
        self.found = None;
        match self.table.apply(n, write, origin) {
            Ok(()) => {
                self.learn(n, origin);
                Out {
                    messages,
                    replies: Vec::new(self.alloc),
                }
            }
            Err(_) => self.stop_by(Cause::Memory),
        }
    }

    /// Tells the token of a write that this member submitted its number.
    fn learn(&mut self, n: u64, origin: Origin)
        ensures { self.new ≡ record self.old { state = record self.old.state { waiting = told_number n origin self.old.state } } }
    {
        if origin.slot == self.place.slot().number() && origin.incarnation == self.incarnation {
            self.desk.learn(origin.ticket, n);
        }
    }

    /// An Ack.
    fn ack(&mut self, front: u64) -> Out
        ensures step { IsStepOrStop self.old self.new result (ack front self.old.state) }
        ensures board { self.new.state.board ≡ self.old.state.board }
    {
        if front > self.table.applied() {
            return self.stop_by(Cause::Disorder);
        }
        let known = self.known.max(front);
        self.know(front, known)
    }

    /// The writes up to `known` are committed, and the predecessor is told `told`.
    pub(crate) fn know(&mut self, told: u64, known: u64) -> Out
        requires above { self.old.state.known ≤ known }
        requires applied { known ≤ last_of self.old.state }
        ensures step { IsStepOrStop self.old self.new result (know told known self.old.state) }
        ensures board { self.new.state.board ≡ self.old.state.board }
    {
        match self.try_know(told, known) {
            Ok(out) => out,
            Err(_) => self.stop_by(Cause::Memory),
        }
    }

    /// The same. Where memory runs out, nothing changes.
    pub(crate) fn try_know(&mut self, told: u64, known: u64) -> Result<Out, AllocError>
        requires above { self.old.state.known ≤ known }
        requires applied { known ≤ last_of self.old.state }
        ensures step { IfOk result (λ out. IsStep self.old self.new out (know told known self.old.state)) }
        ensures unchanged { OnErr result (self.new ≡ self.old) }
    {
        let due = Due::Committed(known);
        let messages = self.send(self.place.predecessor(), Message::Ack { front: told })?;
        let mut replies = Vec::with_capacity(self.alloc, self.desk.count_due(&due))?;
        self.desk.settle(self.alloc, &due, &mut replies);
        self.known = known;
        self.found = None;
        Ok(Out { messages, replies })
    }
}
