//! A chain that is told, and its Turn.
ghost use Rattle.std.specs.Prelude.{◌≡◌, ◌≤◌, [], false, None, filter, length, vec_capacity, IfErr, IfOk, OnOk};
ghost use Rattle.chain_steps.specs.Node.{Refused};
ghost use Rattle.chain_steps.specs.Place.{is_head, successor_of};
ghost use Rattle.chain_steps.specs.Steps.{again, placed, send_all, take_turn, told, turn};
ghost use Rattle.chain_steps.specs.Waiting.{is_outdated};
ghost use Rattle.chain_core.specs.Node.{IsDelivered, IsStep, IsStepOrStop};
ghost use Rattle.chain_core.specs.Refusal.{number_of};

use crate::node::Node;
use crate::out::{Out, Served};
use crate::refusal::Refusal;
use chain_steps::{Cause, Envelope, Message, Place, Sent};
use configurations::Record;
use local_store::StoreLike;
use std::alloc::AllocError;

/// What a Turn sends, and room for the replies that it gives.
struct Turning {
    messages: Vec<Sent>,
    room: Vec<Served>,
}

impl<S: StoreLike + Drop> Node<S> {
    /// Tells the member its chain's next record: it takes messages of that epoch from then on, passes nothing on before the Turn,
    /// and holds for no joiner. The head has its Turn at once; another member runs on, and asks for no memory.
    ///
    /// 154 `Stopped` once stopped. A record whose epoch isn't above the member's changes nothing; in one without this slot and
    /// incarnation, the member is 151 `NotMember`, and nothing changed. Where memory runs out for a head, it stops.
    pub fn told(&mut self, chain: Record) -> Result<Out, Refusal>
        ensures taken { IfOk result (λ out. IsDelivered self.old self.new out (told chain self.old.state)) }
        ensures refused { IfErr result (λ r. (told chain self.old.state ≡ Refused (number_of r)) × (self.new ≡ self.old)) }
        ensures runs { OnOk result (is_head (placed chain self.old.state).place ≡ false → self.new.state.stopped ≡ None) }
        ensures board { self.new.state.board ≡ self.old.state.board }
    {
        if self.stopped.is_some() {
            return Err(Refusal::Stopped);
        }
        if chain.epoch() <= self.place.epoch() {
            return Ok(self.nothing());
        }
        let place = Place::new(self.place.slot(), chain);
        if !place.is_of(self.incarnation) {
            return Err(Refusal::NotMember);
        }
        if !place.is_head() {
            self.move_to(place);
            return Ok(self.nothing());
        }
        let Ok(turning) = self.turning(&place) else {
            return Ok(self.stop_by(Cause::Memory));
        };
        self.move_to(place);
        Ok(self.turn(turning))
    }

    /// The Turn of this epoch comes. A second one is passed over. Where memory runs out, the member stops.
    pub(crate) fn take_turn(&mut self) -> Out
        ensures step { IsStepOrStop self.old self.new result (take_turn self.old.state) }
        ensures board { self.new.state.board ≡ self.old.state.board }
    {
        if self.turned {
            return self.nothing();
        }
        let Ok(turning) = self.turning(&self.place) else {
            return self.stop_by(Cause::Memory);
        };
        self.turn(turning)
    }

    /// What the member sends with its Turn at a place of its slot, and room for the replies that it gives.
    fn turning(&self, place: &Place) -> Result<Turning, AllocError>
        ensures messages { IfOk result (λ t. t.messages.items ≡ send_all (successor_of place.now) place.now.chain.epoch (again self.now.state)) }
        ensures room { IfOk result (λ t. length (filter (is_outdated place.now.chain.epoch) self.now.state.waiting) ≤ vec_capacity t.room) }
        ensures empty { IfOk result (λ t. t.room.items ≡ []) }
    {
        let epoch = place.epoch().number();
        let room = Vec::with_capacity(self.alloc, self.desk.count_outdated(epoch))?;
        let messages = self.send_again(place)?;
        Ok(Turning { messages, room })
    }

    /// What the member doesn't know to be committed for the successor at a place, and the Turn behind it.
    fn send_again(&self, place: &Place) -> Result<Vec<Sent>, AllocError>
        ensures { IfOk result (λ sent. sent.items ≡ send_all (successor_of place.now) place.now.chain.epoch (again self.now.state)) }
    {
        let mut sent = Vec::new(self.alloc);
        let Some(to) = place.successor() else {
            return Ok(sent);
        };
        let epoch = place.epoch();
        for kept in self.table.after(self.known) {
            let message = Message::Put {
                number: kept.number,
                origin: kept.origin,
                write: kept.write.clone()?,
            };
            let envelope = Envelope { epoch, message };
            sent.push(Sent { to, envelope })?;
        }
        let applied = self.table.applied();
        let message = Message::Turn { applied };
        let turn = Envelope { epoch, message };
        sent.push(Sent { to, envelope: turn })?;
        Ok(sent)
    }

    /// The member stands at this place of its slot, and waits for the Turn.
    fn move_to(&mut self, place: Place)
        requires { place.slot ≡ self.old.state.place.slot }
        ensures { self.new ≡ record self.old { state = placed place.chain self.old.state } }
    {
        self.place = place;
        self.turned = false;
        self.holds = false;
        self.found = None;
    }

    /// The Turn, with what it sends.
    fn turn(&mut self, turning: Turning) -> Out
        requires messages { turning.messages.items ≡ send_all (successor_of self.old.state.place) self.old.state.place.chain.epoch (again self.old.state) }
        requires room { length (filter (is_outdated self.old.state.place.chain.epoch) self.old.state.waiting) ≤ vec_capacity turning.room }
        requires empty { turning.room.items ≡ [] }
        ensures step { IsStep self.old self.new result (turn self.old.state) }
        ensures board { self.new.state.board ≡ self.old.state.board }
    {
        let Turning {
            messages,
            room: mut replies,
        } = turning;
        let epoch = self.place.epoch().number();
        self.desk.refuse_outdated(self.alloc, epoch, &mut replies);
        self.turned = true;
        self.found = None;
        Out { messages, replies }
    }
}
