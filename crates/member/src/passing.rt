//! Messages.
ghost use Rattle.std.specs.Prelude.{◌≡◌, ◌↔◌, IfErr, IfOk, IsTrue};
ghost use Rattle.chain_steps.specs.Node.{Refused};
ghost use Rattle.chain_steps.specs.Steps.{deliver, stop};
ghost use Rattle.chain_steps.specs.declared.cause.Cause.TheVariants as causes;
ghost use Rattle.chain_core.specs.Node.{IsDelivered, IsInside, IsStep};
ghost use Rattle.chain_core.specs.Refusal.{number_of};
ghost use Rattle.member.specs.Posted.{HasPosted, OrRanOut};

use crate::agreed::Agreed;
use crate::member::Member;
use chain_core::{Out, Refusal, Served};
use chain_steps::{Cause, Envelope, Message};
use gate_journal::Slot;
use local_store::StoreLike;

impl<S: StoreLike + Drop, J: Agreed> Member<S, J> {
    /// Takes a message from the member at a slot. Where its write doesn't lie in the volume, or has no byte, which no member sends, the
    /// member stops.
    ///
    /// 154 `Stopped` once stopped; a message of an older epoch is dropped, one of a later is 152 `Early`; 153 `Busy` where the
    /// write finds no place in the table, or the greatest number is used. A refused message stays where it came from, and
    /// nothing changed. Where memory runs out, the member stops.
    pub fn deliver(&mut self, from: Slot, envelope: &Envelope) -> Result<Vec<Served>, Refusal>
        ensures taken { IsInside J.size envelope.now.message → IfOk result (λ replies. HasPosted (OrRanOut (λ old new out. IsDelivered old new out (deliver from envelope.now old.state))) self.old self.new replies.items) }
        ensures outside { ¬ IsInside J.size envelope.now.message → IfOk result (λ replies. HasPosted (λ old new out. IsStep old new out (stop causes.Disorder old.state)) self.old self.new replies.items) }
        ensures refused { IfErr result (λ r. (deliver from envelope.now self.old.node.state ≡ Refused (number_of r)) × (self.new ≡ self.old)) }
    {
        if self.node.stopped().is_some() {
            return Err(Refusal::Stopped);
        }
        if !self.is_inside(&envelope.message) {
            return Ok(self.node.stop_by(Cause::Disorder).replies);
        }
        if !self.outbox.make_room() {
            return Ok(self.node.stop_by(Cause::Memory).replies);
        }
        let Out { messages, replies } = self.node.deliver(from, envelope)?;
        self.outbox.post(messages);
        Ok(replies)
    }

    /// Whether the message's write, if it has one, lies in the volume, and has at least one byte.
    fn is_inside(&self, message: &Message) -> bool
        ensures { IsTrue result ↔ IsInside J.size message.now }
    {
        match message {
            Message::Put { write, .. } | Message::Submit { write, .. } => {
                let len = write.len();
                len > 0 && self.node.store().geometry().contains(write.offset(), len)
            }
            Message::Ack { .. } | Message::Turn { .. } => true,
        }
    }
}
