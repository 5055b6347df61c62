//! Messages.
ghost use Rattle.std.specs.Prelude.{◌≡◌, ◌⊎◌, ◌<◌, ◌≤◌, ◌+◌, ◌++◌, [], All, IfErr, IfNone, IfOk, IfSome, Some, drop, length, map};
ghost use Rattle.std.specs.VecDeque.{deque_capacity, deque_len};
ghost use Rattle.chain_core.specs.Node.{IsInside, size_of};
ghost use Rattle.chain_core.specs.Refusal.{number_of};
ghost use Rattle.chain.specs.Chain.{IsOfOneVolume};
ghost use Rattle.chain.specs.Passing.{HasNone, IsItself, IsRefused, MessageComes, PassesTo, Refuses, SubmitComes, most_of, replies_in, target_of};

use crate::chain::Chain;
use chain_core::{Node, Out, Refusal, Served};
use chain_steps::{Cause, Envelope, Message, Sent};
use gate_journal::Slot;
use local_store::StoreLike;
use std::collections::VecDeque;

/// The first message leaves a link.
fn leave(link: &mut VecDeque<Envelope>)
    ensures { link.new.items ≡ drop 1 link.old.items }
{
    drop(link.pop_front());
}

/// The messages that are sent go behind those that are on a link.
pub(crate) fn send(messages: Vec<Sent>, to: &mut VecDeque<Envelope>)
    requires { deque_len to.old + length messages.items ≤ deque_capacity to.old }
    ensures { to.new.items ≡ to.old.items ++ map (λ message. message.envelope) messages.items }
{
    for sent in messages {
        to.push_back_reserved(sent.envelope);
    }
}

/// Whom a member tells of a message, if there is one.
fn target<S: StoreLike + Drop>(node: &Node<S>, message: &Message) -> Option<Slot>
    ensures { result ≡ target_of node.now.state message.now }
{
    match message {
        Message::Ack { .. } => node.place().predecessor(),
        _ => node.place().successor(),
    }
}

/// How many messages a member sends at most when it takes a message.
fn most<S: StoreLike + Drop>(node: &Node<S>, message: &Message) -> usize
    ensures { result ≡ most_of node.now.state message.now }
{
    node.sound();
    match message {
        Message::Turn { .. } => (node.applied() - node.known() + 1) as usize,
        _ => 1,
    }
}

/// A member takes the first message of a link, from the member at a slot, and what it sends goes on another link. Where it stops, the
/// message stays.
fn pass<S: StoreLike + Drop>(
    node: &mut Node<S>,
    from: Slot,
    link: &mut VecDeque<Envelope>,
    to: &mut VecDeque<Envelope>,
) -> Result<Option<Vec<Served>>, Refusal>
    requires { All (λ envelope. IsInside (size_of (S.about node.old.store)) envelope.message) link.old.items }
    ensures none { IfOk result (λ taken. IfNone taken ((link.old.items ≡ []) × ((node.new ≡ node.old) × ((link.new.items ≡ link.old.items) × (to.new.items ≡ to.old.items))))) }
    ensures some { IfOk result (λ taken. IfSome taken (λ replies. PassesTo from node.old node.new link.old.items link.new.items to.old.items to.new.items replies.items)) }
    ensures refused { IfErr result (λ r. IsRefused from node.old.state link.old.items (number_of r) × ((node.new ≡ node.old) × ((link.new.items ≡ link.old.items) × (to.new.items ≡ to.old.items)))) }
    ensures inside { All (λ envelope. IsInside (size_of (S.about node.old.store)) envelope.message) to.old.items → All (λ envelope. IsInside (size_of (S.about node.old.store)) envelope.message) to.new.items }
{
    let Some(envelope) = link.front() else {
        return Ok(None);
    };
    if node.stopped().is_some() {
        return Err(Refusal::Stopped);
    }
    if to.reserve(most(node, &envelope.message)).is_err() {
        return Ok(Some(node.stop_by(Cause::Memory).replies));
    }
    node.sound();
    let Out { messages, replies } = node.deliver(from, envelope)?;
    if node.stopped().is_some() {
        return Ok(Some(replies));
    }
    leave(link);
    send(messages, to);
    Ok(Some(replies))
}

impl<S: StoreLike + Drop> Chain<S> {
    /// The member at a place takes the first message that comes from a slot by its chain link: its replies, or none where no message
    /// is on the link, or the slot is its own. A write that it applies goes to whoever is behind it in the chain that it was told, once
    /// its Turn has come; an Ack goes to whoever is before it; with its Turn it sends again what it doesn't know to be committed. A
    /// message of an older epoch, an applied write and a second Turn are dropped.
    ///
    /// 152 `Early` for a message of an epoch that it wasn't told, 153 `Busy` for a write that its table has no room for, 154 `Stopped`
    /// once it stopped: the message stays on its link, and nothing changed. Where memory runs out, the member stops, and the message
    /// stays on its link.
    pub fn pass(&mut self, from: Slot, at: usize) -> Result<Option<Vec<Served>>, Refusal>
        requires { at < length self.old.members }
        ensures none { IfOk result (λ taken. IfNone taken (HasNone (λ c. c.links) from at self.old self.new ⊎ IsItself from at self.old self.new)) }
        ensures comes { IfOk result (λ taken. IfSome taken (λ replies. MessageComes from at self.old self.new replies.items)) }
        ensures refused { IfErr result (Refuses (λ c. c.links) from at self.old self.new) }
        ensures one_volume { S.keeps_model → IsOfOneVolume S.about S.keeps S.may_leave_now self.old self.new (replies_in (λ replies. replies.items) result) }
    {
        let slot = self.members[at].slot();
        if from == slot {
            return Ok(None);
        }
        let Some(first) = self.links.first(from, slot) else {
            return Ok(None);
        };
        let to = target(&self.members[at].node, &first.message).unwrap_or(slot);
        let mut link = VecDeque::new(self.alloc);
        let mut sent = VecDeque::new(self.alloc);
        self.links.exchange(from, slot, &mut link);
        self.links.exchange(slot, to, &mut sent);
        let taken = pass(&mut self.members[at].node, from, &mut link, &mut sent);
        self.links.exchange(slot, to, &mut sent);
        self.links.exchange(from, slot, &mut link);
        taken
    }

    /// The member at a place takes the first write that comes from a slot by its submit link: its replies, or none where no write is on
    /// the link. As the head it gives the write the next number, and sends it on once its Turn has come; in a chain no other member
    /// has such a write. A write of an older epoch is dropped.
    ///
    /// 152, 153 and 154 as in `pass`. Where memory runs out, the member stops, and the write stays on its link.
    pub fn number(&mut self, from: Slot, at: usize) -> Result<Option<Vec<Served>>, Refusal>
        requires { at < length self.old.members }
        ensures none { IfOk result (λ taken. IfNone taken (HasNone (λ c. c.submits) from at self.old self.new)) }
        ensures comes { IfOk result (λ taken. IfSome taken (λ replies. SubmitComes from at self.old self.new replies.items)) }
        ensures refused { IfErr result (Refuses (λ c. c.submits) from at self.old self.new) }
        ensures one_volume { S.keeps_model → IsOfOneVolume S.about S.keeps S.may_leave_now self.old self.new (replies_in (λ replies. replies.items) result) }
    {
        let slot = self.members[at].slot();
        let Some(first) = self.submits.first(from, slot) else {
            return Ok(None);
        };
        let to = target(&self.members[at].node, &first.message).unwrap_or(slot);
        let mut link = VecDeque::new(self.alloc);
        let mut sent = VecDeque::new(self.alloc);
        self.submits.exchange(from, slot, &mut link);
        self.links.exchange(slot, to, &mut sent);
        let taken = pass(&mut self.members[at].node, from, &mut link, &mut sent);
        self.links.exchange(slot, to, &mut sent);
        self.submits.exchange(from, slot, &mut link);
        taken
    }
}
