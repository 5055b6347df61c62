//! What a member has sent and nobody has fetched yet.
ghost use Rattle.std.specs.Prelude.{◌≡◌};

use chain_steps::{Message, Sent};
use std::alloc::Global;
use std::collections::VecDeque;
use std::mem;

/// By which way a message goes.
#[derive(Clone, Copy, Debug, PartialEq, Eq)]
pub enum Route {
    /// On to the successor.
    On,
    /// Back to the predecessor.
    Back,
    /// To the head, as a submitted write.
    ToHead,
}

/// A box for each way, with a bundle of each call that sent anything by it.
#[derive(Drop)]
pub(crate) struct Outbox {
    pub(crate) on: VecDeque<Vec<Sent>>,
    pub(crate) back: VecDeque<Vec<Sent>>,
    pub(crate) to_head: VecDeque<Vec<Sent>>,
}

impl Route {
    ghost use Rattle.member.specs.Posted.{route_of};

    /// By which way a message goes.
    pub fn of(message: &Message) -> Route
        ensures { result ≡ route_of message.now }
    {
        match message {
            Message::Put { .. } | Message::Turn { .. } => Route::On,
            Message::Ack { .. } => Route::Back,
            Message::Submit { .. } => Route::ToHead,
        }
    }
}

impl Outbox {
    ghost use Rattle.std.specs.Prelude.{◌+◌, ◌≤◌, [], map, true};
    ghost use Rattle.member.specs.Boxes.{HasRoom, boxes_of};
    ghost use Rattle.member.specs.Posted.{box_of, none_sent, with_box, with_bundle};

    /// Nothing was sent.
    pub(crate) fn new(alloc: Global) -> Outbox
        ensures { boxes_of result ≡ none_sent }
    {
        Outbox {
            on: VecDeque::new(alloc),
            back: VecDeque::new(alloc),
            to_head: VecDeque::new(alloc),
        }
    }

    /// Makes room for what one call sends, by any way. False where memory runs out.
    pub(crate) fn make_room(&mut self) -> bool
        ensures same { boxes_of self.new ≡ boxes_of self.old }
        ensures room { result ≡ true → HasRoom self.new }
    {
        self.on.reserve(1).is_ok()
            && self.back.reserve(1).is_ok()
            && self.to_head.reserve(1).is_ok()
    }

    /// What a call sent is the last bundle of its box, if it sent anything.
    pub(crate) fn post(&mut self, messages: Vec<Sent>)
        requires { HasRoom self.old }
        ensures { boxes_of self.new ≡ with_bundle (boxes_of self.old) messages.items }
    {
        let Some(first) = messages.first() else {
            return;
        };
        match Route::of(&first.envelope.message) {
            Route::On => self.on.push_back_reserved(messages),
            Route::Back => self.back.push_back_reserved(messages),
            Route::ToHead => self.to_head.push_back_reserved(messages),
        }
    }

    /// What was sent by a way changes places with a list.
    pub(crate) fn exchange(&mut self, route: Route, bundles: &mut VecDeque<Vec<Sent>>)
        ensures boxes { boxes_of self.new ≡ with_box route (map (λ bundle. bundle.items) bundles.old.items) (boxes_of self.old) }
        ensures bundles { map (λ bundle. bundle.items) bundles.new.items ≡ box_of route (boxes_of self.old) }
    {
        match route {
            Route::On => mem::swap(&mut self.on, bundles),
            Route::Back => mem::swap(&mut self.back, bundles),
            Route::ToHead => mem::swap(&mut self.to_head, bundles),
        }
    }
}
