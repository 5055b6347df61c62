ghost use Rattle.std.specs.Prelude.{◌≡◌, ◌↔◌, ◌<◌, ◌≤◌, ◌+◌, ◌^◌, ◌++◌, [], ◌∷◌, List, All, Some, None, filter, length, map, not, vec_len, vec_capacity, IfErr, IfOk, IsTrue, OnErr, OnOk};
ghost use Rattle.std.specs.List.{list_any};
ghost use Rattle.chain_core.specs.Reads.{answered};
ghost use Rattle.chain_steps.specs.Waiting.{IsOf, IsOfDue, asked_range, asks_floor, asks_front, bound, is_due, is_outdated, is_read, learned, reply_to, waits_for};
ghost use Rattle.chain_steps.specs.declared.waiting.Waiting.{Waiting as Token};
ghost use Rattle.chain_steps.specs.declared.waiting.Waiting.TheVariants.{Flush, Read};
ghost use Rattle.flush_barrier.specs.declared.error_code.ErrorCode.TheVariants.{Io};

use crate::out::Served;
use board::Front;
use bytes::Bytes;
use chain_steps::{AskedRead, Due, Tokens, WriteToken};
use flush_barrier::{ErrorCode, OwedFlush, OwedRead};
use std::alloc::{AllocError, Global};
use std::marker::Model;
use std::mem;

/// The tokens of a member, and room for the refusal of all of them: so a member that stops needs no memory.
#[derive(Debug)]
pub(crate) struct Desk {
    tokens: Tokens,
    room: Vec<Served>,
}

impl Model for Desk {
    ghost Value = { List Token };

    ghost view = { λ desk. desk.tokens };

    ghost invariant = { λ desk. (desk.room.items ≡ []) × (length desk.tokens ≤ vec_capacity desk.room) };
}

impl Desk {
    /// No tokens.
    pub(crate) fn new(alloc: Global) -> Desk
        ensures { result ≡ [] }
    {
        Desk {
            tokens: Tokens::new(alloc),
            room: Vec::new(alloc),
        }
    }

    /// Whether no token waits.
    pub(crate) fn is_empty(&self) -> bool
        ensures { IsTrue result ↔ (self.now ≡ []) }
    {
        self.tokens.len() == 0
    }

    /// Takes the token of a write, under the ticket and in the epoch of its Submit. Where memory runs out, it comes back.
    pub(crate) fn push_write(
        &mut self,
        token: WriteToken,
        ticket: u64,
        epoch: u64,
    ) -> Result<(), WriteToken>
        ensures ok { OnOk result (self.new ≡ self.old ++ waits_for ticket epoch token ∷ []) }
        ensures back { IfErr result (λ t. t ≡ token) }
        ensures err { OnErr result (self.new ≡ self.old) }
    {
        if self.room.reserve(self.tokens.len() + 1).is_err() {
            return Err(token);
        }
        self.tokens.push_write(token, ticket, epoch)
    }

    /// Takes the token of a READ of `length` bytes from `offset` on. Where memory runs out, it comes back.
    pub(crate) fn push_read(
        &mut self,
        token: OwedRead,
        offset: u64,
        length: u32,
    ) -> Result<(), OwedRead>
        ensures ok { OnOk result (self.new ≡ self.old ++ Read offset length token ∷ []) }
        ensures back { IfErr result (λ t. t ≡ token) }
        ensures err { OnErr result (self.new ≡ self.old) }
    {
        if self.room.reserve(self.tokens.len() + 1).is_err() {
            return Err(token);
        }
        self.tokens.push_read(token, offset, length)
    }

    /// Takes the token of a FLUSH. Where memory runs out, it comes back.
    pub(crate) fn push_flush(&mut self, token: OwedFlush) -> Result<(), OwedFlush>
        ensures ok { OnOk result (self.new ≡ self.old ++ Flush token ∷ []) }
        ensures back { IfErr result (λ t. t ≡ token) }
        ensures err { OnErr result (self.new ≡ self.old) }
    {
        if self.room.reserve(self.tokens.len() + 1).is_err() {
            return Err(token);
        }
        self.tokens.push_flush(token)
    }

    /// Tells the token of the write under this ticket its number.
    pub(crate) fn learn(&mut self, ticket: u64, n: u64)
        ensures { self.new ≡ map (learned ticket n) self.old }
    {
        self.tokens.learn(ticket, n);
    }

    /// Binds each FLUSH that isn't bound yet to the front.
    pub(crate) fn bind(&mut self, front: &Front)
        requires { All (IsOf front.now.board) self.old }
        ensures { self.new ≡ map (bound front.now.number) self.old }
    {
        self.tokens.bind(front);
    }

    /// How many tokens are answered now.
    pub(crate) fn count_due(&self, due: &Due) -> usize
        ensures count { result ≡ length (filter (is_due due.now) self.now) }
        ensures few { result < 2 ^ 63 }
    {
        self.tokens.count_due(due)
    }

    /// Answers the tokens that are due, in the order in which they were taken, into a list that has room for them.
    pub(crate) fn settle(&mut self, alloc: Global, due: &Due, served: &mut Vec<Served>)
        requires of_board { All (IsOfDue due.now) self.old }
        requires room { vec_len served.old + length (filter (is_due due.now) self.old) ≤ vec_capacity served.old }
        ensures answered { served.new.items ≡ served.old.items ++ map (reply_to None) (filter (is_due due.now) self.old) }
        ensures capacity { vec_capacity served.new ≡ vec_capacity served.old }
        ensures left { self.new ≡ filter (λ w. not (is_due due.now w)) self.old }
    {
        while let Some(reply) = self.tokens.next_due(alloc, due) {
            served.push_reserved(Served::new(reply));
        }
    }

    /// Refuses all tokens with EIO, in the order in which they were taken.
    pub(crate) fn refuse_all(&mut self, alloc: Global) -> Vec<Served>
        ensures refused { result.items ≡ map (reply_to (Some Io)) self.old }
        ensures none { self.new ≡ [] }
    {
        let mut served = mem::replace(&mut self.room, Vec::new(alloc));
        while let Some(reply) = self.tokens.next_refused(alloc, ErrorCode::Io) {
            served.push_reserved(Served::new(reply));
        }
        served
    }

    /// How many writes have no number yet, of those that were submitted in an older epoch than this one.
    pub(crate) fn count_outdated(&self, epoch: u64) -> usize
        ensures count { result ≡ length (filter (is_outdated epoch) self.now) }
        ensures few { result < 2 ^ 63 }
    {
        self.tokens.count_outdated(epoch)
    }

    /// Refuses these with EIO, in the order in which they were taken, into a list that has room for them.
    pub(crate) fn refuse_outdated(&mut self, alloc: Global, epoch: u64, served: &mut Vec<Served>)
        requires room { vec_len served.old + length (filter (is_outdated epoch) self.old) ≤ vec_capacity served.old }
        ensures refused { served.new.items ≡ served.old.items ++ map (reply_to (Some Io)) (filter (is_outdated epoch) self.old) }
        ensures left { self.new ≡ filter (λ w. not (is_outdated epoch w)) self.old }
    {
        while let Some(reply) = self.tokens.next_outdated(alloc, epoch, ErrorCode::Io) {
            served.push_reserved(Served::new(reply));
        }
    }

    /// Whether a token waits for a front to be looked up.
    pub(crate) fn asks_front(&self) -> bool
        ensures { result ≡ list_any asks_front self.now }
    {
        self.tokens.asks_front()
    }

    /// Whether a token waits for a floor.
    pub(crate) fn asks_floor(&self) -> bool
        ensures { result ≡ list_any asks_floor self.now }
    {
        self.tokens.asks_floor()
    }

    /// The ranges that the READs ask for, in the order in which they were taken: the first byte of each, and how many.
    pub(crate) fn asked(&self, alloc: Global) -> Result<Vec<(u64, u32)>, AllocError>
        ensures { IfOk result (λ ranges. ranges.items ≡ map asked_range (filter is_read self.now)) }
    {
        self.tokens.asked(alloc)
    }

    /// Answers the READs with these bytes, in the order in which they were taken, into a list that has room for them.
    pub(crate) fn answer_reads(&mut self, payloads: Vec<Bytes>, served: &mut Vec<Served>)
        requires many { length payloads.items ≡ length (filter is_read self.old) }
        requires room { vec_len served.old + length payloads.items ≤ vec_capacity served.old }
        ensures answered { served.new.items ≡ served.old.items ++ answered payloads.items (filter is_read self.old) }
        ensures left { self.new ≡ filter (λ w. not (is_read w)) self.old }
    {
        for payload in payloads {
            let Some(read) = self.tokens.next_read() else {
                unreachable!();
            };
            let AskedRead {
                offset: _,
                length: _,
                token,
            } = read;
            served.push_reserved(Served::new(token.settle(payload)));
        }
    }

    /// Ends all tokens without a reply.
    pub(crate) fn abandon(self) {
        let Desk { tokens, room: _ } = self;
        tokens.abandon();
    }
}
