ghost use Rattle.std.specs.Prelude.{◌≡◌, ◌<◌, ◌^◌, ◌++◌, [], ◌∷◌, Bool, true, List, Some, None, All, filter, find, length, map, option_map, position, IfErr, IfNone, IfOk, IfSome, OnErr, OnOk};
ghost use Rattle.std.specs.List.{list_any};
ghost use Rattle.chain_steps.specs.Tokens.{without_first};
ghost use Rattle.chain_steps.specs.Waiting.{IsOf, IsOfDue, asked_range, asks_floor, asks_front, bound, is_due, is_outdated, is_read, learned, reply_to, waits_for};
ghost use Rattle.chain_steps.specs.declared.waiting.Waiting.{Waiting as Token};
ghost use Rattle.chain_steps.specs.declared.waiting.Waiting.TheVariants.{Flush, Read};

use crate::asked::AskedRead;
use crate::waiting::{Due, Waiting, WriteToken};
use board::Front;
use flush_barrier::{ErrorCode, OwedFlush, OwedRead, Reply};
use std::alloc::{AllocError, Global};
use std::marker::Model;

/// The tokens that wait at a member, in the order in which they were taken. It has no `Drop` while tokens wait.
#[derive(Debug)]
pub struct Tokens {
    waiting: Vec<Waiting>,
}

impl Model for Tokens {
    ghost Value = { List Token };

    ghost view = { λ tokens. tokens.waiting.items };
}

impl Tokens {
    /// No tokens.
    pub fn new(alloc: Global) -> Tokens
        ensures { result ≡ [] }
    {
        Tokens {
            waiting: Vec::new(alloc),
        }
    }

    /// How many wait.
    pub fn len(&self) -> usize
        ensures { result ≡ length self.now }
    {
        self.waiting.len()
    }

    /// Takes the token of a write, under the ticket and in the epoch of its Submit. Where memory runs out, it comes back.
    pub fn push_write(
        &mut self,
        token: WriteToken,
        ticket: u64,
        epoch: u64,
    ) -> Result<(), WriteToken>
        ensures ok { OnOk result (self.new ≡ self.old ++ waits_for ticket epoch token ∷ []) }
        ensures back { IfErr result (λ t. t ≡ token) }
        ensures err { OnErr result (self.new ≡ self.old) }
    {
        if self.waiting.reserve(1).is_err() {
            return Err(token);
        }
        self.waiting
            .push_reserved(Waiting::submitted(token, ticket, epoch));
        Ok(())
    }

    /// Takes the token of a READ of `length` bytes from `offset` on. Where memory runs out, it comes back.
    pub fn push_read(&mut self, token: OwedRead, offset: u64, length: u32) -> Result<(), OwedRead>
        ensures ok { OnOk result (self.new ≡ self.old ++ Read offset length token ∷ []) }
        ensures back { IfErr result (λ t. t ≡ token) }
        ensures err { OnErr result (self.new ≡ self.old) }
    {
        if self.waiting.reserve(1).is_err() {
            return Err(token);
        }
        self.waiting.push_reserved(Waiting::Read {
            offset,
            length,
            token,
        });
        Ok(())
    }

    /// Takes the token of a FLUSH. Where memory runs out, it comes back.
    pub fn push_flush(&mut self, token: OwedFlush) -> Result<(), OwedFlush>
        ensures ok { OnOk result (self.new ≡ self.old ++ Flush token ∷ []) }
        ensures back { IfErr result (λ t. t ≡ token) }
        ensures err { OnErr result (self.new ≡ self.old) }
    {
        if self.waiting.reserve(1).is_err() {
            return Err(token);
        }
        self.waiting.push_reserved(Waiting::Flush { token });
        Ok(())
    }

    /// Tells the token of the write under this ticket its number.
    pub fn learn(&mut self, ticket: u64, n: u64)
        ensures { self.new ≡ map (learned ticket n) self.old }
    {
        for token in self.waiting.iter_mut() {
            token.learn(ticket, n);
        }
    }

    /// Binds each FLUSH that isn't bound yet to the front.
    pub fn bind(&mut self, front: &Front)
        requires { All (IsOf front.now.board) self.old }
        ensures { self.new ≡ map (bound front.now.number) self.old }
    {
        for token in self.waiting.iter_mut() {
            token.bind(front);
        }
    }

    /// How many are answered now.
    pub fn count_due(&self, due: &Due) -> usize
        ensures count { result ≡ length (filter (is_due due.now) self.now) }
        ensures few { result < 2 ^ 63 }
    {
        let mut count = 0;
        for token in &self.waiting {
            if token.is_due(due) {
                count += 1;
            }
        }
        count
    }

    /// The reply to the first token that is answered now; it waits no longer.
    #[tactic(auto, using(crate::proofs::Firsts::none_found, crate::proofs::Firsts::none_out))]
    pub fn next_due(&mut self, alloc: Global, due: &Due) -> Option<Reply>
        requires { All (IsOfDue due.now) self.old }
        ensures reply { result ≡ option_map (reply_to None) (find (is_due due.now) self.old) }
        ensures left { self.new ≡ without_first (is_due due.now) self.old }
    {
        let at = self.first_due(due)?;
        Some(self.take_out(at).settle(alloc, due))
    }

    /// How many writes have no number yet, of those that were submitted in an older epoch than this one.
    pub fn count_outdated(&self, epoch: u64) -> usize
        ensures count { result ≡ length (filter (is_outdated epoch) self.now) }
        ensures few { result < 2 ^ 63 }
    {
        let mut count = 0;
        for token in &self.waiting {
            if token.is_outdated(epoch) {
                count += 1;
            }
        }
        count
    }

    /// The refusal of the first write that has no number yet, of those that were submitted in an older epoch than this one; it
    /// waits no longer.
    #[tactic(auto, using(crate::proofs::Firsts::none_found, crate::proofs::Firsts::none_out))]
    pub fn next_outdated(&mut self, alloc: Global, epoch: u64, code: ErrorCode) -> Option<Reply>
        ensures reply { result ≡ option_map (reply_to (Some code)) (find (is_outdated epoch) self.old) }
        ensures left { self.new ≡ without_first (is_outdated epoch) self.old }
    {
        let at = self.first_outdated(epoch)?;
        Some(self.take_out(at).refuse(alloc, code))
    }

    /// Whether one waits for a front to be looked up.
    pub fn asks_front(&self) -> bool
        ensures { result ≡ list_any asks_front self.now }
    {
        self.waiting.iter().any(|token| token.asks_front())
    }

    /// Whether one waits for a floor.
    pub fn asks_floor(&self) -> bool
        ensures { result ≡ list_any asks_floor self.now }
    {
        self.waiting.iter().any(|token| token.asks_floor())
    }

    /// How many READs wait.
    pub fn count_reads(&self) -> usize
        ensures { result ≡ length (filter is_read self.now) }
    {
        let mut count = 0;
        for token in &self.waiting {
            if token.is_read() {
                count += 1;
            }
        }
        count
    }

    /// The ranges that the READs ask for, in the order in which they were taken: the first byte of each, and how many.
    pub fn asked(&self, alloc: Global) -> Result<Vec<(u64, u32)>, AllocError>
        ensures { IfOk result (λ ranges. ranges.items ≡ map asked_range (filter is_read self.now)) }
    {
        let mut ranges = Vec::new(alloc);
        for token in &self.waiting {
            if let Waiting::Read { offset, length, .. } = token {
                ranges.push((*offset, *length))?;
            }
        }
        Ok(ranges)
    }

    /// The first READ that waits; its token waits here no longer.
    #[tactic(auto, using(crate::proofs::Firsts::none_found, crate::proofs::Firsts::none_out))]
    pub fn next_read(&mut self) -> Option<AskedRead>
        ensures read { find is_read self.old ≡ option_map (λ r. Read r.offset r.length r.token) result }
        ensures left { self.new ≡ without_first is_read self.old }
    {
        let at = self.first_read()?;
        Some(self.take_out(at).into_read())
    }

    /// The refusal of the first token; it waits no longer.
    pub fn next_refused(&mut self, alloc: Global, code: ErrorCode) -> Option<Reply>
        ensures none { IfNone result ((self.old ≡ []) × (self.new ≡ [])) }
        ensures some { IfSome result (λ reply. (token : Token) × (self.old ≡ token ∷ self.new) × (reply ≡ reply_to (Some code) token)) }
    {
        if self.waiting.is_empty() {
            return None;
        }
        Some(self.waiting.remove(0).refuse(alloc, code))
    }

    /// Takes the token at this place out.
    fn take_out(&mut self, at: usize) -> Waiting
        requires { at < length self.old }
        ensures { (passes : Token → Bool) → position passes self.old ≡ Some at
            → (find passes self.old ≡ Some result) × (passes result ≡ true) × (self.new ≡ without_first passes self.old) }
    {
        self.waiting.remove(at)
    }

    /// Where the first token waits that is answered now.
    fn first_due(&self, due: &Due) -> Option<usize>
        ensures place { result ≡ position (is_due due.now) self.now }
        ensures within { IfSome result (λ at. at < length self.now) }
    {
        self.waiting.iter().position(|t| t.is_due(due))
    }

    /// Where the first write waits that has no number yet, of those that were submitted in an older epoch than this one.
    fn first_outdated(&self, epoch: u64) -> Option<usize>
        ensures place { result ≡ position (is_outdated epoch) self.now }
        ensures within { IfSome result (λ at. at < length self.now) }
    {
        self.waiting.iter().position(|t| t.is_outdated(epoch))
    }

    /// Where the first READ waits.
    fn first_read(&self) -> Option<usize>
        ensures place { result ≡ position is_read self.now }
        ensures within { IfSome result (λ at. at < length self.now) }
    {
        self.waiting.iter().position(|t| t.is_read())
    }

    /// Ends all tokens without a reply.
    pub fn abandon(self) {
        let Tokens { mut waiting } = self;
        while let Some(token) = waiting.pop() {
            token.abandon();
        }
        waiting.destroy_empty();
    }
}
