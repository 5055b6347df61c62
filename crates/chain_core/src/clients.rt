//! Requests that wait.
ghost use Rattle.std.specs.Prelude.{◌≡◌, ◌<◌, ◌≤◌, [], None, IfOk, IfErr, OnOk};
ghost use Rattle.std.specs.Option.{option_map};
ghost use Rattle.gate_journal.specs.declared.batch.TheConstants.{MAX_NUMBER};
ghost use Rattle.chain_steps.specs.Steps.{flush, stop, submit};
ghost use Rattle.chain_steps.specs.Waiting.{board_of};
ghost use Rattle.chain_core.specs.Node.{IsRefusedBy, IsStep, turned_away};
ghost use Rattle.chain_core.specs.Refusal.{number_of};

use crate::node::Node;
use crate::out::Out;
use crate::refusal::{Refusal, Refused};
use chain_steps::{Cause, Message, WriteToken};
use flush_barrier::OwedFlush;
use gate_journal::MAX_NUMBER;
use local_store::StoreLike;
use volume::Write;

impl<S: StoreLike + Drop> Node<S> {
    /// Sends a write to the head, and keeps its token under the next ticket.
    ///
    /// 154 `Stopped`, 151 `NotMember`, 100 `Memory`: the token comes back, and nothing changed. Where the greatest ticket is
    /// used, the member stops: the token comes back with 154, and the other tokens' refusals with it.
    pub fn submit(&mut self, token: WriteToken, write: Write) -> Result<Out, Refused<WriteToken>>
        requires { board_of token ≡ self.old.state.board }
        ensures away { OnOk result (turned_away self.old.state ≡ None) }
        ensures ticket { OnOk result (self.old.state.ticket ≤ MAX_NUMBER) }
        ensures submitted { IfOk result (λ out. IsStep self.old self.new out (submit token write self.old.state)) }
        ensures back { IfErr result (λ r. r.token ≡ token) }
        ensures refused { IfErr result (λ r. IsRefusedBy (MAX_NUMBER < self.old.state.ticket) (stop Cause.LastTicket self.old.state) self.old self.new r.replies.items r.refusal) }
    {
        if let Some(refusal) = self.turned_away() {
            return Err(self.refused(token, refusal));
        }
        if self.ticket > MAX_NUMBER {
            let Out {
                messages: _,
                replies,
            } = self.stop_by(Cause::LastTicket);
            return Err(Refused {
                token,
                refusal: Refusal::Stopped,
                replies,
            });
        }
        let ticket = self.ticket;
        let Ok(messages) = self.send(Some(self.place.head()), Message::Submit { ticket, write })
        else {
            return Err(self.refused(token, Refusal::Memory));
        };
        let epoch = self.place.epoch().number();
        match self.desk.push_write(token, ticket, epoch) {
            Ok(()) => {
                self.ticket += 1;
                self.found = None;
                Ok(Out {
                    messages,
                    replies: Vec::new(self.alloc),
                })
            }
            Err(token) => Err(self.refused(token, Refusal::Memory)),
        }
    }

    /// Takes a FLUSH, which waits for the first front that is looked up behind it.
    ///
    /// 154 `Stopped`, 151 `NotMember`, 100 `Memory`: the token comes back, and nothing changed.
    pub fn flush(&mut self, token: OwedFlush) -> Result<Out, Refused<OwedFlush>>
        requires { token.board ≡ self.old.state.board }
        ensures away { OnOk result (turned_away self.old.state ≡ None) }
        ensures waits { IfOk result (λ out. IsStep self.old self.new out (flush token self.old.state)) }
        ensures back { IfErr result (λ r. r.token ≡ token) }
        ensures refused { IfErr result (λ r. IsRefusedBy ⊥ (flush token self.old.state) self.old self.new r.replies.items r.refusal) }
    {
        if let Some(refusal) = self.turned_away() {
            return Err(self.refused(token, refusal));
        }
        match self.desk.push_flush(token) {
            Ok(()) => {
                self.found = None;
                Ok(self.nothing())
            }
            Err(token) => Err(self.refused(token, Refusal::Memory)),
        }
    }

    /// Why a request isn't taken here: the member has stopped, or its slot isn't in the chain.
    pub(crate) fn turned_away(&self) -> Option<Refusal>
        ensures { option_map number_of result ≡ turned_away self.now.state }
    {
        if self.stopped.is_some() {
            Some(Refusal::Stopped)
        } else if !self.place.is_member() {
            Some(Refusal::NotMember)
        } else {
            None
        }
    }

    /// The token, with no replies.
    pub(crate) fn refused<T>(&self, token: T, refusal: Refusal) -> Refused<T>
        ensures token { result.token ≡ token }
        ensures refusal { result.refusal ≡ refusal }
        ensures replies { result.replies.items ≡ [] }
    {
        Refused {
            token,
            refusal,
            replies: Vec::new(self.alloc),
        }
    }
}
