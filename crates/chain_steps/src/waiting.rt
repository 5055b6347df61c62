ghost use Rattle.std.specs.Prelude.{◌≡◌, true, Some, None};
ghost use Rattle.chain_steps.specs.declared.waiting.Waiting.TheVariants.{Read};

use crate::asked::AskedRead;
use board::{Floor, Front};
use flush_barrier::{ErrorCode, OwedFlush, OwedFua, OwedRead, OwedWrite, Reply};
use std::alloc::Global;

/// The token of a write. It has no `Drop`.
#[must_use]
#[derive(Debug)]
pub enum WriteToken {
    /// It is answered once the write is committed.
    Plain(OwedWrite),
    /// It is answered once every counted disk holds the write.
    Fua(OwedFua),
}

impl WriteToken {
    ghost use Rattle.chain_steps.specs.Waiting.{reply_to, waits_for};

    /// The reply that refuses the write.
    pub fn refuse(self, alloc: Global, code: ErrorCode) -> Reply
        ensures { result ≡ reply_to (Some code) (waits_for 0 0 self) }
    {
        match self {
            WriteToken::Plain(token) => token.refuse(alloc, code),
            WriteToken::Fua(token) => token.refuse(alloc, code),
        }
    }

    /// Ends the token without a reply.
    pub fn abandon(self) {
        match self {
            WriteToken::Plain(token) => token.abandon(),
            WriteToken::Fua(token) => token.abandon(),
        }
    }
}

/// Which tokens are answered, with no error.
#[derive(Clone, Copy)]
pub enum Due<'a> {
    /// The writes without FUA with a number up to the known commit.
    Committed(u64),
    /// The writes with FUA that the floor reaches.
    Writes(&'a Floor),
    /// The FLUSHes that the floor reaches.
    Flushes(&'a Floor),
}

/// A token that waits at its member. It has no `Drop`.
#[must_use]
#[derive(Debug)]
pub enum Waiting {
    /// A write without FUA, under the ticket and in the epoch of its Submit, with its number once that is known.
    Plain {
        ticket: u64,
        epoch: u64,
        number: Option<u64>,
        token: OwedWrite,
    },
    /// A write with FUA, under the ticket and in the epoch of its Submit. The token has its number once that is known.
    Fua {
        ticket: u64,
        epoch: u64,
        token: OwedFua,
    },
    /// A READ of `length` bytes from `offset` on, which waits for a front.
    Read {
        offset: u64,
        length: u32,
        token: OwedRead,
    },
    /// A FLUSH. The token has its number once it is bound to a front.
    Flush {
        token: OwedFlush,
    },
}

impl Waiting {
    ghost use Rattle.chain_steps.specs.Waiting.{IsOf, IsOfDue, asks_floor, asks_front, bound, is_due, is_outdated, is_read, learned, reply_to, waits_for};

    /// The token of a write that was submitted under this ticket, in this epoch.
    pub(crate) fn submitted(token: WriteToken, ticket: u64, epoch: u64) -> Waiting
        ensures { result ≡ waits_for ticket epoch token }
    {
        match token {
            WriteToken::Plain(token) => Waiting::Plain {
                ticket,
                epoch,
                number: None,
                token,
            },
            WriteToken::Fua(token) => Waiting::Fua {
                ticket,
                epoch,
                token,
            },
        }
    }

    /// Tells the token of the write under this ticket its number, which it learns once. Another token learns nothing.
    pub(crate) fn learn(&mut self, under: u64, n: u64)
        ensures { self.new ≡ learned under n self.old }
    {
        match self {
            Waiting::Plain { ticket, number, .. } => {
                if *ticket == under && number.is_none() {
                    *number = Some(n);
                }
            }
            Waiting::Fua { ticket, token, .. } => {
                if *ticket == under && token.numbered().is_none() {
                    token.number(n);
                }
            }
            Waiting::Read { .. } | Waiting::Flush { .. } => {}
        }
    }

    /// Binds a FLUSH to the front, unless it is bound already. Another token stays as it is.
    pub(crate) fn bind(&mut self, front: &Front)
        requires { IsOf front.now.board self.old }
        ensures { self.new ≡ bound front.now.number self.old }
    {
        if let Waiting::Flush { token } = self
            && token.numbered().is_none()
        {
            token.bind(front);
        }
    }

    /// Whether it is answered now.
    pub(crate) fn is_due(&self, due: &Due) -> bool
        ensures { result ≡ is_due due.now self.now }
    {
        match (due, self) {
            (
                Due::Committed(known),
                Waiting::Plain {
                    number: Some(n),
                    ..
                },
            ) => n <= known,
            (Due::Writes(floor), Waiting::Fua { token, .. }) => token.is_paid_by(floor),
            (Due::Flushes(floor), Waiting::Flush { token }) => token.is_paid_by(floor),
            _ => false,
        }
    }

    /// Whether it is a write that has no number yet, and was submitted in an older epoch than this one.
    pub(crate) fn is_outdated(&self, now: u64) -> bool
        ensures { result ≡ is_outdated now self.now }
    {
        match self {
            Waiting::Plain { epoch, number, .. } => number.is_none() && *epoch < now,
            Waiting::Fua { epoch, token, .. } => token.numbered().is_none() && *epoch < now,
            Waiting::Read { .. } | Waiting::Flush { .. } => false,
        }
    }

    /// Whether it is a READ.
    pub(crate) fn is_read(&self) -> bool
        ensures { result ≡ is_read self.now }
    {
        matches!(self, Waiting::Read { .. })
    }

    /// Whether it waits for a front to be looked up.
    pub(crate) fn asks_front(&self) -> bool
        ensures { result ≡ asks_front self.now }
    {
        match self {
            Waiting::Read { .. } => true,
            Waiting::Flush { token } => token.numbered().is_none(),
            Waiting::Plain { .. } | Waiting::Fua { .. } => false,
        }
    }

    /// Whether it waits for a floor.
    pub(crate) fn asks_floor(&self) -> bool
        ensures { result ≡ asks_floor self.now }
    {
        match self {
            Waiting::Fua { token, .. } => token.numbered().is_some(),
            Waiting::Flush { token } => token.numbered().is_some(),
            Waiting::Plain { .. } | Waiting::Read { .. } => false,
        }
    }

    /// The reply that what was asked is done.
    pub(crate) fn settle(self, alloc: Global, due: &Due) -> Reply
        requires of_board { IsOfDue due.now self }
        requires due { is_due due.now self ≡ true }
        ensures { result ≡ reply_to None self }
    {
        match (due, self) {
            (
                Due::Committed(_),
                Waiting::Plain {
                    ticket: _,
                    epoch: _,
                    number: _,
                    token,
                },
            ) => token.settle(alloc),
            (
                Due::Writes(floor),
                Waiting::Fua {
                    ticket: _,
                    epoch: _,
                    token,
                },
            ) => token.settle(alloc, floor),
            (Due::Flushes(floor), Waiting::Flush { token }) => token.settle(alloc, floor),
            (_, other) => {
                other.abandon();
                unreachable!()
            }
        }
    }

    /// The reply that refuses the request.
    pub(crate) fn refuse(self, alloc: Global, code: ErrorCode) -> Reply
        ensures { result ≡ reply_to (Some code) self }
    {
        match self {
            Waiting::Plain {
                ticket: _,
                epoch: _,
                number: _,
                token,
            } => token.refuse(alloc, code),
            Waiting::Fua {
                ticket: _,
                epoch: _,
                token,
            } => token.refuse(alloc, code),
            Waiting::Read {
                offset: _,
                length: _,
                token,
            } => token.refuse(alloc, code),
            Waiting::Flush { token } => token.refuse(alloc, code),
        }
    }

    /// The READ and its token.
    pub(crate) fn into_read(self) -> AskedRead
        requires { is_read self ≡ true }
        ensures { Read result.offset result.length result.token ≡ self }
    {
        match self {
            Waiting::Read {
                offset,
                length,
                token,
            } => AskedRead {
                offset,
                length,
                token,
            },
            other => {
                other.abandon();
                unreachable!()
            }
        }
    }

    /// Ends the token without a reply.
    pub(crate) fn abandon(self) {
        match self {
            Waiting::Plain {
                ticket: _,
                epoch: _,
                number: _,
                token,
            } => token.abandon(),
            Waiting::Fua {
                ticket: _,
                epoch: _,
                token,
            } => token.abandon(),
            Waiting::Read {
                offset: _,
                length: _,
                token,
            } => token.abandon(),
            Waiting::Flush { token } => token.abandon(),
        }
    }
}
