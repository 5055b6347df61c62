ghost use Rattle.std.specs.Prelude.{◌≡◌, ◌≤◌, ◌↔◌, [], Some, None, IsNone, IsSomeAnd, IsTrue};
ghost use Rattle.flush_barrier.specs.Owed.{OwedAt};
ghost use Rattle.flush_barrier.specs.Reply.{Answers};

use crate::board_name::BoardName;
use crate::debt::Debt;
use crate::error_code::ErrorCode;
use crate::reply::Reply;
use crate::session_id::SessionId;
use board::Floor;
use bytes::Bytes;
use std::alloc::Global;
use std::marker::Model;

/// The reply that is owed to a WRITE with FUA. It has no `Drop`: it is settled, refused or abandoned, once.
#[must_use]
#[derive(Debug)]
pub struct OwedFua {
    debt: Debt,
    number: Option<u64>,
}

impl Model for OwedFua {
    ghost Value = { OwedAt };

    ghost view = { λ token. record {
      session = token.debt.session;
      cookie = token.debt.cookie;
      board = token.debt.board;
      number = token.number;
    } };
}

impl OwedFua {
    /// The token of a WRITE with FUA that came by this session, at a member of the board's chain.
    pub fn new(board: &BoardName, session: SessionId, cookie: u64) -> OwedFua
        ensures session { result.session ≡ session }
        ensures cookie { result.cookie ≡ cookie }
        ensures board { result.board ≡ board.now }
        ensures number { result.number ≡ None }
    {
        OwedFua {
            debt: Debt::new(board, session, cookie),
            number: None,
        }
    }

    /// The session that the request came by.
    pub fn session(&self) -> SessionId
        ensures { result ≡ self.now.session }
    {
        self.debt.session()
    }

    /// The request's cookie.
    pub fn cookie(&self) -> u64
        ensures { result ≡ self.now.cookie }
    {
        self.debt.cookie()
    }

    /// Binds the token to the number of its write, once.
    pub fn number(&mut self, n: u64)
        requires { IsNone self.old.number }
        ensures { self.new ≡ record self.old { number = Some n } }
    {
        self.number = Some(n);
    }

    /// The number that the floor has to reach, if it is known yet.
    pub fn numbered(&self) -> Option<u64>
        ensures { result ≡ self.now.number }
    {
        self.number
    }

    /// Whether the number is known and the floor reaches it, so that the token may be settled by it, where it is a floor of
    /// the token's board.
    pub fn is_paid_by(&self, floor: &Floor) -> bool
        ensures { IsTrue result ↔ IsSomeAnd self.now.number (λ n. n ≤ floor.now.front) }
    {
        self.numbered().is_some_and(|n| n <= floor.front())
    }

    /// The reply that the write is on every disk that counts.
    pub fn settle(self, _alloc: Global, floor: &Floor) -> Reply
        requires of_board { floor.now.board ≡ self.board }
        requires paid { IsSomeAnd self.number (λ n. n ≤ floor.now.front) }
        ensures { Answers self.session self.cookie None [] result }
    {
        let _by = floor;
        self.into_debt().into_reply(None, Bytes::new())
    }

    /// The reply that refuses the request.
    pub fn refuse(self, _alloc: Global, code: ErrorCode) -> Reply
        ensures { Answers self.session self.cookie (Some code) [] result }
    {
        self.into_debt().into_reply(Some(code), Bytes::new())
    }

    /// Ends the token without a reply, since its session is gone.
    pub fn abandon(self) {
        self.into_debt().abandon();
    }

    /// What the token owes, whatever its number.
    fn into_debt(self) -> Debt
        ensures { result ≡ record { session = self.session; cookie = self.cookie; board = self.board } }
    {
        let OwedFua { debt, number: _ } = self;
        debt
    }
}
