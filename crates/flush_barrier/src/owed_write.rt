ghost use Rattle.std.specs.Prelude.{◌≡◌, [], Some, None};
ghost use Rattle.flush_barrier.specs.Owed.{Owed};
ghost use Rattle.flush_barrier.specs.Reply.{Answers};

use crate::board_name::BoardName;
use crate::debt::Debt;
use crate::error_code::ErrorCode;
use crate::reply::Reply;
use crate::session_id::SessionId;
use bytes::Bytes;
use std::alloc::Global;
use std::marker::Model;

/// The reply that is owed to a WRITE without FUA. It has no `Drop`: it is settled, refused or abandoned, once.
#[must_use]
#[derive(Debug)]
pub struct OwedWrite {
    debt: Debt,
}

impl Model for OwedWrite {
    ghost Value = { Owed };

    ghost view = { λ token. token.debt };
}

impl OwedWrite {
    /// The token of a WRITE without FUA that came by this session, at a member of the board's chain.
    pub fn new(board: &BoardName, session: SessionId, cookie: u64) -> OwedWrite
        ensures session { result.session ≡ session }
        ensures cookie { result.cookie ≡ cookie }
        ensures board { result.board ≡ board.now }
    {
        OwedWrite {
            debt: Debt::new(board, session, cookie),
        }
    }

    /// The session that the request came by.
    pub fn session(&self) -> SessionId
        ensures { result ≡ self.now.session }
    {
        self.debt.session()
    }

    /// The request's cookie.
    pub fn cookie(&self) -> u64
        ensures { result ≡ self.now.cookie }
    {
        self.debt.cookie()
    }

    /// The reply that the write is committed.
    pub fn settle(self, _alloc: Global) -> Reply
        ensures { Answers self.session self.cookie None [] result }
    {
        self.into_debt().into_reply(None, Bytes::new())
    }

    /// The reply that refuses the request.
    pub fn refuse(self, _alloc: Global, code: ErrorCode) -> Reply
        ensures { Answers self.session self.cookie (Some code) [] result }
    {
        self.into_debt().into_reply(Some(code), Bytes::new())
    }

    /// Ends the token without a reply, since its session is gone.
    pub fn abandon(self) {
        self.into_debt().abandon();
    }

    /// What the token owes.
    fn into_debt(self) -> Debt
        ensures { result ≡ self }
    {
        let OwedWrite { debt } = self;
        debt
    }
}
