ghost use Rattle.std.specs.Prelude.{◌≡◌};
ghost use Rattle.flush_barrier.specs.Owed.{Owed};
ghost use Rattle.flush_barrier.specs.Reply.{Answers};

use crate::board_name::BoardName;
use crate::error_code::ErrorCode;
use crate::reply::Reply;
use crate::session_id::SessionId;
use bytes::Bytes;
use std::fmt;
use std::marker::Model;
use std::snapshot::Snapshot;

/// What each token owes: one reply, to a session under a cookie. It has no `Drop`: the reply is given, or the debt is
/// abandoned, once.
#[must_use]
pub(crate) struct Debt {
    session: SessionId,
    cookie: u64,
    board: Snapshot<BoardName>,
}

impl Model for Debt {
    ghost Value = { Owed };

    ghost view = { λ debt. record {
      session = debt.session;
      cookie = debt.cookie;
      board = debt.board.value;
    } };
}

impl Debt {
    /// The debt of a request that came by this session, at a member of the board's chain.
    pub(crate) fn new(board: &BoardName, session: SessionId, cookie: u64) -> Debt
        ensures { result ≡ record { session = session; cookie = cookie; board = board.now } }
    {
        Debt {
            session,
            cookie,
            board: Snapshot::of(board),
        }
    }

    /// The session that the request came by.
    pub(crate) fn session(&self) -> SessionId
        ensures { result ≡ self.now.session }
    {
        self.session
    }

    /// The request's cookie.
    pub(crate) fn cookie(&self) -> u64
        ensures { result ≡ self.now.cookie }
    {
        self.cookie
    }

    /// The one reply.
    pub(crate) fn into_reply(self, error: Option<ErrorCode>, payload: Bytes) -> Reply
        ensures { Answers self.session self.cookie error payload result }
    {
        let Debt {
            session,
            cookie,
            board: _,
        } = self;
        Reply::new(session, cookie, error, payload)
    }

    /// No reply.
    pub(crate) fn abandon(self) {
        let Debt {
            session: _,
            cookie: _,
            board: _,
        } = self;
    }
}

impl fmt::Debug for Debt {
    fn fmt<W: fmt::Write>(&self, f: &mut fmt::Formatter<W>) -> fmt::Result {
        f.debug_struct("Debt")
            .field("session", &self.session)
            .field("cookie", &self.cookie)
            .finish()
    }
}
