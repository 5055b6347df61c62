ghost use Rattle.std.specs.Prelude.{◌≡◌};
ghost use Rattle.flush_barrier.specs.Reply.{Answers};

use crate::error_code::ErrorCode;
use crate::session_id::SessionId;
use bytes::Bytes;
use std::marker::Model;

/// The one reply to a volume request. Only a token's calls make it, and each of them uses the token up.
#[derive(Debug, Drop)]
pub struct Reply {
    session: SessionId,
    cookie: u64,
    error: Option<ErrorCode>,
    payload: Bytes,
}

impl Model for Reply {
    ghost use Rattle.flush_barrier.specs.Reply.{GivenReply};

    ghost Value = { GivenReply };

    ghost view = { λ reply. record {
      session = reply.session;
      cookie = reply.cookie;
      error = reply.error;
      payload = reply.payload;
    } };
}

impl Reply {
    /// The reply with this error or none, and these bytes.
    pub(crate) fn new(
        session: SessionId,
        cookie: u64,
        error: Option<ErrorCode>,
        payload: Bytes,
    ) -> Reply
        ensures { Answers session cookie error payload result }
    {
        Reply {
            session,
            cookie,
            error,
            payload,
        }
    }

    /// The session that the request came by.
    pub fn session(&self) -> SessionId
        ensures { result ≡ self.now.session }
    {
        self.session
    }

    /// The request's cookie.
    pub fn cookie(&self) -> u64
        ensures { result ≡ self.now.cookie }
    {
        self.cookie
    }

    /// Why the request was refused, or `None` where it was carried out.
    pub fn error(&self) -> Option<ErrorCode>
        ensures { result ≡ self.now.error }
    {
        self.error
    }

    /// The bytes read; empty with an error, and for a write or a flush.
    pub fn payload(&self) -> &[u8]
        ensures { result.now ≡ self.now.payload }
    {
        &self.payload
    }
}
