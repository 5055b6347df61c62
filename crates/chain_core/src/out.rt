ghost use Rattle.std.specs.Prelude.{◌≡◌};

use chain_steps::Sent;
use flush_barrier::{Reply, SessionId};
use std::marker::Model;

/// A reply that a member gave. Only a member's calls make it.
#[derive(Debug, Drop)]
pub struct Served {
    reply: Reply,
}

impl Model for Served {
    ghost use Rattle.flush_barrier.specs.Reply.{GivenReply};

    ghost Value = { GivenReply };

    ghost view = { λ served. served.reply };
}

impl Served {
    /// The reply of a member's call.
    pub(crate) fn new(reply: Reply) -> Served
        ensures { result ≡ reply }
    {
        Served { reply }
    }

    /// The session that it is for.
    pub fn session(&self) -> SessionId
        ensures { result ≡ self.now.session }
    {
        self.reply.session()
    }

    /// The reply, for its session.
    pub fn reply(self) -> Reply
        ensures { result ≡ self }
    {
        let Served { reply } = self;
        reply
    }
}

/// What a step sends, and whom it answers, both in order.
#[derive(Debug, Drop)]
pub struct Out {
    pub messages: Vec<Sent>,
    pub replies: Vec<Served>,
}

impl Model for Out {
    ghost use Rattle.chain_steps.specs.Node.{Out as Sends};

    ghost Value = { Sends };

    ghost view = { λ out. record { messages = out.messages.items; replies = out.replies.items } };
}
