ghost use Rattle.std.specs.Prelude.{◌≡◌, ◌≢◌, ◌++◌, ◌∷◌, ◌↔◌, [], All, IfOk, IsTrue, None, OnErr, OnOk, Some, false, true};
ghost use Rattle.mail.specs.Letters.{Held};

use chain_core::Served;
use flush_barrier::SessionId;
use std::alloc::{AllocError, Global};
use std::marker::Model;
use std::mem;

/// The replies that wait for the session that holds a mailbox: none for any other.
#[derive(Drop)]
pub struct Letters {
    holder: Option<SessionId>,
    replies: Vec<Served>,
    // a reply to the holder found no memory
    lost: bool,
    // a thread of the holder's is at it, and looks itself before it leaves
    attended: bool,
}

impl Model for Letters {
    ghost Value = { Held };

    ghost view = { λ letters. record { holder = letters.holder; replies = letters.replies.items; lost = letters.lost; attended = letters.attended } };

    ghost invariant = { λ letters. All (λ reply. letters.holder ≡ Some reply.session) letters.replies.items };
}

impl Letters {
    /// Nobody holds the box.
    pub fn new(alloc: Global) -> Letters
        ensures { result ≡ record { holder = None; replies = []; lost = false; attended = false } }
    {
        Letters {
            holder: None,
            replies: Vec::new(alloc),
            lost: false,
            attended: false,
        }
    }

    /// A session holds the box from now on, or nobody. What waited for another is let go.
    pub fn hold(&mut self, alloc: Global, holder: Option<SessionId>)
        ensures { self.new ≡ record { holder = holder; replies = []; lost = false; attended = false } }
    {
        *self = Letters {
            holder,
            ..Letters::new(alloc)
        };
    }

    /// Puts a reply behind the others: whether the holder is to be woken, which it isn't while one of its threads attends. A reply to
    /// another session than the holder is let go. Where there is no memory for it, the reply is lost, which the holder can ask.
    pub fn put(&mut self, served: Served) -> Result<bool, AllocError>
        ensures own { self.old.holder ≡ Some served.session → IfOk result (λ wakes. (IsTrue wakes ↔ (self.old.attended ≡ false)) × (self.new ≡ record self.old { replies = self.old.replies ++ served ∷ [] })) }
        ensures strange { self.old.holder ≢ Some served.session → IfOk result (λ wakes. (wakes ≡ false) × (self.new ≡ self.old)) }
        ensures lost { OnErr result ((self.new ≡ record self.old { lost = true }) × (self.old.holder ≡ Some served.session)) }
    {
        if self.holder != Some(served.session()) {
            return Ok(false);
        }
        if self.replies.push(served).is_err() {
            self.lost = true;
            return Err(AllocError);
        }
        Ok(!self.attended)
    }

    /// A thread of this session attends from now on, if the session holds the box.
    pub fn attend(&mut self, session: SessionId)
        ensures own { self.old.holder ≡ Some session → self.new ≡ record self.old { attended = true } }
        ensures strange { self.old.holder ≢ Some session → self.new ≡ self.old }
    {
        self.attended = self.attended || self.is_held_by(session);
    }

    /// Takes out all that waits, the oldest first, if this session holds the box.
    pub fn take(&mut self, alloc: Global, session: SessionId) -> Vec<Served>
        ensures own { self.old.holder ≡ Some session → (result.items ≡ self.old.replies) × (self.new ≡ record self.old { replies = [] }) }
        ensures strange { self.old.holder ≢ Some session → (result.items ≡ []) × (self.new ≡ self.old) }
        ensures session { All (λ reply. reply.session ≡ session) result.items }
    {
        if !self.is_held_by(session) {
            return Vec::new(alloc);
        }
        mem::replace(&mut self.replies, Vec::new(alloc))
    }

    /// The same for the thread that attends: where nothing waits, it attends no longer.
    pub fn take_or_leave(&mut self, alloc: Global, session: SessionId) -> Vec<Served>
        ensures stays { self.old.holder ≡ Some session → self.old.replies ≢ [] → (result.items ≡ self.old.replies) × (self.new ≡ record self.old { replies = [] }) }
        ensures leaves { self.old.holder ≡ Some session → self.old.replies ≡ [] → (result.items ≡ []) × (self.new ≡ record self.old { attended = false }) }
        ensures strange { self.old.holder ≢ Some session → (result.items ≡ []) × (self.new ≡ self.old) }
        ensures session { All (λ reply. reply.session ≡ session) result.items }
    {
        if self.is_held_by(session) && self.replies.is_empty() {
            self.attended = false;
        }
        self.take(alloc, session)
    }

    /// Whether the session holds the box, and no reply to it was lost.
    pub fn has_all(&self, session: SessionId) -> bool
        ensures { IsTrue result ↔ ((self.now.holder ≡ Some session) × (self.now.lost ≡ false)) }
    {
        self.is_held_by(session) && !self.lost
    }

    /// Whether the session holds the box.
    fn is_held_by(&self, session: SessionId) -> bool
        ensures { IsTrue result ↔ (self.now.holder ≡ Some session) }
    {
        self.holder == Some(session)
    }
}
