ghost use Rattle.std.specs.Prelude.{◌≡◌, All};

use crate::{Bell, Letters};
use chain_core::Served;
use flush_barrier::SessionId;
use std::alloc::Global;
use std::sync::{Mutex, Wait};

/// Where replies wait for one session at a time, with a bell of its own.
#[derive(Drop)]
pub struct Mailbox {
    letters: Mutex<Letters>,
    bell: Bell,
}

impl Mailbox {
    /// A box that nobody holds.
    pub fn new(alloc: Global) -> Mailbox {
        Mailbox {
            letters: Mutex::new(Letters::new(alloc)),
            bell: Bell::new(),
        }
    }

    /// Rings as a reply comes that no thread attends to, or is lost.
    pub fn bell(&self) -> &Bell {
        &self.bell
    }

    /// A session holds the box from now on, or nobody; what waited for another is let go.
    pub fn hold<R: Wait>(&self, rt: &R, alloc: Global, holder: Option<SessionId>) {
        self.letters.lock(rt).hold(alloc, holder);
    }

    /// Puts a reply in, if it is for the holder, and rings, unless a thread of the holder's attends. Where there is no memory for it, the
    /// reply is lost: `has_all` is false from then on, and the session is to be ended.
    pub fn put<R: Wait>(&self, rt: &R, served: Served) {
        let put = self.letters.lock(rt).put(served);
        if put.unwrap_or(true) {
            self.bell.ring(rt);
        }
    }

    /// A thread of the session's attends from now on: it wants no bell, and takes what comes by `take_or_leave`.
    pub fn attend<R: Wait>(&self, rt: &R, session: SessionId) {
        self.letters.lock(rt).attend(session);
    }

    /// Takes out all that waits for the session, the oldest first; it doesn't wait for more.
    pub fn take<R: Wait>(&self, rt: &R, alloc: Global, session: SessionId) -> Vec<Served>
        ensures { All (λ reply. reply.session ≡ session) result.items }
    {
        self.letters.lock(rt).take(alloc, session)
    }

    /// The same for the thread that attends. Where nothing waits, it attends no longer: the bell rings for what comes from then on.
    pub fn take_or_leave<R: Wait>(&self, rt: &R, alloc: Global, session: SessionId) -> Vec<Served>
        ensures { All (λ reply. reply.session ≡ session) result.items }
    {
        self.letters.lock(rt).take_or_leave(alloc, session)
    }

    /// Whether the session holds the box, and no reply to it was lost.
    pub fn has_all<R: Wait>(&self, rt: &R, session: SessionId) -> bool {
        self.letters.lock(rt).has_all(session)
    }
}
