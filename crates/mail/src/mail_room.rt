ghost use Rattle.std.specs.Prelude.{◌<◌, vec_len};

use crate::{Given, Mailbox};
use flush_barrier::SessionId;
use std::alloc::{AllocError, Global};
use std::sync::Wait;

/// The mailboxes of all sessions: each session's number says which one is its own, as long as it lasts.
#[derive(Drop)]
pub struct MailRoom {
    boxes: Vec<Mailbox>,
    ghost some: { 0 < vec_len boxes },
}

impl MailRoom {
    /// So many boxes, at least one.
    pub fn new(alloc: Global, boxes: usize) -> Result<MailRoom, AllocError>
        requires { 0 < boxes }
    {
        let mut all = Vec::new(alloc);
        all.push(Mailbox::new(alloc))?;
        for _ in 1..boxes {
            all.push(Mailbox::new(alloc))?;
        }
        Ok(MailRoom { boxes: all })
    }

    /// The box of a session. Two sessions that last at the same time have numbers that differ modulo the boxes.
    pub fn of(&self, session: SessionId) -> &Mailbox {
        let SessionId(number) = session;
        &self.boxes[number as usize % self.boxes.len()]
    }

    /// Puts each reply into the box of its session, in order.
    pub fn post<R: Wait>(&self, rt: &R, given: Given) {
        let Given { lists } = given;
        for list in lists {
            for served in list {
                self.of(served.session()).put(rt, served);
            }
        }
    }
}
