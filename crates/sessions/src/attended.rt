//! What the two threads of a connection share, and what each of them does.
ghost use Rattle.std.specs.Prelude.{◌≡◌, ◌+◌, All};
ghost use Rattle.export.specs.Volume.{IsForVolume};
ghost use Rattle.sessions.specs.Talk.{IsLawfulOutput};

use crate::Talk;
use chain_core::Served;
use export::Volume;
use flush_barrier::{Reply, SessionId};
use gate_journal::Slot as Place;
use mail::{Bell, Mailbox};
use nbd_session::Demand;
use sockets::{Incoming, Outgoing};
use std::alloc::Global;
use std::sync::{Mutex, Wait};

/// A connection that is attended to, at a member of the volume's chain. Nobody holds its lock while the volume is asked, or while the client
/// is read from.
#[derive(Drop)]
pub(crate) struct Attended<'v, V: Volume, O: Outgoing> {
    alloc: Global,
    volume: &'v V,
    place: Place,
    id: SessionId,
    talk: Mutex<Talk<V, O>>,
    // the reading thread waits for it while the session takes no more input
    gate: Bell,
}

impl<'v, V: Volume, O: Outgoing> Attended<'v, V, O> {
    /// The talk, at this member.
    pub(crate) fn new(
        alloc: Global,
        volume: &'v V,
        place: Place,
        talk: Talk<V, O>,
    ) -> Attended<'v, V, O> {
        Attended {
            alloc,
            volume,
            place,
            id: talk.id(),
            talk: Mutex::new(talk),
            gate: Bell::new(),
        }
    }

    /// Reads the client's bytes and asks the volume what they ask, until the session takes no more. Then the replying thread looks whether it is
    /// closed.
    pub(crate) fn read_all<R: Wait, I: Incoming>(
        &self,
        rt: &R,
        incoming: &mut I,
        buffer: &mut [u8],
    ) {
        for _ in rt.forever() {
            if !self.may_read(rt) {
                break;
            }
            match incoming.read_piece(buffer) {
                Ok(0) | Err(_) => {
                    self.talk.lock(rt).end_of_input();
                    break;
                }
                Ok(count) => self.take_piece(rt, &buffer[..count]),
            }
        }
        self.mailbox().bell().ring(rt);
    }

    /// Takes the replies that come while nobody attends, until the session is closed, or one was lost. Then the reading thread looks whether it
    /// may go on.
    pub(crate) fn reply_all<R: Wait>(&self, rt: &R) {
        let mailbox = self.mailbox();
        for _ in rt.forever() {
            let count = mailbox.bell().count(rt);
            let replies = mailbox.take(rt, self.alloc, self.id);
            if !replies.is_empty() {
                self.take_replies(rt, replies);
            } else if self.is_closed(rt) {
                break;
            } else if !mailbox.has_all(rt, self.id) {
                self.give_up(rt);
                break;
            } else {
                mailbox.bell().wait_past(rt, count);
            }
        }
        self.gate.ring(rt);
    }

    /// The session ends.
    pub(crate) fn give_up<R: Wait>(&self, rt: &R) {
        self.talk.lock(rt).give_up();
    }

    /// Ends it: the half that took what the session put out.
    pub(crate) fn end(self) -> O
        ensures { IsLawfulOutput V.size (O.took result) }
    {
        let Attended {
            alloc: _,
            volume: _,
            place: _,
            id: _,
            talk,
            gate: _,
        } = self;
        talk.into_inner().end()
    }

    /// Where its replies come in.
    fn mailbox(&self) -> &Mailbox {
        self.volume.mail().of(self.id)
    }

    /// Whether the session has ended.
    fn is_closed<R: Wait>(&self, rt: &R) -> bool {
        self.talk.lock(rt).closed()
    }

    /// Waits until the session takes more input. False where it takes none any more.
    fn may_read<R: Wait>(&self, rt: &R) -> bool {
        for _ in rt.forever() {
            let count = self.gate.count(rt);
            let (over, wants) = self.look(rt);
            if over || wants {
                return wants;
            }
            self.gate.wait_past(rt, count);
        }
        unreachable!()
    }

    /// Whether the session takes no more input, and whether it takes more now.
    fn look<R: Wait>(&self, rt: &R) -> (bool, bool) {
        let talk = self.talk.lock(rt);
        (talk.is_over(), talk.wants())
    }

    /// Takes a piece of input, and the replies that come meanwhile.
    fn take_piece<R: Wait>(&self, rt: &R, piece: &[u8]) {
        let mailbox = self.mailbox();
        mailbox.attend(rt, self.id);
        let demands = self.talk.lock(rt).take_in(self.alloc, piece);
        self.send_all(rt, demands);
        for _ in rt.forever() {
            let replies = mailbox.take_or_leave(rt, self.alloc, self.id);
            if replies.is_empty() {
                break;
            }
            self.take_replies(rt, replies);
        }
    }

    /// Takes replies of the session, and goes on with the input that it has kept.
    fn take_replies<R: Wait>(&self, rt: &R, replies: Vec<Served>)
        requires { All (λ reply. reply.session ≡ self.now.id) replies.items }
    {
        let demands = self.hear(rt, replies);
        self.gate.ring(rt);
        self.send_all(rt, demands);
    }

    /// Answers the replies, and puts out what waits: what the session asks next.
    fn hear<R: Wait>(&self, rt: &R, replies: Vec<Served>) -> Vec<Demand>
        requires { All (λ reply. reply.session ≡ self.now.id) replies.items }
        ensures { All (IsForVolume V.board V.size) result.items }
    {
        let mut talk = self.talk.lock(rt);
        if talk.id() == self.id {
            talk.answer_all(replies);
        }
        talk.take_in(self.alloc, &[])
    }

    /// Asks the volume each of it, and what the session asks once the volume has refused some at once.
    fn send_all<R: Wait>(&self, rt: &R, demands: Vec<Demand>)
        requires { All (IsForVolume V.board V.size) demands.items }
    {
        let mut refused = self.send_each(rt, demands);
        for _ in rt.forever() {
            if !refused {
                break;
            }
            let more = self.talk.lock(rt).take_in(self.alloc, &[]);
            refused = self.send_each(rt, more);
        }
    }

    /// Asks the volume each of it, in order. Whether it refused one at once: its reply waits to go out then.
    fn send_each<R: Wait>(&self, rt: &R, demands: Vec<Demand>) -> bool
        requires { All (IsForVolume V.board V.size) demands.items }
    {
        let mut demands = demands;
        demands.reverse();
        let mut refused = false;
        while !demands.is_empty() {
            if let Some(reply) = self.volume.send(rt, self.place, &mut demands) {
                self.answer(rt, reply);
                refused = true;
            }
        }
        demands.destroy_empty();
        refused
    }

    /// A reply of the session waits to go out.
    fn answer<R: Wait>(&self, rt: &R, reply: Reply) {
        let mut talk = self.talk.lock(rt);
        if reply.session() == talk.id() {
            let _ = talk.answer(reply);
        }
    }
}
