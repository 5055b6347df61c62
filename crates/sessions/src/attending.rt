//! A connection, from its greeting to its end.
ghost use Rattle.std.specs.Prelude.{◌≡◌, [], IfOk};
ghost use Rattle.sessions.specs.Talk.{IsLawfulOutput};

use crate::attended::Attended;
use crate::{Refusal, Talk};
use export::Volume;
use flush_barrier::SessionId;
use gate_journal::Slot as Place;
use sockets::{Incoming, Outgoing};
use std::alloc::Global;
use std::sync::Wait;
use std::thread::{self, Threads};

/// How many bytes are read at once.
const PIECE: usize = 65_536;

/// What a session takes.
#[derive(Clone, Copy, Debug, PartialEq, Eq)]
pub struct Limits {
    /// The longest payload, in bytes.
    pub max_payload: u32,
    /// The bytes of a journal area, in which each WRITE_ZEROES has to fit.
    pub area: u32,
}

/// What ends a connection.
pub trait HangsUp {
    /// Nothing more comes in or goes out, and a thread that waits for the client wakes.
    fn hang_up<R: Wait>(&self, rt: &R);
}

/// Serves a client to the end, at a member of the volume's chain: in this thread, which reads, and in one more, which hands out the replies
/// that come later. The connection is hung up then. The half that took the output is given back.
///
/// 100 `Memory`: the session didn't begin.
pub fn attend<
    R: Threads + Wait + Sync,
    V: Volume + Sync,
    I: Incoming,
    O: Outgoing + Drop + Send,
    H: HangsUp + Sync,
>(
    rt: &R,
    alloc: Global,
    volume: &V,
    place: Place,
    id: SessionId,
    limits: Limits,
    incoming: &mut I,
    outgoing: O,
    hang_up: &H,
) -> Result<O, Refusal>
    requires { O.took outgoing ≡ [] }
    ensures { IfOk result (λ outgoing. IsLawfulOutput V.size (O.took outgoing)) }
{
    let Limits { max_payload, area } = limits;
    let mut buffer = vec![in alloc; 0; PIECE]?;
    let mut talk = Talk::new(alloc, volume, id, max_payload, area, outgoing)?;
    let mailbox = volume.mail().of(id);
    mailbox.hold(rt, alloc, Some(id));
    // Where the greeting can't go out, the session has ended.
    let _ = talk.put_out();
    let attended = Attended::new(alloc, volume, place, talk);
    play(rt, &attended, incoming, &mut buffer, hang_up);
    mailbox.hold(rt, alloc, None);
    Ok(attended.end())
}

/// Plays the session to its end, in both threads. Where the system gives no second one, the session is given up.
fn play<
    R: Threads + Wait + Sync,
    V: Volume + Sync,
    I: Incoming,
    O: Outgoing + Drop + Send,
    H: HangsUp + Sync,
>(rt: &R, attended: &Attended<V, O>, incoming: &mut I, buffer: &mut Vec<u8>, hang_up: &H) {
    thread::scope(thread::scope_env(), rt, |scope| {
        if scope.spawn(move || reply(rt, attended, hang_up)).is_ok() {
            attended.read_all(rt, incoming, buffer);
        } else {
            attended.give_up(rt);
            hang_up.hang_up(rt);
        }
    });
}

/// Hands out replies until the session is closed, and hangs up: so a reading thread that waits for the client wakes.
fn reply<R: Wait, V: Volume, O: Outgoing, H: HangsUp>(
    rt: &R,
    attended: &Attended<V, O>,
    hang_up: &H,
) {
    attended.reply_all(rt);
    hang_up.hang_up(rt);
}
