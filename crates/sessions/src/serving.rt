//! All clients of a volume.
ghost use Rattle.std.specs.Prelude.{◌≡◌, IfSome};
ghost use Rattle.sockets.specs.Refusal.{number_of};

use crate::seating::{Seated, Seating};
use crate::{Limits, attend};
use export::Volume;
use flush_barrier::SessionId;
use log::{Log, info};
use sockets::{Connection, Listeners, Refusal};
use std::alloc::{AllocError, Global};
use std::io;
use std::sync::{Mutex, Wait};
use std::thread::{self, Scope, Threads};

/// The clients of a volume: where they come in, what a session takes, and how many are served.
#[derive(Drop)]
pub struct Clients {
    listeners: Listeners,
    limits: Limits,
    sessions: u64,
    seating: Seating,
    refusal: Mutex<Option<io::Error>>,
}

impl Clients {
    /// Those who come in there. So many sessions are served; 0 is for ever.
    pub fn new(
        alloc: Global,
        listeners: Listeners,
        limits: Limits,
        sessions: u64,
    ) -> Result<Clients, AllocError> {
        Ok(Clients {
            listeners,
            limits,
            sessions,
            seating: Seating::new(alloc)?,
            refusal: Mutex::new(None),
        })
    }

    /// Serves the clients that come in, each at a member: the members that run take turns. At most `SEATS` are served at once; another comes
    /// in once one of them has ended. It ends after so many sessions as are wanted, or once `close` was called, or the system refuses a
    /// client; then those that are there are served to their ends.
    pub fn serve<R: Threads + Wait + Log + Sync, V: Volume + Sync>(
        &self,
        rt: &R,
        alloc: Global,
        volume: &V,
    ) {
        thread::scope(thread::scope_env(), rt, |scope| {
            accept_all(scope, rt, alloc, volume, self);
        });
    }

    /// Nobody comes in any more, and those who are served are hung up.
    pub fn close<R: Wait>(&self, rt: &R) {
        self.seating.close(rt);
        self.listeners.close(rt);
    }

    /// Why no more clients came in: 302 `ListenFault` where the system refused one.
    pub fn into_refusal(self) -> Option<Refusal>
        ensures { IfSome result (λ e. number_of e ≡ 302) }
    {
        match self.refusal.into_inner() {
            Some(reason) => Some(Refusal::ListenFault(reason)),
            None => None,
        }
    }

    /// Whether as many have come as are served.
    fn are_enough(&self, count: u64) -> bool {
        self.sessions != 0 && count >= self.sessions
    }

    /// The next client, but where none comes any more.
    fn next<R: Wait>(&self, rt: &R, count: u64) -> Option<Connection> {
        match self.listeners.accept(rt, count) {
            Ok(connection) => Some(connection),
            Err(reason) => {
                if !self.seating.is_closed(rt) {
                    *self.refusal.lock(rt) = Some(reason);
                }
                None
            }
        }
    }
}

/// Takes a seat for each session, and then its client, whom a thread of its own serves.
fn accept_all<'s, E, R: Threads + Wait + Log + Sync, V: Volume + Sync>(
    scope: &Scope<'s, E>,
    rt: &'s R,
    alloc: Global,
    volume: &'s V,
    clients: &'s Clients,
) {
    let mut count: u64 = 0;
    for _ in rt.forever() {
        if clients.are_enough(count) {
            break;
        }
        let id = clients.seating.take(rt);
        let Some(connection) = clients.next(rt, count) else {
            clients.seating.give_back(rt, id);
            break;
        };
        let visit = Visit {
            count,
            id,
            connection,
        };
        if !start(scope, rt, alloc, volume, clients, visit) {
            info!(rt; "session {count} was refused: the system gives no thread");
            clients.seating.give_back(rt, id);
        }
        count = count.wrapping_add(1);
    }
}

/// Serves a client in a thread of its own. False where the system gives none: then the connection is closed.
fn start<'s, E, R: Threads + Wait + Log + Sync, V: Volume + Sync>(
    scope: &Scope<'s, E>,
    rt: &'s R,
    alloc: Global,
    volume: &'s V,
    clients: &'s Clients,
    visit: Visit,
) -> bool {
    scope
        .spawn(move || serve(rt, alloc, volume, clients, visit))
        .is_ok()
}

/// A client that came in: how many came before, and as which session it is served.
#[derive(Drop)]
struct Visit {
    count: u64,
    id: SessionId,
    connection: Connection,
}

/// Serves a client to the end, and gives its seat back.
fn serve<R: Threads + Wait + Log + Sync, V: Volume + Sync>(
    rt: &R,
    alloc: Global,
    volume: &V,
    clients: &Clients,
    visit: Visit,
) {
    let Visit {
        count,
        id,
        connection,
    } = visit;
    serve_at(rt, alloc, volume, clients, count, id, connection);
    clients.seating.give_back(rt, id);
}

/// Serves a client to the end. A connection that the system doesn't give two halves of is closed.
fn serve_at<R: Threads + Wait + Log + Sync, V: Volume + Sync>(
    rt: &R,
    alloc: Global,
    volume: &V,
    clients: &Clients,
    count: u64,
    id: SessionId,
    connection: Connection,
) {
    let (incoming, outgoing, connected) = match connection.halves() {
        Ok(halves) => halves,
        Err(reason) => {
            info!(rt; "session {count} was refused: {reason}");
            return;
        }
    };
    let mut incoming = incoming;
    let place = volume.member(rt, count);
    let slot = place.number();
    info!(rt; "session {count} begun, at slot {slot}");
    clients.seating.connect(rt, id, connected);
    let line = Seated {
        seating: &clients.seating,
        id,
    };
    let ended = attend(
        rt,
        alloc,
        volume,
        place,
        id,
        clients.limits,
        &mut incoming,
        outgoing,
        &line,
    );
    match ended {
        Ok(_) => info!(rt; "session {count} ended"),
        Err(refusal) => info!(rt; "session {count} was refused: {refusal}"),
    }
}
