//! What is asked of a chain's manager while the chain is served.
ghost use Rattle.std.specs.Prelude.{◌≡◌, ◌≢◌, ◌<◌, ◌↔◌, ℕ, IfNone, IfSome, IsTrue};
ghost use Rattle.serving.specs.Control.{order_for};

use cluster::Crew;
use gate_journal::Slot;
use log::{Log, info};
use sockets::{Connection, Incoming, Listeners, Outgoing};
use std::alloc::Global;
use std::io;
use std::sync::{Mutex, Wait};
use std::time::Duration;

/// The milliseconds that somebody who asks may take.
const PATIENCE: u64 = 1_000;

/// The most bytes of an order.
const ORDER: usize = 16;

/// What is asked for: which slots are to join. Whoever connects to its socket, and writes a line `rejoin S`, asks for slot S, and is sent a line.
#[derive(Drop)]
pub struct Control {
    listeners: Option<Listeners>,
    wanted: Mutex<[bool; 8]>,
}

impl Control {
    /// Nothing is asked for yet; whoever asks comes in there, if anywhere.
    pub fn new(listeners: Option<Listeners>) -> Control {
        Control {
            listeners,
            wanted: Mutex::new([false; 8]),
        }
    }

    /// A slot that was asked for, and wasn't taken yet.
    pub fn take<R: Wait>(&self, rt: &R) -> Option<Slot> {
        let mut wanted = self.wanted.lock(rt);
        let wanted = &mut *wanted;
        for number in 0..Slot::COUNT {
            if wanted[usize::from(number)] {
                wanted[usize::from(number)] = false;
                return Slot::new(number);
            }
        }
        None
    }

    /// Nobody asks any more: whoever waits for an order wakes.
    pub(crate) fn close<R: Wait>(&self, rt: &R) {
        if let Some(listeners) = &self.listeners {
            listeners.close(rt);
        }
    }

    /// Takes orders, and wakes the chain's manager for each, until it is closed.
    pub(crate) fn serve<R: Wait + Log, W: Crew>(&self, rt: &R, alloc: Global, chain: &W) {
        let Some(listeners) = &self.listeners else {
            return;
        };
        let mut count: u64 = 0;
        for _ in rt.forever() {
            let Ok(connection) = listeners.accept(rt, count) else {
                break;
            };
            if let Err(reason) = self.hear(rt, chain, connection) {
                info!(rt; "an order wasn't heard: {reason}");
            }
            count = count.wrapping_add(1);
        }
    }

    /// Hears an order, and answers it.
    fn hear<R: Wait, W: Crew>(&self, rt: &R, chain: &W, connection: Connection) -> io::Result<()> {
        connection.wait_at_most(Duration::from_millis(PATIENCE))?;
        let (mut incoming, mut outgoing, _) = connection.halves()?;
        let mut buffer = [0; ORDER];
        let count = incoming.read_piece(&mut buffer)?;
        match slot_in(&buffer[..count]) {
            Some(slot) => {
                self.want(rt, slot);
                chain.wake_manager(rt);
                outgoing.write_piece(b"asked\n")
            }
            None => outgoing.write_piece(b"no order\n"),
        }
    }

    /// A slot is asked for.
    fn want<R: Wait>(&self, rt: &R, slot: Slot) {
        let mut wanted = self.wanted.lock(rt);
        let wanted = &mut *wanted;
        wanted[usize::from(slot.number())] = true;
    }
}

/// The slot that an order asks for. None where it is no order.
pub fn slot_in(order: &[u8]) -> Option<Slot>
    ensures asked { IfSome result (λ slot. order.now ≡ order_for slot) }
    ensures none { IfNone result ((slot : ℕ) → slot < 8 → order.now ≢ order_for slot) }
{
    for number in 0..Slot::COUNT {
        if is_for(order, number) {
            return Slot::new(number);
        }
    }
    None
}

/// Whether an order asks for this slot.
fn is_for(order: &[u8], number: u8) -> bool
    requires { number < 8 }
    ensures { IsTrue result ↔ (order.now ≡ order_for number) }
{
    let wanted = [
        b'r',
        b'e',
        b'j',
        b'o',
        b'i',
        b'n',
        b' ',
        b'0' + number,
        b'\n',
    ];
    order == wanted.as_slice()
}
