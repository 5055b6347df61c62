use std::sync::{Condvar, Mutex, Wait};

/// How often a bell has rung, and whether it is closed.
#[derive(Drop)]
struct Rings {
    count: u64,
    closed: bool,
}

/// Wakes the threads that wait for a change. A thread remembers the count, looks whether there is something to do, and waits past that
/// count where there isn't: so no change is missed.
#[derive(Drop)]
pub struct Bell {
    rings: Mutex<Rings>,
    rung: Condvar,
}

impl Bell {
    /// A bell that hasn't rung.
    pub fn new() -> Bell {
        Bell {
            rings: Mutex::new(Rings {
                count: 0,
                closed: false,
            }),
            rung: Condvar::new(),
        }
    }

    /// Tells of a change.
    pub fn ring<R: Wait>(&self, rt: &R) {
        let mut rings = self.rings.lock(rt);
        rings.count = rings.count.wrapping_add(1);
        self.rung.notify_all();
    }

    /// Tells that nothing changes any more: nobody waits from now on.
    pub fn close<R: Wait>(&self, rt: &R) {
        let mut rings = self.rings.lock(rt);
        rings.closed = true;
        self.rung.notify_all();
    }

    /// Whether it is closed.
    pub fn is_closed<R: Wait>(&self, rt: &R) -> bool {
        self.rings.lock(rt).closed
    }

    /// What a thread remembers before it looks.
    pub fn count<R: Wait>(&self, rt: &R) -> u64 {
        self.rings.lock(rt).count
    }

    /// Waits until it has rung since that count, or is closed. Whether it is closed.
    pub fn wait_past<R: Wait>(&self, rt: &R, count: u64) -> bool {
        let rings = self.rung.wait_while(rt, self.rings.lock(rt), |rings| {
            rings.count == count && !rings.closed
        });
        rings.closed
    }
}
