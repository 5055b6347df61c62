use crate::carriage::Carriage;
use crate::seated::Seated;
use disk_model::HalvedDisk;
use mail::Bell;
use member::Agreed;
use std::alloc::Global;
use std::mem;
use std::sync::{Mutex, Wait};

/// A slot of the chain: its member, if there is one, behind its lock. It has no `Drop`, since a member hasn't.
pub(crate) struct Slot<D: HalvedDisk + Drop, J: Agreed> {
    pub(crate) seated: Mutex<Option<Seated<D, J>>>,
    pub(crate) carriage: Carriage,
    // its committer waits for it
    pub(crate) bell: Bell,
    // a token may wait at it for a floor
    asks_floor: Mutex<bool>,
}

impl<D: HalvedDisk + Drop, J: Agreed> Slot<D, J> {
    /// An empty slot.
    pub(crate) fn new(alloc: Global) -> Slot<D, J> {
        Slot {
            seated: Mutex::new(None),
            carriage: Carriage::new(alloc),
            bell: Bell::new(),
            asks_floor: Mutex::new(false),
        }
    }

    /// A token may wait at the member for a floor from now on.
    pub(crate) fn ask_floor<R: Wait>(&self, rt: &R) {
        *self.asks_floor.lock(rt) = true;
    }

    /// A floor may have risen: where a token may wait for one, the committer looks.
    pub(crate) fn tell_floor<R: Wait>(&self, rt: &R) {
        let mut asks = self.asks_floor.lock(rt);
        if *asks {
            *asks = false;
            self.bell.ring(rt);
        }
    }

    /// Seats a member, for the one that is given back.
    pub(crate) fn seat(&mut self, seated: Seated<D, J>) -> Option<Seated<D, J>> {
        mem::replace(self.seated.get_mut(), Some(seated))
    }

    /// Takes the member out.
    pub(crate) fn unseat(&mut self) -> Option<Seated<D, J>> {
        self.seated.get_mut().take()
    }

    /// Ends it. A member that sits there is given up.
    pub(crate) fn end(self) {
        let Slot {
            seated,
            carriage: _,
            bell: _,
            asks_floor: _,
        } = self;
        if let Some(seated) = seated.into_inner() {
            let _ = seated.end();
        }
    }
}
