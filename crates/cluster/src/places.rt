ghost use Rattle.std.specs.Prelude.{◌≡◌};

use board::Board;
use gate_journal::Slot;

/// Some of the eight slots.
#[derive(Clone, Copy, Debug, PartialEq, Eq, Drop)]
pub(crate) struct Places {
    held: [bool; Board::SLOTS],
}

impl Places {
    /// None.
    pub(crate) fn none() -> Places {
        Places {
            held: [false; Board::SLOTS],
        }
    }

    /// One alone.
    pub(crate) fn only(slot: Slot) -> Places {
        let mut places = Places::none();
        places.add(slot);
        places
    }

    /// One more.
    pub(crate) fn add(&mut self, slot: Slot) {
        self.held[usize::from(slot.number())] = true;
    }

    /// Those of others too.
    pub(crate) fn join(&mut self, others: Places) {
        for number in 0..Slot::COUNT {
            if others.held[usize::from(number)] {
                self.held[usize::from(number)] = true;
            }
        }
    }

    /// How many they are.
    pub(crate) fn len(&self) -> u8 {
        let mut len = 0;
        for number in 0..Slot::COUNT {
            if self.held[usize::from(number)] {
                len = u8::saturating_add(len, 1);
            }
        }
        len
    }

    /// Takes out the least.
    pub(crate) fn take(&mut self) -> Option<Slot> {
        for number in 0..Slot::COUNT {
            if self.held[usize::from(number)] {
                self.held[usize::from(number)] = false;
                return Slot::new(number);
            }
        }
        None
    }
}
