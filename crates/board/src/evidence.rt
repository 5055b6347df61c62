//! What the board's calls find. Nothing else makes these values.
ghost use Rattle.std.specs.Prelude.{◌≡◌, ◌≤◌};
ghost use Rattle.board.specs.Mask.{counts};

use crate::seat::Seat;
use gate_journal::{MAX_NUMBER, Slot};
use std::marker::Model;
use std::snapshot::Snapshot;

/// A committed front that a seat found on its board: that many writes are committed, and stay so.
#[derive(Drop)]
pub struct Front {
    number: u64,
    by: Snapshot<Seat>,
}

impl Model for Front {
    ghost use Rattle.std.specs.Prelude.{◌≤◌};
    ghost use Rattle.board.specs.declared.evidence.TheConstants.Front.{GREATEST};
    ghost use Rattle.board.specs.Seats.{FoundFront};

    ghost Value = { FoundFront };

    ghost view = { λ front. record {
      board = front.by.value.board;
      seat = front.by.value.number;
      number = front.number;
    } };

    ghost invariant = { λ front. front.number ≤ GREATEST };
}

impl Front {
    /// The greatest front, 2^63 - 1.
    pub const GREATEST: u64 = MAX_NUMBER;

    /// The front with this number that the seat found.
    pub(crate) fn found(seat: &Seat, number: u64) -> Front
        requires { number ≤ Front.GREATEST }
        ensures board { result.board ≡ seat.now.board }
        ensures seat { result.seat ≡ seat.now.number }
        ensures number { result.number ≡ number }
    {
        Front {
            number,
            by: Snapshot::of(seat),
        }
    }

    /// The number of the last committed write, 0 before the first.
    pub fn number(&self) -> u64
        ensures number { result ≡ self.now.number }
        ensures within { result ≤ Front.GREATEST }
    {
        self.number
    }
}

/// The mask of counted slots, found by the seat that had found the front before.
#[derive(Drop)]
pub struct Crew {
    front: Front,
    mask: u8,
}

impl Model for Crew {
    ghost use Rattle.board.specs.Seats.{FoundCrew};

    ghost Value = { FoundCrew };

    ghost view = { λ crew. record {
      board = crew.front.board;
      seat = crew.front.seat;
      front = crew.front.number;
      mask = crew.mask;
    } };
}

impl Crew {
    /// The mask found after the front, by the same seat.
    pub(crate) fn found(front: Front, mask: u8) -> Crew
        ensures front { (result.board ≡ front.board) × (result.seat ≡ front.seat)
            × (result.front ≡ front.number) }
        ensures mask { result.mask ≡ mask }
    {
        Crew { front, mask }
    }

    /// The front that was found before the mask.
    pub fn front(&self) -> &Front
        ensures of_seat { (result.now.board ≡ self.now.board) × (result.now.seat ≡ self.now.seat) }
        ensures number { result.now.number ≡ self.now.front }
    {
        &self.front
    }

    /// The mask: bit `s` is set where slot `s` is counted.
    pub fn mask(&self) -> u8
        ensures { result ≡ self.now.mask }
    {
        self.mask
    }

    /// Whether the slot was counted.
    #[tactic(auto, unfolding(crate::specs::Mask::counts))]
    pub fn holds(&self, slot: Slot) -> bool
        ensures { result ≡ counts self.now.mask slot }
    {
        (self.mask >> slot.number()) % 2 == 1
    }
}

/// The durable front of a slot, found by the seat that had found a crew before: that slot's disk
/// holds that many writes, and keeps them.
#[derive(Drop)]
pub struct Gauge {
    slot: Slot,
    durable: u64,
    by: Snapshot<Seat>,
}

impl Model for Gauge {
    ghost use Rattle.board.specs.Seats.{FoundGauge};

    ghost Value = { FoundGauge };

    ghost view = { λ gauge. record {
      board = gauge.by.value.board;
      seat = gauge.by.value.number;
      slot = gauge.slot;
      front = gauge.durable;
    } };
}

impl Gauge {
    /// The gauge of this slot that the seat found.
    pub(crate) fn found(seat: &Seat, slot: Slot, durable: u64) -> Gauge
        ensures board { result.board ≡ seat.now.board }
        ensures seat { result.seat ≡ seat.now.number }
        ensures slot { result.slot ≡ slot }
        ensures front { result.front ≡ durable }
    {
        Gauge {
            slot,
            durable,
            by: Snapshot::of(seat),
        }
    }

    /// What room for a gauge holds before one is put there.
    pub(crate) fn none(seat: &Seat) -> Gauge {
        Gauge::found(seat, Slot::new(0).unwrap(), 0)
    }

    /// Whose gauge it is.
    pub fn slot(&self) -> Slot
        ensures { result ≡ self.now.slot }
    {
        self.slot
    }

    /// The number of the last write that the slot's disk holds.
    pub fn front(&self) -> u64
        ensures { result ≡ self.now.front }
    {
        self.durable
    }
}
