ghost use Rattle.std.specs.Prelude.{◌≡◌, ℕ, ◌<◌, ◌≤◌, All, Any, map, IsTrue};
ghost use Rattle.board.specs.Floor.{least_of, IsRead};
ghost use Rattle.board.specs.Mask.{counts, slots_of};

use crate::board::Board;
use crate::evidence::{Crew, Gauge};
use crate::gauges::Gauges;
use crate::seat::Seat;
use gate_journal::Slot;
use std::marker::Model;
use std::snapshot::Snapshot;

/// What every disk of a crew holds: each counted slot's disk holds the writes up to its front.
#[derive(Drop)]
pub struct Floor {
    front: u64,
    of: Snapshot<Crew>,
}

impl Model for Floor {
    ghost use Rattle.board.specs.Seats.{FoundFloor};

    ghost Value = { FoundFloor };

    ghost view = { λ floor. record { board = floor.of.value.board; front = floor.front } };
}

impl Floor {
    /// The floor of a crew, from one gauge of each of its slots in ascending order, found by the
    /// crew's seat: the least of the crew's front and the gauges.
    pub fn new(crew: Crew, gauges: &[Gauge]) -> Floor
        requires slots { map (λ gauge. gauge.slot) gauges.now ≡ slots_of crew.mask }
        requires of_seat { All (λ gauge. (gauge.board ≡ crew.board) × (gauge.seat ≡ crew.seat))
            gauges.now }
        ensures board { result.board ≡ crew.board }
        ensures least { result.front ≡ least_of crew.front gauges.now }
        ensures below_front { result.front ≤ crew.front }
        ensures below_gauges { All (λ gauge. result.front ≤ gauge.front) gauges.now }
        ensures covers { (s : ℕ) → s < 8 → IsTrue (counts crew.mask s)
            → Any (λ gauge. (gauge.slot ≡ s) × (result.front ≤ gauge.front)) gauges.now }
        ensures greatest { (n : ℕ) → n ≤ crew.front → All (λ gauge. n ≤ gauge.front) gauges.now
            → n ≤ result.front }
    {
        let mut front = crew.front().number();
        for gauge in gauges {
            front = front.min(gauge.front());
        }
        Floor {
            front,
            of: Snapshot::of(&crew),
        }
    }

    /// Reads the gauge of each slot of the crew in ascending order, and makes their floor. It takes no memory.
    pub fn read(board: &Board, seat: &mut Seat, crew: Crew) -> Floor
        requires of_board { seat.old.board ≡ board.now }
        requires of_seat { (crew.board ≡ board.now) × (crew.seat ≡ seat.old.number) }
        ensures of_board { (result.board ≡ board.now) × (seat.new.board ≡ board.now) }
        ensures read { IsRead crew seat.old seat.new result }
    {
        let mut gauges = Gauges::new(seat);
        for number in 0..Slot::COUNT {
            let slot = Slot::new(number).unwrap();
            if crew.holds(slot) {
                gauges.push(board.gauge(seat, &crew, slot));
            }
        }
        Floor::new(crew, gauges.as_slice())
    }

    /// The number of the last write that every disk of the crew holds.
    pub fn front(&self) -> u64
        ensures { result ≡ self.now.front }
    {
        self.front
    }
}
