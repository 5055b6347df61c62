ghost use Rattle.std.specs.Prelude.{◌≡◌, ℕ, ◌<◌, ◌≤◌, List, [], ◌∷◌, ◌++◌, length, take};
ghost use Rattle.board.specs.Seats.{FoundGauge};
ghost use Rattle.board.specs.declared.board.TheConstants.Board.{SLOTS};

use crate::board::Board;
use crate::evidence::Gauge;
use crate::seat::Seat;
use std::marker::Model;

/// Room for a gauge of each slot, to be filled one by one and lent to `Floor::new`. It takes no
/// memory.
#[derive(Drop)]
pub struct Gauges {
    found: [Gauge; Board::SLOTS],
    len: usize,
}

impl Model for Gauges {
    ghost Value = { List FoundGauge };

    ghost view = { λ gauges. take gauges.len gauges.found };

    ghost invariant = { λ gauges. gauges.len ≤ SLOTS };
}

impl Gauges {
    /// Room without a gauge.
    pub fn new(seat: &Seat) -> Gauges
        ensures { result ≡ [] }
    {
        Gauges {
            found: [
                Gauge::none(seat),
                Gauge::none(seat),
                Gauge::none(seat),
                Gauge::none(seat),
                Gauge::none(seat),
                Gauge::none(seat),
                Gauge::none(seat),
                Gauge::none(seat),
            ],
            len: 0,
        }
    }

    /// Puts a gauge behind those that are there, fewer than eight.
    pub fn push(&mut self, gauge: Gauge)
        requires { length self.old < Board.SLOTS }
        ensures { self.new ≡ self.old ++ gauge ∷ [] }
    {
        self.found[self.len] = gauge;
        self.len += 1;
    }

    /// The gauges, in the order in which they came.
    pub fn as_slice(&self) -> &[Gauge]
        ensures gauges { result.now ≡ self.now }
        ensures within { length self.now ≤ Board.SLOTS }
    {
        &self.found[..self.len]
    }
}
