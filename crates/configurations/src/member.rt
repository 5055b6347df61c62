ghost use Rattle.std.specs.Prelude.{◌≡◌, ℕ, ◌^◌, ◌<◌, ◌↔◌, IsSome, IfSome};

use gate_journal::{MAX_NUMBER, Slot};
use std::marker::Model;

/// Which of the disks that had a slot in turn is meant, at most 2^63 - 1: 1 for a disk that was formatted, and else
/// the epoch of the configuration that added it.
#[derive(Clone, Copy, Debug, PartialEq, Eq, PartialOrd, Ord, Hash)]
pub struct Incarnation {
    number: u64,
}

impl Model for Incarnation {
    ghost Value = { ℕ };

    ghost view = { λ incarnation. incarnation.number };

    ghost invariant = { λ incarnation. incarnation.number < 2 ^ 63 };

    ghost inverse = { λ n. record { number = n } };
}

impl Incarnation {
    /// The greatest number of an incarnation.
    pub const MAX: u64 = MAX_NUMBER;

    /// The incarnation with this number, or `None` above 2^63 - 1.
    pub fn new(number: u64) -> Option<Incarnation>
        ensures valid { IsSome result ↔ (number < 2 ^ 63) }
        ensures value { IfSome result (λ incarnation. incarnation ≡ number) }
    {
        if number <= Incarnation::MAX {
            Some(Incarnation { number })
        } else {
            None
        }
    }

    /// Its number, at most 2^63 - 1.
    pub fn number(self) -> u64
        ensures number { result ≡ self }
        ensures within { result < 2 ^ 63 }
    {
        self.number
    }
}

/// A disk in a chain.
#[derive(Clone, Copy, Debug, PartialEq, Eq)]
pub struct Member {
    /// Its place among the eight that a chain can have.
    pub slot: Slot,
    /// Which of the disks of this slot it is.
    pub incarnation: Incarnation,
}
