ghost use Rattle.std.specs.Prelude.{◌≡◌, ℕ, ◌^◌, ◌<◌, ◌↔◌, IsSome, IfSome};

use gate_journal::MAX_NUMBER;
use std::marker::Model;

/// The number of a configuration, at most 2^63 - 1. Formatting begins with 1.
#[derive(Clone, Copy, Debug, PartialEq, Eq, PartialOrd, Ord, Hash)]
pub struct Epoch {
    number: u64,
}

impl Model for Epoch {
    ghost Value = { ℕ };

    ghost view = { λ epoch. epoch.number };

    ghost invariant = { λ epoch. epoch.number < 2 ^ 63 };

    ghost inverse = { λ n. record { number = n } };
}

impl Epoch {
    /// The greatest number of an epoch.
    pub const MAX: u64 = MAX_NUMBER;

    /// The epoch with this number, or `None` above 2^63 - 1.
    pub fn new(number: u64) -> Option<Epoch>
        ensures valid { IsSome result ↔ (number < 2 ^ 63) }
        ensures value { IfSome result (λ epoch. epoch ≡ number) }
    {
        if number <= Epoch::MAX {
            Some(Epoch { number })
        } else {
            None
        }
    }

    /// Its number, at most 2^63 - 1.
    pub fn number(self) -> u64
        ensures number { result ≡ self }
        ensures within { result < 2 ^ 63 }
    {
        self.number
    }
}
