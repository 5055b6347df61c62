ghost use Rattle.std.specs.Prelude.{◌≡◌, ℕ, ◌<◌, ◌↔◌, IsSome, IfSome};

use std::marker::Model;

/// A storage node's place among the eight that a chain can have, 0 to 7.
#[derive(Clone, Copy, Debug, PartialEq, Eq, PartialOrd, Ord, Hash)]
pub struct Slot {
    number: u8,
}

impl Model for Slot {
    ghost Value = { ℕ };

    ghost view = { λ slot. slot.number };

    ghost invariant = { λ slot. slot.number < 8 };

    ghost inverse = { λ n. record { number = n } };
}

impl Slot {
    /// How many slots there are.
    pub const COUNT: u8 = 8;

    /// The slot with this number, or `None` above 7.
    pub fn new(number: u8) -> Option<Slot>
        ensures valid { IsSome result ↔ (number < 8) }
        ensures value { IfSome result (λ slot. slot ≡ number) }
    {
        if number < Slot::COUNT {
            Some(Slot { number })
        } else {
            None
        }
    }

    /// Its number, 0 to 7.
    pub fn number(self) -> u8
        ensures number { result ≡ self }
        ensures within { result < 8 }
    {
        self.number
    }
}
