//! Which sessions are served at once.
ghost use Rattle.std.specs.Prelude.{◌≡◌, ◌≢◌, ◌%◌, ◌<◌, ℕ, false, All, IfNone, IfSome, slice_index_or};

use std::marker::Model;

/// How many sessions are served at once, at most. The mail of a volume has as many boxes: a session's number says which is its own.
pub const SEATS: usize = 64;

/// A seat, for one session at a time. Its sessions have the numbers that leave its place when they are divided by `SEATS`.
#[derive(Clone, Copy, Debug, PartialEq, Eq)]
struct Seat {
    // the number of its next session
    next: u64,
    taken: bool,
}

/// The seats of the sessions that are served, and the numbers of those that come.
#[derive(Debug, Drop)]
pub struct Seats {
    seats: [Seat; SEATS],
}

impl Model for Seats {
    ghost use Rattle.std.specs.Prelude.{List};
    ghost use Rattle.sessions.specs.declared.seats.Seat.{Seat as One};

    ghost Value = { List One };

    ghost use Rattle.sessions.specs.Seats.{AreSeats};

    ghost view = { λ s. s.seats };

    ghost invariant = { λ s. AreSeats s.seats };
}

impl Seats {
    ghost use Rattle.sessions.specs.Seats.{AreApart, IsFull, IsNext, IsSeated, WasGiven, left, no_seat, seated};

    /// Free seats. No number was given.
    pub fn new() -> Seats
        ensures { (k : ℕ) → k < SEATS → slice_index_or result k no_seat ≡ record { next = k; taken = false } }
    {
        let mut seats = [Seat {
            next: 0,
            taken: false,
        }; SEATS];
        for number in 0..SEATS {
            seats[number].next = number as u64;
        }
        Seats { seats }
    }

    /// Takes a seat for a session, if one is free: the session's number. It was never given before, and differs from those of all sessions
    /// that have seats when it is divided by `SEATS`.
    pub fn take(&mut self) -> Option<u64>
        ensures next { IfSome result (IsNext self.old) }
        ensures seated { IfSome result (λ n. self.new ≡ seated n self.old) }
        ensures new_number { IfSome result (λ n. (WasGiven self.old n → ⊥) × WasGiven self.new n) }
        ensures other_seat { IfSome result (λ n. (m : ℕ) → IsSeated self.old m → m % SEATS ≢ n % SEATS) }
        ensures full { IfNone result ((self.new ≡ self.old) × All IsFull self.old) }
        ensures still_given { (m : ℕ) → WasGiven self.old m → WasGiven self.new m }
        ensures apart { AreApart self.new }
    {
        for number in 0..SEATS {
            let Seat { next, taken } = self.seats[number];
            if !taken && next <= u64::MAX - SEATS as u64 {
                self.seats[number] = Seat {
                    next: next + SEATS as u64,
                    taken: true,
                };
                return Some(next);
            }
        }
        None
    }

    /// The session of this number leaves its seat, if it has one.
    pub fn give_back(&mut self, number: u64)
        ensures left { IsSeated self.old number → self.new ≡ left number self.old }
        ensures strange { (IsSeated self.old number → ⊥) → self.new ≡ self.old }
        ensures still_given { (m : ℕ) → WasGiven self.old m → WasGiven self.new m }
    {
        let place = (number % SEATS as u64) as usize;
        let Seat { next, taken } = self.seats[place];
        if taken && next >= SEATS as u64 && next - SEATS as u64 == number {
            self.seats[place] = Seat { next, taken: false };
        }
    }
}
