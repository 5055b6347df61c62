//! A board is made.
ghost use Rattle.std.specs.Prelude.{◌≡◌, ◌<◌, ◌≤◌, ◌∷◌, length, All, IfOk, IfSome, slice_get, true};
ghost use Rattle.board.specs.Seats.{IsNewSeat};

use crate::board::Board;
use crate::evidence::Front;
use crate::refusal::Refusal;
use crate::rule::Sits;
use crate::seat::Seat;
use crate::view::Opening;
use atomic_table::Table;
use std::alloc::{AllocError, Global};

impl Board {
    /// A board that opens with these numbers, and its seats, at least one: the first seat is the counting one. The front is
    /// at most 2^63 - 1. Bit `s` of `mask` is set where slot `s` is counted, and `gauges` has the durable front of each slot.
    /// 100 where memory runs out.
    pub fn new(
        alloc: Global,
        front: u64,
        mask: u8,
        gauges: [u64; Board::SLOTS],
        seats: usize,
    ) -> Result<(Board, Vec<Seat>), Refusal>
        requires front { front ≤ Front.GREATEST }
        requires seats { 0 < seats }
        ensures opening { IfOk result (λ made. made.0.opening.words ≡ front ∷ mask ∷ gauges) }
        ensures known { IfOk result (λ made. made.0.opening.seats ≡ seats) }
        ensures seats { IfOk result (λ made. length made.1.items ≡ seats) }
        ensures new { IfOk result (λ made. All (IsNewSeat made.0) made.1.items) }
        ensures counting { IfOk result
            (λ made. IfSome (slice_get made.1.items 0) (λ seat. seat.counts ≡ true)) }
    {
        let opening = Opening {
            words: words_of(front, mask, gauges),
            seats,
        };
        let (table, place) = Table::of_words(alloc, &opening.words, &opening)?;
        let board = Board { table };
        let all = board.seat_all(alloc, Seat { place }, seats)?;
        Ok((board, all))
    }

    /// The first seat, and the others behind it.
    fn seat_all(&self, alloc: Global, first: Seat, seats: usize) -> Result<Vec<Seat>, AllocError>
        requires seats { 0 < seats }
        requires known { self.now.opening.seats ≡ seats }
        requires first { IsNewSeat self.now first }
        ensures seats { IfOk result (λ all. length all.items ≡ seats) }
        ensures new { IfOk result (λ all. All (IsNewSeat self.now) all.items) }
        ensures first { IfOk result (λ all. slice_get all.items 0 ≡ Some first) }
    {
        let mut all = Vec::with_capacity(alloc, seats)?;
        all.push_reserved(first);
        while all.len() < seats {
            all.push_reserved(self.sit());
        }
        Ok(all)
    }

    /// One seat more.
    fn sit(&self) -> Seat
        requires { self.now.opening.seats ≡ 1 → ⊥ }
        ensures new { IsNewSeat self.now result }
    {
        let (_front, place) = self.table.shared.load_new_seat::<Sits>(0);
        Seat { place }
    }
}

/// The ten words: the front, the mask, and the gauges.
fn words_of(front: u64, mask: u8, gauges: [u64; Board::SLOTS]) -> [u64; 10]
    ensures words { result ≡ front ∷ mask ∷ gauges }
    ensures ten { length result ≡ 10 }
{
    let [a, b, c, d, e, f, g, h] = gauges;
    [front, u64::from(mask), a, b, c, d, e, f, g, h]
}
