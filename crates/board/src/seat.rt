use crate::view::View;
use std::marker::Model;

/// A caller's place at a board. It has no bytes, and contracts see in it what the caller did there.
#[derive(Drop)]
pub struct Seat {
    pub(crate) place: atomic_table::Seat<(), View>,
}

impl Model for Seat {
    ghost use Rattle.std.specs.Prelude.{◌≡◌, []};
    ghost use Rattle.board.specs.Seats.{SeatView};

    ghost Value = { SeatView };

    ghost view = { λ seat. record {
      board = record { table = seat.place.table_id; opening = seat.place.me.0.opening };
      number = seat.place.id;
      counts = seat.place.me.0.counts;
      steps = seat.place.me.0.steps;
    } };

    ghost invariant = { λ seat. seat.place.me.1 ≡ [] };
}
