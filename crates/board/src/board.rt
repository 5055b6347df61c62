ghost use Rattle.std.specs.Prelude.{◌≡◌, ◌≤◌, ◌^◌, ◌<◌, slice_index, true};
ghost use Rattle.board.specs.declared.view.Step.TheVariants.{Look, Raise, Gauge as Gauged, Crew as Crewed, CountIn, CountOut};
ghost use Rattle.board.specs.Seats.{Posted, stepped, IsAlone, IsRuled};
ghost use Rattle.board.specs.Steps.{NeverBack, gauge_word, mask_after};

use crate::evidence::{Crew, Front, Gauge};
use crate::rule::{CountsIn, CountsOut, Crews, Gauges, Law, Looks, Posts, Raises};
use crate::seat::Seat;
use crate::view::{Opening, View};
use atomic_table::Table;
use gate_journal::{Slot, Synced};
use std::alloc::Global;
use std::marker::Model;

/// The word of the committed front.
const FRONT: usize = 0;

/// The word of the mask.
const MASK: usize = 1;

/// The ten words that a chain shares: the committed front, the mask of counted slots, and the
/// durable front of each of slots 0 to 7. Any number of threads step on it, each with its seat.
#[derive(Drop)]
pub struct Board {
    pub(crate) table: Words,
}

/// The ten words in memory.
pub(crate) type Words = Table<(), View, Opening, Law, Global>;

impl Model for Board {
    ghost use Rattle.std.specs.Prelude.{◌≡◌};
    ghost use Rattle.board.specs.Seats.{BoardId};

    ghost Value = { BoardId };

    ghost view = { λ board. record {
      table = board.table.shared.table_id;
      opening = board.table.shared.key;
    } };

    ghost invariant = { λ board. board.table.shared.table_id.words ≡ 10 };
}

impl Board {
    /// How many slots have a gauge.
    pub const SLOTS: usize = Slot::COUNT as usize;

    /// The committed front.
    pub fn look(&self, seat: &mut Seat) -> Front
        requires { seat.old.board ≡ self.now }
        ensures step { seat.new ≡ stepped seat.old (Look result.number) }
        ensures of_seat { (result.board ≡ self.now) × (result.seat ≡ seat.old.number) }
        ensures never_back { NeverBack 0 seat.old.steps result.number }
        ensures alone { IsAlone seat.new 0 result.number }
        ensures ruled { IsRuled seat.new }
    {
        let number = self.table.shared.load::<Looks>(&mut seat.place, FRONT);
        Front::found(seat, number)
    }

    /// Raises the committed front to `n`, at most 2^63 - 1, if it is below, and answers the front
    /// that is there then.
    pub fn raise(&self, seat: &mut Seat, n: u64) -> Front
        requires of_board { seat.old.board ≡ self.now }
        requires within { n ≤ Front.GREATEST }
        ensures step { seat.new ≡ stepped seat.old (Raise n result.number) }
        ensures of_seat { (result.board ≡ self.now) × (result.seat ≡ seat.old.number) }
        ensures raised { n ≤ result.number }
        ensures never_back { NeverBack 0 seat.old.steps result.number }
        ensures alone { IsAlone seat.new 0 result.number }
        ensures ruled { IsRuled seat.new }
    {
        let found = self
            .table
            .shared
            .fetch_max::<Raises>(&mut seat.place, FRONT, n);
        Front::found(seat, found.max(n))
    }

    /// Raises the gauge of the receipt's slot to the receipt's front if it is below.
    pub fn post(&self, seat: &mut Seat, receipt: Synced)
        requires { seat.old.board ≡ self.now }
        ensures posted { Posted receipt seat.old seat.new }
        ensures ruled { IsRuled seat.new }
    {
        let word = gauge_at(receipt.slot());
        self.table
            .shared
            .fetch_max::<Posts>(&mut seat.place, word, receipt.front());
    }

    /// The durable front of the slot, looked up after the crew's mask.
    pub fn gauge(&self, seat: &mut Seat, crew: &Crew, slot: Slot) -> Gauge
        requires of_board { seat.old.board ≡ self.now }
        requires of_seat { (crew.now.board ≡ self.now) × (crew.now.seat ≡ seat.old.number) }
        ensures step { seat.new ≡ stepped seat.old (Gauged slot result.front) }
        ensures of_seat { (result.board ≡ self.now) × (result.seat ≡ seat.old.number) }
        ensures slot { result.slot ≡ slot }
        ensures never_back { NeverBack (gauge_word slot) seat.old.steps result.front }
        ensures alone { IsAlone seat.new (gauge_word slot) result.front }
        ensures ruled { IsRuled seat.new }
    {
        let _after = crew;
        let word = gauge_at(slot);
        let durable = self.table.shared.load::<Gauges>(&mut seat.place, word);
        Gauge::found(seat, slot, durable)
    }

    /// The mask of counted slots, looked up after the front.
    pub fn crew(&self, seat: &mut Seat, front: Front) -> Crew
        requires of_board { seat.old.board ≡ self.now }
        requires of_seat { (front.board ≡ self.now) × (front.seat ≡ seat.old.number) }
        ensures step { seat.new ≡ stepped seat.old (Crewed result.mask) }
        ensures of_seat { (result.board ≡ self.now) × (result.seat ≡ seat.old.number) }
        ensures front { result.front ≡ front.number }
        ensures counting { seat.old.counts ≡ true
            → result.mask ≡ mask_after (slice_index seat.old.board.opening.words 1) seat.old.steps }
        ensures alone { IsAlone seat.new 1 result.mask }
        ensures ruled { IsRuled seat.new }
    {
        let mask = self.table.shared.load::<Crews>(&mut seat.place, MASK);
        Crew::found(front, mask as u8)
    }

    /// Counts the slot from now on. The seat is the counting one.
    pub fn count_in(&self, seat: &mut Seat, slot: Slot)
        requires of_board { seat.old.board ≡ self.now }
        requires counting { seat.old.counts ≡ true }
        ensures step { seat.new ≡ stepped seat.old (CountIn slot) }
        ensures ruled { IsRuled seat.new }
    {
        self.table
            .shared
            .fetch_or::<CountsIn>(&mut seat.place, MASK, bit_of(slot));
    }

    /// Counts the slot no longer. The seat is the counting one.
    pub fn count_out(&self, seat: &mut Seat, slot: Slot)
        requires of_board { seat.old.board ≡ self.now }
        requires counting { seat.old.counts ≡ true }
        ensures step { seat.new ≡ stepped seat.old (CountOut slot) }
        ensures ruled { IsRuled seat.new }
    {
        self.table
            .shared
            .fetch_and::<CountsOut>(&mut seat.place, MASK, 255 - bit_of(slot));
    }
}

/// The word of the slot's gauge.
fn gauge_at(slot: Slot) -> usize
    ensures word { result ≡ gauge_word slot }
    ensures within { result < 10 }
{
    usize::from(slot.number()) + 2
}

/// The slot's bit in the mask.
fn bit_of(slot: Slot) -> u64
    ensures bit { result ≡ 2 ^ slot }
    ensures within { result < 256 }
    ensures slot { slot < 8 }
{
    1 << slot.number()
}
