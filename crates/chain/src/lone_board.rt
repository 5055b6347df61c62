//! The board of a chain, which one seat steps on.
ghost use Rattle.std.specs.Prelude.{◌≡◌, ◌≢◌, ◌≤◌, ℕ, [], max, true, IfOk};
ghost use Rattle.board.specs.Mask.{counts};
ghost use Rattle.chain_core.specs.Node.{Keeps};
ghost use Rattle.chain_steps.specs.Node.{last_of};
ghost use Rattle.chain.specs.LoneBoard.{counted_in, counted_out, gauge_in, gauge_of, posted, raised};

use board::{Board, Crew, Front, Gauge, Gauges, Refusal, Seat};
use chain_core::Node;
use chain_steps::Found;
use gate_journal::{Slot, Synced};
use local_store::StoreLike;
use std::alloc::Global;
use std::fmt;
use std::marker::Model;

/// A board and its one seat, so that each answer is what the ten words are.
#[derive(Drop)]
pub(crate) struct LoneBoard {
    board: Board,
    seat: Seat,
}

impl Model for LoneBoard {
    ghost use Rattle.std.specs.Prelude.{◌≡◌, length, true};
    ghost use Rattle.board.specs.Seats.{IsRuled};
    ghost use Rattle.board.specs.Steps.{words_after};
    ghost use Rattle.chain.specs.LoneBoard.{Lone, words_of};

    ghost Value = { Lone };

    ghost view = { λ lone. record {
      id = lone.board;
      seat = lone.seat.number;
      words = words_of (words_after lone.board.opening.words lone.seat.steps);
    } };

    ghost invariant = { λ lone. (lone.seat.board ≡ lone.board) × (lone.board.opening.seats ≡ 1)
        × (length (words_after lone.board.opening.words lone.seat.steps) ≡ 10)
        × (lone.seat.counts ≡ true) × IsRuled lone.seat };
}

impl LoneBoard {
    /// A board that opens with these numbers. 100 where memory runs out.
    pub(crate) fn new(
        alloc: Global,
        front: u64,
        mask: u8,
        gauges: [u64; Board::SLOTS],
    ) -> Result<LoneBoard, Refusal>
        requires { front ≤ Front.GREATEST }
        ensures { IfOk result (λ lone. lone.words
            ≡ record { front = front; mask = mask; gauges = gauges }) }
    {
        let (board, mut seats) = Board::new(alloc, front, mask, gauges, 1)?;
        let mut seat = seats.pop().unwrap();
        // From its first step on, a seat tells the board's rule.
        board.look(&mut seat);
        Ok(LoneBoard { board, seat })
    }

    /// The board.
    pub(crate) fn board(&self) -> &Board
        ensures { result.now ≡ self.now.id }
    {
        &self.board
    }

    /// Raises the committed front to `n` if it is below, and answers the front that is there then.
    pub(crate) fn raise(&mut self, n: u64) -> Front
        requires { n ≤ Front.GREATEST }
        ensures words { self.new ≡ record self.old { words = raised self.old.words n } }
        ensures front { result.number ≡ max self.old.words.front n }
    {
        self.board.raise(&mut self.seat, n)
    }

    /// Raises the gauge of the receipt's slot to the receipt's front if it is below.
    pub(crate) fn post(&mut self, receipt: Synced)
        ensures { self.new ≡ record self.old { words = posted self.old.words receipt } }
    {
        self.board.post(&mut self.seat, receipt);
    }

    /// Counts the slot; the others as before.
    pub(crate) fn count_in(&mut self, slot: Slot)
        ensures { self.new ≡ record self.old { words = counted_in self.old.words slot } }
    {
        prove!(slot.number() < Slot::COUNT);
        self.board.count_in(&mut self.seat, slot);
    }

    /// Counts the slot no longer; the others as before.
    pub(crate) fn count_out(&mut self, slot: Slot)
        ensures words { self.new ≡ record self.old { words = counted_out self.old.words slot } }
        ensures others { (other : ℕ) → other ≢ slot → counts self.old.words.mask other ≡ true → counts (counted_out self.old.words slot).mask other ≡ true }
    {
        prove!(slot.number() < Slot::COUNT);
        self.board.count_out(&mut self.seat, slot);
    }

    /// The committed front.
    pub(crate) fn look(&mut self) -> Front
        ensures front { result.number ≡ self.old.words.front }
        ensures of_seat { (result.board ≡ self.old.id) × (result.seat ≡ self.old.seat) }
        ensures unchanged { self.new ≡ self.old }
    {
        self.board.look(&mut self.seat)
    }

    /// The committed front, which the member keeps.
    pub(crate) fn look_for<S: StoreLike + Drop>(&mut self, node: &mut Node<S>) -> u64
        requires { node.old.state.board ≡ self.old.id }
        ensures front { result ≡ self.old.words.front }
        ensures kept { Keeps Found.Looked self.old.id self.old.seat result node.old node.new }
        ensures unchanged { self.new ≡ self.old }
    {
        node.look(&self.board, &mut self.seat)
    }

    /// Raises the committed front to the member's last applied write if it is below, and the member keeps the front that is there
    /// then.
    pub(crate) fn raise_for<S: StoreLike + Drop>(&mut self, node: &mut Node<S>) -> u64
        requires { node.old.state.board ≡ self.old.id }
        ensures front { result ≡ max self.old.words.front (last_of node.old.state) }
        ensures kept { Keeps Found.Raised self.old.id self.old.seat result node.old node.new }
        ensures words { self.new ≡ record self.old { words = raised self.old.words (last_of node.old.state) } }
    {
        node.raise(&self.board, &mut self.seat)
    }

    /// The mask of counted slots, looked up after the front.
    pub(crate) fn crew(&mut self, front: Front) -> Crew
        requires { (front.board ≡ self.old.id) × (front.seat ≡ self.old.seat) }
        ensures crew { result ≡ record {
          board = self.old.id;
          seat = self.old.seat;
          front = front.number;
          mask = self.old.words.mask;
        } }
        ensures unchanged { self.new ≡ self.old }
    {
        self.board.crew(&mut self.seat, front)
    }

    /// Room for the gauges of a crew.
    pub(crate) fn room(&self) -> Gauges
        ensures { result ≡ [] }
    {
        Gauges::new(&self.seat)
    }

    /// The durable front of the slot, looked up after the crew's mask.
    pub(crate) fn gauge(&mut self, crew: &Crew, slot: Slot) -> Gauge
        requires { (crew.now.board ≡ self.old.id) × (crew.now.seat ≡ self.old.seat) }
        ensures slot { result.slot ≡ slot }
        ensures found { gauge_of result ≡ gauge_in self.old.words slot }
        ensures of_seat { (result.board ≡ self.old.id) × (result.seat ≡ self.old.seat) }
        ensures unchanged { self.new ≡ self.old }
    {
        self.board.gauge(&mut self.seat, crew, slot)
    }
}

impl fmt::Debug for LoneBoard {
    fn fmt<W: fmt::Write>(&self, f: &mut fmt::Formatter<W>) -> fmt::Result {
        f.write_str("LoneBoard")
    }
}
