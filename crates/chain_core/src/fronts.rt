//! Fronts and floors.
ghost use Rattle.std.specs.Prelude.{◌≡◌, ◌≤◌, IfSome};
ghost use Rattle.board.specs.Seats.{IsAlone, IsRuled, stepped};
ghost use Rattle.board.specs.Steps.{NeverBack};
ghost use Rattle.board.specs.declared.view.Step.TheVariants.{Look, Raise};
ghost use Rattle.chain_steps.specs.Node.{last_of};
ghost use Rattle.std.specs.List.{list_any};
ghost use Rattle.chain_steps.specs.Waiting.{asks_floor, asks_front};
ghost use Rattle.chain_steps.specs.Steps.{answer_floor, raised, raised_front};
ghost use Rattle.chain_core.specs.Node.{IsStepOrStop, Keeps};

use crate::node::Node;
use crate::out::Out;
use board::{Board, Floor, Seat};
use chain_steps::{Cause, Due, Found};
use local_store::StoreLike;

impl<S: StoreLike + Drop> Node<S> {
    /// Raises the board's front to the last applied write, and keeps the front that is there then, of this number. The member is the tail, has
    /// this epoch's Turn, and holds for no joiner.
    pub fn raise(&mut self, board: &Board, seat: &mut Seat) -> u64
        requires of_board { board.now ≡ self.old.state.board }
        requires of_seat { seat.old.board ≡ board.now }
        ensures kept { Keeps Found.Raised board.now seat.old.number result self.old self.new }
        ensures step { seat.new ≡ stepped seat.old (Raise (last_of self.old.state) result) }
        ensures raised { last_of self.old.state ≤ result }
        ensures never_back { NeverBack 0 seat.old.steps result }
        ensures alone { IsAlone seat.new 0 result }
        ensures ruled { IsRuled seat.new }
    {
        let front = board.raise(seat, self.table.applied());
        let number = front.number();
        self.found = Some(Found::Raised(front));
        number
    }

    /// Looks the board's front up, and keeps it: it has this number.
    pub fn look(&mut self, board: &Board, seat: &mut Seat) -> u64
        requires of_board { board.now ≡ self.old.state.board }
        requires of_seat { seat.old.board ≡ board.now }
        ensures kept { Keeps Found.Looked board.now seat.old.number result self.old self.new }
        ensures step { seat.new ≡ stepped seat.old (Look result) }
        ensures never_back { NeverBack 0 seat.old.steps result }
        ensures alone { IsAlone seat.new 0 result }
        ensures ruled { IsRuled seat.new }
    {
        let front = board.look(seat);
        let number = front.number();
        self.found = Some(Found::Looked(front));
        number
    }

    /// The tail takes the front that it raised as its known commit: its plain writes up to it are answered, and its predecessor
    /// is told. Where no raised front is kept, nothing changes. Where memory runs out, the member stops.
    pub fn raised(&mut self) -> Out
        ensures { IsStepOrStop self.old self.new result (raised self.old.state) }
    {
        let Some(front) = self.raised_front() else {
            return self.nothing();
        };
        if front > self.table.applied() {
            return self.stop_by(Cause::Disorder);
        }
        self.know(front, front)
    }

    /// The front that was raised and is kept, if there is one.
    pub fn raised_front(&self) -> Option<u64>
        ensures front { result ≡ raised_front self.now.state.found }
        ensures above { IfSome result (λ front. self.now.state.known ≤ front) }
    {
        let Some(found) = &self.found else {
            return None;
        };
        match found {
            Found::Raised(front) => Some(front.number()),
            Found::Looked(_) => None,
        }
    }

    /// Whether a token waits at it for a front to be looked up: a READ, or a FLUSH that isn't bound yet.
    pub fn asks_front(&self) -> bool
        ensures { result ≡ list_any asks_front self.now.state.waiting }
    {
        self.desk.asks_front()
    }

    /// Whether a token waits at it for a floor: a write with FUA that has its number, or a FLUSH that is bound.
    pub fn asks_floor(&self) -> bool
        ensures { result ≡ list_any asks_floor self.now.state.waiting }
    {
        self.desk.asks_floor()
    }

    /// Answers the writes with FUA that the floor reaches, and then the FLUSHes. The floor is one of the member's board. Where
    /// memory runs out, the member stops.
    pub fn answer_floor(&mut self, floor: &Floor) -> Out
        requires { floor.now.board ≡ self.old.state.board }
        ensures { IsStepOrStop self.old self.new result (answer_floor floor.now.front self.old.state) }
    {
        let writes = Due::Writes(floor);
        let flushes = Due::Flushes(floor);
        let count = self.desk.count_due(&writes) + self.desk.count_due(&flushes);
        let Ok(mut replies) = Vec::with_capacity(self.alloc, count) else {
            return self.stop_by(Cause::Memory);
        };
        self.desk.settle(self.alloc, &writes, &mut replies);
        self.desk.settle(self.alloc, &flushes, &mut replies);
        self.found = None;
        Out {
            messages: Vec::new(self.alloc),
            replies,
        }
    }
}
