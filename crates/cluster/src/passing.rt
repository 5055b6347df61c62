//! Messages, and the front that a tail raises by them.
ghost use Rattle.std.specs.Prelude.{◌≡◌, ◌≢◌, ◌+◌, ◌≤◌, ◌∷◌, Some};
ghost use Rattle.chain_steps.specs.Node.{Refused};
ghost use Rattle.chain_steps.specs.Steps.{deliver};
ghost use Rattle.chain_steps.specs.declared.message.Sent.{Sent as Message};
ghost use Rattle.cluster.specs.Carried.{left_of, order_of};
ghost use Rattle.cluster.specs.Gives.{CanRaise, HasGiven, HasRaised, IsDeliveredOf, IsKeptBack};

use crate::carried::Carried;
use crate::seated::Seated;
use board::Board;
use chain_core::Refusal;
use disk_model::HalvedDisk;
use gate_journal::Slot;
use mail::Given;
use member::Agreed;
use std::alloc::Global;

/// What became of a message.
#[derive(Clone, Copy, Debug, PartialEq, Eq)]
pub enum Delivered {
    /// The member took it.
    Taken,
    /// The member takes it later: it is the next one still.
    KeptBack,
    /// The member has stopped: the message is gone.
    Lost,
    /// There is none, or it is for another slot.
    Elsewhere,
}

impl<D: HalvedDisk + Drop, J: Agreed> Seated<D, J> {
    /// `Member::deliver` of the next message, if it is for this slot.
    pub fn deliver_next(
        &mut self,
        alloc: Global,
        given: &mut Given,
        from: Slot,
        to: Slot,
        carried: &mut Carried,
    ) -> Delivered
        requires room { 1 ≤ given.old.room }
        ensures taken { result ≡ Delivered.Taken → (sent : Message) × (order_of carried.old ≡ sent ∷ order_of carried.new) × (sent.to ≡ to)
            × HasGiven (IsDeliveredOf J.size from sent.envelope) self.old.member self.new.member given.old.replies given.new.replies }
        ensures kept_back { result ≡ Delivered.KeptBack → (sent : Message) × (order_of carried.old ≡ sent ∷ left_of (order_of carried.old)) × (sent.to ≡ to) × IsKeptBack from sent.envelope self.old.member.node.state
            × (order_of carried.new ≡ order_of carried.old) × (self.new.member ≡ self.old.member) × (given.new.replies ≡ given.old.replies) }
        ensures lost { result ≡ Delivered.Lost → (sent : Message) × (order_of carried.old ≡ sent ∷ order_of carried.new) × (sent.to ≡ to) × (deliver from sent.envelope self.old.member.node.state ≡ Refused 154)
            × (self.new.member ≡ self.old.member) × (given.new.replies ≡ given.old.replies) }
        ensures elsewhere { result ≡ Delivered.Elsewhere → ((sent : Message) → order_of carried.old ≡ sent ∷ left_of (order_of carried.old) → sent.to ≢ to)
            × (order_of carried.new ≡ order_of carried.old) × (self.new.member ≡ self.old.member) × (given.new.replies ≡ given.old.replies) }
        ensures seat { self.new.seat ≡ self.old.seat }
        ensures room { given.old.room ≤ given.new.room + 1 }
    {
        let delivered = match carried.next() {
            Some(sent) if sent.to == to => self.member.deliver(from, &sent.envelope),
            _ => return Delivered::Elsewhere,
        };
        match delivered {
            Ok(replies) => {
                given.add(replies);
                carried.take_next(alloc);
                Delivered::Taken
            }
            Err(Refusal::Early | Refusal::Busy) => Delivered::KeptBack,
            Err(_) => {
                carried.take_next(alloc);
                Delivered::Lost
            }
        }
    }

    /// Where it is a tail that may raise the board's front, it raises it to its last write, and takes the front as its known commit.
    pub fn raise(&mut self, given: &mut Given, board: &Board)
        requires room { 1 ≤ given.old.room }
        requires board { J.board ≡ Some board.now }
        ensures raised { CanRaise self.old.member → HasRaised board.now self.old.seat.number self.old.member self.new.member given.old.replies given.new.replies }
        ensures idle { ¬ CanRaise self.old.member → (self.new.member ≡ self.old.member) × (given.new.replies ≡ given.old.replies) }
        ensures room { given.old.room ≤ given.new.room + 1 }
    {
        if self.member.may_raise() {
            self.member.raise(board, &mut self.seat);
            given.add(self.member.raised());
        }
    }
}
