//! Slots are counted out and in.
ghost use Rattle.std.specs.Prelude.{◌≡◌, ◌≢◌, ℕ, false, true, IfErr, OnOk};
ghost use Rattle.board.specs.Seats.{IsRuled};
ghost use Rattle.manager.specs.Manager.{next_of};
ghost use Rattle.management.specs.Management.{IsDurable};
ghost use Rattle.manager.specs.declared.order.Order.TheVariants as orders;
ghost use Rattle.management.specs.Orders.{CountsIn, CountsOut};

use crate::management::Management;
use board::Board;
use disk_model::Disk;
use gate_journal::Synced;
use manager::{Order, managers_are};

impl<C: Disk + Drop> Management<C> {
    /// Where the next order is to count a slot out: the board counts it no longer. `false` where that isn't the next order: nothing changed.
    /// The seat is of this board.
    pub fn count_out(&mut self, board: &Board) -> bool
        requires { self.old.seat.board ≡ board.now }
        ensures out { result ≡ true → CountsOut self.old self.new }
        ensures idle { result ≡ false → ((slot : ℕ) → next_of self.old.manager ≢ orders.CountOut slot) × (self.new ≡ self.old) }
        ensures ruled { result ≡ true → IsRuled self.new.seat }

        // The record without the slot is on the disk, and no other may be left there.
        ensures durable { C.keeps_model → result ≡ true → IsDurable C.gives C.may_leave_now self.old }
    {
        managers_are(&self.manager);
        let Order::CountOut(slot) = self.manager.next() else {
            return false;
        };
        board.count_out(&mut self.seat, slot);
        self.manager.done();
        true
    }

    /// Where the next order is to count a slot in, and this is a receipt of that slot: the receipt is posted, and the board counts the slot
    /// behind it. Else the receipt comes back, and nothing changed. The seat is of this board.
    pub fn count_in(&mut self, board: &Board, receipt: Synced) -> Result<(), Synced>
        requires { self.old.seat.board ≡ board.now }
        ensures counted { OnOk result (CountsIn receipt self.old self.new) }
        ensures back { IfErr result (λ same. (same ≡ receipt) × ((next_of self.old.manager ≢ orders.CountIn receipt.slot) × (self.new ≡ self.old))) }
        ensures ruled { OnOk result (IsRuled self.new.seat) }

        // The record before is on the disk still, and no other may be left there.
        ensures durable { C.keeps_model → OnOk result (IsDurable C.gives C.may_leave_now self.old) }
    {
        managers_are(&self.manager);
        let Order::CountIn(slot) = self.manager.next() else {
            return Err(receipt);
        };
        if receipt.slot() != slot {
            return Err(receipt);
        }
        board.post(&mut self.seat, receipt);
        board.count_in(&mut self.seat, slot);
        self.manager.done();
        Ok(())
    }
}
