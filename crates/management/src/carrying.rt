//! Orders that the caller carries out.
ghost use Rattle.std.specs.Prelude.{◌≡◌, ◌≢◌, ◌↔◌, ℕ, true, IfNone, IfSome, IsTrue, MatchBool};
ghost use Rattle.manager.specs.Manager.{has_slot, next_of};
ghost use Rattle.management.specs.Management.{IsDurable};
ghost use Rattle.manager.specs.declared.order.Order.TheVariants.{Tell};
ghost use Rattle.management.specs.Orders.{after_order, is_preparing};

use crate::management::Management;
use disk_model::Disk;
use gate_journal::Slot;
use manager::{Order, managers_are};

impl<C: Disk + Drop> Management<C> {
    /// Where the next order is to tell a member the chain: its slot, and the order counts as carried out. `None` where that isn't the next
    /// order: nothing changed.
    pub fn told(&mut self) -> Option<Slot>
        ensures done { IfSome result (λ slot. (next_of self.old.manager ≡ Tell slot) × (self.new ≡ after_order self.old)) }
        ensures idle { IfNone result (((slot : ℕ) → next_of self.old.manager ≢ Tell slot) × (self.new ≡ self.old)) }

        // It is a member of the chain, which is on the disk, and no other may be left there.
        ensures member { IfSome result (λ slot. has_slot slot self.new.manager.chain.members ≡ true) }
        ensures durable { C.keeps_model → IfSome result (λ _. IsDurable C.gives C.may_leave_now self.new) }
    {
        managers_are(&self.manager);
        let Order::Tell(slot) = self.manager.next() else {
            return None;
        };
        self.manager.done();
        Some(slot)
    }

    /// The caller has carried this order out, by which a joiner is prepared: `Attach`, `Copy`, `Hold` or `Rest`. `false` for any other
    /// order, and where it isn't the next one: nothing changed.
    pub fn prepared(&mut self, order: Order) -> bool
        ensures done { IsTrue result ↔ ((is_preparing order ≡ true) × (next_of self.old.manager ≡ order)) }
        ensures moves { MatchBool result (self.new ≡ after_order self.old) (self.new ≡ self.old) }
    {
        if !is_preparing(order) || self.manager.next() != order {
            return false;
        }
        self.manager.done();
        true
    }
}

/// Whether the caller carries an order out, to prepare a joiner.
fn is_preparing(order: Order) -> bool
    ensures { result ≡ is_preparing order }
{
    matches!(
        order,
        Order::Attach(_) | Order::Copy(_) | Order::Hold(_) | Order::Rest(_)
    )
}
