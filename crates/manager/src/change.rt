// The members and the orders of a change.
ghost use Rattle.std.specs.Prelude.{◌≡◌, ◌<◌, ◌∷◌, ◌++◌, [], length, is_some, false, All, IfOk, OnOk, IfSome, IfNone};
ghost use Rattle.configurations.specs.Record.{AreMembers};
ghost use Rattle.manager.specs.Manager.{has_slot};
ghost use Rattle.manager.specs.Orders.{joining_orders as orders_of_joining, removal_orders as orders_of_removal, tells, without as members_without};

use crate::Order;
use configurations::{Member, Record};
use gate_journal::Slot;
use std::alloc::{AllocError, Global};
use std::collections::VecDeque;

/// The slot of the member that has this number, if there is one.
pub(crate) fn slot_among(members: &[Member], number: u64) -> Option<Slot>
    ensures value { IfSome result (λ slot. slot ≡ number) }
    ensures found { is_some result ≡ has_slot number members.now }
    ensures slots { IfNone result (All (λ m. m.slot < 8) members.now) }
{
    for member in members {
        let slot = member.slot;
        if u64::from(slot.number()) == number {
            return Some(slot);
        }
    }
    None
}

/// The members but for the one at a slot, of which there is another.
pub(crate) fn without(
    alloc: Global,
    members: &[Member],
    slot: Slot,
) -> Result<Vec<Member>, AllocError>
    requires chain { AreMembers members.now }
    requires others { 1 < length members.now }
    ensures value { IfOk result (λ left. left.items ≡ members_without slot members.now) }
    ensures chain { IfOk result (λ left. AreMembers left.items) }
    ensures out { IfOk result (λ left. has_slot slot left.items ≡ false) }
{
    let mut left = Vec::new(alloc);
    for member in members {
        if member.slot != slot {
            left.push(*member)?;
        }
    }
    Ok(left)
}

/// The chain's members with one more behind them.
pub(crate) fn joined(
    alloc: Global,
    members: &[Member],
    joiner: Member,
) -> Result<Vec<Member>, AllocError>
    ensures { IfOk result (λ all. all.items ≡ members.now ++ joiner ∷ []) }
{
    let mut all = Vec::from_slice(alloc, members)?;
    all.push(joiner)?;
    Ok(all)
}

/// The orders that remove the member at a slot, or abandon its joining.
pub(crate) fn removal_orders(
    alloc: Global,
    slot: Slot,
    coming: &[Member],
) -> Result<VecDeque<Order>, AllocError>
    ensures { IfOk result (λ orders. orders.items ≡ orders_of_removal slot coming.now) }
{
    let mut orders = VecDeque::new(alloc);
    orders.push_back(Order::Record)?;
    orders.push_back(Order::CountOut(slot))?;
    push_tells(&mut orders, coming)?;
    Ok(orders)
}

/// The orders that join a member at a slot.
pub(crate) fn joining_orders(
    alloc: Global,
    slot: Slot,
    coming: &[Member],
) -> Result<VecDeque<Order>, AllocError>
    ensures { IfOk result (λ orders. orders.items ≡ orders_of_joining slot coming.now) }
{
    let mut orders = VecDeque::new(alloc);
    orders.push_back(Order::Attach(slot))?;
    orders.push_back(Order::Copy(slot))?;
    orders.push_back(Order::Hold(slot))?;
    orders.push_back(Order::Rest(slot))?;
    orders.push_back(Order::CountIn(slot))?;
    orders.push_back(Order::Record)?;
    push_tells(&mut orders, coming)?;
    Ok(orders)
}

/// Each member is told behind these orders.
fn push_tells(orders: &mut VecDeque<Order>, members: &[Member]) -> Result<(), AllocError>
    ensures { OnOk result (orders.new.items ≡ orders.old.items ++ tells members.now) }
{
    for member in members {
        orders.push_back(Order::Tell(member.slot))?;
    }
    Ok(())
}
