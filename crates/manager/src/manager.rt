// What a manager knows, and its calls.
ghost use Rattle.std.specs.Prelude.{◌≡◌, ◌≢◌, ◌↔◌, ◌⊎◌, ◌+◌, ◌<◌, ◌||◌, nat_lt, [], Some, None, is_some, length, replicate, false, IfOk, IfErr, IfSome, IsOk, IsErrOf, IsTrue, OnErr, OnOk};
ghost use Rattle.std.specs.Result.{result_err};
ghost use Rattle.configurations.specs.Record.{AreMembers};
ghost use Rattle.manager.specs.Orders.{joined as joined_members, removal_orders as orders_of_removal, without as without_slot};
ghost use Rattle.manager.specs.Manager.{IsManager, IsNext, abandoned, begun_of, done_of, has_slot, is_busy as is_busy_now, is_held as is_held_now, is_joining, is_stopped as is_stopped_at, is_tail_stopped as is_tail_stopped_now, joining_of, next_of, record_of, removal_of, stopped_at, why_no_abandoning, why_no_joining, why_no_record, why_no_removal, why_not_stopped};

use crate::change::{joined, joining_orders, removal_orders, slot_among, without};
use crate::{Order, Refusal};
use configurations::{Epoch, Incarnation, Member, Record};
use gate_journal::Slot;
use std::alloc::{AllocError, Global};
use std::collections::VecDeque;
use std::marker::Model;

/// The manager of a chain: the chain as it was recorded last, who is stopped, and the change under way.
#[derive(Debug, Drop)]
pub struct Manager {
    chain: Record,
    stopped: [bool; 8],
    joining: Option<Slot>,
    coming: Option<Record>,
    begun: bool,
    left: VecDeque<Order>,
}

impl Model for Manager {
    ghost use Rattle.manager.specs.Manager.{Keeps, State, state_of};

    ghost Value = { State };

    ghost view = { λ m. state_of m.chain m.stopped m.joining m.coming m.begun m.left.items };

    ghost invariant = { λ m. Keeps (state_of m.chain m.stopped m.joining m.coming m.begun m.left.items) m.coming };
}

/// What a change needs of the manager: the slot, and the epoch of its record.
#[derive(Clone, Copy)]
struct Change {
    slot: Slot,
    epoch: Epoch,
}

impl Manager {
    /// The manager of a chain, of which no member is stopped, with no change under way.
    pub fn new(alloc: Global, chain: Record) -> Manager
        ensures { result ≡ record { chain = chain; stopped = replicate 8 false; joining = None; coming = chain.members; begun = false; left = [] } }
    {
        Manager {
            chain,
            stopped: [false; 8],
            joining: None,
            coming: None,
            begun: false,
            left: VecDeque::new(alloc),
        }
    }

    /// The epoch of the last record.
    pub fn epoch(&self) -> Epoch
        ensures { result ≡ self.now.chain.epoch }
    {
        self.chain.epoch()
    }

    /// The members of the last record, one to eight, in the chain's order.
    pub fn members(&self) -> &[Member]
        ensures members { result.now ≡ self.now.chain.members }
        ensures are { AreMembers result.now }
    {
        self.chain.members()
    }

    /// Whether the member at this slot is stopped. False for a slot above 7.
    pub fn is_stopped(&self, slot: u64) -> bool
        ensures { result ≡ is_stopped_at slot self.now.stopped }
    {
        match self.stopped.get(slot as usize) {
            Some(stopped) => *stopped,
            None => false,
        }
    }

    /// The member at this slot, or the joiner, has stopped. 151 `NotMember` for a slot of neither.
    pub fn stopped(&mut self, slot: u64) -> Result<(), Refusal>
        ensures done { OnOk result (self.new ≡ stopped_at slot self.old) }
        ensures slot { OnOk result (slot < 8) }
        ensures why { result_err result ≡ why_not_stopped slot self.old }
        ensures as_before { OnErr result (self.new ≡ self.old) }
    {
        let place = self.place_of(slot).ok_or(Refusal::NotMember)?;
        self.stopped[usize::from(place.number())] = true;
        Ok(())
    }

    /// Begins the removal of the stopped member at a slot. 171 `OneAtATime` while a change is under way, 151 `NotMember`
    /// for a slot that isn't in the chain, 172 `LastMember` where the chain has no other, 173 `NotStopped` while the
    /// member runs, 162 `NotNext` where the chain's epoch is the greatest, in this order, and 100 `Memory` after these.
    pub fn remove(&mut self, alloc: Global, slot: u64) -> Result<(), Refusal>
        ensures done { OnOk result (self.new ≡ removal_of slot self.old) }
        ensures ok { IsOk result → why_no_removal slot self.old ≡ None }
        ensures refused { IfErr result (λ e. e ≢ Refusal.Memory → why_no_removal slot self.old ≡ Some e) }
        ensures memory { IsErrOf result Refusal.Memory → why_no_removal slot self.old ≡ None }
        ensures as_before { OnErr result (self.new ≡ self.old) }
    {
        let change = self.may_remove(slot)?;
        let members = without(alloc, self.chain.members(), change.slot)?;
        self.begin_removal(alloc, change, members)?;
        Ok(())
    }

    /// Begins the joining of a new member at a slot, behind the tail. 171 `OneAtATime` while a change is under way, 163
    /// `BadMembers` for a slot above 7, 174 `SlotInUse` for the slot of a member, 162 `NotNext` where the chain's epoch is
    /// the greatest, in this order, and 100 `Memory` after these.
    pub fn join(&mut self, alloc: Global, slot: u64) -> Result<(), Refusal>
        ensures done { OnOk result (self.new ≡ joining_of slot self.old) }
        ensures ok { IsOk result → why_no_joining slot self.old ≡ None }
        ensures refused { IfErr result (λ e. e ≢ Refusal.Memory → why_no_joining slot self.old ≡ Some e) }
        ensures memory { IsErrOf result Refusal.Memory → why_no_joining slot self.old ≡ None }
        ensures as_before { OnErr result (self.new ≡ self.old) }
    {
        let Change { slot, epoch } = self.may_join(slot)?;
        let incarnation = Incarnation::new(epoch.number()).unwrap();
        let members = joined(alloc, self.chain.members(), Member { slot, incarnation })?;
        let left = joining_orders(alloc, slot, &members)?;
        self.coming = Some(Record::new(epoch, members).unwrap());
        self.joining = Some(slot);
        self.stopped[usize::from(slot.number())] = false;
        self.left = left;
        Ok(())
    }

    /// Whether the joining under way, if one is, may be abandoned.
    pub fn can_abandon(&self) -> bool
        ensures { IsTrue result ↔ (why_no_abandoning self.now ≡ None) }
    {
        self.may_abandon().is_ok()
    }

    /// Abandons the joining under way: the same members are recorded with the next epoch, so that the joiner's
    /// incarnation isn't used again. 171 `OneAtATime` where no joining is under way, or its record was begun, and 100
    /// `Memory` after this.
    pub fn abandon_join(&mut self, alloc: Global) -> Result<(), Refusal>
        ensures done { OnOk result (self.new ≡ abandoned self.old) }
        ensures ok { IsOk result → why_no_abandoning self.old ≡ None }
        ensures refused { IfErr result (λ e. e ≢ Refusal.Memory → why_no_abandoning self.old ≡ Some e) }
        ensures memory { IsErrOf result Refusal.Memory → why_no_abandoning self.old ≡ None }
        ensures as_before { OnErr result (self.new ≡ self.old) }
    {
        let change = self.may_abandon()?;
        let members = Vec::from_slice(alloc, self.chain.members())?;
        self.begin_removal(alloc, change, members)?;
        Ok(())
    }

    /// The next order, the same until `done`. `Idle` where nothing is left, and while the tail or the joiner of a joining
    /// is stopped whose record wasn't begun: then it can only be abandoned.
    pub fn next(&self) -> Order
        ensures { result ≡ next_of self.now }
    {
        if self.is_held() {
            return Order::Idle;
        }
        match self.left.front() {
            Some(order) => *order,
            None => Order::Idle,
        }
    }

    /// The record that is to be written, where the next order is `Record`: the next epoch, and the members that the change
    /// comes to. It asks for memory in this case alone.
    pub fn record(&self, alloc: Global) -> Result<Option<Record>, AllocError>
        ensures value { IfOk result (λ found. found ≡ record_of self.now) }
        ensures none { record_of self.now ≡ None → IsOk result }
    {
        if !self.next().is_record() {
            return Ok(None);
        }
        let Some(coming) = &self.coming else {
            return Ok(None);
        };
        let members = Vec::from_slice(alloc, coming.members())?;
        Ok(Some(Record::new(coming.epoch(), members).unwrap()))
    }

    /// The record's writing has begun, where it is the next order: from now on the joining can't be abandoned. Else nothing
    /// changes.
    pub fn begin(&mut self)
        ensures { self.new ≡ begun_of self.old }
    {
        if self.next().is_record() {
            self.begun = true;
        }
    }

    /// The next order was carried out. With `Record` the record that was under way is the chain's. At `Idle` nothing
    /// changes.
    pub fn done(&mut self)
        ensures { self.new ≡ done_of self.old }
    {
        if self.is_held() {
            return;
        }
        let Some(order) = self.left.pop_front() else {
            return;
        };
        if !order.is_record() {
            return;
        }
        self.chain = self.coming.take().unwrap();
        self.joining = None;
        self.begun = false;
    }

    /// Whether a joining can't go on.
    fn is_held(&self) -> bool
        ensures { result ≡ is_held_now self.now }
    {
        let Some(joiner) = self.joining else {
            return false;
        };
        !self.begun && (self.is_tail_stopped() || self.has_stopped(joiner))
    }

    /// Whether the last member of the chain is stopped.
    fn is_tail_stopped(&self) -> bool
        ensures { result ≡ is_tail_stopped_now self.now.stopped self.now.chain.members }
    {
        match self.chain.members().last() {
            Some(tail) => self.has_stopped(tail.slot),
            None => false,
        }
    }

    /// Whether the member at this slot is stopped.
    fn has_stopped(&self, slot: Slot) -> bool
        ensures { result ≡ is_stopped_at slot self.now.stopped }
    {
        self.stopped[usize::from(slot.number())]
    }

    /// Whether a change is under way.
    fn is_busy(&self) -> bool
        ensures { result ≡ is_busy_now self.now }
    {
        !self.left.is_empty()
    }

    /// The slot of the member or the joiner that has this number.
    fn place_of(&self, number: u64) -> Option<Slot>
        ensures value { IfSome result (λ slot. slot ≡ number) }
        ensures found { is_some result ≡ (is_joining number self.now.joining || has_slot number self.now.chain.members) }
    {
        match self.joining {
            Some(joiner) if u64::from(joiner.number()) == number => Some(joiner),
            _ => slot_among(self.chain.members(), number),
        }
    }

    /// The epoch of the next record.
    fn next_epoch(&self) -> Result<Epoch, Refusal>
        ensures next { IfOk result (IsNext self.now) }
        ensures why { result_err result ≡ why_no_record self.now }
    {
        Epoch::new(self.chain.epoch().number() + 1).ok_or(Refusal::NotNext)
    }

    /// The removal of the member at a slot, where it may begin.
    fn may_remove(&self, number: u64) -> Result<Change, Refusal>
        ensures slot { IfOk result (λ change. change.slot ≡ number) }
        ensures next { IfOk result (λ change. IsNext self.now change.epoch) }
        ensures others { OnOk result (1 < length self.now.chain.members) }
        ensures joining { OnOk result (self.now.joining ≡ None) }
        ensures why { result_err result ≡ why_no_removal number self.now }
    {
        if self.is_busy() {
            return Err(Refusal::OneAtATime);
        }
        let slot = slot_among(self.chain.members(), number).ok_or(Refusal::NotMember)?;
        if self.chain.members().len() == 1 {
            return Err(Refusal::LastMember);
        }
        if !self.has_stopped(slot) {
            return Err(Refusal::NotStopped);
        }
        let epoch = self.next_epoch()?;
        Ok(Change { slot, epoch })
    }

    /// The joining of a member at a slot, where it may begin.
    fn may_join(&self, number: u64) -> Result<Change, Refusal>
        ensures slot { IfOk result (λ change. change.slot ≡ number) }
        ensures next { IfOk result (λ change. IsNext self.now change.epoch) }
        ensures room { OnOk result (AreMembers (joined_members number self.now.chain)) }
        ensures free { OnOk result (has_slot number self.now.chain.members ≡ false) }
        ensures begun { OnOk result (self.now.begun ≡ false) }
        ensures why { result_err result ≡ why_no_joining number self.now }
    {
        if self.is_busy() {
            return Err(Refusal::OneAtATime);
        }
        let slot = slot_of(number).ok_or(Refusal::BadMembers)?;
        if slot_among(self.chain.members(), number).is_some() {
            return Err(Refusal::SlotInUse);
        }
        let epoch = self.next_epoch()?;
        Ok(Change { slot, epoch })
    }

    /// The end of the joining under way, where it may be abandoned.
    fn may_abandon(&self) -> Result<Change, Refusal>
        ensures slot { IfOk result (λ change. self.now.joining ≡ Some change.slot) }
        ensures next { IfOk result (λ change. IsNext self.now change.epoch) }
        ensures out { IfOk result (λ change. has_slot change.slot self.now.chain.members ≡ false) }
        ensures why { result_err result ≡ why_no_abandoning self.now }
    {
        match (self.joining, &self.coming) {
            (Some(slot), Some(coming)) if !self.begun => Ok(Change {
                slot,
                epoch: coming.epoch(),
            }),
            _ => Err(Refusal::OneAtATime),
        }
    }

    /// Begins a change that records these members and counts out the one at its slot.
    fn begin_removal(
        &mut self,
        alloc: Global,
        change: Change,
        members: Vec<Member>,
    ) -> Result<(), AllocError>
        requires next { IsNext self.old change.epoch }
        requires chain { AreMembers members.items }
        requires kept { (members.items ≡ without_slot change.slot self.old.chain.members) ⊎ (members.items ≡ self.old.chain.members) }
        requires out { has_slot change.slot members.items ≡ false }
        ensures done { OnOk result (self.new ≡ record self.old { joining = None; coming = members.items; left = orders_of_removal change.slot members.items }) }
        ensures as_before { OnErr result (self.new ≡ self.old) }
    {
        let left = removal_orders(alloc, change.slot, &members)?;
        self.coming = Some(Record::new(change.epoch, members).unwrap());
        self.joining = None;
        self.left = left;
        Ok(())
    }
}

/// A law, for callers that argue about what is left to do: what holds of every manager. The function does nothing.
pub fn managers_are(manager: &Manager)
    ensures { IsManager manager.now }
{
    let _epoch = manager.chain.epoch().number();
    let _members = manager.chain.members();
    let _stopped = each_slot(&manager.stopped);
}

/// One mark a slot.
fn each_slot(marks: &[bool; 8]) -> &[bool]
    ensures marks { result.now ≡ marks.now }
    ensures all { length result.now ≡ 8 }
{
    marks
}

/// The slot with this number, or `None` above 7.
fn slot_of(number: u64) -> Option<Slot>
    ensures value { IfSome result (λ slot. slot ≡ number) }
    ensures valid { is_some result ≡ nat_lt number 8 }
{
    if number < u64::from(Slot::COUNT) {
        Slot::new(number as u8)
    } else {
        None
    }
}
