//! A member at its slot.
ghost use Rattle.std.specs.Prelude.{◌≡◌, ◌≢◌, [], None, Some};
ghost use Rattle.mail.specs.Given.{flat};
ghost use Rattle.member.specs.Posted.{box_of, with_box};
ghost use Rattle.cluster.specs.Carried.{order_of};
ghost use Rattle.cluster.specs.Copies.{IsOfSize};

use crate::carried::Carried;
use board::Seat;
use disk_model::HalvedDisk;
use local_store::LendingStore;
use member::{Agreed, Member, Route};
use member_copy::MemberCopy;
use std::alloc::Global;
use std::collections::VecDeque;

/// A member, and the seat by which it steps on the board, which is used under the member's lock alone. It has no `Drop`, since the
/// member hasn't: `end` ends it.
pub struct Seated<D: HalvedDisk + Drop, J: Agreed> {
    pub(crate) member: Member<LendingStore<D, J>, J>,
    pub(crate) seat: Seat,
    // what a joiner was given of its volume, while one is
    pub(crate) copy: Option<MemberCopy>,
    ghost of_board: { J.board ≡ Some seat.board },
    ghost of_size: { IsOfSize J.size copy },
}

impl<D: HalvedDisk + Drop, J: Agreed> Seated<D, J> {
    /// The member with its seat.
    pub fn new(member: Member<LendingStore<D, J>, J>, seat: Seat) -> Seated<D, J>
        requires { J.board ≡ Some seat.board }
        ensures member { result.member ≡ member }
        ensures seat { result.seat ≡ seat }
        ensures copy { result.copy ≡ None }
    {
        Seated {
            member,
            seat,
            copy: None,
        }
    }

    /// Its member, to be asked.
    pub fn member(&self) -> &Member<LendingStore<D, J>, J>
        ensures { result.now ≡ self.now.member }
    {
        &self.member
    }

    /// Its store, to be asked.
    pub(crate) fn store(&self) -> &LendingStore<D, J>
        ensures { result.now ≡ self.now.member.node.store }
    {
        self.member.node().store()
    }

    /// Takes up what the member has sent by a way, where nothing from before is left to be carried.
    pub fn fetch(&mut self, alloc: Global, route: Route, carried: &mut Carried)
        ensures fetched { order_of carried.old ≡ [] → (order_of carried.new ≡ flat (λ bundle. bundle) (box_of route self.old.member.outbox))
            × (self.new.member ≡ record self.old.member { outbox = with_box route [] self.old.member.outbox }) }
        ensures kept { order_of carried.old ≢ [] → (order_of carried.new ≡ order_of carried.old) × (self.new.member ≡ self.old.member) }
        ensures seat { self.new.seat ≡ self.old.seat }
    {
        if carried.is_empty() {
            let mut bundles = VecDeque::new(alloc);
            self.member.fetch(route, &mut bundles);
            carried.take_up(bundles, alloc);
        }
    }

    /// Gives the member up: its store, and the seat. The tokens that wait are abandoned, and what it sent is gone.
    pub fn end(self) -> (LendingStore<D, J>, Seat)
        ensures store { result.0 ≡ self.member.node.store }
        ensures seat { result.1 ≡ self.seat }
    {
        let Seated {
            member,
            seat,
            copy: _,
        } = self;
        (member.abandon(), seat)
    }
}
