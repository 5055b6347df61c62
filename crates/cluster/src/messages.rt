//! How messages go.
use crate::carried::Carried;
use crate::cluster::Cluster;
use crate::passing::Delivered;
use crate::pause::{Pause, Point};
use crate::places::Places;
use disk_model::HalvedDisk;
use gate_journal::Slot as Place;
use mail::Given;
use member::{Agreed, Route};
use std::sync::Wait;

impl<D: HalvedDisk + Drop, J: Agreed> Cluster<D, J> {
    /// Carries what the member at this slot has sent, and what the members that this reaches send by it.
    pub(crate) fn carry<R: Wait, P: Pause>(&self, rt: &R, from: Place, pause: &P) {
        let mut due = Places::only(from);
        for _ in rt.forever() {
            let Some(next) = due.take() else {
                break;
            };
            let reached = self.carry_from(rt, next, pause);
            due.join(reached);
        }
    }

    /// Carries on what waits at any slot for a member that takes it later.
    pub(crate) fn carry_stuck<R: Wait, P: Pause>(&self, rt: &R, pause: &P) {
        for number in 0..Place::COUNT {
            if let Some(from) = Place::new(number)
                && self.at(from).carriage.is_stuck(rt)
            {
                self.carry(rt, from, pause);
            }
        }
    }

    /// Carries what the member at this slot has sent: whom it reached.
    fn carry_from<R: Wait, P: Pause>(&self, rt: &R, from: Place, pause: &P) -> Places {
        let slot = self.at(from);
        let mut reached = Places::none();
        let Some(mut ways) = slot.carriage.enter(rt) else {
            return reached;
        };
        for _ in rt.forever() {
            for route in [Route::On, Route::Back, Route::ToHead] {
                self.carry_way(rt, from, route, ways.by(route), &mut reached, pause);
            }
            match slot.carriage.leave(rt, ways) {
                Some(again) => ways = again,
                None => break,
            }
        }
        reached
    }

    /// Carries what the member has sent by a way, until nothing is left, or a member takes a message later.
    fn carry_way<R: Wait, P: Pause>(
        &self,
        rt: &R,
        from: Place,
        route: Route,
        carried: &mut Carried,
        reached: &mut Places,
        pause: &P,
    ) {
        for _ in rt.forever() {
            self.fetch(rt, from, route, carried);
            if carried.is_empty() {
                break;
            }
            self.carry_by(rt, from, carried, reached, pause);
            if !carried.is_empty() {
                break;
            }
        }
    }

    /// Takes up what the member has sent by a way, where nothing from before is left.
    fn fetch<R: Wait>(&self, rt: &R, from: Place, route: Route, carried: &mut Carried) {
        if let Some(seated) = &mut *self.at(from).seated.lock(rt) {
            seated.fetch(self.alloc, route, carried);
        }
    }

    /// Delivers what is carried, in order, until a member takes a message later.
    fn carry_by<R: Wait, P: Pause>(
        &self,
        rt: &R,
        from: Place,
        carried: &mut Carried,
        reached: &mut Places,
        pause: &P,
    ) {
        for _ in rt.forever() {
            let Some(to) = carried.next().map(|sent| sent.to) else {
                break;
            };
            pause.at(rt, Point::Delivering(to));
            let (taken, left) = self.deliver(rt, from, to, carried);
            if taken {
                pause.at(rt, Point::Raised(to));
                reached.add(to);
            }
            if left {
                break;
            }
        }
    }

    /// Delivers what is carried to a slot, under one lock, and lets its tail raise the front. Whether a message was taken there, and whether one
    /// is left.
    fn deliver<R: Wait>(
        &self,
        rt: &R,
        from: Place,
        to: Place,
        carried: &mut Carried,
    ) -> (bool, bool) {
        let mut given = Given::new(self.alloc);
        let delivered = self.deliver_under(rt, from, to, carried, &mut given);
        self.mail.post(rt, given);
        delivered
    }

    fn deliver_under<R: Wait>(
        &self,
        rt: &R,
        from: Place,
        to: Place,
        carried: &mut Carried,
        given: &mut Given,
    ) -> (bool, bool) {
        let slot = self.at(to);
        let mut guard = slot.seated.lock(rt);
        let Some(seated) = &mut *guard else {
            carried.skip(self.alloc, to);
            return (false, false);
        };
        let (mut taken, mut left) = (false, false);
        for _ in rt.forever() {
            if !given.make_room(3) {
                left = true;
                break;
            }
            match seated.deliver_next(self.alloc, given, from, to, carried) {
                Delivered::Taken => taken = true,
                Delivered::Lost => {}
                Delivered::KeptBack => {
                    left = true;
                    break;
                }
                Delivered::Elsewhere => break,
            }
        }
        if given.make_room(2) {
            if taken {
                seated.raise(given, &self.board);
            }
            self.settle(rt, slot, seated, given);
        }
        (taken, left)
    }
}
