//! The manager, and what it does next.
ghost use Rattle.std.specs.Prelude.{◌≡◌, ◌*◌, Some, vec_len};

use crate::host::Host;
use crate::joiner::Joiner;
use crate::spare::Spare;
use cluster::Cluster;
use disk_model::{Disk, HalvedDisk};
use gate_journal::Slot;
use local_store::{Store, StoreLike};
use management::Management;
use manager::Order;
use member::Agreed;
use std::alloc::Global;
use std::sync::Wait;
use volume::Geometry;

/// The manager of a chain whose members run in threads.
pub struct Managing<S: StoreLike, D: HalvedDisk, J: Agreed, C: Disk, H: Host<D>> {
    pub(crate) alloc: Global,
    pub(crate) geometry: Geometry,
    pub(crate) management: Management<C>,
    pub(crate) host: H,
    // what each slot without a member keeps for its next one
    pub(crate) spares: Vec<Option<Spare<D, J>>>,
    // which slots are to join
    pub(crate) wanted: [bool; 8],
    // the slot whose joining is under way, and its disk
    pub(crate) joining: Option<Slot>,
    pub(crate) joiner: Joiner<S, D, J>,
    // how often in turn the next record was refused
    pub(crate) tries: u32,
    // no member runs any more, or no record can be written, which the host was told
    pub(crate) ended: bool,
    ghost of_board: { J.board ≡ Some management.seat.board },
    ghost of_size: { J.size ≡ 4096 * geometry.blocks },
    ghost eight: { vec_len spares ≡ 8 },
}

impl<D: HalvedDisk + Drop, J: Agreed, C: Disk + Drop, H: Host<D>> Managing<Store<D>, D, J, C, H> {
    /// The manager of a chain with a volume of these sizes. There is a spare for each slot without a member, in the slots' order.
    pub fn new(
        alloc: Global,
        geometry: Geometry,
        management: Management<C>,
        spares: Vec<Option<Spare<D, J>>>,
        host: H,
    ) -> Managing<Store<D>, D, J, C, H>
        requires board { J.board ≡ Some management.seat.board }
        requires size { J.size ≡ 4096 * geometry.blocks }
        requires eight { vec_len spares ≡ 8 }
    {
        Managing {
            alloc,
            geometry,
            management,
            host,
            spares,
            wanted: [false; 8],
            joining: None,
            joiner: Joiner::Nobody,
            tries: 0,
            ended: false,
        }
    }

    /// The disk of this slot is to join the chain, once nothing else is to be done.
    pub fn want(&mut self, slot: Slot) {
        self.wanted[usize::from(slot.number())] = true;
    }

    /// Does one thing after another, until the crew is told to end, or the chain can't go on: no member runs any more, or its next record
    /// can't be written. The host was told that then.
    pub fn manage<R: Wait>(&mut self, rt: &R, cluster: &Cluster<D, J>) {
        for _ in rt.forever() {
            let count = cluster.changes().count(rt);
            if cluster.changes().is_closed(rt) {
                break;
            }
            if !self.step(rt, cluster) && (self.ended || cluster.changes().wait_past(rt, count)) {
                break;
            }
        }
    }

    /// Does the next thing that is to be done. Whether there was any.
    fn step<R: Wait>(&mut self, rt: &R, cluster: &Cluster<D, J>) -> bool {
        self.note_stops(rt, cluster);
        if self.is_disturbed() {
            return self.abandon(rt, cluster);
        }
        match self.management.next() {
            Order::Idle => self.begin_change(rt, cluster),
            Order::Record => self.record(rt, cluster),
            Order::CountOut(slot) => self.count_out(rt, cluster, slot),
            Order::Tell(slot) => self.tell(rt, cluster, slot),
            Order::Attach(slot) => self.attach(rt, cluster, slot),
            Order::Copy(slot) => self.copy(rt, cluster, slot),
            Order::Hold(slot) => self.hold(rt, cluster, slot),
            Order::Rest(slot) => self.give_rest(rt, cluster, slot),
            Order::CountIn(slot) => self.count_in(cluster, slot),
        }
    }

    /// Gives the manager up: the configuration's disk, and the host.
    pub fn into_parts(self) -> (C, H) {
        let Managing {
            alloc: _,
            geometry: _,
            management,
            host,
            spares: _,
            wanted: _,
            joining: _,
            joiner: _,
            tries: _,
            ended: _,
        } = self;
        let (disk, _) = management.into_parts();
        (disk, host)
    }
}
