//! Members that stop, records, and who is told them.
use crate::host::{Host, Unrecorded};
use crate::joiner::Joiner;
use crate::managing::Managing;
use crate::spare::Spare;
use crate::whole::Whole;
use chain_core::Node;
use cluster::{Cluster, Seated};
use configurations::Record;
use disk_model::{Disk, HalvedDisk};
use gate_journal::Slot;
use local_store::{LendingStore, Store};
use manager::Refusal;
use member::{Agreed, Member};
use std::alloc::Global;
use std::sync::Wait;
use std::{mem, thread};

/// How often in turn a record is tried.
const TRIES: u32 = 3;

impl<D: HalvedDisk + Drop, J: Agreed, C: Disk + Drop, H: Host<D>> Managing<Store<D>, D, J, C, H> {
    /// Notes which members of the chain have stopped.
    pub(crate) fn note_stops<R: Wait>(&mut self, rt: &R, cluster: &Cluster<D, J>) {
        for number in 0..Slot::COUNT {
            if let Some(slot) = Slot::new(number)
                && self.is_member(slot)
                && !self.management.is_stopped(slot)
                && cluster.has_stopped(rt, slot)
                && self.management.stopped(slot).is_ok()
            {
                cluster.show_stop(rt, slot, &mut self.host);
            }
        }
    }

    /// Whether the slot is in the chain.
    pub(crate) fn is_member(&self, slot: Slot) -> bool {
        self.management
            .chain()
            .members()
            .iter()
            .any(|member| member.slot == slot)
    }

    /// Whether a member of the chain has stopped.
    pub(crate) fn has_stopped(&self) -> bool {
        self.management
            .chain()
            .members()
            .iter()
            .any(|member| self.management.is_stopped(member.slot))
    }

    /// The last member of the chain.
    pub(crate) fn tail(&self) -> Option<Slot> {
        self.management
            .chain()
            .members()
            .last()
            .map(|member| member.slot)
    }

    /// Begins the next change: the removal of a stopped member, or the joining of a slot that is wanted. Whether one began.
    pub(crate) fn begin_change<R: Wait>(&mut self, rt: &R, cluster: &Cluster<D, J>) -> bool {
        for number in 0..Slot::COUNT {
            if let Some(slot) = Slot::new(number)
                && self.is_member(slot)
                && self.management.is_stopped(slot)
            {
                return self.begin_removal(slot);
            }
        }
        for _ in 0..Slot::COUNT {
            if let Some(slot) = self.host.wanted() {
                self.want(slot);
            }
        }
        for number in 0..Slot::COUNT {
            if let Some(slot) = Slot::new(number)
                && self.wanted[usize::from(number)]
                && self.begin_joining(rt, cluster, slot)
            {
                return true;
            }
        }
        false
    }

    /// Begins the removal of a stopped member. Whether it did.
    fn begin_removal(&mut self, slot: Slot) -> bool {
        match self.management.remove(slot) {
            Ok(()) => true,
            Err(Refusal::LastMember) => {
                if !self.ended {
                    self.ended = true;
                    self.host.note_end();
                }
                false
            }
            Err(Refusal::Memory) => {
                // It is tried again.
                thread::yield_now();
                true
            }
            Err(_) => false,
        }
    }

    /// The next record goes to the disk. Where it is refused three times in turn, all members are stopped.
    pub(crate) fn record<R: Wait>(&mut self, rt: &R, cluster: &Cluster<D, J>) -> bool {
        let refusal = match self.management.record() {
            Ok(_) => {
                self.tries = 0;
                return true;
            }
            Err(refusal) => refusal,
        };
        if refusal == configurations::Refusal::Memory {
            thread::yield_now();
            return true;
        }
        self.tries = self.tries.saturating_add(1);
        if self.tries < TRIES {
            return true;
        }
        if self.tries == TRIES {
            self.host.note_unrecorded(Unrecorded { refusal });
            stop_all(rt, cluster);
            self.ended = true;
        }
        false
    }

    /// A slot is counted no longer: floors may rise.
    pub(crate) fn count_out<R: Wait>(
        &mut self,
        rt: &R,
        cluster: &Cluster<D, J>,
        slot: Slot,
    ) -> bool {
        if !self.management.count_out(cluster.board()) {
            return false;
        }
        cluster.let_floors_rise(rt);
        if self.joining.take() != Some(slot) {
            self.host.note_removal(slot);
        }
        true
    }

    /// The member at a slot is told the chain. Who joined it is seated first.
    pub(crate) fn tell<R: Wait>(&mut self, rt: &R, cluster: &Cluster<D, J>, slot: Slot) -> bool {
        let Ok(chain) = self.management.chain_copy() else {
            thread::yield_now();
            return true;
        };
        if !self.seat_joined(rt, cluster) {
            thread::yield_now();
            return true;
        }
        // One that has stopped isn't told: it is removed next.
        if cluster.tell(rt, slot, chain).is_err() {
            thread::yield_now();
            return true;
        }
        self.management.told().is_some()
    }

    /// Who joined is seated, if somebody joined and isn't yet. False where memory runs out.
    fn seat_joined<R: Wait>(&mut self, rt: &R, cluster: &Cluster<D, J>) -> bool {
        let Some(slot) = self.joining else {
            return true;
        };
        if !matches!(self.joiner, Joiner::Counted(_)) || !self.is_member(slot) {
            return true;
        }
        let Ok(chain) = self.management.chain_copy() else {
            return false;
        };
        let Joiner::Counted(whole) = mem::replace(&mut self.joiner, Joiner::Nobody) else {
            return true;
        };
        let Some(spare) = self.spares[usize::from(slot.number())].take() else {
            return true;
        };
        let seated = seated(self.alloc, cluster, chain, whole, spare, true);
        if let Some(other) = cluster.put_in(rt, slot, seated) {
            let _ = other.end();
        }
        self.joining = None;
        self.wanted[usize::from(slot.number())] = false;
        self.host.note_joining(slot);
        true
    }
}

/// The member of a store that has the volume, at its seat: one that joins, or the first of all.
pub(crate) fn seated<D: HalvedDisk + Drop, J: Agreed>(
    alloc: Global,
    cluster: &Cluster<D, J>,
    chain: Record,
    whole: Whole<Store<D>, J>,
    spare: Spare<D, J>,
    joins: bool,
) -> Seated<D, J> {
    let Spare {
        seat,
        lender,
        borrower,
    } = spare;
    let store = LendingStore::of(whole.into_store(), lender, borrower);
    let node = if joins {
        Node::join(alloc, cluster.board(), chain, store)
    } else {
        Node::new(alloc, cluster.board(), chain, store)
    };
    Seated::new(Member::new(alloc, node), seat)
}

/// Stops all members.
fn stop_all<R: Wait, D: HalvedDisk + Drop, J: Agreed>(rt: &R, cluster: &Cluster<D, J>) {
    for number in 0..Slot::COUNT {
        if let Some(slot) = Slot::new(number) {
            stop(rt, cluster, slot);
        }
    }
}

/// Stops the member at a slot, once there is memory for it.
fn stop<R: Wait, D: HalvedDisk + Drop, J: Agreed>(rt: &R, cluster: &Cluster<D, J>, slot: Slot) {
    for _ in rt.forever() {
        if cluster.stop(rt, slot).is_ok() {
            break;
        }
        thread::yield_now();
    }
}
