//! A recovery of a folder's disks, as `nbdchain recover` does it.
use crate::disks::Folder;
use comeback::{Comeback, Ended, Recovered, Unrecovered, recover};
use disk_model::MemDisk;
use gate_journal::Slot;
use joining::NotRebuilt;
use local_store::{Store, StoreLike};
use std::alloc::Global;
use std::process::Abort;

/// A recovery that ended, or was broken off.
#[derive(Drop)]
pub(crate) struct Ending {
    /// Whether nothing was refused.
    pub(crate) whole: bool,
    /// The slot of the source, with its front, if a chain goes on.
    pub(crate) source: Option<(Slot, u64)>,
    /// The disks as they are left. One that was being rebuilt when the chain's tail stopped isn't there.
    pub(crate) left: Folder,
}

/// The chain goes on from the source of these disks, and each other is rebuilt and joins it, slots ascending, up to the first refusal.
pub(crate) fn recover_all(rt: &impl Abort, alloc: Global, folder: Folder) -> Ending {
    let Folder {
        config,
        slots: mut pairs,
    } = folder;
    pairs
        .sort_by_key(|(slot, _)| slot.number())
        .expect(rt, "memory");
    let mut slots = Vec::new(alloc);
    let mut disks = Vec::new(alloc);
    for (slot, disk) in pairs {
        slots.push(slot).expect(rt, "memory");
        disks.push(disk).expect(rt, "memory");
    }
    match recover(alloc, config, disks) {
        Ok(recovered) => rebuild_all(rt, alloc, recovered, slots),
        Err(Unrecovered::Refused(refused)) => {
            let mut left = Vec::new(alloc);
            for pair in slots.into_iter().zip(refused.disks) {
                left.push(pair).expect(rt, "memory");
            }
            Ending {
                whole: false,
                source: None,
                left: Folder {
                    config: refused.config,
                    slots: left,
                },
            }
        }
        Err(_) => panic!(rt; "each disk is of version 2, and there is memory"),
    }
}

/// The other disks are rebuilt, up to a refusal, and the chain is ended: its disks are left too.
fn rebuild_all(
    rt: &impl Abort,
    alloc: Global,
    recovered: Recovered<MemDisk>,
    slots: Vec<Slot>,
) -> Ending {
    let Recovered {
        mut comeback,
        place,
        source,
        front,
        others,
    } = recovered;
    let mut slots = slots;
    assert!(rt; place < slots.len() && slots[place] == source);
    slots.remove(place);
    let mut whole = true;
    let mut left = Vec::new(alloc);
    for (slot, disk) in slots.into_iter().zip(others) {
        if whole {
            whole = rebuild(rt, &mut comeback, slot, disk, &mut left);
        } else {
            left.push((slot, disk)).expect(rt, "memory");
        }
    }
    let Ended {
        stores,
        joiner,
        config,
    } = comeback.into_disks().expect(rt, "memory");
    for store in stores.into_iter().chain(joiner) {
        let slot = store.slot();
        left.push((slot, store.into_disk())).expect(rt, "memory");
    }
    Ending {
        whole,
        source: Some((source, front)),
        left: Folder {
            config,
            slots: left,
        },
    }
}

/// Whether a disk is rebuilt. One that is given back is left.
fn rebuild(
    rt: &impl Abort,
    comeback: &mut Comeback<Store<MemDisk>, MemDisk>,
    slot: Slot,
    disk: MemDisk,
    left: &mut Vec<(Slot, MemDisk)>,
) -> bool {
    match comeback.rebuild(slot, disk) {
        Ok(rebuilt) => rebuilt,
        Err(NotRebuilt::Disk(_, disk)) => {
            left.push((slot, disk)).expect(rt, "memory");
            false
        }
        Err(NotRebuilt::TailStopped | NotRebuilt::Config(_)) => false,
        Err(_) => panic!(rt; "a disk refuses, and nothing else"),
    }
}
