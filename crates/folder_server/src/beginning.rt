//! A chain of one that goes on from a folder's disks.
ghost use Rattle.std.specs.Prelude.{◌≡◌, ◌⊎◌, ◌≤◌, map, slice_get, IfOk, IfSome};
ghost use Rattle.std.specs.List.{AllZip, remove};
ghost use Rattle.chain_core.specs.Node.{IsRunning};
ghost use Rattle.configurations.specs.Store.{IsSettledConfig};
ghost use Rattle.disk_model.specs.Disk.{LeavesOnly};
ghost use Rattle.folder.specs.Chain.{config_part as the_part};
ghost use Rattle.folder.specs.Restart.{IsRecordedOver};
ghost use Rattle.gate_journal.specs.Runs.{OnlyReads};
ghost use Rattle.local_store.specs.Meaning.{Meaning, Means};
ghost use Rattle.folder_server.specs.Beginning.{GoesOnFrom, HasVersionTwo};

use configurations::Epoch;
use disk_model::Disk;
use folder::{Opened, Refused, restart};
use home_blocks::superblocks_are_one;
use local_store::{Store, StoreLike, disks_mean_one};
use serving::Source;
use std::alloc::Global;

/// A chain of one that goes on from a folder's disks.
#[derive(Drop)]
pub struct Begun<D: Disk> {
    /// Its store, and the record of it on the configuration's disk.
    pub source: Source<D, D>,
    /// The place of the source among the members' disks.
    pub place: usize,
    /// The number of the last write that it holds.
    pub front: u64,
    /// The epoch of the chain that goes on.
    pub epoch: Epoch,
    /// The other members' disks.
    pub others: Vec<D>,
}

/// Why no chain goes on.
#[derive(Drop)]
pub enum Unbegun<D: Disk> {
    /// The source isn't recorded.
    Refused(Refused<D>),
    /// The source's disk, which is of version 1, doesn't become one of version 2.
    Unmigrated {
        /// What its store refuses.
        refusal: local_store::Refusal,
        /// The chain, which is recorded.
        opened: Opened<D>,
    },
}

/// A chain of one goes on from the configuration's disk and the members' disks that returned, as `restart` has it: the source among them is
/// recorded alone, whatever members the chain had. Then its disk is brought to version 2, if it is of version 1; one of version 2 is only
/// read. The other disks are only read, and come back.
pub fn begin_from<D: Disk + Drop>(
    alloc: Global,
    config: D,
    disks: Vec<D>,
) -> Result<Begun<D>, Unbegun<D>>
    ensures goes_on { D.keeps_model → IfOk result (λ b. GoesOnFrom ⟦<Store<D> as StoreLike>⟧.about ⟦<Store<D> as StoreLike>⟧.keeps
        (D.gives config) (map D.gives disks.items) b.place b.front b.source.store b.source.config.current) }
    ensures epoch { IfOk result (λ b. b.epoch ≡ b.source.config.current.epoch) }
    // What a chain in threads begins with.
    ensures runs { IfOk result (λ b. IsRunning (⟦<Store<D> as StoreLike>⟧.about b.source.store) (record { premise = D.keeps_model; keeps = ⟦<Store<D> as StoreLike>⟧.keeps b.source.store })) }
    ensures part { IfOk result (λ b. b.source.config.pair.part ≡ the_part) }
    ensures room { IfOk result (λ b. the_part.len ≤ D.size b.source.disk) }
    ensures settled { D.keeps_model → IfOk result (λ b. IsSettledConfig b.source.config (D.gives b.source.disk) (D.may_leave_now b.source.disk)) }
    ensures others { D.keeps_model → IfOk result (λ b. AllZip (OnlyReads D.gives D.may_leave_now D.moment D.may_have_left_since) (remove disks.items b.place) b.others.items) }
    // The source's disk is only read where it is of version 2.
    ensures reads { D.keeps_model → IfOk result (λ b. IfSome (slice_get disks.items b.place) (λ disk. HasVersionTwo (D.gives disk)
        → OnlyReads D.gives D.may_leave_now D.moment D.may_have_left_since disk b.source.store.disk)) }
    // What a stop at any moment of the call leaves of the source's disk, it might have left before, or it means the same; and of the
    // configuration's disk, the record that it had, or the source's.
    ensures any_moment { D.keeps_model → IfOk result (λ b. IfSome (slice_get disks.items b.place) (λ disk. (meaning : Meaning) → Means meaning (D.gives disk)
        → LeavesOnly D.moment D.may_have_left_since disk b.source.store.disk (λ c. D.may_leave_now disk c ⊎ Means meaning c))) }
    ensures config_moment { D.keeps_model → IfOk result (λ b. LeavesOnly D.moment D.may_have_left_since config b.source.disk
        (IsRecordedOver (D.may_leave_now config) (D.gives config) (map D.gives disks.items))) }
{
    disks_mean_one();
    superblocks_are_one();
    let mut opened = match restart(alloc, config, disks, true) {
        Ok(opened) => opened,
        Err(refused) => return Err(Unbegun::Refused(refused)),
    };
    if let Err(refusal) = opened.migrate() {
        return Err(Unbegun::Unmigrated { refusal, opened });
    }
    let (front, epoch) = (opened.front(), opened.epoch());
    let Opened {
        config,
        configs,
        record: _,
        place,
        store,
        others,
    } = opened;
    Ok(Begun {
        source: Source {
            store,
            config: configs,
            disk: config,
        },
        place,
        front,
        epoch,
        others,
    })
}
