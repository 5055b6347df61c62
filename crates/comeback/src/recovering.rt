//! What comes back of the disks of a folder.
ghost use Rattle.std.specs.Prelude.{◌≡◌, ◌≢◌, All, List, [], false, length, map, slice_get, true, IfErr, IfNone, IfOk, IfSome, IsErrOf};
ghost use Rattle.std.specs.List.{AllZip, remove};
ghost use Rattle.configurations.specs.Record.{Record as Recorded};
ghost use Rattle.configurations.specs.Store.{IsSettledConfig};
ghost use Rattle.configurations.specs.declared.refusal.Refusal.TheVariants.{NoRecord, NotNext};
ghost use Rattle.disk_model.specs.Disk.{LeavesOnly};
ghost use Rattle.gate_journal.specs.Runs.{OnlyReads};
ghost use Rattle.local_store.specs.Meaning.{Meaning, Means};
ghost use Rattle.recovery.specs.declared.refusal.Refusal.TheVariants.{NoneReturned, NotInChain};
ghost use Rattle.folder.specs.Chain.{HasNoRecord, HasRecord, config_part};
ghost use Rattle.folder.specs.Disks.{NoneIsReturned};
ghost use Rattle.folder.specs.Found.{IsFault};
ghost use Rattle.folder.specs.Refusal.{IsCausedBy, IsOfRestarting};
ghost use Rattle.folder.specs.Restart.{IsAnswered, IsAtEnd, IsRecordedOver};
ghost use Rattle.folder.specs.declared.refusal.Refusal.TheVariants.{Chain, Choice, OthersRecorded};
ghost use Rattle.comeback.specs.Recovering.{HasOneAt, IfRefused, IfUnmigrated, IsRecordedAlone, IsSlotAt, IsUnmigrated, LeavesMeaning, refusal_in};
ghost use Rattle.comeback.specs.Returning.{ComesBack, IsIdle, at_rest};

use crate::returning::Comeback;
use disk_model::Disk;
use folder::{Opened, Refused, restart};
use gate_journal::Slot;
use local_store::{Store, StoreLike};
use std::alloc::Global;

/// A chain that came back, of its source alone so far.
pub struct Recovered<D: Disk + Drop> {
    /// The chain.
    pub comeback: Comeback<Store<D>, D>,
    /// The place of the source among the disks that returned.
    pub place: usize,
    /// Its slot.
    pub source: Slot,
    /// The number of the last write that it holds.
    pub front: u64,
    /// The other disks that returned, in their order.
    pub others: Vec<D>,
}

/// Why no chain comes back.
#[derive(Drop)]
pub enum Unrecovered<D: Disk> {
    /// What `folder::restart` refuses.
    Refused(Refused<D>),
    /// The source's disk, which is of version 1, doesn't become one of version 2.
    Unmigrated {
        /// What its store refuses.
        refusal: local_store::Refusal,
        /// The chain, which is recorded.
        opened: Opened<D>,
    },
    /// Memory ran out behind that: the disks were dropped.
    Memory,
}

/// The chain of the source among a folder's disks goes on, as `folder::restart` has it: the source alone is recorded, with the next epoch, before
/// any other disk is written; then its disk is brought to version 2, if it is one of version 1. The other disks are handed back.
///
/// What `restart` refuses but 193, since the others are asked to join again; and what the source's disk refuses.
pub fn recover<D: Disk + Drop>(
    alloc: Global,
    config: D,
    disks: Vec<D>,
) -> Result<Recovered<D>, Unrecovered<D>>
    ensures comes_back { D.keeps_model → IfOk result (λ r. ComesBack ⟦<Store<D> as StoreLike>⟧.keeps (D.gives config) (map D.gives disks.items) r.place r.comeback.world.chain) }
    ensures source { D.keeps_model → IfOk result (λ r. IsSlotAt (map D.gives disks.items) r.place r.source) }
    ensures alone { IfOk result (λ r. HasOneAt r.source r.comeback.world.chain.recorded) }
    ensures front { IfOk result (λ r. r.front ≡ r.comeback.world.chain.words.front) }
    ensures whole { IfOk result (λ r. r.comeback.failed ≡ false) }
    ensures idle { IfOk result (λ r. IsIdle r.comeback.world) }

    // The chain's record is durable, and the manager goes on from it.
    ensures settled { D.keeps_model → IfOk result (λ r. IsSettledConfig r.comeback.management.config (D.gives r.comeback.management.disk) (D.may_leave_now r.comeback.management.disk)) }
    ensures current { IfOk result (λ r. r.comeback.management.config.current ≡ r.comeback.world.chain.recorded) }
    ensures part { IfOk result (λ r. r.comeback.management.config.pair.part ≡ config_part) }
    ensures manager { IfOk result (λ r. r.comeback.management.manager ≡ at_rest r.comeback.world.chain.recorded) }

    // The other disks come back, in their order, and were only read.
    ensures others { D.keeps_model → IfOk result (λ r. AllZip (OnlyReads D.gives D.may_leave_now D.moment D.may_have_left_since) (remove disks.items r.place) r.others.items) }

    // A stop at any moment of the call leaves the configuration's disk as it was, or with the source's record; and of the source's disk what
    // it might have left before, or what means what that disk meant.
    ensures any_moment { D.keeps_model → IfOk result (λ r. LeavesOnly D.moment D.may_have_left_since config r.comeback.management.disk
        (IsRecordedOver (D.may_leave_now config) (D.gives config) (map D.gives disks.items))) }
    ensures source_moment { D.keeps_model → IfOk result (λ r. IfSome (slice_get disks.items r.place) (λ disk. (meaning : Meaning) × Means meaning (D.gives disk)
        × All (λ m. LeavesMeaning D.may_leave_now D.moment D.may_have_left_since meaning disk m.node.store.disk) r.comeback.world.chain.members)) }

    // What `restart` refuses: which refusal comes when, and what is left then. All disks that returned are handed back, and were only read.
    ensures answered { D.keeps_model → IsAnswered true (D.size config) (D.gives config) (map D.gives disks.items) (refusal_in result) }
    ensures no_record { D.keeps_model → IfErr result (λ e. IfRefused e (λ r. r.refusal ≡ Chain NoRecord → HasNoRecord (D.size config) (D.gives config))) }
    ensures none_returned { IfErr result (λ e. IfRefused e (λ r. r.refusal ≡ Choice NoneReturned → disks.items ≡ [])) }
    ensures none_returned_to { D.keeps_model → IfErr result (λ e. IfRefused e (λ r. r.refusal ≡ Choice NoneReturned
        → (old : Recorded) × HasRecord old (D.gives config))) }
    ensures strangers { D.keeps_model → IfErr result (λ e. IfRefused e (λ r. r.refusal ≡ Choice NotInChain
        → (old : Recorded) × HasRecord old (D.gives config) × NoneIsReturned old.members (map D.gives disks.items))) }
    ensures not_next { D.keeps_model → IfErr result (λ e. IfRefused e (λ r. r.refusal ≡ Chain NotNext → IsAtEnd (D.gives config))) }
    ensures others_recorded { D.keeps_model → IfErr result (λ e. IfRefused e (λ r. r.refusal ≢ OthersRecorded)) }
    ensures told { IfErr result (λ e. IfRefused e (λ r. IsOfRestarting r.refusal)) }
    ensures fault { IfErr result (λ e. IfRefused e (λ r. IfSome r.fault (λ place. IsFault D.failures disks.items r.disks.items place r.refusal))) }
    ensures cause { IfErr result (λ e. IfRefused e (λ r. IfNone r.fault (IsCausedBy (D.failures config) (D.failures r.config) r.refusal))) }
    ensures back { D.keeps_model → IfErr result (λ e. IfRefused e (λ r. LeavesOnly D.moment D.may_have_left_since config r.config
        (IsRecordedOver (D.may_leave_now config) (D.gives config) (map D.gives disks.items)))) }
    ensures all_back { D.keeps_model → IfErr result (λ e. IfRefused e (λ r. AllZip (OnlyReads D.gives D.may_leave_now D.moment D.may_have_left_since)
        disks.items r.disks.items)) }
    ensures as_many { IfErr result (λ e. IfRefused e (λ r. length r.disks.items ≡ length disks.items)) }

    // Whatever is refused behind that, the chain is recorded.
    ensures unmigrated { D.keeps_model → IfErr result (λ e. IfUnmigrated e (IsUnmigrated ⟦<Store<D> as StoreLike>⟧.about ⟦<Store<D> as StoreLike>⟧.keeps
        D.gives D.may_leave_now D.moment D.may_have_left_since D.failures config disks.items)) }
    ensures memory { D.keeps_model → IsErrOf result Unrecovered.Memory → IsRecordedAlone D.gives D.may_leave_now D.moment D.may_have_left_since config (map D.gives disks.items) }
{
    let mut opened = match restart(alloc, config, disks, true) {
        Ok(opened) => opened,
        Err(refused) => return Err(Unrecovered::Refused(refused)),
    };
    if let Err(refusal) = opened.migrate() {
        return Err(Unrecovered::Unmigrated { refusal, opened });
    }
    let (source, front) = (opened.source(), opened.front());
    let Opened {
        config,
        configs,
        record: told,
        place,
        store,
        others,
    } = opened;
    match Comeback::new(alloc, told, configs, config, store) {
        Ok(comeback) => Ok(Recovered {
            comeback,
            place,
            source,
            front,
            others,
        }),
        Err(_) => Err(Unrecovered::Memory),
    }
}
