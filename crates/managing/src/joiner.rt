//! The disk on its way into the chain.
ghost use Rattle.std.specs.Prelude.{◌≡◌, ◌*◌, List, ℕ, IfSome, false};
ghost use Rattle.home_blocks.specs.Superblock.{Superblock};
ghost use Rattle.local_store.specs.Installer.{finished_meaning};
ghost use Rattle.local_store.specs.Meaning.{Means};
ghost use Rattle.rejoin_catchup.specs.Course.{IsWhole, IsWithin, is_end};
ghost use Rattle.rejoin_catchup.specs.Receiving.{with_piece};
ghost use Rattle.managing.specs.Joiner.{HasTakenSo, HasVolume, IsReadyAt};

use crate::whole::Whole;
use disk_model::Disk;
use gate_journal::{MAX_NUMBER, Slot, Synced};
use home_blocks::{Version, disk_size};
use local_store::{Store, StoreLike, disks_mean_one};
use member::Agreed;
use rejoin_catchup::{Piece, Ready, Receiver};
use std::alloc::Global;
use volume::Geometry;

/// The disk on its way into the chain.
#[derive(Drop)]
pub enum Joiner<S: StoreLike, D: Disk, J: Agreed> {
    /// None is.
    Nobody,
    /// It is given the volume.
    Receives(Receiver<D>),
    /// It has the volume, and isn't counted yet.
    Ready(Whole<S, J>, Synced),
    /// It is counted, and no record has it yet, or no member has it.
    Counted(Whole<S, J>),
}

impl<D: Disk + Drop, J: Agreed> Joiner<Store<D>, D, J> {
    /// A disk begins to be given the volume, for a slot and an incarnation. What it held is gone. Where it is too short, the incarnation is
    /// above 2^63 - 1, or the disk or memory refuses, it is let go.
    pub(crate) fn start(
        alloc: Global,
        disk: D,
        slot: Slot,
        incarnation: u64,
        geometry: Geometry,
    ) -> Option<Joiner<Store<D>, D, J>> {
        if disk.len() < disk_size(geometry) || incarnation > MAX_NUMBER {
            return None;
        }
        let receiver = Receiver::start(alloc, disk, slot, incarnation, geometry).ok()?;
        Some(Joiner::Receives(receiver))
    }

    /// It is given a piece of a volume of so many blocks: whether it took it. The end makes it ready.
    pub(crate) fn take(
        self,
        alloc: Global,
        piece: Piece,
        blocks: u32,
    ) -> Option<Joiner<Store<D>, D, J>>
        requires size { J.size ≡ 4096 * blocks }
        requires whole { IsWhole piece }
        requires within { IsWithin piece }
        ensures given { D.keeps_model → (sb : Superblock) (copy : List ℕ) → HasTakenSo D.gives D.may_leave_now sb copy self → is_end piece ≡ false
            → IfSome result (HasTakenSo D.gives D.may_leave_now sb (with_piece copy piece)) }
        ensures ready { D.keeps_model → (sb : Superblock) (copy : List ℕ) → HasTakenSo D.gives D.may_leave_now sb copy self → (front : ℕ) → piece ≡ Piece.End front
            → IfSome result (IsReadyAt ⟦<Store<D> as StoreLike>⟧.about ⟦<Store<D> as StoreLike>⟧.keeps sb front copy) }
    {
        let Joiner::Receives(mut receiver) = self else {
            return None;
        };
        let Ok(ready) = receiver.take(piece) else {
            return None;
        };
        match ready {
            None => Some(Joiner::Receives(receiver)),
            Some(Ready { receipt, disk }) => {
                let whole = opened(alloc, disk, blocks)?;
                Some(Joiner::Ready(whole, receipt))
            }
        }
    }
}

/// The store of a disk that was given the volume, which has so many blocks. `None` where it is none, or the disk or memory refuses.
fn opened<D: Disk + Drop, J: Agreed>(
    alloc: Global,
    disk: D,
    blocks: u32,
) -> Option<Whole<Store<D>, J>>
    requires { J.size ≡ 4096 * blocks }
    ensures kept { D.keeps_model → (sb : Superblock) (front : ℕ) (volume : List ℕ) → Means (finished_meaning sb front volume) (D.gives disk)
        → IfSome result (HasVolume ⟦<Store<D> as StoreLike>⟧.about ⟦<Store<D> as StoreLike>⟧.keeps sb front volume) }
{
    disks_mean_one();
    let Ok(store) = Store::open(alloc, disk) else {
        return None;
    };
    if store.geometry().blocks != blocks {
        return None;
    }
    match store.version() {
        Version::Two => Some(Whole::new(store)),
        Version::One => None,
    }
}
