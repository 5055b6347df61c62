//! The receiver's side: pieces, in their order, onto a disk.
ghost use Rattle.std.specs.Prelude.{◌≡◌, ◌≢◌, ◌↔◌, ◌+◌, ◌*◌, ◌≤◌, List, None, Some, ℕ, false, length, true, is_some, IfErr, IfOk, IsErrOf, IsSome, IsSomeAnd, OnOk};
ghost use Rattle.std.specs.Option.{ForSome};
ghost use Rattle.disk_model.specs.Disk.{LeavesOnly, Only};
ghost use Rattle.home_blocks.specs.Places.{disk_size_of};
ghost use Rattle.home_blocks.specs.Superblock.{Superblock};
ghost use Rattle.local_store.specs.Installer.{HasNone, IsNotMeant, finished_meaning, unfinished};
ghost use Rattle.local_store.specs.Meaning.{Means};
ghost use Rattle.local_store.specs.Refusal as store;
ghost use Rattle.local_store.specs.declared.refusal.Refusal.TheVariants as faults;
ghost use Rattle.rejoin_catchup.specs.Course.{IsWhole, IsWithin, calls_of, course_behind, course_failed, is_end};
ghost use Rattle.rejoin_catchup.specs.Receiving.{HasTaken, IfReady, Leads, MayBeLeft, disk_of, with_piece};
ghost use Rattle.rejoin_catchup.specs.Refusal.{IsCaused, IsOfTaking};

use crate::course::Course;
use crate::piece::Piece;
use crate::ready::Ready;
use crate::refusal::Refusal;
use disk_model::Disk;
use gate_journal::{MAX_NUMBER, Slot};
use local_store::Installer;
use std::alloc::Global;
use std::marker::Model;
use volume::{BLOCK_SIZE, Geometry};

/// A disk that gets the volume, piece by piece.
#[derive(Drop)]
pub struct Receiver<D: Disk> {
    course: Course,
    installer: Option<Installer<D>>,
    left: Option<D>,
}

impl<D: Disk> Model for Receiver<D> {
    ghost use Rattle.std.specs.Prelude.{option_map};
    ghost use Rattle.rejoin_catchup.specs.Receiving.{IsReceiving, Receiving};

    ghost Value = { Receiving D };

    ghost view = { λ r. record {
      course = r.course;
      installation = option_map (λ i. record { home = i.home; given = i.given; broken = i.broken; disk = i.disk }) r.installer;
      left = r.left;
    } };

    ghost invariant = { λ r. IsReceiving (record {
      course = r.course;
      installation = option_map (λ i. record { home = i.home; given = i.given; broken = i.broken; disk = i.disk }) r.installer;
      left = r.left;
    }) };
}

impl<D: Disk + Drop> Receiver<D> {
    /// Begins on a disk of at least `disk_size(geometry)` bytes, which may hold anything, as `Installer::start` does, with its
    /// refusals. The incarnation is at most 2^63 - 1. Nothing came yet.
    pub fn start(
        alloc: Global,
        disk: D,
        slot: Slot,
        incarnation: u64,
        geometry: Geometry,
    ) -> Result<Receiver<D>, (local_store::Refusal, D)>
        requires on_disk { disk_size_of geometry ≤ D.size disk }
        requires limit { incarnation ≤ MAX_NUMBER }

        ensures course { IfOk result (λ r. r.course ≡ record { blocks = geometry.blocks; next = 0; again = 0; over = false }) }
        ensures superblock { IfOk result (λ r. IsSomeAnd r.installation (λ i. i.home.superblock ≡ unfinished slot incarnation geometry)) }
        ensures runs { IfOk result (λ r. IsSomeAnd r.installation (λ i. i.broken ≡ false)) }
        // No block was given, so it has taken whichever copy is as long as the volume.
        ensures taken { D.keeps_model → (copy : List ℕ) → length copy ≡ 4096 * geometry.blocks
            → IfOk result (HasTaken D.gives D.may_leave_now (unfinished slot incarnation geometry) copy) }

        // Where nothing that may be left at first shows a superblock of the slot and incarnation, a stop at any moment of the
        // call leaves what means no volume of them.
        ensures any_moment { D.keeps_model → ((c : List ℕ) → D.may_leave_now disk c → HasNone slot incarnation c)
            → IfOk result (λ r. IsSomeAnd (disk_of r) (λ now. LeavesOnly D.moment D.may_have_left_since disk now (IsNotMeant slot incarnation))) }
        ensures any_moment_refused { D.keeps_model → ((c : List ℕ) → D.may_leave_now disk c → HasNone slot incarnation c)
            → IfErr result (λ e. LeavesOnly D.moment D.may_have_left_since disk e.1 (IsNotMeant slot incarnation)) }

        ensures calls { IfOk result (λ r. IsSomeAnd (disk_of r) (λ now. D.calls_made now ≤ D.calls_made disk + 12)) }
        ensures calls_refused { IfErr result (λ e. D.calls_made e.1 ≤ D.calls_made disk + 12) }
        ensures size { IfOk result (λ r. IsSomeAnd (disk_of r) (λ now. D.size now ≡ D.size disk)) }
        ensures size_refused { IfErr result (λ e. D.size e.1 ≡ D.size disk) }
        ensures unchanged { IfErr result (λ e. e.0 ≡ faults.Memory → e.1 ≡ disk) }
        ensures told { IfErr result (λ e. store.IsOfFormatting e.0) }
        ensures done { IfOk result (λ r. IsSomeAnd (disk_of r) (λ now. D.failures now ≡ D.failures disk)) }
        ensures cause { IfErr result (λ e. store.IsCaused (D.failures disk) (D.failures e.1) e.0) }
        // Where the disk can't fail any more, the refusal isn't the device's.
        ensures calm { IfErr result (λ e. D.failures disk ≡ D.most_failures disk → store.IsNotOfDevice e.0) }
    {
        let installer = Installer::start(alloc, disk, slot, incarnation, geometry)?;
        Ok(Receiver {
            course: Course::new(geometry.blocks),
            installer: Some(installer),
            left: None,
        })
    }

    /// Takes the next piece. `Ready` comes of the end alone: its disk is whole. The bytes of a block are 4,096, and the end's
    /// front is at most 2^63 - 1.
    ///
    /// 181 `OutOfOrder`, with nothing changed: a first block that isn't the next, a block that is given again before each was
    /// given once, or isn't above the last that was, one that the volume hasn't, the end before each was given, and whatever
    /// comes behind the end, or behind one that was refused. Else 122 `Broken` exactly where a device call failed before, and
    /// what the device refuses.
    pub fn take(&mut self, piece: Piece) -> Result<Option<Ready<D>>, Refusal>
        requires whole { IsWhole piece }
        requires limit { IsWithin piece }

        ensures order { IsErrOf result Refusal.OutOfOrder ↔ (course_behind self.old.course piece ≡ None) }
        ensures unchanged { IsErrOf result Refusal.OutOfOrder → self.new ≡ self.old }
        ensures taken { OnOk result (course_behind self.old.course piece ≡ Some self.new.course) }
        ensures failed { IfErr result (λ e. e ≢ Refusal.OutOfOrder → self.new.course ≡ course_failed self.old.course piece) }
        ensures ready { IfOk result (λ ready. is_some ready ≡ is_end piece) }

        ensures given { D.keeps_model → (sb : Superblock) (copy : List ℕ) → HasTaken D.gives D.may_leave_now sb copy self.old → is_end piece ≡ false
            → OnOk result (HasTaken D.gives D.may_leave_now sb (with_piece copy piece) self.new) }
        ensures receipt { ForSome self.old.installation (λ i. (front : ℕ) → piece ≡ Piece.End front
            → IfReady result (λ ready. ready.receipt ≡ record { slot = i.home.superblock.slot; front = front })) }
        ensures means { D.keeps_model → (sb : Superblock) (copy : List ℕ) → HasTaken D.gives D.may_leave_now sb copy self.old → (front : ℕ) → piece ≡ Piece.End front
            → IfReady result (λ ready. Means (finished_meaning sb front copy) (D.gives ready.disk)) }
        ensures leaves { D.keeps_model → (sb : Superblock) (copy : List ℕ) → HasTaken D.gives D.may_leave_now sb copy self.old → (front : ℕ) → piece ≡ Piece.End front
            → IfReady result (λ ready. (c : List ℕ) → D.may_leave_now ready.disk c → Means (finished_meaning sb front copy) c) }
        ensures durable { D.keeps_model → IfReady result (λ ready. Only (D.gives ready.disk) (D.may_leave_now ready.disk)) }

        // A stop at any moment of the call, whatever comes of it, leaves what means nothing, or at the end the copy.
        ensures any_moment { D.keeps_model → (sb : Superblock) (copy : List ℕ) → HasTaken D.gives D.may_leave_now sb copy self.old
            → Leads (λ was now. LeavesOnly D.moment D.may_have_left_since was now (MayBeLeft sb copy piece)) self.old result self.new }

        ensures home { ForSome self.old.installation (λ i. ForSome self.new.installation (λ j. j.home ≡ i.home)) }
        ensures calls { Leads (λ was now. D.calls_made now ≤ D.calls_made was + calls_of piece) self.old result self.new }
        ensures size { Leads (λ was now. D.size now ≡ D.size was) self.old result self.new }
        ensures gone { IfReady result (λ _. disk_of self.new ≡ None) }
        ensures runs { OnOk result (ForSome self.new.installation (λ j. j.broken ≡ false)) }
        ensures broken { ForSome self.old.installation (λ i. IsErrOf result (Refusal.Store faults.Broken)
            ↔ (IsSome (course_behind self.old.course piece) × (i.broken ≡ true))) }
        ensures unchanged_broken { IsErrOf result (Refusal.Store faults.Broken) → is_end piece ≡ false → self.new ≡ self.old }
        ensures untouched { IsErrOf result (Refusal.Store faults.Broken) → Leads (λ was now. now ≡ was) self.old result self.new }
        ensures breaks { IfErr result (λ e. e ≢ Refusal.OutOfOrder → ForSome self.new.installation (λ j. j.broken ≡ true)) }
        ensures told { IfErr result (IsOfTaking piece) }
        ensures done { Leads (λ was now. OnOk result (D.failures now ≡ D.failures was)) self.old result self.new }
        ensures cause { Leads (λ was now. IfErr result (IsCaused (D.failures was) (D.failures now))) self.old result self.new }
    {
        let Some(course) = self.course.behind(&piece) else {
            return Err(Refusal::OutOfOrder);
        };
        match piece {
            Piece::First { block, bytes } | Piece::Again { block, bytes } => {
                let Some(installer) = &mut self.installer else {
                    unreachable!();
                };
                if let Err(refusal) = installer.block(block, &bytes) {
                    return Err(Refusal::Store(refusal));
                }
                self.course = course;
                Ok(None)
            }
            Piece::End { front } => {
                let Some(installer) = self.installer.take() else {
                    unreachable!();
                };
                self.course = course;
                match installer.finish(front) {
                    Ok((receipt, disk)) => Ok(Some(Ready { receipt, disk })),
                    Err((refusal, disk)) => {
                        self.left = Some(disk);
                        Err(Refusal::Store(refusal))
                    }
                }
            }
        }
    }

    /// The disk, as the receiver leaves it. None where it was given away, whole.
    pub fn into_disk(self) -> Option<D>
        ensures { result ≡ disk_of self }
    {
        let Receiver {
            course: _,
            installer,
            left,
        } = self;
        match installer {
            Some(installer) => Some(installer.into_disk()),
            None => left,
        }
    }
}
