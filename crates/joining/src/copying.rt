//! A disk that is given the volume of a chain's member.
ghost use Rattle.std.specs.Prelude.{◌≡◌, ◌≢◌, ◌*◌, ◌<◌, ◌≤◌, List, None, Some, ℕ, false, length, replicate, slice_get, IfErr, IfOk, IfSome, IsSomeAnd, IsTrue, ◌↔◌};
ghost use Rattle.home_blocks.specs.Places.{disk_size_of};
ghost use Rattle.disk_model.specs.Disk.{LeavesOnly};
ghost use Rattle.local_store.specs.Installer.{HasNone, IsNotMeant, unfinished};
ghost use Rattle.local_store.specs.Refusal.{IsCaused, IsNotOfDevice, IsOfFormatting};
ghost use Rattle.local_store.specs.declared.refusal.Refusal.TheVariants as faults;
ghost use Rattle.rejoin_catchup.specs.Receiving.{disk_of};
ghost use Rattle.rejoin_catchup.specs.Sending.{due_of};
ghost use Rattle.joining.specs.Copying.{IsCopyOf, IsFor, IsForMember, MeansNone};

use configurations::{Incarnation, Member};
use disk_model::Disk;
use gate_journal::{MAX_NUMBER, Slot};
use local_store::{Refusal, StoreLike};
use rejoin_catchup::{Receiver, Sender};
use std::alloc::Global;
use std::marker::Model;
use world::World;

/// A disk that is given the volume of a chain's member: the blocks from 0 up, each as it is at the member's known commit then, and once each
/// was given, those again that were written since. It is broken once the disk refuses a block, or the member goes on unnoted.
#[derive(Drop)]
pub struct Copying<D: Disk> {
    /// The member whose disk it will be.
    member: Member,
    /// The member's place.
    pub(crate) at: usize,
    /// The member's known commit, when it was noted last.
    pub(crate) front: u64,
    pub(crate) sender: Sender,
    pub(crate) receiver: Receiver<D>,
    /// Whether a block was given again.
    pub(crate) rests: bool,
    pub(crate) broken: bool,
}

impl<D: Disk> Model for Copying<D> {
    ghost use Rattle.joining.specs.Copying.{IsInCourse, IsOnItsWay, Seen};

    ghost Value = { Seen D };

    ghost view = { λ c. record { at = c.at; front = c.front; sender = c.sender; receiver = c.receiver; rests = c.rests; broken = c.broken } };

    ghost invariant = { λ c. IsInCourse (record { at = c.at; front = c.front; sender = c.sender; receiver = c.receiver; rests = c.rests; broken = c.broken })
        × (D.keeps_model → IsOnItsWay D.gives D.may_leave_now c.member (record { at = c.at; front = c.front; sender = c.sender; receiver = c.receiver; rests = c.rests; broken = c.broken })) };
}

impl<D: Disk + Drop> Copying<D> {
    /// Begins to copy the volume of the member at a place onto a disk of at least `disk_size` bytes of the volume's geometry, which may
    /// hold anything, for this slot and an incarnation of at most 2^63 - 1, by at most 12 device calls: what the disk meant is gone.
    /// The member's known commit is noted.
    ///
    /// What `Installer::start` refuses hands the disk back; 100 `Memory` as it was.
    pub fn start<S: StoreLike + Drop>(
        alloc: Global,
        world: &World<S>,
        at: usize,
        disk: D,
        slot: Slot,
        incarnation: u64,
    ) -> Result<Copying<D>, (Refusal, D)>
        requires within { at < length world.now.chain.members }
        requires on_disk { disk_size_of world.now.chain.geometry ≤ D.size disk }
        requires limit { incarnation ≤ MAX_NUMBER }
        ensures at { IfOk result (λ c. c.at ≡ at) }
        ensures front { IfSome (slice_get world.now.chain.members at) (λ m. IfOk result (λ c. c.front ≡ m.node.state.known)) }
        ensures begun { IfOk result (λ c. c.sender ≡ record { given = 0; marks = replicate world.now.chain.geometry.blocks false }) }
        ensures is_for { IfOk result (λ c. IsFor world.now.chain c) }
        ensures whole { IfOk result (λ c. c.broken ≡ false) }

        // Every block is due, so whichever volume it is.
        ensures copies { D.keeps_model → (volume : List ℕ) → length volume ≡ 4096 * world.now.chain.geometry.blocks
            → IfOk result (IsCopyOf D.gives D.may_leave_now (unfinished slot incarnation world.now.chain.geometry) volume) }

        // Where nothing that may be left at first shows a superblock of the slot and incarnation, a stop at any moment of the
        // call leaves what means no volume of them.
        ensures any_moment { D.keeps_model → ((bytes : List ℕ) → D.may_leave_now disk bytes → HasNone slot incarnation bytes)
            → IfOk result (λ c. IfSome (disk_of c.receiver) (λ now. LeavesOnly D.moment D.may_have_left_since disk now (IsNotMeant slot incarnation))) }
        ensures any_moment_refused { D.keeps_model → ((bytes : List ℕ) → D.may_leave_now disk bytes → HasNone slot incarnation bytes)
            → IfErr result (λ e. e.0 ≢ faults.Memory → LeavesOnly D.moment D.may_have_left_since disk e.1 (IsNotMeant slot incarnation)) }
        ensures size { IfOk result (λ c. IfSome (disk_of c.receiver) (λ now. D.size now ≡ D.size disk)) }
        ensures size_refused { IfErr result (λ e. D.size e.1 ≡ D.size disk) }
        ensures unchanged { IfErr result (λ e. e.0 ≡ faults.Memory → e.1 ≡ disk) }
        ensures told { IfErr result (λ e. IsOfFormatting e.0) }
        ensures done { IfOk result (λ c. IsSomeAnd (disk_of c.receiver) (λ now. D.failures now ≡ D.failures disk)) }
        ensures cause { IfErr result (λ e. IsCaused (D.failures disk) (D.failures e.1) e.0) }
        // Where the disk can't fail any more, the refusal isn't the device's.
        ensures calm { IfErr result (λ e. D.failures disk ≡ D.most_failures disk → IsNotOfDevice e.0) }
    {
        let geometry = world.geometry();
        let Ok(sender) = Sender::new(alloc, geometry.blocks) else {
            return Err((Refusal::Memory, disk));
        };
        let Some(counted) = Incarnation::new(incarnation) else {
            unreachable!();
        };
        let receiver = Receiver::start(alloc, disk, slot, incarnation, geometry)?;
        Ok(Copying {
            member: Member {
                slot,
                incarnation: counted,
            },
            at,
            front: world.known(at),
            sender,
            receiver,
            rests: false,
            broken: false,
        })
    }

    /// Whether each block was given once.
    pub fn has_given_all(&self) -> bool
        ensures { IsTrue result ↔ (self.now.sender.given ≡ length self.now.sender.marks) }
    {
        self.sender.has_given_all()
    }

    /// Whether no block is due.
    pub fn is_whole(&self) -> bool
        ensures { IsTrue result ↔ (due_of self.now.sender ≡ None) }
    {
        self.sender.due().is_none()
    }

    /// The member's known commit, when it was noted last.
    pub fn front(&self) -> u64
        ensures { result ≡ self.now.front }
    {
        self.front
    }

    /// The member whose disk it will be.
    pub fn member(&self) -> Member
        ensures { D.keeps_model → IsForMember result self.now.receiver }
    {
        self.member
    }

    /// Gives up, and the disk back. Whatever a stop may leave of it means nothing.
    pub fn into_disk(self) -> D
        ensures its { disk_of self.receiver ≡ Some result }
        ensures unmeant { D.keeps_model → MeansNone D.may_leave_now result }
    {
        let Copying {
            member: _,
            at: _,
            front: _,
            sender: _,
            receiver,
            rests: _,
            broken: _,
        } = self;
        match receiver.into_disk() {
            Some(disk) => disk,
            None => unreachable!(),
        }
    }
}
