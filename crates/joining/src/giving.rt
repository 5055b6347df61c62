//! Blocks are given, one at a time, and at last the end.
ghost use Rattle.std.specs.Prelude.{IfErr, IfOk, IfSome, IsSome, List, None, OnErr, OnOk, Some, false, length, slice_get, true, ℕ, ◌*◌, ◌||◌, ◌≡◌, ◌≢◌, ◌≤◌, ◌⊎◌};
ghost use Rattle.chain.specs.Commits.{LeavesAt};
ghost use Rattle.chain_core.specs.Node.{IsRunning};
ghost use Rattle.chain_steps.specs.Steps.{volume_at};
ghost use Rattle.clients.specs.Clients.{no_one};
ghost use Rattle.disk_model.specs.Disk.{LeavesOnly, Only};
ghost use Rattle.gate_journal.specs.Runs.{OnlyReads};
ghost use Rattle.home_blocks.specs.Places.{disk_size_of};
ghost use Rattle.home_blocks.specs.Superblock.{Superblock};
ghost use Rattle.joining.specs.Copying.{IsCopyOf, IsFor, IsInstalled, LeadsOn, MeansOnly};
ghost use Rattle.joining.specs.Giving.{FinishesAt, GivesBlock, HasGivenNext, IsMeantBy, RefusesEnd, RefusesFinish, RefusesGiving, RefusesOpening, handed_giving, has_given_all, may_give};
ghost use Rattle.local_store.specs.Installer.{MeansNothing, finished_meaning};
ghost use Rattle.local_store.specs.Meaning.{Meaning, Means};
ghost use Rattle.local_store.specs.Refusal.{IsCaused, IsOfOpening, IsOfTicking};
ghost use Rattle.rejoin_catchup.specs.Receiving.{HasTaken, disk_of};
ghost use Rattle.rejoin_catchup.specs.Sending.{IsSending, due_of, gave};
ghost use Rattle.volume.specs.Writes.{block_of};
ghost use Rattle.world.specs.World.{IsOfOneVolume};

use crate::copying::Copying;
use crate::refusal::NotGiven;
use bytes::Bytes;
use disk_model::Disk;
use gate_journal::Synced;
use home_blocks::Version;
use local_store::{Refusal, Store, StoreLike, disks_mean_one, meanings_are_opened};
use rejoin_catchup::{Ready, Receiver};
use std::alloc::Global;
use world::World;

impl<D: Disk + Drop> Copying<D> {
    /// Gives the disk the block that is due, as it is at the known commit of the member, which was noted. `false` where none is due: nothing
    /// changed.
    ///
    /// What is refused: `Stopped` where the member has stopped, or stops in the call, since memory runs out or its device refuses the read:
    /// the copying is as it was. `Refused` with what the disk refuses, behind which the copying is broken; and with 122 `Broken` where
    /// it was: nothing changed.
    pub fn give<S: StoreLike + Drop>(&mut self, world: &mut World<S>) -> Result<bool, NotGiven>
        requires is_for { IsFor world.old.chain self.old }
        requires noted { IfSome (slice_get world.old.chain.members self.old.at) (λ m. self.old.front ≡ m.node.state.known) }
        ensures given { IfOk result (λ given. given ≡ true → (block : ℕ) × (due_of self.old.sender ≡ Some block) × GivesBlock S.keeps_model S.about S.failures S.keeps S.moment S.may_have_left_since block self.old self.new world.old world.new) }
        ensures rests { IfOk result (λ given. given ≡ false → (due_of self.old.sender ≡ None) × ((self.new ≡ self.old) × (world.new ≡ world.old))) }
        ensures refused { IfErr result (λ e. RefusesGiving S.keeps_model S.about S.failures S.keeps S.moment S.may_have_left_since e self.old self.new world.old world.new) }
        ensures copies { S.keeps_model → D.keeps_model → IfSome (slice_get world.old.chain.members self.old.at) (λ m. (volume : List ℕ) → S.keeps m.node.store volume
            → length (volume_at volume m.node.state m.node.state.known) ≡ 4096 * length self.old.sender.marks
            → (sb : Superblock) → IsCopyOf D.gives D.may_leave_now sb (volume_at volume m.node.state m.node.state.known) self.old
            → OnOk result (IsCopyOf D.gives D.may_leave_now sb (volume_at volume m.node.state m.node.state.known) self.new)) }

        // A stop at any moment of the call leaves of the disk what means nothing, and of the member's what it was shown with.
        ensures any_moment { D.keeps_model → (sb : Superblock) (copy : List ℕ) → HasTaken D.gives D.may_leave_now sb copy self.old.receiver → may_give self.old ≡ true
            → LeadsOn (λ was now. LeavesOnly D.moment D.may_have_left_since was now MeansNothing) self.old self.new }
        ensures members_moment { S.keeps_model → may_give self.old ≡ true → LeavesAt S.about S.keeps S.may_leave_now S.moment S.may_have_left_since self.old.at world.old.chain world.new.chain }
        ensures size { LeadsOn (λ was now. D.size now ≡ D.size was) self.old self.new }
        ensures told { IfErr result (λ e. (r : Refusal) → e ≡ NotGiven.Refused r → IsOfTicking r) }
        ensures done { OnOk result (LeadsOn (λ was now. D.failures now ≡ D.failures was) self.old self.new) }
        ensures cause { IfErr result (λ e. (r : Refusal) → e ≡ NotGiven.Refused r → LeadsOn (λ was now. IsCaused (D.failures was) (D.failures now) r) self.old self.new) }
        // 122 comes only where the copying was broken, while the installation is there.
        ensures broken { IsSome self.old.receiver.installation → IfErr result (λ e. e ≡ NotGiven.Refused Refusal.Broken → self.old.broken ≡ true) }
        ensures one_volume { S.keeps_model → IsOfOneVolume S.about S.keeps S.may_leave_now no_one (handed_giving result) world.old world.new }
    {
        if self.broken {
            return Err(NotGiven::Refused(Refusal::Broken));
        }
        let Some(block) = self.sender.due() else {
            return Ok(false);
        };
        let bytes = match world.held_block(self.at, block) {
            Ok(Some(bytes)) => bytes,
            Ok(None) => return Err(NotGiven::Stopped(None)),
            Err(told) => return Err(NotGiven::Stopped(Some(told))),
        };
        match self.put(bytes) {
            Ok(()) => Ok(true),
            Err(refusal) => Err(NotGiven::Refused(refusal)),
        }
    }

    /// Gives the disk these bytes as the block that is due. Behind what the disk refuses the copying is broken.
    fn put(&mut self, bytes: Bytes) -> Result<(), Refusal>
        requires due { IsSome (due_of self.old.sender) }
        requires whole { length bytes ≡ 4096 }
        requires runs { self.old.broken ≡ false }
        requires sending { IsSending self.old.sender }
        ensures given { OnOk result (HasGivenNext self.old self.new) }
        ensures refused { OnErr result (self.new ≡ record self.old { sender = gave self.old.sender; receiver = self.new.receiver; broken = true }) }
        ensures copies { D.keeps_model → (volume : List ℕ) → length volume ≡ 4096 * length self.old.sender.marks
            → (block : ℕ) → due_of self.old.sender ≡ Some block → bytes ≡ block_of volume block
            → (sb : Superblock) → IsCopyOf D.gives D.may_leave_now sb volume self.old → OnOk result (IsCopyOf D.gives D.may_leave_now sb volume self.new) }
        ensures any_moment { D.keeps_model → (sb : Superblock) (copy : List ℕ) → HasTaken D.gives D.may_leave_now sb copy self.old.receiver
            → LeadsOn (λ was now. LeavesOnly D.moment D.may_have_left_since was now MeansNothing) self.old self.new }
        ensures size { LeadsOn (λ was now. D.size now ≡ D.size was) self.old self.new }
        ensures told { IfErr result IsOfTicking }
        ensures done { OnOk result (LeadsOn (λ was now. D.failures now ≡ D.failures was) self.old self.new) }
        ensures cause { LeadsOn (λ was now. IfErr result (IsCaused (D.failures was) (D.failures now))) self.old self.new }
        ensures broken { IsSome self.old.receiver.installation → IfErr result (λ r. r ≢ Refusal.Broken) }
    {
        let rests = self.rests_then();
        let piece = self.sender.next_block(bytes);
        match self.receiver.take(piece) {
            Ok(_) => {}
            Err(rejoin_catchup::Refusal::Store(refusal)) => {
                self.broken = true;
                return Err(refusal);
            }
            Err(rejoin_catchup::Refusal::OutOfOrder) => unreachable!(),
        }
        self.rests = rests;
        Ok(())
    }

    /// Whether a block was given again, once the next one is.
    fn rests_then(&self) -> bool
        ensures { result ≡ (self.now.rests || has_given_all self.now) }
    {
        self.rests || self.sender.has_given_all()
    }

    /// Once no block is due, the end is given, by at most nine device calls: the disk means the copy at the front that was noted last. Its
    /// store is opened: it runs, and may be counted in with its receipt.
    ///
    /// What the disk refuses hands it back, as the call leaves it; so does what `Store::open` refuses, and 122 `Broken` where the copying
    /// is. 132 `OtherVersion` only where the disk is of version 1, of which no installation makes one.
    pub fn finish(self, alloc: Global) -> Result<(Store<D>, Synced), (Refusal, D)>
        requires whole { due_of self.sender ≡ None }
        ensures kept { D.keeps_model → (volume : List ℕ) → length volume ≡ 4096 * length self.sender.marks → (sb : Superblock) → IsCopyOf D.gives D.may_leave_now sb volume self
            → IfOk result (λ r. ⟦<Store<D> as StoreLike>⟧.keeps r.0 volume × FinishesAt sb self.front (⟦<Store<D> as StoreLike>⟧.about r.0)) }
        ensures receipt { D.keeps_model → (volume : List ℕ) → length volume ≡ 4096 * length self.sender.marks → (sb : Superblock) → IsCopyOf D.gives D.may_leave_now sb volume self
            → IfOk result (λ r. r.1 ≡ record { slot = sb.slot; front = self.front }) }
        ensures runs { IfOk result (λ r. IsRunning (⟦<Store<D> as StoreLike>⟧.about r.0) (record { premise = D.keeps_model; keeps = ⟦<Store<D> as StoreLike>⟧.keeps r.0 })) }

        // A stop at any moment of the call leaves what means nothing, or the copy at the front.
        ensures any_moment { D.keeps_model → (volume : List ℕ) → length volume ≡ 4096 * length self.sender.marks → (sb : Superblock) → IsCopyOf D.gives D.may_leave_now sb volume self
            → IfOk result (λ r. IfSome (disk_of self.receiver) (λ was. LeavesOnly D.moment D.may_have_left_since was r.0.disk (IsMeantBy sb self.front volume))) }
        ensures any_moment_refused { D.keeps_model → (volume : List ℕ) → length volume ≡ 4096 * length self.sender.marks → (sb : Superblock) → IsCopyOf D.gives D.may_leave_now sb volume self
            → IfErr result (λ e. IfSome (disk_of self.receiver) (λ was. LeavesOnly D.moment D.may_have_left_since was e.1 (IsMeantBy sb self.front volume))) }
        ensures size { D.keeps_model → IfErr result (λ e. IfSome (disk_of self.receiver) (λ was. D.size e.1 ≡ D.size was)) }
        ensures whole { OnOk result (self.broken ≡ false) }
        ensures refused { IfErr result (λ e. RefusesFinish self.broken e.0) }

        // A copy that is whole opens, on a disk that has room for what its superblock says.
        ensures finishes { D.keeps_model → (volume : List ℕ) → length volume ≡ 4096 * length self.sender.marks → (sb : Superblock) → IsCopyOf D.gives D.may_leave_now sb volume self
            → IfSome (disk_of self.receiver) (λ was. disk_size_of sb.geometry ≤ D.size was) → IfErr result (λ e. RefusesEnd self.broken e.0 ⊎ RefusesOpening e.0 (D.gives e.1)) }
        // Whatever a stop may leave of a disk that is refused means nothing, or is the member's that was being installed.
        ensures left { D.keeps_model → IfErr result (λ e. MeansOnly D.may_leave_now (IsInstalled self.receiver) e.1) }
        // 122 comes only where the copying was broken, while the installation is there.
        ensures broken { IsSome self.receiver.installation → IfErr result (λ e. e.0 ≡ Refusal.Broken → self.broken ≡ true) }
        ensures cause { IfErr result (λ e. IfSome (disk_of self.receiver) (λ was. IsCaused (D.failures was) (D.failures e.1) e.0)) }
    {
        let Ready { receipt, disk } = self.end()?;
        let store = opened(alloc, disk)?;
        Ok((store, receipt))
    }

    /// The end is given, and taken.
    fn end(self) -> Result<Ready<D>, (Refusal, D)>
        requires whole { due_of self.sender ≡ None }
        ensures receipt { D.keeps_model → (volume : List ℕ) → length volume ≡ 4096 * length self.sender.marks → (sb : Superblock) → IsCopyOf D.gives D.may_leave_now sb volume self
            → IfOk result (λ ready. ready.receipt ≡ record { slot = sb.slot; front = self.front }) }
        ensures means { D.keeps_model → (volume : List ℕ) → length volume ≡ 4096 * length self.sender.marks → (sb : Superblock) → IsCopyOf D.gives D.may_leave_now sb volume self
            → IfOk result (λ ready. Means (finished_meaning sb self.front volume) (D.gives ready.disk)) }
        ensures durable { D.keeps_model → IfOk result (λ ready. Only (D.gives ready.disk) (D.may_leave_now ready.disk)) }
        ensures any_moment { D.keeps_model → (volume : List ℕ) → length volume ≡ 4096 * length self.sender.marks → (sb : Superblock) → IsCopyOf D.gives D.may_leave_now sb volume self
            → IfOk result (λ ready. IfSome (disk_of self.receiver) (λ was. LeavesOnly D.moment D.may_have_left_since was ready.disk (IsMeantBy sb self.front volume))) }
        ensures any_moment_refused { D.keeps_model → (volume : List ℕ) → length volume ≡ 4096 * length self.sender.marks → (sb : Superblock) → IsCopyOf D.gives D.may_leave_now sb volume self
            → IfErr result (λ e. IfSome (disk_of self.receiver) (λ was. LeavesOnly D.moment D.may_have_left_since was e.1 (IsMeantBy sb self.front volume))) }
        ensures installed { D.keeps_model → IfOk result (λ ready. (meaning : Meaning) → Means meaning (D.gives ready.disk) → IsInstalled self.receiver meaning) }
        ensures left { D.keeps_model → IfErr result (λ e. MeansOnly D.may_leave_now (IsInstalled self.receiver) e.1) }
        ensures size { IfOk result (λ ready. IfSome (disk_of self.receiver) (λ was. D.size ready.disk ≡ D.size was)) }
        ensures size_refused { IfErr result (λ e. IfSome (disk_of self.receiver) (λ was. D.size e.1 ≡ D.size was)) }
        ensures there { IsSome (disk_of self.receiver) }
        ensures refused { IfErr result (λ e. RefusesEnd self.broken e.0) }
        ensures broken { IsSome self.receiver.installation → IfErr result (λ e. e.0 ≡ Refusal.Broken → self.broken ≡ true) }
        ensures whole { OnOk result (self.broken ≡ false) }
        ensures done { IfOk result (λ ready. IfSome (disk_of self.receiver) (λ was. D.failures ready.disk ≡ D.failures was)) }
        ensures cause { IfErr result (λ e. IfSome (disk_of self.receiver) (λ was. IsCaused (D.failures was) (D.failures e.1) e.0)) }
    {
        disks_mean_one();
        let front = self.front;
        let is_broken = self.broken;
        let end = self.sender.end(front);
        let mut receiver = self.receiver;
        if is_broken {
            return Err((Refusal::Broken, left(receiver)));
        }
        let ready = match receiver.take(end) {
            Ok(Some(ready)) => ready,
            Err(rejoin_catchup::Refusal::Store(refusal)) => return Err((refusal, left(receiver))),
            Ok(None) | Err(rejoin_catchup::Refusal::OutOfOrder) => unreachable!(),
        };
        Ok(ready)
    }
}

/// The store of a disk that was installed.
fn opened<D: Disk + Drop>(alloc: Global, disk: D) -> Result<Store<D>, (Refusal, D)>
    ensures kept { D.keeps_model → (sb : Superblock) (front : ℕ) (volume : List ℕ) → Means (finished_meaning sb front volume) (D.gives disk)
        → IfOk result (λ s. ⟦<Store<D> as StoreLike>⟧.keeps s volume × FinishesAt sb front (⟦<Store<D> as StoreLike>⟧.about s)) }
    ensures runs { IfOk result (λ s. IsRunning (⟦<Store<D> as StoreLike>⟧.about s) (record { premise = D.keeps_model; keeps = ⟦<Store<D> as StoreLike>⟧.keeps s })) }
    ensures reads { D.keeps_model → IfOk result (λ s. OnlyReads D.gives D.may_leave_now D.moment D.may_have_left_since disk s.disk) }
    ensures back { D.keeps_model → IfErr result (λ e. OnlyReads D.gives D.may_leave_now D.moment D.may_have_left_since disk e.1) }
    ensures size { D.keeps_model → IfErr result (λ e. D.size e.1 ≡ D.size disk) }
    ensures told { IfErr result (λ e. IsOfOpening e.0) }
    ensures opens { D.keeps_model → (meaning : Meaning) → Means meaning (D.gives disk) → disk_size_of meaning.geometry ≤ D.size disk
        → IfErr result (λ e. RefusesOpening e.0 (D.gives e.1)) }
    ensures cause { IfErr result (λ e. IsCaused (D.failures disk) (D.failures e.1) e.0) }
{
    disks_mean_one();
    meanings_are_opened();
    let store = Store::open(alloc, disk)?;
    match store.version() {
        Version::Two => Ok(store),
        Version::One => Err((Refusal::OtherVersion, store.into_disk())),
    }
}

/// The disk that a receiver still has.
fn left<D: Disk + Drop>(receiver: Receiver<D>) -> D
    requires { IsSome (disk_of receiver) }
    ensures { disk_of receiver ≡ Some result }
{
    match receiver.into_disk() {
        Some(disk) => disk,
        None => unreachable!(),
    }
}
