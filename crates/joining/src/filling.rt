//! Whatever is due is given.
ghost use Rattle.std.specs.Prelude.{◌≡◌, ◌≢◌, ◌*◌, List, None, false, ℕ, length, IfErr, OnOk};
ghost use Rattle.home_blocks.specs.Superblock.{Superblock};
ghost use Rattle.joining.specs.Copying.{IsCopyOf, IsFor, LeadsOn};
ghost use Rattle.joining.specs.Rebuilding.{AllKeep, IsQuiet, IsSteady, KeepStill};
ghost use Rattle.joining.specs.Refusing.{RefusesFilling};
ghost use Rattle.rejoin_catchup.specs.Sending.{due_of};
ghost use Rattle.world.specs.Joining.{IsTailAt};

use crate::copying::Copying;
use crate::refusal::NotGiven;
use disk_model::Disk;
use local_store::{Refusal, StoreLike};
use world::World;

/// Gives the disk each block that is due, of the tail of a chain in which nothing is under way.
pub(crate) fn fill<D: Disk + Drop, S: StoreLike + Drop>(
    copying: &mut Copying<D>,
    world: &mut World<S>,
) -> Result<(), NotGiven>
    requires is_for { IsFor world.old.chain copying.old }
    requires quiet { IsQuiet world.old.chain }
    requires noted { copying.old.front ≡ world.old.chain.words.front }
    requires tail { IsTailAt world.old.chain copying.old.at }
    requires runs { copying.old.broken ≡ false }
    ensures whole { OnOk result (due_of copying.new.sender ≡ None) }
    ensures runs { OnOk result (copying.new.broken ≡ false) }
    ensures steady { IsSteady world.old.chain world.new.chain }
    ensures others { OnOk result (world.new ≡ record world.old { chain = world.new.chain }) }
    ensures keep { S.keeps_model → OnOk result (KeepStill S.keeps world.old.chain world.new.chain) }
    ensures place { OnOk result (copying.new.at ≡ copying.old.at) }
    ensures noted { OnOk result (copying.new.front ≡ copying.old.front) }
    ensures blocks { OnOk result (length copying.new.sender.marks ≡ length copying.old.sender.marks) }
    ensures copies { S.keeps_model → D.keeps_model → (volume : List ℕ) → AllKeep S.keeps volume world.old.chain → length volume ≡ 4096 * length copying.old.sender.marks
        → (sb : Superblock) → IsCopyOf D.gives D.may_leave_now sb volume copying.old → OnOk result (IsCopyOf D.gives D.may_leave_now sb volume copying.new) }
    ensures size { OnOk result (LeadsOn (λ was now. D.size now ≡ D.size was) copying.old copying.new) }
    ensures done { OnOk result (LeadsOn (λ was now. D.failures now ≡ D.failures was) copying.old copying.new) }
    ensures refused { IfErr result (λ e. RefusesFilling D.failures e copying.old copying.new world.new.chain) }
    ensures kept { S.keeps_model → IfErr result (λ e. (r : Refusal) → e ≡ NotGiven.Refused r → KeepStill S.keeps world.old.chain world.new.chain) }
    // Whose disk has a copy isn't refused as one that failed before.
    ensures broken { S.keeps_model → D.keeps_model → (volume : List ℕ) → AllKeep S.keeps volume world.old.chain → length volume ≡ 4096 * length copying.old.sender.marks
        → (sb : Superblock) → IsCopyOf D.gives D.may_leave_now sb volume copying.old → IfErr result (λ e. e ≢ NotGiven.Refused Refusal.Broken) }
{
    while !copying.is_whole() {
        match copying.give(world) {
            Ok(_) => {}
            Err(refusal) => return Err(refusal),
        }
    }
    Ok(())
}
