//! Laws of the store. The functions do nothing.
ghost use Rattle.std.specs.Prelude.{◌≡◌, ◌⊎◌, ◌++◌, ◌≤◌, ℕ, List, length};
ghost use Rattle.disk_model.specs.Part.{inside};
ghost use Rattle.gate_journal.specs.Batch.{Batch, HoldsOldOrNew, last_front};
ghost use Rattle.gate_journal.specs.Journal.{part_behind};
ghost use Rattle.home_blocks.specs.Places.{border_of, disk_size_of};
ghost use Rattle.home_blocks.specs.declared.progress.Progress.TheVariants.{Whole};
ghost use Rattle.local_store.specs.Lending.{HoldsHome};
ghost use Rattle.local_store.specs.Meaning.{IsOpenable, Means, Meaning};
ghost use Rattle.local_store.specs.Overlay.{BatchesCover, UncoveredBlocksStay};
ghost use Rattle.local_store.specs.Store.{IsOfSuperblock, State, geometry_of, meaning_after, meaning_in};

use gate_journal::readings_are_one;
use home_blocks::{disks_have_one_answer, superblocks_are_one};

/// Batches over a volume: where they have a block, what was below doesn't matter; any other block stays.
pub fn batches_go_over()
    ensures cover { BatchesCover }
    ensures others { UncoveredBlocksStay }
{}

/// The bytes of a disk mean one thing at most.
pub fn disks_mean_one()
    ensures { (one other : Meaning) (bytes : List ℕ) → Means one bytes → Means other bytes → one ≡ other }
{
    superblocks_are_one();
    readings_are_one();
}

/// A disk that means something, and is as long as it has to be, is one that `open` refuses where memory runs out or by its
/// device alone: it isn't no volume's, nor of another version, nor unfinished, and its area isn't damaged.
pub fn meanings_are_opened()
    ensures { (meaning : Meaning) (bytes : List ℕ) → Means meaning bytes → disk_size_of meaning.geometry ≤ length bytes → IsOpenable bytes }
{
    superblocks_are_one();
    disks_have_one_answer();
}

/// Of a store whose log is lent out, a stop leaves a home half, here `a`, and a log, here `x`. Where the home half holds the
/// volume under the old batches, and the log has these in the journal, or these and one more, the two mean the old front and
/// volume, or the new ones.
pub fn halves_mean()
    ensures { (store : State) (volume : List ℕ) (batches : List Batch) (batch : Batch) (a x : List ℕ) → IsOfSuperblock store → store.home.superblock.progress ≡ Whole
        → store.journal.front ≡ last_front store.journal.before batches → length a ≡ border_of (geometry_of store) → HoldsHome store volume batches a
        → HoldsOldOrNew store.journal.blocks store.journal.before batches batch (inside (part_behind store.journal.part (border_of (geometry_of store))) x)
        → Means (meaning_in store volume) (a ++ x) ⊎ Means (meaning_after store volume batch.front batch.images) (a ++ x) }
{}
