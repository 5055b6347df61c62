//! Laws of superblocks and of the disks that hold them, for callers that argue about bytes. The functions do nothing.

ghost use Rattle.std.specs.Prelude.{◌≡◌, ℕ, List};
ghost use Rattle.home_blocks.specs.Home.{HoldsSuperblock, IsNoVolume, IsOtherVersion, IsVolume};
ghost use Rattle.home_blocks.specs.Superblock.{IsSuperblock, Superblock, superblock_encoding};

use gate_journal::pair_readings_are_one;

/// No two superblocks have one encoding.
pub fn encodings_differ()
    ensures { (some other : Superblock) → IsSuperblock some → IsSuperblock other → superblock_encoding some ≡ superblock_encoding other → some ≡ other }
{}

/// The bytes of a disk hold one superblock at most.
pub fn superblocks_are_one()
    ensures { (some other : Superblock) (bytes : List ℕ) → HoldsSuperblock some bytes → HoldsSuperblock other bytes → some ≡ other }
{
    pair_readings_are_one();
}

/// They are those of a volume, those of a volume of another version, or no volume's, and never two of these.
pub fn disks_have_one_answer()
    ensures version { (sb : Superblock) (bytes : List ℕ) → IsVolume sb bytes → IsOtherVersion bytes → ⊥ }
    ensures none { (sb : Superblock) (bytes : List ℕ) → IsVolume sb bytes → IsNoVolume bytes → ⊥ }
    ensures neither { (bytes : List ℕ) → IsOtherVersion bytes → IsNoVolume bytes → ⊥ }
{
    pair_readings_are_one();
}
