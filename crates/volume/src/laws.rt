//! Laws of volumes, for callers that argue about many writes. The functions do nothing.

ghost use Rattle.volume.specs.Laws.{OneMoreIsLast, FrontsGoByOne, FrontsGoOn, WritesKeepLength, VolumesHaveTheirSize, BlocksAreWhole, BlocksMakeVolumes, TestAgrees, UntouchedBlocksStay, BlocksFollowTheirWrites, BlocksBeginAsZeros, UnreachedRangesStay, WritesReadBack, PiecesReadTheRange, BlocksMakeTheWrite};

/// Writes are done in turn: one more is done last, and from any front the later ones lead on.
pub fn writes_go_in_turn()
    ensures last { OneMoreIsLast }
    ensures next { FrontsGoByOne }
    ensures rest { FrontsGoOn }
{}

/// Writes that fit keep the length.
pub fn volumes_keep_their_size()
    ensures one { WritesKeepLength }
    ensures all { VolumesHaveTheirSize }
{}

/// The blocks are the volume.
pub fn blocks_make_the_volume()
    ensures whole { BlocksAreWhole }
    ensures same { BlocksMakeVolumes }
{}

/// A block begins as zeros, and comes from the writes that touch it alone.
pub fn blocks_follow_their_writes()
    ensures zeros { BlocksBeginAsZeros }
    ensures test { TestAgrees }
    ensures untouched { UntouchedBlocksStay }
    ensures touched { BlocksFollowTheirWrites }
{}

/// A range that a write doesn't reach stays, and its own place holds its bytes.
pub fn ranges_read_back()
    ensures others { UnreachedRangesStay }
    ensures own { WritesReadBack }
{}

/// The pieces of a range are the range, and a write is done where each block that it touches is patched.
pub fn pieces_are_the_whole()
    ensures read { PiecesReadTheRange }
    ensures written { BlocksMakeTheWrite }
{}
