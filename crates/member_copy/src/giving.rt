//! Blocks are given, one at a time, and at last the end.
ghost use Rattle.std.specs.Prelude.{◌≡◌, ◌||◌, ◌*◌, List, None, Some, ℕ, false, length, IfSome, IsSome};
ghost use Rattle.local_store.specs.Installer.{with_block};
ghost use Rattle.volume.specs.Writes.{block_of};
ghost use Rattle.rejoin_catchup.specs.Course.{IsWhole, IsWithin};
ghost use Rattle.rejoin_catchup.specs.Sending.{IsCopy, due_of, piece_of};
ghost use Rattle.member_copy.specs.MemberCopy.{gave_next, has_given_all};

use crate::member_copy::MemberCopy;
use bytes::Bytes;
use rejoin_catchup::Piece;

impl MemberCopy {
    /// The piece of the block that is due. `bytes` are the block's 4,096 at the front that was noted.
    pub fn give(&mut self, bytes: Bytes) -> Piece
        requires due { IsSome (due_of self.old.sender) }
        requires runs { self.old.broken ≡ false }
        requires whole { length bytes ≡ 4096 }
        ensures piece { IfSome (due_of self.old.sender) (λ block. result ≡ piece_of self.old.sender block bytes) }
        ensures given { self.new ≡ gave_next self.old }
        ensures blocks { length self.new.sender.marks ≡ length self.old.sender.marks }
        ensures copies { (volume copy : List ℕ) → length volume ≡ 4096 * length self.old.sender.marks → IsCopy self.old.sender volume copy
            → (block : ℕ) → due_of self.old.sender ≡ Some block → bytes ≡ block_of volume block → IsCopy self.new.sender volume (with_block copy block bytes) }

        // A receiver may take it.
        ensures whole { IsWhole result }
        ensures within { IsWithin result }
    {
        let rests = self.rests_then();
        let piece = self.sender.next_block(bytes);
        self.rests = rests;
        piece
    }

    /// Whether a block was given again, once the next one is.
    fn rests_then(&self) -> bool
        ensures { result ≡ (self.now.rests || has_given_all self.now.sender) }
    {
        self.rests || self.sender.has_given_all()
    }

    /// The end, once no block is due: the copy is the volume at the front that was noted.
    pub fn end(&self) -> Piece
        requires whole { due_of self.now.sender ≡ None }
        requires runs { self.now.broken ≡ false }
        ensures piece { result ≡ Piece.End self.now.front }
        ensures copies { (volume copy : List ℕ) → length volume ≡ 4096 * length self.now.sender.marks → IsCopy self.now.sender volume copy → copy ≡ volume }

        // A receiver may take it.
        ensures whole { IsWhole result }
        ensures within { IsWithin result }
    {
        self.sender.end(self.front)
    }
}
