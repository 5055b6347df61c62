use bytes::Bytes;

/// What a sender gives a receiver, in this order: each block once, blocks that were written since once more, the end.
#[derive(Debug, Drop)]
pub enum Piece {
    /// A block that is given for the first time.
    First { block: u32, bytes: Bytes },
    /// A block that was written since it was given.
    Again { block: u32, bytes: Bytes },
    /// The end: the blocks are the volume at this front.
    End { front: u64 },
}
