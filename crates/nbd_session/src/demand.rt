use flush_barrier::{OwedFlush, OwedFua, OwedRead, OwedWrite};
use volume::Write;

/// A request of the volume, with the token of the reply that is owed to it. It has no `Drop`: the token is settled,
/// refused or abandoned.
///
/// Its range, if it has one, has at least one byte and lies inside the volume.
#[must_use]
#[derive(Debug)]
pub enum Demand {
    /// A READ of `length` bytes from the byte `offset` on.
    Read {
        token: OwedRead,
        offset: u64,
        length: u32,
    },
    /// A WRITE.
    Write {
        token: OwedWrite,
        write: Write,
    },
    /// A WRITE with FUA.
    Fua {
        token: OwedFua,
        write: Write,
    },
    /// A FLUSH.
    Flush {
        token: OwedFlush,
    },
}
