use flush_barrier::OwedRead;

/// A READ of `length` bytes from `offset` on, which waited for a front, and its token. It has no `Drop`.
#[must_use]
#[derive(Debug)]
pub struct AskedRead {
    pub offset: u64,
    pub length: u32,
    pub token: OwedRead,
}
