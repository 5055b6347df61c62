use volume::Write;

/// Where a write came from. The table only keeps it.
#[derive(Clone, Copy, Debug, PartialEq, Eq)]
pub struct Origin {
    /// The slot of the member that took the write from its client.
    pub slot: u8,
    /// That member's incarnation.
    pub incarnation: u64,
    /// The ticket under which it keeps the client's request.
    pub ticket: u64,
}

/// A write that the table keeps.
#[derive(Debug, Drop)]
pub struct Kept {
    /// Its number among all writes of the volume, counted from 1.
    pub number: u64,
    /// The write.
    pub write: Write,
    /// Where it came from.
    pub origin: Origin,
}
