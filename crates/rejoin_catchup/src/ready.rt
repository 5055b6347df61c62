use gate_journal::Synced;

/// What comes of the end: the receipt of its front, and the disk, which means the volume at it.
#[derive(Drop)]
pub struct Ready<D> {
    pub receipt: Synced,
    pub disk: D,
}
