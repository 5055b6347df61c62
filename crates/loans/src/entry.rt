use std::snapshot::Snapshot;

/// A loan, as the ring has it: contracts alone see it.
#[derive(Drop)]
pub struct Entry<T> {
    pub(crate) loan: Snapshot<T>,
}
