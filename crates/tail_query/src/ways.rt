/// How a range is to be answered.
#[derive(Clone, Copy, Debug, PartialEq, Eq)]
pub enum Plan {
    /// At once, at the known commit: no later write touches a block of it.
    Local,
    /// At the front that the tail has committed, which is asked for first.
    Ask,
}
