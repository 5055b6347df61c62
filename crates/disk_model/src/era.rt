// What a disk in memory was, before its log was last put back.
use crate::content::Change;

/// The calls of a content, from its beginning on.
#[derive(Drop)]
pub struct Run {
    /// The bytes at the beginning.
    pub base: Vec<u8>,
    /// Which of them waited for a sync then.
    pub loose: Vec<bool>,
    /// The calls since then.
    pub log: Vec<Change>,
}

/// A time in which a disk was whole, or in which its log was lent.
#[derive(Drop)]
pub enum Era {
    /// The whole, and its calls.
    Whole(Run),
    /// The two halves: what each was before, if its own log was lent meanwhile, and its calls since.
    Halved {
        border: u64,
        home: Vec<Era>,
        home_run: Run,
        log: Vec<Era>,
        log_run: Run,
    },
}
