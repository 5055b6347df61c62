//! The version table: the latest writes of a volume, kept by number until they are forgotten.
//!
//! Its contract for the layers above: a block of the volume after any number of the kept writes, made from that block
//! as it was before the first of them; and whether a range is untouched by the writes above a number. Where that block
//! is read, and what an origin means, is left to those layers.
#![tactic(auto)]

mod kept;
mod laws;
mod marks;
mod refusal;
mod table;

pub use kept::{Kept, Origin};
pub use laws::kept_writes_go_on;
pub use refusal::Refusal;
pub use table::{MAX_DATA, MAX_KEPT, Table};
