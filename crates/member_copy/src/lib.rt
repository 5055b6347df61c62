//! What is given of a member's volume to a joiner, while the member goes on: the sender's side alone, beside the member's node.
//!
//! It lies with the member, under its lock, and is lent the node at each call. Its contract for the layer above: while each block is given as
//! it is at the known commit that was noted, and the copy isn't broken, what the pieces make has each block that was given and isn't due
//! again; once none is due, it is the volume at that front. When to note, where pieces go, and the joiner's disk are left to that layer.
#![tactic(auto)]

mod giving;
mod member_copy;
mod noting;

pub use member_copy::MemberCopy;
