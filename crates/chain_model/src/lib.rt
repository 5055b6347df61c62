//! When a chain of members whose record changes stands for a state of the one volume's machine, and that each kind of
//! its steps keeps that.
//!
//! Seen of a chain are its board, the recorded chain, the one before it and the record that is being written, members
//! at slots, links between slots whose messages have epochs, and what sessions keep (`specs/View.antt`). Its contract
//! for the layers above: whatever happens in such a chain, one thing after another, with members removed, with a tail
//! that holds the front, and with cuts in between, clients see one volume; after each cut it goes on with all that is
//! owed; and a request is refused with EIO only for a reason. Beneath that is the order of its writes, while some
//! members were told the next record and others not; a member that joins is in that too.
//!
//! Left to others: a program whose calls are such happenings; who removes a member, and when; and that any step is
//! taken at all.
#![tactic(auto)]

mod laws;
mod order_laws;

pub use laws::{
    chains_begin_again, commits_are_of_one_volume, demands_are_of_one_volume,
    each_disk_has_what_is_owed, fronts_are_of_one_volume, joins_are_of_one_volume,
    lives_are_of_one_volume, messages_are_of_one_volume, records_are_of_one_volume,
    refusals_have_pleas, sessions_are_of_one_volume,
};
pub use order_laws::{
    changes_keep_order, joining_keeps_order, members_keep_order, order_agrees, order_begins,
    places_suit, slots_show_order,
};
