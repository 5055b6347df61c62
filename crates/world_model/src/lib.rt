//! What clients of the one volume may see, apart from all code that keeps it.
//!
//! A machine of eight steps says it, and what each of its steps shows (`specs/Machine.antt`). Its contract for the layers
//! above: in each of its runs a READ finds every write that was taken when it was sent, what is owed is never lost, and
//! a FLUSH or a FUA write that was answered owes what came before it. `Machine` runs it, slowly and plainly: its contract
//! is the definition.
//!
//! Beside it stands what any chain has, whatever its members and links are: what the board tells of the disks
//! (`specs/Backing.antt`), the order of the writes (`specs/Order.antt`), what requests leave, and which state of the
//! machine that is (`specs/Requests.antt`). How each change of these keeps that state is proved here once, for all
//! chains (`proofs/`). When a chain as a whole stands for a state is said by `chain_model`.
//!
//! Left to others: which steps are taken, and when; that a session's requests and replies are its bytes; and that any
//! step is taken at all.
#![tactic(auto)]

mod asked;
mod contents;
mod laws;
mod lists;
mod machine;
mod request;
mod taken;

pub use laws::{
    flushes_owe, nothing_is_lost, owed_stays, reads_are_fresh, runs_go_on, runs_keep_sound,
};
pub use machine::Machine;
pub use request::Request;
