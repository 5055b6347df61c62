//! The life of a chain: what clients, members and the board do, one thing after another, with cuts in between.
//!
//! A step of a world is a value here (`Step`), so that a list can hold what is done, and `play` is the call of `World` that it
//! names; what its manager does is another (`ManagerAct`, `manage`). `begin`, `cut` and `recover` make a world and its manager over disks
//! in memory, stop it, and go on from one of its disks, by the record on the configuration's. `live` plays whole lives of eras, and carries
//! the headline of this project, `specs/Headline.antt`: what clients see of all eras is one volume, and what they were told is durable is
//! there after each cut.
#![tactic(auto)]

mod admitting;
mod answer;
mod beginning;
mod choosing;
mod cutting;
mod era;
mod living;
mod managed;
mod managing;
mod playing;
mod recovering;
mod refusal;
mod step;

pub use answer::{Answer, MEMORY};
pub use beginning::begin;
pub use cutting::{Disks, cut};
pub use era::{Answers, Deed, Era};
pub use living::{Lived, has_met_stop, live};
pub use managed::{ManagedWorld, SlotDisk};
pub use managing::manage;
pub use playing::play;
pub use recovering::{Refused, recover};
pub use refusal::Refusal;
pub use step::{Act, ManagerAct, Step};
