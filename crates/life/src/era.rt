use crate::answer::Answer;
use crate::step::{ManagerAct, Step};
use disk_model::{Cut, Event};

/// What is done in an era.
#[derive(Debug, Drop)]
pub enum Deed {
    /// A step of the world.
    Step(Step),
    /// The manager does something.
    Manage(ManagerAct),
    /// Something is to happen at a device call to come, of the member at a place.
    Arm { at: usize, event: Event },
    /// Or at one of the configuration's disk.
    ArmConfig { event: Event },
}

/// From a beginning, or a recovery, to the next cut.
#[derive(Debug, Drop)]
pub struct Era {
    /// What is done, in order.
    pub deeds: Vec<Deed>,
    /// What a stop leaves of the ranges that aren't synced.
    pub cut: Cut,
    /// The places of the disks that return, counted as `cut` gives them. One that isn't there, or stands twice, changes nothing.
    pub returned: Vec<usize>,
}

/// What became of the deeds of an era, in their order.
#[derive(Debug, Drop)]
pub struct Answers {
    /// The answer to each.
    pub items: Vec<Answer>,
}
