use local_store::Refusal;
use world::Told;

/// Why a block wasn't given.
#[derive(Debug, Drop)]
pub enum NotGiven {
    /// The member has stopped: before, or in this call, and then clients were told this.
    Stopped(Option<Told>),
    /// The disk refused it, or this copying is broken.
    Refused(Refusal),
}
