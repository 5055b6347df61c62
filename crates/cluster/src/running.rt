//! The threads of a chain.
use crate::cluster::Cluster;
use crate::pause::{NoPause, Pause};
use crate::refusal::Refusal;
use disk_model::HalvedDisk;
use gate_journal::Slot as Place;
use member::Agreed;
use std::alloc::AllocError;
use std::sync::Wait;
use std::thread::{Scope, Threads};

/// What works for the members of a chain while they are asked.
pub trait Crew {
    /// Commits at a slot, until the crew is told to end and nothing is to be committed there; and pauses at its points.
    fn commit_at<R: Wait, P: Pause>(&self, rt: &R, place: Place, pause: &P);

    /// Stops the member there, if one sits there: it refuses from then on, and the chain goes on without it. Where memory runs out it isn't
    /// stopped.
    fn stop_at<R: Wait>(&self, rt: &R, place: Place) -> Result<(), AllocError>;

    /// Tells all that nothing more is asked.
    fn close<R: Wait>(&self, rt: &R);

    /// Wakes who manages the chain: there is something else to look at.
    fn wake_manager<R: Wait>(&self, rt: &R);
}

impl<D: HalvedDisk + Drop, J: Agreed> Crew for Cluster<D, J> {
    fn commit_at<R: Wait, P: Pause>(&self, rt: &R, place: Place, pause: &P) {
        self.commit_all(rt, place, pause);
    }

    fn stop_at<R: Wait>(&self, rt: &R, place: Place) -> Result<(), AllocError> {
        self.stop(rt, place)
    }

    fn close<R: Wait>(&self, rt: &R) {
        for slot in &self.slots {
            slot.bell.close(rt);
        }
        self.changes.close(rt);
    }

    fn wake_manager<R: Wait>(&self, rt: &R) {
        self.changes.ring(rt);
    }
}

/// Starts a committer for each slot, in a thread of its own within the scope. 100 `Memory` where the system gives no thread. Whoever starts
/// them closes the crew before the scope ends, also where this is refused.
pub fn start_all<'s, E, R: Threads + Wait + Sync, W: Crew + Sync>(
    scope: &Scope<'s, E>,
    rt: &'s R,
    crew: &'s W,
) -> Result<(), Refusal> {
    let started = [
        start(scope, rt, crew, 0),
        start(scope, rt, crew, 1),
        start(scope, rt, crew, 2),
        start(scope, rt, crew, 3),
        start(scope, rt, crew, 4),
        start(scope, rt, crew, 5),
        start(scope, rt, crew, 6),
        start(scope, rt, crew, 7),
    ];
    if started == [true; 8] {
        Ok(())
    } else {
        Err(Refusal::Memory)
    }
}

/// Starts the committer of a slot, in a thread of its own. False where the system gives no thread.
fn start<'s, E, R: Threads + Wait + Sync, W: Crew + Sync>(
    scope: &Scope<'s, E>,
    rt: &'s R,
    crew: &'s W,
    number: u8,
) -> bool {
    scope.spawn(move || commit_at(rt, crew, number)).is_ok()
}

fn commit_at<R: Wait, W: Crew>(rt: &R, crew: &W, number: u8) {
    if let Some(place) = Place::new(number) {
        crew.commit_at(rt, place, &NoPause);
    }
}
