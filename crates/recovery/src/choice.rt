ghost use Rattle.std.specs.Prelude.{◌≡◌, ◌≢◌, ◌⊎◌, ◌↔◌, ◌+◌, ◌<◌, ◌≤◌, ℕ, [], length, slice_get, Some, IsTrue, IfOk, IfSome, IfNone, IsErrOf};
ghost use Rattle.recovery.specs.Choice.{IsSource, NoneRecorded};

use crate::search::best_of;
use crate::{Refusal, Returned, Source};
use configurations::Record;

/// A disk of the recorded chain: its place in the list, its member's seat in the chain, its front.
#[derive(Clone, Copy)]
pub(crate) struct Candidate {
    pub(crate) place: usize,
    pub(crate) seat: usize,
    pub(crate) front: u64,
}

/// The disk from which the volume is taken: among those that are members of the recorded chain, by slot and
/// incarnation, the one with the greatest front. Ties go to the earlier in the chain, then to the earlier in the list.
/// Disks that the chain doesn't have are passed over. 191 `NoneReturned`: the list is empty. 192 `NotInChain`: it has
/// no disk of the chain.
pub fn choose(recorded: &Record, returned: &[Returned]) -> Result<Source, Refusal>
    ensures source { IfOk result (λ source. IsSource recorded.now.members returned.now source.place) }
    ensures none { IsErrOf result Refusal.NoneReturned ↔ (returned.now ≡ []) }
    ensures strangers { IsErrOf result Refusal.NotInChain ↔ ((returned.now ≢ []) × NoneRecorded recorded.now.members returned.now) }
{
    if returned.is_empty() {
        return Err(Refusal::NoneReturned);
    }
    match best_of(recorded.members(), returned) {
        Some(best) => Ok(Source { place: best.place }),
        None => Err(Refusal::NotInChain),
    }
}

impl Candidate {
    ghost use Rattle.recovery.specs.Candidate.{Beats};

    /// Whether it goes before one that stands earlier in the list.
    pub(crate) fn beats(self, best: Candidate) -> bool
        ensures { IsTrue result ↔ Beats self best }
    {
        self.front > best.front || (self.front == best.front && self.seat < best.seat)
    }
}
