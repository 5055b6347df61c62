// The search for the source, disk by disk.
ghost use Rattle.std.specs.Prelude.{◌≡◌, ◌+◌, ◌<◌, ◌≤◌, ℕ, length, slice_get, Some, IfSome, IfNone};
ghost use Rattle.recovery.specs.Candidate.{IsBestSoFar, IsCandidateAt};

use crate::Returned;
use crate::choice::Candidate;
use configurations::Member;

/// The first seat of a member in the chain.
fn seat_of(chain: &[Member], member: Member) -> Option<usize>
    ensures seat { IfSome result (λ seat. slice_get chain.now seat ≡ Some member) }
    ensures first { IfSome result (λ seat. (s : ℕ) → slice_get chain.now s ≡ Some member → seat ≤ s) }
    ensures none { IfNone result ((s : ℕ) → slice_get chain.now s ≡ Some member → ⊥) }
{
    for (seat, recorded) in chain.iter().enumerate() {
        if *recorded == member {
            return Some(seat);
        }
    }
    None
}

/// The disk at a place, where the chain has it.
fn candidate_at(chain: &[Member], returned: &[Returned], place: usize) -> Option<Candidate>
    requires { place < length returned.now }
    ensures { IsCandidateAt chain.now returned.now place result }
{
    let Returned::Opened { member, front } = returned[place] else {
        return None;
    };
    let seat = seat_of(chain, member)?;
    Some(Candidate { place, seat, front })
}

/// The better of the best so far and the disk at the next place.
fn better(
    chain: &[Member],
    returned: &[Returned],
    place: usize,
    best: Option<Candidate>,
) -> Option<Candidate>
    requires place { place < length returned.now }
    requires best { IsBestSoFar chain.now returned.now place best }
    ensures { IsBestSoFar chain.now returned.now (place + 1) result }
{
    match (best, candidate_at(chain, returned, place)) {
        (best, None) => best,
        (Some(best), Some(next)) if !next.beats(best) => Some(best),
        (_, next) => next,
    }
}

/// The source among all disks, where the chain has one of them.
pub(crate) fn best_of(chain: &[Member], returned: &[Returned]) -> Option<Candidate>
    ensures { IsBestSoFar chain.now returned.now (length returned.now) result }
{
    let mut best = None;
    for place in 0..returned.len() {
        best = better(chain, returned, place, best);
    }
    best
}
