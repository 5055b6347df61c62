//! What the machine looks up in its lists, and how it marks a write as answered.

ghost use Rattle.std.specs.Prelude.{◌≡◌, ◌≢◌, ◌==◌, ◌↔◌, ℕ, ◌+◌, ◌-◌, ◌<◌, ◌≤◌, IfNone, IfSome, IsTrue, None, OnSome, Some, All, Contains, filter, find, length, map, not, option_copied, slice_get};
ghost use Rattle.world_model.specs.Machine.{answered_at, last_answered};

use crate::asked::AskedRequest;
use crate::taken::TakenWrite;

// The request of this name.
pub fn find_asked(sent: &[AskedRequest], name: u64) -> Option<&AskedRequest>
    ensures { option_copied result ≡ find (λ a. a.name == name) sent.now }
{
    sent.iter().find(|asked| asked.name() == name)
}

// Whether the name is one of these.
fn is_among(names: &[u64], name: u64) -> bool
    ensures { IsTrue result ↔ Contains names.now name }
{
    names.contains(&name)
}

// The request of this name, if it waits.
pub fn find_waiting<'a>(
    sent: &'a [AskedRequest],
    waiting: &[u64],
    name: u64,
) -> Option<&'a AskedRequest>
    ensures none { IfNone result (IfSome (find (λ a. a.name == name) sent.now) (λ _. Contains waiting.now name → ⊥)) }
    ensures some { IfSome result (λ asked. find (λ a. a.name == name) sent.now ≡ Some asked.now) }
    ensures waits { OnSome result (Contains waiting.now name) }
{
    if is_among(waiting, name) {
        find_asked(sent, name)
    } else {
        None
    }
}

// Takes the name from those that wait.
pub fn stop_waiting(waiting: &mut Vec<u64>, name: u64)
    ensures { waiting.new.items ≡ filter (λ n. not (n == name)) waiting.old.items }
{
    waiting.retain(|waiting| *waiting != name);
}

// Whether no write of this name was taken.
pub fn is_untaken(taken: &[TakenWrite], name: u64) -> bool
    ensures { IsTrue result ↔ All (λ t. t.name ≢ name) taken.now }
{
    taken.iter().all(|write| write.name() != name)
}

// Whether the write at this place, counted from 1, has this name.
pub fn is_at(taken: &[TakenWrite], name: u64, place: usize) -> bool
    ensures { IsTrue result ↔ ((0 < place) × (slice_get (map (λ t. t.name) taken.now) (place - 1) ≡ Some name)) }
{
    place > 0 && place <= taken.len() && taken[place - 1].name() == name
}

// The place of the last write that was answered, or 0.
pub fn last_answered_in(taken: &[TakenWrite]) -> usize
    ensures { result ≡ last_answered 1 taken.now }
{
    let mut last = 0;
    for (i, write) in taken.iter().enumerate() {
        if write.is_answered() {
            last = i + 1;
        }
    }
    last
}

// Marks the write at this place, counted from 1, as answered.
pub fn mark_answered(taken: &mut [TakenWrite], place: usize)
    requires some { 0 < place }
    requires within { place ≤ length taken.old }
    ensures { taken.new ≡ answered_at place taken.old }
{
    let write = &mut taken[place - 1];
    write.answer();
}
