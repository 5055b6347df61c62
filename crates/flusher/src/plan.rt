ghost use Rattle.std.specs.Prelude.{◌≡◌, ◌↔◌, ◌+◌, ◌-◌, ◌<◌, ◌≤◌, ◌^◌, ℕ, Option, Some, None, IfSome, IfNone, IsTrue, length};
ghost use Rattle.flusher.specs.Plan.{IsFrom, IsLeast, IsNext, IsPending, IsRun, NonePending};

use std::marker::Model;

/// A run of blocks, one behind the other.
#[derive(Clone, Copy, Debug, PartialEq, Eq)]
pub struct Run {
    /// The first of them.
    pub first: u32,
    /// How many they are.
    pub count: u32,
}

/// Which pending block was given last. A copy can be asked first, where it isn't known yet whether the block can be written.
#[derive(Clone, Copy, Debug, Default)]
pub struct Plan {
    last: Option<u32>,
}

impl Model for Plan {
    ghost Value = { Option ℕ };

    ghost view = { λ plan. plan.last };

    ghost inverse = { λ last. record { last = last } };
}

impl Plan {
    /// A plan that has given no block yet.
    pub fn new() -> Plan
        ensures { result ≡ None }
    {
        Plan { last: None }
    }

    /// The next of the blocks that are pending, which are the places with something in them, less than 2^32 places: the
    /// least above the last one given, or else the least. It is then the last one given. `None` exactly where none is
    /// pending, which changes nothing.
    pub fn next<T>(&mut self, pending: &[Option<T>]) -> Option<u32>
        requires { length pending.now < 2 ^ 32 }
        ensures next { IfSome result (IsNext self.old (IsPending pending.now)) }
        ensures given { IfSome result (λ block. self.new ≡ Some block) }
        ensures none { (result ≡ None) ↔ NonePending (IsPending pending.now) }
        ensures unchanged { IfNone result (self.new ≡ self.old) }
    {
        let behind = match self.last {
            Some(last) => last as usize + 1,
            None => 0,
        };
        let block = match least_from(pending, behind) {
            Some(block) => block as u32,
            None => least_from(pending, 0)? as u32,
        };
        self.last = Some(block);
        Some(block)
    }

    /// The next of the blocks that are pending, as `next` gives it, and those behind it without a gap, `most` together at
    /// most. The last of them is then the last one given. `None` exactly where none is pending, which changes nothing.
    pub fn next_run<T>(&mut self, pending: &[Option<T>], most: u32) -> Option<Run>
        requires size { length pending.now < 2 ^ 32 }
        requires some { 0 < most }
        ensures next { IfSome result (λ run. IsNext self.old (IsPending pending.now) run.first) }
        ensures run { IfSome result (λ run. IsRun most (IsPending pending.now) run.first run.count) }
        ensures given { IfSome result (λ run. self.new ≡ Some (run.first + run.count - 1)) }
        ensures none { (result ≡ None) ↔ NonePending (IsPending pending.now) }
        ensures unchanged { IfNone result (self.new ≡ self.old) }
    {
        let first = self.next(pending)?;
        let count = count_from(pending, first, most);
        self.last = Some(first + (count - 1));
        Some(Run { first, count })
    }
}

/// The least pending block from this one on.
fn least_from<T>(pending: &[Option<T>], first: usize) -> Option<usize>
    ensures found { IfSome result (IsLeast (IsFrom first (IsPending pending.now))) }
    ensures within { IfSome result (λ block. block < length pending.now) }
    ensures none { IfNone result (NonePending (IsFrom first (IsPending pending.now))) }
{
    for block in first..pending.len() {
        if pending[block].is_some() {
            return Some(block);
        }
    }
    None
}

/// How many blocks are pending from this one on without a gap, `most` at most.
fn count_from<T>(pending: &[Option<T>], first: u32, most: u32) -> u32
    requires some { 0 < most }
    requires pending { IsPending pending.now first }
    ensures run { IsRun most (IsPending pending.now) first result }
    ensures within { first + result ≤ length pending.now }
{
    for count in 1..most {
        if !is_pending(pending, first as usize + count as usize) {
            return count;
        }
    }
    most
}

/// Whether the block is pending.
fn is_pending<T>(pending: &[Option<T>], block: usize) -> bool
    ensures { IsTrue result ↔ IsPending pending.now block }
{
    block < pending.len() && pending[block].is_some()
}
