//! The demands that wait for a member.
ghost use Rattle.std.specs.Prelude.{◌≡◌, ◌↔◌, ◌≤◌, ◌∷◌, ◌++◌, [], ◌+◌, None, length, IfSome, IsTrue, OnOk};
ghost use Rattle.std.specs.VecDeque.{deque_capacity, deque_len};
ghost use Rattle.world.specs.Taking.{asks_floor};

use nbd_session::Demand;
use std::alloc::{AllocError, Global};
use std::collections::VecDeque;
use std::marker::Model;

/// The demands of a member's sessions that it hasn't taken, in order. It has no `Drop`, since they hold tokens.
pub(crate) struct Queue {
    pub(crate) demands: VecDeque<Demand>,
}

impl Model for Queue {
    ghost use Rattle.std.specs.Prelude.{List};
    ghost use Rattle.nbd_session.specs.declared.demand.Demand.{Demand as Waiting};

    ghost Value = { List Waiting };

    ghost view = { λ q. q.demands.items };
}

impl Queue {
    /// No demands.
    pub(crate) fn new(alloc: Global) -> Queue
        ensures { result ≡ [] }
    {
        Queue {
            demands: VecDeque::new(alloc),
        }
    }

    /// Whether no demand is in it.
    pub(crate) fn is_empty(&self) -> bool
        ensures { IsTrue result ↔ (self.now ≡ []) }
    {
        self.demands.is_empty()
    }

    /// The first demand leaves it. `None` where there is none.
    pub(crate) fn take(&mut self) -> Option<Demand>
        ensures first { IfSome result (λ demand. self.old ≡ demand ∷ self.new) }
        ensures none { result ≡ None → (self.old ≡ []) × (self.new ≡ []) }
    {
        self.demands.pop_front()
    }

    /// Whether its first demand asks for a floor: a write with FUA, or a FLUSH.
    pub(crate) fn asks_floor(&self) -> bool
        ensures { result ≡ asks_floor self.now }
    {
        match self.demands.front() {
            Some(Demand::Fua { .. } | Demand::Flush { .. }) => true,
            Some(Demand::Read { .. } | Demand::Write { .. }) | None => false,
        }
    }

    /// Gives all demands up.
    pub(crate) fn abandon(self) {
        let Queue { mut demands } = self;
        while let Some(demand) = demands.pop_front() {
            abandon(demand);
        }
        demands.destroy_empty();
    }
}

/// Puts demands behind those of a queue that has room for them.
pub(crate) fn put_behind(queue: &mut VecDeque<Demand>, demands: Vec<Demand>)
    requires { deque_len queue.old + length demands.items ≤ deque_capacity queue.old }
    ensures { queue.new.items ≡ queue.old.items ++ demands.items }
{
    let mut demands = VecDeque::from_vec(demands);
    let put = queue.append(&mut demands);
    demands.destroy_empty();
    match put {
        Ok(()) => (),
        Err(_) => unreachable!(),
    }
}

/// Ends a demand without a reply.
fn abandon(demand: Demand) {
    match demand {
        Demand::Read {
            token,
            offset: _,
            length: _,
        } => token.abandon(),
        Demand::Write { token, write: _ } => token.abandon(),
        Demand::Fua { token, write: _ } => token.abandon(),
        Demand::Flush { token } => token.abandon(),
    }
}
