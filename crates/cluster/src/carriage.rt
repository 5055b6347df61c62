use crate::carried::Carried;
use member::Route;
use std::alloc::Global;
use std::sync::{Mutex, Wait};

/// What a member has sent by each way, on its way.
#[derive(Drop)]
pub(crate) struct Ways {
    pub(crate) on: Carried,
    pub(crate) back: Carried,
    pub(crate) to_head: Carried,
}

impl Ways {
    /// Nothing is on its way.
    pub(crate) fn new(alloc: Global) -> Ways {
        Ways {
            on: Carried::new(alloc),
            back: Carried::new(alloc),
            to_head: Carried::new(alloc),
        }
    }

    /// By a way.
    pub(crate) fn by(&mut self, route: Route) -> &mut Carried {
        match route {
            Route::On => &mut self.on,
            Route::Back => &mut self.back,
            Route::ToHead => &mut self.to_head,
        }
    }

    /// Whether a message waits that its member takes later.
    fn is_stuck(&self) -> bool {
        !(self.on.is_empty() && self.back.is_empty() && self.to_head.is_empty())
    }
}

/// Who carries what a member has sent: one thread at a time, so that each way keeps its order. The thread that makes something to be
/// carried carries it; where another is at it, that one looks again before it ends.
#[derive(Drop)]
struct State {
    // none while a thread carries
    ways: Option<Ways>,
    again: bool,
    stuck: bool,
}

/// A member's carriage.
#[derive(Drop)]
pub(crate) struct Carriage {
    state: Mutex<State>,
}

impl Carriage {
    /// Nothing is on its way.
    pub(crate) fn new(alloc: Global) -> Carriage {
        Carriage {
            state: Mutex::new(State {
                ways: Some(Ways::new(alloc)),
                again: false,
                stuck: false,
            }),
        }
    }

    /// Takes up what is on its way, if no other thread is at it; the other one looks again then.
    pub(crate) fn enter<R: Wait>(&self, rt: &R) -> Option<Ways> {
        let mut state = self.state.lock(rt);
        let ways = state.ways.take();
        state.again = ways.is_none();
        ways
    }

    /// Lets go. Where another thread has come meanwhile, it goes on.
    pub(crate) fn leave<R: Wait>(&self, rt: &R, ways: Ways) -> Option<Ways> {
        let mut state = self.state.lock(rt);
        if state.again {
            state.again = false;
            return Some(ways);
        }
        state.stuck = ways.is_stuck();
        state.ways = Some(ways);
        None
    }

    /// Whether a message waits that its member takes later, or may wait, since a thread carries just now.
    pub(crate) fn is_stuck<R: Wait>(&self, rt: &R) -> bool {
        let state = self.state.lock(rt);
        state.stuck || state.ways.is_none()
    }
}
