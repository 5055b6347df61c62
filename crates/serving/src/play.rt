use crate::Control;
use cluster::Crew;
use export::Volume;
use sessions::Clients;
use std::sync::Wait;
use std::thread::Threads;

/// What a chain runs for. When it ends, so does the chain.
pub trait Play {
    /// Asks the chain, until nothing more is asked.
    fn play<R: Threads + Wait + Sync, W: Crew + Volume + Sync>(&self, rt: &R, chain: &W);
}

/// Who asks the chain.
#[derive(Drop)]
pub(crate) enum Asks<'p, P> {
    Play(&'p P),
    Clients {
        clients: &'p Clients,
        control: &'p Control,
    },
}

/// Asks nothing.
pub(crate) struct Nobody;

impl Play for Nobody {
    fn play<R: Threads + Wait + Sync, W: Crew + Volume + Sync>(&self, _: &R, _: &W) {}
}
