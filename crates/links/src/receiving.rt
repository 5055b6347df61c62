ghost use Rattle.std.specs.Prelude.{◌≡◌, true};
ghost use Rattle.crossbeam_channel.specs.Claims.{view, IsSeatAt};
ghost use Rattle.crossbeam_channel.specs.Ends.{receives_on};

use crate::Refusal;
use crate::rule::{Law, Takes};
use crate::view::View;
use crossbeam_channel::{Pass, RuledReceiver};
use std::sync::Wait;

/// The end of a link that takes. Dropped, it closes the link, and what lies in it goes with it.
#[derive(Drop)]
pub struct Receiving<T: Drop> {
    pub(crate) end: RuledReceiver<T, View<T>, Law>,
    pub(crate) pass: Pass<T, View<T>>,
    pub(crate) ghost seated: { IsSeatAt (receives_on end) pass },
    pub(crate) ghost takes: { (view pass).takes ≡ true },
}

impl<T: Drop> Receiving<T> {
    ghost use Rattle.std.specs.Prelude.{MatchResult};
    ghost use Rattle.links.specs.Ends.{IsTaken, IsFoundClosed, IsSameReceiver};

    /// Takes the oldest item, once there is one. Where the link is closed and empty, nothing is taken.
    #[tactic(auto, using(crate::proofs::Moves::gets, crate::proofs::Moves::hears))]
    pub fn take<R: Wait>(&mut self, rt: &R) -> Result<T, Refusal>
        ensures link { IsSameReceiver self.old self.new }
        ensures taken { MatchResult result (λ item. IsTaken self.old item self.new) (λ e. IsFoundClosed self.old self.new e) }
    {
        match self.end.recv_as::<Takes, R>(rt, &mut self.pass) {
            Ok(item) => Ok(item),
            Err(_) => Err(Refusal::LinkClosed),
        }
    }
}
