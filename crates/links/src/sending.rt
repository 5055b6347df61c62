ghost use Rattle.std.specs.Prelude.{◌≡◌, true};
ghost use Rattle.crossbeam_channel.specs.Claims.{view, IsSeatAt};
ghost use Rattle.crossbeam_channel.specs.Ends.{sends_on};

use crate::Refusal;
use crate::rule::{Law, Puts};
use crate::view::View;
use crossbeam_channel::{Pass, RuledSender};
use std::sync::Wait;

/// The end of a link that puts. Dropped, it closes the link behind what it put.
#[derive(Drop)]
pub struct Sending<T: Drop> {
    pub(crate) end: RuledSender<T, View<T>, Law>,
    pub(crate) pass: Pass<T, View<T>>,
    pub(crate) ghost seated: { IsSeatAt (sends_on end) pass },
    pub(crate) ghost puts: { (view pass).puts ≡ true },
}

impl<T: Drop> Sending<T> {
    ghost use Rattle.std.specs.Prelude.{MatchResult};
    ghost use Rattle.links.specs.Ends.{IsPut, IsHandedBack, IsSameSender};

    /// Puts an item, once there is room for it. Where the link is closed, nothing is put, and the item comes back.
    pub fn put<R: Wait>(&mut self, rt: &R, item: T) -> Result<(), (Refusal, T)>
        ensures link { IsSameSender self.old self.new }
        ensures put { MatchResult result (λ _. IsPut self.old item self.new) (λ e. IsHandedBack self.old item self.new e) }
    {
        match self.end.send_as::<Puts, R>(rt, &mut self.pass, item) {
            Ok(()) => Ok(()),
            Err(e) => Err((Refusal::LinkClosed, e.into_inner())),
        }
    }
}
