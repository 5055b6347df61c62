ghost use Rattle.std.specs.Prelude.{◌≡◌, ◌<◌, MatchResult};
ghost use Rattle.links.specs.declared.refusal.Refusal.TheVariants.{Memory};
ghost use Rattle.links.specs.Ends.{IsNewLink, IsOneLink, AreSame, IsInOrder};

use crate::rule::{Compares, Ends, Law};
use crate::view::View;
use crate::{Receiving, Refusal, Sending};
use crossbeam_channel::bounded_with;
use std::alloc::Global;

/// A bounded link, from one thread to another.
pub struct Relay;

impl Relay {
    /// The two ends of an empty link, which holds this many items at most.
    #[tactic(auto, using(crate::proofs::Moves::begins, crate::proofs::Moves::forks))]
    pub fn pair<T: Drop>(
        alloc: Global,
        capacity: usize,
    ) -> Result<(Sending<T>, Receiving<T>), Refusal>
        requires { 0 < capacity }
        ensures made { MatchResult result (λ ends. IsNewLink capacity ends.0 ends.1) (λ e. e ≡ Memory) }
    {
        let (sender, receiver, mut pass) = bounded_with::<T, View<T>, Law, Global>(
            alloc, capacity,
        )?;
        let taking = sender.another::<Ends>(&mut pass);
        let sending = Sending { end: sender, pass };
        let receiving = Receiving {
            end: receiver,
            pass: taking,
        };
        Ok((sending, receiving))
    }

    /// Both ends of a link, seen together: what was put is what was taken, and then what is to come.
    #[tactic(auto, using(crate::proofs::Moves::merges, crate::proofs::Moves::totals, crate::proofs::Moves::forks))]
    pub fn compare<T: Drop>(
        sending: Sending<T>,
        receiving: Receiving<T>,
    ) -> (Sending<T>, Receiving<T>)
        requires { IsOneLink sending receiving }
        ensures same { AreSame sending receiving result.0 result.1 }
        ensures order { IsInOrder result.0 result.1 }
    {
        let Sending {
            end: sender,
            mut pass,
        } = sending;
        let Receiving {
            end: receiver,
            pass: taking,
        } = receiving;
        sender.absorb::<Ends>(&mut pass, taking);
        sender.learn_as::<Compares>(&mut pass);
        let taking = sender.another::<Ends>(&mut pass);
        let sending = Sending { end: sender, pass };
        let receiving = Receiving {
            end: receiver,
            pass: taking,
        };
        (sending, receiving)
    }
}
