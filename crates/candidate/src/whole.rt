//! A disk that has the volume.
ghost use Rattle.std.specs.Prelude.{◌≡◌, ◌*◌};
ghost use Rattle.chain_core.specs.Node.{IsRunning};

use gate_journal::Synced;
use local_store::StoreLike;
use std::marker::Model;

/// A disk that has the volume: its store, which isn't broken, of version 2 and with its log there, and the receipt for all that it holds.
#[derive(Drop)]
pub struct Whole<S: StoreLike> {
    store: S,
    receipt: Synced,
}

impl<S: StoreLike> Model for Whole<S> {
    ghost use Rattle.candidate.specs.Candidate.{Whole};
    ghost use Rattle.chain_core.specs.Node.{IsRunning};

    ghost Value = { Whole S };

    ghost view = { λ w. record { store = w.store; receipt = w.receipt } };

    ghost invariant = { λ w. IsRunning (S.about w.store) (record { premise = S.keeps_model; keeps = S.keeps w.store }) };
}

impl<S: StoreLike + Drop> Whole<S> {
    /// Of this store and receipt.
    pub(crate) fn new(store: S, receipt: Synced) -> Whole<S>
        requires { IsRunning (S.about store) (record { premise = S.keeps_model; keeps = S.keeps store }) }
        ensures { result ≡ record { store = store; receipt = receipt } }
    {
        Whole { store, receipt }
    }

    /// Its store, and the receipt.
    pub fn into_parts(self) -> (S, Synced)
        ensures parts { (result.0 ≡ self.store) × (result.1 ≡ self.receipt) }
        ensures runs { IsRunning (S.about result.0) (record { premise = S.keeps_model; keeps = S.keeps result.0 }) }
    {
        let Whole { store, receipt } = self;
        (store, receipt)
    }
}
