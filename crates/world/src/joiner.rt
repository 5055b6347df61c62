//! The disk that joins.
ghost use Rattle.std.specs.Prelude.{◌≡◌};
ghost use Rattle.chain_core.specs.Node.{IsRunning};

use local_store::StoreLike;
use std::marker::Model;

/// The store of a disk that joins: it isn't broken, its disk is of version 2, its log is there, and it keeps a volume of its size.
#[derive(Drop)]
pub(crate) struct Joiner<S: StoreLike> {
    store: S,
}

impl<S: StoreLike> Model for Joiner<S> {
    ghost Value = { S };

    ghost view = { λ joiner. joiner.store };

    ghost invariant = { λ joiner. IsRunning (S.about joiner.store) (record { premise = S.keeps_model; keeps = S.keeps joiner.store }) };
}

impl<S: StoreLike + Drop> Joiner<S> {
    /// Whose disk joins.
    pub(crate) fn new(store: S) -> Joiner<S>
        requires { IsRunning (S.about store) (record { premise = S.keeps_model; keeps = S.keeps store }) }
        ensures { result ≡ store }
    {
        Joiner { store }
    }

    /// Its store.
    pub(crate) fn store(&self) -> &S
        ensures { result.now ≡ self.now }
    {
        &self.store
    }

    /// Its store, which isn't the joiner's any more.
    pub(crate) fn into_store(self) -> S
        ensures store { result ≡ self }
        ensures runs { IsRunning (S.about result) (record { premise = S.keeps_model; keeps = S.keeps result }) }
    {
        let Joiner { store } = self;
        store
    }
}
