//! The store of a disk that has the volume.
ghost use Rattle.std.specs.Prelude.{◌≡◌};
ghost use Rattle.chain_core.specs.Node.{IsRunning, size_of};

use local_store::StoreLike;
use member::Agreed;
use std::marker::{Model, PhantomData};

/// The store of a disk that has the volume: it isn't broken, its disk is of version 2, its log is there, and it keeps a volume
/// of its size, which is the chain's.
#[derive(Drop)]
pub struct Whole<S: StoreLike, J: Agreed> {
    store: S,
    of: PhantomData<J>,
}

impl<S: StoreLike, J: Agreed> Model for Whole<S, J> {
    ghost Value = { S };

    ghost view = { λ whole. whole.store };

    ghost invariant = { λ whole. IsRunning (S.about whole.store) (record { premise = S.keeps_model; keeps = S.keeps whole.store }) × (size_of (S.about whole.store) ≡ J.size) };
}

impl<S: StoreLike + Drop, J: Agreed> Whole<S, J> {
    /// This store.
    pub(crate) fn new(store: S) -> Whole<S, J>
        requires size { size_of (S.about store) ≡ J.size }
        requires runs { IsRunning (S.about store) (record { premise = S.keeps_model; keeps = S.keeps store }) }
        ensures { result ≡ store }
    {
        Whole {
            store,
            of: PhantomData,
        }
    }

    /// Its store.
    pub(crate) fn into_store(self) -> S
        ensures store { result ≡ self }
        ensures size { size_of (S.about result) ≡ J.size }
        ensures runs { IsRunning (S.about result) (record { premise = S.keeps_model; keeps = S.keeps result }) }
    {
        let Whole { store, of: _ } = self;
        store
    }
}
