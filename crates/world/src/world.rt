ghost use Rattle.std.specs.Prelude.{◌≡◌, ◌≤◌, ◌<◌, ◌*◌, ℕ, [], List, None, length, map, replicate, slice_get, All, IfErr, IfOk, IfSome, IsTrue, ◌↔◌};
ghost use Rattle.std.specs.Prelude.{◌∷◌};
ghost use Rattle.chain_steps.specs.Node.{durable_of, last_of};
ghost use Rattle.chain_model.specs.View.{is_in};

use crate::joiner::Joiner;
use crate::queue::Queue;
use chain::Chain;
use chain_steps::Cause;
use clients::Clients;
use configurations::Record;
use flush_barrier::SessionId;
use gate_journal::Slot;
use local_store::StoreLike;
use std::alloc::{AllocError, Global};
use std::marker::Model;
use volume::Geometry;

/// A chain of one to eight members whose record changes, and the clients of its volume. It has no `Drop`, since it holds tokens: `abandon` ends it.
pub struct World<S: StoreLike> {
    pub(crate) alloc: Global,
    pub(crate) chain: Chain<S>,
    pub(crate) clients: Clients,
    /// For each member, by place.
    pub(crate) queues: Vec<Queue>,
    /// The store of the disk that joins.
    pub(crate) joiner: Option<Joiner<S>>,
}

impl<S: StoreLike> Model for World<S> {
    ghost use Rattle.world.specs.World.{IsJoined, Seen};

    ghost Value = { Seen S };

    ghost view = { λ w. record { chain = w.chain; sessions = w.clients; queues = w.queues.items; joiner = w.joiner } };

    ghost invariant = { λ w. IsJoined (record { chain = w.chain; sessions = w.clients; queues = w.queues.items; joiner = w.joiner }) };
}

impl<S: StoreLike + Drop> World<S> {
    ghost use Rattle.chain.specs.Chain as chains;
    ghost use Rattle.chain.specs.Chain.{bytes_of};
    ghost use Rattle.chain.specs.Member.{HasOwnDisk, IsInOrder, KeepsInside};
    ghost use Rattle.clients.specs.Clients.{AreSessions};
    ghost use Rattle.world.specs.World.{HasNoClients, IsJoined, Shows};
    ghost use Rattle.chain_model.specs.View.{View};

    /// The world of a chain, without clients. Their sessions will be at the chain's volume, and are offered zeros as they fit into a
    /// member's journal area.
    ///
    /// Where memory runs out, it hands the chain back.
    pub fn new(alloc: Global, chain: Chain<S>) -> Result<World<S>, Chain<S>>
        ensures chain { IfOk result (λ world. world.chain ≡ chain) }
        ensures sessions { IfOk result (λ world. world.sessions ≡ record {
          board = chain.id;
          export = record { size = 4096 * chain.geometry.blocks; max_payload = chain.geometry.max_payload; area = chain.geometry.area };
          clients = [];
        }) }
        ensures queues { IfOk result (λ world. world.queues ≡ replicate (length chain.members) []) }
        ensures alone { IfOk result (λ world. world.joiner ≡ None) }
        ensures shows { IfOk result (λ world. (v : View) → chains.Shows S.about S.keeps S.may_leave_now chain v → HasNoClients v → Shows S.about S.keeps S.may_leave_now world v) }
        ensures back { IfErr result (λ given. given ≡ chain) }
    {
        let Ok(queues) = queues_of(alloc, chain.len()) else {
            return Err(chain);
        };
        let geometry = chain.geometry();
        let clients = Clients::new(
            alloc,
            chain.board(),
            geometry.size(),
            geometry.max_payload,
            geometry.area,
        );
        Ok(World {
            alloc,
            chain,
            clients,
            queues,
            joiner: None,
        })
    }

    /// Does nothing: its clauses are what holds of every world.
    pub fn sound(&self)
        ensures joined { IsJoined self.now }
        ensures sessions { AreSessions self.now.sessions }
        ensures disks { All (HasOwnDisk S.about) self.now.chain.members }
        ensures inside { All (KeepsInside (bytes_of self.now.chain)) self.now.chain.members }
    {
        self.clients.sound();
        self.chain.sound();
    }

    /// How many members it has, those too that were removed.
    pub fn len(&self) -> usize
        ensures { result ≡ length self.now.chain.members }
    {
        self.chain.len()
    }

    /// The sizes of its volume.
    pub fn geometry(&self) -> Geometry
        ensures { result ≡ self.now.chain.geometry }
    {
        self.chain.geometry()
    }

    /// The committed front.
    pub fn front(&mut self) -> u64
        ensures front { result ≡ self.old.chain.words.front }
        ensures unchanged { self.new ≡ self.old }
    {
        self.chain.front()
    }

    /// The slot of the member at a place.
    pub fn slot(&self, at: usize) -> Slot
        requires { at < length self.now.chain.members }
        ensures { IfSome (slice_get self.now.chain.members at) (λ m. result ≡ m.node.state.place.slot) }
    {
        self.chain.slot(at)
    }

    /// Why the member at a place stopped. `None` while it runs.
    pub fn cause(&self, at: usize) -> Option<Cause>
        requires { at < length self.now.chain.members }
        ensures { IfSome (slice_get self.now.chain.members at) (λ m. result ≡ m.node.state.stopped) }
    {
        self.chain.cause(at)
    }

    /// The recorded chain.
    pub fn recorded(&self) -> &Record
        ensures { result.now ≡ self.now.chain.recorded }
    {
        self.chain.recorded()
    }

    /// Whether the member at a place is in the recorded chain, by its slot and incarnation.
    pub fn is_recorded(&self, at: usize) -> bool
        requires { at < length self.now.chain.members }
        ensures { IfSome (slice_get self.now.chain.members at) (λ m. result ≡ is_in self.now.chain.recorded m.node.state.place.slot m.node.state.incarnation) }
    {
        self.chain.is_recorded(at)
    }

    /// The store of the member at a place.
    pub fn store(&self, at: usize) -> &S
        requires { at < length self.now.chain.members }
        ensures { IfSome (slice_get self.now.chain.members at) (λ m. result.now ≡ m.node.store) }
    {
        self.chain.store(at)
    }

    /// The durable front of the member at a place.
    pub fn durable(&self, at: usize) -> u64
        requires { at < length self.now.chain.members }
        ensures { IfSome (slice_get self.now.chain.members at) (λ m. result ≡ durable_of m.node.state) }
    {
        self.chain.durable(at)
    }

    /// The known commit of the member at a place.
    pub fn known(&self, at: usize) -> u64
        requires { at < length self.now.chain.members }
        ensures known { IfSome (slice_get self.now.chain.members at) (λ m. result ≡ m.node.state.known) }
        ensures order { IfSome (slice_get self.now.chain.members at) (λ m. IsInOrder m.node.state) }
    {
        self.chain.known(at)
    }

    /// The number of the last write that the member at a place has applied.
    pub fn applied(&self, at: usize) -> u64
        requires { at < length self.now.chain.members }
        ensures { IfSome (slice_get self.now.chain.members at) (λ m. result ≡ last_of m.node.state) }
    {
        self.chain.applied(at)
    }

    /// Gives the world up, and its members' stores back, in the order of their places, and that of who joins. What waits for clients is
    /// gone, and the tokens are abandoned.
    ///
    /// Where memory runs out, the stores are dropped.
    pub fn abandon(self) -> Result<(Vec<S>, Option<S>), AllocError>
        ensures members { IfOk result (λ stores. stores.0.items ≡ map (λ m. m.node.store) self.chain.members) }
        ensures joiner { IfOk result (λ stores. stores.1 ≡ self.joiner) }
    {
        let World {
            alloc: _,
            chain,
            clients: _,
            mut queues,
            joiner,
        } = self;
        while let Some(queue) = queues.pop() {
            queue.abandon();
        }
        queues.destroy_empty();
        let stores = chain.abandon()?;
        match joiner {
            Some(joiner) => Ok((stores, Some(joiner.into_store()))),
            None => Ok((stores, None)),
        }
    }
}

/// So many empty queues.
fn queues_of(alloc: Global, count: usize) -> Result<Vec<Queue>, AllocError>
    ensures { IfOk result (λ queues. queues.items ≡ replicate count []) }
{
    let mut queues = Vec::with_capacity(alloc, count)?;
    for _ in 0..count {
        queues.push_reserved(Queue::new(alloc));
    }
    Ok(queues)
}
