//! A chain that comes back.
ghost use Rattle.std.specs.Prelude.{◌≡◌, ◌≢◌, ◌↔◌, ◌∷◌, ◌*◌, ◌+◌, ◌≤◌, [], List, Ok, ℕ, false, length, map, true, IfErr, IfOk, IsErrOf, OnErr, OnOk};
ghost use Rattle.comeback.specs.Returning.{IsIdle, IsSet, at_rest};
ghost use Rattle.folder.specs.Found.{IsRunning, member_in};
ghost use Rattle.home_blocks.specs.Places.{disk_size_of};
ghost use Rattle.joining.specs.Rebuilding.{AllKeep, HasOneMore};
ghost use Rattle.joining.specs.Refusing.{RefusesRebuilding};
ghost use Rattle.local_store.specs.About.{IsOfVersionTwo};
ghost use Rattle.manager.specs.Manager.{next_of};

use chain::Chain;
use configurations::{ConfigStore, Record};
use disk_model::Disk;
use gate_journal::Slot;
use home_blocks::disk_size;
use joining::{NotRebuilt, rebuild};
use local_store::{Store, StoreLike};
use std::alloc::{AllocError, Global};
use std::marker::Model;
use world::{Management, World};

/// A chain that comes back, without clients, and its manager. It has no `Drop`, since a world has none: `into_disks` ends it, or `end`.
pub struct Comeback<S: StoreLike, D: Disk> {
    alloc: Global,
    world: World<S>,
    management: Management<D>,
    /// Whether a disk couldn't be rebuilt: then nothing more is done.
    failed: bool,
}

/// What a chain that came back has.
#[derive(Drop)]
pub struct Ended<D: Disk> {
    /// The stores of its members, in the chain's order.
    pub stores: Vec<Store<D>>,
    /// That of who joins, if somebody does.
    pub joiner: Option<Store<D>>,
    /// The configuration's disk.
    pub config: D,
}

impl<S: StoreLike, D: Disk> Model for Comeback<S, D> {
    ghost use Rattle.comeback.specs.Returning.{IsReady, Returning};

    ghost Value = { Returning S D };

    ghost view = { λ c. record { world = c.world; management = c.management; failed = c.failed } };

    ghost invariant = { λ c. IsReady (record { world = c.world; management = c.management; failed = c.failed }) };
}

impl<D: Disk + Drop> Comeback<Store<D>, D> {
    /// The chain of a source alone, whose record this is, which stands on the configuration's disk. The store runs, on a disk of version 2,
    /// which is that of an incarnation, counted from 1.
    ///
    /// Where memory runs out, the disks are dropped.
    pub fn new(
        alloc: Global,
        told: Record,
        configs: ConfigStore,
        config: D,
        store: Store<D>,
    ) -> Result<Comeback<Store<D>, D>, AllocError>
        requires alone { told.members ≡ member_in (⟦<Store<D> as StoreLike>⟧.about store) ∷ [] }
        requires running { IsRunning ⟦<Store<D> as StoreLike>⟧.about store }
        requires version { IsOfVersionTwo (⟦<Store<D> as StoreLike>⟧.about store) }
        requires keeps { D.keeps_model → (volume : List ℕ) × ⟦<Store<D> as StoreLike>⟧.keeps store volume }
        requires room { configs.pair.part.start + configs.pair.part.len ≤ D.size config }
        ensures recorded { IfOk result (λ c. c.world.chain.recorded ≡ told) }
        ensures front { IfOk result (λ c. c.world.chain.words.front ≡ (⟦<Store<D> as StoreLike>⟧.about store).front) }
        ensures sizes { IfOk result (λ c. c.world.chain.geometry ≡ (⟦<Store<D> as StoreLike>⟧.about store).geometry) }
        ensures one { IfOk result (λ c. map (λ m. m.node.store) c.world.chain.members ≡ store ∷ []) }
        ensures idle { IfOk result (λ c. IsIdle c.world) }
        ensures manager { IfOk result (λ c. c.management.manager ≡ at_rest told) }
        ensures config { IfOk result (λ c. (c.management.config ≡ configs) × (c.management.disk ≡ config)) }
        ensures whole { IfOk result (λ c. c.failed ≡ false) }
    {
        let copy = copy_of(alloc, &told)?;
        let world = world_of_one(alloc, told, store)?;
        Ok(Comeback {
            alloc,
            world,
            management: Management::new(alloc, copy, configs, config),
            failed: false,
        })
    }

    /// Rebuilds a disk from the chain's tail, which then joins the chain at a slot behind it, as `joining::rebuild` does. `false` where the
    /// disk hasn't the length of a member's: nothing changed, and the disk is dropped.
    ///
    /// What `joining::rebuild` refuses; behind that nothing is rebuilt any more: `OutOfOrder`, with the manager's next order.
    pub fn rebuild(&mut self, slot: Slot, disk: D) -> Result<bool, NotRebuilt<D>>
        ensures one_more { IfOk result (λ done. done ≡ true → HasOneMore slot self.old.world.chain self.new.world.chain) }
        ensures passed_over { (result ≡ Ok false) ↔ ((self.old.failed ≡ false) × (D.size disk ≢ disk_size_of self.old.world.chain.geometry)) }
        ensures skipped { IfOk result (λ done. done ≡ false → (D.size disk ≢ disk_size_of self.old.world.chain.geometry) × (self.new ≡ self.old)) }
        ensures whole { OnOk result (self.new.failed ≡ false) }

        // Once a disk couldn't be rebuilt, nothing more is done.
        ensures failed { OnErr result (self.new.failed ≡ true) }
        ensures out_of_order { self.old.failed ≡ true → IsErrOf result (NotRebuilt.OutOfOrder (next_of self.old.management.manager)) × (self.new ≡ self.old) }
        ensures refused { self.old.failed ≡ false → IfErr result (RefusesRebuilding D.keeps_model ⟦<Store<D> as StoreLike>⟧.about ⟦<Store<D> as StoreLike>⟧.keeps D.gives D.failures D.failures
            slot disk self.old.management self.new.management self.old.world self.new.world) }

        // Every member keeps what the source has.
        ensures keep { D.keeps_model → (volume : List ℕ) → length volume ≡ 4096 * self.old.world.chain.geometry.blocks
            → AllKeep ⟦<Store<D> as StoreLike>⟧.keeps volume self.old.world.chain → OnOk result (AllKeep ⟦<Store<D> as StoreLike>⟧.keeps volume self.new.world.chain) }
    {
        if self.failed {
            return Err(NotRebuilt::OutOfOrder(self.management.next()));
        }
        if disk.len() != disk_size(self.world.geometry()) {
            return Ok(false);
        }
        match rebuild(
            self.alloc,
            &mut self.world,
            &mut self.management,
            slot,
            disk,
        ) {
            Ok(()) => Ok(true),
            Err(refusal) => {
                self.failed = true;
                Err(refusal)
            }
        }
    }

    /// The recorded chain.
    pub fn recorded(&self) -> &Record
        ensures { result.now ≡ self.now.world.chain.recorded }
    {
        self.world.recorded()
    }

    /// Ends it, and gives back what it has.
    ///
    /// Where memory runs out, all of it is dropped.
    pub fn into_disks(self) -> Result<Ended<D>, AllocError>
        ensures stores { IfOk result (λ ended. ended.stores.items ≡ map (λ m. m.node.store) self.world.chain.members) }
        ensures joiner { IfOk result (λ ended. ended.joiner ≡ self.world.joiner) }
        ensures config { IfOk result (λ ended. ended.config ≡ self.management.disk) }
    {
        let Comeback {
            alloc: _,
            world,
            management,
            failed: _,
        } = self;
        let config = management.into_disk();
        let (stores, joiner) = world.abandon()?;
        Ok(Ended {
            stores,
            joiner,
            config,
        })
    }

    /// Ends it: the disks are dropped.
    pub fn end(self) {
        let _ = self.into_disks();
    }
}

/// The world of a chain whose one member has this store, at the store's front.
fn world_of_one<S: StoreLike + Drop>(
    alloc: Global,
    told: Record,
    store: S,
) -> Result<World<S>, AllocError>
    requires alone { told.members ≡ member_in (S.about store) ∷ [] }
    requires running { IsRunning S.about store }
    requires version { IsOfVersionTwo (S.about store) }
    requires keeps { S.keeps_model → (volume : List ℕ) × S.keeps store volume }
    ensures set { IfOk result (λ world. IsSet S.about told store world.chain) }
    ensures idle { IfOk result IsIdle }
{
    let mut stores = Vec::with_capacity(alloc, 1)?;
    stores.push_reserved(store);
    let Ok(chain) = Chain::new(alloc, told, stores) else {
        return Err(AllocError);
    };
    match World::new(alloc, chain) {
        Ok(world) => Ok(world),
        Err(chain) => {
            // The store is dropped, and with it the file.
            let _ = chain.abandon();
            Err(AllocError)
        }
    }
}

/// A copy of a record.
fn copy_of(alloc: Global, told: &Record) -> Result<Record, AllocError>
    ensures { IfOk result (λ copy. copy ≡ told.now) }
{
    let members = Vec::from_slice(alloc, told.members())?;
    match Record::new(told.epoch(), members) {
        Ok(copy) => Ok(copy),
        Err(_) => unreachable!(),
    }
}
