// A log that is lent out, a run of pending blocks, and an installation that is broken off, with their device calls.
ghost use Rattle.std.specs.Prelude.{◌≡◌, ◌≤◌, IsNone};
ghost use Rattle.disk_model.specs.Memory.{size_of};
ghost use Rattle.gate_journal.specs.Batch.{AreImages};
ghost use Rattle.home_blocks.specs.Places.{disk_size_of};
ghost use Rattle.local_store.specs.About.{IsOfVersionTwo};
ghost use Rattle.loans.specs.Rings.{IsOf};
ghost use Rattle.local_store.specs.Store.{geometry_of};

use crate::comparing::{same, same_at};
use crate::disks::new_disk;
use crate::images::image;
use disk_model::{Cut, DiskError, Event, MemDisk};
use flusher::Run;
use gate_journal::{IMAGE_SIZE, Image, Slot};
use home_blocks::{Version, disk_size};
use loans::{Borrower, Lender, Rings, Sides};
use local_store::{CommitWork, Installer, LendingStore, Loan, Refusal, Store, StoreLike};
use std::alloc::Global;
use std::marker::Brand;
use std::process::Abort;
use volume::Geometry;

// The sizes of a volume of 8 blocks, with room for two batches of one block.
pub(crate) fn sizes(rt: &impl Abort) -> Geometry
    ensures { result.blocks ≡ 8 }
{
    let geometry = Geometry::new(8, 12_327, 4_096).expect(rt, "a geometry");
    assert!(rt; geometry.blocks == 8);
    geometry
}

// A new disk for it.
pub(crate) fn disk(rt: &impl Abort, alloc: Global, geometry: Geometry) -> MemDisk
    ensures { disk_size_of geometry ≤ size_of result }
{
    new_disk(rt, alloc, disk_size(geometry))
}

// The sides of its loans.
fn new_sides(rt: &impl Abort, alloc: Global) -> Sides<Loan<MemDisk>> {
    Sides::new(alloc, 0).expect(rt, "memory")
}

// A store of slot 0 on a new disk, which lends; some device call from now on may fail.
fn lending<J: Rings>(
    rt: &impl Abort,
    alloc: Global,
    sides: Sides<Loan<MemDisk>>,
    fails: Option<u64>,
) -> LendingStore<MemDisk, J>
    requires { IsOf (J.ring sides.number) sides.lender.end }
    ensures here { IsNone result.lent }
    ensures blocks { (geometry_of result.contents).blocks ≡ 8 }
{
    let (lender, borrower) = sides.named();
    over(rt, alloc, lender, borrower, fails)
}

// The same by these sides.
fn over<J: Rings>(
    rt: &impl Abort,
    alloc: Global,
    lender: Lender<Loan<MemDisk>, J>,
    borrower: Borrower<Loan<MemDisk>, J>,
    fails: Option<u64>,
) -> LendingStore<MemDisk, J>
    requires { borrower.number ≡ lender.number }
    ensures here { IsNone result.lent }
    ensures blocks { (geometry_of result.contents).blocks ≡ 8 }
{
    let geometry = sizes(rt);
    let slot = Slot::new(0).expect(rt, "a slot");
    let Ok(mut store) = Store::format(alloc, disk(rt, alloc, geometry), slot, 1, geometry) else {
        panic!(rt; "no store")
    };
    if let Some(call) = fails {
        store.arm(Event::FailAt { call }).expect(rt, "memory");
    }
    let store: LendingStore<MemDisk, J> = LendingStore::of(store, lender, borrower);
    assert!(rt; store.geometry().blocks == 8);
    store
}

// The blocks 2 and 3.
fn two(rt: &impl Abort, alloc: Global, byte: u8) -> [Image; 2]
    ensures { AreImages 8 result }
{
    [image(rt, alloc, 2, byte), image(rt, alloc, 3, byte)]
}

// The byte of which the block consists.
fn read<S: StoreLike>(rt: &impl Abort, store: &mut S, block: u32) -> u8 {
    assert!(rt; block < store.geometry().blocks);
    let mut bytes = [0xee; IMAGE_SIZE];
    store.read_block(block, &mut bytes).expect(rt, "a block");
    same_at(rt, bytes, [bytes[0]; IMAGE_SIZE], block);
    bytes[0]
}

// The store's disk is of version 2.
fn of_version_two<S: StoreLike>(rt: &impl Abort, store: &S)
    ensures { IsOfVersionTwo (S.about store.now) }
{
    match store.version() {
        Version::Two => {}
        Version::One => panic!(rt; "version 1"),
    }
}

// Lends the log out, for the blocks 2 and 3 at front 1.
fn lend<J: Rings>(
    rt: &impl Abort,
    alloc: Global,
    store: &mut LendingStore<MemDisk, J>,
) -> CommitWork<MemDisk, J>
    requires here { IsNone store.old.lent }
    requires blocks { (geometry_of store.old.contents).blocks ≡ 8 }
{
    of_version_two(rt, store);
    let images = two(rt, alloc, 7);
    let work = store.lend_commit(alloc, 1, &images).expect(rt, "a commit");
    assert!(rt; store.is_lent());
    work
}

// What a disk means that was cut: the front, and the byte of which block 3 consists.
fn found(rt: &impl Abort, alloc: Global, mut disk: MemDisk) -> (u64, u8) {
    disk.cut(Cut::None);
    let Ok(mut found) = Store::open(alloc, disk) else {
        panic!(rt; "no store")
    };
    (found.front(), read(rt, &mut found, 3))
}

#[test]
fn a_lent_commit_is_finished(rt: HostRuntime) {
    let sides = new_sides(&rt, rt.alloc());
    finished::<Brand, _>(&rt, rt.alloc(), sides);
}

// A commit that is lent out is journaled while blocks are read, and finished.
fn finished<J: Rings, R: Abort>(rt: &R, alloc: Global, sides: Sides<Loan<MemDisk>>)
    requires { IsOf (J.ring sides.number) sides.lender.end }
{
    let mut store: LendingStore<MemDisk, J> = lending(rt, alloc, sides, None);
    same(rt, (store.disk().calls(), store.is_lent()), (22, false));
    let work = lend(rt, alloc, &mut store);
    same(rt, (read(rt, &mut store, 2), store.front()), (0, 0));
    of_version_two(rt, &store);
    same(rt, store.tick(), Ok(None));
    let mut done = work.journal(&mut Vec::new(alloc));
    assert!(rt; store.is_log_of(&mut done));
    let receipt = store.finish_commit(done).expect(rt, "a receipt");
    same(rt, (receipt.slot().number(), receipt.front()), (0, 1));
    same(rt, (store.is_lent(), store.front()), (false, 1));
    same(rt, store.disk().calls(), 27);
    same(rt, read(rt, &mut store, 3), 7);
    let run = Run { first: 2, count: 2 };
    of_version_two(rt, &store);
    same(rt, store.tick_run(8), Ok(Some(run)));
    same(rt, store.disk().calls(), 28);
    let (disk, lender, borrower) = store.into_parts();
    same(rt, found(rt, alloc, disk), (1, 7));
    let borrower = borrower.expect(rt, "a borrower");
    lends_again(rt, alloc, lender, borrower);
}

// Another store lends by the same sides.
fn lends_again<J: Rings, R: Abort>(
    rt: &R,
    alloc: Global,
    lender: Lender<Loan<MemDisk>, J>,
    borrower: Borrower<Loan<MemDisk>, J>,
)
    requires { borrower.number ≡ lender.number }
{
    let mut store = over(rt, alloc, lender, borrower, None);
    let work = lend(rt, alloc, &mut store);
    let mut done = work.journal(&mut Vec::new(alloc));
    assert!(rt; store.is_log_of(&mut done));
    let receipt = store.finish_commit(done).expect(rt, "a receipt");
    same(rt, (receipt.slot().number(), receipt.front()), (0, 1));
}

#[test]
fn a_log_is_taken_back(rt: HostRuntime) {
    let sides = new_sides(&rt, rt.alloc());
    taken_back::<Brand, _>(&rt, rt.alloc(), sides);
}

// A log is taken back without its commit.
fn taken_back<J: Rings, R: Abort>(rt: &R, alloc: Global, sides: Sides<Loan<MemDisk>>)
    requires { IsOf (J.ring sides.number) sides.lender.end }
{
    let mut store: LendingStore<MemDisk, J> = lending(rt, alloc, sides, None);
    let work = lend(rt, alloc, &mut store);
    let mut done = work.journal(&mut Vec::new(alloc));
    assert!(rt; store.is_log_of(&mut done));
    store.take_back(done);
    same(
        rt,
        (store.is_lent(), store.is_broken(), store.front()),
        (false, true, 0),
    );
    of_version_two(rt, &store);
    same(rt, store.tick(), Err(Refusal::Broken));
}

// The second device call of the journaling fails.
#[test]
fn a_refused_journaling_breaks_the_store(rt: HostRuntime) {
    let sides = new_sides(&rt, rt.alloc());
    refused::<Brand, _>(&rt, rt.alloc(), sides);
}

// A journaling that the disk refuses breaks the store.
fn refused<J: Rings, R: Abort>(rt: &R, alloc: Global, sides: Sides<Loan<MemDisk>>)
    requires { IsOf (J.ring sides.number) sides.lender.end }
{
    let mut store: LendingStore<MemDisk, J> = lending(rt, alloc, sides, Some(2));
    let work = lend(rt, alloc, &mut store);
    let mut done = work.journal(&mut Vec::new(alloc));
    assert!(rt; store.is_log_of(&mut done));
    let fault = Refusal::Device(DiskError::SyncFault);
    same(rt, store.finish_commit(done).err(), Some(fault));
    same(
        rt,
        (store.is_lent(), store.is_broken(), store.front()),
        (false, true, 0),
    );
}

#[test]
fn an_installation_that_is_broken_off_is_none(rt: HostRuntime) {
    let alloc = rt.alloc();
    let geometry = sizes(&rt);
    let slot = Slot::new(1).expect(&rt, "a slot");
    let Ok(installer) = Installer::start(alloc, disk(&rt, alloc, geometry), slot, 2, geometry)
    else {
        panic!(rt; "no installer")
    };
    same(&rt, installer.is_complete(), false);
    let told = Store::open(alloc, installer.into_disk()).map_err(|(refusal, _)| refusal);
    same(&rt, told.err(), Some(Refusal::Unfinished));
}
