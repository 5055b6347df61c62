//! A store that may lend out the log half of its disk.
ghost use Rattle.std.specs.Prelude.{◌≡◌, ◌≤◌, ℕ, List, Some, IsNone, IsSome};
ghost use Rattle.std.specs.Option.{ForSome};
ghost use Rattle.home_blocks.specs.Places.{disk_size_of};
ghost use Rattle.local_store.specs.About.{about_of};
ghost use Rattle.loans.specs.Sides.{last_of};
ghost use Rattle.local_store.specs.Away.{IsLent, batch_in, lending_in};
ghost use Rattle.local_store.specs.Store.{geometry_of};

use crate::contents::Contents;
use crate::lending::Loan;
use crate::lent::Lent;
use crate::refusal::Refusal;
use crate::store::Store;
use crate::store_like::StoreLike;
use disk_model::HalvedDisk;
use flusher::{Plan, Run};
use gate_journal::{Image, Slot, Synced};
use home_blocks::Version;
use loans::{Borrower, Lender, Rings};
use std::alloc::Global;
use volume::Geometry;

/// A store whose log may be journaled elsewhere while it goes on. While its log is lent out, the disk is its home half.
///
/// It shares a ring with the borrower of its loans, so that what is given back is known to be what it lent; the borrower's side is its own
/// while the log is there, and goes out with the log.
#[derive(Drop)]
pub struct LendingStore<D: HalvedDisk, J: Rings> {
    pub(crate) disk: D,
    pub(crate) contents: Contents,
    pub(crate) plan: Plan,
    pub(crate) lent: Option<Lent<D::Past, D::Log>>,
    pub(crate) lender: Lender<Loan<D::Log>, J>,
    pub(crate) borrower: Option<Borrower<Loan<D::Log>, J>>,
    ghost here: { IsNone lent → disk_size_of (geometry_of contents) ≤ D.size disk },
    ghost away: { ForSome lent (λ l. IsLent contents (D.size disk) (D.cut_at l.past) (D.whole l.past) l.len (batch_in l)) },
    ghost remembers: { ForSome lent (λ l. last_of lender.loans ≡ Some (lending_in contents l)) },
    ghost paired: { ForSome borrower (λ side. side.number ≡ lender.number) },
    ghost kept: { IsNone lent → IsSome borrower },
}

impl<D: HalvedDisk + Drop, J: Rings> LendingStore<D, J> {
    /// The store, which can lend out its log from then on, by the two sides of one number.
    pub fn of(
        store: Store<D>,
        lender: Lender<Loan<D::Log>, J>,
        borrower: Borrower<Loan<D::Log>, J>,
    ) -> LendingStore<D, J>
        requires { borrower.number ≡ lender.number }
        ensures disk { result.disk ≡ store.disk }
        ensures contents { result.contents ≡ store.contents }
        ensures plan { result.plan ≡ store.plan }
        ensures here { IsNone result.lent }
        ensures lender { result.lender ≡ lender }
        ensures about { ⟦<LendingStore<D, J> as StoreLike>⟧.about result ≡ ⟦<Store<D> as StoreLike>⟧.about store }
        ensures kept { D.keeps_model → (volume : List ℕ) → ⟦<Store<D> as StoreLike>⟧.keeps store volume → ⟦<LendingStore<D, J> as StoreLike>⟧.keeps result volume }
    {
        let Store {
            disk,
            contents,
            plan,
        } = store;
        LendingStore {
            disk,
            contents,
            plan,
            lent: None,
            lender,
            borrower: Some(borrower),
        }
    }

    /// Its disk; its home half, while the log is lent.
    pub fn disk(&self) -> &D
        ensures { result.now ≡ self.now.disk }
    {
        &self.disk
    }

    /// The disk, as the store leaves it, and the two sides of its loans, for another store; while the log is lent, the home half, and the
    /// borrower's side is out with the log.
    pub fn into_parts(
        self,
    ) -> (
        D,
        Lender<Loan<D::Log>, J>,
        Option<Borrower<Loan<D::Log>, J>>,
    )
        ensures disk { result.0 ≡ self.disk }
        ensures lender { result.1 ≡ self.lender }
        ensures here { IsNone self.lent → IsSome result.2 }
        ensures paired { ForSome result.2 (λ side. side.number ≡ self.lender.number) }
    {
        let LendingStore {
            disk,
            contents: _,
            plan: _,
            lent: _,
            lender,
            borrower,
        } = self;
        (disk, lender, borrower)
    }
}

impl<D: HalvedDisk + Drop, J: Rings> StoreLike for LendingStore<D, J> {
    ghost use Rattle.std.specs.Prelude.{◌≡◌, ◌⊎◌, ◌+◌, ◌*◌, ◌<◌, ◌≤◌, ◌↔◌, ℕ, List, None, true, false, length, take, drop, is_some, Any, IfOk, IfErr, IfNone, IfSome, OnOk, OnErr, IsErrOf};
    ghost use Rattle.flusher.specs.Plan.{IsPending};
    ghost use Rattle.gate_journal.specs.Journal.{IsSettled};
    ghost use Rattle.local_store.specs.Away.{Keeps, LeftWith, lent_batch};
    ghost use Rattle.local_store.specs.KeptAway.{left_more, means_either, one_either, size_either};

    ghost keeps_model = { D.keeps_model };

    ghost about = { λ s. record (about_of s.contents) { lent = lent_batch s.lent } };

    ghost keeps = { λ s volume. Keeps s.lent (λ l. D.left_before l.past (D.until l.past)) (λ l j batches. IsSettled j batches (D.Log.gives l.was.value) (D.Log.may_leave_now l.was.value)) s.contents volume (D.gives s.disk) (D.may_leave_now s.disk) };

    ghost is_pending = { λ s. IsPending s.contents.pending };

    ghost may_leave_now = { λ s. LeftWith s.lent (λ l. D.cut_at l.past) (λ l. D.left_before l.past (D.until l.past)) (D.may_leave_now s.disk) };

    ghost moment = { λ s. D.moment s.disk };

    ghost may_have_left_since = { λ s t. LeftWith s.lent (λ l. D.cut_at l.past) (λ l. D.left_before l.past (D.until l.past)) (D.may_have_left_since s.disk t) };

    ghost failures = { λ s. D.failures s.disk };

    ghost means_now = { λ keeps s volume c kept left. means_either s.lent (λ l. D.cut_at l.past) (λ l. D.left_before l.past (D.until l.past)) (λ l j batches. IsSettled j batches (D.Log.gives l.was.value) (D.Log.may_leave_now l.was.value)) s.contents volume (D.gives s.disk) (D.may_leave_now s.disk)
        (λ l is. (s.away l is).cut) kept c left };

    ghost keeps_one = { λ keeps s one other kept too. one_either s.lent (λ l. D.left_before l.past (D.until l.past)) (λ l j batches. IsSettled j batches (D.Log.gives l.was.value) (D.Log.may_leave_now l.was.value)) s.contents one other (D.gives s.disk) (D.may_leave_now s.disk) kept too };

    ghost counts_now = { λ keeps s t c le left. left_more s.lent (λ l. D.cut_at l.past) (λ l. D.left_before l.past (D.until l.past)) (D.may_leave_now s.disk) (D.may_have_left_since s.disk t)
        (λ a may. D.counts_now keeps s.disk t a le may) c left };

    ghost only_now = { λ keeps s c left. left_more s.lent (λ l. D.cut_at l.past) (λ l. D.left_before l.past (D.until l.past)) (D.may_have_left_since s.disk (D.moment s.disk)) (D.may_leave_now s.disk)
        (λ a may. D.only_now keeps s.disk a may) c left };

    ghost keeps_size = { λ keeps s volume kept. size_either s.lent (λ l. D.left_before l.past (D.until l.past)) (λ l j batches. IsSettled j batches (D.Log.gives l.was.value) (D.Log.may_leave_now l.was.value)) s.contents volume (D.gives s.disk) (D.may_leave_now s.disk) kept };

    fn version(&self) -> Version {
        self.contents.version()
    }

    fn slot(&self) -> Slot {
        self.contents.slot()
    }

    fn incarnation(&self) -> u64 {
        self.contents.incarnation()
    }

    fn geometry(&self) -> Geometry {
        self.contents.geometry()
    }

    fn front(&self) -> u64 {
        self.contents.front()
    }

    fn left(&self) -> u64 {
        self.contents.left()
    }

    fn is_broken(&self) -> bool {
        self.contents.is_broken()
    }

    fn is_lent(&self) -> bool {
        self.lent.is_some()
    }

    fn read_block(&mut self, block: u32, bytes: &mut [u8]) -> Result<(), Refusal> {
        self.contents.read_block(&mut self.disk, block, bytes)
    }

    fn read_blocks(&mut self, first: u32, count: u32, bytes: &mut [u8]) -> Result<(), Refusal> {
        self.contents
            .read_blocks(&mut self.disk, first, count, bytes)
    }

    fn commit(&mut self, alloc: Global, front: u64, images: &[Image]) -> Result<Synced, Refusal> {
        self.contents.commit(alloc, &mut self.disk, front, images)
    }

    fn tick(&mut self) -> Result<Option<u32>, Refusal> {
        self.contents.tick(&mut self.disk, &mut self.plan)
    }

    fn tick_run(&mut self, most: u32) -> Result<Option<Run>, Refusal> {
        self.contents.tick_run(&mut self.disk, &mut self.plan, most)
    }

    fn checkpoint(&mut self) -> Result<(), Refusal> {
        self.contents.checkpoint(&mut self.disk)
    }
}
