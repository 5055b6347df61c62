//! A commit as a value of its own: it owns the log half of its disk, so it may be journaled while its store goes on.
ghost use Rattle.std.specs.Prelude.{◌≡◌, ◌+◌, ◌≤◌, ◌↔◌, ◌++◌, ◌∷◌, [], List, Some, IfOk, IfErr, OnOk, IsErrOf, IsTrue};
ghost use Rattle.disk_model.specs.Disk.{LeavesOnly};
ghost use Rattle.disk_model.specs.Part.{inside};
ghost use Rattle.gate_journal.specs.Batch.{Batch, HoldsOldOrNew};
ghost use Rattle.gate_journal.specs.Journal.{IsSettled, appended};
ghost use Rattle.gate_journal.specs.Refusal.{HasCause};
ghost use Rattle.loans.specs.Sides.{last_of};
ghost use Rattle.local_store.specs.Lending.{IsDone};
ghost use Rattle.local_store.specs.Refusal.{IsOfJournaling};

use disk_model::Disk;
use gate_journal::{Image, Journal, Refusal, Slot, Synced};
use loans::{Borrower, Rings};
use std::marker::Model;
use std::snapshot::Snapshot;

/// What is lent: the log half of a disk, with the commit that is to be journaled on it. Its journal stands in a part of the log half,
/// counted from the half's beginning.
#[derive(Drop)]
pub struct Loan<L: Disk> {
    pub(crate) log: L,
    pub(crate) journal: Journal,
    pub(crate) front: u64,
    pub(crate) images: Vec<Image>,
}

impl<L: Disk> Model for Loan<L> {
    ghost use Rattle.local_store.specs.Lending.{IsLending, Lending};

    ghost Value = { Lending L };

    ghost view = { λ l. record { log = l.log; journal = l.journal; batch = record { front = l.front; images = l.images.items } } };

    ghost invariant = { λ l. IsLending L.size (record { log = l.log; journal = l.journal; batch = record { front = l.front; images = l.images.items } }) };
}

/// A commit that is to be journaled, and the borrower's side of its loan.
#[derive(Drop)]
pub struct CommitWork<L: Disk, J: Rings> {
    pub(crate) loan: Loan<L>,
    pub(crate) side: Borrower<Loan<L>, J>,
    ghost remembers: { last_of side.loans ≡ Some loan },
}

/// A commit that was journaled, or refused. Of what was lent for it contracts alone know.
#[derive(Drop)]
pub struct Journaled<L: Disk, J: Rings> {
    pub(crate) log: L,
    pub(crate) outcome: Result<Synced, Refusal>,
    pub(crate) side: Borrower<Loan<L>, J>,
    loan: Snapshot<Loan<L>>,
}

impl<L: Disk, J: Rings> Model for Journaled<L, J> {
    ghost use Rattle.local_store.specs.Lending.{Done, IsDone};

    ghost Value = { Done L };

    ghost view = { λ d. record { loan = d.loan.value; side = d.side; log = d.log; outcome = d.outcome } };

    ghost invariant = { λ d. IsDone L.keeps_model L.gives L.may_leave_now L.failures (record { loan = d.loan.value; side = d.side; log = d.log; outcome = d.outcome }) };
}

impl<L: Disk, J: Rings> CommitWork<L, J> {
    /// Appends the batch to the journal, by the four device calls of an append, on the log half alone. Its receipt, or its
    /// refusal, goes to the store that lent the log. The batch is put together in `buffer`, in place of what that held.
    ///
    /// 100 `Memory`: nothing changed. After a refusal of the device the log holds the batches from before, with the new one or
    /// without.
    pub fn journal(self, buffer: &mut Vec<u8>) -> Journaled<L, J>
        ensures loan { result.loan ≡ self.loan }
        ensures side { result.side ≡ self.side }
        ensures receipt { IfOk result.outcome (λ receipt. receipt ≡ record { slot = self.loan.journal.slot; front = self.loan.batch.front }) }
        ensures settled { L.keeps_model → (batches : List Batch) → IsSettled self.loan.journal batches (L.gives self.loan.log) (L.may_leave_now self.loan.log)
            → OnOk result.outcome (IsSettled (appended self.loan.journal self.loan.batch.front self.loan.batch.images) (batches ++ self.loan.batch ∷ []) (L.gives result.log) (L.may_leave_now result.log)) }

        // A stop at any moment of the call leaves the batches from before it, with the new one or without.
        ensures any_moment { L.keeps_model → (batches : List Batch) → IsSettled self.loan.journal batches (L.gives self.loan.log) (L.may_leave_now self.loan.log)
            → LeavesOnly L.moment L.may_have_left_since self.loan.log result.log
            (λ x. HoldsOldOrNew self.loan.journal.blocks self.loan.journal.before batches self.loan.batch (inside self.loan.journal.part x)) }
        ensures calls { L.calls_made result.log ≤ L.calls_made self.loan.log + 4 }
        ensures size { L.size result.log ≡ L.size self.loan.log }
        ensures unchanged { IsErrOf result.outcome Refusal.Memory → result.log ≡ self.loan.log }
        ensures told { IfErr result.outcome IsOfJournaling }
        ensures cause { HasCause (L.failures self.loan.log) (L.failures result.log) result.outcome }
    {
        let CommitWork { loan, side } = self;
        let was = Snapshot::of(&loan);
        let Loan {
            mut log,
            mut journal,
            front,
            images,
        } = loan;
        let outcome = journal.append(buffer, &mut log, front, &images);
        Journaled {
            log,
            outcome,
            side,
            loan: was,
        }
    }
}

impl<L: Disk, J: Rings> Journaled<L, J> {
    /// Whether its receipt, if it has one, is of this slot and front.
    pub(crate) fn is_of(&self, slot: Slot, front: u64) -> bool
        ensures { IsTrue result ↔ IfOk self.now.outcome (λ receipt. receipt ≡ record { slot = slot; front = front }) }
    {
        match &self.outcome {
            Ok(receipt) => receipt.slot() == slot && receipt.front() == front,
            Err(_) => true,
        }
    }

    /// The log, what came of it, and the borrower's side.
    pub(crate) fn taken(self) -> (L, Result<Synced, Refusal>, Borrower<Loan<L>, J>)
        ensures parts { result ≡ (self.log, self.outcome, self.side) }
        ensures done { IsDone L.keeps_model L.gives L.may_leave_now L.failures self }
    {
        let Journaled {
            log,
            outcome,
            side,
            loan: _,
        } = self;
        (log, outcome, side)
    }
}
