//! The members of a chain, in the slots where threads meet them.
ghost use Rattle.std.specs.Prelude.{◌≡◌, ◌≤◌, ◌+◌, Some, vec_len};

use crate::seated::Seated;
use crate::slot::Slot;
use board::Board;
use disk_model::HalvedDisk;
use gate_journal::Slot as Place;
use mail::{Bell, Given, MailRoom};
use member::Agreed;
use std::alloc::{AllocError, Global};
use std::sync::Wait;

/// The members of a chain, and the mail of their clients' sessions. It has no `Drop`, since the members haven't.
pub struct Cluster<D: HalvedDisk + Drop, J: Agreed> {
    pub(crate) alloc: Global,
    pub(crate) board: Board,
    pub(crate) size: u64,
    pub(crate) slots: Vec<Slot<D, J>>,
    pub(crate) mail: MailRoom,
    // rings as a member is seen to have stopped
    pub(crate) changes: Bell,
    ghost of_board: { J.board ≡ Some board },
    ghost of_size: { J.size ≡ size },
    ghost eight: { vec_len slots ≡ 8 },
}

impl<D: HalvedDisk + Drop, J: Agreed> Cluster<D, J> {
    /// A chain without members, with a volume of so many bytes, and the mail of its clients' sessions.
    pub fn new(
        alloc: Global,
        board: Board,
        size: u64,
        mail: MailRoom,
    ) -> Result<Cluster<D, J>, AllocError>
        requires board { J.board ≡ Some board }
        requires size { J.size ≡ size }
    {
        let mut slots = Vec::with_capacity(alloc, Board::SLOTS)?;
        for _ in 0..Board::SLOTS {
            slots.push_reserved(Slot::new(alloc));
        }
        Ok(Cluster {
            alloc,
            board,
            size,
            slots,
            mail,
            changes: Bell::new(),
        })
    }

    /// Seats a member, for the one that is given back.
    pub fn seat(&mut self, place: Place, seated: Seated<D, J>) -> Option<Seated<D, J>> {
        self.slots[usize::from(place.number())].seat(seated)
    }

    /// Takes a member out.
    pub fn unseat(&mut self, place: Place) -> Option<Seated<D, J>> {
        self.slots[usize::from(place.number())].unseat()
    }

    /// Ends it. The members that still sit there are given up: their tokens are abandoned, and their disks closed.
    pub fn end(self) {
        let Cluster {
            alloc: _,
            board: _,
            size: _,
            mut slots,
            mail: _,
            changes: _,
        } = self;
        while let Some(slot) = slots.pop() {
            slot.end();
        }
        slots.destroy_empty();
    }

    /// The board of its chain.
    pub fn board(&self) -> &Board
        ensures { J.board ≡ Some result.now }
    {
        &self.board
    }

    /// A slot.
    pub(crate) fn at(&self, place: Place) -> &Slot<D, J> {
        &self.slots[usize::from(place.number())]
    }
}

// What a member's change calls for, before its lock is let go.
impl<D: HalvedDisk + Drop, J: Agreed> Cluster<D, J> {
    /// What waits for a floor is paid as far as one reaches; who commits is woken where a commit is due, and who manages where the member
    /// has stopped.
    pub(crate) fn settle<R: Wait>(
        &self,
        rt: &R,
        slot: &Slot<D, J>,
        seated: &mut Seated<D, J>,
        given: &mut Given,
    )
        requires room { 1 ≤ given.old.room }
    {
        self.settle_floor(rt, slot, seated, given);
        if seated.member().due().commit {
            slot.bell.ring(rt);
        }
    }

    /// The same, but for who commits.
    pub(crate) fn settle_floor<R: Wait>(
        &self,
        rt: &R,
        slot: &Slot<D, J>,
        seated: &mut Seated<D, J>,
        given: &mut Given,
    )
        requires room { 1 ≤ given.old.room }
        ensures room { given.old.room ≤ given.new.room + 1 }
    {
        if seated.member().due().floor {
            // Who posts from now on wakes this slot's committer; what was posted before is found here.
            slot.ask_floor(rt);
            seated.pay(given, &self.board);
        }
        if seated.has_stopped() {
            self.changes.ring(rt);
        }
    }
}
