//! A chain of one that goes on in threads, and its manager.
ghost use Rattle.std.specs.Prelude.{◌≡◌, ◌+◌, ◌*◌, ◌≤◌, All, IfOk, IfSome, Some, true, vec_len};
ghost use Rattle.board.specs.Seats.{IsNewSeat};
ghost use Rattle.chain_core.specs.Node.{IsRunning, size_of};
ghost use Rattle.configurations.specs.Store.{IsSettledConfig};
ghost use Rattle.gate_journal.specs.declared.pair.TheConstants.{PAIR_SIZE};
ghost use Rattle.loans.specs.Rings.{IsOf};

use crate::host::Host;
use crate::managing::Managing;
use crate::orders::seated;
use crate::spare::Spare;
use crate::whole::Whole;
use board::{Board, Seat};
use cluster::Cluster;
use configurations::ConfigStore;
use disk_model::{Disk, HalvedDisk};
use gate_journal::Slot;
use loans::Sides;
use local_store::{Loan, Store, StoreLike};
use mail::MailRoom;
use management::Management;
use member::Agreed;
use std::alloc::{AllocError, Global};

/// What a chain begins with.
#[derive(Drop)]
pub struct Beginning<D: HalvedDisk, C: Disk> {
    /// The store of the source, which the chain goes on from: the one member.
    pub source: Store<D>,
    /// The record, of the source alone, and the disk that it is on.
    pub config: ConfigStore,
    pub disk: C,
    /// The chain's board, on which the source is counted, with its durable front.
    pub board: Board,
    /// The seat that counts, and one for each slot.
    pub counting: Seat,
    pub seats: Vec<Seat>,
    /// The two sides of each slot's loans.
    pub sides: Vec<Sides<Loan<D::Log>>>,
    /// The mail of its clients' sessions.
    pub mail: MailRoom,
}

/// A chain in threads, and its manager. It has no `Drop`, since the cluster hasn't.
pub struct Begun<S: StoreLike, D: HalvedDisk + Drop, J: Agreed, C: Disk, H: Host<D>> {
    pub cluster: Cluster<D, J>,
    pub managing: Managing<S, D, J, C, H>,
}

impl<D: HalvedDisk + Drop, J: Agreed, C: Disk + Drop, H: Host<D> + Drop> Begun<
    Store<D>,
    D,
    J,
    C,
    H,
> {
    /// The chain begins: the source is seated, and each other slot is free.
    pub fn new(
        alloc: Global,
        beginning: Beginning<D, C>,
        host: H,
    ) -> Result<Begun<Store<D>, D, J, C, H>, AllocError>
        requires board { J.board ≡ Some beginning.board }
        requires size { size_of (⟦<Store<D> as StoreLike>⟧.about beginning.source) ≡ J.size }
        requires runs { IsRunning (⟦<Store<D> as StoreLike>⟧.about beginning.source) (record { premise = D.keeps_model; keeps = ⟦<Store<D> as StoreLike>⟧.keeps beginning.source }) }
        requires counting { (beginning.counting.board ≡ beginning.board) × (beginning.counting.counts ≡ true) }
        requires seats { All (IsNewSeat beginning.board) beginning.seats.items }
        requires rings { All (λ s. IsOf (J.ring s.number) s.lender.end) beginning.sides.items }
        requires pair { beginning.config.pair.part.len ≡ PAIR_SIZE }
        requires on_disk { beginning.config.pair.part.start + beginning.config.pair.part.len ≤ C.size beginning.disk }
        requires settled { C.keeps_model → IsSettledConfig beginning.config (C.gives beginning.disk) (C.may_leave_now beginning.disk) }
    {
        let Beginning {
            source,
            config,
            disk,
            board,
            counting,
            seats,
            sides,
            mail,
        } = beginning;
        let geometry = source.geometry();
        let slot = source.slot();
        let mut spares = spares_of(alloc, seats, sides)?;
        let Some(spare) = take_spare(&mut spares, slot) else {
            return Err(AllocError);
        };
        let management = Management::new(alloc, config, disk, counting)?;
        let chain = management.chain_copy()?;
        let mut cluster = Cluster::new(alloc, board, geometry.size(), mail)?;
        let managing = Managing::new(alloc, geometry, management, spares, host);
        let first = seated(alloc, &cluster, chain, Whole::new(source), spare, false);
        if let Some(other) = cluster.seat(slot, first) {
            let _ = other.end();
        }
        Ok(Begun { cluster, managing })
    }
}

/// A spare for each slot, of these seats and sides.
fn spares_of<D: HalvedDisk + Drop, J: Agreed>(
    alloc: Global,
    seats: Vec<Seat>,
    sides: Vec<Sides<Loan<D::Log>>>,
) -> Result<Vec<Option<Spare<D, J>>>, AllocError>
    requires seats { All (λ seat. J.board ≡ Some seat.board) seats.items }
    requires rings { All (λ s. IsOf (J.ring s.number) s.lender.end) sides.items }
    ensures eight { IfOk result (λ spares. vec_len spares ≡ 8) }
{
    let (mut seats, mut sides) = (seats, sides);
    let mut spares = Vec::with_capacity(alloc, Board::SLOTS)?;
    for _ in 0..Board::SLOTS {
        spares.push_reserved(spare_of(seats.pop(), sides.pop()));
    }
    Ok(spares)
}

/// The spare of a slot, which is taken.
fn take_spare<D: HalvedDisk + Drop, J: Agreed>(
    spares: &mut Vec<Option<Spare<D, J>>>,
    slot: Slot,
) -> Option<Spare<D, J>>
    requires { vec_len spares.old ≡ 8 }
    ensures { vec_len spares.new ≡ 8 }
{
    spares[usize::from(slot.number())].take()
}

/// A spare of a seat and two sides, if both are there.
fn spare_of<D: HalvedDisk + Drop, J: Agreed>(
    seat: Option<Seat>,
    sides: Option<Sides<Loan<D::Log>>>,
) -> Option<Spare<D, J>>
    requires seat { IfSome seat (λ s. J.board ≡ Some s.board) }
    requires ring { IfSome sides (λ s. IsOf (J.ring s.number) s.lender.end) }
{
    let (Some(seat), Some(sides)) = (seat, sides) else {
        return None;
    };
    let (lender, borrower) = sides.named();
    Some(Spare::new(seat, lender, borrower))
}
