//! The chain, its manager and its clients, in one scope.
ghost use Rattle.std.specs.Prelude.{◌≡◌, ◌+◌, ◌≤◌, All, IfSome, Some, length, slice_get, true};
ghost use Rattle.board.specs.Seats.{IsNewSeat};
ghost use Rattle.chain_core.specs.Node.{IsRunning, size_of};
ghost use Rattle.configurations.specs.Store.{IsSettledConfig};
ghost use Rattle.gate_journal.specs.declared.pair.TheConstants.{PAIR_SIZE};
ghost use Rattle.loans.specs.Rings.{IsOf};

use crate::Control;
use crate::play::{Asks, Nobody, Play};
use crate::refusal::Refusal;
use crate::sides::AllSides;
use board::{Board, Seat};
use cluster::{Cluster, Crew, start_all};
use configurations::ConfigStore;
use disk_model::{Disk, HalvedDisk};
use export::Volume;
use gate_journal::Slot;
use local_store::{Loan, Store, StoreLike};
use log::Log;
use mail::MailRoom;
use managing::{Beginning, Begun, Host, Managing};
use member::Agreed;
use sessions::Clients;
use std::alloc::Global;
use std::marker::Brand;
use std::sync::Wait;
use std::thread::{self, Scope, Threads};

/// How many mailboxes there are: one for each session that lasts at once.
const BOXES: usize = 64;

/// From what a chain goes on: the source's store, and the record of it alone on the configuration's disk.
#[derive(Drop)]
pub struct Source<D: Disk, C: Disk> {
    pub store: Store<D>,
    pub config: ConfigStore,
    pub disk: C,
}

/// Runs the chain for those who ask it, until these end; then what was answered is committed. The slots that are wanted join it meanwhile. The
/// host comes back. 100 `Memory` where it can't begin.
pub fn run<R, D, C, H, P>(
    rt: &R,
    alloc: Global,
    source: Source<D, C>,
    host: H,
    wanted: &[Slot],
    play: &P,
) -> Result<H, Refusal>
where
    R: Threads + Wait + Log + Sync,
    D: HalvedDisk + Drop + Send,
    D::Log: Send,
    D::Past: Send,
    C: Disk + Drop,
    H: Host<D> + Drop,
    P: Play + Sync,
    requires runs { IsRunning (⟦<Store<D> as StoreLike>⟧.about source.store) (record { premise = D.keeps_model; keeps = ⟦<Store<D> as StoreLike>⟧.keeps source.store }) }
    requires pair { source.config.pair.part.len ≡ PAIR_SIZE }
    requires on_disk { source.config.pair.part.start + source.config.pair.part.len ≤ C.size source.disk }
    requires settled { C.keeps_model → IsSettledConfig source.config (C.gives source.disk) (C.may_leave_now source.disk) }
{
    begin(rt, alloc, source, host, wanted, Asks::Play(play))
}

/// Runs the chain for the clients that come in, until as many as were to come have ended, or the listeners refuse one, or the chain can't go on:
/// then nobody comes in any more, and the clients are hung up. What was answered is committed then, where a member runs. The slots that are
/// wanted join the chain meanwhile, and those that are asked for. The host comes back. 100 `Memory` where it can't begin.
pub fn serve<R, D, C, H>(
    rt: &R,
    alloc: Global,
    source: Source<D, C>,
    host: H,
    wanted: &[Slot],
    clients: &Clients,
    control: &Control,
) -> Result<H, Refusal>
where
    R: Threads + Wait + Log + Sync,
    D: HalvedDisk + Drop + Send,
    D::Log: Send,
    D::Past: Send,
    C: Disk + Drop,
    H: Host<D> + Drop,
    requires runs { IsRunning (⟦<Store<D> as StoreLike>⟧.about source.store) (record { premise = D.keeps_model; keeps = ⟦<Store<D> as StoreLike>⟧.keeps source.store }) }
    requires pair { source.config.pair.part.len ≡ PAIR_SIZE }
    requires on_disk { source.config.pair.part.start + source.config.pair.part.len ≤ C.size source.disk }
    requires settled { C.keeps_model → IsSettledConfig source.config (C.gives source.disk) (C.may_leave_now source.disk) }
{
    begin::<_, _, _, _, Nobody>(
        rt,
        alloc,
        source,
        host,
        wanted,
        Asks::Clients { clients, control },
    )
}

/// Begins a chain of the source, with a new board, and names it.
fn begin<'p, R, D, C, H, P>(
    rt: &R,
    alloc: Global,
    source: Source<D, C>,
    host: H,
    wanted: &[Slot],
    asks: Asks<'p, P>,
) -> Result<H, Refusal>
where
    R: Threads + Wait + Log + Sync,
    D: HalvedDisk + Drop + Send,
    D::Log: Send,
    D::Past: Send,
    C: Disk + Drop,
    H: Host<D> + Drop,
    P: Play + Sync,
    requires runs { IsRunning (⟦<Store<D> as StoreLike>⟧.about source.store) (record { premise = D.keeps_model; keeps = ⟦<Store<D> as StoreLike>⟧.keeps source.store }) }
    requires pair { source.config.pair.part.len ≡ PAIR_SIZE }
    requires on_disk { source.config.pair.part.start + source.config.pair.part.len ≤ C.size source.disk }
    requires settled { C.keeps_model → IsSettledConfig source.config (C.gives source.disk) (C.may_leave_now source.disk) }
{
    let (slot, front) = (source.store.slot(), source.store.front());
    let mut gauges = [0; Board::SLOTS];
    gauges[usize::from(slot.number())] = front;
    let made = Board::new(alloc, front, 1 << slot.number(), gauges, Board::SLOTS + 1);
    let Ok((board, seats)) = made else {
        return Err(Refusal::Memory);
    };
    let sides = AllSides::new(alloc)?;
    let mail = MailRoom::new(alloc, BOXES)?;
    run_named::<_, _, Brand, _, _, _>(
        rt, alloc, source, board, seats, sides, mail, host, wanted, asks,
    )
}

/// The same, with a name for the chain's board, its size, and its rings.
fn run_named<'p, R, D, J, C, H, P>(
    rt: &R,
    alloc: Global,
    source: Source<D, C>,
    board: Board,
    seats: Vec<Seat>,
    sides: AllSides<Loan<D::Log>>,
    mail: MailRoom,
    host: H,
    wanted: &[Slot],
    asks: Asks<'p, P>,
) -> Result<H, Refusal>
where
    R: Threads + Wait + Log + Sync,
    D: HalvedDisk + Drop + Send,
    D::Log: Send,
    D::Past: Send,
    J: Agreed + Send,
    C: Disk + Drop,
    H: Host<D> + Drop,
    P: Play + Sync,
    requires board { J.board ≡ Some board }
    requires size { size_of (⟦<Store<D> as StoreLike>⟧.about source.store) ≡ J.size }
    requires seats { length seats.items ≡ 9 }
    requires new { All (IsNewSeat board) seats.items }
    requires counting { IfSome (slice_get seats.items 0) (λ seat. seat.counts ≡ true) }
    requires first { IsOf (J.ring sides.first.number) sides.first.lender.end }
    requires second { IsOf (J.ring sides.second.number) sides.second.lender.end }
    requires third { IsOf (J.ring sides.third.number) sides.third.lender.end }
    requires fourth { IsOf (J.ring sides.fourth.number) sides.fourth.lender.end }
    requires fifth { IsOf (J.ring sides.fifth.number) sides.fifth.lender.end }
    requires sixth { IsOf (J.ring sides.sixth.number) sides.sixth.lender.end }
    requires seventh { IsOf (J.ring sides.seventh.number) sides.seventh.lender.end }
    requires eighth { IsOf (J.ring sides.eighth.number) sides.eighth.lender.end }
    requires runs { IsRunning (⟦<Store<D> as StoreLike>⟧.about source.store) (record { premise = D.keeps_model; keeps = ⟦<Store<D> as StoreLike>⟧.keeps source.store }) }
    requires pair { source.config.pair.part.len ≡ PAIR_SIZE }
    requires on_disk { source.config.pair.part.start + source.config.pair.part.len ≤ C.size source.disk }
    requires settled { C.keeps_model → IsSettledConfig source.config (C.gives source.disk) (C.may_leave_now source.disk) }
{
    let Source {
        store,
        config,
        disk,
    } = source;
    let mut seats = seats;
    let counting = seats.remove(0);
    let sides = sides.into_vec(alloc)?;
    let beginning = Beginning {
        source: store,
        config,
        disk,
        board,
        counting,
        seats,
        sides,
        mail,
    };
    let Begun { cluster, managing }: Begun<Store<D>, D, J, C, H> = Begun::new(
        alloc, beginning, host,
    )?;
    let mut managing = managing;
    for slot in wanted {
        managing.want(*slot);
    }
    let started = in_threads(rt, alloc, &cluster, &mut managing, &asks);
    cluster.end();
    let (_, host) = managing.into_parts();
    if started {
        Ok(host)
    } else {
        Err(Refusal::Memory)
    }
}

/// What manages a chain, until its crew is told to end.
trait Manages<W> {
    fn manage_all<R: Wait>(&mut self, rt: &R, chain: &W);
}

impl<D: HalvedDisk + Drop, J: Agreed, C: Disk + Drop, H: Host<D>> Manages<Cluster<D, J>>
    for Managing<Store<D>, D, J, C, H> {
    fn manage_all<R: Wait>(&mut self, rt: &R, chain: &Cluster<D, J>) {
        self.manage(rt, chain);
    }
}

/// The crew and the clients in threads, the manager in this one, until the clients end, or the chain can't go on. False where the system gives
/// too few threads.
fn in_threads<'p, R, W, M, P>(
    rt: &R,
    alloc: Global,
    chain: &W,
    manager: &mut M,
    asks: &Asks<'p, P>,
) -> bool
where
    R: Threads + Wait + Log + Sync,
    W: Crew + Volume + Sync,
    M: Manages<W>,
    P: Play + Sync,
{
    thread::scope(thread::scope_env(), rt, |scope| -> bool {
        let started = start_both(scope, rt, alloc, chain, asks);
        manage_if(started, rt, chain, manager);
        end_clients(rt, asks);
        started
    })
}

/// Starts the crew and those who ask, in threads of their own. False where the system gives too few.
fn start_both<'s, E, R, W, P>(
    scope: &Scope<'s, E>,
    rt: &'s R,
    alloc: Global,
    chain: &'s W,
    asks: &Asks<'s, P>,
) -> bool
where
    R: Threads + Wait + Log + Sync,
    W: Crew + Volume + Sync,
    P: Play + Sync,
{
    match start_all(scope, rt, chain) {
        Ok(()) => start(scope, rt, alloc, chain, asks),
        Err(_) => false,
    }
}

/// Starts those who ask, in threads of their own. False where the system gives too few.
fn start<'s, E, R, W, P>(
    scope: &Scope<'s, E>,
    rt: &'s R,
    alloc: Global,
    chain: &'s W,
    asks: &Asks<'s, P>,
) -> bool
where
    R: Threads + Wait + Log + Sync,
    W: Crew + Volume + Sync,
    P: Play + Sync,
{
    match *asks {
        Asks::Play(play) => start_play(scope, rt, chain, play),
        Asks::Clients { clients, control } => {
            start_control(scope, rt, alloc, chain, control)
                && start_clients(scope, rt, alloc, chain, clients)
        }
    }
}

/// Nobody comes in any more, and the clients that are there are hung up.
fn end_clients<'p, R: Wait, P>(rt: &R, asks: &Asks<'p, P>) {
    if let Asks::Clients { clients, control } = *asks {
        clients.close(rt);
        control.close(rt);
    }
}

/// Starts who takes orders, in a thread of its own. False where the system gives no thread.
fn start_control<'s, E, R, W>(
    scope: &Scope<'s, E>,
    rt: &'s R,
    alloc: Global,
    chain: &'s W,
    control: &'s Control,
) -> bool
where
    R: Threads + Wait + Log + Sync,
    W: Crew + Sync,
{
    scope
        .spawn(move || take_orders(rt, alloc, chain, control))
        .is_ok()
}

fn take_orders<R: Wait + Log, W: Crew>(rt: &R, alloc: Global, chain: &W, control: &Control) {
    control.serve(rt, alloc, chain);
}

/// Starts the clients, in a thread of their own. The crew is told to end behind them. False where the system gives no thread.
fn start_clients<'s, E, R, W>(
    scope: &Scope<'s, E>,
    rt: &'s R,
    alloc: Global,
    chain: &'s W,
    clients: &'s Clients,
) -> bool
where
    R: Threads + Wait + Log + Sync,
    W: Crew + Volume + Sync,
{
    scope
        .spawn(move || serve_and_close(rt, alloc, chain, clients))
        .is_ok()
}

fn serve_and_close<R: Threads + Wait + Log + Sync, W: Crew + Volume + Sync>(
    rt: &R,
    alloc: Global,
    chain: &W,
    clients: &Clients,
) {
    clients.serve(rt, alloc, chain);
    chain.close(rt);
}

/// Starts the clients, in a thread of their own. The crew is told to end behind them. False where the system gives no thread.
fn start_play<'s, E, R, W, P>(scope: &Scope<'s, E>, rt: &'s R, chain: &'s W, play: &'s P) -> bool
where
    R: Threads + Wait + Log + Sync,
    W: Crew + Volume + Sync,
    P: Play + Sync,
{
    scope.spawn(move || play_and_close(rt, chain, play)).is_ok()
}

fn play_and_close<R: Threads + Wait + Sync, W: Crew + Volume + Sync, P: Play>(
    rt: &R,
    chain: &W,
    play: &P,
) {
    play.play(rt, chain);
    chain.close(rt);
}

/// Manages, where all was started; else the crew is told to end at once.
fn manage_if<R: Wait, W: Crew, M: Manages<W>>(started: bool, rt: &R, chain: &W, manager: &mut M) {
    if started {
        manager.manage_all(rt, chain);
    } else {
        chain.close(rt);
    }
}
