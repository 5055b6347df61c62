//! How long the calls of a board take, on one thread and on four at once.
//!
//! Each thread makes one kind of call again and again, with a seat of its own, all on one board. Untimed it makes few calls
//! and prints what the last one found; timed it makes many, and prints the nanoseconds of a thousand.
ghost use Rattle.std.specs.Prelude.{◌≡◌, ◌<◌, ◌≤◌, ◌^◌, All, IfOk};
ghost use Rattle.disk_model.specs.Memory.{size_of};

use crate::report::{now, since};
use anyhow::ensure;
use board::{Board, Seat};
use disk_model::{MemDisk, Part, Script};
use gate_journal::{Image, Journal, Slot, Synced};
use std::alloc::Global;
use std::io;
use std::thread::{Threads, map_vec};
use std::time::Duration;

/// The untimed calls of a thread.
const FEW: u32 = 8;

/// The front and the gauge of slot 0 that a board opens with.
const OPENING: u64 = 5;

/// The threads that step on one board at once.
const THREADS: usize = 4;

/// The bytes of a disk with room for one batch with one image of zeros.
const DISK: u64 = 18;

/// What a thread does again and again.
#[derive(Clone, Copy)]
enum Kind {
    Look,
    Raise,
    Post,
    Gauge,
}

/// Calls of a kind, and how many thousands of calls of a thread are timed.
#[derive(Clone, Copy)]
struct Load {
    kind: Kind,
    name: &'static str,
    thousands: u32,
}

/// There are fewer of those that need a receipt each.
const LOADS: [Load; 4] = [
    Load {
        kind: Kind::Look,
        name: "look",
        thousands: 2_000,
    },
    Load {
        kind: Kind::Raise,
        name: "raise",
        thousands: 2_000,
    },
    Load {
        kind: Kind::Post,
        name: "post",
        thousands: 20,
    },
    Load {
        kind: Kind::Gauge,
        name: "gauge",
        thousands: 2_000,
    },
];

/// What a thread steps with: its seat, and the receipts that it posts.
#[derive(Drop)]
struct Job {
    seat: Seat,
    receipts: Vec<Synced>,
}

/// What a thread gives back: its seat, which is kept as long as the board, and what its last call found.
#[derive(Drop)]
struct Done {
    seat: Seat,
    found: u64,
}

/// Plays each kind of call on one thread, and on several.
pub(crate) fn run<T: Threads + Sync>(
    rt: &HostRuntime,
    handle: &T,
    timed: bool,
) -> anyhow::Result<()> {
    report(rt, handle, 1, timed)?;
    report(rt, handle, THREADS, timed)
}

/// Prints what each kind of call finds or takes on so many threads.
fn report<T: Threads + Sync>(
    rt: &HostRuntime,
    handle: &T,
    threads: usize,
    timed: bool,
) -> anyhow::Result<()>
    requires { 0 < threads }
{
    for load in &LOADS {
        let calls = if timed {
            load.thousands.saturating_mul(1_000)
        } else {
            FEW
        };
        let (took, found) = measure(rt, handle, load.kind, threads, calls)?;
        print(rt, threads, *load, took, found, timed)?;
    }
    Ok(())
}

/// Prints what the last calls found, or how long a thousand took.
fn print(
    rt: &HostRuntime,
    threads: usize,
    load: Load,
    took: Duration,
    found: u64,
    timed: bool,
) -> io::Result<()> {
    let name = load.name;
    if !timed {
        return println!(rt; "{threads} at once: the last {name} found {found}");
    }
    let nanoseconds = took.as_nanos() / u128::from(load.thousands).max(1);
    println!(rt; "{threads} at once: a thousand times {name} {nanoseconds} ns")
}

/// How long so many threads take for their calls, and the least that a last call found.
fn measure<T: Threads + Sync>(
    rt: &HostRuntime,
    handle: &T,
    kind: Kind,
    threads: usize,
    calls: u32,
) -> anyhow::Result<(Duration, u64)>
    requires { 0 < threads }
{
    let gauges = [OPENING, 0, 0, 0, 0, 0, 0, 0];
    let (board, seats) = Board::new(rt.alloc(), OPENING, 1, gauges, threads)?;
    let measured = measure_on(rt, handle, &board, seats, kind, calls);
    drop(board);
    measured
}

/// The same on this board, whose seats these are.
fn measure_on<T: Threads + Sync>(
    rt: &HostRuntime,
    handle: &T,
    board: &Board,
    seats: Vec<Seat>,
    kind: Kind,
    calls: u32,
) -> anyhow::Result<(Duration, u64)>
    requires { All (λ seat. seat.board ≡ board.now) seats.items }
{
    let jobs = jobs(rt.alloc(), board, seats, kind, calls)?;
    let start = now(rt);
    let all = step_all(handle, board, jobs, kind, calls)?;
    let took = since(rt, start);
    let found = least_found(&all);
    drop(all);
    Ok((took, found))
}

/// The least that a last call found.
fn least_found(all: &[Done]) -> u64 {
    let mut least = u64::MAX;
    for done in all {
        least = least.min(done.found);
    }
    least
}

/// What each thread steps with.
fn jobs(
    alloc: Global,
    board: &Board,
    seats: Vec<Seat>,
    kind: Kind,
    calls: u32,
) -> anyhow::Result<Vec<Job>>
    requires { All (λ seat. seat.board ≡ board.now) seats.items }
    ensures { IfOk result (λ jobs. All (λ job. job.seat.board ≡ board.now) jobs.items) }
{
    let mut seats = seats;
    let mut jobs = Vec::new(alloc);
    while let Some(seat) = seats.pop() {
        let receipts = receipts(alloc, if matches!(kind, Kind::Post) { calls } else { 0 })?;
        jobs.push(Job { seat, receipts })?;
    }
    Ok(jobs)
}

/// The threads step, each with its job.
fn step_all<T: Threads + Sync>(
    handle: &T,
    board: &Board,
    jobs: Vec<Job>,
    kind: Kind,
    calls: u32,
) -> anyhow::Result<Vec<Done>>
    requires { All (λ job. job.seat.board ≡ board.now) jobs.items }
{
    let work = |job: Job| -> Done
        requires { job.seat.board ≡ board.now }
    {
        let Job { mut seat, receipts } = job;
        let found = match kind {
            Kind::Look => look_often(board, &mut seat, calls),
            Kind::Raise => raise_often(board, &mut seat, calls),
            Kind::Post => post_all(board, &mut seat, receipts),
            Kind::Gauge => gauge_often(board, &mut seat, calls),
        };
        Done { seat, found }
    };
    Ok(map_vec(handle, jobs, &work)?)
}

fn look_often(board: &Board, seat: &mut Seat, calls: u32) -> u64
    requires { seat.old.board ≡ board.now }
{
    let mut found = 0;
    for _call in 0..calls {
        found = board.look(seat).number();
    }
    found
}

fn raise_often(board: &Board, seat: &mut Seat, calls: u32) -> u64
    requires { seat.old.board ≡ board.now }
{
    let mut found = 0;
    for call in 0..calls {
        found = board.raise(seat, OPENING + u64::from(call)).number();
    }
    found
}

fn post_all(board: &Board, seat: &mut Seat, receipts: Vec<Synced>) -> u64
    requires { seat.old.board ≡ board.now }
{
    for receipt in receipts {
        board.post(seat, receipt);
    }
    gauge_often(board, seat, 1)
}

fn gauge_often(board: &Board, seat: &mut Seat, calls: u32) -> u64
    requires { seat.old.board ≡ board.now }
{
    let slot = Slot::new(0).unwrap();
    let front = board.look(seat);
    let crew = board.crew(seat, front);
    let mut found = 0;
    for _call in 0..calls {
        found = board.gauge(seat, &crew, slot).front();
    }
    found
}

/// Receipts of the disk of slot 0, each of one write more.
fn receipts(alloc: Global, count: u32) -> anyhow::Result<Vec<Synced>> {
    let mut receipts = Vec::new(alloc);
    for front in 0..count {
        receipts.push(receipt(alloc, u64::from(front) + 1)?)?;
    }
    Ok(receipts)
}

/// The receipt of a batch with one image, on a disk of its own.
fn receipt(alloc: Global, front: u64) -> anyhow::Result<Synced>
    requires some { 0 < front }
    requires small { front < 2 ^ 63 }
{
    let mut disk = MemDisk::new(alloc, DISK, Script::new(alloc))?;
    let receipt = commit(alloc, &mut disk, front);
    drop(disk);
    receipt
}

/// Commits a batch with one image, of zeros, on a new journal.
fn commit(alloc: Global, disk: &mut MemDisk, front: u64) -> anyhow::Result<Synced>
    requires some { 0 < front }
    requires small { front < 2 ^ 63 }
    requires room { size_of disk.old ≡ 18 }
{
    let slot = Slot::new(0).unwrap();
    let mut journal = Journal::create(disk, Part::new(0, DISK), slot, 1, 0)?;
    let images = [Image::zeros(0)];
    ensure!(journal.are_images(&images), "one image is no batch");
    let mut buffer = Vec::new(alloc);
    let receipt = journal.append(&mut buffer, disk, front, &images);
    drop(buffer);
    Ok(receipt?)
}
