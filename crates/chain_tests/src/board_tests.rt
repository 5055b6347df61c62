//! Worked numbers of the board, and threads that step on it.
ghost use Rattle.std.specs.Prelude.{◌≡◌, ◌<◌, All, IfSome, length, slice_get, true};

use crate::comparing::{same, same_at};
use board::{Board, Floor, Refusal, Seat};
use bytes::Bytes;
use disk_model::{MemDisk, Part, Script};
use gate_journal::{IMAGE_SIZE, Image, Journal, Slot, Synced};
use std::alloc::Global;
use std::process::Abort;
use std::thread::join;

/// How far two threads raise the front.
const TOP: u64 = 1_000;

/// How often slots are counted in or out, and how many floors are made meanwhile.
const ROUNDS: u32 = 300;

/// The durable fronts of the slots while floors are made, and the front above some of them.
const GAUGES: [u64; Board::SLOTS] = [18, 16, 17, 13, 14, 12, 19, 11];

const FRONT: u64 = 15;

/// The last of the seats.
fn take_seat(rt: &impl Abort, board: &Board, seats: &mut Vec<Seat>) -> Seat
    requires { All (λ seat. seat.board ≡ board.now) seats.old.items }
    ensures rest { All (λ seat. seat.board ≡ board.now) seats.new.items }
    ensures seat { result.board ≡ board.now }
{
    seats.pop().expect(rt, "a seat")
}

/// The counting seat.
fn take_counting(board: &Board, seats: &mut Vec<Seat>) -> Seat
    requires some { 0 < length seats.old.items }
    requires seats { All (λ seat. seat.board ≡ board.now) seats.old.items }
    requires counting { IfSome (slice_get seats.old.items 0) (λ seat. seat.counts ≡ true) }
    ensures rest { All (λ seat. seat.board ≡ board.now) seats.new.items }
    ensures board { result.board ≡ board.now }
    ensures counts { result.counts ≡ true }
{
    seats.remove(0)
}

/// A receipt of this slot's disk, which holds this many writes.
fn receipt(rt: &impl Abort, alloc: Global, slot: Slot, front: u64) -> Synced {
    let mut disk = MemDisk::new(alloc, 10_000, Script::new(alloc)).expect(rt, "memory");
    let part = Part::new(0, 10_000);
    let mut journal = Journal::create(&mut disk, part, slot, 1, 0).expect(rt, "a journal");
    let bytes = Bytes::copy_from_slice(alloc, &[7; IMAGE_SIZE]).expect(rt, "memory");
    let images = [Image::new(0, bytes)];
    assert!(rt; 0 < front && front < 100 && journal.are_images(&images));
    journal
        .append(&mut Vec::new(alloc), &mut disk, front, &images)
        .expect(rt, "the disk writes")
}

#[test]
fn a_board_answers_its_words(rt: HostRuntime) {
    let gauges = [3, 0, 0, 0, 0, 0, 0, 0];
    let (board, mut seats) = Board::new(rt.alloc(), 3, 1, gauges, 1).expect(&rt, "memory");
    assert!(rt; seats.len() == 1);
    let seat = &mut seats[0];
    same(&rt, board.look(seat).number(), 3);
    same(&rt, board.raise(seat, 5).number(), 5);
    same(&rt, board.raise(seat, 4).number(), 5);
    let front = board.look(seat);
    same(&rt, front.number(), 5);
    let crew = board.crew(seat, front);
    same(&rt, (crew.mask(), crew.front().number()), (1, 5));
    let slot = Slot::new(0).expect(&rt, "slot 0");
    let gauge = board.gauge(seat, &crew, slot);
    same(&rt, (gauge.slot().number(), gauge.front()), (0, 3));
    board.count_in(seat, Slot::new(2).expect(&rt, "slot 2"));
    let front = board.look(seat);
    same(&rt, board.crew(seat, front).mask(), 5);
    board.count_out(seat, slot);
    let front = board.look(seat);
    same(&rt, board.crew(seat, front).mask(), 4);
}

/// Raises the front to each number up to the top, and looks after each: gives the seat back where no look is below the
/// raise before it and the last is of the top.
fn climb(board: &Board, mut seat: Seat) -> Option<Seat>
    requires { seat.board ≡ board.now }
    ensures { IfSome result (λ seat. seat.board ≡ board.now) }
{
    for n in 1..=TOP {
        let raised = board.raise(&mut seat, n).number();
        if raised < n || board.look(&mut seat).number() < raised {
            return None;
        }
    }
    if board.look(&mut seat).number() == TOP {
        Some(seat)
    } else {
        None
    }
}

#[test]
fn two_threads_raise_one_front(rt: HostRuntime) {
    let gauges = [0; Board::SLOTS];
    let (board, mut seats) = Board::new(rt.alloc(), 0, 0, gauges, 3).expect(&rt, "memory");
    let mut last = take_seat(&rt, &board, &mut seats);
    let second = take_seat(&rt, &board, &mut seats);
    let first = take_seat(&rt, &board, &mut seats);
    let (first, second) = join(&rt, || climb(&board, first), || climb(&board, second));
    assert!(rt; first.is_some() && second.is_some());
    same(&rt, board.look(&mut last).number(), TOP);
}

/// Posts receipts of the slot, and looks at the floor after each.
fn post_all(rt: &impl Abort, alloc: Global, board: &Board, seat: &mut Seat, slot: Slot)
    requires { seat.old.board ≡ board.now }
{
    for (posted, wanted) in &[(2u64, 4u64), (6, 6), (5, 6), (11, 9)] {
        board.post(seat, receipt(rt, alloc, slot, *posted));
        let front = board.look(seat);
        let crew = board.crew(seat, front);
        let floor = Floor::read(board, seat, crew);
        same_at(rt, floor.front(), *wanted, *posted);
    }
}

#[test]
fn a_receipt_raises_its_gauge(rt: HostRuntime) {
    let slot = Slot::new(3).expect(&rt, "slot 3");
    let gauges = [0, 0, 0, 4, 0, 0, 0, 0];
    let (board, mut seats) = Board::new(rt.alloc(), 9, 0b1000, gauges, 1).expect(&rt, "memory");
    post_all(&rt, rt.alloc(), &board, &mut seats[0], slot);
}

/// Counts the first slots in, and out again, one after another.
fn count(board: &Board, mut seat: Seat, slots: u32)
    requires some { 0 < slots }
    requires board { seat.board ≡ board.now }
    requires counting { seat.counts ≡ true }
{
    for round in 0..ROUNDS {
        let Some(slot) = Slot::new((round % slots % 8) as u8) else {
            return
        };
        if round / slots % 2 == 0 {
            board.count_in(&mut seat, slot);
        } else {
            board.count_out(&mut seat, slot);
        }
    }
}

/// The least of the front and of the gauges of the slots in the mask.
fn least(mask: u8) -> u64 {
    let mut least = FRONT;
    for (slot, gauge) in GAUGES.iter().enumerate() {
        if slot < 8 && (mask >> slot) % 2 == 1 {
            least = least.min(*gauge);
        }
    }
    least
}

/// Makes floors, and says whether each is the least of the front and of the gauges that its crew counts.
fn are_covered(board: &Board, mut seat: Seat) -> bool
    requires { seat.board ≡ board.now }
{
    for _round in 0..ROUNDS {
        let front = board.look(&mut seat);
        let crew = board.crew(&mut seat, front);
        let mask = crew.mask();
        if Floor::read(board, &mut seat, crew).front() != least(mask) {
            return false;
        }
    }
    true
}

#[test]
fn floors_are_covered_while_slots_come_and_go(rt: HostRuntime) {
    for slots in 1..=8 {
        let (board, mut seats) = Board::new(rt.alloc(), FRONT, 0, GAUGES, 2).expect(&rt, "memory");
        let counting = take_counting(&board, &mut seats);
        let other = take_seat(&rt, &board, &mut seats);
        let (_, covered) = join(
            &rt,
            || count(&board, counting, slots),
            || are_covered(&board, other),
        );
        assert!(rt; covered, "{slots} slots");
    }
}

#[test]
fn a_refusal_has_its_number_and_name(rt: HostRuntime) {
    same(&rt, Refusal::Memory.number(), 100);
    let words = format!(in rt.alloc(); "{}", Refusal::Memory).expect(&rt, "memory");
    same(&rt, words.as_str(), "100 Memory");
}
