//! Each token's ends.
ghost use Rattle.std.specs.Prelude.{◌≡◌, ◌≤◌};
ghost use Rattle.board.specs.declared.evidence.TheConstants.Front.{GREATEST};

use crate::comparing::same;
use board::{Board, Floor, Seat};
use bytes::Bytes;
use flush_barrier::{
    BoardName, ErrorCode, OwedFlush, OwedFua, OwedRead, OwedWrite, Reply, SessionId,
};
use std::alloc::Global;
use std::process::Abort;

const SESSION: SessionId = SessionId(9);

const COOKIE: u64 = 2;

/// A board with the front, on which slot 0 is counted and holds all writes up to the gauge; and its one seat.
fn opened(rt: &impl Abort, alloc: Global, front: u64, gauge: u64) -> (Board, Seat)
    requires { front ≤ GREATEST }
    ensures { result.1.board ≡ result.0 }
{
    let gauges = [gauge, 0, 0, 0, 0, 0, 0, 0];
    let (board, mut seats) = Board::new(alloc, front, 1, gauges, 1).expect(rt, "memory");
    let seat = seats.pop().expect(rt, "a seat");
    (board, seat)
}

/// The floor that the seat reads.
fn floor_of(board: &Board, seat: &mut Seat) -> Floor
    requires { seat.old.board ≡ board.now }
    ensures floor { result.board ≡ board.now }
    ensures seat { seat.new.board ≡ board.now }
{
    let front = board.look(seat);
    let crew = board.crew(seat, front);
    Floor::read(board, seat, crew)
}

fn assert_reply(rt: &impl Abort, reply: &Reply, error: Option<u32>, payload: &[u8]) {
    same(rt, reply.session(), SESSION);
    same(rt, reply.cookie(), COOKIE);
    same(rt, reply.error().map(|code| code.number()), error);
    same(rt, reply.payload(), payload);
}

#[test]
fn a_token_without_a_sync_is_answered(rt: HostRuntime) {
    let alloc = rt.alloc();
    let (board, _seat) = opened(&rt, alloc, 3, 3);
    let name = BoardName::of(&board);
    let payload = Bytes::copy_from_slice(alloc, &[7, 8]).expect(&rt, "memory");
    let read = OwedRead::new(&name, SESSION, COOKIE).settle(payload);
    assert_reply(&rt, &read, None, &[7, 8]);
    let unread = OwedRead::new(&name, SESSION, COOKIE).refuse(alloc, ErrorCode::Io);
    assert_reply(&rt, &unread, Some(5), &[]);
    OwedRead::new(&name, SESSION, COOKIE).abandon();
    let written = OwedWrite::new(&name, SESSION, COOKIE).settle(alloc);
    assert_reply(&rt, &written, None, &[]);
    let unwritten = OwedWrite::new(&name, SESSION, COOKIE).refuse(alloc, ErrorCode::NoMemory);
    assert_reply(&rt, &unwritten, Some(12), &[]);
    OwedWrite::new(&name, SESSION, COOKIE).abandon();
}

#[test]
fn a_fua_write_waits_for_its_floor(rt: HostRuntime) {
    let alloc = rt.alloc();
    let (board, mut seat) = opened(&rt, alloc, 5, 4);
    let name = BoardName::of(&board);
    let floor = floor_of(&board, &mut seat);
    same(&rt, floor.front(), 4);
    let mut token = OwedFua::new(&name, SESSION, COOKIE);
    same(&rt, (token.session(), token.cookie()), (SESSION, COOKIE));
    assert!(rt; !token.is_paid_by(&floor));
    token.number(4);
    same(&rt, token.numbered(), Some(4));
    if token.is_paid_by(&floor) {
        assert_reply(&rt, &token.settle(alloc, &floor), None, &[]);
    } else {
        token.abandon();
        panic!(rt; "a floor of 4 pays the number 4");
    }
    let mut later = OwedFua::new(&name, SESSION, COOKIE);
    later.number(5);
    assert!(rt; !later.is_paid_by(&floor));
    assert_reply(&rt, &later.refuse(alloc, ErrorCode::Io), Some(5), &[]);
}

#[test]
fn a_flush_waits_for_its_floor(rt: HostRuntime) {
    let alloc = rt.alloc();
    let (board, mut seat) = opened(&rt, alloc, 3, 3);
    let name = BoardName::of(&board);
    let mut token = OwedFlush::new(&name, SESSION, COOKIE);
    same(&rt, (token.session(), token.cookie()), (SESSION, COOKIE));
    let floor = floor_of(&board, &mut seat);
    assert!(rt; !token.is_paid_by(&floor));
    token.bind(&board.look(&mut seat));
    same(&rt, token.numbered(), Some(3));
    if token.is_paid_by(&floor) {
        assert_reply(&rt, &token.settle(alloc, &floor), None, &[]);
    } else {
        token.abandon();
        panic!(rt; "a floor of 3 pays the front 3");
    }
    let refused = OwedFlush::new(&name, SESSION, COOKIE).refuse(alloc, ErrorCode::NoMemory);
    assert_reply(&rt, &refused, Some(12), &[]);
    OwedFlush::new(&name, SESSION, COOKIE).abandon();
}
