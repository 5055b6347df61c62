//! Clients in memory, whose sessions stand in threads, over a chain of one in a file.
ghost use Rattle.std.specs.Prelude.{◌≡◌, All, Some};
ghost use Rattle.board.specs.Seats.{IsNewSeat};
ghost use Rattle.loans.specs.Rings.{IsOf};

use crate::cluster_tests::{Parts, new_parts, seated, sit, take_seat, taken};
use crate::comparing::same;
use crate::serving_tests::alone;
use board::{Board, Seat};
use cluster::{Cluster, Crew, start_all};
use disk_model::{Disk, HalvedDisk};
use export::Volume;
use flush_barrier::SessionId;
use gate_journal::Slot;
use local_store::{Store, StoreLike};
use mail::MailRoom;
use member::Agreed;
use sessions::{HangsUp, Limits, SEATS, attend};
use sockets::{Kept, Pieces};
use std::alloc::Global;
use std::fs;
use std::marker::Brand;
use std::process::{self, Abort};
use std::sync::Wait;
use std::thread::{self, Threads};

// Client flags without zeros, and EXPORT_NAME.
const HELLO: &[u8] = b"\0\0\0\x03IHAVEOPT\0\0\0\x01\0\0\0\0";

// Three bytes from 4,095 on, with FUA.
const FUA: &[u8] =
    b"\x25\x60\x95\x13\0\x01\0\x01\0\0\0\0\0\0\0\x01\0\0\0\0\0\0\x0f\xff\0\0\0\x03ABC";

// Five bytes from 4,094 on.
const READ: &[u8] = b"\x25\x60\x95\x13\0\0\0\0\0\0\0\0\0\0\0\x02\0\0\0\0\0\0\x0f\xfe\0\0\0\x05";

const DISC: &[u8] = b"\x25\x60\x95\x13\0\0\0\x02\0\0\0\0\0\0\0\x03\0\0\0\0\0\0\0\0\0\0\0\0";

// The greeting, the size and the flags of the export, and the reply to the write.
const WRITTEN: &[u8] =
    b"NBDMAGICIHAVEOPT\0\x03\0\0\0\0\0\0\x80\0\x01\x4d\x67\x44\x66\x98\0\0\0\0\0\0\0\0\0\0\0\x01";

// The same, and the reply to the READ.
const READ_BACK: &[u8] =
    b"NBDMAGICIHAVEOPT\0\x03\0\0\0\0\0\0\x80\0\x01\x4d\x67\x44\x66\x98\0\0\0\0\0\0\0\0\0\0\0\x02\0ABC\0";

// A client in memory needs nobody to end it.
struct Alone;

impl HangsUp for Alone {
    fn hang_up<R: Wait>(&self, _: &R) {}
}

// What a client took that asks this and disconnects.
fn served<R: Threads + Wait + Sync, V: Volume + Sync>(
    rt: &R,
    alloc: Global,
    volume: &V,
    number: u64,
    asked: &[u8],
) -> Option<Kept> {
    let mut incoming = Pieces::new(alloc);
    for piece in [HELLO, asked, DISC] {
        incoming.add(piece).ok()?;
    }
    let limits = Limits {
        max_payload: 4_096,
        area: 8_214,
    };
    attend(
        rt,
        alloc,
        volume,
        Slot::new(0)?,
        SessionId(number),
        limits,
        &mut incoming,
        Kept::new(alloc),
        &Alone,
    )
    .ok()
}

// What two clients took, one after the other, at a chain that runs.
fn both<R: Threads + Wait + Sync, V: Volume + Sync>(
    started: bool,
    rt: &R,
    alloc: Global,
    volume: &V,
) -> (Option<Kept>, Option<Kept>) {
    if !started {
        return (None, None);
    }
    (
        served(rt, alloc, volume, 1, FUA),
        served(rt, alloc, volume, 2, READ),
    )
}

// The clients are served while the member commits.
fn play<R: Threads + Wait + Sync, W: Crew + Volume + Sync>(
    rt: &R,
    alloc: Global,
    chain: &W,
) -> (Option<Kept>, Option<Kept>) {
    thread::scope(
        thread::scope_env(),
        rt,
        |scope| -> (Option<Kept>, Option<Kept>) {
            let started = start_all(scope, rt, chain).is_ok();
            let took = both(started, rt, alloc, chain);
            chain.close(rt);
            took
        },
    )
}

#[test]
fn one_client_reads_what_another_wrote(rt: HostRuntime) {
    let alloc = rt.alloc();
    let id = process::id(rt.process());
    let folder = format!(in alloc; "/tmp/chain_tests.sessions.{id}").expect(&rt, "memory");
    fs::create_dir(&rt, folder.as_str()).expect(&rt, "a new folder");
    let (board, seats) = Board::new(alloc, 0, 0b1, [0; Board::SLOTS], 1).expect(&rt, "memory");
    let parts = new_parts(&rt, folder.as_str(), 0);
    played::<_, Brand, _>(&rt, alloc, board, seats, parts);
    fs::remove_dir_all(&rt, folder.as_str()).expect(&rt, "the folder is removed");
}

// Both clients at a chain of one. Its disk alone has what was written.
fn played<D: HalvedDisk + Drop + Send, J: Agreed + Send, R: Abort + Threads + Wait + Sync>(
    rt: &R,
    alloc: Global,
    board: Board,
    seats: Vec<Seat>,
    parts: Parts<D>,
)
where
    D::Log: Send,
    D::Past: Send,
    requires ring { IsOf (J.ring parts.sides.number) parts.sides.lender.end }
    requires board { J.board ≡ Some board }
    requires size { J.size ≡ 32768 }
    requires seats { All (IsNewSeat board) seats.items }
{
    let mut seats = seats;
    let seat = take_seat(rt, &board, &mut seats);
    let member = seated(rt, alloc, &board, seat, 0, parts, alone(rt, alloc));
    let mail = MailRoom::new(alloc, SEATS).expect(rt, "memory");
    let mut cluster: Cluster<D, J> = Cluster::new(alloc, board, 32_768, mail).expect(rt, "memory");
    sit(rt, &mut cluster, 0, member);
    let (written, read) = play(rt, alloc, &cluster);
    same(rt, written.as_ref().map(Kept::bytes), Some(WRITTEN));
    same(rt, read.as_ref().map(Kept::bytes), Some(READ_BACK));
    let disk = taken(rt, &mut cluster, 0);
    has_them(rt, alloc, disk);
    cluster.end();
}

// The disk has what was written.
fn has_them<D: Disk + Drop>(rt: &impl Abort, alloc: Global, disk: D) {
    let Ok(mut store) = Store::open(alloc, disk) else {
        panic!(rt; "no store")
    };
    let mut bytes = [0; 4_096];
    assert!(rt; store.geometry().blocks == 8);
    store.read_block(0, &mut bytes).expect(rt, "a block");
    same(rt, bytes.last().copied(), Some(b'A'));
    store.read_block(1, &mut bytes).expect(rt, "a block");
    same(rt, bytes.first().copied(), Some(b'B'));
}
