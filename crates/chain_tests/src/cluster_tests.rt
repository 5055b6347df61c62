//! A chain in threads, over disks in files.
ghost use Rattle.std.specs.Prelude.{◌≡◌, ◌+◌, ◌≤◌, All, Some};
ghost use Rattle.board.specs.Seats.{IsNewSeat};
ghost use Rattle.loans.specs.Rings.{IsOf};
ghost use Rattle.export.specs.Volume.{IsForVolume};

use crate::comparing::{same, same_at};
use board::{Board, Seat};
use bytes::Bytes;
use chain_core::Node;
use cluster::{Cluster, Crew, Seated, start_all};
use configurations::{Epoch, Incarnation, Member as Recorded, Record};
use disk_model::{Disk, FileDisk, HalvedDisk};
use export::Volume;
use flush_barrier::{BoardName, OwedFlush, OwedFua, OwedRead, Reply, SessionId};
use gate_journal::Slot;
use home_blocks::disk_size;
use loans::Sides;
use local_store::{LendingStore, Loan, Store, StoreLike};
use mail::{MailRoom, Mailbox};
use member::{Agreed, Member};
use nbd_session::Demand;
use std::alloc::Global;
use std::fs::{self, File, Files};
use std::marker::Brand;
use std::process::{self, Abort};
use std::sync::Wait;
use std::thread::{self, Threads, join};
use volume::{Geometry, Write};

// How many writes with FUA each of three callers makes.
const WRITES: u64 = 200;

// The bytes of the volume: 8 blocks.
const SIZE: u64 = 32_768;

// The slot with this number, below 8.
pub(crate) fn slot(rt: &impl Abort, number: u8) -> Slot {
    Slot::new(number).expect(rt, "a slot")
}

// The chain of the slots 0, 1 and 2.
pub(crate) fn three(rt: &impl Abort, alloc: Global) -> Record {
    let mut members = Vec::new(alloc);
    for number in 0..3 {
        let incarnation = Incarnation::new(1).expect(rt, "an incarnation");
        let slot = slot(rt, number);
        members
            .push(Recorded { slot, incarnation })
            .expect(rt, "memory");
    }
    let epoch = Epoch::new(1).expect(rt, "an epoch");
    Record::new(epoch, members).expect(rt, "a chain")
}

// The sides of the loans of a slot.
fn sides<L: Disk>(rt: &impl Abort, alloc: Global, number: u8) -> Sides<Loan<L>>
    ensures { result.number ≡ number }
{
    Sides::new(alloc, number).expect(rt, "memory")
}

// What a member is made of: a disk, and the sides of its loans.
pub(crate) struct Parts<D: HalvedDisk> {
    disk: D,
    sides: Sides<Loan<D::Log>>,
}

// The last of the seats.
pub(crate) fn take_seat(rt: &impl Abort, board: &Board, seats: &mut Vec<Seat>) -> Seat
    requires { All (IsNewSeat board.now) seats.old.items }
    ensures rest { All (IsNewSeat board.now) seats.new.items }
    ensures seat { result.board ≡ board.now }
{
    seats.pop().expect(rt, "a seat")
}

// The sizes of the volume.
pub(crate) fn sizes(rt: &impl Abort) -> Geometry {
    Geometry::new(8, 8_214, 4_096).expect(rt, "a geometry")
}

// The member at a slot, over a disk that is formatted for it.
pub(crate) fn seated<D: HalvedDisk + Drop, J: Agreed>(
    rt: &impl Abort,
    alloc: Global,
    board: &Board,
    seat: Seat,
    number: u8,
    parts: Parts<D>,
    chain: Record,
) -> Seated<D, J>
    requires ring { IsOf (J.ring parts.sides.number) parts.sides.lender.end }
    requires board { J.board ≡ Some board.now }
    requires seat { seat.board ≡ board.now }
    requires size { J.size ≡ 32768 }
{
    let Parts { disk, sides } = parts;
    let geometry = sizes(rt);
    assert!(rt; geometry.blocks == 8);
    assert!(rt; disk.len() >= disk_size(geometry));
    let Ok(store) = Store::format(alloc, disk, slot(rt, number), 1, geometry) else {
        panic!(rt; "no store")
    };
    let (lender, borrower) = sides.named();
    let store: LendingStore<D, J> = LendingStore::of(store, lender, borrower);
    let node = Node::new(alloc, board, chain, store);
    Seated::new(Member::new(alloc, node), seat)
}

// The place of a write: the callers' bytes stand side by side.
pub(crate) fn place_of(caller: u64, cookie: u64) -> u64
    requires caller { caller ≤ 7 }
    requires cookie { cookie ≤ 200 }
    ensures { result + 1 ≤ 32768 }
{
    8 * cookie + caller
}

// Waits for the next reply of a session.
fn answered<R: Wait>(
    rt: &R,
    alloc: Global,
    mailbox: &Mailbox,
    session: SessionId,
) -> Option<Reply> {
    for _ in rt.forever() {
        let count = mailbox.bell().count(rt);
        let mut replies = mailbox.take(rt, alloc, session);
        if let Some(served) = replies.pop() {
            return Some(served.reply());
        }
        if mailbox.bell().wait_past(rt, count) {
            break;
        }
    }
    None
}

// Asks, and waits for the reply.
pub(crate) fn ask<R: Wait, V: Volume>(
    rt: &R,
    alloc: Global,
    volume: &V,
    slot: Slot,
    session: SessionId,
    demand: Demand,
) -> Option<Reply>
    requires { IsForVolume V.board V.size demand }
{
    let Ok(mut demands) = Vec::with_capacity(alloc, 1) else {
        abandon(demand);
        return None;
    };
    demands.push_reserved(demand);
    let refused = volume.send(rt, slot, &mut demands);
    demands.destroy_empty();
    match refused {
        Some(_) => None,
        None => answered(rt, alloc, volume.mail().of(session), session),
    }
}

// Its reply isn't owed any more.
fn abandon(demand: Demand) {
    match demand {
        Demand::Read {
            token,
            offset: _,
            length: _,
        } => token.abandon(),
        Demand::Write { token, write: _ } => token.abandon(),
        Demand::Fua { token, write: _ } => token.abandon(),
        Demand::Flush { token } => token.abandon(),
    }
}

// Writes so many bytes with FUA, one after another, and then flushes: how many requests were carried out.
fn write_all<R: Wait, V: Volume>(rt: &R, alloc: Global, volume: &V, number: u8) -> u64
    requires { number ≤ 7 }
{
    let session = SessionId(u64::from(number));
    let Some(slot) = Slot::new(number) else {
        return 0;
    };
    if volume.size() != SIZE {
        return 0;
    }
    volume.mail().of(session).hold(rt, alloc, Some(session));
    let mut done = 0;
    for cookie in 0..WRITES {
        let token = OwedFua::new(&BoardName::of(volume.board()), session, cookie);
        let Ok(payload) = Bytes::copy_from_slice(alloc, &[byte_of(cookie)]) else {
            token.abandon();
            break;
        };
        let write = Write::new(place_of(u64::from(number), cookie), payload);
        match ask(
            rt,
            alloc,
            volume,
            slot,
            session,
            Demand::Fua { token, write },
        ) {
            Some(reply) if reply.error().is_none() => done = u64::saturating_add(done, 1),
            _ => break,
        }
    }
    let token = OwedFlush::new(&BoardName::of(volume.board()), session, WRITES);
    match ask(rt, alloc, volume, slot, session, Demand::Flush { token }) {
        Some(reply) if reply.error().is_none() => done.saturating_add(1),
        _ => done,
    }
}

// What the write under a cookie writes.
pub(crate) fn byte_of(cookie: u64) -> u8 {
    (cookie % 251) as u8 + 1
}

// Reads back what all callers wrote, at one member: how many bytes are right.
fn read_all<R: Wait, V: Volume>(rt: &R, alloc: Global, volume: &V) -> u64 {
    let session = SessionId(3);
    let Some(slot) = Slot::new(1) else {
        return 0;
    };
    if volume.size() != SIZE {
        return 0;
    }
    volume.mail().of(session).hold(rt, alloc, Some(session));
    let mut right = 0;
    for caller in [0, 1, 2] {
        for cookie in 0..WRITES {
            let token = OwedRead::new(&BoardName::of(volume.board()), session, cookie);
            let offset = place_of(caller, cookie);
            let demand = Demand::Read {
                token,
                offset,
                length: 1,
            };
            match ask(rt, alloc, volume, slot, session, demand) {
                Some(reply) if reply.payload() == [byte_of(cookie)].as_slice() => right =
                    u64::saturating_add(right, 1),
                _ => {}
            }
        }
    }
    right
}

// Two callers write at once: how many requests were carried out.
fn write_two<R: Threads + Wait + Sync, V: Volume + Sync>(rt: &R, alloc: Global, volume: &V) -> u64 {
    let (second, third) = join(
        rt,
        || write_all(rt, alloc, volume, 1),
        || write_all(rt, alloc, volume, 2),
    );
    second.saturating_add(third)
}

// Three callers write at once, each at its member, and then another reads: how many requests were carried out.
fn ask_all<R: Threads + Wait + Sync, V: Volume + Sync>(rt: &R, alloc: Global, volume: &V) -> u64 {
    let (first, others) = join(
        rt,
        || write_all(rt, alloc, volume, 0),
        || write_two(rt, alloc, volume),
    );
    first
        .saturating_add(others)
        .saturating_add(read_all(rt, alloc, volume))
}

fn ask_if<R: Threads + Wait + Sync, V: Volume + Sync>(
    started: bool,
    rt: &R,
    alloc: Global,
    volume: &V,
) -> u64 {
    if started {
        ask_all(rt, alloc, volume)
    } else {
        0
    }
}

// The callers ask while the members commit.
fn play<R: Threads + Wait + Sync, W: Crew + Volume + Sync>(
    rt: &R,
    alloc: Global,
    chain: &W,
) -> u64 {
    thread::scope(thread::scope_env(), rt, |scope| -> u64 {
        let started = start_all(scope, rt, chain).is_ok();
        let done = ask_if(started, rt, alloc, chain);
        chain.close(rt);
        done
    })
}

// A new disk in a file, and the sides of its loans.
pub(crate) fn new_parts<R: Files<File = File> + AllocGlobal + Abort>(
    rt: &R,
    folder: &str,
    number: u8,
) -> Parts<FileDisk>
    ensures { result.sides.number ≡ number }
{
    let path = format!(in rt.alloc(); "{folder}/slot{number}.disk").expect(rt, "memory");
    let disk = FileDisk::create(rt, path.as_str(), disk_size(sizes(rt)));
    Parts {
        disk: disk.expect(rt, "a new file"),
        sides: sides(rt, rt.alloc(), number),
    }
}

#[test]
fn three_members_commit_at_once(rt: HostRuntime) {
    let alloc = rt.alloc();
    let id = process::id(rt.process());
    let folder = format!(in alloc; "/tmp/chain_tests.members.{id}").expect(&rt, "memory");
    fs::create_dir(&rt, folder.as_str()).expect(&rt, "a new folder");
    let (board, seats) = Board::new(alloc, 0, 0b111, [0; Board::SLOTS], 3).expect(&rt, "memory");
    let (first, second, third) = (
        new_parts(&rt, folder.as_str(), 0),
        new_parts(&rt, folder.as_str(), 1),
        new_parts(&rt, folder.as_str(), 2),
    );
    played::<_, Brand, _>(&rt, alloc, board, seats, first, second, third);
    fs::remove_dir_all(&rt, folder.as_str()).expect(&rt, "the folder is removed");
}

// The calls of three callers who write, and of one who reads, while three members commit. Each disk has all of it.
fn played<D: HalvedDisk + Drop + Send, J: Agreed + Send, R: Abort + Threads + Wait + Sync>(
    rt: &R,
    alloc: Global,
    board: Board,
    seats: Vec<Seat>,
    first: Parts<D>,
    second: Parts<D>,
    third: Parts<D>,
)
where
    D::Log: Send,
    D::Past: Send,
    requires first { IsOf (J.ring first.sides.number) first.sides.lender.end }
    requires second { IsOf (J.ring second.sides.number) second.sides.lender.end }
    requires third { IsOf (J.ring third.sides.number) third.sides.lender.end }
    requires board { J.board ≡ Some board }
    requires size { J.size ≡ 32768 }
    requires seats { All (IsNewSeat board) seats.items }
{
    let mut seats = seats;
    let (a, b, c) = (
        take_seat(rt, &board, &mut seats),
        take_seat(rt, &board, &mut seats),
        take_seat(rt, &board, &mut seats),
    );
    let first = seated(rt, alloc, &board, a, 0, first, three(rt, alloc));
    let second = seated(rt, alloc, &board, b, 1, second, three(rt, alloc));
    let third = seated(rt, alloc, &board, c, 2, third, three(rt, alloc));
    let mail = MailRoom::new(alloc, 4).expect(rt, "memory");
    let mut cluster: Cluster<D, J> = Cluster::new(alloc, board, SIZE, mail).expect(rt, "memory");
    sit(rt, &mut cluster, 0, first);
    sit(rt, &mut cluster, 1, second);
    sit(rt, &mut cluster, 2, third);
    same(rt, play(rt, alloc, &cluster), 6 * WRITES + 3);
    for number in 0..3 {
        let disk = taken(rt, &mut cluster, number);
        has_all(rt, alloc, disk, number);
    }
    cluster.end();
}

// Seats a member at an empty slot.
pub(crate) fn sit<D: HalvedDisk + Drop, J: Agreed>(
    rt: &impl Abort,
    cluster: &mut Cluster<D, J>,
    number: u8,
    seated: Seated<D, J>,
) {
    if let Some(other) = cluster.seat(slot(rt, number), seated) {
        let _ = other.end();
        panic!(rt; "a member sat there")
    }
}

// The disk of the member at a slot.
pub(crate) fn taken<D: HalvedDisk + Drop, J: Agreed>(
    rt: &impl Abort,
    cluster: &mut Cluster<D, J>,
    number: u8,
) -> D {
    let Some(seated) = cluster.unseat(slot(rt, number)) else {
        panic!(rt; "no member")
    };
    let (store, _) = seated.end();
    let (disk, _, _) = store.into_parts();
    disk
}

// The disk has what all callers wrote.
fn has_all<D: Disk + Drop>(rt: &impl Abort, alloc: Global, disk: D, number: u8) {
    let Ok(mut store) = Store::open(alloc, disk) else {
        panic!(rt; "no store")
    };
    same(
        rt,
        (store.slot().number(), store.front()),
        (number, 3 * WRITES),
    );
    let mut bytes = [0; 4_096];
    assert!(rt; store.geometry().blocks == 8);
    store.read_block(0, &mut bytes).expect(rt, "a block");
    for cookie in 0..WRITES {
        for caller in [0, 1, 2] {
            let at = place_of(caller, cookie) as usize;
            same_at(rt, bytes.get(at).copied(), Some(byte_of(cookie)), cookie);
        }
    }
}
