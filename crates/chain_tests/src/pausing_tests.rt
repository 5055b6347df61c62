//! Members that work at the same time: threads that wait for one another where they stand.
ghost use Rattle.std.specs.Prelude.{◌≡◌, ◌≤◌, All, Some};
ghost use Rattle.board.specs.Seats.{IsNewSeat};
ghost use Rattle.loans.specs.Rings.{IsOf};

use crate::cluster_tests::{
    Parts, ask, byte_of, new_parts, place_of, seated, sit, slot, take_seat, taken, three,
};
use crate::comparing::same;
use board::{Board, Seat};
use bytes::Bytes;
use cluster::{Cluster, Crew, Pause, Point};
use disk_model::HalvedDisk;
use export::Volume;
use flush_barrier::{BoardName, OwedFua, OwedRead, OwedWrite, SessionId};
use gate_journal::Slot;
use mail::MailRoom;
use member::Agreed;
use nbd_session::Demand;
use std::alloc::Global;
use std::fs;
use std::marker::Brand;
use std::process::{self, Abort};
use std::sync::{Mutex, Wait};
use std::thread::{self, Scope, Threads, join};
use volume::Write;

// How many turns a thread waits at most.
const TURNS: u32 = 1_000_000;

// The bytes of the volume: 8 blocks.
const SIZE: u64 = 32_768;

// What threads tell one another: who has come, and whether one waited in vain.
#[derive(Drop)]
struct Told {
    come: [bool; 8],
    missed: bool,
}

// Where threads wait for one another.
#[derive(Drop)]
struct Meeting {
    told: Mutex<Told>,
}

impl Meeting {
    fn new() -> Meeting {
        Meeting {
            told: Mutex::new(Told {
                come: [false; 8],
                missed: false,
            }),
        }
    }

    // This one has come.
    fn come<R: Wait>(&self, rt: &R, number: u8) {
        if let Some(come) = self.told.lock(rt).come.get_mut(usize::from(number)) {
            *come = true;
        }
    }

    // Whether it has come.
    fn has_come<R: Wait>(&self, rt: &R, number: u8) -> bool {
        self.told.lock(rt).come.get(usize::from(number)).copied() == Some(true)
    }

    // Waits until it has come, so many turns at most.
    fn wait_for<R: Wait>(&self, rt: &R, number: u8) {
        for _ in 0..TURNS {
            if self.has_come(rt, number) {
                return;
            }
            thread::yield_now();
        }
        self.told.lock(rt).missed = true;
    }

    // Whether nobody waited in vain.
    fn all_met<R: Wait>(&self, rt: &R) -> bool {
        !self.told.lock(rt).missed
    }
}

// Who commits at the slots 1 and 2 waits until the other is there too.
#[derive(Drop)]
struct BothCommit {
    meeting: Meeting,
}

impl Pause for BothCommit {
    fn at<R: Wait>(&self, rt: &R, point: Point) {
        let Point::Committing(place) = point else {
            return;
        };
        let own = place.number();
        if own == 1 || own == 2 {
            self.meeting.come(rt, own);
            self.meeting.wait_for(rt, 3 - own);
        }
    }
}

// Who is about to deliver to slot 1 waits until the reads at the slots 0 and 2 were answered.
#[derive(Drop)]
struct HeldBack {
    meeting: Meeting,
}

impl Pause for HeldBack {
    fn at<R: Wait>(&self, rt: &R, point: Point) {
        if let Point::Delivering(place) = point
            && place.number() == 1
        {
            self.meeting.wait_for(rt, 0);
            self.meeting.wait_for(rt, 2);
        }
    }
}

// A write to block 0 at slot 0.
trait Writes {
    // Makes it, and pauses at its points: whether a member took it.
    fn write_pausing<R: Wait, P: Pause>(&self, rt: &R, alloc: Global, pause: &P) -> bool;
}

impl<D: HalvedDisk + Drop, J: Agreed> Writes for Cluster<D, J> {
    fn write_pausing<R: Wait, P: Pause>(&self, rt: &R, alloc: Global, pause: &P) -> bool {
        let session = SessionId(0);
        let Some(slot) = Slot::new(0) else {
            return false;
        };
        if self.size() != SIZE {
            return false;
        }
        let Ok(mut demands) = Vec::with_capacity(alloc, 1) else {
            return false;
        };
        let Ok(payload) = Bytes::copy_from_slice(alloc, &[byte_of(0)]) else {
            demands.destroy_empty();
            return false;
        };
        let token = OwedWrite::new(&BoardName::of(self.board()), session, 0);
        let write = Write::new(place_of(0, 0), payload);
        demands.push_reserved(Demand::Write { token, write });
        let refused = self.take_pausing(rt, slot, &mut demands, pause);
        demands.destroy_empty();
        refused.is_none()
    }
}

// Commits at a slot, with the pause.
fn commit<R: Wait, W: Crew, P: Pause>(rt: &R, chain: &W, number: u8, pause: &P) {
    if let Some(place) = Slot::new(number) {
        chain.commit_at(rt, place, pause);
    }
}

fn start<'s, E, R: Threads + Wait + Sync, W: Crew + Sync, P: Pause + Sync>(
    scope: &Scope<'s, E>,
    rt: &'s R,
    chain: &'s W,
    number: u8,
    pause: &'s P,
) -> bool {
    scope
        .spawn(move || commit(rt, chain, number, pause))
        .is_ok()
}

// Makes a write with FUA at slot 0: whether it was carried out.
fn write_if<R: Wait, V: Volume>(started: bool, rt: &R, alloc: Global, volume: &V) -> bool {
    let session = SessionId(0);
    let Some(slot) = Slot::new(0) else {
        return false;
    };
    if !started || volume.size() != SIZE {
        return false;
    }
    volume.mail().of(session).hold(rt, alloc, Some(session));
    let Ok(payload) = Bytes::copy_from_slice(alloc, &[byte_of(0)]) else {
        return false;
    };
    let token = OwedFua::new(&BoardName::of(volume.board()), session, 0);
    let write = Write::new(place_of(0, 0), payload);
    match ask(
        rt,
        alloc,
        volume,
        slot,
        session,
        Demand::Fua { token, write },
    ) {
        Some(reply) => reply.error().is_none(),
        None => false,
    }
}

// A write with FUA while three members commit, with the pause: whether it was carried out.
fn write_meanwhile<R: Threads + Wait + Sync, W: Crew + Volume + Sync, P: Pause + Sync>(
    rt: &R,
    alloc: Global,
    chain: &W,
    pause: &P,
) -> bool {
    thread::scope(thread::scope_env(), rt, |scope| -> bool {
        let started = [
            start(scope, rt, chain, 0, pause),
            start(scope, rt, chain, 1, pause),
            start(scope, rt, chain, 2, pause),
        ];
        let done = write_if(started == [true; 3], rt, alloc, chain);
        chain.close(rt);
        done
    })
}

// Reads a byte of block 1 at a slot, and tells that it was answered.
fn read_at<R: Wait, V: Volume>(rt: &R, alloc: Global, volume: &V, number: u8, meeting: &Meeting) {
    let session = SessionId(u64::from(number) + 1);
    let Some(slot) = Slot::new(number) else {
        return;
    };
    if volume.size() != SIZE {
        return;
    }
    volume.mail().of(session).hold(rt, alloc, Some(session));
    let demand = Demand::Read {
        token: OwedRead::new(&BoardName::of(volume.board()), session, 0),
        offset: 4_096,
        length: 1,
    };
    if let Some(reply) = ask(rt, alloc, volume, slot, session, demand)
        && reply.payload() == [0].as_slice()
    {
        meeting.come(rt, number);
    }
}

// A write whose message to slot 1 is held back until reads at the slots 0 and 2 were answered: whether it was carried out.
fn read_meanwhile<R: Threads + Wait + Sync, W: Writes + Volume + Sync>(
    rt: &R,
    alloc: Global,
    chain: &W,
    held: &HeldBack,
) -> bool {
    let session = SessionId(0);
    chain.mail().of(session).hold(rt, alloc, Some(session));
    let (taken, _) = join(
        rt,
        || chain.write_pausing(rt, alloc, held),
        || {
            read_at(rt, alloc, chain, 0, &held.meeting);
            read_at(rt, alloc, chain, 2, &held.meeting);
        },
    );
    let mut replies = chain.mail().of(session).take(rt, alloc, session);
    match replies.pop() {
        Some(served) => taken && served.reply().error().is_none(),
        None => false,
    }
}

#[test]
fn serial_workers(rt: HostRuntime) {
    let alloc = rt.alloc();
    let id = process::id(rt.process());
    let folder = format!(in alloc; "/tmp/chain_tests.pausing.{id}").expect(&rt, "memory");
    fs::create_dir(&rt, folder.as_str()).expect(&rt, "a new folder");
    let (board, seats) = Board::new(alloc, 0, 0b111, [0; Board::SLOTS], 3).expect(&rt, "memory");
    let (first, second, third) = (
        new_parts(&rt, folder.as_str(), 0),
        new_parts(&rt, folder.as_str(), 1),
        new_parts(&rt, folder.as_str(), 2),
    );
    paused::<_, Brand, _>(&rt, alloc, board, seats, first, second, third);
    fs::remove_dir_all(&rt, folder.as_str()).expect(&rt, "the folder is removed");
}

// While the message of a first write is held back at slot 1, the slots 0 and 2 answer reads. And the slots 1 and 2 commit a write at the
// same time.
fn paused<D: HalvedDisk + Drop + Send, J: Agreed + Send, R: Abort + Threads + Wait + Sync>(
    rt: &R,
    alloc: Global,
    board: Board,
    seats: Vec<Seat>,
    first: Parts<D>,
    second: Parts<D>,
    third: Parts<D>,
)
where
    D::Log: Send,
    D::Past: Send,
    requires first { IsOf (J.ring first.sides.number) first.sides.lender.end }
    requires second { IsOf (J.ring second.sides.number) second.sides.lender.end }
    requires third { IsOf (J.ring third.sides.number) third.sides.lender.end }
    requires board { J.board ≡ Some board }
    requires size { J.size ≡ 32768 }
    requires seats { All (IsNewSeat board) seats.items }
{
    let mut seats = seats;
    let (a, b, c) = (
        take_seat(rt, &board, &mut seats),
        take_seat(rt, &board, &mut seats),
        take_seat(rt, &board, &mut seats),
    );
    let first = seated(rt, alloc, &board, a, 0, first, three(rt, alloc));
    let second = seated(rt, alloc, &board, b, 1, second, three(rt, alloc));
    let third = seated(rt, alloc, &board, c, 2, third, three(rt, alloc));
    let mail = MailRoom::new(alloc, 4).expect(rt, "memory");
    let mut cluster: Cluster<D, J> = Cluster::new(alloc, board, SIZE, mail).expect(rt, "memory");
    sit(rt, &mut cluster, 0, first);
    sit(rt, &mut cluster, 1, second);
    sit(rt, &mut cluster, 2, third);
    let held = HeldBack {
        meeting: Meeting::new(),
    };
    same(rt, read_meanwhile(rt, alloc, &cluster, &held), true);
    same(rt, held.meeting.all_met(rt), true);
    let both = BothCommit {
        meeting: Meeting::new(),
    };
    same(rt, write_meanwhile(rt, alloc, &cluster, &both), true);
    same(rt, both.meeting.all_met(rt), true);
    for number in 0..3 {
        drop(taken(rt, &mut cluster, number));
    }
    cluster.end();
}
