//! A chain that members join and leave, over disks in files, while clients ask.
ghost use Rattle.std.specs.Prelude.{◌≡◌, ◌+◌, ◌≤◌};
ghost use Rattle.chain_core.specs.Node.{IsRunning};
ghost use Rattle.configurations.specs.Store.{IsSettledConfig};

use crate::cluster_tests::{ask, byte_of, place_of, sizes, slot};
use crate::comparing::same;
use bytes::Bytes;
use chain_steps::Cause;
use cluster::{Crew, Witness};
use configurations::{ConfigStore, Epoch, Incarnation, Member as Recorded, Record};
use disk_model::{Disk, FileDisk, Part};
use export::Volume;
use flush_barrier::{BoardName, OwedFua, OwedRead, SessionId};
use gate_journal::{PAIR_SIZE, Slot};
use home_blocks::disk_size;
use local_store::{Store, StoreLike};
use managing::{Host, Unrecorded};
use nbd_session::Demand;
use serving::{Play, Source, run};
use std::alloc::Global;
use std::fs::{self, File, Files};
use std::process::{self, Abort};
use std::sync::{Mutex, Wait};
use std::thread::{self, Threads};
use volume::Write;

// How many writes the client makes before the head stops, and after it.
const HALF: u64 = 50;

// How often the client looks at most.
const TURNS: u64 = 1_000_000;

// The client: how many of its requests were carried out.
#[derive(Drop)]
struct Client {
    alloc: Global,
    done: Mutex<u64>,
}

impl Play for Client {
    fn play<R: Threads + Wait + Sync, W: Crew + Volume + Sync>(&self, rt: &R, chain: &W) {
        let session = SessionId(0);
        if chain.size() != 32_768 {
            return;
        }
        chain.mail().of(session).hold(rt, self.alloc, Some(session));
        let mut done = self.write_some(rt, chain, 0, 0);
        done = done.saturating_add(self.wait_for(rt, chain, 1));
        done = done.saturating_add(self.wait_for(rt, chain, 2));
        stop(rt, chain, 0);
        done = done.saturating_add(self.write_some(rt, chain, 1, HALF));
        done = done.saturating_add(self.read_all(rt, chain, 2));
        *self.done.lock(rt) = done;
    }
}

impl Client {
    // Writes half of the bytes with FUA, from a cookie on, each until it is carried out: how many were.
    fn write_some<R: Wait, V: Volume>(&self, rt: &R, chain: &V, number: u8, from: u64) -> u64
        requires { from + HALF ≤ 100 }
    {
        let mut done = 0;
        for cookie in from..from + HALF {
            for _ in 0..TURNS {
                if self.write_one(rt, chain, number, cookie) {
                    done = u64::saturating_add(done, 1);
                    break;
                }
                thread::yield_now();
            }
        }
        done
    }

    // Writes one byte with FUA. Whether that was carried out.
    fn write_one<R: Wait, V: Volume>(&self, rt: &R, chain: &V, number: u8, cookie: u64) -> bool
        requires { cookie ≤ 100 }
    {
        let session = SessionId(0);
        let Some(slot) = Slot::new(number) else {
            return false;
        };
        if chain.size() != 32_768 {
            return false;
        }
        let token = OwedFua::new(&BoardName::of(chain.board()), session, cookie);
        let Ok(payload) = Bytes::copy_from_slice(self.alloc, &[byte_of(cookie)]) else {
            token.abandon();
            return false;
        };
        let write = Write::new(place_of(0, cookie), payload);
        let demand = Demand::Fua { token, write };
        match ask(rt, self.alloc, chain, slot, session, demand) {
            Some(reply) => reply.error().is_none(),
            None => false,
        }
    }

    // Reads one byte, under a cookie. None where that wasn't carried out.
    fn read_one<R: Wait, V: Volume>(&self, rt: &R, chain: &V, number: u8, cookie: u64) -> Option<u8>
        requires { cookie ≤ 100 }
    {
        let session = SessionId(0);
        let slot = Slot::new(number)?;
        if chain.size() != 32_768 {
            return None;
        }
        let token = OwedRead::new(&BoardName::of(chain.board()), session, cookie);
        let demand = Demand::Read {
            token,
            offset: place_of(0, cookie),
            length: 1,
        };
        let reply = ask(rt, self.alloc, chain, slot, session, demand)?;
        reply.payload().first().copied()
    }

    // Waits until a member sits at a slot: 1 where one does.
    fn wait_for<R: Wait, V: Volume>(&self, rt: &R, chain: &V, number: u8) -> u64 {
        for _ in 0..TURNS {
            if self.read_one(rt, chain, number, 0) == Some(byte_of(0)) {
                return 1;
            }
            thread::yield_now();
        }
        0
    }

    // Reads all back: how many bytes are right.
    fn read_all<R: Wait, V: Volume>(&self, rt: &R, chain: &V, number: u8) -> u64 {
        let mut right = 0;
        for cookie in 0..2 * HALF {
            if self.read_one(rt, chain, number, cookie) == Some(byte_of(cookie)) {
                right = u64::saturating_add(right, 1);
            }
        }
        right
    }
}

// Stops the member at a slot.
fn stop<R: Wait, W: Crew>(rt: &R, chain: &W, number: u8) {
    if let Some(slot) = Slot::new(number) {
        let _ = chain.stop_at(rt, slot);
    }
}

// Where the disks are, and what the manager did: joinings, removals, and anything else.
#[derive(Drop)]
struct Folder<'r, R> {
    rt: &'r R,
    path: &'r str,
    len: u64,
    joined: u64,
    removed: u64,
    others: u64,
}

impl<'r, R: Abort> Folder<'r, R> {
    fn new(rt: &'r R, path: &'r str) -> Folder<'r, R> {
        Folder {
            rt,
            path,
            len: disk_size(sizes(rt)),
            joined: 0,
            removed: 0,
            others: 0,
        }
    }
}

impl<'r, R> Witness<FileDisk> for Folder<'r, R> {
    fn note_stop(&mut self, _: Slot, _: Cause, _: &FileDisk) {}
}

impl<'r, R: Files<File = File> + AllocGlobal> Host<FileDisk> for Folder<'r, R> {
    fn wanted(&mut self) -> Option<Slot> {
        None
    }

    fn disk(&mut self, slot: Slot) -> Option<FileDisk> {
        let (path, number) = (self.path, slot.number());
        let path = format!(in self.rt.alloc(); "{path}/slot{number}.disk").ok()?;
        FileDisk::create(self.rt, path.as_str(), self.len).ok()
    }

    fn note_removal(&mut self, _: Slot) {
        self.removed = self.removed.saturating_add(1);
    }

    fn note_joining(&mut self, _: Slot) {
        self.joined = self.joined.saturating_add(1);
    }

    fn note_member(&mut self, _: Slot) {
        self.others = self.others.saturating_add(1);
    }

    fn note_failure(&mut self, _: Slot, _: bool) {
        self.others = self.others.saturating_add(1);
    }

    fn note_end(&mut self) {
        self.others = self.others.saturating_add(1);
    }

    fn note_unrecorded(&mut self, _: Unrecorded) {
        self.others = self.others.saturating_add(1);
    }
}

// The disk of slot 0, which is formatted, and the record of it alone.
fn new_source<R: Files<File = File> + AllocGlobal + Abort>(
    rt: &R,
    folder: &str,
) -> Source<FileDisk, FileDisk>
    ensures runs { IsRunning (⟦<Store<FileDisk> as StoreLike>⟧.about result.store) (record { premise = ⟦<FileDisk as Disk>⟧.keeps_model; keeps = ⟦<Store<FileDisk> as StoreLike>⟧.keeps result.store }) }
    ensures pair { result.config.pair.part.len ≡ PAIR_SIZE }
    ensures on_disk { result.config.pair.part.start + result.config.pair.part.len ≤ ⟦<FileDisk as Disk>⟧.size result.disk }
    ensures settled { ⟦<FileDisk as Disk>⟧.keeps_model → IsSettledConfig result.config (⟦<FileDisk as Disk>⟧.gives result.disk) (⟦<FileDisk as Disk>⟧.may_leave_now result.disk) }
{
    let alloc = rt.alloc();
    let path = format!(in alloc; "{folder}/slot0.disk").expect(rt, "memory");
    let geometry = sizes(rt);
    let disk = FileDisk::create(rt, path.as_str(), disk_size(geometry)).expect(rt, "a new file");
    assert!(rt; disk.len() >= disk_size(geometry));
    let Ok(store) = Store::format(alloc, disk, slot(rt, 0), 1, geometry) else {
        panic!(rt; "no store")
    };
    let path = format!(in alloc; "{folder}/config.disk").expect(rt, "memory");
    let mut disk = FileDisk::create(rt, path.as_str(), PAIR_SIZE).expect(rt, "a new file");
    assert!(rt; disk.len() >= PAIR_SIZE);
    let part = Part::new(0, PAIR_SIZE);
    let config = ConfigStore::create(alloc, &mut disk, part, alone(rt, alloc));
    Source {
        store,
        config: config.expect(rt, "a record"),
        disk,
    }
}

// The chain of slot 0.
pub(crate) fn alone(rt: &impl Abort, alloc: Global) -> Record {
    let mut members = Vec::new(alloc);
    let incarnation = Incarnation::new(1).expect(rt, "an incarnation");
    let slot = slot(rt, 0);
    members
        .push(Recorded { slot, incarnation })
        .expect(rt, "memory");
    let epoch = Epoch::new(1).expect(rt, "an epoch");
    Record::new(epoch, members).expect(rt, "a chain")
}

// How many bytes that the client wrote the disk of a slot has.
fn held<R: Files<File = File> + AllocGlobal + Abort>(rt: &R, folder: &str, number: u8) -> u64 {
    let alloc = rt.alloc();
    let path = format!(in alloc; "{folder}/slot{number}.disk").expect(rt, "memory");
    let disk = FileDisk::open(rt, path.as_str()).expect(rt, "a file");
    let Ok(mut store) = Store::open(alloc, disk) else {
        panic!(rt; "no store")
    };
    let mut bytes = [0; 4_096];
    assert!(rt; store.geometry().blocks == 8);
    store.read_block(0, &mut bytes).expect(rt, "a block");
    let mut right = 0;
    for cookie in 0..2 * HALF {
        if bytes.get(place_of(0, cookie) as usize).copied() == Some(byte_of(cookie)) {
            right = u64::saturating_add(right, 1);
        }
    }
    right
}

#[test]
fn members_join_and_leave_while_a_client_writes(rt: HostRuntime) {
    let alloc = rt.alloc();
    let id = process::id(rt.process());
    let folder = format!(in alloc; "/tmp/chain_tests.serving.{id}").expect(&rt, "memory");
    fs::create_dir(&rt, folder.as_str()).expect(&rt, "a new folder");
    let source = new_source(&rt, folder.as_str());
    let host = Folder::new(&rt, folder.as_str());
    let client = Client {
        alloc,
        done: Mutex::new(0),
    };
    let wanted = [slot(&rt, 1), slot(&rt, 2)];
    let Ok(host) = run(&rt, alloc, source, host, &wanted, &client) else {
        panic!(&rt; "the chain doesn't begin")
    };
    same(&rt, (host.joined, host.removed, host.others), (2, 1, 0));
    let Client { alloc: _, done } = client;
    same(&rt, done.into_inner(), 4 * HALF + 2);
    for number in 1..3 {
        same(&rt, held(&rt, folder.as_str(), number), 2 * HALF);
    }
    fs::remove_dir_all(&rt, folder.as_str()).expect(&rt, "the folder is removed");
}
