// One run through all the steps, worked out by hand, and steps that may not be taken.
use crate::comparing::{same, same_at};
use bytes::Bytes;
use flush_barrier::SessionId;
use std::alloc::Global;
use std::process::Abort;
use volume::Write;
use world_model::{Machine, Request};

const SIZE: usize = 8;

const ONE: SessionId = SessionId(1);

const TWO: SessionId = SessionId(2);

fn write_of(rt: &impl Abort, alloc: Global, offset: u64, bytes: &[u8]) -> Write {
    let payload = Bytes::copy_from_slice(alloc, bytes).expect(rt, "memory");
    Write::new(offset, payload)
}

fn send(
    rt: &impl Abort,
    machine: &mut Machine,
    session: SessionId,
    cookie: u64,
    request: Request,
) -> u64 {
    assert!(rt; !machine.is_full());
    machine.send(session, cookie, request).expect(rt, "memory")
}

fn take(rt: &impl Abort, machine: &mut Machine, name: u64) -> bool {
    machine.take(name).expect(rt, "memory")
}

fn answer_write(rt: &impl Abort, machine: &mut Machine, name: u64, place: usize) -> bool {
    assert!(rt; !machine.is_full());
    machine.answer_write(name, place)
}

fn answer_fua(rt: &impl Abort, machine: &mut Machine, name: u64, place: usize) -> bool {
    assert!(rt; !machine.is_full());
    machine.answer_fua(name, place)
}

fn answer_flush(rt: &impl Abort, machine: &mut Machine, name: u64) -> bool {
    assert!(rt; !machine.is_full());
    machine.answer_flush(name)
}

fn refuse(rt: &impl Abort, machine: &mut Machine, name: u64) -> bool {
    assert!(rt; !machine.is_full());
    machine.refuse(name)
}

fn answer_read(rt: &impl Abort, machine: &mut Machine, name: u64, front: usize) -> Option<Vec<u8>> {
    assert!(rt; !machine.is_full());
    machine.answer_read(SIZE, name, front).expect(rt, "memory")
}

// Three bytes at 2.
fn a_plain_write(rt: &impl Abort, alloc: Global, machine: &mut Machine) {
    let first = write_of(rt, alloc, 2, &[1, 2, 3]);
    let first = send(rt, machine, ONE, 70, Request::write(first));
    same(rt, first, 0);
    assert!(rt; !answer_write(rt, machine, first, 1), "before it is taken");
    assert!(rt; take(rt, machine, first));
    assert!(rt; !take(rt, machine, first), "twice");
    assert!(rt; !answer_fua(rt, machine, first, 1), "as FUA");
    assert!(rt; !answer_write(rt, machine, first, 2), "at another place");
    assert!(rt; answer_write(rt, machine, first, 1));
    assert!(rt; !answer_write(rt, machine, first, 1), "twice");
}

// Over them two at 4, with FUA.
fn a_write_with_fua(rt: &impl Abort, alloc: Global, machine: &mut Machine) {
    let read = send(rt, machine, TWO, 70, Request::read(1, 6));
    let second = write_of(rt, alloc, 4, &[4, 5]);
    let second = send(rt, machine, ONE, 71, Request::fua(second));
    assert!(rt; take(rt, machine, second));
    same_at(
        rt,
        answer_read(rt, machine, read, 0),
        None,
        "below its mark",
    );
    same_at(
        rt,
        answer_read(rt, machine, read, 3),
        None,
        "past the writes",
    );
    let bytes = answer_read(rt, machine, read, 2).expect(rt, "bytes");
    same(rt, bytes.as_slice(), [0, 1, 2, 4, 5, 0].as_slice());
    assert!(rt; answer_fua(rt, machine, second, 2));
}

// One at 0, which a restart loses.
fn a_restart(rt: &impl Abort, alloc: Global, machine: &mut Machine) {
    let third = write_of(rt, alloc, 0, &[9]);
    let third = send(rt, machine, TWO, 71, Request::write(third));
    assert!(rt; take(rt, machine, third));
    assert!(rt; !machine.restart(1), "below what is owed");
    assert!(rt; !machine.restart(4), "past the writes");
    assert!(rt; machine.restart(2));
    assert!(rt; !answer_write(rt, machine, third, 3), "over a restart");
    let read = send(rt, machine, TWO, 72, Request::read(0, 9));
    let bytes = answer_read(rt, machine, read, 2).expect(rt, "bytes");
    same(rt, bytes.as_slice(), [0, 0, 1, 2, 4, 5, 0, 0].as_slice());
}

#[test]
fn all_steps(rt: HostRuntime) {
    let alloc = rt.alloc();
    let mut machine = Machine::new(alloc);
    a_plain_write(&rt, alloc, &mut machine);
    a_write_with_fua(&rt, alloc, &mut machine);
    a_restart(&rt, alloc, &mut machine);
}

// A FLUSH owes the write that was answered when it was sent, and not the one that came later.
#[test]
fn a_flush(rt: HostRuntime) {
    let alloc = rt.alloc();
    let mut machine = Machine::new(alloc);
    let early = write_of(&rt, alloc, 0, &[1]);
    let early = send(&rt, &mut machine, ONE, 1, Request::write(early));
    assert!(rt; take(&rt, &mut machine, early));
    assert!(rt; answer_write(&rt, &mut machine, early, 1));
    let flush = send(&rt, &mut machine, ONE, 2, Request::flush());
    assert!(rt; !take(&rt, &mut machine, flush), "no write");
    let late = write_of(&rt, alloc, 1, &[2]);
    let late = send(&rt, &mut machine, ONE, 3, Request::write(late));
    assert!(rt; take(&rt, &mut machine, late));
    assert!(rt; refuse(&rt, &mut machine, late));
    assert!(rt; !refuse(&rt, &mut machine, late), "twice");
    assert!(rt; !answer_flush(&rt, &mut machine, late), "another request");
    assert!(rt; answer_flush(&rt, &mut machine, flush));
    assert!(rt; !machine.restart(0), "below what is owed");
    assert!(rt; machine.restart(1));
}
