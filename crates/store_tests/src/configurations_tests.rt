// Worked rows, and what memory decides.
use crate::comparing::{prints, same, same_at};
use configurations::{Epoch, Incarnation, MAX_MEMBERS, Member, Record, Refusal};
use gate_journal::Slot;
use std::alloc::Global;
use std::process::Abort;

// A member by its numbers.
pub(crate) fn member(rt: &impl Abort, slot: u8, incarnation: u64) -> Member {
    Member {
        slot: Slot::new(slot).expect(rt, "a slot"),
        incarnation: Incarnation::new(incarnation).expect(rt, "an incarnation"),
    }
}

// The record of an epoch and of members by their numbers.
pub(crate) fn record(rt: &impl Abort, alloc: Global, epoch: u64, chain: &[(u8, u64)]) -> Record {
    let mut members = Vec::new(alloc);
    for (slot, incarnation) in chain {
        members
            .push(member(rt, *slot, *incarnation))
            .expect(rt, "memory");
    }
    let epoch = Epoch::new(epoch).expect(rt, "an epoch");
    Record::new(epoch, members).expect(rt, "a record")
}

const FRESH: [u8; 48] =
    *b"CRAQCONF\x00\x00\x00\x01\x00\x00\x00\x00\x00\x00\x00\x01\x03\x00\x00\x00\x00\x00\x00\x00\x00\x01\x01\x00\x00\x00\x00\x00\x00\x00\x01\x02\x00\x00\x00\x00\x00\x00\x00\x01";

// A fresh chain of three.
#[test]
fn a_fresh_chain(rt: HostRuntime) {
    let alloc = rt.alloc();
    let fresh = record(&rt, alloc, 1, &[(0, 1), (1, 1), (2, 1)]);
    let encoded = fresh.encoded(alloc).expect(&rt, "memory");
    same(&rt, encoded.as_slice(), FRESH.as_slice());
    let read = Record::read(alloc, &FRESH)
        .expect(&rt, "memory")
        .expect(&rt, "a record");
    same(&rt, read.epoch().number(), 1);
    same(&rt, read.members(), fresh.members());
}

// Whether bytes encode no record.
fn is_none(rt: &impl Abort, alloc: Global, bytes: &[u8]) -> bool {
    Record::read(alloc, bytes).expect(rt, "memory").is_none()
}

// Bytes that encode no record: each is a fresh chain's with one of its bytes changed, or the bytes behind a place cut.
#[test]
fn no_records(rt: HostRuntime) {
    let alloc = rt.alloc();
    for (place, byte) in [
        (0, 0x44),
        (11, 2),
        (12, 0x80),
        (20, 2),
        (20, 0),
        (21, 8),
        (22, 0x80),
        (30, 0),
    ] {
        let mut bytes = FRESH;
        bytes[place] = byte;
        same_at(&rt, is_none(&rt, alloc, &bytes), true, (place, byte));
    }
    for len in [0, 11, 19, 20, 21, 47] {
        same_at(&rt, is_none(&rt, alloc, &FRESH[..len]), true, len);
    }
}

#[test]
fn bad_members(rt: HostRuntime) {
    let alloc = rt.alloc();
    let most = [
        (7, 1),
        (0, 2),
        (1, 3),
        (2, 4),
        (3, 5),
        (4, 6),
        (5, 7),
        (6, 8),
    ];
    let record = record(&rt, alloc, Epoch::MAX, &most);
    same(&rt, record.members().len(), MAX_MEMBERS);
    for slots in [[].as_slice(), &[0, 1, 0], &[0, 1, 2, 3, 4, 5, 6, 7, 0]] {
        let mut members = Vec::new(alloc);
        for slot in slots {
            members.push(member(&rt, *slot, 1)).expect(&rt, "memory");
        }
        let epoch = Epoch::new(1).expect(&rt, "an epoch");
        let refused = Record::new(epoch, members).err();
        same_at(&rt, refused, Some(Refusal::BadMembers), slots);
    }
    same(&rt, Refusal::BadMembers.number(), Some(163));
    prints(&rt, alloc, &Refusal::BadMembers, "163 BadMembers");
    same(
        &rt,
        (Epoch::new(1 << 63), Incarnation::new(1 << 63)),
        (None, None),
    );
}
