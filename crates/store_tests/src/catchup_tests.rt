// A new member's disk gets the volume while writes go on.
ghost use Rattle.std.specs.Prelude.{◌≡◌, length};

use crate::comparing::{prints, same, same_at};
use crate::lending_tests::{disk, sizes};
use bytes::Bytes;
use disk_model::{DiskError, Event, MemDisk};
use gate_journal::Slot;
use local_store::{Store, StoreLike};
use rejoin_catchup::{Piece, Ready, Receiver, Refusal, Sender};
use std::alloc::Global;
use std::process::Abort;
use volume::{BLOCK_SIZE, Write};

// A block that consists of this byte.
fn block_of(rt: &impl Abort, alloc: Global, byte: u8) -> Bytes
    ensures { length result ≡ BLOCK_SIZE }
{
    Bytes::copy_from_slice(alloc, &[byte; BLOCK_SIZE as usize]).expect(rt, "memory")
}

// A receiver of slot 1, of incarnation 2, on a new disk of 8 blocks.
fn receiver(rt: &impl Abort, alloc: Global) -> Receiver<MemDisk> {
    let geometry = sizes(rt);
    let slot = Slot::new(1).expect(rt, "a slot");
    let started = Receiver::start(alloc, disk(rt, alloc, geometry), slot, 2, geometry);
    let Ok(receiver) = started else {
        panic!(rt; "no receiver")
    };
    receiver
}

// The block that is due, which is this one, is given and taken. It consists of this byte.
fn give(
    rt: &impl Abort,
    alloc: Global,
    sender: &mut Sender,
    receiver: &mut Receiver<MemDisk>,
    block: u32,
    byte: u8,
) {
    assert!(rt; sender.due() == Some(block));
    let piece = sender.next_block(block_of(rt, alloc, byte));
    assert!(rt; matches!(receiver.take(piece), Ok(None)));
}

// A block that isn't behind the one that is due is written with this byte.
fn write(rt: &impl Abort, alloc: Global, sender: &mut Sender, block: u32, byte: u8) {
    let Some(due) = sender.due() else {
        panic!(rt; "none is due")
    };
    assert!(rt; block <= due);
    let offset = u64::from(block) * u64::from(BLOCK_SIZE);
    sender.written(&Write::new(offset, block_of(rt, alloc, byte)));
}

#[test]
fn a_new_members_disk_gets_the_volume_while_writes_go_on(rt: HostRuntime) {
    let alloc = rt.alloc();
    let mut sender = Sender::new(alloc, 8).expect(&rt, "memory");
    let mut receiver = receiver(&rt, alloc);
    for block in 0..5 {
        give(&rt, alloc, &mut sender, &mut receiver, block, 1);
    }
    write(&rt, alloc, &mut sender, 2, 2);
    write(&rt, alloc, &mut sender, 4, 3);
    write(&rt, alloc, &mut sender, 5, 4);
    same(&rt, sender.has_given_all(), false);
    assert!(rt;
        matches!(
            receiver.take(Piece::End { front: 7 }),
            Err(Refusal::OutOfOrder)
        )
    );
    for (block, byte) in [(5, 4), (6, 1), (7, 1)] {
        give(&rt, alloc, &mut sender, &mut receiver, block, byte);
    }
    same(&rt, sender.has_given_all(), true);
    write(&rt, alloc, &mut sender, 1, 5);
    for (block, byte) in [(1, 5), (2, 2), (4, 3)] {
        give(&rt, alloc, &mut sender, &mut receiver, block, byte);
    }
    assert!(rt; sender.due().is_none());
    let again = Piece::Again {
        block: 4,
        bytes: block_of(&rt, alloc, 3),
    };
    assert!(rt; matches!(receiver.take(again), Err(Refusal::OutOfOrder)));
    let Ok(Some(Ready { receipt, disk })) = receiver.take(sender.end(7)) else {
        panic!(rt; "it isn't ready")
    };
    same(&rt, (receipt.slot().number(), receipt.front()), (1, 7));
    assert!(rt; receiver.into_disk().is_none());
    is_the_volume(&rt, alloc, disk, [1, 5, 2, 1, 3, 4, 1, 1]);
}

// It is a disk of slot 1, of incarnation 2, at front 7, whose blocks consist of these bytes.
fn is_the_volume(rt: &impl Abort, alloc: Global, disk: MemDisk, bytes: [u8; 8]) {
    let Ok(mut store) = Store::open(alloc, disk) else {
        panic!(rt; "no store")
    };
    let told = (store.slot().number(), store.incarnation(), store.front());
    same(rt, told, (1, 2, 7));
    let mut block = 0;
    for byte in bytes {
        let mut found = [0; BLOCK_SIZE as usize];
        assert!(rt; block < store.geometry().blocks);
        same(rt, store.read_block(block, &mut found), Ok(()));
        same_at(rt, found, [byte; BLOCK_SIZE as usize], block);
        block += 1;
    }
}

#[test]
fn a_receiver_whose_device_fails_hands_its_disk_back(rt: HostRuntime) {
    let alloc = rt.alloc();
    let geometry = sizes(&rt);
    let slot = Slot::new(1).expect(&rt, "a slot");
    let mut disk = disk(&rt, alloc, geometry);
    disk.arm(Event::FailAt { call: 13 }).expect(&rt, "memory");
    let Ok(mut receiver) = Receiver::start(alloc, disk, slot, 2, geometry) else {
        panic!(rt; "no receiver")
    };
    let fault = Refusal::Store(local_store::Refusal::Device(DiskError::WriteFault));
    let broken = Refusal::Store(local_store::Refusal::Broken);
    for wanted in [fault, broken] {
        let first = Piece::First {
            block: 0,
            bytes: block_of(&rt, alloc, 1),
        };
        same(&rt, receiver.take(first).err(), Some(wanted));
    }
    assert!(rt; receiver.into_disk().is_some());
}

#[test]
fn a_refusal_of_a_receiver_has_its_number(rt: HostRuntime) {
    let alloc = rt.alloc();
    let broken = Refusal::Store(local_store::Refusal::Broken);
    for (refusal, number, text) in [
        (Refusal::OutOfOrder, 181, "181 OutOfOrder"),
        (broken, 122, "122 Broken"),
    ] {
        same(&rt, refusal.number(), Some(number));
        prints(&rt, alloc, &refusal, text);
    }
}
