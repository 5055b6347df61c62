//! Links between two threads, and ends that are dropped.
ghost use Rattle.std.specs.Prelude.{◌<◌};
ghost use Rattle.links.specs.Ends.{IsSameReceiver, IsSameSender};

use crate::comparing::same;
use links::{Receiving, Refusal, Relay, Sending};
use std::alloc::Global;
use std::process::Abort;
use std::sync::Wait;
use std::thread::{Threads, join};

/// How many batches go through a link.
const BATCHES: u64 = 1_000;

/// What a link carries: it can't be cloned.
#[derive(Drop)]
struct Batch {
    number: u64,
}

/// Puts batches with these numbers, in order, as long as they are put.
fn put_all<R: Wait>(rt: &R, mut sending: Sending<Batch>, batches: u64) -> Sending<Batch>
    ensures { IsSameSender sending result }
{
    for number in 0..batches {
        if sending.put(rt, Batch { number }).is_err() {
            break;
        }
    }
    sending
}

/// Whether the next batches have these numbers, in order.
fn take_all<R: Wait>(
    rt: &R,
    mut receiving: Receiving<Batch>,
    batches: u64,
) -> (Receiving<Batch>, bool)
    ensures { IsSameReceiver receiving result.0 }
{
    let mut in_order = true;
    for number in 0..batches {
        match receiving.take(rt) {
            Ok(batch) => in_order = in_order && batch.number == number,
            Err(_) => in_order = false,
        }
    }
    (receiving, in_order)
}

/// Whether the batches come out in order in another thread, and the link is then found closed.
fn comes_in_order<R: Abort + Threads + Wait + Sync>(rt: &R, alloc: Global, capacity: usize) -> bool
    requires { 0 < capacity }
{
    let (sending, receiving) = Relay::pair(alloc, capacity).expect(rt, "memory");
    let ((), (mut receiving, in_order)) = join(
        rt,
        || drop(put_all(rt, sending, BATCHES)),
        || take_all(rt, receiving, BATCHES),
    );
    in_order && matches!(receiving.take(rt), Err(Refusal::LinkClosed))
}

#[test]
fn batches_come_in_order_one_at_a_time(rt: HostRuntime) {
    assert!(rt; comes_in_order(&rt, rt.alloc(), 1));
}

#[test]
fn batches_come_in_order_sixteen_at_once(rt: HostRuntime) {
    assert!(rt; comes_in_order(&rt, rt.alloc(), 16));
}

#[test]
fn a_dropped_receiver_hands_the_batch_back(rt: HostRuntime) {
    let (mut sending, receiving) = Relay::pair(rt.alloc(), 4).expect(&rt, "memory");
    assert!(rt; sending.put(&rt, Batch { number: 1 }).is_ok());
    drop(receiving);
    let Err((refusal, back)) = sending.put(&rt, Batch { number: 2 }) else {
        panic!(rt; "the link is closed")
    };
    same(&rt, (refusal.number(), back.number), (211, 2));
}

#[test]
fn what_was_put_is_taken_from_a_closed_link(rt: HostRuntime) {
    let (sending, receiving) = Relay::pair(rt.alloc(), 4).expect(&rt, "memory");
    drop(put_all(&rt, sending, 3));
    let (mut receiving, in_order) = take_all(&rt, receiving, 3);
    assert!(rt; in_order);
    let refusal = receiving.take(&rt).err().expect(&rt, "the link is closed");
    same(&rt, refusal.number(), 211);
}

#[test]
fn both_ends_are_compared(rt: HostRuntime) {
    let (sending, receiving) = Relay::pair(rt.alloc(), 3).expect(&rt, "memory");
    let sending = put_all(&rt, sending, 3);
    let (receiving, in_order) = take_all(&rt, receiving, 2);
    assert!(rt; in_order);
    let (_sending, mut receiving) = Relay::compare(sending, receiving);
    let last = receiving.take(&rt).expect(&rt, "one more batch");
    same(&rt, last.number, 2);
}
