// The rule on a table of returned disks.
use super::configurations_tests::{member, record};
use crate::comparing::{prints, same, same_at};
use recovery::{Refusal, Returned, choose};
use std::alloc::Global;
use std::process::Abort;

// A disk by its numbers: slot, incarnation and front, or one that can't be opened.
type Disk = Option<(u8, u64, u64)>;

const TABLE: [(&[Disk], Result<usize, Refusal>); 9] = [
    (&[], Err(Refusal::NoneReturned)),
    (&[None, None], Err(Refusal::NotInChain)),
    // A slot that isn't recorded, and an older disk of one that is.
    (
        &[Some((1, 1, 9)), Some((2, 1, 9))],
        Err(Refusal::NotInChain),
    ),
    (&[Some((2, 3, 5))], Ok(0)),
    // The greatest front.
    (&[Some((4, 1, 4)), Some((0, 1, 6)), Some((2, 3, 5))], Ok(1)),
    // A tie goes to the earlier in the chain.
    (&[Some((2, 3, 5)), Some((0, 1, 5)), Some((4, 1, 4))], Ok(1)),
    // And then to the earlier in the list.
    (&[Some((0, 1, 5)), Some((2, 3, 5)), Some((0, 1, 5))], Ok(0)),
    // Strangers are passed over, whatever their fronts.
    (
        &[Some((1, 1, 9)), None, Some((2, 1, 9)), Some((0, 1, 0))],
        Ok(3),
    ),
    (&[Some((0, 1, u64::MAX)), Some((4, 1, u64::MAX))], Ok(1)),
];

// The disks by their numbers, as they returned.
fn returned(rt: &impl Abort, alloc: Global, disks: &[Disk]) -> Vec<Returned> {
    let mut returned = Vec::new(alloc);
    for disk in disks {
        let one = match disk {
            Some((slot, incarnation, front)) => Returned::Opened {
                member: member(rt, *slot, *incarnation),
                front: *front,
            },
            None => Returned::Unopened,
        };
        returned.push(one).expect(rt, "memory");
    }
    returned
}

// The chain of the slots 4, 0 and 2, whose last member was added in the epoch 3.
#[test]
fn the_rule(rt: HostRuntime) {
    let alloc = rt.alloc();
    let chain = record(&rt, alloc, 3, &[(4, 1), (0, 1), (2, 3)]);
    for (disks, told) in &TABLE {
        let returned = returned(&rt, alloc, disks);
        let source = choose(&chain, &returned).map(|source| source.place);
        same_at(&rt, source, *told, disks);
    }
}

#[test]
fn numbers(rt: HostRuntime) {
    for (refusal, number, text) in &[
        (Refusal::NoneReturned, 191, "191 NoneReturned"),
        (Refusal::NotInChain, 192, "192 NotInChain"),
    ] {
        same(&rt, refusal.number(), *number);
        prints(&rt, rt.alloc(), refusal, text);
    }
}
