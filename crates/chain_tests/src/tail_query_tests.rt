// A table with one write, of the number 1, in block 0.
use crate::comparing::same;
use bytes::Bytes;
use std::process::Abort;
use tail_query::{Plan, front_of, plan};
use version_table::{Origin, Table};
use volume::Write;

fn plan_at(rt: &impl Abort, table: &Table, offset: u64, k: u64) -> Plan {
    assert!(rt; table.forgotten() <= k && k <= table.applied());
    assert!(rt; offset <= 8_192);
    plan(table, offset, 4_096, k)
}

#[test]
fn dirty_and_clean_ranges(rt: HostRuntime) {
    let mut table = Table::new(rt.alloc(), 0);
    let payload = Bytes::copy_from_slice(rt.alloc(), &[1]).expect(&rt, "memory");
    let write = Write::new(4_095, payload);
    let origin = Origin {
        slot: 0,
        incarnation: 1,
        ticket: 1,
    };
    table
        .apply(1, &write, origin)
        .expect(&rt, "room in the table");
    same(&rt, plan_at(&rt, &table, 0, 0), Plan::Ask);
    same(&rt, plan_at(&rt, &table, 0, 1), Plan::Local);
    same(&rt, plan_at(&rt, &table, 4_096, 0), Plan::Local);
}

#[test]
fn fronts(rt: HostRuntime) {
    for (asked, k, front) in &[(3, 2, 3), (2, 3, 3), (0, 0, 0)] {
        same(&rt, front_of(*asked, *k), *front);
    }
}
