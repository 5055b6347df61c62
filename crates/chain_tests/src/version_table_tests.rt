// Expected values are worked out by hand from the rules of volumes.
use crate::comparing::{same, same_at};
use bytes::Bytes;
use std::alloc::Global;
use std::process::Abort;
use version_table::{Origin, Refusal, Table};
use volume::Write;

const VOLUME: u64 = 268_435_456;

const ORIGIN: Origin = Origin {
    slot: 1,
    incarnation: 7,
    ticket: 9,
};

fn write_of(rt: &impl Abort, alloc: Global, offset: u64, byte: u8, len: usize) -> Write {
    let bytes = vec![in alloc; byte; len].expect(rt, "memory");
    Write::new(offset, Bytes::from_vec(bytes).expect(rt, "memory"))
}

fn apply_next(rt: &impl Abort, table: &mut Table, write: &Write) -> Result<(), Refusal> {
    let applied = table.applied();
    let len = write.len();
    assert!(rt; applied < 1 << 62);
    assert!(rt; len <= VOLUME && write.offset() <= VOLUME - len);
    table.apply(applied + 1, write, ORIGIN)
}

// Three writes after the number 2: the first over the end of block 0, the second in block 1, the third in block 0.
fn three(rt: &impl Abort, alloc: Global) -> Table {
    let mut table = Table::new(alloc, 2);
    for (offset, byte, len) in &[(4_095, 3, 2), (4_096, 4, 1), (0, 5, 1)] {
        let write = write_of(rt, alloc, *offset, *byte, *len);
        apply_next(rt, &mut table, &write).expect(rt, "room in the table");
    }
    table
}

// The first and the last byte of a block of nines after so many writes.
fn ends_at(rt: &impl Abort, table: &Table, block: u32, j: u64) -> (u8, u8) {
    assert!(rt; table.forgotten() <= j && j <= table.applied());
    let mut bytes = [9; 4_096];
    table.value_at(block, j, &mut bytes);
    (bytes[0], bytes[4_095])
}

#[test]
fn blocks_after_writes(rt: HostRuntime) {
    let mut table = three(&rt, rt.alloc());
    same(&rt, (table.forgotten(), table.applied()), (2, 5));
    for (block, j, ends) in &[
        (0, 2, (9, 9)),
        (0, 3, (9, 3)),
        (0, 4, (9, 3)),
        (0, 5, (5, 3)),
        (1, 2, (9, 9)),
        (1, 3, (3, 9)),
        (1, 4, (4, 9)),
        (1, 5, (4, 9)),
        (2, 5, (9, 9)),
    ] {
        same_at(&rt, ends_at(&rt, &table, *block, *j), *ends, (*block, *j));
    }
    assert!(rt; 4 <= table.applied() && table.forgotten() < 4);
    table.forget_to(4);
    same(&rt, (table.forgotten(), table.applied()), (4, 5));
    same(&rt, ends_at(&rt, &table, 0, 5), (5, 9));
    same(&rt, ends_at(&rt, &table, 1, 5), (9, 9));
}

#[test]
fn clean_ranges(rt: HostRuntime) {
    let table = three(&rt, rt.alloc());
    for (offset, len, k, expected) in &[
        (0, 1, 5, true),
        (0, 1, 4, false),
        (4_096, 4_096, 4, true),
        (4_096, 4_096, 3, false),
        (8_192, 4_096, 2, true),
        (4_097, 4_096, 3, false),
        (4_095, 0, 2, true),
        (4_095, 2, 4, false),
    ] {
        assert!(rt; table.forgotten() <= *k && *k <= table.applied());
        same_at(
            &rt,
            table.is_clean(*offset, *len, *k),
            *expected,
            (*offset, *len, *k),
        );
    }
}

#[test]
fn kept_writes(rt: HostRuntime) {
    let table = three(&rt, rt.alloc());
    assert!(rt; table.forgotten() <= 3 && 4 <= table.applied());
    let kept = table.get(4);
    same(
        &rt,
        (kept.number, kept.write.offset(), kept.origin),
        (4, 4_096, ORIGIN),
    );
    let mut number = 4;
    for kept in table.after(3) {
        same(&rt, kept.number, number);
        assert!(rt; number < 10);
        number += 1;
    }
    same(&rt, number, 6);
}

// The 1,025th write, and the first byte above 16 MiB, are refused; what is forgotten makes room.
#[test]
fn full_tables(rt: HostRuntime) {
    let byte = write_of(&rt, rt.alloc(), 0, 1, 1);
    let mut table = Table::new(rt.alloc(), 0);
    for _ in 0..1_024 {
        apply_next(&rt, &mut table, &byte).expect(&rt, "room in the table");
    }
    same(
        &rt,
        apply_next(&rt, &mut table, &byte),
        Err(Refusal::TableFull),
    );
    assert!(rt; table.forgotten() <= 1 && table.applied() == 1_024);
    table.forget_to(1);
    same(&rt, apply_next(&rt, &mut table, &byte), Ok(()));

    let large = write_of(&rt, rt.alloc(), 1, 1, 1_048_576);
    let mut table = Table::new(rt.alloc(), 0);
    for _ in 0..16 {
        apply_next(&rt, &mut table, &large).expect(&rt, "room in the table");
    }
    same(
        &rt,
        apply_next(&rt, &mut table, &byte),
        Err(Refusal::TableFull),
    );
}

#[test]
fn refusals_in_words(rt: HostRuntime) {
    let words = format!(in rt.alloc(); "{}, {}", Refusal::Memory, Refusal::TableFull);
    let words = words.expect(&rt, "memory");
    same(&rt, words.as_str(), "100 Memory, 141 TableFull");
    same(
        &rt,
        (Refusal::Memory.number(), Refusal::TableFull.number()),
        (100, 141),
    );
}

#[test]
fn whole_blocks(rt: HostRuntime) {
    let mut table = Table::new(rt.alloc(), 2);
    for (offset, len) in &[(4_096, 4_096), (8_193, 4_094)] {
        let write = write_of(&rt, rt.alloc(), *offset, 3, *len);
        apply_next(&rt, &mut table, &write).expect(&rt, "room in the table");
    }
    for (block, front, whole) in &[
        (1, 2, false),
        (1, 3, true),
        (1, 4, true),
        (0, 4, false),
        (2, 4, false),
    ] {
        assert!(rt; table.forgotten() <= *front && *front <= table.applied());
        same_at(
            &rt,
            table.is_whole(*block, *front),
            *whole,
            (*block, *front),
        );
    }
}
