//! How long the calls of a version table take.
//!
//! It fills 64 tables with writes of 4,096 bytes, each of another block, and in each round applies one write to each
//! table, makes the block of it, and forgets the first. Untimed it does one round a size and prints what it found; timed it
//! prints nanoseconds a call.
ghost use Rattle.std.specs.Prelude.{◌≡◌, ◌<◌, length};

use crate::report::{now, repeated, since};
use bytes::Bytes;
use std::alloc::Global;
use std::io;
use std::time::Duration;
use version_table::{Origin, Refusal, Table};
use volume::{BLOCK_SIZE, Write};

/// The tables that take part in a round.
const TABLES: u32 = 64;

/// The rounds that are timed.
const ROUNDS: u32 = 200;

/// The writes that a table keeps when its last one is applied.
const SIZES: [u64; 3] = [1, 32, 1_024];

/// The blocks that are written in turn.
const BLOCKS: u64 = 1_024;

const ORIGIN: Origin = Origin {
    slot: 0,
    incarnation: 1,
    ticket: 1,
};

/// How long the calls of each kind took.
#[derive(Clone, Copy)]
struct Times {
    apply: Duration,
    value_at: Duration,
    forget_to: Duration,
}

/// Plays rounds of each size, and prints what they came to.
pub(crate) fn run(rt: &HostRuntime, timed: bool) -> anyhow::Result<()> {
    for size in &SIZES {
        play(rt, *size, timed)?;
    }
    Ok(())
}

/// Plays rounds of tables that keep so many writes when the last one is applied, and prints what they came to.
fn play(rt: &HostRuntime, size: u64, timed: bool) -> anyhow::Result<()> {
    let ones = repeated(rt.alloc(), 1, 4_096)?;
    let mut tables = Vec::new(rt.alloc());
    let mut times = Times {
        apply: Duration::ZERO,
        value_at: Duration::ZERO,
        forget_to: Duration::ZERO,
    };
    let rounds = if timed { ROUNDS } else { 1 };
    let written = play_rounds(rt, &mut tables, &ones, size, rounds, &mut times);
    drop(tables);
    drop(ones);
    Ok(print(rt, size, written?, times, timed)?)
}

/// Fills new tables, and plays so many rounds: how many blocks were as written in the last one. The times are added up.
fn play_rounds(
    rt: &HostRuntime,
    tables: &mut Vec<Table>,
    ones: &Bytes,
    size: u64,
    rounds: u32,
    times: &mut Times,
) -> Result<u32, Refusal>
    requires { length ones.now ≡ 4096 }
{
    add_tables(rt.alloc(), tables)?;
    for _ in 1..size {
        apply_to_all(tables, ones)?;
    }
    let mut written = 0;
    for _ in 0..rounds {
        written = round(rt, tables, ones, times)?;
    }
    Ok(written)
}

/// Prints what the rounds came to.
fn print(rt: &HostRuntime, size: u64, written: u32, times: Times, timed: bool) -> io::Result<()> {
    if !timed {
        return println!(rt; "{size} kept: {written} of {TABLES} blocks as written");
    }
    let apply = nanoseconds_a_call(times.apply);
    let value_at = nanoseconds_a_call(times.value_at);
    let forget_to = nanoseconds_a_call(times.forget_to);
    println!(rt; "{size} kept: apply {apply}, value_at {value_at}, forget_to {forget_to} ns")
}

/// The nanoseconds of a call, where all rounds took so long.
fn nanoseconds_a_call(all: Duration) -> u128 {
    (all / (TABLES * ROUNDS)).as_nanos()
}

/// The block of the write with this number.
fn block_of(number: u64) -> u32
    ensures { result < 1024 }
{
    (number % BLOCKS) as u32
}

/// Applies a block of ones as the next write. 141 where no number is left.
fn apply_next(table: &mut Table, ones: &Bytes) -> Result<(), Refusal>
    requires { length ones.now ≡ 4096 }
{
    let Some(number) = table.applied().checked_add(1) else {
        return Err(Refusal::TableFull);
    };
    let bytes = ones.clone()?;
    let write = Write::new(u64::from(block_of(number)) * BLOCK_SIZE, bytes);
    let applied = table.apply(number, &write, ORIGIN);
    drop(write);
    applied
}

/// Adds the tables of a round, which keep nothing.
fn add_tables(alloc: Global, tables: &mut Vec<Table>) -> Result<(), Refusal> {
    for _ in 0..TABLES {
        tables.reserve(1)?;
        tables.push_reserved(Table::new(alloc, 0));
    }
    Ok(())
}

fn apply_to_all(tables: &mut [Table], ones: &Bytes) -> Result<(), Refusal>
    requires { length ones.now ≡ 4096 }
{
    for table in tables.iter_mut() {
        apply_next(table, ones)?;
    }
    Ok(())
}

/// How many tables make the last block as it was written.
fn written_blocks(tables: &[Table]) -> u32 {
    let mut block = [0; 4_096];
    let mut written = 0u32;
    for table in tables {
        block[0] = 0;
        table.value_at(block_of(table.applied()), table.applied(), &mut block);
        written = written.saturating_add(u32::from(block[0]));
    }
    written
}

fn forget_first_of_all(tables: &mut [Table]) {
    for table in tables.iter_mut() {
        if table.forgotten() < table.applied() {
            table.forget_to(table.forgotten() + 1);
        }
    }
}

/// One more write to each table, the block of it, and the first one forgotten: how many blocks were as written. The times are added up.
fn round(
    rt: &HostRuntime,
    tables: &mut [Table],
    ones: &Bytes,
    times: &mut Times,
) -> Result<u32, Refusal>
    requires { length ones.now ≡ 4096 }
{
    let start = now(rt);
    apply_to_all(tables, ones)?;
    times.apply = times.apply.saturating_add(since(rt, start));
    let start = now(rt);
    let written = written_blocks(tables);
    times.value_at = times.value_at.saturating_add(since(rt, start));
    let start = now(rt);
    forget_first_of_all(tables);
    times.forget_to = times.forget_to.saturating_add(since(rt, start));
    Ok(written)
}
