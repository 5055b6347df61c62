//! `benches`: how long calls of the crates below take, layer by layer.
//!
//! The names of benches, as words, play these alone, and none plays all. A bench plays its loads once and prints what they
//! came to, which the gate compares; with the word `time` it plays them many times and prints how long they took.
#![tactic(auto)]

use anyhow::bail;
use std::thread::Threads;
use std::{env, process};

// No module may have a crate's name, so this one is in the plural: `boards`.
mod boards;
mod commits;
mod journal;
mod report;
mod table;
mod wire;

/// The word that measures.
const TIME: &str = "time";

/// What is measured.
#[derive(Clone, Copy)]
enum Bench {
    Table,
    Journal,
    Board,
    Wire,
    Commits,
}

/// All benches, in the order in which they are played.
const BENCHES: [Bench; 5] = [
    Bench::Table,
    Bench::Journal,
    Bench::Board,
    Bench::Wire,
    Bench::Commits,
];

impl Bench {
    /// The word for it.
    fn name(self) -> &'static str {
        match self {
            Bench::Table => "table",
            Bench::Journal => "journal",
            Bench::Board => "board",
            Bench::Wire => "wire",
            Bench::Commits => "commits",
        }
    }

    /// Prints its name, and plays it. The program has this number.
    fn play<T: Threads + Sync>(
        self,
        rt: &HostRuntime,
        handle: &T,
        id: u32,
        timed: bool,
    ) -> anyhow::Result<()> {
        rt.println(self.name())?;
        match self {
            Bench::Table => table::run(rt, timed),
            Bench::Journal => journal::run(rt, timed),
            Bench::Board => boards::run(rt, handle, timed),
            Bench::Wire => wire::run(rt, timed),
            Bench::Commits => commits::run(rt, handle, id, timed),
        }
    }
}

fn main(rt: HostRuntime) -> anyhow::Result<()> {
    let words: Vec<String> = env::args(&rt)?.skip(1).collect(rt.alloc())?;
    let played = play_words(&rt, &rt, &words, process::id(rt.process()));
    drop(words);
    played
}

/// Plays the benches that the program's words name, or all.
fn play_words<T: Threads + Sync>(
    rt: &HostRuntime,
    handle: &T,
    words: &[String],
    id: u32,
) -> anyhow::Result<()> {
    let plays_all = !names_any(words)?;
    for bench in &BENCHES {
        if plays_all || has(words, bench.name()) {
            bench.play(rt, handle, id, has(words, TIME))?;
        }
    }
    Ok(())
}

/// Whether the words name a bench. A word that the program doesn't know is an error.
fn names_any(words: &[String]) -> anyhow::Result<bool> {
    let mut found = false;
    for word in words {
        if is_bench(word.as_str()) {
            found = true;
        } else if word.as_str() != TIME {
            bail!(
                "unknown word {word}; the words are table, journal, board, wire, commits and time"
            );
        }
    }
    Ok(found)
}

/// Whether a word is a bench's name.
fn is_bench(word: &str) -> bool {
    for bench in &BENCHES {
        if word == bench.name() {
            return true;
        }
    }
    false
}

/// Whether a word is among the program's words.
fn has(words: &[String], name: &str) -> bool {
    for word in words {
        if word.as_str() == name {
            return true;
        }
    }
    false
}
