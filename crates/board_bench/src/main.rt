//! `board_bench WAY THREADS TURNS`: threads take turns on one journal, on a board or under a lock. Each
//! turn makes an entry, and in the end the count of entries is written. It is there to be timed.
#![tactic(auto)]

mod diary;
mod locked;
mod seated;

use locked::locked;
use seated::seated;
use std::alloc::{AllocError, Global};
use std::env;
use std::process::ExitCode;
use std::sync::Wait;
use std::thread::Threads;

/// Other words than this program takes.
const WORDS: u8 = 2;
/// Where memory is wanting.
const NO_MEMORY: u8 = 4;
/// Where the count couldn't be written.
const NOT_WRITTEN: u8 = 6;

/// What keeps the journal.
#[derive(Clone, Copy)]
enum Way {
    Board,
    Lock,
}

/// How many threads take turns.
#[derive(Clone, Copy)]
pub enum Count {
    One,
    Two,
    Four,
}

/// What the words ask for: the turns are those of each thread.
#[derive(Clone, Copy)]
struct Asked {
    way: Way,
    count: Count,
    turns: u64,
}

fn main(rt: HostRuntime) -> ExitCode {
    let Some(asked) = asked_by(&rt) else {
        return ExitCode::from(WORDS);
    };
    let Ok(entries) = entries(&rt, rt.alloc(), asked) else {
        return ExitCode::from(NO_MEMORY);
    };
    match println!(rt; "{entries}") {
        Ok(()) => ExitCode::SUCCESS,
        Err(_) => ExitCode::from(NOT_WRITTEN),
    }
}

// How many entries are made.
fn entries<R: Threads + Wait + Sync>(
    rt: &R,
    alloc: Global,
    asked: Asked,
) -> Result<u64, AllocError> {
    match asked.way {
        Way::Board => seated(rt, alloc, asked.count, asked.turns),
        Way::Lock => Ok(locked(rt, alloc, asked.count, asked.turns)),
    }
}

// What the words ask for, if they are such.
fn asked_by(rt: &HostRuntime) -> Option<Asked> {
    let mut words = env::args(rt).ok()?.skip(1);
    let way = way_of(words.next()?.as_str())?;
    let count = count_of(words.next()?.as_str())?;
    let turns = words.next()?.as_str().parse::<u64>().ok()?;
    match words.next() {
        Some(_) => None,
        None => Some(Asked { way, count, turns }),
    }
}

fn way_of(word: &str) -> Option<Way> {
    match word {
        "board" => Some(Way::Board),
        "lock" => Some(Way::Lock),
        _ => None,
    }
}

fn count_of(word: &str) -> Option<Count> {
    match word {
        "1" => Some(Count::One),
        "2" => Some(Count::Two),
        "4" => Some(Count::Four),
        _ => None,
    }
}
