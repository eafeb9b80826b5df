//! Turns under a lock.

use crate::Count;
use crate::diary::Diary;
use board::Journaled;
use std::alloc::Global;
use std::sync::{Mutex, Wait};
use std::thread;
use std::thread::Threads;

// So many turns of one thread.
fn turns<R: Wait>(rt: &R, lock: &Mutex<Diary>, number: u32, times: u64) {
    for _ in 0..times {
        lock.lock(rt).tick(number);
    }
}

// So many turns of each of two threads.
fn two<R: Threads + Wait + Sync>(rt: &R, lock: &Mutex<Diary>, number: u32, times: u64) {
    thread::join(
        rt,
        || turns(rt, lock, number, times),
        || turns(rt, lock, number, times),
    );
}

/// Each thread takes so many turns. The answer is the count of entries.
pub fn locked<R: Threads + Wait + Sync>(rt: &R, alloc: Global, count: Count, times: u64) -> u64 {
    let lock = Mutex::new(Diary::new(alloc));
    match count {
        Count::One => turns(rt, &lock, 1, times),
        Count::Two => two(rt, &lock, 1, times),
        Count::Four => {
            thread::join(rt, || two(rt, &lock, 1, times), || two(rt, &lock, 2, times));
        }
    }
    lock.into_inner().length()
}
