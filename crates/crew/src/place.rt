//! The places of the workers.

ghost use Rattle.std.specs.Prelude.{◌≡◌, ◌≢◌, ℕ, ◌+◌, ◌<◌, ◌≤◌, ◌^◌, length, vec_len, slice_index_or};
ghost use Rattle.crew.specs.Crews.{AreDone, AreReady};
ghost use Rattle.crew.specs.Places.{IsDone, IsReady, IsSeated, ends_closed, has_closed, sight_of, start_of};
ghost use Rattle.crew.specs.Seats.{IsOtherSeat};

use board::{Board, Seat};
use book::Book;
use keeper::Keeper;
use std::alloc::Global;
use std::marker::Brand;
use std::sync::Wait;
use std::thread;
use std::thread::Threads;
use wake_queue::{WakePass, WakeQueue};
use workers::{Gate, WorkerDone, WorkerEnd, work};

/// What a worker has.
#[derive(Drop)]
pub(crate) enum Place<K: Keeper> {
    Waiting(Seat<Book<K>>, WakePass<Brand>),
    Done(WorkerEnd, Seat<Book<K>>),
    Empty,
}

impl<K: Keeper> Place<K> {
    // Goes a worker's course. Its number among the workers is `worker`.
    pub(crate) fn go<G: Gate, R: Wait>(
        &mut self,
        rt: &R,
        alloc: Global,
        board: &Board<Book<K>>,
        wakes: &WakeQueue<Brand>,
        worker: usize,
        gate: &G,
    )
        requires ready { IsReady board.now wakes.now (worker + 2) self.old }
        requires few { worker < 2 ^ 32 }
        ensures done { IsDone board.now (start_of self.old) (worker + 2) self.new }
    {
        if let Place::Waiting(seat, pass) = std::mem::replace(self, Place::Empty) {
            let WorkerDone { end, seat, pass: _ } = work(
                rt,
                alloc,
                board,
                seat,
                wakes,
                pass,
                1,
                worker as u32,
                gate,
            );
            *self = Place::Done(end, seat);
        }
    }

    // The seat, and whether the worker came to its end behind the last closing.
    pub(crate) fn into_seat(self, board: &Board<Book<K>>) -> (bool, Seat<Book<K>>)
        requires { IsSeated board.now self }
        ensures closed { result.0 ≡ has_closed self }
        ensures sight { (result.1.view.number ≡ (sight_of self).0) × (result.1.view.seen ≡ (sight_of self).1) }
        ensures rest { IsOtherSeat board.now result.1 }
    {
        let _ = board;
        match self {
            Place::Waiting(seat, _) => (false, seat),
            Place::Done(end, seat) => (is_closed(end), seat),
            Place::Empty => unreachable!(),
        }
    }
}

/// Whether this is the end behind the last closing.
pub(crate) fn is_closed(end: WorkerEnd) -> bool
    ensures { result ≡ ends_closed end }
{
    match end {
        WorkerEnd::Closed => true,
        WorkerEnd::Memory => false,
    }
}

// Each worker that waits goes its course, in as many threads as there are workers.
fn go_each<K: Keeper + Send, G: Gate + Sync, R: Threads + Wait + Sync>(
    rt: &R,
    alloc: Global,
    board: &Board<Book<K>>,
    wakes: &WakeQueue<Brand>,
    places: &mut [Place<K>],
    gate: &G,
)
    requires few { length places.old < 2 ^ 32 }
    requires ready { (w : ℕ) (d : _) → w < length places.old → IsReady board.now wakes.now (w + 2) (slice_index_or places.old w d) }
    ensures done { (w : ℕ) (d : _) → w < length places.old → IsDone board.now (start_of (slice_index_or places.old w d)) (w + 2) (slice_index_or places.new w d) }
{
    let threads = places.len();
    if threads == 0 {
        return;
    }
    thread::for_each_mut(
        rt,
        places,
        threads,
        &|worker, place| place.go(rt, alloc, board, wakes, worker, gate),
    );
}

/// The same, with the places handed over.
pub(crate) fn work_all<K: Keeper + Send, G: Gate + Sync, R: Threads + Wait + Sync>(
    rt: &R,
    alloc: Global,
    board: &Board<Book<K>>,
    wakes: &WakeQueue<Brand>,
    mut places: Vec<Place<K>>,
    gate: &G,
) -> Vec<Place<K>>
    requires { AreReady board.now wakes.now places }
    ensures { AreDone board.now places result }
{
    go_each(rt, alloc, board, wakes, places.as_mut_slice(), gate);
    places
}
