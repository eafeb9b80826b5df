//! What a worker does from its start to its end.

ghost use Rattle.std.specs.Prelude.{◌≡◌, ◌≢◌};
ghost use Rattle.seat_turns.specs.Closings.{IfClosed, IsEachClosed};
ghost use Rattle.seat_turns.specs.Seats.{HoldsNoLock, IsAtRest, IsIdle, IsSameSeat};
ghost use Rattle.workers.specs.Draining.{Works};
ghost use Rattle.workers.specs.Sweeping.{AreSwept, LastPopWasEmpty};

use crate::draining::drain;
use crate::gate::Gate;
use board::{Board, Seat};
use book::{AcquireFault, Book};
use keeper::Keeper;
use seat_turns::{Watch, WorkerEnd, count_docs, look_closed, sit_down};
use std::alloc::Global;
use std::sync::Wait;
use std::thread;
use wake_queue::{QueuePast, WakePass, WakeQueue};

/// A worker that is done, with the seat and the pass that it was given.
#[derive(Drop)]
pub struct WorkerDone<K: Keeper, N: QueuePast> {
    pub end: WorkerEnd,
    pub seat: Seat<Book<K>>,
    pub pass: WakePass<N>,
}

/// A worker's whole course: it drains each document that a wake names, until each of the `drivers` drivers
/// of sessions has closed and no wake is left, and then sweeps: it drains each document once more.
///
/// An update is acquired in one turn, decided on without the turn, and committed and its lock released in
/// another turn. Between the two `gate` is told, with the number `worker`. Where memory is wanting for a
/// decision or its commit, the update is refused for that. Where another seat acquired the lock since, nothing
/// is committed. It waits for its turns, and for wakes until the drivers have closed.
pub fn work<K: Keeper, G: Gate, N: QueuePast, R: Wait>(
    rt: &R,
    alloc: Global,
    board: &Board<Book<K>>,
    mut seat: Seat<Book<K>>,
    wakes: &WakeQueue<N>,
    mut pass: WakePass<N>,
    drivers: u32,
    worker: u32,
    gate: &G,
) -> WorkerDone<K, N>
    requires seat { IsAtRest board.now seat }
    requires drivers { drivers ≡ seat.view.drivers }
    requires pass { pass.queue ≡ wakes.now }
    ensures seat { IsAtRest board.now result.seat × IsSameSeat seat result.seat }
    ensures pass { (result.pass.queue ≡ wakes.now) × (result.pass.number ≡ pass.number) × (result.pass.pushed ≡ pass.pushed) }
    ensures works { seat.view.number ≢ 0 → Works seat.view.number seat.view.seen result.seat.view.seen }
    ensures unlocked { seat.view.number ≢ 0 → HoldsNoLock seat.view.number seat.view.seen → HoldsNoLock seat.view.number result.seat.view.seen }
    ensures closed { IfClosed result.end (IsEachClosed drivers result.seat.view.seen) }
    ensures empty { IfClosed result.end (LastPopWasEmpty N.past result.pass) }
    ensures swept { IfClosed result.end (seat.view.number ≢ 0 → HoldsNoLock seat.view.number seat.view.seen → AreSwept drivers seat.view.number result.seat.view.seen) }
{
    sit_down(rt, board, &mut seat);
    let followed = follow_wakes(
        rt, alloc, board, &mut seat, wakes, &mut pass, drivers, worker, gate,
    );
    match followed {
        WorkerEnd::Memory => WorkerDone {
            end: WorkerEnd::Memory,
            seat,
            pass,
        },
        WorkerEnd::Closed => {
            let end = sweep(rt, alloc, board, &mut seat, drivers, worker, gate);
            WorkerDone { end, seat, pass }
        }
    }
}

// Drains each document that a wake names, until each driver has closed and no wake is left.
fn follow_wakes<K: Keeper, G: Gate, N: QueuePast, R: Wait>(
    rt: &R,
    alloc: Global,
    board: &Board<Book<K>>,
    seat: &mut Seat<Book<K>>,
    wakes: &WakeQueue<N>,
    pass: &mut WakePass<N>,
    drivers: u32,
    worker: u32,
    gate: &G,
) -> WorkerEnd
    requires idle { IsIdle board.now seat.old }
    requires pass { pass.old.queue ≡ wakes.now }
    ensures idle { IsIdle board.now seat.new }
    ensures same { IsSameSeat seat.old seat.new }
    ensures pass { (pass.new.queue ≡ wakes.now) × (pass.new.number ≡ pass.old.number) × (pass.new.pushed ≡ pass.old.pushed) }
    ensures works { Works seat.old.view.number seat.old.view.seen seat.new.view.seen }
    ensures closed { IfClosed result (IsEachClosed drivers seat.new.view.seen) }
    ensures empty { IfClosed result (LastPopWasEmpty N.past pass.new) }
{
    let mut watch = Watch::new();
    for _ in rt.forever() {
        match wakes.pop(rt, pass) {
            Some(doc) => {
                let why = drain(rt, alloc, board, seat, doc, worker, gate);
                if let AcquireFault::Memory = why {
                    return WorkerEnd::Memory;
                }
            }
            None => {
                if look_closed(rt, board, seat, &mut watch, drivers) {
                    return WorkerEnd::Closed;
                }
                thread::yield_now();
            }
        }
    }
    unreachable!()
}

// Drains each document once more, behind the last closing of a driver.
fn sweep<K: Keeper, G: Gate, R: Wait>(
    rt: &R,
    alloc: Global,
    board: &Board<Book<K>>,
    seat: &mut Seat<Book<K>>,
    drivers: u32,
    worker: u32,
    gate: &G,
) -> WorkerEnd
    requires idle { IsIdle board.now seat.old }
    requires closed { IsEachClosed drivers seat.old.view.seen }
    ensures idle { IsIdle board.now seat.new }
    ensures same { IsSameSeat seat.old seat.new }
    ensures works { Works seat.old.view.number seat.old.view.seen seat.new.view.seen }
    ensures closed { IsEachClosed drivers seat.new.view.seen }
    ensures swept { IfClosed result (HoldsNoLock seat.old.view.number seat.old.view.seen → AreSwept drivers seat.old.view.number seat.new.view.seen) }
{
    let mut doc = 0;
    for _ in rt.forever() {
        if doc >= count_docs(rt, board, seat) {
            return WorkerEnd::Closed;
        }
        let why = drain(rt, alloc, board, seat, doc, worker, gate);
        if let AcquireFault::Memory = why {
            return WorkerEnd::Memory;
        }
        doc += 1;
    }
    unreachable!()
}
