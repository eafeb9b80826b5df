//! What the flusher does from its start to its end.

ghost use Rattle.std.specs.Prelude.{◌≡◌, ◌≢◌, OnOk, OnErr};
ghost use Rattle.seat_turns.specs.Closings.{IfClosed, IsEachClosed};
ghost use Rattle.seat_turns.specs.Seats.{HoldsNoLock, IsAtRest, IsIdle, IsSameSeat};
ghost use Rattle.flusher.specs.Flushing.{FlushesBy, FlushesShort, FlushesSome};
ghost use Rattle.flusher.specs.Visiting.{HasGoneRound};

use crate::flushing::flush_if_needed;
use board::{Board, Seat};
use book::Book;
use keeper::Keeper;
use seat_turns::{Watch, WorkerEnd, count_docs, look_closed, sit_down};
use std::alloc::{AllocError, Global};
use std::sync::Wait;
use std::thread;

/// A flusher that is done, with the seat that it was given.
#[derive(Drop)]
pub struct FlusherDone<K: Keeper> {
    /// [`WorkerEnd::Closed`] where each driver has closed, and before it looked for that it went once through
    /// the documents; [`WorkerEnd::Memory`] where memory was wanting to acquire a document or to put it.
    pub end: WorkerEnd,
    pub seat: Seat<Book<K>>,
}

/// A flusher's whole course: again and again it goes once through the documents and flushes each whose
/// version isn't kept, until each of the `drivers` drivers of sessions has closed.
///
/// A document is acquired in one turn, what is kept of it is made without the turn, and it is put and its
/// lock released in another turn. Where another seat acquired the lock since, nothing is put. A document that
/// another holds or that isn't cached is left for the next round, and so is one that the keeper failed on,
/// which is noted. Where memory is wanting it ends, and holds no lock. It waits for its turns, and until
/// the drivers have closed.
pub fn flush_loop<K: Keeper, R: Wait>(
    rt: &R,
    alloc: Global,
    board: &Board<Book<K>>,
    mut seat: Seat<Book<K>>,
    drivers: u32,
) -> FlusherDone<K>
    requires seat { IsAtRest board.now seat }
    requires drivers { drivers ≡ seat.view.drivers }
    ensures seat { IsAtRest board.now result.seat × IsSameSeat seat result.seat }
    ensures flushes { seat.view.number ≢ 0 → FlushesBy result.end seat.view.number seat.view.seen result.seat.view.seen }
    ensures unlocked { seat.view.number ≢ 0 → HoldsNoLock seat.view.number seat.view.seen → HoldsNoLock seat.view.number result.seat.view.seen }
    ensures closed { IfClosed result.end (IsEachClosed drivers result.seat.view.seen) }
    ensures round { IfClosed result.end (seat.view.number ≢ 0 → HasGoneRound seat.view.number seat.view.seen result.seat.view.seen) }
{
    sit_down(rt, board, &mut seat);
    let end = go_rounds(rt, alloc, board, &mut seat, drivers);
    FlusherDone { end, seat }
}

// Goes through the documents again and again, until each driver has closed.
fn go_rounds<K: Keeper, R: Wait>(
    rt: &R,
    alloc: Global,
    board: &Board<Book<K>>,
    seat: &mut Seat<Book<K>>,
    drivers: u32,
) -> WorkerEnd
    requires idle { IsIdle board.now seat.old }
    ensures idle { IsIdle board.now seat.new }
    ensures same { IsSameSeat seat.old seat.new }
    ensures flushes { FlushesBy result seat.old.view.number seat.old.view.seen seat.new.view.seen }
    ensures closed { IfClosed result (IsEachClosed drivers seat.new.view.seen) }
    ensures round { IfClosed result (HasGoneRound seat.old.view.number seat.old.view.seen seat.new.view.seen) }
{
    let mut watch = Watch::new();
    for _ in rt.forever() {
        if let Err(AllocError) = go_round(rt, alloc, board, seat) {
            return WorkerEnd::Memory;
        }
        if look_closed(rt, board, seat, &mut watch, drivers) {
            return WorkerEnd::Closed;
        }
        thread::yield_now();
    }
    unreachable!()
}

// Goes once through the documents, and flushes each whose version isn't kept.
fn go_round<K: Keeper, R: Wait>(
    rt: &R,
    alloc: Global,
    board: &Board<Book<K>>,
    seat: &mut Seat<Book<K>>,
) -> Result<(), AllocError>
    requires idle { IsIdle board.now seat.old }
    ensures idle { IsIdle board.now seat.new }
    ensures same { IsSameSeat seat.old seat.new }
    ensures flushes { OnOk result (FlushesSome seat.old.view.number seat.old.view.seen seat.new.view.seen) }
    ensures short { OnErr result (FlushesShort seat.old.view.number seat.old.view.seen seat.new.view.seen) }
    ensures round { OnOk result (HasGoneRound seat.old.view.number seat.old.view.seen seat.new.view.seen) }
{
    let mut doc = 0;
    for _ in rt.forever() {
        if doc >= count_docs(rt, board, seat) {
            return Ok(());
        }
        flush_if_needed(rt, alloc, board, seat, doc)?;
        doc += 1;
    }
    unreachable!()
}
