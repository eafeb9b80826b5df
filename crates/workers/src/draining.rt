//! Draining a document, in turns.

ghost use Rattle.std.specs.Prelude.{◌≡◌, OnOk, IfErr, None};
ghost use Rattle.run_rules.specs.Threads.{is_by};
ghost use Rattle.turn_rules.specs.Draining.{DrainsOne};
ghost use Rattle.turn_rules.specs.Turns.{Among, entry_by};
ghost use Rattle.workers.specs.Draining.{DrainsSome, IsWhyNoMore};
ghost use Rattle.seat_turns.specs.Seats.{IsIdle, IsSameSeat};

use crate::gate::Gate;
use crate::settling::{settle, take_up};
use board::{Board, Seat};
use book::{AcquireFault, Book};
use keeper::Keeper;
use std::alloc::Global;
use std::sync::Wait;

// Drains the first update that waits.
fn drain_one<K: Keeper, G: Gate, R: Wait>(
    rt: &R,
    alloc: Global,
    board: &Board<Book<K>>,
    seat: &mut Seat<Book<K>>,
    doc: u32,
    worker: u32,
    gate: &G,
) -> Result<(), AcquireFault>
    requires idle { IsIdle board.now seat.old }
    ensures idle { IsIdle board.now seat.new }
    ensures same { IsSameSeat seat.old seat.new }
    ensures drains { OnOk result (DrainsOne (entry_by seat.old.view.number None) (Among (is_by seat.old.view.number)) doc seat.old.view.seen seat.new.view.seen) }
    ensures refused { IfErr result (λ f. Among (is_by seat.old.view.number) seat.old.view.seen seat.new.view.seen × IsWhyNoMore doc seat.new.view.seen f) }
{
    let look = take_up(rt, board, seat, doc)?;
    settle(rt, alloc, board, seat, look, worker, gate);
    Ok(())
}

// Drains a document until no further update can be taken up, and answers why.
pub(crate) fn drain<K: Keeper, G: Gate, R: Wait>(
    rt: &R,
    alloc: Global,
    board: &Board<Book<K>>,
    seat: &mut Seat<Book<K>>,
    doc: u32,
    worker: u32,
    gate: &G,
) -> AcquireFault
    requires idle { IsIdle board.now seat.old }
    ensures idle { IsIdle board.now seat.new }
    ensures same { IsSameSeat seat.old seat.new }
    ensures drains { DrainsSome seat.old.view.number doc seat.old.view.seen seat.new.view.seen }
    ensures why { IsWhyNoMore doc seat.new.view.seen result }
{
    for _ in rt.forever() {
        if let Err(why) = drain_one(rt, alloc, board, seat, doc, worker, gate) {
            return why;
        }
    }
    unreachable!()
}
