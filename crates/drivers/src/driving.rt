//! What the driver does from its start to its end.

ghost use Rattle.std.specs.Prelude.{◌≡◌, ℕ, length, List, IfOk, All};
ghost use Rattle.journal_entries.specs.declared.act.Entry.{Entry};
ghost use Rattle.run_rules.specs.Keeping.{nothing_kept};
ghost use Rattle.run_rules.specs.Lines.{numbered};
ghost use Rattle.run_rules.specs.Threads.{DriverFollows, with_workers};
ghost use Rattle.script_driver.specs.Clients.{AreClientsOf};
ghost use Rattle.script_driver.specs.Fitting.{CanBeDriven};
ghost use Rattle.script_driver.specs.Handing.{items_handed_by};
ghost use Rattle.script_driver.specs.Holding.{kept_in};
ghost use Rattle.seat_turns.specs.Closings.{IfClosed, IsEachClosed};
ghost use Rattle.seat_turns.specs.Seats.{IsAtRest, IsIdle, IsSameSeat};
ghost use Rattle.turn_rules.specs.Turns.{is_by};
ghost use Rattle.drivers.specs.Driving.{Drives, IsKept, IsOpen, StartsWith};

use crate::stepping::{Keeping, close, do_where_driven};
use board::{Board, Seat};
use book::Book;
use history_queue::Item;
use keeper::Keeper;
use script_driver::{away_clients, no_holds};
use seat_turns::{WorkerEnd, sit_down};
use session_lines::Line;
use share_client::ShareClient;
use std::alloc::{AllocError, Global};
use std::sync::Wait;
use wake_queue::{QueuePast, WakePass, WakeQueue};

/// A driver that is done, with the seat and the pass that it was given.
#[derive(Drop)]
pub struct DriverDone<K: Keeper, N: QueuePast> {
    /// [`WorkerEnd::Closed`] where all lines were done; [`WorkerEnd::Memory`] where memory was wanting for
    /// one of them, or the clock was at its end.
    pub end: WorkerEnd,
    pub seat: Seat<Book<K>>,
    pub pass: WakePass<N>,
    /// The clients of the sessions, by their numbers.
    pub clients: Vec<ShareClient>,
    /// What was handed out of the projects' histories, in order.
    pub handed: Vec<Item>,
}

/// The course of the one driver of a run with workers, on seat 1: it does the lines of the sessions in
/// order, each in one turn, and closes. The lines that make documents are passed over, for seat 0 did them
/// before. It closes where memory was wanting, too: else the workers would wait for it.
///
/// Behind a line that may have sent something a wake is pushed for its document. It waits for its turns.
pub fn drive<K: Keeper, N: QueuePast, R: Wait>(
    rt: &R,
    alloc: Global,
    board: &Board<Book<K>>,
    mut seat: Seat<Book<K>>,
    wakes: &WakeQueue<N>,
    mut pass: WakePass<N>,
    lines: Vec<Line>,
    sessions: u32,
) -> DriverDone<K, N>
    requires seat { IsAtRest board.now seat }
    requires first { (seat.view.number ≡ 1) × (seat.view.drivers ≡ 1) }
    requires made { All (λ e. e.seat ≡ 0) seat.view.seen }
    requires pass { pass.queue ≡ wakes.now }
    requires lines { CanBeDriven sessions lines.items }
    ensures seat { IsAtRest board.now result.seat × IsSameSeat seat result.seat }
    ensures pass { (result.pass.queue ≡ wakes.now) × (result.pass.number ≡ pass.number) }
    ensures closed { IsEachClosed 1 result.seat.view.seen }
    ensures follows { IfClosed result.end ((workers : ℕ) → DriverFollows (with_workers workers) lines.items seat.view.seen result.seat.view.seen 0) }
    ensures clients { IfClosed result.end (AreClientsOf result.clients.items result.seat.view.seen × (length result.clients.items ≡ sessions)) }
    ensures handed { IfClosed result.end (result.handed.items ≡ items_handed_by (is_by 1) result.seat.view.seen) }
{
    sit_down(rt, board, &mut seat);
    let done = do_lines(
        rt, alloc, board, &mut seat, wakes, &mut pass, lines, sessions,
    );
    close(rt, board, &mut seat);
    match done {
        Ok(
            Keeping {
                clients,
                handed,
                ..
            },
        ) => DriverDone {
            end: WorkerEnd::Closed,
            seat,
            pass,
            clients,
            handed,
        },
        Err(_) => DriverDone {
            end: WorkerEnd::Memory,
            seat,
            pass,
            clients: Vec::new(alloc),
            handed: Vec::new(alloc),
        },
    }
}

// Does the lines in order, from line 1 on.
fn do_lines<K: Keeper, N: QueuePast, R: Wait>(
    rt: &R,
    alloc: Global,
    board: &Board<Book<K>>,
    seat: &mut Seat<Book<K>>,
    wakes: &WakeQueue<N>,
    pass: &mut WakePass<N>,
    lines: Vec<Line>,
    sessions: u32,
) -> Result<Keeping, AllocError>
    requires idle { IsIdle board.now seat.old }
    requires first { (seat.old.view.number ≡ 1) × (seat.old.view.drivers ≡ 1) }
    requires starts { StartsWith seat.old.view.seen }
    requires pass { pass.old.queue ≡ wakes.now }
    requires lines { CanBeDriven sessions lines.items }
    ensures idle { IsIdle board.now seat.new }
    ensures same { IsSameSeat seat.old seat.new }
    ensures pass { (pass.new.queue ≡ wakes.now) × (pass.new.number ≡ pass.old.number) }
    ensures unclosed { IsOpen seat.new.view.seen }
    ensures kept { IfOk result (λ kept. IsKept kept seat.new.view.seen) }
    ensures many { IfOk result (λ kept. length kept.holds.items ≡ sessions) }
    ensures drives { IfOk result (λ kept. Drives (numbered 1 lines.items) nothing_kept seat.old.view.seen seat.new.view.seen) }
{
    let mut kept = nothing_yet(alloc, sessions)?;
    let mut number = 1;
    for line in lines {
        kept = do_where_driven(rt, alloc, board, seat, wakes, pass, kept, number, line)?;
        number += 1;
    }
    Ok(kept)
}

// What is kept before the first line.
fn nothing_yet(alloc: Global, sessions: u32) -> Result<Keeping, AllocError>
    ensures kept { IfOk result (λ kept. (seen : List Entry) → StartsWith seen → IsKept kept seen) }
    ensures many { IfOk result (λ kept. length kept.holds.items ≡ sessions) }
    ensures nothing { IfOk result (λ kept. kept_in kept.holds.items ≡ nothing_kept) }
{
    let holds = no_holds(alloc, sessions)?;
    let clients = away_clients(alloc, sessions)?;
    Ok(Keeping {
        holds,
        clients,
        handed: Vec::new(alloc),
    })
}
