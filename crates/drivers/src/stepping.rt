//! The turns of the driver.

ghost use Rattle.std.specs.Prelude.{◌≡◌, ℕ, ◌∷◌, ◌++◌, [], true, length, List, IfOk, Some};
ghost use Rattle.journal_entries.specs.declared.act.Entry.{Entry};
ghost use Rattle.run_rules.specs.Lines.{Does};
ghost use Rattle.run_rules.specs.Threads.{closing};
ghost use Rattle.script_driver.specs.Fitting.{IsFit, is_built};
ghost use Rattle.script_driver.specs.Holding.{kept_in};
ghost use Rattle.seat_turns.specs.Closings.{IsEachClosed};
ghost use Rattle.seat_turns.specs.Seats.{IsIdle, IsInTurn, IsSameSeat};
ghost use Rattle.session_lines.specs.Script.{session_of};
ghost use Rattle.session_lines.specs.Standing.{is_one_of};
ghost use Rattle.session_lines.specs.declared.line.Line.{Line as ScriptLine};
ghost use Rattle.turn_rules.specs.Turns.{Among, is_by};
ghost use Rattle.drivers.specs.Driving.{Drives, IsKept, IsLook, IsOpen};

use board::{Board, Seat};
use book::{Book, By, Prepared};
use history_queue::Item;
use keeper::Keeper;
use script_driver::Driver;
use seat_turns::{give, take};
use session_lines::Line;
use share_client::ShareClient;
use std::alloc::{AllocError, Global};
use std::sync::Wait;
use wake_queue::{QueuePast, WakePass, WakeQueue};

/// The driver's seat: it stands behind seat 0.
const SEAT: u32 = 1;

/// What the driver keeps from one of its turns to the next: what sessions hold, their clients, and what was
/// handed out.
#[derive(Drop)]
pub(crate) struct Keeping {
    pub holds: Vec<Option<Prepared>>,
    pub clients: Vec<ShareClient>,
    pub handed: Vec<Item>,
}

// Waits for the turn.
fn look<K: Keeper, R: Wait>(rt: &R, board: &Board<Book<K>>, seat: &mut Seat<Book<K>>) -> Book<K>
    requires idle { IsIdle board.now seat.old }
    requires first { (seat.old.view.number ≡ 1) × (seat.old.view.drivers ≡ 1) }
    ensures turn { IsInTurn board.now seat.new result.journal result.drivers result.start }
    ensures same { IsSameSeat seat.old seat.new }
    ensures looks { IsLook seat.old.view.seen result.journal }
{
    let book = take(rt, board, seat);
    book.legal();
    book.owned();
    book
}

/// The turn in which the driver closes.
pub(crate) fn close<K: Keeper, R: Wait>(rt: &R, board: &Board<Book<K>>, seat: &mut Seat<Book<K>>)
    requires idle { IsIdle board.now seat.old }
    requires first { (seat.old.view.number ≡ 1) × (seat.old.view.drivers ≡ 1) }
    requires unclosed { IsOpen seat.old.view.seen }
    ensures idle { IsIdle board.now seat.new }
    ensures same { IsSameSeat seat.old seat.new }
    ensures closed { IsEachClosed 1 seat.new.view.seen }
    ensures closes { (journal : List Entry) × IsLook seat.old.view.seen journal × (seat.new.view.seen ≡ journal ++ closing 0 ∷ []) }
{
    let mut book = look(rt, board, seat);
    let by = By {
        seat: SEAT,
        line: None,
    };
    book.close_driver(by, 0);
    give(board, seat, book);
}

/// The turn in which a line of a session is done. Behind it a wake is pushed for the document that the
/// line may have sent to. Where memory is wanting, what was kept is dropped.
pub(crate) fn do_turn<K: Keeper, N: QueuePast, R: Wait>(
    rt: &R,
    alloc: Global,
    board: &Board<Book<K>>,
    seat: &mut Seat<Book<K>>,
    wakes: &WakeQueue<N>,
    pass: &mut WakePass<N>,
    kept: Keeping,
    number: u32,
    line: Line,
) -> Result<Keeping, AllocError>
    requires idle { IsIdle board.now seat.old }
    requires first { (seat.old.view.number ≡ 1) × (seat.old.view.drivers ≡ 1) }
    requires pass { pass.old.queue ≡ wakes.now }
    requires kept { IsKept kept seat.old.view.seen }
    requires fit { IsFit [] line }
    requires built { is_built line ≡ true }
    requires session { (session : ℕ) × (session_of line ≡ Some session) }
    requires numbered { is_one_of (length kept.holds.items) (session_of line) ≡ true }
    ensures idle { IsIdle board.now seat.new }
    ensures same { IsSameSeat seat.old seat.new }
    ensures pass { (pass.new.queue ≡ wakes.now) × (pass.new.number ≡ pass.old.number) }
    ensures unclosed { IsOpen seat.new.view.seen }
    ensures kept { IfOk result (λ after. IsKept after seat.new.view.seen) }
    ensures many { IfOk result (λ after. length after.holds.items ≡ length kept.holds.items) }
    ensures does { IfOk result (λ after. Does 1 (Among (is_by 1)) number line (kept_in kept.holds.items) seat.old.view.seen seat.new.view.seen (kept_in after.holds.items)) }
{
    let book = look(rt, board, seat);
    let Keeping {
        holds,
        clients,
        handed,
    } = kept;
    let woken = woken_by(&book, &clients, &line);
    let mut driver = Driver {
        seat: SEAT,
        book,
        holds,
        clients,
        handed,
    };
    let done = driver.do_line(alloc, number, line);
    let Driver {
        book,
        holds,
        clients,
        handed,
        ..
    } = driver;
    give(board, seat, book);
    wake(rt, wakes, pass, woken);
    match done {
        Ok(()) => Ok(Keeping {
            holds,
            clients,
            handed,
        }),
        Err(fault) => Err(fault),
    }
}

// The document that a line may send to: it is named, or its client's.
fn woken_by<K: Keeper>(book: &Book<K>, clients: &Vec<ShareClient>, line: &Line) -> Option<u32> {
    match line {
        Line::Raw { doc, .. } => book.find(doc),
        Line::Send { session } | Line::Resend { session } => {
            clients.get(*session as usize)?.doc()
        }
        _ => None,
    }
}

// Pushes a wake. That there is no memory for it is no fault: at the end each document is swept.
fn wake<N: QueuePast, R: Wait>(
    rt: &R,
    wakes: &WakeQueue<N>,
    pass: &mut WakePass<N>,
    doc: Option<u32>,
)
    requires { pass.old.queue ≡ wakes.now }
    ensures { (pass.new.queue ≡ wakes.now) × (pass.new.number ≡ pass.old.number) }
{
    if let Some(doc) = doc {
        let _ = wakes.push(rt, pass, doc);
    }
}

/// Does a line where a session does it. A line that makes a document is passed over: it was done before.
pub(crate) fn do_where_driven<K: Keeper, N: QueuePast, R: Wait>(
    rt: &R,
    alloc: Global,
    board: &Board<Book<K>>,
    seat: &mut Seat<Book<K>>,
    wakes: &WakeQueue<N>,
    pass: &mut WakePass<N>,
    kept: Keeping,
    number: u32,
    line: Line,
) -> Result<Keeping, AllocError>
    requires idle { IsIdle board.now seat.old }
    requires first { (seat.old.view.number ≡ 1) × (seat.old.view.drivers ≡ 1) }
    requires pass { pass.old.queue ≡ wakes.now }
    requires kept { IsKept kept seat.old.view.seen }
    requires unclosed { IsOpen seat.old.view.seen }
    requires fit { (session : ℕ) → session_of line ≡ Some session → IsFit [] line }
    requires built { is_built line ≡ true }
    requires numbered { is_one_of (length kept.holds.items) (session_of line) ≡ true }
    ensures idle { IsIdle board.now seat.new }
    ensures same { IsSameSeat seat.old seat.new }
    ensures pass { (pass.new.queue ≡ wakes.now) × (pass.new.number ≡ pass.old.number) }
    ensures unclosed { IsOpen seat.new.view.seen }
    ensures kept { IfOk result (λ after. IsKept after seat.new.view.seen) }
    ensures many { IfOk result (λ after. length after.holds.items ≡ length kept.holds.items) }
    ensures goes { IfOk result (λ after. (rest : List (ℕ × ScriptLine)) (last : List Entry) → Drives rest (kept_in after.holds.items) seat.new.view.seen last → Drives ((number, line) ∷ rest) (kept_in kept.holds.items) seat.old.view.seen last) }
{
    match line.session() {
        None => Ok(kept),
        Some(_) => do_turn(rt, alloc, board, seat, wakes, pass, kept, number, line),
    }
}
