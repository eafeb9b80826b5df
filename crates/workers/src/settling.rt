//! An update in two turns: it is taken up, decided on without the turn, and committed.

ghost use Rattle.std.specs.Prelude.{◌≡◌, true, IfOk, IfErr, Some, None};
ghost use Rattle.book.specs.Calls.{MayRefuse};
ghost use Rattle.expiring_lock.specs.declared.refusal.Stale.{Stale};
ghost use Rattle.book.specs.Looking.{CanDecide, IsDecided};
ghost use Rattle.journal_entries.specs.declared.update.Cause.TheVariants.{Memory as NoMemory};
ghost use Rattle.run_rules.specs.Threads.{is_by};
ghost use Rattle.turn_rules.specs.Draining.{IsTakenOver, Settles, TakesUp};
ghost use Rattle.turn_rules.specs.Locking.{staleness};
ghost use Rattle.turn_rules.specs.Turns.{Alone, Among, Turn, entry_by};
ghost use Rattle.workers.specs.Draining.{IsWhyNoMore};
ghost use Rattle.seat_turns.specs.Seats.{IsIdle, IsSameSeat};
ghost use Rattle.workers.specs.Taking.{EndsUpdate, IsTakenUp};

use crate::gate::Gate;
use board::{Board, Seat};
use book::{AcquireFault, Book, By, CommitFault, Prepared};
use dup_check::{Decision, Snapshot, decide};
use journal_entries::Cause;
use keeper::Keeper;
use seat_turns::{give, take};
use std::alloc::{AllocError, Global};
use std::sync::Wait;

// The turn that acquires a document's lock, to take up the first update that waits.
pub(crate) fn take_up<K: Keeper, R: Wait>(
    rt: &R,
    board: &Board<Book<K>>,
    seat: &mut Seat<Book<K>>,
    doc: u32,
) -> Result<Snapshot, AcquireFault>
    requires idle { IsIdle board.now seat.old }
    ensures idle { IsIdle board.now seat.new }
    ensures same { IsSameSeat seat.old seat.new }
    ensures takes { IfOk result (λ look. Turn (Among (is_by seat.old.view.number)) (TakesUp (entry_by seat.old.view.number None) doc look.token true) seat.old.view.seen seat.new.view.seen) }
    ensures taken { IfOk result (λ look. IsTakenUp seat.old.view.number look seat.new.view.seen × (look.doc ≡ doc)) }
    ensures ready { IfOk result (λ look. CanDecide look) }
    ensures refused { IfErr result (λ f. Among (is_by seat.old.view.number) seat.old.view.seen seat.new.view.seen × IsWhyNoMore doc seat.new.view.seen f) }
{
    let by = By {
        seat: seat.number(),
        line: None,
    };
    let mut book = take(rt, board, seat);
    book.legal();
    let taken = book.acquire(by, doc);
    give(board, seat, book);
    taken
}

// Decides on what was taken up, without the turn; then the turn that commits it and releases the lock.
pub(crate) fn settle<K: Keeper, G: Gate, R: Wait>(
    rt: &R,
    alloc: Global,
    board: &Board<Book<K>>,
    seat: &mut Seat<Book<K>>,
    look: Snapshot,
    worker: u32,
    gate: &G,
)
    requires idle { IsIdle board.now seat.old }
    requires taken { IsTakenUp seat.old.view.number look seat.old.view.seen }
    requires ready { CanDecide look }
    ensures idle { IsIdle board.now seat.new }
    ensures same { IsSameSeat seat.old seat.new }
    ensures settles { Settles (entry_by seat.old.view.number None) (Among (is_by seat.old.view.number)) true look.doc look.token seat.old.view.seen seat.new.view.seen }
{
    let decision = decide_by(alloc, &look);
    gate.computed(worker, look.doc);
    let by = By {
        seat: seat.number(),
        line: None,
    };
    let mut book = take(rt, board, seat);
    book.legal();
    finish(&mut book, by, look, decision);
    give(board, seat, book);
}

// The decision on what was taken up. Memory may be wanting.
fn decide_by(alloc: Global, look: &Snapshot) -> Result<Decision, AllocError>
    requires { CanDecide look.now }
    ensures { IfOk result (λ d. IsDecided look.now d) }
{
    decide(alloc, look)
}

// Commits the decision and releases the lock. Nothing is done where another acquired the lock since.
fn finish<K: Keeper>(
    book: &mut Book<K>,
    by: By,
    look: Snapshot,
    decision: Result<Decision, AllocError>,
)
    requires taken { IsTakenUp by.seat look book.old.journal }
    requires decided { IfOk decision (λ d. IsDecided look d) }
    ensures settles { Settles (entry_by by.seat by.line) Alone true look.doc look.token book.old.journal book.new.journal }
    ensures same { (book.new.drivers ≡ book.old.drivers) × (book.new.start ≡ book.old.start) }
{
    let (doc, token) = (look.doc, look.token);
    book.legal();
    if commit_or_refuse(book, by, look, decision) {
        let _ = book.release(by, doc, token);
    }
}

// Commits the decision; where memory was wanting for it or for its commit, the update is refused for that. It is
// false where another acquired the lock since: then all is as it was.
fn commit_or_refuse<K: Keeper>(
    book: &mut Book<K>,
    by: By,
    look: Snapshot,
    decision: Result<Decision, AllocError>,
) -> bool
    requires taken { IsTakenUp by.seat look book.old.journal }
    requires decided { IfOk decision (λ d. IsDecided look d) }
    ensures { EndsUpdate by.seat by.line look.doc look.token look.ticket book.old book.new result }
{
    let (doc, token, ticket) = (look.doc, look.token, look.ticket);
    book.legal();
    let Ok(decision) = decision else {
        return refuse(book, by, doc, token, ticket);
    };
    match book.commit(by, Prepared { look, decision }) {
        Ok(()) => true,
        Err(CommitFault::Stale(_)) => false,
        Err(CommitFault::Memory(_)) => refuse(book, by, doc, token, ticket),
    }
}

// Refuses what was taken up, for want of memory. It is false where another acquired the lock since.
fn refuse<K: Keeper>(book: &mut Book<K>, by: By, doc: u32, token: u64, ticket: u64) -> bool
    requires may { staleness doc token book.old.journal ≡ None → MayRefuse book.old.journal by.seat doc token ticket NoMemory }
    requires over { (s : Stale) → staleness doc token book.old.journal ≡ Some s → IsTakenOver doc token book.old.journal }
    ensures { EndsUpdate by.seat by.line doc token ticket book.old book.new result }
{
    match book.refuse(by, doc, token, ticket, Cause::Memory) {
        Ok(()) => true,
        Err(_) => false,
    }
}
