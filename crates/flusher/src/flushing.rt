//! A flush in two turns: the document is acquired, and it is put and its lock released. Between them the
//! document that is kept is made, without the turn.

ghost use Rattle.std.specs.Prelude.{◌≡◌, OnOk, OnErr, None};
ghost use Rattle.journal_rules.specs.Documents.{IsMade};
ghost use Rattle.run_rules.specs.Threads.{is_by};
ghost use Rattle.seat_turns.specs.Seats.{IsIdle, IsSameSeat};
ghost use Rattle.turn_rules.specs.Turns.{Among, entry_by};
ghost use Rattle.flusher.specs.Flushing.{FlushesShort, FlushesSome};
ghost use Rattle.flusher.specs.Putting.{EndsFlush};
ghost use Rattle.flusher.specs.Taking.{AcquiresIfNeeded, IsTakenUp};
ghost use Rattle.flusher.specs.Visiting.{IsVisited};

use crate::putting::{acquire_if_needed, put_and_release};
use board::{Board, Seat};
use book::{Book, By, KeptLook};
use flush_manager::kept_of;
use keeper::Keeper;
use seat_turns::{give, take};
use std::alloc::{AllocError, Global};
use std::sync::Wait;

// Flushes a document whose version isn't kept, where it can be acquired.
pub(crate) fn flush_if_needed<K: Keeper, R: Wait>(
    rt: &R,
    alloc: Global,
    board: &Board<Book<K>>,
    seat: &mut Seat<Book<K>>,
    doc: u32,
) -> Result<(), AllocError>
    requires idle { IsIdle board.now seat.old }
    requires made { IsMade doc seat.old.view.seen }
    ensures idle { IsIdle board.now seat.new }
    ensures same { IsSameSeat seat.old seat.new }
    ensures flushes { OnOk result (FlushesSome seat.old.view.number seat.old.view.seen seat.new.view.seen) }
    ensures short { OnErr result (FlushesShort seat.old.view.number seat.old.view.seen seat.new.view.seen) }
    ensures visited { OnOk result (IsVisited seat.old.view.number doc seat.old.view.seen seat.new.view.seen) }
{
    match take_up(rt, board, seat, doc)? {
        Some(look) => settle(rt, alloc, board, seat, look),
        None => Ok(()),
    }
}

// The turn that acquires a document whose version isn't kept. It is `None` where it is kept, or can't be
// acquired.
fn take_up<K: Keeper, R: Wait>(
    rt: &R,
    board: &Board<Book<K>>,
    seat: &mut Seat<Book<K>>,
    doc: u32,
) -> Result<Option<KeptLook>, AllocError>
    requires idle { IsIdle board.now seat.old }
    requires made { IsMade doc seat.old.view.seen }
    ensures idle { IsIdle board.now seat.new }
    ensures same { IsSameSeat seat.old seat.new }
    ensures takes { AcquiresIfNeeded (entry_by seat.old.view.number None) (Among (is_by seat.old.view.number)) seat.old.view.number doc seat.old.view.seen seat.new.view.seen result }
{
    let by = By {
        seat: seat.number(),
        line: None,
    };
    let mut book = take(rt, board, seat);
    let taken = acquire_if_needed(&mut book, by, doc);
    give(board, seat, book);
    taken
}

// Makes the document that is kept, without the turn; then the turn that puts it and releases the lock.
fn settle<K: Keeper, R: Wait>(
    rt: &R,
    alloc: Global,
    board: &Board<Book<K>>,
    seat: &mut Seat<Book<K>>,
    look: KeptLook,
) -> Result<(), AllocError>
    requires idle { IsIdle board.now seat.old }
    requires taken { IsTakenUp seat.old.view.number look seat.old.view.seen }
    ensures idle { IsIdle board.now seat.new }
    ensures same { IsSameSeat seat.old seat.new }
    ensures puts { EndsFlush (entry_by seat.old.view.number None) (Among (is_by seat.old.view.number)) look.doc look.token seat.old.view.seen seat.new.view.seen result }
{
    let kept = kept_of(alloc, &look);
    let by = By {
        seat: seat.number(),
        line: None,
    };
    let mut book = take(rt, board, seat);
    book.legal();
    let put = put_and_release(&mut book, by, look, kept);
    give(board, seat, book);
    put
}
