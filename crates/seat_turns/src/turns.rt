//! Turns of a seat on a board with a book.

ghost use Rattle.std.specs.Prelude.{◌≡◌, ◌≢◌, false, length};
ghost use Rattle.journal_rules.specs.Documents.{makings};
ghost use Rattle.run_rules.specs.Threads.{is_by};
ghost use Rattle.turn_rules.specs.Turns.{Among};
ghost use Rattle.seat_turns.specs.Seats.{IsIdle, IsInTurn, IsLongerBy, IsSameSeat};

use board::{Board, Seat};
use book::Book;
use keeper::Keeper;
use std::sync::Wait;

/// The first turn, in which nothing is made: from then on the seat has seen all that it made.
pub fn sit_down<K: Keeper, R: Wait>(rt: &R, board: &Board<Book<K>>, seat: &mut Seat<Book<K>>)
    requires board { (seat.old.board ≡ board.now) × (seat.old.view.holds ≡ false) }
    ensures idle { IsIdle board.now seat.new }
    ensures same { IsSameSeat seat.old seat.new }
    ensures among { seat.old.view.number ≢ 0 → Among (is_by seat.old.view.number) seat.old.view.seen seat.new.view.seen }
{
    let book = board.take(rt, seat);
    board.give(seat, book);
}

/// Waits for the turn. Since the seat's last turn others made entries, or nobody did.
pub fn take<K: Keeper, R: Wait>(rt: &R, board: &Board<Book<K>>, seat: &mut Seat<Book<K>>) -> Book<K>
    requires idle { IsIdle board.now seat.old }
    ensures turn { IsInTurn board.now seat.new result.journal result.drivers result.start }
    ensures same { IsSameSeat seat.old seat.new }
    ensures among { Among (is_by seat.old.view.number) seat.old.view.seen result.journal }
{
    board.take(rt, seat)
}

/// Gives the turn back, with a journal that is longer by the seat's own entries. It doesn't wait.
pub fn give<K: Keeper>(board: &Board<Book<K>>, seat: &mut Seat<Book<K>>, book: Book<K>)
    requires turn { IsInTurn board.now seat.old seat.old.view.seen book.drivers book.start }
    requires own { IsLongerBy seat.old.view.number seat.old.view.seen book.journal }
    ensures idle { IsIdle board.now seat.new }
    ensures same { IsSameSeat seat.old seat.new }
    ensures seen { seat.new.view.seen ≡ book.journal }
{
    board.give(seat, book);
}

/// The turn that counts the documents that were made.
pub fn count_docs<K: Keeper, R: Wait>(
    rt: &R,
    board: &Board<Book<K>>,
    seat: &mut Seat<Book<K>>,
) -> u32
    requires idle { IsIdle board.now seat.old }
    ensures idle { IsIdle board.now seat.new }
    ensures same { IsSameSeat seat.old seat.new }
    ensures among { Among (is_by seat.old.view.number) seat.old.view.seen seat.new.view.seen }
    ensures docs { result ≡ length (makings seat.new.view.seen) }
{
    let book = take(rt, board, seat);
    let docs = book.docs();
    give(board, seat, book);
    docs
}
