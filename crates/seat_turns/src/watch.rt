//! Whether the drivers have closed.

ghost use Rattle.std.specs.Prelude.{◌≡◌, ℕ, true, nat_le, slice_get};
ghost use Rattle.journal_entries.specs.declared.act.Entry.{Entry};
ghost use Rattle.journal_rules.specs.Documents.{is_in};
ghost use Rattle.journal_rules.specs.Legal.{closed};
ghost use Rattle.run_rules.specs.Threads.{is_by};
ghost use Rattle.turn_rules.specs.Turns.{Among};
ghost use Rattle.seat_turns.specs.Closings.{IsEachClosed, is_closing_in};
ghost use Rattle.seat_turns.specs.Seats.{IsIdle, IsSameSeat};

use crate::turns::{give, take};
use board::{Board, Seat};
use book::Book;
use journal_entries::{Act, Entry};
use keeper::Keeper;
use std::marker::Model;
use std::sync::Wait;

/// How far a journal was read for the drivers' closings, so that no turn reads again what another read.
/// Contracts see below which number the drivers are known to have closed.
#[derive(Drop)]
pub struct Watch {
    known: u32,
    // Up to here the next driver hasn't closed.
    read: usize,
}

impl Model for Watch {
    ghost use Rattle.std.specs.Prelude.{ℕ};

    ghost Value = { ℕ };

    ghost view = { λ watch. watch.known };
}

impl Watch {
    /// Nothing was read yet. Takes no memory.
    pub fn new() -> Watch
        ensures { result ≡ 0 }
    {
        Watch { known: 0, read: 0 }
    }

    // Reads on.
    fn read_on(&mut self, entries: &[Entry], drivers: u32)
        requires { IsEachClosed self.old entries.now }
        ensures { IsEachClosed self.new entries.now }
    {
        while self.known < drivers {
            if !closes(entries, self.read, self.known) {
                self.read = entries.len();
                return;
            }
            self.known += 1;
            self.read = 0;
        }
    }

    // Whether the drivers below this number are known to have closed.
    fn knows(&self, drivers: u32) -> bool
        ensures { result ≡ nat_le drivers self.now }
    {
        self.known >= drivers
    }
}

// Whether a driver closes at this place or behind it.
fn closes(entries: &[Entry], from: usize, driver: u32) -> bool
    ensures { result ≡ true → is_in driver (closed entries.now) ≡ true }
{
    for at in from..entries.len() {
        if closes_at(entries, at, driver) {
            return true;
        }
    }
    false
}

// Whether the entry at this place is a driver's closing.
fn closes_at(entries: &[Entry], at: usize, driver: u32) -> bool
    ensures { result ≡ is_closing_in driver (slice_get entries.now at) }
{
    match entries.get(at) {
        Some(entry) => match entry.act {
            Act::Closed { driver: closed } => closed == driver,
            _ => false,
        },
        None => false,
    }
}

/// The turn that looks whether each of the `drivers` drivers has closed.
pub fn look_closed<K: Keeper, R: Wait>(
    rt: &R,
    board: &Board<Book<K>>,
    seat: &mut Seat<Book<K>>,
    watch: &mut Watch,
    drivers: u32,
) -> bool
    requires idle { IsIdle board.now seat.old }
    requires known { IsEachClosed watch.old seat.old.view.seen }
    ensures idle { IsIdle board.now seat.new }
    ensures same { IsSameSeat seat.old seat.new }
    ensures among { Among (is_by seat.old.view.number) seat.old.view.seen seat.new.view.seen }
    ensures known { IsEachClosed watch.new seat.new.view.seen }
    ensures closed { result ≡ true → IsEachClosed drivers seat.new.view.seen }
{
    let book = take(rt, board, seat);
    watch.read_on(book.journal().as_slice(), drivers);
    give(board, seat, book);
    watch.knows(drivers)
}
