//! Turns on one value.

ghost use Rattle.std.specs.Prelude.{◌≡◌, ◌≢◌, ◌+◌, ◌<◌, ◌++◌, true, false, length, List, All, IfOk, IfErr, OnOk, OnErr};

use crate::held::Held;
use crate::journaled::Journaled;
use crate::rule::{BoardRule, Give, JoinSeat, Look, SplitSeat, Take};
use crate::seat::Seat;
use crate::view::View;
use atomic_table::{Refused, Table};
use std::alloc::{AllocError, Global};
use std::marker::Model;
use std::snapshot::Snapshot;
use std::sync::Wait;

/// A value, and whose turn it is: one word, which single steps change, and one slot. Contracts see which
/// board it is.
#[derive(Drop)]
pub struct Board<B: Journaled> {
    table: Table<Option<B>, View, Snapshot<B>, BoardRule, Global>,
}

impl<B: Journaled> Model for Board<B> {
    ghost use Rattle.std.specs.Prelude.{◌≡◌};
    ghost use Rattle.atomic_table.specs.Seated.{TableId, table_id_coded};

    ghost Value = { TableId };

    ghost coded = { table_id_coded };

    ghost view = { λ b. b.table.shared.table_id };

    ghost invariant = { λ b. (b.table.shared.table_id.words ≡ 1) × (b.table.shared.table_id.slots ≡ 1) };
}

impl<B: Journaled> Board<B> {
    ghost use Rattle.journal_entries.specs.declared.act.Entry.{Entry};
    ghost use Rattle.board.specs.Views.{opened, counted, newcomer, taken_in, gave};
    ghost use Rattle.board.specs.Turns.{Takes, TakesLate, Finds, Extends, Ends};

    /// Puts a value on a board, and gives seat 0, which made all its entries. Where memory is wanting the
    /// value is handed back.
    pub fn new(alloc: Global, value: B) -> Result<(Board<B>, Seat<B>), (AllocError, B)>
        requires { All (λ e. e.seat ≡ 0) (B.journal value) }
        ensures ok { IfOk result (λ r. (r.1.board ≡ r.0) × (r.1.view ≡ opened (B.journal value) (B.drivers value) (B.start value))) }
        ensures err { IfErr result (λ r. r.1 ≡ value) }
    {
        let key = Snapshot::of(&value);
        let first = 2 * value.length();
        let Ok(mut slots) = Vec::with_capacity(alloc, 1) else {
            return Err((AllocError, value));
        };
        slots.push_reserved(Some(value));
        match Table::new(alloc, &[first], slots, &key) {
            Ok((table, inner)) => Ok((
                Board { table },
                Seat {
                    inner,
                    number: 0,
                    count: 1,
                },
            )),
            Err(Refused { mut slots }) => match slots.pop() {
                Some(Some(value)) => Err((AllocError, value)),
                _ => unreachable!(),
            },
        }
    }

    /// Makes a seat more, with the next number. It has seen what seat 0 has.
    pub fn split(&self, seat: &mut Seat<B>) -> Result<Seat<B>, AllocError>
        requires board { seat.old.board ≡ self.now }
        requires first { seat.old.view.number ≡ 0 }
        requires room { seat.old.view.count < 4294967295 }
        ensures kept { OnOk result ((seat.new.board ≡ seat.old.board) × (seat.new.view ≡ counted seat.old.view)) }
        ensures err { OnErr result (seat.new ≡ seat.old) }
        ensures new { IfOk result (λ s. (s.board ≡ seat.old.board) × (s.view ≡ newcomer seat.old.view)) }
    {
        let inner = self.table.shared.split_seat::<SplitSeat>(&mut seat.inner);
        let number = seat.count;
        seat.count += 1;
        Ok(Seat {
            inner,
            number,
            count: 0,
        })
    }

    /// Takes a seat that is done into seat 0, which keeps its number with what it saw last.
    pub fn join(&self, seat: &mut Seat<B>, other: Seat<B>)
        requires boards { (seat.old.board ≡ self.now) × (other.board ≡ self.now) }
        requires first { seat.old.view.number ≡ 0 }
        requires other { (other.view.number ≢ 0) × (other.view.holds ≡ false) }
        ensures { (seat.new.board ≡ seat.old.board) × (seat.new.view ≡ taken_in seat.old.view other.view) }
    {
        let Seat {
            inner,
            number: _,
            count: _,
        } = other;
        self.table
            .shared
            .join_seat::<JoinSeat>(&mut seat.inner, inner);
    }

    /// The value, once all other seats were joined.
    pub fn close(self, seat: Seat<B>) -> B
        requires board { seat.board ≡ self }
        requires first { (seat.view.number ≡ 0) × (seat.view.holds ≡ false) }
        requires all { length seat.view.joined + 1 ≡ seat.view.count }
        ensures { Ends B.journal B.drivers B.start seat.view result }
    {
        let Board { table } = self;
        let Seat {
            inner,
            number: _,
            count: _,
        } = seat;
        let mut closed = table.close_with(inner);
        let value = closed.take(0);
        closed.free();
        value.unwrap()
    }

    /// Takes the turn, if nobody has it. It tries once, and never waits.
    pub fn try_take(&self, seat: &mut Seat<B>) -> Result<B, Held>
        requires board { seat.old.board ≡ self.now }
        ensures board { seat.new.board ≡ seat.old.board }
        ensures taken { IfOk result (λ b. Takes B.journal B.drivers B.start seat.old.view seat.new.view b) }
        ensures held { IfErr result (λ h. Finds seat.old.view seat.new.view h) }
    {
        let shared = &self.table.shared;
        let loaded = shared.load::<Look>(&mut seat.inner, 0);
        if loaded % 2 == 1 {
            return Err(Held {
                loaded,
                found: loaded,
            });
        }
        let found = shared.compare_exchange::<Take>(&mut seat.inner, 0, loaded, loaded + 1);
        if found != loaded {
            return Err(Held { loaded, found });
        }
        let value = shared.exchange(&mut seat.inner, 0, None);
        Ok(value.unwrap())
    }

    /// Takes the turn, and waits for it as long as others have it. A thread that waits sleeps.
    pub fn take<R: Wait>(&self, rt: &R, seat: &mut Seat<B>) -> B
        requires board { seat.old.board ≡ self.now }
        ensures board { seat.new.board ≡ seat.old.board }
        ensures taken { TakesLate B.journal B.drivers B.start seat.old.view seat.new.view result }
    {
        for _ in rt.forever() {
            match self.try_take(seat) {
                Ok(value) => return value,
                Err(held) => self.sleep(rt, held),
            }
        }
        unreachable!()
    }

    // Sleeps until the turn was given back, or a while less. An even word is one that was given back.
    fn sleep<R: Wait>(&self, rt: &R, held: Held) {
        if held.found % 2 == 1 {
            let found = (held.found % (1 << 32)) as u32;
            self.table.shared.park(rt, 0, found);
        }
    }

    /// Gives the turn back with a value whose journal is longer by entries of this seat, and wakes one
    /// that waits for it.
    pub fn give(&self, seat: &mut Seat<B>, value: B)
        requires board { seat.old.board ≡ self.now }
        requires turn { seat.old.view.holds ≡ true }
        requires journal { Extends B.journal seat.old.view value }
        requires same { (B.drivers value ≡ seat.old.view.drivers) × (B.start value ≡ seat.old.view.start) }
        ensures seat { (seat.new.board ≡ seat.old.board) × (seat.new.view ≡ gave seat.old.view (B.journal value)) }
        ensures made { (own : List Entry) → B.journal value ≡ seat.old.view.seen ++ own → All (λ e. e.seat ≡ seat.old.view.number) own → seat.new.view.made ≡ seat.old.view.made ++ own }
    {
        let shared = &self.table.shared;
        let word = 2 * value.length();
        drop(shared.exchange(&mut seat.inner, 0, Some(value)));
        shared.swap::<Give>(&mut seat.inner, 0, word);
        shared.wake_one(0);
    }
}
