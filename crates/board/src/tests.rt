//! Seats that take and give, on one thread and on two.

ghost use Rattle.std.specs.Prelude.{◌≡◌, ◌++◌, false, [], List, All, IfOk};
ghost use Rattle.journal_entries.specs.Journals.{entries};
ghost use Rattle.journal_entries.specs.declared.act.Entry.{Entry};

use crate::{Board, Held, Journaled, Seat};
use journal_entries::{Act, Entry, Journal};
use std::alloc::{AllocError, Global};
use std::sync::Wait;
use std::test::Fail;
use std::thread;

// A journal alone.
#[derive(Drop)]
struct Diary {
    journal: Journal,
}

impl Journaled for Diary {
    ghost journal = { λ d. entries d.journal };

    ghost drivers = { λ _. 3 };

    ghost start = { λ _. record { faults = 7; documents = [] } };

    fn length(&self) -> u64 {
        self.journal.len()
    }

    fn drivers(&self) -> u32 {
        3
    }
}

impl Diary {
    // The clock goes on by a millisecond. False where memory is wanting.
    fn tick(&mut self, seat: u32) -> bool
        ensures { (own : List Entry) × (entries self.new.journal ≡ entries self.old.journal ++ own) × All (λ e. e.seat ≡ seat) own }
    {
        if self.journal.reserve(1).is_err() {
            return false;
        }
        self.journal.push(Entry {
            seat,
            line: None,
            act: Act::Ticked { ms: 1 },
        });
        true
    }
}

// A diary with one entry, of seat 0.
fn begun(alloc: Global) -> Result<Diary, AllocError>
    ensures { IfOk result (λ d. All (λ e. e.seat ≡ 0) (entries d.journal)) }
{
    let mut diary = Diary {
        journal: Journal::new(alloc),
    };
    if diary.tick(0) {
        Ok(diary)
    } else {
        Err(AllocError)
    }
}

// Takes the turn, ticks, and gives the turn back.
fn turn<R: Wait>(rt: &R, board: &Board<Diary>, seat: &mut Seat<Diary>) -> bool
    requires { (seat.old.board ≡ board.now) × (seat.old.view.holds ≡ false) }
    ensures { (seat.new.board ≡ board.now) × (seat.new.view.holds ≡ false) × (seat.new.view.number ≡ seat.old.view.number) }
{
    let number = seat.number();
    let mut diary = board.take(rt, seat);
    let ticked = diary.tick(number);
    board.give(seat, diary);
    ticked
}

// So many turns, and how many of them ticked.
fn turns<R: Wait>(
    rt: &R,
    board: &Board<Diary>,
    mut seat: Seat<Diary>,
    times: u64,
) -> (u64, Seat<Diary>)
    requires { (seat.board ≡ board.now) × (seat.view.holds ≡ false) }
    ensures { (result.1.board ≡ board.now) × (result.1.view.holds ≡ false) × (result.1.view.number ≡ seat.view.number) }
{
    let mut ticked = 0;
    for _ in 0..times {
        if turn(rt, board, &mut seat) {
            ticked += 1;
        }
    }
    (ticked, seat)
}

#[test]
fn a_held_turn_is_refused(rt: HostRuntime) -> Result<(), Fail> {
    let diary = begun(rt.alloc())?;
    let (board, mut first) = Board::new(rt.alloc(), diary).map_err(|refused| refused.0)?;
    let mut second = board.split(&mut first)?;
    assert_eq!(rt; (first.number(), second.number()), (0, 1));
    let Ok(mut diary) = board.try_take(&mut first) else {
        return Err("the turn is free".into());
    };
    assert_eq!(rt; diary.drivers(), 3);
    match board.try_take(&mut second) {
        Ok(_) => return Err("the turn was held".into()),
        Err(Held { loaded, found }) => assert_eq!(rt; (loaded, found), (3, 3)),
    }
    assert!(rt; diary.tick(0));
    board.give(&mut first, diary);
    let diary = board.take(&rt, &mut second);
    assert_eq!(rt; diary.length(), 2);
    board.give(&mut second, diary);
    board.join(&mut first, second);
    let diary = board.close(first);
    assert_eq!(rt; diary.length(), 2);
    Ok(())
}

#[test]
fn two_threads_take_turns(rt: HostRuntime) -> Result<(), Fail> {
    let diary = begun(rt.alloc())?;
    let (board, mut first) = Board::new(rt.alloc(), diary).map_err(|refused| refused.0)?;
    let one = board.split(&mut first)?;
    let two = board.split(&mut first)?;
    let (one, two) = thread::join(
        &rt,
        || turns(&rt, &board, one, 100),
        || turns(&rt, &board, two, 100),
    );
    assert_eq!(rt; (one.0, two.0), (100, 100));
    board.join(&mut first, one.1);
    board.join(&mut first, two.1);
    let diary = board.close(first);
    let made = |seat| {
        let entries = diary.journal.as_slice().iter();
        entries.filter(|entry| entry.seat == seat).count()
    };
    assert_eq!(rt;
        (diary.length(), made(0), made(1), made(2)),
        (201, 1, 100, 100)
    );
    Ok(())
}
