//! Turns on a board.

ghost use Rattle.std.specs.Prelude.{◌≡◌, ◌≢◌, false};

use crate::Count;
use crate::diary::Diary;
use board::{Board, Journaled, Seat};
use std::alloc::{AllocError, Global};
use std::sync::Wait;
use std::thread;
use std::thread::Threads;

// Takes the turn, makes an entry, and gives the turn back.
fn turn<R: Wait>(rt: &R, board: &Board<Diary>, seat: &mut Seat<Diary>)
    requires { (seat.old.board ≡ board.now) × (seat.old.view.holds ≡ false) }
    ensures { (seat.new.board ≡ board.now) × (seat.new.view.holds ≡ false) × (seat.new.view.number ≡ seat.old.view.number) }
{
    let number = seat.number();
    let mut diary = board.take(rt, seat);
    diary.tick(number);
    board.give(seat, diary);
}

// So many turns of one thread.
fn turns<R: Wait>(rt: &R, board: &Board<Diary>, mut seat: Seat<Diary>, times: u64) -> Seat<Diary>
    requires { (seat.board ≡ board.now) × (seat.view.holds ≡ false) }
    ensures { (result.board ≡ board.now) × (result.view.holds ≡ false) × (result.view.number ≡ seat.view.number) }
{
    for _ in 0..times {
        turn(rt, board, &mut seat);
    }
    seat
}

// So many turns of each of two threads.
fn two<R: Threads + Wait + Sync>(
    rt: &R,
    board: &Board<Diary>,
    one: Seat<Diary>,
    other: Seat<Diary>,
    times: u64,
) -> (Seat<Diary>, Seat<Diary>)
    requires { (one.board ≡ board.now) × (one.view.holds ≡ false) × (other.board ≡ board.now) × (other.view.holds ≡ false) }
    ensures one { (result.0.board ≡ board.now) × (result.0.view.holds ≡ false) × (result.0.view.number ≡ one.view.number) }
    ensures other { (result.1.board ≡ board.now) × (result.1.view.holds ≡ false) × (result.1.view.number ≡ other.view.number) }
{
    thread::join(
        rt,
        || turns(rt, board, one, times),
        || turns(rt, board, other, times),
    )
}

fn seated_by_one<R: Wait>(rt: &R, alloc: Global, times: u64) -> Result<Diary, AllocError> {
    let (board, mut first) = Board::new(alloc, Diary::new(alloc)).map_err(|refused| refused.0)?;
    let one = board.split(&mut first)?;
    board.join(&mut first, turns(rt, &board, one, times));
    Ok(board.close(first))
}

fn seated_by_two<R: Threads + Wait + Sync>(
    rt: &R,
    alloc: Global,
    times: u64,
) -> Result<Diary, AllocError> {
    let (board, mut first) = Board::new(alloc, Diary::new(alloc)).map_err(|refused| refused.0)?;
    let one = board.split(&mut first)?;
    let other = board.split(&mut first)?;
    let (one, other) = two(rt, &board, one, other, times);
    board.join(&mut first, one);
    board.join(&mut first, other);
    Ok(board.close(first))
}

fn seated_by_four<R: Threads + Wait + Sync>(
    rt: &R,
    alloc: Global,
    times: u64,
) -> Result<Diary, AllocError> {
    let (board, mut first) = Board::new(alloc, Diary::new(alloc)).map_err(|refused| refused.0)?;
    let a = board.split(&mut first)?;
    let b = board.split(&mut first)?;
    let c = board.split(&mut first)?;
    let d = board.split(&mut first)?;
    let ((a, b), (c, d)) = thread::join(
        rt,
        ||
            requires { (a.board ≡ board) × (a.view.holds ≡ false) × (b.board ≡ board) × (b.view.holds ≡ false) }
        { two(rt, &board, a, b, times) },
        ||
            requires { (c.board ≡ board) × (c.view.holds ≡ false) × (d.board ≡ board) × (d.view.holds ≡ false) }
        { two(rt, &board, c, d, times) },
    );
    board.join(&mut first, a);
    board.join(&mut first, b);
    board.join(&mut first, c);
    board.join(&mut first, d);
    Ok(board.close(first))
}

/// Each thread takes so many turns. The answer is the count of entries.
pub fn seated<R: Threads + Wait + Sync>(
    rt: &R,
    alloc: Global,
    count: Count,
    times: u64,
) -> Result<u64, AllocError> {
    let diary = match count {
        Count::One => seated_by_one(rt, alloc, times)?,
        Count::Two => seated_by_two(rt, alloc, times)?,
        Count::Four => seated_by_four(rt, alloc, times)?,
    };
    Ok(diary.length())
}
