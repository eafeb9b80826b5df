//! A crew goes on together.

ghost use Rattle.std.specs.Prelude.{◌≡◌, ℕ, ◌+◌, ◌<◌, ◌≤◌, [], ◌∷◌, ◌++◌, length, All, IfErr, IfOk, slice_index_or, vec_len};
ghost use Rattle.std.specs.List.{list_all};
ghost use Rattle.board.specs.Views.{SawAll, made_by};
ghost use Rattle.crew_rules.specs.Together.{GoesTogether};
ghost use Rattle.run_rules.specs.Threads.{with_workers};
ghost use Rattle.script_driver.specs.Clients.{AreClientsOf};
ghost use Rattle.script_driver.specs.Fitting.{CanBeDriven};
ghost use Rattle.script_driver.specs.Handing.{items_handed};
ghost use Rattle.turn_rules.specs.Owning.{IsOwned, MayEnd};
ghost use Rattle.crew.specs.Crews.{AreDone, AreReady, IsDriven, IsFlushed, IsSeatedCrew};
ghost use Rattle.crew.specs.Places.{IsSeated, has_closed, sights_of};
ghost use Rattle.crew.specs.Seats.{IsFirst, IsNewSeat, IsOtherSeat};

use crate::place::{Place, is_closed, work_all};
use crate::seating::{Seats, seat_crew, take_in};
use board::{Board, Seat};
use book::Book;
use drivers::{DriverDone, drive};
use flusher::{FlusherDone, flush_loop};
use keeper::Keeper;
use script_driver::Left;
use session_lines::Line;
use std::alloc::Global;
use std::marker::Brand;
use std::sync::Wait;
use std::thread;
use std::thread::Threads;
use wake_queue::{WakePass, WakeQueue};
use workers::Gate;

/// A run's script by a crew: one who does its lines, and so many workers and a flusher beside, each in a
/// thread of its own. The documents that the lines speak of stand in the book, made by seat 0.
///
/// The driver takes seat 1, the workers the next ones and the flusher the last. Each goes its course
/// until the driver has closed; then all seats are taken in, and the book is handed back with the
/// sessions' clients and what was handed out, for seat 0 to end the run. `gate` is told of the workers'
/// decisions. An `Err` is want of memory: of a seat, of a pass or of one of the crew. What was done before
/// stands in the book.
///
/// The driver goes in the thread that calls. Where no other thread can be made, the others go behind it.
pub fn go_together<K: Keeper + Send, G: Gate + Sync, R: Threads + Wait + Sync>(
    rt: &R,
    alloc: Global,
    book: Book<K>,
    lines: Vec<Line>,
    sessions: u32,
    workers: u32,
    gate: &G,
) -> Result<Left<K>, Book<K>>
    requires driver { book.drivers ≡ 1 }
    requires made { All (λ e. e.seat ≡ 0) book.journal }
    requires unhanded { items_handed book.journal ≡ [] }
    requires some { (0 < workers) × (workers ≤ 32) }
    requires lines { CanBeDriven sessions lines.items }
    ensures goes { IfOk result (λ left. GoesTogether (with_workers workers) lines.items book.journal left.book.journal) }
    ensures ends { IfOk result (λ left. MayEnd 1 left.book.journal) }
    ensures clients { IfOk result (λ left. AreClientsOf left.clients.items left.book.journal) }
    ensures many { IfOk result (λ left. length left.clients.items ≡ sessions) }
    ensures handed { IfOk result (λ left. left.handed.items ≡ items_handed left.book.journal) }
    ensures same { IfOk result (λ left. (left.book.drivers ≡ 1) × (left.book.start ≡ book.start)) }
    ensures kept { IfErr result (λ b. b.start ≡ book.start) }
{
    let Ok(places) = Vec::with_capacity(alloc, workers as usize) else {
        return Err(book);
    };
    let Ok((wakes, mut pass)) = WakeQueue::new(rt, alloc) else {
        return Err(book);
    };
    let (board, mut seat) = match Board::new(alloc, book) {
        Ok(made) => made,
        Err((_, book)) => return Err(book),
    };
    let Some(seats) = seat_crew(rt, &board, &mut seat, &wakes, &mut pass, places, workers) else {
        return Err(board.close(seat));
    };
    go_seated(
        rt, alloc, board, seat, &wakes, pass, seats, lines, sessions, workers, gate,
    )
}

// A crew that has its seats goes, and the board is closed.
fn go_seated<K: Keeper + Send, G: Gate + Sync, R: Threads + Wait + Sync>(
    rt: &R,
    alloc: Global,
    board: Board<Book<K>>,
    seat: Seat<Book<K>>,
    wakes: &WakeQueue<Brand>,
    pass: WakePass<Brand>,
    seats: Seats<K>,
    lines: Vec<Line>,
    sessions: u32,
    workers: u32,
    gate: &G,
) -> Result<Left<K>, Book<K>>
    requires first { IsFirst board seat }
    requires new { (seat.view.joined ≡ []) × (seat.view.count ≡ workers + 3) × (seat.view.drivers ≡ 1) }
    requires seats { IsSeatedCrew board wakes.now seats.driver.view.seen workers seats }
    requires made { All (λ e. e.seat ≡ 0) seats.driver.view.seen × (seat.view.made ≡ made_by 0 seats.driver.view.seen) }
    requires unhanded { items_handed seats.driver.view.seen ≡ [] }
    requires pass { pass.queue ≡ wakes.now }
    requires some { (0 < workers) × (workers ≤ 32) }
    requires lines { CanBeDriven sessions lines.items }
    ensures goes { IfOk result (λ left. GoesTogether (with_workers workers) lines.items seats.driver.view.seen left.book.journal) }
    ensures ends { IfOk result (λ left. MayEnd 1 left.book.journal) }
    ensures clients { IfOk result (λ left. AreClientsOf left.clients.items left.book.journal) }
    ensures many { IfOk result (λ left. length left.clients.items ≡ sessions) }
    ensures handed { IfOk result (λ left. left.handed.items ≡ items_handed left.book.journal) }
    ensures same { IfOk result (λ left. (left.book.drivers ≡ 1) × (left.book.start ≡ seat.view.start)) }
    ensures kept { IfErr result (λ b. b.start ≡ seat.view.start) }
{
    let Gone {
        driven,
        places,
        flushed,
    } = go_all(rt, alloc, &board, wakes, pass, seats, lines, sessions, gate);
    let (drove, let_go) = (is_closed(driven.end), is_closed(flushed.end));
    let (book, worked) = close(board, seat, driven.seat, places, flushed.seat);
    if drove && worked && let_go {
        return Ok(Left {
            book,
            clients: driven.clients,
            handed: driven.handed,
        });
    }
    Err(book)
}

/// A crew that has gone.
pub(crate) struct Gone<K: Keeper> {
    pub(crate) driven: DriverDone<K, Brand>,
    pub(crate) places: Vec<Place<K>>,
    pub(crate) flushed: FlusherDone<K>,
}

// Each of the crew goes its course. The driver doesn't wait for the others, so it goes in this thread.
fn go_all<K: Keeper + Send, G: Gate + Sync, R: Threads + Wait + Sync>(
    rt: &R,
    alloc: Global,
    board: &Board<Book<K>>,
    wakes: &WakeQueue<Brand>,
    pass: WakePass<Brand>,
    seats: Seats<K>,
    lines: Vec<Line>,
    sessions: u32,
    gate: &G,
) -> Gone<K>
    requires driver { IsNewSeat board.now seats.driver.view.seen 1 seats.driver }
    requires places { AreReady board.now wakes.now seats.places }
    requires flusher { IsOtherSeat board.now seats.flusher × (seats.flusher.view.drivers ≡ 1) }
    requires made { All (λ e. e.seat ≡ 0) seats.driver.view.seen }
    requires pass { pass.queue ≡ wakes.now }
    requires lines { CanBeDriven sessions lines.items }
    ensures driven { IsDriven board.now lines.items sessions seats.driver result.driven }
    ensures done { AreDone board.now seats.places result.places }
    ensures flushed { IsFlushed board.now seats.flusher result.flushed }
{
    let Seats {
        driver,
        places,
        flusher,
    } = seats;
    let ((flushed, places), driven) = thread::join(
        rt,
        || -> (FlusherDone<K>, Vec<Place<K>>)
            requires { AreReady board.now wakes.now places × IsOtherSeat board.now flusher × (flusher.view.drivers ≡ 1) }
            ensures { IsFlushed board.entry.now flusher result.0 × AreDone board.entry.now places result.1 }
        { go_beside(rt, alloc, board, wakes, places, flusher, gate) },
        || -> DriverDone<K, Brand>
            requires { IsNewSeat board.now driver.view.seen 1 driver × All (λ e. e.seat ≡ 0) driver.view.seen × (pass.queue ≡ wakes.now) × CanBeDriven sessions lines.items }
            ensures { IsDriven board.entry.now lines.items sessions driver result }
        { drive(rt, alloc, board, driver, wakes, pass, lines, sessions) },
    );
    Gone {
        driven,
        places,
        flushed,
    }
}

// The flusher and the workers, beside the driver.
fn go_beside<K: Keeper + Send, G: Gate + Sync, R: Threads + Wait + Sync>(
    rt: &R,
    alloc: Global,
    board: &Board<Book<K>>,
    wakes: &WakeQueue<Brand>,
    places: Vec<Place<K>>,
    flusher: Seat<Book<K>>,
    gate: &G,
) -> (FlusherDone<K>, Vec<Place<K>>)
    requires places { AreReady board.now wakes.now places }
    requires flusher { IsOtherSeat board.now flusher × (flusher.view.drivers ≡ 1) }
    ensures flushed { IsFlushed board.now flusher result.0 }
    ensures done { AreDone board.now places result.1 }
{
    thread::join(
        rt,
        || -> FlusherDone<K>
            requires { IsOtherSeat board.now flusher × (flusher.view.drivers ≡ 1) }
            ensures { IsFlushed board.entry.now flusher result }
        { flush_loop(rt, alloc, board, flusher, 1) },
        || -> Vec<Place<K>>
            requires { AreReady board.now wakes.now places }
            ensures { AreDone board.entry.now places result }
        { work_all(rt, alloc, board, wakes, places, gate) },
    )
}

// Takes in all seats and closes the board. True where each worker came to its end behind the last closing.
fn close<K: Keeper>(
    board: Board<Book<K>>,
    mut seat: Seat<Book<K>>,
    driver: Seat<Book<K>>,
    places: Vec<Place<K>>,
    flusher: Seat<Book<K>>,
) -> (Book<K>, bool)
    requires first { IsFirst board seat }
    requires new { (seat.view.joined ≡ []) × (seat.view.count ≡ vec_len places + 3) }
    requires others { IsOtherSeat board driver × IsOtherSeat board flusher }
    requires places { All (IsSeated board) places.items }
    ensures closed { result.1 ≡ list_all has_closed places.items }
    ensures owned { IsOwned result.0.drivers result.0.journal }
    ensures saw { All (SawAll result.0.journal) ((driver.view.number, driver.view.seen) ∷ sights_of places.items ++ (flusher.view.number, flusher.view.seen) ∷ []) }
    ensures given { All (λ e. e.seat < vec_len places + 3) result.0.journal }
    ensures made { made_by 0 result.0.journal ≡ seat.view.made }
    ensures same { (result.0.drivers ≡ seat.view.drivers) × (result.0.start ≡ seat.view.start) }
{
    board.join(&mut seat, driver);
    let worked = take_in(&board, &mut seat, places);
    board.join(&mut seat, flusher);
    let book = board.close(seat);
    book.owned();
    (book, worked)
}
