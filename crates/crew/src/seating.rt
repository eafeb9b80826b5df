//! The seats of a crew.

ghost use Rattle.std.specs.Prelude.{◌≡◌, ◌≢◌, ℕ, ◌+◌, ◌<◌, ◌≤◌, ◌++◌, ◌&&◌, [], true, length, All, IfNone, IfSome, vec_capacity, vec_len, slice_index_or};
ghost use Rattle.std.specs.List.{list_all};
ghost use Rattle.crew.specs.Crews.{IsSeatedCrew};
ghost use Rattle.crew.specs.Places.{IsReady, IsSeated, has_closed, sights_of, start_of};
ghost use Rattle.crew.specs.Seats.{IsFirst, IsNewSeat, IsSameFirst};

use crate::place::Place;
use board::{Board, Seat};
use book::Book;
use keeper::Keeper;
use std::marker::Brand;
use std::sync::Wait;
use wake_queue::{WakePass, WakeQueue};

/// The seats of a crew before it goes.
pub(crate) struct Seats<K: Keeper> {
    pub(crate) driver: Seat<Book<K>>,
    pub(crate) places: Vec<Place<K>>,
    pub(crate) flusher: Seat<Book<K>>,
}

/// Makes a seat for each of the crew. Where memory is wanting, each seat that was made is taken in again.
pub(crate) fn seat_crew<K: Keeper, R: Wait>(
    rt: &R,
    board: &Board<Book<K>>,
    seat: &mut Seat<Book<K>>,
    wakes: &WakeQueue<Brand>,
    pass: &mut WakePass<Brand>,
    mut places: Vec<Place<K>>,
    workers: u32,
) -> Option<Seats<K>>
    requires first { IsFirst board.now seat.old }
    requires new { (seat.old.view.count ≡ 1) × (seat.old.view.joined ≡ []) × (seat.old.view.drivers ≡ 1) }
    requires made { All (λ e. e.seat ≡ 0) seat.old.view.seen }
    requires pass { pass.old.queue ≡ wakes.now }
    requires room { (places.items ≡ []) × (workers ≤ vec_capacity places) × (workers ≤ 32) }
    ensures first { IsFirst board.now seat.new × IsSameFirst seat.old seat.new }
    ensures pass { pass.new.queue ≡ wakes.now }
    ensures crew { IfSome result (λ seats. IsSeatedCrew board.now wakes.now seat.old.view.seen workers seats) }
    ensures others { IfSome result (λ _. (seat.new.view.count ≡ workers + 3) × (seat.new.view.joined ≡ [])) }
    ensures none { IfNone result (length seat.new.view.joined + 1 ≡ seat.new.view.count) }
{
    let Ok(driver) = board.split(seat) else {
        return None;
    };
    let all = seat_workers(rt, board, seat, wakes, pass, &mut places, workers);
    match seat_last(board, seat, all) {
        Some(flusher) => Some(Seats {
            driver,
            places,
            flusher,
        }),
        None => {
            take_in(board, seat, places);
            board.join(seat, driver);
            None
        }
    }
}

// Makes a seat and a pass for each worker. False where memory was wanting.
fn seat_workers<K: Keeper, R: Wait>(
    rt: &R,
    board: &Board<Book<K>>,
    seat: &mut Seat<Book<K>>,
    wakes: &WakeQueue<Brand>,
    pass: &mut WakePass<Brand>,
    places: &mut Vec<Place<K>>,
    workers: u32,
) -> bool
    requires first { IsFirst board.now seat.old }
    requires new { (seat.old.view.count ≡ 2) × (seat.old.view.drivers ≡ 1) }
    requires made { All (λ e. e.seat ≡ 0) seat.old.view.seen }
    requires pass { pass.old.queue ≡ wakes.now }
    requires room { (places.old.items ≡ []) × (workers ≤ vec_capacity places.old) × (workers ≤ 32) }
    ensures first { IsFirst board.now seat.new × IsSameFirst seat.old seat.new }
    ensures pass { pass.new.queue ≡ wakes.now }
    ensures same { (seat.new.view.joined ≡ seat.old.view.joined) × (seat.new.view.seen ≡ seat.old.view.seen) }
    ensures count { seat.new.view.count ≡ vec_len places.new + 2 }
    ensures many { (vec_len places.new ≤ workers) × (result ≡ true → vec_len places.new ≡ workers) }
    ensures ready { (w : ℕ) (d : _) → w < vec_len places.new → IsReady board.now wakes.now (w + 2) (slice_index_or places.new.items w d) }
    ensures starts { (w : ℕ) (d : _) → w < vec_len places.new → start_of (slice_index_or places.new.items w d) ≡ seat.old.view.seen }
{
    for _ in 0..workers {
        let Ok(other_pass) = wakes.pass(rt, pass) else {
            return false;
        };
        let Ok(other) = board.split(seat) else {
            return false;
        };
        places.push_reserved(Place::Waiting(other, other_pass));
    }
    true
}

// Makes one seat more, where it is wanted.
fn seat_last<K: Keeper>(
    board: &Board<Book<K>>,
    seat: &mut Seat<Book<K>>,
    wanted: bool,
) -> Option<Seat<Book<K>>>
    requires first { IsFirst board.now seat.old }
    requires few { (seat.old.view.count < 64) × (seat.old.view.drivers ≡ 1) }
    ensures first { IsFirst board.now seat.new × IsSameFirst seat.old seat.new }
    ensures same { (seat.new.view.joined ≡ seat.old.view.joined) × (seat.new.view.seen ≡ seat.old.view.seen) }
    ensures some { IfSome result (λ other. (wanted ≡ true) × (seat.new.view.count ≡ seat.old.view.count + 1) × IsNewSeat board.now seat.old.view.seen seat.old.view.count other) }
    ensures none { IfNone result (seat.new.view.count ≡ seat.old.view.count) }
{
    if !wanted {
        return None;
    }
    match board.split(seat) {
        Ok(other) => Some(other),
        Err(_) => None,
    }
}

/// Takes in the seats of all places. True where each of the workers came to its end behind the last closing.
pub(crate) fn take_in<K: Keeper>(
    board: &Board<Book<K>>,
    seat: &mut Seat<Book<K>>,
    mut places: Vec<Place<K>>,
) -> bool
    requires first { IsFirst board.now seat.old }
    requires seated { All (IsSeated board.now) places.items }
    ensures first { IsFirst board.now seat.new × IsSameFirst seat.old seat.new }
    ensures count { seat.new.view.count ≡ seat.old.view.count }
    ensures joined { seat.new.view.joined ≡ seat.old.view.joined ++ sights_of places.items }
    ensures closed { result ≡ list_all has_closed places.items }
{
    let mut all = true;
    while let Some(place) = places.pop() {
        let (closed, other) = place.into_seat(board);
        all = both(all, closed);
        board.join(seat, other);
    }
    all
}

// Whether both hold.
fn both(a: bool, b: bool) -> bool
    ensures { result ≡ (b && a) }
{
    a && b
}
