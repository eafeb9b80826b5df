//! What a seat knows.

use journal_entries::Entry;
use ot_units::Name;
use ranges_tracker::KeptDoc;
use std::collections::LinkedList;

/// What no turn changes: the keeper as the run began. No value of it is made.
pub struct Start {
    /// Its count of faults.
    pub faults: u64,
    /// Its documents by their names, where its type tells them.
    pub documents: LinkedList<(Name, KeptDoc)>,
}

/// What contracts see of a seat. No value of it is made.
pub struct View {
    /// Whether the seat is there: it was not joined into seat 0.
    pub live: bool,
    /// Seats are numbered from 0.
    pub number: u64,
    /// Whether the seat has the turn.
    pub holds: bool,
    /// The journal as the seat saw it last.
    pub seen: LinkedList<Entry>,
    /// The entries that the seat made.
    pub made: LinkedList<Entry>,
    /// The words that its loads and its lost exchanges found, in order.
    pub found: LinkedList<u64>,
    /// Of seat 0: how many seats were made, itself included.
    pub count: u64,
    /// Of seat 0: the numbers of the seats that were joined into it, each with what that seat saw last.
    pub joined: LinkedList<(u64, LinkedList<Entry>)>,
    /// The board's number of drivers.
    pub drivers: u64,
    /// The board's start.
    pub start: Start,
}
