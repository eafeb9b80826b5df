//! The clock, the tokens and the locks.

ghost use Rattle.std.specs.Prelude.{◌≡◌, ◌↔◌, ℕ, ◌+◌, ◌≤◌, length, option_map, IsTrue};
ghost use Rattle.journal_rules.specs.Documents.{is_in};
ghost use Rattle.journal_rules.specs.Legal.{IsLegal, clock_end};
ghost use Rattle.journal_rules.specs.Locks as rules;
ghost use Rattle.plain_journal.specs.Answers.{acquiring_as};

use journal_entries::{Act, Entry};

/// How a document's lock was taken.
#[derive(Clone, Copy, Debug, Drop)]
pub struct Acquiring {
    pub seat: u32,
    pub doc: u32,
    pub token: u64,
    /// When it expires, in milliseconds of the script's clock.
    pub until: u64,
}

/// The clock, in milliseconds.
pub fn clock(journal: &[Entry]) -> u64
    requires { IsLegal journal.now }
    ensures value { result ≡ rules.clock journal.now }
    ensures low { result ≤ clock_end }
{
    let mut now = 0;
    for entry in journal {
        now += ticks(&entry.act);
    }
    now
}

fn ticks(act: &Act) -> u64
    ensures { (now : ℕ) → rules.ticked act.now now ≡ now + result }
{
    match act {
        Act::Ticked { ms } => *ms,
        _ => 0,
    }
}

/// The token that the next lock is taken under.
pub fn next_token(journal: &[Entry]) -> u64
    ensures { result ≡ rules.next_token journal.now }
{
    let mut taken = 0;
    for entry in journal {
        taken += acquirings_in(&entry.act);
    }
    taken + 1
}

fn acquirings_in(act: &Act) -> u64
    ensures count { (seat : ℕ) → length (rules.acquiring_of seat act.now) ≡ result }
    ensures few { result ≤ 1 }
{
    match act {
        Act::Acquired { .. } => 1,
        _ => 0,
    }
}

/// How a document's lock was taken last.
pub fn last_acquiring(journal: &[Entry], doc: u32) -> Option<Acquiring>
    ensures { option_map acquiring_as result ≡ rules.last_acquiring doc journal.now }
{
    let mut last = None;
    for entry in journal {
        last = acquired_by(doc, entry, last);
    }
    last
}

fn acquired_by(doc: u32, entry: &Entry, last: Option<Acquiring>) -> Option<Acquiring>
    ensures { option_map acquiring_as result ≡ rules.acquired_by doc entry.now.seat entry.now.act (option_map acquiring_as last) }
{
    match &entry.act {
        Act::Acquired {
            doc: taken,
            token,
            until,
        } => {
            if *taken == doc {
                Some(Acquiring {
                    seat: entry.seat,
                    doc,
                    token: *token,
                    until: *until,
                })
            } else {
                last
            }
        }
        _ => last,
    }
}

/// The last token of a document, 0 before the first.
pub fn last_token(journal: &[Entry], doc: u32) -> u64
    ensures { result ≡ rules.last_token doc journal.now }
{
    match last_acquiring(journal, doc) {
        Some(last) => last.token,
        None => 0,
    }
}

/// Whether a token was released.
pub fn is_released(journal: &[Entry], token: u64) -> bool
    ensures { result ≡ is_in token (rules.released journal.now) }
{
    journal.iter().any(|entry| releases(&entry.act, token))
}

fn releases(act: &Act, token: u64) -> bool
    ensures { result ≡ is_in token (rules.released_by act.now) }
{
    match act {
        Act::Released {
            token: released,
            ..
        } => *released == token,
        _ => false,
    }
}

/// Whether an update was committed under a token.
pub fn is_used(journal: &[Entry], token: u64) -> bool
    ensures { result ≡ is_in token (rules.used journal.now) }
{
    journal.iter().any(|entry| uses(&entry.act, token))
}

fn uses(act: &Act, token: u64) -> bool
    ensures { result ≡ is_in token (rules.used_by act.now) }
{
    match act {
        Act::Committed { token: used, .. } => *used == token,
        _ => false,
    }
}

/// Whether a document's lock is held: its last token was not released.
pub fn is_held(journal: &[Entry], doc: u32) -> bool
    ensures { result ≡ rules.is_held doc journal.now }
{
    match last_acquiring(journal, doc) {
        Some(last) => !is_released(journal, last.token),
        None => false,
    }
}

/// Whether the clock has come to the end of the last lock on a document.
pub fn is_expired(journal: &[Entry], doc: u32) -> bool
    requires { IsLegal journal.now }
    ensures { result ≡ rules.is_expired doc journal.now }
{
    match last_acquiring(journal, doc) {
        Some(last) => last.until <= clock(journal),
        None => false,
    }
}

/// Whether a seat holds a document's lock under a token, expired or not.
pub fn holds(journal: &[Entry], seat: u32, doc: u32, token: u64) -> bool
    ensures { IsTrue result ↔ rules.Holds seat doc token journal.now }
{
    match last_acquiring(journal, doc) {
        Some(last) => { last.token == token && last.seat == seat && !is_released(journal, token) }
        None => false,
    }
}
