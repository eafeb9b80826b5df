//! Whether the clock may go on, a lock may be taken, and a driver may close.

ghost use Rattle.std.specs.Prelude.{◌≡◌, ◌↔◌, ◌+◌, ◌≤◌, IsTrue};
ghost use Rattle.journal_rules.specs.Documents.{is_in};
ghost use Rattle.journal_rules.specs.Legal as rules;
ghost use Rattle.journal_rules.specs.Locks.{clock as clock_lem};

use crate::documents::is_made;
use crate::locks::{clock, is_expired, is_held, next_token};
use expiring_lock::LOCK_LIFE;
use journal_entries::{Act, Entry, MAX_MOMENT};

pub(crate) fn may_tick(before: &[Entry], ms: u64) -> bool
    requires { rules.IsLegal before.now }
    ensures { IsTrue result ↔ (clock_lem before.now + ms ≤ rules.clock_end) }
{
    ms <= MAX_MOMENT - clock(before)
}

pub(crate) fn is_acquiring(before: &[Entry], doc: u32, token: u64, until: u64) -> bool
    requires { rules.IsLegal before.now }
    ensures { IsTrue result ↔ rules.IsAcquiring before.now doc token until }
{
    is_made(before, doc)
        && (!is_held(before, doc) || is_expired(before, doc))
        && token == next_token(before)
        && until == clock(before) + LOCK_LIFE
}

/// Whether a driver has closed.
pub fn is_closed(journal: &[Entry], driver: u32) -> bool
    ensures { result ≡ is_in driver (rules.closed journal.now) }
{
    journal.iter().any(|entry| closes(&entry.act, driver))
}

fn closes(act: &Act, driver: u32) -> bool
    ensures { result ≡ is_in driver (rules.closed_by act.now) }
{
    match act {
        Act::Closed { driver: closed } => *closed == driver,
        _ => false,
    }
}
