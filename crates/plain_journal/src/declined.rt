//! Whether a line may say why it did nothing.

ghost use Rattle.std.specs.Prelude.{◌≡◌, ◌≢◌, ◌↔◌, [], IsTrue, IfOk};
ghost use Rattle.journal_rules.specs.declared.state.ClientState.TheVariants as state;
ghost use Rattle.journal_rules.specs.Client as clients;
ghost use Rattle.journal_rules.specs.Documents.{waiting as waiting_lem};
ghost use Rattle.journal_rules.specs.Legal.{IsLegal};
ghost use Rattle.journal_rules.specs.Whys as rules;
ghost use Rattle.journal_rules.specs.Mail.{mail};
ghost use Rattle.plain_journal.specs.Whys.{IsAwaitedOn, IsBusyOn, IsShown, IsShownBySome, IsStaleOn, IsUnflushedOn};

use crate::allowed_clients::{is_joined, is_left};
use crate::clients::client_of;
use crate::documents::{made_count, version};
use crate::keeping::{is_cached, kept};
use crate::locks::{is_expired, is_released, last_acquiring, last_token};
use crate::mail::mail_of;
use crate::sent::waiting;
use expiring_lock::{Busy, Stale};
use journal_entries::{Act, Entry, MAX_AGE, Why};
use ot_op::{MAX_COMPONENTS, MAX_OPERATION_UNITS};
use std::alloc::{AllocError, Global};

// Whether a document is held under this token, which has not expired.
fn is_busy(before: &[Entry], doc: u32, busy: Busy) -> bool
    requires { IsLegal before.now }
    ensures { IsTrue result ↔ IsBusyOn before.now doc busy }
{
    match last_acquiring(before, doc) {
        Some(last) => {
            last.token == busy.token
                && last.until == busy.until
                && !is_released(before, last.token)
                && !is_expired(before, doc)
        }
        None => false,
    }
}

fn is_stale(before: &[Entry], doc: u32, stale: Stale) -> bool
    ensures { IsTrue result ↔ IsStaleOn before.now doc stale }
{
    match stale {
        Stale::Other(token) => last_token(before, doc) == token,
        Stale::Ended => is_released(before, last_token(before, doc)),
    }
}

fn is_unflushed(
    alloc: Global,
    before: &[Entry],
    doc: u32,
    was: Option<u64>,
    have: u64,
) -> Result<bool, AllocError>
    requires { IsLegal before.now }
    ensures { IfOk result (λ b. IsTrue b ↔ IsUnflushedOn before.now doc was have) }
{
    let at = version(alloc, before, doc)?;
    let is_behind = match was {
        Some(v) => v < have,
        None => true,
    };
    Ok(kept(before, doc) == was && at == have && is_behind)
}

// Whether so many updates, and not none, wait for a document.
fn is_awaited(alloc: Global, before: &[Entry], doc: u32, count: u64) -> Result<bool, AllocError>
    ensures { IfOk result (λ b. IsTrue b ↔ IsAwaitedOn before.now doc count) }
{
    let waits = waiting(alloc, before, doc)?;
    Ok(waits.len() as u64 == count && count != 0)
}

fn is_quiet(alloc: Global, before: &[Entry], doc: u32) -> Result<bool, AllocError>
    ensures { IfOk result (λ b. IsTrue b ↔ (waiting_lem doc before.now ≡ [])) }
{
    let waits = waiting(alloc, before, doc)?;
    Ok(waits.is_empty())
}

// Whether a document is as a why says of some.
fn is_shown(alloc: Global, before: &[Entry], doc: u32, why: Why) -> Result<bool, AllocError>
    requires { IsLegal before.now }
    ensures { IfOk result (λ b. IsTrue b ↔ IsShown before.now doc why) }
{
    match why {
        Why::Empty => is_quiet(alloc, before, doc),
        Why::Busy(busy) => Ok(is_busy(before, doc, busy)),
        Why::Uncached => Ok(!is_cached(before, doc)),
        Why::Stale(stale) => Ok(is_stale(before, doc, stale)),
        Why::Unflushed { kept, have } => is_unflushed(alloc, before, doc, kept, have),
        Why::Waiting { count } => is_awaited(alloc, before, doc, count),
        _ => Ok(false),
    }
}

fn is_shown_by_some(alloc: Global, before: &[Entry], why: Why) -> Result<bool, AllocError>
    requires { IsLegal before.now }
    ensures { IfOk result (λ b. IsTrue b ↔ IsShownBySome before.now why) }
{
    for doc in 0..made_count(before) {
        if is_shown(alloc, before, doc as u32, why)? {
            return Ok(true);
        }
    }
    Ok(false)
}

fn is_without_mail(alloc: Global, before: &[Entry], client: u32) -> Result<bool, AllocError>
    ensures { IfOk result (λ b. IsTrue b ↔ (mail client before.now ≡ [])) }
{
    let mail = mail_of(alloc, before, client)?;
    Ok(mail.is_empty())
}

// Whether the entry just before is a failed loading for a client, by the same seat.
fn is_store_fault(before: &[Entry], seat: u32) -> bool
    ensures { IsTrue result ↔ rules.IsStoreFault before.now seat }
{
    match before.last() {
        Some(entry) => entry.seat == seat && is_failed_load(&entry.act),
        None => false,
    }
}

fn is_failed_load(act: &Act) -> bool
    ensures { IsTrue result ↔ rules.IsFailedLoad act.now }
{
    match act {
        Act::LoadFailed { token, .. } | Act::LoadDiffers { token, .. } => token.is_none(),
        _ => false,
    }
}

fn is_too_old(alloc: Global, before: &[Entry], client: u32, have: u64) -> Result<bool, AllocError>
    requires { IsLegal before.now }
    ensures { IfOk result (λ b. IsTrue b ↔ rules.IsTooOld before.now client have) }
{
    let now = client_of(alloc, before, client)?;
    let at = version(alloc, before, now.doc)?;
    Ok(is_left(&now) && have == at && have.saturating_sub(now.version) > MAX_AGE)
}

fn is_past_end(alloc: Global, before: &[Entry], client: u32, len: u64) -> Result<bool, AllocError>
    requires { IsLegal before.now }
    ensures { IfOk result (λ b. IsTrue b ↔ rules.IsPastEnd before.now client len) }
{
    let now = client_of(alloc, before, client)?;
    Ok(is_joined(&now) && len == now.text.len() as u64)
}

fn is_full(
    alloc: Global,
    before: &[Entry],
    client: u32,
    comps: u64,
    units: u64,
) -> Result<bool, AllocError>
    requires { IsLegal before.now }
    ensures { IfOk result (λ b. IsTrue b ↔ rules.IsFull before.now client comps units) }
{
    let now = client_of(alloc, before, client)?;
    Ok(is_joined(&now) && (comps > MAX_COMPONENTS || units > MAX_OPERATION_UNITS))
}

fn is_in_flight(alloc: Global, before: &[Entry], client: u32) -> Result<bool, AllocError>
    requires { IsLegal before.now }
    ensures { IfOk result (λ b. IsTrue b ↔ rules.IsInFlight before.now client) }
{
    let now = client_of(alloc, before, client)?;
    Ok(is_joined(&now) && now.flight.is_some())
}

fn is_not_joined(alloc: Global, before: &[Entry], client: u32) -> Result<bool, AllocError>
    requires { IsLegal before.now }
    ensures { IfOk result (λ b. IsTrue b ↔ ((clients.client client before.now).state ≢ state.Joined)) }
{
    let now = client_of(alloc, before, client)?;
    Ok(!is_joined(&now))
}

fn is_not_left(alloc: Global, before: &[Entry], client: u32) -> Result<bool, AllocError>
    requires { IsLegal before.now }
    ensures { IfOk result (λ b. IsTrue b ↔ ((clients.client client before.now).state ≢ state.Left)) }
{
    let now = client_of(alloc, before, client)?;
    Ok(!is_left(&now))
}

/// Whether a session's line may say that it did nothing for this reason.
pub(crate) fn is_why(
    alloc: Global,
    before: &[Entry],
    seat: u32,
    session: u32,
    why: Why,
) -> Result<bool, AllocError>
    requires { IsLegal before.now }
    ensures { IfOk result (λ b. IsTrue b ↔ rules.IsWhy before.now seat session why) }
{
    match why {
        Why::NoDoc | Why::NoProject | Why::Nothing | Why::Holding => Ok(true),
        Why::NotJoined => is_not_joined(alloc, before, session),
        Why::NotLeft => is_not_left(alloc, before, session),
        Why::TooOld { have } => is_too_old(alloc, before, session, have),
        Why::PastEnd { len } => is_past_end(alloc, before, session, len),
        Why::Full { comps, units } => is_full(alloc, before, session, comps, units),
        Why::InFlight => is_in_flight(alloc, before, session),
        Why::Empty => {
            let is_quiet = is_shown_by_some(alloc, before, why)?;
            Ok(is_quiet || is_without_mail(alloc, before, session)?)
        }
        Why::Busy(_) | Why::Uncached | Why::Stale(_) => is_shown_by_some(alloc, before, why),
        Why::Unflushed { .. } | Why::Waiting { .. } => is_shown_by_some(alloc, before, why),
        Why::StoreFault => Ok(is_store_fault(before, seat)),
    }
}
