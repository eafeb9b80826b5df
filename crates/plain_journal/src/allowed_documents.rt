//! Whether a document may be made, loaded, flushed and unloaded.

ghost use Rattle.std.specs.Prelude.{◌≡◌, ◌↔◌, ◌⊎◌, ◌<◌, ◌^◌, ◌-◌, IsTrue, IfOk};
ghost use Rattle.std.specs.List.{list_any};
ghost use Rattle.journal_rules.specs.Documents.{is_named as is_named_lem, makings, making_of};
ghost use Rattle.journal_rules.specs.Legal as rules;

use crate::documents::{is_made, made_count, version};
use crate::keeping::{are_faults_within, is_cached, kept};
use crate::locks::holds;
use crate::sent::waiting;
use journal_entries::{Act, Entry, MAX_BASE};
use ot_op::MAX_TEXT_UNITS;
use ot_units::{Name, Units};
use std::alloc::{AllocError, Global};

/// Whether a document of this name was made.
pub fn is_named(journal: &[Entry], name: &Name) -> bool
    ensures { result ≡ list_any (λ m. is_named_lem name.now m) (makings journal.now) }
{
    journal.iter().any(|entry| makes(&entry.act, name))
}

fn makes(act: &Act, name: &Name) -> bool
    ensures { result ≡ list_any (λ m. is_named_lem name.now m) (making_of act.now) }
{
    match act {
        Act::Made { name: made, .. } => name.as_str() == made.as_str(),
        _ => false,
    }
}

pub(crate) fn is_making(before: &[Entry], doc: u32, name: &Name, first: &Units, base: u64) -> bool
    ensures { IsTrue result ↔ rules.IsMaking before.now doc name.now first.now base }
{
    u64::from(doc) == made_count(before)
        && !is_named(before, name)
        && first.len() <= MAX_TEXT_UNITS
        && base <= MAX_BASE
}

fn holds_if_any(before: &[Entry], seat: u32, doc: u32, token: Option<u64>) -> bool
    ensures { IsTrue result ↔ rules.HoldsIfAny seat doc token before.now }
{
    match token {
        Some(token) => holds(before, seat, doc, token),
        None => true,
    }
}

fn may_load(before: &[Entry], seat: u32, doc: u32, token: Option<u64>) -> bool
    ensures { IsTrue result ↔ rules.MayLoad before.now seat doc token }
{
    is_made(before, doc) && !is_cached(before, doc) && holds_if_any(before, seat, doc, token)
}

pub(crate) fn is_loading(
    alloc: Global,
    before: &[Entry],
    seat: u32,
    doc: u32,
    token: Option<u64>,
    v: u64,
) -> Result<bool, AllocError>
    requires { rules.IsLegal before.now }
    ensures { IfOk result (λ b. IsTrue b ↔ rules.IsLoading before.now seat doc token v) }
{
    let have = version(alloc, before, doc)?;
    Ok(may_load(before, seat, doc, token) && v == have)
}

fn have_faults_risen(before: &[Entry], from: u64, to: u64) -> bool
    ensures { IsTrue result ↔ rules.FaultsRose from to before.now }
{
    has_risen(from, to) && are_faults_within(before, from)
}

// Whether a count of faults rose in a call, or stands at its end.
fn has_risen(from: u64, to: u64) -> bool
    ensures { IsTrue result ↔ ((from < to) ⊎ ((from ≡ 2 ^ 64 - 1) × (to ≡ 2 ^ 64 - 1))) }
{
    if from == u64::MAX {
        to == u64::MAX
    } else {
        from < to
    }
}

pub(crate) fn is_failing_load(
    before: &[Entry],
    seat: u32,
    doc: u32,
    token: Option<u64>,
    from: u64,
    to: u64,
) -> bool
    ensures { IsTrue result ↔ rules.IsFailingLoad before.now seat doc token from to }
{
    may_load(before, seat, doc, token) && have_faults_risen(before, from, to)
}

pub(crate) fn is_differing_load(
    alloc: Global,
    before: &[Entry],
    seat: u32,
    doc: u32,
    token: Option<u64>,
    had: u64,
    got: Option<u64>,
) -> Result<bool, AllocError>
    requires { rules.IsLegal before.now }
    ensures { IfOk result (λ b. IsTrue b ↔ rules.IsDifferingLoad before.now seat doc token had got) }
{
    let have = version(alloc, before, doc)?;
    Ok(may_load(before, seat, doc, token) && had == have && got != Some(had))
}

pub(crate) fn is_flushing(
    alloc: Global,
    before: &[Entry],
    seat: u32,
    doc: u32,
    token: u64,
    v: u64,
) -> Result<bool, AllocError>
    requires { rules.IsLegal before.now }
    ensures { IfOk result (λ b. IsTrue b ↔ rules.IsFlushing before.now seat doc token v) }
{
    let have = version(alloc, before, doc)?;
    Ok(holds(before, seat, doc, token) && is_cached(before, doc) && v == have)
}

pub(crate) fn is_failing_flush(
    before: &[Entry],
    seat: u32,
    doc: u32,
    token: u64,
    from: u64,
    to: u64,
) -> bool
    ensures { IsTrue result ↔ rules.IsFailingFlush before.now seat doc token from to }
{
    holds(before, seat, doc, token) && have_faults_risen(before, from, to)
}

pub(crate) fn is_unloading(
    alloc: Global,
    before: &[Entry],
    seat: u32,
    doc: u32,
    token: u64,
) -> Result<bool, AllocError>
    requires { rules.IsLegal before.now }
    ensures { IfOk result (λ b. IsTrue b ↔ rules.IsUnloading before.now seat doc token) }
{
    let have = version(alloc, before, doc)?;
    let waits = waiting(alloc, before, doc)?;
    Ok(
        holds(before, seat, doc, token)
            && is_cached(before, doc)
            && kept(before, doc) == Some(have)
            && waits.is_empty(),
    )
}
