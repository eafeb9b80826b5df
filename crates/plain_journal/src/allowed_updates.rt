//! Whether an update may be sent without a client, and what may be committed of one.

ghost use Rattle.std.specs.Prelude.{◌≡◌, ◌↔◌, ◌≤◌, ◌⊎◌, IsTrue, IfOk, Some, All, sum_by, min, ◌^◌, ◌-◌};
ghost use Rattle.ot_op.specs.Operation.{IsWithinLimits, place, units_of};
ghost use Rattle.ot_op.specs.declared.limits.TheConstants.{MAX_PLACE};
ghost use Rattle.journal_rules.specs.Legal as rules;
ghost use Rattle.journal_rules.specs.Documents.{waiting as waiting_lem};
ghost use Rattle.journal_rules.specs.Keeping.{loading, FailedUnder};
ghost use Rattle.plain_journal.specs.Parts.{IsFirst};

use crate::deciding::decided_on;
use crate::documents::is_made;
use crate::keeping::{Loading, is_cached, last_loading};
use crate::locks::{clock, holds, is_used};
use crate::sent::waiting;
use journal_entries::{Cause, Entry, MAX_RAW_SOURCE, Outcome, Update};
use ot_op::{Comp, MAX_COMPONENTS, MAX_OPERATION_UNITS, MAX_PLACE, Op};
use std::alloc::{AllocError, Global};

/// How many units the texts of an operation have, 2^64 - 1 where there are more.
pub(crate) fn units(comps: &[Comp]) -> u64
    ensures { result ≡ min (sum_by units_of comps.now) (2 ^ 64 - 1) }
{
    let mut count = 0;
    for comp in comps {
        count = units_in(comp).saturating_add(count);
    }
    count
}

fn units_in(comp: &Comp) -> u64
    ensures { result ≡ units_of comp.now }
{
    match comp {
        Comp::Ins(_, part) | Comp::Del(_, part) | Comp::Com(_, part, _) => part.len() as u64,
    }
}

fn are_in_reach(comps: &[Comp]) -> bool
    ensures { IsTrue result ↔ All (λ c. place c ≤ MAX_PLACE) comps.now }
{
    comps.iter().all(|comp| place_of(comp) <= MAX_PLACE)
}

pub(crate) fn place_of(comp: &Comp) -> u32
    ensures { result ≡ place comp.now }
{
    match comp {
        Comp::Ins(at, _) | Comp::Del(at, _) | Comp::Com(at, _, _) => *at,
    }
}

fn is_within_limits(op: &Op) -> bool
    ensures { IsTrue result ↔ IsWithinLimits op.now }
{
    let comps = op.comps();
    comps.len() as u64 <= MAX_COMPONENTS
        && units(comps) <= MAX_OPERATION_UNITS
        && are_in_reach(comps)
}

pub(crate) fn is_raw_update(before: &[Entry], update: &Update) -> bool
    requires { rules.IsLegal before.now }
    ensures { IsTrue result ↔ rules.IsRawUpdate before.now update.now }
{
    is_made(before, update.doc)
        && update.number == 0
        && update.source <= MAX_RAW_SOURCE
        && update.ms == clock(before)
        && is_within_limits(&update.op)
}

fn is_same_comp(one: &Comp, other: &Comp) -> bool
    ensures { IsTrue result ↔ (one.now ≡ other.now) }
{
    match (one, other) {
        (Comp::Ins(at, part), Comp::Ins(place, other)) => at == place && part.same(other),
        (Comp::Del(at, part), Comp::Del(place, other)) => at == place && part.same(other),
        (Comp::Com(at, part, thread), Comp::Com(place, other, number)) => {
            at == place && part.same(other) && thread == number
        }
        _ => false,
    }
}

pub(crate) fn is_same_op(one: &Op, other: &Op) -> bool
    ensures { IsTrue result ↔ (one.now ≡ other.now) }
{
    are_same_comps(one.comps(), other.comps())
}

fn are_same_comps(ones: &[Comp], others: &[Comp]) -> bool
    ensures { IsTrue result ↔ (ones.now ≡ others.now) }
{
    if ones.len() != others.len() {
        return false;
    }
    for (k, comp) in ones.iter().enumerate() {
        if !is_same_comp(comp, &others[k]) {
            return false;
        }
    }
    true
}

fn is_same_outcome(one: &Outcome, other: &Outcome) -> bool
    ensures { IsTrue result ↔ (one.now ≡ other.now) }
{
    match (one, other) {
        (Outcome::Applied { v, op }, Outcome::Applied { v: w, op: other }) => {
            v == w && is_same_op(op, other)
        }
        (Outcome::Dup { v }, Outcome::Dup { v: w }) => v == w,
        (Outcome::Refused(cause), Outcome::Refused(other)) => cause == other,
        _ => false,
    }
}

fn is_decision(
    alloc: Global,
    before: &[Entry],
    doc: u32,
    ticket: u64,
    outcome: &Outcome,
) -> Result<bool, AllocError>
    requires { rules.IsLegal before.now }
    ensures { IfOk result (λ b. IsTrue b ↔ rules.IsDecision before.now doc ticket outcome.now) }
{
    let Some(is) = decided_on(alloc, before, doc, ticket)? else {
        return Ok(false);
    };
    Ok(is_cached(before, doc) && is_same_outcome(outcome, &is))
}

fn has_failed_under(before: &[Entry], doc: u32, token: u64) -> bool
    ensures { IsTrue result ↔ (loading doc before.now ≡ FailedUnder (Some token)) }
{
    match last_loading(before, doc) {
        Loading::FailedUnder(under) => under == Some(token),
        _ => false,
    }
}

fn is_unloadable(before: &[Entry], doc: u32, token: u64, outcome: &Outcome) -> bool
    ensures { IsTrue result ↔ rules.IsUnloadable before.now doc token outcome.now }
{
    matches!(outcome, Outcome::Refused(Cause::StoreFault)) && has_failed_under(before, doc, token)
}

fn is_outcome(
    alloc: Global,
    before: &[Entry],
    doc: u32,
    token: u64,
    ticket: u64,
    outcome: &Outcome,
) -> Result<bool, AllocError>
    requires { rules.IsLegal before.now }
    ensures { IfOk result (λ b. IsTrue b ↔ rules.IsOutcome before.now doc token ticket outcome.now) }
{
    let is = is_decision(alloc, before, doc, ticket, outcome)?;
    Ok(
        is || matches!(outcome, Outcome::Refused(Cause::Memory))
            || is_unloadable(before, doc, token, outcome),
    )
}

fn is_first(alloc: Global, before: &[Entry], doc: u32, ticket: u64) -> Result<bool, AllocError>
    ensures { IfOk result (λ b. IsTrue b ↔ IsFirst ticket (waiting_lem doc before.now)) }
{
    let tickets = waiting(alloc, before, doc)?;
    match tickets.first() {
        Some(first) => Ok(*first == ticket),
        None => Ok(false),
    }
}

pub(crate) fn is_committing(
    alloc: Global,
    before: &[Entry],
    seat: u32,
    doc: u32,
    token: u64,
    ticket: u64,
    outcome: &Outcome,
) -> Result<bool, AllocError>
    requires { rules.IsLegal before.now }
    ensures { IfOk result (λ b. IsTrue b ↔ rules.IsCommitting before.now seat doc token ticket outcome.now) }
{
    let first = is_first(alloc, before, doc, ticket)?;
    let ends = is_outcome(alloc, before, doc, token, ticket, outcome)?;
    Ok(holds(before, seat, doc, token) && !is_used(before, token) && first && ends)
}
