//! Whether a client may join, edit, send, get and leave.

ghost use Rattle.std.specs.Prelude.{◌≡◌, ◌↔◌, ◌⊎◌, ◌<◌, ◌≤◌, ◌+◌, ◌-◌, ◌^◌, false, true, length, is_some, IsTrue, IfOk, Some};
ghost use Rattle.ot_op.specs.Operation.{total_units};
ghost use Rattle.ot_op.specs.Operation.{is_void};
ghost use Rattle.journal_rules.specs.declared.state.ClientState.TheVariants as state;
ghost use Rattle.journal_rules.specs.Client as clients;
ghost use Rattle.journal_rules.specs.Legal as rules;
ghost use Rattle.journal_rules.specs.Client.{user_in};
ghost use Rattle.plain_journal.specs.Answers.{client_as};
ghost use Rattle.plain_journal.specs.Parts.{HasLeft};
ghost use Rattle.ot_op.specs.Compose.{appended as appended_lem};
ghost use Rattle.journal_rules.specs.Deciding.{greatest_age};
ghost use Rattle.journal_rules.specs.Locks.{clock as clock_lem};
ghost use Rattle.journal_rules.specs.Whys.{most_components, most_units};

use crate::allowed_updates::{is_raw_update, is_same_op, units};
use crate::clients::{Client, client_of};
use crate::crossing::applied;
use crate::documents::{is_made, version};
use crate::keeping::is_cached;
use crate::locks::clock;
use crate::mail::{brief_of, mail_of};
use journal_entries::{Brief, Entry, FIRST_SOURCE, MAX_AGE, MAX_ENTRIES, Update};
use journal_rules::ClientState;
use ot_op::{Comp, MAX_COMPONENTS, MAX_OPERATION_UNITS, Op, append};
use ot_units::{Name, Units};
use std::alloc::{AllocError, Global};

fn source_at(before: &[Entry]) -> u64
    ensures { result ≡ rules.source_at before.now }
{
    FIRST_SOURCE + before.len() as u64
}

fn is_joining(
    alloc: Global,
    before: &[Entry],
    doc: u32,
    source: u64,
    v: u64,
) -> Result<bool, AllocError>
    requires { rules.IsLegal before.now }
    ensures { IfOk result (λ b. IsTrue b ↔ rules.IsJoining before.now doc source v) }
{
    let have = version(alloc, before, doc)?;
    Ok(is_made(before, doc) && is_cached(before, doc) && v == have && source == source_at(before))
}

fn has_user(user: &Option<Name>, name: &Name) -> bool
    ensures { IsTrue result ↔ (user_in user.now ≡ name.now) }
{
    match user {
        Some(user) => user.same(name),
        None => name.as_str().is_empty(),
    }
}

fn is_recent(have: u64, since: u64) -> bool
    ensures { IsTrue result ↔ (have ≤ since + greatest_age) }
{
    have.saturating_sub(since) <= MAX_AGE
}

pub(crate) fn is_left(now: &Client) -> bool
    ensures { IsTrue result ↔ (now.now.state ≡ state.Left) }
{
    matches!(now.state, ClientState::Left)
}

pub(crate) fn is_joined(now: &Client) -> bool
    ensures { IsTrue result ↔ (now.now.state ≡ state.Joined) }
{
    matches!(now.state, ClientState::Joined)
}

// Whether a client left its document as it says.
fn has_left(now: &Client, doc: u32, user: &Name, track: bool, since: u64) -> bool
    ensures { IsTrue result ↔ HasLeft (client_as now.now) doc user.now track since }
{
    is_left(now)
        && now.version == since
        && now.doc == doc
        && has_user(&now.user, user)
        && now.track == track
}

fn is_returning(
    alloc: Global,
    before: &[Entry],
    client: u32,
    doc: u32,
    user: &Name,
    track: bool,
    since: u64,
    source: u64,
    v: u64,
) -> Result<bool, AllocError>
    requires { rules.IsLegal before.now }
    ensures { IfOk result (λ b. IsTrue b ↔ rules.IsReturning before.now client doc user.now track since source v) }
{
    let now = client_of(alloc, before, client)?;
    let have = version(alloc, before, doc)?;
    Ok(
        has_left(&now, doc, user, track, since)
            && is_recent(have, since)
            && v == have
            && source == source_at(before),
    )
}

pub(crate) fn is_join(
    alloc: Global,
    before: &[Entry],
    client: u32,
    doc: u32,
    user: &Name,
    track: bool,
    since: Option<u64>,
    source: u64,
    v: u64,
) -> Result<bool, AllocError>
    requires { rules.IsLegal before.now }
    ensures { IfOk result (λ b. IsTrue b ↔ rules.IsJoin before.now client doc user.now track since source v) }
{
    match since {
        Some(since) => is_returning(alloc, before, client, doc, user, track, since, source, v),
        None => is_joining(alloc, before, doc, source, v),
    }
}

// A component behind an operation.
fn appended(alloc: Global, op: &Op, comp: &Comp) -> Result<Op, AllocError>
    ensures { IfOk result (λ made. made ≡ appended_lem op.now comp.now) }
{
    let mut made = op.copy(alloc)?;
    match append(&mut made, comp.copy(alloc)?) {
        Ok(()) => Ok(made),
        Err((fault, _)) => Err(fault),
    }
}

fn is_within_limits(op: &Op) -> bool
    ensures { IsTrue result ↔ ((length op.now ≤ most_components) × (total_units op.now ≤ most_units)) }
{
    op.comps().len() as u64 <= MAX_COMPONENTS && units(op.comps()) <= MAX_OPERATION_UNITS
}

pub(crate) fn is_edit(
    alloc: Global,
    before: &[Entry],
    client: u32,
    comp: &Comp,
) -> Result<bool, AllocError>
    requires { rules.IsLegal before.now }
    ensures { IfOk result (λ b. IsTrue b ↔ rules.IsEdit before.now client comp.now) }
{
    let now = client_of(alloc, before, client)?;
    let text = applied(alloc, &now.text, comp)?;
    let pending = appended(alloc, &now.pending, comp)?;
    Ok(allows_edit(&now, comp, &text, &pending))
}

// Whether a client may edit, where its edit makes this of its text and of what it has pending.
fn allows_edit(now: &Client, comp: &Comp, text: &Option<Units>, pending: &Op) -> bool
    ensures { IsTrue result ↔ ((now.now.state ≡ state.Joined) × (is_void comp.now ≡ false) × (is_some text.now ≡ true) × (length pending.now ≤ most_components) × (total_units pending.now ≤ most_units)) }
{
    is_joined(now) && !comp.is_void() && text.is_some() && is_within_limits(pending)
}

// Whether an update is what a client sends of an operation, under a number.
fn is_update_from(
    update: &Update,
    client: u32,
    now: &Client,
    ms: u64,
    number: u64,
    op: &Op,
    dup: &[u64],
) -> bool
    ensures { IsTrue result ↔ (clients.update_from client (client_as now.now) ms number op.now dup.now ≡ update.now) }
{
    update.doc == now.doc
        && update.client == Some(client)
        && update.number == number
        && update.source == now.source
        && update.dup.as_slice() == dup
        && has_user(&now.user, &update.user)
        && update.track == now.track
        && update.ms == ms
        && update.v == now.version
        && is_same_op(op, &update.op)
}

fn is_sent(client: u32, now: &Client, ms: u64, update: &Update) -> bool
    requires { now.now.number < 2 ^ 64 - 1 }
    ensures { IsTrue result ↔ (clients.sending client (client_as now.now) ms ≡ Some update.now) }
{
    if !is_joined(now) {
        return false;
    }
    match &now.flight {
        Some(flight) => {
            !flight.comps().is_empty()
                && is_update_from(
                    update,
                    client,
                    now,
                    ms,
                    now.number,
                    flight,
                    now.sources.as_slice(),
                )
        }
        None => {
            !now.pending.comps().is_empty()
                && is_update_from(update, client, now, ms, now.number + 1, &now.pending, &[])
        }
    }
}

fn is_sent_by(
    alloc: Global,
    before: &[Entry],
    client: u32,
    update: &Update,
) -> Result<bool, AllocError>
    requires { rules.IsLegal before.now }
    ensures { IfOk result (λ b. IsTrue b ↔ (clients.sending client (clients.client client before.now) (clock_lem before.now) ≡ Some update.now)) }
{
    prove!(before.len() as u64 <= MAX_ENTRIES);
    let now = client_of(alloc, before, client)?;
    Ok(is_sent(client, &now, clock(before), update))
}

pub(crate) fn is_sending(
    alloc: Global,
    before: &[Entry],
    update: &Update,
) -> Result<bool, AllocError>
    requires { rules.IsLegal before.now }
    ensures { IfOk result (λ b. IsTrue b ↔ rules.IsSending before.now update.now update.now.client) }
{
    match update.client {
        Some(client) => is_sent_by(alloc, before, client, update),
        None => Ok(is_raw_update(before, update)),
    }
}

pub(crate) fn is_getting(
    alloc: Global,
    before: &[Entry],
    client: u32,
    brief: Brief,
) -> Result<bool, AllocError>
    ensures { IfOk result (λ b. IsTrue b ↔ rules.IsGetting before.now client brief) }
{
    let mail = mail_of(alloc, before, client)?;
    match mail.first() {
        Some(msg) => Ok(brief_of(msg) == brief),
        None => Ok(false),
    }
}

pub(crate) fn may_leave(alloc: Global, before: &[Entry], client: u32) -> Result<bool, AllocError>
    requires { rules.IsLegal before.now }
    ensures { IfOk result (λ b. IsTrue b ↔ (((clients.client client before.now).state ≡ state.Joined) ⊎ ((clients.client client before.now).state ≡ state.Stale))) }
{
    let now = client_of(alloc, before, client)?;
    Ok(matches!(now.state, ClientState::Joined | ClientState::Stale))
}
