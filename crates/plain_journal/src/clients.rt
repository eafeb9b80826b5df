//! The clients: what each entry makes of them.

ghost use Rattle.std.specs.Prelude.{◌≡◌, ◌+◌, ◌-◌, ◌^◌, ◌<◌, ◌≤◌, ℕ, List, Some, [], ◌∷◌, IfOk, IfSome, length, map, take, drop, unwrap_or};
ghost use Rattle.journal_entries.specs.declared.message.Msg.{Msg};
ghost use Rattle.journal_rules.specs.Documents.{text_at as text_at_lem};
ghost use Rattle.journal_rules.specs.Client as rules;
ghost use Rattle.journal_rules.specs.Legal.{IsAllowed, IsLegal};
ghost use Rattle.plain_journal.specs.Answers.{client_as, item_as};
ghost use Rattle.journal_sizes.specs.Sizes.{IsAtEase};
ghost use Rattle.plain_journal.specs.Crossing.{IsFirstSized, IsLow};

use crate::crossing::applied;
use crate::delivering::{caught_up, delivered, is_alive};
use crate::documents::{Item, applied_list, base};
use crate::mail::mail_of;
use crate::texts::text_at;
use journal_entries::{Act, Entry, MAX_ENTRIES, Msg, Sources};
use journal_rules::ClientState;
use ot_op::{Comp, Op, append};
use ot_units::{Name, Units};
use std::alloc::{AllocError, Global};

/// A client: its document, its text at a version of it, the operation in flight with its number and
/// the sources under which it was sent, and what is pending behind it.
#[derive(Drop)]
pub struct Client {
    pub state: ClientState,
    pub doc: u32,
    /// Its user, none before it first joined.
    pub user: Option<Name>,
    pub track: bool,
    pub source: u64,
    pub version: u64,
    pub text: Units,
    pub flight: Option<Op>,
    pub pending: Op,
    pub number: u64,
    pub sources: Sources,
}

/// A client by the journal. The only error is want of memory.
pub fn client_of(alloc: Global, journal: &[Entry], client: u32) -> Result<Client, AllocError>
    requires { IsLegal journal.now }
    ensures { IfOk result (λ now. client_as now ≡ rules.client client journal.now) }
{
    let mut now = away(alloc)?;
    for (n, entry) in journal.iter().enumerate() {
        now = client_by(alloc, client, &journal[..n], entry, now)?;
    }
    Ok(now)
}

// A client that never joined.
fn away(alloc: Global) -> Result<Client, AllocError>
    ensures { IfOk result (λ now. client_as now ≡ rules.away) }
{
    Ok(Client {
        state: ClientState::Away,
        doc: 0,
        user: None,
        track: false,
        source: 0,
        version: 0,
        text: Units::from_slice(alloc, &[])?,
        flight: None,
        pending: Op::empty(alloc),
        number: 0,
        sources: Sources::new(alloc),
    })
}

fn client_by(
    alloc: Global,
    client: u32,
    before: &[Entry],
    entry: &Entry,
    now: Client,
) -> Result<Client, AllocError>
    requires legal { IsLegal before.now }
    requires allowed { IsAllowed before.now entry.now.seat entry.now.act }
    requires is { client_as now ≡ rules.client client before.now }
    ensures { IfOk result (λ next. client_as next ≡ rules.client_by client before.now entry.now.act (client_as now)) }
{
    prove!(before.len() as u64 <= MAX_ENTRIES);
    match &entry.act {
        Act::Joined {
            client: joined,
            doc,
            user,
            track,
            since,
            source,
            v,
        } if *joined == client => {
            let user = user.copy(alloc)?;
            joined_by(alloc, now, before, *doc, user, *track, *since, *source, *v)
        }
        Act::Edited {
            client: edited,
            comp,
        } if *edited == client => edited_by(alloc, now, comp),
        Act::Sent { update } if update.client == Some(client) => sent_by(alloc, now),
        Act::Got { client: got, .. } if *got == client => {
            let mail = mail_of(alloc, before, client)?;
            got_by(alloc, now, mail.as_slice())
        }
        Act::Left { client: left } if *left == client => Ok(left_by(now)),
        _ => Ok(now),
    }
}

// A client joins, with nothing of its own.
fn joined_anew(
    alloc: Global,
    now: Client,
    doc: u32,
    user: Name,
    track: bool,
    source: u64,
    v: u64,
    text: Units,
) -> Client
    ensures { client_as result ≡ rules.joined_anew (client_as now) doc user track source v text }
{
    Client {
        state: ClientState::Joined,
        doc,
        user: Some(user),
        track,
        source,
        version: v,
        text,
        flight: None,
        pending: Op::empty(alloc),
        number: now.number,
        sources: Sources::new(alloc),
    }
}

// A client that had left is back under a new source, unless it became stale.
fn back_under(source: u64, now: Client) -> Client
    ensures { client_as result ≡ rules.back_under source (client_as now) }
{
    if is_alive(now.state) {
        Client {
            state: ClientState::Joined,
            source,
            ..now
        }
    } else {
        now
    }
}

// So many of the items behind the first so many.
fn part<'b, 'a>(items: &'b [Item<'a>], skipped: u64, count: u64) -> &'b [Item<'a>]
    ensures { result.now ≡ take count (drop skipped items.now) }
{
    let skipped = (skipped as usize).min(items.len());
    let rest = &items[skipped..];
    let count = (count as usize).min(rest.len());
    &rest[..count]
}

fn returned(
    alloc: Global,
    now: Client,
    before: &[Entry],
    doc: u32,
    since: u64,
    source: u64,
    v: u64,
) -> Result<Client, AllocError>
    requires legal { IsLegal before.now }
    requires ease { IsAtEase (client_as now) }
    requires low { now.version ≤ since }
    ensures { IfOk result (λ next. client_as next ≡ rules.back_under source (rules.caught_up (client_as now) (rules.items_between doc since v before.now))) }
{
    let items = applied_list(alloc, before, doc)?;
    let skipped = since.saturating_sub(base(alloc, before, doc)?);
    let missed = part(items.as_slice(), skipped, v.saturating_sub(since));
    let now = caught_up(alloc, now, missed)?;
    Ok(back_under(source, now))
}

fn joined_by(
    alloc: Global,
    now: Client,
    before: &[Entry],
    doc: u32,
    user: Name,
    track: bool,
    since: Option<u64>,
    source: u64,
    v: u64,
) -> Result<Client, AllocError>
    requires legal { IsLegal before.now }
    requires ease { IsAtEase (client_as now) }
    requires low { IfSome since (λ n. now.version ≤ n) }
    ensures { IfOk result (λ next. client_as next ≡ rules.joined_by (client_as now) before.now doc user track since source v) }
{
    match since {
        Some(since) => returned(alloc, now, before, doc, since, source, v),
        None => {
            let text = text_or_none(alloc, before, doc, v)?;
            Ok(joined_anew(alloc, now, doc, user, track, source, v, text))
        }
    }
}

fn text_or_none(alloc: Global, before: &[Entry], doc: u32, v: u64) -> Result<Units, AllocError>
    ensures { IfOk result (λ text. text ≡ unwrap_or (text_at_lem doc v before.now) []) }
{
    match text_at(alloc, before, doc, v)? {
        Some(text) => Ok(text),
        None => Units::from_slice(alloc, &[]),
    }
}

// A client edits its text.
fn edited_by(alloc: Global, now: Client, comp: &Comp) -> Result<Client, AllocError>
    ensures { IfOk result (λ next. client_as next ≡ rules.edited_by (client_as now) comp.now) }
{
    let text = match applied(alloc, &now.text, comp)? {
        Some(text) => text,
        None => now.text.copy(alloc)?,
    };
    let mut pending = now.pending;
    if let Err((fault, _)) = append(&mut pending, comp.copy(alloc)?) {
        return Err(fault);
    }
    Ok(Client {
        text,
        pending,
        ..now
    })
}

// A client sends what is pending under its next number, or what is in flight again.
fn sent_by(alloc: Global, now: Client) -> Result<Client, AllocError>
    requires { now.number < 2 ^ 64 - 1 }
    ensures { IfOk result (λ next. client_as next ≡ rules.sent_by (client_as now) now.flight) }
{
    if now.flight.is_some() {
        let sources = added(&now.sources, now.source)?;
        return Ok(Client { sources, ..now });
    }
    let mut sources = Sources::new(alloc);
    sources.push(now.source)?;
    Ok(Client {
        flight: Some(now.pending),
        pending: Op::empty(alloc),
        number: now.number + 1,
        sources,
        ..now
    })
}

fn added(sources: &Sources, source: u64) -> Result<Sources, AllocError>
    ensures { IfOk result (λ made. made ≡ rules.added sources.now source) }
{
    let mut made = sources.copy()?;
    if !made.as_slice().contains(&source) {
        made.push(source)?;
    }
    Ok(made)
}

// A client gets the first message of its mail.
fn got_by(alloc: Global, now: Client, mail: &[Msg]) -> Result<Client, AllocError>
    requires low { IsLow now.state now.version }
    requires ease { IsAtEase (client_as now) }
    requires first { IsFirstSized now.state mail.now }
    ensures { IfOk result (λ next. client_as next ≡ rules.got_by (client_as now) mail.now) }
{
    match mail.first() {
        Some(msg) => delivered(alloc, now, msg),
        None => Ok(now),
    }
}

// A client leaves; one that is away or stale stays so.
fn left_by(now: Client) -> Client
    ensures { client_as result ≡ rules.left_by (client_as now) }
{
    if is_alive(now.state) {
        Client {
            state: ClientState::Left,
            ..now
        }
    } else {
        now
    }
}
