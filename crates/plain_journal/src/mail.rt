//! What was posted to a client since it joined, and what of it is still to be got.

ghost use Rattle.std.specs.Prelude.{◌≡◌, ◌+◌, ◌≤◌, length, map, option_map, IfOk, IfSome};
ghost use Rattle.std.specs.Option.{option_copied};
ghost use Rattle.journal_rules.specs.Mail as rules;
ghost use Rattle.journal_rules.specs.Legal.{brief_of as brief_of_lem};
ghost use Rattle.plain_journal.specs.Answers.{listed, outbox_as};
ghost use Rattle.plain_journal.specs.Parts.{posted};
ghost use Rattle.plain_journal.specs.declared.mail.Outbox.{Outbox};

use crate::documents::{push_found, update_at};
use journal_entries::{Act, Brief, Entry, MAX_ENTRIES, Msg, Outcome, Update};
use std::alloc::{AllocError, Global};

/// Since a client joined: its document and source, what was posted to it, and how much of that it got.
#[derive(Drop)]
pub struct Outbox {
    pub doc: u32,
    pub source: u64,
    pub posted: Vec<Msg>,
    pub got: u64,
}

/// What was posted to a client since it joined, `None` where it didn't join or left since. The only
/// error is want of memory.
pub fn outbox_of(
    alloc: Global,
    journal: &[Entry],
    client: u32,
) -> Result<Option<Outbox>, AllocError>
    ensures { IfOk result (λ found. option_map outbox_as found ≡ rules.outbox client journal.now) }
{
    let mut found = None;
    for (n, entry) in journal.iter().enumerate() {
        found = outbox_by(alloc, client, &journal[..n], &entry.act, found)?;
    }
    Ok(found)
}

fn outbox_by(
    alloc: Global,
    client: u32,
    before: &[Entry],
    act: &Act,
    now: Option<Outbox>,
) -> Result<Option<Outbox>, AllocError>
    requires { IfSome now (λ outbox. outbox.got ≤ length before.now) }
    ensures value { IfOk result (λ next. option_map outbox_as next ≡ rules.outbox_by client before.now act.now (option_map outbox_as now)) }
    ensures few { IfOk result (λ next. IfSome next (λ outbox. outbox.got ≤ length before.now + 1)) }
{
    match act {
        Act::Joined {
            client: joined,
            doc,
            source,
            ..
        } if *joined == client => Ok(Some(Outbox {
            doc: *doc,
            source: *source,
            posted: Vec::new(alloc),
            got: 0,
        })),
        Act::Left { client: left } if *left == client => Ok(None),
        Act::Committed {
            doc,
            ticket,
            outcome,
            ..
        } => posted_if(alloc, *doc, update_at(before, *ticket), outcome, now),
        Act::Got { client: got, .. } if *got == client => Ok(one_got(before, now)),
        _ => Ok(now),
    }
}

fn one_got(before: &[Entry], now: Option<Outbox>) -> Option<Outbox>
    requires { IfSome now (λ outbox. outbox.got ≤ length before.now) }
    ensures value { option_map outbox_as result ≡ option_map rules.one_got (option_map outbox_as now) }
    ensures few { IfSome result (λ outbox. outbox.got ≤ length before.now + 1) }
{
    prove!(before.len() as u64 <= MAX_ENTRIES);
    match now {
        Some(outbox) => Some(Outbox {
            got: outbox.got + 1,
            ..outbox
        }),
        None => None,
    }
}

fn posted_if(
    alloc: Global,
    doc: u32,
    update: Option<&Update>,
    outcome: &Outcome,
    now: Option<Outbox>,
) -> Result<Option<Outbox>, AllocError>
    ensures value { IfOk result (λ next. option_map outbox_as next ≡ option_map (posted doc (option_copied update.entry) outcome.now) (option_map outbox_as now)) }
    ensures kept { IfOk result (λ next. option_map (λ (b : Outbox). b.got) next ≡ option_map (λ (b : Outbox). b.got) now) }
{
    match now {
        Some(outbox) => Ok(Some(posted_to(alloc, doc, update, outcome, outbox)?)),
        None => Ok(None),
    }
}

fn posted_to(
    alloc: Global,
    doc: u32,
    update: Option<&Update>,
    outcome: &Outcome,
    mut outbox: Outbox,
) -> Result<Outbox, AllocError>
    ensures value { IfOk result (λ next. outbox_as next ≡ posted doc (option_copied update.entry) outcome.now (outbox_as outbox)) }
    ensures kept { IfOk result (λ next. next.got ≡ outbox.got) }
{
    if doc == outbox.doc {
        push_found(
            &mut outbox.posted,
            told_of(alloc, outbox.source, update, outcome)?,
        )?;
    }
    Ok(outbox)
}

// What a client that joined under a source is told of an outcome.
fn told_of(
    alloc: Global,
    source: u64,
    update: Option<&Update>,
    outcome: &Outcome,
) -> Result<Option<Msg>, AllocError>
    ensures { IfOk result (λ msg. listed msg ≡ rules.told_of source (option_copied update.entry) outcome.now) }
{
    match update {
        Some(update) => told(alloc, source, update, outcome),
        None => Ok(None),
    }
}

fn told(
    alloc: Global,
    source: u64,
    update: &Update,
    outcome: &Outcome,
) -> Result<Option<Msg>, AllocError>
    ensures { IfOk result (λ msg. listed msg ≡ rules.told source update.now outcome.now) }
{
    let number = update.number;
    let own = update.source == source;
    match outcome {
        Outcome::Applied { v, .. } if own => Ok(Some(Msg::Ack { v: *v, number })),
        Outcome::Applied { v, op } => Ok(Some(Msg::Op {
            v: *v,
            op: op.copy(alloc)?,
            source: update.source,
        })),
        Outcome::Dup { v } if own => Ok(Some(Msg::Ack { v: *v, number })),
        Outcome::Refused(cause) if own => Ok(Some(Msg::Error {
            number,
            cause: *cause,
        })),
        _ => Ok(None),
    }
}

/// The mail of a client: what was posted to it and not got, in order. The only error is want of memory.
pub fn mail_of(alloc: Global, journal: &[Entry], client: u32) -> Result<Vec<Msg>, AllocError>
    ensures { IfOk result (λ mail. mail.items ≡ rules.mail client journal.now) }
{
    match outbox_of(alloc, journal, client)? {
        Some(outbox) => outbox
            .posted
            .into_iter()
            .skip(outbox.got as usize)
            .collect(alloc),
        None => Ok(Vec::new(alloc)),
    }
}

/// The mail of a client in short. The only error is want of memory.
pub fn briefs(alloc: Global, journal: &[Entry], client: u32) -> Result<Vec<Brief>, AllocError>
    ensures { IfOk result (λ made. made.items ≡ map brief_of_lem (rules.mail client journal.now)) }
{
    let mail = mail_of(alloc, journal, client)?;
    briefs_of(alloc, &mail)
}

fn briefs_of(alloc: Global, mail: &[Msg]) -> Result<Vec<Brief>, AllocError>
    ensures { IfOk result (λ made. made.items ≡ map brief_of_lem mail.now) }
{
    mail.iter().map(|msg| brief_of(msg)).collect(alloc)
}

/// A message in short.
pub fn brief_of(msg: &Msg) -> Brief
    ensures { result ≡ brief_of_lem msg.now }
{
    match msg {
        Msg::Op { v, .. } => Brief::Op(*v),
        Msg::Ack { v, .. } => Brief::Ack(*v),
        Msg::Error { number, .. } => Brief::Error(*number),
    }
}
