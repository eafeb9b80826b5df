//! The documents: how they were made, what was sent to them, and what was applied.

ghost use Rattle.std.specs.Prelude.{◌≡◌, ◌↔◌, ◌≤◌, ◌<◌, ◌^◌, ◌++◌, ℕ, List, length, map, option_map, IsTrue, OnOk, IfOk};
ghost use Rattle.std.specs.Option.{option_copied};
ghost use Rattle.journal_entries.specs.declared.act.Entry.{Entry};
ghost use Rattle.journal_rules.specs.Documents as rules;
ghost use Rattle.journal_rules.specs.Legal.{IsAllowed, IsLegal};
ghost use Rattle.plain_journal.specs.Answers.{listed, making_as, item_as};

use journal_entries::{Act, Entry, Outcome, Update};
use ot_op::Op;
use ot_units::{Name, Units};
use std::alloc::{AllocError, Global};

/// How a document was made.
#[derive(Clone, Copy, Drop)]
pub struct Making<'a> {
    pub name: &'a Name,
    pub project: &'a Name,
    pub first: &'a Units,
    pub base: u64,
}

/// An operation that was applied, at its version, with the update that its ticket names.
#[derive(Clone, Copy, Drop)]
pub struct Item<'a> {
    pub op: &'a Op,
    pub v: u64,
    pub ticket: u64,
    pub update: &'a Update,
}

/// Puts what was found behind the others.
pub(crate) fn push_found<T>(list: &mut Vec<T>, found: Option<T>) -> Result<(), AllocError>
where
    T: Drop,
    ensures { OnOk result (list.new.items ≡ list.old.items ++ listed found) }
{
    if let Some(one) = found {
        list.push(one)?;
    }
    Ok(())
}

/// The documents in the order in which they were made. The only error is want of memory.
pub fn makings(alloc: Global, journal: &[Entry]) -> Result<Vec<Making<'_>>, AllocError>
    ensures { IfOk result (λ made. map making_as made.items ≡ rules.makings journal.now) }
{
    let mut made = Vec::new(alloc);
    for entry in journal {
        push_found(&mut made, making_of(&entry.act))?;
    }
    Ok(made)
}

fn making_of(act: &Act) -> Option<Making<'_>>
    ensures { map making_as (listed result) ≡ rules.making_of act.now }
{
    match act {
        Act::Made {
            name,
            project,
            first,
            base,
            ..
        } => Some(Making {
            name,
            project,
            first,
            base: *base,
        }),
        _ => None,
    }
}

/// How many documents were made.
pub fn made_count(journal: &[Entry]) -> u64
    ensures count { result ≡ length (rules.makings journal.now) }
    ensures few { IsLegal journal.now → result ≤ 2 ^ 32 }
{
    let mut count = 0;
    for entry in journal {
        count += makings_in(&entry.act);
    }
    count
}

fn makings_in(act: &Act) -> u64
    ensures count { length (rules.making_of act.now) ≡ result }
    ensures few { result ≤ 1 }
    ensures numbered { (before : List Entry) (seat : ℕ) → IsAllowed before seat act.now → result ≡ 1 → length (rules.makings before) < 2 ^ 32 }
{
    match act {
        Act::Made { doc, .. } => {
            let _number: u32 = *doc;
            1
        }
        _ => 0,
    }
}

/// Whether a document of this number was made.
pub fn is_made(journal: &[Entry], doc: u32) -> bool
    ensures { IsTrue result ↔ rules.IsMade doc journal.now }
{
    u64::from(doc) < made_count(journal)
}

/// How a document was made. The only error is want of memory.
pub fn making_at(
    alloc: Global,
    journal: &[Entry],
    doc: u32,
) -> Result<Option<Making<'_>>, AllocError>
    ensures { IfOk result (λ made. option_map making_as made ≡ rules.making doc journal.now) }
{
    let makings = makings(alloc, journal)?;
    Ok(makings.get(doc as usize).copied())
}

/// The version at which a document was made, 0 where it wasn't. The only error is want of memory.
pub fn base(alloc: Global, journal: &[Entry], doc: u32) -> Result<u64, AllocError>
    ensures { IfOk result (λ v. v ≡ rules.base doc journal.now) }
{
    match making_at(alloc, journal, doc)? {
        Some(making) => Ok(making.base),
        None => Ok(0),
    }
}

/// The text with which a document was made, empty where it wasn't. The only error is want of memory.
pub fn first(alloc: Global, journal: &[Entry], doc: u32) -> Result<Units, AllocError>
    ensures { IfOk result (λ text. text ≡ rules.first doc journal.now) }
{
    match making_at(alloc, journal, doc)? {
        Some(making) => making.first.copy(alloc),
        None => Units::from_slice(alloc, &[]),
    }
}

/// The update that a ticket names.
pub fn update_at(journal: &[Entry], ticket: u64) -> Option<&Update>
    ensures { option_copied result ≡ rules.update_at journal.now ticket }
{
    match journal.get(ticket as usize) {
        Some(entry) => update_of(&entry.act),
        None => None,
    }
}

fn update_of(act: &Act) -> Option<&Update>
    ensures { option_copied result ≡ rules.update_of act.now }
{
    match act {
        Act::Sent { update } => Some(update),
        _ => None,
    }
}

/// The operations that were applied to a document. The only error is want of memory.
pub fn applied_list(alloc: Global, journal: &[Entry], doc: u32) -> Result<Vec<Item<'_>>, AllocError>
    ensures { IfOk result (λ items. map item_as items.items ≡ rules.applied_list doc journal.now) }
{
    let mut items = Vec::new(alloc);
    for (n, entry) in journal.iter().enumerate() {
        push_found(&mut items, item_by(doc, &journal[..n], &entry.act))?;
    }
    Ok(items)
}

fn item_by<'a>(doc: u32, before: &'a [Entry], act: &'a Act) -> Option<Item<'a>>
    ensures { map item_as (listed result) ≡ rules.items_by doc before.now act.now }
{
    match act {
        Act::Committed {
            doc: committed,
            ticket,
            outcome,
            ..
        } if *committed == doc => item_of(*ticket, update_at(before, *ticket), outcome),
        _ => None,
    }
}

fn item_of<'a>(ticket: u64, update: Option<&'a Update>, outcome: &'a Outcome) -> Option<Item<'a>>
    ensures { map item_as (listed result) ≡ rules.item_of ticket (option_copied update.entry) outcome.now }
{
    match (update, outcome) {
        (Some(update), Outcome::Applied { v, op }) => Some(Item {
            op,
            v: *v,
            ticket,
            update,
        }),
        _ => None,
    }
}

/// The version of a document. The only error is want of memory.
pub fn version(alloc: Global, journal: &[Entry], doc: u32) -> Result<u64, AllocError>
    requires { IsLegal journal.now }
    ensures { IfOk result (λ v. v ≡ rules.version doc journal.now) }
{
    let applied = applied_list(alloc, journal, doc)?;
    Ok(base(alloc, journal, doc)? + applied.len() as u64)
}
