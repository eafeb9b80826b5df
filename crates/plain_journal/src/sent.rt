//! What waits for a document.

ghost use Rattle.std.specs.Prelude.{◌≡◌, ◌==◌, IfOk, filter, not, [], ◌∷◌, if◌then◌else◌};
ghost use Rattle.journal_rules.specs.Documents as rules;
ghost use Rattle.plain_journal.specs.Answers.{listed};

use crate::documents::push_found;
use journal_entries::{Act, Entry};
use std::alloc::{AllocError, Global};

/// Whether an outcome was committed for a ticket.
pub fn is_committed(journal: &[Entry], ticket: u64) -> bool
    ensures { result ≡ rules.is_in ticket (rules.committed journal.now) }
{
    journal.iter().any(|entry| commits(&entry.act, ticket))
}

fn commits(act: &Act, ticket: u64) -> bool
    ensures { result ≡ rules.is_in ticket (rules.ticket_of act.now) }
{
    match act {
        Act::Committed { ticket: t, .. } => *t == ticket,
        _ => false,
    }
}

/// The tickets that wait for a document, in order: what was sent to it and not committed. The only
/// error is want of memory.
pub fn waiting(alloc: Global, journal: &[Entry], doc: u32) -> Result<Vec<u64>, AllocError>
    ensures { IfOk result (λ tickets. tickets.items ≡ rules.waiting doc journal.now) }
{
    let mut tickets = Vec::new(alloc);
    for (n, entry) in journal.iter().enumerate() {
        push_found(&mut tickets, waits(journal, doc, n as u64, &entry.act))?;
    }
    Ok(tickets)
}

// The ticket, where its entry sent something to the document that was not committed.
fn waits(journal: &[Entry], doc: u32, ticket: u64, act: &Act) -> Option<u64>
    ensures { listed result ≡ filter (λ t. not (rules.is_in t (rules.committed journal.now))) (if rules.sends doc act.now then ticket ∷ [] else []) }
{
    if sends(doc, act) && !is_committed(journal, ticket) {
        Some(ticket)
    } else {
        None
    }
}

fn sends(doc: u32, act: &Act) -> bool
    ensures { result ≡ rules.sends doc act.now }
{
    match act {
        Act::Sent { update } => update.doc == doc,
        _ => false,
    }
}
