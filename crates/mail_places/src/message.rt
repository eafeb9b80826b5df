//! The message at a place of the journal.

ghost use Rattle.std.specs.Prelude.{◌≡◌, slice_get, IfOk};
ghost use Rattle.std.specs.Option.{option_copied};
ghost use Rattle.journal_rules.specs.Documents as rules;
ghost use Rattle.journal_rules.specs.Mail as mail;
ghost use Rattle.mail_places.specs.Places.{told_at};

use journal_entries::{Act, Entry, Msg, Outcome, Update};
use std::alloc::{AllocError, Global};

/// What a client that joined under a source is told at a place of the journal: of the update that
/// was committed there. `None` where no update was committed there, or the client isn't told of it.
/// The message has memory of its own. The only error is want of memory.
pub fn message_at(
    alloc: Global,
    journal: &[Entry],
    source: u64,
    place: u64,
) -> Result<Option<Msg>, AllocError>
    ensures { IfOk result (λ msg. msg ≡ told_at journal.now source place) }
{
    let Some(entry) = journal.get(place as usize) else {
        return Ok(None);
    };
    let Act::Committed {
        ticket,
        outcome,
        ..
    } = &entry.act
    else {
        return Ok(None);
    };
    match update_at(journal, *ticket) {
        Some(update) => told(alloc, source, update, outcome),
        None => Ok(None),
    }
}

// The update that a ticket names.
fn update_at(journal: &[Entry], ticket: u64) -> Option<&Update>
    ensures { option_copied result ≡ rules.update_at journal.now ticket }
{
    match journal.get(ticket as usize) {
        Some(entry) => update_of(&entry.act),
        None => None,
    }
}

fn update_of(act: &Act) -> Option<&Update>
    ensures { option_copied result ≡ rules.update_of act.now }
{
    match act {
        Act::Sent { update } => Some(update),
        _ => None,
    }
}

// What a client that joined under a source is told of an outcome.
fn told(
    alloc: Global,
    source: u64,
    update: &Update,
    outcome: &Outcome,
) -> Result<Option<Msg>, AllocError>
    ensures { IfOk result (λ msg. msg ≡ slice_get (mail.told source update.now outcome.now) 0) }
{
    let number = update.number;
    let own = update.source == source;
    match outcome {
        Outcome::Applied { v, .. } if own => Ok(Some(Msg::Ack { v: *v, number })),
        Outcome::Applied { v, op } => Ok(Some(Msg::Op {
            v: *v,
            op: op.copy(alloc)?,
            source: update.source,
        })),
        Outcome::Dup { v } if own => Ok(Some(Msg::Ack { v: *v, number })),
        Outcome::Refused(cause) if own => Ok(Some(Msg::Error {
            number,
            cause: *cause,
        })),
        _ => Ok(None),
    }
}
