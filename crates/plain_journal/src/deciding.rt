//! What becomes of an update.

ghost use Rattle.std.specs.Prelude.{◌≡◌, map, option_map, IfOk};
ghost use Rattle.std.specs.Option.{option_and_then};
ghost use Rattle.ot_op.specs.Apply.{applied_all};
ghost use Rattle.ot_transform.specs.Room.{FitsAll};
ghost use Rattle.journal_entries.specs.declared.update.Update.{Update};
ghost use Rattle.journal_rules.specs.Documents.{update_at as update_at_lem};
ghost use Rattle.journal_rules.specs.Deciding as rules;
ghost use Rattle.journal_rules.specs.Legal.{IsLegal};
ghost use Rattle.plain_journal.specs.Answers.{operations, passed_as, scan_as};
ghost use Rattle.plain_journal.specs.Parts.{HasRoom};

use crate::documents::{Item, applied_list, base, update_at, version};
use crate::texts::text;
use journal_entries::{Cause, Entry, MAX_AGE, Outcome, Update};
use ot_op::{ApplyFault, MAX_TEXT_UNITS, Op, apply};
use ot_transform::cross;
use ot_units::Units;
use std::alloc::{AllocError, Global};

/// What the operations since an update's version make of its own.
#[derive(Drop)]
pub(crate) enum Scanned {
    /// The one at this version was sent under a source of the update's list.
    Twin(u64),
    /// One of them can't be crossed with it.
    Stuck,
    /// Past all of them it is this.
    Moved(Op),
}

/// The decision on the update that a ticket names, `None` where it names none. The only error is want
/// of memory.
pub fn decided_on(
    alloc: Global,
    journal: &[Entry],
    doc: u32,
    ticket: u64,
) -> Result<Option<Outcome>, AllocError>
    requires { IsLegal journal.now }
    ensures { IfOk result (λ outcome. outcome ≡ option_map (λ (u : Update). rules.decided journal.now doc u) (update_at_lem journal.now ticket)) }
{
    match update_at(journal, ticket) {
        Some(update) => Ok(Some(decided(alloc, journal, doc, update)?)),
        None => Ok(None),
    }
}

// The decision on an update.
fn decided(
    alloc: Global,
    journal: &[Entry],
    doc: u32,
    update: &Update,
) -> Result<Outcome, AllocError>
    requires legal { IsLegal journal.now }
    requires room { HasRoom journal.now doc update.now }
    ensures { IfOk result (λ outcome. outcome ≡ rules.decided journal.now doc update.now) }
{
    let first = base(alloc, journal, doc)?;
    let have = version(alloc, journal, doc)?;
    if have < update.v {
        return Ok(Outcome::Refused(Cause::Future { have }));
    }
    if update.v < first || have - update.v > MAX_AGE {
        return Ok(Outcome::Refused(Cause::TooOld { have }));
    }
    let items = applied_list(alloc, journal, doc)?;
    let since = &items[(update.v - first) as usize..];
    match scan(alloc, update, since)? {
        Scanned::Twin(v) => Ok(Outcome::Dup { v }),
        Scanned::Stuck => Ok(Outcome::Refused(Cause::Mismatch)),
        Scanned::Moved(op) => fitted(have, op, text(alloc, journal, doc)?),
    }
}

// Looks at the operations since an update's version in turn.
fn scan(alloc: Global, update: &Update, past: &[Item<'_>]) -> Result<Scanned, AllocError>
    requires { FitsAll update.now.op (operations past.now) }
    ensures { IfOk result (λ made. scan_as made ≡ rules.scanned update.now.dup update.now.op (map passed_as past.now)) }
{
    let mut moved = update.op.copy(alloc)?;
    for item in past {
        if update.dup.as_slice().contains(&item.update.source) {
            return Ok(Scanned::Twin(item.v));
        }
        let Some((next, _)) = cross(alloc, &moved, item.op)? else {
            return Ok(Scanned::Stuck);
        };
        moved = next;
    }
    Ok(Scanned::Moved(moved))
}

// An operation fits where it applies and the text is not too long then.
fn fitted(have: u64, op: Op, here: Option<Units>) -> Result<Outcome, AllocError>
    ensures { IfOk result (λ outcome. outcome ≡ rules.fitted have op (option_and_then (λ text. applied_all text op) here)) }
{
    let Some(mut text) = here else {
        return Ok(Outcome::Refused(Cause::Mismatch));
    };
    match apply(&mut text, &op) {
        Ok(()) => {}
        Err(ApplyFault::Mismatch(_)) => return Ok(Outcome::Refused(Cause::Mismatch)),
        Err(ApplyFault::Memory) => return Err(AllocError),
    }
    let len = text.len();
    if len > MAX_TEXT_UNITS {
        return Ok(Outcome::Refused(Cause::TooLong { len: len as u64 }));
    }
    Ok(Outcome::Applied { v: have, op })
}
