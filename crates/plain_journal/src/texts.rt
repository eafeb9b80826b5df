//! The texts of a document: its first one with what was applied, in order.

ghost use Rattle.std.specs.Prelude.{◌≡◌, IfOk, map};
ghost use Rattle.journal_rules.specs.Documents as rules;
ghost use Rattle.journal_rules.specs.Legal.{IsLegal};
ghost use Rattle.plain_journal.specs.Answers.{operations};

use crate::documents::{Item, applied_list, base, first};
use journal_entries::Entry;
use ot_op::{ApplyFault, apply};
use ot_units::Units;
use std::alloc::{AllocError, Global};

/// The text of a document at its version. The only error is want of memory.
pub fn text(alloc: Global, journal: &[Entry], doc: u32) -> Result<Option<Units>, AllocError>
    ensures { IfOk result (λ text. text ≡ rules.text doc journal.now) }
{
    let items = applied_list(alloc, journal, doc)?;
    replayed(first(alloc, journal, doc)?, items.as_slice())
}

/// The text of a document at a version from its base to its version. The only error is want of memory.
pub fn text_at(
    alloc: Global,
    journal: &[Entry],
    doc: u32,
    v: u64,
) -> Result<Option<Units>, AllocError>
    ensures { IfOk result (λ text. text ≡ rules.text_at doc v journal.now) }
{
    let items = applied_list(alloc, journal, doc)?;
    let count = v.saturating_sub(base(alloc, journal, doc)?) as usize;
    replayed(
        first(alloc, journal, doc)?,
        &items[..count.min(items.len())],
    )
}

// A text with operations applied in order.
fn replayed(first: Units, items: &[Item<'_>]) -> Result<Option<Units>, AllocError>
    ensures { IfOk result (λ text. text ≡ rules.replayed first (operations items.now)) }
{
    let mut text = first;
    for item in items {
        match apply(&mut text, item.op) {
            Ok(()) => {}
            Err(ApplyFault::Mismatch(_)) => return Ok(None),
            Err(ApplyFault::Memory) => return Err(AllocError),
        }
    }
    Ok(Some(text))
}
