//! Every document that needs it is flushed, in order.

ghost use Rattle.std.specs.Prelude.{◌≡◌, ℕ, Some};
ghost use Rattle.journal_rules.specs.Documents.{IsMade, version};
ghost use Rattle.journal_rules.specs.Keeping.{kept};
ghost use Rattle.turn_rules.specs.Turns.{entry_by};
ghost use Rattle.book.specs.Going.{GoesOn};
ghost use Rattle.flush_manager.specs.FlushesAll.{FlushesAll, FlushesIfNeeded, first_of as first_of_lem};
ghost use Rattle.flush_manager.specs.declared.flush.FlushEnd.TheVariants.{Done};

use crate::flush::{FlushEnd, flush_doc};
use book::{Book, By};
use keeper::Keeper;
use std::alloc::Global;

/// Flushes each document whose version isn't in the keeper, in the order of their numbers. Where one is
/// refused or the keeper fails, it goes on with the next, and at the end answers the first of these; where
/// memory is wanting it stops. After [`FlushEnd::Done`] each document's version is in the keeper.
pub fn flush_all<K: Keeper>(alloc: Global, book: &mut Book<K>, by: By) -> FlushEnd
    ensures flushes { FlushesAll (entry_by by.seat by.line) book.old.journal book.new.journal result }
    ensures done { result ≡ Done → (doc : ℕ) → IsMade doc book.new.journal → kept doc book.new.journal ≡ Some (version doc book.new.journal) }
    ensures goes { GoesOn K.tells book.old book.new }
{
    let docs = book.docs();
    let mut end = FlushEnd::Done;
    for doc in 0..docs {
        match flush_if_needed(alloc, book, by, doc) {
            FlushEnd::Memory => return FlushEnd::Memory,
            next => end = first_of(end, next),
        }
    }
    book.legal();
    end
}

// Flushes a document, where its version isn't in the keeper.
fn flush_if_needed<K: Keeper>(alloc: Global, book: &mut Book<K>, by: By, doc: u32) -> FlushEnd
    requires { IsMade doc book.old.journal }
    ensures flushes { FlushesIfNeeded (entry_by by.seat by.line) doc book.old.journal book.new.journal result }
    ensures goes { GoesOn K.tells book.old book.new }
{
    if !book.needs_flush(doc) {
        return FlushEnd::Done;
    }
    flush_doc(alloc, book, by, doc)
}

// Of two ends, the first that isn't done.
fn first_of(end: FlushEnd, next: FlushEnd) -> FlushEnd
    ensures { result ≡ first_of_lem end next }
{
    match end {
        FlushEnd::Done => next,
        _ => end,
    }
}
