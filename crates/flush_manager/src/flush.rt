//! A document is flushed: its lock is acquired, what it then is is put into the keeper, and the lock is
//! released.

ghost use Rattle.std.specs.Prelude.{◌≡◌, IfOk, None};
ghost use Rattle.ot_parts.specs.Lines.{lines_of};
ghost use Rattle.ranges_tracker.specs.Kept.{IsKept};
ghost use Rattle.turn_rules.specs.Locking.{staleness};
ghost use Rattle.turn_rules.specs.Turns.{entry_by};
ghost use Rattle.book.specs.Flushing.{IsKeptLook};
ghost use Rattle.book.specs.Going.{GoesOn};
ghost use Rattle.flush_manager.specs.Flushes.{Flushes, Puts};

use book::{AcquireFault, Book, By, FlushFault, KeptLook, PreparedKept};
use journal_entries::Why;
use keeper::Keeper;
use ot_text::doc_units;
use ranges_tracker::KeptDoc;
use std::alloc::{AllocError, Global};

/// How a flush ended.
#[derive(Clone, Copy, Debug, PartialEq, Eq)]
pub enum FlushEnd {
    /// The document was put into the keeper.
    Done,
    /// It couldn't be acquired: it wasn't made, another holds it, or it isn't cached.
    Refused(Why),
    /// The keeper failed: its count of faults was `before` as it was asked, and was `after` then.
    Failed { before: u64, after: u64 },
    /// Memory was wanting. The document isn't held.
    Memory,
}

/// Flushes a document, whether it needs it or not. It ends as [`FlushEnd`] says; no lock is kept at its
/// end.
pub fn flush_doc<K: Keeper>(alloc: Global, book: &mut Book<K>, by: By, doc: u32) -> FlushEnd
    ensures flushes { Flushes (entry_by by.seat by.line) doc book.old.journal book.new.journal result }
    ensures goes { GoesOn K.tells book.old book.new }
{
    book.legal();
    let look = match book.acquire_any(by, doc) {
        Ok(look) => look,
        Err(AcquireFault::NoDoc) => return FlushEnd::Refused(Why::NoDoc),
        Err(AcquireFault::Busy(busy)) => return FlushEnd::Refused(Why::Busy(busy)),
        Err(AcquireFault::Uncached) => return FlushEnd::Refused(Why::Uncached),
        Err(AcquireFault::Memory) => return FlushEnd::Memory,
        Err(AcquireFault::Empty) => unreachable!(),
    };
    let token = look.token;
    let end = put(alloc, book, by, look);
    let Ok(_) = book.release(by, doc, token) else {
        unreachable!()
    };
    end
}

// Puts what was taken up into the keeper.
fn put<K: Keeper>(alloc: Global, book: &mut Book<K>, by: By, look: KeptLook) -> FlushEnd
    requires looked { IsKeptLook book.old.journal by.seat look }
    requires ready { IsKept look.text look.version look.ranges }
    requires fresh { staleness look.doc look.token book.old.journal ≡ None }
    ensures puts { Puts (entry_by by.seat by.line) look.doc look.token book.old.journal book.new.journal result }
    ensures goes { GoesOn K.tells book.old book.new }
{
    let Ok(kept) = kept_of(alloc, &look) else {
        return FlushEnd::Memory;
    };
    let KeptLook { token, doc, .. } = look;
    match book.flush(by, PreparedKept { token, doc, kept }) {
        Ok(()) => FlushEnd::Done,
        Err(FlushFault::StoreFault { before, after }) => FlushEnd::Failed { before, after },
        Err(FlushFault::Memory) => FlushEnd::Memory,
        Err(FlushFault::Stale(_)) => unreachable!(),
    }
}

/// The document that was taken up, as it is kept: its text in lines, its version and its ranges.
pub fn kept_of(alloc: Global, look: &KeptLook) -> Result<KeptDoc, AllocError>
    requires { IsKept look.now.text look.now.version look.now.ranges }
    ensures { IfOk result (λ kept. kept ≡ record { lines = lines_of look.now.text; version = look.now.version; ranges = look.now.ranges }) }
{
    let text = doc_units(alloc, &look.text)?;
    KeptDoc::make(alloc, text.as_slice(), look.version, &look.ranges)
}
