//! What is done with a book in one turn: a document is acquired, or it is put and its lock released.

ghost use Rattle.std.specs.Prelude.{◌≡◌, IfOk};
ghost use Rattle.ot_parts.specs.Lines.{lines_of};
ghost use Rattle.journal_rules.specs.Documents.{IsMade};
ghost use Rattle.turn_rules.specs.Turns.{Alone, entry_by};
ghost use Rattle.flusher.specs.Putting.{EndsFlush, EndsPut};
ghost use Rattle.flusher.specs.Taking.{AcquiresIfNeeded, IsTakenUp};

use book::{AcquireFault, Book, By, FlushFault, KeptLook, PreparedKept};
use keeper::Keeper;
use ranges_tracker::KeptDoc;
use std::alloc::AllocError;

// Acquires a document whose version isn't kept. It is `None` where it is kept, or can't be acquired.
pub(crate) fn acquire_if_needed<K: Keeper>(
    book: &mut Book<K>,
    by: By,
    doc: u32,
) -> Result<Option<KeptLook>, AllocError>
    requires { IsMade doc book.old.journal }
    ensures takes { AcquiresIfNeeded (entry_by by.seat by.line) Alone by.seat doc book.old.journal book.new.journal result }
    ensures same { (book.new.drivers ≡ book.old.drivers) × (book.new.start ≡ book.old.start) }
{
    book.legal();
    if !book.needs_flush(doc) {
        return Ok(None);
    }
    match book.acquire_any(by, doc) {
        Ok(look) => Ok(Some(look)),
        Err(fault) => match fault {
            AcquireFault::Memory => Err(AllocError),
            _ => Ok(None),
        },
    }
}

// Puts what was made of a document and releases its lock. Nothing is put where another acquired the lock since. Where
// memory was wanting, for the document that is kept or for the put, the lock is released all the same.
pub(crate) fn put_and_release<K: Keeper>(
    book: &mut Book<K>,
    by: By,
    look: KeptLook,
    kept: Result<KeptDoc, AllocError>,
) -> Result<(), AllocError>
    requires taken { IsTakenUp by.seat look book.old.journal }
    requires made { IfOk kept (λ k. k ≡ record { lines = lines_of look.text; version = look.version; ranges = look.ranges }) }
    ensures puts { EndsFlush (entry_by by.seat by.line) Alone look.doc look.token book.old.journal book.new.journal result }
    ensures same { (book.new.drivers ≡ book.old.drivers) × (book.new.start ≡ book.old.start) }
{
    let (doc, token) = (look.doc, look.token);
    book.legal();
    match put(book, by, look, kept) {
        PutEnd::Done => {
            let _ = book.release(by, doc, token);
            Ok(())
        }
        PutEnd::Overtaken => Ok(()),
        PutEnd::Memory => {
            let _ = book.release(by, doc, token);
            Err(AllocError)
        }
    }
}

// How a put ended.
pub(crate) enum PutEnd {
    // The document is in the keeper, or the keeper failed, which is noted.
    Done,
    // Another acquired the lock since.
    Overtaken,
    Memory,
}

// Puts what was made of a document into the keeper.
fn put<K: Keeper>(
    book: &mut Book<K>,
    by: By,
    look: KeptLook,
    kept: Result<KeptDoc, AllocError>,
) -> PutEnd
    requires taken { IsTakenUp by.seat look book.old.journal }
    requires made { IfOk kept (λ k. k ≡ record { lines = lines_of look.text; version = look.version; ranges = look.ranges }) }
    ensures ends { EndsPut (entry_by by.seat by.line) look.doc look.token book.old.journal book.new.journal result }
    ensures same { (book.new.drivers ≡ book.old.drivers) × (book.new.start ≡ book.old.start) }
{
    book.legal();
    let Ok(kept) = kept else {
        return PutEnd::Memory;
    };
    let KeptLook { token, doc, .. } = look;
    match book.flush(by, PreparedKept { token, doc, kept }) {
        Ok(()) => PutEnd::Done,
        Err(FlushFault::StoreFault { .. }) => PutEnd::Done,
        Err(FlushFault::Stale(_)) => PutEnd::Overtaken,
        Err(FlushFault::Memory) => PutEnd::Memory,
    }
}
