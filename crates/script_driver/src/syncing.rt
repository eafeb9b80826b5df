//! A session's client catches up with its document.

ghost use Rattle.std.specs.Prelude.{◌≡◌, OnErr, OnOk, length};
ghost use Rattle.journal_rules.specs.Documents.{waiting};
ghost use Rattle.script_driver.specs.Apart.{GoesApart};
ghost use Rattle.turn_rules.specs.Draining.{Drains, Stop};
ghost use Rattle.book.specs.Going.{with_journal};
ghost use Rattle.book.specs.Roomed.{IsClientAfter, IsClientOf};
ghost use Rattle.journal_rules.specs.Locks.{next_token};
ghost use Rattle.run_rules.specs.Lines.{Syncs};
ghost use Rattle.turn_rules.specs.Owning.{MayWriteFor};
ghost use Rattle.turn_rules.specs.Turns.{Alone, entry_by};
ghost use Rattle.turn_rules.specs.Clients.{is_present as is_present_lem};
ghost use Rattle.script_driver.specs.Failing.{GoesByOwn};
ghost use Rattle.script_driver.specs.Syncing.{GoesApartThenQuietly};

use crate::mail::receive_all;
use book::{Book, By};
use dispatcher::{DrainEnd, drain};
use journal_entries::Why;
use journal_rules::ClientState;
use keeper::Keeper;
use share_client::ShareClient;
use std::alloc::{AllocError, Global};

/// Drains what waits for the document of a client that is joined or stale, and gives the client all of
/// its mail; or the line is declined. The only error is want of memory.
pub(crate) fn sync_client<K: Keeper>(
    alloc: Global,
    book: &mut Book<K>,
    client: &mut ShareClient,
    by: By,
) -> Result<(), AllocError>
    requires client { IsClientOf book.old.journal client.old }
    requires owner { MayWriteFor book.old.drivers book.old.journal by.seat client.old.client }
    ensures syncs { OnOk result (Syncs (entry_by by.seat by.line) Alone client.old.client book.old.journal book.new.journal) }
    ensures client { OnOk result (IsClientAfter book.new.journal client.old client.new) }
    ensures goes { OnOk result (GoesApartThenQuietly (next_token book.old.journal) client.old.client book.old.journal book.new.journal) }
    ensures rest { OnOk result (book.new ≡ with_journal book.old book.new.journal) }
    ensures failed { OnErr result (GoesByOwn by.seat book.old book.new) }
{
    if !is_present(client) {
        return book.decline(by, client.client(), Why::NotJoined);
    }
    let Some(doc) = client.doc() else {
        unreachable!()
    };
    drain_waiting(alloc, book, by, doc)?;
    receive_all(book, client, by)
}

// Drains as many updates of a document as wait for it, unless the document is held.
fn drain_waiting<K: Keeper>(
    alloc: Global,
    book: &mut Book<K>,
    by: By,
    doc: u32,
) -> Result<(), AllocError>
    ensures drains { OnOk result ((stop : Stop) × Drains (entry_by by.seat by.line) Alone doc (length (waiting doc book.old.journal)) book.old.journal book.new.journal stop) }
    ensures apart { OnOk result (GoesApart (next_token book.old.journal) book.old.journal book.new.journal) }
    ensures rest { OnOk result (book.new ≡ with_journal book.old book.new.journal) }
    ensures own { GoesByOwn by.seat book.old book.new }
{
    book.legal();
    let most = book.waiting(doc);
    if most == 0 {
        return Ok(());
    }
    match drain(alloc, book, by, doc, most) {
        DrainEnd::Done { .. } => Ok(()),
        DrainEnd::Busy { .. } => Ok(()),
        DrainEnd::Memory { .. } => Err(AllocError),
    }
}

fn is_present(client: &ShareClient) -> bool
    ensures { result ≡ is_present_lem client.now.now.state }
{
    matches!(client.state(), ClientState::Joined | ClientState::Stale)
}
