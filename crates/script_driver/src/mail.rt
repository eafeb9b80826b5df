//! A client gets its mail.

ghost use Rattle.std.specs.Prelude.{◌≡◌, OnErr, OnOk};
ghost use Rattle.book.specs.Going.{with_journal};
ghost use Rattle.book.specs.Roomed.{IsClientAfter, IsClientOf};
ghost use Rattle.run_rules.specs.Lines.{Gets};
ghost use Rattle.turn_rules.specs.Owning.{MayWriteFor};
ghost use Rattle.turn_rules.specs.Turns.{Alone, entry_by};
ghost use Rattle.script_driver.specs.Failing.{GoesByOwn};
ghost use Rattle.script_driver.specs.Clients.{GoesQuietly};

use book::{Book, By};
use keeper::Keeper;
use share_client::ShareClient;
use std::alloc::AllocError;

/// A client gets all of its mail, one message after the other. The only error is want of memory.
pub fn receive_all<K: Keeper>(
    book: &mut Book<K>,
    client: &mut ShareClient,
    by: By,
) -> Result<(), AllocError>
    requires client { IsClientOf book.old.journal client.old }
    requires owner { MayWriteFor book.old.drivers book.old.journal by.seat client.old.client }
    ensures gets { OnOk result (Gets (entry_by by.seat by.line) Alone client.old.client book.old.journal book.new.journal) }
    ensures client { OnOk result (IsClientAfter book.new.journal client.old client.new) }
    ensures quiet { OnOk result (GoesQuietly client.old.client book.old.journal book.new.journal) }
    ensures rest { OnOk result (book.new ≡ with_journal book.old book.new.journal) }
    ensures failed { OnErr result (GoesByOwn by.seat book.old book.new) }
{
    'getting: while book.receive(by, client)?.is_some() {}
    Ok(())
}
