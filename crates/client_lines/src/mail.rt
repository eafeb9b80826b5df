//! A client gets a message of its mail.

ghost use Rattle.std.specs.Prelude.{◌≡◌, ◌∷◌, [], OnOk, OnErr, None};
ghost use Rattle.book.specs.Roomed.{IsClientAfter, IsClientOf};
ghost use Rattle.book.specs.Shown.{adds};
ghost use Rattle.turn_rules.specs.Clients.{recv_act};
ghost use Rattle.turn_rules.specs.Owning.{MayWriteFor};

use book::{Book, By};
use journal_entries::Why;
use keeper::Keeper;
use share_client::ShareClient;
use std::alloc::AllocError;

/// A client gets the first message of its mail, or the line is declined where its mail is empty. The
/// only error is want of memory, and nothing was written then.
pub(crate) fn receive<K: Keeper>(
    book: &mut Book<K>,
    client: &mut ShareClient,
    by: By,
) -> Result<(), AllocError>
    requires client { IsClientOf book.old.journal client.old }
    requires owner { MayWriteFor book.old.drivers book.old.journal by.seat client.old.client }
    ensures gets { OnOk result (book.new ≡ adds book.old by.seat by.line (recv_act client.old.client book.old.journal ∷ [])) }
    ensures client { OnOk result (IsClientAfter book.new.journal client.old client.new) }
    ensures kept { OnErr result ((book.new ≡ book.old) × (client.new ≡ client.old)) }
{
    let Some(_message) = book.receive(by, client)? else {
        return book.decline(by, client.client(), Why::Empty);
    };
    Ok(())
}
