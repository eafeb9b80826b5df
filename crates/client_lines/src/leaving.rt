//! A client leaves its document.

ghost use Rattle.std.specs.Prelude.{◌≡◌, ◌∷◌, [], OnOk, OnErr};
ghost use Rattle.book.specs.Roomed.{IsClientAfter, IsClientOf};
ghost use Rattle.book.specs.Shown.{adds};
ghost use Rattle.turn_rules.specs.Clients.{leave_act};
ghost use Rattle.turn_rules.specs.Owning.{MayWriteFor};

use book::{Book, By, LeaveFault};
use journal_entries::Why;
use keeper::Keeper;
use share_client::ShareClient;
use std::alloc::AllocError;

/// A client leaves its document, or the line is declined where it's in none. The only error is want
/// of memory, and nothing was written then.
pub(crate) fn leave<K: Keeper>(
    book: &mut Book<K>,
    client: &mut ShareClient,
    by: By,
) -> Result<(), AllocError>
    requires client { IsClientOf book.old.journal client.old }
    requires owner { MayWriteFor book.old.drivers book.old.journal by.seat client.old.client }
    ensures leaves { OnOk result (book.new ≡ adds book.old by.seat by.line (leave_act client.old.client book.old.journal ∷ [])) }
    ensures client { OnOk result (IsClientAfter book.new.journal client.old client.new) }
    ensures kept { OnErr result ((book.new ≡ book.old) × (client.new ≡ client.old)) }
{
    match book.leave(by, client) {
        Ok(()) => Ok(()),
        Err(LeaveFault::NotJoined) => book.decline(by, client.client(), Why::NotJoined),
        Err(LeaveFault::Memory) => Err(AllocError),
    }
}
