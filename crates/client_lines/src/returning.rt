//! A client comes back to the document that it left.

ghost use Rattle.std.specs.Prelude.{◌≡◌, ◌∷◌, [], OnOk, OnErr};
ghost use Rattle.book.specs.Roomed.{IsClientAfter, IsClientOf};
ghost use Rattle.book.specs.Shown.{adds};
ghost use Rattle.turn_rules.specs.Clients.{rejoin_act};
ghost use Rattle.turn_rules.specs.Owning.{MayWriteFor};

use book::{Book, By, JoinFault};
use journal_entries::Why;
use keeper::Keeper;
use share_client::ShareClient;
use std::alloc::AllocError;

/// A client comes back to the document that it left, or the line is declined for what stands against
/// it. The only error is want of memory, and nothing was written then.
pub(crate) fn rejoin<K: Keeper>(
    book: &mut Book<K>,
    client: &mut ShareClient,
    by: By,
) -> Result<(), AllocError>
    requires client { IsClientOf book.old.journal client.old }
    requires owner { MayWriteFor book.old.drivers book.old.journal by.seat client.old.client }
    ensures joins { OnOk result (book.new ≡ adds book.old by.seat by.line (rejoin_act client.old.client book.old.journal ∷ [])) }
    ensures client { OnOk result (IsClientAfter book.new.journal client.old client.new) }
    ensures kept { OnErr result ((book.new ≡ book.old) × (client.new ≡ client.old)) }
{
    match book.rejoin(by, client) {
        Ok(()) => Ok(()),
        Err(JoinFault::NotLeft) => book.decline(by, client.client(), Why::NotLeft),
        Err(JoinFault::TooOld { have }) => book.decline(by, client.client(), Why::TooOld { have }),
        Err(JoinFault::Memory) => Err(AllocError),
        Err(JoinFault::NoDoc) => unreachable!(),
    }
}
