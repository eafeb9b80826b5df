//! A client sends what is pending, or what is in flight again.

ghost use Rattle.std.specs.Prelude.{◌≡◌, ◌∷◌, [], OnOk, OnErr, IfOk, IfErr, Option, None, Some};
ghost use Rattle.book.specs.Roomed.{IsClientAfter, IsClientOf};
ghost use Rattle.book.specs.Shown.{adds};
ghost use Rattle.turn_rules.specs.Clients.{resend_act, send_act};
ghost use Rattle.client_lines.specs.Refusals.{send_why};
ghost use Rattle.turn_rules.specs.Owning.{MayWriteFor};

use book::{Book, By};
use journal_entries::Why;
use keeper::Keeper;
use share_client::{SendFault, ShareClient};
use std::alloc::AllocError;

/// A client sends what is pending, or the line is declined for what stands against it. The only error
/// is want of memory, and nothing was written then.
pub(crate) fn send<K: Keeper>(
    book: &mut Book<K>,
    client: &mut ShareClient,
    by: By,
) -> Result<(), AllocError>
    requires client { IsClientOf book.old.journal client.old }
    requires owner { MayWriteFor book.old.drivers book.old.journal by.seat client.old.client }
    ensures sends { OnOk result (book.new ≡ adds book.old by.seat by.line (send_act client.old.client book.old.journal ∷ [])) }
    ensures client { OnOk result (IsClientAfter book.new.journal client.old client.new) }
    ensures kept { OnErr result ((book.new ≡ book.old) × (client.new ≡ client.old)) }
{
    match book.send(by, client) {
        Ok(_) => Ok(()),
        Err(fault) => match why_of(fault) {
            Some(why) => book.decline(by, client.client(), why),
            None => Err(AllocError),
        },
    }
}

/// A client sends what is in flight again, or the line is declined for what stands against it. The
/// only error is want of memory, and nothing was written then.
pub(crate) fn resend<K: Keeper>(
    book: &mut Book<K>,
    client: &mut ShareClient,
    by: By,
) -> Result<(), AllocError>
    requires client { IsClientOf book.old.journal client.old }
    requires owner { MayWriteFor book.old.drivers book.old.journal by.seat client.old.client }
    ensures sends { OnOk result (book.new ≡ adds book.old by.seat by.line (resend_act client.old.client book.old.journal ∷ [])) }
    ensures client { OnOk result (IsClientAfter book.new.journal client.old client.new) }
    ensures kept { OnErr result ((book.new ≡ book.old) × (client.new ≡ client.old)) }
{
    match book.resend(by, client) {
        Ok(_) => Ok(()),
        Err(fault) => match why_of(fault) {
            Some(why) => book.decline(by, client.client(), why),
            None => Err(AllocError),
        },
    }
}

fn why_of(fault: SendFault) -> Option<Why>
    ensures { result ≡ send_why fault }
{
    match fault {
        SendFault::NotJoined => Some(Why::NotJoined),
        SendFault::InFlight => Some(Why::InFlight),
        SendFault::Nothing => Some(Why::Nothing),
        SendFault::Memory => None,
    }
}
