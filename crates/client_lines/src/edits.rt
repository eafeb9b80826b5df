//! A client edits its text.

ghost use Rattle.std.specs.Prelude.{◌≡◌, ◌∷◌, [], OnOk, OnErr, IfOk, IfErr, Option, None, Some};
ghost use Rattle.book.specs.Roomed.{IsClientAfter, IsClientOf};
ghost use Rattle.book.specs.Shown.{adds};
ghost use Rattle.journal_rules.specs.Client.{client as client_lem};
ghost use Rattle.share_client.specs.Edits.{IsEdit, edit_comp, edit_end, edit_fault};
ghost use Rattle.turn_rules.specs.Clients.{edit_act};
ghost use Rattle.client_lines.specs.Refusals.{edit_why};
ghost use Rattle.turn_rules.specs.Owning.{MayWriteFor};

use book::{Book, By};
use journal_entries::Why;
use keeper::Keeper;
use share_client::{Edit, EditFault, ShareClient};
use std::alloc::AllocError;

/// A client edits its text, or the line is declined for what stands against it. The only error is
/// want of memory, and nothing was written then.
pub(crate) fn edit<K: Keeper>(
    book: &mut Book<K>,
    client: &mut ShareClient,
    by: By,
    edit: &Edit,
) -> Result<(), AllocError>
    requires client { IsClientOf book.old.journal client.old }
    requires owner { MayWriteFor book.old.drivers book.old.journal by.seat client.old.client }
    requires edit { IsEdit edit.now }
    ensures edits { OnOk result (book.new ≡ adds book.old by.seat by.line (edit_act client.old.client book.old.journal (edit_end edit.now) (edit_comp (client_lem client.old.client book.old.journal).text edit.now) ∷ [])) }
    ensures client { OnOk result (IsClientAfter book.new.journal client.old client.new) }
    ensures kept { OnErr result ((book.new ≡ book.old) × (client.new ≡ client.old)) }
{
    match book.edit(by, client, edit) {
        Ok(()) => Ok(()),
        Err(fault) => match why_of(fault) {
            Some(why) => book.decline(by, client.client(), why),
            None => Err(AllocError),
        },
    }
}

fn why_of(fault: EditFault) -> Option<Why>
    ensures { result ≡ edit_why fault }
{
    match fault {
        EditFault::NotJoined => Some(Why::NotJoined),
        EditFault::PastEnd { len } => Some(Why::PastEnd { len }),
        EditFault::Full { comps, units } => Some(Why::Full { comps, units }),
        EditFault::Memory => None,
    }
}
