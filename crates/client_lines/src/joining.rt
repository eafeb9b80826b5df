//! A client joins a document.

ghost use Rattle.std.specs.Prelude.{◌≡◌, ◌∷◌, [], ℕ, OnOk, OnErr, Some, true};
ghost use Rattle.book.specs.Roomed.{IsClientAfter, IsClientOf};
ghost use Rattle.book.specs.Shown.{adds};
ghost use Rattle.journal_rules.specs.Documents.{number_of};
ghost use Rattle.journal_rules.specs.Keeping.{cached};
ghost use Rattle.client_lines.specs.Joining.{join_act};
ghost use Rattle.turn_rules.specs.Owning.{MayWriteFor};

use book::{Book, By, JoinFault};
use journal_entries::Why;
use keeper::Keeper;
use ot_units::Name;
use share_client::ShareClient;
use std::alloc::AllocError;

/// A client joins the document of a name, or the line is declined where there is none. The only error
/// is want of memory, and nothing was written then.
pub fn join_named<K: Keeper>(
    book: &mut Book<K>,
    client: &mut ShareClient,
    by: By,
    name: &Name,
    user: &Name,
    track: bool,
) -> Result<(), AllocError>
    requires client { IsClientOf book.old.journal client.old }
    requires owner { MayWriteFor book.old.drivers book.old.journal by.seat client.old.client }
    ensures joins { OnOk result (book.new ≡ adds book.old by.seat by.line (join_act client.old.client (number_of name.now book.old.journal) user.now track book.old.journal ∷ [])) }
    ensures cached { OnOk result ((doc : ℕ) → number_of name.now book.old.journal ≡ Some doc → cached doc book.old.journal ≡ true) }
    ensures client { OnOk result (IsClientAfter book.new.journal client.old client.new) }
    ensures kept { OnErr result ((book.new ≡ book.old) × (client.new ≡ client.old)) }
{
    let Some(doc) = book.find(name) else {
        return book.decline(by, client.client(), Why::NoDoc);
    };
    match book.join(by, client, doc, user, track) {
        Ok(()) => {
            book.legal();
            Ok(())
        }
        Err(JoinFault::Memory) => Err(AllocError),
        Err(JoinFault::NoDoc | JoinFault::NotLeft | JoinFault::TooOld { .. }) => unreachable!(),
    }
}
