//! What a line tells a session's client to do.

ghost use Rattle.std.specs.Prelude.{◌≡◌, ◌∷◌, [], OnOk, OnErr};
ghost use Rattle.book.specs.Roomed.{IsClientAfter, IsClientOf};
ghost use Rattle.book.specs.Shown.{adds};
ghost use Rattle.client_lines.specs.Lines.{IsDoable, client_act};
ghost use Rattle.turn_rules.specs.Owning.{MayWriteFor};

use crate::edits::edit;
use crate::leaving::leave;
use crate::mail::receive;
use crate::returning::rejoin;
use crate::sending::{resend, send};
use book::{Book, By};
use keeper::Keeper;
use share_client::{Edit, ShareClient};
use std::alloc::AllocError;

/// What a line tells a session's client to do.
#[derive(Debug, Drop)]
pub enum ClientLine {
    /// It edits its text.
    Edit(Edit),
    /// It sends what is pending.
    Send,
    /// It sends what is in flight again.
    Resend,
    /// It gets the first message of its mail.
    Receive,
    /// It leaves its document.
    Leave,
    /// It comes back to the document that it left.
    Rejoin,
}

/// A client does what a line tells it, or the line is declined for the first that stands against it.
/// The only error is want of memory, and nothing was written then.
pub fn do_line<K: Keeper>(
    book: &mut Book<K>,
    client: &mut ShareClient,
    by: By,
    line: &ClientLine,
) -> Result<(), AllocError>
    requires client { IsClientOf book.old.journal client.old }
    requires owner { MayWriteFor book.old.drivers book.old.journal by.seat client.old.client }
    requires doable { IsDoable line.now }
    ensures does { OnOk result (book.new ≡ adds book.old by.seat by.line (client_act client.old.client book.old.journal line.now ∷ [])) }
    ensures client { OnOk result (IsClientAfter book.new.journal client.old client.new) }
    ensures kept { OnErr result ((book.new ≡ book.old) × (client.new ≡ client.old)) }
{
    match line {
        ClientLine::Edit(change) => edit(book, client, by, change),
        ClientLine::Send => send(book, client, by),
        ClientLine::Resend => resend(book, client, by),
        ClientLine::Receive => receive(book, client, by),
        ClientLine::Leave => leave(book, client, by),
        ClientLine::Rejoin => rejoin(book, client, by),
    }
}
