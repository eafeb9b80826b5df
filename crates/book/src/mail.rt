//! What clients in a room are told.

ghost use Rattle.std.specs.Prelude.{◌≡◌, ◌+◌, ◌<◌, ℕ, length, slice_get, Some, option_map, OnOk};
ghost use Rattle.rooms.specs.Rooms.{AreRoomier, HaveRoom, member};
ghost use Rattle.book.specs.Roomed.{AreSourced, posted_by, posted_own};
ghost use Rattle.book.specs.Standing.{Turns, IsKeptAs};
ghost use Rattle.book.specs.declared.document.Document.{Document};

use crate::documents::Documents;
use journal_entries::{Outcome, Update};
use rooms::Rooms;
use std::alloc::AllocError;

/// Makes room for one update more that waits for a document: in its queue, and in the outbox of each
/// client in its room. The only error is want of memory.
pub(crate) fn reserve_waiting(
    documents: &mut Documents,
    rooms: &mut Rooms,
    doc: u32,
) -> Result<(), AllocError>
    requires { doc < length documents.old.items }
    ensures names { documents.new.names ≡ documents.old.names }
    ensures kept { Turns doc IsKeptAs documents.old.items documents.new.items }
    ensures roomier { (c : ℕ) → AreRoomier (member c rooms.old) (member c rooms.new) }
    ensures room { OnOk result ((d : Document) → slice_get documents.new.items doc ≡ Some d → 0 < d.waiting.spare) }
    ensures told { OnOk result ((d : Document) → slice_get documents.new.items doc ≡ Some d → HaveRoom doc (length d.waiting.items + 1) rooms.new) }
{
    documents.reserve(doc as usize)?;
    let Some(document) = documents.get(doc as usize) else {
        unreachable!()
    };
    let Some(waits) = (document.waiting.len() as u64).checked_add(1) else {
        return Err(AllocError);
    };
    rooms.reserve(doc, waits)
}

/// Puts the place of a commit into the outbox of whoever is told of it: of what was applied the
/// whole room, of any other outcome the client that sent the update, where it is still in the room
/// under the same source.
pub(crate) fn post(rooms: &mut Rooms, at: u64, update: &Update, outcome: &Outcome)
    requires room { HaveRoom update.now.doc 1 rooms.old }
    requires sourced { AreSourced rooms.old update.now }
    ensures { (c : ℕ) → member c rooms.new ≡ option_map (posted_by c update.now at outcome.now) (member c rooms.old) }
{
    match outcome {
        Outcome::Applied { .. } => rooms.post(update.doc, at),
        Outcome::Dup { .. } | Outcome::Refused(_) => post_own(rooms, at, update),
    }
}

fn post_own(rooms: &mut Rooms, at: u64, update: &Update)
    requires room { HaveRoom update.now.doc 1 rooms.old }
    requires sourced { AreSourced rooms.old update.now }
    ensures { (c : ℕ) → member c rooms.new ≡ option_map (posted_own c update.now at) (member c rooms.old) }
{
    let Some(client) = update.client else {
        return;
    };
    if rooms.source(client) == Some(update.source) {
        rooms.post_one(client, at);
    }
}
