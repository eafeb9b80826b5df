//! A client's mail by places of the journal: what it is still to be told of, as places of commits
//! in place of messages, and the message at a place. Contracts without a body are laws.
#![tactic(auto)]

ghost use Rattle.std.specs.Prelude.{◌≡◌, ℕ, List, [], ◌∷◌, ◌++◌, length, Some, option_map};
ghost use Rattle.journal_entries.specs.declared.update.Update.{Update};
ghost use Rattle.journal_entries.specs.declared.update.Outcome.{Outcome};
ghost use Rattle.journal_entries.specs.declared.act.Act.TheVariants.{Committed};
ghost use Rattle.journal_entries.specs.declared.act.Entry.{Entry};
ghost use Rattle.journal_rules.specs.Documents.{update_at};
ghost use Rattle.journal_rules.specs.Legal.{IsLegal};
ghost use Rattle.loading_rules.specs.LegalBut.{IsLegalBut};
ghost use Rattle.mail_places.specs.Places.{Placed, placed, placed_by, IsMailIn, IsOwnUpdate, placed_of, IsRoomed};

mod message;
#[cfg(test)]
mod tests;

pub use message::message_at;

/// One entry more changes a client's places by its act alone.
pub fn places_go_on()
    ensures { (c : ℕ) (journal : List Entry) (e : Entry) → placed c (journal ++ e ∷ []) ≡ placed_by c journal e.act (placed c journal) }
{}

/// At a client's places stands its mail, message by message, and a client without places has no mail.
pub fn mail_at_places()
    ensures { (c : ℕ) (journal : List Entry) → IsLegalBut journal → IsMailIn c journal (placed c journal) }
{}

/// A source is one client's, in one room: an update that was sent under a member's source is of that
/// client, for the document of its room.
pub fn own_updates()
    ensures { (c : ℕ) (journal : List Entry) → IsLegalBut journal → (box : Placed) → placed c journal ≡ Some box → (ticket : ℕ) (u : Update) → update_at journal ticket ≡ Some u → u.source ≡ box.source → IsOwnUpdate c box u }
{}

/// Of an update that was applied the whole room is told; of one that wasn't, the client that sent
/// it, where it is still in the room under the same source.
pub fn commits_told()
    ensures { (c : ℕ) (journal : List Entry) (e : Entry) (doc token ticket : ℕ) (outcome : Outcome) (u : Update) → IsLegalBut (journal ++ e ∷ []) → e.act ≡ Committed doc token ticket outcome → update_at journal ticket ≡ Some u → placed c (journal ++ e ∷ []) ≡ option_map (placed_of c u (length journal) outcome) (placed c journal) }
{}

/// A client that is joined is in the room of its document, under its source. One that never joined
/// or has left is in none.
pub fn clients_roomed()
    ensures { (c : ℕ) (journal : List Entry) → IsLegal journal → IsRoomed c journal }
{}
