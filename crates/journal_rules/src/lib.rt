//! What a journal says: the documents' texts, cells and waiting updates, the clock and the locks,
//! each client with its mail, what was kept and handed out; and which journals are legal. What is
//! true of every legal journal stands in `journal_laws`.
#![tactic(auto)]

ghost use Rattle.std.specs.Prelude.{List, [], ◌∷◌, ◌++◌};
ghost use Rattle.journal_entries.specs.declared.act.Entry.{Entry};
ghost use Rattle.journal_rules.specs.Legal.{IsAllowed, IsLegal};

mod state;

pub use state::ClientState;

/// A legal journal stays legal behind an entry that it allows. The function does nothing: its
/// contract is the law.
pub fn legal_goes_on()
    ensures { (journal : List Entry) (e : Entry) → IsLegal journal → IsAllowed journal e.seat e.act → IsLegal (journal ++ e ∷ []) }
{}
