//! What is true of every legal journal, as `journal_rules` defines it. The functions here do nothing:
//! their contracts are the laws.
#![tactic(auto)]

ghost use Rattle.std.specs.Prelude.{◌≡◌, ◌≤◌, ℕ, List, [], ◌∷◌, ◌++◌, true, Some};
ghost use Rattle.journal_entries.specs.declared.update.Update.{Update};
ghost use Rattle.journal_entries.specs.declared.update.Outcome.TheVariants.{Dup};
ghost use Rattle.journal_entries.specs.declared.act.Act.TheVariants.{Committed};
ghost use Rattle.journal_entries.specs.declared.act.Entry.{Entry};
ghost use Rattle.journal_rules.specs.Documents.{IsMade, base, version, update_at};
ghost use Rattle.journal_rules.specs.Locks.{Acquiring};
ghost use Rattle.journal_rules.specs.Client.{client, is_alive, has_flight};
ghost use Rattle.journal_rules.specs.Legal.{IsAllowed, IsLegal};
ghost use Rattle.journal_rules.specs.Fence.{IsFenced};
ghost use Rattle.journal_laws.specs.ClientLaw.{Shows, StaysUnlessRefused};
ghost use Rattle.journal_laws.specs.Once.{AreOnce, NamesItem, IsFlightKnown};
ghost use Rattle.journal_laws.specs.CellsLaw.{AreCellsOfText};
ghost use Rattle.journal_laws.specs.Mismatch.{AppliesAtItsVersion, IsNoMismatch};

/// The fence: while nobody else takes a document's lock and nothing is committed under its token,
/// the document stays as it was: its versions, texts, cells and applied operations, the first update
/// that waits, and what is decided on it.
pub fn fence()
    ensures { (early more : List Entry) (d : ℕ) (a : Acquiring) → IsFenced early more d a }
{}

/// The client law: a client that is joined or left shows the text of its version with its own
/// operations applied, and its mail is what is ahead of it.
pub fn client_shows()
    ensures { (c : ℕ) (journal : List Entry) → IsLegal journal → is_alive (client c journal).state ≡ true → Shows c journal (client c journal) }
{}

/// The client law: only the refusal of its operation in flight makes a client stale.
pub fn client_stays()
    ensures { (c : ℕ) (journal : List Entry) (e : Entry) → IsLegal (journal ++ e ∷ []) → is_alive (client c journal).state ≡ true → StaysUnlessRefused c journal e }
{}

/// Exactly once: no update of a client is applied twice, however often it was sent.
pub fn applied_once()
    ensures { (journal : List Entry) → IsLegal journal → AreOnce journal }
{}

/// Exactly once: a duplicate names the version at which its update was applied.
pub fn duplicate_named()
    ensures { (journal : List Entry) → IsLegal journal → (seat d token ticket v : ℕ) → IsAllowed journal seat (Committed d token ticket (Dup v)) → (u : Update) → update_at journal ticket ≡ Some u → (c : ℕ) → u.client ≡ Some c → NamesItem journal d v c u }
{}

/// Exactly once: which updates are copies of a client's operation in flight, and which of the
/// operations ahead of it are.
pub fn flight_known()
    ensures { (c : ℕ) (journal : List Entry) → IsLegal journal → is_alive (client c journal).state ≡ true → has_flight (client c journal).flight ≡ true → IsFlightKnown c journal (client c journal) }
{}

/// Convergence: an update whose operation applies to the text of its own version is never refused
/// as a mismatch.
pub fn no_mismatch()
    ensures { (journal : List Entry) → IsLegal journal → (d : ℕ) (u : Update) → IsMade d journal → AppliesAtItsVersion journal d u → IsNoMismatch journal d u }
{}

/// A document's cells at each version are those of its text there: their live units are the text,
/// and they are what tracking the next operation asks for.
pub fn cells_are_the_text()
    ensures { (journal : List Entry) → IsLegal journal → (d n : ℕ) → IsMade d journal → base d journal ≤ n → n ≤ version d journal → AreCellsOfText d n journal }
{}
