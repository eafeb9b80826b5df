//! What holds of a journal over every keeper, as `journal_rules` defines journals: a legal journal
//! but for what is said of clients' states, of texts and of what is decided by them. The functions
//! here do nothing: their contracts are the laws.
#![tactic(auto)]

ghost use Rattle.std.specs.Prelude.{◌≡◌, ◌≤◌, ◌+◌, ℕ, Bool, List, [], ◌∷◌, ◌++◌, length, true, false, Some, All};
ghost use Rattle.journal_entries.specs.declared.act.Entry.{Entry};
ghost use Rattle.journal_rules.specs.Client.{client};
ghost use Rattle.journal_rules.specs.Documents.{IsMade, operations, version};
ghost use Rattle.journal_rules.specs.Keeping.{cached, kept};
ghost use Rattle.journal_rules.specs.Legal.{IsLegal};
ghost use Rattle.journal_rules.specs.Locks.{Acquiring};
ghost use Rattle.loading_rules.specs.Fence.{IsFencedBut};
ghost use Rattle.loading_rules.specs.Joinings.{IsPlaced};
ghost use Rattle.loading_rules.specs.LegalBut.{IsLegalBut};
ghost use Rattle.loading_rules.specs.Passable.{IsPassable};
ghost use Rattle.loading_rules.specs.Sure.{IsAllowedOver, IsLegalOver};

/// A legal journal is legal but for clients and texts.
pub fn legal_is_legal_but()
    ensures { (journal : List Entry) → IsLegal journal → IsLegalBut journal }
{}

/// A journal stays legal over keepers of a type behind an entry that it allows over them.
pub fn legal_over_goes_on()
    ensures { (tells : Bool) (journal : List Entry) (e : Entry) → IsLegalOver tells journal → IsAllowedOver tells journal e → IsLegalOver tells (journal ++ e ∷ []) }
{}

/// The fence holds over every keeper: to the holder of a document's lock the document stays as it was.
pub fn fence_but()
    ensures { (early more : List Entry) (d : ℕ) (a : Acquiring) → IsFencedBut early more d a }
{}

/// A document that isn't cached was flushed at its version.
pub fn uncached_is_kept()
    ensures { (d : ℕ) (journal : List Entry) → IsLegalBut journal → IsMade d journal → cached d journal ≡ false → kept d journal ≡ Some (version d journal) }
{}

/// Each operation that was applied is passable.
pub fn operations_are_passable()
    ensures { (d : ℕ) (journal : List Entry) → IsLegalBut journal → All IsPassable (operations d journal) }
{}

/// A client of a legal journal is as it joined last, at a version that its document has had.
pub fn clients_are_placed()
    ensures { (c : ℕ) (journal : List Entry) → IsLegal journal → IsPlaced journal c (client c journal) }
{}
