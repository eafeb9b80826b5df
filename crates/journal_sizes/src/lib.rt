//! How large what a legal journal has may be, as `journal_rules` defines it. The functions here do
//! nothing: their contracts are the laws.
#![tactic(auto)]

ghost use Rattle.std.specs.Prelude.{◌≡◌, ◌≤◌, ◌<◌, ◌+◌, ◌^◌, ℕ, List, ◌∷◌, length, true, Some, All};
ghost use Rattle.ot_op.specs.Operation.{total_units};
ghost use Rattle.journal_entries.specs.declared.limits.TheConstants.{MAX_ENTRIES};
ghost use Rattle.journal_entries.specs.declared.update.Update.{Update};
ghost use Rattle.journal_entries.specs.declared.message.Msg.{Msg};
ghost use Rattle.journal_entries.specs.declared.act.Entry.{Entry};
ghost use Rattle.journal_rules.specs.Documents.{operations, update_at};
ghost use Rattle.journal_rules.specs.Mail.{mail};
ghost use Rattle.journal_rules.specs.Client.{client, is_alive};
ghost use Rattle.journal_rules.specs.Legal.{IsLegal, highest_base};
ghost use Rattle.journal_sizes.specs.Sizes.{IsAtEase, IsSized, IsSizedMsg};

/// The operation of an update has at most 65,536 units in its inserts and deletes, at most 1,000
/// comments, and no place above 1,000,000,000.
pub fn updates_are_sized()
    ensures { (journal : List Entry) → IsLegal journal → (ticket : ℕ) (u : Update) → update_at journal ticket ≡ Some u → IsSized u.op }
{}

/// And so has each operation that was applied.
pub fn operations_are_sized()
    ensures { (d : ℕ) (journal : List Entry) → IsLegal journal → All IsSized (operations d journal) }
{}

/// And so have flight and pending of a client that is joined or left.
pub fn clients_are_sized()
    ensures { (c : ℕ) (journal : List Entry) → IsLegal journal → IsAtEase (client c journal) }
{}

/// And so has the operation that the first message of a client's mail brings, whose version may go
/// on by one.
pub fn mail_is_sized()
    ensures { (c : ℕ) (journal : List Entry) → IsLegal journal → length journal ≤ MAX_ENTRIES → is_alive (client c journal).state ≡ true → (msg : Msg) (rest : List Msg) → mail c journal ≡ msg ∷ rest → IsSizedMsg msg }
{}

/// The texts of what is pending, those of its comments too, have fewer units than 2^32.
pub fn pending_is_small()
    ensures { (c : ℕ) (journal : List Entry) → IsLegal journal → is_alive (client c journal).state ≡ true → total_units (client c journal).pending < 2 ^ 32 }
{}

/// A client's version is no higher than the highest base and the count of entries together.
pub fn versions_are_low()
    ensures { (c : ℕ) (journal : List Entry) → IsLegal journal → is_alive (client c journal).state ≡ true → (client c journal).version ≤ highest_base + length journal }
{}

/// A client has no more numbers than there are entries.
pub fn numbers_are_low()
    ensures { (c : ℕ) (journal : List Entry) → (client c journal).number ≤ length journal }
{}
