//! Which journals follow a script: what each line makes, how a run ends, on one thread and on many,
//! and what the report shows of clients and projects. The functions here do nothing: their contracts
//! are laws of these definitions.
#![tactic(auto)]

ghost use Rattle.std.specs.Prelude.{◌≡◌, ◌↔◌, ℕ, ◌+◌, ◌≤◌, List, [], ◌∷◌, ◌++◌, Option, None, Bool, false};
ghost use Rattle.expiring_lock.specs.declared.lock.TheConstants.{LOCK_LIFE};
ghost use Rattle.journal_entries.specs.declared.act.Act.TheVariants.{Ticked};
ghost use Rattle.journal_entries.specs.declared.act.Entry.{Entry};
ghost use Rattle.journal_entries.specs.declared.act.Act.{Act};
ghost use Rattle.journal_rules.specs.Legal.{IsLegal};
ghost use Rattle.ending_rules.specs.Rounds.{AreClients};
ghost use Rattle.ending_rules.specs.Drained.{TakesFirst};
ghost use Rattle.ending_rules.specs.Ended.{HasEnded};
ghost use Rattle.session_lines.specs.declared.line.Line.{Line};
ghost use Rattle.session_lines.specs.Standing.{AreBySessions};
ghost use Rattle.run_rules.specs.Completing.{AreKept, has_flush_failed_at_end};
ghost use Rattle.run_rules.specs.Determined.{has_fault, ShareFaults, Answered, AreByOthers};
ghost use Rattle.run_rules.specs.Counting.{is_taking, takings};
ghost use Rattle.turn_rules.specs.Draining.{Drains, DrainsOne, IsWhole, Stop};
ghost use Rattle.run_rules.specs.Ending.{at_end, Rounds};
ghost use Rattle.turn_rules.specs.Flushing.{FlushesFrom, IsWholeFlush};
ghost use Rattle.run_rules.specs.Follows.{Follows};
ghost use Rattle.run_rules.specs.Threads.{Crew, FollowsTogether};
ghost use Rattle.run_rules.specs.Keeping.{nothing_kept, Preparations};
ghost use Rattle.run_rules.specs.Lines.{Leads, numbered};
ghost use Rattle.turn_rules.specs.Locking.{busy};
ghost use Rattle.run_rules.specs.Sessions.{GoesItsCourse};
ghost use Rattle.turn_rules.specs.Turns.{Alone, Among, entry_by};

/// Nothing is missing of an update that one drains alone: acquired, loaded where its document wasn't
/// cached, committed, released.
pub fn alone_is_whole()
    ensures { (seat : ℕ) (line : Option ℕ) (doc : ℕ) (left last : List Entry) → DrainsOne (entry_by seat line) Alone doc left last → IsWhole (entry_by seat line) doc left last }
{}

/// What the lines of a script lead to on one thread, each session's own lines lead to among the
/// entries of the others.
pub fn each_session_goes_its_course()
    ensures { (lines : List Line) (session : ℕ) (last : List Entry) → Leads 0 Alone (numbered 1 lines) nothing_kept [] last → GoesItsCourse 0 lines session last }
{}

/// What lines lead to alone, they also lead to among others: one thread is a case of many.
pub fn alone_is_among()
    ensures { (own : Entry → Bool) (seat : ℕ) (lines : List (ℕ × Line)) (kept : Preparations) (left last : List Entry) → Leads seat Alone lines kept left last → Leads seat (Among own) lines kept left last }
{}

/// A drain takes the lock at most as often as updates waited at its first look, also among others.
pub fn drains_at_most()
    ensures { (own : Entry → Bool) (seat : ℕ) (line : Option ℕ) (doc most : ℕ) (left last : List Entry) (stop : Stop) → Drains (entry_by seat line) (Among own) doc most left last stop → takings own last ≤ takings own left + most }
{}

/// Nothing is missing of a flush that one makes alone: acquired, flushed or flush-failed, released.
pub fn flush_alone_is_whole()
    ensures { (seat : ℕ) (line : Option ℕ) (late : List Entry → List Act) (doc : ℕ) (left last : List Entry) → FlushesFrom (entry_by seat line) Alone late doc left last → IsWholeFlush (entry_by seat line) doc left last }
{}

/// Three rounds suffice: behind them each update was committed once, and each client that is joined
/// shows its document's text with nothing of its own left, or keeps an operation in flight that
/// became empty while each copy of it was refused.
pub fn three_rounds_suffice()
    ensures { (sessions : ℕ) (left last : List Entry) → IsLegal last → AreClients sessions left → Rounds sessions 3 left last → HasEnded last }
{}

/// A legal journal that follows a script on one thread is complete.
pub fn follows_has_ended()
    ensures { (lines : List Line) (sessions : ℕ) (journal : List Entry) → IsLegal journal → AreBySessions sessions lines → Follows lines sessions journal → HasEnded journal }
{}

/// And each document's version is kept, exactly where no flush of the end failed.
pub fn follows_is_kept()
    ensures { (lines : List Line) (sessions : ℕ) (journal : List Entry) → IsLegal journal → Follows lines sessions journal → (has_flush_failed_at_end journal ≡ false) ↔ AreKept journal }
{}

/// A legal journal that follows a script with workers is complete.
pub fn follows_together_has_ended()
    ensures { (crew : Crew) (lines : List Line) (sessions : ℕ) (journal : List Entry) → IsLegal journal → AreBySessions sessions lines → FollowsTogether crew lines sessions journal → HasEnded journal }
{}

/// And each document's version is kept, exactly where no flush of the end failed.
pub fn follows_together_is_kept()
    ensures { (crew : Crew) (lines : List Line) (sessions : ℕ) (journal : List Entry) → IsLegal journal → FollowsTogether crew lines sessions journal → (has_flush_failed_at_end journal ≡ false) ↔ AreKept journal }
{}

/// Behind the tick of the end no lock keeps seat 0 from a document: whoever holds it, it has expired.
pub fn locks_expire()
    ensures { (journal : List Entry) → IsLegal (journal ++ at_end (Ticked LOCK_LIFE) ∷ []) → (doc : ℕ) → busy doc (journal ++ at_end (Ticked LOCK_LIFE) ∷ []) ≡ None }
{}

/// So it stays behind each entry that takes no lock.
pub fn lock_stays_free()
    ensures { (doc : ℕ) (journal : List Entry) (e : Entry) → is_taking e.act ≡ false → busy doc journal ≡ None → busy doc (journal ++ e ∷ []) ≡ None }
{}

/// An update that one drains alone is the first that waits for its document, and behind it each lock
/// that kept nobody out still keeps nobody out. So draining comes to an end, and is never held up.
pub fn drained_update_takes_first()
    ensures { (seat : ℕ) (line : Option ℕ) (doc : ℕ) (left last : List Entry) → IsLegal last → DrainsOne (entry_by seat line) Alone doc left last → TakesFirst doc left last × ((d : ℕ) → busy d left ≡ None → busy d last ≡ None) }
{}

/// On one thread the journal is a function of the script: two legal journals that follow the same
/// lines, and in which neither want of memory nor a fault of the keeper made an entry, are the same.
pub fn journal_of_script()
    ensures { (lines : List Line) (sessions : ℕ) (one other : List Entry) → IsLegal one → IsLegal other → has_fault one ≡ false → has_fault other ≡ false → Follows lines sessions one → Follows lines sessions other → one ≡ other }
{}

/// So it is behind faults: two legal journals that follow the same lines are the same where they have
/// the same faults of the keeper and of memory, at the same places.
pub fn journal_of_script_and_faults()
    ensures { (lines : List Line) (sessions : ℕ) (one other : List Entry) → IsLegal one → IsLegal other → ShareFaults one other → Follows lines sessions one → Follows lines sessions other → one ≡ other }
{}

/// Among others, what a seat's lines lead to is a function of what the others add between its turns:
/// where that is determined by the journal as the seat left it, so is the whole.
pub fn lines_among_others()
    ensures { (seat : ℕ) (answers : List Entry → List Entry) → AreByOthers seat answers → (lines : List (ℕ × Line)) (kept : Preparations) (left one other : List Entry) → IsLegal one → IsLegal other → ShareFaults one other → Leads seat (Answered answers) lines kept left one → Leads seat (Answered answers) lines kept left other → one ≡ other }
{}
