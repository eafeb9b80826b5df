//! What is true of books, of their clients and of looks. The functions here do nothing: their contracts are the laws.

ghost use Rattle.std.specs.Prelude.{◌≡◌, ℕ, List, ◌++◌, true, false, None, All};
ghost use Rattle.dup_check.specs.declared.snapshot.Snapshot.{Snapshot};
ghost use Rattle.dup_check.specs.declared.snapshot.Decision.{Decision};
ghost use Rattle.dup_check.specs.Snapshot.{outcome_of};
ghost use Rattle.journal_entries.specs.declared.act.Entry.{Entry};
ghost use Rattle.journal_rules.specs.Deciding.{decided};
ghost use Rattle.journal_rules.specs.Documents.{is_in};
ghost use Rattle.journal_rules.specs.Legal.{IsLegal, closed};
ghost use Rattle.journal_entries.specs.declared.update.Cause.TheVariants.{Memory};
ghost use Rattle.journal_laws.specs.ClientLaw.{Shows};
ghost use Rattle.journal_rules.specs.Client.{client as client_lem, is_alive};
ghost use Rattle.journal_rules.specs.Locks.{Holds};
ghost use Rattle.turn_rules.specs.Locking.{staleness};
ghost use Rattle.turn_rules.specs.Owning.{IsOwned, client_driver, client_owner, driver_owner};
ghost use Rattle.turn_rules.specs.Turns.{Among, is_by};
ghost use Rattle.book.specs.Calls.{MayRefuse};
ghost use Rattle.book.specs.Flushing.{IsKeptLook, IsMadeOf, IsPreparedFor};
ghost use Rattle.book.specs.declared.faults.KeptLook.{KeptLook};
ghost use Rattle.book.specs.declared.faults.PreparedKept.{PreparedKept};
ghost use Rattle.book.specs.Roomed.{IsClientOf};
ghost use Rattle.book.specs.Looking.{IsDecided, IsLookAt, IsNoCommit, IsOf, IsSince};

use crate::book::Book;
use keeper::Keeper;
use share_client::ShareClient;

/// What [`Book::acquire`] answers is a look of the journal that it leaves.
pub fn look_begins()
    ensures { (look : Snapshot) (journal : List Entry) → IsLookAt journal look → IsOf look journal }
{}

/// What is made of what [`Book::acquire_any`] answers may be put into the keeper by its seat.
pub fn kept_look_begins()
    ensures { (look : KeptLook) (prepared : PreparedKept) (seat : ℕ) (journal : List Entry) → IsKeptLook journal seat look → IsMadeOf look prepared → IsPreparedFor journal seat prepared }
{}

/// A look stays a look of the journal until it is committed: nobody else can commit under its token.
pub fn look_stays()
    ensures { (look : Snapshot) (journal more : List Entry) → IsOf look journal → IsLegal (journal ++ more) → All (IsNoCommit look) more → IsOf look (journal ++ more) }
{}

/// While the token of a look stands, the look's seat holds the document.
pub fn token_holds()
    ensures { (look : Snapshot) (journal more : List Entry) → IsSince look journal → IsLegal (journal ++ more) → staleness look.doc look.token (journal ++ more) ≡ None → Holds look.seat look.doc look.token (journal ++ more) }
{}

/// What holds of a look until it is committed holds of the journal since then.
pub fn look_was()
    ensures { (look : Snapshot) (journal : List Entry) → IsOf look journal → IsSince look journal }
{}

/// While the token of a look stands and isn't used, the look's update may be refused for want of memory.
pub fn look_may_be_refused()
    ensures { (look : Snapshot) (journal : List Entry) → IsLegal journal → IsOf look journal → staleness look.doc look.token journal ≡ None → MayRefuse journal look.seat look.doc look.token look.ticket Memory }
{}

impl<K: Keeper> Book<K> {
    /// The journal of a book is legal. Does nothing.
    pub fn legal(&self)
        ensures { IsLegal self.now.journal }
    {
        let _ = &self.journal;
    }

    /// Each entry of a client is by the client's owner, or by seat 0 behind the last closing of a driver;
    /// and each driver is closed by its owner. Does nothing.
    pub fn owned(&self)
        ensures { IsOwned self.now.drivers self.now.journal }
    {
        let _ = &self.journal;
    }

    /// An owner whose driver hasn't closed knows all entries of its clients as its own: where the journal
    /// has gone on by entries of others from what the owner saw, the driver hasn't closed, and its clients
    /// are what they were. Does nothing.
    pub fn owner_knows(&self)
        ensures unclosed { (driver : ℕ) (seen : List Entry) → Among (is_by (driver_owner self.now.drivers driver)) seen self.now.journal → is_in driver (closed seen) ≡ false → is_in driver (closed self.now.journal) ≡ false }
        ensures clients { (c : ℕ) (seen : List Entry) → Among (is_by (client_owner self.now.drivers c)) seen self.now.journal → is_in (client_driver self.now.drivers c) (closed seen) ≡ false → client_lem c self.now.journal ≡ client_lem c seen }
    {
        let _ = &self.journal;
    }

    /// A client of this book that is joined or left shows its version's text with its own operations
    /// on top, and its mail brings it what was applied since, in order. Does nothing.
    pub fn shows(&self, client: &ShareClient)
        requires { IsClientOf self.now.journal client.now }
        ensures { is_alive client.now.now.state ≡ true → Shows client.now.client self.now.journal client.now.now }
    {
        let _ = &self.journal;
        let _ = client;
    }

    /// The fence: while the token of a look stands, what is decided by the look is what the journal as
    /// it has become decides.
    pub fn look_decides(&self)
        ensures { (look : Snapshot) (decision : Decision) → IsOf look self.now.journal → staleness look.doc look.token self.now.journal ≡ None
            → IsDecided look decision → outcome_of look.version decision ≡ decided self.now.journal look.doc look.update }
    {
        let _ = &self.journal;
    }
}
