//! The calls of a book under a document's lock.

ghost use Rattle.std.specs.Prelude.{◌≡◌, ◌<◌, ◌≤◌, ◌+◌, ◌∷◌, [], length, nat_lt, true, false, IfOk, IfErr, OnOk, OnErr, None, Some};
ghost use Rattle.journal_entries.specs.declared.act.Act.TheVariants.{Committed, Released};
ghost use Rattle.journal_entries.specs.declared.update.Outcome.TheVariants.{Refused};
ghost use Rattle.journal_rules.specs.Documents.{IsMade, makings, waiting};
ghost use Rattle.journal_rules.specs.Deciding.{decided};
ghost use Rattle.journal_rules.specs.Keeping.{cached};
ghost use Rattle.journal_rules.specs.Locks.{Holds, next_token};
ghost use Rattle.turn_rules.specs.Locking.{acquired, staleness};
ghost use Rattle.project_histories.specs.Histories.{HasRoomFor, IsOfSome};
ghost use Rattle.book.specs.Shown.{adds};
ghost use Rattle.book.specs.Calls.{MayNotCommit, MayRefuse, acquire_refused, stale_in, told};
ghost use Rattle.book.specs.Looking.{CanDecide, IsDecided, IsLookAt, IsOf, PutsItem};

use crate::book::{Book, entry_of};
use crate::document::Taking;
use crate::documents::update_at;
use crate::faults::{AcquireFault, By, CommitFault, Prepared};
use crate::mail::post;
use crate::room::make_room;
use dup_check::Snapshot;
use expiring_lock::Stale;
use history_queue::Item;
use journal_entries::{Act, Cause, Outcome};
use keeper::Keeper;
use project_histories::Projects;

impl<K: Keeper> Book<K> {
    /// Acquires a document's lock under the next token, and answers what the first update that waits is decided by.
    pub fn acquire(&mut self, by: By, doc: u32) -> Result<Snapshot, AcquireFault>
        ensures acquired { IfOk result (λ look. self.new ≡ adds self.old by.seat by.line (acquired doc self.old.journal ∷ [])) }
        ensures looks { IfOk result (λ look. IsLookAt self.new.journal look × (look.seat ≡ by.seat) × (look.doc ≡ doc)) }
        ensures ready { IfOk result (λ look. CanDecide look) }
        ensures free { IfOk result (λ _. acquire_refused doc self.old.journal ≡ None) }
        ensures cached { IfOk result (λ _. cached doc self.old.journal ≡ true) }
        ensures refused { IfErr result (λ f. told f ≡ acquire_refused doc self.old.journal) }
        ensures kept { OnErr result (self.new ≡ self.old) }
    {
        let at = doc as usize;
        let Some(document) = self.documents.get(at) else {
            return Err(AcquireFault::NoDoc);
        };
        let Some(&ticket) = document.waiting.front() else {
            return Err(AcquireFault::Empty);
        };
        if let Some(busy) = document.lock.busy(self.moment) {
            return Err(AcquireFault::Busy(busy));
        }
        let length = self.journal.len();
        let token = self.tokens + 1;
        let Some(update) = update_at(self.journal.as_slice(), ticket) else {
            unreachable!()
        };
        let taking = Taking {
            seat: by.seat,
            token,
            doc,
            ticket,
            at: length + 1,
        };
        let Ok(look) = document.look(self.alloc, taking, update) else {
            return Err(AcquireFault::Memory);
        };
        let Ok(sum) = make_room(&mut self.journal, self.owed, 2) else {
            return Err(AcquireFault::Memory);
        };
        let until = self.documents.take(at, self.moment, token, by.seat);
        self.journal
            .push(entry_of(by, Act::Acquired { doc, token, until }));
        self.tokens = token;
        self.owed = sum - 1;
        Ok(look)
    }

    /// Commits what was decided by a look: its update is settled, and nothing is computed again. By
    /// the fence, what the look's holder decided is what the journal as it now is decides. [`CommitFault`]
    /// leaves all as it was.
    pub fn commit(&mut self, by: By, prepared: Prepared) -> Result<(), CommitFault>
        requires seat { by.seat ≡ prepared.look.seat }
        requires looked { IsOf prepared.look self.old.journal }
        requires decided { IsDecided prepared.look prepared.decision }
        ensures ok { OnOk result ((staleness prepared.look.doc prepared.look.token self.old.journal ≡ None)
            × (self.new ≡ adds self.old by.seat by.line (Committed prepared.look.doc prepared.look.token prepared.look.ticket (decided self.old.journal prepared.look.doc prepared.look.update) ∷ []))) }
        ensures cached { OnOk result (cached prepared.look.doc self.old.journal ≡ true) }
        ensures refused { IfErr result (λ f. MayNotCommit self.old.journal prepared f) }
        ensures kept { OnErr result (self.new ≡ self.old) }
    {
        let doc = prepared.look.doc;
        let token = prepared.look.token;
        let ticket = prepared.look.ticket;
        let at = doc as usize;
        if at >= self.documents.len() {
            return Err(CommitFault::Stale(never_given(token)));
        }
        if let Some(stale) = self.documents.check(at, token) {
            return Err(CommitFault::Stale(stale));
        }
        let (Ok(op), Ok(item)) = (prepared.copy_op(self.alloc), prepared.item(self.alloc)) else {
            return Err(CommitFault::Memory(prepared));
        };
        let Ok(()) = self.projects.reserve_item(at) else {
            return Err(CommitFault::Memory(prepared));
        };
        // No journal is so long that a version could pass 2^64.
        let length = self.journal.len();
        let outcome = self.documents.settle(at, prepared, op);
        let Some(update) = update_at(self.journal.as_slice(), ticket) else {
            unreachable!()
        };
        post(&mut self.rooms, length, update, &outcome);
        put_item(&mut self.projects, at, item);
        self.journal.push(entry_of(
            by,
            Act::Committed {
                doc,
                token,
                ticket,
                outcome,
            },
        ));
        self.owed -= 1;
        Ok(())
    }

    /// Refuses the first update that waits, under a lock's token. Takes no memory: the room was made as the update was sent.
    pub fn refuse(
        &mut self,
        by: By,
        doc: u32,
        token: u64,
        ticket: u64,
        cause: Cause,
    ) -> Result<(), Stale>
        requires may { staleness doc token self.old.journal ≡ None → MayRefuse self.old.journal by.seat doc token ticket cause }
        ensures ok { OnOk result ((staleness doc token self.old.journal ≡ None) × (self.new ≡ adds self.old by.seat by.line (Committed doc token ticket (Refused cause) ∷ []))) }
        ensures stale { IfErr result (λ s. staleness doc token self.old.journal ≡ Some s) }
        ensures kept { OnErr result (self.new ≡ self.old) }
    {
        let at = doc as usize;
        if at >= self.documents.len() {
            return Err(never_given(token));
        }
        if let Some(stale) = self.documents.check(at, token) {
            return Err(stale);
        }
        self.documents.unqueue(at);
        let outcome = Outcome::Refused(cause);
        let length = self.journal.len();
        let Some(update) = update_at(self.journal.as_slice(), ticket) else {
            unreachable!()
        };
        post(&mut self.rooms, length, update, &outcome);
        self.journal.push(entry_of(
            by,
            Act::Committed {
                doc,
                token,
                ticket,
                outcome,
            },
        ));
        self.owed -= 1;
        Ok(())
    }

    /// Releases a document's lock, and tells whether an update waits. Takes no memory: the room was made as the lock was acquired.
    pub fn release(&mut self, by: By, doc: u32, token: u64) -> Result<bool, Stale>
        requires may { staleness doc token self.old.journal ≡ None → Holds by.seat doc token self.old.journal }
        ensures ok { IfOk result (λ more. (staleness doc token self.old.journal ≡ None) × (more ≡ nat_lt 0 (length (waiting doc self.old.journal))) × (self.new ≡ adds self.old by.seat by.line (Released doc token ∷ []))) }
        ensures stale { IfErr result (λ s. staleness doc token self.old.journal ≡ Some s) }
        ensures kept { OnErr result (self.new ≡ self.old) }
    {
        let at = doc as usize;
        if at >= self.documents.len() {
            return Err(never_given(token));
        }
        if let Some(stale) = self.documents.check(at, token) {
            return Err(stale);
        }
        let more = self.waiting(doc) > 0;
        self.documents.let_go(at, token);
        self.journal
            .push(entry_of(by, Act::Released { doc, token }));
        self.owed -= 1;
        Ok(more)
    }
}

// What is wrong with a token of a document that wasn't made.
pub(crate) fn never_given(token: u64) -> Stale
    ensures { stale_in (record { last = 0; until = 0; seat = 0; held = false }) token ≡ Some result }
{
    if token == 0 {
        Stale::Ended
    } else {
        Stale::Other(0)
    }
}

// The item of a history, where there is one, is put behind the others of a document's project.
fn put_item(projects: &mut Projects, doc: usize, item: Option<Item>)
    requires of { IsOfSome doc projects.old }
    requires room { HasRoomFor doc projects.old }
    ensures { PutsItem doc item projects.old projects.new }
{
    if let Some(item) = item {
        projects.push_item(doc, item);
    }
}
