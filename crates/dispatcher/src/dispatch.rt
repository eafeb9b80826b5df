//! Draining a document: the updates that wait for it are taken up, decided on and committed, one
//! after the other.

ghost use Rattle.std.specs.Prelude.{◌≡◌, ◌∷◌, [], OnOk, OnErr, IfOk, IfErr, None, true, false};
ghost use Rattle.book.specs.Calls.{MayRefuse, acquire_refused, told};
ghost use Rattle.book.specs.Going.{with_journal};
ghost use Rattle.book.specs.Looking.{CanDecide, IsDecided, IsLookAt};
ghost use Rattle.book.specs.Shown.{adds};
ghost use Rattle.journal_entries.specs.declared.act.Act.TheVariants.{Committed};
ghost use Rattle.journal_entries.specs.declared.update.Outcome.{Outcome};
ghost use Rattle.journal_entries.specs.declared.update.Cause.TheVariants.{Memory as NoMemory};
ghost use Rattle.journal_rules.specs.Documents.{IsMade};
ghost use Rattle.journal_rules.specs.Locks.{Holds};
ghost use Rattle.turn_rules.specs.Draining.{DrainsOne, IsCommit, Settles, Under};
ghost use Rattle.turn_rules.specs.Locking.{staleness};
ghost use Rattle.turn_rules.specs.Turns.{Alone, Turn, entry_by};
ghost use Rattle.dispatcher.specs.Draining.{Drained};

use book::{AcquireFault, Book, By, Prepared};
use dup_check::{Snapshot, decide};
use expiring_lock::Busy;
use journal_entries::Cause;
use keeper::Keeper;
use std::alloc::{AllocError, Global};

/// How draining ended, and how many updates were committed: `count` is the number of the `committed` entries
/// that the call made, those that refuse an update among them.
#[derive(Clone, Copy, Debug, PartialEq, Eq)]
pub enum DrainEnd {
    /// As many as may be were drained, or nothing waits.
    Done { count: u64 },
    /// An update waits, but the document is held under a lock that hasn't expired: `busy` tells its token, and
    /// until which moment of the script's clock, in milliseconds, it keeps others out.
    Busy { count: u64, busy: Busy },
    /// An update waits and the document is free, but memory was wanting to acquire the lock. What was drained
    /// before stands.
    Memory { count: u64 },
}

/// Drains at most `most` of the updates that wait for document `doc`, the first first, without waiting: for each
/// the lock is acquired, the decision made and committed, and the lock released. `doc` is the number of a
/// document that was made. The entries are by `by`.
///
/// Where memory is wanting for a decision or its commit, the update is refused for that, which takes no memory;
/// draining goes on. It ends early only as [`DrainEnd`] says, and no lock is kept at its end.
pub fn drain<K: Keeper>(alloc: Global, book: &mut Book<K>, by: By, doc: u32, most: u64) -> DrainEnd
    requires made { IsMade doc book.old.journal }
    ensures drained { Drained (entry_by by.seat by.line) doc most book.old.journal book.new.journal result }
    ensures rest { book.new ≡ with_journal book.old book.new.journal }
{
    let mut count = 0;
    'draining: while count < most {
        match drain_one(alloc, book, by, doc) {
            Ok(()) => count += 1,
            Err(AcquireFault::Busy(busy)) => return DrainEnd::Busy { count, busy },
            Err(AcquireFault::Memory) => return DrainEnd::Memory { count },
            Err(AcquireFault::Empty) => return DrainEnd::Done { count },
            Err(AcquireFault::NoDoc) => unreachable!(),
            Err(AcquireFault::Uncached) => unreachable!(),
        }
    }
    DrainEnd::Done { count }
}

// Drains the first update that waits.
fn drain_one<K: Keeper>(
    alloc: Global,
    book: &mut Book<K>,
    by: By,
    doc: u32,
) -> Result<(), AcquireFault>
    requires made { IsMade doc book.old.journal }
    ensures made { IsMade doc book.new.journal }
    ensures drains { OnOk result (DrainsOne (entry_by by.seat by.line) Alone doc book.old.journal book.new.journal) }
    ensures refused { IfErr result (λ f. told f ≡ acquire_refused doc book.old.journal) }
    ensures kept { OnErr result (book.new ≡ book.old) }
    ensures rest { book.new ≡ with_journal book.old book.new.journal }
{
    book.legal();
    let look = book.acquire(by, doc)?;
    settle(alloc, book, by, look);
    Ok(())
}

// Commits what was taken up, and releases the lock.
fn settle<K: Keeper>(alloc: Global, book: &mut Book<K>, by: By, look: Snapshot)
    requires seat { by.seat ≡ look.seat }
    requires looked { IsLookAt book.old.journal look }
    requires decidable { CanDecide look }
    requires may { MayRefuse book.old.journal by.seat look.doc look.token look.ticket NoMemory }
    requires fresh { staleness look.doc look.token book.old.journal ≡ None }
    ensures settles { Settles (entry_by by.seat by.line) Alone true look.doc look.token book.old.journal book.new.journal }
    ensures rest { book.new ≡ with_journal book.old book.new.journal }
{
    let (doc, token) = (look.doc, look.token);
    commit(alloc, book, by, look);
    let Ok(_) = book.release(by, doc, token) else {
        unreachable!()
    };
}

// Commits the decision on what was taken up, or refuses it where memory is wanting for that.
fn commit<K: Keeper>(alloc: Global, book: &mut Book<K>, by: By, look: Snapshot)
    requires seat { by.seat ≡ look.seat }
    requires looked { IsLookAt book.old.journal look }
    requires decidable { CanDecide look }
    requires may { MayRefuse book.old.journal by.seat look.doc look.token look.ticket NoMemory }
    requires fresh { staleness look.doc look.token book.old.journal ≡ None }
    ensures commits { Turn Alone (Under (entry_by by.seat by.line) look.doc look.token (IsCommit look.doc look.token)) book.old.journal book.new.journal }
    ensures held { Holds by.seat look.doc look.token book.new.journal }
    ensures fresh { staleness look.doc look.token book.new.journal ≡ None }
    ensures rest { book.new ≡ with_journal book.old book.new.journal }
{
    let (doc, token, ticket) = (look.doc, look.token, look.ticket);
    if !commit_decision(alloc, book, by, look) {
        let Ok(()) = book.refuse(by, doc, token, ticket, Cause::Memory) else {
            unreachable!()
        };
    }
}

// Decides on what was taken up and commits that. It is false where memory is wanting, and all is as it was.
fn commit_decision<K: Keeper>(alloc: Global, book: &mut Book<K>, by: By, look: Snapshot) -> bool
    requires seat { by.seat ≡ look.seat }
    requires looked { IsLookAt book.old.journal look }
    requires decidable { CanDecide look }
    requires fresh { staleness look.doc look.token book.old.journal ≡ None }
    ensures committed { result ≡ true → (outcome : Outcome) × (book.new ≡ adds book.old by.seat by.line (Committed look.doc look.token look.ticket outcome ∷ [])) }
    ensures kept { result ≡ false → book.new ≡ book.old }
{
    let Ok(prepared) = prepare(alloc, look) else {
        return false;
    };
    let Ok(()) = book.commit(by, prepared) else {
        return false;
    };
    true
}

/// Decides by a look that `Book::acquire` answered, for `Book::commit`. The book isn't asked, so others may have it
/// meanwhile. Memory may be wanting.
pub fn prepare(alloc: Global, look: Snapshot) -> Result<Prepared, AllocError>
    requires { CanDecide look }
    ensures look { IfOk result (λ p. p.look ≡ look) }
    ensures decided { IfOk result (λ p. IsDecided p.look p.decision) }
{
    let decision = decide(alloc, &look)?;
    Ok(Prepared { look, decision })
}
