//! The documents of a book, by their names and by their numbers.

ghost use Rattle.std.specs.Prelude.{◌≡◌, ◌<◌, ◌≤◌, ◌+◌, ◌-◌, ◌^◌, ◌∷◌, ◌++◌, [], length, position, slice_get, Some, OnOk, OnErr, true};
ghost use Rattle.std.specs.Option.{option_copied};
ghost use Rattle.std.specs.Str.{bytes_eq};
ghost use Rattle.expiring_lock.specs.Locks.{IsUnexpired, IsCurrent};
ghost use Rattle.expiring_lock.specs.declared.lock.TheConstants.{LOCK_LIFE};
ghost use Rattle.journal_rules.specs.Documents.{update_at as update_at_lem};
ghost use Rattle.dup_check.specs.Snapshot.{outcome_of};
ghost use Rattle.book.specs.Standing.{Turns, IsQueued, IsKeptAs, IsUnqueued, IsLocked, IsFreed, IsKeptAt};
ghost use Rattle.book.specs.Calls.{stale_in};
ghost use Rattle.book.specs.Looking.{IsSettled, op_of};
ghost use Rattle.book.specs.declared.document.Document.{Document};

use crate::document::Document;
use crate::faults::Prepared;
use expiring_lock::Stale;
use journal_entries::{Act, Entry, Outcome, Update};
use keyed_store::Store;
use ot_op::Op;
use ot_units::Name;
use std::alloc::{AllocError, Global};
use std::marker::Model;

/// The documents of a book, numbered from 0 in the order of making. Contracts see their names and
/// the documents.
#[derive(Drop)]
pub(crate) struct Documents {
    store: Store<Document>,
}

impl Model for Documents {
    ghost use Rattle.keyed_store.specs.Stores.{names_of, values_of};
    ghost use Rattle.book.specs.Standing.{Held};

    ghost Value = { Held };

    ghost view = { λ d. record { names = names_of d.store; items = values_of d.store } };
}

impl Documents {
    /// No documents.
    pub(crate) fn new(alloc: Global) -> Documents
        ensures { result ≡ record { names = []; items = [] } }
    {
        Documents {
            store: Store::new(alloc),
        }
    }

    /// How many there are.
    pub(crate) fn len(&self) -> usize
        ensures { result ≡ length self.now.items }
    {
        self.store.len()
    }

    /// The number of a document's name.
    pub(crate) fn find(&self, name: &Name) -> Option<usize>
        ensures { result ≡ position (bytes_eq name.now) self.now.names }
    {
        self.store.find(name)
    }

    /// The name of the document with a number.
    pub(crate) fn name(&self, doc: usize) -> Option<&Name>
        ensures { option_copied result ≡ slice_get self.now.names doc }
    {
        self.store.name(doc)
    }

    /// The document with a number.
    pub(crate) fn get(&self, doc: usize) -> Option<&Document>
        ensures { option_copied result ≡ slice_get self.now.items doc }
    {
        self.store.get(doc)
    }

    /// Adds a document under a name.
    pub(crate) fn add(&mut self, name: Name, document: Document) -> Result<(), AllocError>
        ensures names { OnOk result (self.new.names ≡ self.old.names ++ name ∷ []) }
        ensures items { OnOk result (self.new.items ≡ self.old.items ++ document ∷ []) }
        ensures kept { OnErr result (self.new ≡ self.old) }
    {
        match self.store.add(name, document) {
            Ok(_) => Ok(()),
            Err(_) => Err(AllocError),
        }
    }

    /// Makes room for one update more that waits for a document. The only error is want of memory.
    pub(crate) fn reserve(&mut self, doc: usize) -> Result<(), AllocError>
        requires { doc < length self.old.items }
        ensures names { self.new.names ≡ self.old.names }
        ensures kept { Turns doc IsKeptAs self.old.items self.new.items }
        ensures room { OnOk result ((d : Document) → slice_get self.new.items doc ≡ Some d → 0 < d.waiting.spare) }
    {
        let Some(document) = self.store.get_mut(doc) else {
            unreachable!()
        };
        document.waiting.reserve()
    }

    /// One update more waits for a document.
    pub(crate) fn queue(&mut self, doc: usize, ticket: u64)
        requires within { doc < length self.old.items }
        requires room { (d : Document) → slice_get self.old.items doc ≡ Some d → 0 < d.waiting.spare }
        ensures names { self.new.names ≡ self.old.names }
        ensures queued { Turns doc (IsQueued ticket) self.old.items self.new.items }
    {
        let Some(document) = self.store.get_mut(doc) else {
            unreachable!()
        };
        document.waiting.push(ticket);
    }

    /// A document's lock is taken, which is free or has expired. Answers when it expires.
    pub(crate) fn take(&mut self, doc: usize, now: u64, next: u64, seat: u32) -> u64
        requires within { doc < length self.old.items }
        requires now { now ≤ 2 ^ 62 }
        requires next { (d : Document) → slice_get self.old.items doc ≡ Some d → d.lock.last < next }
        requires free { (d : Document) → slice_get self.old.items doc ≡ Some d → IsUnexpired d.lock now → ⊥ }
        ensures names { self.new.names ≡ self.old.names }
        ensures until { result ≡ now + LOCK_LIFE }
        ensures taken { Turns doc (IsLocked (record { last = next; until = now + LOCK_LIFE; seat = seat; held = true })) self.old.items self.new.items }
    {
        let Some(document) = self.store.get_mut(doc) else {
            unreachable!()
        };
        let Ok(until) = document.lock.take(now, next, seat) else {
            unreachable!()
        };
        until
    }

    /// What is wrong with a token for a document's lock, or `None` where it stands.
    pub(crate) fn check(&self, doc: usize, token: u64) -> Option<Stale>
        requires { doc < length self.now.items }
        ensures { (d : Document) → slice_get self.now.items doc ≡ Some d → stale_in d.lock token ≡ result }
    {
        let Some(document) = self.store.get(doc) else {
            unreachable!()
        };
        match document.lock.check(token) {
            Ok(()) => None,
            Err(stale) => Some(stale),
        }
    }

    /// A document's lock is let go, for which the token stands.
    pub(crate) fn let_go(&mut self, doc: usize, token: u64)
        requires within { doc < length self.old.items }
        requires current { (d : Document) → slice_get self.old.items doc ≡ Some d → IsCurrent d.lock token }
        ensures names { self.new.names ≡ self.old.names }
        ensures freed { Turns doc IsFreed self.old.items self.new.items }
    {
        let Some(document) = self.store.get_mut(doc) else {
            unreachable!()
        };
        let Ok(()) = document.lock.let_go(token) else {
            unreachable!()
        };
    }

    /// A document was put into the keeper at a version.
    pub(crate) fn keep(&mut self, doc: usize, v: u64)
        requires { doc < length self.old.items }
        ensures names { self.new.names ≡ self.old.names }
        ensures kept { Turns doc (IsKeptAt v) self.old.items self.new.items }
    {
        let Some(document) = self.store.get_mut(doc) else {
            unreachable!()
        };
        document.kept = Some(v);
    }

    /// The first update that waits is taken.
    pub(crate) fn unqueue(&mut self, doc: usize)
        requires within { doc < length self.old.items }
        requires waits { (d : Document) → slice_get self.old.items doc ≡ Some d → 0 < length d.waiting.items }
        ensures names { self.new.names ≡ self.old.names }
        ensures taken { Turns doc IsUnqueued self.old.items self.new.items }
    {
        let Some(document) = self.store.get_mut(doc) else {
            unreachable!()
        };
        let _taken = document.waiting.pop();
    }

    /// The first update that waits is settled by what was decided on it, and its outcome answered.
    /// `op` is the operation that is applied, for the document's window.
    pub(crate) fn settle(&mut self, doc: usize, prepared: Prepared, op: Op) -> Outcome
        requires within { doc < length self.old.items }
        requires waits { (d : Document) → slice_get self.old.items doc ≡ Some d → 0 < length d.waiting.items }
        requires low { (d : Document) → slice_get self.old.items doc ≡ Some d → d.window.version < 2 ^ 64 - 1 }
        requires copied { op ≡ op_of prepared.decision }
        ensures names { self.new.names ≡ self.old.names }
        ensures outcome { result ≡ outcome_of prepared.look.version prepared.decision }
        ensures settled { Turns doc (IsSettled prepared.look prepared.decision) self.old.items self.new.items }
    {
        let Some(document) = self.store.get_mut(doc) else {
            unreachable!()
        };
        document.settle(prepared, op)
    }
}

/// The update that a ticket names.
pub(crate) fn update_at(journal: &[Entry], ticket: u64) -> Option<&Update>
    ensures { option_copied result ≡ update_at_lem journal.now ticket }
{
    match &journal.get(ticket as usize)?.act {
        Act::Sent { update } => Some(update),
        _ => None,
    }
}
