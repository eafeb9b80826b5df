//! The calls of a book that put its documents into the keeper.

ghost use Rattle.std.specs.Prelude.{◌≡◌, ◌∷◌, [], true, IsTrue, IfOk, IfErr, OnOk, OnErr, None};
ghost use Rattle.journal_entries.specs.declared.act.Act.TheVariants.{Flushed};
ghost use Rattle.journal_rules.specs.Documents.{name as name_lem};
ghost use Rattle.keeper.specs.Documents.{Sets};
ghost use Rattle.ranges_tracker.specs.Kept.{IsKept};
ghost use Rattle.turn_rules.specs.Locking.{acquired, staleness};
ghost use Rattle.turn_rules.specs.Turns.{entry_by};
ghost use Rattle.book.specs.Calls.{acquire_any_refused, told};
ghost use Rattle.book.specs.Flushing.{HasAsked, IsKeptLook, IsPreparedFor, MayNotFlush};
ghost use Rattle.book.specs.Shown.{adds};

use crate::book::{Book, entry_of};
use crate::faults::{AcquireFault, By, FlushFault, KeptLook, PreparedKept};
use crate::holding::never_given;
use crate::room::make_room;
use journal_entries::Act;
use keeper::{KeepFault, Keeper};

impl<K: Keeper> Book<K> {
    /// Acquires a document's lock under the next token, whether updates wait for it or not, and answers
    /// the document as it is to be put into the keeper. It loads nothing.
    pub fn acquire_any(&mut self, by: By, doc: u32) -> Result<KeptLook, AcquireFault>
        ensures acquired { IfOk result (λ look. self.new ≡ adds self.old by.seat by.line (acquired doc self.old.journal ∷ [])) }
        ensures looks { IfOk result (λ look. IsKeptLook self.new.journal by.seat look × (look.doc ≡ doc)) }
        ensures ready { IfOk result (λ look. IsKept look.text look.version look.ranges) }
        ensures free { IfOk result (λ _. acquire_any_refused doc self.old.journal ≡ None) }
        ensures refused { IfErr result (λ f. told f ≡ acquire_any_refused doc self.old.journal) }
        ensures kept { OnErr result (self.new ≡ self.old) }
    {
        let at = doc as usize;
        let Some(document) = self.documents.get(at) else {
            return Err(AcquireFault::NoDoc);
        };
        if let Some(busy) = document.lock.busy(self.moment) {
            return Err(AcquireFault::Busy(busy));
        }
        // No journal is so long that a token or a version could pass 2^62.
        let _length = self.journal.len();
        let token = self.tokens + 1;
        let Ok(look) = document.kept_look(self.alloc, doc, token) else {
            return Err(AcquireFault::Memory);
        };
        let Ok(sum) = make_room(&mut self.journal, self.owed, 2) else {
            return Err(AcquireFault::Memory);
        };
        let until = self.documents.take(at, self.moment, token, by.seat);
        self.journal
            .push(entry_of(by, Act::Acquired { doc, token, until }));
        self.tokens = token;
        self.owed = sum - 1;
        Ok(look)
    }

    /// Puts a document into the keeper as it was taken up, under the token of its lock, which
    /// [`Book::acquire_any`] gave. By the fence it is the document as the journal has it. Where the keeper
    /// fails, that is noted, and the keeper's documents stay.
    pub fn flush(&mut self, by: By, prepared: PreparedKept) -> Result<(), FlushFault>
        requires { IsPreparedFor self.old.journal by.seat prepared }
        ensures ok { OnOk result ((staleness prepared.doc prepared.token self.old.journal ≡ None)
            × HasAsked self.old self.new (entry_by by.seat by.line (Flushed prepared.doc prepared.token prepared.kept.version) ∷ [])) }
        ensures put { IsTrue K.tells → OnOk result (Sets (name_lem prepared.doc self.old.journal) prepared.kept self.old.documents self.new.documents) }
        ensures refused { IfErr result (λ f. MayNotFlush self.old self.new by.seat by.line prepared f) }
        ensures kept { IsTrue K.tells → OnErr result (self.new.documents ≡ self.old.documents) }
    {
        let PreparedKept { token, doc, kept } = prepared;
        let at = doc as usize;
        if at >= self.documents.len() {
            return Err(FlushFault::Stale(never_given(token)));
        }
        if let Some(stale) = self.documents.check(at, token) {
            return Err(FlushFault::Stale(stale));
        }
        let Ok(_sum) = make_room(&mut self.journal, self.owed, 1) else {
            return Err(FlushFault::Memory);
        };
        let Some(name) = self.documents.name(at) else {
            unreachable!()
        };
        let v = kept.version();
        let before = self.keeper.faults();
        let put = self.keeper.put(self.alloc, name.as_str(), kept);
        let after = self.keeper.faults();
        match put {
            Ok(()) => {
                self.documents.keep(at, v);
                self.journal
                    .push(entry_of(by, Act::Flushed { doc, token, v }));
                Ok(())
            }
            Err(KeepFault::Memory) => Err(FlushFault::Memory),
            Err(KeepFault::Failed) => {
                self.journal.push(entry_of(
                    by,
                    Act::FlushFailed {
                        doc,
                        token,
                        before,
                        after,
                    },
                ));
                Err(FlushFault::StoreFault { before, after })
            }
        }
    }
}
