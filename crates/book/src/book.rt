//! The book, with its calls.

ghost use Rattle.std.specs.Prelude.{◌≡◌, ◌<◌, ◌≤◌, ◌+◌, ◌∷◌, [], length, nat_lt, true, false, IsTrue, IfOk, IfErr, IfSome, OnOk, OnErr, None, Some};
ghost use Rattle.journal_entries.specs.Journals.{entries};
ghost use Rattle.journal_entries.specs.declared.limits.TheConstants.{MAX_RAW_SOURCE};
ghost use Rattle.journal_entries.specs.declared.act.Act.TheVariants.{Made, Ticked, Declined, Closed};
ghost use Rattle.journal_rules.specs.Documents.{IsMade, is_in, makings, number_of, waiting};
ghost use Rattle.journal_rules.specs.Deciding.{longest};
ghost use Rattle.journal_rules.specs.Locks.{clock};
ghost use Rattle.journal_rules.specs.Legal.{IsLegal, closed, clock_end, highest_base};
ghost use Rattle.ot_op.specs.Operation.{IsWithinLimits};
ghost use Rattle.journal_rules.specs.Whys.{IsWhy};
ghost use Rattle.book.specs.Shown.{adds};
ghost use Rattle.turn_rules.specs.Owning.{driver_count, driver_owner};
ghost use Rattle.book.specs.Calls.{existing, MayNotTick, MayNotSend, raw_act, ticket_of_raw, update_by};
ghost use Rattle.book.specs.Standing.{IsNew};
ghost use Rattle.source_sink.specs.Causes.{Rose};
ghost use Rattle.book.specs.Failing.{has_failure};
ghost use Rattle.book.specs.Stored.{AreStored, KeepsOthers};

use crate::document::Document;
use crate::documents::Documents;
use crate::faults::{By, MakeFault, RawFault, RawUpdate, TickFault};
use crate::mail::reserve_waiting;
use crate::room::make_room;
use journal_entries::{Act, Entry, Journal, MAX_MOMENT, Update, Why};
use keeper::Keeper;
use ot_op::Op;
use ot_text::doc_text;
use ot_units::{Name, Units};
use project_histories::Projects;
use rooms::Rooms;
use std::alloc::{AllocError, Global};
use std::marker::Model;
use std::snapshot::Snapshot;

/// A legal journal, the documents as it has them, and a keeper for those that are flushed. Contracts see
/// the journal, the number of drivers, and of the keeper its documents and its count of faults.
#[derive(Drop)]
pub struct Book<K: Keeper> {
    pub(crate) journal: Journal,
    pub(crate) documents: Documents,
    /// The clients that are in a document's room, with what they are still to be told of.
    pub(crate) rooms: Rooms,
    /// The projects, with what was applied to their documents and not handed out.
    pub(crate) projects: Projects,
    /// The clock, in milliseconds of the script.
    pub(crate) moment: u64,
    /// How many tokens were given.
    pub(crate) tokens: u64,
    /// For how many entries there is to be room.
    pub(crate) owed: u64,
    pub(crate) drivers: u32,
    /// Where documents are put as they are flushed.
    pub(crate) keeper: K,
    /// The keeper as the book was made, for contracts alone.
    pub(crate) first: Snapshot<K>,
    pub(crate) alloc: Global,
}

impl<K: Keeper> Model for Book<K> {
    ghost use Rattle.std.specs.Prelude.{◌≡◌};
    ghost use Rattle.journal_entries.specs.Journals.{entries};
    ghost use Rattle.book.specs.Shown.{Shown, IsBookWithKeeper};

    ghost Value = { Shown };

    ghost view = { λ b. record { journal = entries b.journal; drivers = b.drivers; documents = K.documents b.keeper; faults = K.count b.keeper; start = record { faults = K.count b.first.value; documents = K.documents b.first.value } } };

    ghost invariant = { λ b. IsBookWithKeeper b.journal b.documents.names b.documents.items b.rooms b.projects b.moment b.tokens b.owed b.drivers K.tells (K.documents b.keeper) (K.count b.keeper) (record { faults = K.count b.first.value; documents = K.documents b.first.value }) };
}

impl<K: Keeper> Book<K> {
    /// A book without entries, over a keeper, of so many drivers; 0 stands for a run on one thread.
    /// Where memory is wanting the keeper is handed back.
    pub fn new(alloc: Global, keeper: K, drivers: u32) -> Result<Book<K>, (AllocError, K)>
        requires { drivers ≤ 16 }
        ensures ok { IfOk result (λ b. b ≡ record { journal = []; drivers = drivers; documents = K.documents keeper; faults = K.count keeper; start = record { faults = K.count keeper; documents = K.documents keeper } }) }
        ensures err { IfErr result (λ r. r.1 ≡ keeper) }
    {
        let owed = owed_at_first(drivers);
        let first = Snapshot::of(&keeper);
        let mut journal = Journal::new(alloc);
        let Ok(()) = journal.reserve(owed) else {
            return Err((AllocError, keeper));
        };
        Ok(Book {
            journal,
            documents: Documents::new(alloc),
            rooms: Rooms::new(alloc),
            projects: Projects::new(alloc),
            moment: 0,
            tokens: 0,
            owed,
            drivers,
            keeper,
            first,
            alloc,
        })
    }

    /// Makes a document, which is numbered in order of making.
    pub fn make_doc(
        &mut self,
        by: By,
        name: &Name,
        project: &Name,
        first: &Units,
        base: u64,
    ) -> Result<u32, MakeFault>
        requires few { length (makings self.old.journal) < 1000 }
        requires short { length first.now ≤ longest }
        requires low { base ≤ highest_base }
        ensures made { IfOk result (λ doc. (doc ≡ length (makings self.old.journal)) × (number_of name.now self.old.journal ≡ None)
            × (self.new ≡ adds self.old by.seat by.line (Made doc name.now project.now first.now base ∷ []))) }
        ensures refused { IfErr result (λ f. existing f ≡ number_of name.now self.old.journal) }
        ensures kept { OnErr result (self.new ≡ self.old) }
    {
        if let Some(found) = self.documents.find(name) {
            return Err(MakeFault::Exists(found as u32));
        }
        let doc = self.documents.len() as u32;
        let Ok((key, document, entry)) = made(self.alloc, by, doc, name, project, first, base)
        else {
            return Err(MakeFault::Memory);
        };
        let Ok(owner) = project.copy(self.alloc) else {
            return Err(MakeFault::Memory);
        };
        let Ok(_sum) = make_room(&mut self.journal, self.owed, 1) else {
            return Err(MakeFault::Memory);
        };
        let Ok(()) = self.projects.reserve_document() else {
            return Err(MakeFault::Memory);
        };
        let Ok(()) = self.documents.add(key, document) else {
            return Err(MakeFault::Memory);
        };
        self.projects.add_document(owner);
        self.journal.push(entry);
        Ok(doc)
    }

    /// The clock goes on by so many milliseconds.
    pub fn tick(&mut self, by: By, ms: u64) -> Result<(), TickFault>
        ensures ok { OnOk result ((clock self.old.journal + ms ≤ clock_end) × (self.new ≡ adds self.old by.seat by.line (Ticked ms ∷ []))) }
        ensures refused { IfErr result (λ f. MayNotTick self.old.journal ms f) }
        ensures kept { OnErr result (self.new ≡ self.old) }
    {
        if ms > MAX_MOMENT - self.moment {
            return Err(TickFault::ClockEnd { now: self.moment });
        }
        let Ok(_sum) = make_room(&mut self.journal, self.owed, 1) else {
            return Err(TickFault::Memory);
        };
        self.journal.push(entry_of(by, Act::Ticked { ms }));
        self.moment += ms;
        Ok(())
    }

    /// Sends a raw update, and answers its ticket; one whose operation isn't in form is noted, and has none.
    pub fn send_raw(&mut self, by: By, raw: &RawUpdate) -> Result<Option<u64>, RawFault>
        requires source { raw.now.source ≤ MAX_RAW_SOURCE }
        requires within { IfOk raw.now.op IsWithinLimits }
        ensures sent { IfOk result (λ t. IsMade raw.now.doc self.old.journal × (t ≡ ticket_of_raw raw.now.op (length self.old.journal))
            × (self.new ≡ adds self.old by.seat by.line (raw_act (clock self.old.journal) raw.now ∷ []))) }
        ensures refused { IfErr result (λ f. MayNotSend self.old.journal raw.now.doc f) }
        ensures kept { OnErr result (self.new ≡ self.old) }
    {
        let doc = raw.doc as usize;
        if doc >= self.documents.len() {
            return Err(RawFault::NoDoc);
        }
        let op = match &raw.op {
            Ok(op) => op,
            Err(fault) => {
                let Ok(_sum) = make_room(&mut self.journal, self.owed, 1) else {
                    return Err(RawFault::Memory);
                };
                let fault = *fault;
                self.journal.push(entry_of(
                    by,
                    Act::Malformed {
                        doc: raw.doc,
                        fault,
                    },
                ));
                return Ok(None);
            }
        };
        let Ok(op) = op.copy(self.alloc) else {
            return Err(RawFault::Memory);
        };
        let Ok(update) = update_of(self.alloc, raw, op, self.moment) else {
            return Err(RawFault::Memory);
        };
        let Ok(sum) = make_room(&mut self.journal, self.owed, 2) else {
            return Err(RawFault::Memory);
        };
        let Ok(()) = reserve_waiting(&mut self.documents, &mut self.rooms, raw.doc) else {
            return Err(RawFault::Memory);
        };
        let ticket = self.journal.len();
        self.documents.queue(doc, ticket);
        self.journal.push(entry_of(by, Act::Sent { update }));
        self.owed = sum - 1;
        Ok(Some(ticket))
    }

    /// A session's line did nothing, for a cause that the refusing call told in this turn.
    pub fn decline(&mut self, by: By, session: u32, why: Why) -> Result<(), AllocError>
        requires { IsWhy self.old.journal by.seat session why }
        ensures ok { OnOk result (self.new ≡ adds self.old by.seat by.line (Declined session why ∷ [])) }
        ensures kept { OnErr result (self.new ≡ self.old) }
    {
        make_room(&mut self.journal, self.owed, 1)?;
        self.journal
            .push(entry_of(by, Act::Declined { session, why }));
        Ok(())
    }

    /// A driver did the last of its lines. Takes no memory: the room was made by [`Book::new`].
    pub fn close_driver(&mut self, by: By, driver: u32)
        requires one { driver < driver_count self.old.drivers }
        requires once { is_in driver (closed self.old.journal) ≡ false }
        requires owner { by.seat ≡ driver_owner self.old.drivers driver }
        ensures { self.new ≡ adds self.old by.seat by.line (Closed driver ∷ []) }
    {
        self.journal.push(entry_of(by, Act::Closed { driver }));
        self.owed -= 1;
    }

    /// The number of the document of this name.
    pub fn find(&self, name: &Name) -> Option<u32>
        ensures { result ≡ number_of name.now self.now.journal }
    {
        let found = self.documents.find(name)?;
        Some(found as u32)
    }

    /// The journal, which is legal.
    pub fn journal(&self) -> &Journal
        ensures entries { entries result.now ≡ self.now.journal }
        ensures legal { IsLegal self.now.journal }
    {
        &self.journal
    }

    /// The clock, in milliseconds of the script.
    pub fn now(&self) -> u64
        ensures { result ≡ clock self.now.journal }
    {
        self.moment
    }

    /// How many documents were made.
    pub fn docs(&self) -> u32
        ensures { result ≡ length (makings self.now.journal) }
    {
        self.documents.len() as u32
    }

    /// How many updates wait for a document; 0 where it wasn't made.
    pub fn waiting(&self, doc: u32) -> u64
        ensures { result ≡ length (waiting doc self.now.journal) }
    {
        let Some(document) = self.documents.get(doc as usize) else {
            return 0;
        };
        document.waiting.len() as u64
    }

    /// The keeper and the journal, for the end of a run. Where the keeper tells its documents, each that
    /// was flushed stands in it as the journal has it at the version of its last flush, and under all other
    /// names what it had as the book was made. The keeper's count didn't fall, and where the journal tells of a failure, it rose, or stands at its last value.
    pub fn ended(self) -> (K, Journal)
        ensures keeper { (K.documents result.0 ≡ self.documents) × (K.count result.0 ≡ self.faults) }
        ensures stored { IsTrue K.tells → AreStored (K.documents result.0) (entries result.1) }
        ensures others { KeepsOthers K.tells self.journal self.start.documents self.documents }
        ensures later { self.start.faults ≤ self.faults }
        ensures causes { has_failure self.journal ≡ true → Rose self.start.faults self.faults }
        ensures entries { entries result.1 ≡ self.journal }
        ensures legal { IsLegal (entries result.1) }
    {
        (self.keeper, self.journal)
    }
}

// An entry by a seat, for a line or for none.
pub(crate) fn entry_of(by: By, act: Act) -> Entry
    ensures { result ≡ record { seat = by.seat; line = by.line; act = act } }
{
    Entry {
        seat: by.seat,
        line: by.line,
        act,
    }
}

// How many entries are owed at first: one for each driver.
fn owed_at_first(drivers: u32) -> u64
    ensures { result ≡ driver_count drivers }
{
    if drivers == 0 { 1 } else { drivers as u64 }
}

// A document that is made, with its name, and its entry.
fn made(
    alloc: Global,
    by: By,
    doc: u32,
    name: &Name,
    project: &Name,
    first: &Units,
    base: u64,
) -> Result<(Name, Document, Entry), AllocError>
    ensures name { IfOk result (λ m. m.0 ≡ name.now) }
    ensures document { IfOk result (λ m. IsNew m.1 first.now base) }
    ensures entry { IfOk result (λ m. m.2 ≡ record { seat = by.seat; line = by.line; act = Made doc name.now project.now first.now base }) }
{
    let document = Document::new(alloc, doc_text(alloc, first)?, base)?;
    let act = Act::Made {
        doc,
        name: name.copy(alloc)?,
        project: project.copy(alloc)?,
        first: first.copy(alloc)?,
        base,
    };
    Ok((name.copy(alloc)?, document, entry_of(by, act)))
}

// A raw update, as it is sent.
fn update_of(alloc: Global, raw: &RawUpdate, op: Op, now: u64) -> Result<Update, AllocError>
    ensures { IfOk result (λ u. u ≡ update_by now raw.now op) }
{
    Ok(Update {
        doc: raw.doc,
        client: None,
        number: 0,
        source: raw.source,
        dup: raw.dup.copy()?,
        user: raw.user.copy(alloc)?,
        track: raw.track,
        ms: now,
        v: raw.v,
        op,
    })
}
