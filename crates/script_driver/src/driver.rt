//! A driver of a run: it does its lines of a script in order.

ghost use Rattle.std.specs.Prelude.{◌≡◌, ◌+◌, ◌<◌, ◌≤◌, ◌^◌, ◌-◌, ◌∷◌, [], ℕ, true, length, slice_get, slice_set, sum_by, IfOk, OnErr, OnOk, None, Some, Option, is_some, All};
ghost use Rattle.book.specs.Calls.{raw_act};
ghost use Rattle.book.specs.Going.{GoesOn, with_journal};
ghost use Rattle.book.specs.Shown.{adds};
ghost use Rattle.book.specs.declared.faults.Prepared.{Prepared};
ghost use Rattle.journal_entries.specs.declared.act.Act.TheVariants.{Made, Ticked};
ghost use Rattle.journal_rules.specs.Deciding.{longest};
ghost use Rattle.journal_rules.specs.Documents.{IsMade, makings, number_of};
ghost use Rattle.journal_rules.specs.Legal.{closed, highest_base};
ghost use Rattle.ot_op.specs.Operation.{IsWithinLimits};
ghost use Rattle.journal_rules.specs.Locks.{clock, next_token};
ghost use Rattle.session_lines.specs.Script.{session_of};
ghost use Rattle.session_lines.specs.Standing.{AreBySessions, is_one_of, moved_by};
ghost use Rattle.run_rules.specs.Keeping.{keeping, nothing_kept};
ghost use Rattle.run_rules.specs.Plain.{hand_act};
ghost use Rattle.run_rules.specs.Lines.{Does, DrainsNamed, Finishes, FlushesNamed, Holds, Joins, Leads, Syncs, numbered};
ghost use Rattle.turn_rules.specs.Owning.{client_owner};
ghost use Rattle.turn_rules.specs.Turns.{Alone, Turn, entry_by};
ghost use Rattle.script_driver.specs.Apart.{GoesApart, IsBehind};
ghost use Rattle.script_driver.specs.Clients.{AreClientsOf, GoesQuietly};
ghost use Rattle.script_driver.specs.Syncing.{GoesApartThenQuietly};
ghost use Rattle.share_client.specs.Clients.{Numbered};
ghost use Rattle.client_lines.specs.Lines.{IsDoable, client_act};
ghost use Rattle.journal_rules.specs.Client.{away as away_lem};
ghost use Rattle.std.specs.Global.{Vec};
ghost use Rattle.script_driver.specs.Failing.{GoesByOwn};
ghost use Rattle.script_driver.specs.Fitting.{AreBuilt, AreFit, IsFit, is_built};
ghost use Rattle.script_driver.specs.Handing.{items_handed};
ghost use Rattle.script_driver.specs.Holding.{IsDriver, empty_book, kept_in};

use crate::syncing::sync_client;
use book::{
    AcquireFault, Book, By, CommitFault, HandFault, MakeFault, Prepared, RawFault, RawUpdate,
    TickFault,
};
use client_lines::{ClientLine, join_named};
use dispatcher::{DrainEnd, drain, prepare};
use flush_manager::{FlushEnd, flush_doc};
use history_queue::Item;
use journal_entries::Why;
use keeper::Keeper;
use ot_units::{Name, Units};
use session_lines::Line;
use share_client::{Edit, ShareClient};
use std::alloc::{AllocError, Global};

/// A seat, the book of a run, what each session keeps from a `hold` to its next `finish`, each session's
/// client, by the sessions' numbers, and what was handed out of the projects' histories, in order.
#[derive(Drop)]
pub struct Driver<K: Keeper> {
    pub seat: u32,
    pub book: Book<K>,
    pub holds: Vec<Option<Prepared>>,
    pub clients: Vec<ShareClient>,
    pub handed: Vec<Item>,
}

/// What a run's lines leave: its book, the clients of its sessions, and what was handed out.
#[derive(Drop)]
pub struct Left<K: Keeper> {
    pub book: Book<K>,
    pub clients: Vec<ShareClient>,
    pub handed: Vec<Item>,
}

/// Does the lines in order, from line 1 on, over a keeper, and gives the book, the clients and what was
/// handed out. Sessions keep nothing at first, and no client has joined. Where memory is wanting the
/// keeper alone is given back.
pub fn do_lines<K: Keeper>(
    alloc: Global,
    keeper: K,
    lines: Vec<Line>,
    sessions: u32,
) -> Result<Left<K>, K>
    requires fit { AreFit [] lines.items }
    requires built { AreBuilt lines.items }
    requires numbered { AreBySessions sessions lines.items }
    requires few { length lines.items < 2 ^ 32 - 1 }
    ensures leads { IfOk result (λ left. Leads 0 Alone (numbered 1 lines.items) nothing_kept [] left.book.journal) }
    ensures goes_on { IfOk result (λ left. GoesOn K.tells (empty_book (K.documents keeper) (K.count keeper)) left.book) }
    ensures clock { IfOk result (λ left. clock left.book.journal ≡ sum_by moved_by lines.items) }
    ensures closed { IfOk result (λ left. closed left.book.journal ≡ []) }
    ensures clients { IfOk result (λ left. AreClientsOf left.clients.items left.book.journal) }
    ensures many { IfOk result (λ left. length left.clients.items ≡ sessions) }
    ensures handed { IfOk result (λ left. left.handed.items ≡ items_handed left.book.journal) }
{
    let mut driver = Driver::new(alloc, keeper, sessions)?;
    let mut number = 1;
    for line in lines {
        let Ok(()) = driver.do_line(alloc, number, line) else {
            return Err(driver.into_keeper());
        };
        number += 1;
    }
    let Driver {
        book,
        clients,
        handed,
        ..
    } = driver;
    Ok(Left {
        book,
        clients,
        handed,
    })
}

impl<K: Keeper> Driver<K> {
    // The driver of an empty book over a keeper, of so many sessions that keep nothing. Nothing was
    // handed out. Where memory is wanting the keeper is given back.
    fn new(alloc: Global, keeper: K, sessions: u32) -> Result<Driver<K>, K>
        ensures book { IfOk result (λ driver. driver.book ≡ empty_book (K.documents keeper) (K.count keeper)) }
        ensures sessions { IfOk result (λ driver. length driver.holds.items ≡ sessions) }
        ensures nothing { IfOk result (λ driver. All (λ kept. kept ≡ None) driver.holds.items) }
        ensures seat { IfOk result (λ driver. driver.seat ≡ 0) }
        ensures many { IfOk result (λ driver. length driver.clients.items ≡ sessions) }
        ensures away { IfOk result (λ driver. (c : ℕ) (x : Numbered) → slice_get driver.clients.items c ≡ Some x → x ≡ record { client = c; now = away_lem }) }
        ensures handed { IfOk result (λ driver. driver.handed.items ≡ []) }
    {
        let (Ok(holds), Ok(clients)) = (no_holds(alloc, sessions), away_clients(alloc, sessions))
        else {
            return Err(keeper);
        };
        match Book::new(alloc, keeper, 0) {
            Ok(book) => Ok(Driver {
                seat: 0,
                book,
                holds,
                clients,
                handed: Vec::new(alloc),
            }),
            Err((_, keeper)) => Err(keeper),
        }
    }

    // The keeper of the book.
    fn into_keeper(self) -> K {
        let Driver { book, .. } = self;
        let (keeper, _journal) = book.ended();
        keeper
    }

    /// Does the line of this number. The only error is want of memory, or that the clock is at its end: the
    /// book has the entries then that the line made before that.
    pub fn do_line(&mut self, alloc: Global, number: u32, line: Line) -> Result<(), AllocError>
        requires driver { IsDriver self.old }
        requires fit { IsFit (makings self.old.book.journal) line }
        requires built { is_built line ≡ true }
        requires numbered { is_one_of (length self.old.holds.items) (session_of line) ≡ true }
        requires owned { (session : ℕ) → session_of line ≡ Some session → client_owner self.old.book.drivers session ≡ self.old.seat }
        ensures does { OnOk result (Does self.old.seat Alone number line (kept_in self.old.holds.items) self.old.book.journal self.new.book.journal (kept_in self.new.holds.items)) }
        ensures driver { OnOk result (IsDriver self.new) }
        ensures sessions { OnOk result (length self.new.holds.items ≡ length self.old.holds.items) }
        ensures behind { OnOk result (IsBehind line self.old.book.journal self.new.book.journal) }
        ensures goes_on { OnOk result (GoesOn K.tells self.old.book self.new.book) }
        ensures seat { OnOk result (self.new.seat ≡ self.old.seat) }
        ensures failed { OnErr result (GoesByOwn self.old.seat self.old.book self.new.book) }
    {
        let by = By {
            seat: self.seat,
            line: Some(number),
        };
        match line {
            Line::Doc {
                doc,
                project,
                text,
                v,
            } => make(&mut self.book, by, &doc, &project, &text, v),
            Line::Tick { ms, .. } => tick(&mut self.book, by, ms),
            Line::Raw {
                session,
                doc,
                user,
                source,
                dup,
                track,
                v,
                op,
            } => match self.book.find(&doc) {
                Some(doc) => {
                    let raw = RawUpdate {
                        doc,
                        user,
                        source,
                        dup,
                        track,
                        v,
                        op,
                    };
                    send_raw(&mut self.book, by, &raw)
                }
                None => self.book.decline(by, session, Why::NoDoc),
            },
            Line::Join {
                session,
                doc,
                user,
                track,
            } => self.join(by, session, &doc, &user, track),
            Line::Ins { session, p, s } => {
                self.tell(
                    by,
                    session,
                    &ClientLine::Edit(Edit::Insert { at: p, text: s }),
                )
            }
            Line::Del { session, p, n } => {
                self.tell(
                    by,
                    session,
                    &ClientLine::Edit(Edit::Delete { at: p, len: n }),
                )
            }
            Line::Com { session, p, n, t } => {
                let comment = Edit::Comment {
                    at: p,
                    len: n,
                    thread: t,
                };
                self.tell(by, session, &ClientLine::Edit(comment))
            }
            Line::Send { session } => self.tell(by, session, &ClientLine::Send),
            Line::Resend { session } => self.tell(by, session, &ClientLine::Resend),
            Line::Recv { session } => self.tell(by, session, &ClientLine::Receive),
            Line::Leave { session } => self.tell(by, session, &ClientLine::Leave),
            Line::Rejoin { session } => self.tell(by, session, &ClientLine::Rejoin),
            Line::Sync { session } => self.sync(alloc, by, session),
            Line::Drain { session, doc } => drain_named(alloc, &mut self.book, by, session, &doc),
            Line::Flush { session, doc } => flush_named(alloc, &mut self.book, by, session, &doc),
            Line::Hold { session, doc } => self.hold(alloc, number, session, &doc),
            Line::Finish { session } => self.finish(number, session),
            Line::Hand {
                session,
                project,
                n,
            } => self.hand(by, session, &project, n),
            _ => unreachable!(),
        }
    }

    // A session's client joins the document of a name.
    fn join(
        &mut self,
        by: By,
        session: u32,
        doc: &Name,
        user: &Name,
        track: bool,
    ) -> Result<(), AllocError>
        requires driver { IsDriver self.old }
        requires session { session < length self.old.holds.items }
        requires seat { by.seat ≡ self.old.seat }
        requires owned { client_owner self.old.book.drivers session ≡ self.old.seat }
        ensures joins { OnOk result (Turn Alone (λ look made. Joins (entry_by self.old.seat by.line) session (number_of doc.now look) user.now track look made) self.old.book.journal self.new.book.journal) }
        ensures driver { OnOk result (IsDriver self.new) }
        ensures holds { self.new.holds ≡ self.old.holds }
        ensures seat { self.new.seat ≡ self.old.seat }
        ensures quiet { OnOk result (GoesQuietly session self.old.book.journal self.new.book.journal) }
        ensures rest { OnOk result (self.new.book ≡ with_journal self.old.book self.new.book.journal) }
        ensures failed { OnErr result (GoesByOwn self.old.seat self.old.book self.new.book) }
    {
        let Some(client) = self.clients.get_mut(session as usize) else {
            unreachable!()
        };
        join_named(&mut self.book, client, by, doc, user, track)
    }

    // A session's client does what a line tells it.
    fn tell(&mut self, by: By, session: u32, line: &ClientLine) -> Result<(), AllocError>
        requires driver { IsDriver self.old }
        requires session { session < length self.old.holds.items }
        requires seat { by.seat ≡ self.old.seat }
        requires owned { client_owner self.old.book.drivers session ≡ self.old.seat }
        requires doable { IsDoable line.now }
        ensures does { OnOk result (self.new.book ≡ adds self.old.book self.old.seat by.line (client_act session self.old.book.journal line.now ∷ [])) }
        ensures driver { OnOk result (IsDriver self.new) }
        ensures holds { self.new.holds ≡ self.old.holds }
        ensures seat { self.new.seat ≡ self.old.seat }
        ensures quiet { OnOk result (GoesQuietly session self.old.book.journal self.new.book.journal) }
        ensures rest { OnOk result (self.new.book ≡ with_journal self.old.book self.new.book.journal) }
        ensures failed { OnErr result (GoesByOwn self.old.seat self.old.book self.new.book) }
    {
        let Some(client) = self.clients.get_mut(session as usize) else {
            unreachable!()
        };
        client_lines::do_line(&mut self.book, client, by, line)
    }

    // A session's document is drained, and its client gets all of its mail.
    fn sync(&mut self, alloc: Global, by: By, session: u32) -> Result<(), AllocError>
        requires driver { IsDriver self.old }
        requires session { session < length self.old.holds.items }
        requires seat { by.seat ≡ self.old.seat }
        requires owned { client_owner self.old.book.drivers session ≡ self.old.seat }
        ensures syncs { OnOk result (Syncs (entry_by self.old.seat by.line) Alone session self.old.book.journal self.new.book.journal) }
        ensures driver { OnOk result (IsDriver self.new) }
        ensures holds { self.new.holds ≡ self.old.holds }
        ensures seat { self.new.seat ≡ self.old.seat }
        ensures goes { OnOk result (GoesApartThenQuietly (next_token self.old.book.journal) session self.old.book.journal self.new.book.journal) }
        ensures rest { OnOk result (self.new.book ≡ with_journal self.old.book self.new.book.journal) }
        ensures failed { OnErr result (GoesByOwn self.old.seat self.old.book self.new.book) }
    {
        let Some(client) = self.clients.get_mut(session as usize) else {
            unreachable!()
        };
        sync_client(alloc, &mut self.book, client, by)
    }

    // Takes up the first update that waits for a document, decides on it, and keeps that.
    fn hold(
        &mut self,
        alloc: Global,
        number: u32,
        session: u32,
        doc: &Name,
    ) -> Result<(), AllocError>
        requires driver { IsDriver self.old }
        requires session { session < length self.old.holds.items }
        ensures holds { OnOk result (Holds (entry_by self.old.seat (Some number)) Alone session (kept_in self.old.holds.items session) doc.now (kept_in self.old.holds.items) self.old.book.journal self.new.book.journal (kept_in self.new.holds.items)) }
        ensures driver { OnOk result (IsDriver self.new) }
        ensures sessions { OnOk result (length self.new.holds.items ≡ length self.old.holds.items) }
        ensures seat { OnOk result (self.new.seat ≡ self.old.seat) }
        ensures apart { OnOk result (GoesApart (next_token self.old.book.journal) self.old.book.journal self.new.book.journal) }
        ensures rest { OnOk result (self.new.book ≡ with_journal self.old.book self.new.book.journal) }
        ensures failed { OnErr result (GoesByOwn self.old.seat self.old.book self.new.book) }
    {
        let by = By {
            seat: self.seat,
            line: Some(number),
        };
        if is_kept(&self.holds, session) {
            return self.book.decline(by, session, Why::Holding);
        }
        let Some(doc) = self.book.find(doc) else {
            return self.book.decline(by, session, Why::NoDoc);
        };
        match self.book.acquire(by, doc) {
            Ok(look) => {
                keep(&mut self.holds, session, prepare(alloc, look)?);
                Ok(())
            }
            Err(AcquireFault::Empty) => self.book.decline(by, session, Why::Empty),
            Err(AcquireFault::Busy(busy)) => self.book.decline(by, session, Why::Busy(busy)),
            Err(AcquireFault::Memory) => Err(AllocError),
            Err(AcquireFault::NoDoc) => unreachable!(),
            Err(AcquireFault::Uncached) => unreachable!(),
        }
    }

    // Commits what the session keeps, and lets the document go; or says why it can't. It keeps nothing then.
    fn finish(&mut self, number: u32, session: u32) -> Result<(), AllocError>
        requires driver { IsDriver self.old }
        requires session { session < length self.old.holds.items }
        ensures finishes { OnOk result (Turn Alone (Finishes (entry_by self.old.seat (Some number)) session (kept_in self.old.holds.items session)) self.old.book.journal self.new.book.journal) }
        ensures gives { OnOk result (kept_in self.new.holds.items ≡ keeping session None (kept_in self.old.holds.items)) }
        ensures driver { OnOk result (IsDriver self.new) }
        ensures sessions { OnOk result (length self.new.holds.items ≡ length self.old.holds.items) }
        ensures seat { OnOk result (self.new.seat ≡ self.old.seat) }
        ensures apart { OnOk result (GoesApart 0 self.old.book.journal self.new.book.journal) }
        ensures rest { OnOk result (self.new.book ≡ with_journal self.old.book self.new.book.journal) }
        ensures failed { OnErr result (GoesByOwn self.old.seat self.old.book self.new.book) }
    {
        let by = By {
            seat: self.seat,
            line: Some(number),
        };
        let Some(prepared) = give_up(&mut self.holds, session) else {
            return self.book.decline(by, session, Why::Nothing);
        };
        let (doc, token) = (prepared.look.doc, prepared.look.token);
        self.book.legal();
        match self.book.commit(by, prepared) {
            Ok(()) => {
                let Ok(_) = self.book.release(by, doc, token) else {
                    unreachable!()
                };
                Ok(())
            }
            Err(CommitFault::Stale(stale)) => self.book.decline(by, session, Why::Stale(stale)),
            Err(CommitFault::Memory(_)) => Err(AllocError),
        }
    }

    // Hands the first items of a project's history out, `n` of them, or all where there are fewer.
    fn hand(&mut self, by: By, session: u32, project: &Name, n: u32) -> Result<(), AllocError>
        requires driver { IsDriver self.old }
        requires seat { by.seat ≡ self.old.seat }
        ensures hands { OnOk result (self.new.book ≡ adds self.old.book self.old.seat by.line (hand_act session project.now n self.old.book.journal ∷ [])) }
        ensures driver { OnOk result (IsDriver self.new) }
        ensures holds { self.new.holds ≡ self.old.holds }
        ensures seat { self.new.seat ≡ self.old.seat }
        ensures failed { OnErr result (GoesByOwn self.old.seat self.old.book self.new.book) }
    {
        match self.book.hand_history(by, project, n as u64) {
            Ok(mut items) => self.handed.append(&mut items),
            Err(HandFault::NoProject) => self.book.decline(by, session, Why::NoProject),
            Err(HandFault::Memory) => Err(AllocError),
        }
    }
}

/// So many sessions that keep nothing.
pub fn no_holds(alloc: Global, sessions: u32) -> Result<Vec<Option<Prepared>>, AllocError>
    ensures many { IfOk result (λ (made : Vec (Option Prepared)). length made.items ≡ sessions) }
    ensures nothing { IfOk result (λ (made : Vec (Option Prepared)). All (λ kept. kept ≡ None) made.items) }
{
    let mut holds = Vec::new(alloc);
    'filling: while holds.len() < sessions as usize {
        holds.push(None)?;
    }
    Ok(holds)
}

/// So many clients that never joined, numbered from 0.
pub fn away_clients(alloc: Global, sessions: u32) -> Result<Vec<ShareClient>, AllocError>
    ensures many { IfOk result (λ (made : Vec Numbered). length made.items ≡ sessions) }
    ensures away { IfOk result (λ (made : Vec Numbered). (c : ℕ) (x : Numbered) → slice_get made.items c ≡ Some x → x ≡ record { client = c; now = away_lem }) }
{
    let mut clients = Vec::new(alloc);
    for number in 0..sessions {
        clients.push(ShareClient::new(alloc, number))?;
    }
    Ok(clients)
}

// Whether a session keeps something.
fn is_kept(holds: &Vec<Option<Prepared>>, session: u32) -> bool
    requires { session < length holds.now.items }
    ensures { (kept : Option Prepared) → slice_get holds.now.items session ≡ Some kept → result ≡ is_some kept }
{
    holds[session as usize].is_some()
}

// A session keeps this from now on.
fn keep(holds: &mut Vec<Option<Prepared>>, session: u32, prepared: Prepared)
    requires { session < length holds.old.items }
    ensures { holds.new.items ≡ slice_set holds.old.items session (Some prepared) }
{
    holds[session as usize] = Some(prepared);
}

// What a session keeps is given up.
fn give_up(holds: &mut Vec<Option<Prepared>>, session: u32) -> Option<Prepared>
    requires { session < length holds.old.items }
    ensures was { slice_get holds.old.items session ≡ Some result }
    ensures now { holds.new.items ≡ slice_set holds.old.items session None }
{
    holds[session as usize].take()
}

// Makes a document, whose name is new.
pub(crate) fn make<K: Keeper>(
    book: &mut Book<K>,
    by: By,
    name: &Name,
    project: &Name,
    first: &Units,
    base: u64,
) -> Result<(), AllocError>
    requires few { length (makings book.old.journal) < 1000 }
    requires short { length first.now ≤ longest }
    requires low { base ≤ highest_base }
    requires new { number_of name.now book.old.journal ≡ None }
    ensures ok { OnOk result (book.new ≡ adds book.old by.seat by.line (Made (length (makings book.old.journal)) name.now project.now first.now base ∷ [])) }
    ensures kept { OnErr result (book.new ≡ book.old) }
{
    match book.make_doc(by, name, project, first, base) {
        Ok(_) => Ok(()),
        Err(MakeFault::Memory) => Err(AllocError),
        Err(MakeFault::Exists(_)) => unreachable!(),
    }
}

/// The clock goes on. At its end it can't: that is told as want of memory is, and nothing was done.
pub fn tick<K: Keeper>(book: &mut Book<K>, by: By, ms: u64) -> Result<(), AllocError>
    ensures ok { OnOk result (book.new ≡ adds book.old by.seat by.line (Ticked ms ∷ [])) }
    ensures kept { OnErr result (book.new ≡ book.old) }
{
    match book.tick(by, ms) {
        Ok(()) => Ok(()),
        Err(TickFault::Memory) => Err(AllocError),
        Err(TickFault::ClockEnd { .. }) => Err(AllocError),
    }
}

// Sends a raw update to a document that was made.
fn send_raw<K: Keeper>(book: &mut Book<K>, by: By, raw: &RawUpdate) -> Result<(), AllocError>
    requires made { IsMade raw.now.doc book.old.journal }
    requires source { raw.now.source ≤ 999999 }
    requires within { IfOk raw.now.op IsWithinLimits }
    ensures ok { OnOk result (book.new ≡ adds book.old by.seat by.line (raw_act (clock book.old.journal) raw.now ∷ [])) }
    ensures kept { OnErr result (book.new ≡ book.old) }
{
    match book.send_raw(by, raw) {
        Ok(_) => Ok(()),
        Err(RawFault::Memory) => Err(AllocError),
        Err(RawFault::NoDoc) => unreachable!(),
    }
}

// Drains as many updates of the document of a name as wait for it, or says why it can't.
fn drain_named<K: Keeper>(
    alloc: Global,
    book: &mut Book<K>,
    by: By,
    session: u32,
    name: &Name,
) -> Result<(), AllocError>
    ensures drains { OnOk result (DrainsNamed (entry_by by.seat by.line) Alone session (number_of name.now book.old.journal) book.old.journal book.new.journal) }
    ensures apart { OnOk result (GoesApart (next_token book.old.journal) book.old.journal book.new.journal) }
    ensures rest { OnOk result (book.new ≡ with_journal book.old book.new.journal) }
    ensures failed { OnErr result (GoesByOwn by.seat book.old book.new) }
{
    let Some(doc) = book.find(name) else {
        return book.decline(by, session, Why::NoDoc);
    };
    let most = book.waiting(doc);
    if most == 0 {
        return book.decline(by, session, Why::Empty);
    }
    match drain(alloc, book, by, doc, most) {
        DrainEnd::Done { .. } => Ok(()),
        DrainEnd::Busy { busy, .. } => book.decline(by, session, Why::Busy(busy)),
        DrainEnd::Memory { .. } => Err(AllocError),
    }
}

// Puts the document of a name into the keeper, or says why it can't.
fn flush_named<K: Keeper>(
    alloc: Global,
    book: &mut Book<K>,
    by: By,
    session: u32,
    name: &Name,
) -> Result<(), AllocError>
    ensures flushes { OnOk result (FlushesNamed (entry_by by.seat by.line) Alone session (number_of name.now book.old.journal) book.old.journal book.new.journal) }
    ensures apart { OnOk result (GoesApart (next_token book.old.journal) book.old.journal book.new.journal) }
    ensures goes_on { OnOk result (GoesOn K.tells book.old book.new) }
    ensures failed { OnErr result (GoesByOwn by.seat book.old book.new) }
{
    let Some(doc) = book.find(name) else {
        return book.decline(by, session, Why::NoDoc);
    };
    match flush_doc(alloc, book, by, doc) {
        FlushEnd::Done => Ok(()),
        FlushEnd::Failed { .. } => Ok(()),
        FlushEnd::Refused(why) => book.decline(by, session, why),
        FlushEnd::Memory => Err(AllocError),
    }
}
