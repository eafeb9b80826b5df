//! A takeover with two holders, and history that is handed out, on a book alone.

ghost use Rattle.std.specs.Prelude.{◌≡◌, ◌≢◌, ◌∷◌, [], IfOk, OnOk};
ghost use Rattle.ot_op.specs.declared.comp.Comp.TheVariants.{Ins};
ghost use Rattle.dup_check.specs.declared.snapshot.Snapshot.{Snapshot};
ghost use Rattle.book.specs.Looking.{IsDecided, IsOf};

use book::{AcquireFault, Book, By, CommitFault, HandFault, Prepared, RawUpdate};
use dup_check::decide;
use expiring_lock::{Busy, Stale};
use history_queue::Item;
use journal_entries::{Act, Outcome, Sources};
use keeper::SureKeeper;
use ot_op::{Comp, FormFault, Op};
use ot_units::{Name, Units};
use std::alloc::Global;
use std::test::Fail;

fn by(seat: u32) -> By
    ensures { result.seat ≡ seat }
{
    By { seat, line: None }
}

fn name(alloc: Global, text: &str) -> Result<Name, Fail> {
    Ok(Name::read(alloc, text)?.ok_or("a name")?)
}

// The operation that puts `X` in at 1.
fn insert(alloc: Global) -> Result<Op, Fail>
    ensures { IfOk result (λ op. op ≡ Ins 1 (88 ∷ []) ∷ []) }
{
    let mut op = Op::empty(alloc);
    let comp = Comp::Ins(1, Units::from_slice(alloc, &[88])?);
    op.push(comp).map_err(|(full, _)| full)?;
    Ok(op)
}

// That operation, or a fault of its form, sent to a document at version 0.
fn raw(alloc: Global, doc: u32, op: Result<Op, FormFault>) -> Result<RawUpdate, Fail>
    ensures { IfOk result (λ u. (u.source ≡ 1) × (u.op ≡ op)) }
{
    Ok(RawUpdate {
        doc,
        user: name(alloc, "u")?,
        source: 1,
        dup: Sources::new(alloc),
        track: false,
        v: 0,
        op,
    })
}

// Makes the document `abc` in an empty book, and sends one update to it.
fn begin(alloc: Global, book: &mut Book<SureKeeper>) -> Result<(), Fail> {
    if book.docs() != 0 {
        return Err(Fail::new("a document of a new book"));
    }
    let first = Units::from_slice(alloc, &[97, 98, 99])?;
    let made = book.make_doc(by(0), &name(alloc, "a")?, &name(alloc, "p")?, &first, 0);
    if made != Ok(0) {
        return Err(Fail::new("no document"));
    }
    let sent = book.send_raw(by(0), &raw(alloc, 0, Ok(insert(alloc)?))?);
    if sent != Ok(Some(1)) {
        return Err(Fail::new("no ticket"));
    }
    Ok(())
}

// A seat acquires the document, and decides on the first update that waits.
fn prepared(alloc: Global, book: &mut Book<SureKeeper>, seat: u32) -> Result<Prepared, Fail>
    ensures looks { IfOk result (λ p. IsOf p.look book.new.journal) }
    ensures decided { IfOk result (λ p. IsDecided p.look p.decision) }
    ensures seat { IfOk result (λ p. p.look.seat ≡ seat) }
{
    let Ok(look) = book.acquire(by(seat), 0) else {
        return Err(Fail::new("a lock that isn't free"));
    };
    let decision = decide(alloc, &look)?;
    Ok(Prepared { look, decision })
}

// The same while another's look stays a look.
fn overtaken(
    alloc: Global,
    book: &mut Book<SureKeeper>,
    seat: u32,
    first: &Prepared,
) -> Result<Prepared, Fail>
    requires looked { IsOf first.now.look book.old.journal }
    requires apart { first.now.look.seat ≢ seat }
    ensures looks { IfOk result (λ p. IsOf p.look book.new.journal) }
    ensures decided { IfOk result (λ p. IsDecided p.look p.decision) }
    ensures first { OnOk result (IsOf first.now.look book.new.journal) }
    ensures seat { IfOk result (λ p. p.look.seat ≡ seat) }
{
    let Ok(look) = book.acquire(by(seat), 0) else {
        return Err(Fail::new("a lock that isn't free"));
    };
    let _journal = book.journal();
    let decision = decide(alloc, &look)?;
    Ok(Prepared { look, decision })
}

// The clock goes on, and a look stays a look.
fn wait(book: &mut Book<SureKeeper>, ms: u64, first: &Prepared) -> Result<(), Fail>
    requires { IsOf first.now.look book.old.journal }
    ensures { OnOk result (IsOf first.now.look book.new.journal) }
{
    let Ok(()) = book.tick(by(0), ms) else {
        return Err(Fail::new("the clock's end"));
    };
    let _journal = book.journal();
    Ok(())
}

// The document is held, and nothing was changed.
fn held(book: &mut Book<SureKeeper>, seat: u32) -> Result<Busy, Fail>
    ensures { OnOk result (book.new ≡ book.old) }
{
    let Err(AcquireFault::Busy(busy)) = book.acquire(by(seat), 0) else {
        return Err(Fail::new("a lock that is free"));
    };
    Ok(busy)
}

// What a holder whose lock was taken over is told, where it would commit.
fn refused(book: &mut Book<SureKeeper>, prepared: Prepared) -> Option<Stale>
    requires looked { IsOf prepared.look book.old.journal }
    requires decided { IsDecided prepared.look prepared.decision }
{
    let seat = prepared.look.seat;
    match book.commit(by(seat), prepared) {
        Err(CommitFault::Stale(stale)) => Some(stale),
        _ => None,
    }
}

// A decision is committed, and the lock released: whether more waits. Another's look stays a look.
fn finished(book: &mut Book<SureKeeper>, prepared: Prepared, first: &Prepared) -> Option<bool>
    requires looked { IsOf prepared.look book.old.journal }
    requires decided { IsDecided prepared.look prepared.decision }
    requires first { IsOf first.now.look book.old.journal }
    requires apart { first.now.look.seat ≢ prepared.look.seat }
    ensures { IsOf first.now.look book.new.journal }
{
    let seat = prepared.look.seat;
    let doc = prepared.look.doc;
    let token = prepared.look.token;
    let Ok(()) = book.commit(by(seat), prepared) else {
        return None;
    };
    let _journal = book.journal();
    let Ok(more) = book.release(by(seat), doc, token) else {
        return None;
    };
    let _journal = book.journal();
    Some(more)
}

// The entry that tells what became of the update.
fn is_applied(book: &Book<SureKeeper>) -> bool {
    let Some(entry) = book.journal().get(6) else {
        return false;
    };
    matches!(
        &entry.act,
        Act::Committed {
            doc: 0,
            token: 2,
            ticket: 1,
            outcome: Outcome::Applied { v: 0, op: _ },
        }
    )
}

// The second holder commits, and the first is refused.
fn settled(
    book: &mut Book<SureKeeper>,
    first: Prepared,
    second: Prepared,
) -> (Option<Stale>, Option<bool>)
    requires first { IsOf first.look book.old.journal }
    requires decided { IsDecided first.look first.decision }
    requires second { IsOf second.look book.old.journal }
    requires second_decided { IsDecided second.look second.decision }
    requires apart { first.look.seat ≢ second.look.seat }
{
    let more = finished(book, second, &first);
    let stale = refused(book, first);
    (stale, more)
}

// One seat holds the document until its lock expires, and another takes it over.
fn taken_over(
    alloc: Global,
    book: &mut Book<SureKeeper>,
    first: Prepared,
) -> Result<(Busy, Option<Stale>, Option<bool>), Fail>
    requires looked { IsOf first.look book.old.journal }
    requires decided { IsDecided first.look first.decision }
    requires seat { first.look.seat ≡ 1 }
{
    wait(book, 29_999, &first)?;
    let busy = held(book, 2)?;
    wait(book, 1, &first)?;
    let second = overtaken(alloc, book, 2, &first)?;
    let (stale, more) = settled(book, first, second);
    Ok((busy, stale, more))
}

// What a takeover in an empty book comes to: by whom the document was held, why the first holder was refused, whether
// more waits, and whether the update is applied.
fn overtake(
    alloc: Global,
    book: &mut Book<SureKeeper>,
) -> Result<(Busy, Option<Stale>, Option<bool>, bool), Fail> {
    begin(alloc, book)?;
    let first = prepared(alloc, book, 1)?;
    let (busy, stale, more) = taken_over(alloc, book, first)?;
    let applied = is_applied(book);
    Ok((busy, stale, more, applied))
}

#[test]
fn an_expired_holder_commits_nothing(rt: HostRuntime) -> Result<(), Fail> {
    let alloc = rt.alloc();
    let Ok(mut book) = Book::new(alloc, SureKeeper::new(alloc), 0) else {
        return Err(Fail::new("no book"));
    };
    let (busy, stale, more, applied) = overtake(alloc, &mut book)?;
    assert!(rt; busy.token == 1 && busy.until == 30_000);
    assert!(rt; more == Some(false) && applied);
    assert!(rt; stale == Some(Stale::Other(2)));
    Ok(())
}

// Applies the update to the document of an empty book.
fn apply(alloc: Global, book: &mut Book<SureKeeper>) -> Result<(), Fail> {
    begin(alloc, book)?;
    let prepared = prepared(alloc, book, 0)?;
    let Ok(()) = book.commit(by(0), prepared) else {
        return Err(Fail::new("a token that doesn't stand"));
    };
    Ok(())
}

// How many items of the only project were handed out, and how many are left.
fn counts(book: &Book<SureKeeper>) -> Option<(u64, u64)> {
    if book.projects() != 1 {
        return None;
    }
    Some((book.history_handed(0), book.history_left(0)))
}

// Whether an item is what came of the update.
fn is_item(alloc: Global, item: &Item) -> Result<bool, Fail> {
    let op = insert(alloc)?;
    Ok(
        (item.doc, item.v, item.ms, item.length_before) == (0, 0, 0, 3)
            && item.user.as_str() == "u"
            && item.op.comps() == op.comps(),
    )
}

// Hands out so many, and whether so many came, all of the update, and so many came so far and are left.
fn hands_out(
    alloc: Global,
    book: &mut Book<SureKeeper>,
    n: u64,
    count: usize,
    counted: (u64, u64),
) -> Result<bool, Fail> {
    let project = name(alloc, "p")?;
    let items = book.hand_history(by(0), &project, n)?;
    for item in &items {
        if !is_item(alloc, item)? {
            return Ok(false);
        }
    }
    Ok(items.len() == count && counts(book) == Some(counted))
}

// Whether history comes out once: none of an unknown project, none where none is asked for, then all, and then none.
fn hands_out_once(alloc: Global, book: &mut Book<SureKeeper>) -> Result<bool, Fail> {
    apply(alloc, book)?;
    let unknown = name(alloc, "q")?;
    let unknown = book.hand_history(by(0), &unknown, 1);
    if !matches!(unknown, Err(HandFault::NoProject)) {
        return Ok(false);
    }
    Ok(
        hands_out(alloc, book, 0, 0, (0, 1))?
            && hands_out(alloc, book, 5, 1, (1, 0))?
            && hands_out(alloc, book, 5, 0, (1, 0))?,
    )
}

#[test]
fn history_is_handed_out_once(rt: HostRuntime) -> Result<(), Fail> {
    let alloc = rt.alloc();
    let Ok(mut book) = Book::new(alloc, SureKeeper::new(alloc), 0) else {
        return Err(Fail::new("no book"));
    };
    assert!(rt; hands_out_once(alloc, &mut book)?);
    assert_eq!(rt; book.journal().len(), 7);
    Ok(())
}
