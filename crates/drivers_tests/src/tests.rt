//! A driver does the lines of a script alone.

ghost use Rattle.std.specs.Prelude.{◌≡◌, ◌^◌, ◌-◌, ◌<◌, [], true, length, IfOk, All};
ghost use Rattle.std.specs.List.{list_all};
ghost use Rattle.script_driver.specs.Fitting.{AreFit, CanBeDriven};
ghost use Rattle.seat_turns.specs.Seats.{IsAtRest};
ghost use Rattle.drivers_tests.specs.Scripts.{IsOfOneDocument, is_of_a_session};

use board::Board;
use book::Book;
use drivers::{DriverDone, drive};
use history_queue::Item;
use journal_entries::Entry;
use keeper::SureKeeper;
use ot_text::doc_units;
use script_driver::make_documents;
use seat_turns::WorkerEnd;
use session_lines::{Line, Script, read_script};
use share_client::ShareClient;
use std::alloc::Global;
use std::marker::Brand;
use std::sync::Wait;
use std::test::Fail;
use wake_queue::{WakePass, WakeQueue};

// Session `s` sends an edit of its client, session `t` a raw update; `s` gets both, and hands out what was applied.
const SCRIPT: &str = r#"{"do":"doc","doc":"d","project":"p","text":"abc"}
{"do":"join","as":"s","doc":"d","user":"u"}
{"do":"ins","as":"s","p":1,"s":"X"}
{"do":"send","as":"s"}
{"do":"raw","as":"t","doc":"d","user":"w","v":0,"op":[{"i":"Y","p":0}]}
{"do":"sync","as":"s"}
{"do":"hand","as":"t","project":"p","n":5}
"#;

// What it comes to by the rules: the journal's entries, each with its seat and its line, where a ticket is the number of
// the entry that sent the update, from 0; how the driver ended, with a wake for each of the two lines that sent; the
// clients' texts; and who made what was handed out, for which version.
const TOLD: &str =
    r#"0 Some(1) Made { doc: 0, name: Name { text: "d" }, project: Name { text: "p" }, first: Units { units: [97, 98, 99] }, base: 0 }
1 Some(2) Joined { client: 0, doc: 0, user: Name { text: "u" }, track: false, since: None, source: 1000001, v: 0 }
1 Some(3) Edited { client: 0, comp: Ins(1, Units { units: [88] }) }
1 Some(4) Sent { update: Update { doc: 0, client: Some(0), number: 1, source: 1000001, dup: Sources { sources: [] }, user: Name { text: "u" }, track: false, ms: 0, v: 0, op: Op { comps: [Ins(1, Units { units: [88] })] } } }
1 Some(5) Sent { update: Update { doc: 0, client: None, number: 0, source: 0, dup: Sources { sources: [] }, user: Name { text: "w" }, track: false, ms: 0, v: 0, op: Op { comps: [Ins(0, Units { units: [89] })] } } }
1 Some(6) Acquired { doc: 0, token: 1, until: 30000 }
1 Some(6) Committed { doc: 0, token: 1, ticket: 3, outcome: Applied { v: 0, op: Op { comps: [Ins(1, Units { units: [88] })] } } }
1 Some(6) Released { doc: 0, token: 1 }
1 Some(6) Acquired { doc: 0, token: 2, until: 30000 }
1 Some(6) Committed { doc: 0, token: 2, ticket: 4, outcome: Applied { v: 1, op: Op { comps: [Ins(0, Units { units: [89] })] } } }
1 Some(6) Released { doc: 0, token: 2 }
1 Some(6) Got { client: 0, brief: Ack(0) }
1 Some(6) Got { client: 0, brief: Op(1) }
1 Some(7) Handed { project: Name { text: "p" }, count: 2 }
1 None Closed { driver: 0 }
Closed Some(0) Some(0) None
0 Units { units: [89, 97, 88, 98, 99] }
1 Units { units: [] }
u 0
w 1
"#;

// Whether a session does the line, and it is built.
fn is_done(line: &Line) -> bool
    ensures { result ≡ is_of_a_session line.now }
{
    line.session().is_some() && !matches!(line, Line::Unload { .. })
}

// Whether sessions do the lines, and each is built.
fn are_done(lines: &[Line]) -> bool
    ensures { result ≡ list_all is_of_a_session lines.now }
{
    lines.iter().all(|line| is_done(line))
}

// Whether the first line makes a document, and sessions do the others. They are few.
fn is_of_one_document(lines: &[Line]) -> bool
    ensures one { result ≡ true → IsOfOneDocument lines.now }
    ensures few { result ≡ true → length lines.now < 2 ^ 32 - 1 }
{
    if lines.len() > 1000 {
        return false;
    }
    match lines.split_first() {
        Some((first, rest)) => first.makes_document() && are_done(rest),
        None => false,
    }
}

// The script.
fn read(alloc: Global) -> Result<Script, Fail>
    ensures { IfOk result (λ script. CanBeDriven script.sessions script.lines) }
{
    let Ok(script) = read_script(alloc, SCRIPT.as_bytes()) else {
        return Err(Fail::new("no script"));
    };
    if !is_of_one_document(script.lines.as_slice()) {
        return Err(Fail::new("a script of other lines"));
    }
    Ok(script)
}

// The book with the script's document.
fn begun(alloc: Global, lines: &[Line]) -> Result<Book<SureKeeper>, Fail>
    requires fit { AreFit [] lines.now }
    requires few { length lines.now < 2 ^ 32 - 1 }
    ensures seat { IfOk result (λ book. All (λ e. e.seat ≡ 0) book.journal) }
    ensures drivers { IfOk result (λ book. book.drivers ≡ 1) }
{
    match make_documents(alloc, SureKeeper::new(alloc), 1, lines) {
        Ok(book) => Ok(book),
        Err(_) => Err(Fail::new("no document")),
    }
}

// The entries, one in a line.
fn tell_entries(alloc: Global, told: &mut String, entries: &[Entry]) -> Result<(), Fail> {
    for entry in entries {
        let (seat, line, act) = (entry.seat, entry.line, &entry.act);
        let line = format!(in alloc; "{seat} {line:?} {act:?}\n")?;
        told.push_str(line.as_str())?;
    }
    Ok(())
}

// How the driver ended, and the wakes that it left.
fn tell_end<R: Wait>(
    rt: &R,
    alloc: Global,
    told: &mut String,
    end: WorkerEnd,
    wakes: &WakeQueue<Brand>,
    pass: &mut WakePass<Brand>,
) -> Result<(), Fail>
    requires { pass.old.queue ≡ wakes.now }
{
    let first = wakes.pop(rt, pass);
    let second = wakes.pop(rt, pass);
    let third = wakes.pop(rt, pass);
    let line = format!(in alloc; "{end:?} {first:?} {second:?} {third:?}\n")?;
    told.push_str(line.as_str())?;
    Ok(())
}

// The clients' numbers and texts, one in a line.
fn tell_clients(alloc: Global, told: &mut String, clients: &[ShareClient]) -> Result<(), Fail> {
    for client in clients {
        let (number, text) = (client.client(), doc_units(alloc, client.text())?);
        let line = format!(in alloc; "{number} {text:?}\n")?;
        told.push_str(line.as_str())?;
    }
    Ok(())
}

// Who made the items, and for which version, one in a line.
fn tell_items(alloc: Global, told: &mut String, items: &[Item]) -> Result<(), Fail> {
    for item in items {
        let (user, v) = (item.user.as_str(), item.v);
        let line = format!(in alloc; "{user} {v}\n")?;
        told.push_str(line.as_str())?;
    }
    Ok(())
}

// The driver's course on a board with a book, told.
fn drive_on<R: Wait>(
    rt: &R,
    alloc: Global,
    told: &mut String,
    book: Book<SureKeeper>,
    wakes: &WakeQueue<Brand>,
    pass: WakePass<Brand>,
    lines: Vec<Line>,
    sessions: u32,
) -> Result<(), Fail>
    requires made { All (λ e. e.seat ≡ 0) book.journal }
    requires drivers { book.drivers ≡ 1 }
    requires pass { pass.queue ≡ wakes.now }
    requires lines { CanBeDriven sessions lines.items }
{
    let (board, mut first) = Board::new(alloc, book).map_err(|refused| refused.0)?;
    let seat = board.split(&mut first)?;
    let DriverDone {
        end,
        seat,
        mut pass,
        clients,
        handed,
    } = drive(rt, alloc, &board, seat, wakes, pass, lines, sessions);
    board.join(&mut first, seat);
    let book = board.close(first);
    tell_entries(alloc, told, book.journal().as_slice())?;
    tell_end(rt, alloc, told, end, wakes, &mut pass)?;
    tell_clients(alloc, told, clients.as_slice())?;
    tell_items(alloc, told, handed.as_slice())
}

#[test]
fn a_driver_does_its_lines(rt: HostRuntime) -> Result<(), Fail> {
    let alloc = rt.alloc();
    let mut told = String::new(alloc);
    let (wakes, pass) = WakeQueue::<Brand>::new(&rt, alloc)?;
    let script = read(alloc)?;
    let book = begun(alloc, script.lines.as_slice())?;
    drive_on(
        &rt,
        alloc,
        &mut told,
        book,
        &wakes,
        pass,
        script.lines.into_vec(),
        script.sessions,
    )?;
    assert_eq!(rt; told.as_str(), TOLD);
    Ok(())
}
