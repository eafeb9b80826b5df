//! How a run ends: by faulty words, a failed read, too long an input, a faulty line, want of memory, or a journal to report.

ghost use Rattle.std.specs.Prelude.{◌≡◌, ◌≤◌, ◌<◌, ◌↔◌, ◌*◌, ◌+◌, ◌++◌, [], codes, length, position, not, sum_by, IsTrue, IfOk, IfSome, OnOk, Some, string_bytes};
ghost use Rattle.std.specs.Fmt.{decimal};
ghost use Rattle.session_lines.specs.Script.{script_of};
ghost use Rattle.session_lines.specs.Standing.{AreBySessions, AreSlow};
ghost use Rattle.ending_rules.specs.Ended.{HasEnded};
ghost use Rattle.journal_rules.specs.Legal.{IsLegal};
ghost use Rattle.run_rules.specs.Completing.{has_flush_failed_at_end, is_flush_failed_at_end as is_flush_failed_at_end_lem};
ghost use Rattle.run_rules.specs.Follows.{Follows};
ghost use Rattle.session_runner.specs.Ending.{AreRun, CanBeTold, EndsAs, Explains, GivesBack, HasKeeper, IsTextTold, IsTold, fault_in, fault_text, first_unbuilt as first_unbuilt_lem, line_text, status_by};
ghost use Rattle.book.specs.Going.{GoesOn};
ghost use Rattle.script_driver.specs.Handing.{items_handed};
ghost use Rattle.script_driver.specs.Holding.{empty_book};
ghost use Rattle.script_driver.specs.Fitting.{AreBuilt, AreFit, is_built as is_built_lem};
ghost use Rattle.session_runner.specs.Passing.{passed};
ghost use Rattle.script_driver.specs.Clients.{AreClientsOf};

use crate::report::{WriteFault, write_report};
use book::Book;
use history_queue::Item;
use journal_entries::{Act, Entry};
use keeper::Keeper;
use run_end::end_run;
use script_driver::{Left, do_lines};
use session_lines::{Line, Names, Script, ScriptFault, read_script};
use share_client::ShareClient;
use source_sink::{ReadFault, Sink, Source, read_all, write_all};
use std::alloc::{AllocError, Global};

/// The first line of an input that can't be done, numbered from 1.
#[derive(Clone, Copy, Drop)]
pub(crate) enum LineFault {
    /// It is no JSON value.
    Json(u64),
    /// It isn't of the form of its command.
    Form(u64),
    /// It names no command.
    Unknown(u64),
    /// Its command isn't built yet.
    Unbuilt(u64),
}

/// How a run ends before anything is written, with its keeper.
#[derive(Drop)]
pub(crate) enum Ending<K: Keeper> {
    Words(K),
    Read(K),
    Long(K),
    Memory(K),
    Script(LineFault, K),
    Done(Run<K>),
}

/// A run that was done: its book, its sessions' clients and names, by their numbers, and what was handed
/// out of the projects' histories, in order.
#[derive(Drop)]
pub(crate) struct Run<K: Keeper> {
    pub book: Book<K>,
    pub clients: Vec<ShareClient>,
    pub names: Names,
    pub handed: Vec<Item>,
}

/// Reads the input, where the words are in form, and does its lines over a keeper.
pub(crate) fn prepare<S: Source, K: Keeper>(
    alloc: Global,
    words: &[String],
    input: &mut S,
    keeper: K,
) -> Ending<K>
    ensures explains { Explains words.now (passed S.left S.count input.old input.new) result }
    ensures keeper { HasKeeper K.tells K.documents K.count keeper result }
{
    if !are_run(words) {
        return Ending::Words(keeper);
    }
    match read_all(alloc, input) {
        Ok(bytes) => ending_of(alloc, &bytes, keeper),
        Err(ReadFault::Failed) => Ending::Read(keeper),
        Err(ReadFault::TooLong) => Ending::Long(keeper),
        Err(ReadFault::Memory) => Ending::Memory(keeper),
    }
}

// Whether the words are the one word `run`.
fn are_run(words: &[String]) -> bool
    ensures { IsTrue result ↔ AreRun words.now }
{
    match words {
        [word] => word.as_str() == "run",
        _ => false,
    }
}

fn ending_of<K: Keeper>(alloc: Global, bytes: &[u8], keeper: K) -> Ending<K>
    requires { length bytes.now ≤ 16777216 }
    ensures ends { EndsAs bytes.now result }
    ensures keeper { HasKeeper K.tells K.documents K.count keeper result }
{
    let script = match read_script(alloc, bytes) {
        Ok(script) => script,
        Err(ScriptFault::Json(n)) => return Ending::Script(LineFault::Json(n), keeper),
        Err(ScriptFault::Form(n)) => return Ending::Script(LineFault::Form(n), keeper),
        Err(ScriptFault::Unknown(n)) => return Ending::Script(LineFault::Unknown(n), keeper),
        Err(ScriptFault::Memory) => return Ending::Memory(keeper),
    };
    if let Some(n) = first_unbuilt(script.lines.as_slice()) {
        return Ending::Script(LineFault::Unbuilt(n), keeper);
    }
    let Script {
        lines,
        sessions,
        names,
    } = script;
    match run_lines(alloc, keeper, lines.into_vec(), sessions) {
        Ok(
            Left {
                book,
                clients,
                handed,
            },
        ) => Ending::Done(Run {
            book,
            clients,
            names,
            handed,
        }),
        Err(keeper) => Ending::Memory(keeper),
    }
}

// The first line of a command that isn't built, from 1.
fn first_unbuilt(lines: &[Line]) -> Option<u64>
    ensures { result ≡ first_unbuilt_lem lines.now }
{
    match unbuilt_place(lines) {
        Some(before) => Some(before as u64 + 1),
        None => None,
    }
}

fn unbuilt_place(lines: &[Line]) -> Option<usize>
    ensures place { result ≡ position (λ l. not (is_built_lem l)) lines.now }
    ensures within { IfSome result (λ k. k < length lines.now) }
{
    lines.iter().position(|line| !is_built(line))
}

fn is_built(line: &Line) -> bool
    ensures { result ≡ is_built_lem line.now }
{
    matches!(
        line,
        Line::Doc { .. }
            | Line::Tick { .. }
            | Line::Raw { .. }
            | Line::Join { .. }
            | Line::Rejoin { .. }
            | Line::Leave { .. }
            | Line::Send { .. }
            | Line::Resend { .. }
            | Line::Recv { .. }
            | Line::Ins { .. }
            | Line::Del { .. }
            | Line::Com { .. }
            | Line::Sync { .. }
            | Line::Drain { .. }
            | Line::Flush { .. }
            | Line::Hold { .. }
            | Line::Finish { .. }
            | Line::Hand { .. }
    )
}

fn run_lines<K: Keeper>(
    alloc: Global,
    keeper: K,
    lines: Vec<Line>,
    sessions: u32,
) -> Result<Left<K>, K>
    requires fit { AreFit [] lines.items }
    requires built { AreBuilt lines.items }
    requires numbered { AreBySessions sessions lines.items }
    requires slow { AreSlow 16777216 lines.items }
    requires few { length lines.items ≤ 16777216 }
    ensures legal { IfOk result (λ left. IsLegal left.book.journal) }
    ensures follows { IfOk result (λ left. Follows lines.items sessions left.book.journal) }
    ensures ended { IfOk result (λ left. HasEnded left.book.journal) }
    ensures clients { IfOk result (λ left. AreClientsOf left.clients.items left.book.journal) }
    ensures many { IfOk result (λ left. length left.clients.items ≡ sessions) }
    ensures handed { IfOk result (λ left. left.handed.items ≡ items_handed left.book.journal) }
    ensures goes_on { IfOk result (λ left. GoesOn K.tells (empty_book (K.documents keeper) (K.count keeper)) left.book) }
{
    let Left {
        mut book,
        mut clients,
        handed,
    } = do_lines(alloc, keeper, lines, sessions)?;
    let Ok(()) = end_run(alloc, &mut book, &mut clients) else {
        return Err(book.ended().0);
    };
    book.legal();
    Ok(Left {
        book,
        clients,
        handed,
    })
}

/// Writes what the ending says, and gives the status.
pub(crate) fn tell<W: Sink, K: Keeper>(alloc: Global, out: &mut W, ending: &Ending<K>) -> u8
    requires { CanBeTold ending.now }
    ensures { IsTold (passed W.written W.count out.old out.new) ending.now result }
{
    match ending {
        Ending::Words(_) => tell_text(out, 2, b"fault: words\n"),
        Ending::Read(_) => tell_text(out, 5, b"fault: read\n"),
        Ending::Long(_) => tell_text(out, 8, b"fault: input longer than 16777216\n"),
        Ending::Memory(_) => 4,
        Ending::Script(fault, _) => match text_of_fault(alloc, *fault) {
            Ok(text) => tell_text(out, 3, text.as_bytes()),
            Err(_) => 4,
        },
        Ending::Done(run) => match write_report(alloc, run, out) {
            Ok(()) => run_status(&run.book),
            Err(WriteFault::Failed) => 6,
            Err(WriteFault::Memory) => 4,
        },
    }
}

// The status of a run whose report was written: 7 where a flush at its end failed, and else 0.
fn run_status<K: Keeper>(book: &Book<K>) -> u8
    ensures { result ≡ status_by (has_flush_failed_at_end book.now.journal) }
{
    if has_failed(book.journal().as_slice()) {
        7
    } else {
        0
    }
}

// Whether a flush at the end of a run failed.
fn has_failed(journal: &[Entry]) -> bool
    ensures { result ≡ has_flush_failed_at_end journal.now }
{
    journal.iter().any(|entry| is_flush_failed_at_end(entry))
}

// Whether an entry is a flush at the end of a run, by seat 0 for no line, that failed.
fn is_flush_failed_at_end(entry: &Entry) -> bool
    ensures { result ≡ is_flush_failed_at_end_lem entry.now }
{
    entry.line.is_none() && entry.seat == 0 && matches!(entry.act, Act::FlushFailed { .. })
}

impl<K: Keeper> Ending<K> {
    /// The keeper, once all is told.
    pub(crate) fn into_keeper(self) -> K
        ensures { GivesBack K.tells K.documents K.count self result }
    {
        match self {
            Ending::Words(keeper) => keeper,
            Ending::Read(keeper) => keeper,
            Ending::Long(keeper) => keeper,
            Ending::Memory(keeper) => keeper,
            Ending::Script(_, keeper) => keeper,
            Ending::Done(run) => run.book.ended().0,
        }
    }
}

// Writes a text and gives its status, or 6 where the sink failed.
fn tell_text<W: Sink>(out: &mut W, status: u8, text: &[u8]) -> u8
    ensures { IsTextTold (passed W.written W.count out.old out.new) status text.now result }
{
    match write_all(out, text) {
        Ok(()) => status,
        Err(_) => 6,
    }
}

fn text_of_fault(alloc: Global, fault: LineFault) -> Result<String, AllocError>
    ensures { IfOk result (λ text. string_bytes text ≡ fault_text fault) }
{
    match fault {
        LineFault::Json(n) => text_of_line(alloc, n, "json"),
        LineFault::Form(n) => text_of_line(alloc, n, "form"),
        LineFault::Unknown(n) => text_of_line(alloc, n, "unknown"),
        LineFault::Unbuilt(n) => text_of_line(alloc, n, "unbuilt"),
    }
}

fn text_of_line(alloc: Global, n: u64, kind: &str) -> Result<String, AllocError>
    ensures { IfOk result (λ text. string_bytes text ≡ line_text n kind.now) }
{
    let mut text = String::from_str(alloc, "fault: line ")?;
    text.push_str(n.to_string(alloc)?.as_str())?;
    text.push_str(" ")?;
    text.push_str(kind)?;
    text.push_str("\n")?;
    Ok(text)
}
