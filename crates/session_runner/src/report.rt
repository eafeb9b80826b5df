//! The report of a journal: a line for each entry, then a line for each document, then one for each
//! client that ever joined, and then one for each project.

ghost use Rattle.std.specs.Prelude.{◌≡◌, ◌<◌, ◌^◌, ◌++◌, ℕ, List, [], Option, Some, length, slice_get, IfOk};
ghost use Rattle.source_sink.specs.Buffered.{Delivered};
ghost use Rattle.source_sink.specs.Causes.{HasCauseOf};
ghost use Rattle.source_sink.specs.Outside.{Wrote};
ghost use Rattle.journal_rules.specs.Documents.{IsMade, makings};
ghost use Rattle.journal_rules.specs.Legal.{IsLegal};
ghost use Rattle.session_runner.specs.Report.{document_line as document_line_lem, document_lines, report_of};
ghost use Rattle.script_driver.specs.Handing.{handed_count as handed_count_lem, items_handed};
ghost use Rattle.session_runner.specs.Writing.{Pushed};
ghost use Rattle.script_driver.specs.Clients.{AreClientsOf};
ghost use Rattle.run_rules.specs.Report.{client_line_of, client_lines, entry_lines, end_state as end_state_lem, project_line as project_line_lem, project_lines, shown_text};
ghost use Rattle.project_histories.specs.Handing.{projects_of};

use crate::ending::Run;
use book::Book;
use history_queue::Item;
use journal_entries::{Act, Entry};
use journal_rules::ClientState;
use keeper::Keeper;
use ot_op::Op;
use ot_text::doc_units;
use ot_units::{Name, Units};
use report_text::{
    ClientEnd, DocEnd, EndState, ProjectEnd, append_entry_line, client_line, doc_line, project_line,
};
use share_client::ShareClient;
use source_sink::{Failed, Sink, WriteBuffer};
use std::alloc::{AllocError, Global};

/// Why a report was not written whole.
#[derive(Clone, Copy, Drop)]
pub(crate) enum WriteFault {
    Failed,
    Memory,
}

impl From<Failed> for WriteFault {
    ghost use Rattle.session_runner.specs.declared.report.WriteFault.TheVariants.{Failed as SinkFailed};

    ghost from_gives = { λ _ fault. fault ≡ SinkFailed };

    fn from(_: Failed) -> WriteFault {
        WriteFault::Failed
    }
}

impl From<AllocError> for WriteFault {
    ghost use Rattle.session_runner.specs.declared.report.WriteFault.TheVariants.{Memory as NoMemory};

    ghost from_gives = { λ _ fault. fault ≡ NoMemory };

    fn from(_: AllocError) -> WriteFault {
        WriteFault::Memory
    }
}

/// Writes the report line by line. Its memory doesn't grow with the report.
pub(crate) fn write_report<W: Sink, K: Keeper>(
    alloc: Global,
    run: &Run<K>,
    out: &mut W,
) -> Result<(), WriteFault>
    requires clients { AreClientsOf run.now.clients.items run.now.book.journal }
    requires many { length run.now.clients.items ≡ length run.now.names }
    requires few { length run.now.names < 2 ^ 32 }
    requires handed { run.now.handed.items ≡ items_handed run.now.book.journal }
    ensures wrote { Wrote (W.written out.old) (W.written out.new) (report_of run.now.names run.now.book.journal) result }
    ensures cause { HasCauseOf (W.count out.old) (W.count out.new) result WriteFault.Failed }
{
    let mut buffer = WriteBuffer::new(alloc)?;
    write_lines(alloc, run, &mut buffer, out)?;
    buffer.flush(out)?;
    Ok(())
}

fn write_lines<W: Sink, K: Keeper>(
    alloc: Global,
    run: &Run<K>,
    buffer: &mut WriteBuffer,
    out: &mut W,
) -> Result<(), WriteFault>
    requires clients { AreClientsOf run.now.clients.items run.now.book.journal }
    requires many { length run.now.clients.items ≡ length run.now.names }
    requires few { length run.now.names < 2 ^ 32 }
    requires handed { run.now.handed.items ≡ items_handed run.now.book.journal }
    ensures pushed { (start : Option (List ℕ)) (text : List ℕ) → Delivered start (W.written out.old) buffer.old text
        → Pushed start (W.written out.new) buffer.new (text ++ report_of run.now.names run.now.book.journal) result }
    ensures cause { HasCauseOf (W.count out.old) (W.count out.new) result WriteFault.Failed }
{
    write_entries(
        alloc,
        run.book.journal().as_slice(),
        &run.handed,
        buffer,
        out,
    )?;
    write_documents(alloc, &run.book, buffer, out)?;
    write_clients(alloc, run, buffer, out)?;
    write_projects(alloc, &run.book, buffer, out)
}

// Each entry that hands history out takes its items from the front of those that are left.
fn write_entries<W: Sink>(
    alloc: Global,
    journal: &[Entry],
    handed: &[Item],
    buffer: &mut WriteBuffer,
    out: &mut W,
) -> Result<(), WriteFault>
    requires legal { IsLegal journal.now }
    requires handed { handed.now ≡ items_handed journal.now }
    ensures pushed { (start : Option (List ℕ)) (text : List ℕ) → Delivered start (W.written out.old) buffer.old text
        → Pushed start (W.written out.new) buffer.new (text ++ entry_lines [] journal.now) result }
    ensures cause { HasCauseOf (W.count out.old) (W.count out.new) result WriteFault.Failed }
{
    let mut line = Vec::new(alloc);
    let mut left = handed;
    for (n, entry) in journal.iter().enumerate() {
        let (items, behind) = left.split_at(handed_count(&entry.act));
        let made = append_entry_line(alloc, line, 0, n as u64, entry, items);
        line = write_line(made, buffer, out)?;
        left = behind;
    }
    Ok(())
}

// How many items an act hands out.
fn handed_count(act: &Act) -> usize
    ensures { result ≡ handed_count_lem act.now }
{
    match act {
        Act::Handed { count, .. } => *count as usize,
        _ => 0,
    }
}

fn write_documents<W: Sink, K: Keeper>(
    alloc: Global,
    book: &Book<K>,
    buffer: &mut WriteBuffer,
    out: &mut W,
) -> Result<(), WriteFault>
    ensures pushed { (start : Option (List ℕ)) (text : List ℕ) → Delivered start (W.written out.old) buffer.old text
        → Pushed start (W.written out.new) buffer.new (text ++ document_lines (length (makings book.now.journal)) book.now.journal) result }
    ensures cause { HasCauseOf (W.count out.old) (W.count out.new) result WriteFault.Failed }
{
    let docs = book.docs();
    for doc in 0..docs {
        write_line(document_line(alloc, book, doc), buffer, out)?;
    }
    Ok(())
}

fn write_clients<W: Sink, K: Keeper>(
    alloc: Global,
    run: &Run<K>,
    buffer: &mut WriteBuffer,
    out: &mut W,
) -> Result<(), WriteFault>
    requires clients { AreClientsOf run.now.clients.items run.now.book.journal }
    requires many { length run.now.clients.items ≡ length run.now.names }
    requires few { length run.now.names < 2 ^ 32 }
    ensures pushed { (start : Option (List ℕ)) (text : List ℕ) → Delivered start (W.written out.old) buffer.old text
        → Pushed start (W.written out.new) buffer.new (text ++ client_lines 0 run.now.names run.now.book.journal) result }
    ensures cause { HasCauseOf (W.count out.old) (W.count out.new) result WriteFault.Failed }
{
    for (n, name) in run.names.as_slice().iter().enumerate() {
        let Some(client) = run.clients.get(n) else {
            unreachable!()
        };
        write_line(line_of_client(alloc, n as u32, name, client), buffer, out)?;
    }
    Ok(())
}

fn write_projects<W: Sink, K: Keeper>(
    alloc: Global,
    book: &Book<K>,
    buffer: &mut WriteBuffer,
    out: &mut W,
) -> Result<(), WriteFault>
    ensures pushed { (start : Option (List ℕ)) (text : List ℕ) → Delivered start (W.written out.old) buffer.old text
        → Pushed start (W.written out.new) buffer.new (text ++ project_lines book.now.journal) result }
    ensures cause { HasCauseOf (W.count out.old) (W.count out.new) result WriteFault.Failed }
{
    let projects = book.projects();
    for place in 0..projects {
        write_line(line_of_project(alloc, book, place), buffer, out)?;
    }
    Ok(())
}

// Hands a line on, and gives its memory back for the next one.
fn write_line<W: Sink>(
    line: Result<Vec<u8>, AllocError>,
    buffer: &mut WriteBuffer,
    out: &mut W,
) -> Result<Vec<u8>, WriteFault>
    ensures emptied { IfOk result (λ line. line.items ≡ []) }
    ensures pushed { (start : Option (List ℕ)) (text bytes : List ℕ) → IfOk line (λ made. made.items ≡ bytes) → Delivered start (W.written out.old) buffer.old text
        → Pushed start (W.written out.new) buffer.new (text ++ bytes) result }
    ensures cause { HasCauseOf (W.count out.old) (W.count out.new) result WriteFault.Failed }
{
    match line {
        Ok(mut line) => {
            buffer.push(out, &line)?;
            line.clear();
            Ok(line)
        }
        Err(_) => Err(WriteFault::Memory),
    }
}

// The line of a document at the end, under its number.
fn document_line<K: Keeper>(alloc: Global, book: &Book<K>, doc: u32) -> Result<Vec<u8>, AllocError>
    requires { IsMade doc book.now.journal }
    ensures { IfOk result (λ bytes. bytes.items ≡ document_line_lem doc book.now.journal) }
{
    doc_line(
        alloc,
        &DocEnd {
            b: 0,
            doc,
            kept: book.kept(doc),
            name: book.name(doc).copy(alloc)?,
            ranges: book.ranges(doc).copy(alloc)?,
            text: doc_units(alloc, book.text(doc))?,
            v: book.version(doc),
        },
    )
}

// The line of a project at the end, by its place in the order in which they first appear.
fn line_of_project<K: Keeper>(
    alloc: Global,
    book: &Book<K>,
    place: usize,
) -> Result<Vec<u8>, AllocError>
    requires { place < length (projects_of book.now.journal) }
    ensures { IfOk result (λ bytes. (project : List ℕ) → slice_get (projects_of book.now.journal) place ≡ Some project → bytes.items ≡ project_line_lem project book.now.journal) }
{
    project_line(
        alloc,
        &ProjectEnd {
            b: 0,
            handed: book.history_handed(place),
            left: book.history_left(place),
            project: book.project(place).copy(alloc)?,
        },
    )
}

// The line of a client that ever joined, under its session's name; nothing of one that never did.
fn line_of_client(
    alloc: Global,
    number: u32,
    name: &Name,
    client: &ShareClient,
) -> Result<Vec<u8>, AllocError>
    ensures { IfOk result (λ bytes. bytes.items ≡ client_line_of number name.now client.now.now (end_state_lem client.now.now.state)) }
{
    let (Some(state), Some(doc)) = (end_state(client.state()), client.doc()) else {
        return Ok(Vec::new(alloc));
    };
    client_line(
        alloc,
        &ClientEnd {
            b: 0,
            client: number,
            doc,
            flight: flight_of(alloc, client)?,
            name: name.copy(alloc)?,
            pending: client.pending().copy(alloc)?,
            state,
            text: text_shown(alloc, state, client)?,
            v: client.version(),
        },
    )
}

fn end_state(state: ClientState) -> Option<EndState>
    ensures { result ≡ end_state_lem state }
{
    match state {
        ClientState::Away => None,
        ClientState::Joined => Some(EndState::Joined),
        ClientState::Left => Some(EndState::Left),
        ClientState::Stale => Some(EndState::Stale),
    }
}

fn flight_of(alloc: Global, client: &ShareClient) -> Result<Option<Op>, AllocError>
    ensures { IfOk result (λ flight. flight ≡ client.now.now.flight) }
{
    match client.flight() {
        Some(op) => Ok(Some(op.copy(alloc)?)),
        None => Ok(None),
    }
}

// The text that a client shows, and none of one that is stale.
fn text_shown(
    alloc: Global,
    state: EndState,
    client: &ShareClient,
) -> Result<Option<Units>, AllocError>
    ensures { IfOk result (λ text. text ≡ shown_text state client.now.now.text) }
{
    match state {
        EndState::Stale => Ok(None),
        EndState::Joined => Ok(Some(doc_units(alloc, client.text())?)),
        EndState::Left => Ok(Some(doc_units(alloc, client.text())?)),
    }
}
