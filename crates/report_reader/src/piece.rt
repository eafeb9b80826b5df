//! Reading one line.

ghost use Rattle.json_lines.specs.Lines.{value_of};
ghost use Rattle.json_lines.specs.Object.{line_of};
ghost use Rattle.report_reader.specs.Fields.{and_then};
ghost use Rattle.report_reader.specs.Pieces.{piece_members, piece_of, shown_as, shown_by};
ghost use Rattle.report_reader.specs.Refused.{Reads};
ghost use Rattle.serde_json.specs.View.{view};
ghost use Rattle.std.specs.Prelude.{◌≡◌, ◌∷◌, ◌++◌, [], ℕ, List, IfOk};
ghost use Rattle.std.specs.Str.{bytes_eq};

use crate::client::read_client;
use crate::document::read_document;
use crate::entry::{EntryLine, read_entry};
use crate::kind::{LineKind, read_kind};
use crate::project::read_project;
use crate::refusal::Refusal;
use json_lines::read_value;
use report_text::{ClientEnd, DocEnd, ProjectEnd, client_line, doc_line, entry_line, project_line};
use serde_json::Value;
use std::alloc::{AllocError, Global};

/// What a line shows.
#[derive(Drop)]
pub(crate) enum Piece {
    Entry(EntryLine),
    Document(DocEnd),
    Client(ClientEnd),
    Project(ProjectEnd),
}

/// What a line shows, given without its line feed. Each line is exactly the one that would be written
/// of what it shows.
pub(crate) fn read_piece(alloc: Global, line: &[u8]) -> Result<Piece, Refusal>
    ensures { Reads result (piece_of line.now) }
{
    let piece = read_shown(alloc, line)?;
    let written = write_piece(alloc, &piece)?;
    if !is_line(&written, line) {
        return Err(Refusal::Outside);
    }
    Ok(piece)
}

fn read_shown(alloc: Global, line: &[u8]) -> Result<Piece, Refusal>
    ensures { Reads result (and_then (value_of line.now) shown_by) }
{
    let value = read_value(alloc, line)?.ok_or(Refusal::Outside)?;
    let kind = read_kind(&value)?;
    read_as(alloc, kind, &value)
}

fn read_as(alloc: Global, kind: LineKind, value: &Value) -> Result<Piece, Refusal>
    ensures { Reads result (shown_as (view value.now) kind) }
{
    match kind {
        LineKind::Entry(act) => Ok(Piece::Entry(read_entry(alloc, act, value)?)),
        LineKind::Document => Ok(Piece::Document(read_document(alloc, value)?)),
        LineKind::Client => Ok(Piece::Client(read_client(alloc, value)?)),
        LineKind::Project => Ok(Piece::Project(read_project(alloc, value)?)),
    }
}

fn write_piece(alloc: Global, piece: &Piece) -> Result<Vec<u8>, AllocError>
    ensures { IfOk result (λ bytes. bytes.items ≡ line_of (piece_members piece.now)) }
{
    match piece {
        Piece::Entry(e) => entry_line(alloc, e.board, e.n, &e.entry, e.items.as_slice()),
        Piece::Document(end) => doc_line(alloc, end),
        Piece::Client(end) => client_line(alloc, end),
        Piece::Project(end) => project_line(alloc, end),
    }
}

// Whether what was written is a line and its line feed.
fn is_line(written: &[u8], line: &[u8]) -> bool
    ensures { (text : List ℕ) → written.now ≡ text ++ 10 ∷ [] → result ≡ bytes_eq line.now text }
{
    match written.split_last() {
        Some((_, text)) => line == text,
        None => false,
    }
}
