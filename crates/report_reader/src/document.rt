//! Reading a document at the end.

ghost use Rattle.report_reader.specs.Documents.{change_kind, change_of, comment_of, document_of, id_of};
ghost use Rattle.report_reader.specs.Fields.{and_then, each_at, number_of};
ghost use Rattle.report_reader.specs.Refused.{Reads};
ghost use Rattle.json_lines.specs.Reading.{text_at};
ghost use Rattle.serde_json.specs.View.{view};
ghost use Rattle.std.specs.Prelude.{codes};

use crate::element::{Element, elements};
use crate::fields::{name, number, number_or_null, small_number, text, units};
use crate::refusal::Refusal;
use ranges_tracker::{Change, ChangeKind, Comment, Ranges};
use report_text::DocEnd;
use serde_json::Value;
use std::alloc::Global;

/// The document that a line shows.
pub(crate) fn read_document(alloc: Global, value: &Value) -> Result<DocEnd, Refusal>
    ensures { Reads result (document_of (view value.now)) }
{
    let b = small_number(value, "b")?;
    let doc = small_number(value, "doc")?;
    let kept = number_or_null(value, "kept")?;
    let name = name(alloc, value, "name")?;
    let changes: Vec<Change> = elements(alloc, value, "changes")?;
    let comments: Vec<Comment> = elements(alloc, value, "comments")?;
    let text = units(alloc, value, "text")?;
    let v = number(value, "v")?;
    Ok(DocEnd {
        b,
        doc,
        kept,
        name,
        ranges: Ranges::of(changes, comments),
        text,
        v,
    })
}

impl Element for Change {
    ghost meaning = { change_of };

    fn read(alloc: Global, value: &Value) -> Result<Change, Refusal> {
        let (version, k) = read_id(alloc, value)?;
        let at = small_number(value, "at")?;
        let kind = read_change_kind(value)?;
        let text = units(alloc, value, "text")?;
        let user = name(alloc, value, "user")?;
        let ms = number(value, "ms")?;
        Ok(Change {
            version,
            k,
            at,
            kind,
            text,
            user,
            ms,
        })
    }
}

impl Element for Comment {
    ghost meaning = { comment_of };

    fn read(alloc: Global, value: &Value) -> Result<Comment, Refusal> {
        let thread = small_number(value, "t")?;
        let at = small_number(value, "at")?;
        let text = units(alloc, value, "text")?;
        Ok(Comment { thread, at, text })
    }
}

// The version and the number of a change's mark.
fn read_id(alloc: Global, value: &Value) -> Result<(u64, u32), Refusal>
    ensures { Reads result (and_then (each_at number_of (codes "id") (view value.now)) id_of) }
{
    let id: Vec<u64> = elements(alloc, value, "id")?;
    match id.as_slice() {
        [version, k] if *k <= u32::MAX as u64 => Ok((*version, *k as u32)),
        _ => Err(Refusal::Outside),
    }
}

fn read_change_kind(value: &Value) -> Result<ChangeKind, Refusal>
    ensures { Reads result (and_then (text_at (codes "kind") (view value.now)) change_kind) }
{
    let name = text(value, "kind")?;
    if name == "ins" {
        return Ok(ChangeKind::Inserted);
    }
    if name == "del" {
        return Ok(ChangeKind::Deleted);
    }
    Err(Refusal::Outside)
}
