//! The line of a document at the end.

ghost use Rattle.std.specs.Prelude.{◌≡◌, IfOk, false};
ghost use Rattle.serde_json.specs.Data.{object as object_data};
ghost use Rattle.serde_json.specs.View.{view};
ghost use Rattle.serde_json.specs.Written.{has_float};
ghost use Rattle.json_lines.specs.Object.{line_of};
ghost use Rattle.report_text.specs.Documents.{change_members, changes_data, comment_members, comments_data, document_members, kind_name as kind_name_lem};

use crate::values::put_numbers;
use json_lines::Object;
use ot_units::{Name, Units};
use ranges_tracker::{Change, ChangeKind, Comment, Ranges};
use serde_json::Value;
use std::alloc::{AllocError, Global};

/// A document at the end of a run: its text, tracked changes and comments at its version.
#[derive(Debug, Drop)]
pub struct DocEnd {
    /// The number of its board.
    pub b: u32,
    /// Its own number.
    pub doc: u32,
    /// The version that was flushed last, if one was.
    pub kept: Option<u64>,
    pub name: Name,
    pub ranges: Ranges,
    pub text: Units,
    pub v: u64,
}

/// The line of a document at the end.
pub fn doc_line(alloc: Global, end: &DocEnd) -> Result<Vec<u8>, AllocError>
    ensures { IfOk result (λ bytes. bytes.items ≡ line_of (document_members end.now)) }
{
    let text = end.text.to_text(alloc)?;
    let changes = changes_value(alloc, end.ranges.changes())?;
    let comments = comments_value(alloc, end.ranges.comments())?;
    let mut object = Object::new(alloc);
    object.set_number("b", end.b as u64)?;
    object.set("changes", changes)?;
    object.set("comments", comments)?;
    object.set_number("doc", end.doc as u64)?;
    object.set_text("e", "doc")?;
    object.set_optional("kept", end.kept)?;
    object.set_text("name", end.name.as_str())?;
    object.set_text("text", text.as_str())?;
    object.set_number("v", end.v)?;
    object.line()
}

fn changes_value(alloc: Global, changes: &[Change]) -> Result<Value, AllocError>
    ensures data { IfOk result (λ value. view value ≡ changes_data changes.now) }
    ensures plain { IfOk result (λ value. has_float (view value) ≡ false) }
{
    let mut values = Vec::new(alloc);
    for change in changes {
        values.push(change_value(alloc, change)?)?;
    }
    Ok(Value::Array(values))
}

fn change_value(alloc: Global, change: &Change) -> Result<Value, AllocError>
    ensures data { IfOk result (λ value. view value ≡ object_data (change_members change.now)) }
    ensures plain { IfOk result (λ value. has_float (view value) ≡ false) }
{
    let text = change.text.to_text(alloc)?;
    let id = [change.version, change.k as u64];
    let mut object = Object::new(alloc);
    object.set_number("at", change.at as u64)?;
    put_numbers(&mut object, "id", &id)?;
    object.set_text("kind", kind_name(change.kind))?;
    object.set_number("ms", change.ms)?;
    object.set_text("text", text.as_str())?;
    object.set_text("user", change.user.as_str())?;
    Ok(object.value())
}

fn kind_name(kind: ChangeKind) -> &'static str
    ensures { result.now ≡ kind_name_lem kind }
{
    match kind {
        ChangeKind::Inserted => "ins",
        ChangeKind::Deleted => "del",
    }
}

fn comments_value(alloc: Global, comments: &[Comment]) -> Result<Value, AllocError>
    ensures data { IfOk result (λ value. view value ≡ comments_data comments.now) }
    ensures plain { IfOk result (λ value. has_float (view value) ≡ false) }
{
    let mut values = Vec::new(alloc);
    for comment in comments {
        values.push(comment_value(alloc, comment)?)?;
    }
    Ok(Value::Array(values))
}

fn comment_value(alloc: Global, comment: &Comment) -> Result<Value, AllocError>
    ensures data { IfOk result (λ value. view value ≡ object_data (comment_members comment.now)) }
    ensures plain { IfOk result (λ value. has_float (view value) ≡ false) }
{
    let text = comment.text.to_text(alloc)?;
    let mut object = Object::new(alloc);
    object.set_number("at", comment.at as u64)?;
    object.set_number("t", comment.thread as u64)?;
    object.set_text("text", text.as_str())?;
    Ok(object.value())
}
