//! `LineObject`, the value that a line is.

ghost use Rattle.std.specs.Prelude.{◌≡◌, ◌≤◌, IfOk, IfSome, codes, map, option_and_then, option_map};
ghost use Rattle.json_lines.specs.Lines.{value_of};
ghost use Rattle.json_lines.specs.Reading.{array_at, flag_at, has_key as has_key_lem, key_count, number_at, text_at, whole_at};
ghost use Rattle.line_reader.specs.Fields.{content_data, edit_data};
ghost use Rattle.serde_json.specs.Find.{get};
ghost use Rattle.serde_json.specs.View.{items_of, items_view, view};
ghost use Rattle.session_lines.specs.Fields.{numbers_of};
ghost use Rattle.session_lines.specs.Line.{raw_operation};
ghost use Rattle.session_lines.specs.Object.{IsWhole, object_data};

use journal_entries::Sources;
use json::Scratch;
use line_reader::{Content, Edit, Field, Scalar, find, read_fields};
use ot_json::{OpFault, read_edits, read_op};
use ot_op::{FormFault, Op};
use serde_json::Value;
use std::alloc::{AllocError, Global};

/// The value that a line is. Most lines are flat objects, which are read without a tree.
#[derive(Drop)]
pub(crate) enum LineObject<'r> {
    Tree(Value),
    Flat(Vec<Field<'r>>),
}

/// The value that a line is, or `None` where it is none. `scratch` serves one line after another.
pub(crate) fn read_object<'r>(
    alloc: Global,
    scratch: &'r mut Scratch,
    line: &'r [u8],
) -> Result<Option<LineObject<'r>>, AllocError>
    ensures value { IfOk result (λ read. option_map object_data read ≡ value_of line.now) }
    ensures whole { IfOk result (λ read. IfSome read IsWhole) }
{
    if let Some(fields) = read_fields(alloc, scratch, line)? {
        return Ok(Some(LineObject::Flat(fields)));
    }
    let Some(value) = json_lines::read_value(alloc, line)? else {
        return Ok(None);
    };
    Ok(Some(LineObject::Tree(value)))
}

/// How many keys it has, and 0 where it is no object.
pub(crate) fn count_keys(object: &LineObject<'_>) -> usize
    requires { IsWhole object.now }
    ensures { result ≡ key_count (object_data object.now) }
{
    match object {
        LineObject::Tree(value) => json_lines::count_keys(value),
        LineObject::Flat(fields) => fields.len(),
    }
}

/// Whether it is an object with this key.
pub(crate) fn has_key(object: &LineObject<'_>, key: &str) -> bool
    ensures { result ≡ has_key_lem key.now (object_data object.now) }
{
    match object {
        LineObject::Tree(value) => json_lines::has_key(value, key),
        LineObject::Flat(fields) => find(fields, key).is_some(),
    }
}

/// The text at a key.
pub(crate) fn text_of<'v>(object: &'v LineObject<'_>, key: &str) -> Option<&'v str>
    ensures { option_map (λ text. text.now) result ≡ text_at key.now (object_data object.now) }
{
    match object {
        LineObject::Tree(value) => json_lines::text_of(value, key),
        LineObject::Flat(fields) => match find(fields, key)? {
            Content::Scalar(Scalar::Text(text)) => Some(text),
            _ => None,
        },
    }
}

/// The whole number at a key.
pub(crate) fn number_of(object: &LineObject<'_>, key: &str) -> Option<u64>
    ensures { result ≡ number_at key.now (object_data object.now) }
{
    match object {
        LineObject::Tree(value) => json_lines::number_of(value, key),
        LineObject::Flat(fields) => match find(fields, key)? {
            Content::Scalar(Scalar::Number(n)) => Some(*n),
            _ => None,
        },
    }
}

/// The whole number at a key, where it is at most `max`.
pub(crate) fn number_within(object: &LineObject<'_>, key: &str, max: u64) -> Option<u64>
    ensures number { result ≡ whole_at max key.now (object_data object.now) }
    ensures small { IfSome result (λ n. n ≤ max) }
{
    let n = number_of(object, key)?;
    if n > max {
        return None;
    }
    Some(n)
}

/// The `true` or `false` at a key.
pub(crate) fn flag_of(object: &LineObject<'_>, key: &str) -> Option<bool>
    ensures { result ≡ flag_at key.now (object_data object.now) }
{
    match object {
        LineObject::Tree(value) => json_lines::flag_of(value, key),
        LineObject::Flat(fields) => match find(fields, key)? {
            Content::Scalar(Scalar::Flag(flag)) => Some(*flag),
            _ => None,
        },
    }
}

/// The numbers of the array at a key.
pub(crate) fn numbers_at(
    alloc: Global,
    object: &LineObject<'_>,
    key: &str,
) -> Result<Option<Sources>, AllocError>
    ensures { IfOk result (λ found. found ≡ option_and_then numbers_of (array_at key.now (object_data object.now))) }
{
    match object {
        LineObject::Tree(value) => match json_lines::array_of(value, key) {
            Some(items) => read_numbers(alloc, items),
            None => Ok(None),
        },
        LineObject::Flat(fields) => match find(fields, key) {
            Some(Content::Edits(edits)) => Ok(no_numbers(alloc, edits)),
            _ => Ok(None),
        },
    }
}

fn read_numbers(alloc: Global, items: &[Value]) -> Result<Option<Sources>, AllocError>
    ensures { IfOk result (λ found. found ≡ numbers_of (items_view items.now)) }
{
    let mut sources = Sources::new(alloc);
    for item in items {
        let Some(n) = item.as_u64() else {
            return Ok(None);
        };
        sources.push(n)?;
    }
    Ok(Some(sources))
}

// No edit is a number.
fn no_numbers(alloc: Global, edits: &[Edit<'_>]) -> Option<Sources>
    ensures { result ≡ numbers_of (items_of (map edit_data edits.now)) }
{
    if edits.is_empty() {
        Some(Sources::new(alloc))
    } else {
        None
    }
}

/// The operation at the key `op`, or what is wrong with it.
pub(crate) fn operation_of(
    alloc: Global,
    object: &LineObject<'_>,
) -> Result<Option<Result<Op, FormFault>>, AllocError>
    ensures { IfOk result (λ read. read ≡ option_map raw_operation (get (codes "op") (object_data object.now))) }
{
    match object {
        LineObject::Tree(value) => match value.get("op") {
            Some(op) => Ok(Some(read_operation(alloc, op)?)),
            None => Ok(None),
        },
        LineObject::Flat(fields) => match find(fields, "op") {
            Some(content) => Ok(Some(operation_in(alloc, content)?)),
            None => Ok(None),
        },
    }
}

#[tactic(auto, unfolding(crate::specs::Line::raw_operation))]
fn read_operation(alloc: Global, value: &Value) -> Result<Result<Op, FormFault>, AllocError>
    ensures { IfOk result (λ read. read ≡ raw_operation (view value.now)) }
{
    match read_op(alloc, value) {
        Ok(op) => Ok(Ok(op)),
        Err(OpFault::Bad(fault)) => Ok(Err(fault)),
        Err(OpFault::Memory) => Err(AllocError),
    }
}

#[tactic(auto, unfolding(crate::specs::Line::raw_operation))]
fn operation_in(alloc: Global, content: &Content<'_>) -> Result<Result<Op, FormFault>, AllocError>
    ensures { IfOk result (λ read. read ≡ raw_operation (content_data content.now)) }
{
    let Content::Edits(edits) = content else {
        return Ok(Err(FormFault::Form(0)));
    };
    match read_edits(alloc, edits) {
        Ok(op) => Ok(Ok(op)),
        Err(OpFault::Bad(fault)) => Ok(Err(fault)),
        Err(OpFault::Memory) => Err(AllocError),
    }
}
