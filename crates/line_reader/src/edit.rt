//! `Edit`, an element of an array.

ghost use Rattle.std.specs.Prelude.{◌≡◌, ℕ, IfOk, IfSome, length, map};
ghost use Rattle.serde_json.specs.Data.{no_members, put};
ghost use Rattle.serde_json.specs.View.{items_of};
ghost use Rattle.line_reader.specs.Fields.{edit_data, edit_members, scalar_data};
ghost use Rattle.line_reader.specs.Reads.{Reads, ReadsItems, ReadsMember};

use crate::scalar::{Scalar, scalar_of};
use json::{Reader, Token};
use std::alloc::{AllocError, Global};

/// An object of a text and a place below 2^64: at the keys `i` and `p`, or `d` and `p`.
#[derive(Clone, Copy, Drop)]
pub enum Edit<'r> {
    Insert(&'r str, u64),
    Delete(&'r str, u64),
}

/// A member whose value is a scalar.
#[derive(Clone, Copy, Drop)]
pub(crate) struct Member<'r> {
    pub key: &'r str,
    pub value: Scalar<'r>,
}

/// The edits of an array that opened just before, or `None` where one is none.
pub(crate) fn read_edits<'r>(
    alloc: Global,
    reader: &mut Reader<'r>,
) -> Result<Option<Vec<Edit<'r>>>, AllocError>
    ensures { IfOk result (λ read. IfSome read (λ edits. ReadsItems (length reader.old) reader.old (items_of (map edit_data edits.items)) reader.new)) }
{
    let mut edits = Vec::new(alloc);
    'edits: while !reader.take_end_array() {
        let Some(edit) = next_edit(reader) else {
            return Ok(None);
        };
        edits.push(edit)?;
    }
    Ok(Some(edits))
}

// The edit that comes next.
fn next_edit<'r>(reader: &mut Reader<'r>) -> Option<Edit<'r>>
    ensures { IfSome result (λ edit. Reads 125 reader.old (edit_data edit) reader.new) }
{
    let Some(Token::BeginObject) = reader.next() else {
        return None;
    };
    let first = next_member(reader)?;
    let second = next_member(reader)?;
    let Ok(None) = reader.next_key() else {
        return None;
    };
    edit_of(&first, &second)
}

fn next_member<'r>(reader: &mut Reader<'r>) -> Option<Member<'r>>
    ensures { IfSome result (λ member. (depth : ℕ) → ReadsMember depth reader.old member.key.now (scalar_data member.value) reader.new) }
{
    let Ok(Some(key)) = reader.next_key() else {
        return None;
    };
    let token = reader.next()?;
    let value = scalar_of(token)?;
    Some(Member { key, value })
}

// The edit of which these are the members, in either order.
fn edit_of<'r>(first: &Member<'r>, second: &Member<'r>) -> Option<Edit<'r>>
    ensures { IfSome result (λ edit. put second.now.key.now (scalar_data second.now.value) (put first.now.key.now (scalar_data first.now.value) no_members) ≡ edit_members edit) }
{
    match (first.key, first.value, second.key, second.value) {
        ("i", Scalar::Text(text), "p", Scalar::Number(place)) => Some(Edit::Insert(text, place)),
        ("p", Scalar::Number(place), "i", Scalar::Text(text)) => Some(Edit::Insert(text, place)),
        ("d", Scalar::Text(text), "p", Scalar::Number(place)) => Some(Edit::Delete(text, place)),
        ("p", Scalar::Number(place), "d", Scalar::Text(text)) => Some(Edit::Delete(text, place)),
        _ => None,
    }
}
