//! `Field`, a member of a line's object.

ghost use Rattle.std.specs.Prelude.{◌≡◌, IfOk, IfSome, length, option_map};
ghost use Rattle.serde_json.specs.Data.{no_members};
ghost use Rattle.serde_json.specs.Find.{get_member};
ghost use Rattle.line_reader.specs.Fields.{AreDifferent, all_put, content_data};
ghost use Rattle.line_reader.specs.Reads.{Reads, ReadsMembers};

use crate::edit::{Edit, read_edits};
use crate::scalar::{Scalar, scalar_of};
use json::{Reader, Token};
use std::alloc::{AllocError, Global};

/// The most members that are read.
const MAX_FIELDS: usize = 16;

/// The value of a field.
#[derive(Drop)]
pub enum Content<'r> {
    Scalar(Scalar<'r>),
    /// An array of edits.
    Edits(Vec<Edit<'r>>),
}

/// A member of a line's object.
#[derive(Drop)]
pub struct Field<'r> {
    pub key: &'r str,
    pub value: Content<'r>,
}

/// The fields of an object that opened just before, in the order in which they stand, or `None`
/// where a value is none of a field's, a key stands twice or there are more than 16.
pub(crate) fn read_members<'r>(
    alloc: Global,
    reader: &mut Reader<'r>,
) -> Result<Option<Vec<Field<'r>>>, AllocError>
    ensures fields { IfOk result (λ read. IfSome read (λ fields. ReadsMembers 126 (length reader.old) reader.old no_members (all_put fields.items no_members) reader.new)) }
    ensures different { IfOk result (λ read. IfSome read (λ fields. AreDifferent fields.items)) }
{
    let mut fields = Vec::new(alloc);
    for _ in 0..MAX_FIELDS {
        let Ok(next) = reader.next_key() else {
            return Ok(None);
        };
        let Some(key) = next else {
            return Ok(Some(fields));
        };
        if find(&fields, key).is_some() {
            return Ok(None);
        }
        let Some(value) = next_content(alloc, reader)? else {
            return Ok(None);
        };
        fields.push(Field { key, value })?;
    }
    Ok(None)
}

// The value that comes next.
fn next_content<'r>(
    alloc: Global,
    reader: &mut Reader<'r>,
) -> Result<Option<Content<'r>>, AllocError>
    ensures { IfOk result (λ read. IfSome read (λ value. Reads 126 reader.old (content_data value) reader.new)) }
{
    match reader.next() {
        Some(Token::BeginArray) => {
            let Some(edits) = read_edits(alloc, reader)? else {
                return Ok(None);
            };
            Ok(Some(Content::Edits(edits)))
        }
        Some(token) => {
            let Some(scalar) = scalar_of(token) else {
                return Ok(None);
            };
            Ok(Some(Content::Scalar(scalar)))
        }
        None => Ok(None),
    }
}

/// The value of the field at a key, of the last one where there are several.
pub fn find<'f, 'r>(fields: &'f [Field<'r>], key: &str) -> Option<&'f Content<'r>>
    ensures { option_map (λ value. content_data value.now) result ≡ get_member key.now (all_put fields.now no_members) }
{
    let mut found = None;
    for field in fields {
        if field.key == key {
            found = Some(&field.value);
        }
    }
    found
}
