//! Reading the fields of a line.

ghost use Rattle.std.specs.Prelude.{◌≡◌, IfOk, IfSome, Some};
ghost use Rattle.serde_json.specs.Data.{no_members, object};
ghost use Rattle.json_lines.specs.Lines.{value_of};
ghost use Rattle.line_reader.specs.Fields.{AreDifferent, all_put};

use crate::field::{Field, read_members};
use json::{Reader, Scratch, Token};
use std::alloc::{AllocError, Global};

/// The fields of a line that holds one flat object, in the order in which they stand, where each
/// value is a text, a whole number below 2^64 in decimal, a flag, or an array of edits,
/// and no key stands twice. `None` says nothing of the line. `scratch` may be used for one line after another.
pub fn read_fields<'r>(
    alloc: Global,
    scratch: &'r mut Scratch,
    line: &'r [u8],
) -> Result<Option<Vec<Field<'r>>>, AllocError>
    ensures value { IfOk result (λ read. IfSome read (λ fields. value_of line.now ≡ Some (object (all_put fields.items no_members)))) }
    ensures different { IfOk result (λ read. IfSome read (λ fields. AreDifferent fields.items)) }
{
    let Ok(text) = simdutf8::compat::from_utf8(line) else {
        return Ok(None);
    };
    let mut reader = Reader::new(text, scratch)?;
    let Some(Token::BeginObject) = reader.next() else {
        return Ok(None);
    };
    let Some(fields) = read_members(alloc, &mut reader)? else {
        return Ok(None);
    };
    if reader.next().is_some() {
        return Ok(None);
    }
    Ok(Some(fields))
}
