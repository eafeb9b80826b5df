//! Reading the line that sends an operation as it stands.

ghost use Rattle.std.specs.Prelude.{◌≡◌, IfOk};
ghost use Rattle.session_lines.specs.Object.{object_data};
ghost use Rattle.session_lines.specs.Line.{raw_line};

use crate::fields::{flag_or_no, name_of, number_or_0, sources_of};
use crate::line::Line;
use crate::object::{LineObject, number_of, operation_of};
use journal_entries::MAX_RAW_SOURCE;
use std::alloc::{AllocError, Global};

/// The raw line of a session, or `None` where its fields are no such line's. An operation out of
/// form is no fault of the line.
pub(crate) fn read_raw(
    alloc: Global,
    session: u32,
    object: &LineObject<'_>,
) -> Result<Option<Line>, AllocError>
    ensures { IfOk result (λ line. line ≡ raw_line session (object_data object.now)) }
{
    let Some(v) = number_of(object, "v") else {
        return Ok(None);
    };
    let Some(source) = number_or_0(object, "source", MAX_RAW_SOURCE) else {
        return Ok(None);
    };
    let Some(track) = flag_or_no(object, "track") else {
        return Ok(None);
    };
    let Some(doc) = name_of(alloc, object, "doc")? else {
        return Ok(None);
    };
    let Some(user) = name_of(alloc, object, "user")? else {
        return Ok(None);
    };
    let Some(dup) = sources_of(alloc, object, "dup")? else {
        return Ok(None);
    };
    let Some(op) = operation_of(alloc, object)? else {
        return Ok(None);
    };
    Ok(Some(Line::Raw {
        session,
        doc,
        user,
        source,
        dup,
        track,
        v,
        op,
    }))
}
