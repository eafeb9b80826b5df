//! Reading the line that makes a document.

ghost use Rattle.std.specs.Prelude.{◌≡◌, IfOk};
ghost use Rattle.session_lines.specs.Object.{object_data};
ghost use Rattle.session_lines.specs.Line.{doc_line};

use crate::fields::{name_of, number_or_0, units_of};
use crate::line::Line;
use crate::object::LineObject;
use journal_entries::MAX_BASE;
use ot_op::MAX_TEXT_UNITS;
use std::alloc::{AllocError, Global};

/// The line that makes a document, or `None` where its fields are no such line's.
pub(crate) fn read_doc(alloc: Global, object: &LineObject<'_>) -> Result<Option<Line>, AllocError>
    ensures { IfOk result (λ line. line ≡ doc_line (object_data object.now)) }
{
    let Some(doc) = name_of(alloc, object, "doc")? else {
        return Ok(None);
    };
    let Some(project) = name_of(alloc, object, "project")? else {
        return Ok(None);
    };
    let Some(v) = number_or_0(object, "v", MAX_BASE) else {
        return Ok(None);
    };
    let Some(text) = units_of(alloc, object, "text")? else {
        return Ok(None);
    };
    if text.len() > MAX_TEXT_UNITS {
        return Ok(None);
    }
    Ok(Some(Line::Doc {
        doc,
        project,
        text,
        v,
    }))
}
