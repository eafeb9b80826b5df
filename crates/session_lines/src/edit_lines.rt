//! Reading the lines that edit a client's text.

ghost use Rattle.std.specs.Prelude.{◌≡◌, IfOk};
ghost use Rattle.session_lines.specs.Object.{object_data};
ghost use Rattle.session_lines.specs.Line.{com_line, del_line, ins_line};

use crate::fields::{u32_of, units_of};
use crate::line::Line;
use crate::object::LineObject;
use std::alloc::{AllocError, Global};

/// An insert, of at least one unit.
pub(crate) fn read_ins(
    alloc: Global,
    session: u32,
    object: &LineObject<'_>,
) -> Result<Option<Line>, AllocError>
    ensures { IfOk result (λ line. line ≡ ins_line session (object_data object.now)) }
{
    let Some(p) = u32_of(object, "p") else {
        return Ok(None);
    };
    let Some(s) = units_of(alloc, object, "s")? else {
        return Ok(None);
    };
    if s.is_empty() {
        return Ok(None);
    }
    Ok(Some(Line::Ins { session, p, s }))
}

/// A delete, of at least one unit.
pub(crate) fn read_del(session: u32, object: &LineObject<'_>) -> Option<Line>
    ensures { result ≡ del_line session (object_data object.now) }
{
    let p = u32_of(object, "p")?;
    let n = u32_of(object, "n")?;
    if n == 0 {
        return None;
    }
    Some(Line::Del { session, p, n })
}

/// A comment, which may be empty.
pub(crate) fn read_com(session: u32, object: &LineObject<'_>) -> Option<Line>
    ensures { result ≡ com_line session (object_data object.now) }
{
    let p = u32_of(object, "p")?;
    let n = u32_of(object, "n")?;
    let t = u32_of(object, "t")?;
    Some(Line::Com { session, p, n, t })
}
