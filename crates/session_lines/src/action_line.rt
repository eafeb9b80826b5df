//! Reading the lines that a session does.

ghost use Rattle.std.specs.Prelude.{◌≡◌, IfOk};
ghost use Rattle.session_lines.specs.Object.{object_data};
ghost use Rattle.session_lines.specs.Line.{action_line, hand_line, join_line, tick_line};

use crate::command::Action;
use crate::edit_lines::{read_com, read_del, read_ins};
use crate::fields::{flag_or_no, name_of, u32_of};
use crate::limits::MAX_TICK;
use crate::line::Line;
use crate::object::{LineObject, number_within};
use crate::raw_line::read_raw;
use std::alloc::{AllocError, Global};

/// The line of an action that a session does, or `None` where its fields are no such line's.
pub(crate) fn read_action_line(
    alloc: Global,
    action: Action,
    session: u32,
    object: &LineObject<'_>,
) -> Result<Option<Line>, AllocError>
    ensures { IfOk result (λ line. line ≡ action_line action session (object_data object.now)) }
{
    match action {
        Action::Tick => Ok(read_tick(session, object)),
        Action::Raw => read_raw(alloc, session, object),
        Action::Join => read_join(alloc, session, object),
        Action::Rejoin => Ok(Some(Line::Rejoin { session })),
        Action::Leave => Ok(Some(Line::Leave { session })),
        Action::Send => Ok(Some(Line::Send { session })),
        Action::Resend => Ok(Some(Line::Resend { session })),
        Action::Recv => Ok(Some(Line::Recv { session })),
        Action::Sync => Ok(Some(Line::Sync { session })),
        Action::Finish => Ok(Some(Line::Finish { session })),
        Action::Ins => read_ins(alloc, session, object),
        Action::Del => Ok(read_del(session, object)),
        Action::Com => Ok(read_com(session, object)),
        Action::Drain => {
            let doc = name_of(alloc, object, "doc")?;
            Ok(doc.map(|doc| Line::Drain { session, doc }))
        }
        Action::Hold => {
            let doc = name_of(alloc, object, "doc")?;
            Ok(doc.map(|doc| Line::Hold { session, doc }))
        }
        Action::Flush => {
            let doc = name_of(alloc, object, "doc")?;
            Ok(doc.map(|doc| Line::Flush { session, doc }))
        }
        Action::Unload => {
            let doc = name_of(alloc, object, "doc")?;
            Ok(doc.map(|doc| Line::Unload { session, doc }))
        }
        Action::Hand => read_hand(alloc, session, object),
    }
}

fn read_tick(session: u32, object: &LineObject<'_>) -> Option<Line>
    ensures { result ≡ tick_line session (object_data object.now) }
{
    let ms = number_within(object, "ms", MAX_TICK)?;
    Some(Line::Tick { session, ms })
}

fn read_join(
    alloc: Global,
    session: u32,
    object: &LineObject<'_>,
) -> Result<Option<Line>, AllocError>
    ensures { IfOk result (λ line. line ≡ join_line session (object_data object.now)) }
{
    let Some(track) = flag_or_no(object, "track") else {
        return Ok(None);
    };
    let Some(doc) = name_of(alloc, object, "doc")? else {
        return Ok(None);
    };
    let Some(user) = name_of(alloc, object, "user")? else {
        return Ok(None);
    };
    Ok(Some(Line::Join {
        session,
        doc,
        user,
        track,
    }))
}

fn read_hand(
    alloc: Global,
    session: u32,
    object: &LineObject<'_>,
) -> Result<Option<Line>, AllocError>
    ensures { IfOk result (λ line. line ≡ hand_line session (object_data object.now)) }
{
    let Some(n) = u32_of(object, "n") else {
        return Ok(None);
    };
    let Some(project) = name_of(alloc, object, "project")? else {
        return Ok(None);
    };
    Ok(Some(Line::Hand {
        session,
        project,
        n,
    }))
}
