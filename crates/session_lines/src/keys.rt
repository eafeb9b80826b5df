//! How many keys a line has.

ghost use Rattle.std.specs.Prelude.{◌≡◌};
ghost use Rattle.session_lines.specs.Object.{object_data};
ghost use Rattle.session_lines.specs.Line.{action_keys, extra, line_keys};

use crate::command::{Action, Command};
use crate::object::{LineObject, has_key};

/// How many keys a line of a command has, with `do`.
pub(crate) fn count_line_keys(command: Command, object: &LineObject<'_>) -> usize
    ensures { result ≡ line_keys command (object_data object.now) }
{
    match command {
        Command::Doc => 4 + one_if_has(object, "v"),
        Command::BySession(action) => count_action_keys(action, object),
    }
}

fn count_action_keys(action: Action, object: &LineObject<'_>) -> usize
    ensures { result ≡ action_keys action (object_data object.now) }
{
    match action {
        Action::Tick => 3,
        Action::Raw => {
            6 + one_if_has(object, "source")
                + one_if_has(object, "dup")
                + one_if_has(object, "track")
        }
        Action::Join => 4 + one_if_has(object, "track"),
        Action::Rejoin => 2,
        Action::Leave => 2,
        Action::Send => 2,
        Action::Resend => 2,
        Action::Recv => 2,
        Action::Sync => 2,
        Action::Finish => 2,
        Action::Ins => 4,
        Action::Del => 4,
        Action::Com => 5,
        Action::Drain => 3,
        Action::Hold => 3,
        Action::Flush => 3,
        Action::Unload => 3,
        Action::Hand => 4,
    }
}

fn one_if_has(object: &LineObject<'_>, key: &str) -> usize
    ensures { result ≡ extra key.now (object_data object.now) }
{
    if has_key(object, key) { 1 } else { 0 }
}
