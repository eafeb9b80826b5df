//! A component as it is written in a JSON value, or as an edit of a line.
ghost use Rattle.std.specs.Prelude.{◌≡◌, option_map};
ghost use Rattle.ot_json.specs.Form.{comment_of, delete_of, insert_of, place_at, thread_at, written_data, written_of};
ghost use Rattle.json_lines.specs.Reading.{within};
ghost use Rattle.line_reader.specs.Fields.{edit_data};
ghost use Rattle.serde_json.specs.View.{view};

use json_lines::{count_keys, number_within, text_of};
use line_reader::Edit;
use ot_op::MAX_PLACE;
use serde_json::Value;

/// A component that is in form: its text, its place and, of a comment, the thread.
#[derive(Clone, Copy, Drop)]
pub(crate) enum Component<'v> {
    Insert(&'v str, u32),
    Delete(&'v str, u32),
    Comment(&'v str, u32, u32),
}

/// The component that a value is, with exactly its keys.
pub(crate) fn read_component(value: &Value) -> Option<Component<'_>>
    ensures { option_map written_data result ≡ written_of (view value.now) }
{
    match count_keys(value) {
        2 => match read_insert(value) {
            Some(insert) => Some(insert),
            None => read_delete(value),
        },
        3 => read_comment(value),
        _ => None,
    }
}

fn read_insert(value: &Value) -> Option<Component<'_>>
    ensures { option_map written_data result ≡ insert_of (view value.now) }
{
    let text = text_of(value, "i")?;
    Some(Component::Insert(text, read_place(value)?))
}

fn read_delete(value: &Value) -> Option<Component<'_>>
    ensures { option_map written_data result ≡ delete_of (view value.now) }
{
    let text = text_of(value, "d")?;
    Some(Component::Delete(text, read_place(value)?))
}

fn read_comment(value: &Value) -> Option<Component<'_>>
    ensures { option_map written_data result ≡ comment_of (view value.now) }
{
    let text = text_of(value, "c")?;
    let place = read_place(value)?;
    Some(Component::Comment(text, place, read_thread(value)?))
}

fn read_place(value: &Value) -> Option<u32>
    ensures { result ≡ place_at (view value.now) }
{
    let place = number_within(value, "p", MAX_PLACE as u64)?;
    Some(place as u32)
}

fn read_thread(value: &Value) -> Option<u32>
    ensures { result ≡ thread_at (view value.now) }
{
    let thread = number_within(value, "t", u32::MAX as u64)?;
    Some(thread as u32)
}

/// The component that an edit is.
pub(crate) fn component_of<'v>(edit: &Edit<'v>) -> Option<Component<'v>>
    ensures { option_map written_data result ≡ written_of (edit_data edit.now) }
{
    match edit {
        Edit::Insert(text, place) => Some(Component::Insert(text, place_of(*place)?)),
        Edit::Delete(text, place) => Some(Component::Delete(text, place_of(*place)?)),
    }
}

fn place_of(place: u64) -> Option<u32>
    ensures { result ≡ within MAX_PLACE place }
{
    if place > MAX_PLACE as u64 {
        return None;
    }
    Some(place as u32)
}
