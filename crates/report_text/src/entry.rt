//! The line of an entry.

ghost use Rattle.std.specs.Prelude.{◌≡◌, ◌++◌, IfOk};
ghost use Rattle.json_lines.specs.Object.{line_of};
ghost use Rattle.report_text.specs.Entries.{entry_members};

use crate::act::{act_name, put_fields};
use crate::frequent::{
    Applied, acquired_line, applied_line, edited_line, got_line, released_line, sent_line,
};
use crate::heading::Heading;
use crate::values::put_optional;
use history_queue::Item;
use journal_entries::{Act, Entry, Outcome};
use json_lines::Object;
use std::alloc::{AllocError, Global};

/// A line has room for so many bytes before more memory is taken.
const USUAL_LENGTH: usize = 240;

/// The line of an entry, on its board and under its number in the board's journal. `items` are what
/// a `handed` handed out, and none of another entry. An edit of the empty text, which no client
/// makes, is shown as an operation without a component.
pub fn entry_line(
    alloc: Global,
    board: u32,
    n: u64,
    entry: &Entry,
    items: &[Item],
) -> Result<Vec<u8>, AllocError>
    ensures { IfOk result (λ bytes. bytes.items ≡ line_of (entry_members board n items.now entry.now)) }
{
    let bytes = Vec::with_capacity(alloc, USUAL_LENGTH)?;
    append_entry_line(alloc, bytes, board, n, entry, items)
}

/// Writes the same line behind what `bytes` holds, so that many lines need the memory of one.
pub fn append_entry_line(
    alloc: Global,
    bytes: Vec<u8>,
    board: u32,
    n: u64,
    entry: &Entry,
    items: &[Item],
) -> Result<Vec<u8>, AllocError>
    ensures { IfOk result (λ made. made.items ≡ bytes.items ++ line_of (entry_members board n items.now entry.now)) }
{
    let heading = Heading {
        board,
        n,
        seat: entry.seat,
        line: entry.line,
    };
    match &entry.act {
        Act::Edited { client, comp } => edited_line(alloc, bytes, &heading, *client, comp),
        Act::Sent { update } => sent_line(alloc, bytes, &heading, update),
        Act::Got { client, brief } => got_line(bytes, &heading, *client, brief),
        Act::Acquired { doc, token, until } => {
            acquired_line(bytes, &heading, *doc, *token, *until)
        }
        Act::Committed {
            doc,
            token,
            ticket,
            outcome: Outcome::Applied { v, op },
        } => {
            let applied = Applied {
                doc: *doc,
                token: *token,
                ticket: *ticket,
                v: *v,
                op,
            };
            applied_line(alloc, bytes, &heading, &applied)
        }
        Act::Released { doc, token } => released_line(bytes, &heading, *doc, *token),
        _ => {
            let line = object_line(alloc, board, n, entry, items)?;
            append(bytes, &line)
        }
    }
}

fn append(bytes: Vec<u8>, line: &[u8]) -> Result<Vec<u8>, AllocError>
    ensures { IfOk result (λ made. made.items ≡ bytes.items ++ line.now) }
{
    let mut bytes = bytes;
    bytes.extend_from_slice(line)?;
    Ok(bytes)
}

// The line of an entry, by an object.
fn object_line(
    alloc: Global,
    board: u32,
    n: u64,
    entry: &Entry,
    items: &[Item],
) -> Result<Vec<u8>, AllocError>
    ensures { IfOk result (λ bytes. bytes.items ≡ line_of (entry_members board n items.now entry.now)) }
{
    let mut object = Object::new(alloc);
    object.set_number("b", board as u64)?;
    put_optional(&mut object, "line", entry.line)?;
    object.set_number("n", n)?;
    object.set_number("seat", entry.seat as u64)?;
    object.set_text("e", act_name(&entry.act))?;
    put_fields(&mut object, &entry.act, items)?;
    object.line()
}
