//! The lines of a text, and the JSON value that a line is.
ghost use Rattle.std.specs.Prelude.{◌≡◌, ◌<◌, ◌==◌, ◌∷◌, length, IfOk, option_map, position};
ghost use Rattle.json_lines.specs.Lines.{lines_of, value_of};
ghost use Rattle.serde_json.specs.View.{view};

use serde_json::Value;
use std::alloc::{AllocError, Global};

/// The first line of a text that isn't empty, without its line feed, and what stands behind it.
///
/// Lines are cut at U+000A alone, and a carriage return is part of its line. A line feed at the end
/// of the text opens no further line.
pub fn first_line(text: &[u8]) -> (&[u8], &[u8])
    requires { 0 < length text.now }
    ensures lines { lines_of text.now ≡ result.0.now ∷ lines_of result.1.now }
    ensures shorter { length result.1.now < length text.now }
{
    match feed_at(text) {
        Some(at) => (&text[..at], &text[at + 1..]),
        None => (text, &text[text.len()..]),
    }
}

/// The JSON value that bytes are, or `None` where they are no UTF-8 or no JSON value.
///
/// Of a key that stands twice in an object the last value counts.
pub fn read_value(alloc: Global, bytes: &[u8]) -> Result<Option<Value>, AllocError>
    ensures { IfOk result (λ found. option_map view found ≡ value_of bytes.now) }
{
    match Value::from_slice(alloc, bytes) {
        Ok(value) => Ok(Some(value)),
        Err(e) => {
            if e.is_memory() {
                return Err(AllocError);
            }
            Ok(None)
        }
    }
}

// The place of the first line feed.
fn feed_at(text: &[u8]) -> Option<usize>
    ensures { result ≡ position (λ x. x == 10) text.now }
{
    text.iter().position(|b| *b == b'\n')
}
