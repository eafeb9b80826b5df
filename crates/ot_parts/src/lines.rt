//! The lines of a text, as slices of it.

ghost use Rattle.std.specs.Prelude.{◌≡◌, ◌==◌, ◌<◌, ◌∷◌, [], All, length, position};
ghost use Rattle.std.specs.Option.{option_map_or};
ghost use Rattle.ot_parts.specs.Lines.{lines_of, joined_lines, IsLine};

use std::marker::Model;

const LINE_FEED: u16 = 0x000A;

/// The lines of a text that are still to come, each without its line feed.
#[derive(Drop)]
pub struct LineParts<'a> {
    rest: Option<&'a [u16]>,
}

impl<'a> Model for LineParts<'a> {
    ghost use Rattle.std.specs.Prelude.{ℕ, List};

    ghost Value = { List (List ℕ) };

    ghost use Rattle.ot_parts.specs.Lines.{lines_left};

    ghost view = { lines_left };
}

/// The text split at each line feed, U+000A: the lines with a line feed between each two are the
/// text. A text with no line feed is one line, and so is an empty text; a text that ends with a line
/// feed has an empty last line.
pub fn line_parts(text: &[u16]) -> LineParts<'_>
    ensures lines { result ≡ lines_of text.now }
    ensures joined { joined_lines result ≡ text.now }
    ensures split { All IsLine result }
    ensures at_least_one { 0 < length result }
{
    LineParts { rest: Some(text) }
}

impl<'a> Iterator for LineParts<'a> {
    ghost use Rattle.std.specs.Iterator.{YieldsFirstRef, item_count};

    type Item = &'a [u16];

    ghost next_gives = { YieldsFirstRef (λ lines. lines) };

    ghost remaining = { item_count (λ lines. lines) };

    fn next(&mut self) -> Option<&'a [u16]> {
        let text = self.rest?;
        let (line, rest) = split_line(text);
        self.rest = rest;
        Some(line)
    }
}

/// The first line, and what stands after its line feed, if it has one.
fn split_line(text: &[u16]) -> (&[u16], Option<&[u16]>)
    ensures { lines_of text.now ≡ result.0.now ∷ option_map_or (λ rest. lines_of rest.now) result.1 [] }
{
    match line_feed_place(text) {
        Some(at) => (&text[..at], Some(&text[at + 1..])),
        None => (text, None),
    }
}

/// The place of the first line feed.
fn line_feed_place(text: &[u16]) -> Option<usize>
    ensures { result ≡ position (λ unit. unit == 10) text.now }
{
    text.iter().position(|unit| *unit == LINE_FEED)
}
