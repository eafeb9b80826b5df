//! The lines of a text in chunks, slice by slice.

ghost use Rattle.std.specs.Prelude.{◌≡◌, ◌==◌, ◌≤◌, ◌<◌, ◌^◌, length};
ghost use Rattle.std.specs.List.{position, position_or_len};
ghost use Rattle.ot_parts.specs.Lines.{lines_of, joined_lines};
ghost use Rattle.ot_text.specs.Lists.{joined};
ghost use Rattle.ot_text.specs.Texts.{IsKept};

use crate::block::Block;
use crate::parts::{TextParts, part_in};
use std::marker::Model;

const LINE_FEED: u16 = 0x000A;

/// The lines of a text that are still to come, each without its line feed.
#[derive(Drop)]
pub struct TextLines<'a> {
    blocks: &'a [Block],
    total: usize,
    at: usize,
    more: bool,
}

impl<'a> Model for TextLines<'a> {
    ghost use Rattle.std.specs.Prelude.{ℕ, List};
    ghost use Rattle.ot_text.specs.TextLines.{lines_left, IsWithin};

    ghost Value = { List (List ℕ) };

    ghost view = { lines_left };

    ghost invariant = { IsWithin };
}

/// The lines of a text of so many units.
pub(crate) fn lines_within(blocks: &[Block], total: usize) -> TextLines<'_>
    requires { IsKept blocks.now total }
    ensures lines { result ≡ lines_of (joined (joined blocks.now)) }
    ensures joined { joined_lines result ≡ joined (joined blocks.now) }
    ensures at_least_one { 0 < length result }
{
    TextLines {
        blocks,
        total,
        at: 0,
        more: true,
    }
}

impl<'a> Iterator for TextLines<'a> {
    ghost use Rattle.std.specs.Iterator.{item_count};
    ghost use Rattle.ot_text.specs.TextLines.{YieldsLine};

    type Item = TextParts<'a>;

    ghost next_gives = { YieldsLine };

    ghost remaining = { item_count (λ lines. lines) };

    fn next(&mut self) -> Option<TextParts<'a>> {
        if !self.more {
            return None;
        }
        let rest = self.total - self.at;
        let len = line_length(part_in(self.blocks, self.total, self.at, rest));
        let line = part_in(self.blocks, self.total, self.at, len);
        if len < rest {
            self.at += len + 1;
            return Some(line);
        }
        self.more = false;
        Some(line)
    }
}

/// How many units stand before the first line feed, or how many there are where there is none.
fn line_length(parts: TextParts<'_>) -> usize
    requires { length (joined parts) < 2 ^ 64 }
    ensures { result ≡ position_or_len (λ unit. unit == 10) (joined parts.entry) }
{
    let mut left = parts;
    let mut before = 0;
    while let Some(part) = left.next() {
        let len = feed_place(part);
        before += len;
        if len < part.len() {
            return before;
        }
    }
    before
}

/// The place of the first line feed, or the end.
#[tactic(auto, using(crate::proofs::Lining::feed_some, crate::proofs::Lining::feed_none))]
fn feed_place(units: &[u16]) -> usize
    ensures { result ≡ position_or_len (λ unit. unit == 10) units.now }
{
    match line_feed_place(units) {
        Some(at) => at,
        None => units.len(),
    }
}

/// The place of the first line feed.
fn line_feed_place(units: &[u16]) -> Option<usize>
    ensures { result ≡ position (λ unit. unit == 10) units.now }
{
    units.iter().position(|unit| *unit == LINE_FEED)
}
