//! Parts of a text in chunks, slice by slice.

ghost use Rattle.std.specs.Prelude.{◌≡◌, ◌≤◌, ◌<◌, ◌+◌, ◌*◌, ◌^◌, ◌++◌, [], length, take, All, ◌↔◌, ◌≢◌, IsTrue, MatchBool, IsNone, IfSome, IfOk};
ghost use Rattle.ot_text.specs.Lists.{joined};
ghost use Rattle.ot_text.specs.Chunks.{AreBlocks, IsBlock, IsChunk};
ghost use Rattle.ot_text.specs.Slices.{slices_of};
ghost use Rattle.ot_text.specs.Texts.{IsKept};
ghost use Rattle.ot_units.specs.Text.{IsText, part_at};
ghost use Rattle.ot_op.specs.Apply.{stands};

use crate::block::Block;
use crate::chunk::Chunk;
use crate::place::{chunk_at, find};
use ot_units::Units;
use std::alloc::{AllocError, Global};
use std::marker::Model;

/// The slices of a part of a text that are still to come.
#[derive(Drop)]
pub struct TextParts<'a> {
    first: &'a [u16],
    chunks: &'a [Chunk],
    blocks: &'a [Block],
    len: usize,
}

impl<'a> Model for TextParts<'a> {
    ghost use Rattle.std.specs.Prelude.{ℕ, List};
    ghost use Rattle.ot_text.specs.Slices.{slices_left, IsSliced};

    ghost Value = { List (List ℕ) };

    ghost view = { slices_left };

    ghost invariant = { IsSliced };
}

/// No slices.
pub(crate) fn no_parts<'a>() -> TextParts<'a>
    ensures { result ≡ [] }
{
    TextParts {
        first: &[],
        chunks: &[],
        blocks: &[],
        len: 0,
    }
}

/// The `len` units from number `at` on.
pub(crate) fn part_of(blocks: &[Block], at: usize, len: usize) -> TextParts<'_>
    requires some { 0 < len }
    requires inside { at + len ≤ length (joined (joined blocks.now)) }
    requires few { length (joined blocks.now) < 2 ^ 64 }
    requires blocks { AreBlocks blocks.now }
    ensures part { joined result ≡ part_at (joined (joined blocks.now)) at len }
    ensures sizes { All IsChunk result }
    ensures few { 256 * length result ≤ length (joined (joined blocks.now)) + 256 }
{
    let place = find(blocks, at);
    let chunk = chunk_at(blocks, place.block, place.chunk, place.number);
    let first = &chunk.as_slice()[place.unit..];
    let chunks = &blocks[place.block].as_slice()[place.chunk + 1..];
    parts_of(first, chunks, &blocks[place.block + 1..], len)
}

/// So many units of the first slice and of the chunks behind it.
fn parts_of<'a>(
    first: &'a [u16],
    chunks: &'a [Chunk],
    blocks: &'a [Block],
    len: usize,
) -> TextParts<'a>
    requires { All IsBlock blocks.now }
    ensures { result ≡ slices_of first.now (chunks.now ++ joined blocks.now) len }
{
    TextParts {
        first,
        chunks,
        blocks,
        len,
    }
}

impl<'a> Iterator for TextParts<'a> {
    ghost use Rattle.std.specs.Iterator.{YieldsFirstRef, item_count};

    type Item = &'a [u16];

    ghost next_gives = { YieldsFirstRef (λ slices. slices) };

    ghost remaining = { item_count (λ slices. slices) };

    #[tactic(auto, using(crate::proofs::Slicing::slices_more, crate::proofs::Slicing::slices_over, crate::proofs::Slicing::slices_one, crate::proofs::Slicing::slices_none))]
    fn next(&mut self) -> Option<&'a [u16]> {
        if self.len == 0 {
            return None;
        }
        let part = up_to(self.first, self.len);
        if let Some((chunk, behind)) = self.chunks.split_first() {
            self.first = chunk.as_slice();
            self.chunks = behind;
            self.len -= part.len();
            return Some(part);
        }
        match self.blocks.split_first() {
            Some((block, behind)) => {
                let chunks = block.as_slice();
                self.first = chunks[0].as_slice();
                self.chunks = &chunks[1..];
                self.blocks = behind;
                self.len -= part.len();
            }
            None => self.len = 0,
        }
        Some(part)
    }
}

/// The first units, so many where there are.
fn up_to(units: &[u16], len: usize) -> &[u16]
    ensures value { result.now ≡ take len units.now }
    ensures most { length result.now ≤ len }
{
    if units.len() > len {
        &units[..len]
    } else {
        units
    }
}

/// The `len` units from number `at` on of a text of so many, or `None` exactly where they end past it.
pub(crate) fn parts_within(
    blocks: &[Block],
    total: usize,
    at: usize,
    len: usize,
) -> Option<TextParts<'_>>
    requires { IsKept blocks.now total }
    ensures past_the_end { IsNone result ↔ (length (joined (joined blocks.now)) < at + len) }
    ensures part { IfSome result (λ parts. joined parts ≡ part_at (joined (joined blocks.now)) at len) }
    ensures sizes { IfSome result (λ parts. All IsChunk parts) }
    ensures few { IfSome result (λ parts. 256 * length parts ≤ length (joined (joined blocks.now)) + 256) }
{
    if at > total || len > total - at {
        return None;
    }
    let parts = part_in(blocks, total, at, len);
    Some(parts)
}

/// The `len` units from number `at` on of a text of so many.
#[tactic(auto, using(crate::proofs::Splices::few_below))]
pub(crate) fn part_in(blocks: &[Block], total: usize, at: usize, len: usize) -> TextParts<'_>
    requires kept { IsKept blocks.now total }
    requires inside { at + len ≤ total }
    ensures part { joined result ≡ part_at (joined (joined blocks.now)) at len }
    ensures sizes { All IsChunk result }
    ensures few { 256 * length result ≤ length (joined (joined blocks.now)) + 256 }
{
    if len == 0 {
        return no_parts();
    }
    part_of(blocks, at, len)
}

/// Whether `other` stands whole in a text of so many units, from unit number `at` on.
pub(crate) fn stands_in(blocks: &[Block], total: usize, at: usize, other: &[u16]) -> bool
    requires { IsKept blocks.now total }
    ensures { result ≡ stands (joined (joined blocks.now)) at other.now }
{
    match parts_within(blocks, total, at, other.len()) {
        Some(parts) => are_same(parts, other),
        None => false,
    }
}

/// The units of the slices in one list.
pub(crate) fn units_of(alloc: Global, parts: TextParts<'_>) -> Result<Units, AllocError>
    requires { IsText (joined parts) }
    ensures { IfOk result (λ made. made ≡ joined parts.entry) }
{
    let units = gather(alloc, parts)?;
    Units::from_slice(alloc, units.as_slice())
}

fn gather(alloc: Global, parts: TextParts<'_>) -> Result<Vec<u16>, AllocError>
    ensures { IfOk result (λ made. made.items ≡ joined parts.entry) }
{
    let mut made = Vec::new(alloc);
    let mut left = parts;
    while let Some(part) = left.next() {
        made.extend_from_slice(part)?;
    }
    Ok(made)
}

/// Whether the slices, joined, are the units.
pub(crate) fn are_same(parts: TextParts<'_>, units: &[u16]) -> bool
    requires { length (joined parts) ≡ length units.now }
    ensures { IsTrue result ↔ (units.now ≡ joined parts.entry) }
{
    let mut left = parts;
    let mut rest = units;
    while let Some(part) = left.next() {
        let (front, behind) = rest.split_at(part.len());
        if !same(front, part) {
            return false;
        }
        rest = behind;
    }
    true
}

/// Whether the two are the same units.
fn same(units: &[u16], others: &[u16]) -> bool
    ensures { MatchBool result (units.now ≡ others.now) (units.now ≢ others.now) }
{
    units == others
}
