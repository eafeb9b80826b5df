//! Edits of a list of chunks: what becomes of some of them.

ghost use Rattle.std.specs.Prelude.{◌≡◌, ◌≤◌, ◌<◌, ◌+◌, ◌^◌, ◌++◌, length, take, drop, IfOk, MatchBool};
ghost use Rattle.ot_text.specs.Lists.{joined, list_at, filled};
ghost use Rattle.ot_text.specs.Chunks.{first_length, last_length, Chain, Joins, AreChunks, IsCutUp};

use crate::block::Block;
use crate::chunk::Chunk;
use crate::place::{block_of, chunk_at, count_chunks};
use std::alloc::{AllocError, Global};

/// Neighbours with so many units together become one chunk.
const SMALL: usize = 512;

/// The most units of a chunk.
pub(crate) const ROOM: usize = 1024;

/// The chunks from number `from` up to `to` become these units.
#[derive(Drop)]
pub(crate) struct Hole {
    pub(crate) from: usize,
    pub(crate) to: usize,
    pub(crate) units: Vec<u16>,
}

/// The units one behind the other.
pub(crate) fn put_together(
    alloc: Global,
    front: &[u16],
    other: &[u16],
    back: &[u16],
) -> Result<Vec<u16>, AllocError>
    ensures { IfOk result (λ made. made.items ≡ front.now ++ other.now ++ back.now) }
{
    let mut units = Vec::with_capacity(alloc, ROOM)?;
    units.extend_from_slice(front)?;
    units.extend_from_slice(other)?;
    units.extend_from_slice(back)?;
    Ok(units)
}

/// The units of chunk number `number`.
fn units_of(blocks: &[Block], number: usize) -> &[u16]
    requires { number < length (joined blocks.now) }
    ensures { result.now ≡ list_at (joined blocks.now) number }
{
    let (block, chunk) = block_of(blocks, number);
    chunk_at(blocks, block, chunk, number).as_slice()
}

/// Takes the next chunk in where the two are small.
#[tactic(auto, using(crate::proofs::Splices::next_joins, crate::proofs::Splices::next_same, crate::proofs::Splices::stays_right))]
pub(crate) fn take_next(blocks: &[Block], hole: Hole) -> Result<Hole, AllocError>
    requires few { length (joined blocks.now) < 2 ^ 64 }
    requires inside { hole.to ≤ length (joined blocks.now) }
    requires chain { Chain (joined blocks.now) }
    ensures from { IfOk result (λ made. made.from ≡ hole.from) }
    ensures to { IfOk result (λ made. (hole.to ≤ made.to) × (made.to ≤ length (joined blocks.now))) }
    ensures same { IfOk result (λ made. filled (joined blocks.now) made.from made.to made.units.items ≡ filled (joined blocks.now) hole.from hole.to hole.units.items) }
    ensures joins { IfOk result (λ made. 513 ≤ length made.units.items + first_length (drop made.to (joined blocks.now))) }
{
    let Hole {
        from,
        to,
        mut units,
    } = hole;
    if to == count_chunks(blocks) {
        return Ok(Hole { from, to, units });
    }
    let next = units_of(blocks, to);
    if !are_small(next, units.as_slice()) {
        return Ok(Hole { from, to, units });
    }
    units.extend_from_slice(next)?;
    Ok(Hole {
        from,
        to: to + 1,
        units,
    })
}

/// Whether the two together are a small chunk.
fn are_small(units: &[u16], others: &[u16]) -> bool
    ensures { MatchBool result (length units.now + length others.now ≤ 512) (512 < length units.now + length others.now) }
{
    units.len() <= SMALL && others.len() <= SMALL - units.len()
}

/// Takes the chunk before in where the two are small.
#[tactic(auto, using(crate::proofs::Splices::previous_joins, crate::proofs::Splices::previous_same, crate::proofs::Splices::stays_left))]
pub(crate) fn take_previous(alloc: Global, blocks: &[Block], hole: Hole) -> Result<Hole, AllocError>
    requires inside { hole.from ≤ length (joined blocks.now) }
    requires chain { Chain (joined blocks.now) }
    requires joins { 513 ≤ length hole.units.items + first_length (drop hole.to (joined blocks.now)) }
    ensures from { IfOk result (λ made. made.from ≤ hole.from) }
    ensures to { IfOk result (λ made. made.to ≡ hole.to) }
    ensures same { IfOk result (λ made. filled (joined blocks.now) made.from made.to made.units.items ≡ filled (joined blocks.now) hole.from hole.to hole.units.items) }
    ensures joins { IfOk result (λ made. Joins (joined blocks.now) made.from made.to made.units.items) }
{
    let Hole { from, to, units } = hole;
    if from == 0 {
        return Ok(Hole { from, to, units });
    }
    let previous = units_of(blocks, from - 1);
    if !are_small(previous, units.as_slice()) {
        return Ok(Hole { from, to, units });
    }
    let mut both = Vec::with_capacity(alloc, ROOM)?;
    both.extend_from_slice(previous)?;
    both.extend_from_slice(units.as_slice())?;
    Ok(Hole {
        from: from - 1,
        to,
        units: both,
    })
}

/// How many of more than 1,024 units go into a chunk, so that at least `last` stay.
fn piece_length(rest: usize, last: usize) -> usize
    requires long { 1024 < rest }
    requires most { last ≤ 513 }
    ensures least { 512 ≤ result }
    ensures most { result ≤ 1024 }
    ensures stay { result + last ≤ rest }
{
    if rest - last >= ROOM { ROOM } else { SMALL }
}

/// The units in chunks of 1,024 and 512 units, the last of at least `last`.
pub(crate) fn cut_into(alloc: Global, units: &[u16], last: usize) -> Result<Vec<Chunk>, AllocError>
    requires least { 1 ≤ last }
    requires most { last ≤ 513 }
    requires enough { last ≤ length units.now }
    ensures joined { IfOk result (λ made. joined made.items ≡ units.now) }
    ensures chunks { IfOk result (λ made. AreChunks made.items) }
    ensures first { IfOk result (λ made. last ≤ first_length made.items + 1) }
    ensures last { IfOk result (λ made. last ≤ last_length made.items) }
{
    let mut made = Vec::new(alloc);
    let mut rest = units;
    while rest.len() > ROOM {
        let len = piece_length(rest.len(), last);
        let (part, behind) = rest.split_at(len);
        made.push(Chunk::new(alloc, Vec::from_slice(alloc, part)?)?)?;
        rest = behind;
    }
    made.push(Chunk::new(alloc, Vec::from_slice(alloc, rest)?)?)?;
    Ok(made)
}

/// The units in chunks.
pub(crate) fn cut_up(alloc: Global, units: Vec<u16>) -> Result<Vec<Chunk>, AllocError>
    ensures joined { IfOk result (λ made. joined made.items ≡ units.items) }
    ensures chunks { IfOk result (λ made. AreChunks made.items) }
    ensures ends { IfOk result (λ made. IsCutUp units.items made.items) }
{
    if units.is_empty() {
        return Ok(Vec::new(alloc));
    }
    if units.len() > ROOM {
        return cut_into(alloc, units.as_slice(), SMALL + 1);
    }
    let mut made = Vec::with_capacity(alloc, 1)?;
    made.push(Chunk::new(alloc, units)?)?;
    Ok(made)
}
