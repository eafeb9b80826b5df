//! What new chunks make of the blocks of a text.

ghost use Rattle.std.specs.Prelude.{◌≡◌, ◌≤◌, ◌<◌, ◌+◌, ◌-◌, ◌^◌, ◌++◌, ◌↔◌, All, IsTrue, length, take, drop, IfOk};
ghost use Rattle.ot_text.specs.Lists.{joined, patched, filled, IsEdgePlace, list_at};
ghost use Rattle.ot_text.specs.Chunks.{IsBlock};

use crate::block::{Block, push_shared};
use crate::chunk::Chunk;
use crate::place::{block_of, count_chunks};
use std::alloc::{AllocError, Global};

/// The most chunks of a block.
const MOST: usize = 64;

/// How many chunks go into a block where more than the most of them are cut up.
const PIECE: usize = 32;

/// The blocks from number `from` up to `to` become the new ones.
#[derive(Drop)]
pub(crate) struct BlockPatch {
    pub(crate) from: usize,
    pub(crate) to: usize,
    pub(crate) new: Vec<Block>,
}

/// The blocks from number `from` up to `to` become these chunks.
#[derive(Drop)]
struct BlockHole {
    from: usize,
    to: usize,
    chunks: Vec<Chunk>,
}

/// The place before chunk number `number`: its block or the one that ends there, and the place in it.
fn edge_of(blocks: &[Block], number: usize) -> (usize, usize)
    requires some { 0 < length blocks.now }
    requires inside { number ≤ length (joined blocks.now) }
    ensures { IsEdgePlace blocks.now number result.0 result.1 }
{
    if number == 0 {
        return (0, 0);
    }
    let (block, chunk) = block_of(blocks, number - 1);
    (block, chunk + 1)
}

/// The chunks before `first` in its block, the new ones, and those of the block of `last` from there on.
fn open(
    alloc: Global,
    blocks: &[Block],
    first: (usize, usize),
    last: (usize, usize),
    new: &[Chunk],
) -> Result<BlockHole, AllocError>
    requires first { (first.0 < length blocks.now) × (first.1 ≤ length (list_at blocks.now first.0)) }
    requires last { (last.0 < length blocks.now) × (last.1 ≤ length (list_at blocks.now last.0)) }
    ensures from { IfOk result (λ hole. hole.from ≡ first.0) }
    ensures to { IfOk result (λ hole. hole.to ≡ last.0 + 1) }
    ensures chunks { IfOk result (λ hole. hole.chunks.items ≡ take first.1 (list_at blocks.now first.0) ++ new.now ++ drop last.1 (list_at blocks.now last.0)) }
{
    let mut chunks = Vec::with_capacity(alloc, MOST)?;
    let (from, place) = first;
    push_shared(&mut chunks, &blocks[from].as_slice()[..place])?;
    push_shared(&mut chunks, new)?;
    let (to, place) = last;
    push_shared(&mut chunks, &blocks[to].as_slice()[place..])?;
    Ok(BlockHole {
        from,
        to: to + 1,
        chunks,
    })
}

/// Whether the chunks from number `from` up to `to` are all there are.
fn is_all(blocks: &[Block], from: usize, to: usize) -> bool
    requires { length (joined blocks.now) < 2 ^ 64 }
    ensures { IsTrue result ↔ ((from ≡ 0) × (to ≡ length (joined blocks.now))) }
{
    from == 0 && to == count_chunks(blocks)
}

/// The hole in the blocks in which the chunks from number `from` up to `to` become the new ones.
fn block_hole(
    alloc: Global,
    blocks: &[Block],
    from: usize,
    to: usize,
    new: Vec<Chunk>,
) -> Result<BlockHole, AllocError>
    requires few { length (joined blocks.now) < 2 ^ 64 }
    requires ordered { from ≤ to }
    requires inside { to ≤ length (joined blocks.now) }
    ensures inside { IfOk result (λ hole. (hole.from ≤ hole.to) × (hole.to ≤ length blocks.now)) }
    ensures filled { IfOk result (λ hole. filled blocks.now hole.from hole.to hole.chunks.items ≡ patched (joined blocks.now) from to new.items) }
{
    if blocks.is_empty() {
        return Ok(BlockHole {
            from: 0,
            to: 0,
            chunks: new,
        });
    }
    if is_all(blocks, from, to) {
        return Ok(BlockHole {
            from: 0,
            to: blocks.len(),
            chunks: new,
        });
    }
    if from == to {
        let edge = edge_of(blocks, from);
        let hole = open(alloc, blocks, edge, edge, new.as_slice())?;
        return Ok(hole);
    }
    let first = block_of(blocks, from);
    let (block, chunk) = block_of(blocks, to - 1);
    let hole = open(alloc, blocks, first, (block, chunk + 1), new.as_slice())?;
    Ok(hole)
}

/// Whether so many chunks and so many others are few enough for one block to have room for more.
fn has_room(count: usize, others: usize) -> bool
    ensures { IsTrue result ↔ (count + others ≤ PIECE) }
{
    count <= PIECE && others <= PIECE - count
}

/// Takes the next block in where there is room for it.
#[tactic(auto, using(crate::proofs::Blocking::next_block))]
fn take_next(blocks: &[Block], hole: BlockHole) -> Result<BlockHole, AllocError>
    requires inside { hole.to ≤ length blocks.now }
    ensures from { IfOk result (λ made. made.from ≡ hole.from) }
    ensures to { IfOk result (λ made. (hole.to ≤ made.to) × (made.to ≤ length blocks.now)) }
    ensures same { IfOk result (λ made. filled blocks.now made.from made.to made.chunks.items ≡ filled blocks.now hole.from hole.to hole.chunks.items) }
{
    let BlockHole {
        from,
        to,
        mut chunks,
    } = hole;
    if to == blocks.len() || !has_room(chunks.len(), blocks[to].count()) {
        return Ok(BlockHole { from, to, chunks });
    }
    push_shared(&mut chunks, blocks[to].as_slice())?;
    Ok(BlockHole {
        from,
        to: to + 1,
        chunks,
    })
}

/// The chunks in blocks.
fn cut_up(alloc: Global, chunks: Vec<Chunk>) -> Result<Vec<Block>, AllocError>
    ensures joined { IfOk result (λ made. joined made.items ≡ chunks.items) }
    ensures each { IfOk result (λ made. All IsBlock made.items) }
{
    let mut made = Vec::new(alloc);
    if chunks.is_empty() {
        return Ok(made);
    }
    if chunks.len() <= MOST {
        made.push(Block::new(alloc, chunks)?)?;
        return Ok(made);
    }
    cut_into(alloc, chunks.as_slice())
}

/// The chunks in blocks of so many.
pub(crate) fn cut_into(alloc: Global, chunks: &[Chunk]) -> Result<Vec<Block>, AllocError>
    ensures joined { IfOk result (λ made. joined made.items ≡ chunks.now) }
    ensures each { IfOk result (λ made. All IsBlock made.items) }
{
    let mut made = Vec::new(alloc);
    let mut rest = chunks;
    while !rest.is_empty() {
        let (front, behind) = rest.split_at(rest.len().min(PIECE));
        let mut part = Vec::with_capacity(alloc, front.len())?;
        push_shared(&mut part, front)?;
        made.push(Block::new(alloc, part)?)?;
        rest = behind;
    }
    Ok(made)
}

/// The patch of the blocks in which the chunks from number `from` up to `to` become the new ones.
pub(crate) fn block_patch(
    alloc: Global,
    blocks: &[Block],
    from: usize,
    to: usize,
    new: Vec<Chunk>,
) -> Result<BlockPatch, AllocError>
    requires few { length (joined blocks.now) < 2 ^ 64 }
    requires ordered { from ≤ to }
    requires inside { to ≤ length (joined blocks.now) }
    ensures inside { IfOk result (λ made. (made.from ≤ made.to) × (made.to ≤ length blocks.now)) }
    ensures each { IfOk result (λ made. All IsBlock made.new.items) }
    ensures chunks { IfOk result (λ made. joined (patched blocks.now made.from made.to made.new.items) ≡ patched (joined blocks.now) from to new.items) }
{
    let hole = block_hole(alloc, blocks, from, to, new)?;
    let hole = take_next(blocks, hole)?;
    let BlockHole { from, to, chunks } = hole;
    let new = cut_up(alloc, chunks)?;
    Ok(BlockPatch { from, to, new })
}
