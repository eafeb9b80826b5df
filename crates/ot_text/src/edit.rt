//! What an insert or a removal makes of the chunks of a text.

ghost use Rattle.std.specs.Prelude.{◌≡◌, ◌≤◌, ◌<◌, ◌+◌, ◌-◌, ◌^◌, length, vec_len, vec_capacity, IfOk, OnOk, OnErr};
ghost use Rattle.ot_units.specs.Text.{put_at, cut_at};
ghost use Rattle.ot_text.specs.Lists.{joined, filled, patched};
ghost use Rattle.ot_text.specs.Chunks.{AreChunks, AreBlocks, IsChunkPatch};
ghost use Rattle.ot_text.specs.Blocks.{IsBlockPatch};

use crate::alone::put_alone;
use crate::block::Block;
use crate::chunk::Chunk;
use crate::hole::{Hole, cut_up, put_together, take_next, take_previous};
use crate::list::replace;
use crate::patch::{BlockPatch, block_patch};
use crate::place::{chunk_at, find};
use std::alloc::{AllocError, Global};

/// The chunks from number `from` up to `to` become the new ones.
#[derive(Drop)]
pub(crate) struct ChunkPatch {
    pub(crate) from: usize,
    pub(crate) to: usize,
    pub(crate) new: Vec<Chunk>,
}

/// The hole in which `other` is put in before unit number `at`.
fn put_hole(alloc: Global, blocks: &[Block], at: usize, other: &[u16]) -> Result<Hole, AllocError>
    requires in_text { at ≤ length (joined (joined blocks.now)) }
    requires few { length (joined blocks.now) < 2 ^ 64 }
    ensures inside { IfOk result (λ hole. (hole.from ≤ hole.to) × (hole.to ≤ length (joined blocks.now))) }
    ensures filled { IfOk result (λ hole. filled (joined blocks.now) hole.from hole.to hole.units.items ≡ put_at (joined (joined blocks.now)) at other.now) }
{
    if at == 0 {
        let units = Vec::from_slice(alloc, other)?;
        return Ok(Hole {
            from: 0,
            to: 0,
            units,
        });
    }
    let place = find(blocks, at - 1);
    let chunk = chunk_at(blocks, place.block, place.chunk, place.number).as_slice();
    let (front, back) = chunk.split_at(place.unit + 1);
    let units = put_together(alloc, front, other, back)?;
    Ok(Hole {
        from: place.number,
        to: place.number + 1,
        units,
    })
}

/// The hole in which the part is taken out.
fn cut_hole(alloc: Global, blocks: &[Block], at: usize, len: usize) -> Result<Hole, AllocError>
    requires some { 0 < len }
    requires inside { at + len ≤ length (joined (joined blocks.now)) }
    requires counted { length (joined (joined blocks.now)) < 2 ^ 64 }
    requires few { length (joined blocks.now) < 2 ^ 64 }
    ensures inside { IfOk result (λ hole. (hole.from ≤ hole.to) × (hole.to ≤ length (joined blocks.now))) }
    ensures filled { IfOk result (λ hole. filled (joined blocks.now) hole.from hole.to hole.units.items ≡ cut_at (joined (joined blocks.now)) at len) }
{
    let first = find(blocks, at);
    let last = find(blocks, at + (len - 1));
    let front = chunk_at(blocks, first.block, first.chunk, first.number).as_slice();
    let back = chunk_at(blocks, last.block, last.chunk, last.number).as_slice();
    let units = put_together(alloc, &front[..first.unit], &[], &back[last.unit + 1..])?;
    Ok(Hole {
        from: first.number,
        to: last.number + 1,
        units,
    })
}

/// The patch that fills a hole.
fn fill_hole(alloc: Global, blocks: &[Block], hole: Hole) -> Result<ChunkPatch, AllocError>
    requires few { length (joined blocks.now) < 2 ^ 64 }
    requires chunks { AreChunks (joined blocks.now) }
    requires ordered { hole.from ≤ hole.to }
    requires inside { hole.to ≤ length (joined blocks.now) }
    ensures patch { IfOk result (λ made. IsChunkPatch (joined blocks.now) made.from made.to made.new.items) }
    ensures joined { IfOk result (λ made. joined (patched (joined blocks.now) made.from made.to made.new.items) ≡ filled (joined blocks.now) hole.from hole.to hole.units.items) }
{
    let hole = take_next(blocks, hole)?;
    let hole = take_previous(alloc, blocks, hole)?;
    let Hole { from, to, units } = hole;
    let new = cut_up(alloc, units)?;
    Ok(ChunkPatch { from, to, new })
}

/// The patch of the blocks that fills a hole, and room for it in their list.
fn patch_hole(alloc: Global, blocks: &mut Vec<Block>, hole: Hole) -> Result<BlockPatch, AllocError>
    requires few { length (joined blocks.old.items) < 2 ^ 64 }
    requires blocks { AreBlocks blocks.old.items }
    requires ordered { hole.from ≤ hole.to }
    requires inside { hole.to ≤ length (joined blocks.old.items) }
    ensures same { blocks.new.items ≡ blocks.old.items }
    ensures patch { IfOk result (λ made. IsBlockPatch blocks.old.items (vec_capacity blocks.new - vec_len blocks.new) made.from made.to made.new.items) }
    ensures joined { IfOk result (λ made. joined (joined (patched blocks.old.items made.from made.to made.new.items)) ≡ filled (joined blocks.old.items) hole.from hole.to hole.units.items) }
{
    let chunks = fill_hole(alloc, blocks.as_slice(), hole)?;
    let patch = block_patch(alloc, blocks.as_slice(), chunks.from, chunks.to, chunks.new)?;
    blocks.reserve(patch.new.len().saturating_sub(patch.to - patch.from))?;
    Ok(patch)
}

/// Puts `other` in before unit number `at`. Where memory is wanting, nothing changes.
pub(crate) fn put_units(blocks: &mut Vec<Block>, at: usize, other: &[u16]) -> Result<(), AllocError>
    requires few { length (joined blocks.old.items) < 2 ^ 64 }
    requires blocks { AreBlocks blocks.old.items }
    requires inside { at ≤ length (joined (joined blocks.old.items)) }
    ensures puts { OnOk result (joined (joined blocks.new.items) ≡ put_at (joined (joined blocks.old.items)) at other.now) }
    ensures blocks { OnOk result (AreBlocks blocks.new.items) }
    ensures err { OnErr result (blocks.new.items ≡ blocks.old.items) }
{
    if put_alone(blocks, at, other)? {
        return Ok(());
    }
    let BlockPatch { from, to, mut new } = put_patch(blocks, at, other)?;
    replace(blocks, from, to, &mut new);
    Ok(())
}

/// The patch that puts `other` in before unit number `at`.
fn put_patch(blocks: &mut Vec<Block>, at: usize, other: &[u16]) -> Result<BlockPatch, AllocError>
    requires few { length (joined blocks.old.items) < 2 ^ 64 }
    requires blocks { AreBlocks blocks.old.items }
    requires inside { at ≤ length (joined (joined blocks.old.items)) }
    ensures same { blocks.new.items ≡ blocks.old.items }
    ensures patch { IfOk result (λ made. IsBlockPatch blocks.old.items (vec_capacity blocks.new - vec_len blocks.new) made.from made.to made.new.items) }
    ensures puts { IfOk result (λ made. joined (joined (patched blocks.old.items made.from made.to made.new.items)) ≡ put_at (joined (joined blocks.old.items)) at other.now) }
{
    let alloc = *blocks.allocator();
    let hole = put_hole(alloc, blocks.as_slice(), at, other)?;
    patch_hole(alloc, blocks, hole)
}

/// The patch that takes the part out.
pub(crate) fn cut_patch(
    blocks: &mut Vec<Block>,
    at: usize,
    len: usize,
) -> Result<BlockPatch, AllocError>
    requires few { length (joined blocks.old.items) < 2 ^ 64 }
    requires blocks { AreBlocks blocks.old.items }
    requires inside { at + len ≤ length (joined (joined blocks.old.items)) }
    requires counted { length (joined (joined blocks.old.items)) < 2 ^ 64 }
    ensures same { blocks.new.items ≡ blocks.old.items }
    ensures patch { IfOk result (λ made. IsBlockPatch blocks.old.items (vec_capacity blocks.new - vec_len blocks.new) made.from made.to made.new.items) }
    ensures cuts { IfOk result (λ made. joined (joined (patched blocks.old.items made.from made.to made.new.items)) ≡ cut_at (joined (joined blocks.old.items)) at len) }
{
    let alloc = *blocks.allocator();
    if len == 0 {
        return Ok(BlockPatch {
            from: 0,
            to: 0,
            new: Vec::new(alloc),
        });
    }
    let hole = cut_hole(alloc, blocks.as_slice(), at, len)?;
    patch_hole(alloc, blocks, hole)
}
