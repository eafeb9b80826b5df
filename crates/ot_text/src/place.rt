//! Where units and chunks stand.

ghost use Rattle.std.specs.Prelude.{◌≡◌, ◌↔◌, ◌≤◌, ◌<◌, ◌^◌, length, IsNone, IfSome};
ghost use Rattle.ot_text.specs.Lists.{joined, list_at, IsItemPlace};
ghost use Rattle.ot_text.specs.Blocks.{IsBlockPlace};

use crate::block::Block;
use crate::chunk::Chunk;

/// Where a unit stands: the number of its chunk, its block, the chunk's place there, and the unit's
/// place in the chunk.
#[derive(Drop)]
pub(crate) struct Place {
    pub(crate) number: usize,
    pub(crate) block: usize,
    pub(crate) chunk: usize,
    pub(crate) unit: usize,
}

/// The place of unit number `at`.
pub(crate) fn find(blocks: &[Block], at: usize) -> Place
    requires inside { at < length (joined (joined blocks.now)) }
    requires few { length (joined blocks.now) < 2 ^ 64 }
    ensures chunk { IsItemPlace blocks.now result.number result.block result.chunk }
    ensures unit { IsItemPlace (joined blocks.now) at result.number result.unit }
{
    let (block, before, rest) = find_block(blocks, at);
    let (chunk, unit) = find_chunk(blocks[block].as_slice(), rest);
    Place {
        number: before + chunk,
        block,
        chunk,
        unit,
    }
}

/// The block in which unit number `at` stands, how many chunks stand before it, and the unit's number in it.
fn find_block(blocks: &[Block], at: usize) -> (usize, usize, usize)
    requires inside { at < length (joined (joined blocks.now)) }
    requires few { length (joined blocks.now) < 2 ^ 64 }
    ensures { IsBlockPlace blocks.now at result.0 result.1 result.2 }
{
    let mut rest = at;
    let mut before = 0;
    for (i, block) in blocks.iter().enumerate() {
        let len = block.len();
        if rest < len {
            return (i, before, rest);
        }
        rest -= len;
        before += block.count();
    }
    (0, before, rest)
}

/// The chunk in which unit number `at` stands, and its number there.
fn find_chunk(chunks: &[Chunk], at: usize) -> (usize, usize)
    requires { at < length (joined chunks.now) }
    ensures { IsItemPlace chunks.now at result.0 result.1 }
{
    let mut rest = at;
    for (i, chunk) in chunks.iter().enumerate() {
        let len = chunk.len();
        if rest < len {
            return (i, rest);
        }
        rest -= len;
    }
    (0, rest)
}

/// The block of chunk number `number`, and its place there.
pub(crate) fn block_of(blocks: &[Block], number: usize) -> (usize, usize)
    requires { number < length (joined blocks.now) }
    ensures { IsItemPlace blocks.now number result.0 result.1 }
{
    let mut rest = number;
    for (i, block) in blocks.iter().enumerate() {
        let count = block.count();
        if rest < count {
            return (i, rest);
        }
        rest -= count;
    }
    (0, rest)
}

/// The chunk at a place.
#[tactic(auto, using(crate::proofs::Blocking::item_read))]
pub(crate) fn chunk_at(blocks: &[Block], block: usize, chunk: usize, number: usize) -> &Chunk
    requires { IsItemPlace blocks.now number block chunk }
    ensures { result.now ≡ list_at (joined blocks.now) number }
{
    &blocks[block].as_slice()[chunk]
}

/// How many chunks there are.
#[tactic(auto, using(crate::proofs::Joining::joined_more, crate::proofs::Blocking::count_within))]
pub(crate) fn count_chunks(blocks: &[Block]) -> usize
    requires { length (joined blocks.now) < 2 ^ 64 }
    ensures { result ≡ length (joined blocks.now) }
{
    let mut count = 0;
    for block in blocks {
        count += block.count();
    }
    count
}
