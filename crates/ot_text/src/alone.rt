//! Inserts into a chunk that no other text shares: it is changed in place.

ghost use Rattle.std.specs.Prelude.{◌≡◌, ◌≤◌, ◌<◌, ◌+◌, ◌^◌, length, slice_set, IfOk, OnErr, MatchBool};
ghost use Rattle.ot_units.specs.Text.{put_at};
ghost use Rattle.ot_text.specs.Lists.{joined, list_at};
ghost use Rattle.ot_text.specs.Chunks.{AreBlocks};

use crate::block::Block;
use crate::hole::ROOM;
use crate::place::{Place, chunk_at, find};
use std::alloc::AllocError;

/// Puts `other` in before unit number `at`, where a chunk that no other text shares has the unit before
/// it and room, and says whether it did.
pub(crate) fn put_alone(
    blocks: &mut Vec<Block>,
    at: usize,
    other: &[u16],
) -> Result<bool, AllocError>
    requires few { length (joined blocks.old.items) < 2 ^ 64 }
    requires blocks { AreBlocks blocks.old.items }
    requires inside { at ≤ length (joined (joined blocks.old.items)) }
    ensures done { IfOk result (λ done. MatchBool done ((joined (joined blocks.new.items) ≡ put_at (joined (joined blocks.old.items)) at other.now) × AreBlocks blocks.new.items) (blocks.new.items ≡ blocks.old.items)) }
    ensures err { OnErr result (blocks.new.items ≡ blocks.old.items) }
{
    if at == 0 || other.len() > ROOM {
        return Ok(false);
    }
    let place = find(blocks.as_slice(), at - 1);
    let chunk = chunk_at(blocks.as_slice(), place.block, place.chunk, place.number);
    if chunk.len() > ROOM - other.len() {
        return Ok(false);
    }
    if put_behind(blocks, &place, other)? {
        return Ok(true);
    }
    Ok(false)
}

/// Puts `other` in behind the unit at a place where no other text shares its chunk, and says whether it did.
fn put_behind(blocks: &mut Vec<Block>, place: &Place, other: &[u16]) -> Result<bool, AllocError>
    requires block { place.now.block < length blocks.old.items }
    requires chunk { place.now.chunk < length (list_at blocks.old.items place.now.block) }
    requires small { place.now.unit < 1024 }
    requires unit { place.now.unit < length (list_at (list_at blocks.old.items place.now.block) place.now.chunk) }
    ensures done { IfOk result (λ done. MatchBool done (blocks.new.items ≡ slice_set blocks.old.items place.now.block (slice_set (list_at blocks.old.items place.now.block) place.now.chunk (put_at (list_at (list_at blocks.old.items place.now.block) place.now.chunk) (place.now.unit + 1) other.now))) (blocks.new.items ≡ blocks.old.items)) }
    ensures err { OnErr result (blocks.new.items ≡ blocks.old.items) }
{
    let block = &mut blocks[place.block];
    block.put_alone(place.chunk, place.unit + 1, other)
}
