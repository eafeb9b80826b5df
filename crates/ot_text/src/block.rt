//! A block: some chunks that several texts may share. It changes only where one text alone has it.

ghost use Rattle.std.specs.Prelude.{◌≡◌, ◌≤◌, ◌<◌, ◌++◌, length, slice_set, IfOk, OnOk, OnErr, MatchBool};
ghost use Rattle.ot_units.specs.Text.{put_at};
ghost use Rattle.ot_text.specs.Lists.{joined, list_at};

use crate::chunk::Chunk;
use std::alloc::{AllocError, Global};
use std::marker::Model;
use std::sync::Arc;

/// Chunks that copies of a text share.
#[derive(Debug, Drop)]
pub(crate) struct Block {
    chunks: Arc<Vec<Chunk>, Global>,
    count: usize,
    len: usize,
}

impl Model for Block {
    ghost use Rattle.std.specs.Prelude.{ℕ, List};
    ghost use Rattle.std.specs.Arc.{arc_value};
    ghost use Rattle.ot_text.specs.Chunks.{IsCounted};

    ghost Value = { List (List ℕ) };

    ghost view = { λ b. (arc_value b.chunks).items };

    ghost invariant = { λ b. IsCounted (arc_value b.chunks).items b.count b.len };
}

impl Block {
    /// A block of these chunks.
    pub(crate) fn new(alloc: Global, chunks: Vec<Chunk>) -> Result<Block, AllocError>
        ensures { IfOk result (λ made. made ≡ chunks.items) }
    {
        let len = total_length(chunks.as_slice())?;
        let count = chunks.len();
        let chunks = Arc::new(alloc, chunks)?;
        Ok(Block { chunks, count, len })
    }

    /// The same block once more: no chunks are copied.
    pub(crate) fn share(&self) -> Result<Block, AllocError>
        ensures { IfOk result (λ made. made ≡ self.now) }
    {
        let chunks = Arc::try_clone(&self.chunks)?;
        Ok(Block {
            chunks,
            count: self.count,
            len: self.len,
        })
    }

    /// The chunks.
    pub(crate) fn as_slice(&self) -> &[Chunk]
        ensures { result.now ≡ self.now }
    {
        self.chunks.as_slice()
    }

    /// How many chunks.
    pub(crate) fn count(&self) -> usize
        ensures { result ≡ length self.now }
    {
        self.count
    }

    /// How many units.
    pub(crate) fn len(&self) -> usize
        ensures { result ≡ length (joined self.now) }
    {
        self.len
    }
}

impl Block {
    /// Puts `other` in before unit number `at` of a chunk where no other text shares the block and the
    /// chunk, and says whether it did.
    pub(crate) fn put_alone(
        &mut self,
        chunk: usize,
        at: usize,
        other: &[u16],
    ) -> Result<bool, AllocError>
        requires chunk { chunk < length self.old }
        requires unit { at ≤ length (list_at self.old chunk) }
        ensures done { IfOk result (λ done. MatchBool done (self.new ≡ slice_set self.old chunk (put_at (list_at self.old chunk) at other.now)) (self.new ≡ self.old)) }
        ensures err { OnErr result (self.new ≡ self.old) }
    {
        if other.len() > usize::MAX - self.len {
            return Ok(false);
        }
        let Some(chunks) = Arc::get_mut(&mut self.chunks) else {
            return Ok(false);
        };
        if !chunks[chunk].put_alone(at, other)? {
            return Ok(false);
        }
        self.len += other.len();
        Ok(true)
    }
}

/// How many units the chunks have.
#[tactic(auto, using(crate::proofs::Joining::joined_more))]
fn total_length(chunks: &[Chunk]) -> Result<usize, AllocError>
    ensures { IfOk result (λ len. len ≡ length (joined chunks.now)) }
{
    let mut total = 0;
    for chunk in chunks {
        let len = chunk.len();
        if len > usize::MAX - total {
            return Err(AllocError);
        }
        total += len;
    }
    Ok(total)
}

/// Puts the same chunks once more behind these.
pub(crate) fn push_shared(made: &mut Vec<Chunk>, chunks: &[Chunk]) -> Result<(), AllocError>
    ensures { OnOk result (made.new.items ≡ made.old.items ++ chunks.now) }
{
    for chunk in chunks {
        made.push(chunk.share()?)?;
    }
    Ok(())
}

/// The same blocks once more.
pub(crate) fn share_all(alloc: Global, blocks: &[Block]) -> Result<Vec<Block>, AllocError>
    ensures { IfOk result (λ made. made.items ≡ blocks.now) }
{
    let mut made = Vec::with_capacity(alloc, blocks.len())?;
    for block in blocks {
        made.push(block.share()?)?;
    }
    Ok(made)
}

/// Puts the units of the chunks behind these.
fn push_units(made: &mut Vec<u16>, chunks: &[Chunk]) -> Result<(), AllocError>
    ensures { OnOk result (made.new.items ≡ made.old.items ++ joined chunks.now) }
{
    for chunk in chunks {
        made.extend_from_slice(chunk.as_slice())?;
    }
    Ok(())
}

/// The units of the blocks in one list.
pub(crate) fn gather(alloc: Global, blocks: &[Block]) -> Result<Vec<u16>, AllocError>
    ensures { IfOk result (λ made. made.items ≡ joined (joined blocks.now)) }
{
    let mut made = Vec::new(alloc);
    for block in blocks {
        push_units(&mut made, block.as_slice())?;
    }
    Ok(made)
}
