//! Replacing items of a list in the room that it has.

ghost use Rattle.std.specs.Prelude.{◌≡◌, ◌≤◌, ◌+◌, ◌-◌, ◌++◌, take, drop, vec_len, vec_capacity};

use crate::block::Block;

/// Takes the blocks from `from` up to `to` out.
fn cut_out(blocks: &mut Vec<Block>, from: usize, to: usize)
    requires ordered { from ≤ to }
    requires inside { to ≤ vec_len blocks.old }
    ensures items { blocks.new.items ≡ take from blocks.old.items ++ drop to blocks.old.items }
    ensures len { vec_len blocks.new + (to - from) ≡ vec_len blocks.old }
    ensures capacity { vec_capacity blocks.new ≡ vec_capacity blocks.old }
{
    let kept = blocks.len() - (to - from);
    blocks[from..].rotate_left(to - from);
    blocks.truncate(kept);
}

/// Puts the blocks of `new` in before number `at`, in the room that there is.
fn put_in(blocks: &mut Vec<Block>, at: usize, new: &mut Vec<Block>)
    requires inside { at ≤ vec_len blocks.old }
    requires room { vec_len blocks.old + vec_len new.old ≤ vec_capacity blocks.old }
    ensures { blocks.new.items ≡ take at blocks.old.items ++ new.old.items ++ drop at blocks.old.items }
{
    let more = new.len();
    if let Ok(()) = blocks.append(new) {
        blocks[at..].rotate_right(more);
    }
}

/// Puts the blocks of `new` in the place of those from `from` up to `to`. It takes no memory.
pub(crate) fn replace(blocks: &mut Vec<Block>, from: usize, to: usize, new: &mut Vec<Block>)
    requires ordered { from ≤ to }
    requires inside { to ≤ vec_len blocks.old }
    requires room { vec_len blocks.old + vec_len new.old ≤ vec_capacity blocks.old + (to - from) }
    ensures { blocks.new.items ≡ take from blocks.old.items ++ new.old.items ++ drop to blocks.old.items }
{
    cut_out(blocks, from, to);
    put_in(blocks, from, new);
}
