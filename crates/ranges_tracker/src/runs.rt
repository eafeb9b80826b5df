//! Changes put behind each other, as one where they meet, and the parts of inserts on both sides of a place.

ghost use Rattle.std.specs.Prelude.{◌≡◌, ◌<◌, ◌+◌, ◌-◌, ◌^◌, take, drop, IfOk, OnOk};
ghost use Rattle.std.specs.List.{All, flat_map};
ghost use Rattle.ranges_tracker.specs.Cells.{torn};
ghost use Rattle.ranges_tracker.specs.Torn.{tail_by};
ghost use Rattle.ranges_tracker.specs.Tracked.{pushed, pushed_all, heads, piece, tail_place};

use crate::Change;
use crate::mark::{Torn, renumber};
use crate::texts::{back_of, front_of};
use std::alloc::{AllocError, Global};

// Puts a change behind others, as one with the last where the two meet.
pub(crate) fn push_packed(made: &mut Vec<Change>, next: Change) -> Result<(), AllocError>
    ensures { OnOk result (made.new.items ≡ pushed made.old.items next) }
{
    let count = made.len();
    if count == 0 {
        made.push(next)?;
        return Ok(());
    }
    let met = made[count - 1].meets(&next);
    if !met {
        made.push(next)?;
        return Ok(());
    }
    let last = &mut made[count - 1];
    let end = last.text.len();
    last.text.put_in(end, next.text.as_slice())?;
    Ok(())
}

// The part of an insert before a place.
fn head_of(alloc: Global, change: &Change, at: u32) -> Result<Change, AllocError>
    requires { change.now.at < at }
    ensures { IfOk result (λ made. made ≡ piece change.now change.now.at (take (at - change.now.at) change.now.text)) }
{
    Ok(Change {
        version: change.version,
        k: change.k,
        at: change.at,
        kind: change.kind,
        text: front_of(alloc, &change.text, (at - change.at) as usize)?,
        user: change.user.copy(alloc)?,
        ms: change.ms,
    })
}

// The parts of inserts before a place.
pub(crate) fn push_heads(
    alloc: Global,
    made: &mut Vec<Change>,
    inserts: &[Change],
    at: u32,
) -> Result<(), AllocError>
    ensures { OnOk result (made.new.items ≡ pushed_all made.old.items (heads at inserts.now)) }
{
    for c in inserts {
        if c.at < at {
            push_packed(made, head_of(alloc, c, at)?)?;
        }
    }
    Ok(())
}

// The part of an insert from a place on, at its new place.
fn tail_of(alloc: Global, change: &Change, from: u32, to: u32) -> Result<Change, AllocError>
    requires { change.now.at + to < 2 ^ 32 + from }
    ensures { IfOk result (λ made. made ≡ piece change.now (tail_place from to change.now) (drop (from - change.now.at) change.now.text)) }
{
    let at = if change.at < from {
        to
    } else {
        change.at - from + to
    };
    let gone = if change.at < from {
        from - change.at
    } else {
        0
    };
    Ok(Change {
        version: change.version,
        k: change.k,
        at,
        kind: change.kind,
        text: back_of(alloc, &change.text, gone as usize)?,
        user: change.user.copy(alloc)?,
        ms: change.ms,
    })
}

// The parts of inserts from a place on, at their new places.
pub(crate) fn push_tails(
    alloc: Global,
    made: &mut Vec<Change>,
    inserts: &[Change],
    from: u32,
    to: u32,
    torn: &Option<Torn>,
) -> Result<(), AllocError>
    requires { All (λ c. c.at + to < 2 ^ 32 + from) inserts.now }
    ensures { OnOk result (made.new.items ≡ pushed_all made.old.items (flat_map (λ c. tail_by torn.now from to c) inserts.now)) }
{
    for c in inserts {
        if (from as usize) < c.end() {
            let mut part = tail_of(alloc, c, from, to)?;
            renumber(&mut part, torn);
            push_packed(made, part)?;
        }
    }
    Ok(())
}
