//! The tracked deletes after an insert and after a delete.

ghost use Rattle.std.specs.Prelude.{◌≡◌, ◌≤◌, ◌<◌, ◌+◌, ◌-◌, ◌^◌, ◌++◌, length, IfOk, OnOk, nat_lt, ◌&&◌, map};
ghost use Rattle.std.specs.List.{All};
ghost use Rattle.ot_op.specs.Operation.{place};
ghost use Rattle.ranges_tracker.specs.Cells.{fresh_mark, raised, squashed};
ghost use Rattle.ranges_tracker.specs.Ordered.{Lined, Rising};
ghost use Rattle.ranges_tracker.specs.Tracked.{some_bare, mixed_in, kept, placed, new_delete, delete_in};

use crate::change::copy_at;
use crate::covers::some_bare;
use crate::inserts::Counted;
use crate::mixing::mixed_in;
use crate::{Change, ChangeKind, Stamp};
use ot_units::Units;
use std::alloc::{AllocError, Global};

fn push_below(
    alloc: Global,
    made: &mut Vec<Change>,
    deletes: &[Change],
    at: u32,
) -> Result<(), AllocError>
    ensures { OnOk result (made.new.items ≡ made.old.items ++ kept (λ x. nat_lt x at) deletes.now) }
{
    for d in deletes {
        if d.at < at {
            made.push(d.copy(alloc)?)?;
        }
    }
    Ok(())
}

fn push_above(
    alloc: Global,
    made: &mut Vec<Change>,
    deletes: &[Change],
    end: u32,
    len: u32,
) -> Result<(), AllocError>
    requires { len ≤ end }
    ensures { OnOk result (made.new.items ≡ made.old.items ++ map (placed (λ x. x - len)) (kept (λ x. nat_lt end x) deletes.now)) }
{
    for d in deletes {
        if end < d.at {
            made.push(copy_at(alloc, d, d.at - len)?)?;
        }
    }
    Ok(())
}

pub(crate) fn squash(at: u32, len: u32, gap: u32) -> u32
    requires { at + len < 2 ^ 32 }
    ensures { result ≡ squashed at len gap }
{
    if gap < at {
        gap
    } else if gap <= at + len {
        at
    } else {
        gap - len
    }
}

fn lift(at: u32, len: u32, gap: u32) -> u32
    requires { gap + len < 2 ^ 32 }
    ensures { result ≡ raised at len gap }
{
    if at <= gap { gap + len } else { gap }
}

fn squash_all(deletes: &mut [Change], at: u32, len: u32)
    requires { at + len < 2 ^ 32 }
    ensures { deletes.new ≡ map (placed (squashed at len)) deletes.old }
{
    for d in deletes.iter_mut() {
        d.at = squash(at, len, d.at);
    }
}

// The deletes after an insert.
pub(crate) fn lift_all(deletes: &mut [Change], at: u32, len: u32)
    requires { All (λ d. d.at + len < 2 ^ 32) deletes.old }
    ensures { deletes.new ≡ map (placed (raised at len)) deletes.old }
{
    for d in deletes.iter_mut() {
        d.at = lift(at, len, d.at);
    }
}

fn push_delete(
    alloc: Global,
    made: &mut Vec<Change>,
    at: u32,
    text: Units,
    stamp: &Stamp,
    k: u32,
) -> Result<(), AllocError>
    ensures { OnOk result (made.new.items ≡ made.old.items ++ new_delete at text (fresh_mark stamp.now k)) }
{
    if text.len() == 0 {
        return Ok(());
    }
    let user = stamp.user.copy(alloc)?;
    made.push(Change {
        version: stamp.version,
        k,
        at,
        kind: ChangeKind::Deleted,
        text,
        user,
        ms: stamp.ms,
    })?;
    Ok(())
}

// Whether a delete takes over what is gone around it, under a fresh mark.
fn is_fresh(stamp: &Stamp, inserts: &[Change], at: u32, part: &[u16]) -> bool
    requires place { at + length part.now < 2 ^ 32 }
    requires lined { Lined 0 inserts.now }
    ensures { result ≡ (stamp.now.track && some_bare at part.now inserts.now) }
{
    stamp.track && some_bare(inserts, at, part)
}

// The deletes where one fresh mark takes over those around a place.
fn take_over(
    alloc: Global,
    inserts: &[Change],
    deletes: &[Change],
    at: u32,
    part: &Units,
    stamp: &Stamp,
    k: u32,
) -> Result<Vec<Change>, AllocError>
    requires place { at + length part.now < 2 ^ 32 }
    requires lined { Lined 0 inserts.now }
    requires rising { Rising 0 deletes.now }
    ensures { IfOk result (λ made. made.items ≡ kept (λ x. nat_lt x at) deletes.now ++ (new_delete at (mixed_in at part.now inserts.now deletes.now) (fresh_mark stamp.now k) ++ map (placed (λ x. x - length part.now)) (kept (λ x. nat_lt (at + length part.now) x) deletes.now))) }
{
    let len = part.len() as u32;
    let text = mixed_in(alloc, inserts, deletes, at, part.as_slice())?;
    let mut made = Vec::new(alloc);
    push_below(alloc, &mut made, deletes, at)?;
    push_delete(alloc, &mut made, at, text, stamp, k)?;
    push_above(alloc, &mut made, deletes, at + len, len)?;
    Ok(made)
}

// The deletes after a delete.
pub(crate) fn delete_in(
    alloc: Global,
    inserts: &[Change],
    deletes: Vec<Change>,
    at: u32,
    part: &Units,
    stamp: &Stamp,
    marks: u32,
) -> Result<Counted, AllocError>
    requires place { at + length part.now < 2 ^ 32 }
    requires few { marks + 2 < 2 ^ 32 }
    requires lined { Lined 0 inserts.now }
    requires rising { Rising 0 deletes.items }
    ensures changes { IfOk result (λ r. r.changes.items ≡ (delete_in inserts.now deletes.items at part.now stamp.now marks).changes) }
    ensures marks { IfOk result (λ r. r.marks ≡ (delete_in inserts.now deletes.items at part.now stamp.now marks).marks) }
{
    if is_fresh(stamp, inserts, at, part.as_slice()) {
        return Ok(Counted {
            changes: take_over(alloc, inserts, &deletes, at, part, stamp, marks)?,
            marks: marks + 1,
        });
    }
    let mut changes = deletes;
    squash_all(&mut changes, at, part.len() as u32);
    Ok(Counted { changes, marks })
}
