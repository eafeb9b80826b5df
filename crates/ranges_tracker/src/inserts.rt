//! The tracked inserts after an insert and after a delete.

ghost use Rattle.std.specs.Prelude.{◌≡◌, ◌<◌, ◌+◌, ◌^◌, length, IfOk, OnOk};
ghost use Rattle.std.specs.List.{All};
ghost use Rattle.ot_op.specs.Operation.{place};
ghost use Rattle.ranges_tracker.specs.Tracked.{pushed_all, new_insert, insert_in, cut_in};

use crate::covers::{mark_before, mark_over};
use crate::mark::{Mark, choose, find_torn, torn_count};
use crate::runs::{push_heads, push_packed, push_tails};
use crate::{Change, ChangeKind, Stamp};
use ot_units::Units;
use std::alloc::{AllocError, Global};

// Changes, and the count of fresh marks.
#[derive(Drop)]
pub(crate) struct Counted {
    pub(crate) changes: Vec<Change>,
    pub(crate) marks: u32,
}

// New cells under one mark, behind what is there.
fn push_new(
    alloc: Global,
    made: &mut Vec<Change>,
    at: u32,
    part: &Units,
    mark: Option<Mark>,
) -> Result<(), AllocError>
    ensures { OnOk result (made.new.items ≡ pushed_all made.old.items (new_insert at part.now mark)) }
{
    if part.len() == 0 {
        return Ok(());
    }
    match mark {
        None => Ok(()),
        Some(mark) => push_packed(
            made,
            Change {
                version: mark.version,
                k: mark.k,
                at,
                kind: ChangeKind::Inserted,
                text: part.copy(alloc)?,
                user: mark.user,
                ms: mark.ms,
            },
        ),
    }
}

// The inserts after an insert.
pub(crate) fn insert_in(
    alloc: Global,
    inserts: &[Change],
    at: u32,
    part: &Units,
    stamp: &Stamp,
    marks: u32,
) -> Result<Counted, AllocError>
    requires place { at + length part.now < 2 ^ 32 }
    requires room { All (λ c. c.at + (at + length part.now) < 2 ^ 32 + at) inserts.now }
    requires few { marks + 2 < 2 ^ 32 }
    ensures changes { IfOk result (λ r. r.changes.items ≡ (insert_in inserts.now at part.now stamp.now marks).changes) }
    ensures marks { IfOk result (λ r. r.marks ≡ (insert_in inserts.now at part.now stamp.now marks).marks) }
{
    let before = mark_before(alloc, inserts, at)?;
    let after = mark_over(alloc, inserts, at)?;
    let by = choose(alloc, &before, &after, stamp, marks)?;
    let next = marks + by.fresh;
    let torn = find_torn(alloc, &before, &after, &by.mark, stamp.version, next)?;
    let count = torn_count(&torn);
    let mut made = Vec::new(alloc);
    push_heads(alloc, &mut made, inserts, at)?;
    push_new(alloc, &mut made, at, part, by.mark)?;
    push_tails(alloc, &mut made, inserts, at, at + part.len() as u32, &torn)?;
    Ok(Counted {
        changes: made,
        marks: next + count,
    })
}

// The inserts after a delete of so many units.
pub(crate) fn cut_in(
    alloc: Global,
    inserts: &[Change],
    at: u32,
    len: u32,
) -> Result<Vec<Change>, AllocError>
    requires place { at + len < 2 ^ 32 }
    requires room { All (λ c. c.at + at < 2 ^ 32 + (at + len)) inserts.now }
    ensures { IfOk result (λ r. r.items ≡ cut_in inserts.now at len) }
{
    let mut made = Vec::new(alloc);
    push_heads(alloc, &mut made, inserts, at)?;
    push_tails(alloc, &mut made, inserts, at + len, at, &None)?;
    Ok(made)
}
