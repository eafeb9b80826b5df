//! The changes after a component.

ghost use Rattle.std.specs.Prelude.{◌≡◌, ◌<◌, ◌+◌, ◌^◌, length, IfOk};
ghost use Rattle.std.specs.List.{All};
ghost use Rattle.ot_op.specs.declared.comp.Comp.TheVariants.{Ins, Del};
ghost use Rattle.ot_op.specs.Operation.{place, units_of};
ghost use Rattle.ranges_tracker.specs.Ordered.{Lined, Rising};
ghost use Rattle.ranges_tracker.specs.Tracked.{inserts_of, deletes_of, changes_in};

use crate::change::copy_changes;
use crate::deletes::{delete_in, lift_all};
use crate::inserts::{Counted, cut_in, insert_in};
use crate::kinds::{merge, of_kind};
use crate::{Change, ChangeKind, Stamp};
use ot_op::Comp;
use ot_units::Units;
use std::alloc::{AllocError, Global};

// The changes after an insert.
fn changes_insert(
    alloc: Global,
    changes: &[Change],
    at: u32,
    part: &Units,
    stamp: &Stamp,
    marks: u32,
) -> Result<Counted, AllocError>
    requires place { at + length part.now < 2 ^ 32 }
    requires room { All (λ c. c.at + length part.now < 2 ^ 32) changes.now }
    requires few { marks + 2 < 2 ^ 32 }
    ensures changes { IfOk result (λ r. r.changes.items ≡ (changes_in changes.now (Ins at part.now) stamp.now marks).changes) }
    ensures marks { IfOk result (λ r. r.marks ≡ (changes_in changes.now (Ins at part.now) stamp.now marks).marks) }
{
    let inserts = of_kind(alloc, changes, ChangeKind::Inserted)?;
    let mut deletes = of_kind(alloc, changes, ChangeKind::Deleted)?;
    let made = insert_in(alloc, &inserts, at, part, stamp, marks)?;
    lift_all(&mut deletes, at, part.len() as u32);
    let marks = made.marks;
    let changes = merge(alloc, made.changes, deletes)?;
    Ok(Counted { changes, marks })
}

// The changes after a delete.
fn changes_delete(
    alloc: Global,
    changes: &[Change],
    at: u32,
    part: &Units,
    stamp: &Stamp,
    marks: u32,
) -> Result<Counted, AllocError>
    requires place { at + length part.now < 2 ^ 32 }
    requires room { All (λ c. c.at + length part.now < 2 ^ 32) changes.now }
    requires few { marks + 2 < 2 ^ 32 }
    requires lined { Lined 0 (inserts_of changes.now) }
    requires rising { Rising 0 (deletes_of changes.now) }
    ensures changes { IfOk result (λ r. r.changes.items ≡ (changes_in changes.now (Del at part.now) stamp.now marks).changes) }
    ensures marks { IfOk result (λ r. r.marks ≡ (changes_in changes.now (Del at part.now) stamp.now marks).marks) }
{
    let inserts = of_kind(alloc, changes, ChangeKind::Inserted)?;
    let deletes = of_kind(alloc, changes, ChangeKind::Deleted)?;
    let cut = cut_in(alloc, &inserts, at, part.len() as u32)?;
    let left = delete_in(alloc, &inserts, deletes, at, part, stamp, marks)?;
    let marks = left.marks;
    let changes = merge(alloc, cut, left.changes)?;
    Ok(Counted { changes, marks })
}

pub(crate) fn changes_after(
    alloc: Global,
    changes: &[Change],
    comp: &Comp,
    stamp: &Stamp,
    marks: u32,
) -> Result<Counted, AllocError>
    requires place { place comp.now + units_of comp.now < 2 ^ 32 }
    requires room { All (λ c. c.at + units_of comp.now < 2 ^ 32) changes.now }
    requires few { marks + 2 < 2 ^ 32 }
    requires lined { Lined 0 (inserts_of changes.now) }
    requires rising { Rising 0 (deletes_of changes.now) }
    ensures changes { IfOk result (λ r. r.changes.items ≡ (changes_in changes.now comp.now stamp.now marks).changes) }
    ensures marks { IfOk result (λ r. r.marks ≡ (changes_in changes.now comp.now stamp.now marks).marks) }
{
    match comp {
        Comp::Ins(at, part) => changes_insert(alloc, changes, *at, part, stamp, marks),
        Comp::Del(at, part) => changes_delete(alloc, changes, *at, part, stamp, marks),
        Comp::Com(_, _, _) => Ok(Counted {
            changes: copy_changes(alloc, changes)?,
            marks,
        }),
    }
}
