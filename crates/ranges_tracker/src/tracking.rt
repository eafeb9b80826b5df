//! `track` and `track_op`, the ranges after a component and after an operation.

ghost use Rattle.std.specs.Prelude.{◌≡◌, IfOk, OnOk, OnErr, IfErr};
ghost use Rattle.ranges_tracker.specs.Tracked.{changes_in};
ghost use Rattle.ranges_tracker.specs.Ranged.{ranges_in, ranges_all, Roomy};
ghost use Rattle.ranges_tracker.specs.Steady.{IsStepOf, IsStepsOf};
ghost use Rattle.ranges_tracker.specs.Trackable.{IsFit, IsFitStep, StaysInStep, StayWithText};

use crate::changes::changes_after;
use crate::comments::comments_after;
use crate::{Ranges, Stamp};
use ot_op::{Comp, Op};
use std::alloc::{AllocError, Global};

// The ranges after a component, made from borrowed ones.
fn ranges_after(
    alloc: Global,
    ranges: &Ranges,
    marks: &mut u32,
    comp: &Comp,
    stamp: &Stamp,
) -> Result<Ranges, AllocError>
    requires { Roomy ranges.now comp.now marks.old }
    ensures value { IfOk result (λ r. r ≡ ranges_in ranges.now comp.now stamp.now marks.old) }
    ensures marks { OnOk result (marks.new ≡ (changes_in ranges.now.0 comp.now stamp.now marks.old).marks) }
    ensures err { OnErr result (marks.new ≡ marks.old) }
{
    let changes = changes_after(alloc, ranges.changes(), comp, stamp, *marks)?;
    let comments = comments_after(alloc, ranges.comments(), comp)?;
    *marks = changes.marks;
    Ok(Ranges::of(changes.changes, comments))
}

/// What one component of an update makes of the ranges. `marks` counts the update's fresh marks
/// before and after it. Where memory is wanting, the ranges come back and `marks` stays. The ranges
/// are those of a text to which the component applies.
///
/// An insert that is tracked takes the mark of its user that it touches, first the one before it, or
/// a fresh one; where it parts the units of another mark, those behind it get a fresh mark with that
/// mark's user and moment. A tracked delete drops units that bear a mark. Its others are kept as one
/// change, which takes over those around them. Comments keep to their text: what is put in behind
/// their last unit or before their first stays outside. Marks are Overleaf's document-updater's; how
/// they join, part and take over is this project's own.
pub fn track(
    alloc: Global,
    ranges: Ranges,
    marks: &mut u32,
    comp: &Comp,
    stamp: &Stamp,
) -> Result<Ranges, (AllocError, Ranges)>
    requires { IsFitStep ranges comp.now stamp.now marks.old }
    ensures step { IfOk result (λ r. IsStepOf ranges comp.now stamp.now marks.old r marks.new) }
    ensures stays { IfOk result (λ r. StaysInStep ranges comp.now stamp.now marks.old r marks.new) }
    ensures value { IfOk result (λ r. r ≡ ranges_in ranges comp.now stamp.now marks.old) }
    ensures err { OnErr result (marks.new ≡ marks.old) }
    ensures back { IfErr result (λ e. e.1 ≡ ranges) }
{
    match ranges_after(alloc, &ranges, marks, comp, stamp) {
        Ok(made) => Ok(made),
        Err(full) => Err((full, ranges)),
    }
}

/// What an operation makes of the ranges, component by component, its fresh marks counted from 0.
/// The ranges are those of a text to which the operation applies.
pub fn track_op(
    alloc: Global,
    ranges: &Ranges,
    op: &Op,
    stamp: &Stamp,
) -> Result<Ranges, AllocError>
    requires { IsFit ranges.now op.now stamp.now }
    ensures steps { IfOk result (λ r. IsStepsOf ranges.now op.now stamp.now r) }
    ensures stay { IfOk result (λ r. StayWithText ranges.now op.now stamp.now r) }
    ensures value { IfOk result (λ r. r ≡ (ranges_all ranges.now op.now stamp.now 0).ranges) }
{
    let mut made = ranges.copy(alloc)?;
    let mut marks = 0;
    for comp in op.comps() {
        made = ranges_after(alloc, &made, &mut marks, comp, stamp)?;
    }
    Ok(made)
}
