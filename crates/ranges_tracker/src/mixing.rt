//! The text of a tracked delete: what goes, among what was gone around it.

ghost use Rattle.std.specs.Prelude.{◌≡◌, ◌≤◌, ◌<◌, ◌+◌, ◌^◌, ◌++◌, ◌∷◌, [], length, drop, IfOk, OnOk, slice_index, if◌then◌else◌};
ghost use Rattle.ot_units.specs.Text.{IsText};
ghost use Rattle.ranges_tracker.specs.Ordered.{Lined, Rising, from_gap};
ghost use Rattle.ranges_tracker.specs.Shown.{past};
ghost use Rattle.ranges_tracker.specs.Tracked.{texts_in, mixed_in};

use crate::Change;
use crate::covers::is_over;
use crate::texts::push_part;
use ot_units::Units;
use std::alloc::{AllocError, Global};

// The first delete that doesn't stand before a place.
fn first_from(deletes: &[Change], at: u32) -> usize
    ensures rest { drop result deletes.now ≡ from_gap at deletes.now }
    ensures within { result ≤ length deletes.now }
{
    let mut k = 0;
    'turns: while k < deletes.len() {
        if deletes[k].at >= at {
            return k;
        }
        k += 1;
    }
    k
}

// The deleted units of a gap, behind a text, and the first delete past that gap. Those from number
// `from` on don't stand before it.
fn push_texts(
    text: &mut Units,
    deletes: &[Change],
    from: usize,
    gap: u32,
) -> Result<usize, AllocError>
    requires within { from ≤ length deletes.now }
    requires rising { Rising gap (drop from deletes.now) }
    ensures text { OnOk result (text.new ≡ text.old ++ texts_in gap (drop from deletes.now)) }
    ensures rest { IfOk result (λ k. drop k deletes.now ≡ past gap (drop from deletes.now)) }
    ensures within { IfOk result (λ k. k ≤ length deletes.now) }
{
    let mut k = from;
    'turns: while k < deletes.len() {
        let d = &deletes[k];
        if d.at > gap {
            return Ok(k);
        }
        push_part(text, &d.text)?;
        k += 1;
    }
    Ok(k)
}

// Unit number `j` of a part, where no insert stands over it.
#[tactic(auto, using(crate::proofs::Parts::part_keeps, crate::proofs::Pushing::put_end))]
fn push_bare(text: &mut Units, over: bool, part: &[u16], j: usize) -> Result<(), AllocError>
    requires in_text { j < length part.now }
    requires text { IsText part.now }
    ensures { OnOk result (text.new ≡ text.old ++ (if over then [] else slice_index part.now j ∷ [])) }
{
    if over {
        return Ok(());
    }
    let end = text.len();
    text.put_in(end, &part[j..j + 1])
}

// The units of a part that stand under no insert, among the deleted units around them.
pub(crate) fn mixed_in(
    alloc: Global,
    inserts: &[Change],
    deletes: &[Change],
    at: u32,
    part: &[u16],
) -> Result<Units, AllocError>
    requires place { at + length part.now < 2 ^ 32 }
    requires text { IsText part.now }
    requires lined { Lined 0 inserts.now }
    requires rising { Rising 0 deletes.now }
    ensures { IfOk result (λ text. text ≡ mixed_in at part.now inserts.now deletes.now) }
{
    let mut text = Units::from_slice(alloc, &[])?;
    let mut first = 0;
    let mut next = first_from(deletes, at);
    for j in 0..part.len() {
        next = push_texts(&mut text, deletes, next, at + j as u32)?;
        let (past, over) = is_over(inserts, first, at + j as u32);
        push_bare(&mut text, over, part, j)?;
        first = past;
    }
    push_texts(&mut text, deletes, next, at + part.len() as u32)?;
    Ok(text)
}
