//! Which mark stands over a unit of the text.

ghost use Rattle.std.specs.Prelude.{◌≡◌, ◌≤◌, ◌<◌, ◌+◌, ◌^◌, Some, None, length, drop, IfOk, MatchOption, is_some};
ghost use Rattle.ranges_tracker.specs.Shown.{mark_of};
ghost use Rattle.ranges_tracker.specs.Ordered.{Lined, ending_past};
ghost use Rattle.ranges_tracker.specs.Tracked.{mark_over, over_before, some_bare};

use crate::Change;
use crate::mark::Mark;
use std::alloc::{AllocError, Global};

// The mark over a unit, as the insert that bears it.
fn over(inserts: &[Change], i: u32) -> Option<&Change>
    ensures { MatchOption result (mark_over i inserts.now ≡ None) (λ c. mark_over i inserts.now ≡ Some (mark_of c.now)) }
{
    for c in inserts {
        if c.covers(i) {
            return Some(c);
        }
    }
    None
}

// The mark over a unit.
pub(crate) fn mark_over(
    alloc: Global,
    inserts: &[Change],
    i: u32,
) -> Result<Option<Mark>, AllocError>
    ensures { IfOk result (λ o. o ≡ mark_over i inserts.now) }
{
    match over(inserts, i) {
        None => Ok(None),
        Some(change) => Ok(Some(change.mark(alloc)?)),
    }
}

pub(crate) fn mark_before(
    alloc: Global,
    inserts: &[Change],
    at: u32,
) -> Result<Option<Mark>, AllocError>
    ensures { IfOk result (λ o. o ≡ over_before at inserts.now) }
{
    if at == 0 {
        return Ok(None);
    }
    mark_over(alloc, inserts, at - 1)
}

// The first insert from number `from` on that ends behind unit `i`.
fn first_past(inserts: &[Change], from: usize, i: u32) -> usize
    requires { from ≤ length inserts.now }
    ensures rest { drop result inserts.now ≡ ending_past i (drop from inserts.now) }
    ensures within { result ≤ length inserts.now }
{
    let mut k = from;
    'turns: while k < inserts.len() {
        if (i as usize) < inserts[k].end() {
            return k;
        }
        k += 1;
    }
    k
}

// Whether one of the inserts from number `from` on stands over unit `i`, and the first of them that
// ends behind it.
pub(crate) fn is_over(inserts: &[Change], from: usize, i: u32) -> (usize, bool)
    requires lined { Lined 0 inserts.now }
    requires within { from ≤ length inserts.now }
    ensures rest { drop result.0 inserts.now ≡ ending_past i (drop from inserts.now) }
    ensures within { result.0 ≤ length inserts.now }
    ensures over { result.1 ≡ is_some (mark_over i (drop from inserts.now)) }
{
    let first = first_past(inserts, from, i);
    (first, first < inserts.len() && inserts[first].at <= i)
}

// Whether some unit of a part stands under no insert.
pub(crate) fn some_bare(inserts: &[Change], at: u32, part: &[u16]) -> bool
    requires place { at + length part.now < 2 ^ 32 }
    requires lined { Lined 0 inserts.now }
    ensures { result ≡ some_bare at part.now inserts.now }
{
    let mut first = 0;
    for (j, _) in part.iter().enumerate() {
        let (next, over) = is_over(inserts, first, at + j as u32);
        if !over {
            return true;
        }
        first = next;
    }
    false
}
