//! `cross`, two operations past each other.

ghost use Rattle.std.specs.Prelude.{◌≡◌, ◌<◌, ◌+◌, ◌^◌, [], ◌∷◌, Some, None, IfOk, IfSome, OnOk, MatchOption};
ghost use Rattle.ot_op.specs.Operation.{IsOp, place};
ghost use Rattle.ot_op.specs.Compose.{composed};
ghost use Rattle.ot_transform.specs.Crossing.{met, walked, after_meeting, crossed};
ghost use Rattle.ot_transform.specs.Moved.{moved_list, walk_lists};
ghost use Rattle.ot_transform.specs.Convergence.{Converges};
ghost use Rattle.ot_transform.specs.Room.{new_units, Fits};
ghost use Rattle.ot_transform.specs.Size.{BothNoLarger};

use crate::moved::{Moved, append_all, append_moved};
use crate::moving::move_component;
use ot_op::{Comp, Comps, Op, append};
use std::alloc::{AllocError, Global};

/// Two operations on one text, each past the other: the left one as it follows the right one, and
/// the right one as it follows the left one. Of two inserts at one place the left one's comes first.
///
/// The answer is `None` where two components say that different texts stand at one place, which
/// never comes where both operations apply to one text. Neither becomes larger, and its places are
/// at most as many units further on as the other one inserts. `fits` says whether these stay places.
pub fn cross(alloc: Global, left: &Op, right: &Op) -> Result<Option<(Op, Op)>, AllocError>
    requires { Fits left.now right.now }
    ensures value { IfOk result (λ both. both ≡ crossed left.now right.now) }
    ensures converges { IfOk result (λ both. Converges left.now right.now both) }
    ensures no_larger { IfOk result (λ both. IfSome both (BothNoLarger left.now right.now)) }
{
    cross_lists(alloc, left.comps(), right.comps())
}

// Crosses two lists of components. The new lists begin empty, in a crossing within another one too:
// what is appended to one list merges otherwise than what is appended to another.
#[cycle(cross)]
fn cross_lists(alloc: Global, left: &[Comp], right: &[Comp]) -> Result<Option<(Op, Op)>, AllocError>
    requires solid { IsOp left.now }
    requires fits { Fits left.now right.now }
    ensures { IfOk result (λ both. both ≡ crossed left.now right.now) }
{
    let mut done = Op::empty(alloc);
    let mut current = Op::from_slice(alloc, left)?;
    for comp in right {
        let first = comp.copy(alloc)?;
        let Some((next, hand)) = walk(alloc, first, current.comps())? else {
            return Ok(None);
        };
        append_all(&mut done, hand)?;
        current = next;
    }
    Ok(Some((current, done)))
}

// Walks the left list with one right component in hand, and answers the new left list and what is
// in hand at the end.
#[cycle(cross)]
fn walk(alloc: Global, first: Comp, left: &[Comp]) -> Result<Option<(Op, Comps)>, AllocError>
    requires solid { IsOp left.now }
    requires fits { Fits left.now (first ∷ []) }
    ensures { IfOk result (λ o. walk_lists o ≡ walked crossed [] first left.now) }
{
    let mut next = Op::empty(alloc);
    let mut hand = first;
    let mut rest = left;
    'turns: while let Some((other, tail)) = rest.split_first() {
        let Some(moved) = meet(alloc, &mut next, hand, other)? else {
            return Ok(None);
        };
        match moved {
            Moved::One(comp) => {
                hand = comp;
                rest = tail;
            }
            Moved::Nothing => return keep_rest(alloc, next, tail),
            Moved::Two(one, two) => return cross_rest(alloc, next, one, two, tail),
        }
    }
    let mut end = Comps::new(alloc);
    end.push(hand)?;
    Ok(Some((next, end)))
}

// With nothing in hand the rest of the left list stays as it is.
fn keep_rest(alloc: Global, mut next: Op, rest: &[Comp]) -> Result<Option<(Op, Comps)>, AllocError>
    ensures { IfOk result (λ o. walk_lists o ≡ after_meeting crossed (next, []) rest.now) }
{
    for comp in rest {
        append(&mut next, comp.copy(alloc)?).map_err(|(full, _)| full)?;
    }
    Ok(Some((next, Comps::new(alloc))))
}

// With two components in hand, these are crossed with the rest of the left list.
#[cycle(cross)]
fn cross_rest(
    alloc: Global,
    mut next: Op,
    one: Comp,
    two: Comp,
    rest: &[Comp],
) -> Result<Option<(Op, Comps)>, AllocError>
    requires solid { IsOp rest.now }
    requires fits { Fits rest.now (one ∷ two ∷ []) }
    ensures { IfOk result (λ o. walk_lists o ≡ after_meeting crossed (next, one ∷ two ∷ []) rest.now) }
{
    let hand = [one, two];
    let Some((left, right)) = cross_lists(alloc, rest, &hand)? else {
        return Ok(None);
    };
    append_all(&mut next, left.into_comps())?;
    Ok(Some((next, right.into_comps())))
}

// A right component meets a left one, which goes past it into the new left list.
fn meet(alloc: Global, next: &mut Op, right: Comp, left: &Comp) -> Result<Option<Moved>, AllocError>
    requires forth { place left.now + new_units (right ∷ []) < 2 ^ 32 }
    requires back { place right + new_units (left.now ∷ []) < 2 ^ 32 }
    ensures { IfOk result (λ o. MatchOption o (met next.old right left.now ≡ None) (λ hand. met next.old right left.now ≡ Some (next.new, moved_list hand))) }
{
    let Some(became) = move_component(alloc, left.copy(alloc)?, &right, false)? else {
        return Ok(None);
    };
    let Some(hand) = move_component(alloc, right, left, true)? else {
        return Ok(None);
    };
    append_moved(next, became)?;
    Ok(Some(hand))
}
