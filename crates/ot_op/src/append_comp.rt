//! `append`, a component behind an operation.

ghost use Rattle.std.specs.Prelude.{◌≡◌, ◌∷◌, [], MatchOption, IfOk, IfErr, OnOk, OnErr};
ghost use Rattle.ot_op.specs.Compose.{joined, appended, DoesBoth, AppendsAlike};

use crate::{Comp, Op};
use std::alloc::AllocError;

/// Puts a component behind an operation, as ShareJS's `append` does: an insert into or beside the
/// text of a last insert joins it, a delete around or beside the place of a last delete takes it
/// in, and an empty insert or delete is dropped. Which sides join is this project's own.
///
/// Where memory is wanting, the component comes back and nothing changes.
pub fn append(op: &mut Op, comp: Comp) -> Result<(), (AllocError, Comp)>
    ensures ok { OnOk result (op.new ≡ appended op.old comp) }
    ensures does { OnOk result (DoesBoth op.old comp op.new) }
    ensures err { OnErr result (op.new ≡ op.old) }
    ensures back { IfErr result (λ e. e.1 ≡ comp) }
{
    if comp.is_void() {
        return Ok(());
    }
    let last = op.comps.len().saturating_sub(1);
    let Some(last) = op.comps.get_mut(last) else {
        return op.push(comp);
    };
    match join_into(last, comp)? {
        None => Ok(()),
        Some(comp) => op.push(comp),
    }
}

/// Appending does to any text what the operation and then the component do. Where the component is
/// an empty insert or delete, which is dropped, it does so wherever the two apply.
pub fn append_same()
    ensures { AppendsAlike }
{}

// Joins a component into the one before it, or gives it back where the two stay two.
fn join_into(last: &mut Comp, comp: Comp) -> Result<Option<Comp>, (AllocError, Comp)>
    ensures ok { IfOk result (λ o. MatchOption o (joined last.old comp ≡ last.new ∷ []) (λ c. (c ≡ comp) × (last.new ≡ last.old) × (joined last.old comp ≡ last.old ∷ comp ∷ []))) }
    ensures err { OnErr result (last.new ≡ last.old) }
    ensures back { IfErr result (λ e. e.1 ≡ comp) }
{
    match (last, comp) {
        (Comp::Ins(at, part), Comp::Ins(place, other)) => {
            if *at <= place && (place - *at) as usize <= part.len() {
                match part.put_in((place - *at) as usize, other.as_slice()) {
                    Ok(()) => Ok(None),
                    Err(full) => Err((full, Comp::Ins(place, other))),
                }
            } else {
                Ok(Some(Comp::Ins(place, other)))
            }
        }
        (Comp::Del(at, part), Comp::Del(place, mut other)) => {
            if place <= *at && (*at - place) as usize <= other.len() {
                match other.put_in((*at - place) as usize, part.as_slice()) {
                    Ok(()) => {
                        *at = place;
                        *part = other;
                        Ok(None)
                    }
                    Err(full) => Err((full, Comp::Del(place, other))),
                }
            } else {
                Ok(Some(Comp::Del(place, other)))
            }
        }
        (_, comp) => Ok(Some(comp)),
    }
}
