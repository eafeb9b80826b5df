//! One component moved past another one that was made of the same text.
//!
//! The tables are this project's own, after ShareJS 0.5's `transformComponent`.

ghost use Rattle.std.specs.Prelude.{false, ◌≡◌, ◌<◌, ◌+◌, ◌-◌, ◌≤◌, ◌^◌, [], ◌∷◌, ◌++◌, Some, IfOk, OnErr, OnOk, length, take, drop};
ghost use Rattle.ot_units.specs.Text.{put_at};
ghost use Rattle.ot_op.specs.Operation.{place};
ghost use Rattle.ot_transform.specs.Room.{new_units};
ghost use Rattle.ot_transform.specs.Crossing.{moved_component, moved_place, agree, left_of, deleted_before, deleted_behind, delete_if_any};
ghost use Rattle.ot_transform.specs.Moved.{moved_list, moved_lists};

use crate::moved::Moved;
use ot_op::Comp;
use ot_units::Units;
use std::alloc::{AllocError, Global};

/// What `comp` becomes past `other`, or `None` where the two say that different texts stand at one
/// place. Of two inserts at one place the one that goes `right` comes behind the other.
pub(crate) fn move_component(
    alloc: Global,
    comp: Comp,
    other: &Comp,
    right: bool,
) -> Result<Option<Moved>, AllocError>
    requires { place comp + new_units (other.now ∷ []) < 2 ^ 32 }
    ensures { IfOk result (λ o. moved_lists o ≡ moved_component comp other.now right) }
{
    match (comp, other) {
        (Comp::Ins(at, part), other) => {
            let at = move_place(at, other, right);
            Ok(Some(Moved::One(Comp::Ins(at, part))))
        }
        (Comp::Del(at, part), Comp::Ins(place, other)) => {
            Ok(Some(split_delete(alloc, at, part, *place, other.len())?))
        }
        (Comp::Del(at, part), Comp::Del(place, other)) => {
            Ok(move_delete(at, part, *place, other))
        }
        (Comp::Com(at, part, thread), Comp::Ins(place, other)) => {
            Ok(Some(widen_comment(at, part, thread, *place, other)?))
        }
        (Comp::Com(at, part, thread), Comp::Del(place, other)) => {
            Ok(move_comment(at, part, thread, *place, other))
        }
        (comp, Comp::Com(_, _, _)) => Ok(Some(Moved::One(comp))),
    }
}

// A place past a component. It goes behind an insert at the same place where `after` says so.
fn move_place(place: u32, other: &Comp, after: bool) -> u32
    requires { place + new_units (other.now ∷ []) < 2 ^ 32 }
    ensures { result ≡ moved_place place other.now after }
{
    match other {
        Comp::Ins(at, part) => {
            if *at < place || (*at == place && after) {
                place + part.len() as u32
            } else {
                place
            }
        }
        Comp::Del(at, part) => {
            if place <= *at {
                place
            } else if (place - *at) as usize <= part.len() {
                *at
            } else {
                place - part.len() as u32
            }
        }
        Comp::Com(_, _, _) => place,
    }
}

// A delete past an insert of `len` units: what stands before these, and what stands behind them.
fn split_delete(
    alloc: Global,
    at: u32,
    mut part: Units,
    place: u32,
    len: usize,
) -> Result<Moved, AllocError>
    requires { at + len < 2 ^ 32 }
    ensures { IfOk result (λ moved. moved_list moved ≡ deleted_before at part place ++ deleted_behind at part place len) }
{
    if place <= at {
        return Ok(delete_unless_empty(at + len as u32, part));
    }
    let ahead = (place - at) as usize;
    if part.len() <= ahead {
        return Ok(Moved::One(Comp::Del(at, part)));
    }
    let mut behind = part.copy(alloc)?;
    keep_behind(&mut behind, ahead);
    keep_ahead(&mut part, ahead);
    Ok(Moved::Two(Comp::Del(at, part), Comp::Del(at + len as u32, behind)))
}

// Keeps the first units of a text.
fn keep_ahead(part: &mut Units, len: usize)
    requires { len ≤ length part.old }
    ensures { part.new ≡ take len part.old }
{
    part.cut(len, part.len() - len);
}

// Keeps what stands behind the first units of a text.
fn keep_behind(part: &mut Units, len: usize)
    requires { len ≤ length part.old }
    ensures { part.new ≡ drop len part.old }
{
    part.cut(0, len);
}

// A delete past a delete.
fn move_delete(at: u32, mut part: Units, place: u32, other: &Units) -> Option<Moved>
    ensures { moved_lists result ≡ moved_component (Comp.Del at part) (Comp.Del place other.now) false }
{
    if place as usize + other.len() <= at as usize {
        return Some(Moved::One(Comp::Del(at - other.len() as u32, part)));
    }
    if at as usize + part.len() <= place as usize {
        return Some(Moved::One(Comp::Del(at, part)));
    }
    if !agrees(at, &part, place, other) {
        return None;
    }
    cut_common(at, &mut part, place, other.len());
    Some(delete_unless_empty(at.min(place), part))
}

fn delete_unless_empty(at: u32, part: Units) -> Moved
    ensures { moved_list result ≡ delete_if_any at part }
{
    if part.len() == 0 {
        Moved::Nothing
    } else {
        Moved::One(Comp::Del(at, part))
    }
}

// A comment past an insert.
fn widen_comment(
    at: u32,
    mut text: Units,
    thread: u32,
    place: u32,
    other: &Units,
) -> Result<Moved, AllocError>
    requires { at + length other.now < 2 ^ 32 }
    ensures { IfOk result (λ moved. Some (moved_list moved) ≡ moved_component (Comp.Com at text thread) (Comp.Ins place other.now) false) }
{
    if at < place && ((place - at) as usize) < text.len() {
        text.put_in((place - at) as usize, other.as_slice())?;
        return Ok(Moved::One(Comp::Com(at, text, thread)));
    }
    let moved = if place <= at {
        at + other.len() as u32
    } else {
        at
    };
    Ok(Moved::One(Comp::Com(moved, text, thread)))
}

// A comment past a delete.
fn move_comment(at: u32, mut text: Units, thread: u32, place: u32, other: &Units) -> Option<Moved>
    ensures { moved_lists result ≡ moved_component (Comp.Com at text thread) (Comp.Del place other.now) false }
{
    if place as usize + other.len() <= at as usize {
        let at = at - other.len() as u32;
        return Some(Moved::One(Comp::Com(at, text, thread)));
    }
    if at as usize + text.len() <= place as usize {
        return Some(Moved::One(Comp::Com(at, text, thread)));
    }
    if !agrees(at, &text, place, other) {
        return None;
    }
    cut_common(at, &mut text, place, other.len());
    Some(Moved::One(Comp::Com(at.min(place), text, thread)))
}

// Whether two texts that overlap have the same units where they do.
fn agrees(at: u32, part: &Units, place: u32, other: &Units) -> bool
    requires left { at < place + length other.now }
    requires right { place < at + length part.now }
    ensures { result ≡ agree at part.now place other.now }
{
    let from = at.max(place) as usize;
    let to = (at as usize + part.len()).min(place as usize + other.len());
    part.as_slice()[from - at as usize..to - at as usize]
        == other.as_slice()[from - place as usize..to - place as usize]
}

// Cuts what a text has in common with `len` units at `place`.
fn cut_common(at: u32, part: &mut Units, place: u32, len: usize)
    requires after { at < place + len }
    requires small { len < 2 ^ 63 }
    ensures { part.new ≡ left_of at part.old place len }
{
    let ahead = (place.saturating_sub(at) as usize).min(part.len());
    let behind = (place as usize + len - at as usize).min(part.len());
    part.cut(ahead, behind - ahead);
}
