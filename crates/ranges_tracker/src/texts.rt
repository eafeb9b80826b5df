//! Parts of texts.

ghost use Rattle.std.specs.Prelude.{◌≡◌, ◌≤◌, ◌+◌, ◌-◌, ◌++◌, length, take, drop, slice_range, IfOk, OnOk};

use ot_units::Units;
use std::alloc::{AllocError, Global};

// The units from number `from` on, up to number `to`.
#[tactic(auto, using(crate::proofs::Parts::part_keeps))]
pub(crate) fn part_of(
    alloc: Global,
    text: &Units,
    from: usize,
    to: usize,
) -> Result<Units, AllocError>
    requires order { from ≤ to }
    requires in_text { to ≤ length text.now }
    ensures { IfOk result (λ made. made ≡ slice_range text.now from to) }
{
    Units::from_slice(alloc, &text.as_slice()[from..to])
}

pub(crate) fn front_of(alloc: Global, text: &Units, len: usize) -> Result<Units, AllocError>
    ensures { IfOk result (λ made. made ≡ take len text.now) }
{
    if len < text.len() {
        return part_of(alloc, text, 0, len);
    }
    text.copy(alloc)
}

pub(crate) fn back_of(alloc: Global, text: &Units, from: usize) -> Result<Units, AllocError>
    ensures { IfOk result (λ made. made ≡ drop from text.now) }
{
    let count = text.len();
    if from < count {
        return part_of(alloc, text, from, count);
    }
    part_of(alloc, text, count, count)
}

#[tactic(auto, using(crate::proofs::Pushing::put_end))]
pub(crate) fn push_part(text: &mut Units, part: &Units) -> Result<(), AllocError>
    ensures { OnOk result (text.new ≡ text.old ++ part.now) }
{
    let end = text.len();
    text.put_in(end, part.as_slice())
}

// A text without the units from a place to another.
pub(crate) fn text_without(
    alloc: Global,
    text: &Units,
    from: usize,
    to: usize,
) -> Result<Units, AllocError>
    ensures { IfOk result (λ made. made ≡ take from text.now ++ drop to text.now) }
{
    let mut made = front_of(alloc, text, from)?;
    let back = back_of(alloc, text, to)?;
    push_part(&mut made, &back)?;
    Ok(made)
}

pub(crate) fn distance(from: u32, to: u32) -> usize
    ensures { result ≡ to - from }
{
    if to < from { 0 } else { (to - from) as usize }
}
