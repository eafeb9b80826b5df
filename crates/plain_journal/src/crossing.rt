//! An operation of another past what a client has of its own.

ghost use Rattle.std.specs.Prelude.{◌≡◌, List, IfOk, IfSome, Some, option_map, is_some};
ghost use Rattle.ot_op.specs.declared.comp.Comp.{Comp};
ghost use Rattle.ot_op.specs.Apply.{applied as applied_lem};
ghost use Rattle.journal_rules.specs.Client as rules;
ghost use Rattle.plain_journal.specs.Answers.{shift_as};
ghost use Rattle.journal_sizes.specs.Sizes.{AreSized, IsFlown, IsLight, IsNear, IsSized};
ghost use Rattle.plain_journal.specs.Crossing.{AreLight};

use ot_op::{ApplyFault, Comp, Op, TextLike, apply};
use ot_transform::cross;
use ot_units::Units;
use std::alloc::{AllocError, Global};

/// What an operation of another makes of flight, pending and text.
#[derive(Drop)]
pub(crate) struct Shift {
    pub flight: Option<Op>,
    pub pending: Op,
    pub text: Units,
}

/// What a component makes of a text, `None` where it doesn't apply. The only error is want of memory.
pub(crate) fn applied(alloc: Global, text: &Units, comp: &Comp) -> Result<Option<Units>, AllocError>
    ensures { IfOk result (λ made. made ≡ applied_lem text.now comp.now) }
{
    let mut made = text.copy(alloc)?;
    match comp {
        Comp::Ins(at, part) => {
            if *at as usize > made.len() {
                return Ok(None);
            }
            made.put_in(*at as usize, part.as_slice())?;
        }
        Comp::Del(at, part) => {
            if !made.same_at(*at as usize, part.as_slice()) {
                return Ok(None);
            }
            made.cut(*at as usize, part.len());
        }
        Comp::Com(at, part, _) => {
            if !made.same_at(*at as usize, part.as_slice()) {
                return Ok(None);
            }
        }
    }
    Ok(Some(made))
}

// The flight past an operation, and the operation past the flight.
fn flight_crossed(
    alloc: Global,
    flight: &Option<Op>,
    op: &Op,
) -> Result<Option<(Option<Op>, Op)>, AllocError>
    requires flies { (f : List Comp) → flight.now ≡ Some f → IsSized f }
    requires op { IsSized op.now }
    ensures value { IfOk result (λ both. both ≡ rules.flight_crossed flight.now op.now) }
    ensures flown { IfOk result (λ both. IfSome both IsFlown) }
{
    match flight {
        Some(flight) => match cross(alloc, flight, op)? {
            Some((flight, past)) => Ok(Some((Some(flight), past))),
            None => Ok(None),
        },
        None => Ok(Some((None, op.copy(alloc)?))),
    }
}

/// What an operation of another makes of flight, pending and text, `None` where one can't be crossed
/// with it or the text doesn't allow it. The only error is want of memory.
pub(crate) fn shifted(
    alloc: Global,
    flight: &Option<Op>,
    pending: &Op,
    text: &Units,
    op: &Op,
) -> Result<Option<Shift>, AllocError>
    requires own { AreSized flight.now pending.now }
    requires op { IsSized op.now }
    ensures value { IfOk result (λ shift. option_map shift_as shift ≡ rules.shifted flight.now pending.now text.now op.now) }
    ensures light { IfOk result (λ shift. IfSome shift AreLight) }
{
    let Some((flight, past)) = flight_crossed(alloc, flight, op)? else {
        return Ok(None);
    };
    let Some((pending, past)) = cross(alloc, pending, &past)? else {
        return Ok(None);
    };
    let mut text = text.copy(alloc)?;
    match apply(&mut text, &past) {
        Ok(()) => Ok(Some(Shift {
            flight,
            pending,
            text,
        })),
        Err(ApplyFault::Mismatch(_)) => Ok(None),
        Err(ApplyFault::Memory) => Err(AllocError),
    }
}
