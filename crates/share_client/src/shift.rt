//! An operation of another past what a client has of its own.

ghost use Rattle.std.specs.Prelude.{◌≡◌, List, IfOk, IfSome, Some, option_map};
ghost use Rattle.ot_op.specs.declared.comp.Comp.{Comp};
ghost use Rattle.journal_rules.specs.Client as rules;
ghost use Rattle.journal_sizes.specs.Sizes.{AreSized, IsFlown, IsSized};
ghost use Rattle.share_client.specs.Shifts.{shift_of};

use ot_op::Op;
use ot_text::DocText;
use ot_transform::cross;
use std::alloc::{AllocError, Global};

/// What an operation of another makes of flight, pending and text.
#[derive(Drop)]
pub(crate) struct Shift {
    pub(crate) flight: Option<Op>,
    pub(crate) pending: Op,
    pub(crate) text: DocText,
}

// The flight past an operation, and the operation past the flight.
fn flight_crossed(
    alloc: Global,
    flight: &Option<Op>,
    op: &Op,
) -> Result<Option<(Option<Op>, Op)>, AllocError>
    requires flies { (f : List Comp) → flight.now ≡ Some f → IsSized f }
    requires op { IsSized op.now }
    ensures value { IfOk result (λ both. both ≡ rules.flight_crossed flight.now op.now) }
    ensures flown { IfOk result (λ both. IfSome both IsFlown) }
{
    match flight {
        Some(flight) => match cross(alloc, flight, op)? {
            Some((flight, past)) => Ok(Some((Some(flight), past))),
            None => Ok(None),
        },
        None => Ok(Some((None, op.copy(alloc)?))),
    }
}

/// What an operation of another makes of flight, pending and text, `None` where one can't be crossed
/// with it or the text doesn't allow it. The only error is want of memory.
pub(crate) fn shifted(
    alloc: Global,
    flight: &Option<Op>,
    pending: &Op,
    text: &DocText,
    op: &Op,
) -> Result<Option<Shift>, AllocError>
    requires own { AreSized flight.now pending.now }
    requires op { IsSized op.now }
    ensures { IfOk result (λ shift. option_map shift_of shift ≡ rules.shifted flight.now pending.now text.now op.now) }
{
    let Some((flight, past)) = flight_crossed(alloc, flight, op)? else {
        return Ok(None);
    };
    let Some((pending, past)) = cross(alloc, pending, &past)? else {
        return Ok(None);
    };
    let Some(text) = text.applied(alloc, &past)? else {
        return Ok(None);
    };
    Ok(Some(Shift {
        flight,
        pending,
        text,
    }))
}
