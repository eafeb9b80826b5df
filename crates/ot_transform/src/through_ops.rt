//! `through`, an operation past a list of others.

ghost use Rattle.std.specs.Prelude.{◌≡◌, IfOk, IfSome};
ghost use Rattle.ot_transform.specs.Crossing.{through};
ghost use Rattle.ot_transform.specs.Convergence.{Follows};
ghost use Rattle.ot_transform.specs.Room.{FitsAll, new_units_of_all};
ghost use Rattle.ot_transform.specs.Size.{NoLarger};

use crate::cross;
use ot_op::Op;
use std::alloc::{AllocError, Global};

/// An operation past each of the past ones in turn: crossed as the left one with the first, what
/// comes of it with the second, and so on. So an operation on an old version of a text becomes one
/// on the present text, and `None` doesn't come where it applies to the version it was made for.
/// Its places must have room for all that the past ones insert, and theirs for what it inserts.
pub fn through(alloc: Global, op: &Op, past: &[Op]) -> Result<Option<Op>, AllocError>
    requires { FitsAll op.now past.now }
    ensures value { IfOk result (λ made. made ≡ through op.now past.now) }
    ensures follows { IfOk result (λ made. Follows op.now past.now made) }
    ensures no_larger { IfOk result (λ made. IfSome made (NoLarger op.now (new_units_of_all past.now))) }
{
    fold_through(alloc, op, past)
}

fn fold_through(alloc: Global, op: &Op, past: &[Op]) -> Result<Option<Op>, AllocError>
    requires { FitsAll op.now past.now }
    ensures { IfOk result (λ made. made ≡ through op.now past.now) }
{
    let mut current = op.copy(alloc)?;
    for other in past {
        let Some((next, _)) = cross(alloc, &current, other)? else {
            return Ok(None);
        };
        current = next;
    }
    Ok(Some(current))
}
