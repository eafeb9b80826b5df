//! `invert`, the operation that undoes another.

ghost use Rattle.std.specs.Prelude.{◌≡◌, IfOk};
ghost use Rattle.ot_op.specs.Operation.{IsOp};
ghost use Rattle.ot_op.specs.Invert.{undoing, inverted, one_or_none, Undoes, InvertUndoes};

use crate::{Comp, Op};
use std::alloc::{AllocError, Global};

/// The operation that undoes `op`: its components from the last to the first, inserts as deletes
/// and deletes as inserts. Comments, which change no text, are left out.
pub fn invert(alloc: Global, op: &Op) -> Result<Op, AllocError>
    ensures value { IfOk result (λ made. made ≡ inverted op.now) }
    ensures undoes { IfOk result (λ made. Undoes op.now made) }
{
    undo_all(alloc, op.comps())
}

/// Where an operation makes one text of another, its inverse makes that one again.
pub fn invert_undoes()
    ensures { InvertUndoes }
{}

// What undoes the components, the last one first.
fn undo_all(alloc: Global, comps: &[Comp]) -> Result<Op, AllocError>
    requires { IsOp comps.now }
    ensures { IfOk result (λ made. made ≡ inverted comps.now) }
{
    let mut made = Op::empty(alloc);
    for comp in comps.iter().rev() {
        if let Some(comp) = undo(alloc, comp)? {
            made.push(comp).map_err(|(full, _)| full)?;
        }
    }
    Ok(made)
}

// What undoes one component, if anything is to be undone.
fn undo(alloc: Global, comp: &Comp) -> Result<Option<Comp>, AllocError>
    ensures { IfOk result (λ o. one_or_none o ≡ undoing comp.now) }
{
    match comp {
        Comp::Ins(at, part) => Ok(Some(Comp::Del(*at, part.copy(alloc)?))),
        Comp::Del(at, part) => Ok(Some(Comp::Ins(*at, part.copy(alloc)?))),
        Comp::Com(_, _, _) => Ok(None),
    }
}
