//! `compose`, an operation behind another.

ghost use Rattle.std.specs.Prelude.{◌≡◌, IfOk};
ghost use Rattle.ot_op.specs.Compose.{composed, DoesInTurn, ComposesAlike};

use crate::{Op, append};
use std::alloc::{AllocError, Global};

/// One operation that does what the first and then the second do: a copy of the first, to which
/// each component of the second is appended.
pub fn compose(alloc: Global, first: &Op, second: &Op) -> Result<Op, AllocError>
    ensures value { IfOk result (λ made. made ≡ composed first.now second.now) }
    ensures does { IfOk result (λ made. DoesInTurn first.now second.now made) }
{
    let mut made = first.copy(alloc)?;
    for comp in second.comps() {
        append(&mut made, comp.copy(alloc)?).map_err(|(full, _)| full)?;
    }
    Ok(made)
}

/// Composing does to any text what the first operation and then the second do.
pub fn compose_same()
    ensures { ComposesAlike }
{}
