//! `Moved`, what a component becomes past another one.

ghost use Rattle.std.specs.Prelude.{◌≡◌, ◌∷◌, [], OnOk};
ghost use Rattle.ot_op.specs.Compose.{composed};
ghost use Rattle.ot_transform.specs.Moved.{moved_list};

use ot_op::{Comp, Comps, Op, append};
use std::alloc::AllocError;

/// What a component becomes past another one.
#[derive(Debug, Drop)]
pub(crate) enum Moved {
    /// The other one took all of it out.
    Nothing,
    /// It stays one component.
    One(Comp),
    /// A delete, which an insert has split.
    Two(Comp, Comp),
}

/// Appends what a component has become.
pub(crate) fn append_moved(op: &mut Op, moved: Moved) -> Result<(), AllocError>
    ensures { OnOk result (op.new ≡ composed op.old (moved_list moved)) }
{
    match moved {
        Moved::Nothing => Ok(()),
        Moved::One(comp) => append_one(op, comp),
        Moved::Two(first, second) => {
            append_one(op, first)?;
            append_one(op, second)
        }
    }
}

/// Appends components.
pub(crate) fn append_all(op: &mut Op, comps: Comps) -> Result<(), AllocError>
    ensures { OnOk result (op.new ≡ composed op.old comps.items) }
{
    for comp in comps {
        append_one(op, comp)?;
    }
    Ok(())
}

fn append_one(op: &mut Op, comp: Comp) -> Result<(), AllocError>
    ensures { OnOk result (op.new ≡ composed op.old (comp ∷ [])) }
{
    append(op, comp).map_err(|(full, _)| full)
}
