//! What the operations since an update's version make of its own.

ghost use Rattle.std.specs.Prelude.{◌≡◌, ◌+◌, ◌^◌, ◌<◌, length, IfOk};
ghost use Rattle.ot_transform.specs.Room.{FitsAll};
ghost use Rattle.journal_rules.specs.Deciding.{scanned};
ghost use Rattle.dup_check.specs.Snapshot.{numbered, operations};
ghost use Rattle.dup_check.specs.Scanned.{scan_of};

use crate::Past;
use journal_entries::Update;
use ot_op::Op;
use ot_transform::cross;
use std::alloc::{AllocError, Global};

/// What the operations since an update's version make of its own.
#[derive(Drop)]
pub(crate) enum Scanned {
    /// The one at this version was sent under a source of the update's list.
    Twin(u64),
    /// One of them can't be crossed with it.
    Stuck,
    /// Past all of them it is this.
    Moved(Op),
}

/// Looks at the operations since an update's version in turn: whether its source is one under which
/// the update may have been sent before, and else what it makes of the update's own, which is crossed
/// with it as the left one.
pub(crate) fn scan(alloc: Global, update: &Update, past: &[Past]) -> Result<Scanned, AllocError>
    requires versions { update.now.v + length past.now < 2 ^ 64 }
    requires room { FitsAll update.now.op (operations past.now) }
    ensures { IfOk result (λ made. scan_of made ≡ scanned update.now.dup update.now.op (numbered update.now.v past.now)) }
{
    let mut moved = update.op.copy(alloc)?;
    for (k, before) in past.iter().enumerate() {
        if update.dup.as_slice().contains(&before.source) {
            return Ok(Scanned::Twin(update.v + k as u64));
        }
        let Some((next, _)) = cross(alloc, &moved, &before.op)? else {
            return Ok(Scanned::Stuck);
        };
        moved = next;
    }
    Ok(Scanned::Moved(moved))
}
