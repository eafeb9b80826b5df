//! Changes of one kind, and both kinds in one order.

ghost use Rattle.std.specs.Prelude.{◌≡◌, ◌++◌, filter, IfOk, OnOk};
ghost use Rattle.ranges_tracker.specs.Ordered.{starts_by};
ghost use Rattle.ranges_tracker.specs.Shown.{same_kind, merged, up_to, past};

use crate::change::same_kind;
use crate::{Change, ChangeKind};
use std::alloc::{AllocError, Global};
use std::collections::VecDeque;

// The changes of one kind.
pub(crate) fn of_kind(
    alloc: Global,
    changes: &[Change],
    kind: ChangeKind,
) -> Result<Vec<Change>, AllocError>
    ensures { IfOk result (λ made. made.items ≡ filter (λ c. same_kind c.kind kind) changes.now) }
{
    let mut made = Vec::new(alloc);
    for c in changes {
        if same_kind(c.kind, kind) {
            made.push(c.copy(alloc)?)?;
        }
    }
    Ok(made)
}

fn starts_by(rest: &VecDeque<Change>, at: u32) -> bool
    ensures { result ≡ starts_by at rest.now.items }
{
    match rest.front() {
        None => false,
        Some(first) => first.at <= at,
    }
}

// Moves the deletes up to a place behind others.
fn move_up_to(
    made: &mut Vec<Change>,
    rest: &mut VecDeque<Change>,
    at: u32,
) -> Result<(), AllocError>
    ensures front { OnOk result (made.new.items ≡ made.old.items ++ up_to at rest.old.items) }
    ensures rest { OnOk result (rest.new.items ≡ past at rest.old.items) }
{
    'turns: while starts_by(rest, at) {
        if let Some(first) = rest.pop_front() {
            made.push(first)?;
        }
    }
    Ok(())
}

// Inserts and deletes in their order.
pub(crate) fn merge(
    alloc: Global,
    inserts: Vec<Change>,
    deletes: Vec<Change>,
) -> Result<Vec<Change>, AllocError>
    ensures { IfOk result (λ made. made.items ≡ merged inserts.items deletes.items) }
{
    let mut made = Vec::new(alloc);
    let mut rest = VecDeque::from(deletes);
    for i in inserts {
        move_up_to(&mut made, &mut rest, i.at)?;
        made.push(i)?;
    }
    for d in rest {
        made.push(d)?;
    }
    Ok(made)
}

pub(crate) fn push_rest(
    alloc: Global,
    made: &mut Vec<Change>,
    deletes: &[Change],
) -> Result<(), AllocError>
    ensures { OnOk result (made.new.items ≡ made.old.items ++ deletes.now) }
{
    for d in deletes {
        made.push(d.copy(alloc)?)?;
    }
    Ok(())
}
