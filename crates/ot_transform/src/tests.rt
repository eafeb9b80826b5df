//! What the calls answer with ample memory, on small operations worked by hand.

ghost use Rattle.std.specs.Prelude.{◌≡◌, ◌∷◌, [], false, IfOk};
ghost use Rattle.ot_op.specs.Operation.{is_void};

use crate::{cross, fits, through};
use Kind::{Comment, Delete, Insert};
use ot_op::{Comp, Op};
use ot_units::Units;
use std::alloc::Global;
use std::process::Abort;
use std::test::Fail;

#[derive(Clone, Copy)]
enum Kind {
    Insert,
    Delete,
    Comment,
}

/// A component, written down: its kind, its place and its text.
type Row = (Kind, u32, &'static str);

fn op(alloc: Global, rows: &[Row]) -> Result<Op, Fail> {
    let mut op = Op::empty(alloc);
    for (kind, at, text) in rows {
        let part = Units::sanitized(alloc, *text)?;
        let comp = match kind {
            Insert => Comp::Ins(*at, part),
            Delete => Comp::Del(*at, part),
            Comment => Comp::Com(*at, part, 7),
        };
        if !comp.is_void() {
            op.push(comp).map_err(|(full, _)| full)?;
        }
    }
    Ok(op)
}

/// Two operations on one text, and what each becomes past the other.
type Crossing = (
    &'static [Row],
    &'static [Row],
    Option<(&'static [Row], &'static [Row])>,
);

const CROSSED: [Crossing; 9] = [
    // Of two inserts at one place the left one comes first.
    (
        &[(Insert, 1, "Y")],
        &[(Insert, 1, "X")],
        Some((&[(Insert, 1, "Y")], &[(Insert, 2, "X")])),
    ),
    // An insert splits a delete.
    (
        &[(Delete, 1, "bcde")],
        &[(Insert, 3, "XY")],
        Some((
            &[(Delete, 1, "bc"), (Delete, 3, "de")],
            &[(Insert, 1, "XY")],
        )),
    ),
    // What two deletes have in common is taken out once.
    (
        &[(Delete, 2, "cde")],
        &[(Delete, 1, "bcd")],
        Some((&[(Delete, 1, "e")], &[(Delete, 1, "b")])),
    ),
    (&[(Delete, 1, "b")], &[(Delete, 1, "b")], Some((&[], &[]))),
    // They say that different texts stand at one place.
    (&[(Delete, 0, "a")], &[(Delete, 0, "b")], None),
    // A comment takes in what is inserted into its text, and loses what is deleted of it.
    (
        &[(Comment, 1, "bcd")],
        &[(Insert, 2, "X"), (Delete, 0, "ab")],
        Some((
            &[(Comment, 0, "Xcd")],
            &[(Insert, 2, "X"), (Delete, 0, "ab")],
        )),
    ),
    // The right list is rebuilt, so that its inserts merge.
    (
        &[],
        &[(Insert, 0, "a"), (Insert, 0, "b")],
        Some((&[], &[(Insert, 0, "ba")])),
    ),
    // What a crossing within another one answers is appended to the lists as a whole.
    (
        &[(Insert, 2, "y"), (Delete, 2, "y")],
        &[(Delete, 3, "de"), (Delete, 1, "bc")],
        Some((
            &[(Insert, 1, "y"), (Delete, 1, "y")],
            &[(Delete, 1, "bcde")],
        )),
    ),
    (
        &[(Insert, 1, "y"), (Delete, 3, "c"), (Delete, 0, "aybd")],
        &[(Insert, 1, "v"), (Delete, 0, "av")],
        Some((
            &[(Insert, 0, "y"), (Delete, 0, "ybcd")],
            &[(Insert, 0, "v"), (Delete, 0, "v")],
        )),
    ),
];

fn cross_row(rt: &impl Abort, alloc: Global, (left, right, want): Crossing) -> Result<(), Fail> {
    let left = op(alloc, left)?;
    let right = op(alloc, right)?;
    assert!(rt; fits(&left, &right));
    let both = cross(alloc, &left, &right)?;
    assert_eq!(rt; both.is_some(), want.is_some());
    if let Some((left, right)) = both
        && let Some((want_left, want_right)) = want
    {
        let want_left = op(alloc, want_left)?;
        let want_right = op(alloc, want_right)?;
        assert_eq!(rt; left.comps(), want_left.comps());
        assert_eq!(rt; right.comps(), want_right.comps());
    }
    Ok(())
}

#[test]
fn crosses(rt: HostRuntime) -> Result<(), Fail> {
    for row in CROSSED {
        cross_row(&rt, rt.alloc(), row)?;
    }
    Ok(())
}

fn single(alloc: Global, comp: Comp) -> Result<Op, Fail>
    requires { is_void comp ≡ false }
    ensures { IfOk result (λ made. made ≡ comp ∷ []) }
{
    let mut op = Op::empty(alloc);
    op.push(comp).map_err(|(full, _)| full)?;
    Ok(op)
}

// On `ab`, `z` goes behind it, `X` before it, and then `Xa` out.
#[test]
fn goes_through(rt: HostRuntime) -> Result<(), Fail> {
    let alloc = rt.alloc();
    let behind = single(alloc, Comp::Ins(2, Units::from_slice(alloc, &[0x7A])?))?;
    let before = single(alloc, Comp::Ins(0, Units::from_slice(alloc, &[0x58])?))?;
    let out = single(
        alloc,
        Comp::Del(0, Units::from_slice(alloc, &[0x58, 0x61])?),
    )?;
    let moved = through(alloc, &behind, &[before, out])?.ok_or("none")?;
    assert_eq!(rt; moved.comps(), op(alloc, &[(Insert, 1, "z")])?.comps());
    let same = through(alloc, &behind, &[])?.ok_or("none")?;
    assert_eq!(rt; same.comps(), behind.comps());
    Ok(())
}
