//! What the calls answer with ample memory, on small operations worked by hand.

use crate::{ApplyFault, Comp, FormFault, Op, append, apply, compose, invert};
use Kind::{Comment, Delete, Insert};
use ot_units::Units;
use std::alloc::Global;
use std::process::Abort;
use std::string::ToString;
use std::test::Fail;

#[derive(Clone, Copy)]
enum Kind {
    Insert,
    Delete,
    Comment,
}

/// A component, written down: its kind, its place and its text.
type Row = (Kind, u32, &'static str);

fn comp(alloc: Global, (kind, at, text): Row) -> Result<Comp, Fail> {
    let part = Units::sanitized(alloc, text)?;
    Ok(match kind {
        Insert => Comp::Ins(at, part),
        Delete => Comp::Del(at, part),
        Comment => Comp::Com(at, part, 7),
    })
}

fn op(alloc: Global, rows: &[Row]) -> Result<Op, Fail> {
    let mut op = Op::empty(alloc);
    for row in rows {
        let comp = comp(alloc, *row)?;
        if !comp.is_void() {
            op.push(comp).map_err(|(full, _)| full)?;
        }
    }
    Ok(op)
}

/// Two operations, and the two composed.
const COMPOSED: [(&[Row], &[Row], &[Row]); 6] = [
    (
        &[(Insert, 1, "ab")],
        &[(Insert, 2, "X")],
        &[(Insert, 1, "aXb")],
    ),
    (
        &[(Insert, 1, "ab")],
        &[(Insert, 3, "X")],
        &[(Insert, 1, "abX")],
    ),
    (
        &[(Insert, 1, "ab")],
        &[(Insert, 4, "X")],
        &[(Insert, 1, "ab"), (Insert, 4, "X")],
    ),
    (
        &[(Delete, 2, "c")],
        &[(Delete, 1, "b")],
        &[(Delete, 1, "bc")],
    ),
    (
        &[(Delete, 1, "b")],
        &[(Delete, 2, "d")],
        &[(Delete, 1, "b"), (Delete, 2, "d")],
    ),
    (
        &[(Insert, 1, "a")],
        &[(Comment, 1, "a")],
        &[(Insert, 1, "a"), (Comment, 1, "a")],
    ),
];

fn compose_row(
    rt: &impl Abort,
    alloc: Global,
    (first, second, want): (&[Row], &[Row], &[Row]),
) -> Result<(), Fail> {
    let first = op(alloc, first)?;
    let second = op(alloc, second)?;
    let want = op(alloc, want)?;
    assert_eq!(rt; compose(alloc, &first, &second)?.comps(), want.comps());
    let mut appended = first.copy(alloc)?;
    for comp in second.into_comps() {
        append(&mut appended, comp).map_err(|(full, _)| full)?;
    }
    assert_eq!(rt; appended.comps(), want.comps());
    Ok(())
}

#[test]
fn composes(rt: HostRuntime) -> Result<(), Fail> {
    for row in COMPOSED {
        compose_row(&rt, rt.alloc(), row)?;
    }
    Ok(())
}

#[test]
fn inverts(rt: HostRuntime) -> Result<(), Fail> {
    let alloc = rt.alloc();
    let edits = op(
        alloc,
        &[(Insert, 1, "X"), (Comment, 1, "X"), (Delete, 0, "a")],
    )?;
    let inverse = invert(alloc, &edits)?;
    assert_eq!(rt;
        inverse.comps(),
        op(alloc, &[(Insert, 0, "a"), (Delete, 1, "X")])?.comps()
    );
    let copy = Op::from_slice(alloc, inverse.comps())?;
    assert_eq!(rt; copy.comps(), inverse.comps());
    Ok(())
}

#[test]
fn shows_faults(rt: HostRuntime) -> Result<(), Fail> {
    for (fault, want) in [
        (FormFault::Form(0), "component 0 is out of form"),
        (
            FormFault::Supplementary(7),
            "component 7 has a supplementary character",
        ),
        (
            FormFault::TooLarge {
                comps: 2,
                units: 70_000,
            },
            "2 components of 70000 units are too large",
        ),
    ] {
        let shown = fault.to_string(rt.alloc())?;
        assert_eq!(rt; shown.as_str(), want);
    }
    let shown = ApplyFault::Mismatch(12).to_string(rt.alloc())?;
    assert_eq!(rt; shown.as_str(), "component 12 does not apply");
    Ok(())
}

/// Operations on `abc`: what stands then, and what is answered.
const APPLIED: [(&[Row], &str, Result<(), ApplyFault>); 7] = [
    (&[(Insert, 3, "z")], "abcz", Ok(())),
    (&[(Insert, 4, "z")], "abc", Err(ApplyFault::Mismatch(0))),
    (&[(Delete, 0, "x")], "abc", Err(ApplyFault::Mismatch(0))),
    (&[(Delete, 2, "cd")], "abc", Err(ApplyFault::Mismatch(0))),
    (&[(Comment, 1, "b"), (Comment, 3, "")], "abc", Ok(())),
    (&[(Comment, 4, "")], "abc", Err(ApplyFault::Mismatch(0))),
    (
        &[(Insert, 0, "z"), (Delete, 1, "b")],
        "zabc",
        Err(ApplyFault::Mismatch(1)),
    ),
];

fn apply_row(
    rt: &impl Abort,
    alloc: Global,
    (rows, want, answer): (&[Row], &str, Result<(), ApplyFault>),
) -> Result<(), Fail> {
    let mut text = Units::sanitized(alloc, "abc")?;
    let edits = op(alloc, rows)?;
    assert_eq!(rt; apply(&mut text, &edits), answer);
    let made = text.to_text(alloc)?;
    assert_eq!(rt; made.as_str(), want);
    Ok(())
}

#[test]
fn applies(rt: HostRuntime) -> Result<(), Fail> {
    for row in APPLIED {
        apply_row(&rt, rt.alloc(), row)?;
    }
    Ok(())
}
