//! What becomes of updates.

ghost use Rattle.std.specs.Prelude.{◌≡◌, ◌+◌, ◌<◌, ◌≤◌, [], length, IsTrue};
ghost use Rattle.std.specs.List.{All};
ghost use Rattle.ot_op.specs.Operation.{place, units_of};
ghost use Rattle.dup_check.specs.Snapshot.{InReach};

use crate::{Decision, Past, Snapshot, decide};
use Kind::{Delete, Insert};
use Want::{Applied, Dup, Refused};
use journal_entries::{Cause, Sources, Update};
use ot_op::{Comp, Op};
use ot_text::{DocText, doc_text, doc_units};
use ot_units::{Name, Units};
use ranges_tracker::Ranges;
use std::alloc::Global;
use std::process::Abort;
use std::test::Fail;

#[derive(Clone, Copy)]
enum Kind {
    Insert,
    Delete,
}

/// A component: its kind, its place and its text.
type Row = (Kind, u32, &'static str);

/// A text: its front, and what stands so many times behind it.
type Text = (&'static str, &'static str, u32);

#[derive(Clone, Copy)]
enum Want {
    Applied(&'static [Row], Text),
    Dup(u64),
    Refused(Cause),
}

/// An update with source 9 for a document as it stands.
#[derive(Clone, Copy)]
struct Case {
    what: &'static str,
    base: u64,
    version: u64,
    text: Text,
    /// The operations from the update's version on with their sources, and how often they stand there.
    past: (&'static [(u64, Row)], u32),
    v: u64,
    dup: &'static [u64],
    op: Row,
    want: Want,
}

const PLAIN: Case = Case {
    what: "an insert",
    base: 0,
    version: 0,
    text: ("ab", "", 0),
    past: (&[], 0),
    v: 0,
    dup: &[],
    op: (Insert, 2, "x"),
    want: Applied(&[(Insert, 2, "x")], ("abx", "", 0)),
};

static CASES: [Case; 22] = [
    PLAIN,
    Case {
        what: "a version above the present one",
        v: 1,
        want: Refused(Cause::Future { have: 0 }),
        ..PLAIN
    },
    Case {
        what: "the greatest version",
        v: 18_446_744_073_709_551_615,
        want: Refused(Cause::Future { have: 0 }),
        ..PLAIN
    },
    Case {
        what: "a version below the first",
        base: 7,
        version: 7,
        v: 6,
        want: Refused(Cause::TooOld { have: 7 }),
        ..PLAIN
    },
    Case {
        what: "a hundred versions back",
        version: 100,
        text: ("", "x", 100),
        past: (&[(1, (Insert, 0, "x"))], 100),
        op: (Insert, 0, "y"),
        want: Applied(&[(Insert, 0, "y")], ("y", "x", 100)),
        ..PLAIN
    },
    Case {
        what: "a hundred and one versions back",
        version: 101,
        text: ("", "x", 101),
        op: (Insert, 0, "y"),
        want: Refused(Cause::TooOld { have: 101 }),
        ..PLAIN
    },
    Case {
        what: "two inserts at one place",
        version: 1,
        text: ("aXb", "", 0),
        past: (&[(1, (Insert, 1, "X"))], 1),
        op: (Insert, 1, "Y"),
        want: Applied(&[(Insert, 1, "Y")], ("aYXb", "", 0)),
        ..PLAIN
    },
    Case {
        what: "a delete that an insert splits",
        version: 1,
        text: ("abcXYdef", "", 0),
        past: (&[(1, (Insert, 3, "XY"))], 1),
        op: (Delete, 1, "bcde"),
        want: Applied(&[(Delete, 1, "bc"), (Delete, 3, "de")], ("aXYf", "", 0)),
        ..PLAIN
    },
    Case {
        what: "two deletes that overlap",
        version: 1,
        text: ("aef", "", 0),
        past: (&[(1, (Delete, 1, "bcd"))], 1),
        op: (Delete, 2, "cde"),
        want: Applied(&[(Delete, 1, "e")], ("af", "", 0)),
        ..PLAIN
    },
    Case {
        what: "two equal deletes",
        version: 1,
        text: ("ac", "", 0),
        past: (&[(1, (Delete, 1, "b"))], 1),
        op: (Delete, 1, "b"),
        want: Applied(&[], ("ac", "", 0)),
        ..PLAIN
    },
    Case {
        what: "a source of its list",
        version: 1,
        text: ("Xab", "", 0),
        past: (&[(5, (Insert, 0, "X"))], 1),
        dup: &[5],
        op: (Insert, 0, "X"),
        want: Dup(0),
        ..PLAIN
    },
    Case {
        what: "a source of its list that comes second",
        base: 3,
        version: 6,
        text: ("XXXab", "", 0),
        past: (
            &[
                (4, (Insert, 0, "X")),
                (5, (Insert, 0, "X")),
                (6, (Insert, 0, "X")),
            ],
            1,
        ),
        v: 3,
        dup: &[8, 5],
        want: Dup(4),
        ..PLAIN
    },
    Case {
        what: "a source of its list from before its version",
        version: 1,
        text: ("Xab", "", 0),
        v: 1,
        dup: &[5],
        op: (Insert, 0, "Y"),
        want: Applied(&[(Insert, 0, "Y")], ("YXab", "", 0)),
        ..PLAIN
    },
    Case {
        what: "a source of its list where the two can't be crossed",
        version: 1,
        text: ("b", "", 0),
        past: (&[(5, (Delete, 0, "a"))], 1),
        dup: &[5],
        op: (Delete, 0, "b"),
        want: Dup(0),
        ..PLAIN
    },
    Case {
        what: "two that can't be crossed",
        version: 1,
        text: ("b", "", 0),
        past: (&[(5, (Delete, 0, "a"))], 1),
        op: (Delete, 0, "b"),
        want: Refused(Cause::Mismatch),
        ..PLAIN
    },
    Case {
        what: "its own source",
        version: 1,
        text: ("Xab", "", 0),
        past: (&[(9, (Insert, 0, "X"))], 1),
        op: (Insert, 0, "Y"),
        want: Applied(&[(Insert, 0, "Y")], ("YXab", "", 0)),
        ..PLAIN
    },
    Case {
        what: "a delete of what doesn't stand there",
        op: (Delete, 0, "x"),
        want: Refused(Cause::Mismatch),
        ..PLAIN
    },
    Case {
        what: "an insert past the end",
        op: (Insert, 3, "z"),
        want: Refused(Cause::Mismatch),
        ..PLAIN
    },
    Case {
        what: "an insert into the longest text",
        text: ("", "a", 2_097_152),
        op: (Insert, 0, "z"),
        want: Refused(Cause::TooLong { len: 2_097_153 }),
        ..PLAIN
    },
    Case {
        what: "a text of the greatest length",
        text: ("", "a", 2_097_151),
        op: (Insert, 0, "b"),
        want: Applied(&[(Insert, 0, "b")], ("b", "a", 2_097_151)),
        ..PLAIN
    },
    Case {
        what: "a text too long by one",
        text: ("", "a", 2_097_151),
        op: (Insert, 0, "bc"),
        want: Refused(Cause::TooLong { len: 2_097_153 }),
        ..PLAIN
    },
    Case {
        what: "a mismatch in the longest text",
        text: ("", "a", 2_097_152),
        op: (Delete, 0, "b"),
        want: Refused(Cause::Mismatch),
        ..PLAIN
    },
];

/// Above each place and length of the cases' operations.
const LOW: usize = 1_000;

/// The longest text of the cases.
const LONGEST: usize = 2_097_152;

fn is_low(op: &Op) -> bool
    ensures few { IsTrue result → length op.now ≤ 1 }
    ensures low { IsTrue result → All (λ c. place c + units_of c < 1000) op.now }
{
    match op.comps() {
        [Comp::Ins(at, part) | Comp::Del(at, part) | Comp::Com(at, part, _)] => {
            *at as usize + part.len() < LOW
        }
        _ => false,
    }
}

fn are_low(past: &[Past]) -> bool
    ensures { IsTrue result → All (λ x. (length x.op ≤ 1) × All (λ c. place c + units_of c < 1000) x.op) past.now }
{
    for before in past {
        if !is_low(&before.op) {
            return false;
        }
    }
    true
}

/// Whether the past is there for a version in reach.
fn is_whole(look: &Snapshot) -> bool
    ensures { IsTrue result → InReach look.now → look.now.update.v + length look.now.past.items ≡ look.now.version }
{
    let v = look.update.v;
    let is_in_reach = look.base <= v && v <= look.version && look.version - v <= 100;
    !is_in_reach || look.version - v == look.past.len() as u64
}

/// The decision, where the case is small enough.
fn decide_low(alloc: Global, look: &Snapshot) -> Result<Option<Decision>, Fail>
    requires { look.now.ranges ≡ ([], []) }
{
    if look.text.len() > LONGEST || look.past.len() > 100 || !is_whole(look) {
        return Ok(None);
    }
    if !is_low(&look.update.op) || !are_low(look.past.as_slice()) {
        return Ok(None);
    }
    let decision = decide(alloc, look)?;
    Ok(Some(decision))
}

fn comp(alloc: Global, (kind, at, text): Row) -> Result<Comp, Fail> {
    let part = Units::sanitized(alloc, text)?;
    match kind {
        Insert => Ok(Comp::Ins(at, part)),
        Delete => Ok(Comp::Del(at, part)),
    }
}

fn op(alloc: Global, rows: &[Row]) -> Result<Op, Fail> {
    let mut op = Op::empty(alloc);
    for row in rows {
        let made = comp(alloc, *row)?;
        if !made.is_void() {
            op.push(made).map_err(|(full, _)| full)?;
        }
    }
    Ok(op)
}

fn spelled(alloc: Global, (front, unit, times): Text) -> Result<DocText, Fail> {
    let mut text = String::from_str(alloc, front)?;
    for _ in 0..times {
        text.push_str(unit)?;
    }
    let units = Units::sanitized(alloc, text.as_str())?;
    Ok(doc_text(alloc, &units)?)
}

fn past(alloc: Global, rows: &[(u64, Row)], times: u32) -> Result<Vec<Past>, Fail> {
    let mut past = Vec::new(alloc);
    for _ in 0..times {
        for (source, row) in rows {
            let op = op(alloc, &[*row])?;
            past.push(Past {
                source: *source,
                op,
            })?;
        }
    }
    Ok(past)
}

fn update(alloc: Global, case: &Case) -> Result<Update, Fail> {
    let mut dup = Sources::new(alloc);
    for source in case.dup {
        dup.push(*source)?;
    }
    Ok(Update {
        doc: 0,
        client: None,
        number: 0,
        source: 9,
        dup,
        user: Name::read(alloc, "u")?.ok_or("a name")?,
        track: false,
        ms: 0,
        v: case.v,
        op: op(alloc, &[case.op])?,
    })
}

fn decision(alloc: Global, case: &Case) -> Result<Option<Decision>, Fail> {
    let (rows, times) = case.past;
    let look = Snapshot {
        seat: 0,
        token: 0,
        doc: 0,
        ticket: 1,
        version: case.version,
        base: case.base,
        text: spelled(alloc, case.text)?,
        ranges: Ranges::none(alloc),
        past: past(alloc, rows, times)?,
        update: update(alloc, case)?,
        at: 2,
    };
    decide_low(alloc, &look)
}

fn is_spelled(alloc: Global, text: &DocText, want: Text) -> Result<bool, Fail> {
    let units = doc_units(alloc, text)?;
    let wanted = doc_units(alloc, &spelled(alloc, want)?)?;
    Ok(units.same(&wanted))
}

fn check(rt: &impl Abort, alloc: Global, case: &Case) -> Result<(), Fail> {
    let what = case.what;
    let decided = decision(alloc, case)?.ok_or("a small case")?;
    match (decided, case.want) {
        (
            Decision::Apply {
                op: made,
                text,
                ranges,
            },
            Applied(rows, want),
        ) => {
            assert_eq!(rt; made.comps(), op(alloc, rows)?.comps(), "{what}");
            assert!(rt; is_spelled(alloc, &text, want)?, "{what}");
            assert!(rt; ranges.changes().is_empty() && ranges.comments().is_empty());
        }
        (Decision::Dup(v), Dup(want)) => assert_eq!(rt; v, want, "{what}"),
        (Decision::Refuse(cause), Refused(want)) => assert_eq!(rt; cause, want, "{what}"),
        (other, _) => panic!(rt; "{what}: {other:?}"),
    }
    Ok(())
}

#[test]
fn updates_are_decided_by_the_first_rule_that_holds(rt: HostRuntime) -> Result<(), Fail> {
    for case in &CASES {
        check(&rt, rt.alloc(), case)?;
    }
    Ok(())
}
