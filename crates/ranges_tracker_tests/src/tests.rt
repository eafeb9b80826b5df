//! What the calls answer with ample memory, on small texts worked by hand.

ghost use Rattle.std.specs.Prelude.{◌≡◌, ◌∷◌, [], ◌<◌, ◌+◌, ◌^◌, length, false, IfOk, IsTrue};
ghost use Rattle.ot_op.specs.Operation.{is_void, units_of};
ghost use Rattle.ranges_tracker.specs.Trackable.{AreRangesAt};

use Kind::{Comments, Deletes, Inserts};
use ot_op::{Comp, Op, apply};
use ot_units::{Name, Units};
use ranges_tracker::{Change, ChangeKind, Comment, KeptDoc, Lines, Ranges, Stamp, track, track_op};
use std::alloc::{AllocError, Global};
use std::process::Abort;
use std::test::Fail;

#[derive(Clone, Copy)]
enum Kind {
    Inserts,
    Deletes,
    Comments,
}

/// An update of one component: its user, whether it is tracked, what it does, where, and its text.
type Row = (&'static str, bool, Kind, u32, &'static str);

/// A change: its id, kind, place, text and user.
type Shown = (u64, u32, ChangeKind, u32, &'static str, &'static str);

/// The place and the text of a comment.
type Noted = (u32, &'static str);

/// A text, updates by versions from 0, and the text, the changes and the comments then.
type Case = (
    &'static str,
    &'static [Row],
    &'static str,
    &'static [Shown],
    &'static [Noted],
);

const CASES: [Case; 26] = [
    (
        "ab",
        &[
            ("alice", true, Inserts, 1, "XZ"),
            ("bob", true, Inserts, 2, "Y"),
        ],
        "aXYZb",
        &[
            (0, 0, ChangeKind::Inserted, 1, "X", "alice"),
            (1, 0, ChangeKind::Inserted, 2, "Y", "bob"),
            (1, 1, ChangeKind::Inserted, 3, "Z", "alice"),
        ],
        &[],
    ),
    (
        "abc",
        &[
            ("alice", true, Inserts, 1, "X"),
            ("alice", true, Inserts, 2, "Y"),
        ],
        "aXYbc",
        &[(0, 0, ChangeKind::Inserted, 1, "XY", "alice")],
        &[],
    ),
    (
        "abcd",
        &[("u", true, Deletes, 1, "b"), ("u", true, Deletes, 0, "ac")],
        "d",
        &[(1, 0, ChangeKind::Deleted, 0, "abc", "u")],
        &[],
    ),
    (
        "",
        &[
            ("alice", true, Inserts, 0, "abcd"),
            ("bob", false, Inserts, 2, "X"),
        ],
        "abXcd",
        &[
            (0, 0, ChangeKind::Inserted, 0, "ab", "alice"),
            (1, 0, ChangeKind::Inserted, 3, "cd", "alice"),
        ],
        &[],
    ),
    (
        "",
        &[
            ("alice", true, Inserts, 0, "abcd"),
            ("bob", false, Inserts, 2, "X"),
            ("bob", true, Deletes, 0, "abXcd"),
        ],
        "",
        &[(2, 0, ChangeKind::Deleted, 0, "X", "bob")],
        &[],
    ),
    (
        "abcde",
        &[
            ("u", false, Comments, 1, "bcd"),
            ("u", false, Inserts, 2, "X"),
        ],
        "abXcde",
        &[],
        &[(1, "bXcd")],
    ),
    (
        "abcde",
        &[
            ("u", false, Comments, 1, "bcd"),
            ("u", false, Inserts, 2, "X"),
            ("u", false, Deletes, 0, "abXcde"),
        ],
        "",
        &[],
        &[(0, "")],
    ),
    (
        "ab",
        &[("u", true, Inserts, 0, "X"), ("u", false, Inserts, 1, "Y")],
        "XYab",
        &[(0, 0, ChangeKind::Inserted, 0, "X", "u")],
        &[],
    ),
    (
        "abc",
        &[
            ("u", true, Deletes, 1, "b"),
            ("alice", false, Inserts, 1, "X"),
        ],
        "aXc",
        &[(0, 0, ChangeKind::Deleted, 2, "b", "u")],
        &[],
    ),
    (
        "abc",
        &[("u", true, Deletes, 1, "b"), ("u", true, Inserts, 1, "X")],
        "aXc",
        &[
            (1, 0, ChangeKind::Inserted, 1, "X", "u"),
            (0, 0, ChangeKind::Deleted, 2, "b", "u"),
        ],
        &[],
    ),
    (
        "abc",
        &[
            ("alice", true, Inserts, 1, "XY"),
            ("bob", true, Deletes, 1, "XYb"),
        ],
        "ac",
        &[(1, 0, ChangeKind::Deleted, 1, "b", "bob")],
        &[],
    ),
    (
        "abcd",
        &[
            ("alice", true, Deletes, 1, "b"),
            ("bob", true, Deletes, 1, "c"),
        ],
        "ad",
        &[(1, 0, ChangeKind::Deleted, 1, "bc", "bob")],
        &[],
    ),
    (
        "abcd",
        &[
            ("alice", true, Deletes, 1, "b"),
            ("bob", false, Deletes, 1, "c"),
        ],
        "ad",
        &[(0, 0, ChangeKind::Deleted, 1, "b", "alice")],
        &[],
    ),
    (
        "abcd",
        &[
            ("u", true, Deletes, 1, "b"),
            ("u", true, Deletes, 2, "d"),
            ("u", false, Deletes, 1, "c"),
        ],
        "a",
        &[
            (0, 0, ChangeKind::Deleted, 1, "b", "u"),
            (1, 0, ChangeKind::Deleted, 1, "d", "u"),
        ],
        &[],
    ),
    (
        "ab",
        &[
            ("alice", true, Inserts, 1, "Y"),
            ("alice", true, Inserts, 1, "X"),
        ],
        "aXYb",
        &[(0, 0, ChangeKind::Inserted, 1, "XY", "alice")],
        &[],
    ),
    (
        "ab",
        &[
            ("alice", true, Inserts, 1, "X"),
            ("bob", false, Inserts, 2, "-"),
            ("alice", true, Inserts, 3, "Y"),
            ("alice", false, Deletes, 2, "-"),
            ("alice", true, Inserts, 2, "Z"),
        ],
        "aXZYb",
        &[
            (0, 0, ChangeKind::Inserted, 1, "XZ", "alice"),
            (2, 0, ChangeKind::Inserted, 3, "Y", "alice"),
        ],
        &[],
    ),
    (
        "",
        &[
            ("alice", true, Inserts, 0, "abcd"),
            ("alice", true, Inserts, 2, "X"),
        ],
        "abXcd",
        &[(0, 0, ChangeKind::Inserted, 0, "abXcd", "alice")],
        &[],
    ),
    (
        "",
        &[
            ("alice", true, Inserts, 0, "abcd"),
            ("bob", true, Inserts, 2, "X"),
        ],
        "abXcd",
        &[
            (0, 0, ChangeKind::Inserted, 0, "ab", "alice"),
            (1, 0, ChangeKind::Inserted, 2, "X", "bob"),
            (1, 1, ChangeKind::Inserted, 3, "cd", "alice"),
        ],
        &[],
    ),
    (
        "",
        &[
            ("alice", true, Inserts, 0, "abcd"),
            ("bob", true, Inserts, 2, "X"),
            ("bob", true, Deletes, 2, "X"),
        ],
        "abcd",
        &[
            (0, 0, ChangeKind::Inserted, 0, "ab", "alice"),
            (1, 1, ChangeKind::Inserted, 2, "cd", "alice"),
        ],
        &[],
    ),
    (
        "x",
        &[
            ("alice", true, Deletes, 0, "x"),
            ("alice", true, Inserts, 0, "Y"),
            ("bob", true, Deletes, 0, "Y"),
        ],
        "",
        &[(0, 0, ChangeKind::Deleted, 0, "x", "alice")],
        &[],
    ),
    (
        "abcde",
        &[
            ("u", false, Comments, 1, "bcd"),
            ("u", false, Inserts, 1, "X"),
        ],
        "aXbcde",
        &[],
        &[(2, "bcd")],
    ),
    (
        "abcde",
        &[
            ("u", false, Comments, 1, "bcd"),
            ("u", false, Inserts, 4, "X"),
        ],
        "abcdXe",
        &[],
        &[(1, "bcd")],
    ),
    (
        "abcde",
        &[
            ("u", false, Comments, 1, "b"),
            ("u", false, Comments, 2, "cd"),
        ],
        "abcde",
        &[],
        &[(2, "cd")],
    ),
    (
        "abcde",
        &[("u", false, Comments, 2, ""), ("u", false, Inserts, 2, "X")],
        "abXcde",
        &[],
        &[(3, "")],
    ),
    (
        "abcde",
        &[
            ("u", false, Comments, 1, "bcd"),
            ("u", false, Deletes, 0, "ab"),
        ],
        "cde",
        &[],
        &[(0, "cd")],
    ),
    (
        "abcde",
        &[
            ("u", false, Comments, 1, "bcd"),
            ("u", true, Deletes, 2, "c"),
        ],
        "abde",
        &[(1, 0, ChangeKind::Deleted, 2, "c", "u")],
        &[(1, "bd")],
    ),
];

/// Above all lengths of the cases.
const SMALL: usize = 1_000;

fn name(alloc: Global, text: &str) -> Result<Name, Fail> {
    let name = Name::read(alloc, text)?.ok_or("a name")?;
    Ok(name)
}

fn is_small(text: &Units, comp: &Comp) -> bool
    ensures void { IsTrue result → is_void comp.now ≡ false }
    ensures room { IsTrue result → length text.now + units_of comp.now < 2 ^ 32 }
{
    let units = match comp {
        Comp::Ins(_, part) | Comp::Del(_, part) | Comp::Com(_, part, _) => part.len(),
    };
    !comp.is_void() && (text.len() < SMALL && units < SMALL)
}

fn one(alloc: Global, comp: Comp) -> Result<Op, Fail>
    requires { is_void comp ≡ false }
    ensures { IfOk result (λ made. made ≡ comp ∷ []) }
{
    let mut op = Op::empty(alloc);
    op.push(comp).map_err(|(full, _)| full)?;
    Ok(op)
}

// Applies an update of one component, and tracks it.
fn update(
    alloc: Global,
    ranges: Ranges,
    text: &mut Units,
    comp: Comp,
    stamp: &Stamp,
) -> Result<Ranges, Fail>
    requires { AreRangesAt ranges text.old stamp.now.version }
    ensures { IfOk result (λ made. AreRangesAt made text.new (stamp.now.version + 1)) }
{
    if !is_small(text, &comp) {
        return Err(Fail::from("a small case"));
    }
    let op = one(alloc, comp)?;
    let Ok(()) = apply(text, &op) else {
        return Err(Fail::from("a case that applies"));
    };
    let mut marks = 0;
    match track(alloc, ranges, &mut marks, &op.comps()[0], stamp) {
        Ok(made) => Ok(made),
        Err((full, _)) => Err(Fail::from(full)),
    }
}

fn read(alloc: Global, version: u64, row: Row) -> Result<(Comp, Stamp), Fail>
    ensures { IfOk result (λ made. made.1.version ≡ version) }
{
    let (user, track, kind, at, text) = row;
    let part = Units::sanitized(alloc, text)?;
    let comp = match kind {
        Inserts => Comp::Ins(at, part),
        Deletes => Comp::Del(at, part),
        Comments => Comp::Com(at, part, 7),
    };
    let stamp = Stamp {
        version,
        user: name(alloc, user)?,
        ms: 5,
        track,
    };
    Ok((comp, stamp))
}

fn change(alloc: Global, (version, k, kind, at, text, user): Shown) -> Result<Change, Fail> {
    let text = Units::sanitized(alloc, text)?;
    let user = name(alloc, user)?;
    Ok(Change {
        version,
        k,
        at,
        kind,
        text,
        user,
        ms: 5,
    })
}

fn comment(alloc: Global, (at, text): Noted) -> Result<Comment, Fail> {
    let text = Units::sanitized(alloc, text)?;
    Ok(Comment {
        thread: 7,
        at,
        text,
    })
}

fn changes(alloc: Global, rows: &[Shown]) -> Result<Vec<Change>, Fail> {
    let mut made = Vec::new(alloc);
    for row in rows {
        made.push(change(alloc, *row)?)?;
    }
    Ok(made)
}

fn comments(alloc: Global, rows: &[Noted]) -> Result<Vec<Comment>, Fail> {
    let mut made = Vec::new(alloc);
    for row in rows {
        made.push(comment(alloc, *row)?)?;
    }
    Ok(made)
}

fn shown(alloc: Global, rows: &[Shown], notes: &[Noted]) -> Result<Ranges, Fail> {
    let changes = changes(alloc, rows)?;
    let comments = comments(alloc, notes)?;
    Ok(Ranges::of(changes, comments))
}

// The ranges after updates by versions from 0.
fn track_all(alloc: Global, text: &mut Units, rows: &[Row]) -> Result<Ranges, Fail> {
    let mut ranges = Ranges::none(alloc);
    let mut version = 0;
    for row in rows {
        let (comp, stamp) = read(alloc, version, *row)?;
        ranges = update(alloc, ranges, text, comp, &stamp)?;
        version += 1;
    }
    Ok(ranges)
}

fn track_case(
    rt: &impl Abort,
    alloc: Global,
    (start, rows, end, changes, notes): Case,
) -> Result<(), Fail> {
    let mut text = Units::sanitized(alloc, start)?;
    let ranges = track_all(alloc, &mut text, rows)?;
    let want = shown(alloc, changes, notes)?;
    assert_eq!(rt; text, Units::sanitized(alloc, end)?);
    assert_eq!(rt; ranges.changes(), want.changes());
    assert_eq!(rt; ranges.comments(), want.comments());
    let copy = ranges.copy(alloc)?;
    assert_eq!(rt; copy.changes(), want.changes());
    assert_eq!(rt; copy.comments(), want.comments());
    Ok(())
}

#[test]
fn tracks(rt: HostRuntime) -> Result<(), Fail> {
    for case in CASES {
        track_case(&rt, rt.alloc(), case)?;
    }
    Ok(())
}

fn pair(alloc: Global, first: Comp, second: Comp) -> Result<Op, Fail>
    requires first { is_void first ≡ false }
    requires second { is_void second ≡ false }
    ensures { IfOk result (λ made. made ≡ first ∷ second ∷ []) }
{
    let mut op = Op::empty(alloc);
    op.push(first).map_err(|(full, _)| full)?;
    op.push(second).map_err(|(full, _)| full)?;
    Ok(op)
}

// On the empty text, `ab` goes in, and `a` out.
fn track_pair(alloc: Global, stamp: &Stamp) -> Result<Ranges, Fail> {
    let both = Comp::Ins(0, Units::from_slice(alloc, &[0x61, 0x62])?);
    let out = Comp::Del(0, Units::from_slice(alloc, &[0x61])?);
    let op = pair(alloc, both, out)?;
    let none = Ranges::none(alloc);
    let made = track_op(alloc, &none, &op, stamp)?;
    Ok(made)
}

#[test]
fn tracks_an_operation(rt: HostRuntime) -> Result<(), Fail> {
    let alloc = rt.alloc();
    let stamp = Stamp {
        version: 3,
        user: name(alloc, "u")?,
        ms: 5,
        track: true,
    };
    let made = track_pair(alloc, &stamp)?;
    let want = shown(alloc, &[(3, 0, ChangeKind::Inserted, 0, "b", "u")], &[])?;
    assert_eq!(rt; made.changes(), want.changes());
    assert_eq!(rt; made.comments(), want.comments());
    Ok(())
}

// `a`, a line feed and `b`, of which `b` was put in and `a` has a comment.
fn keep_marked(alloc: Global, user: Name) -> Result<KeptDoc, Fail> {
    let mut changes = Vec::new(alloc);
    changes.push(Change {
        version: 2,
        k: 0,
        at: 2,
        kind: ChangeKind::Inserted,
        text: Units::from_slice(alloc, &[0x62])?,
        user,
        ms: 5,
    })?;
    let mut comments = Vec::new(alloc);
    comments.push(Comment {
        thread: 7,
        at: 0,
        text: Units::from_slice(alloc, &[0x61])?,
    })?;
    let ranges = Ranges::of(changes, comments);
    let text = Units::from_slice(alloc, &[0x61, 0x0A, 0x62])?;
    let doc = KeptDoc::make(alloc, text.as_slice(), 3, &ranges)?;
    Ok(doc)
}

// Whether these are the lines `a` and `b`.
fn are_marked(alloc: Global, lines: &[Units]) -> Result<bool, Fail> {
    let mut texts = String::new(alloc);
    for line in lines {
        texts.push_str(line.to_text(alloc)?.as_str())?;
        texts.push(';')?;
    }
    Ok(texts.as_str() == "a;b;")
}

// Whether a document is the one that `keep_marked` keeps, with these ranges.
fn is_marked(alloc: Global, kept: &KeptDoc, want: &Ranges) -> Result<bool, Fail> {
    let text = kept.text(alloc)?;
    let ranges = kept.ranges();
    Ok(
        are_marked(alloc, kept.lines().as_slice())?
            && kept.version() == 3
            && ranges.changes() == want.changes()
            && ranges.comments() == want.comments()
            && text.as_slice() == [0x61, 0x0A, 0x62].as_slice(),
    )
}

#[test]
fn keeps_lines(rt: HostRuntime) -> Result<(), Fail> {
    let alloc = rt.alloc();
    let doc = keep_marked(alloc, name(alloc, "u")?)?;
    let want = shown(
        alloc,
        &[(2, 0, ChangeKind::Inserted, 2, "b", "u")],
        &[(0, "a")],
    )?;
    assert!(rt; is_marked(alloc, &doc, &want)?);
    assert!(rt; is_marked(alloc, &doc.copy(alloc)?, &want)?, "the copy");
    Ok(())
}

#[test]
fn makes_lines_piece_by_piece(rt: HostRuntime) -> Result<(), Fail> {
    let alloc = rt.alloc();
    let mut lines = Lines::start(alloc)?;
    assert_eq!(rt; lines.as_slice().len(), 1);
    lines.extend(&[0x61])?;
    lines.next_line()?;
    let doc = KeptDoc::of_lines(alloc, lines, 1, &Ranges::none(alloc))?;
    let made = doc.lines().as_slice();
    assert_eq!(rt; made.len(), 2);
    assert_eq!(rt; made[0].as_slice(), [0x61].as_slice());
    assert!(rt; made[1].is_empty());
    assert_eq!(rt; doc.version(), 1);
    Ok(())
}
