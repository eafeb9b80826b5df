//! Sources, entries of each kind, and the journal.

use crate::{Act, Brief, Cause, Entry, Journal, Outcome, Sources, Update, Why};
use ot_op::{Comp, FormFault, Op};
use ot_units::{Name, Units};
use std::alloc::Global;
use std::test::Fail;

#[test]
fn sources_are_kept_and_copied(rt: HostRuntime) -> Result<(), Fail> {
    let mut sources = Sources::new(rt.alloc());
    assert_eq!(rt; sources.as_slice(), [].as_slice());
    sources.push(1_000_002)?;
    sources.push(7)?;
    sources.push(7)?;
    let copied = sources.copy()?;
    sources.push(18_446_744_073_709_551_615)?;
    assert_eq!(rt;
        sources.as_slice(),
        [1_000_002, 7, 7, 18_446_744_073_709_551_615].as_slice()
    );
    assert_eq!(rt; copied.as_slice(), [1_000_002, 7, 7].as_slice());
    Ok(())
}

fn name(alloc: Global, text: &str) -> Result<Name, Fail> {
    Ok(Name::read(alloc, text)?.ok_or("a name")?)
}

// The operation that puts `X` in at a place.
fn insert(alloc: Global, at: u32) -> Result<Op, Fail> {
    let comp = Comp::Ins(at, Units::sanitized(alloc, "X")?);
    let mut op = Op::empty(alloc);
    if !comp.is_void() {
        op.push(comp).map_err(|failed| failed.0)?;
    }
    Ok(op)
}

fn sent(alloc: Global) -> Result<Act, Fail> {
    let mut dup = Sources::new(alloc);
    dup.push(5)?;
    let update = Update {
        doc: 0,
        client: Some(1),
        number: 2,
        source: 3,
        dup,
        user: name(alloc, "u")?,
        track: true,
        ms: 4,
        v: 5,
        op: insert(alloc, 6)?,
    };
    Ok(Act::Sent { update })
}

fn made(alloc: Global) -> Result<Act, Fail> {
    Ok(Act::Made {
        doc: 0,
        name: name(alloc, "a")?,
        project: name(alloc, "p")?,
        first: Units::sanitized(alloc, "abc")?,
        base: 7,
    })
}

fn joined(alloc: Global) -> Result<Act, Fail> {
    Ok(Act::Joined {
        client: 1,
        doc: 0,
        user: name(alloc, "u")?,
        track: false,
        since: Some(9),
        source: 10,
        v: 11,
    })
}

fn committed(outcome: Outcome) -> Act {
    Act::Committed {
        doc: 0,
        token: 1,
        ticket: 2,
        outcome,
    }
}

// An act of each kind that takes no memory, and what becomes of an update.
fn plain_acts() -> [Act; 16] {
    [
        Act::Ticked { ms: 8 },
        Act::Malformed {
            doc: 0,
            fault: FormFault::Form(3),
        },
        Act::Got {
            client: 1,
            brief: Brief::Ack(2),
        },
        Act::Left { client: 1 },
        Act::Acquired {
            doc: 0,
            token: 1,
            until: 30_000,
        },
        Act::Loaded {
            doc: 0,
            token: None,
            v: 2,
        },
        Act::LoadFailed {
            doc: 0,
            token: Some(1),
            before: 2,
            after: 3,
        },
        Act::LoadDiffers {
            doc: 0,
            token: Some(1),
            had: 2,
            got: None,
        },
        committed(Outcome::Dup { v: 4 }),
        committed(Outcome::Refused(Cause::Mismatch)),
        Act::Released { doc: 0, token: 1 },
        Act::Flushed {
            doc: 0,
            token: 1,
            v: 2,
        },
        Act::FlushFailed {
            doc: 0,
            token: 1,
            before: 2,
            after: 3,
        },
        Act::Unloaded { doc: 0, token: 1 },
        Act::Declined {
            session: 1,
            why: Why::Full { comps: 2, units: 3 },
        },
        Act::Closed { driver: 4 },
    ]
}

fn put(journal: &mut Journal, act: Act) -> Result<(), Fail> {
    journal.reserve(1)?;
    journal.push(Entry {
        seat: 1,
        line: Some(2),
        act,
    });
    Ok(())
}

// A journal with an act of each kind.
fn filled(alloc: Global) -> Result<Journal, Fail> {
    let mut journal = Journal::new(alloc);
    put(&mut journal, made(alloc)?)?;
    put(&mut journal, joined(alloc)?)?;
    let text = Units::sanitized(alloc, "b")?;
    put(
        &mut journal,
        Act::Edited {
            client: 1,
            comp: Comp::Com(1, text, 7),
        },
    )?;
    put(&mut journal, sent(alloc)?)?;
    let op = insert(alloc, 2)?;
    put(&mut journal, committed(Outcome::Applied { v: 1, op }))?;
    let project = name(alloc, "p")?;
    put(&mut journal, Act::Handed { project, count: 3 })?;
    for act in plain_acts() {
        put(&mut journal, act)?;
    }
    Ok(journal)
}

#[test]
fn entries_are_kept_and_copied(rt: HostRuntime) -> Result<(), Fail> {
    let alloc = rt.alloc();
    let mut journal = filled(alloc)?;
    assert_eq!(rt; journal.len(), 22);
    for entry in journal.as_slice() {
        let copied = entry.copy(alloc)?;
        assert_eq!(rt;
            format!(in alloc; "{copied:?}")?,
            format!(in alloc; "{entry:?}")?
        );
    }
    assert!(rt;
        matches!(
            journal.get(21),
            Some(Entry {
                act: Act::Closed { driver: 4 },
                ..
            })
        )
    );
    assert!(rt; journal.get(22).is_none());
    assert!(rt; journal.reserve(2_305_843_009_213_693_952).is_err());
    Ok(())
}
