//! What clients are told at the places of a worked journal.

use crate::message_at;
use journal_entries::{Act, Cause, Entry, Msg, Outcome, Sources, Update};
use ot_op::{Comp, Op};
use ot_units::{Name, Units};
use std::alloc::Global;
use std::test::Fail;

/// Two clients joined by entries 1 and 2. A raw update of source 7 and the first client's first were
/// applied; that was sent again, and was a duplicate; the second client's first was refused. The last
/// commit names an entry that sent nothing. Sources, places, and what is told there.
const TOLD: [(u64, u64, &str); 15] = [
    (1_000_001, 5, "op 0 from 7"),
    (1_000_002, 5, "op 0 from 7"),
    (7, 5, "ack 0 of 0"),
    (1_000_001, 6, "ack 1 of 1"),
    (1_000_002, 6, "op 1 from 1000001"),
    (1_000_001, 8, "ack 1 of 1"),
    (1_000_002, 8, "nothing"),
    (1_000_002, 10, "error 3 Mismatch"),
    (1_000_001, 10, "nothing"),
    (1_000_001, 11, "nothing"),
    (1_000_001, 0, "nothing"),
    (1_000_001, 1, "nothing"),
    (1_000_001, 4, "nothing"),
    (1_000_001, 12, "nothing"),
    (1_000_001, 18_446_744_073_709_551_615, "nothing"),
];

// The operation that puts `X` in at place 1.
fn insert(alloc: Global) -> Result<Op, Fail> {
    let comp = Comp::Ins(1, Units::sanitized(alloc, "X")?);
    let mut op = Op::empty(alloc);
    if !comp.is_void() {
        op.push(comp).map_err(|failed| failed.0)?;
    }
    Ok(op)
}

fn name(alloc: Global, text: &str) -> Result<Name, Fail> {
    Ok(Name::read(alloc, text)?.ok_or("a name")?)
}

fn joined(alloc: Global, client: u32) -> Result<Act, Fail> {
    Ok(Act::Joined {
        client,
        doc: 0,
        user: name(alloc, "u")?,
        track: false,
        since: None,
        source: 1_000_001 + client as u64,
        v: 0,
    })
}

fn sent(alloc: Global, client: Option<u32>, number: u64, source: u64) -> Result<Act, Fail> {
    let update = Update {
        doc: 0,
        client,
        number,
        source,
        dup: Sources::new(alloc),
        user: name(alloc, "u")?,
        track: false,
        ms: 0,
        v: 0,
        op: insert(alloc)?,
    };
    Ok(Act::Sent { update })
}

fn committed(ticket: u64, outcome: Outcome) -> Act {
    Act::Committed {
        doc: 0,
        token: ticket,
        ticket,
        outcome,
    }
}

fn applied(alloc: Global, ticket: u64, v: u64) -> Result<Act, Fail> {
    let op = insert(alloc)?;
    Ok(committed(ticket, Outcome::Applied { v, op }))
}

fn worked(alloc: Global) -> Result<Vec<Entry>, Fail> {
    let made = Act::Made {
        doc: 0,
        name: name(alloc, "a")?,
        project: name(alloc, "p")?,
        first: Units::sanitized(alloc, "abc")?,
        base: 0,
    };
    let acts = [
        made,
        joined(alloc, 0)?,
        joined(alloc, 1)?,
        sent(alloc, None, 0, 7)?,
        sent(alloc, Some(0), 1, 1_000_001)?,
        applied(alloc, 3, 0)?,
        applied(alloc, 4, 1)?,
        sent(alloc, Some(0), 1, 1_000_001)?,
        committed(7, Outcome::Dup { v: 1 }),
        sent(alloc, Some(1), 3, 1_000_002)?,
        committed(9, Outcome::Refused(Cause::Mismatch)),
        committed(2, Outcome::Dup { v: 0 }),
    ];
    let mut journal = Vec::new(alloc);
    for act in acts {
        journal.push(Entry {
            seat: 0,
            line: None,
            act,
        })?;
    }
    Ok(journal)
}

fn said(alloc: Global, msg: Option<Msg>) -> Result<String, Fail> {
    Ok(match msg {
        Some(Msg::Op { v, op, source }) if op.comps().len() == 1 => {
            format!(in alloc; "op {v} from {source}")?
        }
        Some(Msg::Op { .. }) => format!(in alloc; "another operation")?,
        Some(Msg::Ack { v, number }) => format!(in alloc; "ack {v} of {number}")?,
        Some(Msg::Error { number, cause }) => format!(in alloc; "error {number} {cause:?}")?,
        None => format!(in alloc; "nothing")?,
    })
}

#[test]
fn each_is_told_by_its_source(rt: HostRuntime) -> Result<(), Fail> {
    let alloc = rt.alloc();
    let journal = worked(alloc)?;
    for (source, place, want) in TOLD {
        let found = message_at(alloc, &journal, source, place)?;
        assert_eq!(rt;
            said(alloc, found)?.as_str(),
            want,
            "at {place} under {source}"
        );
    }
    Ok(())
}
