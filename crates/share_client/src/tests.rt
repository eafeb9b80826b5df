//! Clients that edit, send and are told, at values that were worked out by hand.

ghost use Rattle.std.specs.Prelude.{IsTrue};
ghost use Rattle.journal_sizes.specs.Sizes.{IsSized, IsSizedMsg};
ghost use Rattle.share_client.specs.Edits.{IsEdit};

use crate::edit::units;
use crate::message::do_places_fit;
use crate::{Edit, EditFault, Outgoing, SendFault, ShareClient};
use ClientState::{Joined, Left, Stale};
use Kind::{Delete, Insert};
use Step::{Ack, Comment, Cut, Error, Leave, Other, Put, Send};
use journal_entries::{Cause, Msg};
use journal_rules::ClientState;
use ot_op::{Comp, Op};
use ot_text::{doc_text, doc_units};
use ot_units::{Name, Units};
use std::alloc::Global;
use std::process::Abort;
use std::test::Fail;

#[derive(Clone, Copy)]
enum Kind {
    Insert,
    Delete,
}

/// A component: its kind, its place and its text.
type Row = (Kind, u32, &'static str);

/// What is done with a client.
#[derive(Clone, Copy)]
enum Step {
    /// Text is put in at a place.
    Put(u32, &'static str),
    /// So many units are taken out from a place on.
    Cut(u32, u32),
    /// A thread is set to so many units from a place on.
    Comment(u32, u32),
    Send,
    Leave,
    /// It is told of an operation at a version under a source.
    Other(u64, &'static [Row], u64),
    /// It is told that its operation stands at a version.
    Ack(u64),
    /// It is told that its operation of a number is refused.
    Error(u64),
}

/// What becomes of a client that joined the text `abc` at version 5 under the source 1,000,004.
#[derive(Clone, Copy)]
struct Case {
    what: &'static str,
    steps: &'static [Step],
    state: ClientState,
    version: u64,
    text: &'static str,
    flight: Option<&'static [Row]>,
    pending: &'static [Row],
    number: u64,
}

const OWN: u64 = 1_000_004;

const PLAIN: Case = Case {
    what: "nothing",
    steps: &[],
    state: Joined,
    version: 5,
    text: "abc",
    flight: None,
    pending: &[],
    number: 0,
};

static CASES: [Case; 24] = [
    PLAIN,
    Case {
        what: "edits are pending as one operation",
        steps: &[Put(1, "X"), Put(2, "Y"), Cut(4, 1)],
        text: "aXYb",
        pending: &[(Insert, 1, "XY"), (Delete, 4, "c")],
        ..PLAIN
    },
    Case {
        what: "pending is in flight once it is sent",
        steps: &[Put(1, "X"), Send, Put(0, "Y")],
        text: "YaXbc",
        flight: Some(&[(Insert, 1, "X")]),
        pending: &[(Insert, 0, "Y")],
        number: 1,
        ..PLAIN
    },
    Case {
        what: "its own operation under its source ends the flight",
        steps: &[Put(1, "X"), Send, Other(5, &[(Insert, 1, "X")], OWN)],
        version: 6,
        text: "aXbc",
        number: 1,
        ..PLAIN
    },
    Case {
        what: "an Ack at its version ends the flight",
        steps: &[Put(1, "X"), Send, Put(4, "Y"), Ack(5)],
        version: 6,
        text: "aXbcY",
        pending: &[(Insert, 4, "Y")],
        number: 1,
        ..PLAIN
    },
    Case {
        what: "an Ack of a lower version",
        steps: &[Put(1, "X"), Send, Ack(4)],
        text: "aXbc",
        flight: Some(&[(Insert, 1, "X")]),
        number: 1,
        ..PLAIN
    },
    Case {
        what: "an Ack without a flight",
        steps: &[Put(1, "X"), Ack(5)],
        text: "aXbc",
        pending: &[(Insert, 1, "X")],
        ..PLAIN
    },
    Case {
        what: "a second number",
        steps: &[Put(1, "X"), Send, Ack(5), Put(0, "Y"), Send],
        version: 6,
        text: "YaXbc",
        flight: Some(&[(Insert, 0, "Y")]),
        number: 2,
        ..PLAIN
    },
    Case {
        what: "an operation of a lower version",
        steps: &[Other(4, &[(Insert, 0, "Z")], 9)],
        ..PLAIN
    },
    Case {
        what: "an operation of a higher version",
        steps: &[Other(6, &[(Insert, 0, "Z")], 9)],
        ..PLAIN
    },
    Case {
        what: "the refusal of its flight",
        steps: &[Put(1, "X"), Send, Error(1)],
        state: Stale,
        text: "aXbc",
        flight: Some(&[(Insert, 1, "X")]),
        number: 1,
        ..PLAIN
    },
    Case {
        what: "the refusal of another number",
        steps: &[Put(1, "X"), Send, Error(2), Error(0)],
        text: "aXbc",
        flight: Some(&[(Insert, 1, "X")]),
        number: 1,
        ..PLAIN
    },
    Case {
        what: "the refusal of its number without a flight",
        steps: &[Put(1, "X"), Send, Ack(5), Error(1)],
        version: 6,
        text: "aXbc",
        number: 1,
        ..PLAIN
    },
    Case {
        what: "an operation of another",
        steps: &[Other(5, &[(Insert, 0, "Z"), (Delete, 3, "c")], 9)],
        version: 6,
        text: "Zab",
        ..PLAIN
    },
    Case {
        what: "a flight that another moves on",
        steps: &[Put(1, "X"), Send, Other(5, &[(Insert, 0, "Z")], 9)],
        version: 6,
        text: "ZaXbc",
        flight: Some(&[(Insert, 2, "X")]),
        number: 1,
        ..PLAIN
    },
    Case {
        what: "the flight, pending and another at one place",
        steps: &[
            Put(3, "F"),
            Send,
            Put(4, "P"),
            Other(5, &[(Insert, 3, "Z")], 9),
        ],
        version: 6,
        text: "abcFPZ",
        flight: Some(&[(Insert, 3, "F")]),
        pending: &[(Insert, 4, "P")],
        number: 1,
        ..PLAIN
    },
    Case {
        what: "what both have deleted",
        steps: &[Cut(1, 1), Send, Other(5, &[(Delete, 1, "b")], 9)],
        version: 6,
        text: "ac",
        flight: Some(&[]),
        number: 1,
        ..PLAIN
    },
    Case {
        what: "a pending delete that another splits",
        steps: &[Cut(0, 3), Other(5, &[(Insert, 1, "Z")], 9)],
        version: 6,
        text: "Z",
        pending: &[(Delete, 0, "a"), (Delete, 1, "bc")],
        ..PLAIN
    },
    Case {
        what: "an operation that doesn't apply",
        steps: &[Other(5, &[(Delete, 0, "x")], 9)],
        state: Stale,
        ..PLAIN
    },
    Case {
        what: "an operation that can't be moved past the flight",
        steps: &[Cut(0, 1), Send, Other(5, &[(Delete, 0, "x")], 9)],
        state: Stale,
        text: "bc",
        flight: Some(&[(Delete, 0, "a")]),
        number: 1,
        ..PLAIN
    },
    Case {
        what: "messages to a stale client",
        steps: &[
            Put(1, "X"),
            Send,
            Error(1),
            Ack(5),
            Other(5, &[(Insert, 0, "Z")], 9),
        ],
        state: Stale,
        text: "aXbc",
        flight: Some(&[(Insert, 1, "X")]),
        number: 1,
        ..PLAIN
    },
    Case {
        what: "a client that left",
        steps: &[Put(1, "X"), Leave, Leave],
        state: Left,
        text: "aXbc",
        pending: &[(Insert, 1, "X")],
        ..PLAIN
    },
    Case {
        what: "a message to a client that left",
        steps: &[Leave, Other(5, &[(Insert, 0, "Z")], 9)],
        state: Left,
        version: 6,
        text: "Zabc",
        ..PLAIN
    },
    Case {
        what: "a stale client that leaves",
        steps: &[Put(1, "X"), Send, Error(1), Leave],
        state: Stale,
        text: "aXbc",
        flight: Some(&[(Insert, 1, "X")]),
        number: 1,
        ..PLAIN
    },
];

fn spelled(alloc: Global, text: &str) -> Result<Units, Fail> {
    Ok(Units::sanitized(alloc, text)?)
}

fn op(alloc: Global, rows: &[Row]) -> Result<Op, Fail> {
    let mut op = Op::empty(alloc);
    for (kind, at, text) in rows {
        let part = spelled(alloc, *text)?;
        let comp = match kind {
            Insert => Comp::Ins(*at, part),
            Delete => Comp::Del(*at, part),
        };
        if !comp.is_void() {
            op.push(comp).map_err(|(full, _)| full)?;
        }
    }
    Ok(op)
}

fn joined(alloc: Global) -> Result<ShareClient, Fail> {
    let mut client = ShareClient::new(alloc, 1);
    let user = Name::read(alloc, "u")?.ok_or("a name")?;
    let text = doc_text(alloc, &spelled(alloc, "abc")?)?;
    if text.len() > 3 {
        return Err(Fail::new("a text of three units"));
    }
    client.joined(3, user, true, 5, text, OWN);
    Ok(client)
}

fn is_edit(edit: &Edit) -> bool
    ensures { IsTrue result → IsEdit edit.now }
{
    match edit {
        Edit::Insert { at: _, text } => !text.is_empty(),
        Edit::Delete { at: _, len } => 0 < *len,
        Edit::Comment { .. } => true,
    }
}

fn edit(client: &mut ShareClient, edit: &Edit) -> Result<Result<Comp, EditFault>, Fail> {
    if !is_edit(edit) {
        return Err(Fail::new("an edit of something"));
    }
    Ok(client.edit(edit))
}

fn is_sized(op: &Op) -> bool
    ensures { IsTrue result → IsSized op.now }
{
    if op.comps().len() > 1_000 {
        return false;
    }
    let count = units(op.comps());
    if count > 1_000 {
        return false;
    }
    do_places_fit(op)
}

fn is_sized_msg(msg: &Msg) -> bool
    ensures { IsTrue result → IsSizedMsg msg.now }
{
    match msg {
        Msg::Op { v, op, source: _ } => *v < 1_000 && is_sized(op),
        Msg::Ack { v, number: _ } => *v < 1_000,
        Msg::Error { .. } => true,
    }
}

fn deliver(client: &mut ShareClient, msg: &Msg) -> Result<(), Fail> {
    if !is_sized_msg(msg) {
        return Err(Fail::new("a small message"));
    }
    client.on_message(msg)?;
    Ok(())
}

fn take(alloc: Global, client: &mut ShareClient, step: &Step) -> Result<(), Fail> {
    match step {
        Put(at, text) => {
            let text = spelled(alloc, *text)?;
            let _made = edit(client, &Edit::Insert { at: *at, text })?;
        }
        Cut(at, len) => {
            let _made = edit(client, &Edit::Delete { at: *at, len: *len })?;
        }
        Comment(at, len) => {
            let (at, len) = (*at, *len);
            let _made = edit(client, &Edit::Comment { at, len, thread: 7 })?;
        }
        Send => {
            let _sent = client.take_send();
        }
        Leave => client.left(),
        Other(v, rows, source) => {
            let op = op(alloc, *rows)?;
            let (v, source) = (*v, *source);
            deliver(client, &Msg::Op { v, op, source })?;
        }
        Ack(v) => deliver(client, &Msg::Ack { v: *v, number: 1 })?,
        Error(number) => {
            let cause = Cause::Mismatch;
            let number = *number;
            deliver(client, &Msg::Error { number, cause })?;
        }
    }
    Ok(())
}

fn taken(alloc: Global, steps: &[Step]) -> Result<ShareClient, Fail> {
    let mut client = joined(alloc)?;
    for step in steps {
        take(alloc, &mut client, step)?;
    }
    Ok(client)
}

fn stands(client: &ShareClient, case: &Case) -> bool {
    let (state, version) = (client.state(), client.version());
    state == case.state && version == case.version && client.last_number() == case.number
}

fn shows(alloc: Global, client: &ShareClient, case: &Case) -> Result<bool, Fail> {
    let text = doc_units(alloc, client.text())?;
    let want = spelled(alloc, case.text)?;
    let pending = op(alloc, case.pending)?;
    Ok(text.same(&want) && client.pending().comps() == pending.comps())
}

fn flies(alloc: Global, client: &ShareClient, want: Option<&[Row]>) -> Result<bool, Fail> {
    match (client.flight(), want) {
        (Some(flight), Some(rows)) => Ok(flight.comps() == op(alloc, rows)?.comps()),
        (None, None) => Ok(true),
        _ => Ok(false),
    }
}

fn check(rt: &impl Abort, alloc: Global, case: &Case) -> Result<(), Fail> {
    let what = case.what;
    let client = taken(alloc, case.steps)?;
    assert!(rt; stands(&client, case), "{what}");
    assert!(rt; shows(alloc, &client, case)?, "{what}");
    assert!(rt; flies(alloc, &client, case.flight)?, "{what}");
    Ok(())
}

#[test]
fn messages_and_edits_make_of_a_client_what_they_should(rt: HostRuntime) -> Result<(), Fail> {
    for case in &CASES {
        check(&rt, rt.alloc(), case)?;
    }
    Ok(())
}

/// Steps, an edit behind them, and why it is refused where it is.
type Refusal = (&'static [Step], Step, Option<EditFault>);

static REFUSALS: [Refusal; 9] = [
    (&[], Put(3, "x"), None),
    (&[], Put(4, "x"), Some(EditFault::PastEnd { len: 3 })),
    (&[], Cut(2, 1), None),
    (&[], Cut(2, 2), Some(EditFault::PastEnd { len: 3 })),
    (&[], Comment(3, 0), None),
    (&[], Comment(3, 1), Some(EditFault::PastEnd { len: 3 })),
    (
        &[Cut(0, 3)],
        Put(1, "x"),
        Some(EditFault::PastEnd { len: 0 }),
    ),
    (&[Leave], Put(4, "x"), Some(EditFault::NotJoined)),
    (
        &[Put(0, "x"), Send, Error(1)],
        Put(0, "x"),
        Some(EditFault::NotJoined),
    ),
];

fn edit_of(alloc: Global, step: &Step) -> Result<Edit, Fail> {
    match step {
        Put(at, text) => Ok(Edit::Insert {
            at: *at,
            text: spelled(alloc, *text)?,
        }),
        Cut(at, len) => Ok(Edit::Delete { at: *at, len: *len }),
        Comment(at, len) => Ok(Edit::Comment {
            at: *at,
            len: *len,
            thread: 7,
        }),
        _ => Err(Fail::new("an edit")),
    }
}

#[test]
fn an_edit_is_refused_for_the_first_cause(rt: HostRuntime) -> Result<(), Fail> {
    let alloc = rt.alloc();
    for (steps, last, want) in &REFUSALS {
        let mut client = taken(alloc, *steps)?;
        let made = edit(&mut client, &edit_of(alloc, last)?)?;
        assert_eq!(rt; made.err(), *want);
    }
    Ok(())
}

/// So many threads are set to nothing, and where one is refused, why.
fn comment(client: &mut ShareClient, threads: u32) -> Result<Option<EditFault>, Fail> {
    for thread in 0..threads {
        let (at, len) = (0, 0);
        let made = edit(client, &Edit::Comment { at, len, thread })?;
        if let Err(fault) = made {
            return Ok(Some(fault));
        }
    }
    Ok(None)
}

#[test]
fn too_many_units_are_refused(rt: HostRuntime) -> Result<(), Fail> {
    let alloc = rt.alloc();
    let mut client = joined(alloc)?;
    let text = Units::sanitized(alloc, "x".repeat(alloc, 65_536)?.as_str())?;
    let most = edit(&mut client, &Edit::Insert { at: 0, text })?;
    assert!(rt; most.is_ok());
    let more = edit(&mut client, &Edit::Delete { at: 65_536, len: 1 })?;
    let (comps, units) = (2, 65_537);
    assert!(rt; more.err() == Some(EditFault::Full { comps, units }));
    assert!(rt; client.text().len() == 65_539);
    Ok(())
}

#[test]
fn too_many_components_are_refused(rt: HostRuntime) -> Result<(), Fail> {
    let mut client = joined(rt.alloc())?;
    assert!(rt; comment(&mut client, 1_000)? == None);
    let (comps, units) = (1_001, 0);
    assert!(rt; comment(&mut client, 1)? == Some(EditFault::Full { comps, units }));
    Ok(())
}

/// Whether the insert of `X` at 1 was sent under number 1 for version 5, with these sources before.
fn is_sent(alloc: Global, sent: &Outgoing, dup: &[u64]) -> Result<bool, Fail> {
    let want = op(alloc, &[(Insert, 1, "X")])?;
    let is_first = sent.number == 1 && sent.v == 5;
    Ok(is_first && sent.op.comps() == want.comps() && sent.dup.as_slice() == dup)
}

#[test]
fn what_is_in_flight_is_sent_again(rt: HostRuntime) -> Result<(), Fail> {
    let alloc = rt.alloc();
    let mut client = taken(alloc, &[Put(1, "X")])?;
    match client.take_send() {
        Ok(sent) => assert!(rt; is_sent(alloc, &sent, &[])?),
        Err(fault) => panic!(rt; "{fault:?}"),
    }
    match client.send_again() {
        Ok(sent) => assert!(rt; is_sent(alloc, &sent, &[OWN])?),
        Err(fault) => panic!(rt; "{fault:?}"),
    }
    Ok(())
}

/// Steps, and why nothing is sent behind them, of what is pending and then of what is in flight.
type Unsent = (&'static [Step], Option<SendFault>, Option<SendFault>);

static UNSENT: [Unsent; 5] = [
    (&[], Some(SendFault::Nothing), Some(SendFault::Nothing)),
    (&[Put(1, "X")], None, None),
    (&[Put(1, "X"), Send], Some(SendFault::InFlight), None),
    // Its flight became empty.
    (
        &[Cut(1, 1), Send, Other(5, &[(Delete, 1, "b")], 9)],
        Some(SendFault::InFlight),
        Some(SendFault::Nothing),
    ),
    (
        &[Put(1, "X"), Send, Leave],
        Some(SendFault::NotJoined),
        Some(SendFault::NotJoined),
    ),
];

#[test]
fn nothing_is_sent_for_the_first_cause(rt: HostRuntime) -> Result<(), Fail> {
    for (steps, pending, flight) in &UNSENT {
        let mut client = taken(rt.alloc(), *steps)?;
        assert!(rt; client.take_send().err() == *pending);
        assert!(rt; client.send_again().err() == *flight);
    }
    Ok(())
}
