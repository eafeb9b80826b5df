//! Worked journals are legal, and say what they should; with one fault planted they are not.

ghost use Rattle.journal_rules.specs.Legal.{IsLegal};

use crate::rows::{KEEPER, LEAVE, PLAINEST, RESEND, ROOM, SESSION, TAKEOVER, entry, journal, op};
use journal_entries::{Brief, Entry, Outcome};
use journal_rules::ClientState;
use ot_op::Op;
use ot_units::Name;
use plain_journal::*;
use std::alloc::Global;
use std::test::Fail;

/// What a document and its project come to: the text, the version, the version that was kept, the clock,
/// the last token, and how much history is left.
type End = (&'static str, u64, Option<u64>, u64, u64, u64);

const ENDS: [(&str, End); 7] = [
    (PLAINEST, ("aXbc", 1, Some(1), 30_000, 2, 1)),
    (ROOM, ("aXc", 2, Some(2), 30_000, 3, 2)),
    (RESEND, ("aXb", 1, Some(1), 30_000, 3, 1)),
    (LEAVE, ("aXb", 1, Some(1), 30_000, 2, 1)),
    (TAKEOVER, ("aXbc", 1, Some(1), 60_000, 3, 1)),
    (SESSION, (DRAFT, 4, Some(4), 30_000, 6, 2)),
    (KEEPER, ("zyxab", 3, Some(2), 0, 8, 3)),
];

/// The text of the usual session at its end.
const DRAFT: &str =
    "% draft\n\\documentclass{article}\n\\begin{document}\n\\section{Intro}\nWe record the tides daily.\n\\end{document}";

/// A row, how many of its entries are looked at, a client, and then its text, its version, the number
/// of its last update, whether that is in flight, and its mail in short.
const CLIENTS: [(&str, usize, u32, &str, u64, u64, bool, &[Brief]); 8] = [
    (ROOM, 18, 0, "aXc", 2, 1, false, &[]),
    (
        ROOM,
        11,
        0,
        "aXbc",
        0,
        1,
        true,
        &[Brief::Op(0), Brief::Ack(1)],
    ),
    (
        RESEND,
        11,
        0,
        "aXb",
        0,
        1,
        true,
        &[Brief::Ack(0), Brief::Ack(0)],
    ),
    (RESEND, 18, 0, "aXb", 1, 1, false, &[]),
    (LEAVE, 8, 0, "aXb", 0, 1, true, &[]),
    (LEAVE, 15, 0, "aXb", 1, 1, false, &[]),
    (SESSION, 44, 0, DRAFT, 4, 3, false, &[]),
    (SESSION, 44, 1, DRAFT, 4, 1, false, &[]),
];

/// A row, the place of an entry of it, and an entry in its place that the ones before don't allow.
const FAULTS: [(&str, usize, &str); 30] = [
    (PLAINEST, 0, "made 1 a p abc 0"),
    (PLAINEST, 1, "sent - 0 1 - u 0 1 0 1+X"),
    (PLAINEST, 4, "acquired 0 2 60000"),
    (PLAINEST, 4, "acquired 0 1 60001"),
    (PLAINEST, 5, "committed 0 1 1 applied 1 1+X"),
    (PLAINEST, 5, "committed 0 1 1 applied 0 1+Y"),
    (PLAINEST, 5, "committed 0 1 0 applied 0 1+X"),
    (PLAINEST, 5, "unloaded 0 1"),
    (PLAINEST, 6, "committed 0 1 1 dup 0"),
    (PLAINEST, 7, "committed 0 1 1 applied 0 1+X"),
    (PLAINEST, 8, "flushed 0 2 0"),
    (PLAINEST, 9, "closed 0"),
    (ROOM, 1, "joined 0 0 u 0 - 1000002 0"),
    (ROOM, 4, "sent 0 2 1000001 - u 0 0 0 1+X"),
    (ROOM, 6, "committed 0 1 4 applied 0 1+X"),
    (ROOM, 9, "committed 0 2 4 applied 1 2+X"),
    (ROOM, 11, "got 0 ack 1"),
    (ROOM, 12, "got 0 ack 0"),
    (RESEND, 4, "sent 0 1 1000001 - u 0 0 0 1+X"),
    (RESEND, 9, "committed 0 2 4 applied 1 2+X"),
    (RESEND, 13, "got 0 ack 0"),
    (LEAVE, 8, "joined 0 0 u 0 1 1000008 1"),
    (LEAVE, 8, "edited 0 0+Y"),
    (TAKEOVER, 5, "acquired 0 2 59999"),
    (TAKEOVER, 7, "committed 0 1 1 applied 0 1+X"),
    (TAKEOVER, 9, "declined 1 stale 3"),
    (
        SESSION,
        14,
        "committed 0 2 8 applied 1 73+~daily,60-measure,60+record",
    ),
    (SESSION, 29, "handed thesis 4"),
    (KEEPER, 25, "committed 0 7 22 applied 2 0+z"),
    (KEEPER, 29, "loaded 0 8 3"),
];

/// Reasons that the entries of the usual session allow, and some that they don't, each behind so many.
const WHYS: [(usize, &str, bool); 24] = [
    (3, "declined 2 not-joined", true),
    (3, "declined 0 not-joined", false),
    (3, "declined 0 not-left", true),
    (31, "declined 1 not-left", false),
    (5, "declined 0 in-flight", true),
    (4, "declined 0 in-flight", false),
    (4, "declined 0 past-end 93", true),
    (4, "declined 0 past-end 89", false),
    (4, "declined 0 full 1001 0", true),
    (4, "declined 0 full 1000 65536", false),
    (31, "declined 1 too-old 3", false),
    (5, "declined 0 waiting 1", true),
    (5, "declined 0 waiting 2", false),
    (3, "declined 0 empty", true),
    (10, "declined 1 empty", true),
    (12, "declined 0 empty", false),
    (11, "declined 0 busy 1 30000", true),
    (13, "declined 0 busy 1 30000", false),
    (11, "declined 0 uncached", false),
    (13, "declined 0 ended", true),
    (11, "declined 0 ended", false),
    (15, "declined 0 unflushed - 2", true),
    (28, "declined 0 unflushed 3 3", false),
    (28, "declined 0 store-fault", false),
];

fn name(alloc: Global, word: &str) -> Result<Name, Fail> {
    Ok(Name::read(alloc, word)?.ok_or("a name")?)
}

// A worked journal's first entries, and whether they are legal.
fn first_of(alloc: Global, row: &str, n: usize) -> Result<Vec<Entry>, Fail> {
    let mut entries = journal(alloc, row)?;
    entries.truncate(n);
    Ok(entries)
}

// The text of document 0, and the same at its version.
fn texts_of(alloc: Global, entries: &[Entry], v: u64) -> Result<(String, String), Fail> {
    let now = text(alloc, entries, 0)?.ok_or("a text")?;
    let then = text_at(alloc, entries, 0, v)?.ok_or("a text")?;
    Ok((now.to_text(alloc)?, then.to_text(alloc)?))
}

// Version, clock, the next token, and how much history is left, of a legal journal.
fn counts_of(alloc: Global, entries: &[Entry]) -> Result<(u64, u64, u64, u64), Fail>
    requires { IsLegal entries.now }
{
    let making = making_at(alloc, entries, 0)?.ok_or("a making")?;
    let left = history_len(alloc, entries, making.project)?;
    let v = version(alloc, entries, 0)?;
    Ok((v, clock(entries), next_token(entries), left))
}

#[test]
fn worked_journals_are_legal(rt: HostRuntime) -> Result<(), Fail> {
    let alloc = rt.alloc();
    for (row, (there, v, kept_at, now, token, left)) in ENDS {
        let entries = journal(alloc, row)?;
        let entries = entries.as_slice();
        if !is_legal(alloc, entries)? {
            return Err(Fail::new("a worked journal isn't legal"));
        }
        let counts = counts_of(alloc, entries)?;
        assert_eq!(rt; counts, (v, now, token + 1, left));
        let (text, again) = texts_of(alloc, entries, v)?;
        assert!(rt; text.as_str() == there && again.as_str() == there);
        assert_eq!(rt;
            (kept(entries, 0), last_token(entries, 0)),
            (kept_at, token)
        );
        assert!(rt; waiting(alloc, entries, 0)?.is_empty());
    }
    Ok(())
}

#[test]
fn a_planted_fault_is_not_legal(rt: HostRuntime) -> Result<(), Fail> {
    let alloc = rt.alloc();
    for (row, n, line) in FAULTS {
        let mut entries = first_of(alloc, row, n)?;
        assert!(rt; is_legal(alloc, entries.as_slice())?, "before {line}");
        entries.push(entry(alloc, line)?)?;
        assert!(rt; !is_legal(alloc, entries.as_slice())?, "{line}");
    }
    for (n, line, may) in WHYS {
        let mut entries = first_of(alloc, SESSION, n)?;
        entries.push(entry(alloc, line)?)?;
        assert_eq!(rt;
            is_legal(alloc, entries.as_slice())?,
            may,
            "{line} behind {n}"
        );
    }
    Ok(())
}

// A client's text, version, number, and whether it has a flight, and left.
fn client_at(
    alloc: Global,
    entries: &[Entry],
    client: u32,
) -> Result<(String, u64, u64, bool, bool), Fail>
    requires { IsLegal entries.now }
{
    let now = client_of(alloc, entries, client)?;
    let text = now.text.to_text(alloc)?;
    let left = now.state == ClientState::Left;
    Ok((text, now.version, now.number, now.flight.is_some(), left))
}

#[test]
fn clients_have_texts_and_mail(rt: HostRuntime) -> Result<(), Fail> {
    let alloc = rt.alloc();
    for (row, n, client, there, v, number, flies, mail) in CLIENTS {
        let entries = first_of(alloc, row, n)?;
        let entries = entries.as_slice();
        if !is_legal(alloc, entries)? {
            return Err(Fail::new("a worked journal isn't legal"));
        }
        let (text, version, last, flight, left) = client_at(alloc, entries, client)?;
        assert!(rt; text.as_str() == there);
        assert_eq!(rt; (version, last, flight), (v, number, flies));
        assert_eq!(rt; briefs(alloc, entries, client)?.as_slice(), mail);
        let whole = mail_of(alloc, entries, client)?;
        assert_eq!(rt;
            whole.first().map(|msg| brief_of(msg)),
            mail.first().copied()
        );
        assert_eq!(rt; outbox_of(alloc, entries, client)?.is_none(), left);
    }
    Ok(())
}

// What the second update of the room is decided to be, and whether that may be committed.
fn decision_of(alloc: Global, entries: &[Entry]) -> Result<(u64, Op, bool, bool), Fail>
    requires { IsLegal entries.now }
{
    let line = entry(alloc, "committed 0 2 4 applied 1 1+X")?;
    let may = is_allowed(alloc, entries, 0, &line.act)?;
    let expired = is_expired(entries, 0);
    match decided_on(alloc, entries, 0, 4)? {
        Some(Outcome::Applied { v, op }) => Ok((v, op, may, expired)),
        _ => Err(Fail::new("an update that isn't applied")),
    }
}

#[test]
fn a_lock_is_held_and_an_update_waits(rt: HostRuntime) -> Result<(), Fail> {
    let alloc = rt.alloc();
    let entries = first_of(alloc, ROOM, 9)?;
    let entries = entries.as_slice();
    if !is_legal(alloc, entries)? {
        return Err(Fail::new("a worked journal isn't legal"));
    }
    let (v, made, may, expired) = decision_of(alloc, entries)?;
    assert_eq!(rt; (v, may, expired), (1, true, false));
    assert!(rt; made.comps() == op(alloc, "1+X")?.comps());
    assert!(rt; is_held(entries, 0) && holds(entries, 0, 0, 2) && !holds(entries, 0, 0, 1));
    assert!(rt; is_released(entries, 1) && !is_released(entries, 2));
    assert!(rt; is_used(entries, 1) && !is_used(entries, 2) && !is_closed(entries, 0));
    let last = last_acquiring(entries, 0).ok_or("an acquiring")?;
    assert_eq!(rt;
        (last.seat, last.doc, last.token, last.until),
        (0, 0, 2, 30_000)
    );
    assert_eq!(rt; waiting(alloc, entries, 0)?.as_slice(), [4].as_slice());
    assert!(rt; is_committed(entries, 2) && !is_committed(entries, 4));
    Ok(())
}

#[test]
fn a_document_is_as_its_journal_says(rt: HostRuntime) -> Result<(), Fail> {
    let alloc = rt.alloc();
    let entries = first_of(alloc, ROOM, 9)?;
    let entries = entries.as_slice();
    let applied = applied_list(alloc, entries, 0)?;
    let item = applied.first().ok_or("an item")?;
    assert_eq!(rt;
        (applied.len(), item.v, item.ticket, item.update.source),
        (1, 0, 2, 1)
    );
    assert!(rt; item.op.comps() == op(alloc, "1-b")?.comps());
    assert_eq!(rt; update_at(entries, 4).map(|update| update.number), Some(1));
    assert!(rt; update_at(entries, 3).is_none());
    assert_eq!(rt;
        (made_count(entries), makings(alloc, entries)?.len()),
        (1, 1)
    );
    assert!(rt; is_made(entries, 0) && !is_made(entries, 1));
    assert!(rt; is_named(entries, &name(alloc, "a")?) && !is_named(entries, &name(alloc, "b")?));
    assert!(rt;
        is_project(entries, &name(alloc, "p")?) && !is_project(entries, &name(alloc, "a")?)
    );
    let base = base(alloc, entries, 0)?;
    let first = first(alloc, entries, 0)?;
    assert!(rt; base == 0 && first.to_text(alloc)?.as_str() == "abc");
    assert!(rt; is_cached(entries, 0) && matches!(last_loading(entries, 0), Loading::NeverTried));
    Ok(())
}

#[test]
fn a_keeper_fails(rt: HostRuntime) -> Result<(), Fail> {
    let alloc = rt.alloc();
    let entries = first_of(alloc, KEEPER, 25)?;
    let entries = entries.as_slice();
    assert!(rt; !is_cached(entries, 0));
    assert!(rt; matches!(last_loading(entries, 0), Loading::FailedUnder(Some(7))));
    assert!(rt; are_faults_within(entries, 1) && !are_faults_within(entries, 0));
    Ok(())
}
