//! Worked journals, and how they are read.

use expiring_lock::{Busy, Stale};
use journal_entries::{Act, Brief, Cause, Entry, Outcome, Sources, Update, Why};
use ot_op::{Comp, Op};
use ot_units::{Name, Units};
use std::alloc::Global;
use std::test::Fail;

/// The plainest run: one raw insert.
pub(crate) const PLAINEST: &str = "made 0 a p abc 0
sent - 0 1 - u 0 0 0 1+X
closed 0
ticked 30000
acquired 0 1 60000
committed 0 1 1 applied 0 1+X
released 0 1
acquired 0 2 60000
flushed 0 2 1
released 0 2";

/// A room: another's delete, and the client's own insert.
pub(crate) const ROOM: &str = "made 0 a p abc 0
joined 0 0 u 0 - 1000001 0
sent - 0 1 - u 0 0 0 1-b
edited 0 1+X
sent 0 1 1000001 - u 0 0 0 1+X
acquired 0 1 30000
committed 0 1 2 applied 0 1-b
released 0 1
acquired 0 2 30000
committed 0 2 4 applied 1 1+X
released 0 2
got 0 op 0
got 0 ack 1
closed 0
ticked 30000
acquired 0 3 60000
flushed 0 3 2
released 0 3";

/// An update that is sent again is found as a duplicate, and acknowledged again.
pub(crate) const RESEND: &str = "made 0 a p ab 0
joined 0 0 u 0 - 1000001 0
edited 0 1+X
sent 0 1 1000001 - u 0 0 0 1+X
sent 0 1 1000001 1000001 u 0 0 0 1+X
acquired 0 1 30000
committed 0 1 3 applied 0 1+X
released 0 1
acquired 0 2 30000
committed 0 2 4 dup 0
released 0 2
got 0 ack 0
got 0 ack 0
closed 0
ticked 30000
acquired 0 3 60000
flushed 0 3 1
released 0 3";

/// A client leaves and comes back behind the commit of its operation in flight.
pub(crate) const LEAVE: &str = "made 0 a p ab 0
joined 0 0 u 0 - 1000001 0
edited 0 1+X
sent 0 1 1000001 - u 0 0 0 1+X
left 0
acquired 0 1 30000
committed 0 1 3 applied 0 1+X
released 0 1
joined 0 0 u 0 0 1000008 1
declined 0 nothing
closed 0
ticked 30000
acquired 0 2 60000
flushed 0 2 1
released 0 2";

/// A lock expires and is taken over.
pub(crate) const TAKEOVER: &str = "made 0 a p abc 0
sent - 0 1 - u 0 0 0 1+X
acquired 0 1 30000
ticked 29999
declined 3 busy 1 30000
ticked 1
acquired 0 2 60000
committed 0 2 1 applied 0 1+X
released 0 2
declined 1 stale 2
closed 0
ticked 30000
acquired 0 3 90000
flushed 0 3 1
released 0 3";

/// A usual session of two users.
pub(crate) const SESSION: &str =
    "made 0 main thesis \\documentclass{article}/\\begin{document}/\\section{Intro}/We~measure~tides./\\end{document} 0
joined 0 0 ana 0 - 1000001 0
joined 1 0 ben 1 - 1000002 0
edited 0 68+the~
sent 0 1 1000001 - ana 0 0 0 68+the~
edited 1 73+~daily
edited 1 60-measure
edited 1 60+record
sent 1 1 1000002 - ben 1 0 0 73+~daily,60-measure,60+record
edited 0 50=Intro:1
acquired 0 1 30000
committed 0 1 4 applied 0 68+the~
released 0 1
acquired 0 2 30000
committed 0 2 8 applied 1 77+~daily,60-measure,60+record
released 0 2
got 0 ack 0
got 0 op 1
sent 0 2 1000001 - ana 0 0 2 50=Intro:1
acquired 0 3 30000
committed 0 3 18 applied 2 50=Intro:1
released 0 3
got 1 op 0
got 1 ack 1
got 1 op 2
got 0 ack 2
acquired 0 4 30000
flushed 0 4 3
released 0 4
handed thesis 2
left 1
edited 0 0+%~draft/
sent 0 3 1000001 - ana 0 0 3 0+%~draft/
joined 1 0 ben 1 3 1000033 3
acquired 0 5 30000
committed 0 5 32 applied 3 0+%~draft/
released 0 5
got 1 op 3
closed 0
ticked 30000
got 0 ack 3
acquired 0 6 60000
flushed 0 6 4
released 0 6";

/// A keeper whose second loading fails.
pub(crate) const KEEPER: &str = "made 0 a p ab 0
sent - 0 1 - u 0 0 0 0+x
acquired 0 1 30000
committed 0 1 1 applied 0 0+x
released 0 1
acquired 0 2 30000
flushed 0 2 1
released 0 2
acquired 0 3 30000
unloaded 0 3
released 0 3
sent - 0 2 - u 0 0 1 0+y
acquired 0 4 30000
loaded 0 4 1
committed 0 4 11 applied 1 0+y
released 0 4
acquired 0 5 30000
flushed 0 5 2
released 0 5
acquired 0 6 30000
unloaded 0 6
released 0 6
sent - 0 3 - u 0 0 2 0+z
acquired 0 7 30000
load-failed 0 7 0 1
committed 0 7 22 store-fault
released 0 7
sent - 0 4 - u 0 0 2 0+z
acquired 0 8 30000
loaded 0 8 2
committed 0 8 27 applied 2 0+z
released 0 8";

fn number(word: Option<&&str>) -> Result<u64, Fail> {
    Ok(word.ok_or("a number")?.parse::<u64>()?)
}

fn small(word: Option<&&str>) -> Result<u32, Fail> {
    Ok(word.ok_or("a number")?.parse::<u32>()?)
}

fn number_or_none(word: Option<&&str>) -> Result<Option<u64>, Fail> {
    if word == Some(&"-") {
        Ok(None)
    } else {
        Ok(Some(number(word)?))
    }
}

fn name(alloc: Global, word: Option<&&str>) -> Result<Name, Fail> {
    let word = word.ok_or("a word")?;
    Ok(Name::read(alloc, word)?.ok_or("a name")?)
}

// A text, with `~` for a space and `/` for a line feed.
fn text(alloc: Global, word: &str) -> Result<Units, Fail> {
    let spaced = word.replace(alloc, "~", " ")?;
    let lines = spaced.as_str().replace(alloc, "/", "\n")?;
    Ok(Units::sanitized(alloc, lines.as_str())?)
}

// A component: its place, then `+`, `-` or `=` and its text, and behind a comment's a thread.
fn comp(alloc: Global, word: &str) -> Result<Comp, Fail> {
    if let Some((at, part)) = word.split_once('+') {
        return Ok(Comp::Ins(at.parse::<u32>()?, text(alloc, part)?));
    }
    if let Some((at, part)) = word.split_once('-') {
        return Ok(Comp::Del(at.parse::<u32>()?, text(alloc, part)?));
    }
    let (at, rest) = word.split_once('=').ok_or("a component")?;
    let (part, thread) = rest.split_once(':').ok_or("a comment")?;
    Ok(Comp::Com(
        at.parse::<u32>()?,
        text(alloc, part)?,
        thread.parse::<u32>()?,
    ))
}

/// An operation: its components, with commas between them.
pub(crate) fn op(alloc: Global, word: &str) -> Result<Op, Fail> {
    let mut op = Op::empty(alloc);
    for part in word.split(',') {
        let comp = comp(alloc, part)?;
        if comp.is_void() {
            return Err(Fail::new("an empty component"));
        }
        op.push(comp).map_err(|failed| failed.0)?;
    }
    Ok(op)
}

fn op_of(alloc: Global, word: Option<&&str>) -> Result<Op, Fail> {
    op(alloc, word.ok_or("an operation")?)
}

fn update(alloc: Global, words: &[&str]) -> Result<Update, Fail> {
    let mut dup = Sources::new(alloc);
    if let Some(source) = number_or_none(words.get(4))? {
        dup.push(source)?;
    }
    let client = match number_or_none(words.get(1))? {
        Some(_) => Some(small(words.get(1))?),
        None => None,
    };
    Ok(Update {
        doc: 0,
        client,
        number: number(words.get(2))?,
        source: number(words.get(3))?,
        dup,
        user: name(alloc, words.get(5))?,
        track: number(words.get(6))? == 1,
        ms: number(words.get(7))?,
        v: number(words.get(8))?,
        op: op_of(alloc, words.get(9))?,
    })
}

fn outcome(alloc: Global, words: &[&str]) -> Result<Outcome, Fail> {
    match words.get(4) {
        Some(&"applied") => Ok(Outcome::Applied {
            v: number(words.get(5))?,
            op: op_of(alloc, words.get(6))?,
        }),
        Some(&"dup") => Ok(Outcome::Dup {
            v: number(words.get(5))?,
        }),
        Some(&"mismatch") => Ok(Outcome::Refused(Cause::Mismatch)),
        Some(&"memory") => Ok(Outcome::Refused(Cause::Memory)),
        Some(&"store-fault") => Ok(Outcome::Refused(Cause::StoreFault)),
        _ => Err(Fail::new("no outcome")),
    }
}

fn why(words: &[&str]) -> Result<Why, Fail> {
    match words.get(2) {
        Some(&"nothing") => Ok(Why::Nothing),
        Some(&"not-joined") => Ok(Why::NotJoined),
        Some(&"not-left") => Ok(Why::NotLeft),
        Some(&"in-flight") => Ok(Why::InFlight),
        Some(&"empty") => Ok(Why::Empty),
        Some(&"uncached") => Ok(Why::Uncached),
        Some(&"ended") => Ok(Why::Stale(Stale::Ended)),
        Some(&"store-fault") => Ok(Why::StoreFault),
        Some(&"stale") => Ok(Why::Stale(Stale::Other(number(words.get(3))?))),
        Some(&"waiting") => Ok(Why::Waiting {
            count: number(words.get(3))?,
        }),
        Some(&"too-old") => Ok(Why::TooOld {
            have: number(words.get(3))?,
        }),
        Some(&"past-end") => Ok(Why::PastEnd {
            len: number(words.get(3))?,
        }),
        Some(&"full") => Ok(Why::Full {
            comps: number(words.get(3))?,
            units: number(words.get(4))?,
        }),
        Some(&"busy") => Ok(Why::Busy(Busy {
            token: number(words.get(3))?,
            until: number(words.get(4))?,
        })),
        Some(&"unflushed") => Ok(Why::Unflushed {
            kept: number_or_none(words.get(3))?,
            have: number(words.get(4))?,
        }),
        _ => Err(Fail::new("no why")),
    }
}

fn brief(words: &[&str]) -> Result<Brief, Fail> {
    let n = number(words.get(3))?;
    match words.get(2) {
        Some(&"op") => Ok(Brief::Op(n)),
        Some(&"ack") => Ok(Brief::Ack(n)),
        Some(&"error") => Ok(Brief::Error(n)),
        _ => Err(Fail::new("no message")),
    }
}

fn act_of_client(alloc: Global, kind: &str, words: &[&str]) -> Result<Act, Fail> {
    let client = small(words.get(1))?;
    match kind {
        "joined" => Ok(Act::Joined {
            client,
            doc: small(words.get(2))?,
            user: name(alloc, words.get(3))?,
            track: number(words.get(4))? == 1,
            since: number_or_none(words.get(5))?,
            source: number(words.get(6))?,
            v: number(words.get(7))?,
        }),
        "edited" => Ok(Act::Edited {
            client,
            comp: comp(alloc, words.get(2).ok_or("a component")?)?,
        }),
        "got" => Ok(Act::Got {
            client,
            brief: brief(words)?,
        }),
        _ => Ok(Act::Left { client }),
    }
}

fn act_of_holder(alloc: Global, kind: &str, words: &[&str]) -> Result<Act, Fail> {
    let doc = small(words.get(1))?;
    let token = number(words.get(2))?;
    match kind {
        "acquired" => Ok(Act::Acquired {
            doc,
            token,
            until: number(words.get(3))?,
        }),
        "loaded" => Ok(Act::Loaded {
            doc,
            token: Some(token),
            v: number(words.get(3))?,
        }),
        "load-failed" => Ok(Act::LoadFailed {
            doc,
            token: Some(token),
            before: number(words.get(3))?,
            after: number(words.get(4))?,
        }),
        "load-differs" => Ok(Act::LoadDiffers {
            doc,
            token: Some(token),
            had: number(words.get(3))?,
            got: number_or_none(words.get(4))?,
        }),
        "committed" => Ok(Act::Committed {
            doc,
            token,
            ticket: number(words.get(3))?,
            outcome: outcome(alloc, words)?,
        }),
        "released" => Ok(Act::Released { doc, token }),
        "flushed" => Ok(Act::Flushed {
            doc,
            token,
            v: number(words.get(3))?,
        }),
        "flush-failed" => Ok(Act::FlushFailed {
            doc,
            token,
            before: number(words.get(3))?,
            after: number(words.get(4))?,
        }),
        "unloaded" => Ok(Act::Unloaded { doc, token }),
        _ => Err(Fail::new("no act")),
    }
}

fn act(alloc: Global, words: &[&str]) -> Result<Act, Fail> {
    let kind = words.first().ok_or("a kind")?;
    match *kind {
        "made" => Ok(Act::Made {
            doc: small(words.get(1))?,
            name: name(alloc, words.get(2))?,
            project: name(alloc, words.get(3))?,
            first: text(alloc, words.get(4).ok_or("a text")?)?,
            base: number(words.get(5))?,
        }),
        "ticked" => Ok(Act::Ticked {
            ms: number(words.get(1))?,
        }),
        "sent" => Ok(Act::Sent {
            update: update(alloc, words)?,
        }),
        "handed" => Ok(Act::Handed {
            project: name(alloc, words.get(1))?,
            count: number(words.get(2))?,
        }),
        "declined" => Ok(Act::Declined {
            session: small(words.get(1))?,
            why: why(words)?,
        }),
        "closed" => Ok(Act::Closed {
            driver: small(words.get(1))?,
        }),
        "joined" | "edited" | "got" | "left" => act_of_client(alloc, kind, words),
        _ => act_of_holder(alloc, kind, words),
    }
}

/// An entry of seat 0.
pub(crate) fn entry(alloc: Global, line: &str) -> Result<Entry, Fail> {
    let mut words = Vec::new(alloc);
    for word in line.split(' ') {
        words.push(word)?;
    }
    Ok(Entry {
        seat: 0,
        line: None,
        act: act(alloc, words.as_slice())?,
    })
}

/// The entries of a worked journal.
pub(crate) fn journal(alloc: Global, row: &str) -> Result<Vec<Entry>, Fail> {
    let mut entries = Vec::new(alloc);
    for line in row.lines() {
        entries.push(entry(alloc, line)?)?;
    }
    Ok(entries)
}
