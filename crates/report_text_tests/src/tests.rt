//! The lines of entries of each kind, and of documents, clients and projects. `'` stands for a
//! quotation mark.

use expiring_lock::{Busy, Stale};
use history_queue::Item;
use journal_entries::{Act, Brief, Cause, Entry, Outcome, Sources, Update, Why};
use ot_op::{Comp, FormFault, Op};
use ot_units::{Name, Units};
use ranges_tracker::{Change, ChangeKind, Comment, Ranges};
use report_text::{
    ClientEnd, DocEnd, EndState, ProjectEnd, append_entry_line, client_line, doc_line, entry_line,
    project_line,
};
use std::alloc::Global;
use std::test::Fail;

fn name(alloc: Global, text: &str) -> Result<Name, Fail> {
    Ok(Name::read(alloc, text)?.ok_or("a name")?)
}

// The operation that puts a text in.
fn insert(alloc: Global, at: u32, text: &str) -> Result<Op, Fail> {
    let comp = Comp::Ins(at, Units::sanitized(alloc, text)?);
    let mut op = Op::empty(alloc);
    if !comp.is_void() {
        op.push(comp).map_err(|failed| failed.0)?;
    }
    Ok(op)
}

// Whether entry 7 of board 1, by seat 2 and for line 9, is written as this line.
fn is_line(alloc: Global, act: Act, items: &[Item], want: &str) -> Result<bool, Fail> {
    let entry = Entry {
        seat: 2,
        line: Some(9),
        act,
    };
    let line = entry_line(alloc, 1, 7, &entry, items)?;
    let want = want.replace(alloc, "'", "\"")?;
    Ok(line.strip_suffix(b"\n") == Some(want.as_str().as_bytes()))
}

// The making of a document.
fn made(alloc: Global) -> Result<Act, Fail> {
    Ok(Act::Made {
        doc: 3,
        name: name(alloc, "a")?,
        project: name(alloc, "p")?,
        first: Units::sanitized(alloc, "a\"b")?,
        base: 5,
    })
}

#[test]
fn writes_documents_that_are_made(rt: HostRuntime) -> Result<(), Fail> {
    let alloc = rt.alloc();
    assert!(rt;
        is_line(
            alloc,
            made(alloc)?,
            &[],
            "{'b':1,'base':5,'doc':3,'e':'made','line':9,'n':7,'name':'a','project':'p','seat':2,'text':'a\\'b'}"
        )?
    );
    Ok(())
}

// An update that is sent.
fn sent(alloc: Global) -> Result<Act, Fail> {
    let mut dup = Sources::new(alloc);
    dup.push(1_000_001)?;
    Ok(Act::Sent {
        update: Update {
            doc: 0,
            client: Some(3),
            number: 1,
            source: 1_000_004,
            dup,
            user: name(alloc, "u")?,
            track: true,
            ms: 11,
            v: 2,
            op: insert(alloc, 1, "X")?,
        },
    })
}

#[test]
fn writes_updates_that_are_sent(rt: HostRuntime) -> Result<(), Fail> {
    let alloc = rt.alloc();
    assert!(rt;
        is_line(
            alloc,
            sent(alloc)?,
            &[],
            "{'b':1,'client':3,'doc':0,'dup':[1000001],'e':'sent','line':9,'ms':11,'n':7,'number':1,'op':[{'i':'X','p':1}],'seat':2,'source':1000004,'track':true,'user':'u','v':2}"
        )?
    );
    let fault = FormFault::TooLarge {
        comps: 1_001,
        units: 1_002,
    };
    assert!(rt;
        is_line(
            alloc,
            Act::Malformed { doc: 0, fault },
            &[],
            "{'b':1,'comps':1001,'doc':0,'e':'malformed','fault':'too-large','line':9,'n':7,'seat':2,'units':1002}"
        )?
    );
    Ok(())
}

// Whether a commit of this outcome is written as a line that ends so.
fn is_committed(alloc: Global, outcome: Outcome, back: &str) -> Result<bool, Fail> {
    let act = Act::Committed {
        doc: 0,
        token: 4,
        ticket: 3,
        outcome,
    };
    let mut want = String::from_str(alloc, "{'b':1,'doc':0,'e':'committed','line':9,")?;
    want.push_str(back)?;
    is_line(alloc, act, &[], want.as_str())
}

// An operation that was applied.
fn applied(alloc: Global) -> Result<Outcome, Fail> {
    Ok(Outcome::Applied {
        v: 5,
        op: insert(alloc, 1, "X")?,
    })
}

#[test]
fn writes_outcomes(rt: HostRuntime) -> Result<(), Fail> {
    let alloc = rt.alloc();
    let back = "'n':7,'op':[{'i':'X','p':1}],'out':'applied','seat':2,'ticket':3,'token':4,'v':5}";
    assert!(rt; is_committed(alloc, applied(alloc)?, back)?);
    let back = "'n':7,'out':'dup','seat':2,'ticket':3,'token':4,'v':5}";
    assert!(rt; is_committed(alloc, Outcome::Dup { v: 5 }, back)?);
    Ok(())
}

// Whether a refusal for a cause is written as a line with this title and these members.
fn is_refused(alloc: Global, cause: Cause, title: &str, members: &str) -> Result<bool, Fail> {
    let act = Act::Committed {
        doc: 0,
        token: 4,
        ticket: 3,
        outcome: Outcome::Refused(cause),
    };
    let mut want = String::from_str(alloc, "{'b':1,'cause':")?;
    want.push_str(title)?;
    want.push_str(",'doc':0,'e':'committed',")?;
    want.push_str(members)?;
    want.push_str("'n':7,'out':'refused','seat':2,'ticket':3,'token':4}")?;
    is_line(alloc, act, &[], want.as_str())
}

#[test]
fn writes_causes(rt: HostRuntime) -> Result<(), Fail> {
    let alloc = rt.alloc();
    let causes = [
        (Cause::Future { have: 8 }, "'future'", "'have':8,'line':9,"),
        (Cause::TooOld { have: 8 }, "'too-old'", "'have':8,'line':9,"),
        (Cause::Mismatch, "'mismatch'", "'line':9,"),
        (Cause::TooLong { len: 8 }, "'too-long'", "'len':8,'line':9,"),
        (Cause::StoreFault, "'store-fault'", "'line':9,"),
        (Cause::Memory, "'memory'", "'line':9,"),
    ];
    for (cause, title, members) in causes {
        assert!(rt; is_refused(alloc, cause, title, members)?, "of {title}");
    }
    Ok(())
}

#[test]
fn writes_whys(rt: HostRuntime) -> Result<(), Fail> {
    let alloc = rt.alloc();
    let busy = Busy { token: 4, until: 5 };
    let whys = [
        (
            Why::NoDoc,
            "'e':'declined','line':9,'n':7,'seat':2,'session':3,'why':'no-doc'}",
        ),
        (
            Why::NoProject,
            "'e':'declined','line':9,'n':7,'seat':2,'session':3,'why':'no-project'}",
        ),
        (
            Why::NotJoined,
            "'e':'declined','line':9,'n':7,'seat':2,'session':3,'why':'not-joined'}",
        ),
        (
            Why::NotLeft,
            "'e':'declined','line':9,'n':7,'seat':2,'session':3,'why':'not-left'}",
        ),
        (
            Why::TooOld { have: 101 },
            "'e':'declined','have':101,'line':9,'n':7,'seat':2,'session':3,'why':'too-old'}",
        ),
        (
            Why::PastEnd { len: 2 },
            "'e':'declined','len':2,'line':9,'n':7,'seat':2,'session':3,'why':'past-end'}",
        ),
        (
            Why::Full {
                comps: 1_001,
                units: 6,
            },
            "'comps':1001,'e':'declined','line':9,'n':7,'seat':2,'session':3,'units':6,'why':'full'}",
        ),
        (
            Why::InFlight,
            "'e':'declined','line':9,'n':7,'seat':2,'session':3,'why':'in-flight'}",
        ),
        (
            Why::Nothing,
            "'e':'declined','line':9,'n':7,'seat':2,'session':3,'why':'nothing'}",
        ),
        (
            Why::Empty,
            "'e':'declined','line':9,'n':7,'seat':2,'session':3,'why':'empty'}",
        ),
        (
            Why::Busy(busy),
            "'e':'declined','line':9,'n':7,'seat':2,'session':3,'token':4,'until':5,'why':'busy'}",
        ),
        (
            Why::Uncached,
            "'e':'declined','line':9,'n':7,'seat':2,'session':3,'why':'uncached'}",
        ),
        (
            Why::Holding,
            "'e':'declined','line':9,'n':7,'seat':2,'session':3,'why':'holding'}",
        ),
        (
            Why::Stale(Stale::Other(4)),
            "'e':'declined','line':9,'n':7,'seat':2,'session':3,'token':4,'why':'stale'}",
        ),
        (
            Why::Stale(Stale::Ended),
            "'e':'declined','line':9,'n':7,'seat':2,'session':3,'token':null,'why':'stale'}",
        ),
        (
            Why::Unflushed {
                kept: None,
                have: 0,
            },
            "'e':'declined','have':0,'kept':null,'line':9,'n':7,'seat':2,'session':3,'why':'unflushed'}",
        ),
        (
            Why::Waiting { count: 1 },
            "'count':1,'e':'declined','line':9,'n':7,'seat':2,'session':3,'why':'waiting'}",
        ),
        (
            Why::StoreFault,
            "'e':'declined','line':9,'n':7,'seat':2,'session':3,'why':'store-fault'}",
        ),
    ];
    for (why, back) in whys {
        let mut want = String::from_str(alloc, "{'b':1,")?;
        want.push_str(back)?;
        assert!(rt;
            is_line(alloc, Act::Declined { session: 3, why }, &[], want.as_str())?,
            "of {back}"
        );
    }
    Ok(())
}

#[test]
fn writes_entries_of_clients_and_locks(rt: HostRuntime) -> Result<(), Fail> {
    let alloc = rt.alloc();
    let joined = Act::Joined {
        client: 1,
        doc: 0,
        user: name(alloc, "ben")?,
        track: true,
        since: Some(3),
        source: 1_000_033,
        v: 3,
    };
    assert!(rt;
        is_line(
            alloc,
            joined,
            &[],
            "{'b':1,'client':1,'doc':0,'e':'joined','from':3,'line':9,'n':7,'seat':2,'source':1000033,'track':true,'user':'ben','v':3}"
        )?
    );
    let comp = Comp::Com(50, Units::sanitized(alloc, "Intro")?, 1);
    assert!(rt;
        is_line(
            alloc,
            Act::Edited { client: 1, comp },
            &[],
            "{'b':1,'client':1,'e':'edited','line':9,'n':7,'op':[{'c':'Intro','p':50,'t':1}],'seat':2}"
        )?
    );
    let item = Item {
        doc: 0,
        v: 4,
        op: insert(alloc, 68, "the ")?,
        user: name(alloc, "ana")?,
        ms: 6,
        length_before: 89,
    };
    let handed = Act::Handed {
        project: name(alloc, "p")?,
        count: 1,
    };
    assert!(rt;
        is_line(
            alloc,
            handed,
            &[item],
            "{'b':1,'e':'handed','items':[{'doc':0,'len':89,'ms':6,'op':[{'i':'the ','p':68}],'user':'ana','v':4}],'line':9,'n':7,'project':'p','seat':2}"
        )?
    );
    let acts = [
        (
            Act::Ticked { ms: 30_000 },
            "{'b':1,'e':'ticked','line':9,'ms':30000,'n':7,'seat':2}",
        ),
        (
            Act::Got {
                client: 1,
                brief: Brief::Op(4),
            },
            "{'b':1,'client':1,'e':'got','line':9,'msg':'op','n':7,'seat':2,'v':4}",
        ),
        (
            Act::Got {
                client: 1,
                brief: Brief::Ack(4),
            },
            "{'b':1,'client':1,'e':'got','line':9,'msg':'ack','n':7,'seat':2,'v':4}",
        ),
        (
            Act::Got {
                client: 1,
                brief: Brief::Error(4),
            },
            "{'b':1,'client':1,'e':'got','line':9,'msg':'error','n':7,'number':4,'seat':2}",
        ),
        (
            Act::Left { client: 1 },
            "{'b':1,'client':1,'e':'left','line':9,'n':7,'seat':2}",
        ),
        (
            Act::Acquired {
                doc: 0,
                token: 4,
                until: 5,
            },
            "{'b':1,'doc':0,'e':'acquired','line':9,'n':7,'seat':2,'token':4,'until':5}",
        ),
        (
            Act::Loaded {
                doc: 0,
                token: None,
                v: 5,
            },
            "{'b':1,'doc':0,'e':'loaded','line':9,'n':7,'seat':2,'token':null,'v':5}",
        ),
        (
            Act::LoadFailed {
                doc: 0,
                token: Some(4),
                before: 5,
                after: 6,
            },
            "{'after':6,'b':1,'before':5,'doc':0,'e':'load-failed','line':9,'n':7,'seat':2,'token':4}",
        ),
        (
            Act::LoadDiffers {
                doc: 0,
                token: Some(4),
                had: 5,
                got: None,
            },
            "{'b':1,'doc':0,'e':'load-differs','got':null,'had':5,'line':9,'n':7,'seat':2,'token':4}",
        ),
        (
            Act::Released { doc: 0, token: 4 },
            "{'b':1,'doc':0,'e':'released','line':9,'n':7,'seat':2,'token':4}",
        ),
        (
            Act::Flushed {
                doc: 0,
                token: 4,
                v: 5,
            },
            "{'b':1,'doc':0,'e':'flushed','line':9,'n':7,'seat':2,'token':4,'v':5}",
        ),
        (
            Act::FlushFailed {
                doc: 0,
                token: 4,
                before: 5,
                after: 6,
            },
            "{'after':6,'b':1,'before':5,'doc':0,'e':'flush-failed','line':9,'n':7,'seat':2,'token':4}",
        ),
        (
            Act::Unloaded { doc: 0, token: 4 },
            "{'b':1,'doc':0,'e':'unloaded','line':9,'n':7,'seat':2,'token':4}",
        ),
        (
            Act::Closed { driver: 0 },
            "{'b':1,'driver':0,'e':'closed','line':9,'n':7,'seat':2}",
        ),
    ];
    for (act, want) in acts {
        assert!(rt; is_line(alloc, act, &[], want)?, "of {want}");
    }
    Ok(())
}

#[test]
fn writes_documents(rt: HostRuntime) -> Result<(), Fail> {
    let alloc = rt.alloc();
    let mut changes = Vec::new(alloc);
    changes.push(Change {
        version: 1,
        k: 2,
        at: 68,
        kind: ChangeKind::Inserted,
        text: Units::sanitized(alloc, "record")?,
        user: name(alloc, "ben")?,
        ms: 0,
    })?;
    changes.push(Change {
        version: 1,
        k: 1,
        at: 74,
        kind: ChangeKind::Deleted,
        text: Units::sanitized(alloc, "measure")?,
        user: name(alloc, "ben")?,
        ms: 9,
    })?;
    let mut comments = Vec::new(alloc);
    comments.push(Comment {
        thread: 1,
        at: 58,
        text: Units::sanitized(alloc, "Intro")?,
    })?;
    let end = DocEnd {
        b: 1,
        doc: 0,
        kept: Some(4),
        name: name(alloc, "main")?,
        ranges: Ranges::of(changes, comments),
        text: Units::sanitized(alloc, "a\nb")?,
        v: 5,
    };
    let want =
        "{'b':1,'changes':[{'at':68,'id':[1,2],'kind':'ins','ms':0,'text':'record','user':'ben'},{'at':74,'id':[1,1],'kind':'del','ms':9,'text':'measure','user':'ben'}],'comments':[{'at':58,'t':1,'text':'Intro'}],'doc':0,'e':'doc','kept':4,'name':'main','text':'a\\nb','v':5}\n";
    let want = want.replace(alloc, "'", "\"")?;
    assert_eq!(rt; doc_line(alloc, &end)?.as_slice(), want.as_str().as_bytes());
    Ok(())
}

// The line of a client named `c`, whose operations put texts in at place 1. The numbers are those of
// its board, its own, that of its document, and its version.
fn line_of_client(
    alloc: Global,
    numbers: (u32, u32, u32, u64),
    state: EndState,
    flight: Option<&str>,
    pending: &str,
    text: Option<&str>,
) -> Result<Vec<u8>, Fail> {
    let (b, client, doc, v) = numbers;
    let flight = match flight {
        Some(text) => Some(insert(alloc, 1, text)?),
        None => None,
    };
    let text = match text {
        Some(text) => Some(Units::sanitized(alloc, text)?),
        None => None,
    };
    let end = ClientEnd {
        b,
        client,
        doc,
        flight,
        name: name(alloc, "c")?,
        pending: insert(alloc, 1, pending)?,
        state,
        text,
        v,
    };
    Ok(client_line(alloc, &end)?)
}

#[test]
fn writes_clients(rt: HostRuntime) -> Result<(), Fail> {
    let alloc = rt.alloc();
    let rows = [
        (
            (0, 0, 0, 2),
            EndState::Joined,
            None,
            "",
            Some("aXc"),
            "{'b':0,'client':0,'doc':0,'e':'client','flight':null,'name':'c','pending':[],'state':'joined','text':'aXc','v':2}\n",
        ),
        (
            (1, 2, 3, 4),
            EndState::Left,
            Some("X"),
            "Y",
            Some(""),
            "{'b':1,'client':2,'doc':3,'e':'client','flight':[{'i':'X','p':1}],'name':'c','pending':[{'i':'Y','p':1}],'state':'left','text':'','v':4}\n",
        ),
        (
            (0, 7, 0, 5),
            EndState::Joined,
            Some(""),
            "Z",
            Some("a\tb"),
            "{'b':0,'client':7,'doc':0,'e':'client','flight':[],'name':'c','pending':[{'i':'Z','p':1}],'state':'joined','text':'a\\tb','v':5}\n",
        ),
        (
            (0, 1, 0, 0),
            EndState::Stale,
            Some("X"),
            "",
            None,
            "{'b':0,'client':1,'doc':0,'e':'client','flight':[{'i':'X','p':1}],'name':'c','pending':[],'state':'stale','text':null,'v':0}\n",
        ),
    ];
    for (numbers, state, flight, pending, text, want) in rows {
        let line = line_of_client(alloc, numbers, state, flight, pending, text)?;
        let want = want.replace(alloc, "'", "\"")?;
        assert_eq!(rt; line.as_slice(), want.as_str().as_bytes());
    }
    Ok(())
}

// A line that is written straight and one that is made of an object, each behind what is there.
#[test]
fn writes_entries_behind_what_is_there(rt: HostRuntime) -> Result<(), Fail> {
    let alloc = rt.alloc();
    let void = Act::Edited {
        client: 1,
        comp: Comp::Ins(0, Units::sanitized(alloc, "")?),
    };
    let entries = [
        Entry {
            seat: 2,
            line: None,
            act: void,
        },
        Entry {
            seat: 2,
            line: None,
            act: Act::Left { client: 1 },
        },
    ];
    let mut bytes = Vec::new(alloc);
    bytes.extend_from_slice(b"before ")?;
    for (n, entry) in entries.iter().enumerate() {
        bytes = append_entry_line(alloc, bytes, 0, n as u64, entry, &[])?;
    }
    let want =
        "before {'b':0,'client':1,'e':'edited','line':null,'n':0,'op':[],'seat':2}\n{'b':0,'client':1,'e':'left','line':null,'n':1,'seat':2}\n";
    let want = want.replace(alloc, "'", "\"")?;
    assert_eq!(rt; bytes.as_slice(), want.as_str().as_bytes());
    Ok(())
}

#[test]
fn writes_projects(rt: HostRuntime) -> Result<(), Fail> {
    let alloc = rt.alloc();
    let rows = [
        (
            0,
            0,
            1,
            "{'b':0,'e':'project','handed':0,'left':1,'project':'p'}\n",
        ),
        (
            1,
            205,
            100,
            "{'b':1,'e':'project','handed':205,'left':100,'project':'p'}\n",
        ),
    ];
    for (b, handed, left, want) in rows {
        let end = ProjectEnd {
            b,
            handed,
            left,
            project: name(alloc, "p")?,
        };
        let want = want.replace(alloc, "'", "\"")?;
        assert_eq!(rt;
            project_line(alloc, &end)?.as_slice(),
            want.as_str().as_bytes()
        );
    }
    Ok(())
}
