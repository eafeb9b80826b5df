//! The entries of a journal.

use crate::message::Brief;
use crate::update::{Outcome, Update};
use crate::why::Why;
use ot_op::{Comp, FormFault};
use ot_units::{Name, Units};

/// What happened. Documents, clients, sessions and drivers are named by their numbers, from 0;
/// versions count the operations that were applied; moments count milliseconds of the script's
/// clock.
#[derive(Debug, Drop)]
pub enum Act {
    /// A document was made, with its first text and the version of that text.
    Made {
        doc: u32,
        name: Name,
        project: Name,
        first: Units,
        base: u64,
    },
    /// The clock went on by so many milliseconds.
    Ticked {
        ms: u64,
    },
    /// A client joined a document under a new source, at the document's version. One that comes
    /// back has the version at which it left in `since`.
    Joined {
        client: u32,
        doc: u32,
        user: Name,
        track: bool,
        since: Option<u64>,
        source: u64,
        v: u64,
    },
    /// A client edited its own text.
    Edited {
        client: u32,
        comp: Comp,
    },
    /// An update was sent. The entry's number is its ticket.
    Sent {
        update: Update,
    },
    /// A raw update for a document had no operation in form, and wasn't sent.
    Malformed {
        doc: u32,
        fault: FormFault,
    },
    /// A client got the first message of its mail.
    Got {
        client: u32,
        brief: Brief,
    },
    /// A client left its document.
    Left {
        client: u32,
    },
    /// A document's lock was taken under a token, and expires at a moment.
    Acquired {
        doc: u32,
        token: u64,
        until: u64,
    },
    /// A document was loaded from the keeper at its version, by the holder of a token or for a
    /// client that joins.
    Loaded {
        doc: u32,
        token: Option<u64>,
        v: u64,
    },
    /// A document couldn't be loaded, since the keeper failed: its count of faults rose.
    LoadFailed {
        doc: u32,
        token: Option<u64>,
        before: u64,
        after: u64,
    },
    /// A document couldn't be loaded, since the keeper gave none or one of another version.
    LoadDiffers {
        doc: u32,
        token: Option<u64>,
        had: u64,
        got: Option<u64>,
    },
    /// The outcome of the update that the ticket names, under a lock's token.
    Committed {
        doc: u32,
        token: u64,
        ticket: u64,
        outcome: Outcome,
    },
    /// A document's lock was let go.
    Released {
        doc: u32,
        token: u64,
    },
    /// A document was put into the keeper at a version.
    Flushed {
        doc: u32,
        token: u64,
        v: u64,
    },
    /// A document couldn't be put into the keeper: its count of faults rose.
    FlushFailed {
        doc: u32,
        token: u64,
        before: u64,
        after: u64,
    },
    /// A document's text and ranges left the cache.
    Unloaded {
        doc: u32,
        token: u64,
    },
    /// So many items of a project's history were handed out, the oldest first.
    Handed {
        project: Name,
        count: u64,
    },
    /// A session's line did nothing.
    Declined {
        session: u32,
        why: Why,
    },
    /// A driver did the last of its lines.
    Closed {
        driver: u32,
    },
}

/// What happened, by which seat, and for which line of the script.
#[derive(Debug, Drop)]
pub struct Entry {
    pub seat: u32,
    /// The line's number, from 1. What no line asked for has none.
    pub line: Option<u32>,
    pub act: Act,
}
