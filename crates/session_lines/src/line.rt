//! `Line`, what one line of a script asks for.

ghost use Rattle.std.specs.Prelude.{◌≡◌, option_map};
ghost use Rattle.session_lines.specs.Script.{join_of, made_document, makes_document as makes_document_lem, session_of};

use journal_entries::Sources;
use ot_op::{FormFault, Op};
use ot_units::{Name, Units};

/// What one line of a script asks for, with the number of the session that does it.
///
/// Sessions are numbered from 0 in the order in which they first appear in the script. Places and
/// lengths count UTF-16 code units, and `ms` milliseconds of the script's clock.
#[derive(Debug, Drop)]
pub enum Line {
    /// Makes a document of a project, with its first text and the version that this text has.
    Doc {
        doc: Name,
        project: Name,
        text: Units,
        v: u64,
    },
    /// Moves the clock on.
    Tick {
        session: u32,
        ms: u64,
    },
    /// Sends an operation as it stands, past any client. `op` is what reading it gave.
    Raw {
        session: u32,
        doc: Name,
        user: Name,
        source: u64,
        dup: Sources,
        track: bool,
        v: u64,
        op: Result<Op, FormFault>,
    },
    /// Opens a client on a document.
    Join {
        session: u32,
        doc: Name,
        user: Name,
        track: bool,
    },
    /// Opens the client again after it left.
    Rejoin {
        session: u32,
    },
    /// Closes the client.
    Leave {
        session: u32,
    },
    /// Sends what the client has pending.
    Send {
        session: u32,
    },
    /// Sends again what the client has in flight.
    Resend {
        session: u32,
    },
    /// Receives one message.
    Recv {
        session: u32,
    },
    /// Drains the document and receives until nothing is left.
    Sync {
        session: u32,
    },
    /// Commits what the session keeps from a `Hold`.
    Finish {
        session: u32,
    },
    /// Inserts a text at a place of the client's text.
    Ins {
        session: u32,
        p: u32,
        s: Units,
    },
    /// Deletes `n` units at a place.
    Del {
        session: u32,
        p: u32,
        n: u32,
    },
    /// Comments on `n` units at a place, on the thread `t`.
    Com {
        session: u32,
        p: u32,
        n: u32,
        t: u32,
    },
    /// Applies the updates that wait on a document.
    Drain {
        session: u32,
        doc: Name,
    },
    /// Prepares the first waiting update of a document, and keeps the lock.
    Hold {
        session: u32,
        doc: Name,
    },
    /// Writes a document to its keeper.
    Flush {
        session: u32,
        doc: Name,
    },
    /// Drops a document from memory.
    Unload {
        session: u32,
        doc: Name,
    },
    /// Hands over `n` items of a project's history.
    Hand {
        session: u32,
        project: Name,
        n: u32,
    },
}

impl Line {
    /// The number of the session that does the line. A `doc` line is done by none.
    pub fn session(&self) -> Option<u32>
        ensures { result ≡ session_of self.now }
    {
        match self {
            Line::Doc { .. } => None,
            Line::Tick { session, .. }
            | Line::Raw { session, .. }
            | Line::Join { session, .. }
            | Line::Rejoin { session }
            | Line::Leave { session }
            | Line::Send { session }
            | Line::Resend { session }
            | Line::Recv { session }
            | Line::Sync { session }
            | Line::Finish { session }
            | Line::Ins { session, .. }
            | Line::Del { session, .. }
            | Line::Com { session, .. }
            | Line::Drain { session, .. }
            | Line::Hold { session, .. }
            | Line::Flush { session, .. }
            | Line::Unload { session, .. }
            | Line::Hand { session, .. } => Some(*session),
        }
    }

    /// The document that the line makes.
    pub fn made_document(&self) -> Option<&Name>
        ensures { option_map (λ name. name.now) result ≡ made_document self.now }
    {
        match self {
            Line::Doc { doc, .. } => Some(doc),
            _ => None,
        }
    }

    /// Whether the line makes a document.
    pub fn makes_document(&self) -> bool
        ensures { result ≡ makes_document_lem self.now }
    {
        self.made_document().is_some()
    }

    /// The session that the line joins to a document, and this document.
    pub fn join(&self) -> Option<(u32, &Name)>
        ensures { option_map (λ join. (join.0, join.1.now)) result ≡ join_of self.now }
    {
        match self {
            Line::Join { session, doc, .. } => Some((*session, doc)),
            _ => None,
        }
    }
}
