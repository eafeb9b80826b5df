//! What the calls of a book take, and why they refuse.

ghost use Rattle.std.specs.Prelude.{◌≡◌, IfOk};
ghost use Rattle.book.specs.Looking.{item_by, op_of};

use dup_check::{Decision, Snapshot};
use expiring_lock::{Busy, Stale};
use history_queue::Item;
use journal_entries::Sources;
use ot_op::{FormFault, Op};
use ot_text::DocText;
use ot_units::Name;
use ranges_tracker::{KeptDoc, Ranges};
use std::alloc::{AllocError, Global};

/// By which seat an entry is made, and for which line of the script, from 1, or for none.
#[derive(Clone, Copy, Debug)]
pub struct By {
    pub seat: u32,
    pub line: Option<u32>,
}

/// An update that no client sends, as a script has it.
#[derive(Debug, Drop)]
pub struct RawUpdate {
    pub doc: u32,
    pub user: Name,
    pub source: u64,
    pub dup: Sources,
    pub track: bool,
    pub v: u64,
    pub op: Result<Op, FormFault>,
}

/// A look of a document, and the decision by it.
#[derive(Debug, Drop)]
pub struct Prepared {
    pub look: Snapshot,
    pub decision: Decision,
}

impl Prepared {
    // A copy of the operation that the decision applies, for the document's window.
    pub(crate) fn copy_op(&self, alloc: Global) -> Result<Op, AllocError>
        ensures { IfOk result (λ op. op ≡ op_of self.now.decision) }
    {
        match &self.decision {
            Decision::Apply { op, .. } => op.copy(alloc),
            Decision::Dup(_) | Decision::Refuse(_) => Ok(Op::empty(alloc)),
        }
    }

    // The item of the history for the operation that the decision applies, or `None` where it applies
    // none.
    pub(crate) fn item(&self, alloc: Global) -> Result<Option<Item>, AllocError>
        ensures { IfOk result (λ item. item ≡ item_by self.now.look self.now.decision) }
    {
        let Decision::Apply { op, .. } = &self.decision else {
            return Ok(None);
        };
        Ok(Some(Item {
            doc: self.look.doc,
            v: self.look.version,
            op: op.copy(alloc)?,
            user: self.look.update.user.copy(alloc)?,
            ms: self.look.update.ms,
            length_before: self.look.text.len() as u64,
        }))
    }
}

/// A document as it is taken up to be put into the keeper: `version` counts the operations that were
/// applied to it.
#[derive(Debug, Drop)]
pub struct KeptLook {
    pub token: u64,
    pub doc: u32,
    pub version: u64,
    pub text: DocText,
    pub ranges: Ranges,
}

/// What is put into the keeper for a document, under the token of its lock.
#[derive(Debug, Drop)]
pub struct PreparedKept {
    pub token: u64,
    pub doc: u32,
    pub kept: KeptDoc,
}

/// Why a document isn't put into the keeper.
#[derive(Clone, Copy, Debug, PartialEq, Eq)]
pub enum FlushFault {
    /// The token no longer stands.
    Stale(Stale),
    Memory,
    /// The keeper failed: its count of faults was `before` as the call began, and is `after`.
    StoreFault { before: u64, after: u64 },
}

/// Why a document isn't made.
#[derive(Clone, Copy, Debug, PartialEq, Eq)]
pub enum MakeFault {
    /// One of this name was made, with this number.
    Exists(u32),
    Memory,
}

/// Why the clock doesn't go on.
#[derive(Clone, Copy, Debug, PartialEq, Eq)]
pub enum TickFault {
    /// It would pass 2^62 milliseconds. It is at `now`.
    ClockEnd { now: u64 },
    Memory,
}

/// Why a raw update isn't sent.
#[derive(Clone, Copy, Debug, PartialEq, Eq)]
pub enum RawFault {
    /// Its document wasn't made.
    NoDoc,
    Memory,
}

/// Why a client doesn't join a document.
#[derive(Clone, Copy, Debug, PartialEq, Eq)]
pub enum JoinFault {
    /// The document wasn't made.
    NoDoc,
    /// The client would come back, and hasn't left.
    NotLeft,
    /// The client would come back, and its version is more than 100 below the document's, which is
    /// `have`.
    TooOld { have: u64 },
    Memory,
}

/// Why a client doesn't leave.
#[derive(Clone, Copy, Debug, PartialEq, Eq)]
pub enum LeaveFault {
    /// The client isn't in a document's room: it never joined one, or it left.
    NotJoined,
    Memory,
}

/// Why a document's lock isn't acquired.
#[derive(Clone, Copy, Debug, PartialEq, Eq)]
pub enum AcquireFault {
    /// The document wasn't made.
    NoDoc,
    /// No update waits for it.
    Empty,
    /// It is held, and the lock hasn't expired.
    Busy(Busy),
    /// It isn't cached, and was to be taken up without loading it.
    Uncached,
    Memory,
}

/// Why no history is handed out.
#[derive(Clone, Copy, Debug, PartialEq, Eq)]
pub enum HandFault {
    /// No document of the project was made.
    NoProject,
    Memory,
}

/// Why a decision isn't committed.
#[derive(Debug, Drop)]
pub enum CommitFault {
    /// The token no longer stands.
    Stale(Stale),
    /// Memory was wanting. What was prepared is given back.
    Memory(Prepared),
}
