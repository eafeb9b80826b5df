//! Updates, and what becomes of them.

use crate::sources::Sources;
use ot_op::Op;
use ot_units::Name;

/// An operation that was sent to a document, as Overleaf's document-updater takes it from its queue.
#[derive(Debug, Drop)]
pub struct Update {
    /// The document's number, from 0 in the order in which documents were made.
    pub doc: u32,
    /// The client that sent it; a raw update has none.
    pub client: Option<u32>,
    /// The client's own number of it; 0 for a raw update.
    pub number: u64,
    /// Under which source it was sent: ShareJS 0.5's `meta.source`, as a number.
    pub source: u64,
    /// The sources under which it may have been sent before: ShareJS 0.5's `dupIfSource`.
    pub dup: Sources,
    pub user: Name,
    /// Whether its changes are tracked.
    pub track: bool,
    /// The clock as it was sent, in milliseconds of the script.
    pub ms: u64,
    /// The version of the document that its operation is for.
    pub v: u64,
    pub op: Op,
}

/// Why an update was refused.
#[derive(Clone, Copy, Debug, PartialEq, Eq, Drop)]
pub enum Cause {
    /// It is for a version above the document's, which is `have`.
    Future { have: u64 },
    /// It is for a version below the document's first, or more than 100 below its present one,
    /// which is `have`.
    TooOld { have: u64 },
    /// Its operation doesn't apply to the document's text, or can't be moved past what was applied
    /// since.
    Mismatch,
    /// It would make the document's text longer than 2,097,152 UTF-16 code units: this long.
    TooLong { len: u64 },
    /// The document couldn't be loaded.
    StoreFault,
    /// Memory was wanting.
    Memory,
}

/// What became of an update.
#[derive(Debug, Drop)]
pub enum Outcome {
    /// It was applied as `op` to version `v`, which made the next version.
    Applied { v: u64, op: Op },
    /// It was applied before, to version `v`, and is acknowledged again.
    Dup { v: u64 },
    Refused(Cause),
}
