//! What a decision is made from, and what it comes to.

use crate::Past;
use journal_entries::{Cause, Update};
use ot_op::Op;
use ot_text::DocText;
use ranges_tracker::Ranges;

/// A document as it was looked at, with the update that is to be decided on. Versions count the
/// operations that were applied.
#[derive(Debug, Drop)]
pub struct Snapshot {
    /// The seat that looked.
    pub seat: u32,
    /// The token of the lock under which it looked.
    pub token: u64,
    /// The document's number, from 0 in the order in which documents were made.
    pub doc: u32,
    /// The update's ticket.
    pub ticket: u64,
    /// The document's version.
    pub version: u64,
    /// The version at which it was made.
    pub base: u64,
    /// Its text at its version.
    pub text: DocText,
    /// The tracked changes and the comments of this text.
    pub ranges: Ranges,
    /// The operations that were applied from the update's version on, the oldest first; none where
    /// the update's version is out of reach.
    pub past: Vec<Past>,
    /// The update.
    pub update: Update,
    /// The length of the journal at the look.
    pub at: u64,
}

/// What becomes of an update.
#[derive(Debug, Drop)]
pub enum Decision {
    /// Its operation is applied as `op`, at the document's version, which makes this text and these
    /// tracked changes and comments.
    Apply {
        op: Op,
        text: DocText,
        ranges: Ranges,
    },
    /// It was applied before, to this version.
    Dup(u64),
    /// It is refused.
    Refuse(Cause),
}
