//! `Item`, an operation of a project's history.

use ot_op::Op;
use ot_units::Name;

/// An operation that was applied to a document, as it is handed to a history service. Overleaf's
/// document-updater hands such items to project-history, uncompressed here.
#[derive(Debug, Drop)]
pub struct Item {
    /// The document's number, from 0.
    pub doc: u32,
    /// The version of the document that it was applied to.
    pub v: u64,
    pub op: Op,
    /// Who sent it.
    pub user: Name,
    /// When it was sent, in milliseconds of the script's clock.
    pub ms: u64,
    /// How many UTF-16 code units the document's text had before.
    pub length_before: u64,
}
