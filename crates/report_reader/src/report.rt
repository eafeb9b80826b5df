//! `Report`, what a run tells.

use crate::list::Listed;
use history_queue::Item;
use journal_entries::Journal;
use report_text::{ClientEnd, DocEnd, ProjectEnd};

/// What a report tells of a run.
#[derive(Debug, Drop)]
pub struct Report {
    /// The journal of each board, in order of their numbers. None is empty.
    pub journals: Listed<Journal>,
    /// What the `handed` entries handed out, in order.
    pub items: Listed<Item>,
    pub docs: Listed<DocEnd>,
    pub clients: Listed<ClientEnd>,
    pub projects: Listed<ProjectEnd>,
}
