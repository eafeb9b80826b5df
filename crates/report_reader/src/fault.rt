//! `ReportFault`, why a text is no report.

use thiserror::Error;

/// Why a text is no report.
#[derive(Debug, Drop, Error)]
pub enum ReportFault {
    /// The line of this number, from 1, is the first that is outside the grammar.
    #[error("line {0} is no line of a report")]
    Line(u64),
    /// Memory was wanting.
    #[error("out of memory")]
    Memory,
}
