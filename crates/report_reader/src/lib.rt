//! A report, read back.
//!
//! [`read_report`] gives what a report tells, or names its first line that is outside the grammar. A
//! line is in the grammar exactly where it is the one that `report_text` writes of what it shows.
#![tactic(auto)]

mod act;
mod boards;
mod client;
mod details;
mod document;
mod draft;
mod element;
mod entry;
mod fault;
mod fields;
mod kind;
mod law;
mod list;
mod piece;
mod project;
mod read;
mod refusal;
mod report;

pub use fault::ReportFault;
pub use law::{lines_read_back, reports_are_written, reports_read_back, runs_read_back};
pub use list::Listed;
pub use read::read_report;
pub use report::Report;
