//! The lines of a report, as text: each is the compact JSON of one object and a line feed.
#![tactic(auto)]

mod act;
mod client_end;
mod document_end;
mod entry;
mod frequent;
mod heading;
mod item;
mod members;
mod outcome;
mod project_end;
mod values;
mod why;

pub use client_end::{ClientEnd, EndState, client_line};
pub use document_end::{DocEnd, doc_line};
pub use entry::{append_entry_line, entry_line};
pub use project_end::{ProjectEnd, project_line};
