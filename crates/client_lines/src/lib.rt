//! What the lines of a session do with its client: each line makes its entry in the book, or is
//! declined for its cause.
#![tactic(auto)]

mod edits;
mod joining;
mod leaving;
mod line;
mod mail;
mod returning;
mod sending;

pub use joining::join_named;
pub use line::{ClientLine, do_line};
