//! The script of a run: JSON lines, each a command.
//!
//! [`read_script`] reads a whole script or names its first bad line. The grammar stands in `specs/`:
//! `Line` says what one line is by itself, and `Script` how the lines before it bear on it.
#![tactic(auto)]

mod action_line;
mod command;
mod doc_line;
mod earlier;
mod edit_lines;
mod fault;
mod fields;
mod keys;
mod limits;
mod line;
mod names;
mod notes;
mod object;
mod raw_line;
mod read;
mod script;

pub use fault::ScriptFault;
pub use limits::{MAX_DOCUMENTS, MAX_SESSIONS, MAX_TICK};
pub use line::Line;
pub use names::Names;
pub use read::read_script;
pub use script::{Lines, Script};
