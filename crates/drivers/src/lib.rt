//! The driver of a run with workers: it does the lines of all sessions on a book that stands on a board,
//! each line in one turn.
#![tactic(auto)]

mod driving;
mod stepping;

pub use driving::{DriverDone, drive};
