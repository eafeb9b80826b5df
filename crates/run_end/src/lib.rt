//! The end of a run: `end_run`, or `end_closed` where the drivers have closed.
#![tactic(auto)]

mod closing;

pub use closing::{end_closed, end_run};
