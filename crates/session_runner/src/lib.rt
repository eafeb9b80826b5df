//! The program: from the words and the input to the report and the status.
#![tactic(auto)]

mod ending;
mod report;
mod run;

pub use run::{Ended, run_alone};
