//! Tables of runs, told in a text: the words and the input of each, and what it must write and come to.
#![tactic(auto)]

mod cases;

pub use cases::{Ran, check_cases};
