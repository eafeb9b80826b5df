//! The turns of a seat on a board with a book: what each of those who write the book beside others
//! does between two looks at it, and whether the drivers have closed.
#![tactic(auto)]

mod ending;
mod turns;
mod watch;

pub use ending::WorkerEnd;
pub use turns::{count_docs, give, sit_down, take};
pub use watch::{Watch, look_closed};
