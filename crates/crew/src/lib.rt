//! A crew at work on one book: one who does the lines of a script, workers and a flusher, each in a thread of
//! its own.
#![tactic(auto)]

mod place;
mod seating;
mod together;

pub use together::go_together;
