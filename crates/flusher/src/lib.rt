//! The flusher: beside those who write a book that stands on a board, it puts each document whose version
//! isn't kept into the keeper.
#![tactic(auto)]

mod flushing;
mod putting;
mod rounds;

pub use rounds::{FlusherDone, flush_loop};
