//! Workers: each of them takes turns on a book that stands on a board, and drains the documents that
//! wakes name, and at the end all of them.
#![tactic(auto)]

mod draining;
mod gate;
mod settling;
mod working;

pub use gate::{Gate, NoGate};
pub use seat_turns::WorkerEnd;
pub use working::{WorkerDone, work};
