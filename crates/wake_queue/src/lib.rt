//! A queue of wakes: numbers of documents on which updates wait, pushed and popped by any number of
//! threads, first in, first out. A pop that finds nothing proves that the queue was empty at a moment
//! of it.
#![tactic(auto)]

mod laws;
mod past;
mod queue;
mod rule;

pub use laws::empty_must_be_seen;
pub use past::{Beginning, QueuePast};
pub use queue::{WakePass, WakeQueue};

#[cfg(test)]
mod tests;
