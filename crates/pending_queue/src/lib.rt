//! Items that wait their turn, first in, first out, with room that is reserved before it's needed.
#![tactic(auto)]

mod queue;

pub use queue::Queue;

#[cfg(test)]
mod tests;
