//! The history of a project: what was applied to its documents, in order, until it is handed out.
#![tactic(auto)]

mod item;
mod queue;

pub use item::Item;
pub use queue::HistoryQueue;

#[cfg(test)]
mod tests;
