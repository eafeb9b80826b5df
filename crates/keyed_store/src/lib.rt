//! Values by name, numbered from 0 in the order in which they were added.
#![tactic(auto)]

mod store;
#[cfg(test)]
mod tests;

pub use store::{AddFault, Store};
