//! Where documents are kept by name while they aren't held in memory. A [`Keeper`] may tell its
//! documents, and counts its faults, so that a caller's contract can say what an answer stands on and
//! that a fault of the outside has come. There are forms in memory, for tests and for runs that keep
//! nothing behind them.
#![tactic(auto)]

mod documents;
mod failing;
mod keeper;
mod memory;
mod sure;

pub use keeper::{KeepFault, Keeper};
pub use memory::MemoryKeeper;
pub use sure::SureKeeper;

#[cfg(test)]
mod tests;
