//! The decision on an update: what was applied to its document of late, and what becomes of it by that.
#![tactic(auto)]

mod deciding;
mod past;
mod scanned;
mod snapshot;
#[cfg(test)]
mod tests;
mod window;

pub use deciding::decide;
pub use past::Past;
pub use snapshot::{Decision, Snapshot};
pub use window::Window;
