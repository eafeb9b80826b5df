//! Who takes up the updates that wait for documents: `drain`.
#![tactic(auto)]

mod dispatch;

pub use dispatch::{DrainEnd, drain, prepare};
