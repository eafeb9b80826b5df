//! Operations moved past each other, after ShareJS 0.5's text type: two operations on one text are
//! crossed, so that each can follow the other and both ways make the same text.
#![tactic(auto)]

mod cross_ops;
mod moved;
mod moving;
mod room;
#[cfg(test)]
mod tests;
mod through_ops;

pub use cross_ops::cross;
pub use room::fits;
pub use through_ops::through;
