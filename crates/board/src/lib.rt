//! A board: one value, which one of many seats has at a time. The value has a journal; a seat that has
//! the turn makes the journal longer, and knows what was made between its turns.
#![tactic(auto)]

mod board;
mod held;
mod journaled;
mod rule;
mod seat;
mod view;

pub use board::Board;
pub use held::Held;
pub use journaled::Journaled;
pub use seat::Seat;
pub use view::{Start, View};

#[cfg(test)]
mod tests;
