//! Borrowed parts of texts: a part of a slice, one or two slices seen as one list, and the lines of
//! a text. Nothing here copies units or takes memory.
#![tactic(auto)]

mod lines;
mod parts;
mod pieces;

pub use lines::{LineParts, line_parts};
pub use parts::part;
pub use pieces::Pieces;

#[cfg(test)]
mod tests;
