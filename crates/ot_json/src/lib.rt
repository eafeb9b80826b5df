//! The JSON form of operations, after ShareJS 0.5's text type: `{"i":text,"p":place}` for an insert,
//! `{"d":text,"p":place}` for a delete and, this project's own, `{"c":text,"p":place,"t":thread}`
//! for a comment, an operation being an array of these.
//!
//! [`read_op`] reads what clients send, [`read_long`] what [`write_op`] wrote.
#![tactic(auto)]

mod component;
mod fault;
mod read;
mod reading;
#[cfg(test)]
mod tests;
mod write;

pub use fault::OpFault;
pub use read::{read_edits, read_long, read_op};
pub use write::write_op;
