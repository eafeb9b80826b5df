//! The fields of a line of JSON that holds one flat object, read over the line's tokens without a tree.
//!
//! [`read_fields`] reads what lines of a script mostly are: an object whose values are texts, whole
//! numbers, flags, and arrays of edits. Of any other line it says nothing.
#![tactic(auto)]

mod edit;
mod field;
mod line;
mod number;
mod scalar;

pub use edit::Edit;
pub use field::{Content, Field, find};
pub use line::read_fields;
pub use scalar::Scalar;
