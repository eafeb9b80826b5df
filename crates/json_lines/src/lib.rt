//! JSON lines: a text of which each line is one JSON value, over `serde_json`.
//!
//! [`Object`] makes a value key by key and writes it as a line. [`text_of`], [`number_of`] and their
//! like look at the members of a value that was read. [`first_line`] cuts a text into lines, and
//! [`read_value`] reads one. [`reads_back`], [`bytes_read_back`], [`stays_on_a_line`] and
//! [`cuts_back`] are the laws that lines of JSON stand on.
//!
//! The bytes of a JSON string that stands for a list of UTF-16 code units without surrogates are the
//! UTF-8 encodings of these units.
#![tactic(auto)]

mod law;
mod lines;
mod object;
mod reading;
#[cfg(test)]
mod tests;

pub use law::{bytes_read_back, cuts_back, reads_back, stays_on_a_line};
pub use lines::{first_line, read_value};
pub use object::Object;
pub use reading::{array_of, count_keys, flag_of, has_key, number_of, number_within, text_of};
