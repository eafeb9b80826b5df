//! Lines of JSON that are written member by member, straight into bytes, without a tree. What is
//! written is the line that `json_lines` defines of an object of these members.
#![tactic(auto)]

mod line;

pub use line::LineWriter;

#[cfg(test)]
mod tests;
