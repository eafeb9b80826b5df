//! Texts as lists of UTF-16 code units without surrogates, and names.
#![tactic(auto)]

mod name;
#[cfg(test)]
mod tests;
mod units;

pub use name::Name;
pub use units::Units;
