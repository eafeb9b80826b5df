//! Runs in which clients type at random. The tests stand in a crate of their own, above all that they
//! read.
#![tactic(auto)]

#[cfg(test)]
mod report;
#[cfg(test)]
mod script;
#[cfg(test)]
mod tests;
