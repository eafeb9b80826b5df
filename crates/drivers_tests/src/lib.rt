//! A driver on a board, from the text of a script on. The tests stand in a crate of their own, so that
//! `drivers` isn't proved again for them.
#![tactic(auto)]

#[cfg(test)]
mod tests;
