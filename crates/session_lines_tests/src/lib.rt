//! Scripts, and what they are read as. The tests stand in a crate of their own, so that `session_lines`
//! isn't proved again for them.
#![tactic(auto)]

#[cfg(test)]
mod tests;
