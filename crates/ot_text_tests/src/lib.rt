//! Texts that are edited at the borders of chunks and of blocks, and read. The tests stand in a crate of
//! their own, so that `ot_text` isn't proved again for them.
#![tactic(auto)]

#[cfg(test)]
mod tests;
