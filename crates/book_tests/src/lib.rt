//! A takeover with two holders, on a book alone. The test stands in a crate of its own, so that `book` isn't
//! proved again for it.
#![tactic(auto)]

#[cfg(test)]
mod tests;
