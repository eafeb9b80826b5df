//! Worked journals, which `plain_journal` finds legal and reads; with one fault planted it doesn't. The
//! tests stand in a crate of their own, so that `plain_journal` isn't proved again for them.
#![tactic(auto)]

#[cfg(test)]
mod rows;
#[cfg(test)]
mod tests;
