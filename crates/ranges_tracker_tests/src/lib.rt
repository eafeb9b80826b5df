//! Updates of small texts worked by hand, and what `ranges_tracker` makes of their changes and comments.
//! The tests stand in a crate of their own, so that `ranges_tracker` isn't proved again for them.
#![tactic(auto)]

#[cfg(test)]
mod tests;
