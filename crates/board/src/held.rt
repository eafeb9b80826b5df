//! The answer to a seat that got no turn.

/// Somebody else had the turn, or was faster. A word is twice the journal's length, and 1 more while
/// somebody has the turn.
#[derive(Clone, Copy, Debug)]
pub struct Held {
    /// What was loaded. Where it is odd, no exchange was tried.
    pub loaded: u64,
    /// What the exchange found in place of `loaded`, or `loaded` where none was tried.
    pub found: u64,
}
