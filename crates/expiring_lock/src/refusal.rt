//! Why a lock refuses a call.

/// The lock can't be taken, since a token is held that hasn't expired.
#[derive(Clone, Copy, Debug, PartialEq, Eq)]
pub struct Busy {
    /// The token that is held.
    pub token: u64,
    /// When it expires, in milliseconds of the script's clock.
    pub until: u64,
}

/// A token no longer stands for the lock.
#[derive(Clone, Copy, Debug, PartialEq, Eq)]
pub enum Stale {
    /// The last token given is another: this one, or 0 where none was given yet.
    Other(u64),
    /// It is the last token given, and was let go. Token 0 of a lock that was never taken has ended
    /// too.
    Ended,
}
