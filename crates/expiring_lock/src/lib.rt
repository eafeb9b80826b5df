//! A lock that expires: it's given under a token to one seat for thirty seconds, and may be taken
//! over from then on. Overleaf's document-updater holds such a lock for a document in Redis, with a
//! random value in place of the token.
#![tactic(auto)]

mod lock;
mod refusal;

pub use lock::{LOCK_LIFE, Lock};
pub use refusal::{Busy, Stale};

#[cfg(test)]
mod tests;
