//! What a journal is made of: the updates that are sent, what becomes of them, what clients are told,
//! and the entries.
#![tactic(auto)]

mod act;
mod copying;
mod journal;
mod limits;
mod message;
mod sources;
mod update;
mod why;

pub use act::{Act, Entry};
pub use journal::Journal;
pub use limits::{
    FIRST_SOURCE, MAX_AGE, MAX_BASE, MAX_CLIENT_UNITS, MAX_ENTRIES, MAX_MOMENT, MAX_RAW_SOURCE,
};
pub use message::{Brief, Msg};
pub use sources::Sources;
pub use update::{Cause, Outcome, Update};
pub use why::Why;

#[cfg(test)]
mod tests;
