//! Who is in which room: each client that joined a document, with the source that it joined under
//! and an outbox, the places of the journal that it is still to be told of.
#![tactic(auto)]

mod member;
mod rooms;

pub use rooms::Rooms;

#[cfg(test)]
mod tests;
