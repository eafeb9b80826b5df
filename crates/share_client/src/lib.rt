//! A client of a document, after ShareJS 0.5's: it shows the document's text with its own operations
//! on top, one of which may be in flight while others are pending behind it.
#![tactic(auto)]

mod client;
mod edit;
mod message;
mod returning;
mod send;
mod shift;

pub use client::ShareClient;
pub use edit::{Edit, EditFault};
pub use returning::Missed;
pub use send::{Outgoing, SendFault};

#[cfg(test)]
mod tests;
