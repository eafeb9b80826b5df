//! A driver does the lines of a script on a book: `do_lines`, or one line after the other by `Driver`.
#![tactic(auto)]

mod driver;
mod mail;
mod making;
mod syncing;

pub use driver::{Driver, Left, away_clients, do_lines, no_holds, tick};
pub use mail::receive_all;
pub use making::make_documents;
