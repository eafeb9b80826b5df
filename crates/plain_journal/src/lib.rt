//! What a journal says, by plain loops over its entries: a second account of the definitions, with no
//! index, no cache and no queue.
#![tactic(auto)]

mod allowed_clients;
mod allowed_documents;
mod allowed_history;
mod allowed_locks;
mod allowed_updates;
mod clients;
mod crossing;
mod deciding;
mod declined;
mod delivering;
mod documents;
mod keeping;
mod legal;
mod locks;
mod mail;
mod sent;
mod texts;

pub use allowed_documents::is_named;
pub use allowed_history::{history_len, is_project};
pub use allowed_locks::is_closed;
pub use clients::{Client, client_of};
pub use deciding::decided_on;
pub use documents::{
    Item, Making, applied_list, base, first, is_made, made_count, making_at, makings, update_at,
    version,
};
pub use keeping::{Loading, are_faults_within, is_cached, kept, last_loading};
pub use legal::{is_allowed, is_legal};
pub use locks::{
    Acquiring, clock, holds, is_expired, is_held, is_released, is_used, last_acquiring, last_token,
    next_token,
};
pub use mail::{Outbox, brief_of, briefs, mail_of, outbox_of};
pub use sent::{is_committed, waiting};
pub use texts::{text, text_at};
