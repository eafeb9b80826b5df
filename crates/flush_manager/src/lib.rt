//! Who puts documents into their keeper: `flush_doc` one of them, `flush_all` each that needs it; and
//! what of a document is put there.
#![tactic(auto)]

mod all;
mod flush;

pub use all::flush_all;
pub use flush::{FlushEnd, flush_doc, kept_of};
