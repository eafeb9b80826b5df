//! What a turn finds and makes: of a document's lock, of the updates that wait for it, of a session's
//! client. These are the words that the book, those who drain and flush, and the relation of script
//! and journals share.
#![tactic(auto)]
