//! A line for each kind of entry, and for documents, clients and projects. The tests stand in a crate of their own, so that
//! `report_text` isn't proved again for them.
#![tactic(auto)]

#[cfg(test)]
mod tests;
