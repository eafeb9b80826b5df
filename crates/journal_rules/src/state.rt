//! Where a client stands.

/// Where a client stands with its document.
#[derive(Clone, Copy, Debug, PartialEq, Eq, Drop)]
pub enum ClientState {
    /// It never joined a document.
    Away,
    /// It is in a document's room, and gets what is committed there.
    Joined,
    /// It left, and may come back to where it was.
    Left,
    /// Its operation in flight was refused. Its text means nothing, and only a new joining helps.
    Stale,
}
