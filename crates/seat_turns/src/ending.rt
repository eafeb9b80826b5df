//! How one ends who works beside the drivers of sessions.

/// How a worker or the flusher ended.
#[derive(Clone, Copy, Debug, PartialEq, Eq)]
pub enum WorkerEnd {
    /// Each driver has closed, and what is to be done before the end was done: a worker has swept each
    /// document, the flusher has gone once through them.
    Closed,
    /// Memory was wanting. What was done before stands.
    Memory,
}
