//! What is told of a decision before it is committed.

/// Is told of each decision, in the worker's thread and while the worker has no turn: so others may write
/// the journal meanwhile.
pub trait Gate {
    /// Worker `worker` decided on an update of document `doc`, and will ask for its turn to commit that.
    fn computed(&self, worker: u32, doc: u32);
}

/// Does nothing.
#[derive(Clone, Copy, Debug)]
pub struct NoGate;

impl Gate for NoGate {
    fn computed(&self, worker: u32, doc: u32) {
        let _ = (worker, doc);
    }
}
