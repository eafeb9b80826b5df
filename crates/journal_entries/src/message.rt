//! What clients are told.

use crate::update::Cause;
use ot_op::Op;

/// What a client is told of an update's outcome.
#[derive(Debug, Drop)]
pub enum Msg {
    /// Another's operation was applied to version `v`.
    Op { v: u64, op: Op, source: u64 },
    /// The client's own update of this number stands at version `v`.
    Ack { v: u64, number: u64 },
    /// The client's own update of this number was refused.
    Error { number: u64, cause: Cause },
}

/// A message in short: its kind, with its version or, for an error, its number.
#[derive(Clone, Copy, Debug, PartialEq, Eq, Drop)]
pub enum Brief {
    Op(u64),
    Ack(u64),
    Error(u64),
}
