//! `Past`, an operation that was applied.

ghost use Rattle.std.specs.Prelude.{◌≡◌, IfOk};

use ot_op::Op;
use std::alloc::{AllocError, Global};

/// An operation that was applied to a document, and the source under which its update was sent.
#[derive(Debug, Drop)]
pub struct Past {
    pub source: u64,
    pub op: Op,
}

impl Past {
    /// A copy with memory of its own. The only error is want of memory.
    pub fn copy(&self, alloc: Global) -> Result<Past, AllocError>
        ensures { IfOk result (λ made. made ≡ self.now) }
    {
        Ok(Past {
            source: self.source,
            op: self.op.copy(alloc)?,
        })
    }
}
