//! The sources under which an update may have been sent before.

ghost use Rattle.std.specs.Prelude.{◌≡◌, [], ◌∷◌, ◌++◌, OnOk, OnErr, IfOk};

use std::alloc::{AllocError, Global};
use std::marker::Model;

/// Sources in the order in which they were added. Contracts see a list of numbers.
///
/// An update names the sources under which its client may have sent it before. Where one of them
/// has applied it already, it's acknowledged and not applied again (`dupIfSource` of ShareJS 0.5).
#[derive(Debug, Drop)]
pub struct Sources {
    sources: Vec<u64>,
}

impl Model for Sources {
    ghost use Rattle.std.specs.Prelude.{ℕ, List};

    ghost Value = { List ℕ };

    ghost view = { λ s. s.sources.items };
}

impl Sources {
    /// No sources. Takes no memory.
    pub fn new(alloc: Global) -> Sources
        ensures { result ≡ [] }
    {
        Sources {
            sources: Vec::new(alloc),
        }
    }

    /// Adds a source behind the others. The only error is want of memory.
    pub fn push(&mut self, source: u64) -> Result<(), AllocError>
        ensures ok { OnOk result (self.new ≡ self.old ++ source ∷ []) }
        ensures err { OnErr result (self.new ≡ self.old) }
    {
        self.sources.push(source)?;
        Ok(())
    }

    /// The sources in order.
    pub fn as_slice(&self) -> &[u64]
        ensures { result.now ≡ self.now }
    {
        self.sources.as_slice()
    }

    /// A copy with memory of its own. The only error is want of memory.
    pub fn copy(&self) -> Result<Sources, AllocError>
        ensures { IfOk result (λ made. made ≡ self.now) }
    {
        let sources = self.sources.clone()?;
        Ok(Sources { sources })
    }
}
