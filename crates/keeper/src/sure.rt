//! A keeper in memory that never fails.

ghost use Rattle.std.specs.Prelude.{◌≡◌, [], true};

use crate::documents::Documents;
use crate::keeper::{KeepFault, Keeper};
use ranges_tracker::KeptDoc;
use std::alloc::Global;
use std::marker::Model;

/// A keeper in memory that never fails: its only fault is want of memory. It tells its documents.
#[derive(Drop)]
pub struct SureKeeper {
    documents: Documents,
}

impl Model for SureKeeper {
    ghost use Rattle.std.specs.Prelude.{ℕ, List};
    ghost use Rattle.ranges_tracker.specs.Kept.{Kept};

    ghost Value = { List (List ℕ × Kept) };

    ghost view = { λ s. s.documents };
}

impl SureKeeper {
    /// A keeper without documents. Takes no memory.
    pub fn new(alloc: Global) -> SureKeeper
        ensures { result ≡ [] }
    {
        SureKeeper {
            documents: Documents::new(alloc),
        }
    }
}

impl Keeper for SureKeeper {
    ghost tells = { true };

    ghost documents = { λ keeper. keeper };

    ghost count = { λ _. 0 };

    fn get(&mut self, alloc: Global, name: &str) -> Result<Option<KeptDoc>, KeepFault> {
        Ok(self.documents.get(alloc, name)?)
    }

    fn put(&mut self, alloc: Global, name: &str, doc: KeptDoc) -> Result<(), KeepFault> {
        Ok(self.documents.put(alloc, name, doc)?)
    }

    fn faults(&self) -> u64 {
        0
    }
}
