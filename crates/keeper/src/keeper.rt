//! Where documents are kept.

ghost use Rattle.std.specs.Prelude.{◌≡◌, ℕ, Bool, IsTrue, List, IfOk, OnOk, OnErr};
ghost use Rattle.ot_units.specs.Text.{is_name};
ghost use Rattle.ranges_tracker.specs.Kept.{Kept};
ghost use Rattle.source_sink.specs.Causes.{HasCauseOf};
ghost use Rattle.keeper.specs.Documents.{document_of, Sets};
ghost use Rattle.keeper.specs.declared.keeper.KeepFault.TheVariants.{Failed, Memory as NoMemory};

use ranges_tracker::KeptDoc;
use std::alloc::{AllocError, Global};
use thiserror::Error;

/// Why a keeper didn't do what was asked.
#[derive(Clone, Copy, Debug, PartialEq, Eq, Error)]
pub enum KeepFault {
    /// The keeper failed, and its count of faults rose.
    #[error("the keeper failed")]
    Failed,
    /// Memory was wanting.
    #[error("out of memory")]
    Memory,
}

impl From<AllocError> for KeepFault {
    ghost from_gives = { λ _ fault. fault ≡ NoMemory };

    fn from(_: AllocError) -> KeepFault {
        KeepFault::Memory
    }
}

/// Where documents are kept by name.
pub trait Keeper: Drop {
    /// Whether keepers of this type tell their documents.
    ghost tells: { Bool };

    /// The documents, each with its name, where the type tells them.
    ghost documents: { Self → List (List ℕ × Kept) };

    /// How many faults there have been.
    ghost count: { Self → ℕ };

    /// The document under a name, or `None` where there is none. Whatever is answered, all documents
    /// stay.
    ///
    /// # Errors
    ///
    /// [`KeepFault::Failed`] only where the count of faults rose in this call, or stands at 2^64 - 1;
    /// [`KeepFault::Memory`] for want of memory.
    fn get(&mut self, alloc: Global, name: &str) -> Result<Option<KeptDoc>, KeepFault>
        requires { IsTrue (is_name name.now) }
        ensures found { IsTrue tells → IfOk result (λ found. found ≡ document_of name.now (documents self.old)) }
        ensures same { IsTrue tells → documents self.new ≡ documents self.old }
        ensures cause { HasCauseOf (count self.old) (count self.new) result Failed };

    /// Keeps a document under a name, in the place of the one that stood there. All others stay.
    ///
    /// # Errors
    ///
    /// As of [`Keeper::get`]. Then all documents stay, and `doc` is let go.
    fn put(&mut self, alloc: Global, name: &str, doc: KeptDoc) -> Result<(), KeepFault>
        requires { IsTrue (is_name name.now) }
        ensures ok { IsTrue tells → OnOk result (Sets name.now doc (documents self.old) (documents self.new)) }
        ensures err { IsTrue tells → OnErr result (documents self.new ≡ documents self.old) }
        ensures cause { HasCauseOf (count self.old) (count self.new) result Failed };

    /// How many faults there have been. The count never falls, and stops at 2^64 - 1.
    fn faults(&self) -> u64
        ensures { result ≡ count self.now };
}
