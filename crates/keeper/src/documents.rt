//! Documents by name, in memory.

ghost use Rattle.std.specs.Prelude.{◌≡◌, [], IsTrue, IfOk, OnOk, OnErr};
ghost use Rattle.ot_units.specs.Text.{is_name};
ghost use Rattle.keeper.specs.Documents.{document_of, Sets};

use indexmap::IndexMap;
use ot_units::Name;
use ranges_tracker::KeptDoc;
use std::alloc::{AllocError, Global};
use std::marker::Model;

/// Documents by name. Contracts see the list of the names, each with its document, in the order in
/// which the names came.
#[derive(Drop)]
pub(crate) struct Documents {
    map: IndexMap<Name, KeptDoc>,
}

impl Model for Documents {
    ghost use Rattle.std.specs.Prelude.{ℕ, List};
    ghost use Rattle.ranges_tracker.specs.Kept.{Kept};

    ghost Value = { List (List ℕ × Kept) };

    ghost view = { λ s. s.map.entries };
}

impl Documents {
    /// No documents. Takes no memory.
    pub(crate) fn new(alloc: Global) -> Documents
        ensures { result ≡ [] }
    {
        Documents {
            map: IndexMap::new(alloc),
        }
    }

    /// A copy of the document under a name.
    pub(crate) fn get(&self, alloc: Global, name: &str) -> Result<Option<KeptDoc>, AllocError>
        requires { IsTrue (is_name name.now) }
        ensures { IfOk result (λ found. found ≡ document_of name.now self.now) }
    {
        let name = named(alloc, name)?;
        match self.map.get(&name) {
            Some(doc) => Ok(Some(doc.copy(alloc)?)),
            None => Ok(None),
        }
    }

    /// Puts a document under a name. Where memory is wanting, all stays as it was.
    pub(crate) fn put(&mut self, alloc: Global, name: &str, doc: KeptDoc) -> Result<(), AllocError>
        requires { IsTrue (is_name name.now) }
        ensures ok { OnOk result (Sets name.now doc self.old self.new) }
        ensures err { OnErr result (self.new ≡ self.old) }
    {
        let name = named(alloc, name)?;
        match self.map.insert(name, doc) {
            Ok(_) => Ok(()),
            Err(_) => Err(AllocError),
        }
    }
}

/// The name that a text of its form is.
fn named(alloc: Global, text: &str) -> Result<Name, AllocError>
    requires { IsTrue (is_name text.now) }
    ensures { IfOk result (λ name. name ≡ text.now) }
{
    match Name::read(alloc, text)? {
        Some(name) => Ok(name),
        None => unreachable!(),
    }
}
