//! `Earlier`, the lines so far with what later lines are held against.

ghost use Rattle.std.specs.Prelude.{◌≡◌, ℕ, nat_eq, [], ◌∷◌, ◌++◌, Some, IfOk, OnOk, IsTrue};
ghost use Rattle.indexmap.specs.IndexMap.{get};

use crate::limits::MAX_DOCUMENTS;
use crate::line::Line;
use crate::notes::{note_document, note_home};
use crate::script::Lines;
use indexmap::{IndexMap, IndexSet};
use ot_units::Name;
use std::alloc::{AllocError, Global};
use std::marker::Model;

/// The lines so far, with an index of them. Contracts see the lines.
#[derive(Drop)]
pub(crate) struct Earlier {
    lines: Vec<Line>,
    /// The documents that the lines make.
    documents: IndexSet<Name>,
    /// By session, the document of its first join.
    homes: IndexMap<u32, Name>,
    /// Whether each line makes a document.
    only_documents: bool,
}

impl Model for Earlier {
    ghost use Rattle.std.specs.Prelude.{◌≡◌, ℕ, nat_eq, List, is_some};
    ghost use Rattle.std.specs.List.{list_all};
    ghost use Rattle.indexmap.specs.IndexMap.{get};
    ghost use Rattle.session_lines.specs.declared.line.Line.{Line};

    ghost Value = { List Line };

    ghost use Rattle.session_lines.specs.Earlier.{IsIndexed};

    ghost view = { λ s. s.lines.items };

    ghost invariant = { λ s. IsIndexed s.lines.items s.documents.keys (get nat_eq s.homes) s.only_documents };
}

impl Earlier {
    ghost use Rattle.session_lines.specs.Script.{may_follow, may_join, may_make};

    /// No lines. Takes no memory.
    pub(crate) fn new(alloc: Global) -> Earlier
        ensures { result ≡ [] }
    {
        Earlier {
            lines: Vec::new(alloc),
            documents: IndexSet::new(alloc),
            homes: IndexMap::new(alloc),
            only_documents: true,
        }
    }

    /// Whether a line may stand behind these.
    pub(crate) fn takes(&self, line: &Line) -> bool
        ensures { result ≡ may_follow self.now line.now }
    {
        let may_make = match line.made_document() {
            Some(doc) => self.may_make(doc),
            None => true,
        };
        let may_join = match line.join() {
            Some((session, doc)) => self.may_join(session, doc),
            None => true,
        };
        may_make && may_join
    }

    fn may_make(&self, doc: &Name) -> bool
        ensures { result ≡ may_make self.now (Some doc.now) }
    {
        self.only_documents && self.lines.len() < MAX_DOCUMENTS && !self.documents.contains(doc)
    }

    fn may_join(&self, session: u32, doc: &Name) -> bool
        ensures { result ≡ may_join self.now (Some (session, doc.now)) }
    {
        match self.homes.get(&session) {
            Some(home) => home == doc,
            None => true,
        }
    }

    /// These lines with one more. Where memory is wanting, all are given up.
    pub(crate) fn with(self, alloc: Global, line: Line) -> Result<Earlier, AllocError>
        requires { IsTrue (may_follow self line) }
        ensures { IfOk result (λ more. more ≡ self ++ line ∷ []) }
    {
        let Earlier {
            mut lines,
            mut documents,
            mut homes,
            only_documents,
        } = self;
        let makes_document = line.makes_document();
        note_document(alloc, &mut documents, &line)?;
        note_home(alloc, &mut homes, &line)?;
        lines.push(line)?;
        Ok(Earlier {
            lines,
            documents,
            homes,
            only_documents: only_documents && makes_document,
        })
    }

    /// The lines alone.
    pub(crate) fn into_lines(self) -> Lines
        ensures { result ≡ self }
    {
        let Earlier { lines, .. } = self;
        Lines::new(lines)
    }
}
