//! `Draft`, a report while it is read.

ghost use Rattle.report_reader.specs.Drafts.{drafted};
ghost use Rattle.report_reader.specs.Reports.{joined, may_follow, nothing, told_by, with_piece};
ghost use Rattle.std.specs.Prelude.{◌≡◌, Some, None, IfOk, IfErr};

use crate::boards::Boards;
use crate::list::Listed;
use crate::piece::Piece;
use crate::refusal::Refusal;
use crate::report::Report;
use history_queue::Item;
use report_text::{ClientEnd, DocEnd, ProjectEnd};
use std::alloc::{AllocError, Global};

/// What the lines so far show.
#[derive(Drop)]
pub(crate) struct Draft {
    boards: Boards,
    items: Vec<Item>,
    docs: Vec<DocEnd>,
    clients: Vec<ClientEnd>,
    projects: Vec<ProjectEnd>,
}

impl Draft {
    /// Nothing.
    pub(crate) fn new(alloc: Global) -> Draft
        ensures { drafted result ≡ nothing }
    {
        Draft {
            boards: Boards::new(alloc),
            items: Vec::new(alloc),
            docs: Vec::new(alloc),
            clients: Vec::new(alloc),
            projects: Vec::new(alloc),
        }
    }

    /// This with what one line more shows. Where it may not stand there, all is given up.
    pub(crate) fn with(self, alloc: Global, piece: Piece) -> Result<Draft, Refusal>
        ensures ok { IfOk result (λ more. with_piece (drafted self) piece ≡ Some (drafted more)) }
        ensures outside { IfErr result (λ e. e ≡ Refusal.Outside → with_piece (drafted self) piece ≡ None) }
    {
        if !self.takes(&piece) {
            return Err(Refusal::Outside);
        }
        self.joined(alloc, piece)
    }

    // Entries come first, then documents, then clients, then projects.
    fn takes(&self, piece: &Piece) -> bool
        ensures { result ≡ may_follow (drafted self.now) piece.now }
    {
        match piece {
            Piece::Entry(_) => {
                self.docs.is_empty() && self.clients.is_empty() && self.projects.is_empty()
            }
            Piece::Document(_) => self.clients.is_empty() && self.projects.is_empty(),
            Piece::Client(_) => self.projects.is_empty(),
            Piece::Project(_) => true,
        }
    }

    fn joined(self, alloc: Global, piece: Piece) -> Result<Draft, Refusal>
        ensures ok { IfOk result (λ more. joined (drafted self) piece ≡ Some (drafted more)) }
        ensures outside { IfErr result (λ e. e ≡ Refusal.Outside → joined (drafted self) piece ≡ None) }
    {
        let Draft {
            mut boards,
            mut items,
            mut docs,
            mut clients,
            mut projects,
        } = self;
        match piece {
            Piece::Entry(line) => {
                boards = boards.with(alloc, line.board, line.n, line.entry)?;
                items.append(&mut line.items.into_vec())?;
            }
            Piece::Document(end) => docs.push(end)?,
            Piece::Client(end) => clients.push(end)?,
            Piece::Project(end) => projects.push(end)?,
        }
        Ok(Draft {
            boards,
            items,
            docs,
            clients,
            projects,
        })
    }

    /// The report, which is done.
    pub(crate) fn into_report(self) -> Result<Report, AllocError>
        ensures { IfOk result (λ report. told_by report ≡ drafted self) }
    {
        let Draft {
            boards,
            items,
            docs,
            clients,
            projects,
        } = self;
        Ok(Report {
            journals: boards.into_journals()?,
            items: Listed::new(items),
            docs: Listed::new(docs),
            clients: Listed::new(clients),
            projects: Listed::new(projects),
        })
    }
}
