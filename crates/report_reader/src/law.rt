//! What holds of every line that is written, stated as contracts of functions that do nothing.

ghost use Rattle.report_reader.specs.Laws.{LinesReadBack, ReportsAreWritten, ReportsReadBack, RunsReadBack};

/// The line that is written of an entry of any kind, with its board, its number and the items that it
/// hands out, or of a document, a client or a project, is read as this one. Its numbers, names and
/// texts are of their types, each place in an operation is at most 1,000,000,000, and an edit isn't of
/// the empty text.
#[tactic(auto, using(crate::proofs::Back::lines_back))]
pub fn lines_read_back()
    ensures { LinesReadBack }
{}

/// The lines that are written of entries, documents, clients and projects, which may stand one behind
/// the other so, are read as the report of these.
#[tactic(auto, using(crate::proofs::Whole::reports_back))]
pub fn reports_read_back()
    ensures { ReportsReadBack }
{}

/// In particular, the lines of journals, none of them empty, and then of documents, clients and
/// projects are read as just these.
#[tactic(auto, using(crate::proofs::Runs::runs_back))]
pub fn runs_read_back()
    ensures { RunsReadBack }
{}

/// And a text that is read as a report is, byte by byte, the lines that are written of what it tells.
#[tactic(auto, using(crate::proofs::Reading::reports_written))]
pub fn reports_are_written()
    ensures { ReportsAreWritten }
{}
