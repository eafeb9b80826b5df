//! A document's cells in one flat row, as the ranges of Overleaf's document-updater are usually told:
//! live cells, gone cells, and the starts and ends of comments, in the order in which they stand.
//! `ranges_tracker` states everything on cells in coordinates, each with the count of live cells
//! before it. The functions here do nothing: their contracts are the laws that tie the two.
#![tactic(auto)]

ghost use Rattle.flat_cells.specs.Laws.{AgreementAgrees, EachIsLaid, FormAgrees, LaterAreNew, PlainAgrees, ShownAgrees, StepAgrees, StepStaysWellFormed, StepsAgree};

/// Counting live cells turns a well-formed flat row into its coordinates, which are well formed, and
/// gives every well-formed row in coordinates: a plain text's flat row gives the plain row, and a
/// component's step the step of the coordinates, with as many fresh marks. Both rows show the same
/// changes and comments, so ranges agree with a text by flat rows exactly where they do by coordinates.
pub fn flat_rows_agree()
    ensures plain { PlainAgrees }
    ensures form { FormAgrees }
    ensures laid { EachIsLaid }
    ensures step { StepAgrees }
    ensures shown { ShownAgrees }
    ensures agreement { AgreementAgrees }
{}

/// A step keeps a flat row well formed where the update's fresh marks are new, and leaves the next one
/// new; the live cells are then the text after the component. So it goes through the components of an
/// operation, and through operations of rising versions.
pub fn flat_rows_stay_well_formed()
    ensures step { StepStaysWellFormed }
    ensures steps { StepsAgree }
    ensures later { LaterAreNew }
{}
