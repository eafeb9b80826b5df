//! Tracked changes and comments of a document, after Overleaf's document-updater: what an update makes
//! of them. They are shown from cells in a row (`specs/Cells.antt`), and what is done here is proved
//! to be what is shown of the cells after the update.
#![tactic(auto)]

mod change;
mod changes;
mod comment;
mod comments;
mod covers;
mod deletes;
mod inserts;
mod kept;
mod kinds;
mod laws;
mod lines;
mod mark;
mod mixing;
mod ranges;
mod runs;
mod stamp;
mod texts;
mod tracking;

pub use change::{Change, ChangeKind};
pub use comment::Comment;
pub use kept::KeptDoc;
pub use laws::{ranges_agree, step_applies_to_text, step_keeps, well_formed_is_steady};
pub use lines::Lines;
pub use mark::{Chosen, Mark};
pub use ranges::Ranges;
pub use stamp::Stamp;
pub use tracking::{track, track_op};
