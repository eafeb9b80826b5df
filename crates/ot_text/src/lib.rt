//! Texts of documents. Where a document's text is kept, made, given back or read in part, its type is
//! `DocText`; operations edit it as a `TextLike`.
#![tactic(auto)]

ghost use Rattle.std.specs.Prelude.{◌≡◌, IfOk};
ghost use Rattle.ot_text.specs.Part.{part_within};

use ot_units::Units;
use std::alloc::{AllocError, Global};

mod alone;
mod block;
mod chunk;
mod edit;
mod hole;
mod lines;
mod list;
mod open_text;
mod parts;
mod patch;
mod place;
mod text;

pub use lines::TextLines;
pub use open_text::OpenText;
pub use parts::TextParts;
pub use text::Text;

/// The text of a document: a list of UTF-16 code units.
pub type DocText = Text;

/// A document's text of these units. The only error is want of memory.
pub fn doc_text(alloc: Global, units: &Units) -> Result<DocText, AllocError>
    ensures { IfOk result (λ text. text ≡ units.now) }
{
    Text::from_units(alloc, units)
}

/// The units of a document's text. The only error is want of memory.
pub fn doc_units(alloc: Global, text: &DocText) -> Result<Units, AllocError>
    ensures { IfOk result (λ units. units ≡ text.now) }
{
    text.to_units(alloc)
}

/// The `len` units of a document's text from number `at` on, or `None` exactly where `at + len` is
/// past the end of the text. The only error is want of memory.
pub fn doc_part(
    alloc: Global,
    text: &DocText,
    at: usize,
    len: usize,
) -> Result<Option<Units>, AllocError>
    ensures { IfOk result (λ found. found ≡ part_within text.now at len) }
{
    text.part(alloc, at, len)
}
