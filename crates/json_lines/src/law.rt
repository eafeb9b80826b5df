//! What holds of every JSON text that is written on a line, stated as contracts of functions that do
//! nothing.
ghost use Rattle.json_lines.specs.Clean.{CutsBack, StaysOnALine};
ghost use Rattle.json_lines.specs.Law.{BytesReadBack, ReadsBack};

/// The compact text of a well-formed value reads as that value: its numbers are whole and below
/// 2^64, each object has each key once and in byte order, and it nests at most 127 deep.
#[tactic(auto, using(crate::proofs::Back::read_back))]
pub fn reads_back()
    ensures { ReadsBack }
{}

/// [`crate::read_value`] reads the same of the bytes, where each text and key in the value is UTF-8.
#[tactic(auto, using(crate::proofs::Utf8Texts::line_back))]
pub fn bytes_read_back()
    ensures { BytesReadBack }
{}

/// A compact text holds no line feed.
#[tactic(auto, using(crate::proofs::OneLine::stays_on_a_line))]
pub fn stays_on_a_line()
    ensures { StaysOnALine }
{}

/// A text without a line feed that has one behind it is the first line: lines that were written one
/// behind another are cut into the same lines.
#[tactic(auto, using(crate::proofs::Cutting::cut_back))]
pub fn cuts_back()
    ensures { CutsBack }
{}
