//! `KeptDoc`, a document as it is kept.

ghost use Rattle.std.specs.Prelude.{◌≡◌, IfOk};
ghost use Rattle.ot_parts.specs.Lines.{lines_of, joined_lines};
ghost use Rattle.ot_units.specs.Text.{IsText};
ghost use Rattle.ranges_tracker.specs.Kept.{IsKept};

use crate::{Lines, Ranges};
use ot_units::Units;
use std::alloc::{AllocError, Global};
use std::marker::Model;

/// A document as it is kept: its lines, its version, which counts its applied operations, and its
/// tracked changes and comments, as Overleaf's document-updater keeps them.
///
/// The ranges agree with the text, the version in each change's id is below the document's version,
/// the text has at most 2,097,152 UTF-16 code units, and the version is at most 2^62.
#[derive(Debug, Drop)]
pub struct KeptDoc {
    lines: Lines,
    version: u64,
    ranges: Ranges,
}

impl Model for KeptDoc {
    ghost use Rattle.ot_parts.specs.Lines.{joined_lines};
    ghost use Rattle.ranges_tracker.specs.Kept.{Kept, IsKept};

    ghost Value = { Kept };

    ghost view = { λ s. record { lines = s.lines; version = s.version; ranges = s.ranges } };

    ghost invariant = { λ s. IsKept (joined_lines s.lines) s.version s.ranges };
}

impl KeptDoc {
    /// The document with this text, version and ranges.
    pub fn make(
        alloc: Global,
        text: &[u16],
        version: u64,
        ranges: &Ranges,
    ) -> Result<KeptDoc, AllocError>
        requires text { IsText text.now }
        requires kept { IsKept text.now version ranges.now }
        ensures { IfOk result (λ made. made ≡ record { lines = lines_of text.now; version = version; ranges = ranges.now }) }
    {
        let lines = Lines::of(alloc, text)?;
        let ranges = ranges.copy(alloc)?;
        Ok(KeptDoc {
            lines,
            version,
            ranges,
        })
    }

    /// The document with these lines, this version and these ranges.
    pub fn of_lines(
        alloc: Global,
        lines: Lines,
        version: u64,
        ranges: &Ranges,
    ) -> Result<KeptDoc, AllocError>
        requires { IsKept (joined_lines lines) version ranges.now }
        ensures { IfOk result (λ made. made ≡ record { lines = lines; version = version; ranges = ranges.now }) }
    {
        let ranges = ranges.copy(alloc)?;
        Ok(KeptDoc {
            lines,
            version,
            ranges,
        })
    }

    /// The lines of the text.
    pub fn lines(&self) -> &Lines
        ensures value { result.now ≡ self.now.lines }
        ensures kept { IsKept (joined_lines self.now.lines) self.now.version self.now.ranges }
    {
        &self.lines
    }

    /// The version: how many operations were applied.
    pub fn version(&self) -> u64
        ensures { result ≡ self.now.version }
    {
        self.version
    }

    /// The tracked changes and the comments.
    pub fn ranges(&self) -> &Ranges
        ensures value { result.now ≡ self.now.ranges }
        ensures kept { IsKept (joined_lines self.now.lines) self.now.version self.now.ranges }
    {
        &self.ranges
    }

    /// The text: the lines with a line feed between each two.
    pub fn text(&self, alloc: Global) -> Result<Units, AllocError>
        ensures { IfOk result (λ made. made ≡ joined_lines self.now.lines) }
    {
        self.lines.joined(alloc)
    }

    /// A copy of this document.
    pub fn copy(&self, alloc: Global) -> Result<KeptDoc, AllocError>
        ensures { IfOk result (λ made. made ≡ self.now) }
    {
        let lines = self.lines.copy(alloc)?;
        let ranges = self.ranges.copy(alloc)?;
        Ok(KeptDoc {
            lines,
            version: self.version,
            ranges,
        })
    }
}
