//! `Lines`, the lines of a text.

ghost use Rattle.std.specs.Prelude.{◌≡◌, ◌++◌, ◌∷◌, [], IfOk, OnOk, OnErr};
ghost use Rattle.ot_parts.specs.Lines.{lines_of, joined_lines, IsLine};
ghost use Rattle.ot_units.specs.Text.{IsText};
ghost use Rattle.ranges_tracker.specs.Kept.{AreLines, lengthened};

use crate::texts::push_part;
use ot_parts::line_parts;
use ot_units::Units;
use std::alloc::{AllocError, Global};
use std::marker::Model;

const LINE_FEED: u16 = 0x000A;

/// The lines of a text, at least one, each without its line feed, U+000A.
#[derive(Debug, Drop)]
pub struct Lines {
    lines: Vec<Units>,
}

impl Model for Lines {
    ghost use Rattle.std.specs.Prelude.{ℕ, List};

    ghost Value = { List (List ℕ) };

    ghost use Rattle.ranges_tracker.specs.Kept.{AreLines};

    ghost view = { λ s. s.lines.items };

    ghost invariant = { λ s. AreLines s.lines.items };
}

impl Lines {
    /// One empty line. The only error is want of memory.
    pub fn start(alloc: Global) -> Result<Lines, AllocError>
        ensures { IfOk result (λ made. made ≡ [] ∷ []) }
    {
        let mut lines = Vec::new(alloc);
        lines.push(Units::from_slice(alloc, &[])?)?;
        Ok(Lines { lines })
    }

    /// One more line, empty, behind the last. Where memory is wanting, nothing changes.
    #[tactic(auto, using(crate::proofs::Lengthening::more_lines))]
    pub fn next_line(&mut self) -> Result<(), AllocError>
        ensures ok { OnOk result (self.new ≡ self.old ++ [] ∷ []) }
        ensures err { OnErr result (self.new ≡ self.old) }
    {
        let alloc = *self.lines.allocator();
        let line = Units::from_slice(alloc, &[])?;
        self.lines.push(line)?;
        Ok(())
    }

    /// Puts the UTF-16 code units of `part`, none of them a line feed, behind those of the last line.
    /// Where memory is wanting, nothing changes.
    #[tactic(auto, using(crate::proofs::Lengthening::last_lengthened, crate::proofs::Pushing::put_end, crate::proofs::Lengthening::lengthened_lines))]
    pub fn extend(&mut self, part: &[u16]) -> Result<(), AllocError>
        requires text { IsText part.now }
        requires line { IsLine part.now }
        ensures ok { OnOk result (self.new ≡ lengthened self.old part.now) }
        ensures err { OnErr result (self.new ≡ self.old) }
    {
        let last = self.lines.len() - 1;
        let end = self.lines[last].len();
        self.lines[last].put_in(end, part)
    }

    // The lines of a text.
    pub(crate) fn of(alloc: Global, text: &[u16]) -> Result<Lines, AllocError>
        requires { IsText text.now }
        ensures { IfOk result (λ made. made ≡ lines_of text.now) }
    {
        let mut lines = Vec::new(alloc);
        for line in line_parts(text) {
            lines.push(Units::from_slice(alloc, line)?)?;
        }
        Ok(Lines { lines })
    }

    /// The lines, in order.
    pub fn as_slice(&self) -> &[Units]
        ensures value { result.now ≡ self.now }
        ensures lines { AreLines result.now }
    {
        self.lines.as_slice()
    }

    // A copy of these lines.
    pub(crate) fn copy(&self, alloc: Global) -> Result<Lines, AllocError>
        ensures { IfOk result (λ made. made ≡ self.now) }
    {
        let mut lines = Vec::new(alloc);
        for line in self.as_slice() {
            lines.push(line.copy(alloc)?)?;
        }
        Ok(Lines { lines })
    }

    // The text of these lines, a line feed between each two.
    pub(crate) fn joined(&self, alloc: Global) -> Result<Units, AllocError>
        ensures { IfOk result (λ made. made ≡ joined_lines self.now) }
    {
        let feed = Units::from_slice(alloc, &[LINE_FEED])?;
        let lines = self.as_slice();
        let mut text = lines[0].copy(alloc)?;
        for line in &lines[1..] {
            push_part(&mut text, &feed)?;
            push_part(&mut text, line)?;
        }
        Ok(text)
    }
}
