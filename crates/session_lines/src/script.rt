//! `Script`, the lines of a whole script.

ghost use Rattle.std.specs.Prelude.{◌≡◌};

use crate::line::Line;
use crate::names::Names;
use std::marker::Model;

/// A script that was read.
///
/// Its `doc` lines come first and make different documents, at most 1,000. The joins of a session
/// all name one document.
#[derive(Drop)]
pub struct Script {
    /// The lines in order. Line number `k` of the text, from 1, is `lines[k - 1]`.
    pub lines: Lines,
    /// How many sessions there are, at most 256.
    pub sessions: u32,
    /// The sessions' names by number.
    pub names: Names,
}

/// Lines in order.
#[derive(Drop)]
pub struct Lines {
    lines: Vec<Line>,
}

impl Model for Lines {
    ghost use Rattle.std.specs.Prelude.{List};
    ghost use Rattle.session_lines.specs.declared.line.Line.{Line};

    ghost Value = { List Line };

    ghost view = { λ s. s.lines.items };
}

impl Lines {
    /// These lines. Takes no memory.
    pub fn new(lines: Vec<Line>) -> Lines
        ensures { result ≡ lines.items }
    {
        Lines { lines }
    }

    /// The lines, to be taken apart. Takes no memory.
    pub fn into_vec(self) -> Vec<Line>
        ensures { result.items ≡ self }
    {
        let Lines { lines } = self;
        lines
    }

    /// The lines as a slice.
    pub fn as_slice(&self) -> &[Line]
        ensures { result.now ≡ self.now }
    {
        self.lines.as_slice()
    }
}
