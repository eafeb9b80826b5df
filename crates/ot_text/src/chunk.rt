//! A chunk: some units that several texts may share. It changes only where one text alone has it.

ghost use Rattle.std.specs.Prelude.{◌≡◌, ◌≤◌, length, IfOk, OnErr, MatchBool};
ghost use Rattle.ot_units.specs.Text.{put_at};

use std::alloc::{AllocError, Global};
use std::marker::Model;
use std::sync::Arc;

/// Units that copies of a text share.
#[derive(Debug, Drop)]
pub(crate) struct Chunk {
    units: Arc<Vec<u16>, Global>,
    len: usize,
}

impl Model for Chunk {
    ghost use Rattle.std.specs.Prelude.{◌≡◌, ℕ, List, length};
    ghost use Rattle.std.specs.Arc.{arc_value};

    ghost Value = { List ℕ };

    ghost view = { λ c. (arc_value c.units).items };

    ghost invariant = { λ c. c.len ≡ length (arc_value c.units).items };
}

impl Chunk {
    /// A chunk of these units.
    pub(crate) fn new(alloc: Global, units: Vec<u16>) -> Result<Chunk, AllocError>
        ensures { IfOk result (λ made. made ≡ units.items) }
    {
        let len = units.len();
        let units = Arc::new(alloc, units)?;
        Ok(Chunk { units, len })
    }

    /// The same chunk once more: no units are copied.
    pub(crate) fn share(&self) -> Result<Chunk, AllocError>
        ensures { IfOk result (λ made. made ≡ self.now) }
    {
        let units = Arc::try_clone(&self.units)?;
        Ok(Chunk {
            units,
            len: self.len,
        })
    }

    /// The units.
    pub(crate) fn as_slice(&self) -> &[u16]
        ensures { result.now ≡ self.now }
    {
        self.units.as_slice()
    }

    /// How many units.
    pub(crate) fn len(&self) -> usize
        ensures { result ≡ length self.now }
    {
        self.len
    }

    /// Puts `other` in before unit number `at` where no other text shares the chunk, and says whether it did.
    pub(crate) fn put_alone(&mut self, at: usize, other: &[u16]) -> Result<bool, AllocError>
        requires { at ≤ length self.old }
        ensures done { IfOk result (λ done. MatchBool done (self.new ≡ put_at self.old at other.now) (self.new ≡ self.old)) }
        ensures err { OnErr result (self.new ≡ self.old) }
    {
        let Some(units) = Arc::get_mut(&mut self.units) else {
            return Ok(false);
        };
        units.extend_from_slice(other)?;
        units[at..].rotate_right(other.len());
        self.len = units.len();
        Ok(true)
    }
}
