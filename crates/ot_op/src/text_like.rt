//! `TextLike`, what an operation applies to.

ghost use Rattle.std.specs.Prelude.{◌≡◌, ◌≤◌, ◌+◌, ℕ, List, length, OnOk, OnErr};
ghost use Rattle.ot_units.specs.Text.{IsText, put_at, cut_at};
ghost use Rattle.ot_op.specs.Apply.{stands};

use ot_parts::part;
use ot_units::Units;
use std::alloc::AllocError;

/// A text that operations edit, seen as a list of UTF-16 code units. What it needs to take memory
/// stands in the value.
pub trait TextLike {
    ghost text: { Self → List ℕ };

    ghost can_remove: { Self → ℕ → ℕ → Type 0 };

    /// The number of units.
    fn len(&self) -> usize
        ensures { result ≡ length (text self.now) };

    /// Whether `other` stands whole in the text, from the unit number `at` on.
    fn same_at(&self, at: usize, other: &[u16]) -> bool
        ensures { result ≡ stands (text self.now) at other.now };

    /// Puts `other` in before the unit number `at`. Where memory is wanting, nothing changes.
    fn insert(&mut self, at: usize, other: &[u16]) -> Result<(), AllocError>
        requires in_text { at ≤ length (text self.old) }
        requires units { IsText other.now }
        ensures ok { OnOk result (text self.new ≡ put_at (text self.old) at other.now) }
        ensures err { OnErr result (text self.new ≡ text self.old) };

    /// Makes a part ready to be removed. The memory that its removal needs is taken here.
    fn ready(&mut self, at: usize, len: usize) -> Result<(), AllocError>
        requires { at + len ≤ length (text self.old) }
        ensures ready { OnOk result (can_remove self.new at len) }
        ensures same { text self.new ≡ text self.old };

    /// Takes `len` units out, from number `at` on, which were made ready for it. It takes no memory.
    fn remove(&mut self, at: usize, len: usize)
        requires inside { at + len ≤ length (text self.old) }
        requires ready { can_remove self.old at len }
        ensures { text self.new ≡ cut_at (text self.old) at len };
}

impl TextLike for Units {
    ghost text = { λ s. s };

    ghost can_remove = { λ s at len. Unit {0} };

    fn len(&self) -> usize {
        self.len()
    }

    fn same_at(&self, at: usize, other: &[u16]) -> bool {
        match part(self.as_slice(), at, other.len()) {
            Some(there) => other == there,
            None => false,
        }
    }

    fn insert(&mut self, at: usize, other: &[u16]) -> Result<(), AllocError> {
        self.put_in(at, other)
    }

    fn ready(&mut self, _at: usize, _len: usize) -> Result<(), AllocError> {
        Ok(())
    }

    fn remove(&mut self, at: usize, len: usize) {
        self.cut(at, len);
    }
}
