//! Bytes that are read once.

ghost use Rattle.std.specs.Prelude.{◌≡◌, ℕ, List, Option};
ghost use Rattle.std.specs.Io.{ReadsAtMost};
ghost use Rattle.std.specs.Io.KnownBytes.{ReadConsumes};
ghost use Rattle.source_sink.specs.Causes.{HasCause};

use thiserror::Error;

/// A call of a source or of a sink failed, and its count of faults rose.
#[derive(Clone, Copy, Debug, PartialEq, Eq, Error)]
#[error("the source or the sink failed")]
pub struct Failed;

/// Where bytes come from.
pub trait Source {
    /// The bytes that are left, where the source tells them.
    ghost left: { Self → Option (List ℕ) };

    /// How many faults there have been.
    ghost count: { Self → ℕ };

    /// Reads some bytes to the front of `into`, and says how many. It answers 0 only at the end, or
    /// for an empty slice. After [`Failed`] no byte has been taken.
    fn read(&mut self, into: &mut [u8]) -> Result<usize, Failed>
        ensures bound { ReadsAtMost result into.new }
        ensures bytes { ReadConsumes (left self.old) (left self.new) result into.new }
        ensures cause { HasCause (count self.old) (count self.new) result };

    /// How many faults there have been. The count never falls, and stops at 2^64 - 1.
    fn faults(&self) -> u64
        ensures { result ≡ count self.now };
}
