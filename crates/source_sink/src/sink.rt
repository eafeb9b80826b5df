//! Where bytes go.

ghost use Rattle.std.specs.Prelude.{◌≡◌, ◌≤◌, ◌<◌, ℕ, List, Option, length, take, IfOk, IsOk};
ghost use Rattle.std.specs.Io.{WritesAtMost};
ghost use Rattle.std.specs.Io.KnownBytes.{Appends, WriteAppends};
ghost use Rattle.source_sink.specs.Causes.{HasCause};
ghost use Rattle.source_sink.specs.Outside.{Wrote};

use crate::source::Failed;

/// Where bytes go.
pub trait Sink {
    /// The bytes that were written, where the sink tells them.
    ghost written: { Self → Option (List ℕ) };

    /// How many faults there have been.
    ghost count: { Self → ℕ };

    /// Takes some bytes of the front of `from`, at least one where it isn't empty, and says how
    /// many. After [`Failed`] no byte has been taken.
    fn write(&mut self, from: &[u8]) -> Result<usize, Failed>
        ensures bound { WritesAtMost result from.now }
        ensures some { IfOk result (λ count. 0 < length from.now → 0 < count) }
        ensures bytes { WriteAppends (written self.old) (written self.new) result from.now }
        ensures cause { HasCause (count self.old) (count self.new) result };

    /// How many faults there have been. The count never falls, and stops at 2^64 - 1.
    fn faults(&self) -> u64
        ensures { result ≡ count self.now };
}

/// Writes all of `bytes`. After [`Failed`] a prefix of them has been written.
pub fn write_all<W: Sink>(out: &mut W, bytes: &[u8]) -> Result<(), Failed>
    ensures wrote { Wrote (W.written out.old) (W.written out.new) bytes.now result }
    ensures cause { HasCause (W.count out.old) (W.count out.new) result }
{
    write_front(out, bytes).1
}

/// Writes from the front on, and says beside the outcome how many bytes were written.
pub(crate) fn write_front<W: Sink>(out: &mut W, bytes: &[u8]) -> (usize, Result<(), Failed>)
    ensures within { result.0 ≤ length bytes.now }
    ensures written { Appends (W.written out.old) (W.written out.new) (take result.0 bytes.now) }
    ensures whole { IsOk result.1 → result.0 ≡ length bytes.now }
    ensures cause { HasCause (W.count out.old) (W.count out.new) result.1 }
{
    let mut done = 0;
    'writing: while done < bytes.len() {
        match out.write(&bytes[done..]) {
            Ok(count) => done += count,
            Err(failed) => return (done, Err(failed)),
        }
    }
    (done, Ok(()))
}
