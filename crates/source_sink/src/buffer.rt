//! Writing in larger pieces: a buffer before a sink.

ghost use Rattle.std.specs.Prelude.{◌≡◌, ◌<◌, ◌≤◌, ◌+◌, ◌++◌, ℕ, List, [], Option, length, drop, IfOk, OnOk, OnErr};
ghost use Rattle.source_sink.specs.Causes.{HasCause};
ghost use Rattle.source_sink.specs.Buffered.{Delivered, DeliveredPrefix};

use crate::sink::{Sink, write_all, write_front};
use crate::source::Failed;
use std::alloc::{AllocError, Global};
use std::marker::Model;

/// How many bytes a [`WriteBuffer`] holds at most: 64 KiB.
pub const BUFFER_SIZE: usize = 65_536;

/// Bytes on their way to a sink, which is passed to each call. All of its memory is taken when it
/// is made. What it holds goes to the sink by [`WriteBuffer::flush`]: a buffer that is dropped
/// writes nothing.
#[derive(Drop)]
pub struct WriteBuffer {
    bytes: Vec<u8>,
}

impl Model for WriteBuffer {
    ghost use Rattle.std.specs.Prelude.{ℕ, List, ◌≤◌, length, vec_capacity};

    ghost Value = { List ℕ };

    ghost view = { λ buffer. buffer.bytes.items };

    ghost invariant = { λ buffer.
        (length buffer.bytes.items ≤ 65536) × (65536 ≤ vec_capacity buffer.bytes) };
}

impl WriteBuffer {
    /// An empty buffer.
    pub fn new(alloc: Global) -> Result<WriteBuffer, AllocError>
        ensures { IfOk result (λ buffer. buffer ≡ []) }
    {
        let bytes = Vec::with_capacity(alloc, BUFFER_SIZE)?;
        Ok(WriteBuffer { bytes })
    }

    /// The bytes that the sink has not been given yet.
    pub fn as_slice(&self) -> &[u8]
        ensures { result.now ≡ self.now }
    {
        &self.bytes
    }

    /// Puts `bytes` behind what the buffer holds, and writes to `out` where they don't fit. After
    /// [`Failed`] the sink has been given a prefix of all that was pushed, the buffer holds what
    /// comes next of its own bytes, and the end of `bytes` is lost.
    pub fn push<W: Sink>(&mut self, out: &mut W, bytes: &[u8]) -> Result<(), Failed>
        ensures ok { (start : Option (List ℕ)) (text : List ℕ)
            → Delivered start (W.written out.old) self.old text
            → OnOk result (Delivered start (W.written out.new) self.new (text ++ bytes.now)) }
        ensures err { (start : Option (List ℕ)) (text : List ℕ)
            → Delivered start (W.written out.old) self.old text
            → OnErr result
            (DeliveredPrefix start (W.written out.new) self.new (text ++ bytes.now)) }
        ensures cause { HasCause (W.count out.old) (W.count out.new) result }
    {
        self.make_room(out, bytes.len())?;
        if bytes.len() > BUFFER_SIZE {
            return write_all(out, bytes);
        }
        self.hold(bytes);
        Ok(())
    }

    /// Writes what the buffer holds to `out`. After [`Failed`] the buffer holds what was not
    /// written.
    pub fn flush<W: Sink>(&mut self, out: &mut W) -> Result<(), Failed>
        ensures delivered { (start : Option (List ℕ)) (text : List ℕ)
            → Delivered start (W.written out.old) self.old text
            → Delivered start (W.written out.new) self.new text }
        ensures empty { OnOk result (self.new ≡ []) }
        ensures cause { HasCause (W.count out.old) (W.count out.new) result }
    {
        let (count, outcome) = write_front(out, &self.bytes);
        self.remove_front(count);
        outcome
    }

    /// Flushes the buffer where `count` bytes more don't fit.
    fn make_room<W: Sink>(&mut self, out: &mut W, count: usize) -> Result<(), Failed>
        ensures delivered { (start : Option (List ℕ)) (text : List ℕ)
            → Delivered start (W.written out.old) self.old text
            → Delivered start (W.written out.new) self.new text }
        ensures room { OnOk result (count ≤ 65536 → length self.new + count ≤ 65536) }
        ensures empty { OnOk result (65536 < count → self.new ≡ []) }
        ensures cause { HasCause (W.count out.old) (W.count out.new) result }
    {
        if count > BUFFER_SIZE - self.bytes.len() {
            self.flush(out)
        } else {
            Ok(())
        }
    }

    /// Puts bytes that fit behind what the buffer holds.
    fn hold(&mut self, bytes: &[u8])
        requires { length self.old + length bytes.now ≤ 65536 }
        ensures { self.new ≡ self.old ++ bytes.now }
    {
        if self.bytes.extend_from_slice(bytes).is_err() {
            unreachable!();
        }
    }

    /// Takes the first `count` bytes out.
    fn remove_front(&mut self, count: usize)
        requires { count ≤ length self.old }
        ensures { self.new ≡ drop count self.old }
    {
        self.bytes.rotate_left(count);
        self.bytes.truncate(self.bytes.len() - count);
    }
}
