//! A source and a sink in memory, of which chosen calls fail.

ghost use Rattle.std.specs.Prelude.{◌≡◌, ◌↔◌, ◌+◌, ◌-◌, ◌^◌, ◌<◌, ◌≤◌, ◌++◌, [], Some, length, take, drop, min, IfOk, IsErr, Contains};
ghost use Rattle.std.specs.Io.{ReadsAtMost, WritesAtMost};
ghost use Rattle.std.specs.Io.KnownBytes.{ReadConsumes, WriteAppends};
ghost use Rattle.source_sink.specs.Causes.{HasCause};

use crate::sink::Sink;
use crate::source::{Failed, Source};
use std::alloc::{AllocError, Global};
use std::marker::Model;

/// A source of bytes in memory, of which chosen calls of `read` fail.
#[derive(Drop)]
pub struct ByteSource {
    bytes: Vec<u8>,
    at: usize,
    fails: Vec<u64>,
    calls: u64,
    faults: u64,
}

impl Model for ByteSource {
    ghost use Rattle.std.specs.Prelude.{◌≤◌, length, drop};
    ghost use Rattle.source_sink.specs.Memory.{MemorySource};

    ghost Value = { MemorySource };

    ghost view = { λ s.
        record {
          left = drop s.at s.bytes.items;
          fails = s.fails.items;
          calls = s.calls;
          faults = s.faults;
        } };

    ghost invariant = { λ s. s.at ≤ length s.bytes.items };
}

impl ByteSource {
    /// A source of `bytes`, whose k-th call of `read`, counted from 1, fails where k is in `fails`.
    pub fn new(alloc: Global, bytes: &[u8], fails: &[u64]) -> Result<ByteSource, AllocError>
        ensures { IfOk result (λ source.
            source ≡ record { left = bytes.now; fails = fails.now; calls = 0; faults = 0 }) }
    {
        Ok(ByteSource {
            bytes: bytes.to_vec(alloc)?,
            at: 0,
            fails: fails.to_vec(alloc)?,
            calls: 0,
            faults: 0,
        })
    }
}

impl Source for ByteSource {
    ghost left = { λ source. Some source.left };

    ghost count = { λ source. source.faults };

    fn read(&mut self, into: &mut [u8]) -> Result<usize, Failed>
        ensures bound { ReadsAtMost result into.new }
        ensures bytes { ReadConsumes (Some self.old.left) (Some self.new.left) result into.new }
        ensures cause { HasCause self.old.faults self.new.faults result }
        ensures as_much_as_fits { IfOk result (λ count.
            count ≡ min (length into.new) (length self.old.left)) }
        ensures calls { self.new.calls ≡ min (self.old.calls + 1) (2 ^ 64 - 1) }
        ensures fails { IsErr result ↔ Contains self.old.fails self.new.calls }
        ensures same_fails { self.new.fails ≡ self.old.fails }
    {
        self.calls = self.calls.saturating_add(1);
        if self.fails.contains(&self.calls) {
            self.faults = self.faults.saturating_add(1);
            return Err(Failed);
        }
        let count = copy_front(&self.bytes, self.at, into);
        self.at += count;
        Ok(count)
    }

    fn faults(&self) -> u64 {
        self.faults
    }
}

/// Copies as many of the bytes from `at` on as fit, to the front of `into`.
pub(crate) fn copy_front(bytes: &[u8], at: usize, into: &mut [u8]) -> usize
    requires { at ≤ length bytes.now }
    ensures count { result ≡ min (length into.new) (length bytes.now - at) }
    ensures copied { drop at bytes.now ≡ take result into.new ++ drop (at + result) bytes.now }
{
    let count = into.len().min(bytes.len() - at);
    into[..count].copy_from_slice(&bytes[at..at + count]);
    count
}

/// A sink that keeps the bytes in memory, and of which chosen calls of `write` fail.
#[derive(Drop)]
pub struct ByteSink {
    bytes: Vec<u8>,
    fails: Vec<u64>,
    calls: u64,
    faults: u64,
}

impl Model for ByteSink {
    ghost use Rattle.source_sink.specs.Memory.{MemorySink};

    ghost Value = { MemorySink };

    ghost view = { λ s.
        record {
          written = s.bytes.items;
          fails = s.fails.items;
          calls = s.calls;
          faults = s.faults;
        } };
}

impl ByteSink {
    /// An empty sink, whose k-th call of `write`, counted from 1, fails where k is in `fails`. A
    /// call fails besides where memory is wanting.
    pub fn new(alloc: Global, fails: &[u64]) -> Result<ByteSink, AllocError>
        ensures { IfOk result (λ sink.
            sink ≡ record { written = []; fails = fails.now; calls = 0; faults = 0 }) }
    {
        Ok(ByteSink {
            bytes: Vec::new(alloc),
            fails: fails.to_vec(alloc)?,
            calls: 0,
            faults: 0,
        })
    }

    /// The bytes that were written.
    pub fn as_slice(&self) -> &[u8]
        ensures { result.now ≡ self.now.written }
    {
        &self.bytes
    }
}

impl Sink for ByteSink {
    ghost written = { λ sink. Some sink.written };

    ghost count = { λ sink. sink.faults };

    fn write(&mut self, from: &[u8]) -> Result<usize, Failed>
        ensures bound { WritesAtMost result from.now }
        ensures some { IfOk result (λ count. 0 < length from.now → 0 < count) }
        ensures bytes { WriteAppends (Some self.old.written) (Some self.new.written) result from.now }
        ensures cause { HasCause self.old.faults self.new.faults result }
        ensures whole { IfOk result (λ count. count ≡ length from.now) }
        ensures calls { self.new.calls ≡ min (self.old.calls + 1) (2 ^ 64 - 1) }

        // The other fault is want of memory.
        ensures fails { Contains self.old.fails self.new.calls → IsErr result }
        ensures same_fails { self.new.fails ≡ self.old.fails }
    {
        self.calls = self.calls.saturating_add(1);
        if self.fails.contains(&self.calls) || self.bytes.extend_from_slice(from).is_err() {
            self.faults = self.faults.saturating_add(1);
            return Err(Failed);
        }
        Ok(from.len())
    }

    fn faults(&self) -> u64 {
        self.faults
    }
}
