//! A source and a sink that never fail.

ghost use Rattle.std.specs.Prelude.{◌≡◌, ◌++◌, [], Some, IfOk};

use crate::memory::copy_front;
use crate::recorded::{Piece, Recorded};
use crate::sink::Sink;
use crate::source::{Failed, Source};
use std::alloc::{AllocError, Global};
use std::marker::Model;

/// A source of bytes in memory that never fails.
#[derive(Drop)]
pub struct SureSource {
    bytes: Vec<u8>,
    at: usize,
}

impl Model for SureSource {
    ghost use Rattle.std.specs.Prelude.{ℕ, List, ◌≤◌, length, drop};

    ghost Value = { List ℕ };

    ghost view = { λ s. drop s.at s.bytes.items };

    ghost invariant = { λ s. s.at ≤ length s.bytes.items };
}

impl SureSource {
    /// A source of `bytes`.
    pub fn new(alloc: Global, bytes: &[u8]) -> Result<SureSource, AllocError>
        ensures { IfOk result (λ source. source ≡ bytes.now) }
    {
        Ok(SureSource {
            bytes: bytes.to_vec(alloc)?,
            at: 0,
        })
    }
}

impl Source for SureSource {
    ghost left = { λ source. Some source };

    ghost count = { λ _. 0 };

    fn read(&mut self, into: &mut [u8]) -> Result<usize, Failed> {
        let count = copy_front(&self.bytes, self.at, into);
        self.at += count;
        Ok(count)
    }

    fn faults(&self) -> u64 {
        0
    }
}

/// A sink that never fails. A sink that kept its bytes could be in want of memory, so this one keeps
/// them for proofs alone, and nothing can be read from it.
#[derive(Drop)]
pub struct SureSink {
    recorded: Recorded,
}

impl Model for SureSink {
    ghost use Rattle.std.specs.Prelude.{ℕ, List};

    ghost Value = { List ℕ };

    ghost view = { λ s. s.recorded.bytes };
}

impl SureSink {
    /// A sink to which nothing was written yet.
    pub fn new() -> SureSink
        ensures { result ≡ [] }
    {
        SureSink {
            recorded: Recorded::new(),
        }
    }
}

impl Sink for SureSink {
    ghost written = { λ sink. Some sink };

    ghost count = { λ _. 0 };

    fn write(&mut self, from: &[u8]) -> Result<usize, Failed> {
        self.recorded = recorded_with(&self.recorded, from);
        Ok(from.len())
    }

    fn faults(&self) -> u64 {
        0
    }
}

/// The record with `bytes` behind it.
fn recorded_with(recorded: &Recorded, bytes: &[u8]) -> Recorded
    ensures { result.bytes ≡ recorded.now.bytes ++ bytes.now }
{
    recorded.with(&Piece::Bytes(bytes))
}
