//! `Window`, the operations that were applied to a document last.

ghost use Rattle.std.specs.Prelude.{◌≡◌, ◌+◌, ◌-◌, ◌^◌, ◌<◌, ◌≤◌, length, drop, IfOk};
ghost use Rattle.dup_check.specs.Window.{empty_at, pushed, since_in, past_items};

use crate::Past;
use circular_buffer::HeapCircularBuffer;
use journal_entries::MAX_AGE;
use std::alloc::{AllocError, Global};
use std::marker::Model;

/// The operations that were applied to a document last, at most 100 of them, with the document's first
/// version and its present one. Versions count the operations that were applied.
#[derive(Drop)]
pub struct Window {
    base: u64,
    version: u64,
    past: HeapCircularBuffer<Past>,
}

impl Model for Window {
    ghost use Rattle.dup_check.specs.Window.{Recent, IsWindow};

    ghost Value = { Recent };

    ghost view = { λ w. record { base = w.base; version = w.version; last = w.past.items } };

    ghost invariant = { λ w. IsWindow w.base w.version w.past.items w.past.capacity };
}

impl Window {
    /// The window of a document that was made at this version. The only error is want of memory.
    pub fn new(alloc: Global, base: u64) -> Result<Window, AllocError>
        ensures { IfOk result (λ made. made ≡ empty_at base) }
    {
        let past = HeapCircularBuffer::with_capacity(alloc, MAX_AGE as usize)?;
        Ok(Window {
            base,
            version: base,
            past,
        })
    }

    /// The document's first version.
    pub fn base(&self) -> u64
        ensures { result ≡ self.now.base }
    {
        self.base
    }

    /// The document's present version.
    pub fn version(&self) -> u64
        ensures { result ≡ self.now.version }
    {
        self.version
    }

    /// Notes the operation that was applied to the present version, which makes the next one. Where
    /// 100 are kept, the oldest is given up. Takes no memory.
    pub fn push(&mut self, past: Past)
        requires { self.old.version < 2 ^ 64 - 1 }
        ensures { self.new ≡ pushed self.old past }
    {
        self.past.push_back(past);
        self.version += 1;
    }

    /// Copies of the operations from version `v` on, the oldest first, or `None` exactly where `v` is
    /// below the first version, above the present one, or more than 100 below it. The only error is
    /// want of memory.
    pub fn since(&self, alloc: Global, v: u64) -> Result<Option<Vec<Past>>, AllocError>
        ensures { IfOk result (λ found. past_items found ≡ since_in self.now v) }
    {
        if v < self.base || self.version < v || self.version - v > MAX_AGE {
            return Ok(None);
        }
        let first = self.past.len() - (self.version - v) as usize;
        Ok(Some(copied_from(alloc, &self.past, first)?))
    }
}

// Copies of what stands in a buffer from this place on.
fn copied_from(
    alloc: Global,
    kept: &HeapCircularBuffer<Past>,
    first: usize,
) -> Result<Vec<Past>, AllocError>
    requires { first ≤ length kept.now.items }
    ensures { IfOk result (λ made. made.items ≡ drop first kept.now.items) }
{
    let mut made = Vec::with_capacity(alloc, kept.len() - first)?;
    let mut at = first;
    while let Some(past) = kept.get(at) {
        made.push(past.copy(alloc)?)?;
        at += 1;
    }
    Ok(made)
}
