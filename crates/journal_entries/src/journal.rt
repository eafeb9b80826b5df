//! The journal.

ghost use Rattle.std.specs.Prelude.{◌≡◌, ◌+◌, ◌<◌, ◌≤◌, ◌++◌, ◌∷◌, [], length, slice_get, OnOk, OnErr};
ghost use Rattle.std.specs.Option.{option_copied};
ghost use Rattle.journal_entries.specs.Journals.{entries, spare};
ghost use Rattle.journal_entries.specs.declared.limits.TheConstants.{MAX_ENTRIES};

use crate::act::Entry;
use crate::limits::MAX_ENTRIES;
use std::alloc::{AllocError, Global};
use std::marker::Model;

/// What happened, entry by entry. Contracts see the entries and beside them the spare room: how many
/// more go in without taking memory. A journal has at most 2^61 entries.
#[derive(Debug, Drop)]
pub struct Journal {
    entries: Vec<Entry>,
}

impl Model for Journal {
    ghost use Rattle.std.specs.Prelude.{◌≤◌, length, vec_len, vec_capacity};
    ghost use Rattle.journal_entries.specs.Journals.{Journaled, room_in};
    ghost use Rattle.journal_entries.specs.declared.limits.TheConstants.{MAX_ENTRIES};

    ghost Value = { Journaled };

    ghost view = { λ j. (j.entries.items, room_in (vec_capacity j.entries) (vec_len j.entries)) };

    ghost invariant = { λ j. length j.entries.items ≤ MAX_ENTRIES };
}

impl Journal {
    /// A journal without entries. Takes no memory.
    pub fn new(alloc: Global) -> Journal
        ensures { entries result ≡ [] }
    {
        Journal {
            entries: Vec::new(alloc),
        }
    }

    /// How many entries there are.
    pub fn len(&self) -> u64
        ensures value { result ≡ length (entries self.now) }
        ensures short { result ≤ MAX_ENTRIES }
    {
        self.entries.len() as u64
    }

    /// Makes room for `n` more entries. The only error is want of memory, as which counts that there
    /// would be more than 2^61.
    pub fn reserve(&mut self, n: u64) -> Result<(), AllocError>
        ensures entries { entries self.new ≡ entries self.old }
        ensures room { OnOk result (n ≤ spare self.new) }
        ensures kept { spare self.old ≤ spare self.new }
        ensures full { OnErr result (spare self.old < n) }
    {
        if n > MAX_ENTRIES - self.len() {
            return Err(AllocError);
        }
        self.entries.reserve(n as usize)
    }

    /// Puts an entry behind the others. Takes no memory: the room was made by [`Journal::reserve`].
    pub fn push(&mut self, entry: Entry)
        requires { 0 < spare self.old }
        ensures entries { entries self.new ≡ entries self.old ++ entry ∷ [] }
        ensures spare { spare self.new + 1 ≡ spare self.old }
    {
        self.entries.push_reserved(entry);
    }

    /// The entry of this number, from 0, or `None` where there are fewer.
    pub fn get(&self, n: u64) -> Option<&Entry>
        ensures { option_copied result ≡ slice_get (entries self.now) n }
    {
        self.entries.get(n as usize)
    }

    /// The entries in order.
    pub fn as_slice(&self) -> &[Entry]
        ensures { result.now ≡ entries self.now }
    {
        self.entries.as_slice()
    }
}
