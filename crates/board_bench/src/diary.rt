//! What the turns are taken on.

ghost use Rattle.std.specs.Prelude.{◌≡◌, ◌++◌, [], List, All};
ghost use Rattle.journal_entries.specs.Journals.{entries};
ghost use Rattle.journal_entries.specs.declared.act.Entry.{Entry};

use board::Journaled;
use journal_entries::{Act, Entry, Journal};
use std::alloc::Global;

/// A journal alone.
#[derive(Drop)]
pub struct Diary {
    journal: Journal,
}

impl Journaled for Diary {
    ghost journal = { λ d. entries d.journal };

    ghost drivers = { λ _. 0 };

    ghost start = { λ _. record { faults = 0; documents = [] } };

    fn length(&self) -> u64 {
        self.journal.len()
    }

    fn drivers(&self) -> u32 {
        0
    }
}

impl Diary {
    /// A diary without entries.
    pub fn new(alloc: Global) -> Diary
        ensures { All (λ e. e.seat ≡ 0) (entries result.journal) }
    {
        Diary {
            journal: Journal::new(alloc),
        }
    }

    /// Makes an entry of this seat: the clock goes on by a millisecond. Where memory is wanting nothing
    /// is made.
    pub fn tick(&mut self, seat: u32)
        ensures { (own : List Entry) × (entries self.new.journal ≡ entries self.old.journal ++ own) × All (λ e. e.seat ≡ seat) own }
    {
        if self.journal.reserve(1).is_err() {
            return;
        }
        self.journal.push(Entry {
            seat,
            line: None,
            act: Act::Ticked { ms: 1 },
        });
    }
}
