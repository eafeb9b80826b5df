//! A book on a board, for seats that take turns on it.

use crate::book::Book;
use board::Journaled;
use keeper::Keeper;

impl<K: Keeper> Journaled for Book<K> {
    ghost journal = { λ b. b.journal };

    ghost drivers = { λ b. b.drivers };

    ghost start = { λ b. b.start };

    fn length(&self) -> u64 {
        self.journal.len()
    }

    fn drivers(&self) -> u32 {
        self.drivers
    }
}
